// How many of the oracle's answers a program agreed with, and the line that it prints; and standard input by the piece, for the programs that read rows.
#![tactic(auto)]

ghost use Rattle.std.specs.Prelude.{◌≡◌, ◌≤◌, length, take};

use std::io;
use std::io::{Read, Stdin};

#[derive(Clone, Copy)]
pub struct Tally {
    pub same: u64,
    pub other: u64,
}

impl Tally {
    pub fn new() -> Tally {
        Tally { same: 0, other: 0 }
    }

    pub fn count(self, agreed: bool) -> Tally {
        if agreed {
            Tally {
                same: self.same.wrapping_add(1),
                other: self.other,
            }
        } else {
            Tally {
                same: self.same,
                other: self.other.wrapping_add(1),
            }
        }
    }

    pub fn print(self, rt: &impl Print) -> io::Result<()> {
        let same = self.same;
        let other = self.other;
        println!(rt; "{same} rows agree, {other} differ")
    }
}

// What is counted so far, and whether the input may have more.
#[derive(Clone, Copy)]
pub struct Turn {
    pub tally: Tally,
    pub more: bool,
}

// Standard input to the front of `bytes`, until they are full, it ends, or a read fails; how many bytes were read.
pub fn read_full(mut stdin: Stdin, bytes: &mut [u8]) -> usize
    ensures in_bounds { result ≤ length bytes.new }
    ensures prefix { result ≡ length (take result bytes.new) }
{
    let mut size = 0;
    // Counted by hand: a read brings any number of bytes.
    while size < bytes.len() {
        let more = stdin.read(&mut bytes[size..]).unwrap_or(0);
        if more == 0 {
            break;
        }
        size += more;
    }
    size
}
