// Words of a sheet that arrive on standard input by the block.
//
// A block ends where the system's read ends, so it may end within a word: its bytes, three at most, stay at the front of the block until the next one
// is read behind them. `next_words` leaves the words of what arrived at the front of `words`: they are `words_in` of specs/Blocks.antt for some block,
// of whose bytes nothing is promised by the system's read.
#![tactic(auto)]

ghost use Rattle.std.specs.Prelude.{false, true, ◌≡◌, ◌*◌, ◌+◌, ◌/◌, ◌%◌, ◌≤◌, drop, length, take};
ghost use Rattle.feed_blocks.specs.Blocks.{Came, begun_in, words_in};
ghost use Rattle.feed_blocks.specs.Steps.{Kept};

use std::io::{Read, Stdin};
use words::load;

// So many bytes are read at once at most, and so many words they are.
pub const BLOCK_ROOM: usize = 65536;

pub const WORDS_ROOM: usize = 16384;

// What is there of the input: bytes of a word that is begun, words, and whether more may come; `failed` says that it could not be read.
#[derive(Clone, Copy)]
pub struct Next {
    pub begun: usize,
    pub count: usize,
    pub more: bool,
    pub failed: bool,
}

// How many bytes the block then has, and whether a read failed.
#[derive(Clone, Copy)]
struct Filled {
    size: usize,
    failed: bool,
}

// One read behind the first bytes of a block, which stay.
fn read_behind(mut stdin: Stdin, block: &mut [u8], begun: usize) -> Filled
    requires { begun ≤ length block.old }
    ensures begun_le_size { begun ≤ result.size }
    ensures size_in_bounds { result.size ≤ length block.old }
    ensures block_unchanged { take begun block.new ≡ take begun block.old }
{
    match stdin.read(&mut block[begun..]) {
        Ok(got) => Filled {
            size: begun + got,
            failed: false,
        },
        Err(_) => Filled {
            size: begun,
            failed: true,
        },
    }
}

// Bytes of a block from a place on to its front.
fn bring_forward(block: &mut [u8], from: usize, count: usize)
    requires { from + count ≤ length block.old }
    ensures { take count block.new ≡ take count (drop from block.old) }
{
    block.copy_within(from..from + count, 0);
}

// The words of a block's first bytes to the front of `words`, and the bytes behind them to its own front; how many words there are.
#[tactic(auto, using(crate::proofs::Bytes::brought, crate::proofs::Bytes::loaded))]
fn take_words(block: &mut [u8], size: usize, words: &mut [i32]) -> usize
    requires size_in_bounds { size ≤ length block.old }
    requires size_in_bounds_2 { size / 4 ≤ length words.old }
    ensures value { result ≡ size / 4 }
    ensures words_after { take result words.new ≡ words_in (take size block.old) }
    ensures block_after { take (size % 4) block.new ≡ begun_in (take size block.old) }
{
    let count = size / 4;
    load(&block[..size], 0, &mut words[..count]);
    bring_forward(block, count * 4, size % 4);
    count
}

// The next words, where `wanted`: the input is read once. Where no more can come the bytes of a word that is begun stay as many.
pub fn next_words(
    stdin: Stdin,
    wanted: bool,
    begun: usize,
    block: &mut [u8],
    words: &mut [i32],
) -> Next
    requires begun_bound { begun ≤ 3 }
    requires block_len { length block.old ≡ 65536 }
    requires words_len { length words.old ≡ 16384 }
    ensures kept { Kept result }
    ensures came { result.more ≡ true → Came (take begun block.old) (take result.count words.new) (take result.begun block.new) }
    ensures begun_value { result.more ≡ false → result.begun ≡ begun }
    ensures wanted_value { result.more ≡ true → wanted ≡ true }
{
    if !wanted {
        return Next {
            begun,
            count: 0,
            more: false,
            failed: false,
        };
    }
    let filled = read_behind(stdin, block, begun);
    if filled.size == begun {
        return Next {
            begun,
            count: 0,
            more: false,
            failed: filled.failed,
        };
    }
    let count = take_words(block, filled.size, words);
    Next {
        begun: filled.size % 4,
        count,
        more: true,
        failed: false,
    }
}
