// Standard input and output of a program that takes a record, and the rules that its argument names.
//
// A read that fails (a directory, a closed input, an error of the device) is told apart from the end of the input: what was read before it is no record.
// What is written is written at once, and what is not written whole is said on standard error.
#![tactic(auto)]

ghost use Rattle.std.specs.Prelude.{◌≡◌, ◌≤◌, IfOk, length, take};

use rules::{Rules, by_name};
use std::env::FillError;
use std::io;
use std::io::{Read, Stdin};
use std::rt::Env;

// One byte more than a record may have, so that a longer one is seen to be too long.
pub const INPUT_ROOM: usize = 24577;

// Longer than any name of rules, so that a longer argument is none.
const NAME_ROOM: usize = 32;

// The rules that the program's one argument names; FreeType's, the newest, where it has none.
pub fn chosen_rules(rt: &impl Env) -> Option<Rules> {
    if has_arg(rt, 2) {
        return None;
    }
    let mut name = [0u8; NAME_ROOM];
    match rt.arg(1, &mut name) {
        Ok(size) => by_name(&name[..size]),
        Err(FillError::NotPresent) => Some(Rules::FreeType),
        Err(FillError::TooLong) => None,
    }
}

// Whether the program was started with an argument at this place, however long.
fn has_arg(rt: &impl Env, i: usize) -> bool {
    let mut word = [0u8; NAME_ROOM];
    !matches!(rt.arg(i, &mut word), Err(FillError::NotPresent))
}

pub fn say_no_such_rules(rt: &impl Eprint) {
    let _ = eprintln!(rt;
        "no such rules: the one argument is skrifa or freetype, and none means freetype"
    );
}

// Standard input to the front of `bytes`, until it ends or they are full; how many bytes were read.
pub fn read_input(mut stdin: Stdin, bytes: &mut [u8]) -> io::Result<usize>
    ensures in_bounds { IfOk result (λ size. size ≤ length bytes.new) }
    ensures prefix { IfOk result (λ size. size ≡ length (take size bytes.new)) }
{
    let mut size = 0;
    // Counted by hand: a read brings any number of bytes.
    while size < bytes.len() {
        let more = stdin.read(&mut bytes[size..])?;
        if more == 0 {
            break;
        }
        size += more;
    }
    Ok(size)
}

pub fn say_unread(rt: &impl Eprint) {
    let _ = eprintln!(rt; "standard input cannot be read");
}

pub fn write_output(rt: &(impl Print + Eprint), bytes: &[u8]) {
    if rt.write_all(bytes).is_err() {
        let _ = eprintln!(rt; "standard output was not written whole");
    }
}
