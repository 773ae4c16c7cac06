// The words of a line that arrives in pieces: whether they are a whole line yet, and where they are kept.
//
// `look` answers for every list of words, by the tests of `opcodes::decode` in their order; what is too long to wait for is told from what is no line.
// Nothing here reads the glyph or the state.
#![tactic(auto)]

ghost use Rattle.std.specs.Prelude.{◌≡◌, ◌+◌, ◌≤◌, length};
ghost use Rattle.feed_look.specs.Look.{long_by, look_of};
ghost use Rattle.feed_look.specs.Steps.{Counted, Put, whole_by};

use int::as_index;
use opcodes::{UNKNOWN, need_of};

// Operands of a line that may wait for its rest.
pub const OPERANDS: u64 = 4096;

// Words of such a line, with its opcode and its count.
pub const LINE: usize = 4098;

#[derive(Clone, Copy)]
pub enum Seen {
    // No word yet, or not all of the line's.
    Waits,
    // An opcode word that is no known opcode, or a count below zero.
    Bad,
    // More operands than may wait.
    Long,
    // A line of so many words.
    Whole(usize),
}

fn long(count: u64) -> Seen
    ensures { result ≡ long_by count }
{
    if count < 0x8000_0000 {
        Seen::Long
    } else {
        Seen::Bad
    }
}

// The words from the first of a line on.
pub fn look(words: &[i32]) -> Seen
    ensures { result ≡ look_of words.now }
{
    if words.len() < 1 {
        return Seen::Waits;
    }
    let opcode = as_index(words[0]) as usize;
    if 255 < opcode {
        return Seen::Bad;
    }
    let wants = need_of(opcode);
    if wants == UNKNOWN {
        return Seen::Bad;
    }
    if words.len() < 2 {
        return Seen::Waits;
    }
    let count = as_index(words[1]);
    if OPERANDS < count {
        return long(count);
    }
    let whole = count as usize + 2;
    if words.len() < whole {
        return Seen::Waits;
    }
    Seen::Whole(whole)
}

// How many words a line has, 0 where it isn't whole.
pub fn words_of(seen: Seen) -> usize
    ensures { result ≡ whole_by seen }
{
    match seen {
        Seen::Whole(n) => n,
        Seen::Waits => 0,
        Seen::Bad => 0,
        Seen::Long => 0,
    }
}

// Whole lines from a place on, and the place after them.
#[derive(Clone, Copy)]
pub struct Ahead {
    pub lines: u64,
    pub end: usize,
}

// As many lines as are whole.
pub fn lines_ahead(sheet: &[i32], at: usize) -> Ahead
    requires { at ≤ length sheet.now }
    ensures { Counted sheet.now at result.lines result.end }
{
    let mut end = at;
    let mut lines = 0u64;
    while let Seen::Whole(words) = look(&sheet[end..]) {
        end += words;
        lines += 1;
    }
    Ahead { lines, end }
}

// Words put behind those that a list holds already; the place after them.
pub fn append(words: &[i32], kept: &mut [i32], at: usize) -> usize
    requires { at + length words.now ≤ length kept.old }
    ensures { Put words.now at result kept.old kept.new }
{
    // One by one: the library's copy calls memmove, which the archive for C would then ask of whoever links it.
    for i in 0..words.len() {
        kept[at + i] = words[i];
    }
    at + words.len()
}
