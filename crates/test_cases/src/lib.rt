// One case of the oracle's stream: a call, the world that it is given, and the outcome as the words that it changed (docs/ORACLE.md).
//
// A case is little-endian words. Word 0 says how many there are, 1 which call, 2 to 9 hold its arguments, 10 to 13 start and budget, 14 to 22
// what it says, 23 the number of changed words, 24 to 38 the lengths of the fifteen lists (bit 31: one word stands for every element). From 39 on
// stand the state's words, the last the count of wrapped roundings; then come the lists and the changes, each an index and the new word. What lies
// outside the case reads as 0, so a case that is cut short is no reason to stop. Nothing is promised here but that every function is safe and ends.
#![tactic(auto)]

ghost use Rattle.std.specs.Prelude.{◌≤◌, length};

use graphics::GraphicsState;
use int::from_bits;
use state_words::read_state;
use words::word_at;

pub const KIND: u64 = 1;

pub const ARGUMENTS: u64 = 2;

pub const ANSWER: u64 = 14;

pub const DETAIL: u64 = 19;

pub const VALUE: u64 = 21;

pub const CHANGES: u64 = 23;

pub const LENGTHS: u64 = 24;

pub const STATE: u64 = 39;

pub const STATE_WORDS: u64 = state_words::STATE_WORDS as u64;

pub const LISTS: u64 = 15;

// ---- words
// The case's word k, 0 outside.
pub fn word(case: &[u8], k: u64) -> u32 {
    if k < 0x100_0000 {
        word_at(case, k as usize * 4)
    } else {
        0
    }
}

pub fn number(case: &[u8], k: u64) -> i32 {
    from_bits(word(case, k))
}

pub fn after(k: u64, by: u64) -> u64 {
    std::num::wrapping_add_u64(k, by)
}

pub fn wide(x: u32) -> u64 {
    x as u64
}

// A number of 64 bits, its low word first.
pub fn long(case: &[u8], k: u64) -> u64 {
    joined(word(case, k), word(case, after(k, 1)))
}

fn joined(low: u32, high: u32) -> u64 {
    low as u64 + high as u64 * 0x1_0000_0000
}

// ---- the state
fn fill_state(case: &[u8], out: &mut [u32]) {
    for (j, word_out) in out.iter_mut().enumerate() {
        *word_out = word(case, after(STATE, j as u64));
    }
}

pub fn state_of(case: &[u8]) -> GraphicsState {
    let mut words = [0u32; state_words::STATE_WORDS];
    fill_state(case, &mut words);
    read_state(&words)
}

// ---- the lists
// Where a list stands: its first word in the case, its first index among the state's words and the lists written out, its length,
// and whether one word stands for all of it.
#[derive(Clone, Copy)]
pub struct Place {
    pub stored: u64,
    pub index: u64,
    pub length: u64,
    pub alike: bool,
}

fn length_word(case: &[u8], list: u64) -> u32 {
    word(case, after(LENGTHS, list))
}

pub fn list_length(case: &[u8], list: u64) -> u64 {
    wide(length_word(case, list) & 0x7fff_ffff)
}

// The place of a list that starts at the given words.
fn place_at(case: &[u8], list: u64, stored: u64, index: u64) -> Place {
    Place {
        stored,
        index,
        length: list_length(case, list),
        alike: length_word(case, list) & 0x8000_0000 != 0,
    }
}

// The words of the list that are in the case.
fn stored_words(p: Place) -> u64 {
    if p.alike { 1 } else { p.length }
}

// The place of a list; of list 15, which there isn't, the place of the changes.
pub fn place_of(case: &[u8], list: u64) -> Place {
    let mut stored = STATE + STATE_WORDS;
    let mut index = STATE_WORDS;
    for k in 0..list {
        let p = place_at(case, k, stored, index);
        stored = after(stored, stored_words(p));
        index = after(index, p.length);
    }
    place_at(case, list, stored, index)
}

// A list's element, before the call.
pub fn element(case: &[u8], p: Place, j: u64) -> u32 {
    if p.alike {
        word(case, p.stored)
    } else {
        word(case, after(p.stored, j))
    }
}

fn low_byte(x: u32) -> u8 {
    (x % 256) as u8
}

fn low_half(x: u32) -> u16 {
    (x % 65536) as u16
}

// A list's length, at most the room for it.
fn length_of(case: &[u8], list: u64, room: usize) -> usize
    ensures { result ≤ room }
{
    room.min(list_length(case, list) as usize)
}

// A list is loaded to the front of the room that is lent for it, each element read from its word, and its length handed back. Where the room is longer than
// the list may be, a list that is cut to it is above its limit still.
fn load<T: Copy, F: Fn(u32) -> T>(case: &[u8], list: u64, room: &mut [T], read: F) -> usize
    requires { F.IsAlwaysCallable read }
    ensures { result ≤ length room.new }
{
    let n = length_of(case, list, room.len());
    let place = place_of(case, list);
    for (j, out) in room[..n].iter_mut().enumerate() {
        *out = read(element(case, place, j as u64));
    }
    n
}

pub fn load_words(case: &[u8], list: u64, room: &mut [i32]) -> usize
    ensures { result ≤ length room.new }
{
    load(case, list, room, from_bits)
}

pub fn load_flags(case: &[u8], list: u64, room: &mut [u8]) -> usize
    ensures { result ≤ length room.new }
{
    load(case, list, room, low_byte)
}

pub fn load_ends(case: &[u8], list: u64, room: &mut [u16]) -> usize
    ensures { result ≤ length room.new }
{
    load(case, list, room, low_half)
}
