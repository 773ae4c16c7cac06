// What a call said and left, against what a case of the oracle's stream says (docs/ORACLE.md).
//
// A case names the words of lists and state that the call changes, each with its new value, and says of every other that it stays. So two
// counts decide: of the words that differ from before, and of the named changes that were made. Lists that a call isn't given can't change:
// they need no comparing, for a change that the case names there is missing from both counts. Nothing is promised here but
// that every function is safe and ends.
#![tactic(auto)]

use answer::{Refusal, Says};
use graphics::GraphicsState;
use int::to_bits;
use state_words::word_of;
use test_cases::{
    CHANGES, LISTS, Place, STATE, STATE_WORDS, after, element, long, number, place_of, wide, word,
};

// ---- what a call says
// Its answer and its two result words.
#[derive(Clone, Copy, PartialEq)]
pub struct Said {
    pub number: u32,
    pub place: u64,
    pub lines: u64,
    pub detail: u64,
    pub x: i32,
    pub y: i32,
}

impl Said {
    // A direct call says no place and no lines.
    pub fn done(x: i32, y: i32) -> Said {
        Said {
            number: 0,
            place: 0,
            lines: 0,
            detail: 0,
            x,
            y,
        }
    }

    pub fn refused(why: Refusal) -> Said {
        Said {
            number: why.number(),
            place: 0,
            lines: 0,
            detail: why.detail(),
            x: 0,
            y: 0,
        }
    }

    pub fn of_call(call: Result<(), Refusal>) -> Said {
        match call {
            Err(why) => Said::refused(why),
            Ok(()) => Said::done(0, 0),
        }
    }

    // What the case says that its call says.
    fn in_case(case: &[u8]) -> Said {
        Said {
            number: word(case, 14),
            place: long(case, 15),
            lines: long(case, 17),
            detail: long(case, 19),
            x: number(case, 21),
            y: number(case, 22),
        }
    }

    // Whether a call that said this and left that is the call of the case.
    pub fn agrees(self, left: Compared, case: &[u8]) -> bool {
        (self == Said::in_case(case)) & left.is_all(case)
    }
}

// ---- what a call left
// Whether the case's changes stand in the order of their indices, so that none is named twice.
fn named_once(case: &[u8]) -> bool {
    let changes = wide(word(case, CHANGES));
    let last = place_of(case, LISTS);
    let mut at = last.stored;
    let mut least = 0;
    for _ in 0..changes {
        let index = wide(word(case, at));
        if index < least {
            return false;
        }
        least = after(index, 1);
        at = after(at, 2);
    }
    true
}

// How many of the case's changes, each an index and the new word, are held.
fn count_changes<F: Fn(u64, u32) -> bool>(case: &[u8], is_held: F) -> u64
    requires { F.IsAlwaysCallable is_held }
{
    let changes = wide(word(case, CHANGES));
    let mut at = place_of(case, LISTS).stored;
    let mut held = 0;
    for _ in 0..changes {
        if is_held(wide(word(case, at)), word(case, after(at, 1))) {
            held = after(held, 1);
        }
        at = after(at, 2);
    }
    held
}

// A list is right where as many elements differ from before as the changes name in it, and it holds each of these changes.
#[derive(Clone, Copy)]
pub struct Compared {
    // Elements that differ from before.
    pub differ: u64,
    // Changes that the list holds.
    pub held: u64,
}

impl Compared {
    pub fn nothing() -> Compared {
        Compared { differ: 0, held: 0 }
    }

    pub fn and(self, other: Compared) -> Compared {
        Compared {
            differ: after(self.differ, other.differ),
            held: after(self.held, other.held),
        }
    }

    // Whether the changes that the case names are those that were made.
    fn is_all(self, case: &[u8]) -> bool {
        let changes = wide(word(case, CHANGES));
        self.differ == changes && self.held == changes && named_once(case)
    }
}

// ---- the lists
// A list is of words or of flags; the other one is empty.
fn bits_at(words: &[i32], flags: &[u8], j: usize) -> u32 {
    if j < words.len() {
        to_bits(words[j])
    } else if j < flags.len() {
        u32::from(flags[j])
    } else {
        0
    }
}

fn list_differs(case: &[u8], p: Place, words: &[i32], flags: &[u8]) -> u64 {
    let n = words.len().max(flags.len());
    (0..n)
        .filter(|&j| bits_at(words, flags, j) != element(case, p, j as u64))
        .count() as u64
}

// Whether a change of the list is one, and the list holds it.
fn change_is(case: &[u8], p: Place, words: &[i32], flags: &[u8], index: u64, new: u32) -> bool {
    if index < p.index {
        return false;
    }
    let k = index - p.index;
    let j = k as usize;
    if j < words.len().max(flags.len()) {
        (bits_at(words, flags, j) == new) & (element(case, p, k) != new)
    } else {
        false
    }
}

fn list_held(case: &[u8], p: Place, words: &[i32], flags: &[u8]) -> u64 {
    count_changes(case, |index, new| {
        change_is(case, p, words, flags, index, new)
    })
}

fn compare_list(case: &[u8], list: u64, words: &[i32], flags: &[u8]) -> Compared {
    let p = place_of(case, list);
    let differ = list_differs(case, p, words, flags);
    let held = list_held(case, p, words, flags);
    Compared { differ, held }
}

pub fn compare_words(case: &[u8], list: u64, after_call: &[i32]) -> Compared {
    let none: [u8; 0] = [];
    compare_list(case, list, after_call, &none)
}

pub fn compare_flags(case: &[u8], list: u64, after_call: &[u8]) -> Compared {
    let none: [i32; 0] = [];
    compare_list(case, list, &none, after_call)
}

// Two lists that stand side by side.
pub fn compare_pair(case: &[u8], first: u64, xs: &[i32], ys: &[i32]) -> Compared {
    let x = compare_words(case, first, xs);
    let y = compare_words(case, after(first, 1), ys);
    x.and(y)
}

// The places that a zone has now, and its flags.
pub fn compare_placed(case: &[u8], first: u64, xs: &[i32], ys: &[i32], flags: &[u8]) -> Compared {
    let places = compare_pair(case, first, xs, ys);
    let marks = compare_flags(case, after(first, 2), flags);
    places.and(marks)
}

// ---- the state after the call
fn state_word(s: GraphicsState, k: u64) -> u32 {
    word_of(s, k as usize)
}

fn state_differs(case: &[u8], s: GraphicsState) -> u64 {
    (0..STATE_WORDS)
        .filter(|&k| state_word(s, k) != word(case, after(STATE, k)))
        .count() as u64
}

fn state_word_is(case: &[u8], s: GraphicsState, index: u64, new: u32) -> bool {
    if index < STATE_WORDS {
        (state_word(s, index) == new) & (word(case, after(STATE, index)) != new)
    } else {
        false
    }
}

fn state_held(case: &[u8], s: GraphicsState) -> u64 {
    count_changes(case, |index, new| state_word_is(case, s, index, new))
}

pub fn compare_state(case: &[u8], after_call: GraphicsState) -> Compared {
    let differ = state_differs(case, after_call);
    let held = state_held(case, after_call);
    Compared { differ, held }
}
