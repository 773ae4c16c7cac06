// Replays the oracle's answers on math and rounding: a row a call, and prints how many agree.
//
// A row is eight little-endian words: the call, up to four arguments, 1 for a rounding that went past 32 bits on its way and else 0, the answer's
// number and the result (docs/ORACLE.md). What this prints is held to the file `stdout`; the rows stand in the file `stdin`.
#![tactic(auto)]

use answer::Says;
use int::from_bits;
use round::{RoundMode, RoundState};
use state_words::mode_of;
use std::io;
use std::io::Stdin;
use test_tally::{Tally, Turn, read_full};
use words::word_at;

const ROW_SIZE: usize = 32;

// So many bytes are read at once at most: whole rows.
const BUFFER_ROOM: usize = 65536;

// A row's word as a signed number.
fn arg(row: &[u8], at: usize) -> i32 {
    from_bits(word_at(row, at))
}

// Whether a row says this: all three words of its outcome.
fn says(row: &[u8], wrapped: bool, answer: u32, res: i32) -> bool {
    word_at(row, 20) == u32::from(wrapped) && word_at(row, 24) == answer && res == arg(row, 28)
}

// What math.rs's functions give.
fn math_result(op: u32, a: i32, b: i32, c: i32) -> i32 {
    match op {
        0 => math::floor(a),
        1 => math::round(a),
        2 => math::ceil(a),
        3 => math::round_pad(a, b),
        4 => math::mul14(a, b),
        5 => math::mul(a, b),
        6 => math::div(a, b),
        _ => math::mul_div(a, b, c),
    }
}

// Whether rounding answers as the row says.
fn rounds_as(mode: RoundMode, row: &[u8]) -> bool {
    let state = RoundState {
        mode,
        threshold: arg(row, 8),
        phase: arg(row, 12),
        period: arg(row, 16),
    };
    match state.try_round(arg(row, 4)) {
        Ok(d) => says(row, d.wrapped, 0, d.word),
        Err(why) => says(row, false, why.number(), 0),
    }
}

// Whether the call of a row answers as the row says.
fn agrees(row: &[u8]) -> bool {
    let op = word_at(row, 0);
    if op < 8 {
        let r = math_result(op, arg(row, 4), arg(row, 8), arg(row, 12));
        says(row, false, 0, r)
    } else if 16 <= op {
        rounds_as(mode_of(op - 16), row)
    } else {
        false
    }
}

// The rows of a buffer; what is left of it after whole rows counts as one that differs.
fn replay(rows: &[u8], start: Tally) -> Tally {
    let mut tally = start;
    for row in rows.chunks(ROW_SIZE) {
        tally = tally.count(row.len() == ROW_SIZE && agrees(row));
    }
    tally
}

// A buffer of rows read and replayed.
fn replay_some(stdin: Stdin, tally: Tally) -> Turn {
    let mut buffer = [0u8; BUFFER_ROOM];
    let n = read_full(stdin, &mut buffer);
    Turn {
        tally: replay(&buffer[..n], tally),
        more: 0 < n,
    }
}

// A proved loop has to end, so the turns are counted, to more than the input has.
fn replay_all(stdin: Stdin) -> Tally {
    let mut tally = Tally::new();
    for _ in 0..4096u64 {
        let turn = replay_some(stdin, tally);
        tally = turn.tally;
        if !turn.more {
            return tally;
        }
    }
    tally
}

fn main(rt: HostRuntime) -> io::Result<()> {
    replay_all(rt.stdin()).print(&rt)
}
