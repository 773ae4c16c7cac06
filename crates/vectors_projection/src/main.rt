// Replays the oracle's answers on projections: a row a call, and prints how many agree.
//
// A row is 24 little-endian words: the call, three vectors, two points, the answer's number and up to four results (docs/ORACLE.md). What
// this prints is held to the file `stdout`; the rows stand in the file `stdin`.
#![tactic(auto)]

use answer::{Refusal, Says};
use flags::CoordAxis;
use graphics::{GraphicsState, Vector, Vectors};
use int::{equal, from_bits};
use projection::Derived;
use std::io;
use std::io::Stdin;
use test_tally::{Tally, Turn, read_full};
use words::word_at;

// Two words of a row, from a byte on.
fn vector(row: &[u8], at: usize) -> Vector {
    if at < 96 {
        let x = from_bits(word_at(row, at));
        let y = from_bits(word_at(row, at + 4));
        Vector { x, y }
    } else {
        Vector { x: 0, y: 0 }
    }
}

// The fresh state with the row's vectors.
fn state(row: &[u8]) -> GraphicsState {
    let projection = vector(row, 4);
    let dual = vector(row, 12);
    let freedom = vector(row, 20);
    let mut s = GraphicsState::fresh();
    let vectors = Vectors {
        projection,
        dual,
        freedom,
    };
    s.vectors = vectors;
    s
}

fn axis_number(axis: CoordAxis) -> u32 {
    match axis {
        CoordAxis::Both => 0,
        CoordAxis::X => 1,
        CoordAxis::Y => 2,
    }
}

// Whether the derived numbers are the row's.
fn is_derived(d: Derived, row: &[u8]) -> bool {
    let projection_axis = d.projection_axis;
    let dual_axis = d.dual_axis;
    let freedom_axis = d.freedom_axis;
    equal(d.fdotp, from_bits(word_at(row, 48)))
        & (axis_number(projection_axis) == word_at(row, 52))
        & (axis_number(dual_axis) == word_at(row, 56))
        & (axis_number(freedom_axis) == word_at(row, 60))
}

fn derives_as(row: &[u8]) -> bool {
    match projection::try_derive(state(row)) {
        Ok(d) => is_derived(d, row) & (word_at(row, 44) == 0),
        Err(why) => word_at(row, 44) == why.number(),
    }
}

// The projection that a row asks for.
fn measure(op: u32, s: GraphicsState, a: Vector, b: Vector) -> Result<i32, Refusal> {
    if op == 1 {
        projection::try_project(s, a, b)
    } else if op == 2 {
        projection::try_dual_project(s, a, b)
    } else {
        projection::try_dual_project_unscaled(s, a, b)
    }
}

fn measures_as(op: u32, row: &[u8]) -> bool {
    match measure(op, state(row), vector(row, 28), vector(row, 36)) {
        Ok(d) => equal(d, from_bits(word_at(row, 48))) & (word_at(row, 44) == 0),
        Err(why) => word_at(row, 44) == why.number(),
    }
}

// Whether the call of a row answers as the row says.
fn agrees(row: &[u8]) -> bool {
    let op = word_at(row, 0);
    if op == 0 {
        derives_as(row)
    } else {
        measures_as(op, row)
    }
}

// A row read and replayed.
fn replay_row(stdin: Stdin, tally: Tally) -> Turn {
    let mut row = [0u8; 96];
    let n = read_full(stdin, &mut row);
    if n == 0 {
        return Turn { tally, more: false };
    }
    let agreed = agrees(&row) & (n == 96);
    Turn {
        tally: tally.count(agreed),
        more: true,
    }
}

// A proved loop has to end, so the turns are counted, to more than the input has.
fn replay_all(stdin: Stdin) -> Tally {
    let mut tally = Tally::new();
    for _ in 0..1000000u64 {
        let turn = replay_row(stdin, tally);
        tally = turn.tally;
        if !turn.more {
            return tally;
        }
    }
    tally
}

fn main(rt: HostRuntime) -> io::Result<()> {
    replay_all(rt.stdin()).print(&rt)
}
