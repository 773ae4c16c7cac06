// One of the oracle's runs: a sheet run on lists, and judged by the case (docs/ORACLE.md).
//
// Word 7 of a case holds the rules' number, 10 and 11 the start, 12 and 13 the budget; no run agrees by a number that names no rules. A run tests every size
// itself. Nothing is promised here but that every function is safe and ends.
#![tactic(auto)]

use answer::Says;
use graphics::GraphicsState;
use rules::by_number;
use run_lines::Outcome;
use test_cases::{long, state_of, word};
use test_compare::{Compared, Said, compare_pair, compare_placed, compare_state};

fn of_outcome(outcome: Outcome) -> Said {
    let answer = outcome.answer;
    Said {
        number: answer.number(),
        place: outcome.place as u64,
        lines: outcome.lines,
        detail: answer.detail(),
        x: 0,
        y: 0,
    }
}

// What a run may change, against the case.
fn left_as(
    case: &[u8],
    state: GraphicsState,
    gx: &[i32],
    gy: &[i32],
    gflags: &[u8],
    tox: &[i32],
    toy: &[i32],
    tx: &[i32],
    ty: &[i32],
    tflags: &[u8],
) -> Compared {
    let glyph = compare_placed(case, 4, gx, gy, gflags);
    let made = compare_pair(case, 8, tox, toy);
    let twilight = compare_placed(case, 10, tx, ty, tflags);
    glyph
        .and(made)
        .and(twilight)
        .and(compare_state(case, state))
}

// The run on the case's lists.
pub fn agrees_on(
    case: &[u8],
    sheet: &[i32],
    controls: &[i32],
    gux: &[i32],
    guy: &[i32],
    gox: &[i32],
    goy: &[i32],
    contours: &[u16],
    gx: &mut [i32],
    gy: &mut [i32],
    gflags: &mut [u8],
    tox: &mut [i32],
    toy: &mut [i32],
    tx: &mut [i32],
    ty: &mut [i32],
    tflags: &mut [u8],
) -> bool {
    let Some(rules) = by_number(word(case, 7)) else {
        return false;
    };
    let start = long(case, 10) as usize;
    let budget = long(case, 12);
    let s = state_of(case);
    let outcome = replay::run(
        start, budget, s, rules, sheet, controls, gux, guy, gox, goy, gx, gy, gflags, contours,
        tox, toy, tx, ty, tflags,
    );
    let state = outcome.state;
    let left = left_as(case, state, gx, gy, gflags, tox, toy, tx, ty, tflags);
    of_outcome(outcome).agrees(left, case)
}
