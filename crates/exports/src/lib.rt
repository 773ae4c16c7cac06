// What programs in C call, through the crate exports_c: one run of a sheet, a feed of it in pieces, and an outline step by step, by slices and numbers
// alone (include/taleviqa.h).
//
// `taleviqa_run` answers for every input, and what it returns and leaves in each list is one equation with `call_of` of specs/Call.antt. The state
// goes in and comes back as the words of the crate state_words; words that are no state are refused with 16, and so is a number that names no rules
// (crate rules); then nothing changes but the answer.
// The calls for a feed are those of the crates feed_reader, which holds the piece, and feed_calls, under their names for C, and the calls for an outline those of
// the crate outline_calls, each with its definitions.
#![tactic(auto)]

ghost use Rattle.std.specs.Prelude.{◌≡◌};
ghost use Rattle.graphics.specs.declared.GraphicsState.{GraphicsState};
ghost use Rattle.line.specs.World.{fixed, world};
ghost use Rattle.outline_calls.specs.Slots.{begin_call_of, left as drawnLeft, next_call_of, started};
ghost use Rattle.outline_steps.specs.Outline.{glyph};
ghost use Rattle.rules.specs.Rules.{by_number};
ghost use Rattle.rules.specs.declared.Rules.{Rules};
ghost use Rattle.run_lines.specs.Onward.{number_of_answer, detail_of_answer};
ghost use Rattle.feed_calls.specs.Feed.{carried, feed_call_of, feed_end_call_of, told};
ghost use Rattle.feed_calls.specs.Left.{bad_word, left};
ghost use Rattle.exports.specs.Call.{answered, call_of, is_call};

use answer::Says;
use feed_calls::feed_end_call;
use feed_reader::feed_from;
use outline_calls::{begin_call, next_call};
use replay::run;
use rules::by_number;
use run_lines::Outcome;
use state_words::{is_state, read_state, write_state};

// The answer's places: number, place, lines and detail.
const ANSWER_WORDS: usize = 4;

// A word out of its range.
const BAD_WORD: u32 = 16;

fn widen(x: u32) -> u64
    ensures { result ≡ x }
{
    x as u64
}

fn write_answer(number: u32, place: usize, lines: u64, detail: u64, answer: &mut [u64])
    ensures { answer.new ≡ answered number place lines detail answer.old }
{
    if answer.len() == ANSWER_WORDS {
        answer[0] = widen(number);
        answer[1] = place as u64;
        answer[2] = lines;
        answer[3] = detail;
    }
}

fn is_call(state: &[u32], answer: &[u64]) -> bool
    ensures { result ≡ is_call state.now answer.now }
{
    is_state(state) & (answer.len() == ANSWER_WORDS)
}

fn refuse(start: usize, answer: &mut [u64]) -> u32
    ensures value { result ≡ bad_word }
    ensures answer_after { answer.new ≡ answered bad_word start 0 0 answer.old }
{
    write_answer(BAD_WORD, start, 0, 0, answer);
    BAD_WORD
}

// What a run says, in the answer and as its number.
fn say(out: Outcome, answer: &mut [u64]) -> u32
    ensures value { result ≡ number_of_answer out.answer }
    ensures answer_after { answer.new
        ≡ answered (number_of_answer out.answer) out.place out.lines
        (detail_of_answer out.answer) answer.old }
{
    let said = out.answer;
    let number = said.number();
    write_answer(number, out.place, out.lines, said.detail(), answer);
    number
}

// A run from a place of the sheet. The number is returned, and stands first in the answer.
pub fn taleviqa_run(
    rules: u32,
    start: usize,
    budget: u64,
    state: &mut [u32],
    sheet: &[i32],
    controls: &[i32],
    gux: &[i32],
    guy: &[i32],
    gox: &[i32],
    goy: &[i32],
    gx: &mut [i32],
    gy: &mut [i32],
    gflags: &mut [u8],
    contours: &[u16],
    tox: &mut [i32],
    toy: &mut [i32],
    tx: &mut [i32],
    ty: &mut [i32],
    tflags: &mut [u8],
    answer: &mut [u64],
) -> u32
    ensures { left result state.new answer.new
        gx.new gy.new gflags.new tox.new toy.new tx.new ty.new tflags.new
        ≡ call_of (λ (by : Rules). fixed by controls.now gux.now guy.now gox.now goy.now contours.now)
        sheet.now budget start state.old answer.old
        gx.old gy.old gflags.old tox.old toy.old tx.old ty.old tflags.old
        (by_number rules) }
{
    let named = by_number(rules);
    match named {
        None => refuse(start, answer),
        Some(by) => {
            if !is_call(state, answer) {
                return refuse(start, answer);
            }
            let s = read_state(state);
            let out = run(
                start, budget, s, by, sheet, controls, gux, guy, gox, goy, gx, gy, gflags,
                contours, tox, toy, tx, ty, tflags,
            );
            write_state(out.state, state);
            say(out, answer)
        }
    }
}

// ---- feeds
// A piece of a sheet. The number is returned, and stands first in what is kept.
pub fn taleviqa_feed(
    rules: u32,
    state: &mut [u32],
    piece: &[i32],
    carry: &mut [i32],
    controls: &[i32],
    gux: &[i32],
    guy: &[i32],
    gox: &[i32],
    goy: &[i32],
    gx: &mut [i32],
    gy: &mut [i32],
    gflags: &mut [u8],
    contours: &[u16],
    tox: &mut [i32],
    toy: &mut [i32],
    tx: &mut [i32],
    ty: &mut [i32],
    tflags: &mut [u8],
    numbers: &mut [u64],
) -> u32
    ensures { carried carry.new
        (left result state.new numbers.new gx.new gy.new gflags.new tox.new toy.new tx.new ty.new tflags.new)
        ≡ feed_call_of (λ (by : Rules). fixed by controls.now gux.now guy.now gox.now goy.now contours.now)
        piece.now state.old numbers.old carry.old
        gx.old gy.old gflags.old tox.old toy.old tx.old ty.old tflags.old
        (by_number rules) }
{
    feed_from(
        piece, 0, rules, state, carry, controls, gux, guy, gox, goy, gx, gy, gflags, contours, tox,
        toy, tx, ty, tflags, numbers,
    )
}

// The last call of a feed, which has no words: the rules don't matter, and nothing changes but what is kept.
pub fn taleviqa_feed_end(
    state: &[u32],
    carry: &[i32],
    controls: &[i32],
    gux: &[i32],
    guy: &[i32],
    gox: &[i32],
    goy: &[i32],
    gx: &[i32],
    gy: &[i32],
    gflags: &[u8],
    contours: &[u16],
    tox: &[i32],
    toy: &[i32],
    tx: &[i32],
    ty: &[i32],
    tflags: &[u8],
    numbers: &mut [u64],
) -> u32
    ensures { (by : Rules) → told result numbers.new
        ≡ feed_end_call_of (fixed by controls.now gux.now guy.now gox.now goy.now contours.now)
        state.now numbers.old carry.now
        (λ (s : GraphicsState). world s gx.now gy.now gflags.now tox.now toy.now tx.now ty.now tflags.now) }
{
    feed_end_call(
        state, carry, controls, gux, guy, gox, goy, gx, gy, gflags, contours, tox, toy, tx, ty,
        tflags, numbers,
    )
}

// ---- outlines
// A pen for the outline of a glyph that can be drawn. The number is 0 then, and the pen is written.
pub fn taleviqa_outline_begin(
    gx: &[i32],
    gy: &[i32],
    gflags: &[u8],
    contours: &[u16],
    pen: &mut [u64],
) -> u32
    ensures { started result pen.new ≡ begin_call_of (glyph gx.now gy.now gflags.now contours.now) pen.old }
{
    begin_call(gx, gy, gflags, contours, pen)
}

// The next step of an outline, and the pen and the box behind it.
pub fn taleviqa_outline_next(
    gx: &[i32],
    gy: &[i32],
    gflags: &[u8],
    contours: &[u16],
    pen: &mut [u64],
    edges: &mut [f32],
    step: &mut [u32],
    numbers: &mut [f32],
) -> u32
    ensures { drawnLeft result pen.new edges.new step.new numbers.new
        ≡ next_call_of (glyph gx.now gy.now gflags.now contours.now)
        pen.old edges.old step.old numbers.old }
{
    next_call(gx, gy, gflags, contours, pen, edges, step, numbers)
}
