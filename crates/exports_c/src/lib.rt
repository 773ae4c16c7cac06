// The calls of the crate exports under their names for C (include/taleviqa.h): a crate is a library or a static library, not both. Each calls the library's
// function of its name and states its clauses again.
#![tactic(auto)]

ghost use Rattle.std.specs.Prelude.{◌≡◌};
ghost use Rattle.graphics.specs.declared.GraphicsState.{GraphicsState};
ghost use Rattle.line.specs.World.{fixed, world};
ghost use Rattle.outline_calls.specs.Slots.{begin_call_of, left as drawnLeft, next_call_of, started};
ghost use Rattle.outline_steps.specs.Outline.{glyph};
ghost use Rattle.rules.specs.Rules.{by_number};
ghost use Rattle.rules.specs.declared.Rules.{Rules};
ghost use Rattle.feed_calls.specs.Feed.{carried, feed_call_of, feed_end_call_of, told};
ghost use Rattle.feed_calls.specs.Left.{left};
ghost use Rattle.exports.specs.Call.{call_of};

// A run from a place of the sheet. The number is returned, and stands first in the answer.
#[unsafe(no_mangle)]
pub extern "C" fn taleviqa_run(
    rules: u32,
    start: usize,
    budget: u64,
    state: &mut [u32],
    sheet: &[i32],
    controls: &[i32],
    gux: &[i32],
    guy: &[i32],
    gox: &[i32],
    goy: &[i32],
    gx: &mut [i32],
    gy: &mut [i32],
    gflags: &mut [u8],
    contours: &[u16],
    tox: &mut [i32],
    toy: &mut [i32],
    tx: &mut [i32],
    ty: &mut [i32],
    tflags: &mut [u8],
    answer: &mut [u64],
) -> u32
    ensures { left result state.new answer.new
        gx.new gy.new gflags.new tox.new toy.new tx.new ty.new tflags.new
        ≡ call_of (λ (by : Rules). fixed by controls.now gux.now guy.now gox.now goy.now contours.now)
        sheet.now budget start state.old answer.old
        gx.old gy.old gflags.old tox.old toy.old tx.old ty.old tflags.old
        (by_number rules) }
{
    exports::taleviqa_run(
        rules, start, budget, state, sheet, controls, gux, guy, gox, goy, gx, gy, gflags, contours,
        tox, toy, tx, ty, tflags, answer,
    )
}

// A piece of a sheet. The number is returned, and stands first in what is kept.
#[unsafe(no_mangle)]
pub extern "C" fn taleviqa_feed(
    rules: u32,
    state: &mut [u32],
    piece: &[i32],
    carry: &mut [i32],
    controls: &[i32],
    gux: &[i32],
    guy: &[i32],
    gox: &[i32],
    goy: &[i32],
    gx: &mut [i32],
    gy: &mut [i32],
    gflags: &mut [u8],
    contours: &[u16],
    tox: &mut [i32],
    toy: &mut [i32],
    tx: &mut [i32],
    ty: &mut [i32],
    tflags: &mut [u8],
    numbers: &mut [u64],
) -> u32
    ensures { carried carry.new
        (left result state.new numbers.new gx.new gy.new gflags.new tox.new toy.new tx.new ty.new tflags.new)
        ≡ feed_call_of (λ (by : Rules). fixed by controls.now gux.now guy.now gox.now goy.now contours.now)
        piece.now state.old numbers.old carry.old
        gx.old gy.old gflags.old tox.old toy.old tx.old ty.old tflags.old
        (by_number rules) }
{
    exports::taleviqa_feed(
        rules, state, piece, carry, controls, gux, guy, gox, goy, gx, gy, gflags, contours, tox,
        toy, tx, ty, tflags, numbers,
    )
}

// The last call of a feed, which has no words: the rules don't matter, and nothing changes but what is kept.
#[unsafe(no_mangle)]
pub extern "C" fn taleviqa_feed_end(
    state: &[u32],
    carry: &[i32],
    controls: &[i32],
    gux: &[i32],
    guy: &[i32],
    gox: &[i32],
    goy: &[i32],
    gx: &[i32],
    gy: &[i32],
    gflags: &[u8],
    contours: &[u16],
    tox: &[i32],
    toy: &[i32],
    tx: &[i32],
    ty: &[i32],
    tflags: &[u8],
    numbers: &mut [u64],
) -> u32
    ensures { (by : Rules) → told result numbers.new
        ≡ feed_end_call_of (fixed by controls.now gux.now guy.now gox.now goy.now contours.now)
        state.now numbers.old carry.now
        (λ (s : GraphicsState). world s gx.now gy.now gflags.now tox.now toy.now tx.now ty.now tflags.now) }
{
    exports::taleviqa_feed_end(
        state, carry, controls, gux, guy, gox, goy, gx, gy, gflags, contours, tox, toy, tx, ty,
        tflags, numbers,
    )
}

// A pen for the outline of a glyph that can be drawn. The number is 0 then, and the pen is written.
#[unsafe(no_mangle)]
pub extern "C" fn taleviqa_outline_begin(
    gx: &[i32],
    gy: &[i32],
    gflags: &[u8],
    contours: &[u16],
    pen: &mut [u64],
) -> u32
    ensures { started result pen.new ≡ begin_call_of (glyph gx.now gy.now gflags.now contours.now) pen.old }
{
    exports::taleviqa_outline_begin(gx, gy, gflags, contours, pen)
}

// The next step of an outline, and the pen and the box behind it.
#[unsafe(no_mangle)]
pub extern "C" fn taleviqa_outline_next(
    gx: &[i32],
    gy: &[i32],
    gflags: &[u8],
    contours: &[u16],
    pen: &mut [u64],
    edges: &mut [f32],
    step: &mut [u32],
    numbers: &mut [f32],
) -> u32
    ensures { drawnLeft result pen.new edges.new step.new numbers.new
        ≡ next_call_of (glyph gx.now gy.now gflags.now contours.now)
        pen.old edges.old step.old numbers.old }
{
    exports::taleviqa_outline_next(gx, gy, gflags, contours, pen, edges, step, numbers)
}
