// Whole sheets: a run of lines with a budget. The public face.
//
// `run` answers for every input. What it says, the state, and what every list holds afterwards, refused or not, are one equation with `run_of` of
// specs/Run.antt. The glyph's unscaled and original points, its contours' ends, the control values and the sheet are only read. No caller has to
// test first: lists of unequal lengths, contour ends that don't rise, a start beyond the sheet or an unknown opcode are answers by number.
//
// A call, with the sheet SVTCA[y], MDAP[1] of point 0, IUP[y]; the lists are the caller's own:
//
//     let sheet = [0, 0, 47, 1, 0, 48, 0];
//     let none: [i32; 0] = [];
//     let r = run(
//         0, 3, GraphicsState::fresh(), Rules::FreeType, &sheet, &none,
//         &unscaled_x, &unscaled_y, &original_x, &original_y, &mut x, &mut y, &mut flags, &contours,
//         &mut twilight_original_x, &mut twilight_original_y, &mut twilight_x, &mut twilight_y, &mut twilight_flags,
//     );
//
// `r.answer.number()` is 0 where the sheet's end was reached, 1 where the budget was used, else a refusal's number; `r.answer.detail()` its detail;
// `r.place` is the next line, or the refused one, and `r.lines` how many were finished. To go on after 1, call again with `r.place`, `r.state`
// and the same lists.
#![tactic(auto)]

ghost use Rattle.std.specs.Prelude.{◌≡◌};
ghost use Rattle.line.specs.World.{fixed, world};
ghost use Rattle.run_lines.specs.Onward.{ran};
ghost use Rattle.replay.specs.Run.{entry_of, entry_refused, run_of};

use answer::Refusal;
use contour_ends::ends_rise;
use graphics::GraphicsState;
use line::sizes_fit;
use rules::Rules;
use run_lines::{Answer, Outcome, onward};

// The tests before the first line, in their order.
pub fn enter(sized: bool, rising: bool, usable: bool, starts: bool) -> Result<(), Refusal>
    ensures { result ≡ entry_of sized rising usable starts }
{
    if !sized {
        Err(Refusal::Sizes)
    } else if !rising {
        Err(Refusal::Ends)
    } else if !usable {
        Err(Refusal::State)
    } else if !starts {
        Err(Refusal::Line)
    } else {
        Ok(())
    }
}

// A run that ends at its entry: no line is done.
fn at_entry(why: Refusal, start: usize, s: GraphicsState) -> Outcome
    ensures { result ≡ entry_refused why start s }
{
    Outcome {
        answer: Answer::Refused(why),
        place: start,
        lines: 0,
        state: s,
    }
}

// A run from a place of the sheet: sizes (2), contour ends (14), state (3) and place (4) are tested before the first line.
pub fn run(
    start: usize,
    budget: u64,
    s: GraphicsState,
    rules: Rules,
    sheet: &[i32],
    controls: &[i32],
    gux: &[i32],
    guy: &[i32],
    gox: &[i32],
    goy: &[i32],
    gx: &mut [i32],
    gy: &mut [i32],
    gflags: &mut [u8],
    contours: &[u16],
    tox: &mut [i32],
    toy: &mut [i32],
    tx: &mut [i32],
    ty: &mut [i32],
    tflags: &mut [u8],
) -> Outcome
    ensures { ran result gx.new gy.new gflags.new tox.new toy.new tx.new ty.new tflags.new ≡ run_of (fixed rules controls.now gux.now guy.now gox.now goy.now contours.now) sheet.now budget start (world s gx.old gy.old gflags.old tox.old toy.old tx.old ty.old tflags.old) }
{
    let sized = sizes_fit(
        sheet, controls, gux, guy, gox, goy, gx, gy, gflags, contours, tox, toy, tx, ty, tflags,
    );
    let rising = ends_rise(contours, gx.len());
    let begun = enter(sized, rising, s.is_usable(), start <= sheet.len());
    match begun {
        Err(why) => at_entry(why, start, s),
        Ok(()) => {
            onward(
                start, budget, s, rules, sheet, controls, gux, guy, gox, goy, gx, gy, gflags,
                contours, tox, toy, tx, ty, tflags,
            )
        }
    }
}
