// The lines of a sheet from a place on, as many as the budget says.
//
// `onward` answers for every place, state and budget, and ends, over zones whose lists are sound: `replay` tests this before its first line. What it
// says, the place, the count, the state, and what every list holds afterwards, refused or not, are one equation with `replay_of` of
// specs/Onward.antt.
#![tactic(auto)]

ghost use Rattle.std.specs.Prelude.{◌≡◌};
ghost use Rattle.line.specs.World.{Sound, fixed, world};
ghost use Rattle.run_lines.specs.Onward.{number_of_answer, detail_of_answer, ran, replay_of};

use answer::{Refusal, Says};
use graphics::GraphicsState;
use rules::Rules;
use run_step::step;

// ---- what a run says
#[derive(Clone, Copy)]
pub enum Answer {
    // The place is the sheet's end.
    Finished,
    // The budget is used, and words remain.
    OutOfBudget,
    Refused(Refusal),
}

impl Says for Answer {
    ghost number_said = { number_of_answer };

    ghost detail_said = { detail_of_answer };

    fn number(self) -> u32 {
        match self {
            Answer::Finished => 0,
            Answer::OutOfBudget => 1,
            Answer::Refused(why) => why.number(),
        }
    }

    fn detail(self) -> u64 {
        match self {
            Answer::Refused(why) => why.detail(),
            _ => 0,
        }
    }
}

// The answer, the place of the refused or next line, the lines finished in this call, and the state.
#[derive(Clone, Copy)]
pub struct Outcome {
    pub answer: Answer,
    pub place: usize,
    pub lines: u64,
    pub state: GraphicsState,
}

// ---- the lines
// The lines from a place on, as many as the budget says.
pub fn onward(
    start: usize,
    budget: u64,
    s: GraphicsState,
    rules: Rules,
    sheet: &[i32],
    controls: &[i32],
    gux: &[i32],
    guy: &[i32],
    gox: &[i32],
    goy: &[i32],
    gx: &mut [i32],
    gy: &mut [i32],
    gflags: &mut [u8],
    contours: &[u16],
    tox: &mut [i32],
    toy: &mut [i32],
    tx: &mut [i32],
    ty: &mut [i32],
    tflags: &mut [u8],
) -> Outcome
    requires { Sound (fixed rules controls.now gux.now guy.now gox.now goy.now contours.now) (world s gx.old gy.old gflags.old tox.old toy.old tx.old ty.old tflags.old) }
    ensures { ran result gx.new gy.new gflags.new tox.new toy.new tx.new ty.new tflags.new ≡ replay_of (fixed rules controls.now gux.now guy.now gox.now goy.now contours.now) sheet.now budget 0 start (world s gx.old gy.old gflags.old tox.old toy.old tx.old ty.old tflags.old) }
{
    // By its words, as every line hands it on: the compiler then knows each yes or no as one of the two in every turn.
    let mut state = s.by_words();
    let mut at = start;
    for lines in 0..budget {
        if sheet.len() <= at {
            return Outcome {
                answer: Answer::Finished,
                place: at,
                lines,
                state,
            };
        }
        let r = step(
            at, state, rules, sheet, controls, gux, guy, gox, goy, gx, gy, gflags, contours, tox,
            toy, tx, ty, tflags,
        );
        let call = r.call;
        let place = r.place;
        let next = r.state;
        match call {
            Err(why) => {
                return Outcome {
                    answer: Answer::Refused(why),
                    place,
                    lines,
                    state: next,
                };
            }
            Ok(()) => {
                state = next;
                at = place;
            }
        }
    }
    let answer = if sheet.len() <= at {
        Answer::Finished
    } else {
        Answer::OutOfBudget
    };
    Outcome {
        answer,
        place: at,
        lines: budget,
        state,
    }
}
