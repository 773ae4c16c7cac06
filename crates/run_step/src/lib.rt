// One line of a sheet: it is read off its place, and performed.
//
// `step` answers for every place and every state, over zones whose lists are sound: `replay` tests this before its first line. What it comes to,
// the place after it, the state, and what every list holds afterwards are one equation with `step_of` of specs/Step.antt.
#![tactic(auto)]

ghost use Rattle.std.specs.Prelude.{◌≡◌};
ghost use Rattle.line.specs.World.{Sound, fixed, world};
ghost use Rattle.run_step.specs.Step.{place_after, landed, went, step_of};

use answer::Refusal;
use dispatch::perform;
use graphics::GraphicsState;
use line::Stepped;
use opcodes::decode;
use rules::Rules;

// What one line comes to. The place is that of the next line, or of this one where it is refused.
#[derive(Clone, Copy)]
pub struct Landing {
    pub call: Result<(), Refusal>,
    pub place: usize,
    pub state: GraphicsState,
}

fn place_after(at: usize, end: usize, call: Result<(), Refusal>) -> usize
    ensures { result ≡ place_after at end call }
{
    match call {
        Ok(()) => end,
        Err(_) => at,
    }
}

fn land(at: usize, end: usize, r: Stepped) -> Landing
    ensures { result ≡ landed at end r }
{
    let call = r.call;
    let state = r.state;
    let place = place_after(at, end, call);
    Landing { call, place, state }
}

// The line at a place of the sheet.
pub fn step(
    at: usize,
    s: GraphicsState,
    rules: Rules,
    sheet: &[i32],
    controls: &[i32],
    gux: &[i32],
    guy: &[i32],
    gox: &[i32],
    goy: &[i32],
    gx: &mut [i32],
    gy: &mut [i32],
    gflags: &mut [u8],
    contours: &[u16],
    tox: &mut [i32],
    toy: &mut [i32],
    tx: &mut [i32],
    ty: &mut [i32],
    tflags: &mut [u8],
) -> Landing
    requires { Sound (fixed rules controls.now gux.now guy.now gox.now goy.now contours.now) (world s gx.old gy.old gflags.old tox.old toy.old tx.old ty.old tflags.old) }
    ensures { went result gx.new gy.new gflags.new tox.new toy.new tx.new ty.new tflags.new ≡ step_of (fixed rules controls.now gux.now guy.now gox.now goy.now contours.now) sheet.now at (world s gx.old gy.old gflags.old tox.old toy.old tx.old ty.old tflags.old) }
{
    let line = decode(sheet, s.loop_counter, at);
    match line {
        Err(why) => Landing {
            call: Err(why),
            place: at,
            state: s.by_words(),
        },
        Ok(read) => {
            let r = perform(
                s,
                rules,
                read.opcode,
                &sheet[read.first..read.end],
                controls,
                gux,
                guy,
                gox,
                goy,
                gx,
                gy,
                gflags,
                contours,
                tox,
                toy,
                tx,
                ty,
                tflags,
            );
            land(at, read.end, r)
        }
    }
}
