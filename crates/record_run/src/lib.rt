// A run of what a record holds, and the record as it stands afterwards: document 02, K4.
//
// `run_and_write` answers for every input: what it says and writes is one equation with `shelved_for` of specs/After.antt, and the lists that it is lent
// hold the world of `ran_from`.
#![tactic(auto)]

ghost use Rattle.std.specs.Prelude.{◌≡◌};
ghost use Rattle.rules.specs.declared.Rules.TheVariants.{FreeType};
ghost use Rattle.line.specs.World.{fixed, world};
ghost use Rattle.record_read.specs.Format.{held};
ghost use Rattle.record_run.specs.After.{ran_from, left_with, shelved, shelved_for, told};

use answer::Says;
use graphics::GraphicsState;
use record_layout::Layout;
use record_write::write;
use replay::run;
use rules::Rules;
use run_lines::Outcome;

// What a replay says: the answer, how many bytes of the record were left, and how its lists lie.
#[derive(Clone, Copy)]
pub struct Replayed {
    pub number: u32,
    pub place: usize,
    pub lines: u64,
    pub detail: u64,
    pub size: usize,
    pub layout: Layout,
}

fn say(l: Layout, outcome: Outcome, size: usize) -> Replayed
    ensures { result ≡ told l outcome size }
{
    let answer = outcome.answer;
    Replayed {
        number: answer.number(),
        place: outcome.place,
        lines: outcome.lines,
        detail: answer.detail(),
        size,
        layout: l,
    }
}

// A run of these lists from the sheet's start, with a budget of its words, and the record as it then stands at the front of `out`,
// where it has at most `most` bytes.
pub fn run_and_write(
    rules: Rules,
    most: usize,
    l: Layout,
    s: GraphicsState,
    sheet: &[i32],
    controls: &[i32],
    gux: &[i32],
    guy: &[i32],
    gox: &[i32],
    goy: &[i32],
    contours: &[u16],
    gx: &mut [i32],
    gy: &mut [i32],
    gflags: &mut [u8],
    tox: &mut [i32],
    toy: &mut [i32],
    tx: &mut [i32],
    ty: &mut [i32],
    tflags: &mut [u8],
    out: &mut [u8],
) -> Replayed
    ensures out_after { shelved result out.new ≡ shelved_for rules most l (held (fixed FreeType controls.now gux.now guy.now gox.now goy.now contours.now) sheet.now (world s gx.old gy.old gflags.old tox.old toy.old tx.old ty.old tflags.old)) out.old }
    ensures tflags_after { left_with rules (held (fixed FreeType controls.now gux.now guy.now gox.now goy.now contours.now) sheet.now (world s gx.old gy.old gflags.old tox.old toy.old tx.old ty.old tflags.old)) gx.new gy.new gflags.new tox.new toy.new tx.new ty.new tflags.new ≡ (ran_from rules (held (fixed FreeType controls.now gux.now guy.now gox.now goy.now contours.now) sheet.now (world s gx.old gy.old gflags.old tox.old toy.old tx.old ty.old tflags.old))).world }
{
    let outcome = run(
        0,
        sheet.len() as u64,
        s,
        rules,
        sheet,
        controls,
        gux,
        guy,
        gox,
        goy,
        gx,
        gy,
        gflags,
        contours,
        tox,
        toy,
        tx,
        ty,
        tflags,
    );
    let size = write(
        most,
        outcome.state,
        sheet,
        controls,
        gux,
        guy,
        gox,
        goy,
        gx,
        gy,
        gflags,
        contours,
        tox,
        toy,
        tx,
        ty,
        tflags,
        out,
    );
    say(l, outcome, size)
}
