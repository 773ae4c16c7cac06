// MDRP[abcde] (0xC0 to 0xDF): brings a point of zp1 to its original distance from rp0 of zp0. OpenType's MDRP, FreeType's Ins_MDRP, and engine/outline.rs.
//
// Pops the point. Reads zp0, zp1, rp0, the measures, the round state, the vectors, the facts, and the points, unscaled, original and current; moves the point,
// touches it, sets rp1 and rp2, and rp0 by the opcode's bit a. By b it keeps the minimum distance, by c it rounds; d and e change nothing. Refused in this order: a
// missing operand; where the state is pedantic, the point, then rp0, outside, and else the references are set all the same. `mdrp` is one equation with
// `mdrp_of`, for every content of the lists that it isn't lent; it asks that the lists of each zone share one length, and nothing else.
#![tactic(auto)]

ghost use Rattle.std.specs.Prelude.{◌≡◌, List, ℕ, ℤ, length};
ghost use Rattle.rules.specs.declared.Rules.{Rules};
ghost use Rattle.line.specs.World.{fixed, lined, world};
ghost use Rattle.line_mdrp.specs.Mdrp.{mdrp_distance, mdrp_of};

use answer::Refusal;
use graphics::{GraphicsState, Measures};
use line::{Stepped, index_at, refused, size_of};
use line_distance::{finish, outline_apart, sets_rp0, single_outline};
use line_relative::{both_inside, place_alike_in, relate_or, settle_relative};
use line_steps::step_from;
use moves::{apply_in, move_of};
use projection::project;
use round::{RoundState, Tracked};

// The distance that the point is brought to, by the outline's.
fn mdrp_distance(
    opcode: usize,
    native: bool,
    round: RoundState,
    m: Measures,
    outline: i32,
) -> Tracked
    ensures { result ≡ mdrp_distance opcode native round m outline }
{
    let d = single_outline(m.single_width_cut_in, m.single_width, outline);
    finish(opcode, native, round, m.minimum_distance, d, d)
}

// MDRP: the point, in zp1; rp0 is in zp0.
pub fn mdrp(
    s: GraphicsState,
    opcode: usize,
    operands: &[i32],
    gux: &[i32],
    guy: &[i32],
    gox: &[i32],
    goy: &[i32],
    gx: &mut [i32],
    gy: &mut [i32],
    gflags: &mut [u8],
    tox: &[i32],
    toy: &[i32],
    tx: &mut [i32],
    ty: &mut [i32],
    tflags: &mut [u8],
) -> Stepped
    requires { (length gy.old ≡ length gx.old) × (length gflags.old ≡ length gx.old) × (length ty.old ≡ length tx.old) × (length tflags.old ≡ length tx.old) }
    ensures { (rules : Rules) (controls : List ℤ) (contours : List ℕ) → lined result gx.new gy.new gflags.new tox.now toy.now tx.new ty.new tflags.new ≡ mdrp_of (fixed rules controls gux.now guy.now gox.now goy.now contours) opcode operands.now (world s gx.old gy.old gflags.old tox.now toy.now tx.old ty.old tflags.old) }
{
    if operands.len() < 1 {
        return refused(s, Refusal::Missing);
    }
    let at = index_at(operands, 0);
    let vectors = s.vectors;
    let facts = s.facts;
    let measures = s.measures;
    let zp0 = s.zp0();
    let zp1 = s.zp1();
    let rp0 = s.references.rp0;
    let sets = sets_rp0(opcode);
    let firsts = size_of(zp1, gx.len(), tx.len());
    let seconds = size_of(zp0, gx.len(), tx.len());
    let there = both_inside(at, firsts, rp0, seconds);
    match there {
        Err(why) => relate_or(s, sets, at, why),
        Ok(()) => {
            let outline = outline_apart(
                vectors.dual,
                measures.scale,
                zp1,
                at,
                zp0,
                rp0,
                gux,
                guy,
                gox,
                goy,
                tox,
                toy,
            );
            let native = facts.native_clear_type_x;
            let distance = mdrp_distance(opcode, native, s.round, measures, outline);
            let place = place_alike_in(zp1, at, gx, gy, tx, ty);
            let reference = place_alike_in(zp0, rp0, gx, gy, tx, ty);
            let by = step_from(project(vectors, place, reference), distance);
            let m = move_of(vectors, facts, by.word);
            let call = apply_in(zp1, m, at, gx, gy, gflags, tx, ty, tflags);
            settle_relative(s, sets, at, by.wrapped, call)
        }
    }
}
