// SHC[a] (0x34, 0x35) and SHZ[a] (0x36, 0x37): the points of a contour, or of a zone, of zp2 are shifted as the reference point was, all but that point.
//
// SHC pops a contour and touches the points that it shifts, SHZ pops a zone and touches none. Both read rp1 in zp0 where the opcode is odd, else rp2 in zp1: where that point is and
// where it was. Refused in this order: a missing operand; a contour (where the state is pedantic, else the line does nothing) or a zone that isn't there; the reference point; each
// point beyond the zone, with the points before it shifted. OpenType's SHC and SHZ, FreeType's Ins_SHC and Ins_SHZ, and engine/outline.rs.
//
// `shc` and `shz` are each one equation with a definition of specs/Shc.antt, for every content of the lists that they aren't lent. That each zone's lists share one length is asked of the
// caller; nothing is asked of operands, contour ends, references or the state. More operands than one are left alone: refusing such a line (answer 5) is the crate opcodes'.
#![tactic(auto)]

ghost use Rattle.std.specs.Prelude.{List, ◌≡◌, ℤ, get_or, length};
ghost use Rattle.answer.specs.declared.Refusal.TheVariants.{Contour};
ghost use Rattle.line_steps.specs.Steps.{in_state, into, passed_over};
ghost use Rattle.rules.specs.declared.Rules.{Rules};
ghost use Rattle.line.specs.World.{World, fixed, lined, world};
ghost use Rattle.line_shc_shz.specs.Shc.{point_after, shc_of, shz_of};

use answer::Refusal;
use graphics::GraphicsState;
use line::{Stepped, done, index_at, refused, size_of};
use line_span::shift_span_of;
use moves::reference_of;

// ---- contours
// The end of a contour, 0 where there is none.
fn end_or_0(contours: &[u16], k: usize) -> u16
    ensures { result ≡ get_or contours.now k 0 }
{
    if contours.len() <= k { 0 } else { contours[k] }
}

// The point after so many contours.
fn point_after(contours: &[u16], count: usize) -> usize
    ensures { result ≡ point_after contours.now count }
{
    if count == 0 {
        0
    } else {
        end_or_0(contours, count - 1) as usize + 1
    }
}

// ---- SHC
fn no_contour(s: GraphicsState, index: u64) -> Stepped
    ensures { (w : World) → into w result ≡ passed_over (in_state w s) (Contour index) }
{
    let facts = s.facts;
    if facts.pedantic {
        refused(s, Refusal::Contour(index))
    } else {
        done(s)
    }
}

// The twilight zone has one contour, of all its points.
pub fn shc(
    s: GraphicsState,
    opcode: usize,
    operands: &[i32],
    gox: &[i32],
    goy: &[i32],
    gx: &mut [i32],
    gy: &mut [i32],
    gflags: &mut [u8],
    contours: &[u16],
    tox: &[i32],
    toy: &[i32],
    tx: &mut [i32],
    ty: &mut [i32],
    tflags: &mut [u8],
) -> Stepped
    requires { (length goy.now ≡ length gox.now) × (length gy.old ≡ length gx.old) × (length gflags.old ≡ length gx.old) × (length toy.now ≡ length tox.now) × (length ty.old ≡ length tx.old) × (length tflags.old ≡ length tx.old) }
    ensures { (rules : Rules) (controls gux guy : List ℤ) → lined result gx.new gy.new gflags.new tox.now toy.now tx.new ty.new tflags.new ≡ shc_of (fixed rules controls gux guy gox.now goy.now contours.now) opcode operands.now (world s gx.old gy.old gflags.old tox.now toy.now tx.old ty.old tflags.old) }
{
    // Read before the first way out, so that the state need not be laid down in memory for it.
    let vectors = s.vectors;
    let facts = s.facts;
    let zp2 = s.zp2();
    let reference = reference_of(s, opcode);
    if operands.len() < 1 {
        return refused(s, Refusal::Missing);
    }
    let at = index_at(operands, 0);
    let index = at as usize;
    if size_of(zp2, contours.len(), 1) <= index {
        return no_contour(s, at);
    }
    let start = point_after(contours, index);
    let end = size_of(zp2, point_after(contours, index + 1), tx.len());
    let call = shift_span_of(
        vectors, facts, zp2, reference, true, start, end, gox, goy, gx, gy, gflags, tox, toy, tx,
        ty, tflags,
    );
    Stepped {
        call,
        state: s.by_words(),
    }
}

// ---- SHZ
// Which zone the operand names is tested and not used: zp2's points are shifted.
pub fn shz(
    s: GraphicsState,
    opcode: usize,
    operands: &[i32],
    gox: &[i32],
    goy: &[i32],
    gx: &mut [i32],
    gy: &mut [i32],
    gflags: &mut [u8],
    contours: &[u16],
    tox: &[i32],
    toy: &[i32],
    tx: &mut [i32],
    ty: &mut [i32],
    tflags: &mut [u8],
) -> Stepped
    requires { (length goy.now ≡ length gox.now) × (length gy.old ≡ length gx.old) × (length gflags.old ≡ length gx.old) × (length toy.now ≡ length tox.now) × (length ty.old ≡ length tx.old) × (length tflags.old ≡ length tx.old) }
    ensures { (rules : Rules) (controls gux guy : List ℤ) → lined result gx.new gy.new gflags.new tox.now toy.now tx.new ty.new tflags.new ≡ shz_of (fixed rules controls gux guy gox.now goy.now contours.now) opcode operands.now (world s gx.old gy.old gflags.old tox.now toy.now tx.old ty.old tflags.old) }
{
    // Read before the first way out, so that the state need not be laid down in memory for it.
    let vectors = s.vectors;
    let facts = s.facts;
    let zp2 = s.zp2();
    let reference = reference_of(s, opcode);
    if operands.len() < 1 {
        return refused(s, Refusal::Missing);
    }
    let zone = index_at(operands, 0);
    if 1 < zone {
        return refused(s, Refusal::ZonePointer(zone));
    }
    let end = size_of(zp2, point_after(contours, contours.len()), tx.len());
    let call = shift_span_of(
        vectors, facts, zp2, reference, false, 0, end, gox, goy, gx, gy, gflags, tox, toy, tx, ty,
        tflags,
    );
    Stepped {
        call,
        state: s.by_words(),
    }
}
