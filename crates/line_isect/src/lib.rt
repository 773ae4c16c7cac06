// ISECT (0x0F), which puts a point where two lines meet: engine/outline.rs. The arithmetic is the crate crossing's.
//
// Pops b1, b0, a1, a0, the point; reads line a in zp1 and line b in zp0; puts the point in zp2 and touches it on both axes. Refused in this order:
// a missing operand, a0, a1, b0, b1, the point, pedantic or not; then nothing is changed. OpenType's ISECT, FreeType's Ins_ISECT. `isect` is one
// equation with `isect_of`, for every content of the lists that it isn't lent; it asks that each zone's coordinates share one length, and
// nothing else. The opcode isn't looked at.
#![tactic(auto)]

ghost use Rattle.std.specs.Prelude.{◌≡◌, List, ℕ, ℤ, length};
ghost use Rattle.graphics.specs.declared.GraphicsState.{GraphicsState};
ghost use Rattle.graphics.specs.declared.Vector.{Vector};
ghost use Rattle.moves.specs.Apply.{both_moved, moved};
ghost use Rattle.line.specs.World.{Fixed, Lined, lined, world};
ghost use Rattle.line_steps.specs.Steps.{by_fetched, refused_in};
ghost use Rattle.line_isect.specs.Isect.{isect_of};
ghost use Rattle.line_isect.specs.Steps.{meeting_in, put_of, put_in};

use answer::Refusal;
use crossing::crossing;
use flags::CoordAxis;
use graphics::{GraphicsState, Vector, ZonePointer};
use line::{Stepped, fetch_in, index_at, put_at, refused};
use zone::or_at;

// ---- where the lines meet
// Line a, then line b, each from its start; the first end outside is refused.
fn meeting(
    zone_a: ZonePointer,
    a0: u64,
    a1: u64,
    zone_b: ZonePointer,
    b0: u64,
    b1: u64,
    gx: &[i32],
    gy: &[i32],
    tx: &[i32],
    ty: &[i32],
) -> Result<Vector, Refusal>
    requires { (length gy.now ≡ length gx.now) × (length ty.now ≡ length tx.now) }
    ensures { (s : GraphicsState) (gflags : List ℕ) (tox toy : List ℤ) (tflags : List ℕ) (rest : Vector → Lined) → by_fetched (refused_in (world s gx.now gy.now gflags tox toy tx.now ty.now tflags)) rest result ≡ meeting_in zone_a a0 a1 zone_b b0 b1 (world s gx.now gy.now gflags tox toy tx.now ty.now tflags) rest }
{
    let one = fetch_in(zone_a, a0, gx, gy, tx, ty);
    let Ok(a_from) = one else {
        return one;
    };
    let two = fetch_in(zone_a, a1, gx, gy, tx, ty);
    let Ok(a_to) = two else {
        return two;
    };
    let three = fetch_in(zone_b, b0, gx, gy, tx, ty);
    let Ok(b_from) = three else {
        return three;
    };
    let four = fetch_in(zone_b, b1, gx, gy, tx, ty);
    let Ok(b_to) = four else {
        return four;
    };
    Ok(crossing(a_from, a_to, b_from, b_to))
}

// ---- the point
// Puts a point of one zone somewhere and touches both axes, whatever holds points back.
fn put_touched(
    place: Vector,
    at: u64,
    xs: &mut [i32],
    ys: &mut [i32],
    flags: &mut [u8],
) -> Result<(), Refusal>
    ensures { moved result xs.new ys.new flags.new ≡ put_of place at xs.old ys.old flags.old }
{
    let i = at as usize;
    if xs.len() <= i {
        return Err(Refusal::Point(at));
    }
    put_at(place, at, xs, ys);
    or_at(flags, at, CoordAxis::Both.touch_bits());
    Ok(())
}

// The same in the zone that a pointer names.
fn put_in(
    zone: ZonePointer,
    place: Vector,
    at: u64,
    gx: &mut [i32],
    gy: &mut [i32],
    gflags: &mut [u8],
    tx: &mut [i32],
    ty: &mut [i32],
    tflags: &mut [u8],
) -> Result<(), Refusal>
    ensures { both_moved result gx.new gy.new gflags.new tx.new ty.new tflags.new ≡ put_in place at gx.old gy.old gflags.old tx.old ty.old tflags.old zone }
{
    match zone {
        ZonePointer::Glyph => put_touched(place, at, gx, gy, gflags),
        ZonePointer::Twilight => put_touched(place, at, tx, ty, tflags),
    }
}

// ---- the line
// ISECT: the ends of line b, the ends of line a, each from its end to its start, and the point, which is looked up last.
pub fn isect(
    s: GraphicsState,
    operands: &[i32],
    gx: &mut [i32],
    gy: &mut [i32],
    gflags: &mut [u8],
    tx: &mut [i32],
    ty: &mut [i32],
    tflags: &mut [u8],
) -> Stepped
    requires { (length gy.old ≡ length gx.old) × (length ty.old ≡ length tx.old) }
    ensures { (f : Fixed) (opcode : ℕ) (tox toy : List ℤ) → lined result gx.new gy.new gflags.new tox toy tx.new ty.new tflags.new ≡ isect_of f opcode operands.now (world s gx.old gy.old gflags.old tox toy tx.old ty.old tflags.old) }
{
    if operands.len() < 5 {
        return refused(s, Refusal::Missing);
    }
    let b1 = index_at(operands, 0);
    let b0 = index_at(operands, 1);
    let a1 = index_at(operands, 2);
    let a0 = index_at(operands, 3);
    let at = index_at(operands, 4);
    let pointers = s.pointers;
    let zp0 = pointers.zp0;
    let zp1 = pointers.zp1;
    let zp2 = pointers.zp2;
    let met = meeting(zp1, a0, a1, zp0, b0, b1, gx, gy, tx, ty);
    match met {
        Err(why) => refused(s, why),
        Ok(place) => {
            let call = put_in(zp2, place, at, gx, gy, gflags, tx, ty, tflags);
            Stepped {
                call,
                state: s.by_words(),
            }
        }
    }
}
