// ALIGNRP[] (0x3C): each point of zp1 is brought into line with rp0 of zp0. OpenType's ALIGNRP, FreeType's Ins_ALIGNRP, and engine/outline.rs.
//
// Pops as many points as the loop counter says, the first popped first. Reads zp0, zp1, rp0, the vectors and both zones' points; rp0 anew for each point. Sets the points
// and their touch flags, and the counter to 1, refused or not. Refused, at each point in this order: where an operand is missing, at the point, at rp0; the points before it
// stay moved. `alignrp` is one equation with `alignrp_of` of specs/Alignrp.antt, for every content of the lists that it isn't lent; that each zone's lists share one
// length is asked of the caller, and nothing of operands, references or the state. More operands than the counter says are left alone: refusing such a line (answer 5) is
// the crate opcodes'.
#![tactic(auto)]

ghost use Rattle.std.specs.Prelude.{◌≡◌, List, ℕ, ℤ, length};
ghost use Rattle.line_steps.specs.Loop.{each, ended, zones};
ghost use Rattle.line_alignrp.specs.Loop.{aligning_of, align_at};
ghost use Rattle.line_alignrp.specs.Alignrp.{alignrp_of};
ghost use Rattle.line.specs.World.{Fixed, lined, world};

use answer::Refusal;
use graphics::GraphicsState;
use int::{as_index, wrapping_neg};
use line::{Stepped, fetch_in};
use moves::{Move, apply_in, move_of};
use projection::project;

// The point is read first, then rp0.
fn move_to_align(
    s: GraphicsState,
    at: u64,
    gx: &[i32],
    gy: &[i32],
    tx: &[i32],
    ty: &[i32],
) -> Result<Move, Refusal>
    requires { (length gy.now ≡ length gx.now) × (length ty.now ≡ length tx.now) }
    ensures { result ≡ aligning_of s at gx.now gy.now tx.now ty.now }
{
    let vectors = s.vectors;
    let facts = s.facts;
    let pointers = s.pointers;
    let references = s.references;
    let zp0 = pointers.zp0;
    let zp1 = pointers.zp1;
    let point = fetch_in(zp1, at, gx, gy, tx, ty)?;
    let reference = fetch_in(zp0, references.rp0, gx, gy, tx, ty)?;
    let distance = project(vectors, point, reference);
    Ok(move_of(vectors, facts, wrapping_neg(distance)))
}

fn align_point(
    s: GraphicsState,
    at: u64,
    gx: &mut [i32],
    gy: &mut [i32],
    gflags: &mut [u8],
    tx: &mut [i32],
    ty: &mut [i32],
    tflags: &mut [u8],
) -> Result<(), Refusal>
    requires { (length gy.old ≡ length gx.old) × (length gflags.old ≡ length gx.old) × (length ty.old ≡ length tx.old) × (length tflags.old ≡ length tx.old) }
    ensures { ended result (zones gx.new gy.new gflags.new tx.new ty.new tflags.new) ≡ align_at s at (zones gx.old gy.old gflags.old tx.old ty.old tflags.old) }
{
    let pointers = s.pointers;
    let zp1 = pointers.zp1;
    let m = move_to_align(s, at, gx, gy, tx, ty)?;
    apply_in(zp1, m, at, gx, gy, gflags, tx, ty, tflags)
}

fn align_each(
    s: GraphicsState,
    count: u32,
    operands: &[i32],
    gx: &mut [i32],
    gy: &mut [i32],
    gflags: &mut [u8],
    tx: &mut [i32],
    ty: &mut [i32],
    tflags: &mut [u8],
) -> Result<(), Refusal>
    requires { (length gy.old ≡ length gx.old) × (length gflags.old ≡ length gx.old) × (length ty.old ≡ length tx.old) × (length tflags.old ≡ length tx.old) }
    ensures { ended result (zones gx.new gy.new gflags.new tx.new ty.new tflags.new) ≡ each (align_at s) count operands.now (zones gx.old gy.old gflags.old tx.old ty.old tflags.old) }
{
    let wanted = count as usize;
    for k in 0..wanted {
        if operands.len() <= k {
            return Err(Refusal::Missing);
        }
        let at = as_index(operands[k]);
        align_point(s, at, gx, gy, gflags, tx, ty, tflags)?;
    }
    Ok(())
}

pub fn alignrp(
    s: GraphicsState,
    operands: &[i32],
    gx: &mut [i32],
    gy: &mut [i32],
    gflags: &mut [u8],
    tx: &mut [i32],
    ty: &mut [i32],
    tflags: &mut [u8],
) -> Stepped
    requires { (length gy.old ≡ length gx.old) × (length gflags.old ≡ length gx.old) × (length ty.old ≡ length tx.old) × (length tflags.old ≡ length tx.old) }
    ensures { (f : Fixed) (opcode : ℕ) (tox toy : List ℤ) → lined result gx.new gy.new gflags.new tox toy tx.new ty.new tflags.new ≡ alignrp_of f opcode operands.now (world s gx.old gy.old gflags.old tox toy tx.old ty.old tflags.old) }
{
    let call = align_each(s, s.loop_counter, operands, gx, gy, gflags, tx, ty, tflags);
    Stepped {
        call,
        state: s.reset_loop_counter().by_words(),
    }
}
