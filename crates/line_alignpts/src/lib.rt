// ALIGNPTS[] (0x27): brings a point of zp0 and one of zp1 into line, half way each. OpenType's ALIGNPTS, FreeType's Ins_ALIGNPTS, and
// engine/outline.rs.
//
// Pops a point of zp0, then one of zp1. Reads zp0, zp1, the vectors, the facts and both zones' points; moves zp1's point by half the distance, then
// zp0's back by as much, and touches both. Refused in this order: a missing operand, zp0's point, zp1's point, pedantic or not; then nothing is
// changed. `alignpts` is one equation with `alignpts_of`, for every content of the lists that it isn't lent; it asks that the lists of each zone share
// one length, and nothing else.
#![tactic(auto)]

ghost use Rattle.std.specs.Prelude.{◌≡◌, List, ℕ, ℤ, length};
ghost use Rattle.line.specs.World.{Fixed, lined, world};
ghost use Rattle.line_alignpts.specs.Alignpts.{alignpts_of, both_moved_by};
ghost use Rattle.line_alignpts.specs.Steps.{half_apart};

use answer::Refusal;
use graphics::{GraphicsState, Vector, Vectors};
use int::{wrapping_div, wrapping_neg};
use line::{Stepped, fetch_in, index_at, refused};
use moves::{apply_in, move_of};
use projection::project;

// Half of how far the first lies from the second; the first is looked at first.
fn half_apart(
    v: Vectors,
    first: Result<Vector, Refusal>,
    second: Result<Vector, Refusal>,
) -> Result<i32, Refusal>
    ensures { result ≡ half_apart v first second }
{
    let there = first?;
    let here = second?;
    Ok(wrapping_div(project(v, there, here), 2))
}

// Zp1's point moved by half the distance, then zp0's back by as much.
fn move_both(
    s: GraphicsState,
    half: i32,
    first: u64,
    second: u64,
    gx: &mut [i32],
    gy: &mut [i32],
    gflags: &mut [u8],
    tx: &mut [i32],
    ty: &mut [i32],
    tflags: &mut [u8],
) -> Result<(), Refusal>
    requires { (length gy.old ≡ length gx.old) × (length gflags.old ≡ length gx.old) × (length ty.old ≡ length tx.old) × (length tflags.old ≡ length tx.old) }
    ensures { (tox toy : List ℤ) → lined (record { call = result; state = s }) gx.new gy.new gflags.new tox toy tx.new ty.new tflags.new ≡ both_moved_by half first second (world s gx.old gy.old gflags.old tox toy tx.old ty.old tflags.old) }
{
    let pointers = s.pointers;
    let zp0 = pointers.zp0;
    let zp1 = pointers.zp1;
    let there = move_of(s.vectors, s.facts, half);
    apply_in(zp1, there, second, gx, gy, gflags, tx, ty, tflags)?;
    let back = move_of(s.vectors, s.facts, wrapping_neg(half));
    apply_in(zp0, back, first, gx, gy, gflags, tx, ty, tflags)
}

// ALIGNPTS: a point of zp0, and one of zp1.
pub fn alignpts(
    s: GraphicsState,
    operands: &[i32],
    gx: &mut [i32],
    gy: &mut [i32],
    gflags: &mut [u8],
    tx: &mut [i32],
    ty: &mut [i32],
    tflags: &mut [u8],
) -> Stepped
    requires { (length gy.old ≡ length gx.old) × (length gflags.old ≡ length gx.old) × (length ty.old ≡ length tx.old) × (length tflags.old ≡ length tx.old) }
    ensures { (f : Fixed) (opcode : ℕ) (tox toy : List ℤ) → lined result gx.new gy.new gflags.new tox toy tx.new ty.new tflags.new ≡ alignpts_of f opcode operands.now (world s gx.old gy.old gflags.old tox toy tx.old ty.old tflags.old) }
{
    if operands.len() < 2 {
        return refused(s, Refusal::Missing);
    }
    let first = index_at(operands, 0);
    let second = index_at(operands, 1);
    let pointers = s.pointers;
    let zp0 = pointers.zp0;
    let zp1 = pointers.zp1;
    let there = fetch_in(zp0, first, gx, gy, tx, ty);
    let here = fetch_in(zp1, second, gx, gy, tx, ty);
    let apart = half_apart(s.vectors, there, here);
    match apart {
        Err(why) => refused(s, why),
        Ok(half) => {
            let call = move_both(s, half, first, second, gx, gy, gflags, tx, ty, tflags);
            Stepped {
                call,
                state: s.by_words(),
            }
        }
    }
}
