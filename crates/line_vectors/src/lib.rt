// The lines that turn a vector and move no point: engine/graphics.rs. The arithmetic is the crate normalize's.
//
// - SPVTL[a] (0x06, 0x07), SFVTL[a] (0x08, 0x09): pop a point of zp2, then one of zp1; set the projection and the dual vector, or the freedom vector, along the line
//   through both, an odd opcode's across it. FreeType's Ins_SxVTL.
// - SDPVTL[a] (0x86, 0x87): the same points; the dual vector by the original ones, the projection vector by where they are now. Ins_SDPVTL.
// - SPVFS[] (0x0A), SFVFS[] (0x0B): pop y, then x, 16 bits each; (0, 0) keeps the vector. Ins_SxVFS.
// - SFVTPV[] (0x0E): pops nothing; the freedom vector is the projection vector. Ins_SFVTPV.
//
// Refused in this order: a missing operand; zp1's point, zp2's point, pedantic or not; then nothing is changed. Two points in one place give the x axis.
// `turn` does each of them: one equation with `turn_of`, for every content of the lists that it isn't lent. It asks that the lists of each zone share one
// length, and nothing else.
#![tactic(auto)]

ghost use Rattle.std.specs.Prelude.{◌≡◌, List, ℕ, ℤ, length};
ghost use Rattle.rules.specs.declared.Rules.{Rules};
ghost use Rattle.line.specs.World.{fixed, lined, world};
ghost use Rattle.line_vectors.specs.Vectors.{along_at, dual_at, from_stack, line_vector, short, turn_of, vector_by};
ghost use Rattle.line_vectors.specs.Steps.{dual_by, is_along, line_by, line_found, settled_by};

use answer::Refusal;
use graphics::{GraphicsState, Vector, Vectors, ZonePointer};
use int::{equal, shift_right, wrapping_mul, wrapping_neg, wrapping_sub};
use line::{Stepped, done, fetch_in, index_at, is_odd, refused};
use normalize::normalize;

// ---- along a line of two points
// From q to p, or across; the x axis where they are in one place.
fn line_vector(across: bool, p: Vector, q: Vector) -> Vector
    ensures { result ≡ line_vector across p q }
{
    let a = wrapping_sub(p.x, q.x);
    let b = wrapping_sub(p.y, q.y);
    if equal(a, 0) & equal(b, 0) {
        Vector::x_axis()
    } else if across {
        normalize(wrapping_neg(b), a)
    } else {
        normalize(a, b)
    }
}

// The vector of two places, or the first refusal.
fn line_by(
    across: bool,
    first: Result<Vector, Refusal>,
    second: Result<Vector, Refusal>,
) -> Result<Vector, Refusal>
    ensures { result ≡ line_by across first second }
{
    let p = first?;
    let q = second?;
    Ok(line_vector(across, p, q))
}

// ---- from the stack
// The low 16 bits, as signed.
fn short_of(word: i32) -> i32
    ensures { result ≡ short word }
{
    shift_right(wrapping_mul(word, 0x10000), 16)
}

fn from_stack(kept: Vector, x: i32, y: i32) -> Vector
    ensures { result ≡ from_stack kept x y }
{
    if equal(x, 0) & equal(y, 0) {
        kept
    } else {
        normalize(x, y)
    }
}

// SPVFS, SFVFS and SFVTPV, which look at no point.
fn vector_by(s: GraphicsState, opcode: usize, operands: &[i32]) -> Stepped
    ensures { result ≡ vector_by s opcode operands.now }
{
    let vectors = s.vectors;
    let projection = vectors.projection;
    let freedom = vectors.freedom;
    if opcode == 0x0E {
        return done(s.with_freedom_vector(projection));
    }
    if operands.len() < 2 {
        return refused(s, Refusal::Missing);
    }
    let y = short_of(operands[0]);
    let x = short_of(operands[1]);
    if opcode == 0x0A {
        done(s.with_projection_vectors(from_stack(projection, x, y)))
    } else {
        done(s.with_freedom_vector(from_stack(freedom, x, y)))
    }
}

// ---- the vector that a line finds
// SPVTL, SFVTL and SDPVTL.
fn is_along(opcode: usize) -> bool
    ensures { result ≡ is_along opcode }
{
    (opcode < 0x0A) | (0x86 <= opcode)
}

// Of a point of zp2, and one of zp1 that the line goes to.
fn line_found(
    across: bool,
    operands: &[i32],
    zp1: ZonePointer,
    zp2: ZonePointer,
    gx: &[i32],
    gy: &[i32],
    tx: &[i32],
    ty: &[i32],
) -> Result<Vector, Refusal>
    requires { (length gy.now ≡ length gx.now) × (length ty.now ≡ length tx.now) }
    ensures { result ≡ line_found across operands.now zp1 zp2 gx.now gy.now tx.now ty.now }
{
    if operands.len() < 2 {
        return Err(Refusal::Missing);
    }
    let second = index_at(operands, 0);
    let first = index_at(operands, 1);
    let p = fetch_in(zp1, first, gx, gy, tx, ty);
    let q = fetch_in(zp2, second, gx, gy, tx, ty);
    line_by(across, p, q)
}

// ---- the vectors set
// The projection and the dual vector, each by itself.
fn set_dual(mut s: GraphicsState, dual: Vector, v: Vector) -> GraphicsState
    ensures { result ≡ dual_at s dual v }
{
    let old = s.vectors;
    let freedom = old.freedom;
    let vectors = Vectors {
        projection: v,
        dual,
        freedom,
    };
    s.vectors = vectors;
    s
}

fn settle_dual(
    s: GraphicsState,
    old: Result<Vector, Refusal>,
    now: Result<Vector, Refusal>,
) -> Stepped
    ensures { result ≡ dual_by s old now }
{
    match old {
        Err(why) => refused(s, why),
        Ok(dual) => match now {
            Err(why) => refused(s, why),
            Ok(v) => done(set_dual(s, dual, v)),
        },
    }
}

// SPVTL sets the projection and the dual vector, SFVTL the freedom vector.
fn set_along(s: GraphicsState, opcode: usize, v: Vector) -> GraphicsState
    ensures { result ≡ along_at s opcode v }
{
    if opcode < 0x08 {
        s.with_projection_vectors(v)
    } else {
        s.with_freedom_vector(v)
    }
}

fn settle_along(s: GraphicsState, opcode: usize, found: Result<Vector, Refusal>) -> Stepped
    ensures { result ≡ settled_by s opcode found }
{
    match found {
        Err(why) => refused(s, why),
        Ok(v) => done(set_along(s, opcode, v)),
    }
}

// A line that turns a vector.
pub fn turn(
    s: GraphicsState,
    opcode: usize,
    operands: &[i32],
    gox: &[i32],
    goy: &[i32],
    gx: &[i32],
    gy: &[i32],
    tox: &[i32],
    toy: &[i32],
    tx: &[i32],
    ty: &[i32],
) -> Stepped
    requires { (length goy.now ≡ length gox.now) × (length gy.now ≡ length gx.now) × (length toy.now ≡ length tox.now) × (length ty.now ≡ length tx.now) }
    ensures { (rules : Rules) (controls gux guy : List ℤ) (contours gflags tflags : List ℕ) → lined result gx.now gy.now gflags tox.now toy.now tx.now ty.now tflags ≡ turn_of (fixed rules controls gux guy gox.now goy.now contours) opcode operands.now (world s gx.now gy.now gflags tox.now toy.now tx.now ty.now tflags) }
{
    if !is_along(opcode) {
        return vector_by(s, opcode, operands);
    }
    let across = is_odd(opcode);
    let zp1 = s.zp1();
    let zp2 = s.zp2();
    let now = line_found(across, operands, zp1, zp2, gx, gy, tx, ty);
    if opcode < 0x86 {
        return settle_along(s, opcode, now);
    }
    let old = line_found(across, operands, zp1, zp2, gox, goy, tox, toy);
    settle_dual(s, old, now)
}
