// GC[a] (0x46, 0x47), the coordinate of a point, and MD[a] (0x49, 0x4A), the distance of two: each is pushed. OpenType's GC and MD, FreeType's Ins_GC and Ins_MD, and
// engine/data.rs.
//
// GC pops a point of zp2; MD pops a point of zp1, then one of zp0. They read the vectors, the facts, the scale and the points, and change nothing but what is
// pushed last and how often something was. Refused in this order: a missing operand; where the state is pedantic, the first point that is outside, of MD's two
// zp0's first; else 0 is pushed. MD of the original outline looks at unscaled points where both zones are the glyph's, and refuses none of these. `gc` and `md`
// are one equation each with `gc_of` and `md_of`, for every content of the lists that they aren't lent; they ask that the lists of each zone share one
// length, and nothing else.
#![tactic(auto)]

ghost use Rattle.std.specs.Prelude.{◌≡◌, List, ℕ, ltb, ℤ, length};
ghost use Rattle.rules.specs.declared.Rules.{Rules};
ghost use Rattle.line.specs.World.{World, fixed, lined, world};
ghost use Rattle.line_steps.specs.Steps.{in_state, into};
ghost use Rattle.line_measure.specs.Measure.{gc_of, md_of, zero_or};
ghost use Rattle.line_measure.specs.Steps.{apart_of, by_measured, glyph_apart, looked_up, vector_for};

use answer::Refusal;
use graphics::{GraphicsState, Vector, Vectors, ZonePointer};
use line::{Stepped, done, fetch_in, index_at, is_odd, refused};
use line_distance::unscaled_apart;
use projection::along;

// ---- what is found
// A point of the original outline, or where it is now.
fn look_up(
    original: bool,
    zone: ZonePointer,
    at: u64,
    gox: &[i32],
    goy: &[i32],
    gx: &[i32],
    gy: &[i32],
    tox: &[i32],
    toy: &[i32],
    tx: &[i32],
    ty: &[i32],
) -> Result<Vector, Refusal>
    requires { (length goy.now ≡ length gox.now) × (length gy.now ≡ length gx.now) × (length toy.now ≡ length tox.now) × (length ty.now ≡ length tx.now) }
    ensures { result ≡ looked_up original zone at gox.now goy.now gx.now gy.now tox.now toy.now tx.now ty.now }
{
    if original {
        fetch_in(zone, at, gox, goy, tox, toy)
    } else {
        fetch_in(zone, at, gx, gy, tx, ty)
    }
}

// Points of the original outline are measured along the dual vector.
fn vector_for(original: bool, v: Vectors) -> Vector
    ensures { result ≡ vector_for original v }
{
    if original { v.dual } else { v.projection }
}

// How far the first lies from the second along a vector; the first is looked at first.
fn apart(
    v: Vector,
    first: Result<Vector, Refusal>,
    second: Result<Vector, Refusal>,
) -> Result<i32, Refusal>
    ensures { result ≡ apart_of v first second }
{
    let here = first?;
    let there = second?;
    Ok(along(v, here, there))
}

fn is_inside(at: u64, size: usize) -> bool
    ensures { result ≡ ltb at size }
{
    (at as usize) < size
}

// How far a lies from b, two points of the original glyph, of which none is refused: outside 0 is found, and where the state is pedantic (0, 0) is measured.
fn glyph_apart(
    pedantic: bool,
    v: Vector,
    scale: i32,
    a: u64,
    b: u64,
    gux: &[i32],
    guy: &[i32],
) -> i32
    ensures { result ≡ glyph_apart pedantic v scale a b gux.now guy.now }
{
    let size = gux.len();
    if pedantic | (is_inside(a, size) & is_inside(b, size)) {
        unscaled_apart(v, scale, a, b, gux, guy)
    } else {
        0
    }
}

// ---- what is pushed
// 0 in the place of a refusal, unless the state is pedantic.
fn zero_or(s: GraphicsState, why: Refusal) -> Stepped
    ensures { (w : World) → into w result ≡ zero_or (in_state w s) why }
{
    let facts = s.facts;
    if facts.pedantic {
        refused(s, why)
    } else {
        done(s.with_push(0))
    }
}

fn settle_measured(s: GraphicsState, m: Result<i32, Refusal>) -> Stepped
    ensures { (w : World) → into w result ≡ by_measured (in_state w s) m }
{
    match m {
        Ok(d) => done(s.with_push(d)),
        Err(why) => zero_or(s, why),
    }
}

// ---- the lines
// GC: the point, in zp2; where the opcode is odd in the original outline.
pub fn gc(
    s: GraphicsState,
    opcode: usize,
    operands: &[i32],
    gox: &[i32],
    goy: &[i32],
    gx: &[i32],
    gy: &[i32],
    tox: &[i32],
    toy: &[i32],
    tx: &[i32],
    ty: &[i32],
) -> Stepped
    requires { (length goy.now ≡ length gox.now) × (length gy.now ≡ length gx.now) × (length toy.now ≡ length tox.now) × (length ty.now ≡ length tx.now) }
    ensures { (rules : Rules) (controls gux guy : List ℤ) (contours gflags tflags : List ℕ) → lined result gx.now gy.now gflags tox.now toy.now tx.now ty.now tflags ≡ gc_of (fixed rules controls gux guy gox.now goy.now contours) opcode operands.now (world s gx.now gy.now gflags tox.now toy.now tx.now ty.now tflags) }
{
    if operands.len() < 1 {
        return refused(s, Refusal::Missing);
    }
    let at = index_at(operands, 0);
    let original = is_odd(opcode);
    let zp2 = s.zp2();
    let point = look_up(original, zp2, at, gox, goy, gx, gy, tox, toy, tx, ty);
    let origin = Ok(Vector { x: 0, y: 0 });
    settle_measured(s, apart(vector_for(original, s.vectors), point, origin))
}

// MD: a point of zp1, and one of zp0 that is measured from it; where the opcode is even in the original outline.
pub fn md(
    s: GraphicsState,
    opcode: usize,
    operands: &[i32],
    gux: &[i32],
    guy: &[i32],
    gox: &[i32],
    goy: &[i32],
    gx: &[i32],
    gy: &[i32],
    tox: &[i32],
    toy: &[i32],
    tx: &[i32],
    ty: &[i32],
) -> Stepped
    requires { (length goy.now ≡ length gox.now) × (length gy.now ≡ length gx.now) × (length toy.now ≡ length tox.now) × (length ty.now ≡ length tx.now) }
    ensures { (rules : Rules) (controls : List ℤ) (contours gflags tflags : List ℕ) → lined result gx.now gy.now gflags tox.now toy.now tx.now ty.now tflags ≡ md_of (fixed rules controls gux.now guy.now gox.now goy.now contours) opcode operands.now (world s gx.now gy.now gflags tox.now toy.now tx.now ty.now tflags) }
{
    if operands.len() < 2 {
        return refused(s, Refusal::Missing);
    }
    let b = index_at(operands, 0);
    let a = index_at(operands, 1);
    let fitted = is_odd(opcode);
    let p = s.zp0();
    let q = s.zp1();
    if fitted | p.is_twilight() | q.is_twilight() {
        let first = look_up(!fitted, p, a, gox, goy, gx, gy, tox, toy, tx, ty);
        let second = look_up(!fitted, q, b, gox, goy, gx, gy, tox, toy, tx, ty);
        settle_measured(s, apart(vector_for(!fitted, s.vectors), first, second))
    } else {
        let d = glyph_apart(
            s.facts.pedantic,
            s.vectors.dual,
            s.measures.scale,
            a,
            b,
            gux,
            guy,
        );
        done(s.with_push(d))
    }
}
