// The arithmetic of ISECT: where two lines meet, in 32-bit words that wrap, as engine/outline.rs has it.
//
// `crossing` answers for every four points; it looks at no zone. Near-parallel lines have the middle of their four ends for an answer.
#![tactic(auto)]

ghost use Rattle.std.specs.Prelude.{◌≡◌};
ghost use Rattle.crossing.specs.Crossing.{from_to, cross_of, dot_of, meet, moved_of, middle_by, crossing_of};

use graphics::Vector;
use int::{
    less, wrapping_abs, wrapping_add, wrapping_div, wrapping_mul, wrapping_neg, wrapping_sub,
};
use math::mul_div;

fn from_to(p: Vector, q: Vector) -> Vector
    ensures { result ≡ from_to p q }
{
    let x = wrapping_sub(q.x, p.x);
    let y = wrapping_sub(q.y, p.y);
    Vector { x, y }
}

fn cross(u: Vector, v: Vector) -> i32
    ensures { result ≡ cross_of u v }
{
    let ux = u.x;
    let uy = u.y;
    let vx = v.x;
    let vy = v.y;
    wrapping_add(mul_div(ux, wrapping_neg(vy), 0x40), mul_div(uy, vx, 0x40))
}

fn dot(u: Vector, v: Vector) -> i32
    ensures { result ≡ dot_of u v }
{
    let ux = u.x;
    let uy = u.y;
    let vx = v.x;
    let vy = v.y;
    wrapping_add(mul_div(ux, vx, 0x40), mul_div(uy, vy, 0x40))
}

// Whether the lines meet at more than about 3 degrees.
fn do_meet(discriminant: i32, dotproduct: i32) -> bool
    ensures { result ≡ meet discriminant dotproduct }
{
    less(
        wrapping_abs(dotproduct),
        wrapping_mul(wrapping_abs(discriminant), 19),
    )
}

// One coordinate of the meeting place: at + d v / discriminant.
fn moved(at: i32, d: i32, v: i32, discriminant: i32) -> i32
    ensures { result ≡ moved_of at d v discriminant }
{
    wrapping_add(at, mul_div(v, d, discriminant))
}

// One coordinate of the middle of four points, toward zero.
fn middle(a: i32, b: i32, c: i32, d: i32) -> i32
    ensures { result ≡ middle_by a b c d }
{
    wrapping_div(wrapping_add(wrapping_add(wrapping_add(a, b), c), d), 4)
}

// Where the line from a0 to a1 meets that from b0 to b1.
pub fn crossing(a0: Vector, a1: Vector, b0: Vector, b1: Vector) -> Vector
    ensures { result ≡ crossing_of a0 a1 b0 b1 }
{
    let da = from_to(a0, a1);
    let db = from_to(b0, b1);
    let discriminant = cross(da, db);
    if do_meet(discriminant, dot(da, db)) {
        let v = cross(from_to(a0, b0), db);
        let x = moved(a0.x, da.x, v, discriminant);
        let y = moved(a0.y, da.y, v, discriminant);
        Vector { x, y }
    } else {
        let x = middle(a0.x, a1.x, b0.x, b1.x);
        let y = middle(a0.y, a1.y, b0.y, b1.y);
        Vector { x, y }
    }
}
