// What is worked out from the graphics state's vectors: projection.rs, with dot14 in the crate math.
//
// The axes and fdotp come from the vectors alone and are never taken from a caller; a distance is measured along one vector by `along`.
// `derive`, `along`, `project`, `dual_project` and `dual_project_unscaled` answer for every input, for callers that have tested the
// state; the calls that begin with `try` are for whoever brings a state of their own, and refuse an unusable one with answer 3.
// Nothing is said of unit length: a vector need not have it.
#![tactic(auto)]

ghost use Rattle.std.specs.Prelude.{◌≡◌};
ghost use Rattle.projection.specs.Projection.{axis_of, freedom_axis_by, raw_fdotp, not_small, derived_of, along_of, project_of, dual_project_of, measured_by, deduced_by, measured_of, deduced_of};

use answer::Refusal;
use flags::CoordAxis;
use graphics::{GraphicsState, ONE, Vector, Vectors};
use int::{equal, less, shift_right, wrapping_abs, wrapping_add, wrapping_mul, wrapping_sub};
use math::dot14;

// The numbers that go with three vectors.
#[derive(Clone, Copy)]
pub struct Derived {
    pub projection_axis: CoordAxis,
    pub dual_axis: CoordAxis,
    pub freedom_axis: CoordAxis,
    // The projection of the freedom vector on the projection vector, 2.14.
    pub fdotp: i32,
}

// The axis that a vector lies on: one component that is 1 decides, whatever the other is.
pub fn axis_of(v: Vector) -> CoordAxis
    ensures { result ≡ axis_of v }
{
    let x = v.x;
    let y = v.y;
    if equal(x, ONE) {
        CoordAxis::X
    } else if equal(y, ONE) {
        CoordAxis::Y
    } else {
        CoordAxis::Both
    }
}

// fdotp as it comes. Its shift goes toward minus infinity, where dot14 rounds.
fn raw_fdotp(p: Vector, f: Vector) -> i32
    ensures { result ≡ raw_fdotp p f }
{
    let px = p.x;
    let py = p.y;
    let fx = f.x;
    let fy = f.y;
    if equal(fx, ONE) {
        px
    } else if equal(fy, ONE) {
        py
    } else {
        shift_right(wrapping_add(wrapping_mul(px, fx), wrapping_mul(py, fy)), 14)
    }
}

// fdotp as it is divided by: a small one would throw points far away, so 1 stands in for it.
fn not_small(raw: i32) -> i32
    ensures { result ≡ not_small raw }
{
    if less(wrapping_abs(raw), 0x400) {
        ONE
    } else {
        raw
    }
}

// The axis that points move along: the freedom vector's, where moving along it is measured one to one.
fn freedom_axis_by(f: Vector, raw: i32) -> CoordAxis
    ensures { result ≡ freedom_axis_by f raw }
{
    if equal(raw, ONE) {
        axis_of(f)
    } else {
        CoordAxis::Both
    }
}

// The freedom axis goes by fdotp as it comes, before a small one is replaced.
pub fn derive(v: Vectors) -> Derived
    ensures { result ≡ derived_of v }
{
    let raw = raw_fdotp(v.projection, v.freedom);
    let fdotp = not_small(raw);
    let projection_axis = axis_of(v.projection);
    let dual_axis = axis_of(v.dual);
    let freedom_axis = freedom_axis_by(v.freedom, raw);
    Derived {
        projection_axis,
        dual_axis,
        freedom_axis,
        fdotp,
    }
}

// How far a lies from b along v. The axis is tested and not named: a name would be laid down as a number at every place that measures, and tested again.
pub fn along(v: Vector, a: Vector, b: Vector) -> i32
    ensures { result ≡ along_of v a b }
{
    let vx = v.x;
    let vy = v.y;
    let dx = wrapping_sub(a.x, b.x);
    let dy = wrapping_sub(a.y, b.y);
    if equal(vx, ONE) {
        dx
    } else if equal(vy, ONE) {
        dy
    } else {
        dot14(dx, dy, vx, vy)
    }
}

// In the outline as it stands.
pub fn project(v: Vectors, a: Vector, b: Vector) -> i32
    ensures { result ≡ project_of v a b }
{
    along(v.projection, a, b)
}

// In the original outline.
pub fn dual_project(v: Vectors, a: Vector, b: Vector) -> i32
    ensures { result ≡ dual_project_of v a b }
{
    along(v.dual, a, b)
}

// In the outline before it was scaled: the same numbers, in font units.
pub fn dual_project_unscaled(v: Vectors, a: Vector, b: Vector) -> i32
    ensures { result ≡ dual_project_of v a b }
{
    along(v.dual, a, b)
}

// A distance, or the refusal of a state that is not usable.
fn distance_if(usable: bool, distance: i32) -> Result<i32, Refusal>
    ensures { result ≡ measured_by usable distance }
{
    if usable {
        Ok(distance)
    } else {
        Err(Refusal::State)
    }
}

fn numbers_if(usable: bool, numbers: Derived) -> Result<Derived, Refusal>
    ensures { result ≡ deduced_by usable numbers }
{
    if usable {
        Ok(numbers)
    } else {
        Err(Refusal::State)
    }
}

pub fn try_derive(s: GraphicsState) -> Result<Derived, Refusal>
    ensures { result ≡ deduced_of s }
{
    numbers_if(s.is_usable(), derive(s.vectors))
}

pub fn try_project(s: GraphicsState, a: Vector, b: Vector) -> Result<i32, Refusal>
    ensures { result ≡ measured_of s (project_of s.vectors a b) }
{
    distance_if(s.is_usable(), project(s.vectors, a, b))
}

pub fn try_dual_project(s: GraphicsState, a: Vector, b: Vector) -> Result<i32, Refusal>
    ensures { result ≡ measured_of s (dual_project_of s.vectors a b) }
{
    distance_if(s.is_usable(), dual_project(s.vectors, a, b))
}

pub fn try_dual_project_unscaled(s: GraphicsState, a: Vector, b: Vector) -> Result<i32, Refusal>
    ensures { result ≡ measured_of s (dual_project_of s.vectors a b) }
{
    distance_if(s.is_usable(), dual_project_unscaled(s.vectors, a, b))
}
