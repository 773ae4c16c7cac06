// The steps of the lines that bring a point of zp1 to a distance from rp0 of zp0: MSIRP, MDRP and MIRP, of engine/outline.rs.
//
// `reach` says whether the two points are there, `place_alike_in` where one is, `relate` sets the references, `relate_or` is what MDRP and MIRP come to where a point is outside, and
// `settle_relative` what any of the three comes to once the point was moved. Each is one equation, in any world; but that a zone's lists share one length where a place is read, nothing is asked.
#![tactic(auto)]

ghost use Rattle.std.specs.Prelude.{◌≡◌, length};
ghost use Rattle.line.specs.Places.{place_in};
ghost use Rattle.zone.specs.Zone.{place_of};
ghost use Rattle.line.specs.World.{World};
ghost use Rattle.line_steps.specs.Steps.{by_call, done_in, in_state, into, rounded_in};
ghost use Rattle.line_relative.specs.Relative.{related, related_by, related_or};
ghost use Rattle.line_relative.specs.Steps.{both_inside, reach_of};

use answer::Refusal;
use graphics::{GraphicsState, Vector, ZonePointer};
use line::{Stepped, done, refused, size_of};

// ---- whether the two points are there
// The first is looked at first.
pub fn both_inside(first: u64, firsts: usize, second: u64, seconds: usize) -> Result<(), Refusal>
    ensures { result ≡ both_inside first firsts second seconds }
{
    let i = first as usize;
    let j = second as usize;
    if firsts <= i {
        return Err(Refusal::Point(first));
    }
    if seconds <= j {
        return Err(Refusal::Point(second));
    }
    Ok(())
}

// rp0 is looked at first where the point is in twilight, else the point.
pub fn reach(
    zone: ZonePointer,
    at: u64,
    other: ZonePointer,
    reference: u64,
    glyph: usize,
    twilight: usize,
) -> Result<(), Refusal>
    ensures { result ≡ reach_of at other reference glyph twilight zone }
{
    let others = size_of(other, glyph, twilight);
    match zone {
        ZonePointer::Glyph => both_inside(at, glyph, reference, others),
        ZonePointer::Twilight => both_inside(reference, others, at, twilight),
    }
}

// ---- where a point is
// A point's place, (0, 0) outside: one test for both lists.
fn place_alike(xs: &[i32], ys: &[i32], at: u64) -> Vector
    requires { length ys.now ≡ length xs.now }
    ensures { result ≡ place_of xs.now ys.now at }
{
    let i = at as usize;
    if i < xs.len() {
        Vector { x: xs[i], y: ys[i] }
    } else {
        Vector { x: 0, y: 0 }
    }
}

// In the zone that a pointer names.
pub fn place_alike_in(
    zone: ZonePointer,
    at: u64,
    gx: &[i32],
    gy: &[i32],
    tx: &[i32],
    ty: &[i32],
) -> Vector
    requires { (length gy.now ≡ length gx.now) × (length ty.now ≡ length tx.now) }
    ensures { result ≡ place_in at gx.now gy.now tx.now ty.now zone }
{
    match zone {
        ZonePointer::Glyph => place_alike(gx, gy, at),
        ZonePointer::Twilight => place_alike(tx, ty, at),
    }
}

// ---- the references
// rp1 and rp2 set, and rp0 where the opcode says so.
pub fn relate(s: GraphicsState, sets: bool, at: u64) -> GraphicsState
    ensures { result ≡ related_by sets at s }
{
    let references = s.references;
    let t = s.with_rp1(references.rp0).with_rp2(at);
    if sets { t.with_rp0(at) } else { t }
}

// Where a point is outside, the line is refused if pedantic, else it sets the references.
pub fn relate_or(s: GraphicsState, sets: bool, at: u64, why: Refusal) -> Stepped
    ensures { (w : World) → into w result ≡ related_or sets at (in_state w s) why }
{
    let facts = s.facts;
    if facts.pedantic {
        refused(s, why)
    } else {
        done(relate(s, sets, at))
    }
}

// What a line comes to once the point was moved: its rounding counted and the references set.
pub fn settle_relative(
    s: GraphicsState,
    sets: bool,
    at: u64,
    wrapped: bool,
    call: Result<(), Refusal>,
) -> Stepped
    ensures { (w : World) → into w result ≡ by_call (in_state w s) (λ (v : World). done_in (related sets at (rounded_in wrapped v))) call }
{
    match call {
        Ok(()) => done(relate(s.with_rounding(wrapped), sets, at)),
        Err(why) => refused(s, why),
    }
}
