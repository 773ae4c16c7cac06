// The steps that lines share: what a line that moved a point comes to, and a distance from the origin.
//
// A function that isn't lent all the lists of a run says its equation for every content of the others: `(w : World)` where it is lent none, a
// variable for each list that it isn't lent. Its caller puts its own in. Nothing is asked.
#![tactic(auto)]

ghost use Rattle.std.specs.Prelude.{◌≡◌};
ghost use Rattle.line.specs.World.{World};
ghost use Rattle.line_steps.specs.Loop.{take_of};
ghost use Rattle.line_steps.specs.Numbers.{from_origin, step_from};
ghost use Rattle.line_steps.specs.Steps.{both_at, by_call, done_in, in_state, into, on_both, rounded_in};

use answer::Refusal;
use graphics::{GraphicsState, Vector, Vectors};
use int::wrapping_sub;
use line::{Stepped, done, refused};
use projection::project;
use round::Tracked;

// How far a point lies from the origin.
pub fn from_origin(v: Vectors, place: Vector) -> i32
    ensures { result ≡ from_origin v place }
{
    project(v, place, Vector { x: 0, y: 0 })
}

// rp0 and rp1 set.
pub fn on_both(s: GraphicsState, at: u64) -> GraphicsState
    ensures { result ≡ both_at at s }
{
    s.with_rp0(at).with_rp1(at)
}

// How far it is from a distance to where it was rounded to.
pub fn step_from(own: i32, r: Tracked) -> Tracked
    ensures { result ≡ step_from own r }
{
    Tracked {
        word: wrapping_sub(r.word, own),
        wrapped: r.wrapped,
    }
}

// What a line that rounded and moved a point comes to: the rounding counted and rp0 and rp1 set, where the move was made.
pub fn settle(s: GraphicsState, at: u64, wrapped: bool, call: Result<(), Refusal>) -> Stepped
    ensures { (w : World) → into w result ≡ by_call (in_state w s) (λ (v : World). done_in (on_both at (rounded_in wrapped v))) call }
{
    match call {
        Ok(()) => done(on_both(s.with_rounding(wrapped), at)),
        Err(why) => refused(s, why),
    }
}

// As many operands as the counter says are taken, and nothing is done with them.
pub fn take_each(count: u32, operands: &[i32]) -> Result<(), Refusal>
    ensures { result ≡ take_of count operands.now }
{
    let wanted = count as usize;
    if operands.len() < wanted {
        Err(Refusal::Missing)
    } else {
        Ok(())
    }
}
