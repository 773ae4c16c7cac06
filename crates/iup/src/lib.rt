// IUP, the interpolation of untouched points, on one axis: `Zone::iup` of zone.rs, FreeType's Ins_IUP.
//
// `iup` equals `iup_of` of specs/Iup.antt, which goes contour by contour: every current coordinate, for every input whose four lists have
// one length and whose contour ends rise strictly and lie below it. `try_iup` asks nothing: it refuses unequal lengths and sizes above the
// limits (answer 2) first, then other ends (answer 14). x and y are the same call with another axis and other lists. Each contour's stretch
// of the current coordinates is lent as a middle part, and so is each stretch of untouched points in it; no coordinate is copied, and the
// work is linear in points and contours. proofs/Facts.antt has what is left alone: touched points, points outside the contours, and what
// one contour cannot see of another.
// Not here: IUP's two marks, the other axis and the flags.
#![tactic(auto)]

ghost use Rattle.std.specs.Prelude.{◌≡◌, ◌≤◌, cond, true, map, ◌+◌, length, drop};
ghost use Rattle.std.specs.Int.Signed.{le_z};
ghost use Rattle.contour_ends.specs.Ends.{ends_rise};
ghost use Rattle.int.specs.Word.{add32};
ghost use Rattle.iup.specs.Contour.{offset as Contour·displacement, spread, contour_of, points_of};
ghost use Rattle.iup.specs.Iup.{swept, iup_of, sizes_fit, tried_of};
ghost use Rattle.iup.specs.Parts.{marks, ahead, up_to_last, place_at, level as Parts·level, slope as Parts·slope, inside_by, moved_by, by_references, both};

use answer::Refusal;
use contour_ends::ends_rise;
use flags::{Axis, has_any};
use int::{at_most, equal, wrapping_add, wrapping_sub};
use limits::{contours_fit, points_fit};
use math::{div, mul};

// A point on the axis: in font units, scaled, and where it stands now.
#[derive(Clone, Copy)]
pub struct Place {
    pub unscaled: i32,
    pub original: i32,
    pub current: i32,
}

// The first touched point from `from` on, or the end.
fn next_touched(flags: &[u8], mask: u8, from: usize) -> usize
    requires { from ≤ length flags.now }
    ensures { result ≡ from + ahead (marks mask (drop from flags.now)) }
{
    for (ahead, flag) in flags[from..].iter().enumerate() {
        if has_any(*flag, mask) {
            return from + ahead;
        }
    }
    flags.len()
}

// How many points there are up to the last touched one, with it; 0 where none is touched.
fn last_touched(flags: &[u8], mask: u8) -> usize
    ensures { result ≡ up_to_last (marks mask flags.now) }
{
    for i in (0..flags.len()).rev() {
        if has_any(flags[i], mask) {
            return i + 1;
        }
    }
    0
}

// The point at `at`, or another where there is none: behind the last touched point of a contour the first one is next.
fn place_at(unscaled: &[i32], original: &[i32], current: &[i32], at: usize, other: Place) -> Place
    requires { (length unscaled.now ≡ length current.now) × (length original.now ≡ length current.now) }
    ensures { result ≡ place_at unscaled.now original.now current.now at other }
{
    if at < current.len() {
        Place {
            unscaled: unscaled[at],
            original: original[at],
            current: current[at],
        }
    } else {
        other
    }
}

// How far a point was moved.
fn displacement(p: Place) -> i32
    ensures { result ≡ Contour·displacement p }
{
    wrapping_sub(p.current, p.original)
}

// Whether two references leave nothing to go in proportion to.
fn level(low: Place, high: Place) -> bool
    ensures { result ≡ Parts·level low high }
{
    if equal(low.current, high.current) {
        true
    } else {
        equal(low.unscaled, high.unscaled)
    }
}

// How far a point moves for each unscaled unit, as a 16.16 number; 0 where the references are level.
fn slope(low: Place, high: Place) -> i32
    ensures { result ≡ Parts·slope low high }
{
    if level(low, high) {
        0
    } else {
        div(
            wrapping_sub(high.current, low.current),
            wrapping_sub(high.unscaled, low.unscaled),
        )
    }
}

// The lower of two references, by their unscaled coordinates.
fn lower(a: Place, b: Place) -> Place
    ensures { result ≡ cond (le_z a.unscaled b.unscaled) a b }
{
    if at_most(a.unscaled, b.unscaled) {
        a
    } else {
        b
    }
}

fn higher(a: Place, b: Place) -> Place
    ensures { result ≡ cond (le_z a.unscaled b.unscaled) b a }
{
    if at_most(a.unscaled, b.unscaled) {
        b
    } else {
        a
    }
}

// A point at or beyond a reference moves with it.
fn carried(p: Place, original: i32) -> i32
    ensures { result ≡ add32 original (Contour·displacement p) }
{
    wrapping_add(original, displacement(p))
}

// A point strictly between its references: in proportion, from the lower one.
fn inside(low: Place, flat: bool, scale: i32, unscaled: i32) -> i32
    ensures { result ≡ inside_by low flat scale unscaled }
{
    if flat {
        low.current
    } else {
        wrapping_add(
            low.current,
            mul(wrapping_sub(unscaled, low.unscaled), scale),
        )
    }
}

// A point by its references in order. `flat` and `scale` are worked out once for a stretch.
fn moved(low: Place, high: Place, flat: bool, scale: i32, unscaled: i32, original: i32) -> i32
    ensures { result ≡ moved_by low high flat scale unscaled original }
{
    if at_most(original, low.original) {
        carried(low, original)
    } else if at_most(high.original, original) {
        carried(high, original)
    } else {
        inside(low, flat, scale, unscaled)
    }
}

// A stretch of untouched points by its references: one multiplication for a point, and no division.
fn interpolate(
    unscaled: &[i32],
    original: &[i32],
    current: &mut [i32],
    low: Place,
    high: Place,
    flat: bool,
    scale: i32,
)
    requires { (length unscaled.now ≡ length current.old) × (length original.now ≡ length current.old) }
    ensures { current.new ≡ both (moved_by low high flat scale) unscaled.now original.now }
{
    for (i, place) in current.iter_mut().enumerate() {
        *place = moved(low, high, flat, scale, unscaled[i], original[i]);
    }
}

// A stretch between the touched points before and after it. An empty one, between two touched neighbours, costs no division.
fn stretch(unscaled: &[i32], original: &[i32], current: &mut [i32], before: Place, after: Place)
    requires { (length unscaled.now ≡ length current.old) × (length original.now ≡ length current.old) }
    ensures { current.new ≡ both (by_references before after) unscaled.now original.now }
{
    if 0 < current.len() {
        let low = lower(before, after);
        let high = higher(before, after);
        interpolate(
            unscaled,
            original,
            current,
            low,
            high,
            level(low, high),
            slope(low, high),
        );
    }
}

// Moves every point of a part.
fn shift(part: &mut [i32], delta: i32)
    ensures { part.new ≡ map (λ x. add32 x delta) part.old }
{
    for place in part.iter_mut() {
        *place = wrapping_add(*place, delta);
    }
}

// The stretches one after the other, each lent as a part. Points are taken cyclically, so `last`, the contour's last touched point, stands
// before the first stretch, and `first`, its first one, behind the last.
fn spread_out(
    unscaled: &[i32],
    original: &[i32],
    current: &mut [i32],
    flags: &[u8],
    mask: u8,
    last: Place,
    first: Place,
)
    requires { (length unscaled.now ≡ length current.old) × (length original.now ≡ length current.old) × (length flags.now ≡ length current.old) }
    ensures { current.new ≡ spread last first (points_of mask flags.now unscaled.now original.now current.old) }
{
    let mut before = last;
    let mut at = 0;
    // Counted by hand: a turn steps over a stretch of any length.
    while at < flags.len() {
        let next = next_touched(flags, mask, at);
        let after = place_at(unscaled, original, current, next, first);
        stretch(
            &unscaled[at..next],
            &original[at..next],
            &mut current[at..next],
            before,
            after,
        );
        before = after;
        at = next + 1;
    }
}

// One contour: with no touched point nothing moves, one takes all others along, and from two on the others go between them.
fn contour(unscaled: &[i32], original: &[i32], current: &mut [i32], flags: &[u8], mask: u8)
    requires { (length unscaled.now ≡ length current.old) × (length original.now ≡ length current.old) × (length flags.now ≡ length current.old) }
    ensures { current.new ≡ contour_of (points_of mask flags.now unscaled.now original.now current.old) }
{
    let at = next_touched(flags, mask, 0);
    if at < flags.len() {
        let first = Place {
            unscaled: unscaled[at],
            original: original[at],
            current: current[at],
        };
        let more = last_touched(&flags[at + 1..], mask);
        if more == 0 {
            let delta = displacement(first);
            shift(&mut current[..at], delta);
            shift(&mut current[at + 1..], delta);
        } else {
            let last = place_at(unscaled, original, current, at + more, first);
            spread_out(unscaled, original, current, flags, mask, last, first);
        }
    }
}

// The place past a contour's end, at which the next one starts.
fn past(end: u16) -> usize
    ensures { result ≡ end + 1 }
{
    end as usize + 1
}

// The contours one after the other, each on its own part of the coordinates, which starts where the last one ended. Points after the last
// contour stay.
pub fn iup(
    unscaled: &[i32],
    original: &[i32],
    current: &mut [i32],
    flags: &[u8],
    contours: &[u16],
    axis: Axis,
)
    requires { (length unscaled.now ≡ length current.old) × (length original.now ≡ length current.old) × (length flags.now ≡ length current.old) × (ends_rise (length current.old) contours.now ≡ true) }
    ensures { current.new ≡ iup_of axis flags.now contours.now unscaled.now original.now current.old }
{
    let mask = axis.touch_bit();
    let mut at = 0;
    for &last in contours {
        let end = past(last);
        contour(
            &unscaled[at..end],
            &original[at..end],
            &mut current[at..end],
            &flags[at..end],
            mask,
        );
        at = end;
    }
}

// The test of answer 2, on the lengths of the five lists.
fn sizes_fit(
    flags: usize,
    contours: usize,
    unscaled: usize,
    original: usize,
    current: usize,
) -> bool
    ensures { result ≡ sizes_fit flags contours unscaled original current }
{
    if unscaled != current {
        return false;
    }
    if original != current {
        return false;
    }
    if flags != current {
        return false;
    }
    if points_fit(current) {
        contours_fit(contours)
    } else {
        false
    }
}

// The direct call, for lists of any lengths: the sizes are tested, then the ends.
pub fn try_iup(
    unscaled: &[i32],
    original: &[i32],
    current: &mut [i32],
    flags: &[u8],
    contours: &[u16],
    axis: Axis,
) -> Result<(), Refusal>
    ensures { swept result current.new ≡ tried_of axis flags.now contours.now unscaled.now original.now current.old }
{
    if sizes_fit(
        flags.len(),
        contours.len(),
        unscaled.len(),
        original.len(),
        current.len(),
    ) {
        if ends_rise(contours, current.len()) {
            iup(unscaled, original, current, flags, contours, axis);
            Ok(())
        } else {
            Err(Refusal::Ends)
        }
    } else {
        Err(Refusal::Sizes)
    }
}
