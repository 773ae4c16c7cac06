// One zone's points: zone.rs without IUP and without the moves, which are the crates iup and moves.
//
// A zone is slices of numbers that share one length; a function is given the slices that it works on and no other, so either zone will do, and
// what it isn't given it leaves alone. Each contract is one equation with a definition of specs/, which says what is answered and what every
// list holds afterwards, refused or not. `fetch` asks that its two slices have one length; the direct calls, which ask nothing,
// stand above, in the crate direct_zone. Contour ends are read by IUP alone.
#![tactic(auto)]

ghost use Rattle.std.specs.Prelude.{◌≡◌, map, ◌≤◌, pos, length, get_or};
ghost use Rattle.zone.specs.Zone.{fetch_of, place_of, or_at, marked, touch_of, untouch_of, flip_of, touched_of, on_curve, set_on_curve_of};
ghost use Rattle.zone.specs.Sizes.{pair_fits, flags_fit, placed_fits, twilight_fits, glyph_fits};

use answer::Refusal;
use flags::{CoordAxis, ON_CURVE, flipped, has_any, with_bits, without_bits};
use graphics::Vector;
use limits::{contours_fit, points_fit};

// The place of a point of the current or the original outline.
pub fn fetch(xs: &[i32], ys: &[i32], at: u64) -> Result<Vector, Refusal>
    requires { length ys.now ≡ length xs.now }
    ensures { result ≡ fetch_of xs.now ys.now at }
{
    let i = at as usize;
    if i < xs.len() {
        Ok(Vector { x: xs[i], y: ys[i] })
    } else {
        Err(Refusal::Point(at))
    }
}

// A coordinate, 0 outside.
pub fn coordinate_or_0(list: &[i32], at: u64) -> i32
    ensures { result ≡ get_or list.now at (pos 0) }
{
    let i = at as usize;
    if i < list.len() { list[i] } else { 0 }
}

// A point's place in font units. The twilight zone has none, so outside is (0, 0) and no refusal.
pub fn unscaled_at(xs: &[i32], ys: &[i32], at: u64) -> Vector
    ensures { result ≡ place_of xs.now ys.now at }
{
    let x = coordinate_or_0(xs, at);
    let y = coordinate_or_0(ys, at);
    Vector { x, y }
}

// ---- one flag
// Sets bits of a point's flag, and nothing outside.
pub fn or_at(flags: &mut [u8], at: u64, mask: u8)
    ensures { flags.new ≡ or_at flags.old at mask }
{
    let i = at as usize;
    if flags.len() <= i {
        return;
    }
    flags[i] = with_bits(flags[i], mask);
}

// Marks a point as moved along an axis.
pub fn touch(flags: &mut [u8], at: u64, axis: CoordAxis) -> Result<(), Refusal>
    ensures { marked result flags.new ≡ touch_of flags.old at axis }
{
    let i = at as usize;
    if flags.len() <= i {
        return Err(Refusal::Point(at));
    }
    or_at(flags, at, axis.touch_bits());
    Ok(())
}

// Takes the mark off.
pub fn untouch(flags: &mut [u8], at: u64, axis: CoordAxis) -> Result<(), Refusal>
    ensures { marked result flags.new ≡ untouch_of flags.old at axis }
{
    let i = at as usize;
    if flags.len() <= i {
        return Err(Refusal::Point(at));
    }
    flags[i] = without_bits(flags[i], axis.touch_bits());
    Ok(())
}

// On curve becomes off curve, and off on.
pub fn flip_on_curve(flags: &mut [u8], at: u64) -> Result<(), Refusal>
    ensures { marked result flags.new ≡ flip_of flags.old at }
{
    let i = at as usize;
    if flags.len() <= i {
        return Err(Refusal::Point(at));
    }
    flags[i] = flipped(flags[i], ON_CURVE);
    Ok(())
}

// For both axes either mark will do.
pub fn is_touched(flags: &[u8], at: u64, axis: CoordAxis) -> Result<bool, Refusal>
    ensures { result ≡ touched_of flags.now at axis }
{
    let i = at as usize;
    if i < flags.len() {
        Ok(has_any(flags[i], axis.touch_bits()))
    } else {
        Err(Refusal::Point(at))
    }
}

// ---- a range of flags
fn on_curve_as(flag: u8, on: bool) -> u8
    ensures { result ≡ on_curve on flag }
{
    if on {
        with_bits(flag, ON_CURVE)
    } else {
        without_bits(flag, ON_CURVE)
    }
}

// Every flag of a part.
fn put_on_curve(part: &mut [u8], on: bool)
    ensures { part.new ≡ map (on_curve on) part.old }
{
    for flag in part.iter_mut() {
        *flag = on_curve_as(*flag, on);
    }
}

// The points from start up to end, which is not one of them.
pub fn set_on_curve(flags: &mut [u8], start: u64, end: u64, on: bool) -> Result<(), Refusal>
    ensures { marked result flags.new ≡ set_on_curve_of flags.old start end on }
{
    let a = start as usize;
    let e = end as usize;
    if e < a {
        return Err(Refusal::Range(start));
    }
    if flags.len() < e {
        return Err(Refusal::Range(start));
    }
    put_on_curve(&mut flags[a..e], on);
    Ok(())
}

// ---- sizes
// Two coordinate lists of one length, within the limit.
pub fn pair_fits(xs: &[i32], ys: &[i32]) -> bool
    ensures { result ≡ pair_fits xs.now ys.now }
{
    (ys.len() == xs.len()) & points_fit(xs.len())
}

pub fn flags_fit(flags: &[u8]) -> bool
    ensures { result ≡ flags_fit flags.now }
{
    points_fit(flags.len())
}

// Two coordinate lists and the flags.
pub fn placed_fits(xs: &[i32], ys: &[i32], flags: &[u8]) -> bool
    ensures { result ≡ placed_fits xs.now ys.now flags.now }
{
    (flags.len() == xs.len()) & pair_fits(xs, ys)
}

// A whole twilight zone.
pub fn twilight_fits(ox: &[i32], oy: &[i32], cx: &[i32], cy: &[i32], flags: &[u8]) -> bool
    ensures { result ≡ twilight_fits ox.now oy.now cx.now cy.now flags.now }
{
    (ox.len() == cx.len()) & pair_fits(ox, oy) & placed_fits(cx, cy, flags)
}

// A whole glyph zone. The contours' ends may be any numbers.
pub fn glyph_fits(
    ux: &[i32],
    uy: &[i32],
    ox: &[i32],
    oy: &[i32],
    cx: &[i32],
    cy: &[i32],
    flags: &[u8],
    contours: &[u16],
) -> bool
    ensures { result ≡ glyph_fits ux.now uy.now ox.now oy.now cx.now cy.now flags.now contours.now }
{
    (ux.len() == cx.len())
        & pair_fits(ux, uy)
        & twilight_fits(ox, oy, cx, cy, flags)
        & contours_fit(contours.len())
}
