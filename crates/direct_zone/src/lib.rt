// The direct calls over one zone: zone.rs without IUP and without the moves, whose direct calls are in the crates iup and direct_moves.
//
// Nothing is asked of a caller: the sizes are tested first (answer 2) and then the point or the range (7 or 11). Each contract is one equation with a
// definition of specs/Direct.antt, which says what is answered and what the lent list holds afterwards, refused or not.
#![tactic(auto)]

ghost use Rattle.std.specs.Prelude.{◌≡◌};
ghost use Rattle.zone.specs.Zone.{marked};
ghost use Rattle.direct_zone.specs.Direct.{try_fetch_of, try_unscaled_of, try_touch_of, try_untouch_of, try_flip_of, try_touched_of, try_set_on_curve_of};

use answer::Refusal;
use flags::CoordAxis;
use graphics::Vector;
use zone::{
    fetch, flags_fit, flip_on_curve, is_touched, pair_fits, set_on_curve, touch, unscaled_at,
    untouch,
};

// `point` and `original` of zone.rs.
pub fn try_fetch(xs: &[i32], ys: &[i32], at: u64) -> Result<Vector, Refusal>
    ensures { result ≡ try_fetch_of xs.now ys.now at }
{
    if pair_fits(xs, ys) {
        fetch(xs, ys, at)
    } else {
        Err(Refusal::Sizes)
    }
}

pub fn try_unscaled(xs: &[i32], ys: &[i32], at: u64) -> Result<Vector, Refusal>
    ensures { result ≡ try_unscaled_of xs.now ys.now at }
{
    if pair_fits(xs, ys) {
        Ok(unscaled_at(xs, ys, at))
    } else {
        Err(Refusal::Sizes)
    }
}

pub fn try_touch(flags: &mut [u8], at: u64, axis: CoordAxis) -> Result<(), Refusal>
    ensures { marked result flags.new ≡ try_touch_of flags.old at axis }
{
    if flags_fit(flags) {
        touch(flags, at, axis)
    } else {
        Err(Refusal::Sizes)
    }
}

pub fn try_untouch(flags: &mut [u8], at: u64, axis: CoordAxis) -> Result<(), Refusal>
    ensures { marked result flags.new ≡ try_untouch_of flags.old at axis }
{
    if flags_fit(flags) {
        untouch(flags, at, axis)
    } else {
        Err(Refusal::Sizes)
    }
}

pub fn try_flip_on_curve(flags: &mut [u8], at: u64) -> Result<(), Refusal>
    ensures { marked result flags.new ≡ try_flip_of flags.old at }
{
    if flags_fit(flags) {
        flip_on_curve(flags, at)
    } else {
        Err(Refusal::Sizes)
    }
}

pub fn try_is_touched(flags: &[u8], at: u64, axis: CoordAxis) -> Result<bool, Refusal>
    ensures { result ≡ try_touched_of flags.now at axis }
{
    if flags_fit(flags) {
        is_touched(flags, at, axis)
    } else {
        Err(Refusal::Sizes)
    }
}

pub fn try_set_on_curve(flags: &mut [u8], start: u64, end: u64, on: bool) -> Result<(), Refusal>
    ensures { marked result flags.new ≡ try_set_on_curve_of flags.old start end on }
{
    if flags_fit(flags) {
        set_on_curve(flags, start, end, on)
    } else {
        Err(Refusal::Sizes)
    }
}
