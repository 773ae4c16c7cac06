// The oracle's calls over one zone, point to iup: each made on a case's lists, and judged by the case (docs/ORACLE.md).
//
// Word 2 of a case says which zone, words 3 and 4 which point, words 5 and 6 the end of a range, word 7 a choice. A call is given the lists
// that it works on as the case has them, of whatever lengths: it tests their sizes itself, and nothing is answered here in its place. Room for
// the lists is lent. Nothing is promised here but that every function is safe and ends.
#![tactic(auto)]

ghost use Rattle.std.specs.Prelude.{◌≤◌};

use answer::Refusal;
use flags::{Axis, CoordAxis};
use graphics::Vector;
use test_cases::{KIND, after, load_ends, load_flags, load_words, long, word};
use test_compare::{Compared, Said, compare_flags, compare_words};

fn in_twilight(case: &[u8]) -> bool {
    word(case, 2) == 0
}

// ---- a point's place
// The place by two lists that stand side by side.
fn fetched(case: &[u8], first: u64, xs: &mut [i32], ys: &mut [i32]) -> Result<Vector, Refusal> {
    let n = load_words(case, first, xs);
    let m = load_words(case, after(first, 1), ys);
    direct_zone::try_fetch(&xs[..n], &ys[..m], long(case, 3))
}

// The twilight zone has no places in font units.
fn unscaled_length(case: &[u8], n: usize) -> usize
    ensures { result ≤ n }
{
    if in_twilight(case) { 0 } else { n }
}

fn unscaled(case: &[u8], xs: &mut [i32], ys: &mut [i32]) -> Result<Vector, Refusal> {
    let n = unscaled_length(case, load_words(case, 0, xs));
    let m = unscaled_length(case, load_words(case, 1, ys));
    direct_zone::try_unscaled(&xs[..n], &ys[..m], long(case, 3))
}

// The first of a zone's lists of one sort, by that of the twilight zone and that of the glyph.
fn list_of(case: &[u8], twilight: u64, glyph: u64) -> u64 {
    if in_twilight(case) { twilight } else { glyph }
}

fn of_fetched(fetched: Result<Vector, Refusal>) -> Said {
    match fetched {
        Err(why) => Said::refused(why),
        Ok(place) => Said::done(place.x, place.y),
    }
}

fn is_said(case: &[u8], place: Result<Vector, Refusal>) -> bool {
    of_fetched(place).agrees(Compared::nothing(), case)
}

fn place_agrees(case: &[u8], xs: &mut [i32], ys: &mut [i32]) -> bool {
    match word(case, KIND) {
        1 => is_said(case, fetched(case, list_of(case, 10, 4), xs, ys)),
        2 => is_said(case, fetched(case, list_of(case, 8, 2), xs, ys)),
        _ => is_said(case, unscaled(case, xs, ys)),
    }
}

// ---- flags
fn axis_of(n: u32) -> CoordAxis {
    match n {
        0 => CoordAxis::Both,
        1 => CoordAxis::X,
        _ => CoordAxis::Y,
    }
}

fn of_touched(touched: Result<bool, Refusal>) -> Said {
    match touched {
        Err(why) => Said::refused(why),
        Ok(yes) => Said::done(if yes { 1 } else { 0 }, 0),
    }
}

fn on_flags(case: &[u8], flags: &mut [u8]) -> Said {
    let at = long(case, 3);
    let end = long(case, 5);
    let choice = word(case, 7);
    match word(case, KIND) {
        4 => Said::of_call(direct_zone::try_touch(flags, at, axis_of(choice))),
        5 => of_touched(direct_zone::try_is_touched(flags, at, axis_of(choice))),
        6 => Said::of_call(direct_zone::try_untouch(flags, at, axis_of(choice))),
        7 => Said::of_call(direct_zone::try_flip_on_curve(flags, at)),
        _ => Said::of_call(direct_zone::try_set_on_curve(flags, at, end, choice == 1)),
    }
}

fn flags_agree_over(case: &[u8], list: u64, flags: &mut [u8]) -> bool {
    let said = on_flags(case, flags);
    said.agrees(compare_flags(case, list, flags), case)
}

fn flags_agree(case: &[u8], flags: &mut [u8]) -> bool {
    let list = list_of(case, 12, 6);
    let n = load_flags(case, list, flags);
    flags_agree_over(case, list, &mut flags[..n])
}

// ---- iup
fn iup_agrees_over(
    case: &[u8],
    list: u64,
    axis: Axis,
    unscaled: &[i32],
    original: &[i32],
    current: &mut [i32],
    flags: &[u8],
    contours: &[u16],
) -> bool {
    let call = iup::try_iup(unscaled, original, current, flags, contours, axis);
    Said::of_call(call).agrees(compare_words(case, list, current), case)
}

// Along x or y, by the list of the unscaled coordinates.
fn iup_agrees_along(
    case: &[u8],
    first: u64,
    axis: Axis,
    unscaled: &mut [i32],
    original: &mut [i32],
    current: &mut [i32],
    flags: &mut [u8],
    contours: &mut [u16],
) -> bool {
    let n = load_words(case, first, unscaled);
    let m = load_words(case, after(first, 2), original);
    let k = load_words(case, after(first, 4), current);
    let f = load_flags(case, 6, flags);
    let e = load_ends(case, 7, contours);
    iup_agrees_over(
        case,
        after(first, 4),
        axis,
        &unscaled[..n],
        &original[..m],
        &mut current[..k],
        &flags[..f],
        &contours[..e],
    )
}

fn iup_agrees(
    case: &[u8],
    unscaled: &mut [i32],
    original: &mut [i32],
    current: &mut [i32],
    flags: &mut [u8],
    contours: &mut [u16],
) -> bool {
    if word(case, 7) == 1 {
        iup_agrees_along(
            case,
            0,
            Axis::X,
            unscaled,
            original,
            current,
            flags,
            contours,
        )
    } else {
        iup_agrees_along(
            case,
            1,
            Axis::Y,
            unscaled,
            original,
            current,
            flags,
            contours,
        )
    }
}

// ---- every call
pub fn agrees(
    case: &[u8],
    unscaled: &mut [i32],
    original: &mut [i32],
    current: &mut [i32],
    flags: &mut [u8],
    contours: &mut [u16],
) -> bool {
    match word(case, KIND) {
        1..=3 => place_agrees(case, original, current),
        4..=8 => flags_agree(case, flags),
        _ => iup_agrees(case, unscaled, original, current, flags, contours),
    }
}
