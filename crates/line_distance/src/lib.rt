// The distances that MIAP, MDRP and MIRP bring a point to: engine/outline.rs, OpenType's cut-in, single width, auto flip and minimum distance, and
// FreeType's Ins_MIAP, Ins_MDRP, Ins_MIRP.
//
// Each function is one equation with a definition of specs/Distance.antt, for every number. What MDRP and MIRP share is here once: the bits of their
// opcodes, rounding, the minimum distance.
#![tactic(auto)]

ghost use Rattle.std.specs.Prelude.{cond, ◌≡◌};
ghost use Rattle.line.specs.Places.{place_in};
ghost use Rattle.math.specs.Fixed.{mul_fix};
ghost use Rattle.round.specs.Tracked.{given};
ghost use Rattle.zone.specs.Zone.{place_of};
ghost use Rattle.line_distance.specs.Outline.{originals_apart, outline_of, unscaled_apart};
ghost use Rattle.line_distance.specs.Distance.{at_least, chosen_of, cut_in_of, finished, flipped_of, keeps_minimum, minimum_of, on_side_of, rounded_unless, rounds, sets_rp0, single_control, single_outline};

use graphics::{Vector, ZonePointer};
use int::{
    less, max, min, non_negative, shift_right, wrapping_abs, wrapping_add, wrapping_neg,
    wrapping_sub,
};
use line::{is_odd, place_at, place_in};
use math::mul;
use projection::along;
use round::{RoundState, Tracked};

// ---- the bits of an opcode of MDRP and MIRP; the two lowest change nothing
pub fn sets_rp0(opcode: usize) -> bool
    ensures { result ≡ sets_rp0 opcode }
{
    is_odd(opcode / 16)
}

fn keeps_minimum(opcode: usize) -> bool
    ensures { result ≡ keeps_minimum opcode }
{
    is_odd(opcode / 8)
}

pub fn rounds(opcode: usize) -> bool
    ensures { result ≡ rounds opcode }
{
    is_odd(opcode / 4)
}

// ---- the control value or the outline's distance
// A ClearType pixel has sixteen positions.
pub fn cut_in_of(native: bool, cut_in: i32) -> i32
    ensures { result ≡ cut_in_of native cut_in }
{
    if native {
        shift_right(cut_in, 4)
    } else {
        cut_in
    }
}

// The control value, or the outline's own distance where they lie too far apart.
pub fn chosen(cut_in: i32, control: i32, own: i32) -> i32
    ensures { result ≡ chosen_of cut_in control own }
{
    if less(cut_in, wrapping_abs(wrapping_sub(control, own))) {
        own
    } else {
        control
    }
}

// ---- the single width
fn on_side_of(d: i32, width: i32) -> i32
    ensures { result ≡ on_side_of d width }
{
    if non_negative(d) {
        width
    } else {
        wrapping_neg(width)
    }
}

// The outline's distance, or the single width where it is near.
pub fn single_outline(cut_in: i32, width: i32, d: i32) -> i32
    ensures { result ≡ single_outline cut_in width d }
{
    let below = less(d, wrapping_add(width, cut_in));
    let above = less(wrapping_sub(width, cut_in), d);
    if less(0, cut_in) & below & above {
        on_side_of(d, width)
    } else {
        d
    }
}

// The control value, or the single width where it is near.
pub fn single_control(cut_in: i32, width: i32, d: i32) -> i32
    ensures { result ≡ single_control cut_in width d }
{
    if less(wrapping_abs(wrapping_sub(d, width)), cut_in) {
        on_side_of(d, width)
    } else {
        d
    }
}

// ---- auto flip
// The control value, on the side of 0 that the outline's distance is on.
pub fn flipped(auto_flip: bool, original: i32, control: i32) -> i32
    ensures { result ≡ flipped_of auto_flip original control }
{
    if auto_flip & (non_negative(original) != non_negative(control)) {
        wrapping_neg(control)
    } else {
        control
    }
}

// ---- rounding
// A distance that isn't rounded.
pub fn as_it_is(word: i32) -> Tracked
    ensures { result ≡ given word }
{
    Tracked {
        word,
        wrapped: false,
    }
}

pub fn rounded(native: bool, round: RoundState, d: i32) -> Tracked
    ensures { result ≡ rounded_unless native round d }
{
    if native {
        as_it_is(d)
    } else {
        let r = round.round(d);
        Tracked {
            word: r.word,
            wrapped: r.wrapped,
        }
    }
}

// ---- the minimum distance
// The smallest stem that ClearType draws is half a pixel.
fn minimum_of(native: bool, minimum: i32) -> i32
    ensures { result ≡ minimum_of native minimum }
{
    if native {
        shift_right(minimum, 1)
    } else {
        minimum
    }
}

fn at_least(minimum: i32, original: i32, d: i32) -> i32
    ensures { result ≡ at_least minimum original d }
{
    if non_negative(original) {
        max(d, minimum)
    } else {
        min(d, wrapping_neg(minimum))
    }
}

// ---- MDRP's and MIRP's last steps
// Rounded by the opcode's bit, then no nearer than the minimum distance by another.
pub fn finish(
    opcode: usize,
    native: bool,
    round: RoundState,
    minimum: i32,
    original: i32,
    d: i32,
) -> Tracked
    ensures { result ≡ finished opcode native round minimum original d }
{
    let r = rounded(native | !rounds(opcode), round, d);
    if keeps_minimum(opcode) {
        Tracked {
            word: at_least(minimum_of(native, minimum), original, r.word),
            wrapped: r.wrapped,
        }
    } else {
        r
    }
}

// ---- the original outline, measured along the dual vector, the one that is given
pub fn originals_apart(
    v: Vector,
    p: ZonePointer,
    a: u64,
    q: ZonePointer,
    b: u64,
    gox: &[i32],
    goy: &[i32],
    tox: &[i32],
    toy: &[i32],
) -> i32
    ensures { result ≡ originals_apart v p a q b gox.now goy.now tox.now toy.now }
{
    let here = place_in(p, a, gox, goy, tox, toy);
    let there = place_in(q, b, gox, goy, tox, toy);
    along(v, here, there)
}

pub fn unscaled_apart(v: Vector, scale: i32, a: u64, b: u64, gux: &[i32], guy: &[i32]) -> i32
    ensures { result ≡ unscaled_apart v scale a b gux.now guy.now }
{
    let here = place_at(gux, guy, a);
    let there = place_at(gux, guy, b);
    mul(along(v, here, there), scale)
}

// A point's place, of the original outline or of the unscaled one.
fn place_for(
    original: bool,
    zone: ZonePointer,
    at: u64,
    gux: &[i32],
    guy: &[i32],
    gox: &[i32],
    goy: &[i32],
    tox: &[i32],
    toy: &[i32],
) -> Vector
    ensures { result ≡ cond original (place_in at gox.now goy.now tox.now toy.now zone) (place_of gux.now guy.now at) }
{
    if original {
        place_in(zone, at, gox, goy, tox, toy)
    } else {
        place_at(gux, guy, at)
    }
}

fn scaled_unless(original: bool, scale: i32, d: i32) -> i32
    ensures { result ≡ cond original d (mul_fix d scale) }
{
    if original { d } else { mul(d, scale) }
}

// How far a lies from b: of unscaled points where both are the glyph's, else of original ones.
pub fn outline_apart(
    v: Vector,
    scale: i32,
    p: ZonePointer,
    a: u64,
    q: ZonePointer,
    b: u64,
    gux: &[i32],
    guy: &[i32],
    gox: &[i32],
    goy: &[i32],
    tox: &[i32],
    toy: &[i32],
) -> i32
    ensures { result ≡ outline_of v scale p a q b gux.now guy.now gox.now goy.now tox.now toy.now }
{
    // Both places first, so that one measure serves both outlines.
    let original = p.is_twilight() | q.is_twilight();
    let here = place_for(original, p, a, gux, guy, gox, goy, tox, toy);
    let there = place_for(original, q, b, gux, guy, gox, goy, tox, toy);
    scaled_unless(original, scale, along(v, here, there))
}
