// The oracle's calls over a state and both zones, move_original to move_zp2_point, and point_displacement by the crate test_displacements: each made on a case's
// lists, and judged by the case (docs/ORACLE.md).
//
// Word 2 of a case says which zone, words 3 and 4 which point, word 7 a choice, words 8 and 9 distances. A call is given the lists that it
// works on as the case has them, of whatever lengths: it tests their sizes itself, and nothing is answered here in its place. Room for the
// lists is lent. Nothing is promised here but that every function is safe and ends.
#![tactic(auto)]

use answer::Refusal;
use state_words::zone_of;
use test_cases::{KIND, load_flags, load_words, long, number, state_of, word};
use test_compare::{Said, compare_pair, compare_placed};

// ---- move_original
fn original_agrees_over(
    case: &[u8],
    gox: &mut [i32],
    goy: &mut [i32],
    tox: &mut [i32],
    toy: &mut [i32],
) -> bool {
    let s = state_of(case);
    let zone = zone_of(word(case, 2));
    let at = long(case, 3);
    let distance = number(case, 8);
    let call = direct_moves::try_move_original(s, zone, at, distance, gox, goy, tox, toy);
    let glyph = compare_pair(case, 2, gox, goy);
    let twilight = compare_pair(case, 8, tox, toy);
    Said::of_call(call).agrees(glyph.and(twilight), case)
}

fn original_agrees(
    case: &[u8],
    gox: &mut [i32],
    goy: &mut [i32],
    tox: &mut [i32],
    toy: &mut [i32],
) -> bool {
    let n2 = load_words(case, 2, gox);
    let n3 = load_words(case, 3, goy);
    let n8 = load_words(case, 8, tox);
    let n9 = load_words(case, 9, toy);
    original_agrees_over(
        case,
        &mut gox[..n2],
        &mut goy[..n3],
        &mut tox[..n8],
        &mut toy[..n9],
    )
}

// ---- move_point and move_zp2_point
fn moved(
    case: &[u8],
    gx: &mut [i32],
    gy: &mut [i32],
    flags: &mut [u8],
    tx: &mut [i32],
    ty: &mut [i32],
    tflags: &mut [u8],
) -> Result<(), Refusal> {
    let s = state_of(case);
    let zone = zone_of(word(case, 2));
    let at = long(case, 3);
    let touches = word(case, 7) == 1;
    let dx = number(case, 8);
    let dy = number(case, 9);
    if word(case, KIND) == 11 {
        direct_moves::try_move_point(s, zone, at, dx, gx, gy, flags, tx, ty, tflags)
    } else {
        direct_moves::try_move_zp2_point(s, at, dx, dy, touches, gx, gy, flags, tx, ty, tflags)
    }
}

fn move_agrees_over(
    case: &[u8],
    gx: &mut [i32],
    gy: &mut [i32],
    flags: &mut [u8],
    tx: &mut [i32],
    ty: &mut [i32],
    tflags: &mut [u8],
) -> bool {
    let call = moved(case, gx, gy, flags, tx, ty, tflags);
    let glyph = compare_placed(case, 4, gx, gy, flags);
    let twilight = compare_placed(case, 10, tx, ty, tflags);
    Said::of_call(call).agrees(glyph.and(twilight), case)
}

fn move_agrees(
    case: &[u8],
    gx: &mut [i32],
    gy: &mut [i32],
    flags: &mut [u8],
    tx: &mut [i32],
    ty: &mut [i32],
    tflags: &mut [u8],
) -> bool {
    let n4 = load_words(case, 4, gx);
    let n5 = load_words(case, 5, gy);
    let n6 = load_flags(case, 6, flags);
    let n10 = load_words(case, 10, tx);
    let n11 = load_words(case, 11, ty);
    let n12 = load_flags(case, 12, tflags);
    move_agrees_over(
        case,
        &mut gx[..n4],
        &mut gy[..n5],
        &mut flags[..n6],
        &mut tx[..n10],
        &mut ty[..n11],
        &mut tflags[..n12],
    )
}

// ---- every call
pub fn agrees(
    case: &[u8],
    gox: &mut [i32],
    goy: &mut [i32],
    gx: &mut [i32],
    gy: &mut [i32],
    flags: &mut [u8],
    tox: &mut [i32],
    toy: &mut [i32],
    tx: &mut [i32],
    ty: &mut [i32],
    tflags: &mut [u8],
) -> bool {
    match word(case, KIND) {
        10 => original_agrees(case, gox, goy, tox, toy),
        11 | 12 => move_agrees(case, gx, gy, flags, tx, ty, tflags),
        _ => test_displacements::agrees(case, gox, goy, gx, gy, tox, toy, tx, ty),
    }
}
