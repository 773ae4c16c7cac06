// The oracle's runs: each a sheet run on a case's lists, and judged by the case (docs/ORACLE.md).
//
// Room for the lists is lent and filled here, and the crate test_one_run makes the run. Nothing is promised here but that every function is safe and
// ends.
#![tactic(auto)]

use test_cases::{load_ends, load_flags, load_words};
use test_one_run::agrees_on;

// What a run changes is loaded.
fn agrees_given(
    case: &[u8],
    sheet: &[i32],
    controls: &[i32],
    gux: &[i32],
    guy: &[i32],
    gox: &[i32],
    goy: &[i32],
    contours: &[u16],
    gx: &mut [i32],
    gy: &mut [i32],
    gflags: &mut [u8],
    tox: &mut [i32],
    toy: &mut [i32],
    tx: &mut [i32],
    ty: &mut [i32],
    tflags: &mut [u8],
) -> bool {
    let n4 = load_words(case, 4, gx);
    let n5 = load_words(case, 5, gy);
    let n6 = load_flags(case, 6, gflags);
    let n8 = load_words(case, 8, tox);
    let n9 = load_words(case, 9, toy);
    let n10 = load_words(case, 10, tx);
    let n11 = load_words(case, 11, ty);
    let n12 = load_flags(case, 12, tflags);
    agrees_on(
        case,
        sheet,
        controls,
        gux,
        guy,
        gox,
        goy,
        contours,
        &mut gx[..n4],
        &mut gy[..n5],
        &mut gflags[..n6],
        &mut tox[..n8],
        &mut toy[..n9],
        &mut tx[..n10],
        &mut ty[..n11],
        &mut tflags[..n12],
    )
}

// What a run only reads is loaded.
pub fn agrees(
    case: &[u8],
    sheet: &mut [i32],
    controls: &mut [i32],
    gux: &mut [i32],
    guy: &mut [i32],
    gox: &mut [i32],
    goy: &mut [i32],
    gx: &mut [i32],
    gy: &mut [i32],
    gflags: &mut [u8],
    contours: &mut [u16],
    tox: &mut [i32],
    toy: &mut [i32],
    tx: &mut [i32],
    ty: &mut [i32],
    tflags: &mut [u8],
) -> bool {
    let n14 = load_words(case, 14, sheet);
    let n13 = load_words(case, 13, controls);
    let n0 = load_words(case, 0, gux);
    let n1 = load_words(case, 1, guy);
    let n2 = load_words(case, 2, gox);
    let n3 = load_words(case, 3, goy);
    let n7 = load_ends(case, 7, contours);
    agrees_given(
        case,
        &sheet[..n14],
        &controls[..n13],
        &gux[..n0],
        &guy[..n1],
        &gox[..n2],
        &goy[..n3],
        &contours[..n7],
        gx,
        gy,
        gflags,
        tox,
        toy,
        tx,
        ty,
        tflags,
    )
}
