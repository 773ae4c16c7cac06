// The oracle's calls of point_displacement: each made on a case's lists, and judged by the case (docs/ORACLE.md).
//
// Word 7 of a case is the opcode. Room for the lists is lent. Nothing is promised here but that every function is safe and ends.
#![tactic(auto)]

use answer::Refusal;
use moves::Displacement;
use test_cases::{load_words, state_of, word};
use test_compare::{Compared, Said};

fn displaced_from(
    case: &[u8],
    gox: &[i32],
    goy: &[i32],
    gx: &[i32],
    gy: &[i32],
    tox: &[i32],
    toy: &[i32],
    tx: &[i32],
    ty: &[i32],
) -> Result<Displacement, Refusal> {
    let opcode = word(case, 7) as usize;
    direct_moves::try_point_displacement(state_of(case), opcode, gox, goy, gx, gy, tox, toy, tx, ty)
}

fn displaced(
    case: &[u8],
    gox: &mut [i32],
    goy: &mut [i32],
    gx: &mut [i32],
    gy: &mut [i32],
    tox: &mut [i32],
    toy: &mut [i32],
    tx: &mut [i32],
    ty: &mut [i32],
) -> Result<Displacement, Refusal> {
    let n2 = load_words(case, 2, gox);
    let n3 = load_words(case, 3, goy);
    let n4 = load_words(case, 4, gx);
    let n5 = load_words(case, 5, gy);
    let n8 = load_words(case, 8, tox);
    let n9 = load_words(case, 9, toy);
    let n10 = load_words(case, 10, tx);
    let n11 = load_words(case, 11, ty);
    displaced_from(
        case,
        &gox[..n2],
        &goy[..n3],
        &gx[..n4],
        &gy[..n5],
        &tox[..n8],
        &toy[..n9],
        &tx[..n10],
        &ty[..n11],
    )
}

fn of_displaced(displaced: Result<Displacement, Refusal>) -> Said {
    match displaced {
        Err(why) => Said::refused(why),
        Ok(d) => Said::done(d.dx, d.dy),
    }
}

pub fn agrees(
    case: &[u8],
    gox: &mut [i32],
    goy: &mut [i32],
    gx: &mut [i32],
    gy: &mut [i32],
    tox: &mut [i32],
    toy: &mut [i32],
    tx: &mut [i32],
    ty: &mut [i32],
) -> bool {
    let d = displaced(case, gox, goy, gx, gy, tox, toy, tx, ty);
    of_displaced(d).agrees(Compared::nothing(), case)
}
