// Super rounding from its selector byte: op_sround, op_s45round and super_round of engine/graphics.rs.
//
// `super_round` answers for every operand and both kinds, and equals `super_of` of specs/Selector.antt, one rule over the three fields of the
// operand's low byte. It refuses nothing; that no selector makes a state that answer 3 is for is proved in proofs/Facts.antt (`super_usable`).
#![tactic(auto)]

ghost use Rattle.std.specs.Prelude.{◌≡◌, ◌≤◌, ◌<◌};
ghost use Rattle.super_round.specs.Selector.{grid_period, period_by, phase_by, threshold_by, in_sixty_fourths, super_mode, super_of};

use int::{shift_right, to_bits};
use round::{RoundMode, RoundState};

// S45ROUND's period is the diagonal's.
fn grid_period(diagonal: bool) -> u32
    ensures { result ≡ grid_period diagonal }
{
    if diagonal { 0x2d41 } else { 0x4000 }
}

fn mode_of(diagonal: bool) -> RoundMode
    ensures { result ≡ super_mode diagonal }
{
    if diagonal {
        RoundMode::Super45
    } else {
        RoundMode::Super
    }
}

// Half the grid's period, once or twice; the reserved field 3 is once.
fn period_by(diagonal: bool, field: u32) -> u32
    ensures { (result ≡ period_by (grid_period diagonal) field) × ((0 < result) × (result ≤ 0x8000)) }
{
    let grid = grid_period(diagonal);
    if field == 0 {
        grid / 2
    } else if field == 2 {
        grid * 2
    } else {
        grid
    }
}

fn phase_by(period: u32, field: u32) -> u32
    requires { (period ≤ 0x8000) × (field < 4) }
    ensures { (result ≡ phase_by period field) × (result ≤ 0x8000) }
{
    period * field / 4
}

// The one number that may be below zero.
fn threshold_by(period: u32, field: u32) -> i32
    requires { (0 < period) × ((period ≤ 0x8000) × (field < 16)) }
    ensures { result ≡ threshold_by period field }
{
    if field == 0 {
        period as i32 - 1
    } else {
        (field as i32 - 4) * period as i32 / 8
    }
}

// A 2.14 number as 26.6.
fn in_sixty_fourths(x: i32) -> i32
    ensures { result ≡ in_sixty_fourths x }
{
    shift_right(x, 8)
}

// SROUND, and where `diagonal` S45ROUND.
pub fn super_round(diagonal: bool, word: i32) -> RoundState
    ensures { result ≡ super_of diagonal word }
{
    let selector = to_bits(word) % 256;
    let period = period_by(diagonal, selector / 64);
    let phase = phase_by(period, selector / 16 % 4);
    let threshold = threshold_by(period, selector % 16);
    let mode = mode_of(diagonal);
    RoundState {
        mode,
        threshold: in_sixty_fourths(threshold),
        phase: in_sixty_fourths(phase as i32),
        period: in_sixty_fourths(period as i32),
    }
}
