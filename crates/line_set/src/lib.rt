// The lines that set the state and move no point, and `set_state`, which does each of them.
//
// - SVTCA[a] (0x00 y, 0x01 x), SPVTCA[a] (0x02, 0x03), SFVTCA[a] (0x04, 0x05): pop nothing; set the vectors to an axis, all of them, all but the freedom
//   vector, the freedom vector alone. FreeType's Ins_SxyTCA.
// - SRP0[], SRP1[], SRP2[] (0x10 to 0x12): pop a point's number, which isn't looked up. Ins_SRP0 to Ins_SRP2.
// - SZP0[], SZP1[], SZP2[], SZPS[] (0x13 to 0x16): pop a zone, 0 or 1; answer 9 where it is neither. Ins_SZP0 to Ins_SZPS.
// - SLOOP[] (0x17): pops the loop counter, which is capped at 65,535; answer 10 where it is negative. Ins_SLOOP.
// - RTG[], RTHG[], RTDG[], RUTG[], RDTG[], ROFF[] (0x18, 0x19, 0x3D, 0x7C, 0x7D, 0x7A): pop nothing; set the round mode. Ins_RTG and its kin.
// - SROUND[], S45ROUND[] (0x76, 0x77): pop the selector of the round state. Ins_SROUND, Ins_S45ROUND.
//
// A missing operand is refused (answer 6) before the operand is looked at. No line is lent a list: `set_of` says what one does in a world.
#![tactic(auto)]

ghost use Rattle.std.specs.Prelude.{◌≡◌, min};
ghost use Rattle.line_set.specs.Setters.{axis_by, vectors_by, reference_by, pointer_by, zone_by, loop_by, mode_by, takes_operand, operand_by, set_by};

use answer::Refusal;
use graphics::{GraphicsState, Vector, ZonePointer};
use int::{as_index, equal, magnitude, non_negative};
use line::{Stepped, done, refused};
use round::RoundMode;
use super_round::super_round;

// The axis that an opcode names: an odd one x.
fn axis_by(opcode: usize) -> Vector
    ensures { result ≡ axis_by opcode }
{
    if opcode % 2 == 1 {
        Vector::x_axis()
    } else {
        Vector::y_axis()
    }
}

// SVTCA, SPVTCA, SFVTCA.
fn set_vectors(s: GraphicsState, opcode: usize) -> GraphicsState
    ensures { result ≡ vectors_by s opcode }
{
    let axis = axis_by(opcode);
    if opcode < 0x02 {
        s.with_all_vectors(axis)
    } else if opcode < 0x04 {
        s.with_projection_vectors(axis)
    } else {
        s.with_freedom_vector(axis)
    }
}

// SRP0, SRP1, SRP2.
fn set_reference(s: GraphicsState, opcode: usize, at: u64) -> GraphicsState
    ensures { result ≡ reference_by s opcode at }
{
    match opcode {
        0x10 => s.with_rp0(at),
        0x11 => s.with_rp1(at),
        _ => s.with_rp2(at),
    }
}

// SZP0, SZP1, SZP2, SZPS.
fn set_pointer(s: GraphicsState, opcode: usize, zone: ZonePointer) -> GraphicsState
    ensures { result ≡ pointer_by s opcode zone }
{
    match opcode {
        0x13 => s.with_zp0(zone),
        0x14 => s.with_zp1(zone),
        0x15 => s.with_zp2(zone),
        _ => s.with_all_pointers(zone),
    }
}

fn set_zone(s: GraphicsState, opcode: usize, word: i32) -> Stepped
    ensures { result ≡ zone_by s opcode word }
{
    if equal(word, 0) {
        done(set_pointer(s, opcode, ZonePointer::Twilight))
    } else if equal(word, 1) {
        done(set_pointer(s, opcode, ZonePointer::Glyph))
    } else {
        refused(s, Refusal::ZonePointer(as_index(word)))
    }
}

// The loop counter that a word from 0 up asks for.
fn capped(count: u64) -> u32
    ensures { result ≡ min count 65535 }
{
    if count < 65535 { count as u32 } else { 65535 }
}

// SLOOP.
fn set_loop(s: GraphicsState, word: i32) -> Stepped
    ensures { result ≡ loop_by s word }
{
    if non_negative(word) {
        done(s.with_loop_counter(capped(magnitude(word))))
    } else {
        refused(s, Refusal::LoopCount(as_index(word)))
    }
}

// RTG and its kin.
fn mode_by(opcode: usize) -> RoundMode
    ensures { result ≡ mode_by opcode }
{
    match opcode {
        0x18 => RoundMode::Grid,
        0x19 => RoundMode::HalfGrid,
        0x3D => RoundMode::DoubleGrid,
        0x7D => RoundMode::DownToGrid,
        0x7C => RoundMode::UpToGrid,
        _ => RoundMode::Off,
    }
}

// SRP0 to SLOOP, SROUND and S45ROUND.
fn takes_operand(opcode: usize) -> bool
    ensures { result ≡ takes_operand opcode }
{
    ((0x10 <= opcode) & (opcode <= 0x17)) | ((0x76 <= opcode) & (opcode <= 0x77))
}

// A line that takes one operand and sets the state.
fn set_by_operand(s: GraphicsState, opcode: usize, word: i32) -> Stepped
    ensures { result ≡ operand_by s opcode word }
{
    if opcode < 0x13 {
        done(set_reference(s, opcode, as_index(word)))
    } else if opcode < 0x17 {
        set_zone(s, opcode, word)
    } else if opcode < 0x18 {
        set_loop(s, word)
    } else {
        done(s.with_round(super_round(opcode == 0x77, word)))
    }
}

// A line that sets the state and moves no point.
pub fn set_state(s: GraphicsState, opcode: usize, operands: &[i32]) -> Stepped
    ensures { result ≡ set_by s opcode operands.now }
{
    if opcode < 0x06 {
        return done(set_vectors(s, opcode));
    }
    if !takes_operand(opcode) {
        return done(s.with_round_mode(mode_by(opcode)));
    }
    if operands.len() == 0 {
        return refused(s, Refusal::Missing);
    }
    set_by_operand(s, opcode, operands[0])
}
