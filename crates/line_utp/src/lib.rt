// UTP[] (0x29): takes the touch marks off a point of zp0, on each axis that the freedom vector has a part in. OpenType's UTP, FreeType's Ins_UTP, and
// engine/outline.rs.
//
// Pops the point. Reads zp0, the freedom vector and the zone's flags; clears touch bits of the point's flag. Refused in this order: a missing
// operand; a point outside its zone, pedantic or not. Where the freedom vector is (0, 0) the point isn't looked at. `utp` is one equation with
// `utp_of`, for every content of the lists that it isn't lent. Nothing is asked of operands, flags or state.
#![tactic(auto)]

ghost use Rattle.std.specs.Prelude.{ℕ, List, ◌≡◌, ℤ};
ghost use Rattle.line.specs.World.{Fixed, lined, world};
ghost use Rattle.zone.specs.Zone.{marked};
ghost use Rattle.line_utp.specs.Utp.{untouched_by, utp_of};
ghost use Rattle.line_utp.specs.Steps.{both_marked, untouched_in};

use answer::Refusal;
use flags::CoordAxis;
use graphics::{GraphicsState, ZonePointer};
use int::equal;
use line::{Stepped, index_at, refused};
use zone::untouch;

// The marks of x and of y, by whether the freedom vector has a part in them.
fn untouch_by(flags: &mut [u8], at: u64, x: bool, y: bool) -> Result<(), Refusal>
    ensures { marked result flags.new ≡ untouched_by flags.old at x y }
{
    if x {
        if y {
            return untouch(flags, at, CoordAxis::Both);
        }
        return untouch(flags, at, CoordAxis::X);
    }
    if y {
        return untouch(flags, at, CoordAxis::Y);
    }
    Ok(())
}

// The same in the zone that a pointer names.
fn untouch_in(
    zone: ZonePointer,
    at: u64,
    x: bool,
    y: bool,
    gflags: &mut [u8],
    tflags: &mut [u8],
) -> Result<(), Refusal>
    ensures { both_marked result gflags.new tflags.new ≡ untouched_in at x y gflags.old tflags.old zone }
{
    match zone {
        ZonePointer::Glyph => untouch_by(gflags, at, x, y),
        ZonePointer::Twilight => untouch_by(tflags, at, x, y),
    }
}

// UTP: the point, in zp0.
pub fn utp(s: GraphicsState, operands: &[i32], gflags: &mut [u8], tflags: &mut [u8]) -> Stepped
    ensures { (f : Fixed) (opcode : ℕ) (gx gy tox toy tx ty : List ℤ) → lined result gx gy gflags.new tox toy tx ty tflags.new ≡ utp_of f opcode operands.now (world s gx gy gflags.old tox toy tx ty tflags.old) }
{
    if operands.len() < 1 {
        return refused(s, Refusal::Missing);
    }
    let at = index_at(operands, 0);
    let vectors = s.vectors;
    let freedom = vectors.freedom;
    let zp0 = s.zp0();
    let x = !equal(freedom.x, 0);
    let y = !equal(freedom.y, 0);
    let call = untouch_in(zp0, at, x, y, gflags, tflags);
    Stepped {
        call,
        state: s.by_words(),
    }
}
