// The lines that shift points: SHP, SHC, SHZ and SHPIX (0x32 to 0x38), each with the lists that it is lent. The other lines are in the crate dispatch, which
// calls this one.
//
// `perform_shift` is one equation with `line_of` of the crate opcodes, for every content of the lists that no shift is lent. It asks that the opcode is one of
// these, and that the lists of each zone share one length.
#![tactic(auto)]

ghost use Rattle.std.specs.Prelude.{List, ◌≡◌, ◌≤◌, ◌<◌, ℤ, length};
ghost use Rattle.rules.specs.declared.Rules.{Rules};
ghost use Rattle.line.specs.World.{fixed, lined, world};
ghost use Rattle.opcodes.specs.Table.{line_of};

use graphics::GraphicsState;
use line::Stepped;
use line_shc_shz::{shc, shz};
use line_shift::{shp, shpix};

pub fn perform_shift(
    s: GraphicsState,
    opcode: usize,
    operands: &[i32],
    gox: &[i32],
    goy: &[i32],
    gx: &mut [i32],
    gy: &mut [i32],
    gflags: &mut [u8],
    contours: &[u16],
    tox: &[i32],
    toy: &[i32],
    tx: &mut [i32],
    ty: &mut [i32],
    tflags: &mut [u8],
) -> Stepped
    requires { (0x32 ≤ opcode) × (opcode < 0x39) × (length goy.now ≡ length gox.now) × (length gy.old ≡ length gx.old) × (length gflags.old ≡ length gx.old) × (length toy.now ≡ length tox.now) × (length ty.old ≡ length tx.old) × (length tflags.old ≡ length tx.old) }
    ensures { (rules : Rules) (controls gux guy : List ℤ) → lined result gx.new gy.new gflags.new tox.now toy.now tx.new ty.new tflags.new ≡ line_of (fixed rules controls gux guy gox.now goy.now contours.now) opcode operands.now (world s gx.old gy.old gflags.old tox.now toy.now tx.old ty.old tflags.old) }
{
    match opcode {
        0x32 | 0x33 => shp(
            s, opcode, operands, gox, goy, gx, gy, gflags, tox, toy, tx, ty, tflags,
        ),
        0x34 | 0x35 => shc(
            s, opcode, operands, gox, goy, gx, gy, gflags, contours, tox, toy, tx, ty, tflags,
        ),
        0x36 | 0x37 => shz(
            s, opcode, operands, gox, goy, gx, gy, gflags, contours, tox, toy, tx, ty, tflags,
        ),
        _ => shpix(s, operands, gx, gy, gflags, tx, ty, tflags),
    }
}
