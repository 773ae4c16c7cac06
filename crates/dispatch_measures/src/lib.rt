// The lines that measure in the original outline, or push what they measure: GC (0x46, 0x47), MD (0x49, 0x4A), MDRP (0xC0 to 0xDF) and MIRP (0xE0 to 0xFF), each with the
// lists that it is lent. The other lines are in the crate dispatch, which calls this one.
//
// `perform_measure` is one equation with `line_of` of the crate opcodes, for every content of the contours' ends, which none of these is lent. It asks that the opcode
// is one of these, and that the lists of each zone share one length.
#![tactic(auto)]

ghost use Rattle.std.specs.Prelude.{List, ◌⊎◌, ◌≡◌, ℕ, ◌≤◌, ◌<◌, length};
ghost use Rattle.rules.specs.declared.Rules.{Rules};
ghost use Rattle.line.specs.World.{fixed, lined, world};
ghost use Rattle.opcodes.specs.Table.{line_of};

use graphics::GraphicsState;
use line::Stepped;
use line_mdrp::mdrp;
use line_measure::{gc, md};
use line_mirp::mirp;

pub fn perform_measure(
    s: GraphicsState,
    opcode: usize,
    operands: &[i32],
    controls: &[i32],
    gux: &[i32],
    guy: &[i32],
    gox: &[i32],
    goy: &[i32],
    gx: &mut [i32],
    gy: &mut [i32],
    gflags: &mut [u8],
    tox: &mut [i32],
    toy: &mut [i32],
    tx: &mut [i32],
    ty: &mut [i32],
    tflags: &mut [u8],
) -> Stepped
    requires { (((0x46 ≤ opcode) × (opcode < 0x48)) ⊎ (((0x49 ≤ opcode) × (opcode < 0x4B)) ⊎ ((0xC0 ≤ opcode) × (opcode < 0x100)))) × (length goy.now ≡ length gox.now) × (length gy.old ≡ length gx.old) × (length gflags.old ≡ length gx.old) × (length toy.old ≡ length tox.old) × (length ty.old ≡ length tx.old) × (length tflags.old ≡ length tx.old) }
    ensures { (rules : Rules) (contours : List ℕ) → lined result gx.new gy.new gflags.new tox.new toy.new tx.new ty.new tflags.new ≡ line_of (fixed rules controls.now gux.now guy.now gox.now goy.now contours) opcode operands.now (world s gx.old gy.old gflags.old tox.old toy.old tx.old ty.old tflags.old) }
{
    match opcode {
        0x46 | 0x47 => gc(s, opcode, operands, gox, goy, gx, gy, tox, toy, tx, ty),
        0x49 | 0x4A => md(
            s, opcode, operands, gux, guy, gox, goy, gx, gy, tox, toy, tx, ty,
        ),
        0xC0..=0xDF => mdrp(
            s, opcode, operands, gux, guy, gox, goy, gx, gy, gflags, tox, toy, tx, ty, tflags,
        ),
        _ => mirp(
            s, opcode, operands, controls, gox, goy, gx, gy, gflags, tox, toy, tx, ty, tflags,
        ),
    }
}
