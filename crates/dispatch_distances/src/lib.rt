// The lines that bring a point to a distance: MDAP (0x2E, 0x2F), MSIRP (0x3A, 0x3B), ALIGNRP (0x3C) and MIAP (0x3E, 0x3F), each with the lists that it is lent. The
// other lines are in the crate dispatch, which calls this one.
//
// `perform_distance` is one equation with `line_of` of the crate opcodes, for every content of the lists that none of these is lent. It asks that the opcode is
// one of these, and that the lists of each zone share one length.
#![tactic(auto)]

ghost use Rattle.std.specs.Prelude.{List, ◌⊎◌, ◌≡◌, ℕ, ◌≤◌, ◌<◌, ℤ, length};
ghost use Rattle.line.specs.World.{fixed, lined, world};
ghost use Rattle.opcodes.specs.Table.{line_of};

use graphics::GraphicsState;
use line::Stepped;
use line_alignrp::alignrp;
use line_mdap::mdap;
use line_miap::miap;
use line_msirp::msirp;
use rules::Rules;

pub fn perform_distance(
    s: GraphicsState,
    rules: Rules,
    opcode: usize,
    operands: &[i32],
    controls: &[i32],
    gox: &[i32],
    goy: &[i32],
    gx: &mut [i32],
    gy: &mut [i32],
    gflags: &mut [u8],
    tox: &mut [i32],
    toy: &mut [i32],
    tx: &mut [i32],
    ty: &mut [i32],
    tflags: &mut [u8],
) -> Stepped
    requires { (((0x2E ≤ opcode) × (opcode < 0x30)) ⊎ (((0x3A ≤ opcode) × (opcode < 0x3D)) ⊎ ((0x3E ≤ opcode) × (opcode < 0x40)))) × (length gy.old ≡ length gx.old) × (length gflags.old ≡ length gx.old) × (length ty.old ≡ length tx.old) × (length tflags.old ≡ length tx.old) }
    ensures { (gux guy : List ℤ) (contours : List ℕ) → lined result gx.new gy.new gflags.new tox.new toy.new tx.new ty.new tflags.new ≡ line_of (fixed rules controls.now gux guy gox.now goy.now contours) opcode operands.now (world s gx.old gy.old gflags.old tox.old toy.old tx.old ty.old tflags.old) }
{
    match opcode {
        0x2E | 0x2F => mdap(s, opcode, operands, gx, gy, gflags, tx, ty, tflags),
        0x3A | 0x3B => msirp(
            s, rules, opcode, operands, gox, goy, gx, gy, gflags, tox, toy, tx, ty, tflags,
        ),
        0x3C => alignrp(s, operands, gx, gy, gflags, tx, ty, tflags),
        _ => miap(
            s, opcode, operands, controls, gx, gy, gflags, tox, toy, tx, ty, tflags,
        ),
    }
}
