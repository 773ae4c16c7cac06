// The lines that bring single points into line, interpolate them or untouch them: ALIGNPTS (0x27), UTP (0x29) and IP (0x39), each with the lists that
// it is lent. The other lines are in the crate dispatch, which calls this one.
//
// `perform_point` is one equation with `line_of` of the crate opcodes, for every content of the control values and the contours' ends, which none of
// these is lent. It asks that the opcode is one of these, and that the lists of each zone share one length.
#![tactic(auto)]

ghost use Rattle.std.specs.Prelude.{List, ◌⊎◌, ◌≡◌, ℕ, ℤ, length};
ghost use Rattle.rules.specs.declared.Rules.{Rules};
ghost use Rattle.line.specs.World.{fixed, lined, world};
ghost use Rattle.opcodes.specs.Table.{line_of};

use graphics::GraphicsState;
use line::Stepped;
use line_alignpts::alignpts;
use line_ip::ip;
use line_utp::utp;

pub fn perform_point(
    s: GraphicsState,
    opcode: usize,
    operands: &[i32],
    gux: &[i32],
    guy: &[i32],
    gox: &[i32],
    goy: &[i32],
    gx: &mut [i32],
    gy: &mut [i32],
    gflags: &mut [u8],
    tox: &[i32],
    toy: &[i32],
    tx: &mut [i32],
    ty: &mut [i32],
    tflags: &mut [u8],
) -> Stepped
    requires { ((opcode ≡ 0x27) ⊎ ((opcode ≡ 0x29) ⊎ (opcode ≡ 0x39))) × (length gy.old ≡ length gx.old) × (length gflags.old ≡ length gx.old) × (length ty.old ≡ length tx.old) × (length tflags.old ≡ length tx.old) }
    ensures { (rules : Rules) (controls : List ℤ) (contours : List ℕ) → lined result gx.new gy.new gflags.new tox.now toy.now tx.new ty.new tflags.new ≡ line_of (fixed rules controls gux.now guy.now gox.now goy.now contours) opcode operands.now (world s gx.old gy.old gflags.old tox.now toy.now tx.old ty.old tflags.old) }
{
    match opcode {
        0x27 => alignpts(s, operands, gx, gy, gflags, tx, ty, tflags),
        0x29 => utp(s, operands, gflags, tflags),
        _ => ip(
            s, operands, gux, guy, gox, goy, gx, gy, gflags, tox, toy, tx, ty, tflags,
        ),
    }
}
