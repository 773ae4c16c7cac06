// Each opcode's line, with the lists that it is lent.
//
// `perform` is one equation with `line_of` of the crate opcodes: what the line says, the state, and every list that it may change, refused or not. It asks
// that the lists of each zone share one length and the contours' ends rise, which the run tests once at its entry, and nothing else. That an opcode is known and the operands
// aren't too many is tested by `opcodes::decode` before.
#![tactic(auto)]

ghost use Rattle.std.specs.Prelude.{◌≡◌};
ghost use Rattle.line.specs.World.{Sound, fixed, lined, world};
ghost use Rattle.opcodes.specs.Table.{line_of};
ghost use Rattle.dispatch.specs.Steps.{Named};

use dispatch_distances::perform_distance;
use dispatch_measures::perform_measure;
use dispatch_points::perform_point;
use dispatch_shifts::perform_shift;
use graphics::GraphicsState;
use line::Stepped;
use line_flip::{flippt, fliprg};
use line_isect::isect;
use line_iup::iup;
use line_set::set_state;
use line_sizes::set_measure;
use line_vectors::turn;
use rules::Rules;

// The call that does an opcode's line. `perform` matches these, and not the numbers: down a chain of ranges the compiler takes the last calls for rare and
// leaves them out of line, and then the state goes through memory at every line.
#[derive(Clone, Copy)]
pub enum Kind {
    Isect,
    Iup,
    Shift,
    Distance,
    Measure,
    Point,
    Vector,
    Size,
    Flippt,
    Fliprg,
    Set,
}

fn kind_of(opcode: usize) -> Kind
    ensures { Named opcode result }
{
    match opcode {
        0x0F => Kind::Isect,
        0x30 | 0x31 => Kind::Iup,
        0x32..=0x38 => Kind::Shift,
        0x2E | 0x2F | 0x3A..=0x3C | 0x3E | 0x3F => Kind::Distance,
        0x46 | 0x47 | 0x49 | 0x4A | 0xC0..=0xFF => Kind::Measure,
        0x27 | 0x29 | 0x39 => Kind::Point,
        0x06..=0x0B | 0x0E | 0x86 | 0x87 => Kind::Vector,
        0x1A | 0x1D..=0x1F | 0x4D | 0x4E => Kind::Size,
        0x80 => Kind::Flippt,
        0x81 | 0x82 => Kind::Fliprg,
        _ => Kind::Set,
    }
}

// The line of an opcode, with its operands.
pub fn perform(
    s: GraphicsState,
    rules: Rules,
    opcode: usize,
    operands: &[i32],
    controls: &[i32],
    gux: &[i32],
    guy: &[i32],
    gox: &[i32],
    goy: &[i32],
    gx: &mut [i32],
    gy: &mut [i32],
    gflags: &mut [u8],
    contours: &[u16],
    tox: &mut [i32],
    toy: &mut [i32],
    tx: &mut [i32],
    ty: &mut [i32],
    tflags: &mut [u8],
) -> Stepped
    requires { Sound (fixed rules controls.now gux.now guy.now gox.now goy.now contours.now) (world s gx.old gy.old gflags.old tox.old toy.old tx.old ty.old tflags.old) }
    ensures { lined result gx.new gy.new gflags.new tox.new toy.new tx.new ty.new tflags.new ≡ line_of (fixed rules controls.now gux.now guy.now gox.now goy.now contours.now) opcode operands.now (world s gx.old gy.old gflags.old tox.old toy.old tx.old ty.old tflags.old) }
{
    let kind = kind_of(opcode);
    match kind {
        Kind::Isect => isect(s, operands, gx, gy, gflags, tx, ty, tflags),
        Kind::Iup => iup(s, opcode, gux, guy, gox, goy, gx, gy, gflags, contours),
        Kind::Shift => perform_shift(
            s, opcode, operands, gox, goy, gx, gy, gflags, contours, tox, toy, tx, ty, tflags,
        ),
        Kind::Distance => perform_distance(
            s, rules, opcode, operands, controls, gox, goy, gx, gy, gflags, tox, toy, tx, ty,
            tflags,
        ),
        Kind::Measure => perform_measure(
            s, opcode, operands, controls, gux, guy, gox, goy, gx, gy, gflags, tox, toy, tx, ty,
            tflags,
        ),
        Kind::Point => perform_point(
            s, opcode, operands, gux, guy, gox, goy, gx, gy, gflags, tox, toy, tx, ty, tflags,
        ),
        Kind::Vector => turn(s, opcode, operands, gox, goy, gx, gy, tox, toy, tx, ty),
        Kind::Size => set_measure(s, opcode, operands),
        Kind::Flippt => flippt(s, operands, gflags),
        Kind::Fliprg => fliprg(s, opcode, operands, gflags),
        Kind::Set => set_state(s, opcode, operands),
    }
}
