// IUP[a] (0x30 y, 0x31 x): interpolates the glyph's points that aren't touched, on one axis.
//
// Pops nothing. Reads the glyph's unscaled, original and current points of that axis, its flags and its contours; sets current coordinates, and under
// backward compatibility the axis's mark. Refuses nothing. OpenType's IUP, FreeType's Ins_IUP, op_iup of engine/outline.rs.
//
// `iup` is one equation with `iup_line_of`, for every content of the lists that it isn't lent; it asks that the glyph's lists share one length, and that the contour ends
// rise strictly and lie below it. Of the opcode only whether it is odd is looked at. The walk over the contours is the crate iup's.
#![tactic(auto)]

ghost use Rattle.std.specs.Prelude.{true, List, ◌≡◌, ℕ, ℤ, length};
ghost use Rattle.contour_ends.specs.Ends.{ends_rise};
ghost use Rattle.graphics.specs.declared.GraphicsState.{GraphicsState};
ghost use Rattle.rules.specs.declared.Rules.{Rules};
ghost use Rattle.line.specs.World.{fixed, lined, world};
ghost use Rattle.line_iup.specs.Iup.{iup_line_of, marked_for, walked_in};

use flags::Axis;
use graphics::GraphicsState;
use line::{Stepped, done, is_odd};

// The mark of the opcode's axis, set under backward compatibility alone.
fn marked_for(s: GraphicsState, opcode: usize) -> GraphicsState
    ensures { result ≡ marked_for s opcode }
{
    let facts = s.facts;
    if facts.backward_compatibility {
        if is_odd(opcode) {
            s.with_did_iup_x()
        } else {
            s.with_did_iup_y()
        }
    } else {
        s
    }
}

// The walk over the contours, on x or on y.
fn walk_on(
    x: bool,
    gux: &[i32],
    guy: &[i32],
    gox: &[i32],
    goy: &[i32],
    gx: &mut [i32],
    gy: &mut [i32],
    gflags: &[u8],
    contours: &[u16],
)
    requires { (length gux.now ≡ length gx.old) × (length guy.now ≡ length gx.old) × (length gox.now ≡ length gx.old) × (length goy.now ≡ length gx.old) × (length gy.old ≡ length gx.old) × (length gflags.now ≡ length gx.old) × (ends_rise (length gx.old) contours.now ≡ true) }
    ensures { (s : GraphicsState) (rules : Rules) (controls tox toy tx ty : List ℤ) (tflags : List ℕ) → world s gx.new gy.new gflags.now tox toy tx ty tflags ≡ walked_in (fixed rules controls gux.now guy.now gox.now goy.now contours.now) (world s gx.old gy.old gflags.now tox toy tx ty tflags) x }
{
    if x {
        iup::iup(gux, gox, gx, gflags, contours, Axis::X);
    } else {
        iup::iup(guy, goy, gy, gflags, contours, Axis::Y);
    }
}

// An odd opcode works on x, an even one on y.
pub fn iup(
    s: GraphicsState,
    opcode: usize,
    gux: &[i32],
    guy: &[i32],
    gox: &[i32],
    goy: &[i32],
    gx: &mut [i32],
    gy: &mut [i32],
    gflags: &[u8],
    contours: &[u16],
) -> Stepped
    requires { (length gux.now ≡ length gx.old) × (length guy.now ≡ length gx.old) × (length gox.now ≡ length gx.old) × (length goy.now ≡ length gx.old) × (length gy.old ≡ length gx.old) × (length gflags.now ≡ length gx.old) × (ends_rise (length gx.old) contours.now ≡ true) }
    ensures { (rules : Rules) (controls operands tox toy tx ty : List ℤ) (tflags : List ℕ) → lined result gx.new gy.new gflags.now tox toy tx ty tflags ≡ iup_line_of (fixed rules controls gux.now guy.now gox.now goy.now contours.now) opcode operands (world s gx.old gy.old gflags.now tox toy tx ty tflags) }
{
    let facts = s.facts;
    if facts.past_both_iups() {
        return done(s);
    }
    walk_on(is_odd(opcode), gux, guy, gox, goy, gx, gy, gflags, contours);
    done(marked_for(s, opcode))
}
