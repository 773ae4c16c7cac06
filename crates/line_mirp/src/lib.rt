// MIRP[abcde] (0xE0 to 0xFF): brings a point of zp1 to a control value's distance from rp0 of zp0. OpenType's MIRP, FreeType's Ins_MIRP, and engine/outline.rs.
//
// Pops the control value's number, where -1 stands for the value 0, then the point. Reads the control values, zp0, zp1, rp0, the measures, the round state, the
// vectors, the facts and the points, original and current; makes a twilight point first, moves the point, touches it, sets rp1 and rp2, and rp0 by the opcode's bit
// a. By b it keeps the minimum distance, by c it rounds and looks at the cut-in; d and e change nothing. Refused in this order: a missing operand; where the state
// is pedantic, the control value, then the first of the two points that is outside, and else the references are set all the same; either way nothing else is
// changed. `mirp` is one equation with `mirp_of`, for every content of the lists that it isn't lent; it asks that the lists of each zone share one length, and
// nothing else.
#![tactic(auto)]

ghost use Rattle.std.specs.Prelude.{◌≡◌, cond, List, ℕ, ℤ, pos, get_or, length};
ghost use Rattle.graphics.specs.declared.GraphicsState.{GraphicsState};
ghost use Rattle.int.specs.Word.{add32, index_of};
ghost use Rattle.line.specs.Places.{place_in};
ghost use Rattle.rules.specs.declared.Rules.{Rules};
ghost use Rattle.line.specs.World.{fixed, lined, world};
ghost use Rattle.line_distance.specs.Distance.{chosen_of, cut_in_of};
ghost use Rattle.line_relative.specs.Steps.{reach_of};
ghost use Rattle.line_steps.specs.Steps.{made_in};
ghost use Rattle.projection.specs.Projection.{project_of};
ghost use Rattle.line_mirp.specs.Mirp.{mirp_distance, mirp_of, mirp_place, same_zone};
ghost use Rattle.line_mirp.specs.Steps.{control_found, mirp_found};

use answer::Refusal;
use graphics::{GraphicsState, Measures, Vector, Vectors, ZonePointer};
use int::{as_index, wrapping_add};
use line::{Stepped, index_at, place_in, put_at, refused};
use line_distance::{
    chosen, cut_in_of, finish, flipped, originals_apart, rounds, sets_rp0, single_control,
};
use line_relative::{place_alike_in, reach, relate_or, settle_relative};
use line_steps::step_from;
use math::mul;
use moves::{apply_in, move_of};
use projection::project;
use round::{RoundState, Tracked};
use zone::coordinate_or_0;

// ---- the control value
// One more than its number, as an index: 0 for -1.
fn next_at(operands: &[i32]) -> u64
    ensures { result ≡ index_of (add32 (get_or operands.now 0 (pos 0)) (pos 1)) }
{
    as_index(wrapping_add(coordinate_or_0(operands, 0), 1))
}

fn control_found(next: u64, controls: &[i32]) -> Result<i32, Refusal>
    ensures { result ≡ control_found next controls.now }
{
    if next == 0 {
        return Ok(0);
    }
    let entry = next - 1;
    let i = entry as usize;
    if controls.len() <= i {
        return Err(Refusal::ControlValue(entry));
    }
    let value = controls[i];
    Ok(value)
}

// The control value, or the single width where that is near, or why the line is refused: the value is looked at first, then the points.
fn mirp_found(
    m: Measures,
    next: u64,
    controls: &[i32],
    zone: ZonePointer,
    at: u64,
    other: ZonePointer,
    reference: u64,
    glyph: usize,
    twilight: usize,
) -> Result<i32, Refusal>
    ensures { result ≡ mirp_found m (control_found next controls.now) (reach_of at other reference glyph twilight zone) }
{
    let control = control_found(next, controls);
    let there = reach(zone, at, other, reference, glyph, twilight);
    let value = control?;
    there?;
    Ok(single_control(m.single_width_cut_in, m.single_width, value))
}

// ---- the twilight point
fn mirp_place(freedom: Vector, control: i32, reference: Vector) -> Vector
    ensures { result ≡ mirp_place freedom control reference }
{
    let x = wrapping_add(reference.x, mul(control, freedom.x));
    let y = wrapping_add(reference.y, mul(control, freedom.y));
    Vector { x, y }
}

// A twilight point and its original, made from rp0's original; a glyph's point is left.
fn make_in(
    zone: ZonePointer,
    freedom: Vector,
    control: i32,
    other: ZonePointer,
    reference: u64,
    at: u64,
    gox: &[i32],
    goy: &[i32],
    tox: &mut [i32],
    toy: &mut [i32],
    tx: &mut [i32],
    ty: &mut [i32],
)
    ensures { (s : GraphicsState) (gx gy : List ℤ) (gflags tflags : List ℕ) → world s gx gy gflags tox.new toy.new tx.new ty.new tflags ≡ made_in at (mirp_place freedom control (place_in reference gox.now goy.now tox.old toy.old other)) (world s gx gy gflags tox.old toy.old tx.old ty.old tflags) zone }
{
    match zone {
        ZonePointer::Glyph => {}
        ZonePointer::Twilight => {
            let original = place_in(other, reference, gox, goy, tox, toy);
            let place = mirp_place(freedom, control, original);
            put_at(place, at, tox, toy);
            put_at(place, at, tx, ty);
        }
    }
}

// ---- the distance
fn same_zone(p: ZonePointer, q: ZonePointer) -> bool
    ensures { result ≡ same_zone p q }
{
    p.is_twilight() == q.is_twilight()
}

// The control value, or the original distance where the line looks at the cut-in and they lie too far apart.
fn near(looks: bool, native: bool, cut_in: i32, control: i32, original: i32) -> i32
    ensures { result ≡ cond looks (chosen_of (cut_in_of native cut_in) control original) control }
{
    if looks {
        chosen(cut_in_of(native, cut_in), control, original)
    } else {
        control
    }
}

// The distance that the point is brought to, by the control value and the original one.
fn mirp_distance(
    opcode: usize,
    within: bool,
    native: bool,
    round: RoundState,
    m: Measures,
    control: i32,
    original: i32,
) -> Tracked
    ensures { result ≡ mirp_distance opcode within native round m control original }
{
    let turned = flipped(m.auto_flip, original, control);
    let d = near(rounds(opcode) & within, native, m.cut_in, turned, original);
    finish(opcode, native, round, m.minimum_distance, original, d)
}

// ---- the move
fn currents_apart(
    v: Vectors,
    p: ZonePointer,
    a: u64,
    q: ZonePointer,
    b: u64,
    gx: &[i32],
    gy: &[i32],
    tx: &[i32],
    ty: &[i32],
) -> i32
    requires { (length gy.now ≡ length gx.now) × (length ty.now ≡ length tx.now) }
    ensures { result ≡ project_of v (place_in a gx.now gy.now tx.now ty.now p) (place_in b gx.now gy.now tx.now ty.now q) }
{
    let here = place_alike_in(p, a, gx, gy, tx, ty);
    let there = place_alike_in(q, b, gx, gy, tx, ty);
    project(v, here, there)
}

// ---- the line
// MIRP: a control value's number, and the point, in zp1; rp0 is in zp0, and read after the point is made, since it may be the very point.
pub fn mirp(
    s: GraphicsState,
    opcode: usize,
    operands: &[i32],
    controls: &[i32],
    gox: &[i32],
    goy: &[i32],
    gx: &mut [i32],
    gy: &mut [i32],
    gflags: &mut [u8],
    tox: &mut [i32],
    toy: &mut [i32],
    tx: &mut [i32],
    ty: &mut [i32],
    tflags: &mut [u8],
) -> Stepped
    requires { (length gy.old ≡ length gx.old) × (length gflags.old ≡ length gx.old) × (length ty.old ≡ length tx.old) × (length tflags.old ≡ length tx.old) }
    ensures { (rules : Rules) (gux guy : List ℤ) (contours : List ℕ) → lined result gx.new gy.new gflags.new tox.new toy.new tx.new ty.new tflags.new ≡ mirp_of (fixed rules controls.now gux guy gox.now goy.now contours) opcode operands.now (world s gx.old gy.old gflags.old tox.old toy.old tx.old ty.old tflags.old) }
{
    if operands.len() < 2 {
        return refused(s, Refusal::Missing);
    }
    let next = next_at(operands);
    let at = index_at(operands, 1);
    let vectors = s.vectors;
    let facts = s.facts;
    let measures = s.measures;
    let zp0 = s.zp0();
    let zp1 = s.zp1();
    let rp0 = s.references.rp0;
    let sets = sets_rp0(opcode);
    let found = mirp_found(
        measures,
        next,
        controls,
        zp1,
        at,
        zp0,
        rp0,
        gx.len(),
        tx.len(),
    );
    match found {
        Err(why) => relate_or(s, sets, at, why),
        Ok(control) => {
            make_in(
                zp1,
                vectors.freedom,
                control,
                zp0,
                rp0,
                at,
                gox,
                goy,
                tox,
                toy,
                tx,
                ty,
            );
            let own = currents_apart(vectors, zp1, at, zp0, rp0, gx, gy, tx, ty);
            let original = originals_apart(vectors.dual, zp1, at, zp0, rp0, gox, goy, tox, toy);
            let within = same_zone(zp0, zp1);
            let native = facts.native_clear_type_x;
            let distance = mirp_distance(
                opcode, within, native, s.round, measures, control, original,
            );
            let by = step_from(own, distance);
            let m = move_of(vectors, facts, by.word);
            let call = apply_in(zp1, m, at, gx, gy, gflags, tx, ty, tflags);
            settle_relative(s, sets, at, by.wrapped, call)
        }
    }
}
