// MSIRP (0x3A, 0x3B), which brings a point to a distance from another: engine/outline.rs.
//
// Pops the distance, then the point, in zp1; reads rp0, in zp0; sets rp1 and rp2, and rp0 where the opcode is odd. Refused: a missing operand; then, where
// the state is pedantic, the first of the two points that is outside: rp0 before a twilight point, a glyph point before rp0. Where it isn't the line is
// passed over. Either way nothing is changed. A twilight point is made first, by the run's rules. OpenType's MSIRP, FreeType's Ins_MSIRP. `msirp` is
// one equation with `msirp_of`, for every content of the lists that it isn't lent; it asks that the lists of each zone share one length, and nothing else.
#![tactic(auto)]

ghost use Rattle.std.specs.Prelude.{◌≡◌, cond, List, ℕ, ℤ, length};
ghost use Rattle.graphics.specs.declared.GraphicsState.{GraphicsState};
ghost use Rattle.int.specs.Word.{add32, sub32};
ghost use Rattle.projection.specs.Projection.{project_of};
ghost use Rattle.line.specs.Places.{place_in};
ghost use Rattle.line.specs.World.{World, fixed, lined, world};
ghost use Rattle.zone.specs.Zone.{place_of};
ghost use Rattle.line_steps.specs.Steps.{in_state, into, made_in, passed_over};
ghost use Rattle.line_msirp.specs.Msirp.{made_from, made_place, msirp_of};

use answer::Refusal;
use graphics::{GraphicsState, Vector, Vectors, ZonePointer};
use int::{wrapping_add, wrapping_sub};
use line::{Stepped, done, index_at, is_odd, place_at, place_in, put_at, refused};
use line_relative::{place_alike_in, reach, settle_relative};
use moves::{apply_in, move_of, original_move_of};
use projection::project;
use rules::Rules;
use zone::coordinate_or_0;

// Where a point is outside, the line is refused if pedantic, else passed over.
fn pass_over(s: GraphicsState, why: Refusal) -> Stepped
    ensures { (w : World) → into w result ≡ passed_over (in_state w s) why }
{
    let facts = s.facts;
    if facts.pedantic {
        refused(s, why)
    } else {
        done(s)
    }
}

// ---- the twilight point
fn moved_by(moves: bool, z: i32, by: i32) -> i32
    ensures { result ≡ cond moves (add32 z by) z }
{
    if moves { wrapping_add(z, by) } else { z }
}

// What a twilight point is made from, by the rules. No other function reads an original.
fn made_from(
    rules: Rules,
    at: u64,
    other: ZonePointer,
    reference: u64,
    gox: &[i32],
    goy: &[i32],
    tox: &[i32],
    toy: &[i32],
) -> Vector
    ensures { result ≡ made_from rules (place_of tox.now toy.now at) (place_in reference gox.now goy.now tox.now toy.now other) }
{
    match rules {
        Rules::Skrifa => place_at(tox, toy, at),
        Rules::FreeType => place_in(other, reference, gox, goy, tox, toy),
    }
}

// Where a twilight point is made: an original, moved.
fn made_place(v: Vectors, distance: i32, original: Vector) -> Vector
    ensures { result ≡ made_place v distance original }
{
    let m = original_move_of(v, distance);
    let x = moved_by(m.moves_x, original.x, m.dx);
    let y = moved_by(m.moves_y, original.y, m.dy);
    Vector { x, y }
}

// A twilight point and its original, made; a glyph's point is left.
fn make_in(
    zone: ZonePointer,
    rules: Rules,
    v: Vectors,
    distance: i32,
    at: u64,
    other: ZonePointer,
    reference: u64,
    gox: &[i32],
    goy: &[i32],
    tox: &mut [i32],
    toy: &mut [i32],
    tx: &mut [i32],
    ty: &mut [i32],
)
    ensures { (s : GraphicsState) (gx gy : List ℤ) (gflags tflags : List ℕ) → world s gx gy gflags tox.new toy.new tx.new ty.new tflags ≡ made_in at (made_place v distance (made_from rules (place_of tox.old toy.old at) (place_in reference gox.now goy.now tox.old toy.old other))) (world s gx gy gflags tox.old toy.old tx.old ty.old tflags) zone }
{
    match zone {
        ZonePointer::Glyph => {}
        ZonePointer::Twilight => {
            let from = made_from(rules, at, other, reference, gox, goy, tox, toy);
            let place = made_place(v, distance, from);
            put_at(place, at, tox, toy);
            put_at(place, at, tx, ty);
        }
    }
}

// ---- the move
// From the distance that there is to the distance that is wanted.
fn distance_left(v: Vectors, distance: i32, place: Vector, reference: Vector) -> i32
    ensures { result ≡ sub32 distance (project_of v place reference) }
{
    wrapping_sub(distance, project(v, place, reference))
}

// ---- the line
// MSIRP: a distance, and the point, in zp1; rp0 is in zp0, and read after the point is made, since it may be the very point.
pub fn msirp(
    s: GraphicsState,
    rules: Rules,
    opcode: usize,
    operands: &[i32],
    gox: &[i32],
    goy: &[i32],
    gx: &mut [i32],
    gy: &mut [i32],
    gflags: &mut [u8],
    tox: &mut [i32],
    toy: &mut [i32],
    tx: &mut [i32],
    ty: &mut [i32],
    tflags: &mut [u8],
) -> Stepped
    requires { (length gy.old ≡ length gx.old) × (length gflags.old ≡ length gx.old) × (length ty.old ≡ length tx.old) × (length tflags.old ≡ length tx.old) }
    ensures { (controls gux guy : List ℤ) (contours : List ℕ) → lined result gx.new gy.new gflags.new tox.new toy.new tx.new ty.new tflags.new ≡ msirp_of (fixed rules controls gux guy gox.now goy.now contours) opcode operands.now (world s gx.old gy.old gflags.old tox.old toy.old tx.old ty.old tflags.old) }
{
    if operands.len() < 2 {
        return refused(s, Refusal::Missing);
    }
    let distance = coordinate_or_0(operands, 0);
    let at = index_at(operands, 1);
    let vectors = s.vectors;
    let pointers = s.pointers;
    let references = s.references;
    let zp0 = pointers.zp0;
    let zp1 = pointers.zp1;
    let rp0 = references.rp0;
    let there = reach(zp1, at, zp0, rp0, gx.len(), tx.len());
    match there {
        Err(why) => pass_over(s, why),
        Ok(()) => {
            make_in(
                zp1, rules, vectors, distance, at, zp0, rp0, gox, goy, tox, toy, tx, ty,
            );
            let place = place_alike_in(zp1, at, gx, gy, tx, ty);
            let reference = place_alike_in(zp0, rp0, gx, gy, tx, ty);
            let by = distance_left(vectors, distance, place, reference);
            let m = move_of(vectors, s.facts, by);
            let call = apply_in(zp1, m, at, gx, gy, gflags, tx, ty, tflags);
            settle_relative(s, is_odd(opcode), at, false, call)
        }
    }
}
