// IP[] (0x39): brings each point of zp2 to where it lay between rp1 of zp0 and rp2 of zp1 in the original outline. OpenType's IP, FreeType's Ins_IP,
// and engine/outline.rs.
//
// Pops as many points as the loop counter says, the first popped first. Reads all three zone pointers, rp1, rp2, the vectors, the facts, and the
// points, unscaled, original and current; rp1 and rp2 once, before the first point is moved. Sets the points and their touch flags, and the counter
// to 1, refused or not. Refused in this order: where the state is pedantic, at rp1, at rp2; then at each point where an operand is missing, and where
// the state is pedantic at the point; the points before it stay moved. Where it isn't pedantic, a reference outside ends the line before an operand
// is taken, and a point outside is passed over. `ip` is one equation with `ip_of` of specs/Ip.antt, for every content of the lists that it isn't lent;
// that each zone's lists share one length is asked of the caller, and nothing of operands, references or the state. More operands than the counter
// says are left alone: refusing such a line (answer 5) is the crate opcodes'.
#![tactic(auto)]

ghost use Rattle.std.specs.Prelude.{◌≡◌, List, ℕ, ℤ, length};
ghost use Rattle.rules.specs.declared.Rules.{Rules};
ghost use Rattle.line.specs.World.{fixed, lined, world};
ghost use Rattle.line_steps.specs.Loop.{each, ended, zones};
ghost use Rattle.line_ip.specs.Ip.{any_twilight, distance_left, ip_of, outline_place, stretch_of, stretched};
ghost use Rattle.line_ip.specs.Loop.{interpolate_all, interpolate_at, let_pass};

use answer::Refusal;
use graphics::{Facts, GraphicsState, Vector, Vectors, ZonePointer, ZonePointers};
use int::{as_index, equal, wrapping_sub};
use line::{Stepped, fetch_in, place_at, place_in};
use math::mul_div;
use moves::{apply_in, move_of};
use projection::{dual_project, project};

// ---- the original outline
// Whether one of the three pointers is at twilight, which has no unscaled points.
fn any_twilight(p: ZonePointers) -> bool
    ensures { result ≡ any_twilight p }
{
    let zp0 = p.zp0;
    let zp1 = p.zp1;
    let zp2 = p.zp2;
    zp0.is_twilight() | zp1.is_twilight() | zp2.is_twilight()
}

// Where a point lay: its original, or unscaled where no pointer is at twilight.
fn outline_place(
    twilight: bool,
    zone: ZonePointer,
    at: u64,
    gux: &[i32],
    guy: &[i32],
    gox: &[i32],
    goy: &[i32],
    tox: &[i32],
    toy: &[i32],
) -> Vector
    ensures { result ≡ outline_place twilight gux.now guy.now gox.now goy.now tox.now toy.now zone at }
{
    if twilight {
        place_in(zone, at, gox, goy, tox, toy)
    } else {
        place_at(gux, guy, at)
    }
}

// ---- the stretch from rp1 to rp2
// Where rp1 lay and where it is, and how far rp2 lay and lies from it.
#[derive(Clone, Copy)]
pub struct Stretch {
    pub original: Vector,
    pub current: Vector,
    pub was: i32,
    pub is: i32,
}

fn stretch_of(
    v: Vectors,
    original: Vector,
    far_original: Vector,
    current: Vector,
    far_current: Vector,
) -> Stretch
    ensures { result ≡ stretch_of v original far_original current far_current }
{
    Stretch {
        original,
        current,
        was: dual_project(v, far_original, original),
        is: project(v, far_current, current),
    }
}

// A distance of the original outline, in the ratio of the two.
fn stretched(was: i32, is: i32, d: i32) -> i32
    ensures { result ≡ stretched was is d }
{
    if equal(d, 0) {
        0
    } else if equal(was, 0) {
        d
    } else {
        mul_div(d, is, was)
    }
}

// From the distance that there is to the distance that is wanted.
fn distance_left(v: Vectors, t: Stretch, outline: Vector, place: Vector) -> i32
    ensures { result ≡ distance_left v t outline place }
{
    let wanted = stretched(t.was, t.is, dual_project(v, outline, t.original));
    wrapping_sub(wanted, project(v, place, t.current))
}

// ---- the points
// Outside, a point is refused if pedantic, else passed over.
fn let_pass(pedantic: bool, why: Refusal) -> Result<(), Refusal>
    ensures { result ≡ let_pass pedantic why }
{
    if pedantic { Err(why) } else { Ok(()) }
}

fn interpolate_point(
    v: Vectors,
    facts: Facts,
    zone: ZonePointer,
    twilight: bool,
    t: Stretch,
    at: u64,
    gux: &[i32],
    guy: &[i32],
    gox: &[i32],
    goy: &[i32],
    gx: &mut [i32],
    gy: &mut [i32],
    gflags: &mut [u8],
    tox: &[i32],
    toy: &[i32],
    tx: &mut [i32],
    ty: &mut [i32],
    tflags: &mut [u8],
) -> Result<(), Refusal>
    requires { (length gy.old ≡ length gx.old) × (length gflags.old ≡ length gx.old) × (length ty.old ≡ length tx.old) × (length tflags.old ≡ length tx.old) }
    ensures { ended result (zones gx.new gy.new gflags.new tx.new ty.new tflags.new) ≡ interpolate_at v facts zone (outline_place twilight gux.now guy.now gox.now goy.now tox.now toy.now zone) t at (zones gx.old gy.old gflags.old tx.old ty.old tflags.old) }
{
    let here = fetch_in(zone, at, gx, gy, tx, ty);
    match here {
        Err(why) => let_pass(facts.pedantic, why),
        Ok(place) => {
            let outline = outline_place(twilight, zone, at, gux, guy, gox, goy, tox, toy);
            let m = move_of(v, facts, distance_left(v, t, outline, place));
            apply_in(zone, m, at, gx, gy, gflags, tx, ty, tflags)
        }
    }
}

fn interpolate_each(
    v: Vectors,
    facts: Facts,
    zone: ZonePointer,
    twilight: bool,
    t: Stretch,
    count: u32,
    operands: &[i32],
    gux: &[i32],
    guy: &[i32],
    gox: &[i32],
    goy: &[i32],
    gx: &mut [i32],
    gy: &mut [i32],
    gflags: &mut [u8],
    tox: &[i32],
    toy: &[i32],
    tx: &mut [i32],
    ty: &mut [i32],
    tflags: &mut [u8],
) -> Result<(), Refusal>
    requires { (length gy.old ≡ length gx.old) × (length gflags.old ≡ length gx.old) × (length ty.old ≡ length tx.old) × (length tflags.old ≡ length tx.old) }
    ensures { ended result (zones gx.new gy.new gflags.new tx.new ty.new tflags.new) ≡ each (interpolate_at v facts zone (outline_place twilight gux.now guy.now gox.now goy.now tox.now toy.now zone) t) count operands.now (zones gx.old gy.old gflags.old tx.old ty.old tflags.old) }
{
    let wanted = count as usize;
    for k in 0..wanted {
        if operands.len() <= k {
            return Err(Refusal::Missing);
        }
        let at = as_index(operands[k]);
        interpolate_point(
            v, facts, zone, twilight, t, at, gux, guy, gox, goy, gx, gy, gflags, tox, toy, tx, ty,
            tflags,
        )?;
    }
    Ok(())
}

// rp1 is looked at first, then rp2, and then each point.
fn interpolate_all(
    s: GraphicsState,
    operands: &[i32],
    gux: &[i32],
    guy: &[i32],
    gox: &[i32],
    goy: &[i32],
    gx: &mut [i32],
    gy: &mut [i32],
    gflags: &mut [u8],
    tox: &[i32],
    toy: &[i32],
    tx: &mut [i32],
    ty: &mut [i32],
    tflags: &mut [u8],
) -> Result<(), Refusal>
    requires { (length gy.old ≡ length gx.old) × (length gflags.old ≡ length gx.old) × (length ty.old ≡ length tx.old) × (length tflags.old ≡ length tx.old) }
    ensures { ended result (zones gx.new gy.new gflags.new tx.new ty.new tflags.new) ≡ interpolate_all s (outline_place (any_twilight s.pointers) gux.now guy.now gox.now goy.now tox.now toy.now) operands.now (zones gx.old gy.old gflags.old tx.old ty.old tflags.old) }
{
    let vectors = s.vectors;
    let facts = s.facts;
    let pointers = s.pointers;
    let references = s.references;
    let zp0 = pointers.zp0;
    let zp1 = pointers.zp1;
    let zp2 = pointers.zp2;
    let rp1 = references.rp1;
    let rp2 = references.rp2;
    let near = fetch_in(zp0, rp1, gx, gy, tx, ty);
    match near {
        Err(why) => let_pass(facts.pedantic, why),
        Ok(current) => {
            let far = fetch_in(zp1, rp2, gx, gy, tx, ty);
            match far {
                Err(why) => let_pass(facts.pedantic, why),
                Ok(far_current) => {
                    let twilight = any_twilight(pointers);
                    let original = outline_place(twilight, zp0, rp1, gux, guy, gox, goy, tox, toy);
                    let far_original = outline_place(
                        twilight, zp1, rp2, gux, guy, gox, goy, tox, toy,
                    );
                    let t = stretch_of(vectors, original, far_original, current, far_current);
                    interpolate_each(
                        vectors,
                        facts,
                        zp2,
                        twilight,
                        t,
                        s.loop_counter,
                        operands,
                        gux,
                        guy,
                        gox,
                        goy,
                        gx,
                        gy,
                        gflags,
                        tox,
                        toy,
                        tx,
                        ty,
                        tflags,
                    )
                }
            }
        }
    }
}

// ---- the line
pub fn ip(
    s: GraphicsState,
    operands: &[i32],
    gux: &[i32],
    guy: &[i32],
    gox: &[i32],
    goy: &[i32],
    gx: &mut [i32],
    gy: &mut [i32],
    gflags: &mut [u8],
    tox: &[i32],
    toy: &[i32],
    tx: &mut [i32],
    ty: &mut [i32],
    tflags: &mut [u8],
) -> Stepped
    requires { (length gy.old ≡ length gx.old) × (length gflags.old ≡ length gx.old) × (length ty.old ≡ length tx.old) × (length tflags.old ≡ length tx.old) }
    ensures { (rules : Rules) (controls : List ℤ) (contours : List ℕ) (opcode : ℕ) → lined result gx.new gy.new gflags.new tox.now toy.now tx.new ty.new tflags.new ≡ ip_of (fixed rules controls gux.now guy.now gox.now goy.now contours) opcode operands.now (world s gx.old gy.old gflags.old tox.now toy.now tx.old ty.old tflags.old) }
{
    let call = interpolate_all(
        s, operands, gux, guy, gox, goy, gx, gy, gflags, tox, toy, tx, ty, tflags,
    );
    Stepped {
        call,
        state: s.reset_loop_counter().by_words(),
    }
}
