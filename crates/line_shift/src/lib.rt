// SHP[a] (0x32, 0x33) and SHPIX[] (0x38): points of zp2 are shifted. OpenType's instructions of these names, FreeType's Ins_SHP and Ins_SHPIX, and engine/outline.rs.
//
// SHP reads rp1 in zp0 where its opcode is odd, else rp2 in zp1: where that point is and where it was. SHPIX pops an amount and lays it along the freedom vector. Each then pops as
// many points as the loop counter says, the first popped first, shifts and touches them, and sets the counter to 1. Refused in this order: SHPIX under backward
// compatibility, where the Rust goes on (docs/DIFFERENCES.md); at SHP's reference point, where SHPIX's amount is missing; these leave the counter. Then, at each point: where an
// operand is missing, at the point; the points before it stay moved, and the counter is 1. `shp` and `shpix` are each one equation with a definition of
// specs/Shift.antt, for every content of the lists that they aren't lent. That each zone's lists share one length is asked of the caller, and nothing of operands, references
// or the state. More operands than are popped are left alone: refusing such a line (answer 5) is the crate opcodes'.
#![tactic(auto)]

ghost use Rattle.std.specs.Prelude.{ℕ, List, ◌≡◌, ℤ, length};
ghost use Rattle.line_steps.specs.Loop.{each, ended, in_zone, points, shift_at, shift_unless_idle, zones};
ghost use Rattle.rules.specs.declared.Rules.{Rules};
ghost use Rattle.line.specs.World.{Fixed, fixed, lined, world};
ghost use Rattle.moves.specs.Displacement.{displaced_in};
ghost use Rattle.line_shift.specs.Shift.{pixel_move, shp_of, shpix_of};

use answer::Refusal;
use graphics::{Facts, GraphicsState, Vectors, ZonePointer};
use int::as_index;
use line::{Stepped, fetch_in, refused};
use line_steps::take_each;
use math::mul14;
use moves::{
    Displacement, Move, Reference, apply, apply_in, displacement_by, reference_of, zp2_move_of,
};

// ---- points shifted by one move
fn shift_each(
    m: Move,
    count: u32,
    operands: &[i32],
    xs: &mut [i32],
    ys: &mut [i32],
    flags: &mut [u8],
) -> Result<(), Refusal>
    requires { (length ys.old ≡ length xs.old) × (length flags.old ≡ length xs.old) }
    ensures { ended result (points xs.new ys.new flags.new) ≡ each (shift_at m) count operands.now (points xs.old ys.old flags.old) }
{
    let wanted = count as usize;
    for k in 0..wanted {
        if operands.len() <= k {
            return Err(Refusal::Missing);
        }
        let at = as_index(operands[k]);
        apply(m, at, xs, ys, flags)?;
    }
    Ok(())
}

// An idle move looks at no point, so a wild index is accepted.
fn shift_points(
    m: Move,
    count: u32,
    operands: &[i32],
    xs: &mut [i32],
    ys: &mut [i32],
    flags: &mut [u8],
) -> Result<(), Refusal>
    requires { (length ys.old ≡ length xs.old) × (length flags.old ≡ length xs.old) }
    ensures { ended result (points xs.new ys.new flags.new) ≡ each (shift_unless_idle m) count operands.now (points xs.old ys.old flags.old) }
{
    if m.is_idle() {
        take_each(count, operands)
    } else {
        shift_each(m, count, operands, xs, ys, flags)
    }
}

// In the zone that a pointer names.
fn shift_in(
    zone: ZonePointer,
    m: Move,
    count: u32,
    operands: &[i32],
    gx: &mut [i32],
    gy: &mut [i32],
    gflags: &mut [u8],
    tx: &mut [i32],
    ty: &mut [i32],
    tflags: &mut [u8],
) -> Result<(), Refusal>
    requires { (length gy.old ≡ length gx.old) × (length gflags.old ≡ length gx.old) × (length ty.old ≡ length tx.old) × (length tflags.old ≡ length tx.old) }
    ensures { ended result (zones gx.new gy.new gflags.new tx.new ty.new tflags.new) ≡ in_zone (each (shift_unless_idle m) count operands.now) (zones gx.old gy.old gflags.old tx.old ty.old tflags.old) zone }
{
    match zone {
        ZonePointer::Glyph => shift_points(m, count, operands, gx, gy, gflags),
        ZonePointer::Twilight => shift_points(m, count, operands, tx, ty, tflags),
    }
}

// One point, as most lines have it: no loop, and no call.
fn shift_one_in(
    zone: ZonePointer,
    m: Move,
    operands: &[i32],
    gx: &mut [i32],
    gy: &mut [i32],
    gflags: &mut [u8],
    tx: &mut [i32],
    ty: &mut [i32],
    tflags: &mut [u8],
) -> Result<(), Refusal>
    requires { (length gy.old ≡ length gx.old) × (length gflags.old ≡ length gx.old) × (length ty.old ≡ length tx.old) × (length tflags.old ≡ length tx.old) }
    ensures { ended result (zones gx.new gy.new gflags.new tx.new ty.new tflags.new) ≡ in_zone (each (shift_unless_idle m) 1 operands.now) (zones gx.old gy.old gflags.old tx.old ty.old tflags.old) zone }
{
    if operands.len() == 0 {
        return Err(Refusal::Missing);
    }
    if m.is_idle() {
        return Ok(());
    }
    apply_in(
        zone,
        m,
        as_index(operands[0]),
        gx,
        gy,
        gflags,
        tx,
        ty,
        tflags,
    )
}

// ---- SHP
// `displaced_in` of the crate moves, but that the zone is chosen at each place that is read: called there, both zones' lists would go through memory.
fn displaced(
    v: Vectors,
    p: Reference,
    gox: &[i32],
    goy: &[i32],
    gx: &[i32],
    gy: &[i32],
    tox: &[i32],
    toy: &[i32],
    tx: &[i32],
    ty: &[i32],
) -> Result<Displacement, Refusal>
    requires { (length goy.now ≡ length gox.now) × (length gy.now ≡ length gx.now) × (length toy.now ≡ length tox.now) × (length ty.now ≡ length tx.now) }
    ensures { result ≡ displaced_in v p gox.now goy.now gx.now gy.now tox.now toy.now tx.now ty.now p.zone }
{
    let zone = p.zone;
    let at = p.at;
    let current = fetch_in(zone, at, gx, gy, tx, ty)?;
    let original = fetch_in(zone, at, gox, goy, tox, toy)?;
    let d = displacement_by(
        v.projection.x,
        v.projection.y,
        v.freedom.x,
        v.freedom.y,
        current.x,
        current.y,
        original.x,
        original.y,
    );
    Ok(Displacement {
        zone,
        at,
        dx: d.x,
        dy: d.y,
    })
}

pub fn shp(
    s: GraphicsState,
    opcode: usize,
    operands: &[i32],
    gox: &[i32],
    goy: &[i32],
    gx: &mut [i32],
    gy: &mut [i32],
    gflags: &mut [u8],
    tox: &[i32],
    toy: &[i32],
    tx: &mut [i32],
    ty: &mut [i32],
    tflags: &mut [u8],
) -> Stepped
    requires { (length goy.now ≡ length gox.now) × (length gy.old ≡ length gx.old) × (length gflags.old ≡ length gx.old) × (length toy.now ≡ length tox.now) × (length ty.old ≡ length tx.old) × (length tflags.old ≡ length tx.old) }
    ensures { (rules : Rules) (controls gux guy : List ℤ) (contours : List ℕ) → lined result gx.new gy.new gflags.new tox.now toy.now tx.new ty.new tflags.new ≡ shp_of (fixed rules controls gux guy gox.now goy.now contours) opcode operands.now (world s gx.old gy.old gflags.old tox.now toy.now tx.old ty.old tflags.old) }
{
    let vectors = s.vectors;
    let facts = s.facts;
    let zp2 = s.zp2();
    let count = s.loop_counter;
    let reference = reference_of(s, opcode);
    let by = displaced(vectors, reference, gox, goy, gx, gy, tox, toy, tx, ty);
    match by {
        Err(why) => refused(s, why),
        Ok(d) => {
            let m = zp2_move_of(vectors, facts, d.dx, d.dy, true);
            if count == 1 {
                let call = shift_one_in(zp2, m, operands, gx, gy, gflags, tx, ty, tflags);
                return Stepped {
                    call,
                    state: s.reset_loop_counter().by_words(),
                };
            }
            let call = shift_in(zp2, m, count, operands, gx, gy, gflags, tx, ty, tflags);
            Stepped {
                call,
                state: s.reset_loop_counter().by_words(),
            }
        }
    }
}

// ---- SHPIX
fn pixel_move(v: Vectors, f: Facts, amount: i32) -> Move
    ensures { result ≡ pixel_move v f amount }
{
    let freedom = v.freedom;
    let dx = mul14(amount, freedom.x);
    let dy = mul14(amount, freedom.y);
    zp2_move_of(v, f, dx, dy, true)
}

// The amount first, and the points behind it.
pub fn shpix(
    s: GraphicsState,
    operands: &[i32],
    gx: &mut [i32],
    gy: &mut [i32],
    gflags: &mut [u8],
    tx: &mut [i32],
    ty: &mut [i32],
    tflags: &mut [u8],
) -> Stepped
    requires { (length gy.old ≡ length gx.old) × (length gflags.old ≡ length gx.old) × (length ty.old ≡ length tx.old) × (length tflags.old ≡ length tx.old) }
    ensures { (f : Fixed) (opcode : ℕ) (tox toy : List ℤ) → lined result gx.new gy.new gflags.new tox toy tx.new ty.new tflags.new ≡ shpix_of f opcode operands.now (world s gx.old gy.old gflags.old tox toy tx.old ty.old tflags.old) }
{
    let vectors = s.vectors;
    let facts = s.facts;
    let zp2 = s.zp2();
    let count = s.loop_counter;
    if facts.backward_compatibility {
        return refused(s, Refusal::Compatibility);
    }
    if operands.len() == 0 {
        return refused(s, Refusal::Missing);
    }
    let m = pixel_move(vectors, facts, operands[0]);
    if count == 1 {
        let call = shift_one_in(zp2, m, &operands[1..], gx, gy, gflags, tx, ty, tflags);
        return Stepped {
            call,
            state: s.reset_loop_counter().by_words(),
        };
    }
    let call = shift_in(
        zp2,
        m,
        count,
        &operands[1..],
        gx,
        gy,
        gflags,
        tx,
        ty,
        tflags,
    );
    Stepped {
        call,
        state: s.reset_loop_counter().by_words(),
    }
}
