// The direct calls of zone.rs that take a state and both zones: move_original, move_point, move_zp2_point and point_displacement.
//
// Nothing is asked of a caller. Each call tests in document 01's order: the sizes (answer 2), the state (3), then the point (7); its
// contract is one equation with a definition of specs/Direct.antt, which says what is answered and what every list holds afterwards,
// refused or not. A call is given the lists that it works on, and tests those. The direct calls over one zone are in the crate zone.
#![tactic(auto)]

ghost use Rattle.std.specs.Prelude.{◌≡◌};
ghost use Rattle.graphics.specs.State.{usable_state};
ghost use Rattle.moves.specs.Apply.{both_shifted, both_moved};
ghost use Rattle.direct_moves.specs.Direct.{entry_by, pairs_fit, zones_fit, outline_fits, try_move_original_of, try_move_point_of, try_move_zp2_of, try_displacement_of};

use answer::Refusal;
use graphics::{GraphicsState, ZonePointer};
use moves::{
    Displacement, apply_coords_in, apply_in, displaced_in, move_of, original_move_of, reference_of,
    zp2_move_of,
};
use zone::{pair_fits, placed_fits};

// ---- the tests at entry
fn entry(fits: bool, s: GraphicsState) -> Result<(), Refusal>
    ensures { result ≡ entry_by fits (usable_state s) }
{
    if !fits {
        return Err(Refusal::Sizes);
    }
    if s.is_usable() {
        Ok(())
    } else {
        Err(Refusal::State)
    }
}

fn pairs_fit(gx: &[i32], gy: &[i32], tx: &[i32], ty: &[i32]) -> bool
    ensures { result ≡ pairs_fit gx.now gy.now tx.now ty.now }
{
    pair_fits(gx, gy) & pair_fits(tx, ty)
}

fn zones_fit(gx: &[i32], gy: &[i32], gflags: &[u8], tx: &[i32], ty: &[i32], tflags: &[u8]) -> bool
    ensures { result ≡ zones_fit gx.now gy.now gflags.now tx.now ty.now tflags.now }
{
    placed_fits(gx, gy, gflags) & placed_fits(tx, ty, tflags)
}

// One zone's original places beside its current ones.
fn outline_fits(ox: &[i32], oy: &[i32], cx: &[i32], cy: &[i32]) -> bool
    ensures { result ≡ outline_fits ox.now oy.now cx.now cy.now }
{
    (ox.len() == cx.len()) & pair_fits(ox, oy) & pair_fits(cx, cy)
}

// ---- the calls
// On the original coordinates.
pub fn try_move_original(
    s: GraphicsState,
    zone: ZonePointer,
    at: u64,
    distance: i32,
    gox: &mut [i32],
    goy: &mut [i32],
    tox: &mut [i32],
    toy: &mut [i32],
) -> Result<(), Refusal>
    ensures { both_shifted result gox.new goy.new tox.new toy.new ≡ try_move_original_of gox.old goy.old tox.old toy.old s zone at distance }
{
    let vectors = s.vectors;
    entry(pairs_fit(gox, goy, tox, toy), s)?;
    apply_coords_in(
        zone,
        original_move_of(vectors, distance),
        at,
        gox,
        goy,
        tox,
        toy,
    )
}

// On the current coordinates and the flags.
pub fn try_move_point(
    s: GraphicsState,
    zone: ZonePointer,
    at: u64,
    distance: i32,
    gx: &mut [i32],
    gy: &mut [i32],
    gflags: &mut [u8],
    tx: &mut [i32],
    ty: &mut [i32],
    tflags: &mut [u8],
) -> Result<(), Refusal>
    ensures { both_moved result gx.new gy.new gflags.new tx.new ty.new tflags.new ≡ try_move_point_of gx.old gy.old gflags.old tx.old ty.old tflags.old s zone at distance }
{
    let vectors = s.vectors;
    let facts = s.facts;
    entry(zones_fit(gx, gy, gflags, tx, ty, tflags), s)?;
    apply_in(
        zone,
        move_of(vectors, facts, distance),
        at,
        gx,
        gy,
        gflags,
        tx,
        ty,
        tflags,
    )
}

// On the current coordinates and the flags of the zone that zp2 names. A move that does nothing looks at nothing.
pub fn try_move_zp2_point(
    s: GraphicsState,
    at: u64,
    dx: i32,
    dy: i32,
    touches: bool,
    gx: &mut [i32],
    gy: &mut [i32],
    gflags: &mut [u8],
    tx: &mut [i32],
    ty: &mut [i32],
    tflags: &mut [u8],
) -> Result<(), Refusal>
    ensures { both_moved result gx.new gy.new gflags.new tx.new ty.new tflags.new ≡ try_move_zp2_of gx.old gy.old gflags.old tx.old ty.old tflags.old s at dx dy touches }
{
    let vectors = s.vectors;
    let facts = s.facts;
    let pointers = s.pointers;
    let zone = pointers.zp2;
    entry(zones_fit(gx, gy, gflags, tx, ty, tflags), s)?;
    let m = zp2_move_of(vectors, facts, dx, dy, touches);
    if m.is_idle() {
        return Ok(());
    }
    apply_in(zone, m, at, gx, gy, gflags, tx, ty, tflags)
}

// How far the reference point of SHP and its kin was moved.
pub fn try_point_displacement(
    s: GraphicsState,
    opcode: usize,
    gox: &[i32],
    goy: &[i32],
    gx: &[i32],
    gy: &[i32],
    tox: &[i32],
    toy: &[i32],
    tx: &[i32],
    ty: &[i32],
) -> Result<Displacement, Refusal>
    ensures { result ≡ try_displacement_of gox.now goy.now gx.now gy.now tox.now toy.now tx.now ty.now s opcode }
{
    let vectors = s.vectors;
    let fits = outline_fits(gox, goy, gx, gy) & outline_fits(tox, toy, tx, ty);
    entry(fits, s)?;
    displaced_in(
        vectors,
        reference_of(s, opcode),
        gox,
        goy,
        gx,
        gy,
        tox,
        toy,
        tx,
        ty,
    )
}
