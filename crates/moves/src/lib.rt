// Moves along the freedom vector: move_original, move_point, move_zp2_point and point_displacement of zone.rs.
//
// A move is worked out from numbers of the state, never from a zone (`Move`), and then laid on one zone's slices (`apply`, `apply_coords`): x
// and y are one function on an axis's slice. Each contract is one equation with a definition of specs/, which says what is answered and what
// every list holds afterwards, refused or not. A function that is given several lists of a zone asks that they share one length, and nothing
// else; the direct calls stand above, in the crate direct_moves. `apply_in`, `apply_coords_in` and `displaced_in` are given both
// zones and choose by cases, and the zone that isn't chosen is left alone.
#![tactic(auto)]

ghost use Rattle.std.specs.Prelude.{◌≡◌, ◌<◌, length, ℤ};
ghost use Rattle.flags.specs.declared.CoordAxis.TheVariants.{Both, X, Y};
ghost use Rattle.graphics.specs.declared.Vector.{Vector};
ghost use Rattle.projection.specs.Projection.{fdotp_of, freedom_axis_of};
ghost use Rattle.moves.specs.Move.{bits_for, step_by, step_along, held_back, move_of, original_move_of, zp2_move_of, is_idle, moved_at};
ghost use Rattle.moves.specs.Apply.{shifted, shift_of, moved, apply_of, shift_in, both_shifted, apply_in, both_moved};
ghost use Rattle.zone.specs.Zone.{or_at};
ghost use Rattle.moves.specs.Displacement.{reference_of, displacement_of, displaced_at, displaced_in};

use answer::Refusal;
use flags::{CoordAxis, with_bits};
use graphics::{Facts, GraphicsState, ONE, Vector, Vectors, ZonePointer};
use int::{equal, wrapping_add};
use math::mul_div;
use projection::{derive, project};
use zone::fetch;

// What is done to one point: which coordinates move, by how much, and the bits that its flag is given.
#[derive(Clone, Copy)]
pub struct Move {
    pub moves_x: bool,
    pub dx: i32,
    pub moves_y: bool,
    pub dy: i32,
    pub touch: u8,
}

// ---- the move, from the state's numbers
// The touch bits of the axes that a vector has a part in.
fn bits_for(x: bool, y: bool) -> u8
    ensures { result ≡ bits_for x y }
{
    if x {
        if y { 6 } else { 2 }
    } else {
        if y { 4 } else { 0 }
    }
}

// The axis that both vectors lie on, along which a distance is the step itself.
fn freedom_axis(v: Vectors) -> CoordAxis
    ensures { result ≡ freedom_axis_of v }
{
    let p = v.projection;
    let f = v.freedom;
    if equal(f.x, ONE) {
        if equal(p.x, ONE) {
            CoordAxis::X
        } else {
            CoordAxis::Both
        }
    } else if equal(f.y, ONE) {
        if equal(p.y, ONE) {
            CoordAxis::Y
        } else {
            CoordAxis::Both
        }
    } else {
        CoordAxis::Both
    }
}

fn step_x(distance: i32) -> Move
    ensures { (f : Vector) (fdotp : ℤ) → result ≡ step_by f fdotp distance X }
{
    Move {
        moves_x: true,
        dx: distance,
        moves_y: false,
        dy: 0,
        touch: 2,
    }
}

fn step_y(distance: i32) -> Move
    ensures { (f : Vector) (fdotp : ℤ) → result ≡ step_by f fdotp distance Y }
{
    Move {
        moves_x: false,
        dx: 0,
        moves_y: true,
        dy: distance,
        touch: 4,
    }
}

// A distance measured along the projection vector, as a step along a freedom vector off that axis. By numbers, and with two callers, so that it stays out of the run's loop.
fn step_slanted(px: i32, py: i32, fx: i32, fy: i32, distance: i32) -> Move
    ensures { result ≡ step_by (record { x = fx; y = fy }) (fdotp_of (record { projection = record { x = px; y = py }; dual = record { x = px; y = py }; freedom = record { x = fx; y = fy } })) distance Both }
{
    let projection = Vector { x: px, y: py };
    let freedom = Vector { x: fx, y: fy };
    let v = Vectors {
        projection,
        dual: projection,
        freedom,
    };
    let derived = derive(v);
    let fdotp = derived.fdotp;
    let has_x = !equal(fx, 0);
    let has_y = !equal(fy, 0);
    let dx = mul_div(distance, fx, fdotp);
    let dy = mul_div(distance, fy, fdotp);
    let touch = bits_for(has_x, has_y);
    Move {
        moves_x: has_x,
        dx,
        moves_y: has_y,
        dy,
        touch,
    }
}

// The step that nothing holds back.
pub fn step_of(v: Vectors, distance: i32) -> Move
    ensures { result ≡ step_along v distance }
{
    let p = v.projection;
    let f = v.freedom;
    let axis = freedom_axis(v);
    match axis {
        CoordAxis::X => step_x(distance),
        CoordAxis::Y => step_y(distance),
        CoordAxis::Both => step_slanted(p.x, p.y, f.x, f.y, distance),
    }
}

impl Move {
    // The same move with x or y held fast. What is touched is touched all the same.
    pub fn held(self, x: bool, y: bool) -> Move
        ensures { result ≡ held_back self x y }
    {
        Move {
            moves_x: self.moves_x & !x,
            dx: self.dx,
            moves_y: self.moves_y & !y,
            dy: self.dy,
            touch: self.touch,
        }
    }

    // Whether nothing is done, so that the point isn't looked at.
    pub fn is_idle(self) -> bool
        ensures { result ≡ is_idle self }
    {
        !self.moves_x & !self.moves_y & (self.touch == 0)
    }
}

// move_point. A slanted move that is measured along a horizontal projection vector is made even where points are held fast.
pub fn move_of(v: Vectors, f: Facts, distance: i32) -> Move
    ensures { result ≡ move_of v f distance }
{
    let projection = v.projection;
    let freedom = v.freedom;
    let px = projection.x;
    let py = projection.y;
    let fx = freedom.x;
    let fy = freedom.y;
    let compatible = f.backward_compatibility;
    let past = f.past_both_iups();
    let axis = freedom_axis(v);
    match axis {
        CoordAxis::X => step_x(distance).held(compatible, past),
        CoordAxis::Y => step_y(distance).held(compatible, past),
        CoordAxis::Both => {
            let bound = !equal(py, 0);
            step_slanted(px, py, fx, fy, distance).held(compatible & bound, past & bound)
        }
    }
}

// move_original: the original outline is never held fast and never touched.
pub fn original_move_of(v: Vectors, distance: i32) -> Move
    ensures { result ≡ original_move_of v distance }
{
    let step = step_of(v, distance);
    Move {
        moves_x: step.moves_x,
        dx: step.dx,
        moves_y: step.moves_y,
        dy: step.dy,
        touch: 0,
    }
}

// move_zp2_point: the displacement is given, and no projection vector makes an exception.
pub fn zp2_move_of(v: Vectors, f: Facts, dx: i32, dy: i32, touches: bool) -> Move
    ensures { result ≡ zp2_move_of v f dx dy touches }
{
    let freedom = v.freedom;
    let has_x = !equal(freedom.x, 0);
    let has_y = !equal(freedom.y, 0);
    let touch = bits_for(has_x & touches, has_y & touches);
    let step = Move {
        moves_x: has_x,
        dx,
        moves_y: has_y,
        dy,
        touch,
    };
    step.held(f.backward_compatibility, f.past_both_iups())
}

// ---- the move, laid on one zone
// One axis's coordinate, where it moves. Whether the point is there was tested before.
fn move_at(list: &mut [i32], i: usize, moves: bool, by: i32)
    requires { i < length list.old }
    ensures { list.new ≡ moved_at list.old i by moves }
{
    if !moves {
        return;
    }
    list[i] = wrapping_add(list[i], by);
}

// The flag of a point that is there.
fn touch_at(flags: &mut [u8], i: usize, mask: u8)
    requires { i < length flags.old }
    ensures { flags.new ≡ or_at flags.old i mask }
{
    flags[i] = with_bits(flags[i], mask);
}

// The coordinates alone: no flag is touched.
pub fn apply_coords(m: Move, at: u64, xs: &mut [i32], ys: &mut [i32]) -> Result<(), Refusal>
    requires { length ys.old ≡ length xs.old }
    ensures { shifted result xs.new ys.new ≡ shift_of m at xs.old ys.old }
{
    let i = at as usize;
    if xs.len() <= i {
        return Err(Refusal::Point(at));
    }
    move_at(xs, i, m.moves_x, m.dx);
    move_at(ys, i, m.moves_y, m.dy);
    Ok(())
}

pub fn apply(
    m: Move,
    at: u64,
    xs: &mut [i32],
    ys: &mut [i32],
    flags: &mut [u8],
) -> Result<(), Refusal>
    requires { (length ys.old ≡ length xs.old) × (length flags.old ≡ length xs.old) }
    ensures { moved result xs.new ys.new flags.new ≡ apply_of m at xs.old ys.old flags.old }
{
    let i = at as usize;
    if xs.len() <= i {
        return Err(Refusal::Point(at));
    }
    move_at(xs, i, m.moves_x, m.dx);
    move_at(ys, i, m.moves_y, m.dy);
    touch_at(flags, i, m.touch);
    Ok(())
}

// ---- the move, laid on the zone that a pointer names
pub fn apply_coords_in(
    zone: ZonePointer,
    m: Move,
    at: u64,
    gx: &mut [i32],
    gy: &mut [i32],
    tx: &mut [i32],
    ty: &mut [i32],
) -> Result<(), Refusal>
    requires { (length gy.old ≡ length gx.old) × (length ty.old ≡ length tx.old) }
    ensures { both_shifted result gx.new gy.new tx.new ty.new ≡ shift_in m at gx.old gy.old tx.old ty.old zone }
{
    match zone {
        ZonePointer::Glyph => apply_coords(m, at, gx, gy),
        ZonePointer::Twilight => apply_coords(m, at, tx, ty),
    }
}

pub fn apply_in(
    zone: ZonePointer,
    m: Move,
    at: u64,
    gx: &mut [i32],
    gy: &mut [i32],
    gflags: &mut [u8],
    tx: &mut [i32],
    ty: &mut [i32],
    tflags: &mut [u8],
) -> Result<(), Refusal>
    requires { (length gy.old ≡ length gx.old) × (length gflags.old ≡ length gx.old) × (length ty.old ≡ length tx.old) × (length tflags.old ≡ length tx.old) }
    ensures { both_moved result gx.new gy.new gflags.new tx.new ty.new tflags.new ≡ apply_in m at gx.old gy.old gflags.old tx.old ty.old tflags.old zone }
{
    match zone {
        ZonePointer::Glyph => apply(m, at, gx, gy, gflags),
        ZonePointer::Twilight => apply(m, at, tx, ty, tflags),
    }
}

// ---- how far the reference point was moved
// Which point a shift goes by.
#[derive(Clone, Copy)]
pub struct Reference {
    pub zone: ZonePointer,
    pub at: u64,
}

// The reference point, and how far it was moved along the freedom vector.
#[derive(Clone, Copy)]
pub struct Displacement {
    pub zone: ZonePointer,
    pub at: u64,
    pub dx: i32,
    pub dy: i32,
}

// An odd opcode goes by rp1 in zp0, an even one by rp2 in zp1.
pub fn reference_of(s: GraphicsState, opcode: usize) -> Reference
    ensures { result ≡ reference_of s opcode }
{
    if opcode & 1 == 0 {
        Reference {
            zone: s.zp1(),
            at: s.references.rp2,
        }
    } else {
        Reference {
            zone: s.zp0(),
            at: s.references.rp1,
        }
    }
}

// By numbers, and not by places and vectors: two words that were just stored one by one aren't loaded as one.
pub fn displacement_by(
    px: i32,
    py: i32,
    fx: i32,
    fy: i32,
    cx: i32,
    cy: i32,
    ox: i32,
    oy: i32,
) -> Vector
    ensures { result ≡ displacement_of (record { projection = record { x = px; y = py }; dual = record { x = px; y = py }; freedom = record { x = fx; y = fy } }) (record { x = cx; y = cy }) (record { x = ox; y = oy }) }
{
    let projection = Vector { x: px, y: py };
    let freedom = Vector { x: fx, y: fy };
    let v = Vectors {
        projection,
        dual: projection,
        freedom,
    };
    let current = Vector { x: cx, y: cy };
    let original = Vector { x: ox, y: oy };
    let derived = derive(v);
    let distance = project(v, current, original);
    let x = mul_div(distance, fx, derived.fdotp);
    let y = mul_div(distance, fy, derived.fdotp);
    Vector { x, y }
}

// The current place is read first, then the original one.
pub fn displaced_at(
    v: Vectors,
    p: Reference,
    ox: &[i32],
    oy: &[i32],
    cx: &[i32],
    cy: &[i32],
) -> Result<Displacement, Refusal>
    requires { (length oy.now ≡ length ox.now) × (length cy.now ≡ length cx.now) }
    ensures { result ≡ displaced_at v p ox.now oy.now cx.now cy.now }
{
    let zone = p.zone;
    let at = p.at;
    let current = fetch(cx, cy, at)?;
    let original = fetch(ox, oy, at)?;
    let d = displacement_by(
        v.projection.x,
        v.projection.y,
        v.freedom.x,
        v.freedom.y,
        current.x,
        current.y,
        original.x,
        original.y,
    );
    Ok(Displacement {
        zone,
        at,
        dx: d.x,
        dy: d.y,
    })
}

// point_displacement, in the zone that the reference names.
pub fn displaced_in(
    v: Vectors,
    p: Reference,
    gox: &[i32],
    goy: &[i32],
    gx: &[i32],
    gy: &[i32],
    tox: &[i32],
    toy: &[i32],
    tx: &[i32],
    ty: &[i32],
) -> Result<Displacement, Refusal>
    requires { (length goy.now ≡ length gox.now) × (length gy.now ≡ length gx.now) × (length toy.now ≡ length tox.now) × (length ty.now ≡ length tx.now) }
    ensures { result ≡ displaced_in v p gox.now goy.now gx.now gy.now tox.now toy.now tx.now ty.now p.zone }
{
    let zone = p.zone;
    match zone {
        ZonePointer::Glyph => displaced_at(v, p, gox, goy, gx, gy),
        ZonePointer::Twilight => displaced_at(v, p, tox, toy, tx, ty),
    }
}
