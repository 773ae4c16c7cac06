// What the lines share: what a line comes to, its operands as indices, points read and put in the zone that a pointer names, and the sizes of answer 2.
//
// A line's operands are a part of the sheet, first popped first. A line that takes a fixed number of them takes all before its first step. The lists that
// a run holds are lent, so this crate has them as definitions: specs/World.antt says what lines change and what they only read. `sizes_fit` is the test of
// every entry that takes both zones, and of whoever puts them into a record; proofs/Alike.antt says what it tells of the lists' lengths. `fetch_in` asks
// that a zone's two lists share one length; nothing else is asked.
#![tactic(auto)]

ghost use Rattle.std.specs.Prelude.{◌≡◌, length, set};
ghost use Rattle.line.specs.Line.{done_with, refused_with};
ghost use Rattle.line.specs.Operands.{is_odd, index_at};
ghost use Rattle.line.specs.Places.{place_in, fetch_in, size_of, pair, put_at};
ghost use Rattle.line.specs.Sizes.{fits};
ghost use Rattle.rules.specs.declared.Rules.{Rules};
ghost use Rattle.line.specs.World.{fixed};
ghost use Rattle.zone.specs.Zone.{place_of};

use answer::Refusal;
use graphics::{GraphicsState, Vector, ZonePointer};
use int::as_index;
use limits::{control_values_fit, words_fit};
use zone::{coordinate_or_0, fetch, glyph_fits, twilight_fits};

// ---- what a line comes to
#[derive(Clone, Copy)]
pub struct Stepped {
    pub call: Result<(), Refusal>,
    pub state: GraphicsState,
}

pub fn done(state: GraphicsState) -> Stepped
    ensures { result ≡ done_with state }
{
    Stepped {
        call: Ok(()),
        state: state.by_words(),
    }
}

pub fn refused(state: GraphicsState, why: Refusal) -> Stepped
    ensures { result ≡ refused_with state why }
{
    Stepped {
        call: Err(why),
        state: state.by_words(),
    }
}

// ---- operands
pub fn is_odd(opcode: usize) -> bool
    ensures { result ≡ is_odd opcode }
{
    opcode % 2 == 1
}

// An operand as an index.
pub fn index_at(operands: &[i32], k: u64) -> u64
    ensures { result ≡ index_at operands.now k }
{
    as_index(coordinate_or_0(operands, k))
}

// ---- places
// Sets one coordinate, and nothing outside.
fn put_one(list: &mut [i32], at: u64, z: i32)
    ensures { list.new ≡ set list.old at z }
{
    let i = at as usize;
    if list.len() <= i {
        return;
    }
    list[i] = z;
}

// Sets a point's place, and nothing outside.
pub fn put_at(place: Vector, at: u64, xs: &mut [i32], ys: &mut [i32])
    ensures { pair xs.new ys.new ≡ put_at place at xs.old ys.old }
{
    put_one(xs, at, place.x);
    put_one(ys, at, place.y);
}

// A point's place, (0, 0) outside.
pub fn place_at(xs: &[i32], ys: &[i32], at: u64) -> Vector
    ensures { result ≡ place_of xs.now ys.now at }
{
    let x = coordinate_or_0(xs, at);
    let y = coordinate_or_0(ys, at);
    Vector { x, y }
}

// ---- the zone that a pointer names
pub fn place_in(
    zone: ZonePointer,
    at: u64,
    gx: &[i32],
    gy: &[i32],
    tx: &[i32],
    ty: &[i32],
) -> Vector
    ensures { result ≡ place_in at gx.now gy.now tx.now ty.now zone }
{
    match zone {
        ZonePointer::Glyph => place_at(gx, gy, at),
        ZonePointer::Twilight => place_at(tx, ty, at),
    }
}

pub fn fetch_in(
    zone: ZonePointer,
    at: u64,
    gx: &[i32],
    gy: &[i32],
    tx: &[i32],
    ty: &[i32],
) -> Result<Vector, Refusal>
    requires { (length gy.now ≡ length gx.now) × (length ty.now ≡ length tx.now) }
    ensures { result ≡ fetch_in at gx.now gy.now tx.now ty.now zone }
{
    match zone {
        ZonePointer::Glyph => fetch(gx, gy, at),
        ZonePointer::Twilight => fetch(tx, ty, at),
    }
}

// How many points a zone has.
pub fn size_of(zone: ZonePointer, glyph: usize, twilight: usize) -> usize
    ensures { result ≡ size_of glyph twilight zone }
{
    match zone {
        ZonePointer::Glyph => glyph,
        ZonePointer::Twilight => twilight,
    }
}

// ---- sizes
// Every list of a zone is as long as the others, and nothing is above its limit.
pub fn sizes_fit(
    sheet: &[i32],
    controls: &[i32],
    gux: &[i32],
    guy: &[i32],
    gox: &[i32],
    goy: &[i32],
    gx: &[i32],
    gy: &[i32],
    gflags: &[u8],
    contours: &[u16],
    tox: &[i32],
    toy: &[i32],
    tx: &[i32],
    ty: &[i32],
    tflags: &[u8],
) -> bool
    ensures { (rules : Rules) → result ≡ fits (fixed rules controls.now gux.now guy.now gox.now goy.now contours.now) sheet.now gx.now gy.now gflags.now tox.now toy.now tx.now ty.now tflags.now }
{
    glyph_fits(gux, guy, gox, goy, gx, gy, gflags, contours)
        & twilight_fits(tox, toy, tx, ty, tflags)
        & control_values_fit(controls.len())
        & words_fit(sheet.len())
}
