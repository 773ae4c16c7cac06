// The drawing steps of a glyph, asked for one at a time: document 02, K13.
//
// `begin` tests the glyph (2, 14, 19, in this order) and hands out a pen; `next` takes the pen and gives the next step, with the pen behind it, or says that
// there are no more. The pen is plain numbers and the box around what was drawn so far, and nothing is kept elsewhere. specs/Outline.antt has the steps of a
// glyph as a list, in whole 128ths; proofs/OneByOne.antt says that the steps asked for one by one are that list, then that there are no more, for ever, and that
// the box is the one around the points handed out.
//
// `next` asks nothing of its pen nor of its lists: specs/Pen.antt says what any pen and any lists come to. A number that is no exact f32 is refused with 19
// there too, so what is handed out is exact, even where the lists were changed after `begin`.
#![tactic(auto)]

ghost use Rattle.std.specs.Prelude.{◌≡◌, List, ℕ, ◌<◌, ◌^◌};
ghost use Rattle.outline_steps.specs.Outline.{all_close, curve_to, glyph, is_on, line_to, midway, move_to, sizes_fit, spot_of};
ghost use Rattle.outline_steps.specs.Pen.{begin_of, begun_at, curve_from, fresh as freshPen, handed, next_contour, next_of, on_to, onward_from, start_from, walk_of};

use answer::Refusal;
use contour_ends::ends_rise;
use flags::{ON_CURVE, has_any};
use int::{widen, within};
use limits::contours_fit;
use outline_numbers::{Edges, Spot, Step, Stroke, drawn, is_near, step_of};
use zone::{coordinate_or_0, placed_fits};

// How far from 0 a coordinate may be, in 64ths: 65,536 pixels.
const FARTHEST: i32 = 4194304;

const NEAREST: i32 = -4194304;

// What comes next: a contour's start, a point with none before it that waits, or one behind the off-curve point that waits for its end.
#[derive(Clone, Copy)]
pub enum Stage {
    Between,
    Onward,
    Waiting(u64),
}

// Where the pen is. Each is a number of a point but the first, which counts contours.
#[derive(Clone, Copy)]
pub struct Walk {
    // The contours that were begun.
    pub contour: u64,
    // The first point of the next one.
    pub past: u64,
    // The next point to visit, and the one behind the last.
    pub at: u64,
    pub stop: u64,
    // The contour's start is the midpoint of these two, often one point twice.
    pub from: u64,
    pub to: u64,
    pub stage: Stage,
}

#[derive(Clone, Copy)]
pub struct Pen {
    pub walk: Walk,
    // Around the points handed out so far.
    pub bounds: Option<Edges>,
}

// A step in 128ths, and where the pen is behind it.
#[derive(Clone, Copy)]
pub struct Stroked {
    pub stroke: Stroke,
    pub walk: Walk,
}

#[derive(Clone, Copy)]
pub struct Asked {
    pub told: Result<Option<Step>, Refusal>,
    pub pen: Pen,
}

// ---- a point's place
// Bit 0 of the flag; where there is no such point it is 0.
fn is_on(flags: &[u8], at: u64) -> bool
    ensures { result ≡ is_on flags.now at }
{
    let i = at as usize;
    if i < flags.len() {
        has_any(flags[i], ON_CURVE)
    } else {
        false
    }
}

// The midpoint of two coordinates, in 128ths: the sum of two numbers of 64ths.
fn midpoint(list: &[i32], a: u64, b: u64) -> i64
    ensures { result ≡ midway list.now a b }
{
    widen(coordinate_or_0(list, a)) + widen(coordinate_or_0(list, b))
}

// The midpoint of two points; of one and itself, its own place.
fn spot(xs: &[i32], ys: &[i32], a: u64, b: u64) -> Spot
    ensures { result ≡ spot_of xs.now ys.now a b }
{
    Spot {
        x: midpoint(xs, a, b),
        y: midpoint(ys, a, b),
    }
}

// ---- steps
fn move_to(s: Spot) -> Stroke
    ensures { result ≡ move_to s }
{
    Stroke::Move(s.x, s.y)
}

fn line_to(s: Spot) -> Stroke
    ensures { result ≡ line_to s }
{
    Stroke::Line(s.x, s.y)
}

fn curve_to(c: Spot, s: Spot) -> Stroke
    ensures { result ≡ curve_to c s }
{
    Stroke::Curve(c.x, c.y, s.x, s.y)
}

// ---- the walk
// Further on in the same contour.
fn on_to(w: Walk, at: u64, stage: Stage) -> Walk
    ensures { result ≡ on_to w at stage }
{
    Walk {
        contour: w.contour,
        past: w.past,
        at,
        stop: w.stop,
        from: w.from,
        to: w.to,
        stage,
    }
}

// The off-curve point c waits: the next point ends its curve, itself or by their midpoint, and at the end the start does.
fn curve_from(w: Walk, c: u64, at: u64, xs: &[i32], ys: &[i32], flags: &[u8]) -> Stroked
    ensures { (contours : List ℕ) → result ≡ curve_from (glyph xs.now ys.now flags.now contours) w c at }
{
    let control = spot(xs, ys, c, c);
    if at < w.stop {
        if is_on(flags, at) {
            Stroked {
                stroke: curve_to(control, spot(xs, ys, at, at)),
                walk: on_to(w, at + 1, Stage::Onward),
            }
        } else {
            Stroked {
                stroke: curve_to(control, spot(xs, ys, c, at)),
                walk: on_to(w, at + 1, Stage::Waiting(at)),
            }
        }
    } else {
        Stroked {
            stroke: curve_to(control, spot(xs, ys, w.from, w.to)),
            walk: on_to(w, at, Stage::Onward),
        }
    }
}

// No point waits: the next one ends a line or begins a curve, and behind the last one the contour is closed.
fn onward(w: Walk, xs: &[i32], ys: &[i32], flags: &[u8]) -> Stroked
    ensures { (contours : List ℕ) → result ≡ onward_from (glyph xs.now ys.now flags.now contours) w }
{
    let at = w.at;
    if at < w.stop {
        if is_on(flags, at) {
            Stroked {
                stroke: line_to(spot(xs, ys, at, at)),
                walk: on_to(w, at + 1, Stage::Onward),
            }
        } else {
            curve_from(w, at, at + 1, xs, ys, flags)
        }
    } else {
        Stroked {
            stroke: Stroke::Close,
            walk: on_to(w, at, Stage::Between),
        }
    }
}

// A contour whose last point is `last` is begun at the midpoint of two points, and those from `at` on that stand before `stop` are to be visited.
fn begun_at(
    w: Walk,
    last: u64,
    from: u64,
    to: u64,
    at: u64,
    stop: u64,
    xs: &[i32],
    ys: &[i32],
) -> Stroked
    requires contour_bound { w.contour < 2 ^ 63 }
    requires last_bound { last < 2 ^ 63 }
    ensures { (flags contours : List ℕ) → result ≡ begun_at (glyph xs.now ys.now flags contours) w last from to at stop }
{
    Stroked {
        stroke: move_to(spot(xs, ys, from, to)),
        walk: Walk {
            contour: w.contour + 1,
            past: last + 1,
            at,
            stop,
            from,
            to,
            stage: Stage::Onward,
        },
    }
}

// A contour starts at its first point if that is on curve, else at its last, else at their midpoint; a single point is the start and nothing else.
fn start_from(w: Walk, last: u64, xs: &[i32], ys: &[i32], flags: &[u8]) -> Stroked
    requires contour_bound { w.contour < 2 ^ 63 }
    requires last_bound { last < 2 ^ 63 }
    ensures { (contours : List ℕ) → result ≡ start_from (glyph xs.now ys.now flags.now contours) w last }
{
    let first = w.past;
    if last <= first {
        begun_at(w, last, first, first, last + 1, last + 1, xs, ys)
    } else if is_on(flags, first) {
        begun_at(w, last, first, first, first + 1, last + 1, xs, ys)
    } else if is_on(flags, last) {
        begun_at(w, last, last, last, first, last, xs, ys)
    } else {
        begun_at(w, last, first, last, first, last + 1, xs, ys)
    }
}

fn number_of(end: u16) -> u64
    ensures value { result ≡ end }
    ensures upper_bound { result < 2 ^ 16 }
{
    end as u64
}

// The next contour, where there is one.
fn next_contour(w: Walk, xs: &[i32], ys: &[i32], flags: &[u8], contours: &[u16]) -> Option<Stroked>
    ensures { result ≡ next_contour (glyph xs.now ys.now flags.now contours.now) w }
{
    let k = w.contour as usize;
    if k < contours.len() {
        Some(start_from(w, number_of(contours[k]), xs, ys, flags))
    } else {
        None
    }
}

// The next step in whole 128ths, for whoever wants no floats: `next` is this, and what it says of exact numbers.
pub fn walk_on(w: Walk, xs: &[i32], ys: &[i32], flags: &[u8], contours: &[u16]) -> Option<Stroked>
    ensures { result ≡ walk_of (glyph xs.now ys.now flags.now contours.now) w }
{
    let stage = w.stage;
    match stage {
        Stage::Between => next_contour(w, xs, ys, flags, contours),
        Stage::Onward => Some(onward(w, xs, ys, flags)),
        Stage::Waiting(c) => Some(curve_from(w, c, w.at, xs, ys, flags)),
    }
}

// ---- the pen
// A step whose numbers are exact is handed out, and its points are in the box then; else the pen stays.
fn hand_over(pen: Pen, s: Stroked) -> Asked
    ensures { result ≡ handed pen (Some s) }
{
    let stroke = s.stroke;
    if is_near(stroke) {
        let step = step_of(stroke);
        let before = pen.bounds;
        let bounds = drawn(before, step);
        let walk = s.walk;
        Asked {
            told: Ok(Some(step)),
            pen: Pen { walk, bounds },
        }
    } else {
        Asked {
            told: Err(Refusal::Far),
            pen,
        }
    }
}

// The next step, and the pen behind it.
pub fn next(pen: Pen, xs: &[i32], ys: &[i32], flags: &[u8], contours: &[u16]) -> Asked
    ensures { result ≡ next_of (glyph xs.now ys.now flags.now contours.now) pen }
{
    let walk = pen.walk;
    let walked = walk_on(walk, xs, ys, flags, contours);
    match walked {
        Some(s) => hand_over(pen, s),
        None => Asked {
            told: Ok(None),
            pen,
        },
    }
}

// ---- the start
fn all_close(list: &[i32]) -> bool
    ensures { result ≡ all_close list.now }
{
    list.iter().all(|place| within(*place, NEAREST, FARTHEST))
}

// The test of answer 2.
fn sizes_fit(xs: &[i32], ys: &[i32], flags: &[u8], contours: &[u16]) -> bool
    ensures { result ≡ sizes_fit (glyph xs.now ys.now flags.now contours.now) }
{
    placed_fits(xs, ys, flags) & contours_fit(contours.len())
}

// Before the first contour.
pub fn first_walk() -> Walk
    ensures { result ≡ freshPen.walk }
{
    Walk {
        contour: 0,
        past: 0,
        at: 0,
        stop: 0,
        from: 0,
        to: 0,
        stage: Stage::Between,
    }
}

// The pen before the first contour, with nothing drawn.
fn fresh() -> Pen
    ensures { result ≡ freshPen }
{
    Pen {
        walk: first_walk(),
        bounds: None,
    }
}

// A pen for a glyph that can be drawn: the sizes are tested, then the ends, then every coordinate.
pub fn begin(xs: &[i32], ys: &[i32], flags: &[u8], contours: &[u16]) -> Result<Pen, Refusal>
    ensures { result ≡ begin_of (glyph xs.now ys.now flags.now contours.now) }
{
    if !sizes_fit(xs, ys, flags, contours) {
        return Err(Refusal::Sizes);
    }
    if !ends_rise(contours, xs.len()) {
        return Err(Refusal::Ends);
    }
    if all_close(xs) & all_close(ys) {
        Ok(fresh())
    } else {
        Err(Refusal::Far)
    }
}
