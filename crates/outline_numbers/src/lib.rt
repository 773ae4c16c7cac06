// Pixel numbers as f32, exact as 128ths; the drawing steps that carry them, and the edges of the box around what was drawn: document 02, K13.
//
// `of_128ths` is h / 128 with nothing lost: the bits of what it returns stand for that fraction (`StandsFor` of specs/Fraction.antt), zero as +0. A
// step is held in whole 128ths (`Stroke`) until it is known to be near enough for that (`is_near`), and becomes floats at one place (`step_of`). The
// box grows by comparing floats; proofs/Bounded.antt says that this is comparing their numbers, and what each edge is.
#![tactic(auto)]

ghost use Rattle.std.specs.Prelude.{◌≡◌, cond, true};
ghost use Rattle.std.specs.Float.{binary32};
ghost use Rattle.std.specs.Float.Ieee.{to_bits, lt};
ghost use Rattle.outline_numbers.specs.Fraction.{StandsFor, of128};
ghost use Rattle.outline_numbers.specs.Drawing.{near, is_near, step_of, grown_by, around_by, drawn_by};

// 65,536 pixels, in 128ths: a sum of two coordinates within 4,194,304 64ths is none beyond it.
const MOST: i64 = 8388608;

const LEAST: i64 = -8388608;

// A place in 128ths of a pixel.
#[derive(Clone, Copy)]
pub struct Spot {
    pub x: i64,
    pub y: i64,
}

// A drawing step in 128ths of a pixel; a curve has its control point first.
#[derive(Clone, Copy)]
pub enum Stroke {
    Move(i64, i64),
    Line(i64, i64),
    Curve(i64, i64, i64, i64),
    Close,
}

// A drawing step in pixels.
#[derive(Clone, Copy)]
pub enum Step {
    Move(f32, f32),
    Line(f32, f32),
    Curve(f32, f32, f32, f32),
    Close,
}

// The edges of a box, in pixels, y upward.
#[derive(Clone, Copy)]
pub struct Edges {
    pub left: f32,
    pub bottom: f32,
    pub right: f32,
    pub top: f32,
}

// Whether h / 128 is one of the numbers that a step can have.
fn within(h: i64) -> bool
    ensures { result ≡ near h }
{
    LEAST <= h && h <= MOST
}

// h / 128, exactly.
pub fn of_128ths(h: i64) -> f32
    requires { near h ≡ true }
    ensures value { result ≡ of128 h }
    ensures stands_for { StandsFor (to_bits binary32 result) h }
{
    h as f32 * 0.0078125
}

// Whether every number of a step is such a number.
pub fn is_near(d: Stroke) -> bool
    ensures { result ≡ is_near d }
{
    match d {
        Stroke::Move(x, y) => within(x) & within(y),
        Stroke::Line(x, y) => within(x) & within(y),
        Stroke::Curve(cx, cy, x, y) => within(cx) & within(cy) & within(x) & within(y),
        Stroke::Close => true,
    }
}

// The step in pixels.
pub fn step_of(d: Stroke) -> Step
    requires { is_near d ≡ true }
    ensures { result ≡ step_of d }
{
    match d {
        Stroke::Move(x, y) => Step::Move(of_128ths(x), of_128ths(y)),
        Stroke::Line(x, y) => Step::Line(of_128ths(x), of_128ths(y)),
        Stroke::Curve(cx, cy, x, y) => Step::Curve(
            of_128ths(cx),
            of_128ths(cy),
            of_128ths(x),
            of_128ths(y),
        ),
        Stroke::Close => Step::Close,
    }
}

fn lesser(a: f32, b: f32) -> f32
    ensures { result ≡ cond (lt a b) a b }
{
    if a < b { a } else { b }
}

fn greater(a: f32, b: f32) -> f32
    ensures { result ≡ cond (lt b a) a b }
{
    if b < a { a } else { b }
}

fn grow(e: Edges, x: f32, y: f32) -> Edges
    ensures { result ≡ grown_by e x y }
{
    Edges {
        left: lesser(x, e.left),
        bottom: lesser(y, e.bottom),
        right: greater(x, e.right),
        top: greater(y, e.top),
    }
}

fn around(b: Option<Edges>, x: f32, y: f32) -> Option<Edges>
    ensures { result ≡ around_by x y b }
{
    match b {
        None => Some(Edges {
            left: x,
            bottom: y,
            right: x,
            top: y,
        }),
        Some(e) => Some(grow(e, x, y)),
    }
}

// The bounds with the points that a step hands out, a curve's control among them.
pub fn drawn(b: Option<Edges>, s: Step) -> Option<Edges>
    ensures { result ≡ drawn_by b s }
{
    match s {
        Step::Move(x, y) => around(b, x, y),
        Step::Line(x, y) => around(b, x, y),
        Step::Curve(cx, cy, x, y) => around(around(b, cx, cy), x, y),
        Step::Close => b,
    }
}
