// What programs in C call for an outline, by slices and numbers alone: `exports` gives these functions their names, include/taleviqa.h declares them.
//
// The pen goes in and comes back as nine words, and the box around what was drawn as four floats; a step comes as its number and four floats, each in lent
// slots. `begin_call` and `next_call` answer for every input, and what they return and leave in each slot is one equation with specs/Slots.antt.
// proofs/Back.antt says that the pen which is read back is the one that was written, so that calls one after the other are asks one after the other.
#![tactic(auto)]

ghost use Rattle.std.specs.Prelude.{◌≡◌, true, [], ◌∷◌, length};
ghost use Rattle.outline_steps.specs.Outline.{glyph};
ghost use Rattle.outline_calls.specs.Slots.{begin_call_of, bounds_in, boxed_number, edges_left, is_call, is_pen, left, left_by, next_call_of, numbers_of, pen_in, stage_in, stage_number, started, step_number, waiting_number, walk_in, words_of};

use answer::{Refusal, Says};
use outline_numbers::{Edges, Step};
use outline_steps::{Asked, Pen, Stage, Walk, begin, next};

const PEN_WORDS: usize = 9;

const EDGES: usize = 4;

const NUMBERS: usize = 4;

// A word out of its range.
const BAD_WORD: u32 = 16;

// ---- the pen, read
fn stage_in(number: u64, waiting: u64) -> Stage
    ensures { result ≡ stage_in number waiting }
{
    if number == 0 {
        Stage::Between
    } else if number == 1 {
        Stage::Onward
    } else {
        Stage::Waiting(waiting)
    }
}

fn bounds_in(boxed: u64, edges: &[f32]) -> Option<Edges>
    requires { length edges.now ≡ 4 }
    ensures { result ≡ bounds_in boxed edges.now }
{
    if boxed == 0 {
        None
    } else {
        Some(Edges {
            left: edges[0],
            bottom: edges[1],
            right: edges[2],
            top: edges[3],
        })
    }
}

fn walk_in(words: &[u64]) -> Walk
    requires { length words.now ≡ 9 }
    ensures { result ≡ walk_in words.now }
{
    let stage = stage_in(words[6], words[7]);
    Walk {
        contour: words[0],
        past: words[1],
        at: words[2],
        stop: words[3],
        from: words[4],
        to: words[5],
        stage,
    }
}

fn pen_in(words: &[u64], edges: &[f32]) -> Pen
    requires words_len { length words.now ≡ 9 }
    requires edges_len { length edges.now ≡ 4 }
    ensures { result ≡ pen_in words.now edges.now }
{
    Pen {
        walk: walk_in(words),
        bounds: bounds_in(words[8], edges),
    }
}

// Nine words, with a stage of the three and a box or none.
fn is_pen(words: &[u64]) -> bool
    ensures { result ≡ is_pen words.now }
{
    if words.len() == PEN_WORDS {
        (words[6] <= 2) & (words[8] <= 1)
    } else {
        false
    }
}

// ---- the pen, written
fn stage_number(stage: Stage) -> u64
    ensures { result ≡ stage_number stage }
{
    match stage {
        Stage::Between => 0,
        Stage::Onward => 1,
        Stage::Waiting(_) => 2,
    }
}

fn waiting_number(stage: Stage) -> u64
    ensures { result ≡ waiting_number stage }
{
    match stage {
        Stage::Between => 0,
        Stage::Onward => 0,
        Stage::Waiting(at) => at,
    }
}

fn boxed_number(bounds: Option<Edges>) -> u64
    ensures { result ≡ boxed_number bounds }
{
    match bounds {
        None => 0,
        Some(_) => 1,
    }
}

fn write_pen(pen: Pen, words: &mut [u64])
    requires { length words.old ≡ 9 }
    ensures { words.new ≡ words_of pen }
{
    let walk = pen.walk;
    let bounds = pen.bounds;
    let stage = walk.stage;
    let stage_word = stage_number(stage);
    let waiting_word = waiting_number(stage);
    let boxed_word = boxed_number(bounds);
    words[0] = walk.contour;
    words[1] = walk.past;
    words[2] = walk.at;
    words[3] = walk.stop;
    words[4] = walk.from;
    words[5] = walk.to;
    words[6] = stage_word;
    words[7] = waiting_word;
    words[8] = boxed_word;
}

// ---- a step
// Its number.
fn write_step(s: Step, step: &mut [u32])
    requires { length step.old ≡ 1 }
    ensures { step.new ≡ step_number s ∷ [] }
{
    match s {
        Step::Move(_, _) => {
            step[0] = 1;
        }
        Step::Line(_, _) => {
            step[0] = 2;
        }
        Step::Curve(_, _, _, _) => {
            step[0] = 3;
        }
        Step::Close => {
            step[0] = 4;
        }
    }
}

fn write_four(a: f32, b: f32, c: f32, d: f32, numbers: &mut [f32])
    requires { length numbers.old ≡ 4 }
    ensures { numbers.new ≡ a ∷ b ∷ c ∷ d ∷ [] }
{
    numbers[0] = a;
    numbers[1] = b;
    numbers[2] = c;
    numbers[3] = d;
}

// The edges as they are; nothing where there are none.
fn write_edges(bounds: Option<Edges>, edges: &mut [f32])
    requires { length edges.old ≡ 4 }
    ensures { edges.new ≡ edges_left edges.old bounds }
{
    match bounds {
        None => {}
        Some(e) => write_four(e.left, e.bottom, e.right, e.top, edges),
    }
}

// Its floats, those that it hasn't 0.
fn write_numbers(s: Step, numbers: &mut [f32])
    requires { length numbers.old ≡ 4 }
    ensures { numbers.new ≡ numbers_of s }
{
    match s {
        Step::Move(x, y) => write_four(x, y, 0.0, 0.0, numbers),
        Step::Line(x, y) => write_four(x, y, 0.0, 0.0, numbers),
        Step::Curve(cx, cy, x, y) => write_four(cx, cy, x, y, numbers),
        Step::Close => write_four(0.0, 0.0, 0.0, 0.0, numbers),
    }
}

// ---- the calls
fn is_call(words: &[u64], edges: &[f32], step: &[u32], numbers: &[f32]) -> bool
    ensures { result ≡ is_call words.now edges.now step.now numbers.now }
{
    is_pen(words) & ((edges.len() == EDGES) & ((step.len() == 1) & (numbers.len() == NUMBERS)))
}

// What an ask came to, in the slots.
fn leave(
    asked: Asked,
    words: &mut [u64],
    edges: &mut [f32],
    step: &mut [u32],
    numbers: &mut [f32],
) -> u32
    requires { is_call words.old edges.old step.old numbers.old ≡ true }
    ensures { left result words.new edges.new step.new numbers.new ≡ left_by words.old edges.old step.old numbers.old asked.pen asked.told }
{
    let told = asked.told;
    match told {
        Err(why) => why.number(),
        Ok(drawn) => match drawn {
            None => {
                step[0] = 0;
                0
            }
            Some(s) => {
                let pen = asked.pen;
                let bounds = pen.bounds;
                write_pen(pen, words);
                write_edges(bounds, edges);
                write_step(s, step);
                write_numbers(s, numbers);
                0
            }
        },
    }
}

// The next step of the glyph.
pub fn next_call(
    xs: &[i32],
    ys: &[i32],
    flags: &[u8],
    contours: &[u16],
    words: &mut [u64],
    edges: &mut [f32],
    step: &mut [u32],
    numbers: &mut [f32],
) -> u32
    ensures { left result words.new edges.new step.new numbers.new ≡ next_call_of (glyph xs.now ys.now flags.now contours.now) words.old edges.old step.old numbers.old }
{
    if is_call(words, edges, step, numbers) {
        let pen = pen_in(words, edges);
        let asked = next(pen, xs, ys, flags, contours);
        leave(asked, words, edges, step, numbers)
    } else {
        BAD_WORD
    }
}

// A pen for a glyph that can be drawn.
pub fn begin_call(xs: &[i32], ys: &[i32], flags: &[u8], contours: &[u16], words: &mut [u64]) -> u32
    ensures { started result words.new ≡ begin_call_of (glyph xs.now ys.now flags.now contours.now) words.old }
{
    if words.len() == PEN_WORDS {
        let begun = begin(xs, ys, flags, contours);
        match begun {
            Ok(pen) => {
                write_pen(pen, words);
                0
            }
            Err(why) => why.number(),
        }
    } else {
        BAD_WORD
    }
}
