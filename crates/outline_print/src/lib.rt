// The outline of a record's glyph after its replay, as text: document 02, K13.
//
// `print_outline` answers for every byte string: the answer's line as `record_print` has it; behind it, of a replay that wasn't refused, a step a line, its numbers as
// exact decimals of pixels, and the box, or the number that refuses the outline. What it leaves at the front of `text` is `outline_of` of specs/Print.antt, and the
// bytes behind it stay as they were. There is always room: no outline of a record is longer than TEXT_ROOM. Numbers are printed from whole 128ths, of which the
// floats of `outline_steps::next` are proved to be exact.
#![tactic(auto)]

ghost use Rattle.std.specs.Prelude.{◌≡◌, true, ◌&&◌, [], ◌∷◌, ◌++◌, ◌+◌, ◌≤◌, ◌<◌, nat_abs, drop, length};
ghost use Rattle.outline_numbers.specs.Drawing.{greater_z, is_near, lesser_z, near, spots_of, with_point, with_spots};
ghost use Rattle.outline_steps.specs.Outline.{drawable, entry_of, glyph};
ghost use Rattle.record_print.specs.Print.{Front};
ghost use Rattle.record_print.specs.Steps.{Put, ended_by};
ghost use Rattle.outline_print.specs.Lines.{AllNear, box_line, extent_in, fraction, glyph_text, grown_to, outline_text, place_text, places_text, pointed, refusal_line, size_text, stroke_line, tail_of};
ghost use Rattle.outline_print.specs.Print.{glyph_in, outline_of};

use answer::Says;
use int::{low32, magnitude, non_negative};
use outline_numbers::Stroke;
use outline_steps::{begin, first_walk, walk_on};
use record_layout::{CURRENT_X, CURRENT_Y, ENDS, FLAGS, Layout, wide};
use record_load::{ends_in, flags_in, numbers_in};
use record_print::{put_answer, put_digits};
use record_replay::replay_within;
use rules::Rules;

// No text is longer: 872 points, each of three steps at most with a line of 70 bytes at most; the box and the answer.
pub const TEXT_ROOM: usize = 183296;

// 24 KiB, and the eight words of the state that a record of edition 1 gains.
const RECORD_ROOM: usize = 24608;

// No list of a record is longer than the words between its state and its trailer; a glyph point takes seven of these words.
const LIST_ROOM: usize = 6110;

const POINT_ROOM: usize = 872;

// ---- a word
// Below, `at` is the place where a piece of the text begins, and the answer the place behind it.
fn put_word(word: &[u8], text: &mut [u8], at: usize) -> usize
    requires { at + length word.now ≤ length text.old }
    ensures { Put word.now at result text.old text.new }
{
    let next = at + word.len();
    text[at..next].copy_from_slice(word);
    next
}

// ---- a number of 128ths
fn digit_of(n: u64) -> u8
    requires { n < 10 }
    ensures { result ≡ 48 + n }
{
    48 + n as u8
}

// The digits behind the point.
fn put_tail(r: u64, text: &mut [u8], at: usize) -> usize
    requires r_bound { r < 128 }
    requires r_in_bounds { at + length (tail_of r) ≤ length text.old }
    ensures { Put (tail_of r) at result text.old text.new }
{
    let mut rest = r;
    let mut next = at;
    for _ in 0..7u32 {
        if rest == 0 {
            return next;
        }
        text[next] = digit_of(rest * 10 / 128);
        rest = rest * 10 % 128;
        next += 1;
    }
    next
}

fn put_pointed(r: u64, text: &mut [u8], at: usize) -> usize
    requires r_bound { r < 128 }
    requires r_in_bounds { at + length (pointed r) ≤ length text.old }
    ensures { Put (pointed r) at result text.old text.new }
{
    if r == 0 {
        at
    } else {
        text[at] = b'.';
        put_tail(r, text, at + 1)
    }
}

// A number that is not below 0, and a byte behind it.
fn put_size(n: u64, end: u8, text: &mut [u8], at: usize) -> usize
    requires { at + length (ended_by (size_text n) end) ≤ length text.old }
    ensures { Put (ended_by (size_text n) end) at result text.old text.new }
{
    let point = put_digits(n / 128, text, at);
    let next = put_pointed(n % 128, text, point);
    text[next] = end;
    next + 1
}

// A number and a byte behind it.
fn put_fraction(z: i64, end: u8, text: &mut [u8], at: usize) -> usize
    requires z_value { near z ≡ true }
    requires end_in_bounds { at + length (ended_by (fraction z) end) ≤ length text.old }
    ensures { Put (ended_by (fraction z) end) at result text.old text.new }
{
    let x = low32(z);
    if non_negative(x) {
        put_size(magnitude(x), end, text, at)
    } else {
        text[at] = b'-';
        put_size(magnitude(x), end, text, at + 1)
    }
}

// Two numbers, the last of their line.
fn put_place(x: i64, y: i64, text: &mut [u8], at: usize) -> usize
    requires y_value { near x && near y ≡ true }
    requires y_in_bounds { at + length (place_text x y) ≤ length text.old }
    ensures { Put (place_text x y) at result text.old text.new }
{
    let next = put_fraction(x, b' ', text, at);
    put_fraction(y, b'\n', text, next)
}

// Four numbers, the last of their line.
fn put_places(a: i64, b: i64, x: i64, y: i64, text: &mut [u8], at: usize) -> usize
    requires y_value { near a && near b && near x && near y ≡ true }
    requires y_in_bounds { at + length (places_text a b x y) ≤ length text.old }
    ensures { Put (places_text a b x y) at result text.old text.new }
{
    let second = put_fraction(a, b' ', text, at);
    let next = put_fraction(b, b' ', text, second);
    put_place(x, y, text, next)
}

// ---- a step
fn put_stroke(d: Stroke, text: &mut [u8], at: usize) -> usize
    requires d_value { is_near d ≡ true }
    requires d_in_bounds { at + length (stroke_line d) ≤ length text.old }
    ensures { Put (stroke_line d) at result text.old text.new }
{
    match d {
        Stroke::Move(x, y) => {
            let next = put_word(b"move ", text, at);
            put_place(x, y, text, next)
        }
        Stroke::Line(x, y) => {
            let next = put_word(b"line ", text, at);
            put_place(x, y, text, next)
        }
        Stroke::Curve(cx, cy, x, y) => {
            let next = put_word(b"curve ", text, at);
            put_places(cx, cy, x, y, text, next)
        }
        Stroke::Close => put_word(b"close\n", text, at),
    }
}

// ---- the box
#[derive(Clone, Copy)]
pub struct Frame {
    pub left: i64,
    pub bottom: i64,
    pub right: i64,
    pub top: i64,
}

fn lesser(a: i64, b: i64) -> i64
    ensures { result ≡ lesser_z a b }
{
    a.min(b)
}

fn greater(a: i64, b: i64) -> i64
    ensures { result ≡ greater_z a b }
{
    a.max(b)
}

fn grow(e: Frame, x: i64, y: i64) -> Frame
    ensures { result ≡ grown_to e x y }
{
    Frame {
        left: lesser(x, e.left),
        bottom: lesser(y, e.bottom),
        right: greater(x, e.right),
        top: greater(y, e.top),
    }
}

fn with_spot(f: Option<Frame>, x: i64, y: i64) -> Option<Frame>
    ensures { extent_in result ≡ with_point x y (extent_in f) }
{
    match f {
        None => Some(Frame {
            left: x,
            bottom: y,
            right: x,
            top: y,
        }),
        Some(e) => Some(grow(e, x, y)),
    }
}

// The box with the points of a step, a curve's control among them.
fn with_stroke(f: Option<Frame>, d: Stroke) -> Option<Frame>
    ensures { extent_in result ≡ with_spots (extent_in f) (spots_of d) }
{
    match d {
        Stroke::Move(x, y) => with_spot(f, x, y),
        Stroke::Line(x, y) => with_spot(f, x, y),
        Stroke::Curve(cx, cy, x, y) => with_spot(with_spot(f, cx, cy), x, y),
        Stroke::Close => f,
    }
}

fn put_box(f: Option<Frame>, text: &mut [u8], at: usize) -> usize
    requires all_near { AllNear (extent_in f) }
    requires f_in_bounds { at + length (box_line (extent_in f)) ≤ length text.old }
    ensures { Put (box_line (extent_in f)) at result text.old text.new }
{
    match f {
        None => put_word(b"box none\n", text, at),
        Some(e) => {
            let next = put_word(b"box ", text, at);
            put_places(e.left, e.bottom, e.right, e.top, text, next)
        }
    }
}

// ---- an outline
// The steps of a glyph that is drawn, a line each, and the box.
fn put_outline(
    xs: &[i32],
    ys: &[i32],
    flags: &[u8],
    contours: &[u16],
    text: &mut [u8],
    at: usize,
) -> usize
    requires contours_value { entry_of (glyph xs.now ys.now flags.now contours.now) ≡ drawable }
    requires contours_in_bounds { at + length (outline_text (glyph xs.now ys.now flags.now contours.now)) ≤ length text.old }
    ensures { Put (outline_text (glyph xs.now ys.now flags.now contours.now)) at result text.old text.new }
{
    let mut walk = first_walk();
    let mut framed = None;
    let mut next = at;
    loop {
        let walked = walk_on(walk, xs, ys, flags, contours);
        match walked {
            Some(s) => {
                let stroke = s.stroke;
                next = put_stroke(stroke, text, next);
                framed = with_stroke(framed, stroke);
                walk = s.walk;
            }
            None => {
                return put_box(framed, text, next);
            }
        }
    }
}

// Why a glyph isn't drawn.
fn put_refusal(number: u32, text: &mut [u8], at: usize) -> usize
    requires { at + length (refusal_line number) ≤ length text.old }
    ensures { Put (refusal_line number) at result text.old text.new }
{
    let next = put_word(b"outline ", text, at);
    let end = put_digits(number as u64, text, next);
    text[end] = b'\n';
    end + 1
}

// The outline of a glyph, or why there is none.
fn put_glyph(
    xs: &[i32],
    ys: &[i32],
    flags: &[u8],
    contours: &[u16],
    text: &mut [u8],
    at: usize,
) -> usize
    requires { at + length (glyph_text (glyph xs.now ys.now flags.now contours.now)) ≤ length text.old }
    ensures { Put (glyph_text (glyph xs.now ys.now flags.now contours.now)) at result text.old text.new }
{
    let begun = begin(xs, ys, flags, contours);
    match begun {
        Ok(_) => put_outline(xs, ys, flags, contours, text, at),
        Err(why) => put_refusal(why.number(), text, at),
    }
}

// ---- a record
// The outline of the glyph of a record whose lists lie so.
fn put_record(out: &[u8], l: Layout, text: &mut [u8], at: usize) -> usize
    requires points_bound { l.points ≤ 872 }
    requires contours_bound { l.contours ≤ 6110 }
    requires l_in_bounds { at + length (glyph_text (glyph_in out.now l)) ≤ length text.old }
    ensures { Put (glyph_text (glyph_in out.now l)) at result text.old text.new }
{
    let n = wide(l.points);
    let ends = wide(l.contours);
    let mut xs = [0i32; POINT_ROOM];
    numbers_in(out, l, CURRENT_X, &mut xs);
    let mut ys = [0i32; POINT_ROOM];
    numbers_in(out, l, CURRENT_Y, &mut ys);
    let mut flags = [0u8; POINT_ROOM];
    flags_in(out, l, FLAGS, &mut flags);
    let mut contours = [0u16; LIST_ROOM];
    ends_in(out, l, ENDS, &mut contours);
    put_glyph(&xs[..n], &ys[..n], &flags[..n], &contours[..ends], text, at)
}

// What the replay of a record comes to, and the outline that it leaves, at the front of `text`, and how many bytes they have.
pub fn print_outline(rules: Rules, bytes: &[u8], text: &mut [u8; TEXT_ROOM]) -> usize
    ensures value { result ≡ length (outline_of rules bytes.now) }
    ensures front { Front result text.new }
    ensures text_after { text.new ≡ outline_of rules bytes.now ++ drop result text.old }
{
    let mut out = [0u8; RECORD_ROOM];
    let said = replay_within(rules, RECORD_ROOM, bytes, &mut out);
    let next = put_answer(said, text);
    if said.number <= 1 {
        put_record(&out, said.layout, text, next)
    } else {
        next
    }
}
