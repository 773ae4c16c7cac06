// What a replay prints, as bytes: document 02, K4 and K5.
//
// `print` answers for every byte string: the text that it leaves at the front of `text` is `print_of` of specs/Print.antt, and the bytes behind it stay
// as they were. There is always room: no record's text is longer than TEXT_ROOM.
#![tactic(auto)]

ghost use Rattle.std.specs.Prelude.{◌≡◌, ◌+◌, ◌≤◌, ◌++◌, length, drop};
ghost use Rattle.words.specs.Lists.{word, flag_of};
ghost use Rattle.int.specs.Word.{of_bits};
ghost use Rattle.record_layout.specs.Order.{list_place};
ghost use Rattle.record_print.specs.Print.{answer_line, point_line, glyph_lines, print_of, Front};
ghost use Rattle.record_print.specs.Text.{decimal, signed_decimal};
ghost use Rattle.record_print.specs.Steps.{ended_by, Put};

use int::{from_bits, magnitude, non_negative};
use itoa::write_digits;
use record_layout::{CURRENT_X, CURRENT_Y, FLAGS, Layout, place, wide};
use record_replay::replay_within;
use record_run::Replayed;
use rules::Rules;
use words::word;

// No text is longer: 872 points, each a line of 28 bytes at most, and the answer's line of 74.
pub const TEXT_ROOM: usize = 24576;

// 24 KiB, and the eight words of the state that a record of edition 1 gains.
pub const RECORD_ROOM: usize = 24608;

// ---- a number
// Below, `at` is the place where a piece of the text begins, and the answer the place behind it.
fn count_digits(n: u64) -> usize
    ensures { result ≡ length (decimal n) }
{
    let mut count = 1;
    let mut rest = n;
    // Counted by hand: a turn takes a digit off, until one is left.
    while rest >= 10 {
        rest /= 10;
        count += 1;
    }
    count
}

// The digits are laid down in their place, and not copied there: most numbers have few.
pub fn put_digits(n: u64, text: &mut [u8], at: usize) -> usize
    requires { at + length (decimal n) ≤ length text.old }
    ensures { Put (decimal n) at result text.old text.new }
{
    let next = at + count_digits(n);
    write_digits(n, text, next);
    next
}

fn put_number(n: u64, end: u8, text: &mut [u8], at: usize) -> usize
    requires { at + length (ended_by (decimal n) end) ≤ length text.old }
    ensures { Put (ended_by (decimal n) end) at result text.old text.new }
{
    let next = put_digits(n, text, at);
    text[next] = end;
    next + 1
}

fn put_signed(x: i32, end: u8, text: &mut [u8], at: usize) -> usize
    requires { at + length (ended_by (signed_decimal x) end) ≤ length text.old }
    ensures { Put (ended_by (signed_decimal x) end) at result text.old text.new }
{
    if non_negative(x) {
        put_number(magnitude(x), end, text, at)
    } else {
        text[at] = b'-';
        put_number(magnitude(x), end, text, at + 1)
    }
}

// ---- a line
pub fn put_answer(r: Replayed, text: &mut [u8]) -> usize
    requires { length (answer_line r) ≤ length text.old }
    ensures { Put (answer_line r) 0 result text.old text.new }
{
    let place = put_number(r.number as u64, b' ', text, 0);
    let lines = put_number(r.place as u64, b' ', text, place);
    let detail = put_number(r.lines, b' ', text, lines);
    put_number(r.detail, b'\n', text, detail)
}

// The flag of a point, the low byte of its word.
fn flag_at(out: &[u8], l: Layout, i: usize) -> u64
    ensures { result ≡ flag_of (word out.now (list_place l 6 + i)) }
{
    (word(out, place(l, FLAGS), i) % 256) as u64
}

fn put_point(out: &[u8], l: Layout, i: usize, text: &mut [u8], at: usize) -> usize
    requires { at + length (point_line (of_bits (word out.now (list_place l 4 + i))) (of_bits (word out.now (list_place l 5 + i))) (flag_of (word out.now (list_place l 6 + i)))) ≤ length text.old }
    ensures { Put (point_line (of_bits (word out.now (list_place l 4 + i))) (of_bits (word out.now (list_place l 5 + i))) (flag_of (word out.now (list_place l 6 + i)))) at result text.old text.new }
{
    let x = from_bits(word(out, place(l, CURRENT_X), i));
    let y = from_bits(word(out, place(l, CURRENT_Y), i));
    let flag = flag_at(out, l, i);
    let after_x = put_signed(x, b' ', text, at);
    let after_y = put_signed(y, b' ', text, after_x);
    put_number(flag, b'\n', text, after_y)
}

// ---- a text
pub fn put_points(out: &[u8], l: Layout, text: &mut [u8], at: usize) -> usize
    requires { at + length (glyph_lines out.now l) ≤ length text.old }
    ensures { Put (glyph_lines out.now l) at result text.old text.new }
{
    let points = wide(l.points);
    let mut next = at;
    for i in 0..points {
        next = put_point(out, l, i, text, next);
    }
    next
}

// What the replay of a record prints, at the front of `text`, and how many bytes it has.
pub fn print(rules: Rules, bytes: &[u8], text: &mut [u8; TEXT_ROOM]) -> usize
    ensures value { result ≡ length (print_of rules bytes.now) }
    ensures front { Front result text.new }
    ensures text_after { text.new ≡ print_of rules bytes.now ++ drop result text.old }
{
    let mut out = [0u8; RECORD_ROOM];
    let said = replay_within(rules, RECORD_ROOM, bytes, &mut out);
    let next = put_answer(said, text);
    put_points(&out, said.layout, text, next)
}
