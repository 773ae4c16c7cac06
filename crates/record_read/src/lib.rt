// The record on the shelf, editions 1, 2 and 3: document 02, K4, K5 and K7. A record is little-endian words: the state, the lists, and a trailer of eight words that is
// read from the end.
//
// `open` says for every byte string whether it is a record and how its lists lie, or why it is refused: one equation with `open_of` of
// specs/Read.antt. Its lists are read by the crate words at the places of the crate record_layout. Nothing is read before `open` found it whole,
// though every function answers for every input.
#![tactic(auto)]

ghost use Rattle.std.specs.Prelude.{◌+◌, ◌-◌, ◌*◌, eqb, length, ◌≡◌};
ghost use Rattle.state_words.specs.Words.{state_size, state_of, is_state};
ghost use Rattle.words.specs.Lists.{all_at_most};
ghost use Rattle.record_layout.specs.Order.{trailer_size, list_in, at_trailer};
ghost use Rattle.record_read.specs.Format.{layout};
ghost use Rattle.record_read.specs.Read.{word_count, trailer_word, layout_of, length_fits, counts_fit, trailer_fits, framed, words_fit, sum_fits, open_of, damage_number, kept_by, kept_in, state_in};

use graphics::GraphicsState;
use limits::{contours_fit, control_values_fit, points_fit, words_fit};
use record_layout::{
    ENDS, FLAGS, Layout, MOST_BYTES, MOST_END, MOST_FLAG, TRAILER_WORDS, TWILIGHT_FLAGS,
    at_trailer, count, place, wide,
};
use state_words::{STATE_WORDS, is_state, read_state, write_state};
use words::{all_at_most, load, sum, word};

// Why a byte string is refused.
#[derive(Clone, Copy)]
pub enum Damage {
    // Above 24 KiB.
    TooLong,
    // A length, a trailer or a word out of its range.
    Form,
    // Another sum than the trailer's.
    Sum,
}

impl Damage {
    pub fn number(self) -> u32
        ensures { result ≡ damage_number self }
    {
        match self {
            Damage::TooLong => 17,
            Damage::Form => 16,
            Damage::Sum => 15,
        }
    }
}

// ---- the trailer, read from the end
fn word_count(bytes: &[u8]) -> usize
    ensures { result ≡ word_count bytes.now }
{
    bytes.len() / 4
}

// a less b, or 0.
fn less(a: usize, b: usize) -> usize
    ensures { result ≡ a - b }
{
    if a < b { 0 } else { a - b }
}

fn trailer_word(bytes: &[u8], k: usize) -> u32
    ensures { result ≡ trailer_word bytes.now k }
{
    word(bytes, less(word_count(bytes), TRAILER_WORDS), k)
}

// How many words of the state an edition keeps; none of one that there isn't.
fn kept_by(edition: u32) -> u32
    ensures { result ≡ kept_by edition }
{
    match edition {
        1 => 26,
        2 => 27,
        3 => 34,
        _ => 0,
    }
}

// How many a record keeps.
fn kept_in(bytes: &[u8]) -> u32
    ensures { result ≡ kept_in bytes.now }
{
    kept_by(trailer_word(bytes, 5))
}

// The layout of the newest edition with these counts.
pub fn lay_out(points: u32, contours: u32, twilight: u32, controls: u32, words: u32) -> Layout
    ensures { result ≡ layout state_size points contours twilight controls words }
{
    Layout {
        state: STATE_WORDS as u32,
        points,
        contours,
        twilight,
        controls,
        words,
    }
}

fn layout_of(bytes: &[u8]) -> Layout
    ensures { result ≡ layout_of bytes.now }
{
    let points = trailer_word(bytes, 0);
    let contours = trailer_word(bytes, 1);
    let twilight = trailer_word(bytes, 2);
    let controls = trailer_word(bytes, 3);
    let words = trailer_word(bytes, 4);
    let state = kept_in(bytes);
    Layout {
        state,
        points,
        contours,
        twilight,
        controls,
        words,
    }
}

// ---- what is refused with 16
fn length_fits(bytes: &[u8]) -> bool
    ensures { result ≡ length_fits bytes.now }
{
    (bytes.len() % 4 == 0) & (TRAILER_WORDS <= word_count(bytes))
}

fn counts_fit(l: Layout) -> bool
    ensures { result ≡ counts_fit l }
{
    points_fit(wide(l.points))
        & contours_fit(wide(l.contours))
        & points_fit(wide(l.twilight))
        & control_values_fit(wide(l.controls))
        & words_fit(wide(l.words))
}

fn adds_up(bytes: &[u8], l: Layout) -> bool
    ensures { result ≡ eqb (at_trailer l + trailer_size) (word_count bytes.now) }
{
    at_trailer(l) + TRAILER_WORDS == word_count(bytes)
}

fn leads_back(bytes: &[u8], l: Layout) -> bool
    ensures { result ≡ eqb (trailer_word bytes.now 6) (at_trailer l * 4) }
{
    wide(trailer_word(bytes, 6)) == at_trailer(l) * 4
}

fn trailer_fits(bytes: &[u8], l: Layout) -> bool
    ensures { result ≡ trailer_fits bytes.now l }
{
    adds_up(bytes, l) & (0 < l.state) & leads_back(bytes, l)
}

fn is_framed(bytes: &[u8]) -> bool
    ensures { result ≡ framed bytes.now }
{
    let l = layout_of(bytes);
    length_fits(bytes) & counts_fit(l) & trailer_fits(bytes, l)
}

// The words of the state: what an older edition hasn't is as in the fresh state.
fn load_state_words(bytes: &[u8], words: &mut [u32])
    requires { length words.old ≡ state_size }
    ensures { words.new ≡ state_in bytes.now }
{
    write_state(GraphicsState::fresh(), words);
    let kept = wide(kept_in(bytes));
    load(bytes, 0, &mut words[..kept]);
}

fn state_fits(bytes: &[u8]) -> bool
    ensures { result ≡ is_state (state_in bytes.now) }
{
    let mut words = [0u32; STATE_WORDS];
    load_state_words(bytes, &mut words);
    is_state(&words)
}

fn list_at_most(bytes: &[u8], l: Layout, k: usize, most: u32) -> bool
    ensures { result ≡ all_at_most most (list_in bytes.now l k) }
{
    all_at_most(bytes, place(l, k), wide(count(l, k)), most)
}

fn words_fit_layout(bytes: &[u8], l: Layout) -> bool
    ensures { result ≡ words_fit bytes.now l }
{
    state_fits(bytes)
        & list_at_most(bytes, l, FLAGS, MOST_FLAG)
        & list_at_most(bytes, l, ENDS, MOST_END)
        & list_at_most(bytes, l, TWILIGHT_FLAGS, MOST_FLAG)
}

// ---- what is refused with 15
fn sum_fits(bytes: &[u8]) -> bool
    ensures { result ≡ sum_fits bytes.now }
{
    sum(bytes, less(word_count(bytes), 1)) == trailer_word(bytes, 7)
}

// ---- reading
// Counts are tested before any list is walked, so that a damaged count costs nothing.
pub fn open(bytes: &[u8]) -> Result<Layout, Damage>
    ensures { result ≡ open_of bytes.now }
{
    if bytes.len() > MOST_BYTES {
        return Err(Damage::TooLong);
    }
    if !is_framed(bytes) {
        return Err(Damage::Form);
    }
    let l = layout_of(bytes);
    if !words_fit_layout(bytes, l) {
        return Err(Damage::Form);
    }
    if !sum_fits(bytes) {
        return Err(Damage::Sum);
    }
    Ok(l)
}

// The state of a record.
pub fn load_state(bytes: &[u8]) -> GraphicsState
    ensures { result ≡ state_of (state_in bytes.now) }
{
    let mut words = [0u32; STATE_WORDS];
    load_state_words(bytes, &mut words);
    read_state(&words)
}
