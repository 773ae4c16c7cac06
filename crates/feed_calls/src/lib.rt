// A piece of a sheet fed, and a feed ended, by slices and numbers alone: what a caller keeps of a feed is the state's words, five numbers and the carry.
//
// `feed_call` and `feed_end_call` answer for every input, and what they return and leave in each list is one equation with specs/Feed.antt. The piece is fed from
// a place in it on. They are what the reader (crate feed_reader) and C (crate exports) have in common. specs/Left.antt is what a call leaves that has a
// state's words: a run's has the same parts.
#![tactic(auto)]

ghost use Rattle.std.specs.Prelude.{◌≡◌, drop};
ghost use Rattle.feed_carry.specs.Carry.{detail_of_said, number_of_said};
ghost use Rattle.graphics.specs.declared.GraphicsState.{GraphicsState};
ghost use Rattle.line.specs.World.{fixed, world};
ghost use Rattle.rules.specs.Rules.{by_number};
ghost use Rattle.rules.specs.declared.Rules.{Rules};
ghost use Rattle.feed_calls.specs.Left.{bad_word, left};
ghost use Rattle.feed_calls.specs.Feed.{carried, fed_of, fed_words, feed_call_of, feed_end_call_of, is_open_feed, kept, refused_feed, said_before, told};

use answer::Says;
use feed_carry::{Fed, Said};
use graphics::GraphicsState;
use rules::by_number;
use state_words::{is_state, read_state, write_state};

// A word out of its range.
const BAD_WORD: u32 = 16;

// What is kept of a feed: number, place, lines and detail, and how many words of the carry wait.
const FEED_WORDS: usize = 5;

// The number of a feed that can go on.
const OPEN: u64 = 1;

// The last number that a call says.
const LAST: u64 = 18;

// Word k of what is kept, 0 outside.
fn kept_word(numbers: &[u64], k: usize) -> u64
    ensures { result ≡ kept numbers.now k }
{
    if k < numbers.len() { numbers[k] } else { 0 }
}

fn is_open(numbers: &[u64]) -> bool
    ensures { result ≡ is_open_feed numbers.now }
{
    (numbers.len() == FEED_WORDS) & (kept_word(numbers, 0) == OPEN)
}

// What a feed said that cannot go on; 16 where no call leaves such words.
fn said_before(numbers: &[u64]) -> u32
    ensures { result ≡ said_before numbers.now }
{
    if numbers.len() != FEED_WORDS {
        return BAD_WORD;
    }
    let number = kept_word(numbers, 0);
    if LAST < number {
        return BAD_WORD;
    }
    number as u32
}

// The feed that words stand for.
fn fed_of(s: GraphicsState, numbers: &[u64]) -> Fed
    ensures { result ≡ fed_of s numbers.now }
{
    Fed {
        said: Said::Open,
        base: kept_word(numbers, 1) as usize,
        held: kept_word(numbers, 4) as usize,
        lines: kept_word(numbers, 2),
        state: s,
    }
}

fn write_feed(number: u32, place: usize, lines: u64, detail: u64, held: usize, numbers: &mut [u64])
    ensures { numbers.new ≡ fed_words number place lines detail held numbers.old }
{
    if numbers.len() == FEED_WORDS {
        numbers[0] = number as u64;
        numbers[1] = place as u64;
        numbers[2] = lines;
        numbers[3] = detail;
        numbers[4] = held as u64;
    }
}

fn refuse_feed(numbers: &mut [u64]) -> u32
    ensures value { result ≡ bad_word }
    ensures numbers_after { numbers.new ≡ refused_feed numbers.old }
{
    let place = kept_word(numbers, 1) as usize;
    write_feed(BAD_WORD, place, 0, 0, 0, numbers);
    BAD_WORD
}

// What a feed says, in what is kept of it and as its number.
fn say_fed(fed: Fed, numbers: &mut [u64]) -> u32
    ensures value { result ≡ number_of_said fed.said }
    ensures numbers_after { numbers.new ≡ fed_words (number_of_said fed.said) fed.base fed.lines (detail_of_said fed.said) fed.held numbers.old }
{
    let said = fed.said;
    let number = said.number();
    write_feed(
        number,
        fed.base,
        fed.lines,
        said.detail(),
        fed.held,
        numbers,
    );
    number
}

// The words of a piece from a place on. The number is returned, and stands first in what is kept.
pub fn feed_call(
    at: usize,
    rules: u32,
    piece: &[i32],
    state: &mut [u32],
    carry: &mut [i32],
    controls: &[i32],
    gux: &[i32],
    guy: &[i32],
    gox: &[i32],
    goy: &[i32],
    gx: &mut [i32],
    gy: &mut [i32],
    gflags: &mut [u8],
    contours: &[u16],
    tox: &mut [i32],
    toy: &mut [i32],
    tx: &mut [i32],
    ty: &mut [i32],
    tflags: &mut [u8],
    numbers: &mut [u64],
) -> u32
    ensures { carried carry.new (left result state.new numbers.new gx.new gy.new gflags.new tox.new toy.new tx.new ty.new tflags.new) ≡ feed_call_of (λ (by : Rules). fixed by controls.now gux.now guy.now gox.now goy.now contours.now) (drop at piece.now) state.old numbers.old carry.old gx.old gy.old gflags.old tox.old toy.old tx.old ty.old tflags.old (by_number rules) }
{
    if !is_open(numbers) {
        return said_before(numbers);
    }
    let named = by_number(rules);
    match named {
        None => refuse_feed(numbers),
        Some(by) => {
            if !is_state(state) {
                return refuse_feed(numbers);
            }
            let s = read_state(state);
            let c = fed_of(s, numbers);
            let fed = feed::feed(
                at, c, by, piece, carry, controls, gux, guy, gox, goy, gx, gy, gflags, contours,
                tox, toy, tx, ty, tflags,
            );
            write_state(fed.state, state);
            say_fed(fed, numbers)
        }
    }
}

// The last call of a feed, which has no words: the rules don't matter, and nothing changes but what is kept.
pub fn feed_end_call(
    state: &[u32],
    carry: &[i32],
    controls: &[i32],
    gux: &[i32],
    guy: &[i32],
    gox: &[i32],
    goy: &[i32],
    gx: &[i32],
    gy: &[i32],
    gflags: &[u8],
    contours: &[u16],
    tox: &[i32],
    toy: &[i32],
    tx: &[i32],
    ty: &[i32],
    tflags: &[u8],
    numbers: &mut [u64],
) -> u32
    ensures { (by : Rules) → told result numbers.new ≡ feed_end_call_of (fixed by controls.now gux.now guy.now gox.now goy.now contours.now) state.now numbers.old carry.now (λ (s : GraphicsState). world s gx.now gy.now gflags.now tox.now toy.now tx.now ty.now tflags.now) }
{
    if !is_open(numbers) {
        return said_before(numbers);
    }
    if !is_state(state) {
        return refuse_feed(numbers);
    }
    let s = read_state(state);
    let c = fed_of(s, numbers);
    let fed = feed::end(
        c, carry, controls, gux, guy, gox, goy, gx, gy, gflags, contours, tox, toy, tx, ty, tflags,
    );
    say_fed(fed, numbers)
}
