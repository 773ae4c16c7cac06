// A reader that holds the piece of a sheet it was given and a place in it, in the form of document 01: few thin calls, each over a function on the slice and the
// place.
//
// `over` reads a piece from its first word on, `moved` goes to a place, `left` counts the words from there on, and `fed` feeds them: it is `feed_call` of the crate
// feed_calls. A struct that holds a slice can be passed on only by functions whose proofs are walks; `feed_from` is for all others: it takes a plain slice and a
// place, and is how the crate exports feeds a piece.
#![tactic(auto)]

ghost use Rattle.std.specs.Prelude.{◌≡◌, ◌-◌, drop, length};
ghost use Rattle.line.specs.World.{fixed};
ghost use Rattle.rules.specs.Rules.{by_number};
ghost use Rattle.rules.specs.declared.Rules.{Rules};
ghost use Rattle.feed_calls.specs.Feed.{carried, feed_call_of};
ghost use Rattle.feed_calls.specs.Left.{left as leaves};

use feed_calls::feed_call;

#[derive(Clone, Copy)]
pub struct Piece<'a> {
    pub words: &'a [i32],
    pub at: usize,
}

// A piece, from its first word on.
pub fn over<'a>(words: &'a [i32]) -> Piece<'a>
    ensures { (result.words ≡ words.entry) × (result.at ≡ 0) }
{
    Piece { words, at: 0 }
}

// The same piece, from another place on.
pub fn moved<'a>(p: Piece<'a>, at: usize) -> Piece<'a>
    ensures { (result.words ≡ p.entry.words) × (result.at ≡ at) }
{
    Piece { words: p.words, at }
}

fn left_at(words: &[i32], at: usize) -> usize
    ensures { result ≡ length words.now - at }
{
    if at < words.len() {
        words.len() - at
    } else {
        0
    }
}

// How many of its words are left.
pub fn left<'a>(p: Piece<'a>) -> usize
    ensures { result ≡ length p.entry.words.now - p.entry.at }
{
    left_at(p.words, p.at)
}

// The words that are left, fed.
pub fn fed<'a, 'b, 'c, 'd, 'e, 'f, 'g, 'h, 'i, 'j, 'k, 'l, 'm, 'n, 'o, 'p, 'q, 'r>(
    p: Piece<'a>,
    rules: u32,
    state: &'b mut [u32],
    carry: &'c mut [i32],
    controls: &'d [i32],
    gux: &'e [i32],
    guy: &'f [i32],
    gox: &'g [i32],
    goy: &'h [i32],
    gx: &'i mut [i32],
    gy: &'j mut [i32],
    gflags: &'k mut [u8],
    contours: &'l [u16],
    tox: &'m mut [i32],
    toy: &'n mut [i32],
    tx: &'o mut [i32],
    ty: &'p mut [i32],
    tflags: &'q mut [u8],
    numbers: &'r mut [u64],
) -> u32
    ensures { carried carry.new (leaves result state.new numbers.new gx.new gy.new gflags.new tox.new toy.new tx.new ty.new tflags.new) ≡ feed_call_of (λ (by : Rules). fixed by controls.now gux.now guy.now gox.now goy.now contours.now) (drop p.entry.at p.entry.words.now) state.old numbers.old carry.old gx.old gy.old gflags.old tox.old toy.old tx.old ty.old tflags.old (by_number rules) }
{
    feed_call(
        p.at, rules, p.words, state, carry, controls, gux, guy, gox, goy, gx, gy, gflags, contours,
        tox, toy, tx, ty, tflags, numbers,
    )
}

// The words of a slice from a place on, fed.
pub fn feed_from(
    words: &[i32],
    at: usize,
    rules: u32,
    state: &mut [u32],
    carry: &mut [i32],
    controls: &[i32],
    gux: &[i32],
    guy: &[i32],
    gox: &[i32],
    goy: &[i32],
    gx: &mut [i32],
    gy: &mut [i32],
    gflags: &mut [u8],
    contours: &[u16],
    tox: &mut [i32],
    toy: &mut [i32],
    tx: &mut [i32],
    ty: &mut [i32],
    tflags: &mut [u8],
    numbers: &mut [u64],
) -> u32
    ensures { carried carry.new (leaves result state.new numbers.new gx.new gy.new gflags.new tox.new toy.new tx.new ty.new tflags.new) ≡ feed_call_of (λ (by : Rules). fixed by controls.now gux.now guy.now gox.now goy.now contours.now) (drop at words.now) state.old numbers.old carry.old gx.old gy.old gflags.old tox.old toy.old tx.old ty.old tflags.old (by_number rules) }
{
    fed(
        moved(over(words), at),
        rules,
        state,
        carry,
        controls,
        gux,
        guy,
        gox,
        goy,
        gx,
        gy,
        gflags,
        contours,
        tox,
        toy,
        tx,
        ty,
        tflags,
        numbers,
    )
}
