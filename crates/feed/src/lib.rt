// Sheets that arrive in pieces.
//
// `feed` takes words in any number, a line may be split anywhere, and `end` says that no more come. Both answer for every input: what they say, what is
// kept for the next call, and what every list holds afterwards are one equation with `feed_of` and `end_of` of specs/Feed.antt, which take the words one by
// one. Lines that are whole are run off the piece itself; only the words of an unfinished one are copied to the carry, which the caller lends.
//
//     let mut carry = [0i32; 4098];
//     let mut c = begin(GraphicsState::fresh());
//     c = feed(0, c, rules, &piece, &mut carry, &controls, ...);   // for each piece: c.said.number() is 1 while the feed can go on
//     c = end(c, &carry, &controls, ...);                          // 0, or a refusal
//
// `c.base` is the place of the next line, the unfinished or the refused one, counted from the feed's first word, and `c.lines` how many lines were
// finished in this call. After a refusal or the end every call says the same and changes nothing.
#![tactic(auto)]

ghost use Rattle.std.specs.Prelude.{true, [], ◌≡◌, ◌+◌, ◌≤◌, drop, length};
ghost use Rattle.feed_carry.specs.Carry.{carry_has_room};
ghost use Rattle.feed_carry.specs.Steps.{kept};
ghost use Rattle.feed_look.specs.Look.{most_line};
ghost use Rattle.limits.specs.Limits.{most_words};
ghost use Rattle.line.specs.World.{Sound, fixed, world};
ghost use Rattle.rules.specs.declared.Rules.{Rules};
ghost use Rattle.feed.specs.Feed.{begun, end_of, fed_all, feed_of, going, handed, left};
ghost use Rattle.feed_look.specs.Steps.{whole_at};
ghost use Rattle.feed.specs.Steps.{Runs, ran_by, refusal_by};

use answer::Refusal;
use contour_ends::ends_rise;
use feed_carry::{Begins, Fed, Said, first, has_room, rest, stopped};
use feed_look::{LINE, lines_ahead, look, words_of};
use graphics::GraphicsState;
use line::sizes_fit;
use replay::enter;
use rules::Rules;
use run_lines::{Answer, Outcome, onward};

// How many lines a run may do: those that are whole. Among no more words than the longest line has none is too long to wait for, so that there is
// nothing to count: the run itself stops at the first line that isn't whole.
fn lines_to_run(sheet: &[i32], at: usize) -> u64
    requires { at ≤ length sheet.now }
    ensures { Runs sheet.now at result }
{
    if sheet.len() - at <= LINE {
        return LINE as u64;
    }
    let ahead = lines_ahead(sheet, at);
    ahead.lines
}

// A refusal is one of a whole line. Where no whole line stands the words that are there say what they are.
fn refusal_of(answer: Answer, whole: usize) -> Result<(), Refusal>
    ensures { result ≡ refusal_by answer whole }
{
    match answer {
        Answer::Refused(why) => { if 0 < whole { Err(why) } else { Ok(()) } }
        Answer::Finished => Ok(()),
        Answer::OutOfBudget => Ok(()),
    }
}

// After a run of the whole lines of a sheet: its refusal, or the words behind them.
fn after_run(origin: usize, lines: u64, out: Outcome, sheet: &[i32], carry: &mut [i32]) -> Fed
    requires sheet_bound { origin + length sheet.now ≤ most_words }
    requires place_in_bounds { out.place ≤ length sheet.now }
    requires lines_bound { lines + out.lines ≤ most_words + most_words }
    requires most_line_in_bounds { most_line ≤ length carry.old }
    ensures { kept result carry.new ≡ ran_by origin out.place lines out.lines out.state sheet.now carry.old (refusal_by out.answer (whole_at sheet.now out.place)) }
{
    let answer = out.answer;
    let place = out.place;
    let finished = lines + out.lines;
    let state = out.state;
    let words = &sheet[place..];
    let seen = look(words);
    let call = refusal_of(answer, words_of(seen));
    match call {
        Err(why) => stopped(Said::Refused(why), origin + place, finished, state),
        Ok(()) => rest(origin + place, 0, finished, state, words, carry, seen),
    }
}

// ---- the lines
// The words of a sheet from a place on, where no word waits. The sheet's first word is the feed's at `origin`.
fn off(
    at: usize,
    origin: usize,
    lines: u64,
    s: GraphicsState,
    rules: Rules,
    sheet: &[i32],
    carry: &mut [i32],
    controls: &[i32],
    gux: &[i32],
    guy: &[i32],
    gox: &[i32],
    goy: &[i32],
    gx: &mut [i32],
    gy: &mut [i32],
    gflags: &mut [u8],
    contours: &[u16],
    tox: &mut [i32],
    toy: &mut [i32],
    tx: &mut [i32],
    ty: &mut [i32],
    tflags: &mut [u8],
) -> Fed
    requires sound { Sound (fixed rules controls.now gux.now guy.now gox.now goy.now contours.now) (world s gx.old gy.old gflags.old tox.old toy.old tx.old ty.old tflags.old) }
    requires at_in_bounds { at ≤ length sheet.now }
    requires sheet_bound { origin + length sheet.now ≤ most_words }
    requires lines_le_most_words { lines ≤ most_words }
    requires most_line_in_bounds { most_line ≤ length carry.old }
    ensures tflags_after { left result carry.new gx.new gy.new gflags.new tox.new toy.new tx.new ty.new tflags.new ≡ handed carry.old (fed_all (fixed rules controls.now gux.now guy.now gox.now goy.now contours.now) (going (origin + at) lines [] (world s gx.old gy.old gflags.old tox.old toy.old tx.old ty.old tflags.old)) (drop at sheet.now)) }
    ensures lines_bound { result.lines ≤ lines + length sheet.now }
{
    let budget = lines_to_run(sheet, at);
    let out = onward(
        at, budget, s, rules, sheet, controls, gux, guy, gox, goy, gx, gy, gflags, contours, tox,
        toy, tx, ty, tflags,
    );
    after_run(origin, lines, out, sheet, carry)
}

// The words of a piece, after the tests: first what ends the unfinished line, then the piece itself.
fn take_in(
    c: Fed,
    rules: Rules,
    words: &[i32],
    carry: &mut [i32],
    controls: &[i32],
    gux: &[i32],
    guy: &[i32],
    gox: &[i32],
    goy: &[i32],
    gx: &mut [i32],
    gy: &mut [i32],
    gflags: &mut [u8],
    contours: &[u16],
    tox: &mut [i32],
    toy: &mut [i32],
    tx: &mut [i32],
    ty: &mut [i32],
    tflags: &mut [u8],
) -> Fed
    requires sound { Sound (fixed rules controls.now gux.now guy.now gox.now goy.now contours.now) (world c.state gx.old gy.old gflags.old tox.old toy.old tx.old ty.old tflags.old) }
    requires carry_value { carry_has_room c.base c.held (length words.now) carry.old ≡ true }
    ensures { left result carry.new gx.new gy.new gflags.new tox.new toy.new tx.new ty.new tflags.new ≡ handed carry.old (fed_all (fixed rules controls.now gux.now guy.now gox.now goy.now contours.now) (begun c carry.old (world c.state gx.old gy.old gflags.old tox.old toy.old tx.old ty.old tflags.old)) words.now) }
{
    let mut line = [0i32; LINE];
    let begins = first(c, words, carry, &mut line);
    match begins {
        Begins::Settled(r) => r,
        Begins::Run(k) => {
            let d = off(
                0,
                c.base,
                0,
                c.state,
                rules,
                &line[..k],
                carry,
                controls,
                gux,
                guy,
                gox,
                goy,
                gx,
                gy,
                gflags,
                contours,
                tox,
                toy,
                tx,
                ty,
                tflags,
            );
            let said = d.said;
            if !said.is_open() {
                return d;
            }
            off(
                k - c.held,
                c.base + c.held,
                d.lines,
                d.state,
                rules,
                words,
                carry,
                controls,
                gux,
                guy,
                gox,
                goy,
                gx,
                gy,
                gflags,
                contours,
                tox,
                toy,
                tx,
                ty,
                tflags,
            )
        }
    }
}

// ---- the calls
// A place of a piece, or its end.
fn place_in(at: usize, words: usize) -> usize
    ensures { (result ≤ words) × ((at ≤ words → result ≡ at) × (words ≤ at → result ≡ words)) }
{
    if at < words { at } else { words }
}

// The words of a piece from a place on. Sizes (2), contour ends (14) and state (3) are tested first, at each call.
pub fn feed(
    at: usize,
    c: Fed,
    rules: Rules,
    piece: &[i32],
    carry: &mut [i32],
    controls: &[i32],
    gux: &[i32],
    guy: &[i32],
    gox: &[i32],
    goy: &[i32],
    gx: &mut [i32],
    gy: &mut [i32],
    gflags: &mut [u8],
    contours: &[u16],
    tox: &mut [i32],
    toy: &mut [i32],
    tx: &mut [i32],
    ty: &mut [i32],
    tflags: &mut [u8],
) -> Fed
    ensures { left result carry.new gx.new gy.new gflags.new tox.new toy.new tx.new ty.new tflags.new ≡ feed_of (fixed rules controls.now gux.now guy.now gox.now goy.now contours.now) c carry.old (drop at piece.now) (world c.state gx.old gy.old gflags.old tox.old toy.old tx.old ty.old tflags.old) }
{
    let said = c.said;
    if !said.is_open() {
        return c;
    }
    let start = place_in(at, piece.len());
    let words = &piece[start..];
    let sized = sizes_fit(
        words, controls, gux, guy, gox, goy, gx, gy, gflags, contours, tox, toy, tx, ty, tflags,
    );
    let room = has_room(c.base, c.held, words.len(), carry);
    let rising = ends_rise(contours, gx.len());
    let begun = enter(sized & room, rising, c.state.is_usable(), true);
    match begun {
        Err(why) => stopped(Said::Refused(why), c.base, 0, c.state),
        Ok(()) => take_in(
            c, rules, words, carry, controls, gux, guy, gox, goy, gx, gy, gflags, contours, tox,
            toy, tx, ty, tflags,
        ),
    }
}

// The last call, which has no words: an unfinished line is refused (4). The tests are those of each call.
pub fn end(
    c: Fed,
    carry: &[i32],
    controls: &[i32],
    gux: &[i32],
    guy: &[i32],
    gox: &[i32],
    goy: &[i32],
    gx: &[i32],
    gy: &[i32],
    gflags: &[u8],
    contours: &[u16],
    tox: &[i32],
    toy: &[i32],
    tx: &[i32],
    ty: &[i32],
    tflags: &[u8],
) -> Fed
    ensures { (rules : Rules) → left result carry.now gx.now gy.now gflags.now tox.now toy.now tx.now ty.now tflags.now ≡ end_of (fixed rules controls.now gux.now guy.now gox.now goy.now contours.now) c carry.now (world c.state gx.now gy.now gflags.now tox.now toy.now tx.now ty.now tflags.now) }
{
    let said = c.said;
    if !said.is_open() {
        return c;
    }
    let none: [i32; 0] = [];
    let sized = sizes_fit(
        &none, controls, gux, guy, gox, goy, gx, gy, gflags, contours, tox, toy, tx, ty, tflags,
    );
    let room = has_room(c.base, c.held, 0, carry);
    let rising = ends_rise(contours, gx.len());
    let begun = enter(sized & room, rising, c.state.is_usable(), true);
    match begun {
        Err(why) => stopped(Said::Refused(why), c.base, 0, c.state),
        Ok(()) => {
            if c.held == 0 {
                stopped(Said::Ended, c.base, 0, c.state)
            } else {
                stopped(Said::Refused(Refusal::Line), c.base, 0, c.state)
            }
        }
    }
}
