// A sheet that arrives on standard input by the block, fed to lists that a record was loaded to.
//
// `feed_arriving` reads and feeds until the input ends or the feed is refused, and leaves the record as it then stands at the front of `out`. For the
// blocks that were read, which no contract of the system tells, what is said and left is one equation with `fed_shelf` of specs/Arriving.antt.
//
// This serves the crate feed_record and is no call for users.
#![tactic(auto)]

ghost use Rattle.std.specs.Prelude.{false, ◌&&◌, ◌≡◌, ℕ, ◌≤◌, List, ltb, length, take};
ghost use Rattle.rules.specs.declared.Rules.{Rules};
ghost use Rattle.rules.specs.declared.Rules.TheVariants.{FreeType};
ghost use Rattle.line.specs.World.{fixed, under, world};
ghost use Rattle.feed_carry.specs.Carry.{said_is_open};
ghost use Rattle.feed.specs.Feed.{end_of, left};
ghost use Rattle.record_read.specs.Format.{held};
ghost use Rattle.record_run.specs.After.{shelved};
ghost use Rattle.feed_arriving.specs.Arriving.{FedShelf, end_arrived, ended_as};
ghost use Rattle.feed_arriving.specs.Steps.{arrived_by, said_by};

use answer::Says;
use feed::{end, feed};
use feed_blocks::{Next, next_words};
use feed_carry::{Fed, Said, begin};
use graphics::GraphicsState;
use record_layout::Layout;
use record_replay::refuse;
use record_run::Replayed;
use record_write::write;
use rules::Rules;
use std::io::Stdin;

// What is said at the end, and whether the input could not be read to its end: then nothing else is promised.
#[derive(Clone, Copy)]
pub struct Told {
    pub said: Replayed,
    pub failed: bool,
}

fn say(l: Layout, lines: u64, e: Fed, size: usize) -> Replayed
    ensures { result ≡ said_by l lines e size }
{
    let said = e.said;
    Replayed {
        number: said.number(),
        place: e.base,
        lines,
        detail: said.detail(),
        size,
        layout: l,
    }
}

// The end of the feed, and the record as it then stands, without a sheet.
fn end_and_write(
    most: usize,
    l: Layout,
    lines: u64,
    c: Fed,
    carry: &[i32],
    controls: &[i32],
    gux: &[i32],
    guy: &[i32],
    gox: &[i32],
    goy: &[i32],
    gx: &[i32],
    gy: &[i32],
    gflags: &[u8],
    contours: &[u16],
    tox: &[i32],
    toy: &[i32],
    tx: &[i32],
    ty: &[i32],
    tflags: &[u8],
    out: &mut [u8],
) -> Replayed
    ensures { (rules : Rules) → shelved result out.new ≡ ended_as l (fixed FreeType controls.now gux.now guy.now gox.now goy.now contours.now) most lines (end_of (under rules (fixed FreeType controls.now gux.now guy.now gox.now goy.now contours.now)) c carry.now (world c.state gx.now gy.now gflags.now tox.now toy.now tx.now ty.now tflags.now)) out.old }
{
    let e = end(
        c, carry, controls, gux, guy, gox, goy, gx, gy, gflags, contours, tox, toy, tx, ty, tflags,
    );
    let none: [i32; 0] = [];
    let size = write(
        most, e.state, &none, controls, gux, guy, gox, goy, gx, gy, gflags, contours, tox, toy, tx,
        ty, tflags, out,
    );
    say(l, lines, e, size)
}

// Whether the input ended within a word, and not after a refusal.
fn is_cut(said: Said, begun: usize) -> bool
    ensures { result ≡ (said_is_open said && ltb 0 begun) }
{
    said.is_open() & (0 < begun)
}

// The same, or a refusal where the input ended within a word: so many bytes of it are there.
fn finish(
    most: usize,
    l: Layout,
    lines: u64,
    begun: usize,
    c: Fed,
    carry: &[i32],
    controls: &[i32],
    gux: &[i32],
    guy: &[i32],
    gox: &[i32],
    goy: &[i32],
    gx: &[i32],
    gy: &[i32],
    gflags: &[u8],
    contours: &[u16],
    tox: &[i32],
    toy: &[i32],
    tx: &[i32],
    ty: &[i32],
    tflags: &[u8],
    out: &mut [u8],
) -> Replayed
    ensures { (rules : Rules) → (bytes : List ℕ) → begun ≡ length bytes → shelved result out.new ≡ end_arrived rules most l (fixed FreeType controls.now gux.now guy.now gox.now goy.now contours.now) out.old (arrived_by bytes lines (left c carry.now gx.now gy.now gflags.now tox.now toy.now tx.now ty.now tflags.now)) }
{
    let said = c.said;
    if is_cut(said, begun) {
        return refuse(16);
    }
    end_and_write(
        most, l, lines, c, carry, controls, gux, guy, gox, goy, gx, gy, gflags, contours, tox, toy,
        tx, ty, tflags, out,
    )
}

// Whether the input was left before its end.
fn is_unread(next: Next) -> bool
    ensures { result ≡ false → next.more ≡ false }
{
    if next.more {
        return true;
    }
    next.failed
}

// A proved loop has to end, and nothing says that the input does: the blocks' count is of 64 bits, and no input has so many of them. The first `first`
// words of `words` are the first piece.
pub fn feed_arriving(
    stdin: Stdin,
    rules: Rules,
    most: usize,
    l: Layout,
    s: GraphicsState,
    first: usize,
    block: &mut [u8],
    words: &mut [i32],
    carry: &mut [i32],
    controls: &[i32],
    gux: &[i32],
    guy: &[i32],
    gox: &[i32],
    goy: &[i32],
    gx: &mut [i32],
    gy: &mut [i32],
    gflags: &mut [u8],
    contours: &[u16],
    tox: &mut [i32],
    toy: &mut [i32],
    tx: &mut [i32],
    ty: &mut [i32],
    tflags: &mut [u8],
    out: &mut [u8],
) -> Told
    requires first_bound { first ≤ 16384 }
    requires block_len { length block.old ≡ 65536 }
    requires words_len { length words.old ≡ 16384 }
    ensures { result.failed ≡ false → FedShelf rules most l (held (fixed FreeType controls.now gux.now guy.now gox.now goy.now contours.now) (take first words.old) (world s gx.old gy.old gflags.old tox.old toy.old tx.old ty.old tflags.old)) carry.old out.old (shelved result.said out.new) }
{
    let mut c = begin(s);
    let mut lines = 0u64;
    let mut next = Next {
        begun: 0,
        count: first,
        more: true,
        failed: false,
    };
    for _ in 0..u64::MAX {
        c = feed(
            0,
            c,
            rules,
            &words[..next.count],
            carry,
            controls,
            gux,
            guy,
            gox,
            goy,
            gx,
            gy,
            gflags,
            contours,
            tox,
            toy,
            tx,
            ty,
            tflags,
        );
        lines += c.lines;
        let said = c.said;
        next = next_words(stdin, said.is_open(), next.begun, block, words);
        if !next.more {
            break;
        }
    }
    let said = finish(
        most, l, lines, next.begun, c, carry, controls, gux, guy, gox, goy, gx, gy, gflags,
        contours, tox, toy, tx, ty, tflags, out,
    );
    Told {
        said,
        failed: is_unread(next),
    }
}
