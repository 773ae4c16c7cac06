// The record on the shelf, written: document 02, K4 and K5. It is of the newest edition.
//
// `write` leaves the record of what it is given, or leaves the bytes alone where that is none: one equation with `write_of` of
// specs/Written.antt. The parts are stored in the record's order, each over what the ones before it left.
#![tactic(auto)]

ghost use Rattle.std.specs.Prelude.{◌*◌, ◌%◌, ◌^◌, ◌<◌, ◌≡◌};
ghost use Rattle.record_layout.specs.Order.{at_trailer};
ghost use Rattle.state_words.specs.Words.{state_size};
ghost use Rattle.rules.specs.declared.Rules.TheVariants.{FreeType};
ghost use Rattle.line.specs.World.{fixed, world};
ghost use Rattle.record_read.specs.Format.{held, layout};
ghost use Rattle.record_write.specs.Written.{wrote, write_of};
ghost use Rattle.record_write.specs.Steps.{sum_place, with_record, with_state, with_counts, with_sum, with_trailer, with_sources, with_twilight, with_originals, with_currents};

use graphics::GraphicsState;
use line::sizes_fit;
use record_layout::{
    CONTROLS, CURRENT_X, CURRENT_Y, EDITION, ENDS, FLAGS, Layout, ORIGINAL_X, ORIGINAL_Y, SHEET,
    TWILIGHT_FLAGS, TWILIGHT_ORIGINAL_X, TWILIGHT_ORIGINAL_Y, TWILIGHT_X, TWILIGHT_Y, UNSCALED_X,
    UNSCALED_Y, at_trailer, place, record_size,
};
use record_read::lay_out;
use state_words::{STATE_WORDS, write_state};
use words::sum;

// The state of a record, over its first words.
fn store_state(s: GraphicsState, out: &mut [u8])
    ensures { out.new ≡ with_state s out.old }
{
    let mut words = [0u32; STATE_WORDS];
    write_state(s, &mut words);
    words::store(&words, 0, out);
}

fn store_sources(l: Layout, controls: &[i32], sheet: &[i32], out: &mut [u8])
    ensures { out.new ≡ with_sources l controls.now sheet.now out.old }
{
    words::store(controls, place(l, CONTROLS), out);
    words::store(sheet, place(l, SHEET), out);
}

fn store_twilight(
    l: Layout,
    ox: &[i32],
    oy: &[i32],
    x: &[i32],
    y: &[i32],
    flags: &[u8],
    out: &mut [u8],
)
    ensures { out.new ≡ with_twilight l ox.now oy.now x.now y.now flags.now out.old }
{
    words::store(ox, place(l, TWILIGHT_ORIGINAL_X), out);
    words::store(oy, place(l, TWILIGHT_ORIGINAL_Y), out);
    words::store(x, place(l, TWILIGHT_X), out);
    words::store(y, place(l, TWILIGHT_Y), out);
    words::store(flags, place(l, TWILIGHT_FLAGS), out);
}

fn store_originals(l: Layout, ux: &[i32], uy: &[i32], ox: &[i32], oy: &[i32], out: &mut [u8])
    ensures { out.new ≡ with_originals l ux.now uy.now ox.now oy.now out.old }
{
    words::store(ux, place(l, UNSCALED_X), out);
    words::store(uy, place(l, UNSCALED_Y), out);
    words::store(ox, place(l, ORIGINAL_X), out);
    words::store(oy, place(l, ORIGINAL_Y), out);
}

fn store_currents(l: Layout, x: &[i32], y: &[i32], flags: &[u8], ends: &[u16], out: &mut [u8])
    ensures { out.new ≡ with_currents l x.now y.now flags.now ends.now out.old }
{
    words::store(x, place(l, CURRENT_X), out);
    words::store(y, place(l, CURRENT_Y), out);
    words::store(flags, place(l, FLAGS), out);
    words::store(ends, place(l, ENDS), out);
}

// The bytes back from the trailer to the record's first.
fn way_back(l: Layout) -> u32
    ensures { result ≡ at_trailer l * 4 % 2 ^ 32 }
{
    (at_trailer(l) * 4 % 0x1_0000_0000) as u32
}

fn store_counts(l: Layout, out: &mut [u8])
    ensures { out.new ≡ with_counts l out.old }
{
    let back = way_back(l);
    let words = [
        l.points, l.contours, l.twilight, l.controls, l.words, EDITION, back,
    ];
    words::store(&words, at_trailer(l), out);
}

fn sum_place(l: Layout) -> usize
    ensures { result ≡ sum_place l }
{
    at_trailer(l) + 7
}

fn store_sum(l: Layout, out: &mut [u8])
    ensures { out.new ≡ with_sum l out.old }
{
    let at = sum_place(l);
    let words = [sum(out, at)];
    words::store(&words, at, out);
}

// The trailer, its sum last.
fn store_trailer(l: Layout, out: &mut [u8])
    ensures { out.new ≡ with_trailer l out.old }
{
    store_counts(l, out);
    store_sum(l, out);
}

// ---- a whole record
// The layout of lists with these lengths.
fn layout_for(
    points: usize,
    contours: usize,
    twilight: usize,
    controls: usize,
    words: usize,
) -> Layout
    requires points_bound { points < 2 ^ 32 }
    requires contours_bound { contours < 2 ^ 32 }
    requires twilight_bound { twilight < 2 ^ 32 }
    requires controls_bound { controls < 2 ^ 32 }
    requires words_bound { words < 2 ^ 32 }
    ensures { result ≡ layout state_size points contours twilight controls words }
{
    lay_out(
        points as u32,
        contours as u32,
        twilight as u32,
        controls as u32,
        words as u32,
    )
}

// The parts in their order, the trailer last.
fn store(
    l: Layout,
    s: GraphicsState,
    sheet: &[i32],
    controls: &[i32],
    gux: &[i32],
    guy: &[i32],
    gox: &[i32],
    goy: &[i32],
    gx: &[i32],
    gy: &[i32],
    gflags: &[u8],
    contours: &[u16],
    tox: &[i32],
    toy: &[i32],
    tx: &[i32],
    ty: &[i32],
    tflags: &[u8],
    out: &mut [u8],
)
    ensures { out.new ≡ with_record l (held (fixed FreeType controls.now gux.now guy.now gox.now goy.now contours.now) sheet.now (world s gx.now gy.now gflags.now tox.now toy.now tx.now ty.now tflags.now)) out.old }
{
    store_state(s, out);
    store_originals(l, gux, guy, gox, goy, out);
    store_currents(l, gx, gy, gflags, contours, out);
    store_twilight(l, tox, toy, tx, ty, tflags, out);
    store_sources(l, controls, sheet, out);
    store_trailer(l, out);
}

// The record of a state and lists, written to the front of the bytes; how many bytes it has, or 0 where nothing is written: the lists make no zones
// within the sizes, the record would have more than `most` bytes, or there is no room.
pub fn write(
    most: usize,
    s: GraphicsState,
    sheet: &[i32],
    controls: &[i32],
    gux: &[i32],
    guy: &[i32],
    gox: &[i32],
    goy: &[i32],
    gx: &[i32],
    gy: &[i32],
    gflags: &[u8],
    contours: &[u16],
    tox: &[i32],
    toy: &[i32],
    tx: &[i32],
    ty: &[i32],
    tflags: &[u8],
    out: &mut [u8],
) -> usize
    ensures { wrote result out.new ≡ write_of most (held (fixed FreeType controls.now gux.now guy.now gox.now goy.now contours.now) sheet.now (world s gx.now gy.now gflags.now tox.now toy.now tx.now ty.now tflags.now)) out.old }
{
    let sized = sizes_fit(
        sheet, controls, gux, guy, gox, goy, gx, gy, gflags, contours, tox, toy, tx, ty, tflags,
    );
    if !sized {
        return 0;
    }
    let l = layout_for(
        gx.len(),
        contours.len(),
        tx.len(),
        controls.len(),
        sheet.len(),
    );
    let size = record_size(l);
    if size > most {
        return 0;
    }
    if size > out.len() {
        return 0;
    }
    store(
        l, s, sheet, controls, gux, guy, gox, goy, gx, gy, gflags, contours, tox, toy, tx, ty,
        tflags, out,
    );
    size
}
