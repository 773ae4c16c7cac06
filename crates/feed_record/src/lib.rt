// A sheet that arrives on standard input by the block, fed to a record: document 02, K11.
//
// `feed_within` reads standard input until it ends or the feed is refused. What it says, and the record that it leaves at the front of `out`, are one
// equation with `fed_record` of specs/Fed.antt, for the blocks that were read. The record's own sheet is the first piece. A byte string that is no record
// is refused by its number, and nothing is read.
#![tactic(auto)]

ghost use Rattle.std.specs.Prelude.{false, ◌≡◌, ◌≤◌};
ghost use Rattle.line.specs.World.{fixed};
ghost use Rattle.rules.specs.declared.Rules.TheVariants.{FreeType};
ghost use Rattle.record_replay.specs.Steps.{list_room, point_room, twilight_room};
ghost use Rattle.record_read.specs.Format.{held};
ghost use Rattle.record_read.specs.Read.{held_in, numbers_in, world_in};
ghost use Rattle.record_run.specs.After.{shelved};
ghost use Rattle.feed_arriving.specs.Arriving.{FedShelf};
ghost use Rattle.feed_record.specs.Fed.{FedRecord, no_words};
ghost use Rattle.feed_record.specs.Steps.{bare};

use feed_arriving::{Told, feed_arriving};
use feed_blocks::{BLOCK_ROOM, WORDS_ROOM};
use feed_look::LINE;
use record_layout::{
    CONTROLS, CURRENT_X, CURRENT_Y, ENDS, FLAGS, Layout, ORIGINAL_X, ORIGINAL_Y, SHEET,
    TWILIGHT_FLAGS, TWILIGHT_ORIGINAL_X, TWILIGHT_ORIGINAL_Y, TWILIGHT_X, TWILIGHT_Y, UNSCALED_X,
    UNSCALED_Y, wide,
};
use record_load::{ends_in, flags_in, numbers_in};
use record_read::{lay_out, load_state, open};
use record_replay::{LIST_ROOM, POINT_ROOM, TWILIGHT_ROOM, refuse};
use record_run::Replayed;
use rules::Rules;
use std::io::Stdin;

// The layout of the newest edition, with the counts of another's and no sheet.
fn without_sheet(l: Layout) -> Layout
    ensures { result ≡ bare l }
{
    lay_out(l.points, l.contours, l.twilight, l.controls, 0)
}

// A feed over what lines only read; what they change is loaded here, and the first piece.
fn feed_over(
    stdin: Stdin,
    rules: Rules,
    most: usize,
    bytes: &[u8],
    l: Layout,
    controls: &[i32],
    gux: &[i32],
    guy: &[i32],
    gox: &[i32],
    goy: &[i32],
    contours: &[u16],
    out: &mut [u8],
) -> Told
    requires points_le_point_room { l.points ≤ point_room }
    requires twilight_le_twilight_room { l.twilight ≤ twilight_room }
    requires words_le_list_room { l.words ≤ list_room }
    ensures { result.failed ≡ false → FedShelf rules most (bare l) (held (fixed FreeType controls.now gux.now guy.now gox.now goy.now contours.now) (numbers_in bytes.now l 14) (world_in bytes.now l)) no_words out.old (shelved result.said out.new) }
{
    let n = wide(l.points);
    let m = wide(l.twilight);
    let mut gx = [0i32; POINT_ROOM];
    numbers_in(bytes, l, CURRENT_X, &mut gx);
    let mut gy = [0i32; POINT_ROOM];
    numbers_in(bytes, l, CURRENT_Y, &mut gy);
    let mut gflags = [0u8; POINT_ROOM];
    flags_in(bytes, l, FLAGS, &mut gflags);
    let mut tox = [0i32; TWILIGHT_ROOM];
    numbers_in(bytes, l, TWILIGHT_ORIGINAL_X, &mut tox);
    let mut toy = [0i32; TWILIGHT_ROOM];
    numbers_in(bytes, l, TWILIGHT_ORIGINAL_Y, &mut toy);
    let mut tx = [0i32; TWILIGHT_ROOM];
    numbers_in(bytes, l, TWILIGHT_X, &mut tx);
    let mut ty = [0i32; TWILIGHT_ROOM];
    numbers_in(bytes, l, TWILIGHT_Y, &mut ty);
    let mut tflags = [0u8; TWILIGHT_ROOM];
    flags_in(bytes, l, TWILIGHT_FLAGS, &mut tflags);
    let mut words = [0i32; WORDS_ROOM];
    numbers_in(bytes, l, SHEET, &mut words);
    let mut block = [0u8; BLOCK_ROOM];
    let mut carry = [0i32; LINE];
    let first = wide(l.words);
    let s = load_state(bytes);
    feed_arriving(
        stdin,
        rules,
        most,
        without_sheet(l),
        s,
        first,
        &mut block,
        &mut words,
        &mut carry,
        controls,
        gux,
        guy,
        gox,
        goy,
        &mut gx[..n],
        &mut gy[..n],
        &mut gflags[..n],
        contours,
        &mut tox[..m],
        &mut toy[..m],
        &mut tx[..m],
        &mut ty[..m],
        &mut tflags[..m],
        out,
    )
}

// A feed to a whole record; what lines only read is loaded here.
fn feed_whole(
    stdin: Stdin,
    rules: Rules,
    most: usize,
    bytes: &[u8],
    l: Layout,
    out: &mut [u8],
) -> Told
    requires points_le_point_room { l.points ≤ point_room }
    requires contours_le_list_room { l.contours ≤ list_room }
    requires twilight_le_twilight_room { l.twilight ≤ twilight_room }
    requires controls_le_list_room { l.controls ≤ list_room }
    requires words_le_list_room { l.words ≤ list_room }
    ensures { result.failed ≡ false → FedShelf rules most (bare l) (held_in bytes.now l) no_words out.old (shelved result.said out.new) }
{
    let values = wide(l.controls);
    let n = wide(l.points);
    let ends = wide(l.contours);
    let mut controls = [0i32; LIST_ROOM];
    numbers_in(bytes, l, CONTROLS, &mut controls);
    let mut gux = [0i32; POINT_ROOM];
    numbers_in(bytes, l, UNSCALED_X, &mut gux);
    let mut guy = [0i32; POINT_ROOM];
    numbers_in(bytes, l, UNSCALED_Y, &mut guy);
    let mut gox = [0i32; POINT_ROOM];
    numbers_in(bytes, l, ORIGINAL_X, &mut gox);
    let mut goy = [0i32; POINT_ROOM];
    numbers_in(bytes, l, ORIGINAL_Y, &mut goy);
    let mut contours = [0u16; LIST_ROOM];
    ends_in(bytes, l, ENDS, &mut contours);
    feed_over(
        stdin,
        rules,
        most,
        bytes,
        l,
        &controls[..values],
        &gux[..n],
        &guy[..n],
        &gox[..n],
        &goy[..n],
        &contours[..ends],
        out,
    )
}

fn told(said: Replayed) -> Told
    ensures { result.said ≡ said }
{
    Told {
        said,
        failed: false,
    }
}

// A record fed from standard input: the answer, and the record as it then stands at the front of `out`, without a sheet, where it has at most `most`
// bytes and there is room for it.
pub fn feed_within(stdin: Stdin, rules: Rules, most: usize, bytes: &[u8], out: &mut [u8]) -> Told
    ensures { result.failed ≡ false → FedRecord rules most bytes.now out.old (shelved result.said out.new) }
{
    let opened = open(bytes);
    match opened {
        Err(why) => told(refuse(why.number())),
        Ok(l) => feed_whole(stdin, rules, most, bytes, l, out),
    }
}
