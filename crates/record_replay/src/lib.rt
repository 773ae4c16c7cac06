// A record replayed: document 02, K4 and K5. Both programs of the shelf are this one call.
//
// `replay` answers for every byte string: what it says, and the record that it leaves at the front of `out`, are one equation with `shelf_of` of
// specs/Shelf.antt. A byte string that is no record is refused by its number, and `out` stays as it was. `replay_within` is the same under another
// limit than 24 KiB, for whoever wants the points of a record that only an older edition keeps within it.
#![tactic(auto)]

ghost use Rattle.std.specs.Prelude.{◌≡◌, ◌≤◌};
ghost use Rattle.line.specs.World.{fixed};
ghost use Rattle.rules.specs.declared.Rules.TheVariants.{FreeType};
ghost use Rattle.record_replay.specs.Steps.{list_room, newest, point_room, twilight_room};
ghost use Rattle.record_read.specs.Format.{held};
ghost use Rattle.record_read.specs.Read.{world_in, held_in};
ghost use Rattle.record_run.specs.After.{shelved, shelved_for};
ghost use Rattle.record_replay.specs.Shelf.{refused_as, shelf_of, shelf_within};

use record_layout::{
    CONTROLS, CURRENT_X, CURRENT_Y, ENDS, FLAGS, Layout, MOST_BYTES, ORIGINAL_X, ORIGINAL_Y, SHEET,
    TWILIGHT_FLAGS, TWILIGHT_ORIGINAL_X, TWILIGHT_ORIGINAL_Y, TWILIGHT_X, TWILIGHT_Y, UNSCALED_X,
    UNSCALED_Y, wide,
};
use record_load::{ends_in, flags_in, numbers_in};
use record_read::{lay_out, load_state, open};
use record_run::{Replayed, run_and_write};
use rules::Rules;

// No list of a record is longer than the words between its state and its trailer; a glyph point takes seven of these words, a twilight point five.
pub const LIST_ROOM: usize = 6110;

pub const POINT_ROOM: usize = 872;

pub const TWILIGHT_ROOM: usize = 1222;

// The layout of the newest edition, with the counts of another's.
fn renew(l: Layout) -> Layout
    ensures { result ≡ newest l }
{
    lay_out(l.points, l.contours, l.twilight, l.controls, l.words)
}

// A replay over what lines only read; what they change is loaded here.
fn replay_over(
    rules: Rules,
    most: usize,
    bytes: &[u8],
    l: Layout,
    sheet: &[i32],
    controls: &[i32],
    gux: &[i32],
    guy: &[i32],
    gox: &[i32],
    goy: &[i32],
    contours: &[u16],
    out: &mut [u8],
) -> Replayed
    requires points_le_point_room { l.points ≤ point_room }
    requires twilight_le_twilight_room { l.twilight ≤ twilight_room }
    ensures { shelved result out.new ≡ shelved_for rules most (newest l) (held (fixed FreeType controls.now gux.now guy.now gox.now goy.now contours.now) sheet.now (world_in bytes.now l)) out.old }
{
    let n = wide(l.points);
    let m = wide(l.twilight);
    let mut gx = [0i32; POINT_ROOM];
    numbers_in(bytes, l, CURRENT_X, &mut gx);
    let mut gy = [0i32; POINT_ROOM];
    numbers_in(bytes, l, CURRENT_Y, &mut gy);
    let mut gflags = [0u8; POINT_ROOM];
    flags_in(bytes, l, FLAGS, &mut gflags);
    let mut tox = [0i32; TWILIGHT_ROOM];
    numbers_in(bytes, l, TWILIGHT_ORIGINAL_X, &mut tox);
    let mut toy = [0i32; TWILIGHT_ROOM];
    numbers_in(bytes, l, TWILIGHT_ORIGINAL_Y, &mut toy);
    let mut tx = [0i32; TWILIGHT_ROOM];
    numbers_in(bytes, l, TWILIGHT_X, &mut tx);
    let mut ty = [0i32; TWILIGHT_ROOM];
    numbers_in(bytes, l, TWILIGHT_Y, &mut ty);
    let mut tflags = [0u8; TWILIGHT_ROOM];
    flags_in(bytes, l, TWILIGHT_FLAGS, &mut tflags);
    let s = load_state(bytes);
    run_and_write(
        rules,
        most,
        renew(l),
        s,
        sheet,
        controls,
        gux,
        guy,
        gox,
        goy,
        contours,
        &mut gx[..n],
        &mut gy[..n],
        &mut gflags[..n],
        &mut tox[..m],
        &mut toy[..m],
        &mut tx[..m],
        &mut ty[..m],
        &mut tflags[..m],
        out,
    )
}

// A replay of a whole record; what lines only read is loaded here.
fn replay_whole(rules: Rules, most: usize, bytes: &[u8], l: Layout, out: &mut [u8]) -> Replayed
    requires points_le_point_room { l.points ≤ point_room }
    requires contours_le_list_room { l.contours ≤ list_room }
    requires twilight_le_twilight_room { l.twilight ≤ twilight_room }
    requires controls_le_list_room { l.controls ≤ list_room }
    requires words_le_list_room { l.words ≤ list_room }
    ensures { shelved result out.new ≡ shelved_for rules most (newest l) (held_in bytes.now l) out.old }
{
    let words = wide(l.words);
    let values = wide(l.controls);
    let n = wide(l.points);
    let ends = wide(l.contours);
    let mut sheet = [0i32; LIST_ROOM];
    numbers_in(bytes, l, SHEET, &mut sheet);
    let mut controls = [0i32; LIST_ROOM];
    numbers_in(bytes, l, CONTROLS, &mut controls);
    let mut gux = [0i32; POINT_ROOM];
    numbers_in(bytes, l, UNSCALED_X, &mut gux);
    let mut guy = [0i32; POINT_ROOM];
    numbers_in(bytes, l, UNSCALED_Y, &mut guy);
    let mut gox = [0i32; POINT_ROOM];
    numbers_in(bytes, l, ORIGINAL_X, &mut gox);
    let mut goy = [0i32; POINT_ROOM];
    numbers_in(bytes, l, ORIGINAL_Y, &mut goy);
    let mut contours = [0u16; LIST_ROOM];
    ends_in(bytes, l, ENDS, &mut contours);
    replay_over(
        rules,
        most,
        bytes,
        l,
        &sheet[..words],
        &controls[..values],
        &gux[..n],
        &guy[..n],
        &gox[..n],
        &goy[..n],
        &contours[..ends],
        out,
    )
}

// A byte string that is no record.
pub fn refuse(number: u32) -> Replayed
    ensures { result ≡ refused_as number }
{
    let layout = lay_out(0, 0, 0, 0, 0);
    Replayed {
        number,
        place: 0,
        lines: 0,
        detail: 0,
        size: 0,
        layout,
    }
}

// A record replayed: the answer, and the record as it then stands at the front of `out`, where it has at most `most` bytes and there is room for it.
pub fn replay_within(rules: Rules, most: usize, bytes: &[u8], out: &mut [u8]) -> Replayed
    ensures { shelved result out.new ≡ shelf_within rules most bytes.now out.old }
{
    let opened = open(bytes);
    match opened {
        Err(why) => refuse(why.number()),
        Ok(l) => replay_whole(rules, most, bytes, l, out),
    }
}

// The same, with a record of 24 KiB at most.
pub fn replay(rules: Rules, bytes: &[u8], out: &mut [u8]) -> Replayed
    ensures { shelved result out.new ≡ shelf_of rules bytes.now out.old }
{
    replay_within(rules, MOST_BYTES, bytes, out)
}
