// Where the lists of a record lie: document 02, K4, K5 and K7.
//
// A record is little-endian words: the state, fifteen lists, and a trailer of eight words. The places follow from the counts; edition, limits and order
// stand here once, as constants and as definitions of specs/Order.antt, and nothing that reads or writes a record names a place itself.
#![tactic(auto)]

ghost use Rattle.std.specs.Prelude.{◌≡◌};
ghost use Rattle.record_layout.specs.Order.{count_of, list_place, at_trailer, record_size};
ghost use Rattle.record_layout.specs.Steps.{capped};

// The newest edition, which is written.
pub const EDITION: u32 = 3;

// 24 KiB.
pub const MOST_BYTES: usize = 24576;

pub const TRAILER_WORDS: usize = 8;

pub const MOST_FLAG: u32 = 255;

pub const MOST_END: u32 = 65535;

// ---- the lists by their number, in the record's order
pub const UNSCALED_X: usize = 0;

pub const UNSCALED_Y: usize = 1;

pub const ORIGINAL_X: usize = 2;

pub const ORIGINAL_Y: usize = 3;

pub const CURRENT_X: usize = 4;

pub const CURRENT_Y: usize = 5;

pub const FLAGS: usize = 6;

pub const ENDS: usize = 7;

pub const TWILIGHT_ORIGINAL_X: usize = 8;

pub const TWILIGHT_ORIGINAL_Y: usize = 9;

pub const TWILIGHT_X: usize = 10;

pub const TWILIGHT_Y: usize = 11;

pub const TWILIGHT_FLAGS: usize = 12;

pub const CONTROLS: usize = 13;

pub const SHEET: usize = 14;

// How many lists there are.
pub const LISTS: usize = 15;

// How many there are of each: words of the state, points of the glyph and of the twilight zone, contours, control values, words of the sheet.
#[derive(Clone, Copy)]
pub struct Layout {
    pub state: u32,
    pub points: u32,
    pub contours: u32,
    pub twilight: u32,
    pub controls: u32,
    pub words: u32,
}

pub fn wide(x: u32) -> usize
    ensures { result ≡ x }
{
    x as usize
}

// How many words list k has.
pub fn count(l: Layout, k: usize) -> u32
    ensures { result ≡ count_of l k }
{
    if k < ENDS {
        l.points
    } else if k < TWILIGHT_ORIGINAL_X {
        l.contours
    } else if k < CONTROLS {
        l.twilight
    } else if k < SHEET {
        l.controls
    } else if k < LISTS {
        l.words
    } else {
        0
    }
}

// As many lists as there are at most.
fn lists_before(k: usize) -> usize
    ensures { result ≡ capped k }
{
    k.min(LISTS)
}

// The first word of list k: it stands behind the state and the lists before it.
pub fn place(l: Layout, k: usize) -> usize
    ensures { result ≡ list_place l k }
{
    let end = lists_before(k);
    let mut at = wide(l.state);
    for i in 0..end {
        at += wide(count(l, i));
    }
    at
}

// The trailer stands behind the last list.
pub fn at_trailer(l: Layout) -> usize
    ensures { result ≡ at_trailer l }
{
    place(l, LISTS)
}

// The bytes of a record.
pub fn record_size(l: Layout) -> usize
    ensures { result ≡ record_size l }
{
    (at_trailer(l) + TRAILER_WORDS) * 4
}
