// Records and answers in frames: a length of four bytes, the low byte first, and as many bytes behind it. Many of them make one stream, one behind the
// other.
//
// `answer_frame` puts the frame of what `record_print::print` says of a record into a buffer of answers, behind those that are there: the frame is
// `framed` of specs/Frames.antt, and no other byte changes. Of a record that is too long its first bytes are enough to answer: the law `cut_alike`.
#![tactic(auto)]

ghost use Rattle.std.specs.Prelude.{◌≡◌, ◌+◌, ◌≤◌, min, length, take};
ghost use Rattle.words.specs.Words.{word_at};
ghost use Rattle.words.specs.Lists.{bytes_of_word};
ghost use Rattle.record_print.specs.Print.{print_of};
ghost use Rattle.record_frames.specs.Frames.{framed, record_room, frame_room, Put};

use record_print::{TEXT_ROOM, print};
use rules::Rules;
use words::word_at;

// The bytes of a frame's length.
pub const LENGTH_SIZE: usize = 4;

// One byte more than a record may have: with so many a longer one is seen to be too long.
pub const RECORD_ROOM: usize = 24577;

// No answer's frame is longer: its length, and the longest text.
pub const FRAME_ROOM: usize = 24580;

// ---- lengths
// The length that stands at the front of a frame.
pub fn length_in(frame: &[u8]) -> u32
    ensures { result ≡ word_at frame.now 0 }
{
    word_at(frame, 0)
}

// How many bytes of a record of some length are kept to be replayed: all of one that isn't too long.
pub fn kept_of(size: u32) -> usize
    ensures { result ≡ min size record_room }
{
    (size as usize).min(RECORD_ROOM)
}

// ---- pieces, one behind the other
// Below, `at` is the place where a piece begins, and the answer the place behind it.
pub fn append(piece: &[u8], out: &mut [u8], at: usize) -> usize
    requires { at + length piece.now ≤ length out.old }
    ensures { Put piece.now at result out.old out.new }
{
    let end = at + piece.len();
    out[at..end].copy_from_slice(piece);
    end
}

fn put_length(size: u32, out: &mut [u8], at: usize) -> usize
    requires { at + 4 ≤ length out.old }
    ensures { Put (bytes_of_word size) at result out.old out.new }
{
    append(&size.to_le_bytes(), out, at)
}

// The frame of a text's first bytes.
fn put_frame(text: &[u8; TEXT_ROOM], size: usize, out: &mut [u8], at: usize) -> usize
    requires size_in_bounds { size ≤ length text.now }
    requires frame_room_in_bounds { at + frame_room ≤ length out.old }
    ensures put { Put (framed (take size text.now)) at result out.old out.new }
    ensures upper_bound { result ≤ at + frame_room }
{
    let whole: &[u8] = text;
    let next = put_length(size as u32, out, at);
    append(&whole[..size], out, next)
}

// The frame of what the replay of a record prints.
pub fn answer_frame(rules: Rules, bytes: &[u8], out: &mut [u8], at: usize) -> usize
    requires { at + frame_room ≤ length out.old }
    ensures put { Put (framed (print_of rules bytes.now)) at result out.old out.new }
    ensures upper_bound { result ≤ at + frame_room }
{
    let mut text = [0u8; TEXT_ROOM];
    let size = print(rules, bytes, &mut text);
    put_frame(&text, size, out, at)
}
