// Replays the oracle's answers on whole calls: a case a call, and prints how many agree.
//
// A case agrees where the call says what the case says, and leaves every coordinate, every flag and the state, with its count of wrapped roundings,
// as the case says (the crates test_zone_calls, test_state_calls and test_runs). What this prints is held to the file `stdout`; the cases stand
// in the file `stdin`: the direct calls other than iup, those of iup, single lines, runs, the shifts and range flips, the selectors, direct
// calls whose lists don't fit, cases that one rule alone decides, roundings of every kind of wrap, the largest faces, the distances, contour ends,
// and runs under each of the rules. Room for the lists is made once, and lent.
#![tactic(auto)]

ghost use Rattle.std.specs.Prelude.{◌≤◌, length};

use std::io;
use std::io::Stdin;
use test_cases::{KIND, word};
use test_tally::{Tally, read_full};

// Every list of a case has room for one element more than it may have, so that one above its limit is judged too.
const POINTS: usize = limits::POINTS + 1;

const CONTOURS: usize = limits::CONTOURS + 1;

const CONTROL_VALUES: usize = limits::CONTROL_VALUES + 1;

const WORDS: usize = limits::WORDS + 1;

// A case's bytes: its words may be as many as twice a sheet's.
const BYTES: usize = limits::WORDS * 8;

fn agrees(
    case: &[u8],
    sheet: &mut [i32],
    controls: &mut [i32],
    gux: &mut [i32],
    guy: &mut [i32],
    gox: &mut [i32],
    goy: &mut [i32],
    gx: &mut [i32],
    gy: &mut [i32],
    gflags: &mut [u8],
    contours: &mut [u16],
    tox: &mut [i32],
    toy: &mut [i32],
    tx: &mut [i32],
    ty: &mut [i32],
    tflags: &mut [u8],
) -> bool {
    match word(case, KIND) {
        0 => test_runs::agrees(
            case, sheet, controls, gux, guy, gox, goy, gx, gy, gflags, contours, tox, toy, tx, ty,
            tflags,
        ),
        1..=9 => test_zone_calls::agrees(case, gux, gox, gx, gflags, contours),
        10..=13 => test_state_calls::agrees(
            case, gox, goy, gx, gy, gflags, tox, toy, tx, ty, tflags,
        ),
        _ => false,
    }
}

// ---- the stream
// A case's first word, and how many of its bytes were there.
#[derive(Clone, Copy)]
struct First {
    word: u32,
    bytes: usize,
}

fn read_first(stdin: Stdin) -> First {
    let mut four = [0u8; 4];
    let bytes = read_full(stdin, &mut four);
    First {
        word: word(&four, 0),
        bytes,
    }
}

// The bytes of a case of so many words; one that the room doesn't hold has none.
fn bytes_of(words: u32, room: usize) -> usize
    ensures { result ≤ room }
{
    let n = words as usize;
    if n <= room / 4 { n * 4 } else { 0 }
}

// The case's bytes after its first word. That word isn't kept: nothing asks for it again.
fn read_rest(stdin: Stdin, buffer: &mut [u8], end: usize) -> usize
    requires { end ≤ length buffer.old }
{
    if end < 4 {
        return 0;
    }
    read_full(stdin, &mut buffer[4..end])
}

// A case that was read: where it ends in the buffer; whether there was one, and whether all of it was there. After a case that is cut short nothing
// more can be read.
#[derive(Clone, Copy)]
struct Read {
    end: usize,
    found: bool,
    whole: bool,
}

impl Read {
    fn count(self, tally: Tally, agreed: bool) -> Tally {
        if self.found {
            tally.count(self.whole & agreed)
        } else {
            tally
        }
    }
}

fn read_case(stdin: Stdin, buffer: &mut [u8]) -> Read
    ensures { result.end ≤ length buffer.old }
{
    let first = read_first(stdin);
    let end = bytes_of(first.word, buffer.len());
    let got = read_rest(stdin, buffer, end);
    let whole = first.bytes == 4 && (got as u64).wrapping_add(4) == end as u64;
    Read {
        end,
        found: 0 < first.bytes,
        whole,
    }
}

// A proved loop has to end, so the turns are counted, to more than the input has.
fn replay_all(
    stdin: Stdin,
    buffer: &mut [u8],
    sheet: &mut [i32],
    controls: &mut [i32],
    gux: &mut [i32],
    guy: &mut [i32],
    gox: &mut [i32],
    goy: &mut [i32],
    gx: &mut [i32],
    gy: &mut [i32],
    gflags: &mut [u8],
    contours: &mut [u16],
    tox: &mut [i32],
    toy: &mut [i32],
    tx: &mut [i32],
    ty: &mut [i32],
    tflags: &mut [u8],
) -> Tally {
    let mut tally = Tally::new();
    for _ in 0..1000000u64 {
        let read = read_case(stdin, buffer);
        let end = read.end;
        let agreed = agrees(
            &buffer[..end],
            sheet,
            controls,
            gux,
            guy,
            gox,
            goy,
            gx,
            gy,
            gflags,
            contours,
            tox,
            toy,
            tx,
            ty,
            tflags,
        );
        tally = read.count(tally, agreed);
        if !read.whole {
            break;
        }
    }
    tally
}

fn main(rt: HostRuntime) -> io::Result<()> {
    let mut buffer = [0u8; BYTES];
    let mut sheet = [0i32; WORDS];
    let mut controls = [0i32; CONTROL_VALUES];
    let mut gux = [0i32; POINTS];
    let mut guy = [0i32; POINTS];
    let mut gox = [0i32; POINTS];
    let mut goy = [0i32; POINTS];
    let mut gx = [0i32; POINTS];
    let mut gy = [0i32; POINTS];
    let mut gflags = [0u8; POINTS];
    let mut contours = [0u16; CONTOURS];
    let mut tox = [0i32; POINTS];
    let mut toy = [0i32; POINTS];
    let mut tx = [0i32; POINTS];
    let mut ty = [0i32; POINTS];
    let mut tflags = [0u8; POINTS];
    replay_all(
        rt.stdin(),
        &mut buffer,
        &mut sheet,
        &mut controls,
        &mut gux,
        &mut guy,
        &mut gox,
        &mut goy,
        &mut gx,
        &mut gy,
        &mut gflags,
        &mut contours,
        &mut tox,
        &mut toy,
        &mut tx,
        &mut ty,
        &mut tflags,
    )
    .print(&rt)
}
