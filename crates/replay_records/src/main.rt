// Replays many records in one process: frames of a length and a record on standard input, one behind the other, and for each, in order, a frame of a length
// and a text on standard output. The text is what replay_record prints of that record; a refused record is answered like any other, and the stream goes on.
//
// The frame of an answer is `record_frames::answer_frame`, one equation with its definition for every record. Input is read, and answers are written, in
// blocks, so that a record costs far less than one call of the system. Whoever waits for an answer before sending the next record therefore waits for ever.
//
// The input may end between two frames. Where it ends within one, or cannot be read, the answers before are written out, and standard error says at which
// frame, counted from 1. What cannot be written ends it too. The rules are those that the one argument names, FreeType's where there is none.
#![tactic(auto)]

ghost use Rattle.std.specs.Prelude.{◌+◌, ◌-◌, ◌≤◌, length};
ghost use Rattle.replay_records.specs.Block.{Within};

use record_frames::{
    FRAME_ROOM, LENGTH_SIZE, RECORD_ROOM, answer_frame, append, kept_of, length_in,
};
use record_io::{chosen_rules, say_no_such_rules};
use rules::Rules;
use std::io::{Read, Stdin};

// So much is read at once.
const BLOCK_ROOM: usize = 65536;

// Answers wait here until they are written at once.
const ANSWERS_ROOM: usize = 65536;

// With more than this there may be no room for one more frame.
const FULL: usize = ANSWERS_ROOM - FRAME_ROOM;

// ---- input
// What was read and not yet used lies in the block from `at` to `end`; `failed` says of an empty one that a read failed, and not that the input has ended.
#[derive(Clone, Copy)]
struct Reader {
    at: usize,
    end: usize,
    failed: bool,
}

// Where the reader stands after some bytes, and how many there were before the input ended.
#[derive(Clone, Copy)]
struct Part {
    reader: Reader,
    size: usize,
}

// The next block, where all of this one is used.
fn refill(mut stdin: Stdin, block: &mut [u8; BLOCK_ROOM], reader: Reader) -> Reader
    requires { Within reader }
    ensures { Within result }
{
    if reader.at < reader.end {
        return reader;
    }
    let bytes: &mut [u8] = block;
    match stdin.read(bytes) {
        Ok(end) => Reader {
            at: 0,
            end,
            failed: false,
        },
        Err(_) => Reader {
            at: 0,
            end: 0,
            failed: true,
        },
    }
}

// Bytes of the block to the place `size` of a piece, as many as there are or as it has room for; how many.
fn take_some(block: &[u8; BLOCK_ROOM], reader: Reader, piece: &mut [u8], size: usize) -> usize
    requires within { Within reader }
    requires size_in_bounds { size ≤ length piece.old }
    ensures upper_bound { result ≤ reader.end - reader.at }
    ensures result_in_bounds { size + result ≤ length piece.new }
{
    let bytes: &[u8] = block;
    let at = reader.at;
    let here = (reader.end - at).min(piece.len() - size);
    let end = at + here;
    append(&bytes[at..end], piece, size);
    here
}

// Input to a piece, until it is full or the input ends.
fn read_part(stdin: Stdin, block: &mut [u8; BLOCK_ROOM], from: Reader, piece: &mut [u8]) -> Part
    requires { Within from }
    ensures within { Within result.reader }
    ensures size_in_bounds { result.size ≤ length piece.new }
{
    let mut reader = from;
    let mut size = 0;
    // Counted by hand: each turn takes what the block has, any number of bytes.
    while size < piece.len() {
        reader = refill(stdin, block, reader);
        let here = take_some(block, reader, piece, size);
        if here == 0 {
            return Part { reader, size };
        }
        reader.at += here;
        size += here;
    }
    Part { reader, size }
}

// So many bytes of input passed over, or as many as there are.
fn pass_over(stdin: Stdin, block: &mut [u8; BLOCK_ROOM], from: Reader, count: usize) -> Part
    requires { Within from }
    ensures { Within result.reader }
{
    let mut reader = from;
    let mut size = 0;
    // Counted by hand: each turn takes what the block has, any number of bytes.
    while size < count {
        reader = refill(stdin, block, reader);
        let here = (reader.end - reader.at).min(count - size);
        if here == 0 {
            return Part { reader, size };
        }
        reader.at += here;
        size += here;
    }
    Part { reader, size }
}

// ---- frames
#[derive(Clone, Copy)]
enum Found {
    Record,
    // The input ends where a frame may.
    End,
    // It ends within one.
    Cut,
    // It cannot be read.
    Failed,
}

// What the next frame is, and how many bytes of its record are kept.
#[derive(Clone, Copy)]
struct Frame {
    reader: Reader,
    found: Found,
    size: usize,
}

fn broken(reader: Reader) -> Frame
    requires { Within reader }
    ensures within { Within result.reader }
    ensures size_bound { result.size ≤ 24577 }
{
    let found = if reader.failed {
        Found::Failed
    } else {
        Found::Cut
    };
    Frame {
        reader,
        found,
        size: 0,
    }
}

// What a length announces. Of a record that is too long only so much is kept as says so.
fn read_record(
    stdin: Stdin,
    block: &mut [u8; BLOCK_ROOM],
    from: Reader,
    size: u32,
    bytes: &mut [u8],
) -> Frame
    requires within { Within from }
    requires in_bounds { 24577 ≤ length bytes.old }
    ensures within_2 { Within result.reader }
    ensures size_bound { result.size ≤ 24577 }
{
    let all = size as usize;
    let kept = kept_of(size);
    let part = read_part(stdin, block, from, &mut bytes[..kept]);
    let reader = part.reader;
    if part.size < kept {
        return broken(reader);
    }
    let rest = pass_over(stdin, block, reader, all - kept);
    let behind = rest.reader;
    if rest.size < all - kept {
        return broken(behind);
    }
    Frame {
        reader: behind,
        found: Found::Record,
        size: kept,
    }
}

fn read_frame(
    stdin: Stdin,
    block: &mut [u8; BLOCK_ROOM],
    from: Reader,
    record: &mut [u8; RECORD_ROOM],
) -> Frame
    requires { Within from }
    ensures within { Within result.reader }
    ensures size_bound { result.size ≤ 24577 }
{
    let mut head = [0u8; LENGTH_SIZE];
    let part = read_part(stdin, block, from, &mut head);
    let reader = part.reader;
    if part.size == LENGTH_SIZE {
        return read_record(stdin, block, reader, length_in(&head), record);
    }
    if part.size == 0 && !reader.failed {
        return Frame {
            reader,
            found: Found::End,
            size: 0,
        };
    }
    broken(reader)
}

// ---- output
// The first answers written out; whether they were written whole.
fn write_answers(rt: &(impl Print + Eprint), answers: &[u8; ANSWERS_ROOM], size: usize) -> bool
    requires { size ≤ 65536 }
{
    let bytes: &[u8] = answers;
    let written = rt.write_all(&bytes[..size]).is_ok();
    if !written {
        let _ = eprintln!(rt; "standard output was not written whole");
    }
    written
}

// One line, written at once: other processes may write to the same place.
fn say_at(rt: &impl Eprint, frame: u64, what: &str) {
    let _ = eprintln!(rt; "frame {frame}: {what}");
}

fn say_end(rt: &impl Eprint, found: Found, frame: u64) {
    match found {
        Found::Cut => say_at(rt, frame, "the input ends within it"),
        Found::Failed => say_at(rt, frame, "standard input cannot be read"),
        _ => {}
    }
}

// ---- records
// How far the stream has come: the answers that wait to be written, and whether there may be another frame.
#[derive(Clone, Copy)]
struct Stream {
    reader: Reader,
    waiting: usize,
    open: bool,
}

// A record's answer behind those that wait; all are written once they are many.
fn answer(
    rt: &(impl Print + Eprint),
    rules: Rules,
    record: &[u8; RECORD_ROOM],
    size: usize,
    answers: &mut [u8; ANSWERS_ROOM],
    stream: Stream,
) -> Stream
    requires size_bound { size ≤ 24577 }
    requires within { Within stream.reader }
    requires waiting_bound { stream.waiting ≤ 40956 }
    ensures within_2 { Within result.reader }
    ensures waiting_bound_2 { result.waiting ≤ 40956 }
{
    let reader = stream.reader;
    let bytes: &[u8] = record;
    let room: &mut [u8] = answers;
    let waiting = answer_frame(rules, &bytes[..size], room, stream.waiting);
    if waiting <= FULL {
        return Stream {
            reader,
            waiting,
            open: true,
        };
    }
    let open = write_answers(rt, answers, waiting);
    Stream {
        reader,
        waiting: 0,
        open,
    }
}

fn answer_next(
    rt: &(impl Print + Eprint),
    stdin: Stdin,
    rules: Rules,
    number: u64,
    block: &mut [u8; BLOCK_ROOM],
    record: &mut [u8; RECORD_ROOM],
    answers: &mut [u8; ANSWERS_ROOM],
    stream: Stream,
) -> Stream
    requires within { Within stream.reader }
    requires waiting_bound { stream.waiting ≤ 40956 }
    ensures within_2 { Within result.reader }
    ensures waiting_bound_2 { result.waiting ≤ 40956 }
{
    let waiting = stream.waiting;
    let frame = read_frame(stdin, block, stream.reader, record);
    let reader = frame.reader;
    let found = frame.found;
    match found {
        Found::Record => answer(
            rt,
            rules,
            record,
            frame.size,
            answers,
            Stream {
                reader,
                waiting,
                open: true,
            },
        ),
        _ => {
            write_answers(rt, answers, waiting);
            say_end(rt, found, number);
            Stream {
                reader,
                waiting: 0,
                open: false,
            }
        }
    }
}

// A proved loop has to end, and nothing says that the input does. The frames' count is of 64 bits, and no input has so many of them.
fn answer_all(rt: &(impl Print + Eprint), stdin: Stdin, rules: Rules) {
    let mut block = [0u8; BLOCK_ROOM];
    let mut record = [0u8; RECORD_ROOM];
    let mut answers = [0u8; ANSWERS_ROOM];
    let mut stream = Stream {
        reader: Reader {
            at: 0,
            end: 0,
            failed: false,
        },
        waiting: 0,
        open: true,
    };
    for number in 1..=u64::MAX {
        stream = answer_next(
            rt,
            stdin,
            rules,
            number,
            &mut block,
            &mut record,
            &mut answers,
            stream,
        );
        if !stream.open {
            break;
        }
    }
}

fn main(rt: HostRuntime) {
    let named = chosen_rules(&rt);
    match named {
        Some(rules) => answer_all(&rt, rt.stdin(), rules),
        None => say_no_such_rules(&rt),
    }
}
