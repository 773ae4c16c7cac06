// Feeds a sheet that arrives on standard input to a record, and prints what it came to, in the text of replay_record.
//
// The input is a frame with the record, its length in four bytes, the low one first, and its bytes; then the sheet's words, four bytes each, until the
// input ends. The record's own sheet comes first. Words are fed as they arrive, by the block, and nothing of the sheet is kept but the line that is
// unfinished. A refusal is printed at once, and what follows it isn't read.
//
// What is printed is `feed_print::print_fed`, one equation with its definition for every record and for the blocks that are read. Input that ends within
// the frame, or within a word, is 16 and three zeros. Input that cannot be read prints nothing, nor does an argument that names no rules.
#![tactic(auto)]

ghost use Rattle.std.specs.Prelude.{◌≤◌};

use feed_print::print_fed;
use record_frames::{LENGTH_SIZE, RECORD_ROOM, kept_of, length_in};
use record_io::{chosen_rules, read_input, say_no_such_rules, say_unread, write_output};
use record_print::TEXT_ROOM;
use rules::Rules;
use std::io;
use std::io::Stdin;

fn print_sheet(rt: &(impl Print + Eprint), stdin: Stdin, rules: Rules, record: &[u8]) {
    let mut text = [0u8; TEXT_ROOM];
    let printed = print_fed(stdin, rules, record, &mut text);
    if printed.failed {
        say_unread(rt);
        return;
    }
    let size = printed.size;
    write_output(rt, &text[..size]);
}

// How many bytes of the record are to be read, after so many bytes of its length.
fn bytes_of(size: usize, head: &[u8]) -> usize
    ensures { result ≤ 24577 }
{
    if size == LENGTH_SIZE {
        kept_of(length_in(head))
    } else {
        0
    }
}

// A record that the input ends within is none.
fn whole_of(read: usize, wanted: usize) -> usize
    ensures { result ≤ wanted }
{
    if read == wanted { wanted } else { 0 }
}

fn feed_sheet(rt: &(impl Print + Eprint), stdin: Stdin, rules: Rules) -> io::Result<()> {
    let mut head = [0u8; LENGTH_SIZE];
    let wanted = bytes_of(read_input(stdin, &mut head)?, &head);
    let mut bytes = [0u8; RECORD_ROOM];
    let size = whole_of(read_input(stdin, &mut bytes[..wanted])?, wanted);
    print_sheet(rt, stdin, rules, &bytes[..size]);
    Ok(())
}

fn main(rt: HostRuntime) {
    let named = chosen_rules(&rt);
    match named {
        Some(rules) => {
            if feed_sheet(&rt, rt.stdin(), rules).is_err() {
                say_unread(&rt);
            }
        }
        None => say_no_such_rules(&rt),
    }
}
