// Replays the record on standard input and writes it as it stands afterwards. A refused record writes nothing, and so does input that cannot be read, and
// an argument that names no rules; without one the rules are FreeType's.
//
// All that is said and left is `record_replay::replay`, one equation with its definition; what this writes of it is held to the file `stdout`.
#![tactic(auto)]

use record_io::{
    INPUT_ROOM, chosen_rules, read_input, say_no_such_rules, say_unread, write_output,
};
use record_layout::MOST_BYTES;
use record_replay::replay;
use rules::Rules;
use std::io::Stdin;

fn write_front(rt: &(impl Print + Eprint), record: &[u8], size: usize) {
    if size <= record.len() {
        write_output(rt, &record[..size]);
    }
}

fn write_replayed(rt: &(impl Print + Eprint), rules: Rules, bytes: &[u8]) {
    let mut record = [0u8; MOST_BYTES];
    let r = replay(rules, bytes, &mut record);
    write_front(rt, &record, r.size);
}

fn write_input(rt: &(impl Print + Eprint), stdin: Stdin, rules: Rules) {
    let mut bytes = [0u8; INPUT_ROOM];
    match read_input(stdin, &mut bytes) {
        Ok(size) => write_replayed(rt, rules, &bytes[..size]),
        Err(_) => say_unread(rt),
    }
}

fn main(rt: HostRuntime) {
    let named = chosen_rules(&rt);
    match named {
        Some(rules) => write_input(&rt, rt.stdin(), rules),
        None => say_no_such_rules(&rt),
    }
}
