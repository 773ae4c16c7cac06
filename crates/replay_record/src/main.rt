// Replays the record on standard input and prints what it came to: number, place, lines and detail on a line, then x, y and flag of each glyph
// point, a line each. A refused record prints its number and three zeros alone.
//
// What is printed is `record_print::print`, one equation with its definition for every input. The rules are those that the one argument names, FreeType's
// where there is none. Input that cannot be read prints nothing, nor does an argument that names no rules.
#![tactic(auto)]

use record_io::{
    INPUT_ROOM, chosen_rules, read_input, say_no_such_rules, say_unread, write_output,
};
use record_print::{TEXT_ROOM, print};
use rules::Rules;
use std::io::Stdin;

fn print_record(rt: &(impl Print + Eprint), rules: Rules, bytes: &[u8]) {
    let mut text = [0u8; TEXT_ROOM];
    let size = print(rules, bytes, &mut text);
    write_output(rt, &text[..size]);
}

fn print_input(rt: &(impl Print + Eprint), stdin: Stdin, rules: Rules) {
    let mut bytes = [0u8; INPUT_ROOM];
    match read_input(stdin, &mut bytes) {
        Ok(size) => print_record(rt, rules, &bytes[..size]),
        Err(_) => say_unread(rt),
    }
}

fn main(rt: HostRuntime) {
    let named = chosen_rules(&rt);
    match named {
        Some(rules) => print_input(&rt, rt.stdin(), rules),
        None => say_no_such_rules(&rt),
    }
}
