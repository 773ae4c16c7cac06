// Replays the record on standard input and prints the outline that it leaves: number, place, lines and detail on a line; then, where the replay wasn't
// refused, `move X Y`, `line X Y`, `curve CX CY X Y` and `close`, a step a line, in pixels as exact decimals, and `box L B R T` or `box none`. A glyph that
// can't be drawn has `outline` and the number of its answer in their place.
//
// What is printed is `outline_print::print_outline`, one equation with its definition for every input. The rules are those that the one argument names, FreeType's
// where there is none. Input that cannot be read prints nothing, nor does an argument that names no rules.
#![tactic(auto)]

use outline_print::{TEXT_ROOM, print_outline};
use record_io::{
    INPUT_ROOM, chosen_rules, read_input, say_no_such_rules, say_unread, write_output,
};
use rules::Rules;
use std::io::Stdin;

fn print_record(rt: &(impl Print + Eprint), rules: Rules, bytes: &[u8]) {
    let mut text = [0u8; TEXT_ROOM];
    let size = print_outline(rules, bytes, &mut text);
    write_output(rt, &text[..size]);
}

fn print_input(rt: &(impl Print + Eprint), stdin: Stdin, rules: Rules) {
    let mut bytes = [0u8; INPUT_ROOM];
    match read_input(stdin, &mut bytes) {
        Ok(size) => print_record(rt, rules, &bytes[..size]),
        Err(_) => say_unread(rt),
    }
}

fn main(rt: HostRuntime) {
    let named = chosen_rules(&rt);
    match named {
        Some(rules) => print_input(&rt, rt.stdin(), rules),
        None => say_no_such_rules(&rt),
    }
}
