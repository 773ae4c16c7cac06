// What a feed to a record prints, as bytes: document 02, K11.
//
// `print_fed` reads standard input until it ends or the feed is refused. Where it could be read, the text that it leaves at the front of `text` is
// `fed_print` of specs/Print.antt, for the blocks that were read, and the bytes behind it stay as they were.
#![tactic(auto)]

ghost use Rattle.std.specs.Prelude.{false, ◌≡◌};
ghost use Rattle.record_print.specs.Print.{Front};
ghost use Rattle.feed_print.specs.Print.{FedPrint};

use feed_record::feed_within;
use record_print::{RECORD_ROOM, TEXT_ROOM, put_answer, put_points};
use rules::Rules;
use std::io::Stdin;

// How many bytes are printed, and whether the input could not be read to its end: then none are.
#[derive(Clone, Copy)]
pub struct Printed {
    pub size: usize,
    pub failed: bool,
}

pub fn print_fed(stdin: Stdin, rules: Rules, bytes: &[u8], text: &mut [u8; TEXT_ROOM]) -> Printed
    ensures front { Front result.size text.new }
    ensures fed_print { result.failed ≡ false → FedPrint rules bytes.now text.old result.size text.new }
{
    let mut out = [0u8; RECORD_ROOM];
    let told = feed_within(stdin, rules, RECORD_ROOM, bytes, &mut out);
    if told.failed {
        return Printed {
            size: 0,
            failed: true,
        };
    }
    let said = told.said;
    let next = put_answer(said, text);
    let size = put_points(&out, said.layout, text, next);
    Printed {
        size,
        failed: false,
    }
}
