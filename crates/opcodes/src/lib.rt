// The table of opcodes, and how a line is read off a sheet.
//
// `decode` answers for every sheet, place and loop counter. A line is refused as document 01 orders it: 4 before 5, and both before any step of the line.
// The table has one entry for each of the 256 opcodes; its rule is proved once, over the whole table.
#![tactic(auto)]

ghost use Rattle.std.specs.Prelude.{◌≡◌, ◌<◌};
ghost use Rattle.opcodes.specs.Table.{need_of, needs_table};
ghost use Rattle.opcodes.specs.Steps.{takes_by};
ghost use Rattle.opcodes.specs.Decode.{decode_of};

use answer::Refusal;
use int::as_index;

// As many operands as the loop counter says.
const LOOPED: u8 = 254;

// One more than the loop counter says: an amount, then points.
const AMOUNT_AND_LOOPED: u8 = 253;

// No line of the replayer.
pub const UNKNOWN: u8 = 255;

// How many operands the line of each opcode takes. A static, so that it is laid down once, and not for every line.
static NEEDS: [u8; 256] = [
    0, 0, 0, 0, 0, 0, 2, 2, 2, 2, 2, 2, 255, 255, 0, 5, 1, 1, 1, 1, 1, 1, 1, 1, 0, 0, 1, 255, 255,
    1, 1, 1, 255, 255, 255, 255, 255, 255, 255, 2, 255, 1, 255, 255, 255, 255, 1, 1, 0, 0, 254,
    254, 1, 1, 1, 1, 253, 254, 2, 2, 254, 0, 2, 2, 255, 255, 255, 255, 255, 255, 1, 1, 255, 2, 2,
    255, 255, 0, 0, 255, 255, 255, 255, 255, 255, 255, 255, 255, 255, 255, 255, 255, 255, 255, 255,
    255, 255, 255, 255, 255, 255, 255, 255, 255, 255, 255, 255, 255, 255, 255, 255, 255, 255, 255,
    255, 255, 255, 255, 1, 1, 255, 255, 0, 255, 0, 0, 255, 255, 254, 2, 2, 255, 255, 255, 2, 2,
    255, 255, 255, 255, 255, 255, 255, 255, 255, 255, 255, 255, 255, 255, 255, 255, 255, 255, 255,
    255, 255, 255, 255, 255, 255, 255, 255, 255, 255, 255, 255, 255, 255, 255, 255, 255, 255, 255,
    255, 255, 255, 255, 255, 255, 255, 255, 255, 255, 255, 255, 255, 255, 255, 255, 255, 255, 1, 1,
    1, 1, 1, 1, 1, 1, 1, 1, 1, 1, 1, 1, 1, 1, 1, 1, 1, 1, 1, 1, 1, 1, 1, 1, 1, 1, 1, 1, 1, 1, 2, 2,
    2, 2, 2, 2, 2, 2, 2, 2, 2, 2, 2, 2, 2, 2, 2, 2, 2, 2, 2, 2, 2, 2, 2, 2, 2, 2, 2, 2, 2, 2,
];

// A line taken apart: its opcode, and where its operands start and end.
#[derive(Clone, Copy)]
pub struct Operands {
    pub opcode: usize,
    pub first: usize,
    pub end: usize,
}

// The table, whole.
pub fn needs_table() -> [u8; 256]
    ensures { result ≡ needs_table }
{
    NEEDS
}

// The table's entry for an opcode.
pub fn need_of(opcode: usize) -> u8
    requires { opcode < 256 }
    ensures { result ≡ need_of opcode }
{
    NEEDS[opcode]
}

// How many operands a line takes.
fn takes_operands(need: u8, loop_counter: u32) -> usize
    ensures { result ≡ takes_by need loop_counter }
{
    if need == LOOPED {
        loop_counter as usize
    } else if need == AMOUNT_AND_LOOPED {
        loop_counter as usize + 1
    } else {
        need as usize
    }
}

// The line at a place of the sheet.
pub fn decode(sheet: &[i32], loop_counter: u32, at: usize) -> Result<Operands, Refusal>
    ensures { result ≡ decode_of sheet.now loop_counter at }
{
    if sheet.len() <= at {
        return Err(Refusal::Line);
    }
    let opcode = as_index(sheet[at]) as usize;
    if 255 < opcode {
        return Err(Refusal::Line);
    }
    let wants = need_of(opcode);
    if wants == UNKNOWN {
        return Err(Refusal::Line);
    }
    let first = at + 2;
    if sheet.len() < first {
        return Err(Refusal::Line);
    }
    let count = as_index(sheet[at + 1]) as usize;
    if sheet.len() - first < count {
        return Err(Refusal::Line);
    }
    if takes_operands(wants, loop_counter) < count {
        return Err(Refusal::Surplus);
    }
    Ok(Operands {
        opcode,
        first,
        end: first + count,
    })
}
