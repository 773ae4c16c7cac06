// The lines that set the measures of the state and move no point, and `set_measure`, which does each of them.
//
// - SMD[] (0x1A): pops the minimum distance. FreeType's Ins_SMD.
// - SCVTCI[] (0x1D), SSWCI[] (0x1E): pop the control value cut-in, the single width cut-in. Ins_SCVTCI, Ins_SSWCI.
// - SSW[] (0x1F): pops the single width in font units, which the scale brings to pixels. Ins_SSW.
// - FLIPON[], FLIPOFF[] (0x4D, 0x4E): pop nothing; set auto flip. Ins_FLIPON, Ins_FLIPOFF.
//
// A missing operand is refused (answer 6). Every word is taken, below 0 too. No line is lent a list: `sizes_of` says what one does in a world.
#![tactic(auto)]

ghost use Rattle.std.specs.Prelude.{◌≡◌};
ghost use Rattle.line_sizes.specs.Sizes.{minimum_at, cut_in_at, single_cut_in_at, single_width_at, flipping_at, sized_by, size_by, flip_by, measure_by};

use answer::Refusal;
use graphics::{GraphicsState, Measures};
use line::{Stepped, done, refused};
use math::mul;

fn with_minimum(mut m: Measures, word: i32) -> Measures
    ensures { result ≡ minimum_at m word }
{
    m.minimum_distance = word;
    m
}

fn with_cut_in(mut m: Measures, word: i32) -> Measures
    ensures { result ≡ cut_in_at m word }
{
    m.cut_in = word;
    m
}

fn with_single_cut_in(mut m: Measures, word: i32) -> Measures
    ensures { result ≡ single_cut_in_at m word }
{
    m.single_width_cut_in = word;
    m
}

fn with_single_width(mut m: Measures, word: i32) -> Measures
    ensures { result ≡ single_width_at m word }
{
    m.single_width = word;
    m
}

fn with_flipping(mut m: Measures, on: bool) -> Measures
    ensures { result ≡ flipping_at m on }
{
    m.auto_flip = on;
    m
}

// SMD, SCVTCI, SSWCI, SSW.
fn sized(m: Measures, opcode: usize, word: i32) -> Measures
    ensures { result ≡ sized_by m opcode word }
{
    match opcode {
        0x1A => with_minimum(m, word),
        0x1D => with_cut_in(m, word),
        0x1E => with_single_cut_in(m, word),
        _ => with_single_width(m, mul(word, m.scale)),
    }
}

fn set_size(mut s: GraphicsState, opcode: usize, word: i32) -> GraphicsState
    ensures { result ≡ size_by s opcode word }
{
    let m = sized(s.measures, opcode, word);
    s.measures = m;
    s
}

// FLIPON, FLIPOFF.
fn set_flipping(mut s: GraphicsState, on: bool) -> GraphicsState
    ensures { result ≡ flip_by s on }
{
    let m = with_flipping(s.measures, on);
    s.measures = m;
    s
}

// A line that sets a measure.
pub fn set_measure(s: GraphicsState, opcode: usize, operands: &[i32]) -> Stepped
    ensures { result ≡ measure_by s opcode operands.now }
{
    if 0x4D <= opcode {
        return done(set_flipping(s, opcode == 0x4D));
    }
    if operands.len() == 0 {
        return refused(s, Refusal::Missing);
    }
    done(set_size(s, opcode, operands[0]))
}
