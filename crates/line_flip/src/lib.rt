// FLIPPT[] (0x80), FLIPRGON[] (0x81) and FLIPRGOFF[] (0x82): points of the glyph are set on the curve or off it. OpenType's instructions of these names, FreeType's
// Ins_FLIPPT, Ins_FLIPRGON and Ins_FLIPRGOFF, and engine/outline.rs.
//
// FLIPPT pops as many points as the loop counter says, the first popped first, and sets the counter to 1, refused or not. Refused, at each point in this order: where an
// operand is missing, at the point; the points before it stay flipped. FLIPRGON and FLIPRGOFF pop the high point and then the low one, both of the range. Refused in
// this order: where an operand is missing, at the range. Past both IUPs none of them looks at a point. Each reads the glyph's flags and sets those of its points, whatever the
// zone pointers are. `flippt` and `fliprg` are each one equation with a definition of specs/Flip.antt, for every content of the lists that they aren't lent. Nothing is
// asked of operands, flags or state. More operands than are popped are left alone: refusing such a line (answer 5) is the crate opcodes'.
#![tactic(auto)]

ghost use Rattle.std.specs.Prelude.{ℕ, List, ◌≡◌, ℤ};
ghost use Rattle.line_steps.specs.Loop.{each, ended};
ghost use Rattle.line.specs.World.{Fixed, lined, world};
ghost use Rattle.zone.specs.Zone.{marked};
ghost use Rattle.line_flip.specs.Flip.{flippt_of, fliprg_of, held_fast, set_through};
ghost use Rattle.line_flip.specs.Steps.{flip_at, flip_unless};

use answer::Refusal;
use graphics::{Facts, GraphicsState};
use int::as_index;
use line::{Stepped, done, index_at, is_odd, refused};
use line_steps::take_each;
use zone::{flip_on_curve, set_on_curve};

// ---- FLIPPT
fn flip_each(count: u32, operands: &[i32], gflags: &mut [u8]) -> Result<(), Refusal>
    ensures { ended result gflags.new ≡ each flip_at count operands.now gflags.old }
{
    let wanted = count as usize;
    for k in 0..wanted {
        if operands.len() <= k {
            return Err(Refusal::Missing);
        }
        let at = as_index(operands[k]);
        flip_on_curve(gflags, at)?;
    }
    Ok(())
}

// Past both IUPs no point is flipped, but the operands are taken all the same.
fn flip_points(held: bool, count: u32, operands: &[i32], gflags: &mut [u8]) -> Result<(), Refusal>
    ensures { ended result gflags.new ≡ each (flip_unless held) count operands.now gflags.old }
{
    if held {
        take_each(count, operands)
    } else {
        flip_each(count, operands, gflags)
    }
}

// One point, as most lines have it: no loop.
fn flip_one(held: bool, operands: &[i32], gflags: &mut [u8]) -> Result<(), Refusal>
    ensures { ended result gflags.new ≡ each (flip_unless held) 1 operands.now gflags.old }
{
    if operands.len() == 0 {
        Err(Refusal::Missing)
    } else if held {
        Ok(())
    } else {
        flip_on_curve(gflags, as_index(operands[0]))
    }
}

pub fn flippt(s: GraphicsState, operands: &[i32], gflags: &mut [u8]) -> Stepped
    ensures { (f : Fixed) (opcode : ℕ) (gx gy tox toy tx ty : List ℤ) (tflags : List ℕ) → lined result gx gy gflags.new tox toy tx ty tflags ≡ flippt_of f opcode operands.now (world s gx gy gflags.old tox toy tx ty tflags) }
{
    let facts = s.facts;
    let held = facts.past_both_iups();
    let count = s.loop_counter;
    if count == 1 {
        let call = flip_one(held, operands, gflags);
        return Stepped {
            call,
            state: s.reset_loop_counter().by_words(),
        };
    }
    let call = flip_points(held, count, operands, gflags);
    Stepped {
        call,
        state: s.reset_loop_counter().by_words(),
    }
}

// ---- FLIPRGON, FLIPRGOFF
// The high point is one of the range, and none lies beyond the last.
fn set_through(gflags: &mut [u8], low: u64, high: u64, on: bool) -> Result<(), Refusal>
    ensures { marked result gflags.new ≡ set_through gflags.old low high on }
{
    let h = high as usize;
    if gflags.len() <= h {
        return Err(Refusal::Range(low));
    }
    set_on_curve(gflags, low, high + 1, on)
}

// -1 as an index: one more is no 64-bit number.
const LAST_INDEX: u64 = 0xFFFFFFFFFFFFFFFF;

// Past both IUPs no range is looked at, but for one up to -1, which is outside there too.
fn held_fast(facts: Facts, high: u64) -> bool
    ensures { result ≡ held_fast facts high }
{
    if high == LAST_INDEX {
        return false;
    }
    facts.past_both_iups()
}

// An odd opcode sets points on the curve, an even one off it.
pub fn fliprg(s: GraphicsState, opcode: usize, operands: &[i32], gflags: &mut [u8]) -> Stepped
    ensures { (f : Fixed) (gx gy tox toy tx ty : List ℤ) (tflags : List ℕ) → lined result gx gy gflags.new tox toy tx ty tflags ≡ fliprg_of f opcode operands.now (world s gx gy gflags.old tox toy tx ty tflags) }
{
    if operands.len() < 2 {
        return refused(s, Refusal::Missing);
    }
    let high = index_at(operands, 0);
    if held_fast(s.facts, high) {
        return done(s);
    }
    let low = index_at(operands, 1);
    let call = set_through(gflags, low, high, is_odd(opcode));
    Stepped {
        call,
        state: s.by_words(),
    }
}
