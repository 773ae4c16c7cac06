// What a feed keeps between its calls: what it said, and the words of an unfinished line, in a carry that the caller lends.
//
// `Fed` goes in by value and is handed back. The carry holds the words of the unfinished line from its front on, `held` of them; `has_room` asks of every
// call that they are the beginning of a line. `first` brings words that came to those that wait, and `rest` puts words away for the next call.
#![tactic(auto)]

ghost use Rattle.std.specs.Prelude.{true, ◌++◌, ◌≡◌, ◌+◌, ◌≤◌, length, take};
ghost use Rattle.feed_look.specs.Look.{look_of, most_line};
ghost use Rattle.feed_look.specs.declared.Seen.TheVariants.{Waits};
ghost use Rattle.feed_carry.specs.Carry.{detail_of_said, fresh, carry_has_room, said_is_open, number_of_said, waits};
ghost use Rattle.feed_carry.specs.Steps.{FirstIs, fed, kept, rest_by};
ghost use Rattle.feed_carry.specs.declared.Said.TheVariants.{Open};

use answer::{Refusal, Says};
use feed_look::{LINE, Seen, append, look, words_of};
use graphics::GraphicsState;
use limits::WORDS;

// ---- what a feed says
#[derive(Clone, Copy)]
pub enum Said {
    // Words may follow.
    Open,
    // The end was called, and no line was unfinished.
    Ended,
    // A line of more operands than may wait.
    Long,
    Refused(Refusal),
}

impl Says for Said {
    ghost number_said = { number_of_said };

    ghost detail_said = { detail_of_said };

    fn number(self) -> u32 {
        match self {
            Said::Open => 1,
            Said::Ended => 0,
            Said::Long => 18,
            Said::Refused(why) => why.number(),
        }
    }

    fn detail(self) -> u64 {
        match self {
            Said::Refused(why) => why.detail(),
            _ => 0,
        }
    }
}

impl Said {
    #[tactic(auto, unfolding(crate::specs::Carry::said_is_open))]
    pub fn is_open(self) -> bool
        ensures { result ≡ said_is_open self }
    {
        matches!(self, Said::Open)
    }
}

// What a call says, and what is kept for the next: the place of the unfinished line, how many of its words the carry holds, and the state.
#[derive(Clone, Copy)]
pub struct Fed {
    pub said: Said,
    pub base: usize,
    pub held: usize,
    pub lines: u64,
    pub state: GraphicsState,
}

// A feed of which nothing has arrived.
pub fn begin(s: GraphicsState) -> Fed
    ensures { result ≡ fresh s }
{
    Fed {
        said: Said::Open,
        base: 0,
        held: 0,
        lines: 0,
        state: s,
    }
}

// It ends at a line, and nothing waits any more.
pub fn stopped(said: Said, base: usize, lines: u64, s: GraphicsState) -> Fed
    ensures { result ≡ fed said base 0 lines s }
{
    Fed {
        said,
        base,
        held: 0,
        lines,
        state: s,
    }
}

fn waiting(base: usize, held: usize, lines: u64, s: GraphicsState) -> Fed
    ensures { result ≡ fed Open base held lines s }
{
    Fed {
        said: Said::Open,
        base,
        held,
        lines,
        state: s,
    }
}

// ---- the words that wait
fn is_waiting(seen: Seen) -> bool
    ensures { result ≡ waits seen }
{
    match seen {
        Seen::Waits => true,
        Seen::Bad => false,
        Seen::Long => false,
        Seen::Whole(_) => false,
    }
}

// What a call asks of the carry and of the number of its words.
pub fn has_room(base: usize, held: usize, words: usize, carry: &[i32]) -> bool
    ensures { result ≡ carry_has_room base held words carry.now }
{
    if carry.len() < LINE {
        return false;
    }
    if carry.len() < held {
        return false;
    }
    if !is_waiting(look(&carry[..held])) {
        return false;
    }
    if WORDS < base {
        return false;
    }
    if WORDS - base < held {
        return false;
    }
    words <= WORDS - base - held
}

// Words that no whole line begins wait behind those that the carry holds, or the feed ends at them.
pub fn rest(
    base: usize,
    held: usize,
    lines: u64,
    s: GraphicsState,
    words: &[i32],
    carry: &mut [i32],
    seen: Seen,
) -> Fed
    requires { seen ≡ Waits → held + length words.now ≤ length carry.old }
    ensures { kept result carry.new ≡ rest_by base held lines s words.now carry.old seen }
{
    match seen {
        Seen::Waits => waiting(base, append(words, carry, held), lines, s),
        Seen::Bad => stopped(Said::Refused(Refusal::Line), base, lines, s),
        Seen::Long => stopped(Said::Long, base, lines, s),
        Seen::Whole(_) => waiting(base, 0, lines, s),
    }
}

// What a call begins with: the feed is settled without a line, or so many words stand in `line` and are to be run first.
#[derive(Clone, Copy)]
pub enum Begins {
    Settled(Fed),
    Run(usize),
}

// The words that wait and those that came, as many as a line may have; how many they are.
fn join(held: usize, words: &[i32], carry: &[i32], line: &mut [i32]) -> usize
    requires held_in_bounds { held ≤ length carry.now }
    requires held_le_most_line { held ≤ most_line }
    requires line_len { length line.old ≡ most_line }
    ensures { (take result line.new ≡ take most_line (take held carry.now ++ words.now)) × (result ≡ length (take most_line (take held carry.now ++ words.now))) }
{
    let kept = append(&carry[..held], line, 0);
    let room = LINE - held;
    if words.len() < room {
        append(words, line, kept)
    } else {
        append(&words[..room], line, kept)
    }
}

pub fn first(c: Fed, words: &[i32], carry: &mut [i32], line: &mut [i32]) -> Begins
    requires held_in_bounds { c.held ≤ length carry.old }
    requires carry_value { waits (look_of (take c.held carry.old)) ≡ true }
    requires most_line_in_bounds { most_line ≤ length carry.old }
    requires line_len { length line.old ≡ most_line }
    ensures { FirstIs c words.now carry.old carry.new line.new result }
{
    if c.held == 0 {
        return Begins::Run(0);
    }
    let joined = join(c.held, words, carry, line);
    let seen = look(&line[..joined]);
    let whole = words_of(seen);
    if 0 < whole {
        return Begins::Run(whole);
    }
    Begins::Settled(rest(c.base, c.held, 0, c.state, words, carry, seen))
}
