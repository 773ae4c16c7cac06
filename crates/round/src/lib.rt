// Rounding of 26.6 distances: round.rs.
//
// `round` answers for every state and every distance: the distance rounded, and whether some operation that the mode and the sign use went past 32 bits
// (document 02, K5). It equals `rounding` of specs/Round.antt, which goes by the eight modes; specs/Tracked.antt has the operations, on exact numbers.
// `try_round` is the call for whoever brings a state of their own: it refuses Super45 with period 0 (answer 3), where the Rust panics.
// The facts that are proved of the definitions, on signs, multiples of 64 and how far a distance moves, are in proofs/Facts.antt.
#![tactic(auto)]

ghost use Rattle.std.specs.Prelude.{◌≡◌};
ghost use Rattle.round.specs.Tracked.{given as Tracked·given, cut as Tracked·cut, plus as Tracked·plus, minus as Tracked·minus, times as Tracked·times, over as Tracked·over, negated as Tracked·negated};
ghost use Rattle.round.specs.Round.{mirrored, grid, half_grid, double_grid, down_to_grid, up_to_grid, period_floor, keep_up, keep_down, super_by, rounding, usable, rounded_of};
ghost use Rattle.round.specs.Round.{fresh as Round·fresh, outward as Round·outward, inward as Round·inward};

use answer::Refusal;
use int::{bit_and, equal, less, low32, max, min, non_negative};
use math::{floor, floor_pad};

// The eight modes, in round.rs order, with the instruction that sets each.
#[derive(Clone, Copy)]
pub enum RoundMode {
    // RTG
    Grid,
    // RTHG
    HalfGrid,
    // RTDG
    DoubleGrid,
    // RDTG
    DownToGrid,
    // RUTG
    UpToGrid,
    // ROFF
    Off,
    // SROUND
    Super,
    // S45ROUND
    Super45,
}

// The mode, and the three numbers that Super and Super45 read.
#[derive(Clone, Copy)]
pub struct RoundState {
    pub mode: RoundMode,
    pub threshold: i32,
    pub phase: i32,
    pub period: i32,
}

// A word, and whether an operation on the way to it went past 32 bits.
#[derive(Clone, Copy)]
pub struct Tracked {
    pub word: i32,
    pub wrapped: bool,
}

// ---- the operations of round.rs, on exact numbers cut to words
fn given(word: i32) -> Tracked
    ensures { result ≡ Tracked·given word }
{
    Tracked {
        word,
        wrapped: false,
    }
}

// An exact number cut to a word. `before`: whether an operation that led to it went past 32 bits.
fn cut(before: bool, exact: i64) -> Tracked
    ensures { result ≡ Tracked·cut before exact }
{
    let word = low32(exact);
    let past = word as i64 != exact;
    Tracked {
        word,
        wrapped: before | past,
    }
}

fn plus(a: Tracked, b: Tracked) -> Tracked
    ensures { result ≡ Tracked·plus a b }
{
    cut(a.wrapped | b.wrapped, a.word as i64 + b.word as i64)
}

fn minus(a: Tracked, b: Tracked) -> Tracked
    ensures { result ≡ Tracked·minus a b }
{
    cut(a.wrapped | b.wrapped, a.word as i64 - b.word as i64)
}

fn times(a: Tracked, b: i32) -> Tracked
    ensures { result ≡ Tracked·times a (Tracked·given b) }
{
    cut(a.wrapped, a.word as i64 * b as i64)
}

// Toward zero. The Rust panics where b is 0; here the quotient is then 0, and the callers refuse before.
fn over(a: Tracked, b: i32) -> Tracked
    ensures { result ≡ Tracked·over a (Tracked·given b) }
{
    if b == 0 {
        cut(a.wrapped, 0)
    } else {
        cut(a.wrapped, a.word as i64 / b as i64)
    }
}

fn negated(a: Tracked) -> Tracked
    ensures { result ≡ Tracked·negated a }
{
    cut(a.wrapped, 0 - a.word as i64)
}

// ---- the modes that go by the grid: each at -d for a distance below 0, and put back
fn outward(d: i32) -> Tracked
    ensures { result ≡ Round·outward d }
{
    if non_negative(d) {
        given(d)
    } else {
        negated(given(d))
    }
}

fn inward(d: i32, r: Tracked) -> Tracked
    ensures { result ≡ Round·inward d r }
{
    if non_negative(d) {
        Tracked {
            word: max(r.word, 0),
            ..r
        }
    } else {
        let back = negated(r);
        Tracked {
            word: min(back.word, 0),
            ..back
        }
    }
}

// The multiple of 64 below.
fn floored(x: Tracked) -> Tracked
    ensures { result ≡ down_to_grid x }
{
    Tracked {
        word: floor(x.word),
        ..x
    }
}

fn to_grid(d: i32) -> Tracked
    ensures { result ≡ mirrored grid d }
{
    inward(d, floored(plus(outward(d), given(32))))
}

fn to_half_grid(d: i32) -> Tracked
    ensures { result ≡ mirrored half_grid d }
{
    inward(d, plus(floored(outward(d)), given(32)))
}

fn to_double_grid(d: i32) -> Tracked
    ensures { result ≡ mirrored double_grid d }
{
    let sum = plus(outward(d), given(16));
    let half = Tracked {
        word: floor_pad(sum.word, 32),
        ..sum
    };
    inward(d, half)
}

fn down_to_grid(d: i32) -> Tracked
    ensures { result ≡ mirrored down_to_grid d }
{
    inward(d, floored(outward(d)))
}

fn up_to_grid(d: i32) -> Tracked
    ensures { result ≡ mirrored up_to_grid d }
{
    inward(d, floored(plus(outward(d), given(63))))
}

// ---- Super and Super45
// x down to its period: by the mask -period, and where `divides` by a quotient toward zero.
fn period_floor(x: Tracked, period: i32, divides: bool) -> Tracked
    ensures { result ≡ period_floor divides period x }
{
    if divides {
        times(over(x, period), period)
    } else {
        let mask = negated(given(period));
        Tracked {
            word: bit_and(x.word, mask.word),
            wrapped: x.wrapped | mask.wrapped,
        }
    }
}

// v where it is not below 0, else the phase.
fn keep_up(phase: i32, v: Tracked) -> Tracked
    ensures { result ≡ keep_up phase v }
{
    if non_negative(v.word) {
        v
    } else {
        Tracked { word: phase, ..v }
    }
}

// v where it is not above 0, else the phase on that side.
fn keep_down(phase: i32, v: Tracked) -> Tracked
    ensures { result ≡ keep_down phase v }
{
    if less(0, v.word) {
        let other = negated(given(phase));
        Tracked {
            word: other.word,
            wrapped: v.wrapped | other.wrapped,
        }
    } else {
        v
    }
}

// Super, and where `divides` Super45.
fn to_super(d: i32, threshold: i32, phase: i32, period: i32, divides: bool) -> Tracked
    ensures { result ≡ super_by (period_floor divides period) threshold phase d }
{
    let bias = minus(given(threshold), given(phase));
    if non_negative(d) {
        let at = period_floor(plus(given(d), bias), period, divides);
        keep_up(phase, plus(at, given(phase)))
    } else {
        let at = period_floor(minus(bias, given(d)), period, divides);
        keep_down(phase, minus(negated(at), given(phase)))
    }
}

// A distance rounded, by the numbers of a round state: lent so, no line's state has to lie in memory.
pub fn round_by(mode: RoundMode, threshold: i32, phase: i32, period: i32, d: i32) -> Tracked
    ensures { result ≡ rounding (record { mode = mode; threshold = threshold; phase = phase; period = period }) d }
{
    match mode {
        RoundMode::Grid => to_grid(d),
        RoundMode::HalfGrid => to_half_grid(d),
        RoundMode::DoubleGrid => to_double_grid(d),
        RoundMode::DownToGrid => down_to_grid(d),
        RoundMode::UpToGrid => up_to_grid(d),
        RoundMode::Off => given(d),
        RoundMode::Super => to_super(d, threshold, phase, period, false),
        RoundMode::Super45 => to_super(d, threshold, phase, period, true),
    }
}

impl RoundState {
    // The state that a glyph starts with: Grid.
    pub fn fresh() -> RoundState
        ensures { result ≡ Round·fresh }
    {
        RoundState {
            mode: RoundMode::Grid,
            threshold: 0,
            phase: 0,
            period: 64,
        }
    }

    // The mode set, and nothing else, as RTG and its kin do.
    pub fn with_mode(self, mode: RoundMode) -> RoundState
        ensures { result ≡ record { mode = mode; threshold = self.threshold; phase = self.phase; period = self.period } }
    {
        RoundState { mode, ..self }
    }

    // A distance rounded. With Super45 and period 0, which every entry refuses, the quotient counts as 0.
    pub fn round(self, d: i32) -> Tracked
        ensures { result ≡ rounding self d }
    {
        round_by(self.mode, self.threshold, self.phase, self.period, d)
    }

    // Whether the state can be rounded by: not Super45 with period 0.
    pub fn is_usable(self) -> bool
        ensures { result ≡ usable self }
    {
        match self.mode {
            RoundMode::Super45 => !equal(self.period, 0),
            _ => true,
        }
    }

    // The direct call: a distance rounded, or the refusal of a state that cannot round.
    pub fn try_round(self, d: i32) -> Result<Tracked, Refusal>
        ensures { result ≡ rounded_of self d }
    {
        if self.is_usable() {
            Ok(self.round(d))
        } else {
            Err(Refusal::State)
        }
    }
}
