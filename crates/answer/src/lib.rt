// What the replayer says back: why a call was refused, with the number and detail of document 01 (and 02's K1, K8 and K13) for each reason.
//
// Each reason is a case of `Refusal`; specs/Answer.antt gives its number and its detail, and every promise on refusals goes
// through these two definitions. What a direct call says is `Said` there: number, place, lines and detail. What a refusal leaves in
// coordinates, flags and state is said where it is given.
#![tactic(auto)]

ghost use Rattle.std.specs.Prelude.{◌≡◌, ℕ};
ghost use Rattle.answer.specs.Answer.{number_of, detail_of, said_of};

#[derive(Clone, Copy)]
pub enum Refusal {
    // Unequal lengths, or a size above its limit.
    Sizes,
    // A vector component outside -16,384..16,384, or Super45 with period 0.
    State,
    // A start beyond the sheet, an opcode word that is no known opcode, a count word that is missing, negative or past the end.
    Line,
    // More operands than the line takes.
    Surplus,
    // An operand is wanted and the list has run out.
    Missing,
    // A point outside its zone.
    Point(u64),
    // A control value outside the list.
    ControlValue(u64),
    // A zone pointer that is neither 0 nor 1.
    ZonePointer(u64),
    // A loop counter below 0.
    LoopCount(u64),
    // A range of points with its start above its end, or its end above the zone's length.
    Range(u64),
    // A contour that its zone hasn't, where the state is pedantic.
    Contour(u64),
    // A line that backward compatibility shuts out.
    Compatibility,
    // Contour ends that don't rise strictly, or one at or above the number of points.
    Ends,
    // A current coordinate of the glyph that is beyond 4,194,304 or -4,194,304, of which no outline is drawn.
    Far,
}

// What an answer says, as a number and a detail.
pub trait Says {
    ghost number_said: { Self → ℕ };

    ghost detail_said: { Self → ℕ };

    fn number(self) -> u32
        ensures { result ≡ number_said self };

    fn detail(self) -> u64
        ensures { result ≡ detail_said self };
}

impl Says for Refusal {
    ghost number_said = { number_of };

    ghost detail_said = { detail_of };

    fn number(self) -> u32 {
        match self {
            Refusal::Sizes => 2,
            Refusal::State => 3,
            Refusal::Line => 4,
            Refusal::Surplus => 5,
            Refusal::Missing => 6,
            Refusal::Point(_) => 7,
            Refusal::ControlValue(_) => 8,
            Refusal::ZonePointer(_) => 9,
            Refusal::LoopCount(_) => 10,
            Refusal::Range(_) => 11,
            Refusal::Contour(_) => 12,
            Refusal::Compatibility => 13,
            Refusal::Ends => 14,
            Refusal::Far => 19,
        }
    }

    fn detail(self) -> u64 {
        match self {
            Refusal::Point(at) => at,
            Refusal::ControlValue(at) => at,
            Refusal::ZonePointer(operand) => operand,
            Refusal::LoopCount(operand) => operand,
            Refusal::Range(start) => start,
            Refusal::Contour(at) => at,
            _ => 0,
        }
    }
}

// What a direct call says: 0 and 0 where it was done, whatever it gives back. Its place and its line count are 0.
impl<T: Drop> Says for Result<T, Refusal> {
    ghost number_said = { λ said. (said_of said).number };

    ghost detail_said = { λ said. (said_of said).detail };

    fn number(self) -> u32 {
        match self {
            Ok(_) => 0,
            Err(why) => why.number(),
        }
    }

    fn detail(self) -> u64 {
        match self {
            Ok(_) => 0,
            Err(why) => why.detail(),
        }
    }
}
