// The graphics state as a value: graphics.rs, with the fields that document 01 names.
//
// A step takes the state by value and hands it back; each method here says which one group of fields it changes, and its contract is an
// equation with a definition of specs/State.antt, so every other field stays. `is_usable` is the test behind answer 3, for any state that
// a caller brings. What is worked out from the vectors (axes, fdotp) is no part of the state: see the crate projection.
#![tactic(auto)]

ghost use Rattle.std.specs.Prelude.{◌≡◌};
ghost use Rattle.graphics.specs.State.{x_axis, y_axis, all_along, measured_along, moved_along, in_mode, rp0_at, rp1_at, rp2_at, is_twilight, all_zones, zp0_in, zp1_in, zp2_in, all_no, marked_x, marked_y, past_both_iups, vector_in_range, vectors_in_range, usable_state, fresh_state, with_vectors, with_round, with_references, with_loop_counter, with_pointers, with_facts, one_more, counted_in, with_rounding, fresh_measures, pushed_on, with_push};

use int::within;
use round::{RoundMode, RoundState};

// 1 as a 2.14 number: a vector on an axis has it, and no component lies beyond it.
pub const ONE: i32 = 0x4000;

// Two words: a direction, its components 2.14 numbers, or the place of a point.
#[derive(Clone, Copy)]
pub struct Vector {
    pub x: i32,
    pub y: i32,
}

impl Vector {
    pub fn x_axis() -> Vector
        ensures { result ≡ x_axis }
    {
        Vector { x: ONE, y: 0 }
    }

    pub fn y_axis() -> Vector
        ensures { result ≡ y_axis }
    {
        Vector { x: 0, y: ONE }
    }

    pub fn is_in_range(self) -> bool
        ensures { result ≡ vector_in_range self }
    {
        within(self.x, -ONE, ONE) & within(self.y, -ONE, ONE)
    }
}

// What distances are measured along, now and in the original outline, and what points move along.
#[derive(Clone, Copy)]
pub struct Vectors {
    pub projection: Vector,
    pub dual: Vector,
    pub freedom: Vector,
}

impl Vectors {
    pub fn all_along(v: Vector) -> Vectors
        ensures { result ≡ all_along v }
    {
        Vectors {
            projection: v,
            dual: v,
            freedom: v,
        }
    }

    // The projection and the dual vector set.
    pub fn with_projection(mut self, v: Vector) -> Vectors
        ensures { result ≡ measured_along self v }
    {
        self.projection = v;
        self.dual = v;
        self
    }

    pub fn with_freedom(mut self, v: Vector) -> Vectors
        ensures { result ≡ moved_along self v }
    {
        self.freedom = v;
        self
    }

    pub fn are_in_range(self) -> bool
        ensures { result ≡ vectors_in_range self }
    {
        self.projection.is_in_range() & self.dual.is_in_range() & self.freedom.is_in_range()
    }
}

// Which zone a pointer names.
#[derive(Clone, Copy)]
pub enum ZonePointer {
    Twilight,
    Glyph,
}

impl ZonePointer {
    pub fn is_twilight(self) -> bool
        ensures { result ≡ is_twilight self }
    {
        matches!(self, ZonePointer::Twilight)
    }
}

// The reference points: numbers of points, which need not lie in any zone.
#[derive(Clone, Copy)]
pub struct References {
    pub rp0: u64,
    pub rp1: u64,
    pub rp2: u64,
}

#[derive(Clone, Copy)]
pub struct ZonePointers {
    pub zp0: ZonePointer,
    pub zp1: ZonePointer,
    pub zp2: ZonePointer,
}

impl ZonePointers {
    pub fn all_in(zone: ZonePointer) -> ZonePointers
        ensures { result ≡ all_zones zone }
    {
        ZonePointers {
            zp0: zone,
            zp1: zone,
            zp2: zone,
        }
    }

    // Made anew, and not written in place: so the three go from line to line in registers, as in `by_words`.
    pub fn with_zp0(self, zone: ZonePointer) -> ZonePointers
        ensures { result ≡ zp0_in self zone }
    {
        ZonePointers { zp0: zone, ..self }
    }

    pub fn with_zp1(self, zone: ZonePointer) -> ZonePointers
        ensures { result ≡ zp1_in self zone }
    {
        ZonePointers { zp1: zone, ..self }
    }

    pub fn with_zp2(self, zone: ZonePointer) -> ZonePointers
        ensures { result ≡ zp2_in self zone }
    {
        ZonePointers { zp2: zone, ..self }
    }
}

// The five yes/no facts, in document 01's order.
#[derive(Clone, Copy)]
pub struct Facts {
    pub backward_compatibility: bool,
    pub pedantic: bool,
    // Given by the host.
    pub native_clear_type_x: bool,
    pub did_iup_x: bool,
    pub did_iup_y: bool,
}

impl Facts {
    pub fn all_no() -> Facts
        ensures { result ≡ all_no }
    {
        Facts {
            backward_compatibility: false,
            pedantic: false,
            native_clear_type_x: false,
            did_iup_x: false,
            did_iup_y: false,
        }
    }

    // Whether y is held fast too: under backward compatibility, once both axes are interpolated.
    pub fn past_both_iups(self) -> bool
        ensures { result ≡ past_both_iups self }
    {
        self.backward_compatibility & self.did_iup_x & self.did_iup_y
    }
}

// The distances that lines measure by.
#[derive(Clone, Copy)]
pub struct Measures {
    // Control value cut-in.
    pub cut_in: i32,
    pub minimum_distance: i32,
    pub single_width: i32,
    pub single_width_cut_in: i32,
    pub auto_flip: bool,
    // Pixels to a font unit, as a 16.16 number.
    pub scale: i32,
}

impl Measures {
    pub fn fresh() -> Measures
        ensures { result ≡ fresh_measures }
    {
        Measures {
            cut_in: 68,
            minimum_distance: 64,
            single_width: 0,
            single_width_cut_in: 0,
            auto_flip: true,
            scale: 0,
        }
    }
}

// What is counted since the state was made.
#[derive(Clone, Copy)]
pub struct Tallies {
    // Roundings in which some operation went past 32 bits.
    pub wrapped_roundings: u32,
    // What was pushed last, and how often something was.
    pub last_pushed: i32,
    pub pushes: u32,
}

// A count goes as far as 32 bits do.
fn one_more(n: u32) -> u32
    ensures { result ≡ one_more n }
{
    n.saturating_add(1)
}

impl Tallies {
    // A rounding counted, where it went past 32 bits.
    pub fn with_rounding(self, wrapped: bool) -> Tallies
        ensures { result ≡ counted_in wrapped self }
    {
        if wrapped {
            Tallies {
                wrapped_roundings: one_more(self.wrapped_roundings),
                ..self
            }
        } else {
            self
        }
    }

    // A value pushed, and counted.
    pub fn with_push(self, value: i32) -> Tallies
        ensures { result ≡ pushed_on value self }
    {
        Tallies {
            last_pushed: value,
            pushes: one_more(self.pushes),
            ..self
        }
    }
}

// What a later line needs goes to a group, so that what doesn't read it stays as it is.
#[derive(Clone, Copy)]
pub struct GraphicsState {
    pub vectors: Vectors,
    pub round: RoundState,
    pub references: References,
    pub loop_counter: u32,
    pub pointers: ZonePointers,
    pub measures: Measures,
    pub facts: Facts,
    pub tallies: Tallies,
}

impl GraphicsState {
    // The state that a glyph starts with.
    pub fn fresh() -> GraphicsState
        ensures { result ≡ fresh_state }
    {
        GraphicsState {
            vectors: Vectors::all_along(Vector::x_axis()),
            round: RoundState::fresh(),
            references: References {
                rp0: 0,
                rp1: 0,
                rp2: 0,
            },
            loop_counter: 1,
            pointers: ZonePointers::all_in(ZonePointer::Glyph),
            measures: Measures::fresh(),
            facts: Facts::all_no(),
            tallies: Tallies {
                wrapped_roundings: 0,
                last_pushed: 0,
                pushes: 0,
            },
        }
    }

    // The same state, taken apart and put together by its words: kept so, it goes from line to line in registers.
    pub fn by_words(self) -> GraphicsState
        ensures { result ≡ self }
    {
        let vectors = self.vectors;
        let projection = vectors.projection;
        let dual = vectors.dual;
        let freedom = vectors.freedom;
        let round = self.round;
        let mode = round.mode;
        let pointers = self.pointers;
        let zp0 = pointers.zp0;
        let zp1 = pointers.zp1;
        let zp2 = pointers.zp2;
        GraphicsState {
            vectors: Vectors {
                projection,
                dual,
                freedom,
            },
            round: RoundState {
                mode,
                threshold: round.threshold,
                phase: round.phase,
                period: round.period,
            },
            references: References {
                rp0: self.references.rp0,
                rp1: self.references.rp1,
                rp2: self.references.rp2,
            },
            loop_counter: self.loop_counter,
            pointers: ZonePointers { zp0, zp1, zp2 },
            measures: Measures {
                cut_in: self.measures.cut_in,
                minimum_distance: self.measures.minimum_distance,
                single_width: self.measures.single_width,
                single_width_cut_in: self.measures.single_width_cut_in,
                auto_flip: self.measures.auto_flip,
                scale: self.measures.scale,
            },
            facts: Facts {
                backward_compatibility: self.facts.backward_compatibility,
                pedantic: self.facts.pedantic,
                native_clear_type_x: self.facts.native_clear_type_x,
                did_iup_x: self.facts.did_iup_x,
                did_iup_y: self.facts.did_iup_y,
            },
            tallies: Tallies {
                wrapped_roundings: self.tallies.wrapped_roundings,
                last_pushed: self.tallies.last_pushed,
                pushes: self.tallies.pushes,
            },
        }
    }

    // The zone that each pointer names: read here, so that no line copies all three.
    pub fn zp0(self) -> ZonePointer
        ensures { result ≡ self.pointers.zp0 }
    {
        self.pointers.zp0
    }

    pub fn zp1(self) -> ZonePointer
        ensures { result ≡ self.pointers.zp1 }
    {
        self.pointers.zp1
    }

    pub fn zp2(self) -> ZonePointer
        ensures { result ≡ self.pointers.zp2 }
    {
        self.pointers.zp2
    }

    // The test behind answer 3.
    pub fn is_usable(self) -> bool
        ensures { result ≡ usable_state self }
    {
        self.vectors.are_in_range() & self.round.is_usable()
    }

    // All three vectors set, as SVTCA does.
    pub fn with_all_vectors(mut self, v: Vector) -> GraphicsState
        ensures { result ≡ with_vectors self (all_along v) }
    {
        self.vectors = Vectors::all_along(v);
        self
    }

    // The projection and the dual vector set, as SPVTCA does.
    pub fn with_projection_vectors(mut self, v: Vector) -> GraphicsState
        ensures { result ≡ with_vectors self (measured_along self.vectors v) }
    {
        self.vectors = self.vectors.with_projection(v);
        self
    }

    // The freedom vector set, as SFVTCA does.
    pub fn with_freedom_vector(mut self, v: Vector) -> GraphicsState
        ensures { result ≡ with_vectors self (moved_along self.vectors v) }
    {
        self.vectors = self.vectors.with_freedom(v);
        self
    }

    // The round mode set, as RTG and its kin do: threshold, phase and period stay.
    pub fn with_round_mode(mut self, mode: RoundMode) -> GraphicsState
        ensures { result ≡ with_round self (in_mode self.round mode) }
    {
        self.round = self.round.with_mode(mode);
        self
    }

    // The whole round state set, as SROUND and S45ROUND do.
    pub fn with_round(mut self, round: RoundState) -> GraphicsState
        ensures { result ≡ with_round self round }
    {
        self.round = round;
        self
    }

    pub fn with_loop_counter(mut self, count: u32) -> GraphicsState
        ensures { result ≡ with_loop_counter self count }
    {
        self.loop_counter = count;
        self
    }

    // The loop counter back to 1, as each looped instruction leaves it.
    pub fn reset_loop_counter(mut self) -> GraphicsState
        ensures { result ≡ with_loop_counter self 1 }
    {
        self.loop_counter = 1;
        self
    }

    pub fn with_rp0(mut self, at: u64) -> GraphicsState
        ensures { result ≡ with_references self (rp0_at self.references at) }
    {
        self.references.rp0 = at;
        self
    }

    pub fn with_rp1(mut self, at: u64) -> GraphicsState
        ensures { result ≡ with_references self (rp1_at self.references at) }
    {
        self.references.rp1 = at;
        self
    }

    pub fn with_rp2(mut self, at: u64) -> GraphicsState
        ensures { result ≡ with_references self (rp2_at self.references at) }
    {
        self.references.rp2 = at;
        self
    }

    pub fn with_zp0(mut self, zone: ZonePointer) -> GraphicsState
        ensures { result ≡ with_pointers self (zp0_in self.pointers zone) }
    {
        self.pointers = self.pointers.with_zp0(zone);
        self
    }

    pub fn with_zp1(mut self, zone: ZonePointer) -> GraphicsState
        ensures { result ≡ with_pointers self (zp1_in self.pointers zone) }
    {
        self.pointers = self.pointers.with_zp1(zone);
        self
    }

    pub fn with_zp2(mut self, zone: ZonePointer) -> GraphicsState
        ensures { result ≡ with_pointers self (zp2_in self.pointers zone) }
    {
        self.pointers = self.pointers.with_zp2(zone);
        self
    }

    // All three pointers set, as SZPS does.
    pub fn with_all_pointers(mut self, zone: ZonePointer) -> GraphicsState
        ensures { result ≡ with_pointers self (all_zones zone) }
    {
        self.pointers = ZonePointers::all_in(zone);
        self
    }

    // The mark that IUP sets on x.
    pub fn with_did_iup_x(mut self) -> GraphicsState
        ensures { result ≡ with_facts self (marked_x self.facts) }
    {
        self.facts.did_iup_x = true;
        self
    }

    // The mark that IUP sets on y.
    pub fn with_did_iup_y(mut self) -> GraphicsState
        ensures { result ≡ with_facts self (marked_y self.facts) }
    {
        self.facts.did_iup_y = true;
        self
    }

    // A rounding counted, where it went past 32 bits.
    pub fn with_rounding(mut self, wrapped: bool) -> GraphicsState
        ensures { result ≡ with_rounding wrapped self }
    {
        self.tallies = self.tallies.with_rounding(wrapped);
        self
    }

    // A value pushed, and counted.
    pub fn with_push(mut self, value: i32) -> GraphicsState
        ensures { result ≡ with_push value self }
    {
        self.tallies = self.tallies.with_push(value);
        self
    }
}
