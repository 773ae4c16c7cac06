// The graphics state as words, in the order of document 02, K4, K5 and K7: what a record keeps and what a caller from C hands over.
//
// The public functions answer for every input, and each is an equation with a definition of specs/Words.antt: `is_state` tells words that are a
// state from others, `read_state` gives the state that words stand for, and `write_state` the words of a state, `word_of` one of them. That
// each undoes the other is in proofs/Back.antt. A field that the state gains goes to the end, so that older words keep their places.
#![tactic(auto)]

ghost use Rattle.std.specs.Prelude.{◌≡◌, ◌%◌, ◌/◌, ◌^◌, ◌+◌, ◌*◌, get_or, leb};
ghost use Rattle.words.specs.Lists.{all_at_most};
ghost use Rattle.state_words.specs.Words.{state_word, number_at, vector_at, long_at, mode_of, zone_of, fact_of, mode_word, zone_word, fact_word, vectors_words, round_words, references_words, pointers_words, facts_words, distance_words, push_words, state_words, word_of, state_of, is_state, written};

use graphics::{
    Facts, GraphicsState, Measures, References, Tallies, Vector, Vectors, ZonePointer, ZonePointers,
};
use int::{from_bits, to_bits};
use round::{RoundMode, RoundState};

// How many words a state is: the one place of this number in the code.
pub const STATE_WORDS: usize = 34;

// The first word of each part; the vectors are first.
const ROUND: usize = 6;

const REFERENCES: usize = 10;

const LOOP_COUNTER: usize = 16;

const POINTERS: usize = 17;

const FACTS: usize = 20;

const CUT_IN: usize = 25;

const WRAPPED_ROUNDINGS: usize = 26;

const DISTANCES: usize = 27;

const AUTO_FLIP: usize = 30;

const PUSHES: usize = 32;

// ---- one word
// Word k, 0 outside.
fn word(words: &[u32], k: usize) -> u32
    ensures { result ≡ state_word words.now k }
{
    if k < words.len() { words[k] } else { 0 }
}

fn number(words: &[u32], k: usize) -> i32
    ensures { result ≡ number_at words.now k }
{
    from_bits(word(words, k))
}

fn joined(low: u32, high: u32) -> u64
    ensures { result ≡ low + high * 2 ^ 32 }
{
    low as u64 + high as u64 * 0x1_0000_0000
}

fn low_word(x: u64) -> u32
    ensures { result ≡ x % 2 ^ 32 }
{
    (x % 0x1_0000_0000) as u32
}

fn high_word(x: u64) -> u32
    ensures { result ≡ x / 2 ^ 32 }
{
    (x / 0x1_0000_0000) as u32
}

// A number above 7 is taken for the last mode; `is_state` refuses it.
pub fn mode_of(n: u32) -> RoundMode
    ensures { result ≡ mode_of n }
{
    match n {
        0 => RoundMode::Grid,
        1 => RoundMode::HalfGrid,
        2 => RoundMode::DoubleGrid,
        3 => RoundMode::DownToGrid,
        4 => RoundMode::UpToGrid,
        5 => RoundMode::Off,
        6 => RoundMode::Super,
        _ => RoundMode::Super45,
    }
}

fn mode_word(mode: RoundMode) -> u32
    ensures { result ≡ mode_word mode }
{
    match mode {
        RoundMode::Grid => 0,
        RoundMode::HalfGrid => 1,
        RoundMode::DoubleGrid => 2,
        RoundMode::DownToGrid => 3,
        RoundMode::UpToGrid => 4,
        RoundMode::Off => 5,
        RoundMode::Super => 6,
        RoundMode::Super45 => 7,
    }
}

pub fn zone_of(n: u32) -> ZonePointer
    ensures { result ≡ zone_of n }
{
    match n {
        0 => ZonePointer::Twilight,
        _ => ZonePointer::Glyph,
    }
}

fn zone_word(zone: ZonePointer) -> u32
    ensures { result ≡ zone_word zone }
{
    match zone {
        ZonePointer::Twilight => 0,
        ZonePointer::Glyph => 1,
    }
}

fn fact_of(n: u32) -> bool
    ensures { result ≡ fact_of n }
{
    match n {
        0 => false,
        _ => true,
    }
}

fn fact_word(yes: bool) -> u32
    ensures { result ≡ fact_word yes }
{
    if yes { 1 } else { 0 }
}

// ---- the state that words stand for
fn vector(words: &[u32], x: usize, y: usize) -> Vector
    ensures { result ≡ vector_at words.now x y }
{
    let x = number(words, x);
    let y = number(words, y);
    Vector { x, y }
}

fn vectors_of(words: &[u32]) -> Vectors
    ensures { result ≡ (state_of words.now).vectors }
{
    let projection = vector(words, 0, 1);
    let dual = vector(words, 2, 3);
    let freedom = vector(words, 4, 5);
    Vectors {
        projection,
        dual,
        freedom,
    }
}

fn round_of(words: &[u32]) -> RoundState
    ensures { result ≡ (state_of words.now).round }
{
    let mode = mode_of(word(words, ROUND));
    let threshold = number(words, ROUND + 1);
    let phase = number(words, ROUND + 2);
    let period = number(words, ROUND + 3);
    RoundState {
        mode,
        threshold,
        phase,
        period,
    }
}

// A number of 64 bits, from its low and its high word.
fn long(words: &[u32], low: usize, high: usize) -> u64
    ensures { result ≡ long_at words.now low high }
{
    joined(word(words, low), word(words, high))
}

fn references_of(words: &[u32]) -> References
    ensures { result ≡ (state_of words.now).references }
{
    let rp0 = long(words, REFERENCES, REFERENCES + 1);
    let rp1 = long(words, REFERENCES + 2, REFERENCES + 3);
    let rp2 = long(words, REFERENCES + 4, REFERENCES + 5);
    References { rp0, rp1, rp2 }
}

fn pointers_of(words: &[u32]) -> ZonePointers
    ensures { result ≡ (state_of words.now).pointers }
{
    let zp0 = zone_of(word(words, POINTERS));
    let zp1 = zone_of(word(words, POINTERS + 1));
    let zp2 = zone_of(word(words, POINTERS + 2));
    ZonePointers { zp0, zp1, zp2 }
}

fn facts_of(words: &[u32]) -> Facts
    ensures { result ≡ (state_of words.now).facts }
{
    let backward_compatibility = fact_of(word(words, FACTS));
    let pedantic = fact_of(word(words, FACTS + 1));
    let native_clear_type_x = fact_of(word(words, FACTS + 2));
    let did_iup_x = fact_of(word(words, FACTS + 3));
    let did_iup_y = fact_of(word(words, FACTS + 4));
    Facts {
        backward_compatibility,
        pedantic,
        native_clear_type_x,
        did_iup_x,
        did_iup_y,
    }
}

fn measures_of(words: &[u32]) -> Measures
    ensures { result ≡ (state_of words.now).measures }
{
    let cut_in = number(words, CUT_IN);
    let minimum_distance = number(words, DISTANCES);
    let single_width = number(words, DISTANCES + 1);
    let single_width_cut_in = number(words, DISTANCES + 2);
    let auto_flip = fact_of(word(words, AUTO_FLIP));
    let scale = number(words, AUTO_FLIP + 1);
    Measures {
        cut_in,
        minimum_distance,
        single_width,
        single_width_cut_in,
        auto_flip,
        scale,
    }
}

fn tallies_of(words: &[u32]) -> Tallies
    ensures { result ≡ (state_of words.now).tallies }
{
    let wrapped_roundings = word(words, WRAPPED_ROUNDINGS);
    let last_pushed = number(words, PUSHES);
    let pushes = word(words, PUSHES + 1);
    Tallies {
        wrapped_roundings,
        last_pushed,
        pushes,
    }
}

// The state that words stand for: a word that is missing counts as 0.
pub fn read_state(words: &[u32]) -> GraphicsState
    ensures { result ≡ state_of words.now }
{
    let vectors = vectors_of(words);
    let round = round_of(words);
    let references = references_of(words);
    let loop_counter = word(words, LOOP_COUNTER);
    let pointers = pointers_of(words);
    let measures = measures_of(words);
    let facts = facts_of(words);
    let tallies = tallies_of(words);
    GraphicsState {
        vectors,
        round,
        references,
        loop_counter,
        pointers,
        measures,
        facts,
        tallies,
    }
}

// ---- which words are a state
fn at_most(words: &[u32], k: usize, most: u32) -> bool
    ensures { result ≡ leb (state_word words.now k) most }
{
    word(words, k) <= most
}

fn all_at_most(words: &[u32], most: u32) -> bool
    ensures { result ≡ all_at_most most words.now }
{
    words.iter().all(|word| *word <= most)
}

// Whether words are a state: as many as a state has, and each within its range. Vectors and period are left to the run's answer 3.
pub fn is_state(words: &[u32]) -> bool
    ensures { result ≡ is_state words.now }
{
    if words.len() != STATE_WORDS {
        return false;
    }
    at_most(words, ROUND, 7)
        & all_at_most(&words[POINTERS..CUT_IN], 1)
        & at_most(words, AUTO_FLIP, 1)
}

// ---- the words of a state
fn vectors_word(v: Vectors, k: usize) -> u32
    ensures { result ≡ get_or (vectors_words v) k 0 }
{
    match k {
        0 => to_bits(v.projection.x),
        1 => to_bits(v.projection.y),
        2 => to_bits(v.dual.x),
        3 => to_bits(v.dual.y),
        4 => to_bits(v.freedom.x),
        5 => to_bits(v.freedom.y),
        _ => 0,
    }
}

fn round_word(r: RoundState, k: usize) -> u32
    ensures { result ≡ get_or (round_words r) k 0 }
{
    let mode = r.mode;
    match k {
        0 => mode_word(mode),
        1 => to_bits(r.threshold),
        2 => to_bits(r.phase),
        3 => to_bits(r.period),
        _ => 0,
    }
}

fn references_word(p: References, k: usize) -> u32
    ensures { result ≡ get_or (references_words p) k 0 }
{
    match k {
        0 => low_word(p.rp0),
        1 => high_word(p.rp0),
        2 => low_word(p.rp1),
        3 => high_word(p.rp1),
        4 => low_word(p.rp2),
        5 => high_word(p.rp2),
        _ => 0,
    }
}

fn pointers_word(p: ZonePointers, k: usize) -> u32
    ensures { result ≡ get_or (pointers_words p) k 0 }
{
    let zp0 = p.zp0;
    let zp1 = p.zp1;
    let zp2 = p.zp2;
    match k {
        0 => zone_word(zp0),
        1 => zone_word(zp1),
        2 => zone_word(zp2),
        _ => 0,
    }
}

fn facts_word(f: Facts, k: usize) -> u32
    ensures { result ≡ get_or (facts_words f) k 0 }
{
    match k {
        0 => fact_word(f.backward_compatibility),
        1 => fact_word(f.pedantic),
        2 => fact_word(f.native_clear_type_x),
        3 => fact_word(f.did_iup_x),
        4 => fact_word(f.did_iup_y),
        _ => 0,
    }
}

// The measures but the cut-in.
fn distances_word(m: Measures, k: usize) -> u32
    ensures { result ≡ get_or (distance_words m) k 0 }
{
    match k {
        0 => to_bits(m.minimum_distance),
        1 => to_bits(m.single_width),
        2 => to_bits(m.single_width_cut_in),
        3 => fact_word(m.auto_flip),
        4 => to_bits(m.scale),
        _ => 0,
    }
}

fn pushes_word(t: Tallies, k: usize) -> u32
    ensures { result ≡ get_or (push_words t) k 0 }
{
    match k {
        0 => to_bits(t.last_pushed),
        1 => t.pushes,
        _ => 0,
    }
}

// Word k of a state, 0 outside.
pub fn word_of(s: GraphicsState, k: usize) -> u32
    ensures { result ≡ word_of s k }
{
    if k < ROUND {
        vectors_word(s.vectors, k)
    } else if k < REFERENCES {
        round_word(s.round, k - ROUND)
    } else if k < LOOP_COUNTER {
        references_word(s.references, k - REFERENCES)
    } else if k < POINTERS {
        s.loop_counter
    } else if k < FACTS {
        pointers_word(s.pointers, k - POINTERS)
    } else if k < CUT_IN {
        facts_word(s.facts, k - FACTS)
    } else if k < WRAPPED_ROUNDINGS {
        to_bits(s.measures.cut_in)
    } else if k < DISTANCES {
        s.tallies.wrapped_roundings
    } else if k < PUSHES {
        distances_word(s.measures, k - DISTANCES)
    } else {
        pushes_word(s.tallies, k - PUSHES)
    }
}

// All of them. A word whose number stands in the code is found when this is compiled.
fn words_of(s: GraphicsState) -> [u32; STATE_WORDS]
    ensures { result ≡ state_words s }
{
    [
        word_of(s, 0),
        word_of(s, 1),
        word_of(s, 2),
        word_of(s, 3),
        word_of(s, 4),
        word_of(s, 5),
        word_of(s, 6),
        word_of(s, 7),
        word_of(s, 8),
        word_of(s, 9),
        word_of(s, 10),
        word_of(s, 11),
        word_of(s, 12),
        word_of(s, 13),
        word_of(s, 14),
        word_of(s, 15),
        word_of(s, 16),
        word_of(s, 17),
        word_of(s, 18),
        word_of(s, 19),
        word_of(s, 20),
        word_of(s, 21),
        word_of(s, 22),
        word_of(s, 23),
        word_of(s, 24),
        word_of(s, 25),
        word_of(s, 26),
        word_of(s, 27),
        word_of(s, 28),
        word_of(s, 29),
        word_of(s, 30),
        word_of(s, 31),
        word_of(s, 32),
        word_of(s, 33),
    ]
}

// The state's words, where there is room for exactly these; else nothing changes.
#[tactic(auto, unfolding(crate::specs::Words::written))]
pub fn write_state(s: GraphicsState, words: &mut [u32])
    ensures { words.new ≡ written s words.old }
{
    if words.len() == STATE_WORDS {
        words.copy_from_slice(&words_of(s));
    }
}
