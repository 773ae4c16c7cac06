// Little-endian 32-bit words in a slice of bytes, as a record on the shelf and the oracle's answers keep them: one word, and lists of them, read out of
// the bytes into lent slices, tested, summed, and written into them.
//
// Places are counted in words, but for `word_at`. Every function answers for every input and is an equation with a definition of specs/: a word that is
// not whole reads as 0, and a list that has no room is not written at all.
#![tactic(auto)]

ghost use Rattle.std.specs.Prelude.{◌≡◌, ℕ, ◌+◌, ◌*◌, ◌%◌, ◌^◌, ◌<◌, [], ◌∷◌, map, length, nat_le, refl};
ghost use Rattle.std.proofs.Common.{w32, SFits};
ghost use Rattle.std.proofs.Math.Nat.{mod-eq_of_lt};
ghost use mir.ValLaws.{to_z-of_z};
ghost use Rattle.int.specs.Word.{of_bits, bits_of};
ghost use Rattle.words.specs.Words.{word_at};
ghost use Rattle.words.specs.Lists.{word, part, flag_of, end_of, all_at_most, wrapping_sum, placed};

use int::{from_bits, to_bits};

// ---- one word
// The word that starts at byte `at`.
pub fn word_at(bytes: &[u8], at: usize) -> u32
    ensures { result ≡ word_at bytes.now at }
{
    if bytes.len() < 4 || bytes.len() - 4 < at {
        return 0;
    }
    u32::from_le_bytes([bytes[at], bytes[at + 1], bytes[at + 2], bytes[at + 3]])
}

// Word i of the list that starts at word `first`.
pub fn word(bytes: &[u8], first: usize, i: usize) -> u32
    ensures { result ≡ word bytes.now (first + i) }
{
    let whole = bytes.len() / 4;
    if whole <= first || whole - first <= i {
        return 0;
    }
    word_at(bytes, (first + i) * 4)
}

// ---- what a word is kept for: itself, a number, a flag or a contour's end
pub trait Kept: Copy {
    ghost of_word: { ℕ → Self };

    ghost to_word: { Self → ℕ };

    ghost fits: { Self → Type 0 };

    fn of_word(w: u32) -> Self
        ensures { result ≡ of_word w };

    fn to_word(self) -> u32
        ensures { result ≡ to_word self };

    // What is written as a word is read of it.
    ghost back: { (x : Self) → fits x → of_word (to_word x) ≡ x };
}

impl Kept for u32 {
    ghost of_word = { λ w. w };

    ghost to_word = { λ w. w };

    ghost fits = { λ w. w < 2 ^ 32 };

    ghost back = { λ _ _. refl };

    fn of_word(w: u32) -> u32 {
        w
    }

    fn to_word(self) -> u32 {
        self
    }
}

impl Kept for i32 {
    ghost of_word = { of_bits };

    ghost to_word = { bits_of };

    ghost fits = { SFits w32 };

    ghost back = { to_z-of_z w32 };

    fn of_word(w: u32) -> i32 {
        from_bits(w)
    }

    fn to_word(self) -> u32 {
        to_bits(self)
    }
}

// A flag is the low byte of its word.
impl Kept for u8 {
    ghost of_word = { flag_of };

    ghost to_word = { λ flag. flag };

    ghost fits = { λ flag. flag < 256 };

    ghost back = { λ _. mod-eq_of_lt };

    fn of_word(w: u32) -> u8 {
        (w % 256) as u8
    }

    fn to_word(self) -> u32 {
        self as u32
    }
}

// A contour's end is the low half of its word.
impl Kept for u16 {
    ghost of_word = { end_of };

    ghost to_word = { λ end. end };

    ghost fits = { λ end. end < 65536 };

    ghost back = { λ _. mod-eq_of_lt };

    fn of_word(w: u32) -> u16 {
        (w % 65536) as u16
    }

    fn to_word(self) -> u32 {
        self as u32
    }
}

// ---- reading
pub fn load<T: Kept>(bytes: &[u8], first: usize, out: &mut [T])
    ensures { out.new ≡ map T.of_word (part bytes.now first (length out.old)) }
{
    for i in 0..out.len() {
        out[i] = T::of_word(word(bytes, first, i));
    }
}

// ---- tests
pub fn all_at_most(bytes: &[u8], first: usize, count: usize, most: u32) -> bool
    ensures { result ≡ all_at_most most (part bytes.now first count) }
{
    for i in 0..count {
        if word(bytes, first, i) > most {
            return false;
        }
    }
    true
}

// The wrapping sum of the first words.
pub fn sum(bytes: &[u8], count: usize) -> u32
    ensures { result ≡ wrapping_sum (part bytes.now 0 count) }
{
    let mut sum: u32 = 0;
    for i in 0..count {
        sum = sum.wrapping_add(word(bytes, 0, i));
    }
    sum
}

// ---- writing
fn has_room(out: &[u8], first: usize, count: usize) -> bool
    ensures { result ≡ nat_le ((first + count) * 4) (length out.now) }
{
    let whole = out.len() / 4;
    first <= whole && count <= whole - first
}

// Word i of the list that starts at word `first`, where there is room for it.
fn put_word(w: u32, first: usize, i: usize, out: &mut [u8])
    ensures { out.new ≡ placed (first + i) (w ∷ []) out.old }
{
    let whole = out.len() / 4;
    if whole <= first || whole - first <= i {
        return;
    }
    let at = (first + i) * 4;
    let [a, b, c, d] = w.to_le_bytes();
    out[at] = a;
    out[at + 1] = b;
    out[at + 2] = c;
    out[at + 3] = d;
}

pub fn store<T: Kept>(items: &[T], first: usize, out: &mut [u8])
    ensures { out.new ≡ placed first (map T.to_word items.now) out.old }
{
    if has_room(out, first, items.len()) {
        for (i, item) in items.iter().enumerate() {
            put_word(item.to_word(), first, i, out);
        }
    }
}
