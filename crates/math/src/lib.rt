// Fixed-point helpers: math.rs, and dot14 of projection.rs.
//
// Every function answers for every input and refuses none; each equals a definition of specs/Fixed.antt, which is written from
// FreeType. 26.6 numbers are 64ths of a pixel, 2.14 numbers 16,384ths, 16.16 numbers 65,536ths. Left out of math.rs: normalize14 and
// mul_div_no_round, which nothing here uses.
#![tactic(auto)]

ghost use Rattle.std.specs.Prelude.{◌≡◌, ◌≤◌, ◌<◌, ◌^◌, ◌*◌, pos, nat_abs, ◌*ℤ◌};
ghost use Rattle.math.specs.Fixed.{pix_floor, pix_round, pix_ceil, pad_floor, pad_round, half_away14, mul_fix14, dot_fix14, half_up, odd_signs, with_sign, mul_div, mul_fix, div_fix};

use int::{bit_and, equal, less, low32, magnitude, wrapping_add, wrapping_div, wrapping_neg};

// x down to a whole pixel, toward minus infinity.
pub fn floor(x: i32) -> i32
    ensures { result ≡ pix_floor x }
{
    floor_pad(x, 64)
}

// x to the nearest whole pixel, halves upward.
pub fn round(x: i32) -> i32
    ensures { result ≡ pix_round x }
{
    floor(wrapping_add(x, 32))
}

// x up to a whole pixel.
pub fn ceil(x: i32) -> i32
    ensures { result ≡ pix_ceil x }
{
    floor(wrapping_add(x, 63))
}

// x with the bits below n's cleared, by the mask `!(n - 1)`, which is `-n`: for a power of two the multiple of n below x.
pub fn floor_pad(x: i32, n: i32) -> i32
    ensures { result ≡ pad_floor x n }
{
    bit_and(x, wrapping_neg(n))
}

pub fn round_pad(x: i32, n: i32) -> i32
    ensures { result ≡ pad_round x n }
{
    floor_pad(wrapping_add(x, wrapping_div(n, 2)), n)
}

// The product, which 64 bits always hold.
fn product(a: i32, b: i32) -> i64
    ensures { result ≡ a *ℤ b }
{
    a as i64 * b as i64
}

// p / 2^14, halves away from zero. The quotient and the remainder are taken apart, so that no p is too large.
fn half14(p: i64) -> i64
    ensures { result ≡ half_away14 p }
{
    (p >> 14) + (((p & 0x3fff) + (0x2000 + (p >> 63))) >> 14)
}

pub fn mul14(a: i32, b: i32) -> i32
    ensures { result ≡ mul_fix14 a b }
{
    low32(half14(product(a, b)))
}

// 2^62, the largest product of two words.
const TOP: i64 = 0x4000_0000_0000_0000;

// (ax, ay) times (bx, by). The one sum that 64 bits don't hold, 2^63, has low bits 0.
pub fn dot14(ax: i32, ay: i32, bx: i32, by: i32) -> i32
    ensures { result ≡ dot_fix14 ax ay bx by }
{
    let p = product(ax, bx);
    let q = product(ay, by);
    if p == TOP && q == TOP {
        return 0;
    }
    low32(half14(p + q))
}

// a b / c of magnitudes, halves upward, where c is not 0.
fn quotient(a: u64, b: u64, c: u64) -> u64
    requires { (a ≤ 2 ^ 31) × ((b ≤ 2 ^ 31) × ((0 < c) × (c ≤ 2 ^ 31))) }
    ensures { (result ≡ half_up (a * b) c) × (result < 2 ^ 63) }
{
    (a * b + c / 2) / c
}

fn odd_signs(a: i32, b: i32, c: i32) -> bool
    ensures { result ≡ odd_signs a b c }
{
    (less(a, 0) != less(b, 0)) != less(c, 0)
}

// The low 32 bits of q, then the sign.
fn signed(below: bool, q: u64) -> i32
    requires { q < 2 ^ 63 }
    ensures { result ≡ with_sign below q }
{
    let word = low32(q as i64);
    if below { wrapping_neg(word) } else { word }
}

// 1 as a 2.14 number: the divisor of most moves, and often a factor too.
const ONE: i32 = 0x4000;

// a b / 1 of 2.14 numbers: their product, and a itself where b is 1 too.
fn over_one(a: i32, b: i32) -> i32
    ensures { result ≡ mul_div a b (pos 0x4000) }
{
    if equal(b, ONE) { a } else { mul14(a, b) }
}

// a b / 0: 0x7FFFFFFF, with the operands' signs.
fn over_zero(a: i32, b: i32) -> i32
    ensures { result ≡ mul_div a b (pos 0) }
{
    signed(odd_signs(a, b, 0), 0x7fff_ffff)
}

// a b / c on magnitudes, where c is not 0.
fn divided(a: i32, b: i32, c: i32) -> i32
    requires { 0 < nat_abs c }
    ensures { result ≡ mul_div a b c }
{
    let q = quotient(magnitude(a), magnitude(b), magnitude(c));
    signed(odd_signs(a, b, c), q)
}

// a b / c, halves upward on magnitudes. Divisor 0 gives 0x7FFFFFFF, with the operands' signs.
pub fn mul_div(a: i32, b: i32, c: i32) -> i32
    ensures { result ≡ mul_div a b c }
{
    if equal(c, ONE) {
        over_one(a, b)
    } else if equal(c, 0) {
        over_zero(a, b)
    } else {
        divided(a, b, c)
    }
}

// a b of 16.16 numbers.
pub fn mul(a: i32, b: i32) -> i32
    ensures { result ≡ mul_fix a b }
{
    mul_div(a, b, 0x10000)
}

// a / b of 16.16 numbers.
pub fn div(a: i32, b: i32) -> i32
    ensures { result ≡ div_fix a b }
{
    mul_div(a, 0x10000, b)
}
