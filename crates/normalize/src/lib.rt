// The unit vector along two numbers: normalize14 of math.rs, which is FreeType's FT_Vector_NormLen.
//
// `normalize` answers for every two words and refuses none; it equals a definition of specs/Unit.antt. Newton's steps go on as long as the
// correction is above 0; the code counts them, and proofs/Settles.antt shows that the count never runs out.
#![tactic(auto)]

ghost use Rattle.std.specs.Prelude.{◌≡◌, ◌≤◌, ◌<◌, ◌^◌, ◌-◌};
ghost use Rattle.normalize.specs.Unit.{estimate, zeros, past, shifted, near_length, start_at, start_by, start_of, grown, lacking, correction, settled, rounds, component, aimed, aimed_from, unit_by, unit_of};

use graphics::{ONE, Vector};
use int::{
    equal, less, low32, magnitude, shift_right, wrapping_add, wrapping_div, wrapping_mul,
    wrapping_neg, wrapping_sub,
};

// Both numbers brought near length 1, and the first guess at what the reciprocal length has beyond 1: all 16.16 numbers.
#[derive(Clone, Copy)]
struct Start {
    x: i32,
    y: i32,
    b: i32,
}

// The larger number and half of the other.
fn estimate_of(x: u64, y: u64) -> u64
    requires { (x ≤ 2 ^ 49) × (y ≤ 2 ^ 49) }
    ensures { result ≡ estimate x y }
{
    if x > y { x + y / 2 } else { y + x / 2 }
}

fn zeros_of(len: u64) -> u32
    requires { len < 2 ^ 32 }
    ensures { (result ≡ zeros len) × (result ≤ 32) }
{
    u32::leading_zeros(len as u32)
}

// Two thirds of 2^32.
const TWO_THIRDS: u64 = 0xAAAA_AAAA;

fn past_of(zeros: u32, len: u64) -> u32
    requires { zeros ≤ 32 }
    ensures { (result ≡ past zeros len) × (result ≤ 16) }
{
    if TWO_THIRDS >> zeros <= len { 16 } else { 15 }
}

// One of the two places is 0.
fn shift_by(up: u32, down: u32, n: u64) -> u64
    requires { (up ≤ 17) × ((down ≤ 16) × (n < 2 ^ 32)) }
    ensures { (result ≡ shifted up down n) × (result ≤ 2 ^ 49) }
{
    (n << up) >> down
}

// The length's estimate, moved: anew where the numbers were too small to tell it.
fn near_length(up: u32, down: u32, len: u64, x: u64, y: u64) -> u64
    requires { (up ≤ 17) × ((down ≤ 16) × ((len < 2 ^ 32) × ((x ≤ 2 ^ 49) × (y ≤ 2 ^ 49)))) }
    ensures { (result ≡ near_length up down len x y) × (result ≤ 2 ^ 50) }
{
    if 0 < up {
        estimate_of(x, y)
    } else {
        shift_by(up, down, len)
    }
}

// Where the places and the length's estimate are known.
fn start_at(up: u32, down: u32, len: u64, x: u64, y: u64) -> Start
    requires { (up ≤ 17) × ((down ≤ 16) × ((len < 2 ^ 32) × ((x < 2 ^ 32) × (y < 2 ^ 32)))) }
    ensures { result ≡ start_at up down len x y }
{
    let near_x = shift_by(up, down, x);
    let near_y = shift_by(up, down, y);
    let near = near_length(up, down, len, near_x, near_y);
    Start {
        x: low32(near_x as i64),
        y: low32(near_y as i64),
        b: wrapping_sub(0x10000, low32(near as i64)),
    }
}

fn start_of(x: u64, y: u64) -> Start
    requires { (x ≤ 2 ^ 31) × (y ≤ 2 ^ 31) }
    ensures { result ≡ start_of x y }
{
    let len = estimate_of(x, y);
    let zeros = zeros_of(len);
    let past = past_of(zeros, len);
    let up = zeros.saturating_sub(past);
    let down = past.saturating_sub(zeros);
    start_at(up, down, len, x, y)
}

// n (1 + b).
fn grow(b: i32, n: i32) -> i32
    ensures { result ≡ grown b n }
{
    wrapping_add(n, shift_right(wrapping_mul(n, b), 16))
}

// What the squared length lacks of 2^32, in 512ths.
fn lack(u: i32, v: i32) -> i32
    ensures { result ≡ lacking u v }
{
    let squared = wrapping_add(wrapping_mul(u, u), wrapping_mul(v, v));
    wrapping_div(wrapping_neg(squared), 512)
}

// Newton's step for the reciprocal length.
fn correct(x: i32, y: i32, b: i32) -> i32
    ensures { result ≡ correction x y b }
{
    let part = shift_right(wrapping_add(0x10000, b), 8);
    wrapping_div(wrapping_mul(lack(grow(b, x), grow(b, y)), part), 0x10000)
}

const ROUNDS: u32 = 131072;

// b corrected as long as the correction is above 0.
fn settle(x: i32, y: i32, first: i32) -> i32
    ensures { result ≡ settled rounds x y first }
{
    let mut b = first;
    for _ in 0..ROUNDS {
        let by = correct(x, y, b);
        if !less(0, by) {
            return b;
        }
        b = wrapping_add(b, by);
    }
    b
}

// A quarter, with the sign.
fn component_of(below: bool, w: i32) -> i32
    ensures { result ≡ component below w }
{
    if below {
        wrapping_div(wrapping_neg(w), 4)
    } else {
        wrapping_div(w, 4)
    }
}

fn aim(b: i32, x: i32, y: i32, s: Start) -> Vector
    ensures { result ≡ aimed b x y s }
{
    Vector {
        x: component_of(less(x, 0), grow(b, s.x)),
        y: component_of(less(y, 0), grow(b, s.y)),
    }
}

// Where neither number is 0.
fn aim_from(x: i32, y: i32, s: Start) -> Vector
    ensures { result ≡ aimed_from x y s }
{
    aim(settle(s.x, s.y, s.b), x, y, s)
}

// 1 with the number's sign, and 0 of 0.
fn unit_by(x: i32) -> i32
    ensures { result ≡ unit_by x }
{
    if equal(x, 0) {
        0
    } else if less(x, 0) {
        -ONE
    } else {
        ONE
    }
}

// The 2.14 vector of length 1 along (x, y); (0, 0) of (0, 0).
pub fn normalize(x: i32, y: i32) -> Vector
    ensures { result ≡ unit_of x y }
{
    if equal(x, 0) | equal(y, 0) {
        Vector {
            x: unit_by(x),
            y: unit_by(y),
        }
    } else {
        aim_from(x, y, start_of(magnitude(x), magnitude(y)))
    }
}
