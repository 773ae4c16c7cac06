// A point's flag byte, and the axes. Document 01 lays the byte out: bit 0 on curve, bit 1 x touched, bit 2 y touched.
//
// Each function changes the bits of its mask and no other: proofs/Bits.antt says so of every byte. An axis is a mask of touch bits,
// so x and y are one function, and both axes at once are the mask with both bits. What goes along one axis alone takes an `Axis`.
#![tactic(auto)]

ghost use Rattle.std.specs.Prelude.{◌≡◌};
ghost use Rattle.std.specs.Int.Bits.{bit_and, bit_or, bit_xor};
ghost use Rattle.flags.specs.Axis.{touch_bit};
ghost use Rattle.flags.specs.Flag.{has_any, cleared, touch_bits};

pub const ON_CURVE: u8 = 1;

const X_TOUCHED: u8 = 2;

const Y_TOUCHED: u8 = 4;

// One axis of the two.
#[derive(Clone, Copy)]
pub enum Axis {
    X,
    Y,
}

impl Axis {
    pub fn touch_bit(self) -> u8
        ensures { result ≡ touch_bit self }
    {
        match self {
            Axis::X => X_TOUCHED,
            Axis::Y => Y_TOUCHED,
        }
    }
}

// What a measurement or a movement goes along.
#[derive(Clone, Copy)]
pub enum CoordAxis {
    Both,
    X,
    Y,
}

impl CoordAxis {
    pub fn touch_bits(self) -> u8
        ensures { result ≡ touch_bits self }
    {
        match self {
            CoordAxis::Both => 6,
            CoordAxis::X => X_TOUCHED,
            CoordAxis::Y => Y_TOUCHED,
        }
    }
}

// Whether the flag has any bit of the mask.
pub fn has_any(flag: u8, mask: u8) -> bool
    ensures { result ≡ has_any flag mask }
{
    flag & mask != 0
}

// The flag with every bit of the mask set.
pub fn with_bits(flag: u8, mask: u8) -> u8
    ensures { result ≡ bit_or flag mask }
{
    flag | mask
}

// The flag with every bit of the mask cleared.
pub fn without_bits(flag: u8, mask: u8) -> u8
    ensures { result ≡ cleared flag mask }
{
    flag & (255 - mask)
}

// The flag with every bit of the mask turned over.
pub fn flipped(flag: u8, mask: u8) -> u8
    ensures { result ≡ bit_xor flag mask }
{
    flag ^ mask
}
