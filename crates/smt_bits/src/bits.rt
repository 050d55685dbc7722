//! Bit vectors: a width, and a number that fits it. This file knows no operator.

ghost use Rattle.std.specs.Prelude.{◌≡◌, ◌-◌, ◌<◌, ◌%◌, ◌^◌};
ghost use Rattle.smt_bits.specs.BitVector.{modulo, signed, vector};

use crate::words::Words;
use smt_theory::Width;
use std::marker::Model;

/// A bit vector of 1 to 128 bits (SMT-LIB 2.6, theory FixedSizeBitVectors). Contracts see it as its width and
/// its number.
#[derive(Clone, Copy, PartialEq, Eq)]
pub struct Bits {
    width: Width,
    bits: Words,
}

impl Model for Bits {
    ghost use Rattle.std.specs.Prelude.{◌<◌, ◌^◌};
    ghost use Rattle.smt_bits.specs.BitVector.{BitVector};

    ghost Value = { BitVector };

    ghost view = { λ b. record { width = b.width; number = b.bits } };

    ghost invariant = { λ b. b.bits < 2 ^ b.width };

    ghost inverse = { λ v. record { width = v.width; bits = v.number } };
}

impl Bits {
    /// The bit vector of this width whose number is n modulo 2^width.
    pub fn new(width: Width, n: u128) -> Bits
        ensures { result ≡ vector width (n % 2 ^ width) }
    {
        Bits {
            width,
            bits: Words::new(n & mask(width)),
        }
    }

    /// The width, in bits.
    pub fn width(self) -> Width
        ensures { result ≡ self.width }
    {
        self.width
    }

    /// The number that the bits are, below 2^width; the first bit is the highest.
    pub fn number(self) -> u128
        ensures value { result ≡ self.number }
        ensures below { result < 2 ^ self.width }
    {
        self.bits.get()
    }

    /// The integer that the bits are, read as signed: from -2^127 to 2^127 - 1.
    pub fn signed(self) -> i128
        ensures { result ≡ signed self.width self.number }
    {
        let unused = 128 - self.width.bits();
        (self.bits.get() << unused).cast_signed() >> unused
    }

    // The bit vector of this width for an integer, modulo 2^width.
    pub(crate) fn from_signed(width: Width, z: i128) -> Bits
        ensures { result ≡ vector width (modulo width z) }
    {
        Bits::new(width, z.cast_unsigned())
    }
}

// The number with the lowest `width` bits set, and no other bit.
fn mask(width: Width) -> u128
    ensures { result ≡ 2 ^ width - 1 }
{
    u128::MAX >> (128 - width.bits())
}
