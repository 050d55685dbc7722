//! Widths of bit vectors, and their limit. This file knows no bit vector.

ghost use Rattle.std.specs.Prelude.{◌≡◌, ◌≤◌, ◌^◌, nat_lt};
ghost use Rattle.smt_theory.specs.Width.{width_of};

use std::marker::Model;

/// The width of a bit vector, in bits: 1 to 128. Contracts see it as a number. The upper limit is this
/// project's own.
#[derive(Clone, Copy, PartialEq, Eq)]
pub struct Width {
    bits: u8,
}

impl Model for Width {
    ghost use Rattle.std.specs.Prelude.{ℕ, ◌≤◌};

    ghost Value = { ℕ };

    ghost view = { λ w. w.bits };

    ghost invariant = { λ w. (1 ≤ w.bits) × (w.bits ≤ 128) };

    ghost inverse = { λ n. record { bits = n } };
}

impl Width {
    /// The width of this many bits; `None` for 0 and for more than 128.
    pub fn new(bits: u64) -> Option<Width>
        ensures { result ≡ width_of bits }
    {
        if bits >= 1 && bits <= 128 {
            Some(Width { bits: bits as u8 })
        } else {
            None
        }
    }

    /// The width of one bit.
    #[inline(always)]
    pub(crate) fn one() -> Width
        ensures { result ≡ 1 }
    {
        Width { bits: 1 }
    }

    // The width of so many bits.
    pub(crate) fn of(bits: u64) -> Width
        requires some { 1 ≤ bits }
        requires within { bits ≤ 128 }
        ensures { result ≡ bits }
    {
        Width { bits: bits as u8 }
    }

    /// The number of bits, 1 to 128.
    pub fn bits(self) -> u64
        ensures value { result ≡ self }
        ensures some { 1 ≤ result }
        ensures within { result ≤ 128 }
    {
        u64::from(self.bits)
    }

    /// Whether this number fits in as many bits.
    pub(crate) fn holds(self, number: u128) -> bool
        ensures { result ≡ nat_lt number (2 ^ self) }
    {
        self.bits == 128 || number < 1 << self.bits
    }
}
