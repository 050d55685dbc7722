//! Words of 64 and of 56 bits as bytes, which need no alignment. This file knows no fraction.

ghost use Rattle.std.specs.Prelude.{◌≡◌, ◌<◌, ◌^◌, ◌/◌, ◌%◌};
ghost use Rattle.smt_ratios.specs.Terms.{from_words};

use std::marker::Model;

// The number of words.
const WORD: u128 = 1 << 64;

/// A number below 2^64. Contracts see it as that number.
#[derive(Clone, Copy)]
pub(crate) struct EightBytes {
    bytes: [u8; 8],
}

impl Model for EightBytes {
    ghost use Rattle.std.proofs.Common.{ap};
    ghost use Rattle.std.specs.Prelude.{◌≡◌, ℕ, ◌<◌, ◌^◌};
    ghost use Rattle.smt_ratios.specs.Bytes.{eight_of, of_eight};

    ghost Value = { ℕ };

    ghost view = { λ w. of_eight w.bytes };

    ghost invariant = { λ w. (of_eight w.bytes < 2 ^ 64) × (eight_of (of_eight w.bytes) ≡ w.bytes) };

    ghost inverse = { λ n. record { bytes = eight_of n } };

    ghost inverse_ok = { λ a h. ap (λ bs. record { bytes = bs }) h.1 };
}

impl EightBytes {
    /// The bytes of a number.
    pub(crate) fn new(n: u64) -> EightBytes
        ensures { result ≡ n }
    {
        EightBytes {
            bytes: n.to_le_bytes(),
        }
    }

    /// The number.
    pub(crate) fn get(self) -> u64
        ensures value { result ≡ self }
        ensures below { self < 2 ^ 64 }
    {
        u64::from_le_bytes(self.bytes)
    }
}

/// A number below 2^56. Contracts see it as that number.
#[derive(Clone, Copy)]
pub(crate) struct SevenBytes {
    bytes: [u8; 7],
}

impl Model for SevenBytes {
    ghost use Rattle.std.proofs.Common.{ap};
    ghost use Rattle.std.specs.Prelude.{◌≡◌, ℕ, ◌<◌, ◌^◌};
    ghost use Rattle.smt_ratios.specs.Bytes.{of_seven, seven_of};

    ghost Value = { ℕ };

    ghost view = { λ w. of_seven w.bytes };

    ghost invariant = { λ w. (of_seven w.bytes < 2 ^ 56) × (seven_of (of_seven w.bytes) ≡ w.bytes) };

    ghost inverse = { λ n. record { bytes = seven_of n } };

    ghost inverse_ok = { λ a h. ap (λ bs. record { bytes = bs }) h.1 };
}

impl SevenBytes {
    /// The bytes of a number.
    pub(crate) fn new(n: u64) -> SevenBytes
        requires { n < 2 ^ 56 }
        ensures { result ≡ n }
    {
        let [a, b, c, d, e, f, g, _] = n.to_le_bytes();
        SevenBytes {
            bytes: [a, b, c, d, e, f, g],
        }
    }

    /// The number.
    pub(crate) fn get(self) -> u64
        ensures value { result ≡ self }
        ensures below { self < 2 ^ 56 }
    {
        let [a, b, c, d, e, f, g] = self.bytes;
        u64::from_le_bytes([a, b, c, d, e, f, g, 0])
    }
}

// The highest 64 of the 128 bits.
pub(crate) fn high_word(n: u128) -> u64
    ensures { result ≡ n / 2 ^ 64 }
{
    (n / WORD) as u64
}

// The lowest 64 bits.
pub(crate) fn low_word(n: u128) -> u64
    ensures { result ≡ n % 2 ^ 64 }
{
    (n % WORD) as u64
}

// The number of the two words.
pub(crate) fn from_words(high: u64, low: u64) -> u128
    ensures { result ≡ from_words high low }
{
    u128::from(high) << 64 | u128::from(low)
}
