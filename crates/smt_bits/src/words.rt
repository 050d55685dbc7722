//! Numbers of 128 bits as two words of 64, which need no more than eight bytes' alignment. This file knows no width.

ghost use Rattle.std.specs.Cmp.Rules.{comparing};
ghost use Rattle.std.proofs.Common.{rules};
ghost use Rattle.std.specs.Prelude.{◌≡◌, nat_eq};

use std::marker::Model;

// The number of words.
const WORD: u128 = 1 << 64;

/// A number below 2^128. Contracts see it as that number.
#[derive(Clone, Copy)]
pub struct Words {
    high: u64,
    low: u64,
}

impl Model for Words {
    ghost use Rattle.std.specs.Prelude.{ℕ, ◌+◌, ◌*◌, ◌^◌, ◌<◌, ◌/◌, ◌%◌};

    ghost Value = { ℕ };

    ghost view = { λ w. w.high * 2 ^ 64 + w.low };

    ghost invariant = { λ w. (w.high < 2 ^ 64) × (w.low < 2 ^ 64) };

    ghost inverse = { λ n. record { high = n / 2 ^ 64; low = n % 2 ^ 64 } };
}

impl Words {
    /// The words of a number.
    #[inline(always)]
    pub fn new(n: u128) -> Words
        ensures { result ≡ n }
    {
        Words {
            high: (n / WORD) as u64,
            low: (n % WORD) as u64,
        }
    }

    /// The number.
    #[inline(always)]
    pub fn get(self) -> u128
        ensures { result ≡ self }
    {
        u128::from(self.high) << 64 | u128::from(self.low)
    }
}

impl PartialEq for Words {
    ghost eq = { nat_eq };

    ghost laws = { Prim.search (comparing, rules) };

    fn eq(&self, other: &Words) -> bool {
        self.get() == other.get()
    }
}

impl Eq for Words {
    ghost laws = { Prim.search rules };
}
