//! Integers of 128 bits as two words of 64, which need no more than eight bytes' alignment. This file knows no sort.

ghost use Rattle.std.specs.Cmp.Rules.{comparing};
ghost use Rattle.std.specs.Ordering.{int_eq};
ghost use Rattle.std.proofs.Common.{rules};
ghost use Rattle.std.specs.Prelude.{◌≡◌};

use smt_bits::Words;
use std::marker::Model;

/// An integer from -2^127 to 2^127 - 1. Contracts see it as that integer.
#[derive(Clone, Copy)]
pub struct Integer {
    words: Words,
}

impl Model for Integer {
    ghost use Rattle.std.proofs.Common.{ap};
    ghost use Rattle.std.proofs.lemmas.Int.{of_z-to_z};
    ghost use Rattle.std.specs.Prelude.{ℤ, ◌<◌, ◌^◌};
    ghost use Rattle.std.specs.Int.{cast_signed, cast_unsigned, w128};

    ghost Value = { ℤ };

    ghost view = { λ i. cast_signed w128 i.words };

    ghost invariant = { λ i. i.words < 2 ^ 128 };

    ghost inverse = { λ z. record { words = cast_unsigned w128 z } };

    ghost inverse_ok = { λ a h. ap (λ n. record { words = n }) (of_z-to_z w128 a.words h) };
}

impl Integer {
    /// This integer.
    #[inline(always)]
    pub fn new(z: i128) -> Integer
        ensures { result ≡ z }
    {
        Integer {
            words: Words::new(z.cast_unsigned()),
        }
    }

    /// The integer.
    #[inline(always)]
    pub fn get(self) -> i128
        ensures { result ≡ self }
    {
        self.words.get().cast_signed()
    }
}

impl PartialEq for Integer {
    ghost eq = { int_eq };

    ghost laws = { Prim.search (comparing, rules) };

    fn eq(&self, other: &Integer) -> bool {
        self.get() == other.get()
    }
}

impl Eq for Integer {
    ghost laws = { Prim.search rules };
}
