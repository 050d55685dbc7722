//! Fractions in lowest terms in 31 bytes, which need no alignment. This file knows no operator.

ghost use Rattle.std.specs.Cmp.{partial_equiv_from_equiv};
ghost use Rattle.std.specs.Prelude.{◌≡◌};
ghost use Rattle.smt_ratios.specs.TermLaws.{same_terms_equiv};
ghost use Rattle.smt_ratios.specs.Terms.{IsLowest, same_terms};

use crate::words::{EightBytes, SevenBytes, from_words, high_word, low_word};
use std::marker::Model;
use std::mem::size_of;

// An enum around it stays within 32 bytes.
const _: () = prove!(size_of::<Ratio>() == 31);

/// A fraction in lowest terms that is no integer: its numerator is from -2^127 to 2^127 - 1, and its denominator from
/// 2 to 2^120 - 1. Contracts see it as its terms.
#[derive(Clone, Copy)]
pub struct Ratio {
    numerator_high: EightBytes,
    numerator_low: EightBytes,
    denominator_high: SevenBytes,
    denominator_low: EightBytes,
}

impl Model for Ratio {
    ghost use Rattle.std.specs.Prelude.{◌%◌, ◌/◌, ◌^◌};
    ghost use Rattle.std.specs.Int.{cast_unsigned, w128};
    ghost use Rattle.smt_ratios.specs.TermLaws.{unpacked};
    ghost use Rattle.smt_ratios.specs.Terms.{IsPacked, Terms, terms_of};

    ghost Value = { Terms };

    ghost view = { λ r. terms_of r.numerator_high r.numerator_low r.denominator_high r.denominator_low };

    ghost invariant = { λ r. IsPacked r.numerator_high r.numerator_low r.denominator_high r.denominator_low };

    ghost inverse = { λ t. record {
      numerator_high = cast_unsigned w128 t.numerator / 2 ^ 64;
      numerator_low = cast_unsigned w128 t.numerator % 2 ^ 64;
      denominator_high = t.denominator / 2 ^ 64;
      denominator_low = t.denominator % 2 ^ 64;
    } };

    ghost inverse_ok = { λ a h. unpacked (λ n m d e. record {
      numerator_high = n;
      numerator_low = m;
      denominator_high = d;
      denominator_low = e;
    }) a.numerator_high a.numerator_low a.denominator_high a.denominator_low h };
}

impl Ratio {
    // The fraction of these terms.
    pub(crate) fn new(numerator: i128, denominator: u128) -> Ratio
        requires { IsLowest (record { numerator = numerator; denominator = denominator }) }
        ensures { result ≡ (record { numerator = numerator; denominator = denominator }) }
    {
        let bits = numerator.cast_unsigned();
        Ratio {
            numerator_high: EightBytes::new(high_word(bits)),
            numerator_low: EightBytes::new(low_word(bits)),
            denominator_high: SevenBytes::new(high_word(denominator)),
            denominator_low: EightBytes::new(low_word(denominator)),
        }
    }

    /// The numerator, which has the number's sign.
    pub fn numerator(self) -> i128
        ensures { result ≡ self.numerator }
    {
        from_words(self.numerator_high.get(), self.numerator_low.get()).cast_signed()
    }

    /// The denominator, from 2 to 2^120 - 1. It has no divisor in common with the numerator.
    pub fn denominator(self) -> u128
        ensures value { result ≡ self.denominator }
        ensures lowest { IsLowest self }
    {
        from_words(self.denominator_high.get(), self.denominator_low.get())
    }
}

impl PartialEq for Ratio {
    ghost eq = { same_terms };

    ghost laws = { partial_equiv_from_equiv same_terms_equiv };

    fn eq(&self, other: &Ratio) -> bool {
        self.numerator() == other.numerator() && self.denominator() == other.denominator()
    }
}

impl Eq for Ratio {
    ghost laws = { same_terms_equiv };
}
