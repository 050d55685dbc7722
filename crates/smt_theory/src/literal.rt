//! Kinds of literals, and the numbers that they spell. This file knows no value.

ghost use Rattle.std.specs.Prelude.{◌≡◌};
ghost use Rattle.std.specs.List.{filter};
ghost use Rattle.std.specs.Str.Parse.{digits_value};
ghost use Rattle.smt_theory.specs.Literals.{is_figure, radix, spelled_number};
ghost use Rattle.smt_theory.specs.Numbers.{below_word};

use crate::numbers::{number, with_digit};

/// A kind of literals whose digits spell a number (SMT-LIB 2.6, section 3.1).
#[derive(Clone, Copy, PartialEq, Eq)]
pub enum LiteralKind {
    /// A numeral.
    Numeral,
    /// A decimal: digits with a point among them.
    Decimal,
    /// `#x`, and digits of either case.
    Hexadecimal,
    /// `#b`, and digits.
    Binary,
}

impl LiteralKind {
    /// The base of its digits.
    #[inline(always)]
    pub fn radix(self) -> u8
        ensures { result ≡ radix self }
    {
        match self {
            LiteralKind::Numeral | LiteralKind::Decimal => 10,
            LiteralKind::Hexadecimal => 16,
            LiteralKind::Binary => 2,
        }
    }
}

/// The number that the digits of a literal spell, of a decimal without the point; `None` where it is 2^128 or more.
#[inline(always)]
pub fn literal_number(kind: LiteralKind, digits: &[u8]) -> Option<u128>
    ensures { result ≡ spelled_number kind digits.now }
{
    if kind == LiteralKind::Decimal {
        decimal_number(digits)
    } else {
        number(kind.radix(), digits)
    }
}

fn decimal_number(digits: &[u8]) -> Option<u128>
    ensures { result ≡ below_word (digits_value 10 (filter is_figure digits.now)) }
{
    let mut value = 0;
    for byte in digits {
        if *byte != b'.' {
            value = with_digit(10, value, *byte)?;
        }
    }
    Some(value)
}
