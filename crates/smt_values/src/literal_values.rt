//! The values of constants, and the elements of numbers. This file knows no operator.

ghost use Rattle.std.specs.Prelude.{◌≡◌, List, ℕ};
ghost use Rattle.std.specs.Str.Parse.{digits_value};
ghost use Rattle.smt_ratios.specs.Known.{known_decimal};
ghost use Rattle.smt_theory.specs.Literals.{spelled_number};
ghost use Rattle.smt_theory.specs.declared.literal.LiteralKind.TheVariants.{Decimal};
ghost use Rattle.smt_theory.specs.Numbers.{below_word};
ghost use Rattle.smt_values.specs.Element.{element_of, known_element};
ghost use Rattle.smt_values.specs.ElementNumbers.{numbered};
ghost use Rattle.smt_values.specs.Literals.{bin_element, decimal_element, hex_element, literal_element};
ghost use Rattle.smt_values.specs.Decimals.{places};
ghost use Rattle.smt_values.specs.Literals.{numeral_element};

use crate::element_number::ElementNumber;
use crate::integer::Integer;
use crate::operations::numbers::value_of;
use crate::value::Value;
use smt_bits::literals;
use smt_theory::{LiteralKind, literal_number, number};

/// The integer that the decimal digits of a numeral spell; `None` exactly where it is over 2^127 - 1.
///
/// Leading zeros change nothing. For bytes that are no digits the result means nothing.
pub fn numeral(digits: &[u8]) -> Option<Value>
    ensures { known_element result ≡ numeral_element digits.now }
{
    numeral_of(number(10, digits))
}

/// The integer that `numeral` gives for any digits that spell this number, as `smt_theory::number` returns
/// it.
pub fn numeral_of(number: Option<u128>) -> Option<Value>
    ensures { (digits : List ℕ) → number ≡ below_word (digits_value 10 digits)
        → known_element result ≡ numeral_element digits }
{
    match number {
        Some(value) if value < 1 << 127 => Some(Value::Int(Integer::new(value as i128))),
        _ => None,
    }
}

/// The number that the digits of a decimal spell, with a point among them; `None` exactly where it is open: where 39 or
/// more stand behind the point, where they spell a number over 2^127 - 1 without it, or where the denominator in lowest
/// terms is over 2^120 - 1. For bytes that are no digits with a point among them the result means nothing.
pub fn decimal(digits: &[u8]) -> Option<Value>
    ensures { known_element result ≡ decimal_element digits.now }
{
    decimal_of(literal_number(LiteralKind::Decimal, digits), digits)
}

/// The number that `decimal` gives, where `number` is what `smt_theory::literal_number` returns for the digits.
pub fn decimal_of(number: Option<u128>, digits: &[u8]) -> Option<Value>
    requires { number ≡ spelled_number Decimal digits.now }
    ensures { known_element result ≡ decimal_element digits.now }
{
    let number = smt_ratios::decimal(number?, few_places(digits))?;
    Some(value_of(number))
}

/// As many digits behind the point, or more, are open.
const MANY: usize = 39;

// How many digits stand behind the point, or as many where it makes no difference. At most `MANY` bytes are looked
// at: a decimal may be long, and its value is looked for each time that it is evaluated.
fn few_places(digits: &[u8]) -> usize
    ensures { (number : ℕ) → known_decimal number result ≡ known_decimal number (places digits.now) }
{
    let skipped = digits.len().saturating_sub(MANY);
    places(&digits[skipped..])
}

// How many digits stand behind the point.
fn places(digits: &[u8]) -> usize
    ensures { result ≡ places digits.now }
{
    let mut count = 0;
    for digit in digits {
        count = if *digit == b'.' { 0 } else { count + 1 };
    }
    count
}

/// The bit vector that hexadecimal digits of either case spell, four bits a digit; `None` where there are no
/// digits or more than 32. For bytes that are no digits the result means nothing.
pub fn hex(digits: &[u8]) -> Option<Value>
    ensures { known_element result ≡ hex_element digits.now }
{
    literals::hex(digits).map(Value::Bits)
}

/// The bit vector that `hex` gives, where `number` is what `smt_theory::number` returns for the digits.
pub fn hex_of(number: Option<u128>, digits: &[u8]) -> Option<Value>
    requires { number ≡ below_word (digits_value 16 digits.now) }
    ensures { known_element result ≡ hex_element digits.now }
{
    literals::hex_of(number, digits).map(Value::Bits)
}

/// The bit vector that binary digits spell, one bit a digit; `None` where there are no digits or more than
/// 128. For bytes that are no digits the result means nothing.
pub fn bin(digits: &[u8]) -> Option<Value>
    ensures { known_element result ≡ bin_element digits.now }
{
    literals::bin(digits).map(Value::Bits)
}

/// The bit vector that `bin` gives, where `number` is what `smt_theory::number` returns for the digits.
pub fn bin_of(number: Option<u128>, digits: &[u8]) -> Option<Value>
    requires { number ≡ below_word (digits_value 2 digits.now) }
    ensures { known_element result ≡ bin_element digits.now }
{
    literals::bin_of(number, digits).map(Value::Bits)
}

/// The value that a literal's digits spell, where `number` is what `smt_theory::literal_number` returns for them.
#[inline(always)]
pub fn literal_of(kind: LiteralKind, number: Option<u128>, digits: &[u8]) -> Option<Value>
    requires { number ≡ spelled_number kind digits.now }
    ensures { known_element result ≡ literal_element kind digits.now }
{
    match kind {
        LiteralKind::Numeral => numeral_of(number),
        LiteralKind::Decimal => decimal_of(number, digits),
        LiteralKind::Hexadecimal => hex_of(number, digits),
        LiteralKind::Binary => bin_of(number, digits),
    }
}

/// The element of a declared sort whose name has this number.
#[inline(always)]
pub fn element(number: u32) -> Value
    ensures { element_of result ≡ numbered number }
{
    Value::Abstract(ElementNumber::new(number))
}
