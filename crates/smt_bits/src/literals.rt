//! Bit vectors as constants are spelled. This file knows no operator.

ghost use Rattle.std.specs.Prelude.{◌≡◌, ◌+◌, ◌*◌, ◌%◌, ◌^◌, ◌≤◌, IfSome};
ghost use Rattle.std.specs.Char.{digit_value};
ghost use Rattle.std.specs.Str.Parse.{digits_value};
ghost use Rattle.smt_theory.specs.Numbers.{below_word};
ghost use Rattle.smt_bits.specs.Literals.{bin_vector, hex_vector, known_constant};

use crate::bits::Bits;
use smt_theory::{Width, digit};

/// The bit vector that hexadecimal digits of either case spell, four bits a digit (SMT-LIB 2.6, section 3.1
/// and theory FixedSizeBitVectors).
///
/// `None` where there are no digits or more than 32. For bytes that are no digits the result means nothing.
pub fn hex(digits: &[u8]) -> Option<Bits>
    ensures { result ≡ known_constant 16 4 digits.now }
{
    constant(16, 4, None, digits)
}

/// The bit vector that binary digits spell, one bit a digit (SMT-LIB 2.6, section 3.1 and theory
/// FixedSizeBitVectors).
///
/// `None` where there are no digits or more than 128. For bytes that are no digits the result means nothing.
pub fn bin(digits: &[u8]) -> Option<Bits>
    ensures { result ≡ known_constant 2 1 digits.now }
{
    constant(2, 1, None, digits)
}

/// The bit vector that `hex` gives, where `number` is what `smt_theory::number` returns for the digits.
pub fn hex_of(number: Option<u128>, digits: &[u8]) -> Option<Bits>
    requires { number ≡ below_word (digits_value 16 digits.now) }
    ensures { result ≡ known_constant 16 4 digits.now }
{
    constant(16, 4, number, digits)
}

/// The bit vector that `bin` gives, where `number` is what `smt_theory::number` returns for the digits.
pub fn bin_of(number: Option<u128>, digits: &[u8]) -> Option<Bits>
    requires { number ≡ below_word (digits_value 2 digits.now) }
    ensures { result ≡ known_constant 2 1 digits.now }
{
    constant(2, 1, number, digits)
}

// The bit vector of digits in a base, each of `bits` bits. Their number is computed where it is not known
// already.
fn constant(base: u8, bits: u8, known: Option<u128>, digits: &[u8]) -> Option<Bits>
    requires some { 1 ≤ bits }
    requires within { bits ≤ 4 }
    requires known { IfSome known (λ n. n ≡ digits_value base digits.now % 2 ^ 128) }
    ensures { result ≡ known_constant base bits digits.now }
{
    if digits.len() > 128 {
        return None;
    }
    let width = Width::new(u64::from(bits) * digits.len() as u64)?;
    Some(Bits::new(width, known_or_read(base, known, digits)))
}

fn known_or_read(base: u8, known: Option<u128>, digits: &[u8]) -> u128
    requires { IfSome known (λ n. n ≡ digits_value base digits.now % 2 ^ 128) }
    ensures { result ≡ digits_value base digits.now % 2 ^ 128 }
{
    match known {
        Some(number) => number,
        None => value(base, digits),
    }
}

fn value(base: u8, digits: &[u8]) -> u128
    ensures { result ≡ digits_value base digits.now % 2 ^ 128 }
{
    let mut value = 0;
    for byte in digits {
        value = with_digit(base, value, *byte);
    }
    value
}

fn with_digit(base: u8, value: u128, byte: u8) -> u128
    ensures { result ≡ (value * base + digit_value byte) % 2 ^ 128 }
{
    value
        .wrapping_mul(u128::from(base))
        .wrapping_add(u128::from(digit(byte)))
}
