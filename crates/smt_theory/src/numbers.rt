//! Numbers from their digits. This file knows no sort, and no atom.

ghost use Rattle.std.specs.Prelude.{◌≡◌, ◌+◌, ◌*◌, ◌^◌, ◌<◌, ◌≤◌, IfNone, IfSome, length};
ghost use Rattle.std.specs.Char.{digit_value, is_ascii_digit};
ghost use Rattle.std.specs.List.{list_all};
ghost use Rattle.std.specs.Str.Parse.{digits_value};
ghost use Rattle.smt_theory.specs.Numbers.{below_word};
ghost use Rattle.smt_theory.specs.declared.numbers.TheConstants.{FEW};
ghost use Rattle.smt_theory.specs.Numbers as numbers;
ghost use Rattle.smt_theory.specs.Internal.Digits.{digit_table};

/// The number that digits spell in a base; `None` where it is 2^128 or more.
///
/// Digits from ten on are letters of either case. Leading zeros change nothing. Any other byte counts as the
/// digit 36.
pub fn number(base: u8, digits: &[u8]) -> Option<u128>
    requires { 0 < base }
    ensures { result ≡ below_word (digits_value base digits.now) }
{
    if base <= 16 && digits.len() <= FEW {
        return Some(u128::from(few_digits(base, digits)));
    }
    match short_number(base, digits) {
        Some(value) => Some(u128::from(value)),
        None => long_number(base, digits),
    }
}

/// As many digits of a base up to 16 spell a number below 2^62.
const FEW: usize = 15;

// The number that a few digits spell.
#[inline(always)]
fn few_digits(base: u8, digits: &[u8]) -> u64
    requires base { base ≤ 16 }
    requires few { length digits.now ≤ FEW }
    ensures { result ≡ digits_value base digits.now }
{
    let mut value = 0;
    for byte in digits {
        value = value * u64::from(base) + u64::from(digit(*byte));
    }
    value
}

// The number, computed in 64 bits; `None` where it does not fit. Most numbers fit, and a digit takes half the
// time there.
fn short_number(base: u8, digits: &[u8]) -> Option<u64>
    requires { 0 < base }
    ensures same { IfSome result (λ n. n ≡ digits_value base digits.now) }
    ensures large { IfNone result (2 ^ 64 ≤ digits_value base digits.now) }
{
    let mut value = 0;
    for byte in digits {
        value = with_short_digit(base, value, *byte)?;
    }
    Some(value)
}

fn with_short_digit(base: u8, value: u64, byte: u8) -> Option<u64>
    ensures same { IfSome result (λ n. n ≡ value * base + digit_value byte) }
    ensures large { IfNone result (2 ^ 64 ≤ value * base + digit_value byte) }
{
    value
        .checked_mul(u64::from(base))?
        .checked_add(u64::from(digit(byte)))
}

// The number, computed in 128 bits; `None` where it does not fit.
fn long_number(base: u8, digits: &[u8]) -> Option<u128>
    requires { 0 < base }
    ensures { result ≡ below_word (digits_value base digits.now) }
{
    let mut value = 0;
    for byte in digits {
        value = with_digit(base, value, *byte)?;
    }
    Some(value)
}

pub(crate) fn with_digit(base: u8, value: u128, byte: u8) -> Option<u128>
    ensures { result ≡ below_word (value * base + digit_value byte) }
{
    value
        .checked_mul(u128::from(base))?
        .checked_add(u128::from(digit(byte)))
}

// The value of each byte as a digit: `0` and what follows stand for 0 and what follows.
#[inline(always)]
fn digit_values() -> &'static [u8]
    ensures { result.now ≡ digit_table }
{
    b"TTTTTTTTTTTTTTTTTTTTTTTTTTTTTTTTTTTTTTTTTTTTTTTT0123456789TTTTTTT:;<=>?@ABCDEFGHIJKLMNOPQRSTTTTTT:;<=>?@ABCDEFGHIJKLMNOPQRSTTTTTTTTTTTTTTTTTTTTTTTTTTTTTTTTTTTTTTTTTTTTTTTTTTTTTTTTTTTTTTTTTTTTTTTTTTTTTTTTTTTTTTTTTTTTTTTTTTTTTTTTTTTTTTTTTTTTTTTTTTTTTTTTTTTTT"
}

/// The value of a decimal digit, or of a letter of either case, from 10 on; 36 for other bytes.
#[inline(always)]
pub fn digit(byte: u8) -> u8
    ensures { result ≡ digit_value byte }
{
    digit_values()[byte as usize] - b'0'
}

/// Whether these bytes are a numeral: `0`, or decimal digits that do not begin with `0` (SMT-LIB 2.6, section
/// 3.1).
pub(crate) fn is_numeral(bytes: &[u8]) -> bool
    ensures { result ≡ numbers.is_numeral bytes.now }
{
    let Some((first, rest)) = bytes.split_first() else {
        return false;
    };
    if *first == b'0' {
        rest.is_empty()
    } else {
        are_digits(bytes)
    }
}

fn are_digits(bytes: &[u8]) -> bool
    ensures { result ≡ list_all is_ascii_digit bytes.now }
{
    bytes.iter().all(|byte| byte.is_ascii_digit())
}
