//! Rational numbers, each of one form. This file knows no operator.

ghost use Rattle.std.specs.Prelude.{◌≡◌, pos, ◌<ℤ◌, ◌<◌, unsigned_abs, int_div};
ghost use Rattle.std.specs.Int.{IsGcd};
ghost use Rattle.smt_ratios.specs.Known.{held};
ghost use Rattle.smt_ratios.specs.Rational.{denominator, from_terms, gcd, IsRational, numerator, ratio};
ghost use Rattle.smt_ratios.specs.View.{known_rational, rational_of};

use crate::divisors::greatest_common_divisor;
use crate::ratio::Ratio;

// Denominators are below this.
const DENOMINATORS: u128 = 1 << 120;

/// A rational number. Each has one form: an integer is never a `Ratio`.
#[derive(Clone, Copy, PartialEq, Eq)]
pub enum Number {
    /// An integer from -2^127 to 2^127 - 1.
    Integer(i128),
    /// A number that is no integer, in lowest terms.
    Ratio(Ratio),
}

impl Number {
    /// The numerator in lowest terms: of an integer it is the integer.
    pub fn numerator(&self) -> i128
        ensures { result ≡ numerator (rational_of self.now) }
    {
        match self {
            Number::Integer(z) => *z,
            Number::Ratio(ratio) => ratio.numerator(),
        }
    }

    /// The denominator in lowest terms, from 1 to 2^120 - 1: of an integer it is 1.
    pub fn denominator(&self) -> i128
        ensures value { result ≡ pos (denominator (rational_of self.now)) }
        ensures over_zero { 0 < denominator (rational_of self.now) }
        ensures lowest { IsRational (rational_of self.now) }
    {
        match self {
            Number::Integer(_) => 1,
            Number::Ratio(ratio) => ratio.denominator().cast_signed(),
        }
    }
}

// The number that a quotient of two integers is, in lowest terms; `None` where its denominator is over 2^120 - 1.
pub(crate) fn lowest(numerator: i128, denominator: i128) -> Option<Number>
    requires { pos 0 <ℤ denominator }
    ensures { known_rational result ≡ held (ratio numerator (unsigned_abs denominator)) }
{
    if denominator == 1 {
        return Some(Number::Integer(numerator));
    }
    let divisor = divisor_of(numerator, denominator);
    number_of_terms(
        exact_quotient(numerator, divisor),
        exact_quotient(denominator, divisor).unsigned_abs(),
    )
}

// The greatest common divisor of both.
fn divisor_of(n: i128, d: i128) -> i128
    requires { pos 0 <ℤ d }
    ensures value { result ≡ pos (gcd (unsigned_abs n) (unsigned_abs d)) }
    ensures over_zero { pos 0 <ℤ result }
{
    greatest_common_divisor(n.unsigned_abs(), d.unsigned_abs()) as i128
}

// The quotient by a divisor that leaves nothing. (Of any other it would be rounded towards 0.)
fn exact_quotient(n: i128, divisor: i128) -> i128
    requires { pos 0 <ℤ divisor }
    ensures { result ≡ int_div n divisor }
{
    n / divisor
}

// The number of terms without a divisor in common; `None` where the denominator is over 2^120 - 1.
fn number_of_terms(numerator: i128, denominator: u128) -> Option<Number>
    requires alone { IsGcd (unsigned_abs numerator) denominator 1 }
    requires over_zero { 0 < denominator }
    ensures { known_rational result ≡ held (from_terms numerator denominator) }
{
    if denominator == 1 {
        Some(Number::Integer(numerator))
    } else if denominator < DENOMINATORS {
        Some(Number::Ratio(Ratio::new(numerator, denominator)))
    } else {
        None
    }
}
