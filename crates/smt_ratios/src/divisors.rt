//! Greatest common divisors. This file knows no fraction.

ghost use Rattle.std.specs.Prelude.{◌≡◌, ◌<◌, pos, ◌<ℤ◌, unsigned_abs, int_div};
ghost use Rattle.smt_ratios.specs.Rational.{gcd};

/// The greatest common divisor of two numbers; of 0 and a number it is the number.
pub(crate) fn greatest_common_divisor(a: u128, b: u128) -> u128
    ensures { result ≡ gcd a b }
{
    let mut x = a;
    let mut y = b;
    while y != 0 {
        let rest = x % y;
        x = y;
        y = rest;
    }
    x
}
