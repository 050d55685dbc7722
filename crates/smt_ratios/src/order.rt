//! The order of rational numbers, and the integers among them. Nothing here is ever open, or knows arithmetic.

ghost use Rattle.std.specs.Prelude.{◌≡◌, ◌<◌, pos, ◌*◌, ◌*ℤ◌, int_lt, nat_lt, not};
ghost use Rattle.smt_ratios.specs.Operators as meaning;
ghost use Rattle.smt_ratios.specs.View.{rational_of};

use crate::number::Number;

/// Whether a is less than b, by cross products of 256 bits.
pub fn is_less(a: &Number, b: &Number) -> bool
    ensures { result ≡ meaning.is_less (rational_of a.now) (rational_of b.now) }
{
    is_cross_less(
        a.numerator(),
        a.denominator().unsigned_abs(),
        b.numerator(),
        b.denominator().unsigned_abs(),
    )
}

/// Whether a is less than b, or they are equal.
pub fn is_at_most(a: &Number, b: &Number) -> bool
    ensures { result ≡ not (meaning.is_less (rational_of b.now) (rational_of a.now)) }
{
    !is_less(b, a)
}

/// Whether both are the same number.
pub fn is_equal(a: &Number, b: &Number) -> bool
    ensures { result ≡ meaning.is_equal (rational_of a.now) (rational_of b.now) }
{
    a == b
}

/// The greatest integer that is not over the number (`to_int`): rounded down, for numbers below 0 too.
pub fn floor(a: &Number) -> i128
    ensures { result ≡ meaning.floor (rational_of a.now) }
{
    a.numerator().div_euclid(a.denominator())
}

/// Whether the number is an integer (`is_int`).
pub fn is_integer(a: &Number) -> bool
    ensures { result ≡ meaning.is_integer (rational_of a.now) }
{
    matches!(a, Number::Integer(_))
}

// Whether n / d is less than m / e.
fn is_cross_less(n: i128, d: u128, m: i128, e: u128) -> bool
    requires first { 0 < d }
    requires second { 0 < e }
    ensures { result ≡ int_lt (n *ℤ pos e) (m *ℤ pos d) }
{
    if n < 0 {
        m >= 0 || is_product_less(m.unsigned_abs(), d, n.unsigned_abs(), e)
    } else {
        m >= 0 && is_product_less(n.unsigned_abs(), e, m.unsigned_abs(), d)
    }
}

// Whether a * b is less than c * d, of 256 bits.
fn is_product_less(a: u128, b: u128, c: u128, d: u128) -> bool
    ensures { result ≡ nat_lt (a * b) (c * d) }
{
    let (low, high) = a.carrying_mul(b, 0);
    let (other_low, other_high) = c.carrying_mul(d, 0);
    high < other_high || high == other_high && low < other_low
}
