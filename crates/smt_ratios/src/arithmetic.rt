//! Arithmetic on rational numbers (SMT-LIB 2.6, theory Reals_Ints). This file knows no order, and no decimals.

ghost use Rattle.std.specs.Prelude.{◌≡◌, ◌≢◌, pos, ◌*ℤ◌, ◌+ℤ◌, ◌-ℤ◌, ◌<ℤ◌, unsigned_abs, neg_ℤ, IfSome, []};
ghost use Rattle.std.specs.Prelude.{◌∷◌};
ghost use Rattle.smt_ratios.specs.Known.{known_difference, known_negative, known_product, known_quotient};
ghost use Rattle.smt_ratios.specs.Known.{known_sum};
ghost use Rattle.smt_ratios.specs.Known.{known, within};
ghost use Rattle.smt_ratios.specs.Operators as meaning;
ghost use Rattle.smt_ratios.specs.Rational.{numerator, ratio};
ghost use Rattle.smt_ratios.specs.View.{known_rational, rational_of};

use crate::number::{Number, lowest};

/// The sum a/b + c/d.
///
/// `None` where ad, cb, their sum or bd is outside 128 bits, or the denominator over 2^120 - 1.
pub fn sum(a: &Number, b: &Number) -> Option<Number>
    ensures { known_rational result ≡ known_sum (rational_of a.now) (rational_of b.now) }
{
    sum_of(
        a.numerator(),
        a.denominator(),
        b.numerator(),
        b.denominator(),
    )
}

fn sum_of(n: i128, d: i128, m: i128, e: i128) -> Option<Number>
    requires first { pos 0 <ℤ d }
    requires second { pos 0 <ℤ e }
    ensures { known_rational result ≡ known ((n *ℤ e) ∷ (m *ℤ d) ∷ (n *ℤ e +ℤ m *ℤ d) ∷ (d *ℤ e) ∷ [])
        (ratio (n *ℤ e +ℤ m *ℤ d) (unsigned_abs (d *ℤ e))) }
{
    let left = times(n, e)?;
    let right = times(m, d)?;
    let numerator = plus(left, right)?;
    let denominator = denominator_of(d, e)?;
    lowest(numerator, denominator)
}

/// The difference a/b - c/d.
///
/// `None` where ad, cb, their difference or bd is outside 128 bits, or the denominator over 2^120 - 1.
pub fn difference(a: &Number, b: &Number) -> Option<Number>
    ensures { known_rational result ≡ known_difference (rational_of a.now) (rational_of b.now) }
{
    difference_of(
        a.numerator(),
        a.denominator(),
        b.numerator(),
        b.denominator(),
    )
}

fn difference_of(n: i128, d: i128, m: i128, e: i128) -> Option<Number>
    requires first { pos 0 <ℤ d }
    requires second { pos 0 <ℤ e }
    ensures { known_rational result ≡ known ((n *ℤ e) ∷ (m *ℤ d) ∷ (n *ℤ e -ℤ m *ℤ d) ∷ (d *ℤ e) ∷ [])
        (ratio (n *ℤ e -ℤ m *ℤ d) (unsigned_abs (d *ℤ e))) }
{
    let left = times(n, e)?;
    let right = times(m, d)?;
    let numerator = minus(left, right)?;
    let denominator = denominator_of(d, e)?;
    lowest(numerator, denominator)
}

/// The number with the other sign; `None` where the numerator is -2^127.
pub fn negative(a: &Number) -> Option<Number>
    ensures { known_rational result ≡ known_negative (rational_of a.now) }
{
    negative_of(a.numerator(), a.denominator())
}

fn negative_of(n: i128, d: i128) -> Option<Number>
    requires { pos 0 <ℤ d }
    ensures { known_rational result ≡ known (neg_ℤ n ∷ []) (ratio (neg_ℤ n) (unsigned_abs d)) }
{
    let numerator = negated(n)?;
    lowest(numerator, d)
}

/// The product a/b * c/d; `None` where ac or bd is outside 128 bits, or the denominator over 2^120 - 1.
pub fn product(a: &Number, b: &Number) -> Option<Number>
    ensures { known_rational result ≡ known_product (rational_of a.now) (rational_of b.now) }
{
    product_of(
        a.numerator(),
        a.denominator(),
        b.numerator(),
        b.denominator(),
    )
}

fn product_of(n: i128, d: i128, m: i128, e: i128) -> Option<Number>
    requires first { pos 0 <ℤ d }
    requires second { pos 0 <ℤ e }
    ensures { known_rational result ≡ known ((n *ℤ m) ∷ (d *ℤ e) ∷ []) (ratio (n *ℤ m) (unsigned_abs (d *ℤ e))) }
{
    let numerator = times(n, m)?;
    let denominator = denominator_of(d, e)?;
    lowest(numerator, denominator)
}

/// The quotient of a/b by c/d other than 0.
///
/// The sign of c goes to d first. `None` where ad or b|c| is then outside 128 bits, or the denominator over
/// 2^120 - 1.
pub fn quotient(a: &Number, b: &Number) -> Option<Number>
    requires { numerator (rational_of b.now) ≢ pos 0 }
    ensures { known_rational result ≡ known_quotient (rational_of a.now) (rational_of b.now) }
{
    quotient_of(
        a.numerator(),
        a.denominator(),
        b.numerator(),
        b.denominator(),
    )
}

fn quotient_of(n: i128, d: i128, m: i128, e: i128) -> Option<Number>
    requires first { pos 0 <ℤ d }
    requires second { pos 0 <ℤ e }
    requires some { m ≢ pos 0 }
    ensures { known_rational result
        ≡ known ((n *ℤ meaning.with_sign_of m (unsigned_abs e)) ∷ (d *ℤ pos (unsigned_abs m)) ∷ [])
        (ratio (n *ℤ meaning.with_sign_of m (unsigned_abs e)) (unsigned_abs (d *ℤ pos (unsigned_abs m)))) }
{
    let numerator = times(n, with_sign_of(m, e))?;
    let denominator = times_absolute(d, m)?;
    lowest(numerator, denominator)
}

// The integer d with the sign of z.
fn with_sign_of(z: i128, d: i128) -> i128
    requires { pos 0 <ℤ d }
    ensures { result ≡ meaning.with_sign_of z (unsigned_abs d) }
{
    if z < 0 { -d } else { d }
}

// d times the absolute value of z; `None` outside 128 bits.
fn times_absolute(d: i128, z: i128) -> Option<i128>
    requires positive { pos 0 <ℤ d }
    requires some { z ≢ pos 0 }
    ensures value { result ≡ within (d *ℤ pos (unsigned_abs z)) }
    ensures positive { IfSome result (λ n. pos 0 <ℤ n) }
{
    d.checked_mul(z.checked_abs()?)
}

// The product of two denominators; `None` outside 128 bits.
fn denominator_of(d: i128, e: i128) -> Option<i128>
    requires first { pos 0 <ℤ d }
    requires second { pos 0 <ℤ e }
    ensures value { result ≡ within (d *ℤ e) }
    ensures positive { IfSome result (λ n. pos 0 <ℤ n) }
{
    d.checked_mul(e)
}

// Each of these is `None` outside 128 bits.

fn times(a: i128, b: i128) -> Option<i128>
    ensures { result ≡ within (a *ℤ b) }
{
    a.checked_mul(b)
}

fn plus(a: i128, b: i128) -> Option<i128>
    ensures { result ≡ within (a +ℤ b) }
{
    a.checked_add(b)
}

fn minus(a: i128, b: i128) -> Option<i128>
    ensures { result ≡ within (a -ℤ b) }
{
    a.checked_sub(b)
}

fn negated(a: i128) -> Option<i128>
    ensures { result ≡ within (neg_ℤ a) }
{
    a.checked_neg()
}
