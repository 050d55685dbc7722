//! Arithmetic modulo powers of two (SMT-LIB 2.6, theory FixedSizeBitVectors; `bvsub` is of logic QF_BV), and whether an
//! exact result overflows (SMT-LIB 2.7): `bvu..` of the numbers, the others of the signed readings. No function here
//! changes a width, or gives an integer.

ghost use Rattle.std.specs.Prelude.{◌≡◌, ◌<◌, ◌^◌, ◌-◌, ℕ, ℤ, pos, FitsSigned};
ghost use Rattle.std.specs.Int.{w128};
ghost use Rattle.std.specs.Option.{SomeIff};
ghost use Rattle.smt_bits.specs.BitVector.{modulo, vector};
ghost use Rattle.smt_bits.specs.Operators as meaning;

use crate::bits::Bits;
use smt_theory::Width;

/// `bvneg`: 2^m minus the number, modulo 2^m.
pub fn bvneg(s: Bits) -> Bits
    ensures { result ≡ vector s.width (meaning.bvneg s.width s.number) }
{
    Bits::new(s.width(), s.number().wrapping_neg())
}

/// `bvadd`: the sum modulo 2^m. Requires two vectors of one width.
pub fn bvadd(s: Bits, t: Bits) -> Bits
    requires { s.width ≡ t.width }
    ensures { result ≡ vector s.width (meaning.bvadd s.width s.number t.number) }
{
    Bits::new(s.width(), s.number().wrapping_add(t.number()))
}

/// `bvsub`: the difference modulo 2^m. Requires two vectors of one width.
pub fn bvsub(s: Bits, t: Bits) -> Bits
    requires { s.width ≡ t.width }
    ensures { result ≡ vector s.width (meaning.bvsub s.width s.number t.number) }
{
    Bits::new(s.width(), s.number().wrapping_sub(t.number()))
}

/// `bvmul`: the product modulo 2^m. Requires two vectors of one width.
pub fn bvmul(s: Bits, t: Bits) -> Bits
    requires { s.width ≡ t.width }
    ensures { result ≡ vector s.width (meaning.bvmul s.width s.number t.number) }
{
    Bits::new(s.width(), s.number().wrapping_mul(t.number()))
}

/// `bvudiv`: the quotient rounded down; by 0 all bits are set. Requires two vectors of one width.
pub fn bvudiv(s: Bits, t: Bits) -> Bits
    requires { s.width ≡ t.width }
    ensures { result ≡ vector s.width (meaning.bvudiv s.width s.number t.number) }
{
    if t.number() == 0 {
        Bits::new(s.width(), u128::MAX)
    } else {
        Bits::new(s.width(), s.number() / t.number())
    }
}

/// `bvurem`: the remainder of that quotient; by 0 it is the dividend. Requires two vectors of one width.
pub fn bvurem(s: Bits, t: Bits) -> Bits
    requires { s.width ≡ t.width }
    ensures { result ≡ vector s.width (meaning.bvurem s.width s.number t.number) }
{
    if t.number() == 0 {
        s
    } else {
        Bits::new(s.width(), s.number() % t.number())
    }
}

/// `bvuaddo`: whether the sum of the numbers is 2^m or more. Requires two vectors of one width.
pub fn bvuaddo(s: Bits, t: Bits) -> bool
    requires { s.width ≡ t.width }
    ensures { result ≡ meaning.bvuaddo s.width s.number t.number }
{
    overflows(s.width(), s.number().checked_add(t.number()))
}

/// `bvusubo`: whether the difference of the numbers is below 0. Requires two vectors of one width.
pub fn bvusubo(s: Bits, t: Bits) -> bool
    requires { s.width ≡ t.width }
    ensures { result ≡ meaning.bvusubo s.width s.number t.number }
{
    s.number() < t.number()
}

/// `bvumulo`: whether the product of the numbers is 2^m or more. Requires two vectors of one width.
pub fn bvumulo(s: Bits, t: Bits) -> bool
    requires { s.width ≡ t.width }
    ensures { result ≡ meaning.bvumulo s.width s.number t.number }
{
    overflows(s.width(), s.number().checked_mul(t.number()))
}

/// `bvnego`: whether the negative is 2^(m-1) or more, as that of -2^(m-1) alone.
pub fn bvnego(s: Bits) -> bool
    ensures { result ≡ meaning.bvnego s.width s.number }
{
    overflows_signed(s.width(), s.signed().checked_neg())
}

/// `bvsaddo`: whether the sum is below -2^(m-1), or 2^(m-1) or more. Requires two vectors of one width.
pub fn bvsaddo(s: Bits, t: Bits) -> bool
    requires { s.width ≡ t.width }
    ensures { result ≡ meaning.bvsaddo s.width s.number t.number }
{
    overflows_signed(s.width(), s.signed().checked_add(t.signed()))
}

/// `bvssubo`: the same of the difference. Requires two vectors of one width.
pub fn bvssubo(s: Bits, t: Bits) -> bool
    requires { s.width ≡ t.width }
    ensures { result ≡ meaning.bvssubo s.width s.number t.number }
{
    overflows_signed(s.width(), s.signed().checked_sub(t.signed()))
}

/// `bvsmulo`: the same of the product. Requires two vectors of one width.
pub fn bvsmulo(s: Bits, t: Bits) -> bool
    requires { s.width ≡ t.width }
    ensures { result ≡ meaning.bvsmulo s.width s.number t.number }
{
    overflows_signed(s.width(), s.signed().checked_mul(t.signed()))
}

/// `bvsdivo`: the same of the quotient, as that of -2^(m-1) and -1 alone; by 0 it is false. Requires two vectors of one
/// width.
pub fn bvsdivo(s: Bits, t: Bits) -> bool
    requires { s.width ≡ t.width }
    ensures { result ≡ meaning.bvsdivo s.width s.number t.number }
{
    t.number() != 0 && overflows_signed(s.width(), s.signed().checked_div(t.signed()))
}

/// `int_to_bv`: the number of m bits that differs from the integer by a multiple of 2^m.
pub fn int_to_bv(width: Width, z: i128) -> Bits
    ensures { result ≡ vector width (modulo width z) }
{
    Bits::from_signed(width, z)
}

// Whether a number, which has more than 128 bits where it is `None`, has more bits than these.
fn overflows(width: Width, exact: Option<u128>) -> bool
    ensures { (n : ℕ) → SomeIff exact (n < 2 ^ 128) n → result ≡ meaning.overflows width (pos n) }
{
    match exact {
        Some(n) => Bits::new(width, n).number() != n,
        None => true,
    }
}

// Whether an integer, which is none of 128 bits where it is `None`, is none of so many bits.
fn overflows_signed(width: Width, exact: Option<i128>) -> bool
    ensures { (z : ℤ) → SomeIff exact (FitsSigned w128 z) z → result ≡ meaning.overflows_signed width z }
{
    match exact {
        Some(z) if z < 0 => z.unsigned_abs() > half(width),
        Some(z) => z.unsigned_abs() >= half(width),
        None => true,
    }
}

// The number of which the highest of so many bits is set alone.
fn half(width: Width) -> u128
    ensures { result ≡ 2 ^ (width - 1) }
{
    1 << (width.bits() - 1)
}
