//! Operators on the signed reading, and `bvcomp`. No function here gives an integer: each gives a bit vector.

ghost use Rattle.std.specs.Prelude.{◌≡◌, ◌≢◌, pos};
ghost use Rattle.smt_bits.specs.BitVector.{vector};
ghost use Rattle.smt_bits.specs.Operators as meaning;

use crate::bits::Bits;
use smt_theory::Width;

/// `bvsdiv`: the quotient of the signed readings, rounded towards 0. By 0 it is 1 for a negative dividend,
/// and -1 for others. Requires two vectors of one width.
pub fn bvsdiv(s: Bits, t: Bits) -> Bits
    requires { s.width ≡ t.width }
    ensures { result ≡ vector s.width (meaning.bvsdiv s.width s.number t.number) }
{
    if t.number() == 0 {
        return Bits::from_signed(s.width(), if s.signed() < 0 { 1 } else { -1 });
    }
    // The quotient of -2^127 by -1 is 2^127, which has the bits of -2^127.
    Bits::from_signed(s.width(), s.signed().wrapping_div(t.signed()))
}

/// `bvsrem`: the remainder of that division, with the dividend's sign. By 0 it is the dividend. Requires two
/// vectors of one width.
pub fn bvsrem(s: Bits, t: Bits) -> Bits
    requires { s.width ≡ t.width }
    ensures { result ≡ vector s.width (meaning.bvsrem s.width s.number t.number) }
{
    if t.number() == 0 {
        return s;
    }
    Bits::from_signed(s.width(), s.signed().wrapping_rem(t.signed()))
}

/// `bvsmod`: the remainder of the division that rounds down, with the divisor's sign. By 0 it is the
/// dividend. Requires two vectors of one width.
pub fn bvsmod(s: Bits, t: Bits) -> Bits
    requires { s.width ≡ t.width }
    ensures { result ≡ vector s.width (meaning.bvsmod s.width s.number t.number) }
{
    if t.number() == 0 {
        return s;
    }
    Bits::from_signed(s.width(), flooring_remainder(s.signed(), t.signed()))
}

/// `bvcomp`: one bit, set where the two are equal. Requires two vectors of one width.
pub fn bvcomp(s: Bits, t: Bits) -> Bits
    requires { s.width ≡ t.width }
    ensures { result ≡ vector 1 (meaning.bvcomp s.number t.number) }
{
    Bits::new(Width::new(1).unwrap(), u128::from(s.number() == t.number()))
}

// The remainder of the division that rounds down: 0, or with the divisor's sign.
fn flooring_remainder(a: i128, n: i128) -> i128
    requires { n ≢ pos 0 }
    ensures { result ≡ meaning.flooring_remainder a n }
{
    let remainder = a.wrapping_rem_euclid(n);
    if n < 0 && remainder != 0 {
        remainder + n
    } else {
        remainder
    }
}
