//! Shifts by a vector's number (SMT-LIB 2.6, theory FixedSizeBitVectors; `bvashr` is of logic QF_BV). No
//! function here changes a width.

ghost use Rattle.std.specs.Prelude.{◌≡◌, ◌*◌, ◌/◌, ◌%◌, ◌^◌};
ghost use Rattle.smt_bits.specs.BitVector.{vector};
ghost use Rattle.smt_bits.specs.Operators as meaning;

use crate::bits::Bits;

/// `bvshl`: the product with 2^t modulo 2^m, which is 0 from t = m on. Requires two vectors of one width.
pub fn bvshl(s: Bits, t: Bits) -> Bits
    requires { s.width ≡ t.width }
    ensures { result ≡ vector s.width (meaning.bvshl s.width s.number t.number) }
{
    Bits::new(s.width(), shifted_left(s.number(), t.number()))
}

/// `bvlshr`: the quotient by 2^t rounded down, which is 0 from t = m on. Requires two vectors of one width.
pub fn bvlshr(s: Bits, t: Bits) -> Bits
    requires { s.width ≡ t.width }
    ensures { result ≡ vector s.width (meaning.bvlshr s.width s.number t.number) }
{
    Bits::new(s.width(), shifted_right(s.number(), t.number()))
}

/// `bvashr`: the signed reading's quotient by 2^t, rounded down, so that copies of the highest bit come in.
/// Requires two vectors of one width.
pub fn bvashr(s: Bits, t: Bits) -> Bits
    requires { s.width ≡ t.width }
    ensures { result ≡ vector s.width (meaning.bvashr s.width s.number t.number) }
{
    // From 127 on, all that is left of a number of 128 bits is copies of its sign.
    Bits::from_signed(s.width(), s.signed() >> t.number().min(127))
}

// The lowest 128 bits of n * 2^t.
fn shifted_left(n: u128, t: u128) -> u128
    ensures { result ≡ n * 2 ^ t % 2 ^ 128 }
{
    if t < 128 { n << t } else { 0 }
}

// The quotient of n by 2^t, rounded down.
fn shifted_right(n: u128, t: u128) -> u128
    ensures { result ≡ n / 2 ^ t }
{
    if t < 128 { n >> t } else { 0 }
}
