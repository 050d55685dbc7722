//! Parts of bit vectors, put together and taken apart. No function here reads a number as signed.
#![tactic(auto, using(crate::proofs::PartLemmas::parts))]

ghost use Rattle.std.specs.Prelude.{◌≡◌, ◌+◌, ◌≤◌};
ghost use Rattle.smt_theory.specs.Width.{width_of};
ghost use Rattle.smt_bits.specs.BitVector.{vector};
ghost use Rattle.smt_bits.specs.Operators as meaning;
ghost use Rattle.smt_bits.specs.Parts.{concatenation, extraction, repetition, sign_extension, zero_extension};

use crate::bits::Bits;
use smt_theory::Width;

/// `concat`: the bits of s before those of t. `None` where they are more than 128 bits together.
pub fn concat(s: Bits, t: Bits) -> Option<Bits>
    ensures { result ≡ concatenation s t }
{
    let below = t.width().bits();
    let width = Width::new(s.width().bits() + below)?;
    Some(Bits::new(width, s.number() << below | t.number()))
}

/// `(_ extract i j)`: the bits from place i down to place j, where 0 is the lowest. `None` unless
/// `j <= i < m`.
pub fn extract(i: u64, j: u64, s: Bits) -> Option<Bits>
    ensures { result ≡ extraction i j s }
{
    if j > i || i >= s.width().bits() {
        return None;
    }
    let width = Width::new(i - j + 1)?;
    Some(Bits::new(width, s.number() >> j))
}

/// `(_ repeat i)`: the bits of s, i times. `None` for 0 times, and where they are more than 128 bits
/// together.
pub fn repeat(i: u64, s: Bits) -> Option<Bits>
    ensures { result ≡ repetition i s }
{
    if i == 0 {
        return None;
    }
    let mut repeated = s;
    for _times in 1..i {
        repeated = concat(repeated, s)?;
    }
    Some(repeated)
}

/// `(_ zero_extend i)`: the bits of s after i zeros. `None` where they are more than 128 bits together.
pub fn zero_extend(i: u64, s: Bits) -> Option<Bits>
    ensures { result ≡ zero_extension i s }
{
    Some(Bits::new(extended(s.width(), i)?, s.number()))
}

/// `(_ sign_extend i)`: the bits of s after i copies of the highest. `None` where they are more than 128 bits
/// together.
pub fn sign_extend(i: u64, s: Bits) -> Option<Bits>
    ensures { result ≡ sign_extension i s }
{
    Some(Bits::from_signed(extended(s.width(), i)?, s.signed()))
}

/// `(_ rotate_left i)`: the bits of s, with the highest i % m moved to the end.
pub fn rotate_left(i: u64, s: Bits) -> Bits
    ensures { result ≡ vector s.width (meaning.rotate_left i s.width s.number) }
{
    rotated(i % s.width().bits(), s)
}

/// `(_ rotate_right i)`: the bits of s, with the lowest i % m moved to the front.
pub fn rotate_right(i: u64, s: Bits) -> Bits
    ensures { result ≡ vector s.width (meaning.rotate_right i s.width s.number) }
{
    let m = s.width().bits();
    rotated(m - i % m, s)
}

// The width with i more bits, if it is a width.
fn extended(width: Width, i: u64) -> Option<Width>
    ensures { result ≡ width_of (width + i) }
{
    Width::new(width.bits().checked_add(i)?)
}

// A rotation to the left by k, at most the whole width. By 0 and by m nothing is shifted, since a `u128`
// cannot be shifted by 128.
fn rotated(k: u64, s: Bits) -> Bits
    requires { k ≤ s.width }
    ensures { result ≡ vector s.width (meaning.rotated_left k s.width s.number) }
{
    let m = s.width().bits();
    if k == 0 || k == m {
        return s;
    }
    Bits::new(s.width(), s.number() << k | s.number() >> (m - k))
}
