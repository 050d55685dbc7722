//! Operators that work bit by bit (SMT-LIB 2.6, theory FixedSizeBitVectors; from `bvxor` on, of logic QF_BV).
//! No function here changes a width.

ghost use Rattle.std.specs.Prelude.{◌≡◌};
ghost use Rattle.smt_bits.specs.BitVector.{vector};
ghost use Rattle.smt_bits.specs.Operators as meaning;

use crate::bits::Bits;

/// `bvnot`: the complement of each bit.
pub fn bvnot(s: Bits) -> Bits
    ensures { result ≡ vector s.width (meaning.bvnot s.width s.number) }
{
    Bits::new(s.width(), !s.number())
}

/// `bvand`: bit by bit, whether both are set. Requires two vectors of one width.
pub fn bvand(s: Bits, t: Bits) -> Bits
    requires { s.width ≡ t.width }
    ensures { result ≡ vector s.width (meaning.bvand s.width s.number t.number) }
{
    Bits::new(s.width(), s.number() & t.number())
}

/// `bvor`: bit by bit, whether one of them is set. Requires two vectors of one width.
pub fn bvor(s: Bits, t: Bits) -> Bits
    requires { s.width ≡ t.width }
    ensures { result ≡ vector s.width (meaning.bvor s.width s.number t.number) }
{
    Bits::new(s.width(), s.number() | t.number())
}

/// `bvxor`: bit by bit, whether just one is set. Requires two vectors of one width.
pub fn bvxor(s: Bits, t: Bits) -> Bits
    requires { s.width ≡ t.width }
    ensures { result ≡ vector s.width (meaning.bvxor s.width s.number t.number) }
{
    Bits::new(s.width(), s.number() ^ t.number())
}

/// `bvnand`: bit by bit, whether not both are set. Requires two vectors of one width.
pub fn bvnand(s: Bits, t: Bits) -> Bits
    requires { s.width ≡ t.width }
    ensures { result ≡ vector s.width (meaning.bvnand s.width s.number t.number) }
{
    Bits::new(s.width(), !(s.number() & t.number()))
}

/// `bvnor`: bit by bit, whether neither is set. Requires two vectors of one width.
pub fn bvnor(s: Bits, t: Bits) -> Bits
    requires { s.width ≡ t.width }
    ensures { result ≡ vector s.width (meaning.bvnor s.width s.number t.number) }
{
    Bits::new(s.width(), !(s.number() | t.number()))
}

/// `bvxnor`: bit by bit, whether they are equal. Requires two vectors of one width.
pub fn bvxnor(s: Bits, t: Bits) -> Bits
    requires { s.width ≡ t.width }
    ensures { result ≡ vector s.width (meaning.bvxnor s.width s.number t.number) }
{
    Bits::new(s.width(), !(s.number() ^ t.number()))
}
