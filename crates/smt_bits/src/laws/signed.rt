//! Laws of the signed reading. Nothing here does anything.

ghost use Rattle.std.specs.Prelude.{◌≡◌, ◌≢◌, ℕ, zero, suc, ◌^◌, ◌<◌, ◌≤◌, ℤ, pos, neg_ℤ, ◌+ℤ◌, ◌*ℤ◌, ◌≤ℤ◌};
ghost use Rattle.std.specs.Prelude.{◌<ℤ◌, int_div, int_rem, unsigned_abs};
ghost use Rattle.smt_bits.specs.BitVector.{modulo, signed};
ghost use Rattle.smt_bits.specs.Operators as meaning;
ghost use Rattle.smt_bits.specs.Readings.{IsFloored, IsModulo, IsTruncated};

/// Read as signed, each number of m bits is one integer from -2^(m-1) on and below 2^(m-1), and each of these
/// is one number of m bits: the one that differs from it by a multiple of 2^m.
pub fn the_signed_reading_is_one_to_one()
    ensures number { (m s : ℕ) → s < 2 ^ m → modulo m (signed m s) ≡ s }
    ensures integer { (m : ℕ) (z : ℤ) → neg_ℤ (pos (2 ^ m)) ≤ℤ z → z <ℤ pos (2 ^ m)
        → signed (suc m) (modulo (suc m) z) ≡ z }
    ensures low { (m s : ℕ) → s < 2 ^ suc m → neg_ℤ (pos (2 ^ m)) ≤ℤ signed (suc m) s }
    ensures high { (m s : ℕ) → s < 2 ^ suc m → signed (suc m) s <ℤ pos (2 ^ m) }
    ensures modulo { (m : ℕ) (z : ℤ) → IsModulo m z (modulo m z) }
{}

/// `bvsdiv` and `bvsrem` by a number other than 0 are the quotient, modulo 2^m, and the remainder of the
/// division that rounds towards 0: the one with `s = q * t + r`, `|r| < |t|` and an r that is 0 or has the sign
/// of s.
pub fn signed_division_is_by_the_law()
    ensures exact { (m s t : ℕ)
        → signed m s ≡ int_div (signed m s) (signed m t) *ℤ signed m t +ℤ int_rem (signed m s) (signed m t) }
    ensures quotient { (m s t : ℕ) → t ≢ 0
        → meaning.bvsdiv m s t ≡ modulo m (int_div (signed m s) (signed m t)) }
    ensures remainder { (m s t : ℕ) → 1 ≤ m → s < 2 ^ m → t < 2 ^ m → t ≢ 0
        → signed m (meaning.bvsrem m s t) ≡ int_rem (signed m s) (signed m t) }
    ensures small { (m s t : ℕ) → t < 2 ^ m → t ≢ 0
        → unsigned_abs (int_rem (signed m s) (signed m t)) < unsigned_abs (signed m t) }
    ensures at_least_zero { (m s t : ℕ) → pos 0 ≤ℤ signed m s → pos 0 ≤ℤ int_rem (signed m s) (signed m t) }
    ensures at_most_zero { (m s t : ℕ) → signed m s ≤ℤ pos 0 → int_rem (signed m s) (signed m t) ≤ℤ pos 0 }
    ensures whole { (m s t : ℕ) → 1 ≤ m → s < 2 ^ m → t < 2 ^ m → t ≢ 0
        → (q : ℤ) × IsTruncated (signed m s) (signed m t) q (signed m (meaning.bvsrem m s t))
        × IsModulo m q (meaning.bvsdiv m s t) }
{}

/// `bvsmod` by a number other than 0 is the remainder that is 0 or has the divisor's sign.
pub fn signed_modulus_is_by_the_law()
    ensures exact { (m s t : ℕ) → 1 ≤ m → s < 2 ^ m → t < 2 ^ m → t ≢ 0
        → (q : ℤ) × (signed m s ≡ q *ℤ signed m t +ℤ signed m (meaning.bvsmod m s t)) }
    ensures small { (m s t : ℕ) → 1 ≤ m → s < 2 ^ m → t < 2 ^ m → t ≢ 0
        → unsigned_abs (signed m (meaning.bvsmod m s t)) < unsigned_abs (signed m t) }
    ensures at_least_zero { (m s t : ℕ) → 1 ≤ m → s < 2 ^ m → t < 2 ^ m → t ≢ 0
        → pos 0 ≤ℤ signed m t → pos 0 ≤ℤ signed m (meaning.bvsmod m s t) }
    ensures at_most_zero { (m s t : ℕ) → 1 ≤ m → s < 2 ^ m → t < 2 ^ m → t ≢ 0
        → signed m t ≤ℤ pos 0 → signed m (meaning.bvsmod m s t) ≤ℤ pos 0 }
    ensures whole { (m s t : ℕ) → 1 ≤ m → s < 2 ^ m → t < 2 ^ m → t ≢ 0
        → (q : ℤ) × IsFloored (signed m s) (signed m t) q (signed m (meaning.bvsmod m s t)) }
{}

/// `bvcomp` is 1 for equal numbers and for no others.
pub fn equals_are_compared()
    ensures set { (s t : ℕ) → meaning.bvcomp s t ≡ 1 → s ≡ t }
    ensures equal { (s t : ℕ) → s ≡ t → meaning.bvcomp s t ≡ 1 }
{}

/// Each result is a number of as many bits as its sort says (SMT-LIB 2.6, logic QF_BV).
pub fn signed_fits()
    ensures bvsdiv { (m s t : ℕ) → 1 ≤ m → meaning.bvsdiv m s t < 2 ^ m }
    ensures bvsrem { (m s t : ℕ) → s < 2 ^ m → meaning.bvsrem m s t < 2 ^ m }
    ensures bvsmod { (m s t : ℕ) → s < 2 ^ m → meaning.bvsmod m s t < 2 ^ m }
    ensures bvcomp { (s t : ℕ) → meaning.bvcomp s t < 2 }
{}
