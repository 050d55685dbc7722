//! Laws of the arithmetic modulo powers of two. Nothing here does anything.

ghost use Rattle.std.specs.Prelude.{◌≡◌, ◌≢◌, ℕ, ◌+◌, ◌*◌, ◌^◌, ◌<◌, pos, neg_ℤ, ◌+ℤ◌, ◌-ℤ◌, ◌*ℤ◌, ◌<ℤ◌, ◌≤ℤ◌};
ghost use Rattle.smt_bits.specs.BitVector.{signed};
ghost use Rattle.smt_bits.specs.Operators.{bvadd, bvashr, bvlshr, bvmul, bvneg, bvnot, bvsdiv, bvshl, bvsmod};
ghost use Rattle.smt_bits.specs.Operators.{bvsrem, bvsub, bvudiv, bvurem};
ghost use Rattle.smt_bits.specs.Readings.{IsModulo};

/// The negative is the complement plus one.
pub fn negation_is_the_complement_and_one()
    ensures { (m s : ℕ) → s < 2 ^ m → bvneg m s ≡ bvadd m (bvnot m s) 1 }
{}

/// Subtracting what was added gives back the first number.
pub fn subtraction_undoes_addition()
    ensures { (m s t : ℕ) → s < 2 ^ m → t < 2 ^ m → bvsub m (bvadd m s t) t ≡ s }
{}

/// The negative, the sum, the difference and the product are those of integers, modulo 2^m: numbers of m bits
/// that differ from them by a multiple of 2^m. A shift to the left by t multiplies by 2^t (SMT-LIB 2.6, theory
/// FixedSizeBitVectors and logic QF_BV).
pub fn results_are_modulo_powers_of_two()
    ensures neg { (m s : ℕ) → s < 2 ^ m → IsModulo m (neg_ℤ (pos s)) (bvneg m s) }
    ensures add { (m s t : ℕ) → IsModulo m (pos s +ℤ pos t) (bvadd m s t) }
    ensures sub { (m s t : ℕ) → s < 2 ^ m → t < 2 ^ m → IsModulo m (pos s -ℤ pos t) (bvsub m s t) }
    ensures mul { (m s t : ℕ) → IsModulo m (pos s *ℤ pos t) (bvmul m s t) }
    ensures shl { (m s t : ℕ) → IsModulo m (pos s *ℤ pos (2 ^ t)) (bvshl m s t) }
{}

/// Where the divisor is not 0, `bvudiv` and `bvurem` are the one quotient and the one remainder with `s = q *
/// t + r` and `r < t`.
pub fn unsigned_division_is_by_the_law()
    ensures exact { (m s t : ℕ) → t ≢ 0 → s ≡ bvudiv m s t * t + bvurem m s t }
    ensures high { (m s t : ℕ) → t ≢ 0 → bvurem m s t < t }
    ensures one { (m s t q r : ℕ) → s ≡ q * t + r → r < t → (q ≡ bvudiv m s t) × (r ≡ bvurem m s t) }
{}

/// Each result is a number of m bits.
pub fn arithmetic_fits()
    ensures neg { (m s : ℕ) → bvneg m s < 2 ^ m }
    ensures add { (m s t : ℕ) → bvadd m s t < 2 ^ m }
    ensures sub { (m s t : ℕ) → bvsub m s t < 2 ^ m }
    ensures mul { (m s t : ℕ) → bvmul m s t < 2 ^ m }
    ensures udiv { (m s t : ℕ) → s < 2 ^ m → bvudiv m s t < 2 ^ m }
    ensures urem { (m s t : ℕ) → s < 2 ^ m → bvurem m s t < 2 ^ m }
{}

/// Each shifted vector is a number of m bits, whatever number it is shifted by.
pub fn shifts_fit()
    ensures shl { (m s t : ℕ) → bvshl m s t < 2 ^ m }
    ensures lshr { (m s t : ℕ) → s < 2 ^ m → bvlshr m s t < 2 ^ m }
    ensures ashr { (m s t : ℕ) → bvashr m s t < 2 ^ m }
{}

/// Multiplication by 1 changes nothing, and multiplication distributes over sums.
pub fn multiplication_adds_up()
    ensures by_one { (m s : ℕ) → s < 2 ^ m → bvmul m s 1 ≡ s }
    ensures by_sum { (m s t u : ℕ) → bvmul m s (bvadd m t u) ≡ bvadd m (bvmul m s t) (bvmul m s u) }
{}

/// What the five divisions give by 0 (SMT-LIB 2.6, theory FixedSizeBitVectors and logic QF_BV). The unsigned
/// quotient has all bits set, and each remainder is the dividend. The signed quotient is 1 for a dividend
/// below 0, and -1 for any other.
pub fn division_by_zero_is_as_the_standard_has_it()
    ensures quotient { (m s : ℕ) → bvudiv m s 0 ≡ bvnot m 0 }
    ensures remainder { (m s : ℕ) → bvurem m s 0 ≡ s }
    ensures negative { (m s : ℕ) → signed m s <ℤ pos 0 → bvsdiv m s 0 ≡ 1 }
    ensures positive { (m s : ℕ) → s < 2 ^ m → pos 0 ≤ℤ signed m s → bvsdiv m s 0 ≡ bvneg m 1 }
    ensures signed_remainder { (m s : ℕ) → bvsrem m s 0 ≡ s }
    ensures modulus { (m s : ℕ) → bvsmod m s 0 ≡ s }
{}
