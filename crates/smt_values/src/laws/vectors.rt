//! Laws of the operators on bit vectors: what each gives, read as a number or bit by bit. Nothing here does
//! anything.

ghost use Rattle.std.specs.Prelude.{◌≡◌, ◌≢◌, ◌↔◌, ℕ, ◌+◌, ◌*◌, ◌^◌, ◌<◌, ◌≤◌, pos, neg_ℤ, ◌+ℤ◌, ◌-ℤ◌, ◌*ℤ◌};
ghost use Rattle.std.specs.Prelude.{◌<ℤ◌, ◌≤ℤ◌, List, [], ◌∷◌, true};
ghost use Rattle.smt_bits.specs.BitVector.{signed, vector};
ghost use Rattle.smt_bits.specs.Readings.{IsModulo};
ghost use Rattle.smt_theory.specs.declared.op.BitsBinary.TheVariants.{DivideUnsigned, RemainderUnsigned};
ghost use Rattle.smt_theory.specs.declared.op.BitsBinary.TheVariants.{ShiftLeft, ShiftRight, Subtract};
ghost use Rattle.smt_theory.specs.declared.op.BitsComparison.TheVariants.{SignedAtLeast, SignedAtMost};
ghost use Rattle.smt_theory.specs.declared.op.BitsComparison.TheVariants.{SignedGreater, SignedLess};
ghost use Rattle.smt_theory.specs.declared.op.BitsComparison.TheVariants.{UnsignedAtLeast, UnsignedAtMost};
ghost use Rattle.smt_theory.specs.declared.op.BitsComparison.TheVariants.{UnsignedGreater, UnsignedLess};
ghost use Rattle.smt_theory.specs.declared.op.BitsFolded.{BitsFolded};
ghost use Rattle.smt_theory.specs.declared.op.BitsFolded.TheVariants.{Add, Multiply};
ghost use Rattle.smt_theory.specs.declared.op.BitsOp.TheVariants.{Binary, Comp, Comparison, Concat, Folded};
ghost use Rattle.smt_theory.specs.declared.op.BitsOp.TheVariants.{Unary};
ghost use Rattle.smt_theory.specs.declared.op.BitsUnary.TheVariants.{Negate};
ghost use Rattle.smt_theory.specs.declared.op.Op.TheVariants.{Bits};
ghost use Rattle.smt_values.specs.Element.{Element, Truth, Vector};
ghost use Rattle.smt_values.specs.Operations.{DivisionByZero, operate};

use smt_bits::laws::arithmetic;

/// The sum, the product, the difference and the negative are those of integers, modulo 2^m: the number of m bits
/// that differs from them by a multiple of 2^m. A shift to the left by t multiplies by 2^t (SMT-LIB 2.6, theory
/// FixedSizeBitVectors and logic QF_BV).
pub fn arithmetic_is_modulo_powers_of_two()
    ensures add { (z : DivisionByZero) (m s t r : ℕ)
        → (operate z (Bits (Folded Add)) (Vector (vector m s) ∷ Vector (vector m t) ∷ []) ≡ Vector (vector m r))
        ↔ IsModulo m (pos s +ℤ pos t) r }
    ensures multiply { (z : DivisionByZero) (m s t r : ℕ)
        → (operate z (Bits (Folded Multiply)) (Vector (vector m s) ∷ Vector (vector m t) ∷ [])
        ≡ Vector (vector m r)) ↔ IsModulo m (pos s *ℤ pos t) r }
    ensures subtract { (z : DivisionByZero) (m s t r : ℕ) → s < 2 ^ m → t < 2 ^ m
        → (operate z (Bits (Binary Subtract)) (Vector (vector m s) ∷ Vector (vector m t) ∷ [])
        ≡ Vector (vector m r)) ↔ IsModulo m (pos s -ℤ pos t) r }
    ensures negate { (z : DivisionByZero) (m s r : ℕ) → s < 2 ^ m
        → (operate z (Bits (Unary Negate)) (Vector (vector m s) ∷ []) ≡ Vector (vector m r))
        ↔ IsModulo m (neg_ℤ (pos s)) r }
    ensures shift_left { (z : DivisionByZero) (m s t r : ℕ)
        → (operate z (Bits (Binary ShiftLeft)) (Vector (vector m s) ∷ Vector (vector m t) ∷ [])
        ≡ Vector (vector m r)) ↔ IsModulo m (pos s *ℤ pos (2 ^ t)) r }
{
    arithmetic::results_are_modulo_powers_of_two();
}

/// Where the divisor t is not 0, the quotient q and the remainder r of s are the numbers with `s = q * t + r`
/// and `r < t`. By 0 the quotient has all bits set, and the remainder is the dividend. A shift to the right
/// by t gives the whole part of s by 2^t (SMT-LIB 2.6, theory FixedSizeBitVectors).
pub fn unsigned_quotients_are_by_the_law()
    ensures quotient { (z : DivisionByZero) (m s t q : ℕ) → t ≢ 0
        → (operate z (Bits (Binary DivideUnsigned)) (Vector (vector m s) ∷ Vector (vector m t) ∷ [])
        ≡ Vector (vector m q)) ↔ ((r : ℕ) × (s ≡ q * t + r) × (r < t)) }
    ensures remainder { (z : DivisionByZero) (m s t r : ℕ) → t ≢ 0
        → (operate z (Bits (Binary RemainderUnsigned)) (Vector (vector m s) ∷ Vector (vector m t) ∷ [])
        ≡ Vector (vector m r)) ↔ ((q : ℕ) × (s ≡ q * t + r) × (r < t)) }
    ensures quotient_by_zero { (z : DivisionByZero) (m s q : ℕ)
        → (operate z (Bits (Binary DivideUnsigned)) (Vector (vector m s) ∷ Vector (vector m 0) ∷ [])
        ≡ Vector (vector m q)) ↔ (q + 1 ≡ 2 ^ m) }
    ensures remainder_by_zero { (z : DivisionByZero) (m s : ℕ)
        → operate z (Bits (Binary RemainderUnsigned)) (Vector (vector m s) ∷ Vector (vector m 0) ∷ [])
        ≡ Vector (vector m s) }
    ensures shift_right { (z : DivisionByZero) (m s t r : ℕ)
        → (operate z (Bits (Binary ShiftRight)) (Vector (vector m s) ∷ Vector (vector m t) ∷ [])
        ≡ Vector (vector m r)) ↔ ((r * 2 ^ t ≤ s) × (s < (r + 1) * 2 ^ t)) }
{
    arithmetic::unsigned_division_is_by_the_law();
}

/// The eight relations compare two bit vectors of one width as numbers, or read as signed. `bvcomp` gives the
/// bit 1 for equal ones, and the bit 0 for others (SMT-LIB 2.6, theory FixedSizeBitVectors and logic QF_BV).
pub fn vectors_are_compared_by_their_readings()
    ensures less { (z : DivisionByZero) (m s t : ℕ)
        → (operate z (Bits (Comparison UnsignedLess)) (Vector (vector m s) ∷ Vector (vector m t) ∷ [])
        ≡ Truth true) ↔ (s < t) }
    ensures at_most { (z : DivisionByZero) (m s t : ℕ)
        → (operate z (Bits (Comparison UnsignedAtMost)) (Vector (vector m s) ∷ Vector (vector m t) ∷ [])
        ≡ Truth true) ↔ (s ≤ t) }
    ensures greater { (z : DivisionByZero) (m s t : ℕ)
        → (operate z (Bits (Comparison UnsignedGreater)) (Vector (vector m s) ∷ Vector (vector m t) ∷ [])
        ≡ Truth true) ↔ (t < s) }
    ensures at_least { (z : DivisionByZero) (m s t : ℕ)
        → (operate z (Bits (Comparison UnsignedAtLeast)) (Vector (vector m s) ∷ Vector (vector m t) ∷ [])
        ≡ Truth true) ↔ (t ≤ s) }
    ensures signed_less { (z : DivisionByZero) (m s t : ℕ)
        → (operate z (Bits (Comparison SignedLess)) (Vector (vector m s) ∷ Vector (vector m t) ∷ [])
        ≡ Truth true) ↔ (signed m s <ℤ signed m t) }
    ensures signed_at_most { (z : DivisionByZero) (m s t : ℕ)
        → (operate z (Bits (Comparison SignedAtMost)) (Vector (vector m s) ∷ Vector (vector m t) ∷ [])
        ≡ Truth true) ↔ (signed m s ≤ℤ signed m t) }
    ensures signed_greater { (z : DivisionByZero) (m s t : ℕ)
        → (operate z (Bits (Comparison SignedGreater)) (Vector (vector m s) ∷ Vector (vector m t) ∷ [])
        ≡ Truth true) ↔ (signed m t <ℤ signed m s) }
    ensures signed_at_least { (z : DivisionByZero) (m s t : ℕ)
        → (operate z (Bits (Comparison SignedAtLeast)) (Vector (vector m s) ∷ Vector (vector m t) ∷ [])
        ≡ Truth true) ↔ (signed m t ≤ℤ signed m s) }
    ensures equal { (z : DivisionByZero) (m s t : ℕ)
        → (operate z (Bits Comp) (Vector (vector m s) ∷ Vector (vector m t) ∷ []) ≡ Vector (vector 1 1))
        ↔ (s ≡ t) }
    ensures unequal { (z : DivisionByZero) (m s t : ℕ)
        → (operate z (Bits Comp) (Vector (vector m s) ∷ Vector (vector m t) ∷ []) ≡ Vector (vector 1 0))
        ↔ (s ≢ t) }
{}

/// More than two bit vectors are combined from the left (SMT-LIB 2.6, theory FixedSizeBitVectors and logic
/// QF_BV).
pub fn vectors_are_combined_from_the_left()
    ensures folded { (z : DivisionByZero) (op : BitsFolded) (a b c : Element) (rest : List Element)
        → operate z (Bits (Folded op)) (a ∷ b ∷ c ∷ rest)
        ≡ operate z (Bits (Folded op)) (operate z (Bits (Folded op)) (a ∷ b ∷ []) ∷ c ∷ rest) }
    ensures concat { (z : DivisionByZero) (a b c : Element) (rest : List Element)
        → operate z (Bits Concat) (a ∷ b ∷ c ∷ rest)
        ≡ operate z (Bits Concat) (operate z (Bits Concat) (a ∷ b ∷ []) ∷ c ∷ rest) }
{}
