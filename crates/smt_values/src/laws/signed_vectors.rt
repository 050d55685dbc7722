//! Laws of the operators on bit vectors that are read as signed. Nothing here does anything.

ghost use Rattle.std.specs.Prelude.{◌≡◌, ◌≢◌, ◌↔◌, ℕ, ◌+◌, ◌^◌, ◌<◌, ◌≤◌, ℤ, pos, ◌+ℤ◌, ◌*ℤ◌, ◌<ℤ◌, ◌≤ℤ◌};
ghost use Rattle.std.specs.Prelude.{[], ◌∷◌};
ghost use Rattle.smt_bits.specs.BitVector.{signed, vector};
ghost use Rattle.smt_bits.specs.Readings.{IsFloored, IsModulo, IsTruncated};
ghost use Rattle.smt_theory.specs.declared.op.BitsBinary.TheVariants.{DivideSigned, ModuloSigned};
ghost use Rattle.smt_theory.specs.declared.op.BitsBinary.TheVariants.{RemainderSigned, ShiftRightSigned};
ghost use Rattle.smt_theory.specs.declared.op.BitsOp.TheVariants.{Binary};
ghost use Rattle.smt_theory.specs.declared.op.Op.TheVariants.{Bits};
ghost use Rattle.smt_values.specs.Element.{Vector};
ghost use Rattle.smt_values.specs.Operations.{DivisionByZero, operate};

use smt_bits::laws::{arithmetic, shifts, signed};

/// Where the divisor is not 0, `bvsdiv` and `bvsrem` are of the division of the signed readings that rounds
/// towards 0, and `bvsmod` is the remainder of the one that rounds down. The quotient is taken modulo 2^m
/// (SMT-LIB 2.6, logic QF_BV).
pub fn signed_quotients_are_by_the_law()
    ensures quotient { (z : DivisionByZero) (m s t x : ℕ) → 1 ≤ m → s < 2 ^ m → t < 2 ^ m → t ≢ 0
        → (operate z (Bits (Binary DivideSigned)) (Vector (vector m s) ∷ Vector (vector m t) ∷ [])
        ≡ Vector (vector m x))
        ↔ ((q : ℤ) × (r : ℤ) × IsTruncated (signed m s) (signed m t) q r × IsModulo m q x) }
    ensures remainder { (z : DivisionByZero) (m s t x : ℕ) → 1 ≤ m → s < 2 ^ m → t < 2 ^ m → t ≢ 0
        → (operate z (Bits (Binary RemainderSigned)) (Vector (vector m s) ∷ Vector (vector m t) ∷ [])
        ≡ Vector (vector m x))
        ↔ ((q : ℤ) × (x < 2 ^ m) × IsTruncated (signed m s) (signed m t) q (signed m x)) }
    ensures modulus { (z : DivisionByZero) (m s t x : ℕ) → 1 ≤ m → s < 2 ^ m → t < 2 ^ m → t ≢ 0
        → (operate z (Bits (Binary ModuloSigned)) (Vector (vector m s) ∷ Vector (vector m t) ∷ [])
        ≡ Vector (vector m x))
        ↔ ((q : ℤ) × (x < 2 ^ m) × IsFloored (signed m s) (signed m t) q (signed m x)) }
{
    signed::the_signed_reading_is_one_to_one();
    signed::signed_division_is_by_the_law();
    signed::signed_modulus_is_by_the_law();
    signed::signed_fits();
}

/// By 0 the signed quotient is 1 for a dividend below 0, and has all bits set for any other. Both remainders
/// are the dividend (SMT-LIB 2.6, logic QF_BV).
pub fn signed_quotients_by_zero_are_as_the_standard_has_them()
    ensures negative { (z : DivisionByZero) (m s : ℕ) → signed m s <ℤ pos 0
        → operate z (Bits (Binary DivideSigned)) (Vector (vector m s) ∷ Vector (vector m 0) ∷ [])
        ≡ Vector (vector m 1) }
    ensures positive { (z : DivisionByZero) (m s x : ℕ) → s < 2 ^ m → pos 0 ≤ℤ signed m s
        → (operate z (Bits (Binary DivideSigned)) (Vector (vector m s) ∷ Vector (vector m 0) ∷ [])
        ≡ Vector (vector m x)) ↔ (x + 1 ≡ 2 ^ m) }
    ensures remainder { (z : DivisionByZero) (m s : ℕ)
        → operate z (Bits (Binary RemainderSigned)) (Vector (vector m s) ∷ Vector (vector m 0) ∷ [])
        ≡ Vector (vector m s) }
    ensures modulus { (z : DivisionByZero) (m s : ℕ)
        → operate z (Bits (Binary ModuloSigned)) (Vector (vector m s) ∷ Vector (vector m 0) ∷ [])
        ≡ Vector (vector m s) }
{
    arithmetic::division_by_zero_is_as_the_standard_has_it();
}

/// An arithmetic shift to the right by t divides the signed reading by 2^t and rounds down (SMT-LIB 2.6, logic
/// QF_BV).
pub fn arithmetic_shifts_divide()
    ensures { (z : DivisionByZero) (m s t x : ℕ) → 1 ≤ m → s < 2 ^ m
        → (operate z (Bits (Binary ShiftRightSigned)) (Vector (vector m s) ∷ Vector (vector m t) ∷ [])
        ≡ Vector (vector m x))
        ↔ ((x < 2 ^ m) × ((signed m x *ℤ pos (2 ^ t)) ≤ℤ signed m s)
        × (signed m s <ℤ ((signed m x +ℤ pos 1) *ℤ pos (2 ^ t)))) }
{
    signed::the_signed_reading_is_one_to_one();
    arithmetic::shifts_fit();
    shifts::arithmetic_shifts_round_down();
}
