//! Laws of the operators on bit vectors that work bit by bit, or take and move bits. That a result is of the
//! sort that its rank has, with no bits beyond, is `results_are_of_their_sorts`. Nothing here does anything.

ghost use Rattle.std.specs.Prelude.{◌≡◌, ◌≢◌, ◌↔◌, ◌⊎◌, ℕ, ◌+◌, ◌-◌, ◌*◌, ◌%◌, ◌^◌, ◌<◌, ◌≤◌, [], ◌∷◌};
ghost use Rattle.std.specs.Int.{bit_at};
ghost use Rattle.smt_bits.specs.BitVector.{signed, vector};
ghost use Rattle.smt_theory.specs.declared.op.BitsBinary.TheVariants.{Nand, Nor, Xnor};
ghost use Rattle.smt_theory.specs.declared.op.BitsFolded.TheVariants.{And, Or, Xor};
ghost use Rattle.smt_theory.specs.declared.op.BitsOp.TheVariants.{Binary, Concat, Constant, Extract, Folded};
ghost use Rattle.smt_theory.specs.declared.op.BitsOp.TheVariants.{Repeat, RotateLeft, RotateRight, SignExtend};
ghost use Rattle.smt_theory.specs.declared.op.BitsOp.TheVariants.{Unary, ZeroExtend};
ghost use Rattle.smt_theory.specs.declared.op.BitsUnary.TheVariants.{Not};
ghost use Rattle.smt_theory.specs.declared.op.Op.TheVariants.{Bits};
ghost use Rattle.smt_values.specs.Element.{Vector};
ghost use Rattle.smt_values.specs.Operations.{DivisionByZero, operate};
ghost use Rattle.smt_values.specs.Readings.{bit_of, number_of};

use smt_bits::laws::{bitwise, parts};

/// Each bit of a result is what the operator makes of the bits at its place (SMT-LIB 2.6, theory
/// FixedSizeBitVectors and logic QF_BV).
pub fn operators_work_bit_by_bit()
    ensures not { (z : DivisionByZero) (m s k : ℕ) → k < m
        → (bit_of (operate z (Bits (Unary Not)) (Vector (vector m s) ∷ [])) k ≡ 1) ↔ (bit_at s k ≡ 0) }
    ensures and { (z : DivisionByZero) (m s t k : ℕ) → k < m
        → (bit_of (operate z (Bits (Folded And)) (Vector (vector m s) ∷ Vector (vector m t) ∷ [])) k ≡ 1)
        ↔ ((bit_at s k ≡ 1) × (bit_at t k ≡ 1)) }
    ensures or { (z : DivisionByZero) (m s t k : ℕ) → k < m
        → (bit_of (operate z (Bits (Folded Or)) (Vector (vector m s) ∷ Vector (vector m t) ∷ [])) k ≡ 1)
        ↔ ((bit_at s k ≡ 1) ⊎ (bit_at t k ≡ 1)) }
    ensures xor { (z : DivisionByZero) (m s t k : ℕ) → k < m
        → (bit_of (operate z (Bits (Folded Xor)) (Vector (vector m s) ∷ Vector (vector m t) ∷ [])) k ≡ 1)
        ↔ (bit_at s k ≢ bit_at t k) }
    ensures nand { (z : DivisionByZero) (m s t k : ℕ) → k < m
        → (bit_of (operate z (Bits (Binary Nand)) (Vector (vector m s) ∷ Vector (vector m t) ∷ [])) k ≡ 0)
        ↔ ((bit_at s k ≡ 1) × (bit_at t k ≡ 1)) }
    ensures nor { (z : DivisionByZero) (m s t k : ℕ) → k < m
        → (bit_of (operate z (Bits (Binary Nor)) (Vector (vector m s) ∷ Vector (vector m t) ∷ [])) k ≡ 0)
        ↔ ((bit_at s k ≡ 1) ⊎ (bit_at t k ≡ 1)) }
    ensures xnor { (z : DivisionByZero) (m s t k : ℕ) → k < m
        → (bit_of (operate z (Bits (Binary Xnor)) (Vector (vector m s) ∷ Vector (vector m t) ∷ [])) k ≡ 1)
        ↔ (bit_at s k ≡ bit_at t k) }
{
    bitwise::bits_are_taken_by_place();
}

/// A constant is its number, in its width (SMT-LIB 2.6, logic QF_BV).
pub fn constants_are_their_numbers()
    ensures { (z : DivisionByZero) (x n : ℕ) → x < 2 ^ n
        → operate z (Bits (Constant x n)) [] ≡ Vector (vector n x) }
{}

/// `concat`, `extract`, `repeat`, the extensions and the rotations take and move bits in order. The first of
/// two concatenated bit vectors has the high bits; an extension by signs has copies of the highest bit above,
/// and keeps the signed reading; a rotation by i moves each bit i places, around the width (SMT-LIB 2.6, theory
/// FixedSizeBitVectors and logic QF_BV).
pub fn bits_keep_their_order()
    ensures concat_low { (z : DivisionByZero) (m n s t k : ℕ) → k < n
        → bit_of (operate z (Bits Concat) (Vector (vector m s) ∷ Vector (vector n t) ∷ [])) k ≡ bit_at t k }
    ensures concat_high { (z : DivisionByZero) (m n s t k : ℕ) → t < 2 ^ n
        → bit_of (operate z (Bits Concat) (Vector (vector m s) ∷ Vector (vector n t) ∷ [])) (n + k)
        ≡ bit_at s k }
    ensures extract { (z : DivisionByZero) (i j m s k : ℕ) → k ≤ i - j
        → bit_of (operate z (Bits (Extract i j)) (Vector (vector m s) ∷ [])) k ≡ bit_at s (j + k) }
    ensures repeat { (z : DivisionByZero) (i m s k : ℕ) → s < 2 ^ m → k < i * m
        → bit_of (operate z (Bits (Repeat i)) (Vector (vector m s) ∷ [])) k ≡ bit_at s (k % m) }
    ensures zero_extend { (z : DivisionByZero) (i m s : ℕ)
        → number_of (operate z (Bits (ZeroExtend i)) (Vector (vector m s) ∷ [])) ≡ s }
    ensures sign_extend { (z : DivisionByZero) (i m s k : ℕ) → s < 2 ^ m → k < m
        → bit_of (operate z (Bits (SignExtend i)) (Vector (vector m s) ∷ [])) k ≡ bit_at s k }
    ensures signs { (z : DivisionByZero) (i m s k : ℕ) → s < 2 ^ m → m ≤ k → k < m + i
        → bit_of (operate z (Bits (SignExtend i)) (Vector (vector m s) ∷ [])) k ≡ bit_at s (m - 1) }
    ensures sign { (z : DivisionByZero) (i m s : ℕ) → 1 ≤ m → s < 2 ^ m
        → signed (m + i) (number_of (operate z (Bits (SignExtend i)) (Vector (vector m s) ∷ [])))
        ≡ signed m s }
    ensures rotate_left { (z : DivisionByZero) (i m s k : ℕ) → s < 2 ^ m → k < m
        → bit_of (operate z (Bits (RotateLeft i)) (Vector (vector m s) ∷ [])) ((k + i) % m) ≡ bit_at s k }
    ensures rotate_right { (z : DivisionByZero) (i m s k : ℕ) → s < 2 ^ m → k < m
        → bit_of (operate z (Bits (RotateRight i)) (Vector (vector m s) ∷ [])) k ≡ bit_at s ((k + i) % m) }
{
    parts::parts_have_their_bits();
    parts::extensions_keep_bits();
    parts::sign_extension_keeps_the_integer();
    parts::rotations_move_bits_around();
}
