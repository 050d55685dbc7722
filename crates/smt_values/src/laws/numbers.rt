//! Laws of comparisons, and of what is defined by division and by signs. Nothing here does anything.

ghost use Rattle.std.specs.Prelude.{◌≡◌, ◌↔◌, ◌⊎◌, ℕ, ◌^◌, ◌<◌, ℤ, pos, neg_ℤ, ◌<ℤ◌, ◌≤ℤ◌, List, [], ◌∷◌};
ghost use Rattle.std.specs.Prelude.{true, ◌&&◌};
ghost use Rattle.smt_bits.specs.BitVector.{signed};
ghost use Rattle.smt_theory.specs.declared.op.BitsComparison.TheVariants.{SignedAtLeast, SignedAtMost};
ghost use Rattle.smt_theory.specs.declared.op.BitsComparison.TheVariants.{SignedGreater, SignedLess};
ghost use Rattle.smt_theory.specs.declared.op.BitsComparison.TheVariants.{UnsignedAtLeast, UnsignedAtMost};
ghost use Rattle.smt_theory.specs.declared.op.BitsComparison.TheVariants.{UnsignedGreater, UnsignedLess};
ghost use Rattle.smt_theory.specs.declared.op.Comparison.{Comparison};
ghost use Rattle.smt_theory.specs.declared.op.Comparison.TheVariants.{AtLeast, AtMost, Greater, Less};
ghost use Rattle.smt_theory.specs.declared.op.IntsOp.TheVariants.{Abs, Comparison as Chain, Divisible, Mod};
ghost use Rattle.smt_theory.specs.declared.op.Op.TheVariants.{Ints};
ghost use Rattle.smt_values.specs.BitOperations.{compares_bits};
ghost use Rattle.smt_values.specs.Element.{Element, Integer, Truth};
ghost use Rattle.smt_values.specs.Operations.{DivisionByZero, compares, operate};

use smt_bits::laws::signed;

/// Between integers `<=` is `<` or equality, and `>` and `>=` are `<` and `<=` with the arguments exchanged.
/// A chain holds where each argument is so related to the next (SMT-LIB 2.6, theory Ints).
pub fn integers_are_compared()
    ensures less { (a b : ℤ) → (compares Less a b ≡ true) ↔ (a <ℤ b) }
    ensures at_most { (a b : ℤ) → (compares AtMost a b ≡ true) ↔ ((compares Less a b ≡ true) ⊎ (a ≡ b)) }
    ensures greater { (a b : ℤ) → compares Greater a b ≡ compares Less b a }
    ensures at_least { (a b : ℤ) → compares AtLeast a b ≡ compares AtMost b a }
    ensures chained { (z : DivisionByZero) (op : Comparison) (a b c : ℤ)
        → operate z (Ints (Chain op)) (Integer a ∷ Integer b ∷ Integer c ∷ [])
        ≡ Truth (compares op a b && compares op b c) }
{}

/// Between bit vectors of one width 'at most' is less or equal, both as numbers and read as signed. The other
/// relations exchange the arguments (SMT-LIB 2.6, logic QF_BV).
pub fn vectors_are_compared()
    ensures less { (m s t : ℕ) → (compares_bits UnsignedLess m s t ≡ true) ↔ (s < t) }
    ensures at_most { (m s t : ℕ) → (compares_bits UnsignedAtMost m s t ≡ true)
        ↔ ((compares_bits UnsignedLess m s t ≡ true) ⊎ (s ≡ t)) }
    ensures greater { (m s t : ℕ) → compares_bits UnsignedGreater m s t ≡ compares_bits UnsignedLess m t s }
    ensures at_least { (m s t : ℕ)
        → compares_bits UnsignedAtLeast m s t ≡ compares_bits UnsignedAtMost m t s }
    ensures signed_less { (m s t : ℕ) → (compares_bits SignedLess m s t ≡ true)
        ↔ (signed m s <ℤ signed m t) }
    ensures signed_at_most { (m s t : ℕ) → s < 2 ^ m → t < 2 ^ m
        → (compares_bits SignedAtMost m s t ≡ true)
        ↔ ((compares_bits SignedLess m s t ≡ true) ⊎ (s ≡ t)) }
    ensures signed_greater { (m s t : ℕ)
        → compares_bits SignedGreater m s t ≡ compares_bits SignedLess m t s }
    ensures signed_at_least { (m s t : ℕ)
        → compares_bits SignedAtLeast m s t ≡ compares_bits SignedAtMost m t s }
{
    signed::the_signed_reading_is_one_to_one();
}

/// A number n divides an integer exactly where the remainder by n is 0. The absolute value is whichever of
/// the integer and its opposite is not below 0 (SMT-LIB 2.6, theory Ints).
pub fn divisors_leave_nothing_and_absolutes_no_sign()
    ensures divisible { (z : DivisionByZero) (n : ℕ) (x : ℤ) → 0 < n
        → (operate z (Ints (Divisible n)) (Integer x ∷ []) ≡ Truth true)
        ↔ (operate z (Ints Mod) (Integer x ∷ Integer (pos n) ∷ []) ≡ Integer (pos 0)) }
    ensures own { (z : DivisionByZero) (x : ℤ) → pos 0 ≤ℤ x
        → operate z (Ints Abs) (Integer x ∷ []) ≡ Integer x }
    ensures opposite { (z : DivisionByZero) (x : ℤ) → pos 0 ≤ℤ neg_ℤ x
        → operate z (Ints Abs) (Integer x ∷ []) ≡ Integer (neg_ℤ x) }
{}
