//! Laws of the definitions that the contracts name. Nothing here does anything: each contract is a law, and a
//! body calls only the laws that it rests on.

pub mod connectives;
pub mod integers;
pub mod known;
pub mod literals;
pub mod numbers;
pub mod places;
pub mod rationals;
pub mod reasons;
pub mod signed_vectors;
pub mod vectors;

ghost use Rattle.std.specs.Prelude.{◌≡◌, ◌≢◌, ◌↔◌, false, not, true, ℕ, suc, ◌^◌, ◌<◌, ◌≤◌, ◌≤ℤ◌, ◌<ℤ◌, ℤ, pos};
ghost use Rattle.std.specs.Prelude.{◌+ℤ◌, ◌-ℤ◌, ◌*ℤ◌, neg_ℤ, int_div, unsigned_abs, All, IsSome, List, [], ◌∷◌, map};
ghost use Rattle.std.specs.Prelude.{Option, Some};
ghost use Rattle.smt_bits.specs.BitVector.{signed, vector};
ghost use Rattle.smt_bits.specs.Readings.{IsModulo};
ghost use Rattle.smt_ratios.specs.Rational as rational;
ghost use Rattle.smt_ratios.specs.Rational.{IsRational, Rational};
ghost use Rattle.smt_theory.specs.Ranks.{HasRank};
ghost use Rattle.smt_theory.specs.declared.op.CoreOp.{CoreOp};
ghost use Rattle.smt_theory.specs.Operators.{is_on_arrays};
ghost use Rattle.smt_theory.specs.declared.op.Op.{Op};
ghost use Rattle.smt_theory.specs.declared.op.Op.TheVariants.{Bits, Core};
ghost use Rattle.smt_theory.specs.declared.op.BitsOp.TheVariants.{Binary, Comparison, Folded, FromInt, FromIntOlder};
ghost use Rattle.smt_theory.specs.declared.op.BitsOp.TheVariants.{Unary};
ghost use Rattle.smt_theory.specs.declared.op.BitsUnary.TheVariants.{Negate, NegateOverflows, SignedToInt, ToInt};
ghost use Rattle.smt_theory.specs.declared.op.BitsUnary.TheVariants.{ToIntOlder};
ghost use Rattle.smt_theory.specs.declared.op.BitsFolded.TheVariants.{Add, Multiply};
ghost use Rattle.smt_theory.specs.declared.op.BitsBinary.TheVariants.{DivideSigned, Subtract};
ghost use Rattle.smt_theory.specs.declared.op.BitsComparison.TheVariants.{SignedAddOverflows, SignedDivideOverflows};
ghost use Rattle.smt_theory.specs.declared.op.BitsComparison.TheVariants.{SignedMultiplyOverflows};
ghost use Rattle.smt_theory.specs.declared.op.BitsComparison.TheVariants.{SignedSubtractOverflows};
ghost use Rattle.smt_theory.specs.declared.op.BitsComparison.TheVariants.{UnsignedAddOverflows};
ghost use Rattle.smt_theory.specs.declared.op.BitsComparison.TheVariants.{UnsignedMultiplyOverflows};
ghost use Rattle.smt_theory.specs.declared.op.BitsComparison.TheVariants.{UnsignedSubtractOverflows};
ghost use Rattle.smt_theory.specs.Sort.{Sort};
ghost use Rattle.smt_theory.specs.Sort.{is_number};
ghost use Rattle.smt_theory.specs.declared.op.BitsComparison.TheVariants.{SignedAtLeast, SignedLess};
ghost use Rattle.smt_theory.specs.declared.op.BitsComparison.TheVariants.{UnsignedAtLeast, UnsignedLess};
ghost use Rattle.smt_values.specs.BitOperations.{compares_bits};
ghost use Rattle.smt_values.specs.Element.{Agrees, AllAgree, AreOfSorts, Element, Integer, IsOfSort, Truth, Vector};
ghost use Rattle.smt_values.specs.KnownOperations.{known_step};
ghost use Rattle.smt_values.specs.Numbers.{divided};
ghost use Rattle.smt_values.specs.Operations.{DivisionByZero, operate, quotient, remainder};

use smt_bits::laws::{arithmetic, bitwise, parts, signed};
use smt_ratios::laws as ratios;

/// What is known of an operator's result is the standard's value, whatever the open arguments are and
/// whatever division by zero gives (SMT-LIB 2.6, theories Core, Reals_Ints and FixedSizeBitVectors).
pub fn known_results_are_true()
    ensures { (z : DivisionByZero) (op : Op) (knowns : List (Option Element)) (args : List Element)
        → AllAgree knowns args → Agrees (known_step op knowns) (operate z op args) }
{
    ratios::numbers::known_results_are_results();
}

/// Over known arguments, of sorts that the operator has a rank for, only a number may stay open, and only for an
/// operator of the theories Ints and Reals, or for `ubv_to_int` and `bv2nat`. A result is known where its sort is
/// another, for other operators where no argument is a number, and for each operator of the theory Core. Of operators
/// on arrays this says nothing.
pub fn known_arguments_give_known_results()
    ensures other_sorts { (op : Op) (sorts : List Sort) (sort : Sort) (args : List Element)
        → is_on_arrays op ≡ false → HasRank op sorts sort → AreOfSorts sorts args → is_number sort ≡ false
        → IsSome (known_step op (map Some args)) }
    ensures without_numbers { (op : Op) (sorts : List Sort) (sort : Sort) (args : List Element)
        → is_on_arrays op ≡ false → HasRank op sorts sort → AreOfSorts sorts args
        → All (λ s. is_number s ≡ false) sorts
        → op ≢ Bits (Unary ToInt) → op ≢ Bits (Unary ToIntOlder)
        → IsSome (known_step op (map Some args)) }
    ensures core { (op : CoreOp) (sorts : List Sort) (sort : Sort) (args : List Element)
        → HasRank (Core op) sorts sort → AreOfSorts sorts args
        → IsSome (known_step (Core op) (map Some args)) }
{}

/// An operator, if it is none on arrays, gives an element of its rank's sort for arguments of the rank's sorts.
pub fn results_are_of_their_sorts()
    ensures { (z : DivisionByZero) (op : Op) (sorts : List Sort) (sort : Sort) (args : List Element)
        → is_on_arrays op ≡ false → HasRank op sorts sort → AreOfSorts sorts args
        → IsOfSort sort (operate z op args) }
{
    arithmetic::arithmetic_fits();
    arithmetic::shifts_fit();
    bitwise::bitwise_fits();
    parts::parts_fit();
    signed::signed_fits();
    signed::the_signed_reading_is_one_to_one();
    ratios::numbers::ratios_are_quotients();
    ratios::operators::differences_are_by_cross_products();
    ratios::operators::negatives_have_the_other_sign();
    ratios::operators::products_are_by_cross_products();
    ratios::operators::quotients_undo_products();
    ratios::operators::sums_are_by_cross_products();
}

/// `div` and `mod` by n, if n is not 0, give the one quotient q and the one remainder r with `a = n * q + r`
/// and `0 <= r < |n|` (SMT-LIB 2.6, theory Ints).
pub fn division_is_by_the_law()
    ensures exact { (z : DivisionByZero) (a n : ℤ) → n ≢ pos 0 → a ≡ n *ℤ quotient z a n +ℤ remainder z a n }
    ensures low { (z : DivisionByZero) (a n : ℤ) → n ≢ pos 0 → pos 0 ≤ℤ remainder z a n }
    ensures high { (z : DivisionByZero) (a n : ℤ) → n ≢ pos 0 → remainder z a n <ℤ pos (unsigned_abs n) }
    ensures one { (z : DivisionByZero) (a n q r : ℤ) → n ≢ pos 0 → a ≡ n *ℤ q +ℤ r → pos 0 ≤ℤ r
        → r <ℤ pos (unsigned_abs n)
        → (q ≡ quotient z a n) × (r ≡ remainder z a n) }
{}

/// What `div`, `mod` and `/` give by 0 is free (SMT-LIB 2.6, theories Ints and Reals). For any one dividend `div` and
/// `mod` may give any integer, and `/` any rational number, whatever it gives for the other dividends, and whatever the
/// others of the three give.
pub fn division_by_zero_is_free()
    ensures quotient { (z : DivisionByZero) (a r : ℤ) → (y : DivisionByZero) × (quotient y a (pos 0) ≡ r)
        × ((b n : ℤ) → b ≢ a → quotient y b n ≡ quotient z b n)
        × ((b n : ℤ) → remainder y b n ≡ remainder z b n)
        × ((b n : Rational) → divided y.ratios b n ≡ divided z.ratios b n) }
    ensures remainder { (z : DivisionByZero) (a r : ℤ) → (y : DivisionByZero) × (remainder y a (pos 0) ≡ r)
        × ((b n : ℤ) → b ≢ a → remainder y b n ≡ remainder z b n)
        × ((b n : ℤ) → quotient y b n ≡ quotient z b n)
        × ((b n : Rational) → divided y.ratios b n ≡ divided z.ratios b n) }
    ensures ratio { (z : DivisionByZero) (a r : Rational) → IsRational a → IsRational r
        → (y : DivisionByZero) × (divided y.ratios a (rational.Integer (pos 0)) ≡ r)
        × ((b n : Rational) → b ≢ a → divided y.ratios b n ≡ divided z.ratios b n)
        × ((b n : ℤ) → quotient y b n ≡ quotient z b n)
        × ((b n : ℤ) → remainder y b n ≡ remainder z b n) }
{
    ratios::numbers::numbers_are_their_terms();
    ratios::order::equal_numbers_are_one();
}

/// The first of two bit vectors of one width is less exactly where it is not at least the second, both as
/// numbers and read as signed.
pub fn comparisons_are_opposites()
    ensures unsigned { (m s t : ℕ)
        → compares_bits UnsignedLess m s t ≡ not (compares_bits UnsignedAtLeast m s t) }
    ensures signed { (m s t : ℕ) → compares_bits SignedLess m s t ≡ not (compares_bits SignedAtLeast m s t) }
{}

/// Each operator that tells of overflow is true exactly where the result modulo 2^m, read in the same way, is another
/// integer than the exact one (SMT-LIB 2.7, theory FixedSizeBitVectors). By 0 no quotient overflows.
pub fn results_overflow_where_they_are_wrapped()
    ensures negate { (z : DivisionByZero) (m s r : ℕ) → 1 ≤ m → s < 2 ^ m
        → operate z (Bits (Unary Negate)) (Vector (vector m s) ∷ []) ≡ Vector (vector m r)
        → (operate z (Bits (Unary NegateOverflows)) (Vector (vector m s) ∷ []) ≡ Truth true)
        ↔ (signed m r ≢ neg_ℤ (signed m s)) }
    ensures add { (z : DivisionByZero) (m s t r : ℕ)
        → operate z (Bits (Folded Add)) (Vector (vector m s) ∷ Vector (vector m t) ∷ []) ≡ Vector (vector m r)
        → (operate z (Bits (Comparison UnsignedAddOverflows)) (Vector (vector m s) ∷ Vector (vector m t) ∷ [])
        ≡ Truth true) ↔ (pos r ≢ pos s +ℤ pos t) }
    ensures signed_add { (z : DivisionByZero) (m s t r : ℕ) → 1 ≤ m
        → operate z (Bits (Folded Add)) (Vector (vector m s) ∷ Vector (vector m t) ∷ []) ≡ Vector (vector m r)
        → (operate z (Bits (Comparison SignedAddOverflows)) (Vector (vector m s) ∷ Vector (vector m t) ∷ [])
        ≡ Truth true) ↔ (signed m r ≢ signed m s +ℤ signed m t) }
    ensures multiply { (z : DivisionByZero) (m s t r : ℕ)
        → operate z (Bits (Folded Multiply)) (Vector (vector m s) ∷ Vector (vector m t) ∷ []) ≡ Vector (vector m r)
        → (operate z (Bits (Comparison UnsignedMultiplyOverflows)) (Vector (vector m s) ∷ Vector (vector m t) ∷ [])
        ≡ Truth true) ↔ (pos r ≢ pos s *ℤ pos t) }
    ensures signed_multiply { (z : DivisionByZero) (m s t r : ℕ) → 1 ≤ m
        → operate z (Bits (Folded Multiply)) (Vector (vector m s) ∷ Vector (vector m t) ∷ []) ≡ Vector (vector m r)
        → (operate z (Bits (Comparison SignedMultiplyOverflows)) (Vector (vector m s) ∷ Vector (vector m t) ∷ [])
        ≡ Truth true) ↔ (signed m r ≢ signed m s *ℤ signed m t) }
    ensures subtract { (z : DivisionByZero) (m s t r : ℕ) → s < 2 ^ m → t < 2 ^ m
        → operate z (Bits (Binary Subtract)) (Vector (vector m s) ∷ Vector (vector m t) ∷ []) ≡ Vector (vector m r)
        → (operate z (Bits (Comparison UnsignedSubtractOverflows)) (Vector (vector m s) ∷ Vector (vector m t) ∷ [])
        ≡ Truth true) ↔ (pos r ≢ pos s -ℤ pos t) }
    ensures signed_subtract { (z : DivisionByZero) (m s t r : ℕ) → 1 ≤ m → s < 2 ^ m → t < 2 ^ m
        → operate z (Bits (Binary Subtract)) (Vector (vector m s) ∷ Vector (vector m t) ∷ []) ≡ Vector (vector m r)
        → (operate z (Bits (Comparison SignedSubtractOverflows)) (Vector (vector m s) ∷ Vector (vector m t) ∷ [])
        ≡ Truth true) ↔ (signed m r ≢ signed m s -ℤ signed m t) }
    ensures signed_divide { (z : DivisionByZero) (m s t r : ℕ) → 1 ≤ m → t ≢ 0
        → operate z (Bits (Binary DivideSigned)) (Vector (vector m s) ∷ Vector (vector m t) ∷ []) ≡ Vector (vector m r)
        → (operate z (Bits (Comparison SignedDivideOverflows)) (Vector (vector m s) ∷ Vector (vector m t) ∷ [])
        ≡ Truth true) ↔ (signed m r ≢ int_div (signed m s) (signed m t)) }
    ensures by_zero { (z : DivisionByZero) (m s : ℕ)
        → operate z (Bits (Comparison SignedDivideOverflows)) (Vector (vector m s) ∷ Vector (vector m 0) ∷ [])
        ≡ Truth false }
{
    arithmetic::results_are_modulo_powers_of_two();
    signed::signed_division_is_by_the_law();
    signed::the_signed_reading_is_one_to_one();
}

/// A bit vector as an integer is its number, or its signed reading; and of an integer the bits are those of the number
/// that differs from it by a multiple of 2^n. So each way undoes the other, and the older names mean the same (SMT-LIB
/// 2.7, theory FixedSizeBitVectors).
pub fn integers_become_vectors_and_back()
    ensures number { (z : DivisionByZero) (m s : ℕ)
        → operate z (Bits (Unary ToInt)) (Vector (vector m s) ∷ []) ≡ Integer (pos s) }
    ensures signed { (z : DivisionByZero) (m s : ℕ)
        → operate z (Bits (Unary SignedToInt)) (Vector (vector m s) ∷ []) ≡ Integer (signed m s) }
    ensures bits { (z : DivisionByZero) (n r : ℕ) (i : ℤ)
        → (operate z (Bits (FromInt n)) (Integer i ∷ []) ≡ Vector (vector n r)) ↔ IsModulo n i r }
    ensures back { (z : DivisionByZero) (m s : ℕ) → s < 2 ^ m
        → operate z (Bits (FromInt m)) (operate z (Bits (Unary ToInt)) (Vector (vector m s) ∷ []) ∷ [])
        ≡ Vector (vector m s) }
    ensures signed_back { (z : DivisionByZero) (m s : ℕ) → s < 2 ^ m
        → operate z (Bits (FromInt m)) (operate z (Bits (Unary SignedToInt)) (Vector (vector m s) ∷ []) ∷ [])
        ≡ Vector (vector m s) }
    ensures signed_there { (z : DivisionByZero) (n : ℕ) (i : ℤ) → neg_ℤ (pos (2 ^ n)) ≤ℤ i → i <ℤ pos (2 ^ n)
        → operate z (Bits (Unary SignedToInt)) (operate z (Bits (FromInt (suc n))) (Integer i ∷ []) ∷ [])
        ≡ Integer i }
    ensures older { (z : DivisionByZero) (args : List Element)
        → operate z (Bits (Unary ToIntOlder)) args ≡ operate z (Bits (Unary ToInt)) args }
    ensures older_bits { (z : DivisionByZero) (n : ℕ) (args : List Element)
        → operate z (Bits (FromIntOlder n)) args ≡ operate z (Bits (FromInt n)) args }
{
    signed::the_signed_reading_is_one_to_one();
}
