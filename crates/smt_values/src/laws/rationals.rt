//! Laws of the operators on rational numbers: what each gives, through `operate`. Nothing here does anything.

ghost use Rattle.std.specs.Prelude.{◌≡◌, ◌≢◌, ◌↔◌, ◌*◌, ℕ, ℤ, pos, ◌+ℤ◌, ◌-ℤ◌, ◌*ℤ◌, neg_ℤ, ◌<ℤ◌, ◌≤ℤ◌, List, []};
ghost use Rattle.std.specs.Prelude.{◌∷◌, map, true};
ghost use Rattle.smt_ratios.specs.Operators.{cross};
ghost use Rattle.smt_ratios.specs.Rational as rational;
ghost use Rattle.smt_ratios.specs.Rational.{denominator, IsRational, numerator, Rational};
ghost use Rattle.smt_theory.specs.declared.op.Arithmetic.{Arithmetic};
ghost use Rattle.smt_theory.specs.declared.op.Arithmetic.TheVariants.{Div, Minus, Plus, Times};
ghost use Rattle.smt_theory.specs.declared.op.Comparison.{Comparison};
ghost use Rattle.smt_theory.specs.declared.op.Comparison.TheVariants.{AtLeast, AtMost, Greater, Less};
ghost use Rattle.smt_theory.specs.declared.op.IntsOp.TheVariants.{Arithmetic as Left, Comparison as Chain};
ghost use Rattle.smt_theory.specs.declared.op.Op.TheVariants.{Ints, Reals};
ghost use Rattle.smt_theory.specs.declared.op.RealsOp.TheVariants.{Divide, IsInt, ToInt, ToReal};
ghost use Rattle.smt_values.specs.Element.{Element, Fraction, Integer, Truth};
ghost use Rattle.smt_values.specs.Numbers.{divided, element_of_number, operate_numbers};
ghost use Rattle.smt_values.specs.Operations.{DivisionByZero, operate, operate_ints};

use smt_ratios::laws::{operators, order};

/// Of integers the operators on numbers make what the operators on integers make (SMT-LIB 2.6, theory Reals_Ints).
pub fn integers_are_calculated_alike()
    ensures calculated { (z : DivisionByZero) (op : Arithmetic) (a b : ℤ) (rest : List ℤ) → op ≢ Div
        → operate_numbers (Left op) (map (λ x. rational.Integer x) (a ∷ b ∷ rest))
        ≡ operate_ints z (Left op) (a ∷ b ∷ rest) }
    ensures negative { (z : DivisionByZero) (a : ℤ)
        → operate_numbers (Left Minus) (rational.Integer a ∷ []) ≡ operate_ints z (Left Minus) (a ∷ []) }
    ensures compared { (z : DivisionByZero) (op : Comparison) (args : List ℤ)
        → operate_numbers (Chain op) (map (λ x. rational.Integer x) args) ≡ operate_ints z (Chain op) args }
{
    operators::integers_are_calculated_as_integers();
    operators::negatives_have_the_other_sign();
    order::the_order_is_total();
}

/// `+`, `-` and `*` of two numbers give the one number that they give by cross products of integers (SMT-LIB 2.6,
/// theories Reals and Reals_Ints); `-` of one fraction has the other sign.
pub fn numbers_are_calculated_by_cross_products()
    ensures plus { (z : DivisionByZero) (a b c : Rational) → IsRational a → IsRational b → IsRational c
        → (operate z (Ints (Left Plus)) (element_of_number a ∷ element_of_number b ∷ []) ≡ element_of_number c)
        ↔ ((cross a b +ℤ cross b a) *ℤ pos (denominator c) ≡ numerator c *ℤ pos (denominator a * denominator b)) }
    ensures minus { (z : DivisionByZero) (a b c : Rational) → IsRational a → IsRational b → IsRational c
        → (operate z (Ints (Left Minus)) (element_of_number a ∷ element_of_number b ∷ []) ≡ element_of_number c)
        ↔ ((cross a b -ℤ cross b a) *ℤ pos (denominator c) ≡ numerator c *ℤ pos (denominator a * denominator b)) }
    ensures times { (z : DivisionByZero) (a b c : Rational) → IsRational a → IsRational b → IsRational c
        → (operate z (Ints (Left Times)) (element_of_number a ∷ element_of_number b ∷ []) ≡ element_of_number c)
        ↔ (numerator a *ℤ numerator b *ℤ pos (denominator c) ≡ numerator c *ℤ pos (denominator a * denominator b)) }
    ensures negative { (z : DivisionByZero) (n : ℤ) (d : ℕ) → IsRational (rational.Fraction n d)
        → operate z (Ints (Left Minus)) (Fraction n d ∷ []) ≡ Fraction (neg_ℤ n) d }
{
    crate::laws::rationals::integers_are_calculated_alike();
    operators::sums_are_by_cross_products();
    operators::differences_are_by_cross_products();
    operators::products_are_by_cross_products();
    operators::negatives_have_the_other_sign();
}

/// `<`, `<=`, `>` and `>=` hold of two numbers where they hold of their cross products (SMT-LIB 2.6, theories Reals and
/// Reals_Ints).
pub fn numbers_are_compared_by_cross_products()
    ensures less { (z : DivisionByZero) (a b : Rational)
        → (operate z (Ints (Chain Less)) (element_of_number a ∷ element_of_number b ∷ []) ≡ Truth true)
        ↔ (cross a b <ℤ cross b a) }
    ensures at_most { (z : DivisionByZero) (a b : Rational)
        → (operate z (Ints (Chain AtMost)) (element_of_number a ∷ element_of_number b ∷ []) ≡ Truth true)
        ↔ (cross a b ≤ℤ cross b a) }
    ensures greater { (z : DivisionByZero) (a b : Rational)
        → (operate z (Ints (Chain Greater)) (element_of_number a ∷ element_of_number b ∷ []) ≡ Truth true)
        ↔ (cross b a <ℤ cross a b) }
    ensures at_least { (z : DivisionByZero) (a b : Rational)
        → (operate z (Ints (Chain AtLeast)) (element_of_number a ∷ element_of_number b ∷ []) ≡ Truth true)
        ↔ (cross b a ≤ℤ cross a b) }
{
    crate::laws::rationals::integers_are_calculated_alike();
}

/// What `/` gives times the divisor is the dividend, for a divisor other than 0; by 0 it gives what z has; and more
/// than two numbers are divided from the left (SMT-LIB 2.6, theory Reals).
pub fn numbers_are_divided()
    ensures back { (z : DivisionByZero) (a b : Rational) → IsRational a → IsRational b → numerator b ≢ pos 0
        → operate z (Ints (Left Times)) (operate z (Reals Divide) (element_of_number a ∷ element_of_number b ∷ [])
        ∷ element_of_number b ∷ []) ≡ element_of_number a }
    ensures by_zero { (z : DivisionByZero) (a : Rational)
        → operate z (Reals Divide) (element_of_number a ∷ Integer (pos 0) ∷ [])
        ≡ element_of_number (divided z.ratios a (rational.Integer (pos 0))) }
    ensures left { (z : DivisionByZero) (a b c : Element) (rest : List Element)
        → operate z (Reals Divide) (a ∷ b ∷ c ∷ rest)
        ≡ operate z (Reals Divide) (operate z (Reals Divide) (a ∷ b ∷ []) ∷ c ∷ rest) }
{
    crate::laws::rationals::integers_are_calculated_alike();
    operators::quotients_undo_products();
}

/// `to_int` of x is the one integer n with `n <= x < n + 1`, and `is_int` holds of x exactly where `to_real` of it is x
/// (SMT-LIB 2.6, theory Reals_Ints).
pub fn floors_are_the_greatest_integers_below()
    ensures at_most { (z : DivisionByZero) (a : Rational) → IsRational a
        → operate z (Ints (Chain AtMost)) (operate z (Reals ToInt) (element_of_number a ∷ [])
        ∷ element_of_number a ∷ []) ≡ Truth true }
    ensures above { (z : DivisionByZero) (a : Rational) → IsRational a
        → operate z (Ints (Chain Less)) (element_of_number a ∷ operate z (Ints (Left Plus))
        (operate z (Reals ToInt) (element_of_number a ∷ []) ∷ Integer (pos 1) ∷ []) ∷ []) ≡ Truth true }
    ensures one { (z : DivisionByZero) (a : Rational) (n : ℤ) → IsRational a
        → operate z (Ints (Chain AtMost)) (Integer n ∷ element_of_number a ∷ []) ≡ Truth true
        → operate z (Ints (Chain Less)) (element_of_number a ∷ Integer (n +ℤ pos 1) ∷ []) ≡ Truth true
        → operate z (Reals ToInt) (element_of_number a ∷ []) ≡ Integer n }
    ensures integers { (z : DivisionByZero) (a : Rational)
        → (operate z (Reals IsInt) (element_of_number a ∷ []) ≡ Truth true)
        ↔ (operate z (Reals ToReal) (operate z (Reals ToInt) (element_of_number a ∷ []) ∷ [])
        ≡ element_of_number a) }
{
    crate::laws::rationals::integers_are_calculated_alike();
    order::floors_are_the_greatest_integers_below();
    order::integers_are_their_floors();
}
