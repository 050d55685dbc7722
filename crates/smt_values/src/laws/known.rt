//! Laws of what is known although some arguments are open, and of the range of known integers. A definition
//! that leaves more open does not meet them. Nothing here does anything.

ghost use Rattle.std.specs.Prelude.{◌≡◌, ◌≢◌, ◌↔◌, ◌⊎◌, ℕ, ◌^◌, ◌<◌, ◌≤◌, ℤ, pos, neg_ℤ, ◌≤ℤ◌, ◌<ℤ◌, List};
ghost use Rattle.std.specs.Prelude.{[], ◌∷◌, ◌++◌, true, false, Option, Some, None};
ghost use Rattle.std.specs.List.{list_all, list_any};
ghost use Rattle.std.specs.Str.Parse.{digits_value};
ghost use Rattle.smt_theory.specs.declared.op.Arithmetic.{Arithmetic};
ghost use Rattle.smt_theory.specs.declared.op.Arithmetic.TheVariants.{Div};
ghost use Rattle.smt_theory.specs.declared.op.CoreOp.TheVariants.{And, Implies, Ite, Or};
ghost use Rattle.smt_theory.specs.declared.op.IntsOp.{IntsOp};
ghost use Rattle.smt_theory.specs.declared.op.IntsOp.TheVariants.{Arithmetic as Left, Mod};
ghost use Rattle.smt_theory.specs.declared.op.Op.TheVariants.{Core, Ints};
ghost use Rattle.smt_values.specs.Element.{Element, Integer, Truth};
ghost use Rattle.smt_values.specs.KnownNumbers.{is_known_fraction};
ghost use Rattle.smt_values.specs.KnownOperations.{is_held, is_within, known_step};
ghost use Rattle.smt_values.specs.Literals.{numeral_element};
ghost use Rattle.smt_values.specs.Operations.{DivisionByZero, operate};

use smt_ratios::laws::{numbers, operators};

/// One argument may decide, whatever the others are:
///
/// - of `and` a false one, and of `or` a true one;
/// - of `=>` a false one before the last, and the last if it is true;
/// - of `ite` the chosen branch.
pub fn one_argument_decides()
    ensures and { (before after : List (Option Element))
        → known_step (Core And) (before ++ Some (Truth false) ∷ after) ≡ Some (Truth false) }
    ensures or { (before after : List (Option Element))
        → known_step (Core Or) (before ++ Some (Truth true) ∷ after) ≡ Some (Truth true) }
    ensures premise { (before after : List (Option Element)) (next : Option Element)
        → known_step (Core Implies) (before ++ Some (Truth false) ∷ next ∷ after) ≡ Some (Truth true) }
    ensures conclusion { (before : List (Option Element))
        → known_step (Core Implies) (before ++ Some (Truth true) ∷ []) ≡ Some (Truth true) }
    ensures branch { (a b : Option Element)
        → (known_step (Core Ite) (Some (Truth true) ∷ a ∷ b ∷ []) ≡ a)
        × (known_step (Core Ite) (Some (Truth false) ∷ a ∷ b ∷ []) ≡ b) }
{}

/// An integer is known exactly from -2^127 to 2^127 - 1, and so is the integer of a numeral.
pub fn integers_within_bounds_are_known()
    ensures bounds { (a : ℤ) → (is_within a ≡ true)
        ↔ ((neg_ℤ (pos (2 ^ 127)) ≤ℤ a) × (a <ℤ pos (2 ^ 127))) }
    ensures numeral { (digits : List ℕ) → digits_value 10 digits < 2 ^ 127
        → numeral_element digits ≡ Some (Integer (pos (digits_value 10 digits))) }
    ensures larger { (digits : List ℕ) → 2 ^ 127 ≤ digits_value 10 digits → numeral_element digits ≡ None }
{}

/// Where an operator of Ints gives an integer for one or two known arguments, it is known if it is within the
/// bounds and no divisor is 0. More than two arguments are combined from the left; with fractions
/// among them those of another operator than `div`, and where each integer is within the bounds.
pub fn results_within_bounds_are_known()
    ensures one { (z : DivisionByZero) (op : IntsOp) (a r : ℤ) → operate z (Ints op) (Integer a ∷ []) ≡ Integer r
        → is_within r ≡ true → known_step (Ints op) (Some (Integer a) ∷ []) ≡ Some (Integer r) }
    ensures two { (z : DivisionByZero) (op : IntsOp) (a b r : ℤ)
        → operate z (Ints op) (Integer a ∷ Integer b ∷ []) ≡ Integer r → is_within r ≡ true
        → ((op ≡ Left Div) ⊎ (op ≡ Mod) → b ≢ pos 0)
        → known_step (Ints op) (Some (Integer a) ∷ Some (Integer b) ∷ []) ≡ Some (Integer r) }
    ensures more { (op : Arithmetic) (a b c : Option Element) (rest : List (Option Element))
        → (list_any is_known_fraction (a ∷ b ∷ c ∷ rest) ≡ true
        → (op ≢ Div) × (list_all is_held (a ∷ b ∷ c ∷ rest) ≡ true))
        → known_step (Ints (Left op)) (a ∷ b ∷ c ∷ rest)
        ≡ known_step (Ints (Left op)) (known_step (Ints (Left op)) (a ∷ b ∷ []) ∷ c ∷ rest) }
{
    numbers::known_results_are_results();
    operators::integers_are_known_as_integers();
}
