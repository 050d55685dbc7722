//! Laws of why an operator's result is known or open. Nothing here does anything.

ghost use Rattle.std.specs.Prelude.{◌≡◌, ℕ, List, Option, Some, None, IsTrue, length, map, slice_get, true, false};
ghost use Rattle.smt_theory.specs.Operators.{is_on_arrays};
ghost use Rattle.smt_theory.specs.Ranks.{HasRank};
ghost use Rattle.smt_theory.specs.declared.op.Op.{Op};
ghost use Rattle.smt_theory.specs.Sort.{Sort, is_number};
ghost use Rattle.smt_values.specs.Element.{AreOfSorts, Element};
ghost use Rattle.smt_values.specs.KnownOperations.{known_step};
ghost use Rattle.smt_values.specs.Reasons.{divides_by_zero, open_reason, reason};
ghost use Rattle.smt_values.specs.declared.reasons.OpenReason.{OpenReason};
ghost use Rattle.smt_values.specs.declared.reasons.OpenReason.TheVariants.{Argument, DivisionByZero, Range};
ghost use Rattle.smt_values.specs.declared.reasons.Reason.TheVariants.{Branch, Decided, Open};

/// A result is open exactly where its reason is one of an open result.
pub fn open_results_have_open_reasons()
    ensures open { (op : Op) (args : List (Option Element)) (r : OpenReason) → reason op args ≡ Open r
        → known_step op args ≡ None }
    ensures told { (op : Op) (args : List (Option Element)) → known_step op args ≡ None
        → reason op args ≡ Open (open_reason op args) }
{}

/// An argument that decides gives the result, whatever the others are; a branch is the result.
pub fn reasons_give_results()
    ensures decided { (op : Op) (args others : List (Option Element)) (i : ℕ) → reason op args ≡ Decided i
        → length others ≡ length args → slice_get others i ≡ slice_get args i
        → known_step op others ≡ known_step op args }
    ensures branch { (op : Op) (args : List (Option Element)) (i : ℕ) → reason op args ≡ Branch i
        → slice_get args i ≡ Some (known_step op args) }
{}

/// The argument that keeps a result open is open; a division by zero divides by an argument that is zero; and over
/// known arguments, of sorts that the operator has a rank for, only a number is out of range.
pub fn open_reasons_hold()
    ensures argument { (op : Op) (args : List (Option Element)) (i : ℕ) → reason op args ≡ Open (Argument i)
        → slice_get args i ≡ Some None }
    ensures zero { (op : Op) (args : List (Option Element)) → reason op args ≡ Open DivisionByZero
        → IsTrue (divides_by_zero op args) }
    ensures range { (op : Op) (sorts : List Sort) (sort : Sort) (args : List Element)
        → is_on_arrays op ≡ false → HasRank op sorts sort → AreOfSorts sorts args
        → reason op (map Some args) ≡ Open Range → is_number sort ≡ true }
{}
