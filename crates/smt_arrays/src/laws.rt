//! What follows from the definitions.

ghost use Rattle.std.specs.Prelude.{◌≡◌, ◌↔◌, ◌≤◌, Bool, true, false, List, [], ◌∷◌, Option, Some};
ghost use Rattle.smt_theory.specs.declared.op.ArraysOp.TheVariants.{Select, Store};
ghost use Rattle.smt_theory.specs.declared.op.Op.{Op};
ghost use Rattle.smt_theory.specs.declared.op.Op.TheVariants.{Arrays};
ghost use Rattle.smt_theory.specs.Ranks.{HasRank};
ghost use Rattle.smt_theory.specs.Sort.{Array, Sort};
ghost use Rattle.smt_values.specs.Operations.{DivisionByZero};
ghost use Rattle.smt_arrays.specs.Element.{Agrees, AllAgree, AreOfSorts, Element, IsOfSort, IsUniverse, Written};
ghost use Rattle.smt_arrays.specs.Element.{depth, is_array};
ghost use Rattle.smt_arrays.specs.Known.{known_same, known_step};
ghost use Rattle.smt_arrays.specs.Operations.{operate};
ghost use Rattle.smt_arrays.specs.Reading.{both_indexes, is_among, is_same, read};

/// What is known of a result is true of it (SMT-LIB 2.6, section 3.7, and the theories).
pub fn known_results_are_true()
    ensures { (z : DivisionByZero) (op : Op) (knowns : List (Option Element)) (args : List Element)
        → AllAgree knowns args → Agrees (known_step op knowns) (operate z op args) }
{
    smt_values::laws::known_results_are_true();
}

/// An operator gives an element of its rank's sort for arguments of the rank's sorts.
pub fn results_are_of_their_sorts()
    ensures { (z : DivisionByZero) (op : Op) (sorts : List Sort) (sort : Sort) (args : List Element)
        → HasRank op sorts sort → AreOfSorts sorts args → IsOfSort sort (operate z op args) }
{
    smt_values::laws::results_are_of_their_sorts();
}

/// Two arrays are the same exactly where they have the same at each index of their sort (SMT-LIB 2.6, theory ArraysEx:
/// arrays are extensional). The indexes are no arrays; the elements may be arrays, of elements that are none. Each sort
/// has an element.
pub fn arrays_are_extensional()
    ensures { (index element : Sort) (a b some : Element) → depth index ≡ 0 → depth element ≤ 1 → IsOfSort index some
        → IsOfSort (Array index element) a → IsOfSort (Array index element) b
        → (is_same a b ≡ true) ↔ ((i : Element) → IsOfSort index i → is_same (read a i) (read b i) ≡ true) }
{}

/// An array has at an index what was stored there, and at each other index what it had (SMT-LIB 2.6, theory ArraysEx).
pub fn what_is_stored_is_read()
    ensures { (z : DivisionByZero) (array index element other : Element) → is_array index ≡ false
        → (operate z (Arrays Select) (operate z (Arrays Store) (array ∷ index ∷ element ∷ []) ∷ index ∷ []) ≡ element)
        × (is_same other index ≡ false
        → operate z (Arrays Select) (operate z (Arrays Store) (array ∷ index ∷ element ∷ []) ∷ other ∷ [])
        ≡ operate z (Arrays Select) (array ∷ other ∷ [])) }
{}

/// To store what an array has at an index changes nothing.
pub fn what_is_there_changes_nothing()
    ensures { (index element : Sort) (array i : Element) → depth index ≡ 0 → depth element ≤ 1
        → IsOfSort (Array index element) array → IsOfSort index i
        → is_same (Written array i (read array i)) array ≡ true }
{}

/// Of two elements stored at one index the later counts.
pub fn the_later_store_counts()
    ensures { (index element : Sort) (array i first second : Element) → depth index ≡ 0 → depth element ≤ 1
        → IsOfSort (Array index element) array → IsOfSort index i → IsOfSort element first → IsOfSort element second
        → is_same (Written (Written array i first) i second) (Written array i second) ≡ true }
{}

/// The order of stores at two indexes does not matter.
pub fn stores_at_two_indexes_commute()
    ensures { (index element : Sort) (array i j first second : Element) → depth index ≡ 0 → depth element ≤ 1
        → IsOfSort (Array index element) array → IsOfSort index i → IsOfSort index j
        → IsOfSort element first → IsOfSort element second → is_same i j ≡ false
        → is_same (Written (Written array i first) j second) (Written (Written array j second) i first) ≡ true }
{}

/// What is known of the sameness of two arrays is so in each universe of their indexes that has those that are written:
/// they are known to be the same, or to differ, only where they have the same at each index of the universe, or not.
pub fn known_sameness_holds_in_each_universe()
    ensures { (index element : Sort) (a b some : Element) (universe : Element → Bool) (known : Bool)
        → depth index ≡ 0 → depth element ≡ 0 → IsOfSort (Array index element) a → IsOfSort (Array index element) b
        → IsUniverse index universe → universe some ≡ true
        → ((i : Element) → IsOfSort index i → is_among i (both_indexes a b) ≡ true → universe i ≡ true)
        → known_same a b ≡ Some known
        → (known ≡ true) ↔ ((i : Element) → universe i ≡ true → is_same (read a i) (read b i) ≡ true) }
{}
