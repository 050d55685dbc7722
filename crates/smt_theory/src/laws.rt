//! Laws of the definitions that the contracts name. Nothing here does anything: each contract is a law.

pub mod names;

ghost use Rattle.std.specs.Prelude.{◌≡◌, ◌≢◌, ◌↔◌, ℕ, List, [], ◌∷◌, IsTrue, Ok, Err, Some, None};
ghost use Rattle.smt_theory.specs.Misfits.{misfit_of};
ghost use Rattle.smt_theory.specs.Operators.{IsIndexedName, IsOperatorBy, IsPlainName, op_by};
ghost use Rattle.smt_theory.specs.Ranks.{HasRank, rank_of};
ghost use Rattle.smt_theory.specs.Sort.{is_same_sort};
ghost use Rattle.smt_theory.specs.Index.{IndexView};
ghost use Rattle.smt_theory.specs.declared.op.Op.{Op};
ghost use Rattle.smt_theory.specs.declared.op.OpFault.TheVariants.{Index, Unknown};
ghost use Rattle.smt_theory.specs.Sort.{Sort};
ghost use Rattle.smt_theory.specs.declared.theories.Theories.{Theories};

/// An operator has a result's sort for arguments of given sorts exactly where the table has it, and it has at
/// most one.
pub fn ranks_are_the_table()
    ensures computed { (op : Op) (args : List Sort) (sort : Sort) → (rank_of op args ≡ Some sort)
        ↔ HasRank op args sort }
    ensures one { (op : Op) (args : List Sort) (a b : Sort) → HasRank op args a → HasRank op args b → a ≡ b }
{}

/// Why an operator does not take arguments of given sorts is told exactly where it has no rank for them.
pub fn flaws_of_ranks_are_told()
    ensures { (op : Op) (args : List Sort)
        → (misfit_of op args ≡ None) ↔ ((sort : Sort) × HasRank op args sort) }
{}

/// A symbol with indexes names an operator exactly where the symbol is the operator's own name, the indexes
/// are its own, and the operator is one of the theories.
pub fn operators_are_found_by_their_names()
    ensures { (theories : Theories) (symbol : List ℕ) (indexes : List IndexView) (op : Op)
        → (op_by theories symbol indexes ≡ Ok op) ↔ IsOperatorBy theories symbol indexes op }
{}

/// Which fault an identifier has that names no operator: its indexes are wrong, or its symbol is unknown
/// (SMT-LIB 2.6, logic QF_BV).
///
/// - The indexes are wrong exactly where there are some, the symbol names an indexed operator of the
///   theories, and no operator of that name has these indexes.
/// - The symbol is unknown exactly where no operator of the theories has the name: no plain one where there
///   are no indexes, no indexed one where there are some.
///
/// Whether a symbol is a name does not depend on the indexes: `bvX` is one for each numeral X.
pub fn faults_of_operators_are_told_apart()
    ensures index { (theories : Theories) (symbol : List ℕ) (indexes : List IndexView)
        → (op_by theories symbol indexes ≡ Err Index)
        ↔ ((indexes ≢ []) × IsIndexedName theories symbol
        × ((op : Op) → ¬ IsOperatorBy theories symbol indexes op)) }
    ensures plain { (theories : Theories) (symbol : List ℕ)
        → (op_by theories symbol [] ≡ Err Unknown) ↔ ¬ IsPlainName theories symbol }
    ensures indexed { (theories : Theories) (symbol : List ℕ) (first : IndexView) (rest : List IndexView)
        → (op_by theories symbol (first ∷ rest) ≡ Err Unknown) ↔ ¬ IsIndexedName theories symbol }
{}

/// Two sorts are the same exactly where the comparison says so.
pub fn sorts_are_compared()
    ensures { (a b : Sort) → IsTrue (is_same_sort a b) ↔ (a ≡ b) }
{}
