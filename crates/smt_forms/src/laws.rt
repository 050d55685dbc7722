//! Laws of the definitions that the contracts name. Nothing here does anything: each contract is a law.

pub mod refusals;

ghost use Rattle.std.specs.List.{All, AllPairs, Contains, flat_map};
ghost use Rattle.std.specs.Prelude.{◌≡◌, ◌≢◌, ◌↔◌, ◌⊎◌, ◌++◌, ◌∷◌, ◌<◌, ◌≤◌, ℕ, List, [], None, Some, codes, map};
ghost use Rattle.std.specs.Prelude.{true, false};
ghost use Rattle.smt_trees.specs.Sexp.{Sexp, Sexps, Nil};
ghost use Rattle.smt_theory.specs.Sort.{Sort};
ghost use Rattle.smt_forms.specs.ElementNames.{is_numeral, sort_of_element};
ghost use Rattle.smt_forms.specs.Labels.{labels_in};
ghost use Rattle.smt_forms.specs.Parts.{IsLabelled, OccursFree, own_labels, parts_of};
ghost use Rattle.smt_forms.specs.Repeated.{repeated_behind};
ghost use Rattle.smt_forms.specs.Variables.{uses_variable};
ghost use Rattle.smt_forms.specs.Bindings.{AreAttributes, are_attributes};

/// Trees are the attributes of a term exactly where there is at least one, and they are keywords, each with a
/// value or without one (SMT-LIB 2.6, sections 3.4 and 3.6.5).
pub fn attributes_are_keywords_with_values()
    ensures { (trees : Sexps) → (are_attributes trees ≡ true) ↔ ((trees ≡ Nil → ⊥) × AreAttributes trees) }
{}

/// The labels of a term are those that its annotations give: `x` labels `t` exactly where
/// `(! t .. :named x ..)` occurs in it (SMT-LIB 2.6, section 3.6.5). Those of the term's parts come first,
/// part by part, and then its own.
pub fn labels_are_annotations()
    ensures standing { (term : Sexp) (label : List ℕ × Sexp)
        → Contains (labels_in term) label ↔ IsLabelled term label }
    ensures ordered { (term : Sexp)
        → labels_in term ≡ flat_map (λ p. labels_in p.1) (parts_of term) ++ own_labels term }
{}

/// A term uses a variable that is bound outside it exactly where the name of one occurs free in it (SMT-LIB
/// 2.6, section 3.6.1).
pub fn used_variables_occur_free()
    ensures { (scope : List (List ℕ × Sort)) (term : Sexp) → (uses_variable scope term ≡ true)
        ↔ ((x : List ℕ) × Contains (map (λ v. v.0) scope) x × OccursFree x term) }
{}

/// No name is found repeated exactly where no two names are the same.
pub fn none_repeated_where_all_differ()
    ensures { (names : List (List ℕ)) → (repeated_behind [] names ≡ None) ↔ AllPairs (λ x y. x ≢ y) names }
{}

/// A plain symbol is spelled as an element of the sort `U` exactly where it is `U!val!` or `@uc_U_` with a numeral
/// behind it (SMT-LIB 2.6, section 3.1). No symbol is spelled in both ways. The names in force decide whether it is an
/// element.
pub fn elements_name_their_sorts()
    ensures named { (sort numeral : List ℕ) → is_numeral numeral ≡ true
        → sort_of_element (sort ++ codes "!val!" ++ numeral) ≡ Some sort }
    ensures alone { (symbol sort : List ℕ) → (sort_of_element symbol ≡ Some sort)
        ↔ ((numeral : List ℕ) × (is_numeral numeral ≡ true)
        × ((symbol ≡ sort ++ codes "!val!" ++ numeral)
        ⊎ (symbol ≡ codes "@uc_" ++ sort ++ codes "_" ++ numeral))) }
{}

/// A numeral is `0`, or digits of which the first is no `0` (SMT-LIB 2.6, section 3.1).
pub fn numerals_begin_with_no_zero()
    ensures zero { is_numeral (codes "0") ≡ true }
    ensures digits { (d : ℕ) (ds : List ℕ) → 49 ≤ d → d ≤ 57 → All (λ e. (48 ≤ e) × (e ≤ 57)) ds
        → is_numeral (d ∷ ds) ≡ true }
    ensures padded { (d : ℕ) (ds : List ℕ) → is_numeral (48 ∷ d ∷ ds) ≡ false }
    ensures others { (before after : List ℕ) (c : ℕ) → (c < 48) ⊎ (57 < c)
        → is_numeral (before ++ c ∷ after) ≡ false }
    ensures empty { is_numeral [] ≡ false }
{}
