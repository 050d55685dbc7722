//! Laws: theorems about the definitions that the contracts cite. Each is the contract of an empty function.

pub mod elements;
pub mod first_faults;

ghost use Rattle.std.specs.List.{All};
ghost use Rattle.std.specs.Prelude.{◌≡◌, ◌≢◌, ◌<◌, ◌↔◌, ◌⊎◌, ◌∷◌, ◌++◌, ℕ, List, [], Some, None, true, false, Ok, Err};
ghost use Rattle.std.specs.Prelude.{bytes_eq, length};
ghost use Rattle.smt_trees.specs.Sexp.{Sexp, Sexps, Atom, Decimal, Numeral};
ghost use Rattle.smt_nodes.specs.Node.{Row};
ghost use Rattle.smt_theory.specs.Sort.{Sort, Int, Real};
ghost use Rattle.smt_faults.specs.declared.term_flaw.TermFlaw.TheVariants.{Unknown, Unsupported};
ghost use Rattle.smt_theory.specs.declared.theories.Theories.{Theories};
ghost use Rattle.smt_terms.specs.Checking.{sort_in};
ghost use Rattle.smt_terms.specs.Assertions.{asserted_in};
ghost use Rattle.smt_terms.specs.Contents.{Contents, Extends, IsBelow, IsWithin, contents_of, first_of};
ghost use Rattle.smt_terms.specs.Contents.{needed_of};
ghost use Rattle.smt_terms.specs.Definitions.{defined_in};
ghost use Rattle.smt_terms.specs.Denotes.{Denotes, IsLonger, Slots, Table};
ghost use Rattle.smt_forms.specs.Labels.{labels_in};
ghost use Rattle.smt_terms.specs.Repeated.{IsRepeated, widened};
ghost use Rattle.smt_terms.specs.Library.{Holds, IsTerm, IsTermOf, StandsFor, terms_of};
ghost use Rattle.smt_terms.specs.Items.{item_in, told_item};
ghost use Rattle.smt_terms.specs.Declarations.{declared_in};
ghost use Rattle.smt_terms.specs.Signature.{Entry, KeepsRank, Names, Signature, declared_named, entry_named};
ghost use Rattle.smt_terms.specs.Signature.{names_of, no_names, sort_names_of};
ghost use Rattle.smt_terms.specs.TermsOf.{AreTermsOf};
ghost use Rattle.smt_terms.specs.Freshness.{is_element_name, is_taken, item_elements};
ghost use Rattle.smt_theory.specs.Operators.{is_plain_operator};
ghost use Rattle.smt_terms.specs.WellSorted.{AreIntroduced, IsWellSorted, Keeps};
ghost use Rattle.smt_terms.specs.Written.{AreLabelsOf, IsDeclaredAs, IsDefinedAs, IsPrintedAs};
ghost use Rattle.smt_terms.specs.declared.library.Library.{Library};
ghost use Rattle.smt_terms.specs.declared.library.marks.Mark.{Mark};

use smt_theory::laws::sorts_are_compared;

/// A definition is well sorted over the earlier names (SMT-LIB 2.6, sections 4.2.3 and 5.2), and has the given
/// name, which meant nothing before and is no plain operator's.
pub fn definitions_are_well_sorted()
    ensures sorted { (s : Signature) (x : List ℕ) (parameters : List (List ℕ × Sexp)) (sort body : Sexp)
        (e : Entry) → defined_in s x parameters sort body ≡ Ok e → IsWellSorted s.theories s.elements s.entries e }
    ensures named { (s : Signature) (x : List ℕ) (parameters : List (List ℕ × Sexp)) (sort body : Sexp)
        (e : Entry) → defined_in s x parameters sort body ≡ Ok e → e.name ≡ x }
    ensures free { (s : Signature) (x : List ℕ) (parameters : List (List ℕ × Sexp)) (sort body : Sexp)
        (e : Entry) → defined_in s x parameters sort body ≡ Ok e → is_taken (names_of s) x ≡ false }
{
    sorts_are_compared();
}

/// What an item of a model defines is well sorted over the earlier items (SMT-LIB 2.6, sections 4.2.6 and 5.2), and
/// its name is new among them. If the script declares the name, the item has the declared rank; otherwise the name
/// is free in the script.
pub fn items_are_well_sorted()
    ensures sorted { (script : Signature) (earlier : List Entry) (tree : Sexp) (e : Entry)
        → item_in script earlier tree ≡ Ok (Some e) → IsWellSorted script.theories (item_elements script) earlier e }
    ensures fresh { (script : Signature) (earlier : List Entry) (tree : Sexp) (e : Entry)
        → item_in script earlier tree ≡ Ok (Some e) → entry_named earlier e.name ≡ None }
    ensures ranked { (script : Signature) (earlier : List Entry) (tree : Sexp) (e d : Entry)
        → item_in script earlier tree ≡ Ok (Some e)
        → declared_named script.entries e.name ≡ Some d → KeepsRank d (Some e) }
    ensures free { (script : Signature) (earlier : List Entry) (tree : Sexp) (e : Entry)
        → item_in script earlier tree ≡ Ok (Some e)
        → declared_named script.entries e.name ≡ None → is_taken (names_of script) e.name ≡ false }
{
    sorts_are_compared();
}

/// An item is set aside exactly where, in the wide profile, it repeats a definition or a label of the script, its
/// name and its rank, with any body; or it tells of elements of declared sorts as `told_item` says. This is a choice
/// of this project.
pub fn repeated_items_are_set_aside()
    ensures { (script : Signature) (earlier : List Entry) (tree : Sexp)
        → (item_in script earlier tree ≡ Ok None)
        ↔ (IsRepeated script tree ⊎ (told_item script tree ≡ Some (Ok None))) }
{
    sorts_are_compared();
}

/// An item that defines a name without the wide profile defines the same in the wide profile, unless its name has there
/// the form of those of elements of a declared sort, or is that of an operator.
pub fn items_are_the_same_in_the_wide_profile()
    ensures { (script : Signature) (earlier : List Entry) (tree : Sexp) (e : Entry)
        → item_in script earlier tree ≡ Ok (Some e) → is_element_name (widened script) e.name ≡ false
        → is_plain_operator (widened script).theories e.name ≡ false
        → item_in (widened script) earlier tree ≡ Ok (Some e) }
{}

/// A numeral is an integer where there are integers, and otherwise a real. A decimal is a real; where there are no
/// reals, it is unknown in the wide profile, and not supported without it. This is a choice of this project.
pub fn literals_are_integers_or_reals()
    ensures integer { (names : Names) (scope : List (List ℕ × Sort)) (digits : List ℕ) → names.theories.ints ≡ true
        → sort_in names scope (Atom Numeral digits) ≡ Ok Int }
    ensures real { (names : Names) (scope : List (List ℕ × Sort)) (digits : List ℕ) → names.theories.ints ≡ false
        → names.theories.reals ≡ true → sort_in names scope (Atom Numeral digits) ≡ Ok Real }
    ensures decimal { (names : Names) (scope : List (List ℕ × Sort)) (digits : List ℕ)
        → names.theories.reals ≡ true → sort_in names scope (Atom Decimal digits) ≡ Ok Real }
    ensures unknown { (names : Names) (scope : List (List ℕ × Sort)) (digits : List ℕ)
        → names.theories.reals ≡ false → names.theories.wide ≡ true
        → sort_in names scope (Atom Decimal digits) ≡ Err Unknown }
    ensures unsupported { (names : Names) (scope : List (List ℕ × Sort)) (digits : List ℕ)
        → names.theories.reals ≡ false → names.theories.wide ≡ false
        → sort_in names scope (Atom Decimal digits) ≡ Err Unsupported }
{}

/// A term keeps its sort over more names, if none of them hides an operator and labels are left out of account.
pub fn sorts_are_kept()
    ensures { (names more : Names) (scope : List (List ℕ × Sort)) (term : Sexp) (sort : Sort)
        → Keeps names more → sort_in names scope term ≡ Ok sort → sort_in more scope term ≡ Ok sort }
{}

/// Each label of an assertion (SMT-LIB 2.6, section 3.6.5) is new after the names in force and the earlier labels,
/// is no operator's name, and is well sorted over them.
pub fn labels_are_introduced()
    ensures { (s : Signature) (term : Sexp) (labels : List Entry) → asserted_in (names_of s) term ≡ Ok labels
        → AreIntroduced s.theories s.elements s.entries labels }
{}

/// A declaration brings what its command says (SMT-LIB 2.6, section 4.2.3): the name, with the sorts that the trees
/// name, under the number of the command.
pub fn declarations_are_as_written()
    ensures { (s : Signature) (command : ℕ) (x : List ℕ) (parameters : Sexps) (sort : Sexp) (e : Entry)
        → declared_in s command x parameters sort ≡ Ok e
        → IsDeclaredAs (sort_names_of s) command x parameters sort e }
{}

/// A definition brings what its command says (SMT-LIB 2.6, section 4.2.3): the name, with the sorts that the trees
/// name, the parameters and the body.
pub fn definitions_are_as_written()
    ensures { (s : Signature) (x : List ℕ) (parameters : List (List ℕ × Sexp)) (sort body : Sexp) (e : Entry)
        → defined_in s x parameters sort body ≡ Ok e
        → IsDefinedAs (sort_names_of s) x parameters sort body e }
{}

/// An item of a model defines what the solver printed (SMT-LIB 2.6, section 4.2.6), with each sort read by the
/// script's abbreviations.
pub fn items_are_as_printed()
    ensures { (script : Signature) (earlier : List Entry) (tree : Sexp) (e : Entry)
        → item_in script earlier tree ≡ Ok (Some e) → IsPrintedAs (sort_names_of script) tree e }
{}

/// An assertion brings its labels, in order (SMT-LIB 2.6, section 3.6.5): each is a constant, which the term that
/// it annotates defines.
pub fn assertions_bring_their_labels()
    ensures { (names : Names) (term : Sexp) (es : List Entry)
        → asserted_in names term ≡ Ok es → AreLabelsOf names (labels_in term) es }
{}

/// Two names are equal exactly where the comparison of their bytes says so.
pub fn names_are_compared()
    ensures { (x y : List ℕ) → (bytes_eq x y ≡ true) ↔ (x ≡ y) }
{}

/// A name is found at its first entry, one of its name with none before it, and not at all where no entry has the
/// name.
pub fn entries_are_found()
    ensures found { (entries : List Entry) (x : List ℕ) (e : Entry) → (entry_named entries x ≡ Some e)
        ↔ ((before after : List Entry) × (entries ≡ before ++ e ∷ after) × (e.name ≡ x)
        × All (λ d. d.name ≢ x) before) }
    ensures absent { (entries : List Entry) (x : List ℕ)
        → (entry_named entries x ≡ None) ↔ All (λ e. e.name ≢ x) entries }
{}

/// In longer contents a mark counts the same, if it counts no more than the contents had.
pub fn marks_are_kept()
    ensures first { (mark : Mark) (c d : Contents) → IsWithin mark c → Extends c d
        → first_of mark d ≡ first_of mark c }
    ensures within { (mark : Mark) (c d : Contents) → IsWithin mark c → Extends c d → IsWithin mark d }
{}

/// A mark counts the same after contents are cut to a later mark.
pub fn earlier_marks_are_kept()
    ensures first { (mark later : Mark) (c : Contents) → IsBelow mark later
        → first_of mark (first_of later c) ≡ first_of mark c }
    ensures within { (mark later : Mark) (c : Contents) → IsBelow mark later → IsWithin later c
        → IsWithin mark (first_of later c) }
{}

/// A term of contents is also a term of longer contents.
pub fn terms_are_kept()
    ensures { (c d : Contents) (i : ℕ) (t : Sexp) → Extends c d → IsTermOf c i t → IsTermOf d i t }
{}

/// A node stands for its term in longer tables too (SMT-LIB 2.6, section 3.6).
pub fn nodes_stand_for_their_terms_still()
    ensures { (t u : Table) (slots : Slots) (next around i : ℕ) (term : Sexp) → IsLonger t u
        → Denotes t slots next around i term → Denotes u slots next around i term }
{}

/// The table of all terms of a library, with the transient ones, has the names and the definitions of the library's
/// signature.
pub fn transient_terms_change_no_names()
    ensures { (library : Library) (s : Signature) → StandsFor library s → AreTermsOf (terms_of library) s }
{}

/// A term that a library holds is among all its terms, with the transient ones.
pub fn held_terms_are_terms()
    ensures { (library : Library) (i : ℕ) (t : Sexp) → IsTermOf (contents_of library) i t → IsTerm library i t }
{}

/// The number of a term is the number of a node.
pub fn terms_have_nodes()
    ensures { (c : Contents) (i : ℕ) (t : Sexp) → IsTermOf c i t → i < length c.rows }
{}

/// The signature of contents needs only the nodes of bodies, and a term needs only the nodes up to its own.
pub fn needed_nodes_are_enough()
    ensures names { (count : ℕ) (c : Contents) (s : Signature) → Holds c s → Holds (needed_of count c) s }
    ensures terms { (count : ℕ) (c : Contents) (i : ℕ) (t : Sexp) → i < count → IsTermOf c i t
        → IsTermOf (needed_of count c) i t }
{}

/// A table without names and bodies is the table of a signature without names, whatever nodes it has.
pub fn no_names_have_no_bodies()
    ensures { (theories : Theories) (rows : List Row) → AreTermsOf (record {
      theories = theories;
      elements = None;
      heads = [];
      names = [];
      bodies = [];
      rows = rows;
    }) (no_names theories) }
{}
