//! Laws of the names of elements (SMT-LIB 2.6, sections 3.3 and 4.2.6): each name that a script has keeps its one
//! meaning, and an element is named by its sort's own name alone. Nothing here does anything.

ghost use Rattle.std.specs.Prelude.{◌≡◌, ◌≢◌, ◌↔◌, ◌∷◌, ◌++◌, ℕ, List, [], true, false, Ok, Err, None, Some, codes};
ghost use Rattle.smt_trees.specs.Sexp.{Sexp, Sexps, Atom, Cons, Items, Nil, Reserved, Symbol};
ghost use Rattle.smt_trees.specs.declared.reserved.Word.TheVariants.{As, DeclareFun};
ghost use Rattle.smt_theory.specs.Operators.{is_plain_operator};
ghost use Rattle.smt_theory.specs.Words.{look_up};
ghost use Rattle.smt_theory.specs.Sort.{Sort};
ghost use Rattle.smt_theory.specs.Sort.{Free};
ghost use Rattle.smt_forms.specs.ElementNames.{is_numeral};
ghost use Rattle.smt_forms.specs.ItemForm.{ItemForm};
ghost use Rattle.smt_terms.specs.Checking.{sort_in};
ghost use Rattle.smt_terms.specs.Declarations.{abbreviated_in, sort_declared_in};
ghost use Rattle.smt_terms.specs.Elements.{ElementNames, element_among, element_sort};
ghost use Rattle.smt_terms.specs.Freshness.{is_element_name, item_elements};
ghost use Rattle.smt_terms.specs.Items.{is_set_aside, item_by, items_before, told_item};
ghost use Rattle.smt_terms.specs.Repeated.{IsTold};
ghost use Rattle.smt_terms.specs.Signature.{Entry, Names, Signature, entry_named, names_of, sort_names_of};
ghost use Rattle.smt_terms.specs.SortTrees.{SortNames, sort_named};
ghost use Rattle.smt_terms.specs.declared.named_sort.NamedSort.{NamedSort};
ghost use Rattle.smt_faults.specs.declared.term_flaw.TermFlaw.TheVariants.{NotFresh, Unknown, Unsupported};

use smt_forms::laws::elements_name_their_sorts;

/// A name that the script has, declared, defined or given to a label, names no element in the items of a model. Alone
/// it is unknown, unless an earlier item or a variable has it; behind an `as` it is in use, and so is the name of an
/// earlier item.
pub fn names_of_a_script_name_no_elements()
    ensures none { (script : Signature) (x : List ℕ) (e : Entry) → entry_named script.entries x ≡ Some e
        → element_among (item_elements script) x ≡ None }
    ensures unknown { (script : Signature) (earlier : List Entry) (scope : List (List ℕ × Sort)) (x : List ℕ)
        (e : Entry) → entry_named script.entries x ≡ Some e → look_up scope x ≡ None → entry_named earlier x ≡ None
        → is_plain_operator script.theories x ≡ false
        → sort_in (names_of (items_before script earlier)) scope (Atom Symbol x) ≡ Err Unknown }
    ensures qualified { (script : Signature) (earlier : List Entry) (scope : List (List ℕ × Sort)) (x : List ℕ)
        (sort : Sexp) (e : Entry) → script.theories.wide ≡ true → entry_named script.entries (64 ∷ x) ≡ Some e
        → sort_in (names_of (items_before script earlier)) scope
        (Items (Cons (Reserved As) (Cons (Atom Symbol (64 ∷ x)) (Cons sort Nil)))) ≡ Err NotFresh }
    ensures earlier { (script : Signature) (earlier : List Entry) (scope : List (List ℕ × Sort)) (x : List ℕ)
        (sort : Sexp) (e : Entry) → script.theories.wide ≡ true → entry_named earlier (64 ∷ x) ≡ Some e
        → sort_in (names_of (items_before script earlier)) scope
        (Items (Cons (Reserved As) (Cons (Atom Symbol (64 ∷ x)) (Cons sort Nil)))) ≡ Err NotFresh }
{}

/// An item whose name has the form of an element's is refused, also one that repeats a definition or a label of the
/// script. So is one that tells that a name of the script is an element's.
pub fn items_with_names_of_elements_are_refused()
    ensures kept { (script : Signature) (x : List ℕ) → is_element_name script x ≡ true
        → is_set_aside script x ≡ false }
    ensures refused { (script : Signature) (earlier : List Entry) (form : ItemForm)
        → is_element_name script form.name ≡ true → entry_named earlier form.name ≡ None
        → item_by script earlier form ≡ Err NotFresh }
    ensures told { (script : Signature) (x : List ℕ) (sort : Sexp) (e : Entry) → is_element_name script x ≡ true
        → entry_named script.entries x ≡ Some e
        → told_item script (Items (Cons (Reserved DeclareFun)
        (Cons (Atom Symbol x) (Cons (Items Nil) (Cons sort Nil))))) ≡ Some (Err NotFresh) }
{}

/// A symbol names an element of the sort that a command declared by the very name in it, and of no other sort. The name
/// of an abbreviation is in no element's.
pub fn elements_are_named_by_their_sorts()
    ensures first { (sorts : SortNames) (u numeral : List ℕ) (n : ℕ) → is_numeral numeral ≡ true
        → look_up sorts.abbreviations u ≡ Some (record { sort = Free n; is_declared = true })
        → element_sort sorts (u ++ codes "!val!" ++ numeral) ≡ Some (Free n) }
    ensures abbreviated { (sorts : SortNames) (u numeral : List ℕ) (s : Sort) → is_numeral numeral ≡ true
        → look_up sorts.abbreviations u ≡ Some (record { sort = s; is_declared = false })
        → element_sort sorts (u ++ codes "!val!" ++ numeral) ≡ None }
    ensures undeclared { (sorts : SortNames) (u numeral : List ℕ) → is_numeral numeral ≡ true
        → look_up sorts.abbreviations u ≡ None → element_sort sorts (u ++ codes "!val!" ++ numeral) ≡ None }
{
    elements_name_their_sorts();
}

/// Behind an `as`, only a symbol that begins with `@` names an element: one of the sort that is named, which a command
/// declared.
pub fn qualified_elements_begin_with_an_at_sign()
    ensures others { (names : Names) (scope : List (List ℕ × Sort)) (c : ℕ) (cs : List ℕ) (sort : Sexp) → c ≢ 64
        → sort_in names scope (Items (Cons (Reserved As) (Cons (Atom Symbol (c ∷ cs)) (Cons sort Nil))))
        ≡ Err Unsupported }
    ensures empty { (names : Names) (scope : List (List ℕ × Sort)) (sort : Sexp)
        → sort_in names scope (Items (Cons (Reserved As) (Cons (Atom Symbol []) (Cons sort Nil)))) ≡ Err Unsupported }
    ensures element { (script : Signature) (earlier : List Entry) (scope : List (List ℕ × Sort)) (cs : List ℕ)
        (sort : Sexp) (n : ℕ) → script.theories.wide ≡ true → entry_named script.entries (64 ∷ cs) ≡ None
        → entry_named earlier (64 ∷ cs) ≡ None → sort_named (sort_names_of script) sort ≡ Ok (Free n)
        → sort_in (names_of (items_before script earlier)) scope
        (Items (Cons (Reserved As) (Cons (Atom Symbol (64 ∷ cs)) (Cons sort Nil)))) ≡ Ok (Free n) }
{}

/// Items that tell of elements are set aside exactly where `IsTold` says so: no other item is.
pub fn items_that_tell_of_elements_are_set_aside()
    ensures { (script : Signature) (tree : Sexp) → (told_item script tree ≡ Some (Ok None)) ↔ IsTold script tree }
{
    smt_theory::laws::sorts_are_compared();
}

/// Each command that declares a sort declares one of its own, which an abbreviation never is: the sort that it stands
/// for is the one that its tree names.
pub fn declared_sorts_are_their_own()
    ensures own { (s t : SortNames) (n m : ℕ) (x y : List ℕ) (a b : NamedSort) → sort_declared_in s n x ≡ Ok a
        → sort_declared_in t m y ≡ Ok b → a.sort ≡ b.sort → n ≡ m }
    ensures declared { (s : SortNames) (n : ℕ) (x : List ℕ) (a : NamedSort) → sort_declared_in s n x ≡ Ok a
        → (a.is_declared ≡ true) × (a.sort ≡ Free n) }
    ensures abbreviated { (s : SortNames) (x : List ℕ) (tree : Sexp) (a : NamedSort) → abbreviated_in s x tree ≡ Ok a
        → (a.is_declared ≡ false) × (sort_named s tree ≡ Ok a.sort) }
{}
