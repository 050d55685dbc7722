//! Laws of first faults: which of two faults of a term or an item the checker reports. The order is a choice of this
//! project. Each law is a theorem about definitions, stated as the contract of an empty function.

ghost use Rattle.std.specs.Prelude.{◌≡◌, ◌∷◌, ◌++◌, ℕ, List, [], true, false, Ok, Err, None, Some};
ghost use Rattle.std.specs.Prelude.{is_some, map};
ghost use Rattle.smt_trees.specs.Sexp.{Sexp, Sexps, Atom, Cons, Items, Nil, Reserved, Symbol};
ghost use Rattle.smt_trees.specs.declared.reserved.Word.TheVariants.{Bang, Let};
ghost use Rattle.smt_theory.specs.Operators.{op_by};
ghost use Rattle.smt_theory.specs.Shapes.{are_exactly};
ghost use Rattle.smt_theory.specs.Words.{look_up};
ghost use Rattle.smt_theory.specs.declared.op.OpFault.TheVariants as ops;
ghost use Rattle.smt_theory.specs.Sort.{Sort};
ghost use Rattle.smt_forms.specs.Bindings.{are_attributes, are_bindings};
ghost use Rattle.smt_forms.specs.ItemForm.{ItemForm};
ghost use Rattle.smt_forms.specs.Labels.{labels_among, labels_in, labels_in_bindings};
ghost use Rattle.smt_forms.specs.Variables.{uses_variable};
ghost use Rattle.smt_terms.specs.Checking.{bound_in, sort_in, sorts_in};
ghost use Rattle.smt_terms.specs.Definitions.{parameters_named};
ghost use Rattle.smt_terms.specs.Freshness.{is_element_name, is_taken};
ghost use Rattle.smt_terms.specs.Items.{has_rank_of, is_set_aside, item_by};
ghost use Rattle.smt_terms.specs.Labels.{Given, Refused};
ghost use Rattle.smt_terms.specs.Signature.{Entry, Names, Rank, Signature, behind, declared_named, entry_named};
ghost use Rattle.smt_terms.specs.Signature.{names_of, sort_names_of};
ghost use Rattle.smt_terms.specs.SortTrees.{sort_named};
ghost use Rattle.smt_faults.specs.declared.term_flaw.TermFlaw.{TermFlaw};
ghost use Rattle.smt_faults.specs.declared.term_flaw.TermFlaw.TheVariants.{BoundTwice, Form, IllSorted, Label};
ghost use Rattle.smt_faults.specs.declared.term_flaw.TermFlaw.TheVariants.{NotFresh, Unknown};

/// The fault of an application is that of its first faulty argument, whatever symbol is applied and whatever comes
/// after that argument.
pub fn first_faulty_arguments_are_reported()
    ensures first { (names : Names) (scope : List (List ℕ × Sort)) (f : List ℕ) (x : Sexp) (xs : Sexps)
        (flaw : TermFlaw) → sort_in names scope x ≡ Err flaw
        → sort_in names scope (Items (Cons (Atom Symbol f) (Cons x xs))) ≡ Err flaw }
    ensures later { (names : Names) (scope : List (List ℕ × Sort)) (f : List ℕ) (x : Sexp) (xs : Sexps)
        (sort : Sort) (flaw : TermFlaw) → sort_in names scope x ≡ Ok sort
        → sorts_in (behind (labels_in x) names) scope xs ≡ Err flaw
        → sort_in names scope (Items (Cons (Atom Symbol f) (Cons x xs))) ≡ Err flaw }
    ensures among { (names : Names) (scope : List (List ℕ × Sort)) (x : Sexp) (xs : Sexps) (flaw : TermFlaw)
        → sort_in names scope x ≡ Err flaw → sorts_in names scope (Cons x xs) ≡ Err flaw }
{}

/// In an application a fault of the name comes after the faults of its arguments. The name of a variable is ill
/// sorted. A name that is neither in force nor an operator's is unknown. A name in force with other parameters is ill
/// sorted.
pub fn applied_names_come_after_their_arguments()
    ensures variable { (names : Names) (scope : List (List ℕ × Sort)) (f : List ℕ) (x : Sexp) (xs : Sexps)
        (sorts : List Sort) (sort : Sort) → sorts_in names scope (Cons x xs) ≡ Ok sorts
        → look_up scope f ≡ Some sort
        → sort_in names scope (Items (Cons (Atom Symbol f) (Cons x xs))) ≡ Err IllSorted }
    ensures unknown { (names : Names) (scope : List (List ℕ × Sort)) (f : List ℕ) (x : Sexp) (xs : Sexps)
        (sorts : List Sort) → sorts_in names scope (Cons x xs) ≡ Ok sorts → look_up scope f ≡ None
        → look_up names.ranks f ≡ None → op_by names.theories f [] ≡ Err ops.Unknown
        → sort_in names scope (Items (Cons (Atom Symbol f) (Cons x xs))) ≡ Err Unknown }
    ensures parameters { (names : Names) (scope : List (List ℕ × Sort)) (f : List ℕ) (x : Sexp) (xs : Sexps)
        (sorts : List Sort) (rank : Rank) → sorts_in names scope (Cons x xs) ≡ Ok sorts
        → look_up scope f ≡ None → look_up names.ranks f ≡ Some rank
        → are_exactly rank.parameters sorts ≡ false
        → sort_in names scope (Items (Cons (Atom Symbol f) (Cons x xs))) ≡ Err IllSorted }
{}

/// In a `let` a fault of its form comes first, then those of its bindings, from the left, then that of its body
/// (SMT-LIB 2.6, section 3.6.1). In a binding, a name that an earlier binding has comes before a fault of the term.
pub fn lets_are_checked_from_the_left()
    ensures form { (names : Names) (scope : List (List ℕ × Sort)) (bindings : Sexps) (body : Sexp)
        → are_bindings bindings ≡ false
        → sort_in names scope (Items (Cons (Reserved Let) (Cons (Items bindings) (Cons body Nil)))) ≡ Err Form }
    ensures term { (names : Names) (scope : List (List ℕ × Sort)) (x : List ℕ) (term : Sexp) (rest : Sexps)
        (body : Sexp) (flaw : TermFlaw)
        → are_bindings (Cons (Items (Cons (Atom Symbol x) (Cons term Nil))) rest) ≡ true
        → sort_in names scope term ≡ Err flaw
        → sort_in names scope (Items (Cons (Reserved Let)
        (Cons (Items (Cons (Items (Cons (Atom Symbol x) (Cons term Nil))) rest)) (Cons body Nil)))) ≡ Err flaw }
    ensures twice { (names : Names) (scope : List (List ℕ × Sort)) (x : List ℕ) (term other : Sexp) (rest : Sexps)
        (body : Sexp) (sort : Sort)
        → are_bindings (Cons (Items (Cons (Atom Symbol x) (Cons term Nil)))
        (Cons (Items (Cons (Atom Symbol x) (Cons other Nil))) rest)) ≡ true
        → sort_in names scope term ≡ Ok sort
        → sort_in names scope (Items (Cons (Reserved Let)
        (Cons (Items (Cons (Items (Cons (Atom Symbol x) (Cons term Nil)))
        (Cons (Items (Cons (Atom Symbol x) (Cons other Nil))) rest))) (Cons body Nil)))) ≡ Err BoundTwice }
    ensures body { (names : Names) (scope bound : List (List ℕ × Sort)) (bindings : Sexps) (body : Sexp)
        (flaw : TermFlaw) → are_bindings bindings ≡ true → bound_in names scope [] bindings ≡ Ok bound
        → sort_in (behind (labels_in_bindings bindings) names) (bound ++ scope) body ≡ Err flaw
        → sort_in names scope (Items (Cons (Reserved Let) (Cons (Items bindings) (Cons body Nil)))) ≡ Err flaw }
{}

/// In an annotated term a fault of the form of its attributes comes first, then that of the term, then those of its
/// labels (SMT-LIB 2.6, section 3.6.5). Where no label is allowed, or the term uses a variable from outside, the first
/// label has the fault `Label`, whatever its name.
pub fn annotations_are_checked_after_their_form()
    ensures form { (names : Names) (scope : List (List ℕ × Sort)) (term : Sexp) (attributes : Sexps)
        → are_attributes attributes ≡ false
        → sort_in names scope (Items (Cons (Reserved Bang) (Cons term attributes))) ≡ Err Form }
    ensures term { (names : Names) (scope : List (List ℕ × Sort)) (term : Sexp) (attributes : Sexps)
        (flaw : TermFlaw) → are_attributes attributes ≡ true → sort_in names scope term ≡ Err flaw
        → sort_in names scope (Items (Cons (Reserved Bang) (Cons term attributes))) ≡ Err flaw }
    ensures refused { (names : Names) (scope : List (List ℕ × Sort)) (term : Sexp) (attributes : Sexps)
        (sort : Sort) (x : List ℕ) (xs : List (List ℕ)) → are_attributes attributes ≡ true
        → sort_in names scope term ≡ Ok sort → labels_among attributes ≡ x ∷ xs → names.labels ≡ Refused
        → sort_in names scope (Items (Cons (Reserved Bang) (Cons term attributes))) ≡ Err Label }
    ensures open { (names : Names) (scope : List (List ℕ × Sort)) (term : Sexp) (attributes : Sexps)
        (sort : Sort) (x : List ℕ) (xs given : List (List ℕ)) → are_attributes attributes ≡ true
        → sort_in names scope term ≡ Ok sort → labels_among attributes ≡ x ∷ xs → names.labels ≡ Given given
        → uses_variable scope term ≡ true
        → sort_in names scope (Items (Cons (Reserved Bang) (Cons term attributes))) ≡ Err Label }
{}

/// In an item that is not set aside the faults of its name come first, then those of its parameters, its sort and its
/// rank (SMT-LIB 2.6, section 4.2.6). The first fault of a name is that an earlier item has it. The next is that it
/// has the form of an element's, or that the script does not declare it and that it is in use or a plain operator's.
pub fn items_are_checked_from_the_left()
    ensures twice { (script : Signature) (earlier : List Entry) (form : ItemForm)
        → is_set_aside script form.name ≡ false → is_some (entry_named earlier form.name) ≡ true
        → item_by script earlier form ≡ Err BoundTwice }
    ensures taken { (script : Signature) (earlier : List Entry) (form : ItemForm)
        → is_set_aside script form.name ≡ false → entry_named earlier form.name ≡ None
        → declared_named script.entries form.name ≡ None → is_taken (names_of script) form.name ≡ true
        → item_by script earlier form ≡ Err NotFresh }
    ensures element { (script : Signature) (earlier : List Entry) (form : ItemForm)
        → is_set_aside script form.name ≡ false → entry_named earlier form.name ≡ None
        → is_element_name script form.name ≡ true → item_by script earlier form ≡ Err NotFresh }
    ensures parameters { (script : Signature) (earlier : List Entry) (form : ItemForm) (e : Entry) (flaw : TermFlaw)
        → is_set_aside script form.name ≡ false → entry_named earlier form.name ≡ None
        → is_element_name script form.name ≡ false → declared_named script.entries form.name ≡ Some e
        → parameters_named (sort_names_of script) [] form.parameters ≡ Err flaw
        → item_by script earlier form ≡ Err flaw }
    ensures sort { (script : Signature) (earlier : List Entry) (form : ItemForm) (e : Entry)
        (parameters : List (List ℕ × Sort)) (flaw : TermFlaw)
        → is_set_aside script form.name ≡ false → entry_named earlier form.name ≡ None
        → is_element_name script form.name ≡ false → declared_named script.entries form.name ≡ Some e
        → parameters_named (sort_names_of script) [] form.parameters ≡ Ok parameters
        → sort_named (sort_names_of script) form.sort ≡ Err flaw
        → item_by script earlier form ≡ Err flaw }
    ensures rank { (script : Signature) (earlier : List Entry) (form : ItemForm) (e : Entry)
        (parameters : List (List ℕ × Sort)) (sort : Sort)
        → is_set_aside script form.name ≡ false → entry_named earlier form.name ≡ None
        → is_element_name script form.name ≡ false → declared_named script.entries form.name ≡ Some e
        → parameters_named (sort_names_of script) [] form.parameters ≡ Ok parameters
        → sort_named (sort_names_of script) form.sort ≡ Ok sort
        → has_rank_of (Some e) (map (λ p. p.1) parameters) sort ≡ false
        → item_by script earlier form ≡ Err IllSorted }
{}
