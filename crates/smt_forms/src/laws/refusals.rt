//! Which of two faults of a form is reported: that it is not supported, or that it is ill formed. Nothing
//! here does anything.

ghost use Rattle.std.specs.Prelude.{◌≡◌, ◌↔◌, ◌⊎◌, Bool, List, [], ◌∷◌, Ok, Err, All, codes, false, true};
ghost use Rattle.smt_faults.specs.declared.term_flaw.TermFlaw.TheVariants.{Unsupported};
ghost use Rattle.smt_trees.specs.Sexp.{Sexp, Sexps, Atom, Cons, Items, Nil, Reserved, Symbol};
ghost use Rattle.smt_trees.specs.declared.reserved.Word.TheVariants as words;
ghost use Rattle.smt_forms.specs.Identifier.{Identifier, Qualified, applied, applied_in};
ghost use Rattle.smt_forms.specs.ItemForm.{item_form};

/// The word of a form decides whether it is reported as unsupported, for all words but `as` whatever follows it.
/// Unsupported are:
///
/// - a term that begins with `forall`, `exists`, `match` or `as`, or that applies an `as`, but for `((as const o) t)`
///   in the wide profile;
/// - an item that begins with `define-fun-rec` or `define-funs-rec`.
///
/// Every other list that is no term or no item has a wrong form.
pub fn unsupported_forms_are_told_by_their_words()
    ensures words { (args : Sexps) → All (λ w. applied (Reserved w) args ≡ Err Unsupported)
        (words.Forall ∷ words.Exists ∷ words.Match ∷ words.As ∷ []) }
    ensures applied_as { (parts args : Sexps)
        → applied_in false (Items (Cons (Reserved words.As) parts)) args ≡ Err Unsupported }
    ensures constants { (parts args : Sexps) (f : Identifier)
        → applied_in true (Items (Cons (Reserved words.As) parts)) args ≡ Ok f
        → (sort : Sexp) × (x : Sexp) × (f ≡ Qualified sort)
        × (parts ≡ Cons (Atom Symbol (codes "const")) (Cons sort Nil)) × (args ≡ Cons x Nil) }
    ensures terms { (wide : Bool) (head : Sexp) (args : Sexps) → applied_in wide head args ≡ Err Unsupported
        → ((head ≡ Reserved words.Forall) ⊎ (head ≡ Reserved words.Exists) ⊎ (head ≡ Reserved words.Match)
        ⊎ (head ≡ Reserved words.As))
        ⊎ ((parts : Sexps) × (head ≡ Items (Cons (Reserved words.As) parts))) }
    ensures items { (tree : Sexp) → (item_form tree ≡ Err Unsupported)
        ↔ ((rest : Sexps) × ((tree ≡ Items (Cons (Reserved words.DefineFunRec) rest))
        ⊎ (tree ≡ Items (Cons (Reserved words.DefineFunsRec) rest)))) }
{}
