//! Laws of the values of terms: a `let` as substitution, and a call as a `let`. Nothing here does anything.

ghost use Rattle.std.specs.List.{zip};
ghost use Rattle.std.specs.Prelude.{◌≡◌, ◌≢◌, ℕ, List, [], ◌∷◌, All};
ghost use Rattle.smt_trees.specs.Sexp.{Atom, Cons, Items, Sexp, Sexps, Symbol};
ghost use Rattle.smt_theory.specs.Words.{look_up};
ghost use Rattle.smt_arrays.specs.Element.{Element};
ghost use Rattle.smt_values.specs.Operations.{DivisionByZero};
ghost use Rattle.smt_forms.specs.Identifier.{Plain};
ghost use Rattle.smt_forms.specs.Parts.{trees_of};
ghost use Rattle.smt_eval.specs.Substitution.{let_of, put_in};
ghost use Rattle.smt_terms.specs.Signature.{Defined, Entry, Signature, with_entry};
ghost use Rattle.smt_eval.specs.Meaning.{meaning_in, value_over, values_of};

/// A `let` whose terms' values depend on no variable has the value of its body with these terms in place of
/// the bound names, where no inner `let` hides them. The first two bindings may change places where their
/// names differ: neither term sees the other's name (SMT-LIB 2.6, sections 3.6.1 and 5.3).
pub fn lets_are_put_in_place()
    ensures closed { (z : DivisionByZero) (definitions : Signature) (r : List (List ℕ × Element))
        (bs : List (List ℕ × Sexp)) (body : Sexp)
        → All (λ (b : List ℕ × Sexp). (s : List (List ℕ × Element))
        → value_over z definitions s b.1 ≡ value_over z definitions [] b.1) bs
        → value_over z definitions r (let_of bs body) ≡ value_over z definitions r (put_in (look_up bs) body) }
    ensures parallel { (z : DivisionByZero) (definitions : Signature) (r : List (List ℕ × Element))
        (x y : List ℕ) (s t : Sexp) (bs : List (List ℕ × Sexp)) (body : Sexp) → x ≢ y
        → value_over z definitions r (let_of ((x, s) ∷ (y, t) ∷ bs) body)
        ≡ value_over z definitions r (let_of ((y, t) ∷ (x, s) ∷ bs) body) }
{}

/// A call of the last definition has the value of the `let` of its parameters over the definitions before it,
/// where these give its arguments the same values. A constant has the value of its body, and other names keep
/// their meanings (SMT-LIB 2.6, sections 4.2.3 and 5.3).
pub fn calls_are_lets()
    ensures call { (z : DivisionByZero) (s : Signature) (e : Entry) (ps : List (List ℕ)) (body first : Sexp)
        (rest : Sexps) → e.origin ≡ Defined ps body
        → values_of (meaning_in z (with_entry s e)) [] (Cons first rest)
        ≡ values_of (meaning_in z s) [] (Cons first rest)
        → value_over z (with_entry s e) [] (Items (Cons (Atom Symbol e.name) (Cons first rest)))
        ≡ value_over z s [] (let_of (zip ps (trees_of (Cons first rest))) body) }
    ensures constant { (z : DivisionByZero) (s : Signature) (e : Entry) (body : Sexp)
        → e.origin ≡ Defined [] body
        → value_over z (with_entry s e) [] (Atom Symbol e.name) ≡ value_over z s [] body }
    ensures others { (z : DivisionByZero) (s : Signature) (e : Entry) (f : List ℕ) (args : List Element)
        → f ≢ e.name → meaning_in z (with_entry s e) (Plain f) args ≡ meaning_in z s (Plain f) args }
{}
