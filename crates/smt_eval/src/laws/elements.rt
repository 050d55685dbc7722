//! Laws of the elements of declared sorts: what their names denote. Nothing here does anything.

ghost use Rattle.std.specs.Prelude.{◌≡◌, ◌≢◌, ◌↔◌, ℕ, List, Option, Some, All, true, false, codes, map};
ghost use Rattle.smt_trees.specs.Sexp.{Atom, Cons, Items, Nil, Reserved, Sexp, Symbol};
ghost use Rattle.smt_trees.specs.declared.reserved.Word.TheVariants.{As};
ghost use Rattle.smt_values.specs.Element.{Abstract};
ghost use Rattle.smt_arrays.specs.Element.{Element, Plain};
ghost use Rattle.smt_arrays.specs.Operations.{truth};
ghost use Rattle.smt_values.specs.Operations.{DivisionByZero};
ghost use Rattle.smt_forms.specs.ElementNames.{sort_of_element};
ghost use Rattle.smt_terms.specs.Signature.{Entry, Signature};
ghost use Rattle.smt_eval.specs.Known.{known_in, known_of};
ghost use Rattle.smt_eval.specs.Meaning.{value_over};
ghost use Rattle.smt_eval.specs.NamedElements.{IsNoOther, NamesElement, equation};

/// Two names are two elements. A symbol behind an `as`, and a symbol alone that is no variable, no definition and no
/// operator, is the element of its name, whatever the structure. So two such terms have one value exactly where
/// their names are the same, and `=` of them is true exactly then and else false (SMT-LIB 2.6, section 3.6).
pub fn two_names_are_two_elements()
    ensures qualified { (z : DivisionByZero) (definitions : Signature) (r : List (List ℕ × Element))
        (x : List ℕ) (sort : Sexp)
        → value_over z definitions r (Items (Cons (Reserved As) (Cons (Atom Symbol x) (Cons sort Nil))))
        ≡ Plain (Abstract x) }
    ensures alone { (z : DivisionByZero) (definitions : Signature) (r : List (List ℕ × Element)) (x : List ℕ)
        → IsNoOther definitions (map (λ v. v.0) r) x
        → value_over z definitions r (Atom Symbol x) ≡ Plain (Abstract x) }
    ensures apart { (z : DivisionByZero) (definitions : Signature) (r : List (List ℕ × Element)) (s t : Sexp)
        (x y : List ℕ) → NamesElement definitions (map (λ v. v.0) r) s x
        → NamesElement definitions (map (λ v. v.0) r) t y
        → (value_over z definitions r s ≡ value_over z definitions r t) ↔ (x ≡ y) }
    ensures compared { (z : DivisionByZero) (definitions : Signature) (r : List (List ℕ × Element)) (s t : Sexp)
        (x y : List ℕ) → NamesElement definitions (map (λ v. v.0) r) s x
        → NamesElement definitions (map (λ v. v.0) r) t y
        → All (λ (e : Entry). e.name ≢ codes "=") definitions.entries
        → ((value_over z definitions r (equation s t) ≡ truth true) ↔ (x ≡ y))
        × ((value_over z definitions r (equation s t) ≡ truth false) ↔ (x ≢ y)) }
{}

/// What is known of two names keeps them apart in the same way. Of a name behind an `as` it is known which element it
/// is, and of a name alone where it has the form of an element's name.
pub fn known_names_are_two_elements()
    ensures name { (definitions : Signature) (known : List (List ℕ × Option Element)) (s : Sexp) (x : List ℕ)
        (e : Element) → NamesElement definitions (map (λ v. v.0) known) s x
        → known_of (known_in definitions) known s ≡ Some e → e ≡ Plain (Abstract x) }
    ensures qualified { (definitions : Signature) (known : List (List ℕ × Option Element)) (x : List ℕ)
        (sort : Sexp) → known_of (known_in definitions) known
        (Items (Cons (Reserved As) (Cons (Atom Symbol x) (Cons sort Nil)))) ≡ Some (Plain (Abstract x)) }
    ensures alone { (definitions : Signature) (known : List (List ℕ × Option Element)) (x sort : List ℕ)
        → IsNoOther definitions (map (λ v. v.0) known) x → sort_of_element x ≡ Some sort
        → known_of (known_in definitions) known (Atom Symbol x) ≡ Some (Plain (Abstract x)) }
    ensures apart { (definitions : Signature) (known : List (List ℕ × Option Element)) (s t : Sexp)
        (x y : List ℕ) (d e : Element) → NamesElement definitions (map (λ v. v.0) known) s x
        → NamesElement definitions (map (λ v. v.0) known) t y
        → known_of (known_in definitions) known s ≡ Some d → known_of (known_in definitions) known t ≡ Some e
        → (d ≡ e) ↔ (x ≡ y) }
    ensures compared { (definitions : Signature) (known : List (List ℕ × Option Element)) (s t : Sexp)
        (x y : List ℕ) (d e : Element) → NamesElement definitions (map (λ v. v.0) known) s x
        → NamesElement definitions (map (λ v. v.0) known) t y
        → known_of (known_in definitions) known s ≡ Some d → known_of (known_in definitions) known t ≡ Some e
        → All (λ (e : Entry). e.name ≢ codes "=") definitions.entries
        → ((known_of (known_in definitions) known (equation s t) ≡ Some (truth true)) ↔ (x ≡ y))
        × ((known_of (known_in definitions) known (equation s t) ≡ Some (truth false)) ↔ (x ≢ y)) }
{}
