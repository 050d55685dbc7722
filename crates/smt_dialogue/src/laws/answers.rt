//! Laws of answers: which command accepts which, and which say that their command took no effect. Nothing here
//! does anything: each contract is a law.

ghost use Rattle.std.specs.Prelude.{◌≡◌, ◌≢◌, ◌⊎◌, ◌↔◌, ℕ, List, [], ◌∷◌, Bool, true, false, codes, map};
ghost use Rattle.std.specs.Prelude.{Option, None, Some};
ghost use Rattle.smt_trees.specs.Sexp.{Atom, Cons, Items, Nil, Sexp, Sexps, Symbol, Text};
ghost use Rattle.smt_theory.specs.Theories.{theories_named};
ghost use Rattle.smt_theory.specs.declared.profile.Profile.{Profile};
ghost use Rattle.smt_theory.specs.declared.profile.Profile.TheVariants.{Base, Wide};
ghost use Rattle.smt_theory.specs.declared.theories.Theories.{Theories};
ghost use Rattle.smt_script.specs.Command.{SetLogic};
ghost use Rattle.smt_script.specs.declared.command.Kind.TheVariants as kinds;
ghost use Rattle.smt_dialogue.specs.Answers.{Takes, has_form, is_refusal, need_of, need_of_kind, taken};
ghost use Rattle.smt_dialogue.specs.declared.need.AnswerForm.TheVariants as forms;
ghost use Rattle.smt_dialogue.specs.declared.need.Need.TheVariants.{Nothing, Optional, Needed};

/// An answer says that its command took no effect exactly where it is the symbol `unsupported`, or a list of the
/// symbol `error` and a string (SMT-LIB 2.6, section 3.9.1).
pub fn refusals_are_unsupported_or_errors()
    ensures { (answer : Sexp) → (is_refusal answer ≡ true) ↔ ((answer ≡ Atom Symbol (codes "unsupported"))
        ⊎ ((message : List ℕ) × (answer
        ≡ Items (Cons (Atom Symbol (codes "error")) (Cons (Atom Text message) Nil))))) }
{}

/// Which forms an answer has (SMT-LIB 2.6, section 3.9.1), from the answer's side: in this order the forms are
/// `General`, `Success`, `Unsupported`, `Check`, `Model`, `Echo` and `Other`.
pub fn answers_have_their_forms()
    ensures success { map (λ f. has_form f (Atom Symbol (codes "success")))
        (forms.General ∷ forms.Success ∷ forms.Unsupported ∷ forms.Check ∷ forms.Model ∷ forms.Echo
        ∷ forms.Other ∷ []) ≡ true ∷ true ∷ false ∷ false ∷ false ∷ false ∷ false ∷ [] }
    ensures unsupported { map (λ f. has_form f (Atom Symbol (codes "unsupported")))
        (forms.General ∷ forms.Success ∷ forms.Unsupported ∷ forms.Check ∷ forms.Model ∷ forms.Echo
        ∷ forms.Other ∷ []) ≡ true ∷ false ∷ true ∷ true ∷ true ∷ true ∷ true ∷ [] }
    ensures error { (message : List ℕ)
        → map (λ f. has_form f (Items (Cons (Atom Symbol (codes "error")) (Cons (Atom Text message) Nil))))
        (forms.General ∷ forms.Success ∷ forms.Unsupported ∷ forms.Check ∷ forms.Model ∷ forms.Echo
        ∷ forms.Other ∷ []) ≡ true ∷ false ∷ false ∷ true ∷ true ∷ true ∷ true ∷ [] }
    ensures sat { map (λ f. has_form f (Atom Symbol (codes "sat")))
        (forms.General ∷ forms.Success ∷ forms.Unsupported ∷ forms.Check ∷ forms.Model ∷ forms.Echo
        ∷ forms.Other ∷ []) ≡ false ∷ false ∷ false ∷ true ∷ false ∷ false ∷ true ∷ [] }
    ensures unsat { map (λ f. has_form f (Atom Symbol (codes "unsat")))
        (forms.General ∷ forms.Success ∷ forms.Unsupported ∷ forms.Check ∷ forms.Model ∷ forms.Echo
        ∷ forms.Other ∷ []) ≡ false ∷ false ∷ false ∷ true ∷ false ∷ false ∷ true ∷ [] }
    ensures unknown { map (λ f. has_form f (Atom Symbol (codes "unknown")))
        (forms.General ∷ forms.Success ∷ forms.Unsupported ∷ forms.Check ∷ forms.Model ∷ forms.Echo
        ∷ forms.Other ∷ []) ≡ false ∷ false ∷ false ∷ true ∷ false ∷ false ∷ true ∷ [] }
    ensures text { (bytes : List ℕ) → map (λ f. has_form f (Atom Text bytes))
        (forms.General ∷ forms.Success ∷ forms.Unsupported ∷ forms.Check ∷ forms.Model ∷ forms.Echo
        ∷ forms.Other ∷ []) ≡ false ∷ false ∷ false ∷ false ∷ false ∷ true ∷ true ∷ [] }
    ensures list { (parts : Sexps) → map (λ f. has_form f (Items parts)) (forms.Model ∷ forms.Other ∷ [])
        ≡ true ∷ true ∷ [] }
{}

/// The answers of each form are these and no others (SMT-LIB 2.6, section 3.9.1); the last clause is of every form
/// that is left, `Other`.
pub fn answers_of_each_form_are_these()
    ensures general { (answer : Sexp) → (has_form forms.General answer ≡ true)
        ↔ ((answer ≡ Atom Symbol (codes "success")) ⊎ (answer ≡ Atom Symbol (codes "unsupported"))
        ⊎ ((message : List ℕ) × (answer
        ≡ Items (Cons (Atom Symbol (codes "error")) (Cons (Atom Text message) Nil))))) }
    ensures success { (answer : Sexp) → (has_form forms.Success answer ≡ true)
        ↔ (answer ≡ Atom Symbol (codes "success")) }
    ensures unsupported { (answer : Sexp) → (has_form forms.Unsupported answer ≡ true)
        ↔ (answer ≡ Atom Symbol (codes "unsupported")) }
    ensures check { (answer : Sexp) → (has_form forms.Check answer ≡ true)
        ↔ ((answer ≡ Atom Symbol (codes "sat")) ⊎ (answer ≡ Atom Symbol (codes "unsat"))
        ⊎ (answer ≡ Atom Symbol (codes "unknown")) ⊎ (answer ≡ Atom Symbol (codes "unsupported"))
        ⊎ ((message : List ℕ) × (answer
        ≡ Items (Cons (Atom Symbol (codes "error")) (Cons (Atom Text message) Nil))))) }
    ensures model { (answer : Sexp) → (has_form forms.Model answer ≡ true)
        ↔ (((parts : Sexps) × (answer ≡ Items parts)) ⊎ (answer ≡ Atom Symbol (codes "unsupported"))) }
    ensures echo { (answer : Sexp) → (has_form forms.Echo answer ≡ true)
        ↔ (((text : List ℕ) × (answer ≡ Atom Text text)) ⊎ (answer ≡ Atom Symbol (codes "unsupported"))
        ⊎ ((message : List ℕ) × (answer
        ≡ Items (Cons (Atom Symbol (codes "error")) (Cons (Atom Text message) Nil))))) }
    ensures other { (answer : Sexp) → (has_form forms.Other answer ≡ true)
        ↔ (answer ≢ Atom Symbol (codes "success")) }
{}

/// What a command of each kind needs of the answers where `success` is printed, and where it is not. The kinds are,
/// in this order, `check-sat`, `get-model`, `echo`, other queries, `exit`, the option set to true and to false, other
/// settings, a logic that the profile Wide knows, one that it does not know, changes and `reset`. Only of a logic
/// that it does not know a solver may say so in the profile Wide.
pub fn needs_go_by_the_kind()
    ensures printed { (profile : Profile) → map (need_of_kind profile true)
        (kinds.Check ∷ kinds.Model ∷ kinds.Echo ∷ kinds.Query ∷ kinds.Exit ∷ kinds.PrintSuccess true
        ∷ kinds.PrintSuccess false ∷ kinds.Setting ∷ kinds.Logic true ∷ kinds.Logic false ∷ kinds.Change
        ∷ kinds.Reset ∷ [])
        ≡ Needed forms.Check ∷ Needed forms.Model ∷ Needed forms.Echo ∷ Needed forms.Other
        ∷ Optional forms.Success ∷ Needed forms.General ∷ Optional forms.General ∷ Needed forms.General
        ∷ Needed forms.General ∷ Needed forms.General ∷ Needed forms.General ∷ Needed forms.General ∷ [] }
    ensures silent { map (need_of_kind Base false)
        (kinds.Check ∷ kinds.Model ∷ kinds.Echo ∷ kinds.Query ∷ kinds.Exit ∷ kinds.PrintSuccess true
        ∷ kinds.PrintSuccess false ∷ kinds.Setting ∷ kinds.Logic true ∷ kinds.Logic false ∷ kinds.Change
        ∷ kinds.Reset ∷ [])
        ≡ Needed forms.Check ∷ Needed forms.Model ∷ Needed forms.Echo ∷ Needed forms.Other
        ∷ Optional forms.Success ∷ Needed forms.General ∷ Optional forms.General
        ∷ Optional forms.Unsupported ∷ Nothing ∷ Nothing ∷ Nothing ∷ Nothing ∷ [] }
    ensures silent_wide { map (need_of_kind Wide false)
        (kinds.Check ∷ kinds.Model ∷ kinds.Echo ∷ kinds.Query ∷ kinds.Exit ∷ kinds.PrintSuccess true
        ∷ kinds.PrintSuccess false ∷ kinds.Setting ∷ kinds.Logic true ∷ kinds.Logic false ∷ kinds.Change
        ∷ kinds.Reset ∷ [])
        ≡ Needed forms.Check ∷ Needed forms.Model ∷ Needed forms.Echo ∷ Needed forms.Other
        ∷ Optional forms.Success ∷ Needed forms.General ∷ Optional forms.General
        ∷ Optional forms.Unsupported ∷ Nothing ∷ Optional forms.Unsupported ∷ Nothing ∷ Nothing ∷ [] }
{}

/// Where `success` is not printed, a `set-logic` takes the answer `unsupported` exactly where the profile is Wide
/// and has no logic of that name. Any other next answer, and in the profile Base every one, is left to the commands
/// after it.
pub fn unknown_logics_alone_are_refused()
    ensures unknown { (told : Bool) (name : List ℕ)
        → (taken told (need_of Wide false (SetLogic name)) (Some (Atom Symbol (codes "unsupported")))
        ≡ Takes (Some (Atom Symbol (codes "unsupported")))) ↔ (theories_named Wide name ≡ None) }
    ensures known { (told : Bool) (name : List ℕ) (theories : Theories) (next : Option Sexp)
        → theories_named Wide name ≡ Some theories
        → taken told (need_of Wide false (SetLogic name)) next ≡ Takes None }
    ensures others { (told : Bool) (name : List ℕ) (answer : Sexp)
        → answer ≢ Atom Symbol (codes "unsupported")
        → taken told (need_of Wide false (SetLogic name)) (Some answer) ≡ Takes None }
    ensures base { (told : Bool) (name : List ℕ) (next : Option Sexp)
        → taken told (need_of Base false (SetLogic name)) next ≡ Takes None }
{}
