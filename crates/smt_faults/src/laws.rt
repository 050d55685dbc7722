//! Laws of the definitions that the contracts name: the letters of a report, from the letters to the flaw.
//! Nothing here does anything: each contract is a law.

ghost use Rattle.std.specs.Prelude.{◌≡◌, ◌↔◌, ℕ, List, [], ◌∷◌, ◌++◌, All, codes};
ghost use Rattle.smt_faults.specs.Faults.{place_of};
ghost use Rattle.smt_faults.specs.FlawText.{text_of_command_flaw, text_of_flaw, text_of_term_flaw};
ghost use Rattle.smt_faults.specs.declared.command_flaw.CommandFlaw.{CommandFlaw};
ghost use Rattle.smt_faults.specs.declared.command_flaw.CommandFlaw.TheVariants as commands;
ghost use Rattle.smt_faults.specs.declared.term_flaw.TermFlaw.{TermFlaw};
ghost use Rattle.smt_faults.specs.declared.term_flaw.TermFlaw.TheVariants as terms;
ghost use Rattle.smt_faults.specs.declared.text_flaw.TextFlaw.{TextFlaw};
ghost use Rattle.smt_faults.specs.declared.text_flaw.TextFlaw.TheVariants as texts;

/// The one flaw that each pair of letters names. X is for texts, F for terms and models, and C for commands,
/// where C7 comes before the letters of a term's flaw.
pub fn letters_tell_the_flaw()
    ensures text { (flaw : TextFlaw) → ((text_of_flaw flaw ≡ codes "X1") ↔ (flaw ≡ texts.Byte (place_of flaw)))
        × ((text_of_flaw flaw ≡ codes "X2") ↔ (flaw ≡ texts.Deep (place_of flaw)))
        × ((text_of_flaw flaw ≡ codes "X3") ↔ (flaw ≡ texts.End (place_of flaw))) }
    ensures term { (flaw : TermFlaw) → All (λ (row : List ℕ × TermFlaw).
        (text_of_term_flaw flaw ≡ row.0) ↔ (flaw ≡ row.1))
        ((codes "F1", terms.Form) ∷ (codes "F2", terms.Unsupported) ∷ (codes "F3", terms.Unknown)
        ∷ (codes "F4", terms.IllSorted) ∷ (codes "F5", terms.Index) ∷ (codes "F6", terms.BoundTwice)
        ∷ (codes "F7", terms.NotFresh) ∷ (codes "F8", terms.Label) ∷ []) }
    ensures command { (flaw : CommandFlaw) → All (λ (row : List ℕ × CommandFlaw).
        (text_of_command_flaw flaw ≡ row.0) ↔ (flaw ≡ row.1))
        ((codes "C1", commands.Form) ∷ (codes "C2", commands.Unsupported) ∷ (codes "C3", commands.TooDeep)
        ∷ (codes "C4", commands.NoLevel) ∷ (codes "C5", commands.Logic)
        ∷ (codes "C6", commands.AfterExit) ∷ []) }
    ensures by_term { (flaw : CommandFlaw) (term : TermFlaw)
        → (text_of_command_flaw flaw ≡ codes "C7 " ++ text_of_term_flaw term) ↔ (flaw ≡ commands.Term term) }
{}
