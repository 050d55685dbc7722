//! Laws of the models of a check: what ends them, which they are, and which claim is reported. Nothing here does
//! anything: each contract is a law.

ghost use Rattle.std.specs.List.{All};
ghost use Rattle.std.specs.Prelude.{◌≡◌, ◌↔◌, ◌+◌, ◌++◌, ◌∷◌, ℕ, List, [], Bool, true, false, Option, Some, None};
ghost use Rattle.std.specs.Prelude.{length};
ghost use Rattle.smt_trees.specs.Sexp.{Items, Sexp, Sexps};
ghost use Rattle.smt_script.specs.Command.{CheckSat, CheckSatAssuming, Command, GetModel, closes_window};
ghost use Rattle.smt_script.specs.Command.{is_check};
ghost use Rattle.smt_report.specs.declared.claim.Claim.{Claim};
ghost use Rattle.smt_dialogue.specs.Answers.{is_refusal};
ghost use Rattle.smt_dialogue.specs.Judgement.{Claimed, first_claim};
ghost use Rattle.smt_dialogue.specs.Pairs.{Pair, pair_of};
ghost use Rattle.smt_dialogue.specs.Window.{Printed, asks_model, closes, models_from};
ghost use Rattle.smt_script.specs.Command.{kind_of};

/// The models of a check end at the next check, whatever its answer, and at a command that changes what is in force
/// and was not refused. They end at no other command.
pub fn windows_end_at_checks_and_changes()
    ensures checks { (literals : Sexps) (answer : Option Sexp) → (closes (pair_of CheckSat answer) ≡ true)
        × (closes (pair_of (CheckSatAssuming literals) answer) ≡ true) }
    ensures silent { (command : Command) → closes_window command ≡ true → closes (pair_of command None) ≡ true }
    ensures answered { (command : Command) (answer : Sexp) → closes_window command ≡ true
        → is_refusal answer ≡ false → closes (pair_of command (Some answer)) ≡ true }
    ensures refused { (command : Command) (answer : Sexp) → is_check command ≡ false
        → is_refusal answer ≡ true → closes (pair_of command (Some answer)) ≡ false }
    ensures others { (command : Command) (answer : Option Sexp) → is_check command ≡ false
        → closes_window command ≡ false → closes (pair_of command answer) ≡ false }
{}

/// The models of pairs are those of the first pairs and then those of the others. The model of a single pair is the
/// list that answered its `get-model`, unless that list is an error.
pub fn models_are_the_lists_that_were_asked_for()
    ensures joined { (n : ℕ) (xs ys : List Pair)
        → models_from n (xs ++ ys) ≡ models_from n xs ++ models_from (n + length xs) ys }
    ensures none { (n : ℕ) → models_from n [] ≡ [] }
    ensures model { (n : ℕ) (parts : Sexps) → is_refusal (Items parts) ≡ false
        → models_from n (pair_of GetModel (Some (Items parts)) ∷ [])
        ≡ record { command = n; parts = parts } ∷ [] }
    ensures refused { (n : ℕ) (command : Command) (answer : Sexp) → is_refusal answer ≡ true
        → models_from n (pair_of command (Some answer) ∷ []) ≡ [] }
    ensures others { (n : ℕ) (command : Command) (answer : Option Sexp) → asks_model (kind_of command) ≡ false
        → models_from n (pair_of command answer ∷ []) ≡ [] }
{}

/// A claim is the first that passes a test exactly where it passes and no claim before it passes. There is no first
/// claim exactly where none passes.
pub fn first_claims_have_none_before()
    ensures found { (test : Sexp → Bool) (claims : List Claimed) (claim : Claim)
        → (first_claim test claims ≡ Some claim)
        ↔ ((before after : List Claimed) × (c : Claimed) × (claims ≡ before ++ c ∷ after) × (c.claim ≡ claim)
        × (test c.term ≡ true) × All (λ d. test d.term ≡ false) before) }
    ensures none { (test : Sexp → Bool) (claims : List Claimed)
        → (first_claim test claims ≡ None) ↔ All (λ d. test d.term ≡ false) claims }
{}
