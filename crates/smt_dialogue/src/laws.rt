//! What holds of the definitions of a dialogue. Nothing here does anything: each contract is a law, and each
//! call is of a law that it rests on.

pub mod answers;
pub mod so_far;
pub mod windows;

ghost use Rattle.std.specs.Prelude.{◌≡◌, ◌≤◌, ◌<◌, ℕ, ◌+◌, List, [], ◌∷◌, ◌++◌, length, true, false, ◌&&◌};
ghost use Rattle.std.specs.Prelude.{Option, Ok, Err};
ghost use Rattle.smt_text.specs.Grammar.{Forest};
ghost use Rattle.smt_trees.specs.Sexp.{Sexp, Sexps, Nil};
ghost use Rattle.smt_theory.specs.Sort.{Boolean};
ghost use Rattle.smt_arrays.specs.Operations.{truth};
ghost use Rattle.smt_values.specs.Operations.{DivisionByZero};
ghost use Rattle.smt_terms.specs.Checking.{sort_in};
ghost use Rattle.smt_terms.specs.Signature.{Signature, in_assertion, names_of};
ghost use Rattle.smt_eval.specs.CompleteModel.{IsModelOf};
ghost use Rattle.smt_eval.specs.Meaning.{value_over};
ghost use Rattle.smt_eval.specs.Model.{model_in};
ghost use Rattle.smt_eval.specs.Structure.{IsStructure, structure_of};
ghost use Rattle.smt_eval.specs.declared.model_fault.ModelFlaw.{ModelFlaw};
ghost use Rattle.smt_script.specs.Command.{Assert};
ghost use Rattle.smt_script.specs.Stack.{Assertion as Asserted, is_reset, literals_of};
ghost use Rattle.smt_dialogue.specs.InForce.{assertions_after, assumptions_after, levels_after, signature_after};
ghost use Rattle.smt_script.specs.Command.{is_check};
ghost use Rattle.smt_dialogue.specs.InForce.{start_by};
ghost use Rattle.smt_script.specs.declared.stack.Start.{Start};
ghost use Rattle.smt_theory.specs.declared.profile.Profile.{Profile};
ghost use Rattle.smt_dialogue.specs.Judgement.{Claimed, claims_cost, judgement_of};
ghost use Rattle.smt_dialogue.specs.Pairing.{IsPairing};
ghost use Rattle.smt_dialogue.specs.Pairs.{Pair, checks_in, is_effective};
ghost use Rattle.smt_dialogue.specs.FirstFault.{Ends, IsRest, TextSoFar, Turn};
ghost use Rattle.smt_dialogue.specs.Depth.{max_depth_of};
ghost use Rattle.smt_dialogue.specs.Report.{IsReport, IsTurn};
ghost use Rattle.smt_dialogue.specs.Validity.{IsAsserted, IsAssumed, IsClaimed, IsFullyPaired, IsInvalid, IsValid};
ghost use Rattle.smt_dialogue.specs.Validity.{names_of_claim};
ghost use Rattle.smt_dialogue.specs.VerdictLaws.{IsModelIn, IsSatOf};
ghost use Rattle.smt_dialogue.specs.Window.{Printed, closes, models_from, structure_at, window};
ghost use Rattle.smt_dialogue.specs.declared.judgement.Judgement.TheVariants.{TooLong};
ghost use Rattle.smt_dialogue.specs.declared.options.Options.{Options};
ghost use Rattle.smt_report.specs.declared.claim.Claim.{Claim};
ghost use Rattle.smt_report.specs.declared.line.Line.{Line};
ghost use Rattle.smt_report.specs.declared.line.Line.TheVariants.{Refuted};

use smt_script::laws::assertions_in_force_stand;
use smt_text::laws::{every_text_reads, one_forest, one_reading};

/// So many commands have at most one pairing with the answers, and it leaves the same trees of both texts.
pub fn one_pairing()
    ensures { (start : Start) (xs ys : List Pair) (trees answers later later' rest rest' : Sexps)
        → length xs ≡ length ys → IsPairing start xs trees later answers rest
        → IsPairing start ys trees later' answers rest'
        → (xs ≡ ys) × (later ≡ later') × (rest ≡ rest') }
{}

/// A dialogue so far, whether the ends of its texts were reported or not, is at rest after some pairs, and after no
/// others: it waits there, or has ended. Where both ends were reported it has ended.
pub fn one_rest()
    ensures some { (start : Start) (script answers : TextSoFar)
        → (pairs : List Pair) × (turn : Turn) × IsRest turn
        × IsTurn start script answers pairs turn }
    ensures one { (start : Start) (script answers : TextSoFar) (xs ys : List Pair) (f g : Turn)
        → IsRest f
        → IsRest g
        → IsTurn start script answers xs f → IsTurn start script answers ys g
        → (xs ≡ ys) × (f ≡ g) }
    ensures ended { (start : Start) (script answers : TextSoFar) (pairs : List Pair) (turn : Turn)
        → script.told ≡ true → answers.told ≡ true
        → IsRest turn → IsTurn start script answers pairs turn
        → (fault : Option Line) × (turn ≡ Ends fault) }
{}

/// A dialogue has at most one report.
pub fn one_report()
    ensures { (options : Options) (script answers : List ℕ) (ls ms : List Line)
        → IsReport options script answers ls → IsReport options script answers ms → ls ≡ ms }
{
    one_reading();
}

/// Every script and answers have a report.
pub fn every_dialogue_has_a_report()
    ensures { (options : Options) (script answers : List ℕ)
        → (ls : List Line) × IsReport options script answers ls }
{
    every_text_reads();
}

/// A dialogue that is valid is fully paired: both texts are trees, every command has its answer or needs
/// none, and no answer is left over.
pub fn valid_is_paired()
    ensures { (options : Options) (script answers : List ℕ) → IsValid options script answers
        → (pairs : List Pair) × IsFullyPaired options script answers pairs }
{}

/// A dialogue that is fully paired has no other pairing of all its commands, whatever answers that might
/// leave.
pub fn no_second_pairing()
    ensures { (options : Options) (script answers : List ℕ) (pairs others : List Pair)
        (trees answered rest : Sexps)
        → IsFullyPaired options script answers pairs → Forest (max_depth_of options.profile) script trees
        → Forest (max_depth_of options.profile) answers answered
        → IsPairing (start_by options) others trees Nil answered rest
        → (others ≡ pairs) × (rest ≡ Nil) }
{
    one_forest();
}

/// A dialogue is not both valid and invalid.
pub fn valid_is_not_invalid()
    ensures { (options : Options) (script answers : List ℕ) (ls : List Line)
        → IsValid options script answers → IsInvalid options script answers ls → ⊥ }
{}

/// A dialogue with a check that was answered `sat` and has no model in its window is not valid.
pub fn sat_without_model_is_not_valid()
    ensures { (options : Options) (script answers : List ℕ) (before after : List Pair)
        (check : Pair)
        → IsSatOf options script answers before check after
        → models_from (length before + 2) (window after) ≡ []
        → IsValid options script answers → ⊥ }
{}

/// A dialogue in which a model of a check that was answered `sat` has a fault, in an item or by lacking a
/// name, is not valid.
pub fn faulty_model_is_not_valid()
    ensures { (options : Options) (script answers : List ℕ) (before after : List Pair)
        (check : Pair)
        (model : Printed) (flaw : ModelFlaw)
        → IsSatOf options script answers before check after → IsModelIn before after model
        → model_in (signature_after options.profile before) model.parts ≡ Err flaw → IsValid options script answers
        → ⊥ }
{}

/// A dialogue with an assertion that is in force at a check that was answered `sat`, and is no formula, is
/// not valid.
pub fn ill_sorted_assertion_is_not_valid()
    ensures { (options : Options) (script answers : List ℕ) (before after earlier : List Pair)
        (check : Pair)
        (term : Sexp)
        → IsSatOf options script answers before check after → IsAsserted before earlier term
        → (sort_in (in_assertion (names_of (signature_after options.profile earlier))) [] term ≡ Ok Boolean → ⊥)
        → IsValid options script answers → ⊥ }
{}

/// A dialogue with a check that was answered `sat`, of which an assumption is no formula, is not valid.
pub fn ill_sorted_assumption_is_not_valid()
    ensures { (options : Options) (script answers : List ℕ) (before after : List Pair)
        (check : Pair)
        (place : ℕ) (term : Sexp)
        → IsSatOf options script answers before check after → IsAssumed check place term
        → (sort_in (names_of (signature_after options.profile before)) [] term ≡ Ok Boolean → ⊥)
        → IsValid options script answers → ⊥ }
{}

/// In a valid dialogue the definitions of a model of a `sat` are those of a model of the names in force. Followed
/// by the script's own they are a structure: each well sorted over the earlier ones, and none twice.
pub fn definitions_of_valid_are_well_sorted()
    ensures { (options : Options) (script answers : List ℕ) (before after : List Pair)
        (check : Pair)
        (model : Printed) (definitions : Signature)
        → IsSatOf options script answers before check after → IsModelIn before after model
        → model_in (signature_after options.profile before) model.parts ≡ Ok definitions
        → IsValid options script answers
        → IsModelOf (signature_after options.profile before) model.parts definitions
        × IsStructure (structure_at options.profile definitions before) }
{}

/// A dialogue is not valid where a model of a check that was answered `sat` makes an assertion in force other than
/// true. One choice of what division by zero gives is enough.
pub fn untrue_assertion_is_not_valid()
    ensures { (options : Options) (script answers : List ℕ) (before after earlier : List Pair)
        (check : Pair)
        (model : Printed)
        (definitions : Signature) (term : Sexp) (z : DivisionByZero)
        → IsSatOf options script answers before check after → IsModelIn before after model
        → model_in (signature_after options.profile before) model.parts ≡ Ok definitions
        → IsAsserted before earlier term
        → (value_over z (structure_at options.profile definitions before) [] term ≡ truth true → ⊥)
        → IsValid options script answers → ⊥ }
{}

/// A dialogue is not valid where a model of a check that was answered `sat` makes an assumption of the check other
/// than true. One choice of what division by zero gives is enough.
pub fn untrue_assumption_is_not_valid()
    ensures { (options : Options) (script answers : List ℕ) (before after : List Pair)
        (check : Pair)
        (model : Printed)
        (definitions : Signature) (place : ℕ) (term : Sexp) (z : DivisionByZero)
        → IsSatOf options script answers before check after → IsModelIn before after model
        → model_in (signature_after options.profile before) model.parts ≡ Ok definitions
        → IsAssumed check place term
        → (value_over z (structure_at options.profile definitions before) [] term ≡ truth true → ⊥)
        → IsValid options script answers → ⊥ }
{}

/// An invalid dialogue has a check that was answered `sat`, with a complete model in its window. An assertion in
/// force or an assumption of the check, which is a formula, is false in the structure that this model gives,
/// whatever division by zero gives. The report has the line that names the three.
pub fn invalid_names_what_is_false()
    ensures { (options : Options) (script answers : List ℕ) (ls : List Line)
        → IsInvalid options script answers ls
        → (before : List Pair) × (check : Pair) × (after : List Pair) × (model : Printed)
        × (definitions : Signature) × (claim : Claim)
        × (earlier : List Pair) × (term : Sexp) × IsSatOf options script answers before check after
        × IsModelIn before after model
        × IsModelOf (signature_after options.profile before) model.parts definitions
        × IsStructure (structure_at options.profile definitions before)
        × IsClaimed before check claim earlier term
        × (sort_in (names_of_claim claim (names_of (signature_after options.profile earlier))) [] term ≡ Ok Boolean)
        × ((z : DivisionByZero) → value_over z (structure_at options.profile definitions before) [] term
        ≡ truth false)
        × (first : List Line) × (last : List Line)
        × (ls ≡ first ++ Refuted (checks_in before + 1)
        (length before + 1) model.command claim ∷ last) }
{}

/// A model is too long exactly where it is a model of the names in force, and its claims cost more than the limit.
/// So no model with a fault is too long.
pub fn too_long_models_cost_more_than_the_limit()
    ensures long { (steps : ℕ) (names : Signature) (claims : List Claimed) (parts : Sexps)
        → judgement_of steps names claims parts ≡ TooLong
        → (definitions : Signature) × (model_in names parts ≡ Ok definitions)
        × (steps < claims_cost (structure_of names definitions) claims) }
    ensures told { (steps : ℕ) (names : Signature) (claims : List Claimed) (parts : Sexps)
        (definitions : Signature) → model_in names parts ≡ Ok definitions
        → steps < claims_cost (structure_of names definitions) claims
        → judgement_of steps names claims parts ≡ TooLong }
{}

/// In the window of a check nothing that is in force changes, and neither do the assumptions of a check that took
/// effect. The window goes on to the first command that ends it.
pub fn nothing_changes_in_a_window()
    ensures unchanged { (profile : Profile) (before after first last : List Pair) (check : Pair)
        → is_check check.command ≡ true
        → window after ≡ first ++ last
        → (signature_after profile (before ++ check ∷ first) ≡ signature_after profile before)
        × (assertions_after profile (before ++ check ∷ first) ≡ assertions_after profile before) }
    ensures assumed { (before after first last : List Pair) (check : Pair)
        → is_check check.command ≡ true
        → is_effective check ≡ true → window after ≡ first ++ last
        → assumptions_after (before ++ check ∷ first) ≡ literals_of check.command }
    ensures ends { (pairs : List Pair) → (rest : List Pair) × (pairs ≡ window pairs ++ rest)
        × ((next : Pair) (later : List Pair) → rest ≡ next ∷ later → closes next ≡ true) }
{}

/// The assertions in force after pairs are those of pairs that took effect, and that no later pair removed. An
/// assertion is in force right after its own pair, and stays in force after a pair that removes nothing of its level
/// (SMT-LIB 2.6, section 4.1.4).
pub fn assertions_in_force_are_asserted()
    ensures found { (profile : Profile) (before : List Pair) (first last : List Asserted) (a : Asserted)
        → assertions_after profile before ≡ first ++ a ∷ last
        → (earlier : List Pair) × IsAsserted before earlier a.term
        × (a.command ≡ length earlier + 1) }
    ensures stand { (profile : Profile) (before earlier : List Pair) (term : Sexp) → IsAsserted before earlier term
        → (first : List Asserted) × (last : List Asserted)
        × (assertions_after profile before ≡ first ++ record { command = length earlier + 1; term = term } ∷
        last) }
    ensures here { (before : List Pair) (pair : Pair) (term : Sexp) → pair.command ≡ Assert term
        → is_effective pair ≡ true
        → IsAsserted (before ++ pair ∷ []) before term }
    ensures stays { (before earlier : List Pair) (pair : Pair) (term : Sexp)
        → (asserted : IsAsserted before earlier term)
        → is_effective pair && is_reset pair.command ≡ false
        → levels_after (earlier ++ asserted.pair ∷ []) ≤ levels_after (before ++ pair ∷ [])
        → IsAsserted (before ++ pair ∷ []) earlier term }
{
    assertions_in_force_stand();
}
