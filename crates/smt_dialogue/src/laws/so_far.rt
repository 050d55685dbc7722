//! Laws of the lines of two texts so far, of which more may come. Each law is a theorem about definitions, stated as
//! the contract of a function without effect; a call in its body is of a law that its proof uses.

ghost use Rattle.std.specs.Prelude.{◌≡◌, ◌++◌, ◌∷◌, ℕ, List, Bool, Some, true};
ghost use Rattle.smt_trees.specs.Sexp.{Sexp};
ghost use Rattle.smt_script.specs.Command.{is_check};
ghost use Rattle.smt_dialogue.specs.FirstFault.{TextSoFar};
ghost use Rattle.smt_dialogue.specs.InForce.{signature_after};
ghost use Rattle.smt_dialogue.specs.Judgement.{judgement_of};
ghost use Rattle.smt_dialogue.specs.Lines.{claims_of_check, unchecked_answer};
ghost use Rattle.smt_dialogue.specs.Pairs.{Pair};
ghost use Rattle.smt_dialogue.specs.Report.{IsReport};
ghost use Rattle.smt_dialogue.specs.SoFar.{AreGrown, AreLinesSoFar, IsBeginning, IsGrown, IsSoFar};
ghost use Rattle.smt_dialogue.specs.Validity.{IsSatCheck};
ghost use Rattle.smt_dialogue.specs.VerdictLaws.{HasItsLine, IsModelIn, IsWaitingWith};
ghost use Rattle.smt_dialogue.specs.Window.{Printed, closes};
ghost use Rattle.smt_dialogue.specs.declared.judgement.Judgement.TheVariants.{Confirmed};
ghost use Rattle.smt_dialogue.specs.declared.options.Options.{Options};
ghost use Rattle.smt_report.specs.declared.line.CheckAnswer.{CheckAnswer};
ghost use Rattle.smt_report.specs.declared.line.Line.{Line};

use smt_text::laws::{every_text_reads, one_reading, read_faults_stay, read_trees_stay};

/// Two texts so far, with their ends reported or not, have exactly one list of lines.
pub fn lines_so_far_are_one_answer()
    ensures some { (options : Options) (script_told answers_told : Bool) (script answers : List ℕ)
        → (ls : List Line) × IsSoFar options script_told script answers_told answers ls }
    ensures one { (options : Options) (script_told answers_told : Bool) (script answers : List ℕ)
        (ls ms : List Line) → IsSoFar options script_told script answers_told answers ls
        → IsSoFar options script_told script answers_told answers ms → ls ≡ ms }
{
    every_text_reads();
    one_reading();
}

/// Where both ends are reported, the lines so far are the report.
pub fn told_lines_are_the_report()
    ensures report { (options : Options) (script answers : List ℕ) (ls : List Line)
        → IsSoFar options true script true answers ls → IsReport options script answers ls }
    ensures so_far { (options : Options) (script answers : List ℕ) (ls : List Line)
        → IsReport options script answers ls → IsSoFar options true script true answers ls }
{}

/// Decided lines stay, in their order, whatever trees, ends and faults come.
pub fn decided_lines_stay()
    ensures { (options : Options) (script answers grown_script grown_answers : TextSoFar)
        (ls ms : List Line) → IsGrown script grown_script → IsGrown answers grown_answers
        → AreLinesSoFar options script answers ls
        → AreLinesSoFar options grown_script grown_answers ms
        → IsBeginning ls ms }
{}

/// The lines so far of two texts of bytes stay, in their order: they are the first lines so far of any two texts that
/// continue these.
pub fn lines_so_far_stay()
    ensures { (options : Options) (script_told answers_told grown_script_told grown_answers_told :
        Bool)
        (script answers grown_script grown_answers : List ℕ) (ls ms : List Line)
        → AreGrown script_told script grown_script_told grown_script
        → AreGrown answers_told answers grown_answers_told grown_answers
        → IsSoFar options script_told script answers_told answers ls
        → IsSoFar options grown_script_told grown_script grown_answers_told grown_answers ms
        → IsBeginning ls ms }
{
    one_reading();
    read_faults_stay();
    read_trees_stay();
    decided_lines_stay();
}

/// Where a dialogue waits, each decided check has its line among the lines so far. These checks are decided: one with
/// an answer other than `sat`, a `sat` with a model that is not confirmed, and a `sat` whose window has ended or is
/// closed where the dialogue waits.
pub fn decided_checks_have_their_lines()
    ensures answered { (options : Options) (script answers : TextSoFar) (before after : List Pair)
        (check : Pair) (closed : Bool) (ls : List Line) (answer : Sexp) (other : CheckAnswer)
        → IsWaitingWith options script answers before check after closed ls
        → is_check check.command ≡ true → check.answer ≡ Some answer → unchecked_answer answer ≡ Some other
        → HasItsLine before ls }
    ensures unconfirmed { (options : Options) (script answers : TextSoFar) (before after : List Pair)
        (check : Pair) (closed : Bool) (ls : List Line) (model : Printed)
        → IsWaitingWith options script answers before check after closed ls
        → IsSatCheck check → IsModelIn before after model
        → (judgement_of options.limit.steps (signature_after options.profile before)
        (claims_of_check options.profile before check.command) model.parts ≡ Confirmed → ⊥)
        → HasItsLine before ls }
    ensures ended { (options : Options) (script answers : TextSoFar) (before first last : List Pair)
        (check next : Pair) (closed : Bool) (ls : List Line)
        → IsWaitingWith options script answers before check (first ++ next ∷ last) closed ls
        → IsSatCheck check → closes next ≡ true → HasItsLine before ls }
    ensures closed { (options : Options) (script answers : TextSoFar) (before after : List Pair)
        (check : Pair) (ls : List Line)
        → IsWaitingWith options script answers before check after true ls
        → IsSatCheck check → HasItsLine before ls }
{}
