//! Laws: theorems about the definitions that the contracts cite. They lead from the texts of a report to their
//! meaning. Each is the contract of an empty function.

ghost use Rattle.std.specs.List.{list_any};
ghost use Rattle.std.specs.Prelude.{◌≡◌, ◌↔◌, ℕ, List, [], ◌∷◌, All, codes, false, true};
ghost use Rattle.smt_faults.specs.declared.command_flaw.CommandFlaw.TheVariants as commands;
ghost use Rattle.smt_faults.specs.declared.term_flaw.TermFlaw.TheVariants as terms;
ghost use Rattle.smt_faults.specs.declared.text_flaw.TextFlaw.TheVariants as texts;
ghost use Rattle.smt_report.specs.LineText.{text_of, text_of_answer, text_of_side, text_of_verdict};
ghost use Rattle.smt_report.specs.Verdict.{exit_status_of, summary_of};
ghost use Rattle.smt_report.specs.Verdict as tests;
ghost use Rattle.smt_report.specs.declared.claim.Claim.TheVariants as claims;
ghost use Rattle.smt_report.specs.declared.line.CheckAnswer.{CheckAnswer};
ghost use Rattle.smt_report.specs.declared.line.CheckAnswer.TheVariants as answers;
ghost use Rattle.smt_report.specs.declared.line.Line.{Line};
ghost use Rattle.smt_report.specs.declared.line.Line.TheVariants as lines;
ghost use Rattle.smt_report.specs.declared.line.Side.{Side};
ghost use Rattle.smt_report.specs.declared.line.Side.TheVariants as sides;
ghost use Rattle.smt_report.specs.declared.verdict.Verdict.{Verdict};
ghost use Rattle.smt_report.specs.declared.verdict.Verdict.TheVariants as verdicts;

/// Each of these words names one answer, one text or one verdict in a report, and no other.
pub fn words_tell_what_they_name()
    ensures answer { (answer : CheckAnswer) → All (λ (row : List ℕ × CheckAnswer).
        (text_of_answer answer ≡ row.0) ↔ (answer ≡ row.1))
        ((codes "unsat", answers.Unsat) ∷ (codes "unknown", answers.Unknown)
        ∷ (codes "unsupported", answers.Unsupported) ∷ (codes "error", answers.Error) ∷ []) }
    ensures side { (side : Side) → All (λ (row : List ℕ × Side). (text_of_side side ≡ row.0) ↔ (side ≡ row.1))
        ((codes "script", sides.Script) ∷ (codes "answers", sides.Answers) ∷ []) }
    ensures verdict { (verdict : Verdict) → All (λ (row : List ℕ × Verdict).
        (text_of_verdict verdict ≡ row.0) ↔ (verdict ≡ row.1))
        ((codes "valid", verdicts.Valid) ∷ (codes "invalid", verdicts.Invalid)
        ∷ (codes "not decided", verdicts.NotDecided) ∷ (codes "refused", verdicts.Refused) ∷ []) }
{}

/// The texts of lines: at least one line of each kind, with numbers that differ.
#[tactic(auto, using(std::proofs::lemmas::Fmt::decimal_digit))]
pub fn lines_are_written_so()
    ensures unchecked { text_of (lines.Unchecked 1 4 answers.Unsat) ≡ codes "check 1 at command 4: unsat" }
    ensures confirmed { text_of (lines.Confirmed 1 4) ≡ codes "check 1 at command 4: sat, confirmed" }
    ensures no_model { text_of (lines.NoModel 1 4) ≡ codes "check 1 at command 4: sat, no model" }
    ensures item { text_of (lines.ItemFault 1 4 5 2 terms.IllSorted)
        ≡ codes "check 1 at command 4: sat, model of command 5: item 2 F4" }
    ensures lacks { text_of (lines.Lacks 1 4 5 2)
        ≡ codes "check 1 at command 4: sat, model of command 5: lacks the symbol of command 2" }
    ensures too_long { text_of (lines.TooLong 1 4 5)
        ≡ codes "check 1 at command 4: sat, model of command 5: too long" }
    ensures refuted_assertion { text_of (lines.Refuted 1 4 5 (claims.Assertion 3))
        ≡ codes "check 1 at command 4: sat, model of command 5: refuted by the assertion of command 3" }
    ensures refuted_assumption { text_of (lines.Refuted 1 4 5 (claims.Assumption 2))
        ≡ codes "check 1 at command 4: sat, model of command 5: refuted by assumption 2" }
    ensures open_assertion { text_of (lines.NotDecided 1 4 5 (claims.Assertion 3))
        ≡ codes "check 1 at command 4: sat, model of command 5: assertion of command 3 not decided" }
    ensures open_assumption { text_of (lines.NotDecided 1 4 5 (claims.Assumption 2))
        ≡ codes "check 1 at command 4: sat, model of command 5: assumption 2 not decided" }
    ensures text { text_of (lines.TextFault sides.Script (texts.Byte 7))
        ≡ codes "fault X1 in the script at byte 7" }
    ensures command { text_of (lines.CommandFault 4 (commands.Term terms.Unknown))
        ≡ codes "fault C7 F3 at command 4" }
    ensures missing { text_of (lines.MissingAnswer 4) ≡ codes "fault P1 at command 4" }
    ensures unexpected { text_of (lines.UnexpectedAnswer 4 6) ≡ codes "fault P2 at command 4, answer 6" }
    ensures extra { text_of (lines.ExtraAnswer 6) ≡ codes "fault P3 at answer 6" }
    ensures verdict { text_of (lines.Verdict verdicts.Valid
        record { confirmed = 1; refuted = 2; undecided = 3; unchecked = 4 })
        ≡ codes "verdict: valid, confirmed 1, refuted 2, undecided 3, unchecked 4" }
{}

/// Where the exit status of a strict program is 0, a line reports a confirmed check, and no line reports another check
/// or a fault.
pub fn strictly_valid_is_all_confirmed()
    ensures some { (lines : List Line) → exit_status_of true (summary_of lines) ≡ 0
        → list_any tests.is_confirmed_line lines ≡ true }
    ensures unchecked { (lines : List Line) → exit_status_of true (summary_of lines) ≡ 0
        → list_any tests.is_unchecked_line lines ≡ false }
    ensures undecided { (lines : List Line) → exit_status_of true (summary_of lines) ≡ 0
        → list_any tests.is_undecided_line lines ≡ false }
    ensures refuted { (lines : List Line) → exit_status_of true (summary_of lines) ≡ 0
        → list_any tests.is_refuted_line lines ≡ false }
    ensures fault { (lines : List Line) → exit_status_of true (summary_of lines) ≡ 0
        → list_any tests.is_fault_line lines ≡ false }
{}
