//! The report on a whole script and whole answers. This file decides nothing.

ghost use Rattle.std.specs.Prelude.{◌≡◌, List, ℕ, None, false, IfOk, OnOk};
ghost use Rattle.smt_dialogue.specs.History.{begun, whole};
ghost use Rattle.smt_dialogue.specs.Report.{IsReport};
ghost use Rattle.smt_dialogue.specs.Session.{StandsFor, failure_of, is_answers_ended, is_script_ended};
ghost use Rattle.smt_dialogue.specs.Validity.{IsValid, IsInvalid};
ghost use Rattle.smt_dialogue.specs.declared.options.Options.{Options as Given};
ghost use Rattle.smt_report.specs.Verdict.{IsVerdictOf};

use crate::options::Options;
use crate::outlet::Kept;
use crate::runs::{PIECE, RunFault, Streams, follow};
use crate::session::Session;
use smt_eval::Memory;
use smt_report::{Report, Verdict};
use smt_streams::Pieces;
use std::alloc::Global;

/// Checks a solver's dialogue: the script that it read, and the answers that it printed, in order.
///
/// The report has its lines in order, the verdict line last. The call refuses only where memory is refused.
pub fn validate(
    alloc: Global,
    script: &[u8],
    answers: &[u8],
    options: Options,
) -> Result<Report, Memory>
    ensures report { IfOk result (λ r. IsReport options script.now answers.now r.lines.items) }
    ensures verdict { IfOk result (λ r. IsVerdictOf r.verdict r.lines.items) }
    ensures valid { IfOk result (λ r. r.verdict ≡ Verdict.Valid
        → IsValid options script.now answers.now) }
    ensures invalid { IfOk result
        (λ r. r.verdict ≡ Verdict.Invalid
        → IsInvalid options script.now answers.now r.lines.items) }
{
    let mut session = Session::new(alloc, options);
    let report = match tell(alloc, &mut session, script, answers) {
        Ok(()) => Ok(report_of(&mut session)),
        Err(_) => Err(Memory),
    };
    drop(session);
    report
}

// Feeds a session both texts, piece by piece, and their ends. Its lines wait in the session.
fn tell(alloc: Global, session: &mut Session, script: &[u8], answers: &[u8]) -> Result<(), RunFault>
    requires stands { (options : Given) × StandsFor session.old (begun options) }
    requires script_open { is_script_ended session.old ≡ false }
    requires answers_open { is_answers_ended session.old ≡ false }
    requires failure { failure_of session.old ≡ None }
    ensures told { OnOk result ((options : Given) → StandsFor session.old (begun options)
        → StandsFor session.new (whole options script.now answers.now)) }
    ensures failure { OnOk result (failure_of session.new ≡ None) }
{
    let mut script = Pieces::new(script, PIECE);
    let mut answers = Pieces::new(answers, PIECE);
    let mut visitor = ();
    let mut streams = Streams {
        script: &mut script,
        answers: &mut answers,
        lines: Kept,
        visitor: &mut visitor,
    };
    follow(alloc, session, &mut streams)
}

// The report of a session to which both texts were fed to their ends.
fn report_of(session: &mut Session) -> Report
    requires stands { (options : Given) × (script : List ℕ) × (answers : List ℕ)
        × StandsFor session.old (whole options script answers) }
    requires failure { failure_of session.old ≡ None }
    ensures report { (options : Given) (script answers : List ℕ)
        → StandsFor session.old (whole options script answers)
        → IsReport options script answers result.lines.items }
    ensures verdict { IsVerdictOf result.verdict result.lines.items }
    ensures valid { (options : Given) (script answers : List ℕ)
        → StandsFor session.old (whole options script answers) → result.verdict ≡ Verdict.Valid
        → IsValid options script answers }
    ensures invalid { (options : Given) (script answers : List ℕ)
        → StandsFor session.old (whole options script answers) → result.verdict ≡ Verdict.Invalid
        → IsInvalid options script answers result.lines.items }
{
    let Some(verdict) = session.verdict() else {
        unreachable!()
    };
    Report {
        lines: session.take_lines(),
        verdict,
    }
}
