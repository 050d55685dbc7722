//! Sessions: the two texts of a dialogue come piece by piece, and the session hands out each line once it is
//! decided. This file decides nothing.

ghost use Rattle.std.specs.Prelude.{◌≡◌, ◌<◌, ◌++◌, List, [], None, Some, false, true, length};
ghost use Rattle.std.specs.Prelude.{IfOk, IfSome, MatchResult, OnErr};
ghost use Rattle.std.specs.Prelude.{nat_eq};
ghost use Rattle.smt_dialogue.specs.History.{History, begun, with_answers, with_answers_end, with_script};
ghost use Rattle.smt_dialogue.specs.History.{of_side, other_side, with_end, with_more, with_piece, with_script_end};
ghost use Rattle.smt_dialogue.specs.History.{with_taken};
ghost use Rattle.smt_dialogue.specs.Session.{IsSummaryIn, IsVerdictIn, StandsFor, failure_of};
ghost use Rattle.smt_dialogue.specs.Session.{is_answers_ended, is_script_ended};
ghost use Rattle.smt_dialogue.specs.Session.{is_ended, is_verdict_waiting, lines_waiting};
ghost use Rattle.smt_dialogue.specs.SoFar.{IsBeginning};
ghost use Rattle.smt_dialogue.specs.Validity.{IsInvalid, IsValid};
ghost use Rattle.smt_dialogue.specs.Internal.SessionStep.{HasTurned, IsFed, IsGoingOn, IsPause, IsWanted, TextLaws};
ghost use Rattle.smt_dialogue.specs.Internal.SessionStep.{fed_at, left_of, turns_left, with_fed};
ghost use Rattle.smt_dialogue.specs.declared.session.Failed.{Failed as Failure};

use crate::options::Options;
use crate::pairing::{Advance, Pairing};
use smt_eval::Memory;
use smt_eval::laws::{known_values_are_true, models_are_complete, models_give_structures};
use smt_report::{Line, Side, Summary, Verdict};
use smt_script::laws::{assertions_in_force_stand, names_in_force_are_introduced};
use smt_text::laws::examples::forests;
use smt_text::laws::{
    every_text_reads, one_forest, one_reading, read_faults_stay, read_trees_stay,
};
use std::alloc::Global;

/// Why a session goes no further.
#[derive(Clone, Copy, Debug, PartialEq, Eq)]
pub enum Failed {
    /// Memory was refused.
    Memory,
    /// A text has more than 2^64 - 1 bytes.
    Long,
}

// Laws: every text has a reading, it has no other, and the trees and the fault that were read stay.
fn text_laws()
    ensures { TextLaws }
{
    every_text_reads();
    one_reading();
    read_faults_stay();
    read_trees_stay();
}

/// A solver's dialogue that is checked as it comes. It accepts pieces of the script that the solver reads, and of
/// the answers that it prints, in any order, each text to its end. Each line of the report waits for `take_lines`
/// once it is decided, and the session withdraws no line.
#[derive(Drop)]
pub struct Session {
    exchange: Pairing,
    script: Fed,
    answers: Fed,
    summary: Option<Summary>,
    failure: Option<Failed>,
}

/// What was fed of a text: how many bytes, and whether its end was reported.
#[derive(Clone, Copy)]
struct Fed {
    bytes: u64,
    ended: bool,
}

impl Session {
    /// A session of two texts of which nothing has come.
    pub fn new(alloc: Global, options: Options) -> Session
        ensures stands { StandsFor result (begun options) }
        ensures script { is_script_ended result ≡ false }
        ensures answers { is_answers_ended result ≡ false }
        ensures failure { failure_of result ≡ None }
        ensures waiting { lines_waiting result ≡ [] }
    {
        // Laws: nothing is read of a text of which nothing has come.
        forests();
        one_forest();
        let nothing = Fed {
            bytes: 0,
            ended: false,
        };
        Session {
            exchange: Pairing::new(alloc, options),
            script: nothing,
            answers: nothing,
            summary: None,
            failure: None,
        }
    }

    /// Accepts the next piece of the script, whose end was not reported before. It fails with `Memory`, or with `Long`
    /// where the script has more than 2^64 - 1 bytes. A session that has failed returns the same failure, and its
    /// lines stay. A call that fails adds no verdict line.
    pub fn script(&mut self, piece: &[u8]) -> Result<(), Failed>
        requires stands { (h : History) × StandsFor self.old h }
        requires open { is_script_ended self.old ≡ false }
        ensures stands { (h : History) → StandsFor self.old h
            → StandsFor self.new (with_script h piece.now) }
        ensures failed { MatchResult result (λ _. failure_of self.new ≡ None)
            (λ failed. failure_of self.new ≡ Some failed) }
        ensures stays { (failed : Failure) → failure_of self.old ≡ Some failed
            → (failure_of self.new ≡ Some failed)
            × (lines_waiting self.new ≡ lines_waiting self.old) }
        ensures kept { IsBeginning (lines_waiting self.old) (lines_waiting self.new) }
        ensures no_verdict { OnErr result (is_verdict_waiting self.new
            ≡ is_verdict_waiting self.old) }
        ensures script_ended { is_script_ended self.new ≡ is_script_ended self.old }
        ensures answers_ended { is_answers_ended self.new ≡ is_answers_ended self.old }
    {
        self.take_in(Side::Script, piece);
        self.rest()
    }

    /// Accepts the next piece of the answers, whose end was not reported before. It fails with `Memory`, or with
    /// `Long` where the answers have more than 2^64 - 1 bytes. A session that has failed returns the same failure, and
    /// its lines stay. A call that fails adds no verdict line.
    pub fn answers(&mut self, piece: &[u8]) -> Result<(), Failed>
        requires stands { (h : History) × StandsFor self.old h }
        requires open { is_answers_ended self.old ≡ false }
        ensures stands { (h : History) → StandsFor self.old h
            → StandsFor self.new (with_answers h piece.now) }
        ensures failed { MatchResult result (λ _. failure_of self.new ≡ None)
            (λ failed. failure_of self.new ≡ Some failed) }
        ensures stays { (failed : Failure) → failure_of self.old ≡ Some failed
            → (failure_of self.new ≡ Some failed)
            × (lines_waiting self.new ≡ lines_waiting self.old) }
        ensures kept { IsBeginning (lines_waiting self.old) (lines_waiting self.new) }
        ensures no_verdict { OnErr result (is_verdict_waiting self.new
            ≡ is_verdict_waiting self.old) }
        ensures script_ended { is_script_ended self.new ≡ is_script_ended self.old }
        ensures answers_ended { is_answers_ended self.new ≡ is_answers_ended self.old }
    {
        self.take_in(Side::Answers, piece);
        self.rest()
    }

    /// Accepts the end of the script, which was not reported before. It fails with `Memory`; a session that has failed
    /// returns the same failure. An end counts also where the call fails, which adds no verdict line.
    pub fn end_script(&mut self) -> Result<(), Failed>
        requires stands { (h : History) × StandsFor self.old h }
        requires open { is_script_ended self.old ≡ false }
        ensures stands { (h : History) → StandsFor self.old h
            → StandsFor self.new (with_script_end h) }
        ensures failed { MatchResult result (λ _. failure_of self.new ≡ None)
            (λ failed. failure_of self.new ≡ Some failed) }
        ensures stays { (failed : Failure) → failure_of self.old ≡ Some failed
            → (failure_of self.new ≡ Some failed)
            × (lines_waiting self.new ≡ lines_waiting self.old) }
        ensures kept { IsBeginning (lines_waiting self.old) (lines_waiting self.new) }
        ensures no_verdict { OnErr result (is_verdict_waiting self.new
            ≡ is_verdict_waiting self.old) }
        ensures script_ended { is_script_ended self.new ≡ true }
        ensures answers_ended { is_answers_ended self.new ≡ is_answers_ended self.old }
    {
        self.take_end(Side::Script);
        self.rest()
    }

    /// Accepts the end of the answers, which was not reported before. It fails with `Memory`; a session that has
    /// failed returns the same failure. An end counts also where the call fails, which adds no verdict line.
    pub fn end_answers(&mut self) -> Result<(), Failed>
        requires stands { (h : History) × StandsFor self.old h }
        requires open { is_answers_ended self.old ≡ false }
        ensures stands { (h : History) → StandsFor self.old h
            → StandsFor self.new (with_answers_end h) }
        ensures failed { MatchResult result (λ _. failure_of self.new ≡ None)
            (λ failed. failure_of self.new ≡ Some failed) }
        ensures stays { (failed : Failure) → failure_of self.old ≡ Some failed
            → (failure_of self.new ≡ Some failed)
            × (lines_waiting self.new ≡ lines_waiting self.old) }
        ensures kept { IsBeginning (lines_waiting self.old) (lines_waiting self.new) }
        ensures no_verdict { OnErr result (is_verdict_waiting self.new
            ≡ is_verdict_waiting self.old) }
        ensures script_ended { is_script_ended self.new ≡ is_script_ended self.old }
        ensures answers_ended { is_answers_ended self.new ≡ true }
    {
        self.take_end(Side::Answers);
        self.rest()
    }

    /// Returns the decided lines that no earlier call returned, in order. None of them waits after the call.
    pub fn take_lines(&mut self) -> Vec<Line>
        ensures lines { result.items ≡ lines_waiting self.old }
        ensures none { lines_waiting self.new ≡ [] }
        ensures stands { (h : History) → StandsFor self.old h
            → StandsFor self.new (with_taken h result.items) }
        ensures failure { failure_of self.new ≡ failure_of self.old }
        ensures script_ended { is_script_ended self.new ≡ is_script_ended self.old }
        ensures answers_ended { is_answers_ended self.new ≡ is_answers_ended self.old }
        ensures going_on { (h : History) → IsGoingOn self.old h
            → IsGoingOn self.new (with_taken h result.items) }
        ensures left { left_of self.new ≡ left_of self.old }
        ensures turns { turns_left self.new ≡ turns_left self.old }
    {
        self.exchange.take_lines()
    }

    /// What the verdict line says, once it is decided, whether `take_lines` has returned that line or not. Before that
    /// it is `None`.
    pub fn summary(&self) -> Option<Summary>
        ensures told { (h : History) → StandsFor self.now h
            → IsSummaryIn result (h.taken ++ lines_waiting self.now) }
        ensures valid { (h : History) → StandsFor self.now h
            → IfSome result (λ summary. summary.verdict ≡ Verdict.Valid
            → IsValid h.options h.script.bytes h.answers.bytes) }
        ensures invalid { (h : History) → StandsFor self.now h
            → IfSome result (λ summary. summary.verdict ≡ Verdict.Invalid
            → IsInvalid h.options h.script.bytes h.answers.bytes
            (h.taken ++ lines_waiting self.now)) }
    {
        // Laws: the texts have no other trees. Models that are read are complete and give structures. Commands
        // introduced the names in force, and the assertions in force are those that nothing has removed. What is
        // known of a term is its value.
        one_forest();
        models_are_complete();
        names_in_force_are_introduced();
        assertions_in_force_stand();
        models_give_structures();
        known_values_are_true();
        self.summary
    }

    /// The verdict, once the verdict line is decided, whether `take_lines` has returned that line or not. Before
    /// that it is `None`.
    pub fn verdict(&self) -> Option<Verdict>
        ensures told { (h : History) → StandsFor self.now h
            → IsVerdictIn result (h.taken ++ lines_waiting self.now) }
        ensures valid { (h : History) → StandsFor self.now h → result ≡ Some Verdict.Valid
            → IsValid h.options h.script.bytes h.answers.bytes }
        ensures invalid { (h : History) → StandsFor self.now h → result ≡ Some Verdict.Invalid
            → IsInvalid h.options h.script.bytes h.answers.bytes
            (h.taken ++ lines_waiting self.now) }
    {
        match self.summary() {
            Some(summary) => Some(summary.verdict),
            None => None,
        }
    }

    /// The text to feed next, whose end was not reported; `None` where both have ended. Of two open texts it is the
    /// one that the dialogue waits for, and once the dialogue has ended or failed, the one of which less has come.
    pub(crate) fn wanted(&self) -> Option<Side>
        ensures { IsWanted result self.now }
    {
        match (self.script.ended, self.answers.ended) {
            (true, true) => None,
            (true, false) => Some(Side::Answers),
            (false, true) => Some(Side::Script),
            (false, false) if self.wants_answers() => Some(Side::Answers),
            (false, false) => Some(Side::Script),
        }
    }

    // Whether the dialogue waits for more of the answers, where the end of neither text was reported.
    fn wants_answers(&self) -> bool {
        if self.summary.is_some() || self.failure.is_some() {
            self.answers.bytes < self.script.bytes
        } else {
            self.exchange.command.is_some()
        }
    }

    /// Accepts the next piece of a text, whose end was not reported before, or its end where the piece is empty. It
    /// takes no turn.
    pub(crate) fn take_next(&mut self, side: Side, piece: &[u8])
        requires stands { (h : History) × StandsFor self.old h }
        requires open { is_ended side self.old ≡ false }
        requires failure { failure_of self.old ≡ None }
        ensures fed { (h : History) → StandsFor self.old h → IsFed self.new
            (with_more side h piece.now (is_ended side self.new)) }
        ensures ended { is_ended side self.new ≡ nat_eq (length piece.now) 0 }
        ensures other { is_ended (other_side side) self.new ≡ is_ended (other_side side) self.old }
        ensures waiting { lines_waiting self.new ≡ lines_waiting self.old }
        ensures smaller { failure_of self.new ≡ None → left_of self.new < left_of self.old }
    {
        if piece.is_empty() {
            self.take_end(side);
        } else {
            self.take_in(side, piece);
        }
    }

    // Accepts the next piece of a text. A session that has failed, or has a summary, does not read it.
    fn take_in(&mut self, side: Side, piece: &[u8])
        requires stands { (h : History) × StandsFor self.old h }
        requires open { is_ended side self.old ≡ false }
        ensures fed { (h : History) → StandsFor self.old h
            → IsFed self.new (with_piece side h piece.now) }
        ensures smaller { failure_of self.new ≡ None → 0 < length piece.now
            → left_of self.new < left_of self.old }
        ensures stays { (failed : Failure) → failure_of self.old ≡ Some failed
            → failure_of self.new ≡ Some failed }
        ensures waiting { lines_waiting self.new ≡ lines_waiting self.old }
        ensures script_ended { is_script_ended self.new ≡ is_script_ended self.old }
        ensures answers_ended { is_answers_ended self.new ≡ is_answers_ended self.old }
    {
        text_laws();
        if self.failure.is_some() {
            return;
        }
        let Some(bytes) = self.bytes(side).checked_add(piece.len() as u64) else {
            self.failure = Some(Failed::Long);
            return;
        };
        self.count(side, bytes);
        if self.summary.is_some() {
            return;
        }
        self.exchange.feed(side, piece);
    }

    // Accepts the end of a text. A session that has failed, or has a summary, only notes it.
    fn take_end(&mut self, side: Side)
        requires stands { (h : History) × StandsFor self.old h }
        requires open { is_ended side self.old ≡ false }
        ensures fed { (h : History) → StandsFor self.old h
            → IsFed self.new (with_end side h) }
        ensures smaller { left_of self.new < left_of self.old }
        ensures failure { failure_of self.new ≡ failure_of self.old }
        ensures waiting { lines_waiting self.new ≡ lines_waiting self.old }
        ensures script_ended { is_script_ended self.new
            ≡ of_side side true (is_script_ended self.old) }
        ensures answers_ended { is_answers_ended self.new
            ≡ of_side side (is_answers_ended self.old) true }
    {
        text_laws();
        self.close(side);
        if self.failure.is_some() {
            return;
        }
        if self.summary.is_some() {
            return;
        }
        self.exchange.finish(side);
    }

    // How many bytes of a text were fed.
    fn bytes(&self, side: Side) -> u64
        ensures { result ≡ (fed_at side self.now).bytes }
    {
        match side {
            Side::Script => self.script.bytes,
            Side::Answers => self.answers.bytes,
        }
    }

    // Sets the number of bytes of a text that were fed.
    fn count(&mut self, side: Side, bytes: u64)
        ensures fed { self.new ≡ with_fed side (record
            (fed_at side self.old) { bytes = bytes }) self.old }
        ensures script_ended { is_script_ended self.new ≡ is_script_ended self.old }
        ensures answers_ended { is_answers_ended self.new ≡ is_answers_ended self.old }
        ensures exchange { self.new.exchange ≡ self.old.exchange }
        ensures summary { self.new.summary ≡ self.old.summary }
        ensures failure { self.new.failure ≡ self.old.failure }
    {
        match side {
            Side::Script => self.script.bytes = bytes,
            Side::Answers => self.answers.bytes = bytes,
        }
    }

    // Notes the end of a text.
    fn close(&mut self, side: Side)
        ensures fed { self.new ≡ with_fed side (record
            (fed_at side self.old) { ended = true }) self.old }
        ensures script_ended { is_script_ended self.new
            ≡ of_side side true (is_script_ended self.old) }
        ensures answers_ended { is_answers_ended self.new
            ≡ of_side side (is_answers_ended self.old) true }
        ensures exchange { self.new.exchange ≡ self.old.exchange }
        ensures summary { self.new.summary ≡ self.old.summary }
        ensures failure { self.new.failure ≡ self.old.failure }
    {
        match side {
            Side::Script => self.script.ended = true,
            Side::Answers => self.answers.ended = true,
        }
    }

    /// Takes turns as far as both texts have come.
    pub(crate) fn rest(&mut self) -> Result<(), Failed>
        requires fed { (h : History) × IsFed self.old h }
        ensures stands { (h : History) → IsFed self.old h
            → StandsFor self.new h }
        ensures failed { MatchResult result (λ _. failure_of self.new ≡ None)
            (λ failed. failure_of self.new ≡ Some failed) }
        ensures stays { (failed : Failure) → failure_of self.old ≡ Some failed
            → (failure_of self.new ≡ Some failed)
            × (lines_waiting self.new ≡ lines_waiting self.old) }
        ensures kept { IsBeginning (lines_waiting self.old) (lines_waiting self.new) }
        ensures no_verdict { OnErr result (is_verdict_waiting self.new
            ≡ is_verdict_waiting self.old) }
        ensures script_ended { is_script_ended self.new ≡ is_script_ended self.old }
        ensures answers_ended { is_answers_ended self.new ≡ is_answers_ended self.old }
        ensures left { left_of self.new ≡ left_of self.old }
    {
        match self.take_turns(None) {
            Ok(false) => Ok(()),
            Ok(true) => unreachable!(),
            Err(failed) => Err(failed),
        }
    }

    /// Takes turns as far as both texts have come. It pauses before that at a check whose models may come next,
    /// where at least `enough` lines wait by then. Returns whether turns may be left.
    pub(crate) fn take_turns(&mut self, enough: Option<usize>) -> Result<bool, Failed>
        requires fed { (h : History) × IsFed self.old h }
        ensures turned { (h : History) → IsFed self.old h
            → HasTurned result self.new h }
        ensures paused { IfOk result (λ more. IsPause more enough (turns_left self.old)
            (turns_left self.new)) }
        ensures failed { MatchResult result (λ _. failure_of self.new ≡ None)
            (λ failed. failure_of self.new ≡ Some failed) }
        ensures stays { (failed : Failure) → failure_of self.old ≡ Some failed
            → (failure_of self.new ≡ Some failed)
            × (lines_waiting self.new ≡ lines_waiting self.old) }
        ensures kept { IsBeginning (lines_waiting self.old) (lines_waiting self.new) }
        ensures no_verdict { OnErr result (is_verdict_waiting self.new
            ≡ is_verdict_waiting self.old) }
        ensures script_ended { is_script_ended self.new ≡ is_script_ended self.old }
        ensures answers_ended { is_answers_ended self.new ≡ is_answers_ended self.old }
        ensures left { left_of self.new ≡ left_of self.old }
    {
        if let Some(failed) = self.failure {
            return Err(failed);
        }
        if self.summary.is_some() {
            return Ok(false);
        }
        match self.exchange.advance(enough) {
            Ok(Advance::Pauses) => Ok(true),
            Ok(Advance::Rests(summary)) => {
                self.summary = summary;
                Ok(false)
            }
            Err(Memory) => {
                self.failure = Some(Failed::Memory);
                Err(Failed::Memory)
            }
        }
    }
}
