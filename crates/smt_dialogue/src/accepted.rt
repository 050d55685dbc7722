//! The dialogue so far: what is in force, the checks, and the lines of the report. This file pairs nothing: its
//! caller gives it each command with its answer.

ghost use Rattle.std.specs.Prelude.{Bool, ◌≡◌, ◌≤◌, ◌<◌, ◌+◌, ◌^◌, ◌++◌, ◌∷◌, List, [], None, Some, true};
ghost use Rattle.std.specs.Prelude.{IfOk, IfErr, OnErr, OnOk, false, is_some, option_map};
ghost use Rattle.std.specs.List.{list_any};
ghost use Rattle.smt_script.specs.Command.{is_check, kind_of};
ghost use Rattle.smt_script.specs.CommandView.{command_view};
ghost use Rattle.smt_script.specs.Stack.{Numbered};
ghost use Rattle.smt_script.specs.StackView as stacks;
ghost use Rattle.smt_script.specs.StackView.{last_of, profile_of, start_of};
ghost use Rattle.smt_faults.specs.Faults.{flaw_of_command_fault};
ghost use Rattle.smt_faults.specs.Outcome.{TellsCommand};
ghost use Rattle.smt_faults.specs.declared.command_flaw.CommandFlaw.{CommandFlaw};
ghost use Rattle.smt_dialogue.specs.Answers.{is_effective_with};
ghost use Rattle.smt_dialogue.specs.InForce.{flaw_of_pair};
ghost use Rattle.smt_dialogue.specs.Lines.{lines_in};
ghost use Rattle.smt_dialogue.specs.Report.{lines_at_end, lines_of_end};
ghost use Rattle.smt_dialogue.specs.SoFar.{IsBeginning, is_verdict_line};
ghost use Rattle.smt_report.specs.Verdict.{summary_of};
ghost use Rattle.smt_dialogue.specs.Pairs.{Pair, numbered_if};
ghost use Rattle.smt_dialogue.specs.Internal.AnswerView.{AreKnown, tree_of};
ghost use Rattle.smt_dialogue.specs.Internal.LineQueueView.{IsFaultLine};
ghost use Rattle.smt_dialogue.specs.Internal.AcceptedState.{Fits, StandsFor, answered, flaw_if, options_of};
ghost use Rattle.smt_dialogue.specs.Internal.AcceptedState.{state_behind};
ghost use Rattle.smt_report.specs.declared.line.Line.{Line as ReportLine};

use crate::answer::{TakenAnswer, took_effect};
use crate::checks::{Checks, NewLines};
use crate::line_queue::LineQueue;
use crate::options::Options;
use smt_eval::Memory;
use smt_report::{Line, Summary};
use smt_script::{Command, CommandFault, Kind, Stack};
use std::alloc::Global;

/// The dialogue so far: its state after the accepted commands, each with its answer.
#[derive(Drop)]
pub struct AcceptedPairs {
    pub stack: Stack,
    pub checks: Checks,
    /// The decided lines that were not handed out, and the count of all.
    pub decided: LineQueue,
    /// How many commands were accepted, and (in `answers`) how many of them have an answer.
    pub commands: u64,
    pub answers: u64,
}

impl AcceptedPairs {
    /// A dialogue without pairs.
    pub(crate) fn new(alloc: Global, options: Options) -> Self
        ensures stands { StandsFor (state_behind [] result) [] }
        ensures decided { result.decided.lines.items ≡ [] }
        ensures start { options_of result ≡ options }
    {
        AcceptedPairs {
            stack: Stack::new(alloc, options.start()),
            checks: Checks::new(alloc, options.limit),
            decided: LineQueue::new(alloc),
            commands: 0,
            answers: 0,
        }
    }

    /// Accepts one more command, of this kind, with its answer, if it has one. Where the command has a flaw, the
    /// dialogue stays as it is. An answer that is a model may be gone after the call.
    pub(crate) fn accept(
        &mut self,
        command: &Command<'_>,
        kind: Kind,
        answer: &mut Option<TakenAnswer>,
    ) -> Result<(), CommandFault>
        requires commands { self.old.commands + 1 < 2 ^ 64 }
        requires answers { self.old.answers + 1 < 2 ^ 64 }
        requires checks { self.old.checks.count + 1 < 2 ^ 64 }
        requires last { last_of self.old.stack ≤ self.old.commands }
        requires stands { (taken : List ReportLine) × (early : Bool) × (pairs : List Pair)
            × Fits early (state_behind taken self.old) pairs
            × (early ≡ true → is_check (command_view command.now) ≡ true) }
        requires kind { kind ≡ kind_of (command_view command.now) }
        requires known { AreKnown answer.old }
        ensures accepted { OnOk result ((taken : List ReportLine) (early : Bool) (pairs : List Pair)
            → Fits early (state_behind taken self.old) pairs
            → (early ≡ true → is_check (command_view command.now) ≡ true)
            → (flaw_of_pair (profile_of self.old.stack) pairs (answered command.now answer.old) ≡ None)
            × StandsFor (state_behind taken self.new)
            (pairs ++ answered command.now answer.old ∷ [])) }
        ensures refused { IfErr result
            (λ fault. (flaw : CommandFlaw) → flaw_of_command_fault fault ≡ Some flaw
            → (taken : List ReportLine) (early : Bool) (pairs : List Pair)
            → Fits early (state_behind taken self.old) pairs
            → (flaw_of_pair (profile_of self.old.stack) pairs (answered command.now answer.old) ≡ Some flaw)
            × Fits early (state_behind taken self.new) pairs) }
        ensures kept { IsBeginning self.old.decided.lines.items self.new.decided.lines.items }
        ensures cut { OnErr result (self.new.decided.lines.items ≡ self.old.decided.lines.items) }
        ensures commands { OnErr result (self.new.commands ≡ self.old.commands) }
        ensures start { options_of self.new ≡ options_of self.old }
    {
        let number = self.commands + 1;
        let count = u64::from(answer.is_some());
        if let Err(fault) = apply_if(answer, &mut self.stack, number, command) {
            return Err(fault);
        }
        let Ok(lines) = self.checks.take(number, kind, answer, &self.stack) else {
            return Err(CommandFault::Memory);
        };
        let Ok(()) = self.decided.add(lines) else {
            return Err(CommandFault::Memory);
        };
        self.commands = number;
        self.answers += count;
        Ok(())
    }

    /// Whether at least `enough` lines wait and a model may be judged next. With `None` there are never enough.
    pub(crate) fn has_enough(&self, enough: Option<usize>) -> bool
        ensures { result ≡ true → is_some enough ≡ true }
    {
        match enough {
            Some(lines) => self.checks.pending.is_some() && self.decided.lines.len() >= lines,
            None => false,
        }
    }

    /// Decides the lines that are due where the dialogue waits: where `closed`, the open window ends, with its line.
    pub(crate) fn settle(&mut self, closed: bool) -> Result<(), Memory>
        requires few { self.old.checks.count < 2 ^ 64 }
        ensures settled { OnOk result ((taken : List ReportLine) (early : Bool) (pairs : List Pair)
            → Fits early (state_behind taken self.old) pairs → (early ≡ true → closed ≡ true)
            → Fits closed (state_behind taken self.new) pairs
            × (taken ++ self.new.decided.lines.items
            ≡ lines_in (profile_of self.new.stack) self.new.checks.limit.steps closed [] pairs [])) }
        ensures kept { IsBeginning self.old.decided.lines.items self.new.decided.lines.items }
        ensures cut { OnErr result (self.new.decided.lines.items ≡ self.old.decided.lines.items) }
        ensures start { options_of self.new ≡ options_of self.old }
    {
        if !closed {
            return Ok(());
        }
        self.end_window()?;
        Ok(())
    }

    /// Ends the dialogue, and returns its summary. Decides the line of the open window, then the line of the fault,
    /// if there is one, and then the verdict line.
    pub(crate) fn end(&mut self, fault: Option<Line>) -> Result<Summary, Memory>
        requires fault { IsFaultLine fault }
        requires few { self.old.checks.count < 2 ^ 64 }
        ensures ended { IfOk result (λ summary. (taken : List ReportLine) (early : Bool)
            (pairs : List Pair)
            → Fits early (state_behind taken self.old) pairs
            → (taken ++ self.new.decided.lines.items
            ≡ lines_at_end (profile_of self.old.stack) self.old.checks.limit.steps pairs fault)
            × (summary ≡ summary_of (lines_in (profile_of self.old.stack) self.old.checks.limit.steps true []
            pairs [] ++ lines_of_end fault))) }
        ensures cut { OnErr result ((taken : List ReportLine) (early : Bool) (pairs : List Pair)
            → Fits early (state_behind taken self.old) pairs
            → IsBeginning (taken ++ self.new.decided.lines.items)
            (lines_at_end (profile_of self.old.stack) self.old.checks.limit.steps pairs fault)
            × (list_any is_verdict_line (taken ++ self.new.decided.lines.items) ≡ false)) }
        ensures kept { IsBeginning self.old.decided.lines.items self.new.decided.lines.items }
    {
        self.end_window()?;
        let summary = self.decided.end(fault)?;
        Ok(summary)
    }

    /// Ends the window of the last check, and decides its line, if that was not decided before. The caller knows that
    /// what comes next closes the window.
    pub(crate) fn end_window(&mut self) -> Result<(), Memory>
        requires few { self.old.checks.count < 2 ^ 64 }
        ensures stands { OnOk result ((taken : List ReportLine) (early : Bool) (pairs : List Pair)
            → Fits early (state_behind taken self.old) pairs
            → Fits true (state_behind taken self.new) pairs) }
        ensures ended { self.new.checks.pending ≡ None }
        ensures kept { IsBeginning self.old.decided.lines.items self.new.decided.lines.items }
        ensures cut { OnErr result (self.new.decided.lines.items ≡ self.old.decided.lines.items) }
        ensures count { self.new.checks.count ≡ self.old.checks.count }
        ensures start { options_of self.new ≡ options_of self.old }
    {
        let ended = self.checks.end_window();
        self.decided.add(NewLines::of_ended(ended))?;
        Ok(())
    }
}

// Applies a command to what is in force, if by its answer the command took effect.
fn apply_if(
    answer: &Option<TakenAnswer>,
    stack: &mut Stack,
    number: u64,
    command: &Command<'_>,
) -> Result<(), CommandFault>
    requires last { last_of stack.old < number }
    requires known { AreKnown answer.now }
    ensures applied { OnOk result ((commands : List Numbered) → stacks.StandsFor stack.old commands
        → (flaw_if (profile_of stack.old) (is_effective_with (option_map tree_of answer.now)) commands number
        (command_view command.now) ≡ None)
        × stacks.StandsFor stack.new (commands
        ++ numbered_if (is_effective_with (option_map tree_of answer.now)) number
        (command_view command.now))) }
    ensures last { OnOk result (last_of stack.new ≤ number) }
    ensures refused { IfErr result (λ fault. (commands : List Numbered)
        → stacks.StandsFor stack.old commands
        → TellsCommand (flaw_if (profile_of stack.old) (is_effective_with (option_map tree_of answer.now)) commands
        number (command_view command.now)) fault) }
    ensures unchanged { OnErr result
        (((commands : List Numbered) → stacks.StandsFor stack.old commands
        → stacks.StandsFor stack.new commands) × (last_of stack.new ≡ last_of stack.old)) }
    ensures start { start_of stack.new ≡ start_of stack.old }
{
    if took_effect(answer) {
        stack.apply(number, command)
    } else {
        Ok(())
    }
}
