//! One turn of a dialogue: a command with the answer that it accepts from the answers so far. This file does not
//! know what a command does.

ghost use Rattle.std.specs.Prelude.{◌≡◌, ◌<◌, ◌≤◌, ◌+◌, ◌^◌, Bool, List, ℕ, IfOk, OnErr, true};
ghost use Rattle.smt_text.specs.Reader.{bytes_fed, depth_limit, is_finished};
ghost use Rattle.smt_trees.specs.Sexp.{Sexps};
ghost use Rattle.smt_script.specs.Command as commands;
ghost use Rattle.smt_script.specs.CommandView.{command_view};
ghost use Rattle.smt_script.specs.StackView.{last_of, start_of};
ghost use Rattle.smt_dialogue.specs.FirstFault as first_fault;
ghost use Rattle.smt_dialogue.specs.FirstFault.{TextSoFar};
ghost use Rattle.smt_dialogue.specs.Pairs.{Pair};
ghost use Rattle.smt_dialogue.specs.SoFar.{IsBeginning};
ghost use Rattle.smt_dialogue.specs.Internal.AcceptedState.{Fits, options_of, state_behind};
ghost use Rattle.smt_dialogue.specs.Internal.TreeQueueView.{HasQueue};
ghost use Rattle.smt_dialogue.specs.Internal.Turns.{IsTakenUp};
ghost use Rattle.smt_report.specs.declared.line.Line.{Line as ReportLine};

use crate::accepted::AcceptedPairs;
use crate::answer::TakenAnswer;
use crate::need::need_of;
use crate::next_answer::{NextAnswer, take_answer};
use crate::tree_queue::TreeQueue;
use smt_eval::Memory;
use smt_faults::TextFlaw;
use smt_report::{Line, Side};
use smt_script::{Command, CommandFlaw, Kind};

/// The outcome of a turn.
#[derive(Clone, Copy)]
pub enum Turn {
    /// The command was accepted, with its answer if it has one.
    GoesOn,
    /// The dialogue waits for more of a text. Where `closed`, an open window ends there.
    Waits { closed: bool },
    /// The dialogue ends, with the line of a fault or without one.
    Ends(Option<Line>),
}

/// Accepts a command with the answer that it needs, or returns why it cannot.
pub(crate) fn take_up(
    dialogue: &mut AcceptedPairs,
    command: &Command<'_>,
    answers: &mut TreeQueue,
) -> Result<Turn, Memory>
    requires commands { dialogue.old.commands + 1 < 2 ^ 64 }
    requires answers { dialogue.old.answers + 1 < 2 ^ 64 }
    requires checks { dialogue.old.checks.count + 1 < 2 ^ 64 }
    requires last { last_of dialogue.old.stack ≤ dialogue.old.commands }
    requires stands { (taken : List ReportLine) × (early : Bool) × (pairs : List Pair)
        × Fits early (state_behind taken dialogue.old) pairs
        × (early ≡ true → commands.is_check (command_view command.now) ≡ true) }
    requires front { (bytes : List ℕ) × (text : TextSoFar) × (rest : Sexps)
        × HasQueue answers.old bytes text rest }
    ensures turn { IfOk result (λ turn. (bytes : List ℕ) (text : TextSoFar) (rest : Sexps)
        (taken : List ReportLine) (early : Bool) (pairs : List Pair)
        → HasQueue answers.old bytes text rest
        → Fits early (state_behind taken dialogue.old) pairs
        → (early ≡ true → commands.is_check (command_view command.now) ≡ true)
        → IsTakenUp turn early (start_of dialogue.old.stack) pairs
        (command_view command.now)
        text rest bytes answers.new (state_behind taken dialogue.new)) }
    ensures start { IfOk result
        (λ _. options_of dialogue.new ≡ options_of dialogue.old) }
    ensures kept { IsBeginning dialogue.old.decided.lines.items
        dialogue.new.decided.lines.items }
    ensures cut { OnErr result (dialogue.new.decided.lines.items
        ≡ dialogue.old.decided.lines.items) }
    ensures fed { bytes_fed answers.new.reader ≡ bytes_fed answers.old.reader }
    ensures finished { is_finished answers.new.reader ≡ is_finished answers.old.reader }
    ensures limit { depth_limit answers.new.reader ≡ depth_limit answers.old.reader }
{
    let number = dialogue.commands + 1;
    let kind = command.kind();
    let need = need_of(
        dialogue.stack.profile(),
        dialogue.stack.print_success(),
        kind,
    );
    match take_answer(need, answers)? {
        NextAnswer::Takes(mut answer) => match dialogue.accept(command, kind, &mut answer) {
            Ok(()) => {
                give_back(answers, answer);
                Ok(Turn::GoesOn)
            }
            Err(fault) => match fault.flaw() {
                Some(flaw) => Ok(Turn::Ends(Some(refused(number, flaw)))),
                None => Err(Memory),
            },
        },
        NextAnswer::Waits => Ok(Turn::Waits {
            closed: is_check(kind),
        }),
        NextAnswer::Missing(fault) => Ok(Turn::Ends(Some(want_of_answer(number, fault)))),
        NextAnswer::Unexpected => Ok(Turn::Ends(Some(Line::UnexpectedAnswer {
            command: number,
            answer: dialogue.answers + 1,
        }))),
    }
}

// Gives the memory of an answer that was accepted to the answers that are read later.
#[inline(always)]
fn give_back(answers: &mut TreeQueue, answer: Option<TakenAnswer>)
    ensures queue { (bytes : List ℕ) (text : TextSoFar) (rest : Sexps)
        → HasQueue answers.old bytes text rest → HasQueue answers.new bytes text rest }
    ensures fed { bytes_fed answers.new.reader ≡ bytes_fed answers.old.reader }
    ensures finished { is_finished answers.new.reader ≡ is_finished answers.old.reader }
    ensures limit { depth_limit answers.new.reader ≡ depth_limit answers.old.reader }
{
    if let Some(answer) = answer {
        answers.give_back(answer.tree);
    }
}

// Whether a command of this kind is a check.
fn is_check(kind: Kind) -> bool
    ensures { result ≡ commands.asks_check kind }
{
    matches!(kind, Kind::Check)
}

/// The line on a refused command; `command` is its number, from 1.
pub(crate) fn refused(command: u64, flaw: CommandFlaw) -> Line
    ensures { result ≡ Line.CommandFault command flaw }
{
    Line::CommandFault { command, flaw }
}

/// The line on a text with a flaw.
pub(crate) fn text_fault(side: Side, flaw: TextFlaw) -> Line
    ensures { result ≡ Line.TextFault side flaw }
{
    Line::TextFault { side, flaw }
}

// The line where the command of this number (from 1) needs an answer and none comes. It names the flaw after the
// last answer, if there is one.
fn want_of_answer(command: u64, fault: Option<TextFlaw>) -> Line
    ensures { result ≡ first_fault.want_of_answer command fault }
{
    match fault {
        Some(flaw) => Line::TextFault {
            side: Side::Answers,
            flaw,
        },
        None => Line::MissingAnswer { command },
    }
}
