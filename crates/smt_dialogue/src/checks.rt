//! The window of a check: the models printed after the check, and its line. This file knows no text, and does
//! not know what makes a model true.

ghost use Rattle.std.specs.Prelude.{◌≡◌, ◌<◌, ◌+◌, ◌^◌, List, None, IfOk, Some, if◌then◌else◌, option_map, true};
ghost use Rattle.smt_trees.specs.Owned.{sexp_of};
ghost use Rattle.smt_trees.specs.Sexp.{Items, Sexps};
ghost use Rattle.smt_script.specs.Stack.{Numbered, signature_in_force};
ghost use Rattle.smt_script.specs.StackView.{StandsFor, profile_of};
ghost use Rattle.smt_dialogue.specs.Answers.{is_effective_with, is_list};
ghost use Rattle.smt_dialogue.specs.Lines as check_lines;
ghost use Rattle.smt_dialogue.specs.Internal.AnswerView.{AreKnown, answer_of, tree_of};
ghost use Rattle.smt_dialogue.specs.Internal.ChecksState.{begun, checks_after, checks_state, closing_line};
ghost use Rattle.smt_dialogue.specs.Internal.ChecksState.{own_line, step_of, unchanged, with_check, with_line};
ghost use Rattle.smt_dialogue.specs.Internal.ChecksState.{with_models, with_window_ended};
ghost use Rattle.smt_dialogue.specs.Internal.Claims.{claims_in_force};
ghost use Rattle.smt_dialogue.specs.Judgement.{judgement_of};

use crate::answer::{Answer, TakenAnswer, took_effect};
use crate::judgement::{Judgement, judge};
use crate::options::Limit;
use smt_eval::{Machine, Memory};
use smt_report::Line;
use smt_script::{Kind, Stack};
use smt_trees::OwnedTree;
use std::alloc::Global;

/// A check that was answered `sat`, whose window has not ended and whose line is not decided.
#[derive(Clone, Copy)]
pub struct PendingCheck {
    /// The number of the check, from 1.
    pub check: u64,
    /// The number of its command, from 1.
    pub command: u64,
    /// Whether a model was printed for it. Each model so far is confirmed.
    pub some_model: bool,
}

/// The lines that a command decides, in this order.
#[derive(Clone, Copy)]
pub struct NewLines {
    /// The line of the check before: the command ends its window, or prints a model for it that is not confirmed.
    pub ended: Option<Line>,
    /// The command's own line, where it is a check that was not answered `sat`.
    pub own: Option<Line>,
}

impl NewLines {
    /// At most the line of the check before.
    pub(crate) fn of_ended(ended: Option<Line>) -> Self
        ensures { result ≡ record { ended = ended; own = None } }
    {
        NewLines { ended, own: None }
    }
}

/// The checks so far: how many steps the evaluation of a model may take, and how many checks there were. `pending` is
/// the last check, where it was answered `sat` and its line is not decided.
#[derive(Drop)]
pub struct Checks {
    pub limit: Limit,
    pub count: u64,
    pub pending: Option<PendingCheck>,
    /// The machine that evaluates the models, one after another.
    pub machine: Machine,
}

impl Checks {
    /// The state before the first check.
    pub(crate) fn new(alloc: Global, limit: Limit) -> Self
        ensures checks { checks_state result
            ≡ record { limit = limit.steps; count = 0; pending = None } }
        ensures limit { result.limit ≡ limit }
    {
        Checks {
            limit,
            count: 0,
            pending: None,
            machine: Machine::new(alloc),
        }
    }

    /// Adds a command of this number (from 1) and kind, with its answer. `stack` holds what is in force after the
    /// command. Returns the lines that it decides. An answer that is a model is gone afterwards.
    pub(crate) fn take(
        &mut self,
        number: u64,
        kind: Kind,
        answer: &mut Option<TakenAnswer>,
        stack: &Stack,
    ) -> Result<NewLines, Memory>
        requires count { self.old.count + 1 < 2 ^ 64 }
        requires stands { (commands : List Numbered) × StandsFor stack.now commands }
        requires known { AreKnown answer.old }
        ensures limit { self.new.limit ≡ self.old.limit }
        ensures checks { IfOk result (λ lines. (commands : List Numbered)
            → StandsFor stack.now commands → step_of self.new lines
            ≡ checks_after (checks_state self.old) (signature_in_force (profile_of stack.now) commands)
            (claims_in_force (profile_of stack.now) commands) number kind (option_map tree_of answer.old)) }
    {
        match kind {
            Kind::Check => Ok(self.take_check(number, answer)),
            Kind::Model => self.judge_answer(number, answer, stack),
            Kind::Logic { .. } | Kind::Change | Kind::Reset => Ok(self.end_window_if(answer)),
            Kind::PrintSuccess { .. } | Kind::Setting | Kind::Exit => Ok(NewLines::of_ended(None)),
            Kind::Echo | Kind::Query => Ok(NewLines::of_ended(None)),
        }
    }

    // Adds a check: it ends the window of the check before it, and begins one if its answer is `sat`.
    fn take_check(&mut self, number: u64, answer: &Option<TakenAnswer>) -> NewLines
        requires count { self.old.count + 1 < 2 ^ 64 }
        requires known { AreKnown answer.now }
        ensures limit { self.new.limit ≡ self.old.limit }
        ensures checks { step_of self.new result ≡ with_check (checks_state self.old) number
            (option_map answer_of (option_map tree_of answer.now)) }
    {
        let ended = self.end_window();
        self.count += 1;
        let own = match answer {
            Some(answer) => self.begin_window(number, answer.says),
            None => None,
        };
        NewLines { ended, own }
    }

    // Begins the window of the last check, if its answer is `sat`; otherwise returns the line of that check.
    fn begin_window(&mut self, command: u64, answer: Answer) -> Option<Line>
        requires { self.old.pending ≡ None }
        ensures limit { self.new.limit ≡ self.old.limit }
        ensures count { self.new.count ≡ self.old.count }
        ensures pending { self.new.pending ≡ begun self.old.count command (Some answer) }
        ensures line { result ≡ own_line self.old.count command (Some answer) }
    {
        let check = self.count;
        if let Answer::Sat = answer {
            self.pending = Some(PendingCheck {
                check,
                command,
                some_model: false,
            });
        }
        match answer.unchecked() {
            Some(answer) => Some(Line::Unchecked {
                check,
                command,
                answer,
            }),
            None => None,
        }
    }

    // Judges an answer in the window of a check, if it is a model.
    fn judge_answer(
        &mut self,
        number: u64,
        answer: &mut Option<TakenAnswer>,
        stack: &Stack,
    ) -> Result<NewLines, Memory>
        requires stands { (commands : List Numbered) × StandsFor stack.now commands }
        requires known { AreKnown answer.old }
        ensures limit { self.new.limit ≡ self.old.limit }
        ensures checks { IfOk result (λ lines. (commands : List Numbered)
            → StandsFor stack.now commands → step_of self.new lines
            ≡ with_models (checks_state self.old) self.old.pending (signature_in_force (profile_of stack.now) commands)
            (claims_in_force (profile_of stack.now) commands) number (is_effective_with (option_map tree_of answer.old))
            (option_map tree_of answer.old)) }
    {
        let Some(pending) = self.pending else {
            return Ok(NewLines::of_ended(None));
        };
        match answer.take() {
            Some(
                TakenAnswer {
                    says: Answer::List,
                    tree,
                },
            ) => self.judge_model(pending, number, tree, stack),
            _ => Ok(NewLines::of_ended(None)),
        }
    }

    // Judges a model that was printed in the window of a check.
    fn judge_model(
        &mut self,
        pending: PendingCheck,
        number: u64,
        model: OwnedTree,
        stack: &Stack,
    ) -> Result<NewLines, Memory>
        requires stands { (commands : List Numbered) × StandsFor stack.now commands }
        requires list { is_list (sexp_of model) ≡ true }
        ensures limit { self.new.limit ≡ self.old.limit }
        ensures checks { IfOk result (λ lines. (commands : List Numbered) (items : Sexps)
            → StandsFor stack.now commands → sexp_of model ≡ Items items → step_of self.new lines
            ≡ with_line (checks_state self.old) pending
            (check_lines.line_of_judgement pending.check pending.command number
            (judgement_of self.old.limit.steps (signature_in_force (profile_of stack.now) commands)
            (claims_in_force (profile_of stack.now) commands) items))) }
    {
        let judgement = judge(&mut self.machine, stack, model, self.limit)?;
        // (the machine gives up large memory now, and not when the next model comes)
        self.machine.forget();
        let line = line_of_judgement(pending, number, judgement);
        self.pending = if line.is_some() {
            None
        } else {
            Some(PendingCheck {
                some_model: true,
                ..pending
            })
        };
        Ok(NewLines::of_ended(line))
    }

    // Ends the window of the last check, if by this answer the command took effect.
    fn end_window_if(&mut self, answer: &Option<TakenAnswer>) -> NewLines
        requires { AreKnown answer.now }
        ensures limit { self.new.limit ≡ self.old.limit }
        ensures checks { step_of self.new result
            ≡ (if is_effective_with (option_map tree_of answer.now) then with_window_ended
            (checks_state self.old) else unchanged (checks_state self.old)) }
    {
        if took_effect(answer) {
            NewLines::of_ended(self.end_window())
        } else {
            NewLines::of_ended(None)
        }
    }

    /// Ends the window of the last check, and returns its line, if that was not decided before: each model in the
    /// window is confirmed, or there is none.
    pub(crate) fn end_window(&mut self) -> Option<Line>
        ensures limit { self.new.limit ≡ self.old.limit }
        ensures line { result ≡ closing_line self.old.pending }
        ensures ended { self.new.pending ≡ None }
        ensures count { self.new.count ≡ self.old.count }
    {
        let pending = self.pending.take()?;
        Some(confirmed_line(pending))
    }
}

// The line of a check at the end of its window: all its models are confirmed, or it has none.
fn confirmed_line(pending: PendingCheck) -> Line
    ensures { result ≡ check_lines.confirmed_line pending.check pending.command pending.some_model }
{
    let check = pending.check;
    let command = pending.command;
    if pending.some_model {
        Line::Confirmed { check, command }
    } else {
        Line::NoModel { check, command }
    }
}

// The line of a check for a model that the command of number `model` printed; `None` where it is confirmed.
fn line_of_judgement(pending: PendingCheck, model: u64, judgement: Judgement) -> Option<Line>
    ensures { result ≡ check_lines.line_of_judgement pending.check pending.command model judgement }
{
    let check = pending.check;
    let command = pending.command;
    match judgement {
        Judgement::ItemFault { item, flaw } => Some(Line::ItemFault {
            check,
            command,
            model,
            item,
            flaw,
        }),
        Judgement::Lacks { declaration } => Some(Line::Lacks {
            check,
            command,
            model,
            declaration,
        }),
        Judgement::TooLong => Some(Line::TooLong {
            check,
            command,
            model,
        }),
        Judgement::Refuted { claim } => Some(Line::Refuted {
            check,
            command,
            model,
            claim,
        }),
        Judgement::NotDecided { claim } => Some(Line::NotDecided {
            check,
            command,
            model,
            claim,
        }),
        Judgement::Confirmed => None,
    }
}
