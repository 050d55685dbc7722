//! A dialogue whose two texts are at hand, gone over once more with nothing judged: each command with its answer, where
//! both stand, and what is in force before the command. The turns are those of a run. This file evaluates nothing, and
//! makes no line.

ghost use Rattle.smt_script.specs.CommandView.{command_view};
ghost use Rattle.smt_script.specs.Stack.{Numbered};
ghost use Rattle.smt_script.specs.StackView as stacks;
ghost use Rattle.smt_script.specs.StackView.{last_of, profile_of, start_of};
ghost use Rattle.smt_faults.specs.Outcome.{TellsCommand};
ghost use Rattle.smt_dialogue.specs.Answers.{is_effective_with};
ghost use Rattle.smt_dialogue.specs.Pairs.{numbered_if};
ghost use Rattle.smt_dialogue.specs.Internal.AcceptedState.{flaw_if};
ghost use Rattle.smt_dialogue.specs.Internal.AnswerView.{tree_of};
ghost use Rattle.smt_dialogue.specs.Internal.ReplayView.{waiting};
ghost use Rattle.std.specs.Prelude.{◌≡◌, ◌≤◌, ◌<◌, ◌+◌, ◌++◌, List, None, IfErr, OnErr, OnOk, option_map};

use crate::answer::{TakenAnswer, took_effect};
use crate::given_text::GivenText;
use crate::need::{Need, need_of};
use crate::next_answer::NextAnswer;
use crate::options::Options;
use crate::pairing::trees_are_few;
use crate::tree_queue::Ahead;
use smt_eval::Memory;
use smt_script::{Command, CommandFault, Stack, read_command};
use smt_text::Span;
use smt_trees::{OwnedTree, Tree};
use std::alloc::Global;

/// The commands of a dialogue, one after another, each with its answer and with what is in force before it.
#[derive(Drop)]
pub struct Replay<'t> {
    stack: Stack,
    script: GivenText<'t>,
    answers: GivenText<'t>,
    /// How many commands were read.
    number: u64,
    /// The command in turn, and its answer.
    command: Option<OwnedTree>,
    answer: Option<TakenAnswer>,
    /// Whether the command in turn took effect, by its answer.
    effective: bool,
    /// Whether the command in turn has the answer that it needs, so that the dialogue may go on behind it.
    goes_on: bool,
    ghost effective_so: { effective ≡ is_effective_with (option_map tree_of answer) },
    ghost behind: { last_of stack + waiting command ≤ number },
}

impl<'t> Replay<'t> {
    ghost use Rattle.std.specs.Prelude.{[], IfOk, MatchOption, Some, is_some, true};
    ghost use Rattle.smt_trees.specs.Sexp.{Sexp};
    ghost use Rattle.smt_trees.specs.View.{sexp_of};
    ghost use Rattle.smt_dialogue.specs.Replays.{Dialogue, GrowsTo, HasAdvanced, IsAt, IsDialogue, IsNextAnswer};
    ghost use Rattle.smt_dialogue.specs.Replays.{Place, Stands, StandsFor, answer_in_turn, beginning, command_in_turn};
    ghost use Rattle.smt_dialogue.specs.Replays.{number_of};
    ghost use Rattle.smt_dialogue.specs.Internal.ReplaySteps.{HasApplied, HasFound, IsNeed};

    /// A dialogue of these texts, before its first command.
    pub fn new(alloc: Global, script: &'t [u8], answers: &'t [u8], options: Options) -> Replay<'t>
        ensures begins { (dialogue : Dialogue) → IsDialogue options script.now answers.now dialogue
            → Stands result dialogue (beginning dialogue) }
        ensures none { command_in_turn result ≡ None }
        ensures stands { StandsFor result [] }
        ensures number { number_of result ≡ 0 }
    {
        let max_depth = options.max_depth();
        Replay {
            stack: Stack::new(alloc, options.start()),
            script: GivenText::new(alloc, script, max_depth),
            answers: GivenText::new(alloc, answers, max_depth),
            number: 0,
            command: None,
            answer: None,
            effective: true,
            goes_on: true,
        }
    }

    /// Applies the command in turn, and goes on to the next one and its answer. Returns `false` where the dialogue
    /// ends: at the end of the script, or at its first fault. A refused command stays in turn as the last one. After an
    /// error the replay is of no more use.
    pub fn advance(&mut self) -> Result<bool, Memory>
        ensures advanced { IfOk result (λ goes_on. (dialogue : Dialogue) (place : Place)
            → Stands self.old dialogue place → HasAdvanced goes_on self.old self.new dialogue place) }
        ensures stands { IfOk result (λ goes_on. goes_on ≡ true → GrowsTo self.old self.new) }
        ensures number { IfOk result (λ goes_on. goes_on ≡ true → number_of self.new ≡ number_of self.old + 1) }
    {
        // A law: a text has no more trees than bytes, so that their number has room.
        trees_are_few();
        if !self.goes_on {
            return Ok(false);
        }
        if !self.apply()? {
            return Ok(false);
        }
        self.goes_on = false;
        let Ahead::Tree = self.script.look()? else {
            return Ok(false);
        };
        let Some(number) = self.number.checked_add(1) else {
            return Ok(false);
        };
        self.number = number;
        self.command = self.script.take();
        self.goes_on = self.find_answer()?;
        Ok(true)
    }

    // Applies the command in turn, if there is one and it took effect; `false` where it is refused.
    fn apply(&mut self) -> Result<bool, Memory>
        requires goes_on { self.old.goes_on ≡ true }
        ensures applied { IfOk result (λ applied. (dialogue : Dialogue) (place : Place)
            → Stands self.old dialogue place → HasApplied applied self.old self.new dialogue place) }
        ensures stands { IfOk result (λ applied. applied ≡ true → GrowsTo self.old self.new) }
        ensures number { self.new.number ≡ self.old.number }
        ensures none { IfOk result (λ applied. applied ≡ true → self.new.command ≡ None) }
    {
        let Some(tree) = &self.command else {
            return Ok(true);
        };
        let Ok(command) = read_command(self.stack.profile(), tree.view()) else {
            return Ok(false);
        };
        if let Err(fault) = apply_if(self.effective, &mut self.stack, self.number, &command) {
            return match fault.flaw() {
                Some(_) => Ok(false),
                None => Err(Memory),
            };
        }
        self.command = None;
        self.answer = None;
        self.effective = true;
        Ok(true)
    }

    // Finds the answer of the command in turn; `false` where the dialogue ends there.
    fn find_answer(&mut self) -> Result<bool, Memory>
        ensures found { IfOk result (λ goes_on. (dialogue : Dialogue) (place : Place)
            → IsAt self.old dialogue place → is_some self.old.command ≡ true → self.old.answer ≡ None
            → HasFound goes_on self.old self.new dialogue place) }
        ensures number { self.new.number ≡ self.old.number }
        ensures stack { self.new.stack ≡ self.old.stack }
    {
        let Some(need) = self.need() else {
            return Ok(false);
        };
        match self.answers.take_answer(need)? {
            NextAnswer::Takes(answer) => {
                self.effective = took_effect(&answer);
                self.answer = answer;
                Ok(true)
            }
            _ => Ok(false),
        }
    }

    // What the command in turn needs of the answers; `None` where it is refused before it is asked for one.
    fn need(&self) -> Option<Need>
        ensures { (dialogue : Dialogue) (place : Place) (tree : Sexp) → IsAt self.now dialogue place
            → command_in_turn self.now ≡ Some tree → IsNeed result tree dialogue place }
    {
        let Some(tree) = &self.command else {
            return None;
        };
        if self.stack.exited() {
            return None;
        }
        let profile = self.stack.profile();
        match read_command(profile, tree.view()) {
            Ok(command) => Some(need_of(profile, self.stack.print_success(), command.kind())),
            Err(_) => None,
        }
    }

    /// How many commands were read: the number of the command in turn, from 1, or 0 before the first one.
    pub fn number(&self) -> u64
        ensures { result ≡ number_of self.now }
    {
        self.number
    }

    /// The tree of the command in turn, and where it stands in the script.
    pub fn command(&self) -> Option<(Tree<'_>, Span)>
        ensures { MatchOption result (command_in_turn self.now ≡ None)
            (λ p. command_in_turn self.now ≡ Some (sexp_of p.0)) }
    {
        match &self.command {
            Some(tree) => Some((tree.view(), self.script.span())),
            None => None,
        }
    }

    /// The answer of the command in turn, and where it stands in the answers; `None` where it took none.
    pub fn answer(&self) -> Option<(Tree<'_>, Span)>
        ensures { MatchOption result (answer_in_turn self.now ≡ None)
            (λ p. answer_in_turn self.now ≡ Some (sexp_of p.0)) }
    {
        match &self.answer {
            Some(answer) => Some((answer.tree.view(), self.answers.span())),
            None => None,
        }
    }

    /// Where the next answer stands, once the dialogue has ended: one that does not fit, or is left over.
    pub fn next_answer(&mut self) -> Result<Option<Span>, Memory>
        ensures next { IfOk result (λ at. (dialogue : Dialogue) (place : Place) → Stands self.old dialogue place
            → Stands self.new dialogue place
            × IsNextAnswer (is_some at) (answer_in_turn self.new) place) }
        ensures command { command_in_turn self.new ≡ command_in_turn self.old }
        ensures answer { answer_in_turn self.new ≡ answer_in_turn self.old }
    {
        match self.answers.look()? {
            Ahead::Tree => Ok(Some(self.answers.span())),
            _ => Ok(None),
        }
    }

    /// What is in force before the command in turn.
    pub fn stack(&self) -> &Stack
        ensures { (commands : List Numbered) → StandsFor self.now commands → stacks.StandsFor result.now commands }
    {
        &self.stack
    }
}

// Applies a command to what is in force, if it took effect.
fn apply_if(
    effective: bool,
    stack: &mut Stack,
    number: u64,
    command: &Command<'_>,
) -> Result<(), CommandFault>
    requires last { last_of stack.old < number }
    ensures applied { OnOk result ((commands : List Numbered) → stacks.StandsFor stack.old commands
        → (flaw_if (profile_of stack.old) effective commands number (command_view command.now) ≡ None)
        × stacks.StandsFor stack.new (commands ++ numbered_if effective number (command_view command.now))) }
    ensures last { OnOk result (last_of stack.new ≤ number) }
    ensures refused { IfErr result (λ fault. (commands : List Numbered)
        → stacks.StandsFor stack.old commands
        → TellsCommand (flaw_if (profile_of stack.old) effective commands number (command_view command.now)) fault) }
    ensures unchanged { OnErr result
        (((commands : List Numbered) → stacks.StandsFor stack.old commands
        → stacks.StandsFor stack.new commands) × (last_of stack.new ≡ last_of stack.old)) }
    ensures start { start_of stack.new ≡ start_of stack.old }
{
    if effective {
        stack.apply(number, command)
    } else {
        Ok(())
    }
}
