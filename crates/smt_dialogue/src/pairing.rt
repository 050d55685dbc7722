//! Pairs commands with answers, as far as both texts have come. This file does not know what a command does.

ghost use Rattle.std.specs.Prelude.{◌≡◌, ◌<◌, ◌+◌, ◌^◌, ◌++◌, ℕ, List, [], IfOk, OnErr, None};
ghost use Rattle.std.specs.Prelude.{is_some, false, length, true};
ghost use Rattle.smt_text.specs.Reader.{bytes_fed, depth_limit, is_finished};
ghost use Rattle.smt_trees.specs.Sexp.{Nil, Sexps};
ghost use Rattle.smt_dialogue.specs.FirstFault.{TextSoFar};
ghost use Rattle.smt_dialogue.specs.Pairs.{Pair};
ghost use Rattle.smt_dialogue.specs.Depth.{max_depth_of};
ghost use Rattle.smt_dialogue.specs.Report.{IsRead};
ghost use Rattle.smt_dialogue.specs.SoFar.{IsBeginning};
ghost use Rattle.smt_dialogue.specs.Internal.AcceptedState.{options_of};
ghost use Rattle.smt_dialogue.specs.Internal.PairingView.{AllNext, AllTurned, AreLimited, AreLimitedAlike};
ghost use Rattle.smt_dialogue.specs.Internal.PairingView.{GoesOnWith, HasAdvanced, HasRoom};
ghost use Rattle.smt_dialogue.specs.Internal.PairingView.{IsAdvance, IsCut, IsFedAlike, IsTurned, IsUnderWay};
ghost use Rattle.smt_dialogue.specs.Internal.PairingView.{Texts, TreesAreFew, bytes_at, queue_at, waiting};
ghost use Rattle.smt_dialogue.specs.Internal.TreeQueueView.{HasQueue};

use crate::accepted::AcceptedPairs;
use crate::options::Options;
use crate::tree_queue::{Ahead, TreeQueue};
use crate::turn::{Turn, refused, take_up, text_fault};
use smt_eval::Memory;
use smt_report::{Line, Side, Summary};
use smt_script::{CommandFlaw, read_command};
use smt_text::laws::{every_text_reads, read_trees_stay, trees_are_no_more_than_bytes};
use smt_trees::OwnedTree;
use std::alloc::Global;

/// A law: no more trees are read from a text than it has bytes, whether its end was reported or not.
pub(crate) fn trees_are_few()
    ensures few { TreesAreFew }
{
    every_text_reads();
    read_trees_stay();
    trees_are_no_more_than_bytes();
}

/// How far the turns went.
#[derive(Clone, Copy)]
pub enum Advance {
    /// More turns may be left, and enough decided lines wait to be handed out first.
    Pauses,
    /// As far as both texts have come, or to the end of the dialogue, which then has this summary.
    Rests(Option<Summary>),
}

/// Both texts so far, and the dialogue of the pairs accepted from them.
#[derive(Drop)]
pub struct Pairing {
    pub dialogue: AcceptedPairs,
    pub script: TreeQueue,
    pub answers: TreeQueue,
    /// The tree in turn, if there is one: a command that waits for its answer.
    pub command: Option<OwnedTree>,
}

impl Pairing {
    /// The pairing of two texts of which nothing has come.
    pub(crate) fn new(alloc: Global, options: Options) -> Self
        ensures way { (script answers : TextSoFar) → IsRead (max_depth_of options.profile) false [] script
            → IsRead (max_depth_of options.profile) false [] answers
            → IsUnderWay result (record {
              script_bytes = [];
              script = script;
              answers_bytes = [];
              answers = answers;
              taken = [];
            }) [] script.trees answers.trees }
        ensures waiting { waiting result ≡ [] }
        ensures start { options_of result.dialogue ≡ options }
        ensures limits { AreLimited (max_depth_of options.profile) result }
        ensures script_fed { bytes_fed result.script.reader ≡ 0 }
        ensures answers_fed { bytes_fed result.answers.reader ≡ 0 }
        ensures script_open { is_finished result.script.reader ≡ false }
        ensures answers_open { is_finished result.answers.reader ≡ false }
    {
        let max_depth = options.max_depth();
        Pairing {
            dialogue: AcceptedPairs::new(alloc, options),
            script: TreeQueue::new(alloc, max_depth),
            answers: TreeQueue::new(alloc, max_depth),
            command: None,
        }
    }

    /// Returns the decided lines that wait, and keeps none.
    pub(crate) fn take_lines(&mut self) -> Vec<Line>
        ensures lines { result.items ≡ waiting self.old }
        ensures rest { waiting self.new ≡ [] }
        ensures way { (texts : Texts) (pairs : List Pair) (later rest : Sexps)
            → IsUnderWay self.old texts pairs later rest
            → IsUnderWay self.new (record texts { taken = texts.taken ++ result.items }) pairs later
            rest }
        ensures start { options_of self.new.dialogue ≡ options_of self.old.dialogue }
        ensures script { self.new.script ≡ self.old.script }
        ensures answers { self.new.answers ≡ self.old.answers }
        ensures command { self.new.command ≡ self.old.command }
        ensures commands { self.new.dialogue.commands ≡ self.old.dialogue.commands }
    {
        self.dialogue.decided.take()
    }

    /// Takes turns until the dialogue waits for more of a text, or ends. It pauses before that at a check whose
    /// models may come next, where at least `enough` lines wait by then. Where memory is refused, the waiting lines
    /// are the first of the decided lines.
    pub(crate) fn advance(&mut self, enough: Option<usize>) -> Result<Advance, Memory>
        requires script_room { bytes_fed self.old.script.reader < 2 ^ 64 }
        requires answers_room { bytes_fed self.old.answers.reader < 2 ^ 64 }
        requires way { (texts : Texts) × (pairs : List Pair) × (later : Sexps) × (rest : Sexps)
            × IsUnderWay self.old texts pairs later rest }
        ensures advanced { IfOk result (λ advance. (texts : Texts) (pairs : List Pair)
            (later rest : Sexps)
            → IsUnderWay self.old texts pairs later rest
            → HasAdvanced advance (options_of self.old.dialogue) self.new texts) }
        ensures paused { IfOk result (λ advance.
            IsAdvance advance enough self.old.dialogue.commands self.new.dialogue.commands) }
        ensures cut { OnErr result ((texts : Texts) (pairs : List Pair) (later rest : Sexps)
            → IsUnderWay self.old texts pairs later rest
            → IsCut (options_of self.old.dialogue) (waiting self.new) texts) }
        ensures kept { IsBeginning (waiting self.old) (waiting self.new) }
        ensures limits { AreLimitedAlike self.old self.new }
    {
        // A law: there are no more pairs than bytes, so that the turns come to an end.
        trees_are_few();
        loop {
            match self.take_turn()? {
                Turn::GoesOn => {
                    if self.dialogue.has_enough(enough) {
                        return Ok(Advance::Pauses);
                    }
                }
                Turn::Waits { closed } => {
                    self.dialogue.settle(closed)?;
                    return Ok(Advance::Rests(None));
                }
                Turn::Ends(fault) => {
                    let summary = self.dialogue.end(fault)?;
                    return Ok(Advance::Rests(Some(summary)));
                }
            }
        }
    }

    /// Feeds a piece of a text.
    pub(crate) fn feed(&mut self, side: Side, piece: &[u8])
        requires open { is_finished (queue_at side self.old).reader ≡ false }
        requires room { bytes_fed (queue_at side self.old).reader + length piece.now < 2 ^ 64 }
        ensures way { (texts : Texts)
            → GoesOnWith side self.old self.new texts false (bytes_at side texts ++ piece.now) }
        ensures dialogue { self.new.dialogue ≡ self.old.dialogue }
        ensures limits { AreLimitedAlike self.old self.new }
    {
        match side {
            Side::Script => self.script.feed(piece),
            Side::Answers => self.answers.feed(piece),
        }
    }

    /// Accepts the end of a text.
    pub(crate) fn finish(&mut self, side: Side)
        requires open { is_finished (queue_at side self.old).reader ≡ false }
        ensures way { (texts : Texts) → GoesOnWith side self.old self.new texts true
            (bytes_at side texts) }
        ensures dialogue { self.new.dialogue ≡ self.old.dialogue }
        ensures limits { AreLimitedAlike self.old self.new }
    {
        match side {
            Side::Script => self.script.finish(),
            Side::Answers => self.answers.finish(),
        }
    }

    /// Takes one turn: accepts the command in turn with its answer, or returns why it cannot.
    pub(crate) fn take_turn(&mut self) -> Result<Turn, Memory>
        requires room { HasRoom self.old }
        ensures turn { IfOk result (λ turn. AllTurned turn self.old self.new) }
        ensures fed { IsFedAlike self.old self.new }
        ensures start { IfOk result (λ _. options_of self.new.dialogue
            ≡ options_of self.old.dialogue) }
        ensures kept { IsBeginning (waiting self.old) (waiting self.new) }
        ensures cut { OnErr result (waiting self.new ≡ waiting self.old) }
    {
        if let Some(instead) = self.next_tree()? {
            return Ok(instead);
        }
        let Some(tree) = &self.command else {
            unreachable!()
        };
        let command = match read_command(self.dialogue.stack.profile(), tree.view()) {
            Ok(command) => command,
            Err(flaw) => {
                let number = self.dialogue.commands + 1;
                return Ok(Turn::Ends(Some(refused(number, flaw))));
            }
        };
        let turn = take_up(&mut self.dialogue, &command, &mut self.answers)?;
        if let Turn::GoesOn = turn {
            give_back(&mut self.script, &mut self.command);
        }
        Ok(turn)
    }

    // Takes the next tree of the script, if none is in turn. Where none can be taken, returns the turn instead.
    fn next_tree(&mut self) -> Result<Option<Turn>, Memory>
        requires room { HasRoom self.old }
        ensures next { IfOk result (λ turn. AllNext turn self.old self.new) }
        ensures fed { IsFedAlike self.old self.new }
        ensures dialogue { self.new.dialogue ≡ self.old.dialogue }
    {
        if self.command.is_some() {
            return Ok(None);
        }
        match self.script.look()? {
            Ahead::Tree => Ok(self.take_next()),
            Ahead::Wait => Ok(Some(Turn::Waits { closed: false })),
            Ahead::End(Some(flaw)) => {
                Ok(Some(Turn::Ends(Some(text_fault(Side::Script, flaw)))))
            },
            Ahead::End(None) => Ok(Some(self.end_of_script()?)),
        }
    }

    // The turn after the last command of a script that has ended. The dialogue waits for more answers or ends; an
    // answer that is left over is a fault, and so is a flaw of the answers.
    fn end_of_script(&mut self) -> Result<Turn, Memory>
        requires room { HasRoom self.old }
        requires none { self.old.command ≡ None }
        ensures turn { IfOk result (λ turn. (texts : Texts) (pairs : List Pair) (later rest : Sexps)
            → IsUnderWay self.old texts pairs later rest
            → later ≡ Nil → texts.script.fault ≡ None → texts.script.told ≡ true
            → IsTurned turn self.old self.new texts pairs later rest) }
        ensures fed { IsFedAlike self.old self.new }
        ensures dialogue { self.new.dialogue ≡ self.old.dialogue }
    {
        match self.answers.look()? {
            Ahead::Tree => Ok(Turn::Ends(Some(Line::ExtraAnswer {
                answer: self.dialogue.answers + 1,
            }))),
            Ahead::Wait => Ok(Turn::Waits { closed: true }),
            Ahead::End(Some(flaw)) => Ok(Turn::Ends(Some(text_fault(Side::Answers, flaw)))),
            Ahead::End(None) => Ok(Turn::Ends(None)),
        }
    }

    // Takes the ready tree as the one in turn. Behind an `exit`, returns the turn that ends the dialogue.
    fn take_next(&mut self) -> Option<Turn>
        requires none { self.old.command ≡ None }
        requires ready { is_some self.old.script.next ≡ true }
        requires commands { self.old.dialogue.commands + 1 < 2 ^ 64 }
        ensures next { AllNext result self.old self.new }
        ensures fed { IsFedAlike self.old self.new }
        ensures dialogue { self.new.dialogue ≡ self.old.dialogue }
    {
        if self.dialogue.stack.exited() {
            let number = self.dialogue.commands + 1;
            return Some(Turn::Ends(Some(refused(number, CommandFlaw::AfterExit))));
        }
        let Some(tree) = self.script.take() else {
            unreachable!()
        };
        self.command = Some(tree);
        None
    }
}

// Gives the memory of a command that was accepted to those of the script that are read later. It is no longer in turn.
#[inline(always)]
fn give_back(script: &mut TreeQueue, command: &mut Option<OwnedTree>)
    ensures command { command.new ≡ None }
    ensures queue { (bytes : List ℕ) (text : TextSoFar) (rest : Sexps)
        → HasQueue script.old bytes text rest → HasQueue script.new bytes text rest }
    ensures fed { bytes_fed script.new.reader ≡ bytes_fed script.old.reader }
    ensures finished { is_finished script.new.reader ≡ is_finished script.old.reader }
    ensures limit { depth_limit script.new.reader ≡ depth_limit script.old.reader }
{
    if let Some(tree) = command.take() {
        script.give_back(tree);
    }
}
