//! Texts that come in pieces, and whose trees are read as the pieces come. This file knows no commands.

ghost use Rattle.std.specs.Prelude.{◌≡◌, ◌<◌, ◌+◌, ◌++◌, ◌^◌, List, [], ℕ, IfOk, MatchOption, None, Some, false};
ghost use Rattle.std.specs.Prelude.{length, true};
ghost use Rattle.smt_text.specs.Reader.{bytes_fed, depth_limit, is_finished};
ghost use Rattle.smt_trees.specs.Sexp.{Cons, Sexps};
ghost use Rattle.smt_trees.specs.Owned.{sexp_of};
ghost use Rattle.smt_dialogue.specs.FirstFault.{TextSoFar};
ghost use Rattle.smt_dialogue.specs.Report.{IsRead};
ghost use Rattle.smt_dialogue.specs.Internal.TreeQueueView.{GoesOnFrom, HasQueue, IsAhead, is_wait};

use smt_eval::Memory;
use smt_faults::TextFlaw;
use smt_text::laws::{one_reading, read_faults_stay, read_trees_stay};
use smt_text::{Next, Reader};
use smt_trees::OwnedTree;
use std::alloc::Global;

/// A text so far: the reader of its pieces, and the next tree, once `look` has read it.
#[derive(Drop)]
pub struct TreeQueue {
    pub reader: Reader,
    pub next: Option<OwnedTree>,
}

/// What comes next in a text so far.
#[derive(Clone, Copy)]
pub enum Ahead {
    /// A tree, which is ready.
    Tree,
    /// No further tree is complete, and more of the text may come.
    Wait,
    /// No further tree comes. With the fault after the last tree, if there is one.
    End(Option<TextFlaw>),
}

impl Ahead {
    /// Whether more of the text is waited for.
    pub(crate) fn is_wait(self) -> bool
        ensures { result ≡ is_wait self }
    {
        matches!(self, Ahead::Wait)
    }
}

impl TreeQueue {
    /// A text of which nothing has come, whose lists nest no deeper than `max_depth`.
    pub(crate) fn new(alloc: Global, max_depth: usize) -> Self
        ensures front { (text : TextSoFar) → IsRead max_depth false [] text
            → HasQueue result [] text text.trees }
        ensures limit { depth_limit result.reader ≡ max_depth }
        ensures fed { bytes_fed result.reader ≡ 0 }
        ensures open { is_finished result.reader ≡ false }
    {
        TreeQueue {
            reader: Reader::new(alloc, max_depth),
            next: None,
        }
    }

    /// Feeds a piece of the text.
    pub(crate) fn feed(&mut self, piece: &[u8])
        requires open { is_finished self.old.reader ≡ false }
        requires room { bytes_fed self.old.reader + length piece.now < 2 ^ 64 }
        ensures goes_on { (bytes : List ℕ)
            → GoesOnFrom self.old self.new bytes false (bytes ++ piece.now) }
        ensures next { self.new.next ≡ self.old.next }
        ensures fed { bytes_fed self.new.reader ≡ bytes_fed self.old.reader + length piece.now }
        ensures finished { is_finished self.new.reader ≡ false }
        ensures limit { depth_limit self.new.reader ≡ depth_limit self.old.reader }
    {
        // Laws: a text has one reading, and trees and faults that are read stay.
        one_reading();
        read_faults_stay();
        read_trees_stay();
        self.reader.feed(piece);
    }

    /// Accepts the end of the text.
    pub(crate) fn finish(&mut self)
        requires open { is_finished self.old.reader ≡ false }
        ensures goes_on { (bytes : List ℕ) → GoesOnFrom self.old self.new bytes true bytes }
        ensures next { self.new.next ≡ self.old.next }
        ensures fed { bytes_fed self.new.reader ≡ bytes_fed self.old.reader }
        ensures finished { is_finished self.new.reader ≡ true }
        ensures limit { depth_limit self.new.reader ≡ depth_limit self.old.reader }
    {
        one_reading();
        read_faults_stay();
        read_trees_stay();
        self.reader.finish();
    }

    /// What comes next. A tree that is ready stays in the queue.
    pub(crate) fn look(&mut self) -> Result<Ahead, Memory>
        ensures ahead { IfOk result (λ ahead. (bytes : List ℕ) (text : TextSoFar) (rest : Sexps)
            → HasQueue self.old bytes text rest
            → HasQueue self.new bytes text rest × IsAhead ahead self.new.next text rest) }
        ensures fed { bytes_fed self.new.reader ≡ bytes_fed self.old.reader }
        ensures finished { is_finished self.new.reader ≡ is_finished self.old.reader }
        ensures limit { depth_limit self.new.reader ≡ depth_limit self.old.reader }
    {
        // A law: a text has one reading.
        one_reading();
        if self.next.is_some() {
            return Ok(Ahead::Tree);
        }
        match self.reader.next() {
            Next::Tree(tree) => {
                self.next = Some(tree);
                Ok(Ahead::Tree)
            }
            Next::Wait => Ok(Ahead::Wait),
            Next::End => Ok(Ahead::End(None)),
            Next::Fault(fault) => match fault.flaw() {
                Some(flaw) => Ok(Ahead::End(Some(flaw))),
                None => Err(Memory),
            },
        }
    }

    /// Accepts a tree that is done with: a tree that is read later has its memory.
    pub(crate) fn give_back(&mut self, tree: OwnedTree)
        ensures queue { (bytes : List ℕ) (text : TextSoFar) (rest : Sexps)
            → HasQueue self.old bytes text rest → HasQueue self.new bytes text rest }
        ensures next { self.new.next ≡ self.old.next }
        ensures fed { bytes_fed self.new.reader ≡ bytes_fed self.old.reader }
        ensures finished { is_finished self.new.reader ≡ is_finished self.old.reader }
        ensures limit { depth_limit self.new.reader ≡ depth_limit self.old.reader }
    {
        self.reader.give_back(tree);
    }

    /// Takes the ready tree out of the queue; `None` where no tree is ready.
    pub(crate) fn take(&mut self) -> Option<OwnedTree>
        ensures taken { MatchOption result (self.old.next ≡ None)
            (λ tree. (self.old.next ≡ Some tree)
            × ((bytes : List ℕ) (text : TextSoFar) (later : Sexps)
            → HasQueue self.old bytes text (Cons (sexp_of tree) later)
            → HasQueue self.new bytes text later)) }
        ensures fed { bytes_fed self.new.reader ≡ bytes_fed self.old.reader }
        ensures finished { is_finished self.new.reader ≡ is_finished self.old.reader }
        ensures limit { depth_limit self.new.reader ≡ depth_limit self.old.reader }
    {
        self.next.take()
    }
}
