//! A text that is at hand, read a piece at a time as a run reads it, with the places of its trees. This file knows no
//! command.

ghost use Rattle.std.specs.Prelude.{◌≡◌, ◌≤◌, ◌<◌, ◌^◌, length};
ghost use Rattle.smt_text.specs.Reader.{bytes_fed, is_finished};

use crate::need::Need;
use crate::next_answer::{NextAnswer, take_answer};
use crate::runs::PIECE;
use crate::tree_queue::{Ahead, TreeQueue};
use smt_eval::Memory;
use smt_text::laws::{every_text_reads, one_reading, read_faults_stay, read_trees_stay};
use smt_text::{Span, gap_length};
use smt_trees::OwnedTree;
use std::alloc::Global;

/// A text at hand, of which the first `fed` bytes were fed. The last tree that was read begins after `start` bytes.
#[derive(Drop)]
pub struct GivenText<'t> {
    text: &'t [u8],
    fed: usize,
    ended: bool,
    start: u64,
    queue: TreeQueue,
    ghost fed_so: { bytes_fed queue.reader ≡ fed },
    ghost within: { fed ≤ length text.now },
    ghost finished: { is_finished queue.reader ≡ ended },
    ghost small: { fed < 2 ^ 64 },
}

impl<'t> GivenText<'t> {
    ghost use Rattle.std.specs.Prelude.{true};
    ghost use Rattle.smt_dialogue.specs.FirstFault.{TextSoFar};
    ghost use Rattle.smt_dialogue.specs.Report.{IsRead};
    ghost use Rattle.smt_dialogue.specs.Internal.GivenView.{HasGiven};

    /// A text of which nothing was read.
    pub(crate) fn new(alloc: Global, text: &'t [u8], max_depth: usize) -> GivenText<'t>
        ensures given { (whole : TextSoFar) → IsRead max_depth true text.now whole
            → HasGiven result whole whole.trees }
    {
        // Laws: what is read of the beginning of a text is read of the whole text too.
        every_text_reads();
        one_reading();
        read_faults_stay();
        read_trees_stay();
        GivenText {
            text,
            fed: 0,
            ended: false,
            start: 0,
            queue: TreeQueue::new(alloc, max_depth),
        }
    }
}

impl GivenText<'_> {
    ghost use Rattle.std.specs.Prelude.{◌||◌, IfOk, MatchOption, None, Some, false, not};
    ghost use Rattle.smt_trees.specs.Sexp.{Cons, Sexps};
    ghost use Rattle.smt_trees.specs.Owned.{sexp_of};
    ghost use Rattle.smt_dialogue.specs.FirstFault.{TextSoFar};
    ghost use Rattle.smt_dialogue.specs.Internal.GivenView.{HasGiven, IsLooked, IsTakenOf, unfed};
    ghost use Rattle.smt_dialogue.specs.Internal.NextAnswerView.{IsKnown};
    ghost use Rattle.smt_dialogue.specs.Internal.TreeQueueView.{is_wait};

    // Feeds the next piece, or the end.
    fn feed(&mut self)
        requires unended { self.old.ended ≡ false }
        ensures given { (whole : TextSoFar) (rest : Sexps) → HasGiven self.old whole rest
            → HasGiven self.new whole rest }
        ensures less { unfed self.new < unfed self.old }
    {
        every_text_reads();
        one_reading();
        read_faults_stay();
        read_trees_stay();
        let rest = &self.text[self.fed..];
        if rest.is_empty() {
            self.queue.finish();
            self.ended = true;
            return;
        }
        let count = rest.len().min(PIECE);
        self.queue.feed(&rest[..count]);
        self.fed += count;
    }

    /// What comes next, with as much fed as that takes.
    pub(crate) fn look(&mut self) -> Result<Ahead, Memory>
        ensures looked { IfOk result (λ ahead. (whole : TextSoFar) (rest : Sexps)
            → HasGiven self.old whole rest → IsLooked ahead self.new whole rest) }
    {
        self.start = self.next_start();
        loop {
            let ahead = self.queue.look()?;
            if self.is_settled(ahead) {
                return Ok(ahead);
            }
            self.feed();
        }
    }

    // Where the last tree ends before the one that comes next.
    fn next_start(&self) -> u64 {
        match self.queue.next {
            Some(_) => self.start,
            None => self.queue.reader.tree_end(),
        }
    }

    // Whether no more has to be fed to know what comes next.
    fn is_settled(&self, ahead: Ahead) -> bool
        ensures { result ≡ (self.now.ended || not (is_wait ahead)) }
    {
        self.ended || !ahead.is_wait()
    }

    /// Takes the tree that comes next, once it was looked at.
    pub(crate) fn take(&mut self) -> Option<OwnedTree>
        ensures taken { MatchOption result (self.old.queue.next ≡ None)
            (λ tree. (self.old.queue.next ≡ Some tree)
            × ((whole : TextSoFar) (later : Sexps) → HasGiven self.old whole (Cons (sexp_of tree) later)
            → HasGiven self.new whole later)) }
    {
        self.queue.take()
    }

    /// Takes the answer of a command that needs this.
    pub(crate) fn take_answer(&mut self, need: Need) -> Result<NextAnswer, Memory>
        ensures taken { IfOk result (λ found. (whole : TextSoFar) (rest : Sexps)
            → HasGiven self.old whole rest → IsTakenOf found need whole rest self.new) }
        ensures known { IfOk result (λ found. IsKnown found) }
    {
        if let Need::Nothing = need {
            return Ok(NextAnswer::Takes(None));
        }
        self.look()?;
        take_answer(need, &mut self.queue)
    }

    /// Where the last tree stands that was read.
    pub(crate) fn span(&self) -> Span {
        let start = usize::try_from(self.start).unwrap_or(usize::MAX);
        let gap = match self.text.get(start..) {
            Some(rest) => gap_length(rest) as u64,
            None => 0,
        };
        Span {
            start: self.start.saturating_add(gap),
            end: self.queue.reader.tree_end(),
        }
    }
}
