//! The checked arguments of terms that are not yet checked themselves: their sorts and their nodes. This file knows
//! no trees and no names.

ghost use Rattle.std.specs.Prelude.{◌≡◌, length};
ghost use Rattle.std.proofs.Props.{props};

use crate::library::frames::Frame;
use smt_faults::Memory;
use smt_nodes::TermId;
use smt_theory::Sort;
use std::alloc::Global;
use std::mem;

// The most arguments for which a clear keeps memory.
const FEW: usize = 1024;

/// The sorts and the nodes of arguments, those of the innermost term last. The checker removes the arguments of a
/// term once it has checked the term.
#[derive(Drop)]
pub(crate) struct Arguments {
    sorts: Vec<Sort>,
    terms: Vec<TermId>,
    // The memory of the frames of the term that was checked last.
    frames: Vec<Frame>,
    ghost paired: { length terms.items ≡ length sorts.items } by { Prim.hlevel props },
}

impl Arguments {
    ghost use Rattle.std.specs.Prelude.{◌≡◌, ◌≤◌, ◌++◌, ◌∷◌, [], drop, length, take, OnOk};
    ghost use Rattle.smt_terms.specs.Internal.DraftView.{sorts_from, argument_sorts, terms_from, argument_terms};

    /// No arguments.
    pub(crate) fn new(alloc: Global) -> Arguments
        ensures { argument_sorts result ≡ [] }
    {
        Arguments {
            sorts: Vec::new(alloc),
            terms: Vec::new(alloc),
            frames: Vec::new(alloc),
        }
    }

    /// No frames, in memory that is kept from term to term.
    #[inline(always)]
    pub(crate) fn take_frames(&mut self, alloc: Global) -> Vec<Frame>
        ensures none { result.items ≡ [] }
        ensures sorts { argument_sorts self.new ≡ argument_sorts self.old }
        ensures terms { argument_terms self.new ≡ argument_terms self.old }
    {
        let mut frames = mem::replace(&mut self.frames, Vec::new(alloc));
        frames.clear();
        frames
    }

    /// Keeps the memory of frames for the next term.
    #[inline(always)]
    pub(crate) fn keep_frames(&mut self, frames: Vec<Frame>)
        ensures sorts { argument_sorts self.new ≡ argument_sorts self.old }
        ensures terms { argument_terms self.new ≡ argument_terms self.old }
    {
        self.frames = frames;
    }

    /// The number of arguments.
    #[inline(always)]
    pub(crate) fn len(&self) -> usize
        ensures { result ≡ length (argument_sorts self.now) }
    {
        self.sorts.len()
    }

    /// The sorts of the arguments from this place on, from 0; the place is at most the number of arguments.
    #[inline(always)]
    pub(crate) fn sorts(&self, start: usize) -> &[Sort]
        requires { start ≤ length (argument_sorts self.now) }
        ensures { result.now ≡ sorts_from start self.now }
    {
        &self.sorts.as_slice()[start..]
    }

    /// The nodes of the arguments from this place on, from 0; the place is at most the number of arguments.
    #[inline(always)]
    pub(crate) fn terms(&self, start: usize) -> &[TermId]
        requires { start ≤ length (argument_sorts self.now) }
        ensures { result.now ≡ terms_from start self.now }
    {
        &self.terms.as_slice()[start..]
    }

    /// Adds an argument of this sort and node at the end, or fails with `Memory`.
    #[inline(always)]
    pub(crate) fn push(&mut self, sort: Sort, term: TermId) -> Result<(), Memory>
        ensures sorts { OnOk result (argument_sorts self.new ≡ argument_sorts self.old ++ sort ∷ []) }
        ensures terms { OnOk result (argument_terms self.new ≡ argument_terms self.old ++ term ∷ []) }
    {
        self.terms.reserve(1)?;
        self.sorts.push(sort)?;
        self.terms.push_reserved(term);
        Ok(())
    }

    /// Keeps the first `count` arguments, or all of them if there are fewer.
    #[inline(always)]
    pub(crate) fn truncate(&mut self, count: usize)
        ensures sorts { argument_sorts self.new ≡ take count (argument_sorts self.old) }
        ensures terms { argument_terms self.new ≡ take count (argument_terms self.old) }
    {
        self.sorts.truncate(count);
        self.terms.truncate(count);
    }

    /// Removes all arguments, and gives their memory back where it has room for more than 1,024 of them, or of frames.
    pub(crate) fn clear(&mut self, alloc: Global)
        ensures { argument_sorts self.new ≡ [] }
    {
        if self.sorts.capacity() > FEW || self.frames.capacity() > FEW {
            *self = Arguments::new(alloc);
        } else {
            self.truncate(0);
        }
    }
}
