//! Trees, built from tokens in order. This file knows no bytes of a text.

ghost use Rattle.std.specs.Prelude.{◌≡◌, [], ◌∷◌, ◌++◌, length, IfOk, IfSome};
ghost use Rattle.smt_text.specs.Internal.ReaderState.{place_of};

use crate::mark::Mark;
use smt_faults::Memory;
use smt_trees::{Kind, OwnedTree, SpareTrees, Tape, Word};
use std::alloc::Global;
use std::collections::VecDeque;

/// The trees of the tokens so far.
#[derive(Drop)]
pub(crate) struct Builder {
    alloc: Global,
    /// The list at the top that is not closed, if there is one, and the lists in it.
    list: Tape,
    /// The trees at the top that were not returned yet.
    ready: VecDeque<Ready>,
    /// The place, in the whole text, at which the piece ends that is read.
    pub(crate) limit: u64,
    spare: SpareTrees,
}

/// A tree at the top, and how many bytes the text has up to its end.
#[derive(Drop)]
pub(crate) struct Ready {
    pub(crate) tree: OwnedTree,
    pub(crate) end: u64,
}

impl Builder {
    ghost use Rattle.std.specs.Prelude.{◌<◌, ◌==◌, MatchOption};
    ghost use Rattle.smt_text.specs.Internal.LexerStates.{On, add, begun, ended, depth_of};
    ghost use Rattle.smt_text.specs.Internal.ReaderState.{levels_of, EndsTree, KeepsText};
    ghost use Rattle.smt_trees.specs.Sexp.{Atom, Nil, Reserved};
    ghost use Rattle.smt_trees.specs.Tape.{kind_of};
    ghost use Rattle.smt_trees.specs.TapeView.{text_of, Holds};

    pub(crate) fn new(alloc: Global) -> Self
        ensures levels { levels_of result ≡ On [] Nil }
        ensures ready { result.ready.items ≡ [] }
    {
        Builder {
            alloc,
            list: Tape::new(alloc),
            ready: VecDeque::new(alloc),
            limit: 0,
            spare: SpareTrees::new(alloc),
        }
    }

    /// The number of lists that are not closed.
    #[inline(always)]
    pub(crate) fn depth(&self) -> usize
        ensures { result ≡ depth_of (levels_of self.now) }
    {
        self.list.depth()
    }

    /// Whether no bytes are offered.
    #[inline(always)]
    pub(crate) fn is_text_taken(&self) -> bool
        ensures { result ≡ (length (text_of self.now.list) == 0) }
    {
        self.list.text_len() == 0
    }

    /// Offers bytes, which the next atoms may be among, in the place of those that were offered before. Returns their
    /// place.
    #[inline(always)]
    pub(crate) fn offer(&mut self, bytes: &[u8]) -> Result<usize, Memory>
        ensures levels { IfOk result (λ _. levels_of self.new ≡ levels_of self.old) }
        ensures held { IfOk result (λ place. Holds self.new.list place bytes.now) }
        ensures ready { self.new.ready ≡ self.old.ready }
        ensures limit { self.new.limit ≡ self.old.limit }
    {
        Ok(self.list.offer(bytes)?)
    }

    /// Adds an atom, which ends at a mark, to the innermost list that is not closed, or at the top. Its bytes may be
    /// among those that were offered, at this place.
    #[inline(always)]
    pub(crate) fn add_atom(
        &mut self,
        kind: Kind,
        bytes: &[u8],
        at: Option<usize>,
        end: Mark,
    ) -> Result<(), Memory>
        requires { IfSome at (λ place. Holds self.old.list place bytes.now) }
        ensures levels { IfOk result
            (λ _. levels_of self.new ≡ add (Atom (kind_of kind) bytes.now) (levels_of self.old)) }
        ensures ready { IfOk result (λ _. EndsTree end self.old self.new) }
        ensures limit { self.new.limit ≡ self.old.limit }
        ensures text { IfSome at (λ _. text_of self.new.list ≡ text_of self.old.list) }
    {
        if self.list.depth() == 0 {
            return self.add_top(kind, bytes, end);
        }
        match at {
            Some(place) => self.list.add_offered(kind, place, bytes.len())?,
            None => self.list.add_atom(kind, bytes)?,
        }
        Ok(())
    }

    /// Adds a reserved word, which ends at a mark, to the innermost list that is not closed, or at the top.
    #[inline(always)]
    pub(crate) fn add_word(&mut self, word: Word, end: Mark) -> Result<(), Memory>
        ensures levels { IfOk result (λ _. levels_of self.new ≡ add (Reserved word) (levels_of self.old)) }
        ensures ready { IfOk result (λ _. EndsTree end self.old self.new) }
        ensures limit { self.new.limit ≡ self.old.limit }
        ensures text { text_of self.new.list ≡ text_of self.old.list }
    {
        if self.list.depth() == 0 {
            let word = OwnedTree::word(self.alloc, word)?;
            return push_ready(&mut self.ready, word, self.limit, end);
        }
        self.list.add_word(word)?;
        Ok(())
    }

    /// Begins a list.
    #[inline(always)]
    pub(crate) fn begin_list(&mut self) -> Result<(), Memory>
        ensures levels { IfOk result (λ _. levels_of self.new ≡ begun (levels_of self.old)) }
        ensures ready { self.new.ready ≡ self.old.ready }
        ensures limit { self.new.limit ≡ self.old.limit }
        ensures text { text_of self.new.list ≡ text_of self.old.list }
    {
        self.list.begin_list()?;
        Ok(())
    }

    /// Closes the innermost list, which ends at a mark.
    #[inline(always)]
    pub(crate) fn end_list(&mut self, end: Mark) -> Result<(), Memory>
        requires { 0 < depth_of (levels_of self.old) }
        ensures levels { IfOk result (λ _. ended (levels_of self.old) ≡ levels_of self.new) }
        ensures ready { IfOk result (λ _. EndsTree end self.old self.new) }
        ensures limit { self.new.limit ≡ self.old.limit }
        ensures text { IfOk result (λ _. KeepsText self.old self.new) }
    {
        if self.list.depth() == 1 {
            return self.end_top(end);
        }
        self.list.end_list()?;
        Ok(())
    }

    // Adds an atom at the top, which ends at a mark.
    #[inline(never)]
    fn add_top(&mut self, kind: Kind, bytes: &[u8], end: Mark) -> Result<(), Memory>
        requires { depth_of (levels_of self.old) ≡ 0 }
        ensures levels { IfOk result
            (λ _. levels_of self.new ≡ add (Atom (kind_of kind) bytes.now) (levels_of self.old)) }
        ensures ready { IfOk result (λ _. EndsTree end self.old self.new) }
        ensures limit { self.new.limit ≡ self.old.limit }
        ensures list { self.new.list ≡ self.old.list }
    {
        let atom = OwnedTree::atom_in(self.alloc, &mut self.spare, kind, bytes)?;
        push_ready(&mut self.ready, atom, self.limit, end)
    }

    // Closes the list at the top, which ends at a mark.
    #[inline(never)]
    fn end_top(&mut self, end: Mark) -> Result<(), Memory>
        requires { depth_of (levels_of self.old) ≡ 1 }
        ensures levels { IfOk result (λ _. ended (levels_of self.old) ≡ levels_of self.new) }
        ensures ready { IfOk result (λ _. EndsTree end self.old self.new) }
        ensures limit { self.new.limit ≡ self.old.limit }
        ensures text { IfOk result (λ _. text_of self.new.list ≡ []) }
    {
        let list = self.list.take_in(self.alloc, &mut self.spare)?;
        push_ready(&mut self.ready, list, self.limit, end)
    }

    /// Accepts a tree that is done with, for its memory.
    pub(crate) fn give_back(&mut self, tree: OwnedTree)
        ensures list { self.new.list ≡ self.old.list }
        ensures ready { self.new.ready ≡ self.old.ready }
        ensures limit { self.new.limit ≡ self.old.limit }
    {
        self.spare.give(tree);
    }

    /// Takes the first of the trees that are ready; `None` where none is.
    pub(crate) fn hand_out(&mut self) -> Option<Ready>
        ensures list { self.new.list ≡ self.old.list }
        ensures first { MatchOption result ((self.old.ready.items ≡ []) × (self.new.ready.items ≡ []))
            (λ first. self.old.ready.items ≡ first ∷ self.new.ready.items) }
    {
        self.ready.pop_front()
    }
}

// Appends a tree, which ends at a mark, to those that are ready. The piece ends at the limit. Few trees are at the
// top, so this is not inlined, and only here the place of a mark is worked out.
#[inline(never)]
fn push_ready(
    ready: &mut VecDeque<Ready>,
    tree: OwnedTree,
    limit: u64,
    end: Mark,
) -> Result<(), Memory>
    ensures { IfOk result
        (λ _. ready.new.items ≡ ready.old.items ++ record { tree = tree; end = place_of limit end } ∷ []) }
{
    let end = end.place(limit);
    ready.push_back(Ready { tree, end })?;
    Ok(())
}
