//! Assertion levels (SMT-LIB 2.6, sections 4.1.4 and 4.2.2), and what goes with them. This file knows no
//! names: it cuts the library back to what it held.

ghost use Rattle.std.specs.Prelude.{◌≡◌, ◌≤◌, IfErr, MatchOption, OnErr, OnOk};
ghost use Rattle.std.specs.Str.Parse.{digits_value};

use crate::stack::Stack;
use smt_faults::CommandFault;
use smt_terms::laws::{earlier_marks_are_kept, needed_nodes_are_enough, terms_have_nodes};
use smt_terms::{Library, Mark};
use smt_theory::{all_theories, number};

/// What was there before a level: how much of the library, and how many assertions.
#[derive(Clone, Copy)]
pub struct Level {
    pub(crate) mark: Mark,
    pub(crate) assertions: usize,
}

// The greatest number of levels.
const LIMIT: usize = 10_000;

impl Stack {
    ghost use Rattle.std.specs.Prelude.{◌<◌, ℕ, Some, [], length, slice_get};
    ghost use Rattle.smt_terms.specs.Contents.{contents_of};
    ghost use Rattle.smt_script.specs.Command.{AllButOptions, Pop, Pops, Push, Removing};
    ghost use Rattle.smt_script.specs.Command as commands;
    ghost use Rattle.smt_script.specs.Internal.Effect.{HasEffect, HasMore, HasNotesOf, IsCut, IsRefused};
    ghost use Rattle.smt_script.specs.Internal.Effect.{NamesAreDropped, NeedsLeft, NotesAll};
    ghost use Rattle.smt_script.specs.StackView.{HoldsAfter};

    // Adds levels. What is in force was there before each of them.
    pub(super) fn push(&mut self, digits: &[u8]) -> Result<(), CommandFault>
        ensures effect { OnOk result
            ((n : ℕ) → HasEffect self.old self.new n (Push (digits_value 10 digits.now))) }
        ensures held { contents_of self.new.library ≡ contents_of self.old.library }
        ensures refused { IfErr result
            (λ fault. (n : ℕ) → IsRefused self.old n (Push (digits_value 10 digits.now)) fault) }
        ensures unchanged { OnErr result (HasMore self.old self.new) }
    {
        terms_have_nodes();
        let Some(room) = LIMIT.checked_sub(self.levels.len()) else {
            return Err(CommandFault::TooDeep);
        };
        let Some(count) = count_to(room, digits) else {
            return Err(CommandFault::TooDeep);
        };
        let level = self.level();
        Ok(self.levels.push(level, count)?)
    }

    // The level that begins now.
    fn level(&self) -> Level
        ensures { NotesAll self.now result }
    {
        Level {
            mark: self.library.mark(),
            assertions: self.assertions.len(),
        }
    }

    // Removes levels, and what came in them.
    pub(super) fn pop(&mut self, digits: &[u8]) -> Result<(), CommandFault>
        ensures effect { OnOk result
            ((n : ℕ) → HasEffect self.old self.new n (Pop (digits_value 10 digits.now))) }
        ensures held { OnOk result (HoldsAfter self.old (Pops (digits_value 10 digits.now))
            (contents_of self.new.library)) }
        ensures refused { IfErr result
            (λ fault. (n : ℕ) → IsRefused self.old n (Pop (digits_value 10 digits.now)) fault) }
        ensures unchanged { OnErr result (HasMore self.old self.new) }
    {
        earlier_marks_are_kept();
        needed_nodes_are_enough();
        let depth = self.levels.len();
        let Some(count) = count_to(depth, digits) else {
            return Err(CommandFault::NoLevel);
        };
        if count > 0 {
            let level = self.cut_to(depth - count);
            self.drop_unneeded(level.mark);
        }
        Ok(())
    }

    // Keeps this many levels, and removes what came in the others; no name is removed if declarations are
    // global. The result is the outermost of the removed levels.
    fn cut_to(&mut self, depth: usize) -> Level
        requires { depth < length self.old.levels }
        ensures level { slice_get self.old.levels depth ≡ Some result }
        ensures cut { IsCut self.old self.new depth }
        ensures notes { HasNotesOf self.old self.new }
    {
        let level = self.levels.cut(depth);
        if !self.global {
            self.library.cut(level.mark);
        }
        self.assertions.truncate(level.assertions);
        level
    }

    // If declarations are global, keeps as many nodes as a mark counts, and those that definitions need.
    fn drop_unneeded(&mut self, mark: Mark)
        ensures { NeedsLeft self.old self.new mark.nodes }
    {
        if self.global {
            self.library.cut_nodes(mark);
        }
    }

    // Removes everything, the logic too.
    pub(super) fn reset(&mut self) -> Result<(), CommandFault>
        ensures effect { OnOk result ((n : ℕ) → HasEffect self.old self.new n commands.Reset) }
        ensures held { (contents_of self.new.library).rows ≡ [] }
        ensures refused { IfErr result (λ fault. (n : ℕ) → IsRefused self.old n commands.Reset fault) }
        ensures unchanged { OnErr result (HasMore self.old self.new) }
    {
        self.library = Library::new(self.alloc, all_theories(self.start.profile));
        self.assertions.truncate(0);
        self.levels.clear();
        Ok(())
    }

    // Removes everything but the logic and the options; if declarations are global, it removes no name.
    pub(super) fn reset_assertions(&mut self) -> Result<(), CommandFault>
        ensures effect { OnOk result ((n : ℕ) → HasEffect self.old self.new n commands.ResetAssertions) }
        ensures held { HoldsAfter self.old (Removing AllButOptions) (contents_of self.new.library) }
        ensures refused { IfErr result
            (λ fault. (n : ℕ) → IsRefused self.old n commands.ResetAssertions fault) }
        ensures unchanged { OnErr result (HasMore self.old self.new) }
    {
        self.drop_names();
        self.assertions.truncate(0);
        self.levels.clear();
        Ok(())
    }

    // Removes the names and the terms; if declarations are global, only the nodes that no definition needs.
    fn drop_names(&mut self)
        ensures dropped { NamesAreDropped self.old self.new }
        ensures held { HoldsAfter self.old (Removing AllButOptions) (contents_of self.new.library) }
    {
        needed_nodes_are_enough();
        if self.global {
            self.library.drop_unneeded();
        } else {
            self.library = Library::new(self.alloc, self.library.theories());
        }
    }
}

// The number that digits spell; `None` where it is more than `most`.
fn count_to(most: usize, digits: &[u8]) -> Option<usize>
    ensures { MatchOption result (digits_value 10 digits.now ≤ most → ⊥)
        (λ n. (n ≡ digits_value 10 digits.now) × (n ≤ most)) }
{
    match number(10, digits) {
        Some(count) if count <= most as u128 => Some(count as usize),
        _ => None,
    }
}
