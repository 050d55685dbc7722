//! What the last check claims of each of its models, one claim after another. This file evaluates nothing.

ghost use Rattle.std.specs.Prelude.{◌≡◌, ◌∷◌, ℕ, List, [], MatchOption};
ghost use Rattle.smt_terms.specs.Library.{terms_of};
ghost use Rattle.smt_script.specs.Stack.{Numbered};
ghost use Rattle.smt_script.specs.StackView.{StandsFor, library_of, profile_of};
ghost use Rattle.smt_dialogue.specs.Internal.Claims.{AreClaimed, HaveSizes, claims_in_force, claims_left};

use smt_report::Claim;
use smt_script::{Assertion, Stack};
use smt_terms::TermId;
use smt_terms::laws::held_terms_are_terms;

/// A claim, its term in the library of a stack, and how many atoms and lists the term of an assertion has.
#[derive(Clone, Copy)]
pub struct ReadClaim {
    pub claim: Claim,
    pub term: TermId,
    pub size: Option<u32>,
}

/// The claims that are left: assertions in force, and after them the assumptions of the last check.
#[derive(Clone, Copy)]
pub(crate) struct Claims<'a> {
    pub(crate) assertions: &'a [Assertion],
    pub(crate) assumptions: &'a [TermId],
    /// How many assumptions `next` has returned.
    pub(crate) taken: usize,
}

impl<'a> Claims<'a> {
    /// All claims of a stack.
    pub(crate) fn new(stack: &'a Stack) -> Claims<'a>
        ensures claimed { (commands : List Numbered) → StandsFor stack.now commands
            → AreClaimed (terms_of (library_of stack.now)) (claims_left result)
            (claims_in_force (profile_of stack.now) commands) }
        ensures sized { (commands : List Numbered) → StandsFor stack.now commands
            → HaveSizes (terms_of (library_of stack.now)) (claims_left result) }
    {
        held_terms_are_terms();
        Claims {
            assertions: stack.assertions(),
            assumptions: stack.assumptions(),
            taken: 0,
        }
    }

    /// Removes and returns the next claim; `None` where none is left.
    pub(crate) fn next(&mut self) -> Option<ReadClaim>
        ensures { MatchOption result (claims_left self.old ≡ [])
            (λ next. claims_left self.old ≡ next ∷ claims_left self.new) }
    {
        match self.assertions.split_first() {
            Some((assertion, rest)) => {
                self.assertions = rest;
                let claim = Claim::Assertion {
                    command: assertion.command,
                };
                Some(ReadClaim {
                    claim,
                    term: assertion.term,
                    size: Some(assertion.size),
                })
            }
            None => self.next_assumption(),
        }
    }

    fn next_assumption(&mut self) -> Option<ReadClaim>
        requires { self.old.assertions.now ≡ [] }
        ensures { MatchOption result (claims_left self.old ≡ [])
            (λ next. claims_left self.old ≡ next ∷ claims_left self.new) }
    {
        let term = *self.assumptions.get(self.taken)?;
        self.taken += 1;
        let claim = Claim::Assumption {
            place: self.taken as u64,
        };
        Some(ReadClaim {
            claim,
            term,
            size: None,
        })
    }
}
