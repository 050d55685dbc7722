//! Which new names are fresh: of declarations and definitions, of labels, and of the items of models. This file
//! does not know the meaning of a new name, nor which names abbreviate sorts or are bound within a term.

ghost use Rattle.std.specs.Prelude.{◌≡◌, ◌||◌, is_some, None, Some, Ok, Err, MatchResult, OnOk, false};
ghost use Rattle.smt_theory.specs.Operators.{is_plain_operator};
ghost use Rattle.smt_theory.specs.Words.{look_up};
ghost use Rattle.smt_terms.specs.Freshness.{is_element_name, is_label_taken, is_taken, is_taken_undeclared, name_flaw};
ghost use Rattle.smt_terms.specs.Internal.LabelsView.{given_names};
ghost use Rattle.smt_terms.specs.Elements.{element_among};
ghost use Rattle.smt_terms.specs.Internal.LibraryView.{elements_lent, names_of_library};
ghost use Rattle.smt_terms.specs.Library.{StandsFor};
ghost use Rattle.smt_terms.specs.Signature.{Signature, declared_named};

use crate::labels::Labels;
use crate::library::Library;
use smt_faults::TermFlaw;
use smt_theory::{Theories, plain_op_of};

impl Library<'_> {
    // Whether a name is that of an element, is in the library or is that of a plain operator.
    pub(super) fn is_taken(&self, name: &[u8]) -> bool
        ensures { result ≡ is_taken (names_of_library self.now) name.now }
    {
        self.is_element(name) || self.has_entry(name) || is_operator(self.sorts.theories, name)
    }

    // Whether a name is in the library.
    pub(super) fn has_entry(&self, name: &[u8]) -> bool
        ensures { result ≡ is_some (look_up (names_of_library self.now).ranks name.now) }
    {
        self.get(name).is_some()
    }

    // Whether a name is taken, or is that of a label given so far.
    pub(super) fn is_in_use(&self, labels: &Labels, name: &[u8]) -> bool
        ensures { result ≡ is_label_taken (names_of_library self.now) (given_names labels.now) name.now }
    {
        self.is_taken(name) || labels.is_given(name)
    }

    // Refuses a name of an earlier item (`BoundTwice`), and one of the form of an element's, or which is taken in the
    // script and not declared there (`NotFresh`).
    pub(super) fn check_name(&self, script: &Library<'_>, name: &[u8]) -> Result<(), TermFlaw>
        ensures flaw { (s m : Signature) → StandsFor script.now s → StandsFor self.now m
            → MatchResult result (λ _. name_flaw s m.entries name.now ≡ None)
            (λ flaw. name_flaw s m.entries name.now ≡ Some flaw) }
        ensures absent { OnOk result (look_up (names_of_library self.now).ranks name.now ≡ None) }
        ensures apart { OnOk result (element_among (elements_lent script.now) name.now ≡ None) }
    {
        if self.has_entry(name) {
            return Err(TermFlaw::BoundTwice);
        }
        if script.is_unfit(name) {
            return Err(TermFlaw::NotFresh);
        }
        Ok(())
    }

    // Whether no item may have this name: it has the form of an element's, or is taken and no command declared it.
    pub(super) fn is_unfit(&self, name: &[u8]) -> bool
        ensures unfit { (s : Signature) → StandsFor self.now s
            → result ≡ (is_element_name s name.now || is_taken_undeclared s name.now) }
        ensures apart { result ≡ false → element_among (elements_lent self.now) name.now ≡ None }
    {
        self.is_element_name(name) || self.is_taken_undeclared(name)
    }

    // Whether the name is taken, and no command declared it.
    fn is_taken_undeclared(&self, name: &[u8]) -> bool
        ensures { (s : Signature) → StandsFor self.now s → result ≡ is_taken_undeclared s name.now }
    {
        !self.is_declared(name) && self.is_taken(name)
    }

    // Whether a command declared the name.
    pub(super) fn is_declared(&self, name: &[u8]) -> bool
        ensures { (s : Signature) → StandsFor self.now s
            → result ≡ is_some (declared_named s.entries name.now) }
    {
        self.get_declared(name).is_some()
    }
}

// Whether a name is that of a plain operator of the theories.
pub(super) fn is_operator(theories: Theories, name: &[u8]) -> bool
    ensures { result ≡ is_plain_operator theories name.now }
{
    plain_op_of(theories, name).is_some()
}
