//! The labels in the terms of an assertion, as far as it is checked. This file does not say which names may be
//! labels.

ghost use Rattle.std.specs.Prelude.{◌≡◌, map};
ghost use Rattle.std.proofs.Props.{props};
ghost use Rattle.smt_forms.specs.NamesIn.{names_in};

use crate::library::SHORT;
use smallvec::SmallVec;
use smt_faults::Memory;
use smt_forms::NameSet;
use smt_nodes::TermId;
use smt_theory::Sort;
use smt_trees::Tree;
use std::alloc::Global;
use std::mem;

/// A label: its name, without bars, and the term that it names, with its sort and its node.
#[derive(Drop)]
pub(crate) struct Label<'a> {
    pub(crate) name: SmallVec<u8, SHORT>,
    pub(crate) sort: Sort,
    pub(crate) body: Tree<'a>,
    pub(crate) node: TermId,
}

/// The labels so far, in order, or the refusal of all labels.
#[derive(Drop)]
pub(crate) struct Labels<'a> {
    pub(crate) refused: bool,
    pub(crate) given: Vec<Label<'a>>,
    pub(crate) names: NameSet<'a>,
    ghost named: { names_in names ≡ map (λ l. l.name.items) given.items } by { Prim.hlevel props },
}

impl<'a> Labels<'a> {
    ghost use Rattle.std.specs.Prelude.{◌≡◌, ◌++◌, ◌∷◌, [], OnErr, OnOk};
    ghost use Rattle.smt_trees.specs.View.{sexp_of};
    ghost use Rattle.smt_terms.specs.Internal.LabelsView.{given_names, labels_view};
    ghost use Rattle.smt_terms.specs.Labels as spec;
    ghost use Rattle.smt_forms.specs.Variables.{is_among};

    /// No labels yet.
    pub(crate) fn new(alloc: Global) -> Self
        ensures view { labels_view result ≡ spec.Given [] }
        ensures given { result.given.items ≡ [] }
    {
        Labels {
            refused: false,
            given: Vec::new(alloc),
            names: NameSet::new(alloc),
        }
    }

    /// Every label is refused.
    pub(crate) fn refused(alloc: Global) -> Self
        ensures view { labels_view result ≡ spec.Refused }
        ensures given { result.given.items ≡ [] }
    {
        Labels {
            refused: true,
            given: Vec::new(alloc),
            names: NameSet::new(alloc),
        }
    }

    /// Whether every label is refused.
    pub(crate) fn are_refused(&self) -> bool
        ensures { result ≡ self.now.refused }
    {
        self.refused
    }

    /// Whether there is a label of this name so far.
    pub(crate) fn is_given(&self, name: &[u8]) -> bool
        ensures { result ≡ is_among (given_names self.now) name.now }
    {
        self.names.contains(name)
    }

    /// Takes out the labels so far, and leaves none.
    pub(crate) fn take_given(&mut self, alloc: Global) -> Vec<Label<'a>>
        ensures { result.items ≡ self.old.given.items }
    {
        let labels = mem::replace(self, Labels::new(alloc));
        labels.given
    }

    /// Adds a label of a term, with the term's sort and its node. Where memory is refused it adds none.
    pub(crate) fn push(
        &mut self,
        alloc: Global,
        name: &'a [u8],
        sort: Sort,
        term: Tree<'a>,
        node: TermId,
    ) -> Result<(), Memory>
        ensures pushed { OnOk result
            ((l : Label) × (self.new.given.items ≡ self.old.given.items ++ l ∷ []) × (l.name.items ≡ name.now)
            × (l.sort ≡ sort) × (sexp_of l.body ≡ sexp_of term.entry) × (l.node ≡ node)) }
        ensures unchanged { OnErr result (self.new.given.items ≡ self.old.given.items) }
        ensures refuses { self.new.refused ≡ self.old.refused }
    {
        let label = Label {
            name: SmallVec::from_slice(alloc, name)?,
            sort,
            body: term,
            node,
        };
        self.given.push(label)?;
        match self.names.insert(name) {
            Ok(()) => Ok(()),
            Err(memory) => {
                let _ = self.given.pop();
                Err(memory)
            }
        }
    }
}
