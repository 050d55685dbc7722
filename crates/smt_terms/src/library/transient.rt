//! Transient terms: they are no part of the contents of a library, and stay until `take_transient` removes them.
//! This file adds no name to a library.

ghost use Rattle.std.specs.Prelude.{◌≡◌, ◌++◌, ℕ, [], List, Ok, MatchResult, OnErr};
ghost use Rattle.smt_nodes.specs.Node.{Row};
ghost use Rattle.smt_nodes.specs.Nodes.{rows_of};
ghost use Rattle.smt_trees.specs.Sexp.{Sexp};
ghost use Rattle.smt_trees.specs.View.{sexp_of};
ghost use Rattle.smt_faults.specs.Outcome.{Tells};
ghost use Rattle.smt_terms.specs.Checking.{sort_in};
ghost use Rattle.smt_terms.specs.Contents.{contents_of};
ghost use Rattle.smt_terms.specs.Library.{IsTerm, StandsFor, transient_of};
ghost use Rattle.smt_terms.specs.Signature.{Signature, names_of};

use crate::labels::Labels;
use crate::library::Library;
use crate::library::arguments::Arguments;
use crate::library::draft::Draft;
use smt_faults::TermFault;
use smt_nodes::{Nodes, TermId};
use smt_theory::Sort;
use smt_trees::Tree;
use std::mem;

impl Library<'_> {
    /// Checks a term without labels over the names, as `check` does, and makes its nodes transient (SMT-LIB 2.6,
    /// sections 3.6 and 5.2). It returns the number of the term's node and its sort, or its first fault; then nothing
    /// changes. The number has a meaning until the library changes otherwise than by this call.
    pub fn check_transient(&mut self, term: Tree<'_>) -> Result<(TermId, Sort), TermFault>
        ensures answer { (s : Signature) → StandsFor self.old s
            → MatchResult result (λ p. (sort_in (names_of s) [] (sexp_of term.entry) ≡ Ok p.1)
            × IsTerm self.new p.0 (sexp_of term.entry))
            (λ fault. Tells (sort_in (names_of s) [] (sexp_of term.entry)) fault) }
        ensures held { contents_of self.new ≡ contents_of self.old }
        ensures grown { (more : List Row) × (transient_of self.new ≡ transient_of self.old ++ more) }
        ensures kept { (i : ℕ) (t : Sexp) → IsTerm self.old i t → IsTerm self.new i t }
        ensures unchanged { OnErr result (transient_of self.new ≡ transient_of self.old) }
    {
        let count = self.transient.len();
        let nodes = mem::replace(&mut self.transient, Nodes::new(self.alloc));
        let arguments = mem::replace(&mut self.arguments, Arguments::new(self.alloc));
        let labels = Labels::refused(self.alloc);
        let mut draft = Draft::new(self.alloc, labels, nodes, arguments);
        let result = self.check_over(&mut draft, &[], term);
        self.transient = mem::replace(&mut draft.nodes, Nodes::new(self.alloc));
        self.arguments = mem::replace(&mut draft.arguments, Arguments::new(self.alloc));
        self.arguments.clear(self.alloc);
        match result {
            Ok(checked) => Ok((checked.node, checked.sort)),
            Err(fault) => {
                self.transient.cut(count);
                Err(fault)
            }
        }
    }

    /// The nodes of the transient terms. Their numbers come after those of the other nodes: the number of the first
    /// is the number of the others.
    pub fn transient(&self) -> &Nodes
        ensures { rows_of result.now ≡ transient_of self.now }
    {
        &self.transient
    }

    /// Removes the transient terms and returns their nodes.
    pub fn take_transient(&mut self) -> Nodes
        ensures taken { rows_of result ≡ transient_of self.old }
        ensures none { transient_of self.new ≡ [] }
        ensures held { contents_of self.new ≡ contents_of self.old }
    {
        mem::replace(&mut self.transient, Nodes::new(self.alloc))
    }

    /// Replaces the nodes of the transient terms by these nodes.
    pub fn put_transient(&mut self, nodes: Nodes)
        ensures put { transient_of self.new ≡ rows_of nodes }
        ensures held { contents_of self.new ≡ contents_of self.old }
    {
        self.transient = nodes;
    }
}
