//! Whole terms: this file checks a term and adds its nodes, or leaves none of them. It adds no name to a library.

ghost use Rattle.std.specs.Prelude.{◌≡◌, ◌++◌, [], List, length, map, IfOk, OnOk, OnErr};
ghost use Rattle.smt_nodes.specs.Node.{Row};
ghost use Rattle.smt_nodes.specs.Nodes.{rows_of};
ghost use Rattle.smt_trees.specs.View.{sexp_of};
ghost use Rattle.smt_forms.specs.Labels.{labels_in};
ghost use Rattle.smt_forms.specs.ScopeView.{scope_view};
ghost use Rattle.smt_faults.specs.Outcome.{IsOutcome};
ghost use Rattle.smt_terms.specs.Checking.{sort_in};
ghost use Rattle.smt_terms.specs.Denotes.{Denotes, slots_from};
ghost use Rattle.smt_terms.specs.Internal.LabelsView.{AreGiven, AreSorted, labels_view};
ghost use Rattle.smt_terms.specs.Internal.LibraryView.{names_for, names_of_library};
ghost use Rattle.smt_terms.specs.Internal.DraftView.{seen_by};
ghost use Rattle.smt_terms.specs.Internal.NodesView.{GrowsTo, KeepsNamed};
ghost use Rattle.smt_terms.specs.Internal.TableView.{AreNamed, IsReady, table_in, table_of, table_with};

use crate::labels::{Label, Labels};
use crate::library::Library;
use crate::library::arguments::Arguments;
use crate::library::draft::{CheckedTerm, Draft};
use smt_faults::TermFault;
use smt_forms::Variable;
use smt_nodes::Nodes;
use smt_theory::Sort;
use smt_trees::Tree;
use std::mem;

impl Library<'_> {
    // Checks a term over the names and these variables, the first innermost, whose places are those of a frame. It
    // returns the term's sort and node and the labels in it, or its first fault. It adds the nodes to the library's;
    // a term with a fault leaves none.
    pub(super) fn check_whole<'a>(
        &mut self,
        variables: &[Variable<'a, Sort>],
        labels: Labels<'a>,
        term: Tree<'a>,
    ) -> Result<(CheckedTerm, Vec<Label<'a>>), TermFault>
        requires { labels.given.items ≡ [] }
        ensures sort { IsOutcome (λ found. found.0.sort) (sort_in (names_for self.old (labels_view labels.entry))
            (scope_view variables.now) (sexp_of term.entry)) result }
        ensures given { IfOk result (λ found.
            (map (λ l. (l.name.items, sexp_of l.body)) found.1.items ≡ labels_in (sexp_of term.entry))
            × AreSorted (names_of_library self.old) found.1.items) }
        ensures node { IfOk result (λ found. IsReady (table_of self.old)
            → Denotes (table_with self.old found.1.items (rows_of self.new.nodes))
            (slots_from 0 (map (λ v. v.0) (scope_view variables.now))) (length variables.now) 0 found.0.node
            (sexp_of term.entry)
            × AreNamed (table_with self.old found.1.items (rows_of self.new.nodes)) found.1.items) }
        ensures grown { OnOk result ((more : List Row)
            × (rows_of self.new.nodes ≡ rows_of self.old.nodes ++ more)) }
        ensures unchanged { OnErr result (rows_of self.new.nodes ≡ rows_of self.old.nodes) }
        ensures names { self.new.names ≡ self.old.names }
        ensures sorts { self.new.sorts ≡ self.old.sorts }
        ensures elements { self.new.elements ≡ self.old.elements }
        ensures declared { self.new.declared ≡ self.old.declared }
        ensures definitions { self.new.definitions ≡ self.old.definitions }
        ensures bodies { self.new.bodies ≡ self.old.bodies }
        ensures transient { self.new.transient ≡ self.old.transient }
    {
        let count = self.nodes.len();
        let nodes = mem::replace(&mut self.nodes, Nodes::new(self.alloc));
        let arguments = mem::replace(&mut self.arguments, Arguments::new(self.alloc));
        let mut draft = Draft::new(self.alloc, labels, nodes, arguments);
        let result = self.check_over(&mut draft, variables, term);
        let given = draft.labels.take_given(self.alloc);
        self.nodes = mem::replace(&mut draft.nodes, Nodes::new(self.alloc));
        self.arguments = mem::replace(&mut draft.arguments, Arguments::new(self.alloc));
        self.arguments.clear(self.alloc);
        match result {
            Ok(checked) => Ok((checked, given)),
            Err(fault) => {
                self.nodes.cut(count);
                Err(fault)
            }
        }
    }

    // Checks a term over the names and these variables, as `check_whole` does, with a draft that has no variables
    // before. The draft gets the new nodes, at a fault too.
    pub(super) fn check_over<'a>(
        &self,
        draft: &mut Draft<'a>,
        variables: &[Variable<'a, Sort>],
        term: Tree<'a>,
    ) -> Result<CheckedTerm, TermFault>
        requires none { seen_by draft.old ≡ [] }
        requires base { draft.old.base ≡ 0 }
        ensures sort { IsOutcome (λ c. c.sort) (sort_in (names_for self.now (labels_view draft.old.labels))
            (scope_view variables.now) (sexp_of term.entry)) result }
        ensures labels { OnOk result (AreGiven (names_of_library self.now) draft.old.labels draft.new.labels
            (labels_in (sexp_of term.entry))) }
        ensures node { IfOk result (λ c. IsReady (table_in self.now draft.old)
            → Denotes (table_in self.now draft.new)
            (slots_from 0 (map (λ v. v.0) (scope_view variables.now))) (length variables.now) 0 c.node
            (sexp_of term.entry)) }
        ensures named { OnOk result (KeepsNamed self.now draft.old draft.new) }
        ensures longer { GrowsTo draft.old draft.new }
    {
        draft.bind(variables)?;
        self.sort_of(draft, term, 0)
    }
}
