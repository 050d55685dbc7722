//! Assertions: this file checks a term with its labels, and makes the labels names. It does not know the level of
//! an assertion.

ghost use Rattle.std.specs.Prelude.{◌≡◌, ◌⊎◌, ◌∷◌, ◌++◌, ℕ, List, [], None, Ok, Err, map, IfErr, IfOk, OnErr};
ghost use Rattle.std.specs.Prelude.{OnOk};
ghost use Rattle.smt_trees.specs.View.{sexp_of};
ghost use Rattle.smt_theory.specs.Words.{look_up};
ghost use Rattle.smt_terms.specs.Assertions.{asserted_in};
ghost use Rattle.smt_terms.specs.Contents.{Extends, contents_of};
ghost use Rattle.smt_terms.specs.Elements.{element_among};
ghost use Rattle.smt_terms.specs.Internal.Growing.{AreFitUnder, Bodies, HoldsUnder, IsFitUnder};
ghost use Rattle.smt_terms.specs.Internal.LabelsView.{AreNew, label_entry};
ghost use Rattle.smt_terms.specs.Internal.LibraryView.{elements_of_library, ranks_of_library};
ghost use Rattle.smt_terms.specs.Internal.TableView.{names_of_definitions};
ghost use Rattle.smt_terms.specs.Library.{IsTermOf, IsUnchanged, StandsFor, transient_of};
ghost use Rattle.smt_terms.specs.Signature as signature;
ghost use Rattle.smt_terms.specs.Signature.{Signature, names_of, rank_of_entry, with_entries, with_entry};
ghost use Rattle.smt_faults.specs.Outcome.{Tells};

use crate::labels::{Label, Labels};
use crate::library::Library;
use crate::sorts::are_equal;
use smt_faults::{Memory, TermFault};
use smt_nodes::TermId;
use smt_theory::Sort;
use smt_trees::Tree;

impl Library<'_> {
    /// Checks a term that is asserted, and adds the labels in it as names of their terms (SMT-LIB 2.6, sections 3.6.5
    /// and 4.2.4). It returns the number of the term's node. No term sees a label of its own assertion.
    ///
    /// It refuses, in this order: a term with a fault, with its first fault; a term that is no formula (`IllSorted`).
    /// A label has a fault where its term uses a variable bound outside it (`Label`), and then where its name is in
    /// use, a plain operator's, or that of an earlier label of the assertion (`NotFresh`). Where it refuses a term,
    /// and where memory is refused (`Memory`), nothing changes.
    pub fn assert(&mut self, term: Tree<'_>) -> Result<TermId, TermFault>
        ensures asserted { OnOk result
            ((s : Signature) → StandsFor self.old s → (labels : List signature.Entry)
            × (asserted_in (names_of s) (sexp_of term.entry) ≡ Ok labels)
            × StandsFor self.new (with_entries s labels)) }
        ensures term { IfOk result (λ i. (s : Signature) → StandsFor self.old s
            → IsTermOf (contents_of self.new) i (sexp_of term.entry)) }
        ensures refused { IfErr result (λ fault. (s : Signature) → StandsFor self.old s
            → Tells (asserted_in (names_of s) (sexp_of term.entry)) fault) }
        ensures unchanged { OnErr result (IsUnchanged self.old self.new) }
        ensures restored { OnErr result (contents_of self.new ≡ contents_of self.old) }
        ensures grown { Extends (contents_of self.old) (contents_of self.new) }
        ensures transient { transient_of self.new ≡ transient_of self.old }
    {
        let mark = self.mark();
        match self.assert_checked(term) {
            Ok(term) => Ok(term),
            Err(fault) => {
                self.cut(mark);
                Err(fault)
            }
        }
    }

    // Checks an asserted term and adds its labels, as `assert` does. But a refusal may leave nodes, and for want of
    // memory some of the labels.
    #[tactic(auto, using(crate::proofs::ContentsLemmas::extends_itself))]
    fn assert_checked(&mut self, term: Tree<'_>) -> Result<TermId, TermFault>
        ensures asserted { OnOk result
            ((s : Signature) → StandsFor self.old s → (labels : List signature.Entry)
            × (asserted_in (names_of s) (sexp_of term.entry) ≡ Ok labels)
            × StandsFor self.new (with_entries s labels)) }
        ensures term { IfOk result (λ i. (s : Signature) → StandsFor self.old s
            → IsTermOf (contents_of self.new) i (sexp_of term.entry)) }
        ensures refused { IfErr result (λ fault. (s : Signature) → StandsFor self.old s
            → Tells (asserted_in (names_of s) (sexp_of term.entry)) fault) }
        ensures grown { Extends (contents_of self.old) (contents_of self.new) }
        ensures transient { self.new.transient ≡ self.old.transient }
    {
        let (checked, given) = self.check_whole(&[], Labels::new(self.alloc), term)?;
        if !are_equal(checked.sort, Sort::bool()) {
            return Err(TermFault::IllSorted);
        }
        self.add_labels(given.as_slice())?;
        Ok(checked.node)
    }

    // Adds labels, each as a constant that its term defines. Where memory is refused, it may have added some of them.
    fn add_labels(&mut self, labels: &[Label<'_>]) -> Result<(), Memory>
        requires { AreNew (elements_of_library self.old) (ranks_of_library self.old) labels.now }
        ensures added { OnOk result ((bodies : Bodies) (s : Signature)
            → HoldsUnder bodies (contents_of self.old) s
            → AreFitUnder bodies (contents_of self.old) s labels.now
            → HoldsUnder bodies (contents_of self.new) (with_entries s (map label_entry labels.now))) }
        ensures names { OnOk result (names_of_definitions self.new.definitions.items
            ≡ names_of_definitions self.old.definitions.items ++ map (λ l. l.name.items) labels.now) }
        ensures bodies { OnOk result
            (self.new.bodies.items ≡ self.old.bodies.items ++ map (λ l. l.node) labels.now) }
        ensures grown { Extends (contents_of self.old) (contents_of self.new) }
        ensures transient { self.new.transient ≡ self.old.transient }
    {
        for label in labels {
            self.add_label(label)?;
        }
        Ok(())
    }

    fn add_label(&mut self, label: &Label<'_>) -> Result<(), Memory>
        requires absent { look_up (ranks_of_library self.old) label.now.name.items ≡ None }
        requires apart { element_among (elements_of_library self.old) label.now.name.items ≡ None }
        ensures added { OnOk result ((bodies : Bodies) (s : Signature)
            → HoldsUnder bodies (contents_of self.old) s
            → IsFitUnder bodies (contents_of self.old) s label.now
            → HoldsUnder bodies (contents_of self.new) (with_entry s (label_entry label.now))) }
        ensures ranks { OnOk result
            (ranks_of_library self.new
            ≡ ranks_of_library self.old ++ (label.now.name.items, rank_of_entry (label_entry label.now))
            ∷ []) }
        ensures names { OnOk result (names_of_definitions self.new.definitions.items
            ≡ names_of_definitions self.old.definitions.items ++ label.now.name.items ∷ []) }
        ensures bodies { OnOk result (self.new.bodies.items ≡ self.old.bodies.items ++ label.now.node ∷ []) }
        ensures grown { Extends (contents_of self.old) (contents_of self.new) }
        ensures transient { self.new.transient ≡ self.old.transient }
    {
        self.insert_definition(label.name.as_slice(), &[], label.sort, label.node)
    }
}
