//! Definitions of names, by a script or by a model: this file checks the body and adds the name. It does not decide
//! whether a name is fresh, which `freshness` does, and knows nothing of commands and models.

ghost use Rattle.std.specs.Prelude.{◌≡◌, ◌⊎◌, ◌∷◌, ◌++◌, ◌-◌, ℕ, List, [], None, Ok, Err, length, map, take};
ghost use Rattle.std.specs.Prelude.{OnOk, OnErr, IfErr, false};
ghost use Rattle.smt_trees.specs.Sexp.{Sexp};
ghost use Rattle.smt_trees.specs.View.{sexp_of};
ghost use Rattle.smt_theory.specs.Operators.{is_plain_operator};
ghost use Rattle.smt_theory.specs.Words.{look_up};
ghost use Rattle.smt_terms.specs.Contents.{Extends, contents_of};
ghost use Rattle.smt_terms.specs.Definitions.{defined_in, definition};
ghost use Rattle.smt_terms.specs.Elements.{element_among};
ghost use Rattle.smt_terms.specs.Internal.Growing.{AddsDefinition, Bodies, HoldsUnder, IsBodyUnder};
ghost use Rattle.smt_terms.specs.Internal.Growing.{KeepsNames, RefusesDefinition};
ghost use Rattle.smt_terms.specs.Internal.LibraryView.{names_of_library, ranks_of_library};
ghost use Rattle.smt_terms.specs.Internal.TableView.{names_of_definitions};
ghost use Rattle.smt_terms.specs.Library.{IsUnchanged, StandsFor, transient_of};
ghost use Rattle.smt_forms.specs.ParamView.{param_view};
ghost use Rattle.smt_forms.specs.ScopeView.{scope_view};
ghost use Rattle.smt_terms.specs.Signature as signature;
ghost use Rattle.smt_terms.specs.Signature.{Signature, with_entry};
ghost use Rattle.smt_faults.specs.Outcome.{Tells};

use crate::labels::Labels;
use crate::library::params::{named_parameters, sorted_params, sorts_of_variables};
use crate::library::{Definition, Entry, Found, Library};
use crate::sorts::are_equal;
use smallvec::SmallVec;
use smt_faults::{Memory, TermFault};
use smt_forms::{Param, Variable};
use smt_nodes::TermId;
use smt_theory::Sort;
use smt_trees::Tree;

impl Library<'_> {
    /// Defines a name by its parameters, the tree of its sort, and its body (SMT-LIB 2.6, section 4.2.3). The body
    /// sees the earlier names and the parameters, and not the name itself.
    ///
    /// It refuses, in this order:
    /// 1. a name that is in use or is a plain operator's (`NotFresh`);
    /// 2. for each parameter, a tree that names no sort, with its fault, and then a name that an earlier parameter has
    ///    (`BoundTwice`);
    /// 3. for the result, a tree that names no sort, with its fault;
    /// 4. a body with a fault, with its first fault;
    /// 5. a body of another sort (`IllSorted`).
    ///
    /// Then, and where memory is refused (`Memory`), nothing changes.
    #[tactic(auto, using(crate::proofs::ContentsLemmas::extends_itself))]
    pub fn define(
        &mut self,
        name: &[u8],
        params: &[Param<'_>],
        sort: Tree<'_>,
        body: Tree<'_>,
    ) -> Result<(), TermFault>
        ensures defined { OnOk result ((s : Signature) → StandsFor self.old s → (e : signature.Entry)
            × (defined_in s name.now (map param_view params.now) (sexp_of sort.entry) (sexp_of body.entry) ≡ Ok e)
            × StandsFor self.new (with_entry s e)) }
        ensures refused { IfErr result (λ fault. (s : Signature) → StandsFor self.old s
            → Tells (defined_in s name.now (map param_view params.now) (sexp_of sort.entry) (sexp_of body.entry))
            fault) }
        ensures unchanged { OnErr result (IsUnchanged self.old self.new) }
        ensures restored { OnErr result (contents_of self.new ≡ contents_of self.old) }
        ensures grown { Extends (contents_of self.old) (contents_of self.new) }
        ensures transient { transient_of self.new ≡ transient_of self.old }
    {
        if self.is_taken(name) {
            return Err(TermFault::NotFresh);
        }
        let parameters = sorted_params(self.alloc, &self.sorts, params)?;
        let sort = self.sorts.sort_of(self.alloc, sort)?;
        self.add_definition(name, parameters.as_slice(), sort, body)
    }

    // Adds the definition of a new name with these parameters, if its body has this sort over the names and the
    // parameters. Otherwise it returns the fault and changes nothing.
    pub(super) fn add_definition(
        &mut self,
        name: &[u8],
        parameters: &[Variable<'_, Sort>],
        sort: Sort,
        body: Tree<'_>,
    ) -> Result<(), TermFault>
        requires absent { look_up (names_of_library self.old).ranks name.now ≡ None }
        requires apart { element_among (names_of_library self.old).elements name.now ≡ None }
        ensures added { AddsDefinition self.old self.new name.now (scope_view parameters.now) sort
            (sexp_of body.entry) result }
        ensures refused { RefusesDefinition self.old name.now (scope_view parameters.now) sort
            (sexp_of body.entry) result }
        ensures restored { OnErr result (contents_of self.new ≡ contents_of self.old) }
        ensures grown { Extends (contents_of self.old) (contents_of self.new) }
        ensures transient { transient_of self.new ≡ transient_of self.old }
    {
        let mark = self.mark();
        match self.add_checked(name, parameters, sort, body) {
            Ok(()) => Ok(()),
            Err(fault) => {
                self.cut(mark);
                Err(fault)
            }
        }
    }

    // Adds the definition of a new name, as `add_definition` does, but a refusal may leave nodes.
    #[tactic(auto, using(crate::proofs::ContentsLemmas::extends_itself))]
    fn add_checked(
        &mut self,
        name: &[u8],
        parameters: &[Variable<'_, Sort>],
        sort: Sort,
        body: Tree<'_>,
    ) -> Result<(), TermFault>
        requires absent { look_up (names_of_library self.old).ranks name.now ≡ None }
        requires apart { element_among (names_of_library self.old).elements name.now ≡ None }
        ensures added { AddsDefinition self.old self.new name.now (scope_view parameters.now) sort
            (sexp_of body.entry) result }
        ensures refused { RefusesDefinition self.old name.now (scope_view parameters.now) sort
            (sexp_of body.entry) result }
        ensures grown { Extends (contents_of self.old) (contents_of self.new) }
        ensures sorts { self.new.sorts ≡ self.old.sorts }
        ensures elements { self.new.elements ≡ self.old.elements }
        ensures transient { self.new.transient ≡ self.old.transient }
    {
        let (checked, _) = self.check_whole(parameters, Labels::refused(self.alloc), body)?;
        if !are_equal(checked.sort, sort) {
            return Err(TermFault::IllSorted);
        }
        Ok(self.insert_definition(name, parameters, sort, checked.node)?)
    }

    // Adds the definition of a new name at the end; its body has this node. Where memory is refused, it changes no
    // name.
    #[tactic(auto, using(crate::proofs::ContentsLemmas::extends_itself))]
    pub(super) fn insert_definition(
        &mut self,
        name: &[u8],
        parameters: &[Variable<'_, Sort>],
        sort: Sort,
        node: TermId,
    ) -> Result<(), Memory>
        requires absent { look_up (names_of_library self.old).ranks name.now ≡ None }
        requires apart { element_among (names_of_library self.old).elements name.now ≡ None }
        ensures added { OnOk result
            ((bodies : Bodies) (s : Signature) (t : Sexp) → HoldsUnder bodies (contents_of self.old) s
            → is_plain_operator s.theories name.now ≡ false
            → IsBodyUnder bodies (contents_of self.old) (scope_view parameters.now) node t
            → HoldsUnder bodies (contents_of self.new)
            (with_entry s (definition name.now (scope_view parameters.now) sort t))) }
        ensures ranks { OnOk result
            (ranks_of_library self.new
            ≡ ranks_of_library self.old
            ++ (name.now, record { parameters = map (λ p. p.1) (scope_view parameters.now); sort = sort })
            ∷ []) }
        ensures names { OnOk result (names_of_definitions self.new.definitions.items
            ≡ names_of_definitions self.old.definitions.items ++ name.now ∷ []) }
        ensures bodies { OnOk result (self.new.bodies.items ≡ self.old.bodies.items ++ node ∷ []) }
        ensures unchanged { OnErr result (KeepsNames (contents_of self.old) (contents_of self.new)) }
        ensures grown { Extends (contents_of self.old) (contents_of self.new) }
        ensures sorts { self.new.sorts ≡ self.old.sorts }
        ensures elements { self.new.elements ≡ self.old.elements }
        ensures transient { self.new.transient ≡ self.old.transient }
    {
        let definition = Definition {
            name: SmallVec::from_slice(self.alloc, name)?,
            params: named_parameters(self.alloc, parameters)?,
            result: sort,
        };
        let entry = Entry {
            parameters: sorts_of_variables(self.alloc, parameters)?,
            sort,
            place: Found::Defined(self.definitions.len()),
        };
        self.push_definition(definition, node)?;
        match self.insert(name, entry) {
            Ok(()) => Ok(()),
            Err(fault) => {
                self.pop_definition();
                Err(fault)
            }
        }
    }

    // Adds a definition and the node of its body; where memory is refused, it adds neither.
    fn push_definition(&mut self, definition: Definition, node: TermId) -> Result<(), Memory>
        ensures definitions { OnOk result
            (self.new.definitions.items ≡ self.old.definitions.items ++ definition ∷ []) }
        ensures bodies { OnOk result (self.new.bodies.items ≡ self.old.bodies.items ++ node ∷ []) }
        ensures unchanged { OnErr result ((self.new.definitions.items ≡ self.old.definitions.items)
            × (self.new.bodies.items ≡ self.old.bodies.items)) }
        ensures names { self.new.names ≡ self.old.names }
        ensures sorts { self.new.sorts ≡ self.old.sorts }
        ensures elements { self.new.elements ≡ self.old.elements }
        ensures declared { self.new.declared ≡ self.old.declared }
        ensures nodes { self.new.nodes ≡ self.old.nodes }
        ensures transient { self.new.transient ≡ self.old.transient }
    {
        let end = self.end().max(node.number() + 1);
        self.ends.reserve(1)?;
        self.bodies.reserve(1)?;
        self.definitions.push(definition)?;
        self.bodies.push_reserved(node);
        self.ends.push_reserved(end);
        Ok(())
    }

    // Removes the last definition, and its body from the list of bodies.
    fn pop_definition(&mut self)
        ensures definitions { self.new.definitions.items ≡ take (length self.old.definitions.items - 1)
            self.old.definitions.items }
        ensures bodies { self.new.bodies.items ≡ take (length self.old.bodies.items - 1)
            self.old.bodies.items }
        ensures names { self.new.names ≡ self.old.names }
        ensures sorts { self.new.sorts ≡ self.old.sorts }
        ensures elements { self.new.elements ≡ self.old.elements }
        ensures declared { self.new.declared ≡ self.old.declared }
        ensures nodes { self.new.nodes ≡ self.old.nodes }
        ensures transient { self.new.transient ≡ self.old.transient }
    {
        let _ = self.bodies.pop();
        let _ = self.ends.pop();
        let _ = self.definitions.pop();
    }
}
