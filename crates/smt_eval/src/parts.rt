//! The nodes of a script and of a model of its names, for a walk beside their trees. This file evaluates nothing
//! itself.

ghost use Rattle.std.proofs.Props.{props};
ghost use Rattle.smt_eval.specs.Interpretation.{KnowsCosts};
ghost use Rattle.std.specs.Prelude.{◌≡◌, slice_get};

use crate::interpretation::{Interpretation, item_at};
use crate::laws::{nodes_give_the_values_of_their_terms, numbers_stand_for_names};
use crate::tables::tables;
use smt_faults::Memory;
use smt_machine::{Look, Machine, Tables, cost_of_node};
use smt_nodes::laws::elements_have_numbers;
use smt_terms::{Found, Library, TermId};
use smt_values::Value;

/// The nodes of a script, and of a model that was read over it and counted. Nodes are named by their numbers in both
/// tables, the model's first, from 0.
#[derive(Clone, Copy)]
pub struct Parts<'a> {
    pub library: &'a Library<'a>,
    pub interpretation: &'a Interpretation<'a>,
    ghost counted: { KnowsCosts interpretation.now library.now } by { Prim.hlevel props },
}

impl<'a> Parts<'a> {
    ghost use Rattle.std.specs.Prelude.{◌≤◌, ◌<◌, ◌+◌, [], None, IfOk, OnOk, length, option_map};
    ghost use Rattle.smt_trees.specs.Sexp.{Sexp};
    ghost use Rattle.smt_arrays.specs.Tables.{Grows, all_known_in, known_in};
    ghost use Rattle.smt_machine.specs.Memory.{Holds, arrays_in};
    ghost use Rattle.smt_machine.specs.Costs.{capped, cost};
    ghost use Rattle.smt_machine.specs.Given.{given};
    ghost use Rattle.smt_machine.specs.Least.{least};
    ghost use Rattle.smt_machine.specs.Looks.{Shows};
    ghost use Rattle.smt_machine.specs.Tables.{arounds_of, model_count, nodes_of};
    ghost use Rattle.smt_terms.specs.Library.{IsTerm, StandsFor, element_names_of};
    ghost use Rattle.smt_terms.specs.Signature.{Signature, entry_named};
    ghost use Rattle.smt_terms.specs.TermsOf.{AreTermsOf};
    ghost use Rattle.smt_eval.specs.Interpretation.{IsInterpretation, Serves};
    ghost use Rattle.smt_eval.specs.Known.{known_over};
    ghost use Rattle.smt_eval.specs.Numbering.{in_numbers};
    ghost use Rattle.smt_eval.specs.Parts.{IsBodyAt, arounds_in, model_body, model_of, nodes_in, script_body};
    ghost use Rattle.smt_eval.specs.Parts.{script_of};
    ghost use Rattle.smt_eval.specs.Structure.{structure_of};

    /// The nodes of a library, as it is now, and of an interpretation that was counted over it.
    pub fn new(library: &'a Library<'a>, interpretation: &'a Interpretation<'a>) -> Parts<'a>
        requires { KnowsCosts interpretation.now library.now }
        ensures library { result.library.now ≡ library.now }
        ensures interpretation { result.interpretation.now ≡ interpretation.now }
    {
        Parts {
            library,
            interpretation,
        }
    }

    /// The node of a term of the library. Over the empty frame it has the value that `eval` gives for the term.
    pub fn root(&self, term: TermId) -> usize
        ensures number { (t : Sexp) → IsTerm self.now.library.now term t
            → result ≡ length (model_of self.now).rows + term }
        ensures known { (script definitions : Signature) (t : Sexp) → StandsFor self.now.library.now script
            → IsInterpretation self.now.interpretation.now script definitions
            → IsTerm self.now.library.now term t
            → given (nodes_in self.now) result []
            ≡ in_numbers (element_names_of self.now.interpretation.now.definitions)
            (known_over (structure_of script definitions) t) }
    {
        nodes_give_the_values_of_their_terms();
        numbers_stand_for_names();
        elements_have_numbers();
        let count = self.interpretation.costs.len();
        let root = self.tables().root(term);
        // (the number of a term is lower)
        if root < count { root } else { count }
    }

    /// What a walk sees of a node.
    pub fn look(&self, node: usize) -> Look<'a>
        ensures { Shows node (slice_get (nodes_in self.now) node) result }
    {
        self.tables().look(node)
    }

    /// The node that is the body of a name: of a declared name the body that the model gives to it, of a defined name
    /// of the script its own, and of another name that of its item; `None` for a name that neither has.
    pub fn body_of(&self, name: &[u8]) -> Option<usize>
        ensures script { (s : Signature) → StandsFor self.now.library.now s
            → IsBodyAt s.entries name.now (script_body self.now) result }
        ensures model { (s d : Signature) → StandsFor self.now.library.now s
            → StandsFor self.now.interpretation.now.definitions d → entry_named s.entries name.now ≡ None
            → IsBodyAt d.entries name.now (model_body self.now) result }
        ensures none { (s d : Signature) → StandsFor self.now.library.now s
            → StandsFor self.now.interpretation.now.definitions d → entry_named s.entries name.now ≡ None
            → entry_named d.entries name.now ≡ None → result ≡ None }
    {
        match self.library.find(name) {
            Some(found) => self.script_body(found),
            None => match self.interpretation.definitions.find(name) {
                Some(found) => self.model_body(found),
                None => None,
            },
        }
    }

    fn script_body(&self, found: Found) -> Option<usize>
        ensures { result ≡ script_body self.now found }
    {
        match found {
            Found::Declared(place) => { number_at(self.interpretation.declared.as_slice(), place) }
            Found::Defined(place) => match item_at(self.library.bodies(), place) {
                Some(body) => Some(self.tables().root(body)),
                None => None,
            },
        }
    }

    fn model_body(&self, found: Found) -> Option<usize>
        ensures { result ≡ model_body self.now found }
    {
        match found {
            Found::Declared(_) => None,
            Found::Defined(place) => number_at(self.interpretation.definitions.bodies(), place),
        }
    }

    /// The cost of a node; 2^64 - 1 where it is that or more.
    pub fn cost(&self, node: usize) -> u64
        ensures { result ≡ capped (cost (nodes_in self.now) (arounds_in self.now) node) }
    {
        cost_of_node(self.interpretation.costs.as_slice(), self.tables(), node)
    }

    /// The name of the elements of a declared sort with this number; `None` where no element of the model has it.
    pub fn element_name(&self, number: u32) -> Option<&'a [u8]>
        ensures { option_map (λ name. name.now) result
            ≡ slice_get (element_names_of self.now.interpretation.now.definitions) number }
    {
        self.interpretation.definitions.nodes().element_name(number)
    }

    /// What is known of the value of a node over a frame, the values of variables by their places, of which some may be
    /// open, as is an array that the machine does not have; `None` where the value is open. A value that is an array is
    /// one of the machine's; those that it had stay.
    ///
    /// The machine is new, or has evaluated terms and nodes of this library over this interpretation alone. The call
    /// subtracts from `left` as `eval` does; `left` is no less than the cost of the node. The only error is want of
    /// memory.
    pub fn value_in(
        &self,
        machine: &mut Machine,
        frame: &[Option<Value>],
        node: usize,
        left: &mut u64,
    ) -> Result<Option<Value>, Memory>
        requires serves { Serves machine.old self.now.interpretation.now self.now.library.now }
        requires enough { cost (nodes_in self.now) (arounds_in self.now) node ≤ left.old }
        ensures serves { IfOk result (λ _. Serves machine.new self.now.interpretation.now self.now.library.now) }
        ensures value { IfOk result (λ v. known_in (arrays_in machine.new) v
            ≡ given (nodes_in self.now) node (all_known_in (arrays_in machine.old) frame.now)) }
        ensures held { IfOk result (λ v. Holds machine.new v) }
        ensures grown { OnOk result (Grows (arrays_in machine.old) (arrays_in machine.new)) }
        ensures fewer { OnOk result (left.new < left.old) }
        ensures counted { OnOk result
            (left.new + least (nodes_in self.now) (arounds_in self.now) node ≤ left.old) }
        ensures paid { OnOk result
            (left.old ≤ left.new + cost (nodes_in self.now) (arounds_in self.now) node) }
    {
        machine.eval_in(self.tables(), frame, node, left)
    }

    // The tables of the model and of the script.
    fn tables(&self) -> Tables<'a>
        ensures nodes { nodes_of result ≡ nodes_in self.now }
        ensures arounds { arounds_of result ≡ arounds_in self.now }
        ensures count { model_count result ≡ length (model_of self.now).rows }
        ensures named { (s : Signature) → StandsFor self.now.library.now s → AreTermsOf (script_of self.now) s }
    {
        tables(
            self.library,
            &self.interpretation.definitions,
            self.interpretation.declared.as_slice(),
        )
    }
}

// The number of the node at a place of a list, if there is one.
fn number_at(nodes: &[TermId], place: usize) -> Option<usize>
    ensures { result ≡ slice_get nodes.now place }
{
    match item_at(nodes, place) {
        Some(node) => Some(node.number()),
        None => None,
    }
}
