//! Models as solvers print them. This file looks into no item: a library reads them.

ghost use Rattle.std.specs.Prelude.{◌≡◌, List, [], ◌∷◌, ◌++◌, None, Ok, MatchOption, MatchResult};
ghost use Rattle.std.specs.Prelude.{IfOk, OnErr, OnOk, slice_get};
ghost use Rattle.smt_trees.specs.View.{sexps_of};
ghost use Rattle.smt_terms.specs.Items.{items_before};
ghost use Rattle.smt_terms.specs.Library.{StandsFor, held_terms_of};
ghost use Rattle.smt_terms.specs.Signature.{Entry, Signature, declared_among, entry_named};
ghost use Rattle.smt_eval.specs.Internal.DefinitionValues.{AllDefined};
ghost use Rattle.smt_eval.specs.Internal.GivenBodies.{GiveBodies, GivesBody, TellsLacking};
ghost use Rattle.smt_eval.specs.Internal.ItemFault.{model_fault_of_item};
ghost use Rattle.smt_eval.specs.Interpretation.{Fits, HoldsScript, IsInterpretation, KeepsCosts, KnowsCosts};
ghost use Rattle.smt_eval.specs.Model.{first_lacking, model_in, items_from, items_of};
ghost use Rattle.smt_eval.specs.ModelFaults.{TellsModel};

use crate::laws::{models_are_complete, structures_are_distinct};
use crate::model_fault::ModelFault;
use crate::tables::tables;
use smt_faults::Memory;
use smt_machine::costs;
use smt_nodes::TermId;
use smt_terms::laws::items_are_well_sorted;
use smt_terms::{Found, Library, TermFault};
use smt_trees::Trees;

/// The definitions of a model, and for each name that the script declares the body that the model gives to
/// it. Once it is counted, it also holds the cost of each node of the model and of the script.
#[derive(Drop)]
pub struct Interpretation<'l> {
    pub(crate) definitions: Library<'l>,
    pub(crate) declared: Vec<TermId>,
    pub(crate) costs: Vec<u64>,
}

impl<'l> Interpretation<'l> {
    /// Reads a model of the names of a library, without evaluating anything (SMT-LIB 2.6, section 4.2.6).
    ///
    /// The fault is that of the first item that has one; else that the model lacks a declared name, the first
    /// one; or want of memory. The library stands for a signature, as every library does that `Library::new`
    /// and the calls after it made; and it is none for a model, so no term of it names an element.
    pub fn read(
        declared: &'l Library<'_>,
        model: Trees<'_>,
    ) -> Result<Interpretation<'l>, ModelFault>
        requires { HoldsScript declared.now }
        ensures model { (s : Signature) → StandsFor declared.now s
            → MatchResult result (λ i. (d : Signature) × (model_in s (sexps_of model.entry) ≡ Ok d)
            × IsInterpretation i s d)
            (TellsModel (model_in s (sexps_of model.entry))) }
        ensures costs { IfOk result (λ i. KeepsCosts i declared.now) }
    {
        // Laws: each item is a definition. The definitions have different names, and none has the name of a
        // definition of the script. Each declared name has its rank.
        items_are_well_sorted();
        models_are_complete();
        structures_are_distinct();
        let definitions = read_items(declared, items(model))?;
        match declared_bodies(declared, &definitions) {
            Ok(declared) => Ok(Interpretation {
                costs: Vec::new(definitions.alloc()),
                definitions,
                declared,
            }),
            Err(fault) => {
                // (dropped by name: the prover is slow over a library that is owned on more than one path)
                drop(definitions);
                Err(fault)
            }
        }
    }

    /// Counts the cost of each node of the model and of the library, in one pass over both, for `cost` to
    /// look up.
    ///
    /// The library is the one that the model was read over, as it is now. The only error is want of memory,
    /// and then nothing has changed.
    pub fn count(&mut self, declared: &Library<'_>) -> Result<(), Memory>
        ensures costs { OnOk result (KnowsCosts self.new declared.now) }
        ensures unchanged { OnErr result (self.new ≡ self.old) }
        ensures same { (script definitions : Signature) → IsInterpretation self.old script definitions
            → IsInterpretation self.new script definitions }
        ensures fits { Fits self.old declared.now → Fits self.new declared.now }
    {
        self.costs = costs(
            declared.alloc(),
            tables(declared, &self.definitions, self.declared.as_slice()),
        )?;
        Ok(())
    }
}

// The library of the definitions that the items make, in order, or the first fault.
fn read_items<'l>(declared: &'l Library<'_>, items: Trees<'_>) -> Result<Library<'l>, ModelFault>
    ensures { (s : Signature) → StandsFor declared.now s
        → MatchResult result (λ library. (es : List Entry) × (items_from s [] 1 (sexps_of items.entry) ≡ Ok es)
        × StandsFor library (items_before s es))
        (TellsModel (items_from s [] 1 (sexps_of items.entry))) }
{
    let Ok(mut definitions) = declared.for_model(items.size()) else {
        return Err(ModelFault::Memory);
    };
    let mut left = items;
    while let Some((item, rest)) = left.split_first() {
        if let Err(fault) = definitions.define_item(declared, item) {
            drop(definitions);
            return Err(item_fault((items.len() - rest.len()) as u64, fault));
        }
        left = rest;
    }
    Ok(definitions)
}

fn item_fault(number: u64, fault: TermFault) -> ModelFault
    ensures { result ≡ model_fault_of_item number fault }
{
    if fault == TermFault::Memory {
        ModelFault::Memory
    } else {
        ModelFault::Item { number, fault }
    }
}

// The items of a model, without a leading symbol `model`.
pub(crate) fn items(trees: Trees<'_>) -> Trees<'_>
    ensures { sexps_of result ≡ items_of (sexps_of trees.entry) }
{
    match trees.split_first() {
        Some((first, rest)) if first.is_symbol(b"model") => rest,
        _ => trees,
    }
}

// For each declared name, in order, the node that is the body of its definition; or the command of the first
// name that has no definition.
fn declared_bodies(
    declared: &Library<'_>,
    definitions: &Library<'_>,
) -> Result<Vec<TermId>, ModelFault>
    requires { (s : Signature) × StandsFor declared.now s }
    ensures { (s d : Signature) → StandsFor declared.now s → StandsFor definitions.now d → AllDefined d.entries
        → MatchResult result (λ bodies. (first_lacking s.entries d.entries ≡ None)
        × GiveBodies d.entries (held_terms_of definitions.now).bodies (declared_among s.entries) bodies.items)
        (TellsLacking (first_lacking s.entries d.entries)) }
{
    let mut bodies = Vec::new(definitions.alloc());
    let mut left = declared.declared();
    while let Some((declaration, rest)) = left.split_first() {
        let Some(body) = body_of(definitions, declared.name(declaration.name)) else {
            return Err(ModelFault::Lacks {
                command: declaration.command,
            });
        };
        push_node(&mut bodies, body)?;
        left = rest;
    }
    Ok(bodies)
}

// The node that is the body of the definition of a name, if there is one.
fn body_of(definitions: &Library<'_>, name: &[u8]) -> Option<TermId>
    ensures { (d : Signature) → StandsFor definitions.now d → AllDefined d.entries
        → MatchOption result (entry_named d.entries name.now ≡ None)
        (λ body. GivesBody d.entries (held_terms_of definitions.now).bodies name.now body) }
{
    match definitions.find(name) {
        Some(Found::Defined(place)) => item_at(definitions.bodies(), place),
        Some(Found::Declared(_)) => None,
        None => None,
    }
}

// The node at a place, if there is one.
pub(crate) fn item_at(nodes: &[TermId], place: usize) -> Option<TermId>
    ensures { result ≡ slice_get nodes.now place }
{
    match nodes.get(place) {
        Some(node) => Some(*node),
        None => None,
    }
}

// Appends a node.
fn push_node(nodes: &mut Vec<TermId>, node: TermId) -> Result<(), Memory>
    ensures { OnOk result (nodes.new.items ≡ nodes.old.items ++ node ∷ []) }
{
    nodes.push(node)?;
    Ok(())
}
