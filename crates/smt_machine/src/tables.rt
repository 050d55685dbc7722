//! The nodes of a model and of a script as one table, and what names lead to. This file evaluates nothing.

ghost use Rattle.std.specs.Prelude.{◌≡◌, ◌+◌, ◌<◌, ◌≤◌, ℕ, IfSome, List, Some, false, option_map, slice_get, unwrap_or};
ghost use Rattle.smt_machine.specs.Costs.{around_at, capped};
ghost use Rattle.smt_nodes.specs.Literals.{literal_number};
ghost use Rattle.smt_nodes.specs.Node.{Element};
ghost use Rattle.smt_nodes.specs.NodeView.{node_view};
ghost use Rattle.smt_nodes.specs.PartsView.{parts_view, IsWhole};
ghost use Rattle.smt_machine.specs.Internal.Parts.{elements_at, found, found_around, found_node, found_parts};
ghost use Rattle.smt_machine.specs.Internal.Parts.{meaning, number_of, numbers_of};
ghost use Rattle.smt_values.specs.Element.{known_element};
ghost use Rattle.smt_machine.specs.Internal.Held.{IsNoArray};
ghost use Rattle.smt_machine.specs.Tables.{arounds_of, model_count, nodes_of, shifted};

use crate::items::item_at;
use crate::parts::{Part, Parts};
use smt_nodes::{Node, NodeParts, Nodes, TermId};
use smt_values::{Value, element};

/// The nodes of a model and of a script, and the bodies of their definitions.
///
/// Any tables are allowed: a part whose number is not below its node's is open, and so is a name at a place
/// that does not exist.
#[derive(Clone, Copy)]
pub struct Tables<'a> {
    /// The nodes of the bodies of a model's definitions.
    pub model: &'a Nodes,
    /// The body of each definition of the model, by its place.
    pub model_bodies: &'a [TermId],
    /// The nodes of the script's terms.
    pub script: &'a Nodes,
    /// The nodes of further terms of the script, which come after those.
    pub transient: &'a Nodes,
    /// The body of each definition of the script's own, by its place.
    pub script_bodies: &'a [TermId],
    /// For each name that the script declares, by its place, the body of the definition that the model gives
    /// to it, in the model's table.
    pub declared: &'a [TermId],
}

/// A place in one of two tables, and what the names of that table lead to.
#[derive(Clone, Copy)]
pub(crate) struct Place<'a> {
    pub(crate) nodes: &'a Nodes,
    pub(crate) number: usize,
    /// Whether the elements of this table are known, by their numbers: those of the model are.
    pub(crate) named: bool,
    /// How many nodes of both tables come before those of this one.
    pub(crate) shift: usize,
    pub(crate) bodies: &'a [TermId],
    pub(crate) declared: &'a [TermId],
}

impl<'a> Tables<'a> {
    /// The number of a term of the script; 2^64 - 1 where it is that or more.
    pub fn root(&self, term: TermId) -> usize
        ensures { result ≡ capped (model_count self.now + term) }
    {
        self.shift().saturating_add(term.number())
    }

    /// How many nodes come before the script's.
    #[inline(always)]
    pub(crate) fn shift(&self) -> usize
        ensures { result ≡ model_count self.now }
    {
        self.model.len()
    }

    /// The place of the node of a number.
    #[inline(always)]
    pub(crate) fn place(&self, number: usize) -> Place<'a>
        ensures node { found result ≡ slice_get (nodes_of self.now) number }
        ensures around { found_around result ≡ around_at (arounds_of self.now) number }
    {
        let shift = self.shift();
        if number < shift {
            self.model_place(number)
        } else {
            self.script_place(shift, number)
        }
    }

    /// The place of a node of the model.
    #[inline(always)]
    pub(crate) fn model_place(&self, number: usize) -> Place<'a>
        requires { number < model_count self.now }
        ensures node { found result ≡ slice_get (nodes_of self.now) number }
        ensures around { found_around result ≡ around_at (arounds_of self.now) number }
    {
        Place {
            nodes: self.model,
            number,
            named: true,
            shift: 0,
            bodies: self.model_bodies,
            declared: &[],
        }
    }

    /// The place of a node of the script, after the `shift` nodes of the model.
    #[inline(always)]
    pub(crate) fn script_place(&self, shift: usize, number: usize) -> Place<'a>
        requires shift { shift ≡ model_count self.now }
        requires behind { shift ≤ number }
        ensures node { found result ≡ slice_get (nodes_of self.now) number }
        ensures around { found_around result ≡ around_at (arounds_of self.now) number }
    {
        let own = number - shift;
        let count = self.script.len();
        if own < count {
            self.place_among(shift, self.script, own)
        } else {
            self.place_among(shift, self.transient, own - count)
        }
    }

    // A place in one of the script's tables.
    #[inline(always)]
    fn place_among(&self, shift: usize, nodes: &'a Nodes, number: usize) -> Place<'a>
        ensures nodes { result.nodes.now ≡ nodes.now }
        ensures number { result.number ≡ number }
        ensures named { result.named ≡ false }
        ensures shift { result.shift ≡ shift }
        ensures bodies { result.bodies.now ≡ self.now.script_bodies.now }
        ensures declared { result.declared.now ≡ self.now.declared.now }
    {
        Place {
            nodes,
            number,
            named: false,
            shift,
            bodies: self.script_bodies,
            declared: self.declared,
        }
    }
}

impl<'a> Place<'a> {
    /// The node at the place, if there is one.
    #[inline(always)]
    pub(crate) fn node(&self) -> Option<Node<'a>>
        ensures meaning { option_map (meaning self.now) result ≡ found self.now }
        ensures node { option_map node_view result ≡ found_node self.now }
    {
        self.nodes.get(self.number)
    }

    /// The number that the node's digits spell, if it is a literal below 2^128.
    #[inline(always)]
    pub(crate) fn literal(&self) -> Option<u128>
        ensures { result ≡ literal_number (found_node self.now) }
    {
        self.nodes.literal(self.number)
    }

    /// The parts of the node, and how many annotations are round it, if there is a node.
    #[inline(always)]
    pub(crate) fn annotated_parts(&self) -> Option<(NodeParts<'a>, usize)>
        ensures parts { option_map (λ p. parts_view p.0) result ≡ found_parts self.now }
        ensures around { unwrap_or (option_map (λ p. p.1) result) 0 ≡ found_around self.now }
        ensures whole { IfSome result (λ p. IsWhole p.0 (found_node self.now)) }
    {
        self.nodes.get_parts(self.number)
    }

    /// How many annotations are round the node; 0 where there is none.
    #[inline(always)]
    pub(crate) fn around(&self) -> usize
        ensures { result ≡ found_around self.now }
    {
        match self.nodes.around(self.number) {
            Some(around) => around,
            None => 0,
        }
    }

    /// What is known of the element that the node is.
    #[inline(always)]
    pub(crate) fn element(&self) -> Option<Value>
        ensures known { (name : List ℕ) → found_node self.now ≡ Some (Element name)
            → known_element result ≡ elements_at self.now name }
        ensures plain { IsNoArray result }
    {
        if !self.named {
            return None;
        }
        match self.nodes.element(self.number) {
            Some(number) => Some(element(number)),
            None => None,
        }
    }

    /// The nodes of this table with these numbers.
    #[inline(always)]
    pub(crate) fn parts<'b>(&self, ids: &'b [TermId]) -> Parts<'b>
        ensures { numbers_of result ≡ shifted self.now.shift ids.now }
    {
        Parts {
            ids,
            shift: self.shift,
        }
    }

    /// The body of a definition of this table.
    #[inline(always)]
    pub(crate) fn defined(&self, place: usize) -> Option<Part>
        ensures { option_map number_of result
            ≡ option_map (λ j. self.now.shift + j) (slice_get self.now.bodies.now place) }
    {
        part_at(self.bodies, place, self.shift)
    }

    /// The body that a declared name has in the model.
    #[inline(always)]
    pub(crate) fn declared(&self, place: usize) -> Option<Part>
        ensures { option_map number_of result ≡ slice_get self.now.declared.now place }
    {
        part_at(self.declared, place, 0)
    }
}

// The node at a place of a list, in a table whose nodes come after `shift` others.
#[inline(always)]
fn part_at(ids: &[TermId], place: usize, shift: usize) -> Option<Part>
    ensures { option_map number_of result ≡ option_map (λ j. shift + j) (slice_get ids.now place) }
{
    match item_at(ids, place) {
        Some(id) => Some(Part { id: *id, shift }),
        None => None,
    }
}
