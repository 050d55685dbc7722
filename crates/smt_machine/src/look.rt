//! A node of both tables, as far as a walk beside its tree asks for it. This file evaluates nothing.

ghost use Rattle.std.specs.Prelude.{◌≡◌, [], None, Some, option_and_then, option_map, slice_get};
ghost use Rattle.smt_machine.specs.Internal.Parts.{meaning, number_of, numbers_of};
ghost use Rattle.smt_machine.specs.Looks.{Shows, below, number_seen, op_seen, parts_seen};
ghost use Rattle.smt_machine.specs.Tables.{call, nodes_of};

use crate::items::item_at;
use crate::parts::{Part, Parts};
use crate::tables::{Place, Tables};
use smt_nodes::{Node, TermId};
use smt_theory::Op;

/// What a walk beside a term's tree sees of the term's node. All nodes are named by their numbers in both tables, the
/// model's first, from 0.
#[derive(Clone, Copy)]
pub struct Look<'a> {
    number: usize,
    ids: &'a [TermId],
    shift: usize,
    op: Option<Op>,
    /// The body that the node leads to: of the name that it calls, declared or defined, or of the `let` that it is.
    /// `None` where there is no body, or where its number is not below the node's: then the node is open.
    pub body: Option<usize>,
}

impl<'a> Look<'a> {
    /// The node of a part, by its place in the tree from 0: of an operator's or a name's argument, or of the term that
    /// a `let` gives to a variable. `None` where there is no part, or where its number is not below the node's: such a
    /// part is open.
    pub fn part(&self, place: usize) -> Option<usize>
        ensures { result ≡ option_and_then (below (number_seen self.now)) (slice_get (parts_seen self.now) place) }
    {
        match item_at(self.ids, place) {
            Some(id) => {
                let part = Part {
                    id: *id,
                    shift: self.shift,
                };
                part.below(self.number)
            }
            None => None,
        }
    }

    /// The operator of a theory that the node applies; `None` where it is another node.
    pub fn op(&self) -> Option<Op>
        ensures { result ≡ op_seen self.now }
    {
        self.op
    }

    // A node without parts.
    fn leaf(number: usize) -> Look<'a>
        ensures number { number_seen result ≡ number }
        ensures parts { parts_seen result ≡ [] }
        ensures body { result.body ≡ None }
        ensures op { op_seen result ≡ None }
    {
        Look {
            number,
            ids: &[],
            shift: 0,
            op: None,
            body: None,
        }
    }

    // A node with parts.
    fn inner(number: usize, parts: Parts<'a>, op: Option<Op>, body: Option<Part>) -> Look<'a>
        ensures number { number_seen result ≡ number }
        ensures parts { parts_seen result ≡ numbers_of parts.entry }
        ensures body { result.body ≡ option_and_then (below number) (option_map number_of body) }
        ensures op { op_seen result ≡ op }
    {
        Look {
            number,
            ids: parts.ids,
            shift: parts.shift,
            op,
            body: match body {
                Some(body) => body.below(number),
                None => None,
            },
        }
    }

    // A name with its arguments; without a body it is open, as a whole.
    fn call(number: usize, parts: Parts<'a>, body: Option<Part>) -> Look<'a>
        ensures { Shows number (Some (call (option_map number_of body) (numbers_of parts.entry))) result }
    {
        match body {
            Some(_) => Look::inner(number, parts, None, body),
            None => Look::leaf(number),
        }
    }

    // The node that was fetched at a place.
    fn at(number: usize, from: &Place<'a>, node: &Node<'a>) -> Look<'a>
        ensures { Shows number (Some (meaning from.now node.now)) result }
    {
        match node {
            Node::Literal(_, _) | Node::Element(_) | Node::Slot(_) => Look::leaf(number),
            Node::Apply { op, args } => Look::inner(number, from.parts(*args), Some(*op), None),
            Node::Declared { place, args } => {
                Look::call(number, from.parts(*args), from.declared(*place))
            }
            Node::Defined { place, args } => {
                Look::call(number, from.parts(*args), from.defined(*place))
            }
            Node::Let { values, body } => {
                let body = Part {
                    id: *body,
                    shift: from.shift,
                };
                Look::inner(number, from.parts(*values), None, Some(body))
            }
        }
    }
}

impl<'a> Tables<'a> {
    /// What a walk sees of a node; of a number that no node has, a node without parts.
    pub fn look(&self, node: usize) -> Look<'a>
        ensures { Shows node (slice_get (nodes_of self.now) node) result }
    {
        let from = self.place(node);
        match from.node() {
            Some(found) => Look::at(node, &from, &found),
            None => Look::leaf(node),
        }
    }
}
