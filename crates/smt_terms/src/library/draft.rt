//! The state of the check of a term: the variables that its parts see, the labels in it, its nodes, and the
//! arguments that wait. This file knows no trees.

ghost use Rattle.std.specs.Prelude.{◌≡◌, ◌||◌, ◌<◌, ◌≤◌, ◌+◌, ◌++◌, ◌∷◌, [], length, slice_get, Some, IfOk, OnOk};
ghost use Rattle.std.specs.Prelude.{OnErr, false};
ghost use Rattle.smt_nodes.specs.Node.{Apply, Let, Literal};
ghost use Rattle.smt_theory.specs.PlainOp.{op_of_plain};
ghost use Rattle.smt_terms.specs.Denotes as denotes;
ghost use Rattle.smt_terms.specs.Internal.DraftView.{argument_sorts, terms_from};
ghost use Rattle.smt_nodes.specs.NodeView.{node_view};
ghost use Rattle.smt_forms.specs.ScopeView.{scope_view};
ghost use Rattle.smt_terms.specs.Internal.DraftView.{placed_from, seen_by};
ghost use Rattle.smt_terms.specs.Internal.NodesView.{AddsNode, GrowsTo};

use crate::labels::Labels;
use crate::library::Found;
use crate::library::arguments::Arguments;
use smt_faults::Memory;
use smt_forms::{Scope, Variable};
use smt_nodes::{Node, Nodes, TermId};
use smt_theory::{LiteralKind, Op, PlainOp, Sort};
use std::alloc::Global;

/// A variable's sort, and its place among the variables in scope; the outermost has place 0.
#[derive(Clone, Copy)]
pub(crate) struct Bound {
    pub(crate) sort: Sort,
    pub(crate) place: usize,
}

/// The state of the check of a term. It has the variables in scope, of which the outermost `base` are outside the
/// innermost term with a label, and the labels so far. Its nodes are those of this draft and perhaps of earlier ones;
/// they come after the nodes of a table that stays unchanged. Its arguments are checked, and their terms are not yet.
#[derive(Drop)]
pub(crate) struct Draft<'a> {
    pub(crate) scope: Scope<'a, Bound>,
    pub(crate) base: usize,
    pub(crate) labels: Labels<'a>,
    pub(crate) nodes: Nodes,
    pub(crate) arguments: Arguments,
}

/// The result of a check: the term's sort, its node, and whether it uses a variable from outside. If it does, its node
/// means nothing.
#[derive(Clone, Copy)]
pub(crate) struct CheckedTerm {
    pub(crate) node: TermId,
    pub(crate) sort: Sort,
    pub(crate) is_open: bool,
}

impl<'a> Draft<'a> {
    /// A draft without variables, with these labels, nodes and arguments.
    pub(crate) fn new(alloc: Global, labels: Labels<'a>, nodes: Nodes, arguments: Arguments) -> Self
        ensures variables { seen_by result ≡ [] }
        ensures base { result.base ≡ 0 }
        ensures labels { result.labels ≡ labels.entry }
        ensures nodes { result.nodes ≡ nodes }
    {
        Draft {
            scope: Scope::new(alloc),
            base: 0,
            labels,
            nodes,
            arguments,
        }
    }

    /// Puts variables before those in scope, the last one outermost, or fails with `Memory`.
    pub(crate) fn bind(&mut self, variables: &[Variable<'a, Sort>]) -> Result<(), Memory>
        ensures bound { OnOk result (seen_by self.new
            ≡ placed_from (length (seen_by self.old)) (scope_view variables.now) ++ seen_by self.old) }
        ensures base { self.new.base ≡ self.old.base }
        ensures labels { self.new.labels ≡ self.old.labels }
        ensures nodes { self.new.nodes ≡ self.old.nodes }
        ensures arguments { self.new.arguments ≡ self.old.arguments }
    {
        let first = self.scope.len();
        let mut left = variables.len();
        while left > 0 {
            left -= 1;
            let variable = &variables[left];
            let Some(place) = first.checked_add(left) else {
                return Err(Memory);
            };
            self.put(variable.name, variable.value, place)?;
        }
        Ok(())
    }

    /// Puts a variable of this place before those in scope.
    pub(crate) fn put(&mut self, name: &'a [u8], sort: Sort, place: usize) -> Result<(), Memory>
        ensures put { OnOk result (seen_by self.new
            ≡ (name.now, record { sort = sort; place = place }) ∷ seen_by self.old) }
        ensures base { self.new.base ≡ self.old.base }
        ensures labels { self.new.labels ≡ self.old.labels }
        ensures nodes { self.new.nodes ≡ self.old.nodes }
        ensures arguments { self.new.arguments ≡ self.old.arguments }
    {
        self.scope.push(name, Bound { sort, place })
    }

    /// Adds the node of a term of this sort after the nodes of a table, or fails with `Memory`. `is_open` says whether
    /// the term uses a variable from outside, and `around` how many annotations without a label are directly round it.
    #[inline(always)]
    pub(crate) fn push(
        &mut self,
        before: &Nodes,
        node: &Node<'_>,
        sort: &Sort,
        is_open: bool,
        around: u32,
    ) -> Result<CheckedTerm, Memory>
        ensures sort { IfOk result (λ c. c.sort ≡ sort.now) }
        ensures open { IfOk result (λ c. c.is_open ≡ is_open) }
        ensures added { IfOk result (λ c. AddsNode before.now self.old self.new around (node_view node.now) c) }
        ensures longer { GrowsTo self.old self.new }
        ensures scope { self.new.scope ≡ self.old.scope }
        ensures base { self.new.base ≡ self.old.base }
        ensures labels { self.new.labels ≡ self.old.labels }
        ensures arguments { self.new.arguments ≡ self.old.arguments }
    {
        let own = self.nodes.push(node, around)?;
        let node = own.behind(before.len())?;
        Ok(CheckedTerm {
            sort: *sort,
            node,
            is_open,
        })
    }

    /// Adds the node of a literal of this sort, by its digits, as `push` does.
    #[inline(always)]
    pub(crate) fn push_literal(
        &mut self,
        before: &Nodes,
        kind: LiteralKind,
        digits: &[u8],
        sort: Sort,
        around: u32,
    ) -> Result<CheckedTerm, Memory>
        ensures sort { IfOk result (λ c. c.sort ≡ sort) }
        ensures open { IfOk result (λ c. c.is_open ≡ false) }
        ensures added { IfOk result (λ c. AddsNode before.now self.old self.new around
            (Literal kind digits.now) c) }
        ensures longer { GrowsTo self.old self.new }
        ensures scope { self.new.scope ≡ self.old.scope }
        ensures base { self.new.base ≡ self.old.base }
        ensures labels { self.new.labels ≡ self.old.labels }
        ensures arguments { self.new.arguments ≡ self.old.arguments }
    {
        let own = self.nodes.push_literal(kind, digits, around)?;
        let node = own.behind(before.len())?;
        Ok(CheckedTerm {
            sort,
            node,
            is_open: false,
        })
    }

    /// Adds the node of an operator that holds no number, with the arguments from `start` on, as `push` does.
    #[inline(always)]
    pub(crate) fn push_plain(
        &mut self,
        before: &Nodes,
        op: PlainOp,
        start: usize,
        sort: Sort,
        is_open: bool,
        around: u32,
    ) -> Result<CheckedTerm, Memory>
        requires { start ≤ length (argument_sorts self.old.arguments) }
        ensures sort { IfOk result (λ c. c.sort ≡ sort) }
        ensures open { IfOk result (λ c. c.is_open ≡ is_open) }
        ensures added { IfOk result (λ c. AddsNode before.now self.old self.new around
            (Apply (op_of_plain op) (terms_from start self.old.arguments)) c) }
        ensures longer { GrowsTo self.old self.new }
        ensures scope { self.new.scope ≡ self.old.scope }
        ensures base { self.new.base ≡ self.old.base }
        ensures labels { self.new.labels ≡ self.old.labels }
        ensures arguments { self.new.arguments ≡ self.old.arguments }
    {
        let own = self
            .nodes
            .push_plain(op, self.arguments.terms(start), around)?;
        let node = own.behind(before.len())?;
        Ok(CheckedTerm {
            sort,
            node,
            is_open,
        })
    }

    /// Adds the node of an operator, also of one that holds a number, with the arguments from `start` on, as `push`
    /// does.
    pub(crate) fn push_numbered(
        &mut self,
        before: &Nodes,
        op: &Op,
        start: usize,
        sort: Sort,
        is_open: bool,
        around: u32,
    ) -> Result<CheckedTerm, Memory>
        requires { start ≤ length (argument_sorts self.old.arguments) }
        ensures sort { IfOk result (λ c. c.sort ≡ sort) }
        ensures open { IfOk result (λ c. c.is_open ≡ is_open) }
        ensures added { IfOk result (λ c. AddsNode before.now self.old self.new around
            (Apply op.now (terms_from start self.old.arguments)) c) }
        ensures longer { GrowsTo self.old self.new }
        ensures scope { self.new.scope ≡ self.old.scope }
        ensures base { self.new.base ≡ self.old.base }
        ensures labels { self.new.labels ≡ self.old.labels }
        ensures arguments { self.new.arguments ≡ self.old.arguments }
    {
        let args = self.arguments.terms(start);
        let own = self.nodes.push(&Node::Apply { op: *op, args }, around)?;
        let node = own.behind(before.len())?;
        Ok(CheckedTerm {
            sort,
            node,
            is_open,
        })
    }

    /// Adds the node of a `let` with this body, as `push` does. The terms of its bindings are the arguments from
    /// `start` on. Its sort is the body's.
    pub(crate) fn push_let(
        &mut self,
        before: &Nodes,
        start: usize,
        body: CheckedTerm,
        is_open: bool,
        around: u32,
    ) -> Result<CheckedTerm, Memory>
        requires { start ≤ length (argument_sorts self.old.arguments) }
        ensures sort { IfOk result (λ c. c.sort ≡ body.sort) }
        ensures open { IfOk result (λ c. c.is_open ≡ (is_open || body.is_open)) }
        ensures added { IfOk result (λ c. AddsNode before.now self.old self.new around
            (Let (terms_from start self.old.arguments) body.node) c) }
        ensures longer { GrowsTo self.old self.new }
        ensures scope { self.new.scope ≡ self.old.scope }
        ensures base { self.new.base ≡ self.old.base }
        ensures labels { self.new.labels ≡ self.old.labels }
        ensures arguments { self.new.arguments ≡ self.old.arguments }
    {
        let node = Node::Let {
            values: self.arguments.terms(start),
            body: body.node,
        };
        let own = self.nodes.push(&node, around)?;
        let node = own.behind(before.len())?;
        Ok(CheckedTerm {
            sort: body.sort,
            node,
            is_open: is_open | body.is_open,
        })
    }

    /// Adds the node of a name in force, by its place, with the arguments from `start` on, as `push` does.
    #[inline(always)]
    pub(crate) fn push_named(
        &mut self,
        before: &Nodes,
        place: Found,
        start: usize,
        sort: Sort,
        is_open: bool,
        around: u32,
    ) -> Result<CheckedTerm, Memory>
        requires { start ≤ length (argument_sorts self.old.arguments) }
        ensures sort { IfOk result (λ c. c.sort ≡ sort) }
        ensures open { IfOk result (λ c. c.is_open ≡ is_open) }
        ensures added { IfOk result (λ c. AddsNode before.now self.old self.new around
            (denotes.node_at place (terms_from start self.old.arguments)) c) }
        ensures longer { GrowsTo self.old self.new }
        ensures scope { self.new.scope ≡ self.old.scope }
        ensures base { self.new.base ≡ self.old.base }
        ensures labels { self.new.labels ≡ self.old.labels }
        ensures arguments { self.new.arguments ≡ self.old.arguments }
    {
        let node = node_at(place, self.arguments.terms(start));
        let own = self.nodes.push(&node, around)?;
        let node = own.behind(before.len())?;
        Ok(CheckedTerm {
            sort,
            node,
            is_open,
        })
    }
}

// The node of the name at this place, with arguments.
fn node_at<'b>(place: Found, args: &'b [TermId]) -> Node<'b>
    ensures { node_view result ≡ denotes.node_at place args.now }
{
    match place {
        Found::Declared(place) => Node::Declared { place, args },
        Found::Defined(place) => Node::Defined { place, args },
    }
}
