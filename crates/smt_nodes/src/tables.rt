//! The lists that rows reach into: arguments, digits, operators with numbers, large numbers of literals, and nodes
//! with annotations round them. Each only grows at its end or is cut. This file knows no rows.

ghost use Rattle.std.specs.Prelude.{◌≡◌, ◌≤◌, ◌<◌, ◌++◌, ◌^◌, length, slice_index_or, IfOk, OnOk, OnErr};
ghost use Rattle.std.specs.Prelude.{◌∷◌, [], ℕ, List, None, Some, slice_get};
ghost use Rattle.smt_nodes.specs.declared.annotated.AnnotatedNode.{AnnotatedNode};
ghost use Rattle.smt_nodes.specs.declared.large.LargeNumber.{LargeNumber};
ghost use Rattle.smt_theory.specs.PlainOp.{op_of_plain};
ghost use Rattle.smt_theory.specs.declared.op.CoreOp.{CoreOp};
ghost use Rattle.smt_theory.specs.declared.op.Op.{Op};
ghost use Rattle.smt_nodes.specs.Node as spec;
ghost use Rattle.smt_nodes.specs.NodeView.{node_view};
ghost use Rattle.smt_nodes.specs.NodeParts.{parts_of};
ghost use Rattle.smt_nodes.specs.PartsView.{parts_view, IsWhole};
ghost use Rattle.smt_nodes.specs.Internal.Annotations.{IsAnnotated, annotated_in, annotated_of, inner, stored_in};
ghost use Rattle.smt_nodes.specs.Internal.Lists.{Grows, IsHeld, IsStored, IsUpTo, before, first_of, lengths};
ghost use Rattle.smt_nodes.specs.Internal.Lists.{IsPrefix, lists_of, node_of, no_lists};
ghost use Rattle.smt_nodes.specs.Internal.Elements.{element_if, held_element};
ghost use Rattle.smt_nodes.specs.Internal.Numbers.{IsNumberHeld, held_number, large_of};
ghost use Rattle.smt_nodes.specs.Internal.Numbers.{number_in};
ghost use Rattle.smt_nodes.specs.Literals.{spelled};

use crate::annotated::{self, AnnotatedNode};
use crate::large::{self, LargeNumber};
use crate::node::{Node, NodeParts};
use crate::op::NumberedOp;
use crate::rows::{Ends, Stored};
use crate::term_id::TermId;
use smt_faults::Memory;
use smt_theory::{LiteralKind, Op, PlainOp, literal_number};
use std::alloc::Global;

/// Not more arguments or digits than these are added one by one.
const FEW: usize = 4;

/// The greatest length of a list.
const MOST: usize = u32::MAX as usize;

/// The lists that rows reach into.
#[derive(Drop)]
pub(crate) struct Tables {
    parts: Vec<TermId>,
    digits: Vec<u8>,
    ops: Vec<NumberedOp>,
    large: Vec<LargeNumber>,
    annotated: Vec<AnnotatedNode>,
}

impl Tables {
    /// Empty lists.
    pub(crate) fn new(alloc: Global) -> Tables
        ensures lists { lists_of result ≡ no_lists }
        ensures large { large_of result ≡ [] }
        ensures annotated { annotated_of result ≡ [] }
    {
        Tables {
            parts: Vec::new(alloc),
            digits: Vec::new(alloc),
            ops: Vec::new(alloc),
            large: Vec::new(alloc),
            annotated: Vec::new(alloc),
        }
    }

    /// The lengths of the lists.
    #[inline(always)]
    pub(crate) fn ends(&self) -> Result<Ends, Memory>
        ensures { IfOk result (λ ends. ends ≡ lengths (lists_of self.now)) }
    {
        let parts = self.parts.len();
        let digits = self.digits.len();
        let ops = self.ops.len();
        if parts > MOST || digits > MOST || ops > MOST {
            return Err(Memory);
        }
        Ok(Ends {
            parts: parts as u32,
            digits: digits as u32,
            ops: ops as u32,
        })
    }

    /// Cuts each list to these ends, which are those of the first `rows` rows.
    pub(crate) fn truncate(&mut self, ends: Ends, rows: usize)
        ensures lists { lists_of self.new ≡ first_of ends (lists_of self.old) }
        ensures large { (i : ℕ) (x : LargeNumber) → slice_get (large_of self.old) i ≡ Some x → x.row < rows
            → slice_get (large_of self.new) i ≡ Some x }
        ensures annotated { (i : ℕ) (x : AnnotatedNode) → slice_get (annotated_of self.old) i ≡ Some x
            → x.row < rows → slice_get (annotated_of self.new) i ≡ Some x }
    {
        self.parts.truncate(ends.parts as usize);
        self.digits.truncate(ends.digits as usize);
        self.ops.truncate(ends.ops as usize);
        self.large
            .truncate(large::count_before(self.large.as_slice(), rows));
        self.annotated
            .truncate(annotated::count_before(self.annotated.as_slice(), rows));
    }

    /// The node of a row.
    #[inline(always)]
    pub(crate) fn node(&self, ends: Ends, stored: Stored) -> Node<'_>
        requires held { IsHeld ends stored }
        requires within { IsUpTo ends (lengths (lists_of self.now)) }
        ensures { node_view result ≡ node_of (lists_of self.now) ends stored }
    {
        match stored {
            Stored::Literal(kind, count, _) => Node::Literal(kind, self.digits(count, ends.digits)),
            Stored::Large(kind, count, _) => Node::Literal(kind, self.digits(count, ends.digits)),
            Stored::Element(count, _) => Node::Element(self.digits(count, ends.digits)),
            Stored::Slot(place) => Node::Slot(place as usize),
            Stored::Plain(op, count) => Node::Apply {
                op: op.op(),
                args: self.parts(count, ends.parts),
            },
            Stored::Numbered(place, count) => Node::Apply {
                op: self.op(place),
                args: self.parts(count, ends.parts),
            },
            Stored::Declared(place, count) => Node::Declared {
                place: place as usize,
                args: self.parts(count, ends.parts),
            },
            Stored::Defined(place, count) => Node::Defined {
                place: place as usize,
                args: self.parts(count, ends.parts),
            },
            Stored::Let(count, body) => Node::Let {
                values: self.parts(count, ends.parts),
                body,
            },
            Stored::Annotated(place, _) => Node::Slot(place as usize),
        }
    }

    /// The parts of the node of a row.
    #[inline(always)]
    pub(crate) fn node_parts(&self, ends: Ends, stored: Stored) -> NodeParts<'_>
        requires held { IsHeld ends stored }
        requires within { IsUpTo ends (lengths (lists_of self.now)) }
        ensures parts { parts_view result ≡ parts_of (node_of (lists_of self.now) ends stored) }
        ensures whole { IsWhole result (Some (node_of (lists_of self.now) ends stored)) }
    {
        match stored {
            Stored::Literal(kind, count, _) | Stored::Large(kind, count, _) => {
                NodeParts::Literal(kind, self.digits(count, ends.digits))
            }
            Stored::Slot(place) => NodeParts::Slot(place as usize),
            Stored::Element(_, _) | Stored::Annotated(_, _) => NodeParts::Args(&[]),
            Stored::Plain(op, count) => NodeParts::Plain {
                op,
                args: self.parts(count, ends.parts),
            },
            Stored::Numbered(_, count) => NodeParts::Args(self.parts(count, ends.parts)),
            Stored::Declared(place, count) => NodeParts::Declared {
                place: place as usize,
                args: self.parts(count, ends.parts),
            },
            Stored::Defined(place, count) => NodeParts::Defined {
                place: place as usize,
                args: self.parts(count, ends.parts),
            },
            Stored::Let(count, body) => NodeParts::Let {
                values: self.parts(count, ends.parts),
                body,
            },
        }
    }

    /// What is stored for the node of a row itself, without the annotations round it.
    #[inline(always)]
    pub(crate) fn inner(&self, stored: Stored) -> Stored
        ensures { result ≡ inner (annotated_of self.now) stored }
    {
        match stored {
            Stored::Annotated(place, _) => self.annotated_at(place as usize),
            _ => stored,
        }
    }

    // What is stored for the node at a place among those with annotations round them.
    fn annotated_at(&self, place: usize) -> Stored
        ensures { result ≡ stored_in (slice_get (annotated_of self.now) place) }
    {
        match self.annotated.as_slice().get(place) {
            Some(node) => node.stored,
            None => Stored::Slot(0),
        }
    }

    /// What the row of this number stores for a node with this many annotations round it, from what is stored for
    /// the node itself.
    #[inline(always)]
    pub(crate) fn annotate(
        &mut self,
        stored: Stored,
        around: u32,
        row: usize,
    ) -> Result<Stored, Memory>
        requires { annotated_in stored ≡ None }
        ensures lists { lists_of self.new ≡ lists_of self.old }
        ensures large { large_of self.new ≡ large_of self.old }
        ensures longer { IsPrefix (annotated_of self.old) (annotated_of self.new) }
        ensures annotated { IfOk result (IsAnnotated (annotated_of self.new) row stored around) }
    {
        if around == 0 {
            return Ok(stored);
        }
        self.push_annotated(stored, around, row)
    }

    // Stores a node with annotations round it, out of line: most nodes have none.
    #[inline(never)]
    fn push_annotated(&mut self, stored: Stored, around: u32, row: usize) -> Result<Stored, Memory>
        ensures lists { lists_of self.new ≡ lists_of self.old }
        ensures large { large_of self.new ≡ large_of self.old }
        ensures longer { IsPrefix (annotated_of self.old) (annotated_of self.new) }
        ensures annotated { IfOk result (IsAnnotated (annotated_of self.new) row stored around) }
    {
        let place = narrow(self.annotated.len())?;
        let row = narrow(row)?;
        self.annotated.push(AnnotatedNode { row, stored })?;
        Ok(Stored::Annotated(place, around))
    }

    /// The number that the digits of a literal spell, from what is stored for it.
    #[inline(always)]
    pub(crate) fn number(&self, stored: Stored) -> Option<u128>
        ensures { result ≡ held_number (large_of self.now) stored }
    {
        match stored {
            Stored::Literal(_, _, number) => Some(u128::from(number)),
            Stored::Large(_, _, place) => self.large_number(place as usize),
            _ => None,
        }
    }

    /// The place of the name of an element among those of elements, from what is stored for it.
    #[inline(always)]
    pub(crate) fn element(&self, stored: Stored) -> Option<u32>
        ensures { result ≡ held_element stored }
    {
        match stored {
            Stored::Element(_, place) => Some(place),
            _ => None,
        }
    }

    // The large number at a place.
    fn large_number(&self, place: usize) -> Option<u128>
        ensures { result ≡ number_in (slice_get (large_of self.now) place) }
    {
        match self.large.as_slice().get(place) {
            Some(large) => large.number,
            None => None,
        }
    }

    /// Adds the digits, arguments or operator of a node at the ends of the lists. The node will be the row of
    /// this number. `element` is the place of its name, if it is an element of a declared sort.
    ///
    /// Where memory is refused, what was added before stays until the next cut, and belongs to no row.
    #[inline(always)]
    pub(crate) fn store(
        &mut self,
        node: &Node<'_>,
        row: usize,
        element: u32,
    ) -> Result<Stored, Memory>
        ensures grown { Grows (lists_of self.old) (lists_of self.new) }
        ensures stored { IfOk result (λ s. IsStored (lists_of self.new) s (node_view node.now)) }
        ensures longer { IsPrefix (large_of self.old) (large_of self.new) }
        ensures annotated { annotated_of self.new ≡ annotated_of self.old }
        ensures number { IfOk result (λ s.
            IsNumberHeld (large_of self.new) row s (spelled (node_view node.now))) }
        ensures element { IfOk result (λ s. held_element s ≡ element_if (node_view node.now) element) }
    {
        match *node {
            Node::Literal(kind, digits) => self.store_literal(kind, digits, row),
            Node::Element(name) => Ok(Stored::Element(self.push_digits(name)?, element)),
            Node::Slot(place) => Ok(Stored::Slot(narrow(place)?)),
            Node::Apply { op, args } => self.store_apply(&op, args),
            Node::Declared { place, args } => {
                let place = narrow(place)?;
                Ok(Stored::Declared(place, self.push_parts(args)?))
            }
            Node::Defined { place, args } => {
                let place = narrow(place)?;
                Ok(Stored::Defined(place, self.push_parts(args)?))
            }
            Node::Let { values, body } => Ok(Stored::Let(self.push_parts(values)?, body)),
        }
    }

    /// Stores a literal, as `store` does.
    #[inline(always)]
    pub(crate) fn store_literal(
        &mut self,
        kind: LiteralKind,
        digits: &[u8],
        row: usize,
    ) -> Result<Stored, Memory>
        ensures grown { Grows (lists_of self.old) (lists_of self.new) }
        ensures stored { IfOk result (λ s. IsStored (lists_of self.new) s (spec.Literal kind digits.now)) }
        ensures longer { IsPrefix (large_of self.old) (large_of self.new) }
        ensures annotated { annotated_of self.new ≡ annotated_of self.old }
        ensures number { IfOk result (λ s.
            IsNumberHeld (large_of self.new) row s (spelled (spec.Literal kind digits.now))) }
        ensures element { IfOk result (λ s. held_element s ≡ None) }
    {
        let count = self.push_digits(digits)?;
        match literal_number(kind, digits) {
            Some(number) if number <= MOST as u128 => {
                Ok(Stored::Literal(kind, count, number as u32))
            }
            number => {
                let place = self.push_large(LargeNumber { row, number })?;
                Ok(Stored::Large(kind, count, place))
            }
        }
    }

    // Adds a large number, and returns its place.
    fn push_large(&mut self, large: LargeNumber) -> Result<u32, Memory>
        ensures place { IfOk result (λ i. i ≡ length (large_of self.old)) }
        ensures pushed { OnOk result (large_of self.new ≡ large_of self.old ++ large ∷ []) }
        ensures unchanged { OnErr result (large_of self.new ≡ large_of self.old) }
        ensures lists { lists_of self.new ≡ lists_of self.old }
        ensures annotated { annotated_of self.new ≡ annotated_of self.old }
    {
        let place = narrow(self.large.len())?;
        self.large.push(large)?;
        Ok(place)
    }

    // Stores an operator with its arguments, as `store` does.
    #[inline(always)]
    fn store_apply(&mut self, op: &Op, args: &[TermId]) -> Result<Stored, Memory>
        ensures grown { Grows (lists_of self.old) (lists_of self.new) }
        ensures stored { IfOk result (λ s. IsStored (lists_of self.new) s (spec.Apply op.now args.now)) }
        ensures large { self.new.large ≡ self.old.large }
        ensures annotated { annotated_of self.new ≡ annotated_of self.old }
        ensures element { IfOk result (λ s. held_element s ≡ None) }
    {
        match PlainOp::from_op(*op) {
            Some(plain) => self.store_plain(plain, args),
            None => self.store_numbered(op, args),
        }
    }

    /// Stores an operator that holds no number with its arguments, as `store` does.
    #[inline(always)]
    pub(crate) fn store_plain(&mut self, op: PlainOp, args: &[TermId]) -> Result<Stored, Memory>
        ensures grown { Grows (lists_of self.old) (lists_of self.new) }
        ensures stored { IfOk result (λ s. IsStored (lists_of self.new) s
            (spec.Apply (op_of_plain op) args.now)) }
        ensures large { self.new.large ≡ self.old.large }
        ensures annotated { annotated_of self.new ≡ annotated_of self.old }
        ensures number { IfOk result (λ s. (large : List LargeNumber) (row : ℕ)
            → IsNumberHeld large row s None) }
        ensures element { IfOk result (λ s. held_element s ≡ None) }
    {
        Ok(Stored::Plain(op, self.push_parts(args)?))
    }

    // Stores an operator with numbers and its arguments, as `store` does.
    fn store_numbered(&mut self, op: &Op, args: &[TermId]) -> Result<Stored, Memory>
        ensures grown { Grows (lists_of self.old) (lists_of self.new) }
        ensures stored { IfOk result (λ s. IsStored (lists_of self.new) s (spec.Apply op.now args.now)) }
        ensures large { self.new.large ≡ self.old.large }
        ensures annotated { annotated_of self.new ≡ annotated_of self.old }
        ensures element { IfOk result (λ s. held_element s ≡ None) }
    {
        let place = narrow(self.ops.len())?;
        self.ops.push(NumberedOp::new(op))?;
        Ok(Stored::Numbered(place, self.push_parts(args)?))
    }

    // Adds digits, and returns how many.
    #[inline(always)]
    fn push_digits(&mut self, digits: &[u8]) -> Result<u32, Memory>
        ensures count { IfOk result (λ n. n ≡ length digits.now) }
        ensures pushed { OnOk result (self.new.digits.items ≡ self.old.digits.items ++ digits.now) }
        ensures unchanged { OnErr result (self.new.digits.items ≡ self.old.digits.items) }
        ensures parts { self.new.parts ≡ self.old.parts }
        ensures ops { self.new.ops ≡ self.old.ops }
        ensures large { self.new.large ≡ self.old.large }
        ensures annotated { annotated_of self.new ≡ annotated_of self.old }
    {
        let count = narrow(digits.len())?;
        if digits.len() > FEW || self.digits.capacity() - self.digits.len() < digits.len() {
            self.push_many_digits(digits)?;
            return Ok(count);
        }
        for digit in digits {
            self.digits.push_reserved(*digit);
        }
        Ok(count)
    }

    // Adds digits, out of line: most literals have few, and most often there is room.
    #[inline(never)]
    fn push_many_digits(&mut self, digits: &[u8]) -> Result<(), Memory>
        ensures pushed { OnOk result (self.new.digits.items ≡ self.old.digits.items ++ digits.now) }
        ensures unchanged { OnErr result (self.new.digits.items ≡ self.old.digits.items) }
        ensures parts { self.new.parts ≡ self.old.parts }
        ensures ops { self.new.ops ≡ self.old.ops }
        ensures large { self.new.large ≡ self.old.large }
        ensures annotated { annotated_of self.new ≡ annotated_of self.old }
    {
        self.digits.extend_from_slice(digits)?;
        Ok(())
    }

    // Adds arguments, and returns how many.
    #[inline(always)]
    fn push_parts(&mut self, parts: &[TermId]) -> Result<u32, Memory>
        ensures count { IfOk result (λ n. n ≡ length parts.now) }
        ensures pushed { OnOk result (self.new.parts.items ≡ self.old.parts.items ++ parts.now) }
        ensures unchanged { OnErr result (self.new.parts.items ≡ self.old.parts.items) }
        ensures digits { self.new.digits ≡ self.old.digits }
        ensures ops { self.new.ops ≡ self.old.ops }
        ensures large { self.new.large ≡ self.old.large }
        ensures annotated { annotated_of self.new ≡ annotated_of self.old }
    {
        if parts.is_empty() {
            return Ok(0);
        }
        let count = narrow(parts.len())?;
        if parts.len() > FEW || self.parts.capacity() - self.parts.len() < parts.len() {
            self.push_many(parts)?;
            return Ok(count);
        }
        for part in parts {
            self.parts.push_reserved(*part);
        }
        Ok(count)
    }

    // Adds arguments, out of line: most operators have few, and most often there is room.
    #[inline(never)]
    fn push_many(&mut self, parts: &[TermId]) -> Result<(), Memory>
        ensures pushed { OnOk result (self.new.parts.items ≡ self.old.parts.items ++ parts.now) }
        ensures unchanged { OnErr result (self.new.parts.items ≡ self.old.parts.items) }
        ensures digits { self.new.digits ≡ self.old.digits }
        ensures ops { self.new.ops ≡ self.old.ops }
        ensures large { self.new.large ≡ self.old.large }
        ensures annotated { annotated_of self.new ≡ annotated_of self.old }
    {
        self.parts.extend_from_slice(parts)?;
        Ok(())
    }

    // The last `count` digits before an end.
    fn digits(&self, count: u32, end: u32) -> &[u8]
        requires count { count ≤ end }
        requires within { end ≤ length self.now.digits.items }
        ensures { result.now ≡ before count end self.now.digits.items }
    {
        &self.digits.as_slice()[(end - count) as usize..end as usize]
    }

    // The last `count` arguments before an end.
    fn parts(&self, count: u32, end: u32) -> &[TermId]
        requires count { count ≤ end }
        requires within { end ≤ length self.now.parts.items }
        ensures { result.now ≡ before count end self.now.parts.items }
    {
        &self.parts.as_slice()[(end - count) as usize..end as usize]
    }

    // The operator at a place.
    fn op(&self, place: u32) -> Op
        requires { place < length self.now.ops.items }
        ensures { result ≡ slice_index_or self.now.ops.items place (Op.Core CoreOp.True) }
    {
        self.ops.as_slice()[place as usize].op()
    }
}

/// A count in four bytes; an error from 2^32 on, since no table is longer.
#[inline(always)]
pub(crate) fn narrow(count: usize) -> Result<u32, Memory>
    ensures same { IfOk result (λ n. n ≡ count) }
    ensures refused { OnErr result (2 ^ 32 ≤ count) }
{
    if count > MOST {
        return Err(Memory);
    }
    Ok(count as u32)
}
