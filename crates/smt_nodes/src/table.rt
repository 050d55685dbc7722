//! The table of nodes. This file knows no term, and requires nothing of a node.

ghost use Rattle.std.proofs.Props.{props};
ghost use Rattle.std.specs.Prelude.{◌≡◌, IfOk};
ghost use Rattle.smt_nodes.specs.Internal.Annotations.{annotated_of, around_of};
ghost use Rattle.smt_nodes.specs.Internal.Lists.{lists_of};
ghost use Rattle.smt_nodes.specs.Internal.Numbers.{large_of};
ghost use Rattle.smt_nodes.specs.Internal.Elements.{AreNamed};
ghost use Rattle.smt_nodes.specs.Internal.Rows.{AreNumbered, IsSound, last_ends};

use crate::node::{Node, NodeParts};
use crate::rows::{Ends, Stored, StoredRow};
use crate::tables::{Tables, narrow};
use crate::term_id::TermId;
use smt_faults::Memory;
use smt_names::Names;
use smt_theory::{LiteralKind, PlainOp};
use std::alloc::Global;

/// A table of nodes, with numbers from 0 in the order in which they came.
///
/// With each node it keeps how many annotations without a label are directly round it (`!`, SMT-LIB 2.6, section
/// 3.6.5). It holds at most 2^32 - 1 nodes, and as many arguments and digits in all.
#[derive(Drop)]
pub struct Nodes {
    rows: Vec<StoredRow>,
    tables: Tables,
    /// The names of elements, each once. They stay where rows are cut, so that a number keeps its name.
    names: Names,
    ghost sound: { IsSound rows.items (lists_of tables) (annotated_of tables) } by { Prim.hlevel props },
    ghost numbered: { AreNumbered rows.items (lists_of tables) (large_of tables)
        (annotated_of tables) } by { Prim.hlevel props },
    ghost named: { AreNamed rows.items (lists_of tables) names (annotated_of tables) } by { Prim.hlevel props },
}

impl Nodes {
    ghost use Rattle.std.specs.Prelude.{ℕ, List, ◌≡◌, ◌<◌, ◌≤◌, ◌∷◌, ◌++◌, ◌+◌, [], length, take, slice_get};
    ghost use Rattle.std.specs.Prelude.{None, Some, option_map, IfOk, IfSome, OnOk, OnErr};
    ghost use Rattle.smt_nodes.specs.Node.{Apply, Literal};
    ghost use Rattle.smt_theory.specs.PlainOp.{op_of_plain};
    ghost use Rattle.smt_nodes.specs.NodeView.{node_view};
    ghost use Rattle.smt_nodes.specs.NodeParts.{parts_of};
    ghost use Rattle.smt_nodes.specs.PartsView.{parts_view, IsWhole};
    ghost use Rattle.smt_nodes.specs.Nodes.{names_of, rows_of};
    ghost use Rattle.smt_nodes.specs.Internal.Annotations.{IsOwn, annotated_in, inner};
    ghost use Rattle.smt_nodes.specs.Internal.Lists.{IsHeld, lengths};
    ghost use Rattle.smt_nodes.specs.Internal.Numbers.{IsNumberHeld};
    ghost use Rattle.smt_nodes.specs.Internal.Rows.{row_view};
    ghost use Rattle.smt_nodes.specs.Internal.Lists.{node_of};
    ghost use Rattle.smt_nodes.specs.Elements.{element_in, element_number, names_with};
    ghost use Rattle.smt_nodes.specs.Internal.Elements.{element_if, held_element};
    ghost use Rattle.smt_nodes.specs.Literals.{literal_number, spelled};

    /// A table without nodes.
    pub fn new(alloc: Global) -> Nodes
        ensures rows { rows_of result ≡ [] }
        ensures names { names_of result ≡ [] }
    {
        Nodes {
            rows: Vec::new(alloc),
            tables: Tables::new(alloc),
            names: Names::new(alloc),
        }
    }

    /// Makes room for so many more nodes.
    ///
    /// The only error is want of memory.
    pub fn reserve(&mut self, count: usize) -> Result<(), Memory>
        ensures rows { rows_of self.new ≡ rows_of self.old }
        ensures names { names_of self.new ≡ names_of self.old }
    {
        self.rows.reserve(count)?;
        Ok(())
    }

    /// The number of nodes.
    #[inline(always)]
    pub fn len(&self) -> usize
        ensures { result ≡ length (rows_of self.now) }
    {
        self.rows.len()
    }

    /// The node of a number; `None` from the length on.
    #[inline(always)]
    pub fn get(&self, number: usize) -> Option<Node<'_>>
        ensures { option_map node_view result
            ≡ option_map (λ row. row.node) (slice_get (rows_of self.now) number) }
    {
        match self.row(number) {
            Some(row) => Some(self.node(row)),
            None => None,
        }
    }

    /// The parts of the node of a number, and how many annotations are round it, as `around` counts them;
    /// `None` from the length on. It takes less time than `get`.
    #[inline(always)]
    pub fn get_parts(&self, number: usize) -> Option<(NodeParts<'_>, usize)>
        ensures parts { option_map (λ p. parts_view p.0) result
            ≡ option_map (λ row. parts_of row.node) (slice_get (rows_of self.now) number) }
        ensures around { option_map (λ p. p.1) result
            ≡ option_map (λ row. row.around) (slice_get (rows_of self.now) number) }
        ensures whole { IfSome result
            (λ p. IsWhole p.0 (option_map (λ row. row.node) (slice_get (rows_of self.now) number))) }
    {
        match self.row(number) {
            Some(row) => {
                let count = around(row.stored) as usize;
                let parts = self.parts(row);
                Some((parts, count))
            }
            None => None,
        }
    }

    /// The number that the digits of a literal spell, by the number of its node. The call looks at no digit.
    ///
    /// `None` where the number is 2^128 or more, or where the node is no literal or there is none.
    #[inline(always)]
    pub fn literal(&self, number: usize) -> Option<u128>
        ensures { result
            ≡ literal_number (option_map (λ row. row.node) (slice_get (rows_of self.now) number)) }
    {
        match self.row(number) {
            Some(row) => {
                let stored = self.tables.inner(row.stored);
                self.tables.number(stored)
            }
            None => None,
        }
    }

    /// The number of an element of a declared sort, by the number of its node: elements of one name have one number,
    /// and those of two names two. The call looks at no name.
    ///
    /// `None` where the node is no element or there is none.
    #[inline(always)]
    pub fn element(&self, number: usize) -> Option<u32>
        ensures { result
            ≡ element_in (names_of self.now) (option_map (λ row. row.node) (slice_get (rows_of self.now) number)) }
    {
        match self.row(number) {
            Some(row) => {
                let stored = self.tables.inner(row.stored);
                self.tables.element(stored)
            }
            None => None,
        }
    }

    /// The name of the elements of a number; `None` where no element has it.
    pub fn element_name(&self, element: u32) -> Option<&[u8]>
        ensures { option_map (λ name. name.now) result ≡ slice_get (names_of self.now) element }
    {
        if (element as usize) < self.names.len() {
            Some(self.names.name(element as usize))
        } else {
            None
        }
    }

    /// How many annotations without a label are directly round the node of a number; `None` from the length
    /// on.
    pub fn around(&self, number: usize) -> Option<usize>
        ensures { result ≡ option_map (λ row. row.around) (slice_get (rows_of self.now) number) }
    {
        match self.row(number) {
            Some(row) => Some(around(row.stored) as usize),
            None => None,
        }
    }

    /// Adds a node with this many annotations without a label directly round it, and returns its number. The
    /// only error is want of memory, and then no node is added.
    #[inline(always)]
    pub fn push(&mut self, node: &Node<'_>, around: u32) -> Result<TermId, Memory>
        ensures pushed { OnOk result (rows_of self.new
            ≡ rows_of self.old ++ (record { node = node_view node.now; around = around }) ∷ []) }
        ensures number { IfOk result (λ id. id ≡ length (rows_of self.old)) }
        ensures unchanged { OnErr result (rows_of self.new ≡ rows_of self.old) }
        ensures names { OnOk result (names_of self.new ≡ names_with (names_of self.old) (node_view node.now)) }
        ensures longer { (more : List (List ℕ)) × (names_of self.new ≡ names_of self.old ++ more) }
    {
        let element = self.name_element(node)?;
        self.push_named(node, element, around)
    }

    /// Adds the node of an operator that holds no number, with its arguments, as `push` does. It takes less
    /// time.
    #[inline(always)]
    pub fn push_plain(
        &mut self,
        op: PlainOp,
        args: &[TermId],
        around: u32,
    ) -> Result<TermId, Memory>
        ensures pushed { OnOk result (rows_of self.new ≡ rows_of self.old
            ++ (record { node = Apply (op_of_plain op) args.now; around = around }) ∷ []) }
        ensures number { IfOk result (λ id. id ≡ length (rows_of self.old)) }
        ensures unchanged { OnErr result (rows_of self.new ≡ rows_of self.old) }
        ensures names { names_of self.new ≡ names_of self.old }
    {
        let stored = self.tables.store_plain(op, args)?;
        self.push_stored(stored, around)
    }

    /// Adds the node of a literal, by its digits, as `push` does. It takes less time.
    #[inline(always)]
    pub fn push_literal(
        &mut self,
        kind: LiteralKind,
        digits: &[u8],
        around: u32,
    ) -> Result<TermId, Memory>
        ensures pushed { OnOk result (rows_of self.new ≡ rows_of self.old
            ++ (record { node = Literal kind digits.now; around = around }) ∷ []) }
        ensures number { IfOk result (λ id. id ≡ length (rows_of self.old)) }
        ensures unchanged { OnErr result (rows_of self.new ≡ rows_of self.old) }
        ensures names { names_of self.new ≡ names_of self.old }
    {
        let stored = self.tables.store_literal(kind, digits, self.rows.len())?;
        self.push_stored(stored, around)
    }

    /// Keeps the first `count` nodes, and the names of all elements. The cost is that of the nodes that it removes.
    pub fn cut(&mut self, count: usize)
        ensures rows { rows_of self.new ≡ take count (rows_of self.old) }
        ensures names { names_of self.new ≡ names_of self.old }
    {
        self.rows.truncate(count);
        let ends = last_ends(self.rows.as_slice());
        self.tables.truncate(ends, count);
    }

    // The number of the element that a node is, whose name is now among those of elements; 0 of another node.
    #[inline(always)]
    fn name_element(&mut self, node: &Node<'_>) -> Result<u32, Memory>
        ensures rows { rows_of self.new ≡ rows_of self.old }
        ensures names { OnOk result (self.new.names ≡ names_with self.old.names (node_view node.now)) }
        ensures unchanged { OnErr result (self.new.names ≡ self.old.names) }
        ensures number { IfOk result (λ k. element_number self.new.names (node_view node.now)
            ≡ element_if (node_view node.now) k) }
    {
        match *node {
            Node::Element(name) => self.names.place(name),
            Node::Literal(_, _) | Node::Slot(_) | Node::Apply { .. } => Ok(0),
            Node::Declared { .. } | Node::Defined { .. } | Node::Let { .. } => Ok(0),
        }
    }

    // Adds a node, as `push` does, where the number of its element is known, if it is one.
    #[inline(always)]
    fn push_named(&mut self, node: &Node<'_>, element: u32, around: u32) -> Result<TermId, Memory>
        requires { element_number self.old.names (node_view node.now) ≡ element_if (node_view node.now) element }
        ensures pushed { OnOk result (rows_of self.new
            ≡ rows_of self.old ++ (record { node = node_view node.now; around = around }) ∷ []) }
        ensures number { IfOk result (λ id. id ≡ length (rows_of self.old)) }
        ensures unchanged { OnErr result (rows_of self.new ≡ rows_of self.old) }
        ensures names { self.new.names ≡ self.old.names }
    {
        let stored = self.tables.store(node, self.rows.len(), element)?;
        self.push_stored(stored, around)
    }

    // Adds the node of which this is stored at the ends of the lists, with this many annotations round it, and
    // returns its number.
    #[inline(always)]
    fn push_stored(&mut self, stored: Stored, around: u32) -> Result<TermId, Memory>
        requires held { IsHeld (lengths (lists_of self.old.tables)) stored }
        requires bare { annotated_in stored ≡ None }
        requires number { IsNumberHeld (large_of self.old.tables) (length self.old.rows.items) stored
            (spelled (node_of (lists_of self.old.tables) (lengths (lists_of self.old.tables)) stored)) }
        requires element { held_element stored ≡ element_number self.old.names
            (node_of (lists_of self.old.tables) (lengths (lists_of self.old.tables)) stored) }
        ensures pushed { OnOk result (rows_of self.new ≡ rows_of self.old ++ (record {
          node = node_of (lists_of self.old.tables) (lengths (lists_of self.old.tables)) stored;
          around = around;
        }) ∷ []) }
        ensures number { IfOk result (λ id. id ≡ length (rows_of self.old)) }
        ensures unchanged { OnErr result (rows_of self.new ≡ rows_of self.old) }
        ensures names { self.new.names ≡ self.old.names }
    {
        let stored = self.tables.annotate(stored, around, self.rows.len())?;
        self.push_row(stored)
    }

    // Adds a row, where the lists hold what it stores, and returns its number.
    #[inline(always)]
    fn push_row(&mut self, stored: Stored) -> Result<TermId, Memory>
        requires held { IsHeld (lengths (lists_of self.old.tables)) (inner (annotated_of self.old.tables) stored) }
        requires own { IsOwn (annotated_of self.old.tables) (length self.old.rows.items) stored }
        requires number { IsNumberHeld (large_of self.old.tables) (length self.old.rows.items)
            (inner (annotated_of self.old.tables) stored)
            (spelled (node_of (lists_of self.old.tables) (lengths (lists_of self.old.tables))
            (inner (annotated_of self.old.tables) stored))) }
        requires element { held_element (inner (annotated_of self.old.tables) stored) ≡ element_number self.old.names
            (node_of (lists_of self.old.tables) (lengths (lists_of self.old.tables))
            (inner (annotated_of self.old.tables) stored)) }
        ensures pushed { OnOk result (self.new.rows.items ≡ self.old.rows.items
            ++ (record { stored = stored; ends = lengths (lists_of self.old.tables) }) ∷ []) }
        ensures number { IfOk result (λ id. id ≡ length self.old.rows.items) }
        ensures unchanged { OnErr result (self.new.rows.items ≡ self.old.rows.items) }
        ensures tables { self.new.tables ≡ self.old.tables }
        ensures names { self.new.names ≡ self.old.names }
    {
        let number = narrow(self.rows.len())?;
        let ends = self.tables.ends()?;
        self.rows.reserve(1)?;
        self.rows.push_reserved(StoredRow { stored, ends });
        Ok(TermId::new(number))
    }

    // The row of a number.
    #[inline(always)]
    fn row(&self, number: usize) -> Option<StoredRow>
        ensures { result ≡ slice_get self.now.rows.items number }
    {
        match self.rows.as_slice().get(number) {
            Some(row) => Some(*row),
            None => None,
        }
    }

    // The node of a row.
    #[inline(always)]
    fn node(&self, row: StoredRow) -> Node<'_>
        requires { (i : ℕ) × (slice_get self.now.rows.items i ≡ Some row) }
        ensures { node_view result
            ≡ (row_view (lists_of self.now.tables) (annotated_of self.now.tables) row).node }
    {
        let stored = self.tables.inner(row.stored);
        self.tables.node(row.ends, stored)
    }

    // The parts of the node of a row.
    #[inline(always)]
    fn parts(&self, row: StoredRow) -> NodeParts<'_>
        requires { (i : ℕ) × (slice_get self.now.rows.items i ≡ Some row) }
        ensures parts { parts_view result
            ≡ parts_of (row_view (lists_of self.now.tables) (annotated_of self.now.tables) row).node }
        ensures whole { IsWhole result
            (Some (row_view (lists_of self.now.tables) (annotated_of self.now.tables) row).node) }
    {
        let stored = self.tables.inner(row.stored);
        self.tables.node_parts(row.ends, stored)
    }
}

// How many annotations are round the node of a row.
#[inline(always)]
fn around(stored: Stored) -> u32
    ensures { result ≡ around_of stored }
{
    match stored {
        Stored::Annotated(_, around) => around,
        _ => 0,
    }
}

// How far the last row reaches in the lists.
fn last_ends(rows: &[StoredRow]) -> Ends
    ensures { result ≡ last_ends rows.now }
{
    match rows.last() {
        Some(row) => row.ends,
        None => Ends {
            parts: 0,
            digits: 0,
            ops: 0,
        },
    }
}
