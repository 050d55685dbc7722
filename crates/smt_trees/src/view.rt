//! S-expressions as their users see them: borrowed, whatever they are kept as. This file reads no text.

ghost use Rattle.std.specs.Prelude.{◌≡◌, ◌+◌, ◌-◌, ◌<◌, ◌≤◌, ℕ, IfSome, MatchOption};
ghost use Rattle.smt_trees.specs.Sexp as sexp;
ghost use Rattle.smt_trees.specs.Sexp.{Atom, Nil, Cons, count};
ghost use Rattle.smt_trees.specs.Tape as tapes;
ghost use Rattle.smt_trees.specs.Tape.{kind_of, sexps_in};
ghost use Rattle.smt_trees.specs.declared.view.Trees.{Trees};
ghost use Rattle.smt_trees.specs.Places.{IsListIn, LiesIn, size_of, size_of_list};
ghost use Rattle.smt_trees.specs.View.{sexp_of, sexps_of};

use crate::reserved::Word;
use crate::tape::{Cell, Kind};

/// An S-expression (SMT-LIB 2.6, section 3.2).
#[derive(Clone, Copy)]
pub enum Tree<'a> {
    /// The digits, without leading zeros.
    Numeral(&'a [u8]),
    /// The digits and the point, as written.
    Decimal(&'a [u8]),
    /// The digits after `#x`, as written.
    Hex(&'a [u8]),
    /// The digits after `#b`.
    Bin(&'a [u8]),
    /// The bytes between the quotes of a string literal, with `""` as one quote.
    Text(&'a [u8]),
    /// The name of a symbol, without bars.
    Symbol(&'a [u8]),
    Reserved(Word),
    /// The bytes after the colon.
    Keyword(&'a [u8]),
    List(Trees<'a>),
}

/// S-expressions side by side.
#[derive(Clone, Copy)]
pub struct Trees<'a> {
    cells: &'a [Cell],
    text: &'a [u8],
}

impl<'a> Trees<'a> {
    // The trees that cells are.
    #[inline(always)]
    #[tactic(auto, unfolding(crate::specs::View::sexps_of))]
    pub(crate) fn of(cells: &'a [Cell], text: &'a [u8]) -> Trees<'a>
        ensures trees { sexps_of result ≡ sexps_in text.now cells.now }
        ensures cells { result.cells.now ≡ cells.now }
        ensures text { result.text.now ≡ text.now }
    {
        Trees { cells, text }
    }

    /// No trees.
    #[tactic(auto, unfolding(crate::specs::View::sexps_of))]
    pub fn empty() -> Trees<'a>
        ensures { sexps_of result ≡ Nil }
    {
        Trees {
            cells: &[],
            text: &[],
        }
    }

    /// The first of the trees and the trees after it; `None` where there are no trees.
    #[inline(always)]
    pub fn split_first(self) -> Option<(Tree<'a>, Trees<'a>)>
        ensures { MatchOption result (sexps_of self.entry ≡ Nil)
            (λ p. sexps_of self.entry ≡ Cons (sexp_of p.0) (sexps_of p.1)) }
    {
        self.split_placed()
    }

    /// The same, and where they lie: the trees after the first one end where all of them end, and the parts of the
    /// first one, if it is a list, end where the trees after it begin.
    #[inline(always)]
    #[tactic(auto, unfolding(crate::specs::View::sexps_of))]
    pub fn split_placed(self) -> Option<(Tree<'a>, Trees<'a>)>
        ensures trees { MatchOption result (sexps_of self.entry ≡ Nil)
            (λ p. sexps_of self.entry ≡ Cons (sexp_of p.0) (sexps_of p.1)) }
        ensures places { IfSome result (λ p. (whole : Trees) (to : ℕ) → LiesIn whole self.entry to
            → LiesIn whole p.1 to × IsListIn whole p.0 (size_of p.1 + to)) }
        ensures sizes { MatchOption result (size_of self.entry ≡ 0)
            (λ p. size_of_list p.0 + size_of p.1 < size_of self.entry) }
    {
        let Some((cell, rest)) = self.cells.split_first() else {
            return None;
        };
        let text = self.text;
        let count = inside(*cell).min(rest.len());
        let parts = Trees::of(&rest[..count], text);
        let behind = Trees::of(&rest[count..], text);
        Some((tree_with(*cell, text, parts), behind))
    }

    /// The number of cells that the trees take: one for each tree, and for each tree in one of them.
    #[inline(always)]
    pub fn size(self) -> usize
        ensures { result ≡ size_of self.entry }
    {
        self.cells.len()
    }

    /// The trees between two places in these. A place is the number of cells from it to the end.
    #[inline(always)]
    #[tactic(auto, unfolding(crate::specs::View::sexps_of))]
    pub fn between(self, from: usize, to: usize) -> Trees<'a>
        ensures part { (part : Trees) → LiesIn self.entry part to → from ≡ size_of part + to
            → (sexps_of result ≡ sexps_of part) × LiesIn self.entry result to
            × (size_of result ≡ size_of part) }
        ensures size { size_of result ≤ from - to }
    {
        let len = self.cells.len();
        let end = len.saturating_sub(to);
        let start = len.saturating_sub(from).min(end);
        Trees {
            cells: &self.cells[start..end],
            text: self.text,
        }
    }

    /// How many trees there are.
    pub fn len(self) -> usize
        ensures { result ≡ count (sexps_of self.entry) }
    {
        let most = self.cells.len();
        let mut left = self;
        let mut number = 0;
        while number < most {
            let Some((_, rest)) = left.split_first() else {
                break;
            };
            number += 1;
            left = rest;
        }
        number
    }
}

// How many cells after a cell are in it.
#[inline(always)]
fn inside(cell: Cell) -> usize
    ensures { result ≡ tapes.inside cell }
{
    match cell {
        Cell::List(count) => count as usize,
        _ => 0,
    }
}

// The tree that a cell is, where these are the trees in it; where they lie; and how many cells they take.
#[inline(always)]
fn tree_with<'a>(cell: Cell, text: &'a [u8], parts: Trees<'a>) -> Tree<'a>
    ensures tree { sexp_of result ≡ tapes.tree_with text.now (sexps_of parts.entry) cell }
    ensures places { (whole : Trees) (to : ℕ) → LiesIn whole parts.entry to → IsListIn whole result to }
    ensures size { size_of_list result ≤ size_of parts.entry }
{
    match cell {
        Cell::Atom(kind, start, count) => atom(kind, part(text, start, count)),
        Cell::Reserved(word) => Tree::Reserved(word),
        Cell::List(_) => Tree::List(parts),
    }
}

// The atom of a kind with these bytes.
#[inline(always)]
fn atom(kind: Kind, bytes: &[u8]) -> Tree<'_>
    ensures tree { sexp_of result ≡ Atom (kind_of kind) bytes.now }
    ensures places { (whole : Trees) (to : ℕ) → IsListIn whole result to }
    ensures size { size_of_list result ≡ 0 }
{
    match kind {
        Kind::Numeral => Tree::Numeral(bytes),
        Kind::Decimal => Tree::Decimal(bytes),
        Kind::Hex => Tree::Hex(bytes),
        Kind::Bin => Tree::Bin(bytes),
        Kind::Text => Tree::Text(bytes),
        Kind::Symbol => Tree::Symbol(bytes),
        Kind::Keyword => Tree::Keyword(bytes),
    }
}

// So many bytes of a text from a place on, as far as there are so many.
#[inline(always)]
fn part(text: &[u8], start: u32, count: u32) -> &[u8]
    ensures { result.now ≡ tapes.part text.now start count }
{
    let start = (start as usize).min(text.len());
    let behind = &text[start..];
    let count = (count as usize).min(behind.len());
    &behind[..count]
}

impl Tree<'_> {
    /// Whether the tree is the symbol of this name.
    pub fn is_symbol(self, name: &[u8]) -> bool
        ensures { result ≡ sexp.is_symbol name.now (sexp_of self.entry) }
    {
        match self {
            Tree::Symbol(symbol) => symbol == name,
            _ => false,
        }
    }
}
