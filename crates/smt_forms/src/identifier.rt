//! Identifiers: plain symbols, symbols with indexes, and `const` with its sort. This file knows no names but those of
//! operators.

ghost use Rattle.std.specs.Prelude.{◌≡◌, Ok, Err, Some, None, map, is_some, ok_or, MatchOption, bytes_eq, codes};
ghost use Rattle.smt_trees.specs.Sexp.{Cons, Items, Reserved};
ghost use Rattle.smt_trees.specs.declared.reserved.Word.TheVariants.{As};
ghost use Rattle.smt_trees.specs.View.{sexp_of, sexps_of};
ghost use Rattle.smt_theory.specs.Index.{index_view};
ghost use Rattle.smt_forms.specs.Identifier as identifiers;
ghost use Rattle.smt_forms.specs.Identifier.{Qualified, all_indexes, applied, applied_in, index_of_numeral};
ghost use Rattle.smt_forms.specs.Identifier.{index_of_tree, indexed, operator_of, qualified};
ghost use Rattle.smt_forms.specs.IdentifierView.{identifier_view};
ghost use Rattle.smt_faults.specs.declared.term_flaw.TermFlaw.TheVariants.{Form, Unsupported};
ghost use Rattle.smt_faults.specs.Outcome.{IsOutcome};

use smallvec::SmallVec;
use smt_faults::{TermFault, TermFlaw};
use smt_theory::{Index, Op, OpFault, Theories, number, op_of};
use smt_trees::{Tree, Trees, Word};
use std::alloc::Global;

/// No operator has more indexes.
const FEW: usize = 2;

/// An identifier, which borrows its names (SMT-LIB 2.6, section 3.3).
#[derive(Drop)]
pub enum Identifier<'a> {
    /// A symbol, without bars.
    Plain(&'a [u8]),
    /// A symbol with one index or more, as in `(_ divisible 3)`.
    Indexed {
        name: &'a [u8],
        indexes: SmallVec<Index<'a>, FEW>,
    },
    /// `(as const o)`, by the tree of the sort o: what makes an array of that sort of its one element. It is no
    /// standard's.
    Qualified(Tree<'a>),
}

impl Identifier<'_> {
    /// The operator of these theories that the identifier names, or why it names none. Look names in force up
    /// first. `(as const o)` names none: its operator holds a sort.
    pub fn operator(&self, theories: Theories) -> Result<Op, OpFault>
        ensures { result ≡ operator_of theories (identifier_view self.now) }
    {
        match self {
            Identifier::Plain(name) => op_of(theories, *name, &[]),
            Identifier::Indexed { name, indexes } => op_of(theories, *name, indexes.as_slice()),
            Identifier::Qualified(_) => Err(OpFault::Unknown),
        }
    }
}

/// The identifier that a list of this head and these arguments applies, or what is wrong with the form of
/// that list.
#[inline(always)]
pub fn applied_identifier<'a>(
    alloc: Global,
    head: Tree<'a>,
    args: Trees<'_>,
) -> Result<Identifier<'a>, TermFault>
    ensures { IsOutcome identifier_view (applied (sexp_of head.entry) (sexps_of args.entry)) result }
{
    match head {
        Tree::Symbol(name) if args.split_first().is_some() => Ok(Identifier::Plain(name)),
        Tree::Reserved(word) => Err(TermFault::from(word_flaw(word))),
        Tree::List(parts) => applied_list(alloc, parts, args),
        _ => Err(TermFault::Form),
    }
}

/// What is wrong with the form of a list of this head and these arguments; `None` where it applies an identifier. One
/// with its sort is `Unsupported` but in the wide profile.
#[inline(always)]
pub fn applied_flaw(wide: bool, head: Tree<'_>, args: Trees<'_>) -> Option<TermFlaw>
    ensures { MatchOption result
        ((f : identifiers.Identifier) × (applied_in wide (sexp_of head.entry) (sexps_of args.entry) ≡ Ok f))
        (λ flaw. applied_in wide (sexp_of head.entry) (sexps_of args.entry) ≡ Err flaw) }
{
    match head {
        Tree::Symbol(_) => match args.split_first() {
            Some(_) => None,
            None => Some(TermFlaw::Form),
        },
        Tree::Reserved(word) => Some(word_flaw(word)),
        Tree::List(parts) => list_flaw(wide, parts, args),
        _ => Some(TermFlaw::Form),
    }
}

// The same where the head is a list of these parts.
fn list_flaw(wide: bool, parts: Trees<'_>, args: Trees<'_>) -> Option<TermFlaw>
    ensures { MatchOption result
        ((f : identifiers.Identifier) × (applied_in wide (Items (sexps_of parts.entry)) (sexps_of args.entry) ≡ Ok f))
        (λ flaw. applied_in wide (Items (sexps_of parts.entry)) (sexps_of args.entry) ≡ Err flaw) }
{
    match parts.split_first() {
        Some((Tree::Reserved(Word::As), rest)) => qualified_flaw(wide, rest, args),
        Some((Tree::Reserved(Word::Underscore), rest)) if args.split_first().is_some() => {
            indexed_flaw(rest)
        }
        _ => Some(TermFlaw::Form),
    }
}

// The same where the head is a list of an `as` and these parts.
fn qualified_flaw(wide: bool, parts: Trees<'_>, args: Trees<'_>) -> Option<TermFlaw>
    ensures { MatchOption result
        ((f : identifiers.Identifier)
        × (applied_in wide (Items (Cons (Reserved As) (sexps_of parts.entry))) (sexps_of args.entry) ≡ Ok f))
        (λ flaw. applied_in wide (Items (Cons (Reserved As) (sexps_of parts.entry))) (sexps_of args.entry)
        ≡ Err flaw) }
{
    match constant_sort(parts, args) {
        Some(_) if wide => None,
        _ => Some(TermFlaw::Unsupported),
    }
}

// The tree of the sort in `((as const sort) t)`, by the parts after the `as` and by the arguments, if these make such
// a term.
fn constant_sort<'a>(parts: Trees<'a>, args: Trees<'_>) -> Option<Tree<'a>>
    ensures { MatchOption result
        (applied (Items (Cons (Reserved As) (sexps_of parts.entry))) (sexps_of args.entry) ≡ Err Unsupported)
        (λ sort. applied (Items (Cons (Reserved As) (sexps_of parts.entry))) (sexps_of args.entry)
        ≡ Ok (Qualified (sexp_of sort))) }
{
    let Some((_, rest)) = args.split_first() else {
        return None;
    };
    if rest.split_first().is_some() {
        return None;
    }
    sort_of_const(parts)
}

// The tree of the sort in `(as const sort)`, by the parts after the `as`.
fn sort_of_const<'a>(parts: Trees<'a>) -> Option<Tree<'a>>
    ensures { MatchOption result (qualified (sexps_of parts.entry) ≡ Err Unsupported)
        (λ sort. qualified (sexps_of parts.entry) ≡ Ok (Qualified (sexp_of sort))) }
{
    let Some((Tree::Symbol(name), rest)) = parts.split_first() else {
        return None;
    };
    let Some((sort, rest)) = rest.split_first() else {
        return None;
    };
    if rest.split_first().is_some() || !is_const(name) {
        return None;
    }
    Some(sort)
}

fn is_const(name: &[u8]) -> bool
    ensures { result ≡ bytes_eq name.now (codes "const") }
{
    name == b"const".as_slice()
}

// The identifier `(as const sort)`, by the parts after the `as`.
#[inline(never)]
fn qualified_identifier<'a>(parts: Trees<'a>, args: Trees<'_>) -> Result<Identifier<'a>, TermFault>
    ensures { IsOutcome identifier_view
        (applied (Items (Cons (Reserved As) (sexps_of parts.entry))) (sexps_of args.entry)) result }
{
    match constant_sort(parts, args) {
        Some(sort) => Ok(Identifier::Qualified(sort)),
        None => Err(TermFault::Unsupported),
    }
}

// What is wrong with the form of an identifier with indexes, by the trees after the `_`.
fn indexed_flaw(parts: Trees<'_>) -> Option<TermFlaw>
    ensures { MatchOption result ((f : identifiers.Identifier) × (indexed (sexps_of parts.entry) ≡ Ok f))
        (λ flaw. indexed (sexps_of parts.entry) ≡ Err flaw) }
{
    let Some((Tree::Symbol(_), rest)) = parts.split_first() else {
        return Some(TermFlaw::Form);
    };
    let Some(_) = rest.split_first() else {
        return Some(TermFlaw::Form);
    };
    if !are_indexes(rest) {
        return Some(TermFlaw::Form);
    }
    None
}

// The identifier that is applied where the head is a list of these parts.
fn applied_list<'a>(
    alloc: Global,
    parts: Trees<'a>,
    args: Trees<'_>,
) -> Result<Identifier<'a>, TermFault>
    ensures { IsOutcome identifier_view (applied (Items (sexps_of parts.entry)) (sexps_of args.entry)) result }
{
    match parts.split_first() {
        Some((Tree::Reserved(Word::As), rest)) => qualified_identifier(rest, args),
        Some((Tree::Reserved(Word::Underscore), rest)) if args.split_first().is_some() => {
            indexed_identifier(alloc, rest)
        }
        _ => Err(TermFault::Form),
    }
}

/// The identifier `(_ symbol index ..)`, by the trees after the `_`; the fault is `Form`, or want of memory.
pub fn indexed_identifier<'a>(alloc: Global, parts: Trees<'a>) -> Result<Identifier<'a>, TermFault>
    ensures { IsOutcome identifier_view (indexed (sexps_of parts.entry)) result }
{
    let Some((Tree::Symbol(name), rest)) = parts.split_first() else {
        return Err(TermFault::Form);
    };
    if rest.split_first().is_none() {
        return Err(TermFault::Form);
    }
    let indexes = indexes_of(alloc, rest)?;
    Ok(Identifier::Indexed { name, indexes })
}

// The indexes that these trees are, in order; the fault is `Form`, or want of memory.
fn indexes_of<'a>(alloc: Global, trees: Trees<'a>) -> Result<SmallVec<Index<'a>, FEW>, TermFault>
    ensures { IsOutcome (λ indexes. map index_view indexes.items)
        (ok_or (all_indexes (sexps_of trees.entry)) Form) result }
{
    let mut indexes = SmallVec::new(alloc);
    let mut left = trees;
    while let Some((tree, rest)) = left.split_first() {
        let Some(index) = index_of(tree) else {
            return Err(TermFault::Form);
        };
        indexes.push(index)?;
        left = rest;
    }
    Ok(indexes)
}

/// Whether each of the trees is an index: a numeral or a symbol.
pub fn are_indexes(trees: Trees<'_>) -> bool
    ensures { result ≡ is_some (all_indexes (sexps_of trees.entry)) }
{
    let mut left = trees;
    while let Some((tree, rest)) = left.split_first() {
        if !is_index(tree) {
            return false;
        }
        left = rest;
    }
    true
}

// Whether a tree is an index.
fn is_index(tree: Tree<'_>) -> bool
    ensures { result ≡ is_some (index_of_tree (sexp_of tree.entry)) }
{
    matches!(tree, Tree::Numeral(_) | Tree::Symbol(_))
}

// The index that a tree is: a numeral or a symbol.
fn index_of(tree: Tree<'_>) -> Option<Index<'_>>
    ensures { MatchOption result (index_of_tree (sexp_of tree.entry) ≡ None)
        (λ index. index_of_tree (sexp_of tree.entry) ≡ Some (index_view index)) }
{
    match tree {
        Tree::Numeral(digits) => Some(numeral_index(digits)),
        Tree::Symbol(name) => Some(Index::Name(name)),
        _ => None,
    }
}

fn numeral_index(digits: &[u8]) -> Index<'static>
    ensures { index_view result ≡ index_of_numeral digits.now }
{
    match number(10, digits) {
        Some(value) if value < 1 << 64 => Index::Number(value as u64),
        _ => Index::Large,
    }
}

// What is wrong with a list that begins with this word, and is no term of the right form.
fn word_flaw(word: Word) -> TermFlaw
    ensures { result ≡ identifiers.word_flaw word }
{
    match word {
        Word::Forall | Word::Exists | Word::Match | Word::As => TermFlaw::Unsupported,
        _ => TermFlaw::Form,
    }
}
