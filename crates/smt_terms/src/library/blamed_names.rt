//! Names that are to blame: unknown ones, those that a logic lacks, and those that are in use. This file knows no
//! terms but symbols and literals.

ghost use Rattle.std.specs.Prelude.{◌≡◌, IfSome, None, Some, Result, if◌then◌else◌};
ghost use Rattle.smt_faults.specs.Outcome.{Tells};
ghost use Rattle.smt_faults.specs.declared.term_flaw.TermFlaw.{TermFlaw};
ghost use Rattle.smt_theory.specs.Sort.{Sort};
ghost use Rattle.smt_trees.specs.Sexp.{Cons, Items, Reserved};
ghost use Rattle.smt_trees.specs.View.{sexp_of, sexps_of};
ghost use Rattle.smt_forms.specs.IdentifierView.{identifier_view};
ghost use Rattle.smt_terms.specs.Blame as blame;
ghost use Rattle.smt_terms.specs.Blame.{IsIdentifier};
ghost use Rattle.smt_terms.specs.Internal.Blamed.{IsTold, blame_of_unknown, unknown_by};
ghost use Rattle.smt_terms.specs.Internal.LibraryView.{names_of_library, sort_names};
ghost use Rattle.smt_terms.specs.declared.blame.Blame.TheVariants.{InUse, Lacks};
ghost use Rattle.smt_trees.specs.declared.reserved.Word.TheVariants.{Underscore};

use crate::blame::{Blame, Theory};
use crate::library::Library;
use crate::sorts::SortNames;
use smt_faults::{TermFault, TermFlaw};
use smt_forms::Identifier;
use smt_theory::{Op, OpFault, Theories};
use smt_trees::{Tree, Trees, Word};
use std::alloc::Global;

impl Library<'_> {
    // What is to blame for an identifier alone, or for one that is applied, if it is unknown.
    pub(super) fn blame_of_identifier<'t>(
        &self,
        part: Tree<'t>,
        identifier: &Identifier<'t>,
    ) -> Option<Blame<'t>>
        requires { IsIdentifier (sexp_of part) (identifier_view identifier.now) }
        ensures { IsTold self.now result }
    {
        let name = Some(name_of(identifier));
        unknown_part(part, name, self.unknown_identifier(identifier))
    }

    // Under which theories an identifier is unknown.
    fn unknown_identifier(&self, identifier: &Identifier<'_>) -> Unknown
        ensures { result ≡ unknown_by (λ theories. blame.is_unknown (names_of_library self.now) theories
            (identifier_view identifier.now)) self.now.sorts.theories }
    {
        let theories = self.sorts.theories;
        Unknown {
            here: self.is_unknown(theories, identifier),
            with_integers: self.is_unknown(with_theory(Theory::Integers, theories), identifier),
            with_reals: self.is_unknown(with_theory(Theory::Reals, theories), identifier),
            with_vectors: self.is_unknown(with_theory(Theory::BitVectors, theories), identifier),
            with_arrays: self.is_unknown(with_theory(Theory::Arrays, theories), identifier),
        }
    }

    // What is to blame for a literal of a theory that the logic lacks.
    pub(super) fn blame_of_literal<'t>(&self, part: Tree<'t>) -> Option<Blame<'t>>
        ensures { IsTold self.now result }
    {
        unknown_part(part, None, unknown_literal(self.sorts.theories, part))
    }

    // What is to blame for a tree that names no sort, if a name is.
    pub(super) fn blame_of_sort<'t>(&self, tree: Tree<'t>) -> Option<Blame<'t>>
        ensures { IsTold self.now result }
    {
        match self.sorts.refused_part(self.alloc, tree) {
            Some(part) => self.blame_of_sort_part(part),
            None => None,
        }
    }

    // The same of a part that has the first fault.
    fn blame_of_sort_part<'t>(&self, part: Tree<'t>) -> Option<Blame<'t>>
        ensures { IsTold self.now result }
    {
        match unknown_sort(self.alloc, &self.sorts, part) {
            Some(unknown) => unknown_part(part, sort_word(part), unknown),
            None => None,
        }
    }

    // What is to blame for a new name of a function, if it is taken.
    pub(super) fn blame_of_name<'t>(&self, name: &'t [u8]) -> Option<Blame<'t>>
        ensures { IsTold self.now result }
    {
        in_use(name, self.is_taken(name))
    }

    // Whether an identifier is no name in force, and no operator of these theories.
    fn is_unknown(&self, theories: Theories, identifier: &Identifier<'_>) -> bool
        ensures { result ≡ blame.is_unknown (names_of_library self.now) theories (identifier_view identifier.now) }
    {
        !self.is_in_force(identifier) && is_unknown_operator(identifier.operator(theories))
    }

    // Whether an identifier is a name in force, or `const` with its sort.
    fn is_in_force(&self, identifier: &Identifier<'_>) -> bool
        ensures { result ≡ blame.is_named (names_of_library self.now) (identifier_view identifier.now) }
    {
        match identifier {
            Identifier::Plain(name) => self.has_entry(*name),
            Identifier::Indexed { .. } => false,
            Identifier::Qualified(_) => true,
        }
    }
}

// Whether something is unknown in the theories of a logic, and in these with one more.
#[derive(Clone, Copy)]
struct Unknown {
    here: bool,
    with_integers: bool,
    with_reals: bool,
    with_vectors: bool,
    with_arrays: bool,
}

// What is to blame for a part, which may have a name: a theory that the logic lacks, or else the name.
fn unknown_part<'t>(part: Tree<'t>, name: Option<&'t [u8]>, unknown: Unknown) -> Option<Blame<'t>>
    ensures { result ≡ blame_of_unknown part.entry name.entry unknown }
{
    if !unknown.here {
        return None;
    }
    if !unknown.with_integers {
        return lacking(part, Theory::Integers);
    }
    if !unknown.with_reals {
        return lacking(part, Theory::Reals);
    }
    if !unknown.with_vectors {
        return lacking(part, Theory::BitVectors);
    }
    if !unknown.with_arrays {
        return lacking(part, Theory::Arrays);
    }
    match name {
        Some(name) => Some(Blame::Unknown { name }),
        None => None,
    }
}

fn lacking<'t>(part: Tree<'t>, theory: Theory) -> Option<Blame<'t>>
    ensures { result ≡ Some (Lacks part.entry theory) }
{
    Some(Blame::Lacks { part, theory })
}

// The blame of a new name, if it is in use.
pub(super) fn in_use<'t>(name: &'t [u8], is_taken: bool) -> Option<Blame<'t>>
    ensures { result ≡ (if is_taken then Some (InUse name.entry) else None) }
{
    if is_taken {
        Some(Blame::InUse { name })
    } else {
        None
    }
}

// The name of an identifier.
fn name_of<'t>(identifier: &Identifier<'t>) -> &'t [u8]
    ensures { result.now ≡ blame.name_of (identifier_view identifier.now) }
{
    match identifier {
        Identifier::Plain(name) => *name,
        Identifier::Indexed { name, .. } => *name,
        Identifier::Qualified(_) => b"const",
    }
}

fn is_unknown_operator(op: Result<Op, OpFault>) -> bool
    ensures { result ≡ blame.is_unknown_operator op }
{
    match op {
        Ok(_) => false,
        Err(OpFault::Unknown) => true,
        Err(OpFault::Index) => false,
    }
}

// Whether a tree is a literal of none of these theories.
fn is_unknown_literal(theories: Theories, part: Tree<'_>) -> bool
    ensures { result ≡ blame.is_unknown_literal theories (sexp_of part.entry) }
{
    match part {
        Tree::Numeral(_) => !theories.ints && !theories.reals,
        Tree::Decimal(_) => theories.wide && !theories.reals,
        Tree::Hex(_) | Tree::Bin(_) => !theories.bits,
        Tree::Text(_) | Tree::Symbol(_) => false,
        Tree::Keyword(_) | Tree::Reserved(_) | Tree::List(_) => false,
    }
}

// Under which theories a tree is an unknown literal.
fn unknown_literal(theories: Theories, part: Tree<'_>) -> Unknown
    ensures { result ≡ unknown_by (λ t. blame.is_unknown_literal t (sexp_of part.entry)) theories }
{
    Unknown {
        here: is_unknown_literal(theories, part),
        with_integers: is_unknown_literal(with_theory(Theory::Integers, theories), part),
        with_reals: is_unknown_literal(with_theory(Theory::Reals, theories), part),
        with_vectors: is_unknown_literal(with_theory(Theory::BitVectors, theories), part),
        with_arrays: is_unknown_literal(with_theory(Theory::Arrays, theories), part),
    }
}

// Under which theories a tree names no sort; `None` for want of memory.
fn unknown_sort(alloc: Global, sorts: &SortNames, tree: Tree<'_>) -> Option<Unknown>
    ensures { IfSome result (λ unknown. unknown
        ≡ unknown_by (λ t. blame.names_no_sort (sort_names sorts.now) t (sexp_of tree.entry)) sorts.now.theories) }
{
    let theories = sorts.theories;
    Some(Unknown {
        here: names_no_sort(alloc, sorts, theories, tree)?,
        with_integers: names_no_sort(alloc, sorts, with_theory(Theory::Integers, theories), tree)?,
        with_reals: names_no_sort(alloc, sorts, with_theory(Theory::Reals, theories), tree)?,
        with_vectors: names_no_sort(
            alloc,
            sorts,
            with_theory(Theory::BitVectors, theories),
            tree,
        )?,
        with_arrays: names_no_sort(alloc, sorts, with_theory(Theory::Arrays, theories), tree)?,
    })
}

// Whether a tree names no sort of these theories; `None` for want of memory.
fn names_no_sort(
    alloc: Global,
    sorts: &SortNames,
    theories: Theories,
    tree: Tree<'_>,
) -> Option<bool>
    ensures { IfSome result (λ no. no ≡ blame.names_no_sort (sort_names sorts.now) theories (sexp_of tree.entry)) }
{
    match sorts.sort_under(alloc, theories, tree) {
        Ok(_) => Some(false),
        Err(fault) => is_told_unknown(fault),
    }
}

// Whether a fault is that of an unknown name; `None` for want of memory.
fn is_told_unknown(fault: TermFault) -> Option<bool>
    ensures { IfSome result (λ unknown. (expected : Result Sort TermFlaw) → Tells expected fault
        → unknown ≡ blame.is_unknown_sort expected) }
{
    match fault.flaw() {
        Some(TermFlaw::Unknown) => Some(true),
        Some(_) => Some(false),
        None => None,
    }
}

// The name by which a tree names a sort.
fn sort_word(tree: Tree<'_>) -> Option<&[u8]>
    ensures { IfSome result (λ name. blame.sort_word (sexp_of tree.entry) ≡ Some name.now) }
{
    match tree {
        Tree::Symbol(name) => Some(name),
        Tree::List(parts) => first_word(parts),
        _ => None,
    }
}

// The same of a list of these parts.
fn first_word(parts: Trees<'_>) -> Option<&[u8]>
    ensures { IfSome result (λ name. blame.sort_word (Items (sexps_of parts.entry)) ≡ Some name.now) }
{
    match parts.split_first() {
        Some((Tree::Symbol(name), _)) => Some(name),
        Some((Tree::Reserved(Word::Underscore), rest)) => indexed_word(rest),
        _ => None,
    }
}

// The same of `(_ symbol index ..)`, by the parts after the `_`.
fn indexed_word(parts: Trees<'_>) -> Option<&[u8]>
    ensures { IfSome result (λ name. blame.sort_word
        (Items (Cons (Reserved Underscore) (sexps_of parts.entry))) ≡ Some name.now) }
{
    match parts.split_first() {
        Some((Tree::Symbol(name), _)) => Some(name),
        _ => None,
    }
}

// These theories with one more.
fn with_theory(theory: Theory, theories: Theories) -> Theories
    ensures { result ≡ blame.with_theory theory theories }
{
    let mut more = theories;
    match theory {
        Theory::Integers => more.ints = true,
        Theory::Reals => more.reals = theories.reals || theories.wide,
        Theory::BitVectors => more.bits = true,
        Theory::Arrays => more.arrays = theories.arrays || theories.wide,
    }
    more
}
