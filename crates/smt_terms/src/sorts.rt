//! The trees that name sorts, and abbreviations of sorts. This file knows no names of functions.

ghost use Rattle.std.specs.Prelude.{◌≡◌, ◌<◌, ◌++◌, ◌∷◌, [], bytes_eq, Ok, Err, IfErr, IfOk, OnErr, OnOk, false};
ghost use Rattle.std.specs.Prelude.{MatchOption, MatchResult, Result};
ghost use Rattle.std.specs.Str.Parse.{digits_value};
ghost use Rattle.smt_trees.specs.Sexp.{Atom, Cons, Items, Nil, Symbol};
ghost use Rattle.smt_trees.specs.View.{sexp_of, sexps_of};
ghost use Rattle.smt_theory.specs.Sort.{is_same_sort};
ghost use Rattle.smt_theory.specs.Width.{width_of};
ghost use Rattle.smt_theory.specs.Words.{look_up, result_and_then};
ghost use Rattle.smt_terms.specs.Freshness as freshness;
ghost use Rattle.smt_terms.specs.Freshness.{is_sort_taken};
ghost use Rattle.smt_terms.specs.Declarations.{abbreviated_in, sort_declared_in};
ghost use Rattle.smt_terms.specs.Elements as elements;
ghost use Rattle.smt_terms.specs.SortTrees.{sort_named, sorts_named};
ghost use Rattle.smt_faults.specs.Outcome.{IsOutcome, Tells};
ghost use Rattle.smt_terms.specs.SortTrees as sorts;
ghost use Rattle.smt_terms.specs.Internal.ReadSorts.{ComesTo, IsBegun, are_two, work_left};
ghost use Rattle.smt_terms.specs.declared.sorts.Step.TheVariants.{Named, Read};
ghost use Rattle.smt_theory.specs.Sort as theory;

use crate::named_sort::NamedSort;
use smt_faults::{Memory, TermFault, TermFlaw};
use smt_forms::{are_indexes, sort_of_element};
use smt_names::NameMap;
use smt_theory::{Sort, SortKind, Theories, Width, number};
use smt_trees::{Tree, Trees, Word};
use std::alloc::Global;

/// The names of sorts: theories, and declared sorts and abbreviations (SMT-LIB 2.6, sections 3.5 and 4.2.3) in the
/// order of their commands. No name is there twice.
#[derive(Drop)]
pub(crate) struct SortNames {
    pub(crate) theories: Theories,
    pub(crate) abbreviations: NameMap<NamedSort>,
}

impl SortNames {
    ghost use Rattle.smt_terms.specs.Internal.LibraryView.{abbreviations_of, sort_names};
    ghost use Rattle.smt_theory.specs.Sort.{Sort};
    ghost use Rattle.smt_terms.specs.declared.named_sort.NamedSort.{NamedSort};

    /// The names of sorts in these theories, without abbreviations.
    pub(crate) fn new(alloc: Global, theories: Theories) -> Self
        ensures { sort_names result ≡ record { theories = theories; abbreviations = [] } }
    {
        SortNames {
            theories,
            abbreviations: NameMap::new(alloc),
        }
    }

    /// The sort that a tree names, or what is wrong with it: `Form`, `Unsupported` for a sort of the standard that the
    /// profile lacks and for arrays as indexes or three deep, `Unknown`, or `Index` for a width of bit vectors out of
    /// range. `Memory` says nothing of the tree: there is no room for the numbers of some declared sorts in a sort of
    /// arrays.
    pub(crate) fn sort_of(&self, alloc: Global, tree: Tree<'_>) -> Result<Sort, TermFault>
        ensures { IsOutcome (λ sort. sort) (sort_named (sort_names self.now) (sexp_of tree.entry)) result }
    {
        self.sort_under(alloc, self.theories, tree)
    }

    /// The same in other theories.
    pub(crate) fn sort_under(
        &self,
        alloc: Global,
        theories: Theories,
        tree: Tree<'_>,
    ) -> Result<Sort, TermFault>
        ensures { IsOutcome (λ sort. sort)
            (sort_named (record (sort_names self.now) { theories = theories }) (sexp_of tree.entry)) result }
    {
        match self.begin(theories, tree) {
            Begun::Found(found) => Ok(found?),
            Begun::Parts(_, _) => self.sort_with_parts(alloc, theories, tree),
        }
    }

    // The same, out of line: most sorts have no parts.
    #[inline(never)]
    fn sort_with_parts(
        &self,
        alloc: Global,
        theories: Theories,
        tree: Tree<'_>,
    ) -> Result<Sort, TermFault>
        ensures { IsOutcome (λ sort. sort)
            (sort_named (record (sort_names self.now) { theories = theories }) (sexp_of tree.entry)) result }
    {
        match self.read(alloc, theories, tree) {
            Ok(sort) => Ok(sort),
            Err(refusal) => Err(refusal.fault),
        }
    }

    /// The part of a tree that has its first fault; `None` where it names a sort.
    pub(crate) fn refused_part<'a>(&self, alloc: Global, tree: Tree<'a>) -> Option<Tree<'a>> {
        match self.read(alloc, self.theories, tree) {
            Ok(_) => None,
            Err(refusal) => Some(refusal.part),
        }
    }

    // The sort that a tree names in these theories, or its first fault and the part that has it. Sorts of arrays wait
    // for their parts on a stack of their own, as trees may be deep.
    fn read<'a>(
        &self,
        alloc: Global,
        theories: Theories,
        tree: Tree<'a>,
    ) -> Result<Sort, Refusal<'a>>
        ensures { MatchResult result
            (λ sort. sort_named (record (sort_names self.now) { theories = theories }) (sexp_of tree.entry) ≡ Ok sort)
            (λ refusal. Tells (sort_named (record (sort_names self.now) { theories = theories }) (sexp_of tree.entry))
            refusal.fault) }
    {
        let mut waiting = Vec::new(alloc);
        let mut step = Step::Read(tree);
        loop {
            step = match step {
                Step::Read(part) => match self.enter(theories, &mut waiting, part) {
                    Ok(next) => next,
                    Err(fault) => return Err(Refusal { fault, part }),
                },
                Step::Named(sort) => match waiting.pop() {
                    Some(array) => match go_on(&mut waiting, array, sort) {
                        Ok(next) => next,
                        Err(fault) => return Err(Refusal { fault, part: tree }),
                    },
                    None => return Ok(sort),
                },
            };
        }
    }

    // Begins to read a tree: a sort of arrays that it may name waits for that of its indexes.
    fn enter<'a>(
        &self,
        theories: Theories,
        waiting: &mut Vec<Waiting<'a>>,
        tree: Tree<'a>,
    ) -> Result<Step<'a>, TermFault>
        ensures next { (whole : Result theory.Sort TermFlaw)
            → ComesTo (record (sort_names self.now) { theories = theories }) whole waiting.old.items (Read tree.entry)
            → MatchResult result
            (ComesTo (record (sort_names self.now) { theories = theories }) whole waiting.new.items) (Tells whole) }
        ensures less { IfOk result (λ step. work_left waiting.new.items step
            < work_left waiting.old.items (Read tree.entry)) }
    {
        match self.begin(theories, tree) {
            Begun::Found(Ok(sort)) => Ok(Step::Named(sort)),
            Begun::Found(Err(flaw)) => Err(TermFault::from(flaw)),
            Begun::Parts(index, element) => {
                wait(waiting, element, None)?;
                Ok(Step::Read(index))
            }
        }
    }

    // What a tree names in these theories, or the trees of the parts of a sort of arrays.
    #[inline(always)]
    fn begin<'a>(&self, theories: Theories, tree: Tree<'a>) -> Begun<'a>
        ensures { IsBegun (record (sort_names self.now) { theories = theories }) (sexp_of tree.entry) result }
    {
        match tree {
            Tree::Symbol(name) => Begun::Found(self.sort_of_symbol(theories, name)),
            Tree::List(parts) => begin_list(theories, parts),
            _ => Begun::Found(Err(TermFlaw::Form)),
        }
    }

    /// The sorts that trees name, in order, or the first fault.
    pub(crate) fn sorts_of(&self, alloc: Global, trees: Trees<'_>) -> Result<Vec<Sort>, TermFault>
        ensures { IsOutcome (λ found. found.items) (sorts_named (sort_names self.now) (sexps_of trees.entry))
            result }
    {
        let mut found = Vec::new(alloc);
        let mut left = trees;
        while let Some((tree, rest)) = left.split_first() {
            found.push(self.sort_of(alloc, tree)?)?;
            left = rest;
        }
        Ok(found)
    }

    /// Makes a name the abbreviation of the sort that a tree names. It refuses a name that is already that of a
    /// sort, and a tree that names none. On any error it changes nothing.
    pub(crate) fn abbreviate(
        &mut self,
        alloc: Global,
        name: &[u8],
        tree: Tree<'_>,
    ) -> Result<(), TermFault>
        ensures abbreviated { OnOk result
            ((named : NamedSort)
            × (abbreviated_in (sort_names self.old) name.now (sexp_of tree.entry) ≡ Ok named)
            × (abbreviations_of self.new ≡ abbreviations_of self.old ++ (name.now, named) ∷ [])) }
        ensures refused { IfErr result
            (λ fault. Tells (abbreviated_in (sort_names self.old) name.now (sexp_of tree.entry)) fault) }
        ensures unchanged { OnErr result (abbreviations_of self.new ≡ abbreviations_of self.old) }
        ensures theories { self.new.theories ≡ self.old.theories }
    {
        if self.is_taken(name) {
            return Err(TermFault::NotFresh);
        }
        let sort = self.sort_of(alloc, tree)?;
        let named = NamedSort {
            sort,
            is_declared: false,
        };
        Ok(self.abbreviations.insert(name, named)?)
    }

    /// Makes a name that of the sort that the command of this number declares. It refuses a name that is already
    /// that of a sort. On any error it changes nothing.
    pub(crate) fn declare(&mut self, command: u32, name: &[u8]) -> Result<(), TermFault>
        ensures declared { OnOk result
            ((named : NamedSort) × (sort_declared_in (sort_names self.old) command name.now ≡ Ok named)
            × (abbreviations_of self.new ≡ abbreviations_of self.old ++ (name.now, named) ∷ [])) }
        ensures refused { IfErr result
            (λ fault. Tells (sort_declared_in (sort_names self.old) command name.now) fault) }
        ensures unchanged { OnErr result (abbreviations_of self.new ≡ abbreviations_of self.old) }
        ensures theories { self.new.theories ≡ self.old.theories }
    {
        if self.is_taken(name) {
            return Err(TermFault::NotFresh);
        }
        let named = NamedSort {
            sort: Sort::free(command),
            is_declared: true,
        };
        Ok(self.abbreviations.insert(name, named)?)
    }

    /// The declared sort for whose elements such a symbol is a name, as solvers print elements.
    pub(crate) fn element_sort(&self, symbol: &[u8]) -> Option<Sort>
        ensures { result ≡ elements.element_sort (sort_names self.now) symbol.now }
    {
        // Where no sort is declared, a symbol is not searched: it may be long.
        if self.abbreviations.len() == 0 {
            return None;
        }
        let Some(name) = sort_of_element(symbol) else {
            return None;
        };
        match self.get(name) {
            Some(named) => if_declared(named),
            None => None,
        }
    }

    /// The sort that a tree names, if a command declares it; or what is wrong with it: the fault of the tree, or
    /// `IllSorted` for another sort.
    pub(crate) fn declared_sort(&self, alloc: Global, tree: Tree<'_>) -> Result<Sort, TermFault>
        ensures { IsOutcome (λ sort. sort) (result_and_then (sort_named (sort_names self.now) (sexp_of tree.entry))
            (λ sort. elements.or_ill_sorted (elements.if_free sort))) result }
    {
        let sort = self.sort_of(alloc, tree)?;
        match if_free(sort) {
            Some(sort) => Ok(sort),
            None => Err(TermFault::IllSorted),
        }
    }

    // What a name stands for that was declared or defined.
    fn get(&self, name: &[u8]) -> Option<NamedSort>
        ensures { result ≡ look_up (abbreviations_of self.now) name.now }
    {
        self.abbreviations.get(name).copied()
    }

    // Whether a name is that of a sort or an abbreviation.
    pub(crate) fn is_taken(&self, name: &[u8]) -> bool
        ensures { result ≡ is_sort_taken (sort_names self.now) name.now }
    {
        is_theory_sort(self.theories.wide, name) || self.get(name).is_some()
    }

    // The sort that a symbol names: that of the theories, or else that for which it stands.
    fn sort_of_symbol(&self, theories: Theories, name: &[u8]) -> Result<Sort, TermFlaw>
        ensures { result ≡ sorts.sort_of_symbol theories name.now (look_up (abbreviations_of self.now) name.now) }
    {
        match sort_of_word(theories, name) {
            Ok(sort) => Ok(sort),
            Err(flaw) => match self.get(name) {
                Some(named) => Ok(named.sort),
                None => Err(flaw),
            },
        }
    }
}

// What is found of a tree before its parts are read: what it names, or the trees of the indexes and of the elements
// of a sort of arrays.
#[derive(Clone, Copy)]
enum Begun<'a> {
    Found(Result<Sort, TermFlaw>),
    Parts(Tree<'a>, Tree<'a>),
}

// A sort of arrays that waits for a part: the tree of its elements, and the sort of its indexes, once that is known.
#[derive(Clone, Copy)]
struct Waiting<'a> {
    element: Tree<'a>,
    index: Option<Sort>,
}

// What is known of a part: the tree that is to be read, or the sort that it names.
#[derive(Clone, Copy)]
enum Step<'a> {
    Read(Tree<'a>),
    Named(Sort),
}

// Why a tree names no sort: its first fault, and the part that has it. A sort of arrays that can't be made is a fault
// of the whole.
#[derive(Clone, Copy)]
struct Refusal<'a> {
    fault: TermFault,
    part: Tree<'a>,
}

// Goes on with a sort of arrays whose part is of this sort. It waited behind the others that wait.
fn go_on<'a>(
    waiting: &mut Vec<Waiting<'a>>,
    array: Waiting<'a>,
    sort: Sort,
) -> Result<Step<'a>, TermFault>
    ensures next { (names : sorts.SortNames) (whole : Result theory.Sort TermFlaw)
        → ComesTo names whole (waiting.old.items ++ array.entry ∷ []) (Named sort)
        → MatchResult result (ComesTo names whole waiting.new.items) (Tells whole) }
    ensures less { IfOk result (λ step. work_left waiting.new.items step
        < work_left (waiting.old.items ++ array.entry ∷ []) (Named sort)) }
{
    match array.index {
        Some(index) => Ok(Step::Named(array_of(index, sort)?)),
        None => {
            wait(waiting, array.element, Some(sort))?;
            Ok(Step::Read(array.element))
        }
    }
}

// Makes a sort of arrays wait behind the others, with the tree of its elements and what is known of its indexes.
fn wait<'a>(
    waiting: &mut Vec<Waiting<'a>>,
    element: Tree<'a>,
    index: Option<Sort>,
) -> Result<(), Memory>
    ensures { OnOk result (waiting.new.items
        ≡ waiting.old.items ++ (record { element = element.entry; index = index }) ∷ []) }
{
    match waiting.push(Waiting { element, index }) {
        Ok(()) => Ok(()),
        Err(_) => Err(Memory),
    }
}

// The sort of arrays with these indexes and elements; `Memory` where there is no room for the numbers of their sorts.
fn array_of(index: Sort, element: Sort) -> Result<Sort, TermFault>
    ensures { IsOutcome (λ sort. sort) (sorts.array_of index element) result }
{
    if is_array(index) || is_nested(element) {
        return Err(TermFault::Unsupported);
    }
    match Sort::array(index, element) {
        Some(sort) => Ok(sort),
        None => Err(TermFault::Memory),
    }
}

fn is_array(sort: Sort) -> bool
    ensures { result ≡ sorts.is_array sort }
{
    sort.array_parts().is_some()
}

// Whether a sort is one of arrays whose elements are arrays.
fn is_nested(sort: Sort) -> bool
    ensures { result ≡ sorts.is_nested sort }
{
    match sort.array_parts() {
        Some((_, element)) => is_array(element),
        None => false,
    }
}

// Whether a name is that of a sort of the theories that a profile knows.
fn is_theory_sort(wide: bool, name: &[u8]) -> bool
    ensures { result ≡ freshness.is_theory_sort wide name.now }
{
    is_named(name, b"Bool")
        || is_named(name, b"Int")
        || wide && (is_named(name, b"Real") || is_named(name, b"Array"))
}

// The sort of a symbol that is no abbreviation.
fn sort_of_word(theories: Theories, name: &[u8]) -> Result<Sort, TermFlaw>
    ensures { result ≡ sorts.sort_of_word theories name.now }
{
    if is_named(name, b"Bool") {
        Ok(Sort::bool())
    } else if is_named(name, b"Int") {
        integers(theories)
    } else if is_named(name, b"Real") {
        reals(theories)
    } else if is_named(name, b"String") {
        Err(TermFlaw::Unsupported)
    } else {
        Err(TermFlaw::Unknown)
    }
}

fn integers(theories: Theories) -> Result<Sort, TermFlaw>
    ensures { result ≡ sorts.integers theories }
{
    if theories.ints {
        Ok(Sort::int())
    } else {
        Err(TermFlaw::Unknown)
    }
}

/// The sort `Real`, where there are reals.
pub(crate) fn reals(theories: Theories) -> Result<Sort, TermFlaw>
    ensures { result ≡ sorts.reals theories }
{
    if theories.reals {
        Ok(Sort::real())
    } else if theories.wide {
        Err(TermFlaw::Unknown)
    } else {
        Err(TermFlaw::Unsupported)
    }
}

/// The sort of numerals.
pub(crate) fn numerals(theories: Theories) -> Result<Sort, TermFlaw>
    ensures { result ≡ sorts.numerals theories }
{
    if theories.ints {
        Ok(Sort::int())
    } else if theories.reals {
        Ok(Sort::real())
    } else {
        Err(TermFlaw::Unknown)
    }
}

// What a list of these parts names, or the trees of the parts of a sort of arrays.
fn begin_list<'a>(theories: Theories, parts: Trees<'a>) -> Begun<'a>
    ensures { (names : sorts.SortNames) → names.theories ≡ theories
        → IsBegun names (Items (sexps_of parts.entry)) result }
{
    match parts.split_first() {
        Some((Tree::Symbol(name), args)) => begin_named(theories, name, args),
        Some((Tree::Reserved(Word::Underscore), rest)) => {
            Begun::Found(indexed_sort(theories, rest))
        }
        _ => Begun::Found(Err(TermFlaw::Form)),
    }
}

// The same of a list that begins with this symbol, by the trees after it.
fn begin_named<'a>(theories: Theories, name: &[u8], args: Trees<'a>) -> Begun<'a>
    ensures { (names : sorts.SortNames) → names.theories ≡ theories
        → IsBegun names (Items (Cons (Atom Symbol name.now) (sexps_of args.entry))) result }
{
    match two_trees(args) {
        Some((first, second)) => begin_pair(theories, name, first, second),
        None => Begun::Found(Err(list_flaw(theories, name, args))),
    }
}

// The same where two trees stand after the symbol.
fn begin_pair<'a>(theories: Theories, name: &[u8], first: Tree<'a>, second: Tree<'a>) -> Begun<'a>
    ensures { (names : sorts.SortNames) → names.theories ≡ theories
        → IsBegun names (Items (Cons (Atom Symbol name.now)
        (Cons (sexp_of first.entry) (Cons (sexp_of second.entry) Nil)))) result }
{
    if !is_named(name, b"Array") {
        return Begun::Found(Err(TermFlaw::Unknown));
    }
    if !theories.wide {
        return Begun::Found(Err(TermFlaw::Unsupported));
    }
    if !theories.arrays {
        return Begun::Found(Err(TermFlaw::Unknown));
    }
    Begun::Parts(first, second)
}

// What is wrong with a list of a symbol and other trees than two, where a sort is wanted.
fn list_flaw(theories: Theories, name: &[u8], args: Trees<'_>) -> TermFlaw
    ensures { sorts.sort_of_list theories (Cons (Atom Symbol name.now) (sexps_of args.entry)) ≡ Err result }
{
    if is_named(name, b"Array") {
        if theories.wide {
            TermFlaw::Form
        } else {
            TermFlaw::Unsupported
        }
    } else if args.split_first().is_some() {
        TermFlaw::Unknown
    } else {
        TermFlaw::Form
    }
}

// The trees, if they are two.
fn two_trees<'a>(trees: Trees<'a>) -> Option<(Tree<'a>, Tree<'a>)>
    ensures { MatchOption result (are_two (sexps_of trees.entry) ≡ false)
        (λ p. sexps_of trees.entry ≡ Cons (sexp_of p.0) (Cons (sexp_of p.1) Nil)) }
{
    let Some((first, rest)) = trees.split_first() else {
        return None;
    };
    let Some((second, rest)) = rest.split_first() else {
        return None;
    };
    if rest.split_first().is_some() {
        return None;
    }
    Some((first, second))
}

// The sort `(_ symbol index ..)`, from the parts after the `_`.
fn indexed_sort(theories: Theories, parts: Trees<'_>) -> Result<Sort, TermFlaw>
    ensures { result ≡ sorts.indexed_sort theories (sexps_of parts.entry) }
{
    let Some((Tree::Symbol(name), rest)) = parts.split_first() else {
        return Err(TermFlaw::Form);
    };
    if !are_indexes(rest) {
        return Err(TermFlaw::Form);
    }
    if is_named(name, b"BitVec") {
        bit_vector_sort(theories, rest)
    } else {
        Err(TermFlaw::Unknown)
    }
}

// The sort `(_ BitVec index ..)`, from its indexes.
fn bit_vector_sort(theories: Theories, indexes: Trees<'_>) -> Result<Sort, TermFlaw>
    ensures { result ≡ sorts.bit_vector_sort theories (sexps_of indexes.entry) }
{
    match indexes.split_first() {
        Some((Tree::Numeral(digits), rest)) if rest.split_first().is_none() => {
            bit_vectors(theories, numeral_width(digits))
        }
        _ => Err(TermFlaw::Form),
    }
}

/// The sort of bit vectors of this width; `None` means that the number of bits is out of range.
pub(crate) fn bit_vectors(theories: Theories, width: Option<Width>) -> Result<Sort, TermFlaw>
    ensures { result ≡ sorts.bit_vectors theories width }
{
    if theories.bits {
        width.map(Sort::bits).ok_or(TermFlaw::Index)
    } else {
        Err(TermFlaw::Unknown)
    }
}

fn numeral_width(digits: &[u8]) -> Option<Width>
    ensures { result ≡ width_of (digits_value 10 digits.now) }
{
    let bits = number(10, digits)?;
    if bits <= 128 {
        Width::new(bits as u64)
    } else {
        None
    }
}

// The sort that a command declares by this very name, if one does.
fn if_declared(named: NamedSort) -> Option<Sort>
    ensures { result ≡ elements.if_declared named }
{
    if named.is_declared {
        if_free(named.sort)
    } else {
        None
    }
}

// The sort, if a command declared it.
fn if_free(sort: Sort) -> Option<Sort>
    ensures { result ≡ elements.if_free sort }
{
    match sort.kind() {
        SortKind::Free(_) => Some(sort),
        _ => None,
    }
}

/// Whether two sorts are the same.
pub(crate) fn are_equal(found: Sort, sort: Sort) -> bool
    ensures { result ≡ is_same_sort found sort }
{
    found.is_same(sort)
}

fn is_named(name: &[u8], word: &[u8]) -> bool
    ensures { result ≡ bytes_eq name.now word.now }
{
    name == word
}
