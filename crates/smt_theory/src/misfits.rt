//! Why an operator has no rank for the sorts of its arguments. This file knows no operator's name, and no value.

ghost use Rattle.std.specs.Prelude.{◌≡◌, not};
ghost use Rattle.std.specs.List.{list_any, position};
ghost use Rattle.smt_theory.specs.Misfits as misfits;
ghost use Rattle.smt_theory.specs.Misfits.{misfit_of};
ghost use Rattle.smt_theory.specs.Sort.{Real, is_number, is_same_sort};
ghost use Rattle.smt_theory.specs.declared.misfits.Wanted.TheVariants.{AnyBits, Only};

use crate::op::Op;
use crate::ranks::shape;
use crate::shapes::{Arity, Shape, branch_sort, counts, rank_by, takes_count};
use crate::sort::Sort;

/// Why an operator has no rank for the sorts of its arguments.
#[derive(Clone, Copy)]
pub enum RankFlaw {
    /// The argument at this place, from 0, is the first that is of another sort than is wanted there.
    Argument { place: usize, wanted: Wanted },
    /// The operator takes another number of arguments; this is the least that it takes.
    Count { wanted: usize },
    /// The number of arguments and the sort of each fit. The widths of the bit vectors do not, or the indexes of the
    /// operator with them.
    Widths,
}

/// The sorts that are wanted of an argument.
#[derive(Clone, Copy)]
pub enum Wanted {
    /// This sort alone.
    Only(Sort),
    /// A bit vector of any width.
    AnyBits,
    /// An array of any sort.
    AnyArray,
}

/// Why the operator has no rank for arguments of these sorts; `None` where it has one.
///
/// The number of arguments comes first. Then each argument has to fit: it is of the operator's sort, or of the sort of
/// the first one where the operator takes arguments of any one sort or width. Where numbers of both sorts are taken,
/// `Real` is wanted if one is real. Of an `ite`, the condition comes first, and then the last argument, which has to be
/// of the sort of the second, or a number as that is. It takes time in proportion to the number of
/// arguments.
pub fn misfit(op: Op, args: &[Sort]) -> Option<RankFlaw>
    ensures { result ≡ misfit_of op args.now }
{
    misfit_by(&shape(op), args)
}

fn misfit_by(shape: &Shape, args: &[Sort]) -> Option<RankFlaw>
    ensures { result ≡ misfits.misfit_by shape.now args.now }
{
    let (least, takes_more) = counts_of(shape);
    if !takes_count(least, takes_more, args.len()) {
        return Some(RankFlaw::Count { wanted: least });
    }
    if let Some(found) = argument_misfit(shape, args) {
        return Some(found);
    }
    match rank_by(*shape, args) {
        Some(_) => None,
        None => Some(RankFlaw::Widths),
    }
}

// The least number of arguments that an operator of this shape takes, and whether it takes more.
fn counts_of(shape: &Shape) -> (usize, bool)
    ensures { result ≡ misfits.counts_of shape.now }
{
    match *shape {
        Shape::Constant(_) => (0, false),
        Shape::Uniform(arity, _, _)
        | Shape::Calculated(arity)
        | Shape::Numbers(arity, _)
        | Shape::Vectors(arity, _) => counts(arity),
        Shape::Alike | Shape::Joined => counts(Arity::Several),
        Shape::Choice => (3, false),
        Shape::Selected => (2, false),
        Shape::Stored => (3, false),
        Shape::Filled(_) => (1, false),
        Shape::OutOfRange => (0, true),
    }
}

// The first argument that does not fit.
fn argument_misfit(shape: &Shape, args: &[Sort]) -> Option<RankFlaw>
    ensures { result ≡ misfits.argument_misfit shape.now args.now }
{
    match shape {
        Shape::Constant(_) | Shape::OutOfRange => None,
        Shape::Uniform(_, sort, _) => first_other(args, sort),
        Shape::Calculated(_) | Shape::Numbers(_, _) => first_no_number(args, number_wanted(args)),
        Shape::Alike => first_other_than_first(args),
        Shape::Choice => misfit_in_choice(args),
        Shape::Vectors(_, _) => first_other_width(args),
        Shape::Joined => first_scalar(args),
        Shape::Selected | Shape::Stored => misfit_with_array(args),
        Shape::Filled(given) => misfit_in_filled(given.array_parts(), args),
    }
}

// What is no array, or what does not fit it.
fn misfit_with_array(args: &[Sort]) -> Option<RankFlaw>
    ensures { result ≡ misfits.misfit_with_array args.now }
{
    match args {
        [array, rest @ ..] => misfit_behind_array(array.array_parts(), rest),
        [] => None,
    }
}

// An index, or else an element, of another sort than the array's.
fn misfit_behind_array(own: Option<(Sort, Sort)>, rest: &[Sort]) -> Option<RankFlaw>
    ensures { result ≡ misfits.misfit_behind_array own rest.now }
{
    match (own, rest) {
        (Some((own, _)), [index]) => other_at(1, own, *index),
        (Some((own, held)), [index, element]) => match other_at(1, own, *index) {
            Some(flaw) => Some(flaw),
            None => other_at(2, held, *element),
        },
        _ => Some(RankFlaw::Argument {
            place: 0,
            wanted: Wanted::AnyArray,
        }),
    }
}

// An element of another sort than the array's.
fn misfit_in_filled(own: Option<(Sort, Sort)>, args: &[Sort]) -> Option<RankFlaw>
    ensures { result ≡ misfits.misfit_in_filled own args.now }
{
    match (own, args) {
        (Some((_, held)), [element]) => other_at(0, held, *element),
        _ => None,
    }
}

// The argument at a place, if it is of another sort.
fn other_at(place: usize, wanted: Sort, sort: Sort) -> Option<RankFlaw>
    ensures { result ≡ misfits.other_at place wanted sort }
{
    if wanted.is_same(sort) {
        None
    } else {
        Some(of_sort(place, wanted))
    }
}

fn misfit_in_choice(args: &[Sort]) -> Option<RankFlaw>
    ensures { result ≡ misfits.misfit_in_choice args.now }
{
    match args {
        [condition, chosen, other] => misfit_of_choice(*condition, chosen, *other),
        _ => None,
    }
}

fn misfit_of_choice(condition: Sort, chosen: &Sort, other: Sort) -> Option<RankFlaw>
    ensures { result ≡ misfits.misfit_of_choice condition chosen.now other }
{
    if !condition.is_same(Sort::bool()) {
        Some(of_sort(0, Sort::bool()))
    } else if branch_sort(*chosen, other).is_none() {
        Some(of_sort(2, *chosen))
    } else {
        None
    }
}

// The first argument of another sort than the first one.
fn first_other_than_first(args: &[Sort]) -> Option<RankFlaw>
    ensures { result ≡ misfits.first_other_than_first args.now }
{
    match args.first() {
        Some(first) if first.is_number() => first_no_number(args, *first),
        Some(first) => first_other(args, first),
        None => None,
    }
}

// The first argument that is no number, where one of this sort would do.
fn first_no_number(args: &[Sort], sort: Sort) -> Option<RankFlaw>
    ensures { result ≡ misfits.first_no_number sort args.now }
{
    let place = place_of_no_number(args)?;
    Some(of_sort(place, sort))
}

fn place_of_no_number(args: &[Sort]) -> Option<usize>
    ensures { result ≡ position (λ arg. not (is_number arg)) args.now }
{
    args.iter().position(|arg| !arg.is_number())
}

// The sort of a number that would do among these.
fn number_wanted(args: &[Sort]) -> Sort
    ensures { result ≡ misfits.number_wanted args.now }
{
    if has_real(args) {
        Sort::real()
    } else {
        Sort::int()
    }
}

fn has_real(args: &[Sort]) -> bool
    ensures { result ≡ list_any (λ arg. is_same_sort arg Real) args.now }
{
    args.iter().any(|arg| arg.is_same(Sort::real()))
}

// The first argument, if it is no bit vector, or else the first one of another width.
fn first_other_width(args: &[Sort]) -> Option<RankFlaw>
    ensures { result ≡ misfits.first_other_width args.now }
{
    match args.first() {
        Some(first) if is_bits(*first) => first_other(args, first),
        Some(_) => Some(of_bits(0)),
        None => None,
    }
}

// The first argument of another sort.
fn first_other(args: &[Sort], sort: &Sort) -> Option<RankFlaw>
    ensures { result ≡ misfits.first_other sort.now args.now }
{
    let place = place_of_other(args, *sort)?;
    Some(of_sort(place, *sort))
}

fn place_of_other(args: &[Sort], sort: Sort) -> Option<usize>
    ensures { result ≡ position (λ arg. not (is_same_sort arg sort)) args.now }
{
    args.iter().position(|arg| !arg.is_same(sort))
}

// The first argument that is no bit vector.
fn first_scalar(args: &[Sort]) -> Option<RankFlaw>
    ensures { result ≡ misfits.first_scalar args.now }
{
    let place = place_of_scalar(args)?;
    Some(of_bits(place))
}

fn place_of_scalar(args: &[Sort]) -> Option<usize>
    ensures { result ≡ position (λ arg. not (misfits.is_bits arg)) args.now }
{
    args.iter().position(|arg| !is_bits(*arg))
}

// An argument at a place, where this sort is wanted.
fn of_sort(place: usize, sort: Sort) -> RankFlaw
    ensures { result ≡ misfits.argument (Only sort) place }
{
    RankFlaw::Argument {
        place,
        wanted: Wanted::Only(sort),
    }
}

// The same where a bit vector is wanted.
fn of_bits(place: usize) -> RankFlaw
    ensures { result ≡ misfits.argument AnyBits place }
{
    RankFlaw::Argument {
        place,
        wanted: Wanted::AnyBits,
    }
}

fn is_bits(sort: Sort) -> bool
    ensures { result ≡ misfits.is_bits sort }
{
    sort.width().is_some()
}
