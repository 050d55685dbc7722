//! The shapes of operators, each a way to take arguments. This file knows no operator, and no value.

ghost use Rattle.std.specs.Prelude.{◌≡◌, ◌≤◌, ◌+◌};
ghost use Rattle.std.specs.List.{list_all};
ghost use Rattle.smt_theory.specs.Shapes.{are_alike, are_numbers, are_of, branch_sort, calculated_rank, choice_rank};
ghost use Rattle.smt_theory.specs.Shapes.{common_width, made_by, rank_by, within_limit};
ghost use Rattle.smt_theory.specs.Sort.{is_number};
ghost use Rattle.smt_theory.specs.Shapes as shapes;

use crate::sort::Sort;
use crate::width::Width;

/// How many arguments an operator takes.
#[derive(Clone, Copy)]
pub enum Arity {
    One,
    Two,
    OneOrMore,
    /// Two or more.
    Several,
}

/// What an operator makes of bit vectors of one width.
#[derive(Clone, Copy)]
pub enum Made {
    /// A bit vector of that width.
    Same,
    /// Something of this sort.
    Given(Sort),
    /// Bits i down to j.
    Slice(u64, u64),
    /// This many copies, one behind the other.
    Times(u64),
    /// All bits, and this many more.
    Longer(u64),
}

/// A way to take arguments, with the sort of the result.
#[derive(Clone, Copy)]
pub enum Shape {
    /// No arguments, and the sort of the result.
    Constant(Sort),
    /// So many arguments of one sort, and the sort of the result.
    Uniform(Arity, Sort, Sort),
    /// So many numbers, of which an integer is made where all are integers, and else a real.
    Calculated(Arity),
    /// So many numbers, and the sort of the result.
    Numbers(Arity, Sort),
    /// Two or more arguments of any one sort, or two or more numbers; the result is a truth value.
    Alike,
    /// A condition, and two arguments of any one sort, which is that of the result; or an integer and a real, of which
    /// the result is a real.
    Choice,
    /// So many bit vectors of any one width.
    Vectors(Arity, Made),
    /// Two or more bit vectors of any widths, one behind the other.
    Joined,
    /// An array and one of its indexes; the result is the element there.
    Selected,
    /// An array, one of its indexes and an element; the result is an array of the same sort.
    Stored,
    /// An element of this sort of arrays, which is the sort of the result.
    Filled(Sort),
    /// None: the operator holds a number that is out of range.
    OutOfRange,
}

/// The sort of the result for arguments of these sorts; `None` where the shape does not take them.
#[inline(always)]
pub(crate) fn rank_by(shape: Shape, args: &[Sort]) -> Option<Sort>
    ensures { result ≡ rank_by shape args.now }
{
    match shape {
        Shape::Constant(given) => args.is_empty().then_some(given),
        Shape::Uniform(arity, sort, given) => are_of(arity, sort, args).then_some(given),
        Shape::Calculated(arity) => calculated_rank(arity, args),
        Shape::Numbers(arity, given) => are_numbers(arity, args).then_some(given),
        Shape::Alike => (are_alike(args) || are_numbers(Arity::Several, args)).then_some(
            Sort::bool(),
        ),
        Shape::Choice => choice_rank(args),
        Shape::Vectors(arity, made) => made_by(made, common_width(arity, args)?),
        Shape::Joined => joined_width(args).map(Sort::bits),
        Shape::Selected => selected_rank(args),
        Shape::Stored => stored_rank(args),
        Shape::Filled(given) => filled_rank(given, args),
        Shape::OutOfRange => None,
    }
}

/// The sort of an array's element, for the array and one of its indexes.
fn selected_rank(args: &[Sort]) -> Option<Sort>
    ensures { result ≡ shapes.selected_rank args.now }
{
    match args {
        [array, index] => {
            let (own, element) = array.array_parts()?;
            own.is_same(*index).then_some(element)
        }
        _ => None,
    }
}

/// The sort of an array, for the array, one of its indexes and an element.
fn stored_rank(args: &[Sort]) -> Option<Sort>
    ensures { result ≡ shapes.stored_rank args.now }
{
    match args {
        [array, index, element] => {
            let (own, held) = array.array_parts()?;
            (own.is_same(*index) && held.is_same(*element)).then_some(*array)
        }
        _ => None,
    }
}

/// This sort of arrays, for one of its elements.
fn filled_rank(given: Sort, args: &[Sort]) -> Option<Sort>
    ensures { result ≡ shapes.filled_rank given args.now }
{
    match args {
        [element] => {
            let (_, held) = given.array_parts()?;
            held.is_same(*element).then_some(given)
        }
        _ => None,
    }
}

/// The least number of arguments, and whether there may be more.
#[inline(always)]
pub(crate) fn counts(arity: Arity) -> (usize, bool)
    ensures { result ≡ shapes.counts arity }
{
    match arity {
        Arity::One => (1, false),
        Arity::Two => (2, false),
        Arity::OneOrMore => (1, true),
        Arity::Several => (2, true),
    }
}

/// Whether an operator that takes at least so many arguments, and perhaps more, takes this many.
#[inline(always)]
pub(crate) fn takes_count(least: usize, takes_more: bool, count: usize) -> bool
    ensures { result ≡ shapes.takes_count (least, takes_more) count }
{
    if takes_more {
        count >= least
    } else {
        count == least
    }
}

/// Whether these are so many arguments, all of this sort.
#[inline(always)]
pub(crate) fn are_of(arity: Arity, sort: Sort, args: &[Sort]) -> bool
    ensures { result ≡ are_of arity sort args.now }
{
    let (least, takes_more) = counts(arity);
    takes_count(least, takes_more, args.len()) && all_are(sort, args)
}

#[inline(always)]
fn all_are(sort: Sort, args: &[Sort]) -> bool
    ensures { result ≡ shapes.all_are sort args.now }
{
    args.iter().all(|arg| arg.is_same(sort))
}

/// Whether these are so many numbers.
#[inline(always)]
pub(crate) fn are_numbers(arity: Arity, args: &[Sort]) -> bool
    ensures { result ≡ are_numbers arity args.now }
{
    let (least, takes_more) = counts(arity);
    takes_count(least, takes_more, args.len()) && all_are_numbers(args)
}

fn all_are_numbers(args: &[Sort]) -> bool
    ensures { result ≡ list_all is_number args.now }
{
    args.iter().all(|arg| arg.is_number())
}

/// The sort of what is calculated of so many numbers.
#[inline(always)]
pub(crate) fn calculated_rank(arity: Arity, args: &[Sort]) -> Option<Sort>
    ensures { result ≡ calculated_rank arity args.now }
{
    if are_of(arity, Sort::int(), args) {
        Some(Sort::int())
    } else {
        are_numbers(arity, args).then_some(Sort::real())
    }
}

/// Whether these are two or more arguments of one sort.
#[inline(always)]
pub(crate) fn are_alike(args: &[Sort]) -> bool
    ensures { result ≡ are_alike args.now }
{
    match args.first() {
        Some(first) => are_of(Arity::Several, *first, args),
        None => false,
    }
}

/// The sort of the result of `ite`.
#[inline(always)]
pub(crate) fn choice_rank(args: &[Sort]) -> Option<Sort>
    ensures { result ≡ choice_rank args.now }
{
    match args {
        [condition, chosen, other] if condition.is_same(Sort::bool()) => branch_sort(
            *chosen, *other,
        ),
        _ => None,
    }
}

/// The sort of one of two branches.
#[inline(always)]
pub(crate) fn branch_sort(chosen: Sort, other: Sort) -> Option<Sort>
    ensures { result ≡ branch_sort chosen other }
{
    if chosen.is_same(other) {
        Some(chosen)
    } else {
        (chosen.is_number() && other.is_number()).then_some(Sort::real())
    }
}

/// The width of so many bit vectors of one width; `None` where the sorts are others.
#[inline(always)]
pub(crate) fn common_width(arity: Arity, args: &[Sort]) -> Option<Width>
    ensures { result ≡ common_width arity args.now }
{
    match args {
        [first, ..] if are_of(arity, *first, args) => first.width(),
        _ => None,
    }
}

/// The sort of what is made of bit vectors of this width.
#[inline(always)]
pub(crate) fn made_by(made: Made, width: Width) -> Option<Sort>
    ensures { result ≡ made_by made width }
{
    match made {
        Made::Same => Some(Sort::bits(width)),
        Made::Given(sort) => Some(sort),
        Made::Slice(i, j) => slice_width(i, j, width).map(Sort::bits),
        Made::Times(i) => times_width(i, width).map(Sort::bits),
        Made::Longer(i) => longer_width(i, width).map(Sort::bits),
    }
}

/// The width of two or more bit vectors, one behind the other.
pub(crate) fn joined_width(args: &[Sort]) -> Option<Width>
    ensures { result ≡ shapes.joined_width args.now }
{
    match args {
        [first, rest @ ..] if !rest.is_empty() => width_behind(first.width()?, rest),
        _ => None,
    }
}

// The width of these bit vectors together with so many bits before them. It stops at the limit, so no sum of
// many widths is too large.
fn width_behind(before: Width, args: &[Sort]) -> Option<Width>
    ensures { result ≡ shapes.width_behind before args.now }
{
    let mut width = before;
    let mut left = args;
    while let Some((next, rest)) = left.split_first() {
        width = width_within(width.bits() + next.width()?.bits())?;
        left = rest;
    }
    Some(width)
}

// The width of bits i down to j of a bit vector of this width.
fn slice_width(i: u64, j: u64, width: Width) -> Option<Width>
    ensures { result ≡ shapes.slice_width i j width }
{
    if j <= i && i < width.bits() {
        Width::new(i - j + 1)
    } else {
        None
    }
}

fn times_width(i: u64, width: Width) -> Option<Width>
    ensures { result ≡ shapes.times_width i width }
{
    if i >= 1 {
        width_within(width.bits().checked_mul(i)?)
    } else {
        None
    }
}

fn longer_width(i: u64, width: Width) -> Option<Width>
    ensures { result ≡ within_limit (width + i) }
{
    width_within(width.bits().checked_add(i)?)
}

// The width of so many bits; `None` over the limit.
fn width_within(bits: u64) -> Option<Width>
    requires { 1 ≤ bits }
    ensures { result ≡ within_limit bits }
{
    Width::new(bits)
}
