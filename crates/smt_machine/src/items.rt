//! Items of a slice, and the lesser of two numbers. This file knows nothing of what an item is.

ghost use Rattle.std.specs.Prelude.{◌≡◌, ◌≤◌, MatchOption, None, Some, drop, length, min, slice_get};

/// The item at an index, if there is one.
#[inline(always)]
pub(crate) fn item_at<T>(items: &[T], index: usize) -> Option<&T>
    ensures { MatchOption result (slice_get items.now index ≡ None)
        (λ x. slice_get items.now index ≡ Some x.now) }
{
    items.get(index)
}

/// The items from an index on.
#[inline(always)]
pub(crate) fn items_from<T>(items: &[T], start: usize) -> &[T]
    requires { start ≤ length items.now }
    ensures { result.now ≡ drop start items.now }
{
    &items[start..]
}

/// The lesser of two numbers.
#[inline(always)]
pub(crate) fn lesser(a: usize, b: usize) -> usize
    ensures { result ≡ min a b }
{
    if a < b { a } else { b }
}
