//! The numbers of literals that have no room in their rows. This file knows no row, only its number.

ghost use Rattle.std.specs.Prelude.{◌≡◌, ◌<◌, ◌≤◌, ◌+◌, ℕ, Some, length, slice_get};

/// The number that the digits of a literal spell, if it is below 2^128, and the number of the literal's row.
#[derive(Clone, Copy)]
pub(crate) struct LargeNumber {
    pub(crate) row: usize,
    pub(crate) number: Option<u128>,
}

/// How many of these numbers are left once the last ones are removed that belong to this row or a later one.
pub(crate) fn count_before(numbers: &[LargeNumber], row: usize) -> usize
    ensures within { result ≤ length numbers.now }
    ensures kept { (i : ℕ) (x : LargeNumber) → slice_get numbers.now i ≡ Some x → x.row < row → i < result }
    ensures gone { (i : ℕ) (x : LargeNumber) → slice_get numbers.now i ≡ Some x → result ≤ i + 1
        → i < result → x.row < row }
{
    let mut count = numbers.len();
    while count > 0 && numbers[count - 1].row >= row {
        count -= 1;
    }
    count
}
