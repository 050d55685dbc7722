//! What a sort is. This file knows no operator, and no value.

use crate::sort::Sort;
use crate::width::Width;

/// What a sort is (SMT-LIB 2.6, theories Core, Reals_Ints, FixedSizeBitVectors and ArraysEx).
#[derive(Clone, Copy, PartialEq, Eq)]
pub enum SortKind {
    Bool,
    Int,
    Real,
    /// `(_ BitVec n)`.
    Bits(Width),
    /// The sort that the command of this number declared (section 4.2.3).
    Free(u32),
    /// `(Array o p)`: the sort of the indexes, and that of the elements.
    Array(Sort, Sort),
}
