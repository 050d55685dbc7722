//! What names of sorts stand for. This file knows no names.

use smt_theory::Sort;

/// What the name of a sort stands for (SMT-LIB 2.6, section 4.2.3).
#[derive(Clone, Copy)]
pub struct NamedSort {
    /// The sort.
    pub sort: Sort,
    /// Whether a command declares the sort by this very name. Otherwise the name abbreviates the sort.
    pub is_declared: bool,
}
