//! Indexes of identifiers. This file knows no operator, and reads no digits.

/// An index of an identifier `(_ symbol index ..)` (SMT-LIB 2.6, section 3.3).
#[derive(Clone, Copy, Default)]
pub enum Index<'a> {
    /// A numeral up to 2^64 - 1.
    Number(u64),
    /// A numeral over 2^64 - 1. That limit is this project's own.
    #[default]
    Large,
    /// A symbol, without bars.
    Name(&'a [u8]),
}
