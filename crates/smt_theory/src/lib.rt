//! Sorts, theories and operators of SMT-LIB 2.6.
//!
//! The theories are Core, Ints, Reals, Reals_Ints and FixedSizeBitVectors, the last with the operators that the logic
//! QF_BV adds. Bit vectors are up to 128 bits wide.
//!
//! `theories_of` finds the theories of a logic in a profile of the language. `op_of` finds the operator that
//! a symbol with its indexes names in theories. `rank` gives the sort of an operator's result for the sorts
//! of its arguments. Nothing here allocates, or knows a text or a value.
//!
//! **The contract for the layer above**: `rank` gives a sort exactly where the table of ranks, `HasRank` of
//! `specs/Ranks.antt`, has the operator with these arguments and that result. The table has one line for each
//! row of the standard's theory files.
//!
//! A call, for `(< 1 2 3)` in the logic `QF_LIA`:
//!
//! ```text
//! let theories = theories_of(Profile::Base, b"QF_LIA")?;                    // Core and Ints
//! let op = op_of(theories, b"<", &[]).ok()?;                                // the relation <
//! rank(op, &[Sort::int(), Sort::int(), Sort::int()])                        // Some(Sort::bool())
//! ```
#![tactic(auto)]

mod index;
pub mod laws;
mod literal;
mod misfits;
mod numbers;
mod op;
mod profile;
mod ranks;
mod shapes;
mod sort;
mod sort_kind;
mod symbols;
mod theories;
mod wide;
mod width;

pub use index::Index;
pub use literal::{LiteralKind, literal_number};
pub use misfits::{RankFlaw, Wanted, misfit};
pub use numbers::{digit, number};
pub use op::names::{op_of, plain_op_of};
pub use op::plain::PlainOp;
pub use op::{
    Arithmetic, ArraysOp, BitsBinary, BitsComparison, BitsFolded, BitsOp, BitsUnary, Comparison,
    CoreOp, IntsOp, Op, OpFault, RealsOp,
};
pub use profile::Profile;
pub use ranks::{plain_rank, rank, shape};
pub use shapes::{Arity, Made, Shape};
pub use sort::Sort;
pub use sort_kind::SortKind;
pub use theories::{Theories, all_theories, theories_of};
pub use width::Width;
