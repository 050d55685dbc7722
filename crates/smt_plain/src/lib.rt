//! What is known of the value of a term that is kept as a tree, over definitions that are kept as trees, by recursion
//! over the trees. A table of nodes gives the same values in less time; this crate is for users who have no library.
//!
//! So `(* x x)` over the definition of `x` as 3:
//!
//! ```text
//! let x = Definition { name: b"x", params: &[], result: Sort::Int, body: &three };
//! let closed = Closed { alloc, theories, definitions: &[x], names: &names, tree: &product };
//! closed.value()?                                                           // Some(Value::Int(..)), of 9
//! ```
#![tactic(auto)]

mod closed;
mod evaluator;
mod names;
mod scope;

pub use closed::{Closed, Definition};
