//! Functions from the numbers of so many bits to numbers, as reduced decision diagrams: what an array holds, by the
//! number of each index. Whatever was stored, and in whatever order, one function is one diagram, so that two of them
//! are compared in one step.
//!
//! A diagram is a leaf, which has one element at every number, or a fork: the lowest bit of a number leads to a half,
//! and the bits above it on from there. [`Diagrams`] has each fork once. Nothing here knows a value, a sort or a term.
//!
//! **The contract for the layer above**: what a diagram has at a number is `element_at` of `specs/Diagram.antt`.
//! [`Diagrams::store`] says what the new diagram has at every number, and that older ones keep what they have. The laws
//! of [`laws`] say that one function has one diagram.
//!
//! A call, for an array by vectors of 8 bits:
//!
//! ```text
//! let mut diagrams = Diagrams::new(alloc);
//! let all = Diagram::Leaf(7);                        // 7 at each of the 256 numbers
//! let one = diagrams.store(8, all, 200, 3)?;         // 3 at 200
//! diagrams.select(8, one, 200)                       // 3
//! diagrams.store(8, one, 200, 7)? == all             // true
//! ```
#![tactic(auto)]

mod diagram;
mod diagrams;
pub mod laws;
#[cfg(test)]
mod tests;

pub use diagram::{Diagram, Difference, Fork};
pub use diagrams::Diagrams;
