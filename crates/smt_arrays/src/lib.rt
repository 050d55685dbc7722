//! Arrays.
#![tactic(auto)]

mod arrays;
mod elements;
pub mod laws;
mod lookup;
mod sameness;
#[cfg(test)]
mod tests;

pub use arrays::{Arrays, Cell};
