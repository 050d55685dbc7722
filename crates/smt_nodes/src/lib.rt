//! Checked terms, as numbered nodes in one flat table. This crate knows no trees and no values,
//! of names those of elements alone, and requires nothing of a node: the layer above gives numbers and places their
//! meanings.
//!
//! `Nodes::push` adds a node and returns its number, `Nodes::get` returns the node of a number, and
//! `Nodes::cut` keeps the first nodes. So `(+ x 1)`, where `x` is the first variable in scope:
//!
//! ```text
//! let x = nodes.push(&Node::Slot(0), 0)?;                               // 0
//! let one = nodes.push(&Node::Literal(LiteralKind::Numeral, b"1"), 0)?;                       // 1
//! let sum = nodes.push(&Node::Apply { op: plus, args: &[x, one] }, 0)?; // 2
//! nodes.get(sum.number())                                               // Some(Node::Apply { .. })
//! ```
#![tactic(auto)]

mod annotated;
mod large;
pub mod laws;
mod node;
mod op;
mod rows;
mod table;
mod tables;
mod term_id;
#[cfg(test)]
mod tests;

pub use node::{Node, NodeParts};
pub use table::Nodes;
pub use term_id::TermId;
