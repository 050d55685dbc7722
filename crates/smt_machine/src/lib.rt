//! Evaluation of numbered nodes by one loop over a stack of its own.
//!
//! The nodes of a script's terms and those of a model's bodies are in two tables (`smt_nodes`), and names
//! lead to the bodies of their definitions. What is known of a node's value depends on the nodes with lower
//! numbers alone. A part with another number is open, and so are a place and a body that do not exist.
//! Nothing here knows a name or a sort. An evaluation asks for memory only where its machine grows, so a term
//! may be as deep as memory allows.
//!
//! **The contract for the layer above**: `Machine::eval` gives `given` of `specs/Given.antt` over the nodes
//! of both tables, `nodes_of` of `specs/Tables.antt`, whatever these hold. By `nodes_have_their_values` of
//! [`laws`] that is what each form of node makes of its parts, `node_value` of `specs/Nodes.antt`. A value that is an
//! array is one of the machine's (`smt_arrays`), at its place among `arrays_in` of `specs/Memory.antt`: an evaluation
//! adds arrays, and those that are there stay until the machine forgets.
//!
//! The cost of a term is known before its evaluation. `costs` counts for every node how many nodes are
//! evaluated for it at most, each annotation as one more, and `Machine::eval` subtracts that much from
//! `left`, or less. Where a term may cost no more than a limit below the number of nodes, `cost_within`
//! counts as far as the limit.
//!
//! A call, for the script's `(+ x 1)` as node `sum`, where the model has 2 for `x`:
//!
//! ```text
//! let costs = costs(alloc, tables)?;
//! let mut left = cost_of_term(costs.as_slice(), tables, sum);               // 4: the sum, 1, x, and its 2
//! let mut machine = Machine::new(alloc);
//! machine.eval(tables, sum, &mut left)?                                     // Some(Value::Int(..)), of 3
//! ```
#![tactic(auto)]

mod counting;
mod evaluation;
mod items;
mod kept;
pub mod laws;
mod look;
mod machine;
mod parts;
mod tables;
mod task;
#[cfg(test)]
mod tests;
mod walk;

pub use counting::{cost_of_node, cost_of_term, costs, greatest_cost};
pub use look::Look;
pub use machine::Machine;
pub use smt_faults::Memory;
pub use tables::Tables;
pub use walk::cost_within;
