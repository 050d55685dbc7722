//! Models as solvers print them, and the values of terms over them (SMT-LIB 2.6, sections 4.2.6 and 5.3).
//!
//! The layer above uses two contracts. `Interpretation::read` reads exactly the models that define every
//! declared name, and reports the first fault of any other model. `eval` gives what is known of a term's
//! value, and the law `known_values_are_true` relates that to the standard's value.
//!
//! Over the model `((define-fun x () Int 1))` of a declared `x`, the term `(< x 0)` is known to be false, and
//! `(= (div x 0) x)` is open.
#![tactic(auto)]

mod blames;
mod closed;
mod interpretation;
pub mod laws;
mod model_fault;
mod parts;
mod tables;

pub use blames::blame_of_items;
pub use closed::{cost, cost_by_size, cost_within, eval, eval_by};
pub use interpretation::Interpretation;
pub use model_fault::{ModelFault, ModelFlaw};
pub use parts::Parts;
pub use smt_faults::Memory;
pub use smt_machine::Machine;
