//! Names, the sort checker, definitions, the items of models, and what can be wrong with a term (SMT-LIB 2.6,
//! sections 3.3, 3.5, 3.6, 4.2.3, 4.2.6 and 5.2). This crate knows no values.
//!
//! `Library::check` returns the sort of a term over the names of the library, or its first fault. `Library::define`
//! adds a definition with its parameters. `Library::for_model` begins a library for the definitions of a model, and
//! `Library::define_item` adds an item of the model. So, in Core and Ints:
//!
//! ```text
//! let mut library = Library::new(alloc, theories);
//! library.declare(1, b"x", &[], &int)?;                                     // (declare-const x Int)
//! library.check(&sum)?.1                                                    // of (+ x 1): Sort::Int
//! library.check(&other)                                                     // of (+ y 1): Err(TermFault::Unknown)
//! let mut model = library.for_model(items.len())?;
//! model.define_item(&library, &item)?;                                      // (define-fun x () Int 2)
//! model.find(b"x")                                                          // Some(Found::Defined(0))
//! ```
#![tactic(auto)]

mod blame;
mod labels;
pub mod laws;
mod library;
mod named_sort;
mod sorts;

pub use blame::{Blame, Theory};
pub use library::{Declared, Definition, Found, Library, Mark};
pub use named_sort::NamedSort;
pub use smt_faults::TermFault;
pub use smt_forms::Param;
pub use smt_nodes::TermId;
