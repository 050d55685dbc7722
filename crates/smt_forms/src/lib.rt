//! The forms that terms, definitions and commands share (SMT-LIB 2.6, sections 3.3, 3.6 and 4.2.3):
//! identifiers, bindings, parameters, and the variables that a term sees. This crate looks up no names but
//! those of operators and variables.
//!
//! `applied_identifier` answers what a list applies to its arguments, or what is wrong with its form. For
//! `((_ extract 3 0) x)`, by its head and the trees after it, it answers the identifier `extract` with two
//! indexes; `Identifier::operator` finds its operator. For `(let)` it answers the fault `Form`.
//!
//! `split_let` and `split_named` split a `let` and its bindings into their parts. `find_variable` finds the
//! innermost variable of a name in a list. A `Scope` does so in time that hardly grows with the number of
//! variables, and a `NameSet` says whether a name came before.
#![tactic(auto)]

mod attributes;
mod bindings;
mod element_names;
mod heads;
mod identifier;
mod items;
pub mod laws;
mod marks;
mod name_set;
mod params;
mod places;
mod scope;
mod variable;

pub use attributes::{are_attributes, label_at};
pub use bindings::{are_named, split_let, split_let_placed, split_named, split_named_placed};
pub use element_names::sort_of_element;
pub use heads::{is_as, is_bang, is_let, is_underscore};
pub use identifier::{
    Identifier, applied_flaw, applied_identifier, are_indexes, indexed_identifier,
};
pub use items::{ItemForm, item_form};
pub use name_set::NameSet;
pub use params::{Param, params_of};
pub use scope::Scope;
pub use variable::{Variable, find_variable};
