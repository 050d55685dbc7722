//! Values, and the operators of SMT-LIB 2.6 on them.
//!
//! A value is a truth value, an integer that fits 128 bits, a fraction of such integers, a bit vector of at most 128
//! bits, or an element of a declared sort, by a number that stands for its name. An element without a value is
//! open: the program does not know it. Nothing here allocates, or knows a sort by its name.
//!
//! **The contract for the layer above**: `apply` gives what is known of an operator's result, `known_step` of
//! `specs/KnownOperations.antt`; so does `apply_in_place`, which may move the arguments. By
//! `known_results_are_true` of [`laws`] what is known is the standard's value, `operate` of
//! `specs/Operations.antt`, whatever the open arguments are and whatever division by zero gives.
//!
//! A call, for `(+ 1 2)`, where the operator came from `smt_theory::op_of`:
//!
//! ```text
//! let one = numeral(b"1");                                                  // Some(Value::Int(..)), of 1
//! let two = numeral(b"2");
//! apply(plus, &[one, two])                                                  // Some(Value::Int(..)), of 3
//! apply(plus, &[one, None])                                                 // None: an argument is open
//! ```
#![tactic(auto)]

mod element_number;
mod integer;
pub mod laws;
mod literal_values;
mod operations;
mod reasons;
mod value;

pub use element_number::ElementNumber;
pub use integer::Integer;
pub use literal_values::{
    bin, bin_of, decimal, decimal_of, element, hex, hex_of, literal_of, numeral, numeral_of,
};
pub use operations::{apply, apply_in_place};
pub use reasons::{OpenReason, Reason, is_connective, why};
pub use smt_bits::Bits;
pub use smt_ratios::Ratio;
pub use smt_theory::Width;
pub use value::Value;
