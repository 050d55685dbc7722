//! Rational numbers, and the operators of SMT-LIB 2.6 on them (theory Reals_Ints).
//!
//! A number ([`Number`]) is an integer from -2^127 to 2^127 - 1, or a fraction in lowest terms that is none
//! ([`Ratio`], 31 bytes without alignment): each rational number has one form. Results are exact, or open: `None`
//! where a product or a sum on the way is outside 128 bits. Comparisons, floors and whether a number is an integer
//! are never open. Nothing here allocates, or knows a term or a sort.
//!
//! **The contract for the layer above**: each function gives what is known of the result that
//! `specs/Operators.antt` has for the operator; what is known, and what stays open, is `specs/Known.antt`. Both
//! speak of rational numbers of any size. The laws of [`laws`] say what follows from the definitions, by cross
//! products of integers.
//!
//! A call, for `(+ (/ 1 3) 0.5)`:
//!
//! ```text
//! let third = quotient(&Number::Integer(1), &Number::Integer(3))?;          // 1/3
//! let half = decimal(5, 1)?;                                                // 1/2
//! sum(&third, &half)                                                        // Some, of 5/6
//! ```
#![tactic(auto)]

mod arithmetic;
mod decimals;
mod divisors;
pub mod laws;
mod number;
mod order;
mod ratio;
mod words;

pub use arithmetic::{difference, negative, product, quotient, sum};
pub use decimals::decimal;
pub use number::Number;
pub use order::{floor, is_at_most, is_equal, is_integer, is_less};
pub use ratio::Ratio;
