//! Bit vectors of SMT-LIB 2.6, and the operators on them.
//!
//! A bit vector ([`Bits`]) has 1 to 128 bits, and is made of its width and a number, or of the digits of a
//! constant. There is a function for each operator of the theory FixedSizeBitVectors and each that the logic
//! QF_BV adds, under the operator's own name. Nothing here allocates, or knows a term or a sort.
//!
//! **The contract for the layer above**: each function gives the vector, or the truth value, that
//! `specs/Operators.antt` has for the operator. The definitions speak of numbers of any size; only the code
//! has words of 128 bits. The laws of [`laws`] say what follows from the definitions.
//!
//! A call, for `(bvudiv #x07 #x02)`:
//!
//! ```text
//! let seven = literals::hex(b"07")?;                                        // 7 in 8 bits
//! let two = literals::hex(b"02")?;
//! arithmetic::bvudiv(seven, two).number()                                   // 3
//! ```
#![tactic(auto)]

pub mod arithmetic;
mod bits;
pub mod bitwise;
pub mod laws;
pub mod literals;
pub mod parts;
pub mod shifts;
pub mod signed;
mod words;

pub use bits::Bits;
pub use words::Words;
