//! Laws of the definitions that the contracts name. Nothing here does anything: each contract is a law.

pub mod numbers;
pub mod operators;
pub mod order;
