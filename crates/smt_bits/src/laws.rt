//! Laws of the definitions that the contracts name. Nothing here does anything: each contract is a law.

pub mod arithmetic;
pub mod bitwise;
pub mod literals;
pub mod parts;
pub mod shifts;
pub mod signed;
