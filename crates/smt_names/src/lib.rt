//! Each distinct name once, with a number by which it is known from then on: its place, from 0, in the order
//! in which names came. This crate knows nothing of what a name stands for.
//!
//! `Names::place` returns the place of a name, and adds the name where it is a new one; `Names::find` only
//! looks. So of `x`, `y` and `x` again the places are 0, 1 and 0:
//!
//! ```text
//! let mut names = Names::new(alloc);
//! names.place(b"x")?;   // 0
//! names.place(b"y")?;   // 1
//! names.place(b"x")?;   // 0
//! names.name(1)         // b"y"
//! names.find(b"z")      // None
//! ```
//!
//! A name is found by a hash, or, where too many hashes lie close together, by its order. No contract says which.
#![tactic(auto)]

mod crowd;
mod hasher;
mod keys;
pub mod laws;
mod map;
mod name;
mod names;
mod order;
mod table;

pub use map::NameMap;
pub use names::Names;
