//! Why a claim is false or open: its smallest parts that make it so, the values in them, and what gives these values.
//! This crate knows no dialogue: it is given the claim, the model and the commands with definitions as trees. Nothing
//! is evaluated here but by the machine over nodes (`smt_eval`).
//!
//! So, of a claim of a check, with what it needs at hand:
//!
//! ```text
//! let world = World::new(alloc, profile, &source)?;
//! let mut walk = Walk::new(alloc, &world, parts, 1_000_000);
//! walk.tell(&mut page, tree, 135, term, Known::False);
//! page                    // jobs.smt2:6:1: false, in before: (<= (+ start hours) next)
//!                         //     (+ start hours) = 5, next = painting = 4, start = drilling = 3, hours = 2
//! ```
#![tactic(auto)]

mod evaluation;
mod parts;
mod reals;
mod show;
mod trees;
mod value_texts;
mod values;
mod world;

pub use evaluation::Stop;
pub use parts::{Known, Walk};
pub use show::{put_name, put_tree};
pub use smt_faults::Memory;
pub use trees::{Listed, each};
pub use value_texts::sort_text;
pub use world::{Definer, Source, World, items_in};
