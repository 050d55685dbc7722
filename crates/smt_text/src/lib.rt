//! Text of the SMT-LIB language (SMT-LIB 2.6, sections 3.1 and 3.2): bytes in, S-expressions out.
//!
//! A [`Reader`] is fed a text in pieces of any size. It returns the trees of the text in order, each as soon
//! as no later byte can change it. Then it returns the fault of the text, if it has one, with its place in
//! bytes from 0. [`read_trees`] does the same for a text that is at hand as a whole.
//! [`Reader::tree_end`] tells where the last tree ended. From there [`gap_length`] leads to the next one, and
//! [`Position`] and [`Lines`] give line and column of a place. [`open_places`] tells what a text leaves open that ends
//! inside a tree, and [`atom_spans`] where the atoms of a text stand.
//!
//! The layer above uses the contract of `Reader::next`. The trees returned so far are the first ones that are
//! read of the bytes fed (`Reads` in `specs/Reading.antt`). The answer is the next tree, or the fault after
//! them, or that there is none, however the text was cut.
//!
//! `specs/Grammar.antt` says what a text means. It speaks of whole texts, as tokens and gaps in turn, without
//! a state. `laws` holds what follows from the definitions alone, and examples of them.
//!
//! A reader of a text in two pieces, cut inside a name:
//!
//! ```
//! let mut reader = Reader::new(alloc, MAX_DEPTH);
//! reader.feed(b"(declare-fun f");
//! reader.feed(b"oo () Int) ; ends here");
//! reader.finish();
//! while let Next::Tree(tree) = reader.next() {
//!     // one tree: a list of a reserved word, the symbol `foo`, an empty list and the symbol `Int`
//! }
//! ```
#![tactic(auto)]

mod atom_places;
mod atoms;
mod builder;
mod byte_class;
mod gap;
pub mod laws;
mod layout;
mod lexer;
mod lines;
mod mark;
mod position;
mod reader;
mod refusal;
mod reserved;
mod span;
mod unfinished;

pub use atom_places::atom_spans;
pub use gap::gap_length;
pub use layout::tree_spans;
pub use lines::Lines;
pub use position::Position;
pub use reader::{MAX_DEPTH, Next, Reader, read_trees};
pub use smt_faults::TextFault;
pub use smt_trees::{OwnedTree, Tree, Trees, Word, spelling};
pub use span::{Span, bytes_at};
pub use unfinished::{OpenPlaces, open_places};
