//! The trees of a list one after another, and all trees in one. This file knows no term.

ghost use Rattle.std.specs.Iterator.{at_most};

use smt_trees::{Tree, Trees};

/// The trees of a list, each with its place, from 0, and the trees after it.
#[derive(Drop)]
pub struct Listed<'a> {
    trees: Trees<'a>,
    place: usize,
}

/// The trees, each with its place, from 0, and the trees after it.
pub fn each<'a>(trees: Trees<'a>) -> Listed<'a> {
    Listed { trees, place: 0 }
}

impl<'a> Iterator for Listed<'a> {
    ghost use Rattle.smt_trees.specs.Sexp.{count};
    ghost use Rattle.smt_trees.specs.View.{sexps_of};

    type Item = (usize, Tree<'a>, Trees<'a>);

    ghost remaining = { λ s. at_most (count (sexps_of s.trees)) };

    fn next(&mut self) -> Option<(usize, Tree<'a>, Trees<'a>)> {
        let (tree, rest) = self.trees.split_first()?;
        let place = self.place;
        self.trees = rest;
        self.place = place.saturating_add(1);
        Some((place, tree, rest))
    }
}

/// The tree that begins at a place among these trees and those in them, and the trees after it up to the end. A place
/// is the number of trees from it to the end, those in others among them; all lie from 1 to `size`.
pub(crate) fn tree_from<'a>(trees: Trees<'a>, place: usize) -> Option<(Tree<'a>, Trees<'a>)> {
    trees.between(place, 0).split_first()
}
