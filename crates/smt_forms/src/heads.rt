//! What a list is, by its head. This file looks at the first tree of a list alone.

ghost use Rattle.std.specs.Prelude.{◌≡◌};
ghost use Rattle.smt_trees.specs.View.{sexp_of};
ghost use Rattle.smt_forms.specs.Heads.{begins_annotated, begins_indexed, begins_let, begins_qualified};

use smt_trees::{Tree, Word};

/// Whether a list with this head is an identifier with indexes (SMT-LIB 2.6, section 3.3).
pub fn is_underscore(head: Tree<'_>) -> bool
    ensures { result ≡ begins_indexed (sexp_of head.entry) }
{
    matches!(head, Tree::Reserved(Word::Underscore))
}

/// Whether a list with this head is an identifier with its sort (SMT-LIB 2.6, section 3.6).
pub fn is_as(head: Tree<'_>) -> bool
    ensures { result ≡ begins_qualified (sexp_of head.entry) }
{
    matches!(head, Tree::Reserved(Word::As))
}

/// Whether a list with this head is a `let` (SMT-LIB 2.6, section 3.6.1).
pub fn is_let(head: Tree<'_>) -> bool
    ensures { result ≡ begins_let (sexp_of head.entry) }
{
    matches!(head, Tree::Reserved(Word::Let))
}

/// Whether a list with this head is an annotated term (SMT-LIB 2.6, section 3.6.5).
pub fn is_bang(head: Tree<'_>) -> bool
    ensures { result ≡ begins_annotated (sexp_of head.entry) }
{
    matches!(head, Tree::Reserved(Word::Bang))
}
