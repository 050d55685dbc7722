//! Lists of a symbol and a tree, as bindings and parameters are, and the parts of a `let`. This file reads no
//! term: the tree after a symbol is any tree.

ghost use Rattle.std.specs.Prelude.{◌≡◌, ◌+◌, ◌<◌, ℕ, None, IfSome, MatchOption};
ghost use Rattle.smt_trees.specs.Places.{IsListIn, LiesIn, size_of, size_of_list};
ghost use Rattle.smt_trees.specs.Sexp.{Atom, Cons, Items, Nil, Sexp, Symbol};
ghost use Rattle.smt_trees.specs.View.{sexp_of, sexps_of};
ghost use Rattle.smt_trees.specs.declared.view.Trees.{Trees};
ghost use Rattle.smt_forms.specs.Bindings as bindings;
ghost use Rattle.smt_forms.specs.Bindings.{first_named, let_form};

use smt_trees::{Tree, Trees};

/// The symbol and the tree that the first of these trees lists, and the trees after it. The symbol is without
/// bars.
///
/// The list is a binding with its term, or a parameter with the tree of its sort. `None` where the first tree
/// is no such list, or there is none.
pub fn split_named(trees: Trees<'_>) -> Option<(&[u8], Tree<'_>, Trees<'_>)>
    ensures { MatchOption result (first_named (sexps_of trees.entry) ≡ None)
        (λ p. sexps_of trees.entry
        ≡ Cons (Items (Cons (Atom Symbol p.0.now) (Cons (sexp_of p.1) Nil))) (sexps_of p.2)) }
{
    split_named_placed(trees)
}

/// The same, and where they lie: the trees after the list end where all of them end, and the parts of the tree in the
/// list, if that is a list too, end where the trees after it begin.
pub fn split_named_placed(trees: Trees<'_>) -> Option<(&[u8], Tree<'_>, Trees<'_>)>
    ensures trees { MatchOption result (first_named (sexps_of trees.entry) ≡ None)
        (λ p. sexps_of trees.entry
        ≡ Cons (Items (Cons (Atom Symbol p.0.now) (Cons (sexp_of p.1) Nil))) (sexps_of p.2)) }
    ensures places { IfSome result (λ p. (whole : Trees) (to : ℕ) → LiesIn whole trees.entry to
        → LiesIn whole p.2 to × IsListIn whole p.1 (size_of p.2 + to)) }
    ensures sizes { IfSome result (λ p. size_of_list p.1 + size_of p.2 < size_of trees.entry) }
{
    let Some((Tree::List(parts), rest)) = trees.split_placed() else {
        return None;
    };
    let Some((Tree::Symbol(name), behind)) = parts.split_placed() else {
        return None;
    };
    let Some((tree, tail)) = behind.split_placed() else {
        return None;
    };
    match tail.split_placed() {
        None => Some((name, tree, rest)),
        Some(_) => None,
    }
}

/// Whether each of these trees is a list of a symbol and one more tree.
pub fn are_named(trees: Trees<'_>) -> bool
    ensures { result ≡ bindings.are_named_trees (sexps_of trees.entry) }
{
    let mut left = trees;
    while let Some((_, _, rest)) = split_named(left) {
        left = rest;
    }
    left.split_first().is_none()
}

/// The bindings and the body of a `let`, by the trees after its word; `None` where these are not a list and
/// one more tree (SMT-LIB 2.6, section 3.6.1).
pub fn split_let(args: Trees<'_>) -> Option<(Trees<'_>, Tree<'_>)>
    ensures { MatchOption result (let_form (sexps_of args.entry) ≡ None)
        (λ p. sexps_of args.entry ≡ Cons (Items (sexps_of p.0)) (Cons (sexp_of p.1) Nil)) }
{
    let Some((Tree::List(parts), rest)) = args.split_first() else {
        return None;
    };
    let Some((body, rest)) = rest.split_first() else {
        return None;
    };
    if rest.split_first().is_some() {
        return None;
    }
    Some((parts, body))
}

/// The bindings of a `let` and the trees that are its body alone, as `split_let` finds them; and where they lie: the
/// body ends where the trees after the word end, and the bindings end where the body begins.
pub fn split_let_placed(args: Trees<'_>) -> Option<(Trees<'_>, Trees<'_>)>
    ensures trees { MatchOption result (let_form (sexps_of args.entry) ≡ None)
        (λ p. (body : Sexp) × (sexps_of p.1 ≡ Cons body Nil)
        × (sexps_of args.entry ≡ Cons (Items (sexps_of p.0)) (Cons body Nil))) }
    ensures places { IfSome result (λ p. (whole : Trees) (to : ℕ) → LiesIn whole args.entry to
        → LiesIn whole p.0 (size_of p.1 + to) × LiesIn whole p.1 to) }
    ensures sizes { IfSome result (λ p. size_of p.0 + size_of p.1 < size_of args.entry) }
{
    let Some((Tree::List(parts), body)) = args.split_placed() else {
        return None;
    };
    let Some((_, behind)) = body.split_placed() else {
        return None;
    };
    match behind.split_placed() {
        None => Some((parts, body)),
        Some(_) => None,
    }
}
