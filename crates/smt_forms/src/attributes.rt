//! The attributes of annotated terms, labels among them. This file knows no names, and does not say whether a
//! label may be given.

ghost use Rattle.std.specs.Prelude.{◌≡◌, ◌≤◌, ◌∷◌, [], false, None, MatchOption};
ghost use Rattle.smt_trees.specs.Sexp.{Atom, Cons, Keyword, weight_all};
ghost use Rattle.smt_trees.specs.View.{sexp_of, sexps_of};
ghost use Rattle.smt_forms.specs.Bindings as bindings;
ghost use Rattle.smt_forms.specs.Bindings.{is_symbol_tree, go_on_behind};
ghost use Rattle.smt_forms.specs.Internal.Attributes.{first_keyword, has_value, is_keyword_tree};
ghost use Rattle.smt_forms.specs.Internal.Attributes.{is_label_tree};
ghost use Rattle.smt_forms.specs.Labels.{label_of_tree};

use smt_trees::{Tree, Trees};

/// Whether these trees are the attributes of a term, of which there is at least one (SMT-LIB 2.6, section
/// 3.6.5).
pub fn are_attributes(trees: Trees<'_>) -> bool
    ensures { result ≡ bindings.are_attributes (sexps_of trees.entry) }
{
    trees.split_first().is_some() && go_on(trees)
}

// Whether all of these trees are attributes: keywords, each with a value or without one.
fn go_on(trees: Trees<'_>) -> bool
    ensures { result ≡ bindings.go_on (sexps_of trees.entry) }
{
    let mut left = trees;
    while let Some((keyword, rest)) = split_keyword(left) {
        let Some(behind) = behind_attribute(keyword, rest) else {
            return false;
        };
        left = behind;
    }
    left.split_first().is_none()
}

// The trees after an attribute of this keyword, by the trees after the keyword; `None` where a label has no
// symbol.
fn behind_attribute<'a>(keyword: &[u8], trees: Trees<'a>) -> Option<Trees<'a>>
    ensures answer { MatchOption result (go_on_behind keyword.now (sexps_of trees.entry) ≡ false)
        (λ left. go_on_behind keyword.now (sexps_of trees.entry) ≡ bindings.go_on (sexps_of left)) }
    ensures lighter { MatchOption result (Unit {0})
        (λ left. weight_all (sexps_of left) ≤ weight_all (sexps_of trees.entry)) }
{
    match split_value(trees) {
        Some((value, rest)) => {
            if is_label(keyword) && !is_symbol(value) {
                return None;
            }
            Some(rest)
        }
        None => {
            if is_label(keyword) {
                return None;
            }
            Some(trees)
        }
    }
}

// The first of these trees if it is a keyword, and the trees after it.
fn split_keyword(trees: Trees<'_>) -> Option<(&[u8], Trees<'_>)>
    ensures { MatchOption result (first_keyword (sexps_of trees.entry) ≡ None)
        (λ p. sexps_of trees.entry ≡ Cons (Atom Keyword p.0.now) (sexps_of p.1)) }
{
    let Some((Tree::Keyword(keyword), rest)) = trees.split_first() else {
        return None;
    };
    Some((keyword, rest))
}

// The first of these trees if it is no keyword, and the trees after it.
fn split_value(trees: Trees<'_>) -> Option<(Tree<'_>, Trees<'_>)>
    ensures { MatchOption result (has_value (sexps_of trees.entry) ≡ false)
        (λ p. (is_keyword_tree (sexp_of p.0) ≡ false)
        × (sexps_of trees.entry ≡ Cons (sexp_of p.0) (sexps_of p.1))) }
{
    let Some((value, rest)) = trees.split_first() else {
        return None;
    };
    if is_keyword(value) {
        return None;
    }
    Some((value, rest))
}

/// The label that an attribute gives, if it is a label, by its first tree and the trees after it (SMT-LIB
/// 2.6, section 3.6.5).
pub fn label_at<'a>(tree: Tree<'_>, rest: Trees<'a>) -> Option<&'a [u8]>
    ensures { MatchOption result (label_of_tree (sexp_of tree.entry) (sexps_of rest.entry) ≡ [])
        (λ name. label_of_tree (sexp_of tree.entry) (sexps_of rest.entry) ≡ name.now ∷ []) }
{
    if !is_label_word(tree) {
        return None;
    }
    match rest.split_first() {
        Some((Tree::Symbol(name), _)) => Some(name),
        _ => None,
    }
}

fn is_label_word(tree: Tree<'_>) -> bool
    ensures { result ≡ is_label_tree (sexp_of tree.entry) }
{
    match tree {
        Tree::Keyword(keyword) => is_label(keyword),
        _ => false,
    }
}

fn is_label(keyword: &[u8]) -> bool
    ensures { result ≡ bindings.is_label keyword.now }
{
    keyword == b"named".as_slice()
}

fn is_keyword(tree: Tree<'_>) -> bool
    ensures { result ≡ is_keyword_tree (sexp_of tree.entry) }
{
    matches!(tree, Tree::Keyword(_))
}

fn is_symbol(tree: Tree<'_>) -> bool
    ensures { result ≡ is_symbol_tree (sexp_of tree.entry) }
{
    matches!(tree, Tree::Symbol(_))
}
