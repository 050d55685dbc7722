//! The shapes of the parts of commands: one symbol, a name and a sort, and so on. This file knows no command.

ghost use Rattle.std.specs.Prelude.{◌≡◌, Some, None, option_map, if◌then◌else◌};
ghost use Rattle.std.specs.Str.Parse.{digits_value};
ghost use Rattle.smt_trees.specs.View.{sexp_of, sexps_of};
ghost use Rattle.smt_forms.specs.Bindings.{named_trees};
ghost use Rattle.smt_script.specs.Command as commands;
ghost use Rattle.smt_script.specs.CommandView.{levels_in};
ghost use Rattle.smt_script.specs.Parts as shapes;

use smt_forms::are_named;
use smt_theory::number;
use smt_trees::{Tree, Trees};

pub(crate) fn one_symbol(parts: Trees<'_>) -> Option<&[u8]>
    ensures { option_map (λ x. x.now) result ≡ shapes.one_symbol (sexps_of parts.entry) }
{
    let Some((Tree::Symbol(name), parts)) = parts.split_first() else {
        return None;
    };
    only(name, parts)
}

// These bytes, where no part follows.
fn only<'a>(bytes: &'a [u8], parts: Trees<'_>) -> Option<&'a [u8]>
    ensures { option_map (λ x. x.now) result
        ≡ (if shapes.is_none (sexps_of parts.entry) then Some bytes.now else None) }
{
    if parts.split_first().is_none() {
        Some(bytes)
    } else {
        None
    }
}

/// The digits of one numeral.
pub(crate) fn one_numeral(parts: Trees<'_>) -> Option<&[u8]>
    ensures { option_map (λ digits. digits_value 10 digits.now) result ≡ shapes.one_numeral (sexps_of parts.entry) }
{
    let Some((Tree::Numeral(digits), parts)) = parts.split_first() else {
        return None;
    };
    only(digits, parts)
}

/// The digits of one numeral, or `Some(None)` where there is no part.
pub(crate) fn numeral_or_none(parts: Trees<'_>) -> Option<Option<&[u8]>>
    ensures { option_map (λ levels. levels_in (option_map (λ digits. digits.now) levels)) result
        ≡ shapes.numeral_or_one (sexps_of parts.entry) }
{
    match parts.split_first() {
        None => Some(None),
        Some((Tree::Numeral(digits), parts)) => Some(Some(only(digits, parts)?)),
        Some(_) => None,
    }
}

pub(crate) fn one_text(parts: Trees<'_>) -> Option<&[u8]>
    ensures { option_map (λ x. x.now) result ≡ shapes.one_text (sexps_of parts.entry) }
{
    let Some((Tree::Text(text), parts)) = parts.split_first() else {
        return None;
    };
    only(text, parts)
}

pub(crate) fn one_keyword(parts: Trees<'_>) -> Option<&[u8]>
    ensures { option_map (λ x. x.now) result ≡ shapes.one_keyword (sexps_of parts.entry) }
{
    let Some((Tree::Keyword(keyword), parts)) = parts.split_first() else {
        return None;
    };
    only(keyword, parts)
}

pub(crate) fn one_tree(parts: Trees<'_>) -> Option<Tree<'_>>
    ensures { option_map sexp_of result ≡ shapes.one_tree (sexps_of parts.entry) }
{
    let (tree, parts) = parts.split_first()?;
    if parts.split_first().is_none() {
        Some(tree)
    } else {
        None
    }
}

/// The trees of one list, which has at least one.
pub(crate) fn one_list(parts: Trees<'_>) -> Option<Trees<'_>>
    ensures { option_map sexps_of result ≡ shapes.one_list (sexps_of parts.entry) }
{
    let Some((Tree::List(trees), parts)) = parts.split_first() else {
        return None;
    };
    if parts.split_first().is_some() || trees.split_first().is_none() {
        return None;
    }
    Some(trees)
}

/// The literals of one list, which may be empty: each a symbol, or a list of the symbol `not` and a symbol.
pub(crate) fn one_list_of_literals(parts: Trees<'_>) -> Option<Trees<'_>>
    ensures { option_map sexps_of result ≡ shapes.one_list_of_literals (sexps_of parts.entry) }
{
    let Some((Tree::List(trees), parts)) = parts.split_first() else {
        return None;
    };
    if parts.split_first().is_some() || !are_literals(trees) {
        return None;
    }
    Some(trees)
}

/// The trees of one list, which may be empty.
pub(crate) fn any_list(parts: Trees<'_>) -> Option<Trees<'_>>
    ensures { option_map sexps_of result ≡ shapes.any_list (sexps_of parts.entry) }
{
    let Some((Tree::List(trees), parts)) = parts.split_first() else {
        return None;
    };
    if parts.split_first().is_none() {
        Some(trees)
    } else {
        None
    }
}

fn are_literals(trees: Trees<'_>) -> bool
    ensures { result ≡ shapes.are_literals (sexps_of trees.entry) }
{
    let mut left = trees;
    while let Some((first, rest)) = left.split_first() {
        if !is_literal(first) {
            return false;
        }
        left = rest;
    }
    true
}

fn is_literal(tree: Tree<'_>) -> bool
    ensures { result ≡ shapes.is_literal (sexp_of tree.entry) }
{
    match tree {
        Tree::Symbol(_) => true,
        Tree::List(parts) => is_negation(parts),
        _ => false,
    }
}

// Whether the trees are the symbol `not` and a symbol.
fn is_negation(parts: Trees<'_>) -> bool
    ensures { result ≡ shapes.is_negation (sexps_of parts.entry) }
{
    let Some((head, rest)) = parts.split_first() else {
        return false;
    };
    match rest.split_first() {
        Some((Tree::Symbol(_), rest)) => head.is_symbol(b"not") && rest.split_first().is_none(),
        _ => false,
    }
}

/// One tree, or none: `None` where there are more.
fn tree_or_none(parts: Trees<'_>) -> Option<Option<Tree<'_>>>
    ensures { option_map (option_map sexp_of) result ≡ shapes.tree_or_none (sexps_of parts.entry) }
{
    match parts.split_first() {
        None => Some(None),
        Some((tree, parts)) if parts.split_first().is_none() => Some(Some(tree)),
        Some(_) => None,
    }
}

pub(crate) fn keyword_and_value(parts: Trees<'_>) -> Option<(&[u8], Option<Tree<'_>>)>
    ensures { option_map (λ p. (p.0.now, option_map sexp_of p.1)) result
        ≡ shapes.keyword_and_value (sexps_of parts.entry) }
{
    let Some((Tree::Keyword(keyword), parts)) = parts.split_first() else {
        return None;
    };
    let value = tree_or_none(parts)?;
    Some((keyword, value))
}

pub(crate) fn name_and_sort(parts: Trees<'_>) -> Option<(&[u8], Tree<'_>)>
    ensures { option_map (λ p. (p.0.now, sexp_of p.1)) result ≡ shapes.name_and_sort (sexps_of parts.entry) }
{
    let Some((Tree::Symbol(name), parts)) = parts.split_first() else {
        return None;
    };
    let sort = one_tree(parts)?;
    Some((name, sort))
}

fn list_and_tree(parts: Trees<'_>) -> Option<(Trees<'_>, Tree<'_>)>
    ensures { option_map (λ p. (sexps_of p.0, sexp_of p.1)) result ≡ shapes.list_and_tree (sexps_of parts.entry) }
{
    let Some((Tree::List(trees), parts)) = parts.split_first() else {
        return None;
    };
    let tree = one_tree(parts)?;
    Some((trees, tree))
}

pub(crate) fn name_and_rank(parts: Trees<'_>) -> Option<(&[u8], Trees<'_>, Tree<'_>)>
    ensures { option_map (λ p. (p.0.now, (sexps_of p.1, sexp_of p.2))) result
        ≡ shapes.name_and_rank (sexps_of parts.entry) }
{
    let Some((Tree::Symbol(name), parts)) = parts.split_first() else {
        return None;
    };
    let (params, sort) = list_and_tree(parts)?;
    Some((name, params, sort))
}

fn two_trees(parts: Trees<'_>) -> Option<(Tree<'_>, Tree<'_>)>
    ensures { option_map (λ p. (sexp_of p.0, sexp_of p.1)) result ≡ shapes.two_trees (sexps_of parts.entry) }
{
    let (first, parts) = parts.split_first()?;
    let second = one_tree(parts)?;
    Some((first, second))
}

/// A name and two more trees.
pub(crate) fn name_and_two(parts: Trees<'_>) -> Option<(&[u8], Tree<'_>, Tree<'_>)>
    ensures { option_map (λ p. (p.0.now, (sexp_of p.1, sexp_of p.2))) result
        ≡ shapes.name_and_two (sexps_of parts.entry) }
{
    let Some((Tree::Symbol(name), parts)) = parts.split_first() else {
        return None;
    };
    let (first, second) = two_trees(parts)?;
    Some((name, first, second))
}

fn parameters_and_two(parts: Trees<'_>) -> Option<(Trees<'_>, Tree<'_>, Tree<'_>)>
    ensures { option_map (λ p. (named_trees (sexps_of p.0), (sexp_of p.1, sexp_of p.2))) result
        ≡ shapes.parameters_and_two (sexps_of parts.entry) }
{
    let Some((Tree::List(params), parts)) = parts.split_first() else {
        return None;
    };
    if !are_named(params) {
        return None;
    }
    let (sort, body) = two_trees(parts)?;
    Some((params, sort, body))
}

/// A name, its parameters, the tree of its sort, and its body.
pub(crate) fn name_and_definition(
    parts: Trees<'_>,
) -> Option<(&[u8], Trees<'_>, Tree<'_>, Tree<'_>)>
    ensures { option_map (λ p. (p.0.now, (named_trees (sexps_of p.1), (sexp_of p.2, sexp_of p.3)))) result
        ≡ shapes.name_and_definition (sexps_of parts.entry) }
{
    let Some((Tree::Symbol(name), parts)) = parts.split_first() else {
        return None;
    };
    let (params, sort, body) = parameters_and_two(parts)?;
    Some((name, params, sort, body))
}

fn no_list_and_tree(parts: Trees<'_>) -> Option<Tree<'_>>
    ensures { option_map sexp_of result ≡ shapes.no_list_and_tree (sexps_of parts.entry) }
{
    let Some((Tree::List(params), parts)) = parts.split_first() else {
        return None;
    };
    if params.split_first().is_some() {
        return None;
    }
    one_tree(parts)
}

/// A name without parameters, and the tree of the sort that it abbreviates.
pub(crate) fn name_and_abbreviated(parts: Trees<'_>) -> Option<(&[u8], Tree<'_>)>
    ensures { option_map (λ p. (p.0.now, sexp_of p.1)) result ≡ shapes.name_and_abbreviated (sexps_of parts.entry) }
{
    let Some((Tree::Symbol(name), parts)) = parts.split_first() else {
        return None;
    };
    let sort = no_list_and_tree(parts)?;
    Some((name, sort))
}

/// A name, and 0 for no parameters.
pub(crate) fn name_and_zero(parts: Trees<'_>) -> Option<&[u8]>
    ensures { option_map (λ name. name.now) result ≡ shapes.name_and_zero (sexps_of parts.entry) }
{
    let Some((Tree::Symbol(name), rest)) = parts.split_first() else {
        return None;
    };
    zero_alone(rest).then_some(name)
}

fn zero_alone(parts: Trees<'_>) -> bool
    ensures { result ≡ shapes.zero_alone (sexps_of parts.entry) }
{
    match one_numeral(parts) {
        Some(digits) => number(10, digits) == Some(0),
        None => false,
    }
}

/// The truth value that the value of an option is; `None` where it is no truth value.
pub(crate) fn truth_of_value(value: Option<Tree<'_>>) -> Option<bool>
    ensures { result ≡ shapes.truth_of_value (option_map sexp_of value.entry) }
{
    match value {
        Some(tree) if tree.is_symbol(b"true") => Some(true),
        Some(tree) if tree.is_symbol(b"false") => Some(false),
        _ => None,
    }
}

/// Whether these parts of a `define-sort` are in form, whatever trees its parameters are.
pub(crate) fn is_abbreviation(parts: Trees<'_>) -> bool
    ensures { result ≡ commands.is_abbreviation (sexps_of parts.entry) }
{
    let Some((Tree::Symbol(_), rest)) = parts.split_first() else {
        return false;
    };
    let Some((Tree::List(_), rest)) = rest.split_first() else {
        return false;
    };
    let Some((_, rest)) = rest.split_first() else {
        return false;
    };
    rest.split_first().is_none()
}

pub(crate) fn is_global_declarations(keyword: &[u8]) -> bool
    ensures { result ≡ commands.is_global_declarations keyword.now }
{
    keyword == b"global-declarations".as_slice()
}
