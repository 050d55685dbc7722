//! Evaluation of trees. This file names no operator, and looks into no definition.

ghost use Rattle.std.specs.Prelude.{◌≡◌, [], IfOk, option_and_then, option_map};
ghost use Rattle.smt_trees.specs.Sexp.{Atom, Cons, Items, Reserved, Symbol};
ghost use Rattle.smt_trees.specs.View.{sexp_of, sexps_of};
ghost use Rattle.smt_trees.specs.declared.reserved.Word.TheVariants.{Let};
ghost use Rattle.smt_plain.specs.PlainTerm.{known_single, known_singles};
ghost use Rattle.smt_values.specs.ElementNumbers.{numbered_in};
ghost use Rattle.smt_arrays.specs.Element.{Plain as NoArray};
ghost use Rattle.smt_forms.specs.ElementNames.{qualified_symbol};
ghost use Rattle.smt_forms.specs.Identifier.{applied, indexed};
ghost use Rattle.smt_plain.specs.Internal.PlainEvaluation.{Gives, known_scope, meaning_of};
ghost use Rattle.smt_eval.specs.Known.{known_by, known_of, knowns_bound, knowns_of};

use crate::names::{Definitions, known_applied, known_named, known_of_indexed, named_element};
use crate::scope::push_variable;
use smt_faults::Memory;
use smt_forms::{
    Variable, applied_identifier, find_variable, indexed_identifier, split_let, split_named,
};
use smt_names::Names;
use smt_terms::TermFault;
use smt_trees::{Tree, Trees, Word};
use smt_values::{Value, bin, decimal, hex, numeral};

/// What is known of a term over the definitions that it sees. The variables have these values, the innermost
/// first.
#[cycle(known_plain)]
pub(crate) fn known_value<'a>(
    over: Definitions<'_>,
    scope: &[Variable<'a, Option<Value>>],
    term: Tree<'a>,
) -> Result<Option<Value>, Memory>
    ensures { Gives (known_of (meaning_of over.entry) (known_scope scope.now) (sexp_of term.entry)) result }
{
    match term {
        Tree::Symbol(name) => known_symbol(over, scope, name),
        Tree::Numeral(digits) => Ok(numeral(digits)),
        Tree::Decimal(digits) => Ok(decimal(digits)),
        Tree::Hex(digits) => Ok(hex(digits)),
        Tree::Bin(digits) => Ok(bin(digits)),
        Tree::List(parts) => known_list(over, scope, parts),
        Tree::Text(_) | Tree::Keyword(_) | Tree::Reserved(_) => Ok(None),
    }
}

// What is known of a symbol alone: a variable, or else a name or an operator without arguments.
#[cycle(known_plain)]
fn known_symbol(
    over: Definitions<'_>,
    scope: &[Variable<'_, Option<Value>>],
    name: &[u8],
) -> Result<Option<Value>, Memory>
    ensures { Gives (known_of (meaning_of over.entry) (known_scope scope.now) (Atom Symbol name.now)) result }
{
    match find_variable(scope, name) {
        Some(value) => Ok(value),
        None => known_named(over, name, &[]),
    }
}

// What is known of a term that is a list of these parts.
#[cycle(known_plain)]
fn known_list<'a>(
    over: Definitions<'_>,
    scope: &[Variable<'a, Option<Value>>],
    parts: Trees<'a>,
) -> Result<Option<Value>, Memory>
    ensures { Gives (known_of (meaning_of over.entry) (known_scope scope.now) (Items (sexps_of parts.entry))) result }
{
    let Some((head, args)) = parts.split_first() else {
        return Ok(None);
    };
    match head {
        Tree::Reserved(word) => known_reserved(over, scope, word, args),
        _ => known_call(over, scope, head, args),
    }
}

// What is known of a list that begins with a reserved word, by the parts after the word.
#[cycle(known_plain)]
fn known_reserved<'a>(
    over: Definitions<'_>,
    scope: &[Variable<'a, Option<Value>>],
    word: Word,
    args: Trees<'a>,
) -> Result<Option<Value>, Memory>
    ensures { Gives (known_of (meaning_of over.entry) (known_scope scope.now)
        (Items (Cons (Reserved word) (sexps_of args.entry)))) result }
{
    match word {
        Word::Underscore => known_indexed(over, args),
        Word::As => Ok(known_qualified(over.names, args)),
        Word::Let => known_let(over, scope, args),
        Word::Bang => match args.split_first() {
            Some((term, _)) => known_value(over, scope, term),
            None => Ok(None),
        },
        _ => Ok(None),
    }
}

// What is known of the element `(as symbol sort)`, by the parts after the `as`.
fn known_qualified(names: &Names, parts: Trees<'_>) -> Option<Value>
    ensures { known_single result
        ≡ option_map NoArray (option_and_then (numbered_in names.now) (qualified_symbol (sexps_of parts.entry))) }
{
    match parts.split_first() {
        Some((Tree::Symbol(name), _)) => named_element(names, name),
        _ => None,
    }
}

// What is known of the identifier `(_ symbol index ..)`, by the parts after the `_`.
fn known_indexed(over: Definitions<'_>, parts: Trees<'_>) -> Result<Option<Value>, Memory>
    ensures { Gives (known_by (indexed (sexps_of parts.entry)) (λ f. (meaning_of over.entry).gives f [])) result }
{
    match indexed_identifier(over.alloc, parts) {
        Ok(identifier) => Ok(known_of_indexed(identifier.operator(over.theories), &[])),
        Err(TermFault::Memory) => Err(Memory),
        Err(_) => Ok(None),
    }
}

// What is known of the term `(let (binding ..) body)`, by the parts after the `let`.
#[cycle(known_plain)]
fn known_let<'a>(
    over: Definitions<'_>,
    scope: &[Variable<'a, Option<Value>>],
    args: Trees<'a>,
) -> Result<Option<Value>, Memory>
    ensures { Gives (known_of (meaning_of over.entry) (known_scope scope.now)
        (Items (Cons (Reserved Let) (sexps_of args.entry)))) result }
{
    let Some((bindings, body)) = split_let(args) else {
        return Ok(None);
    };
    let mut variables = knowns_bound_by(over, scope, bindings)?;
    variables.extend_from_slice(scope)?;
    known_value(over, variables.as_slice(), body)
}

// The variables of bindings, with what is known of each. Each term is evaluated without these variables.
#[cycle(known_plain)]
fn knowns_bound_by<'a>(
    over: Definitions<'_>,
    scope: &[Variable<'a, Option<Value>>],
    bindings: Trees<'a>,
) -> Result<Vec<Variable<'a, Option<Value>>>, Memory>
    ensures { IfOk result (λ variables. known_scope variables.items
        ≡ knowns_bound (meaning_of over.entry) (known_scope scope.now) (sexps_of bindings.entry)) }
{
    let mut variables = Vec::new(over.alloc);
    let mut left = bindings;
    while let Some((name, term, rest)) = split_named(left) {
        let value = known_value(over, scope, term)?;
        push_variable(&mut variables, name, value)?;
        left = rest;
    }
    Ok(variables)
}

// What is known of a head applied to arguments. The head is no reserved word that begins a term.
#[cycle(known_plain)]
fn known_call<'a>(
    over: Definitions<'_>,
    scope: &[Variable<'a, Option<Value>>],
    head: Tree<'a>,
    args: Trees<'a>,
) -> Result<Option<Value>, Memory>
    ensures { Gives (known_by (applied (sexp_of head.entry) (sexps_of args.entry))
        (λ f. (meaning_of over.entry).gives f
        (knowns_of (meaning_of over.entry) (known_scope scope.now) (sexps_of args.entry)))) result }
{
    match applied_identifier(over.alloc, head, args) {
        Ok(identifier) => {
            let known = known_all(over, scope, args)?;
            known_applied(over, &identifier, known.as_slice())
        }
        Err(TermFault::Memory) => Err(Memory),
        Err(_) => Ok(None),
    }
}

// What is known of terms, in order.
#[cycle(known_plain)]
fn known_all<'a>(
    over: Definitions<'_>,
    scope: &[Variable<'a, Option<Value>>],
    terms: Trees<'a>,
) -> Result<Vec<Option<Value>>, Memory>
    ensures { IfOk result (λ known. known_singles known.items
        ≡ knowns_of (meaning_of over.entry) (known_scope scope.now) (sexps_of terms.entry)) }
{
    let mut known = Vec::with_capacity(over.alloc, terms.len())?;
    let mut left = terms;
    while let Some((term, rest)) = left.split_first() {
        known.push(known_value(over, scope, term)?)?;
        left = rest;
    }
    Ok(known)
}
