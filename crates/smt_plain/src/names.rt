//! What names mean: operators, and definitions, whose bodies see their parameters and the definitions before
//! them. This file looks into no term.

ghost use Rattle.std.specs.Prelude.{◌≡◌, ◌≤◌, ◌+◌, [], MatchOption, IfSome, List, Option, option_map, ℕ};
ghost use Rattle.smt_trees.specs.Sexp.{weight};
ghost use Rattle.smt_trees.specs.View.{sexp_of};
ghost use Rattle.smt_theory.specs.Index.{IndexView};
ghost use Rattle.smt_arrays.specs.Element.{Element, Plain as NoArray};
ghost use Rattle.smt_values.specs.ElementNumbers.{numbered_in};
ghost use Rattle.smt_values.specs.Element.{Naming};
ghost use Rattle.smt_forms.specs.Identifier.{Indexed, Plain};
ghost use Rattle.smt_forms.specs.IdentifierView.{identifier_view};
ghost use Rattle.smt_plain.specs.Internal.PlainEvaluation.{Gives, bodies_weight, meaning_of};
ghost use Rattle.smt_eval.specs.Known.{KnownMeaning, known_after, known_defined, known_of_op, other_known};
ghost use Rattle.smt_plain.specs.PlainTerm.{entries_of, known_single, known_singles, origin_of, unless_array};

use crate::closed::Definition;
use crate::evaluator::known_value;
use crate::scope::bind;
use smt_faults::Memory;
use smt_forms::{Identifier, sort_of_element};
use smt_names::Names;
use smt_theory::{Op, OpFault, Theories, op_of};
use smt_values::{Value, apply, element};
use std::alloc::Global;

/// The definitions that a term sees, in order, and the theories.
#[derive(Clone, Copy)]
pub(crate) struct Definitions<'a> {
    pub(crate) alloc: Global,
    pub(crate) theories: Theories,
    pub(crate) seen: &'a [Definition<'a>],
    /// The names of elements of declared sorts; an element with none of these names is open.
    pub(crate) names: &'a Names,
}

/// What is known of an identifier applied to arguments.
#[cycle(known_plain)]
pub(crate) fn known_applied(
    over: Definitions<'_>,
    identifier: &Identifier<'_>,
    args: &[Option<Value>],
) -> Result<Option<Value>, Memory>
    ensures { Gives ((meaning_of over.entry).gives (identifier_view identifier.now) (known_singles args.now)) result }
{
    match identifier {
        Identifier::Plain(name) => known_named(over, *name, args),
        Identifier::Indexed { name, indexes } => Ok(known_of_indexed(
            op_of(over.theories, *name, indexes.as_slice()),
            args,
        )),
        Identifier::Qualified(_) => Ok(None),
    }
}

/// What is known of a symbol that is no variable, applied to arguments: what its definition gives, or else
/// what the operator of that name gives, or else without arguments the element of that form.
#[cycle(known_plain)]
pub(crate) fn known_named(
    over: Definitions<'_>,
    name: &[u8],
    args: &[Option<Value>],
) -> Result<Option<Value>, Memory>
    ensures { Gives ((meaning_of over.entry).gives (Plain name.now) (known_singles args.now)) result }
{
    match last_named(over.seen, name) {
        Some((definition, seen)) => {
            let earlier = Definitions {
                alloc: over.alloc,
                theories: over.theories,
                seen,
                names: over.names,
            };
            known_body(earlier, definition, args)
        }
        None => Ok(known_of_plain(over.names, op_of(over.theories, name, &[]), name, args)),
    }
}

// What the body of a definition gives for arguments, over the definitions before it.
#[cycle(known_plain)]
fn known_body(
    earlier: Definitions<'_>,
    definition: &Definition<'_>,
    args: &[Option<Value>],
) -> Result<Option<Value>, Memory>
    ensures { Gives (known_defined (meaning_of earlier.entry) (origin_of definition.now)
        (known_singles args.now)) result }
{
    let variables = bind(earlier.alloc, definition.params, args)?;
    known_value(earlier, variables.as_slice(), definition.body)
}

/// The last definition of a name, with the definitions before it.
pub(crate) fn last_named<'a>(
    definitions: &'a [Definition<'a>],
    name: &[u8],
) -> Option<(&'a Definition<'a>, &'a [Definition<'a>])>
    ensures means { (m : KnownMeaning) (args : List (Option Element)) → MatchOption result
        ((known_after m (entries_of definitions.now)).gives (Plain name.now) args ≡ m.gives (Plain name.now) args)
        (λ found. (known_after m (entries_of definitions.now)).gives (Plain name.now) args
        ≡ known_defined (known_after m (entries_of found.1.now)) (origin_of found.0.now) args) }
    ensures lighter { IfSome result (λ found. bodies_weight found.1.now + weight (sexp_of found.0.now.body)
        ≤ bodies_weight definitions.now) }
{
    let mut count = definitions.len();
    while count > 0 {
        count -= 1;
        let last = &definitions[count];
        if name == last.name {
            return Some((last, &definitions[..count]));
        }
    }
    None
}

/// What an operator gives for arguments; `None` where the identifier, which has indexes, is no operator's.
pub(crate) fn known_of_indexed(op: Result<Op, OpFault>, args: &[Option<Value>]) -> Option<Value>
    ensures { (element : Naming) (name : List ℕ) (indexes : List IndexView)
        → known_single result ≡ unless_array (known_of_op element op (Indexed name indexes) (known_singles args.now)) }
{
    match op {
        Ok(op) => apply(op, args),
        Err(_) => None,
    }
}

// What the operator of a symbol gives for arguments; where it is none, the element of that form, which takes no
// arguments.
fn known_of_plain(
    names: &Names,
    op: Result<Op, OpFault>,
    name: &[u8],
    args: &[Option<Value>],
) -> Option<Value>
    ensures { known_single result
        ≡ unless_array (known_of_op (numbered_in names.now) op (Plain name.now) (known_singles args.now)) }
{
    match op {
        Ok(op) => apply(op, args),
        Err(_) if args.is_empty() => known_element_of(names, name),
        Err(_) => None,
    }
}

/// The element of a name, by its number among the names; `None` where it is none of them.
pub(crate) fn named_element(names: &Names, name: &[u8]) -> Option<Value>
    ensures { known_single result ≡ option_map NoArray (numbered_in names.now name.now) }
{
    match names.find(name) {
        Some(number) => Some(element(number)),
        None => None,
    }
}

// The element of a symbol, if it has the form of one.
fn known_element_of(names: &Names, symbol: &[u8]) -> Option<Value>
    ensures { known_single result ≡ other_known (numbered_in names.now) (Plain symbol.now) [] }
{
    match sort_of_element(symbol) {
        Some(_) => named_element(names, symbol),
        None => None,
    }
}
