//! The parts of an item of a model. This file knows no names, and does not say what an item may define.

ghost use Rattle.std.specs.Prelude.{◌≡◌, MatchOption, MatchResult};
ghost use Rattle.smt_trees.specs.Sexp.{Cons, Items, Nil, Reserved};
ghost use Rattle.smt_trees.specs.View.{sexp_of, sexps_of};
ghost use Rattle.smt_trees.specs.declared.reserved.Word.TheVariants.{DefineFun};
ghost use Rattle.smt_forms.specs.ItemView.{item_view};
ghost use Rattle.smt_forms.specs.ItemForm as items;
ghost use Rattle.smt_faults.specs.declared.term_flaw.TermFlaw.TheVariants.{Form};

use crate::bindings::are_named;
use smt_faults::TermFlaw;
use smt_trees::{Tree, Trees, Word};

/// The parts of an item (SMT-LIB 2.6, section 4.2.6). They are its name without bars; its parameters, each a
/// list of a symbol and the tree of a sort; the tree of its sort; and its body.
#[derive(Clone, Copy)]
pub struct ItemForm<'a> {
    pub name: &'a [u8],
    pub parameters: Trees<'a>,
    pub sort: Tree<'a>,
    pub body: Tree<'a>,
}

/// The parts of an item, or what is wrong with its form: `Unsupported` for a recursive definition, else
/// `Form`.
pub fn item_form(item: Tree<'_>) -> Result<ItemForm<'_>, TermFlaw>
    ensures { MatchResult result (λ form. items.item_form (sexp_of item.entry) ≡ Ok (item_view form))
        (λ flaw. items.item_form (sexp_of item.entry) ≡ Err flaw) }
{
    let Tree::List(parts) = item else {
        return Err(TermFlaw::Form);
    };
    let Some((Tree::Reserved(word), rest)) = parts.split_first() else {
        return Err(TermFlaw::Form);
    };
    match word {
        Word::DefineFunRec | Word::DefineFunsRec => Err(TermFlaw::Unsupported),
        Word::DefineFun => match definition_form(rest) {
            Some(form) => Ok(form),
            None => Err(TermFlaw::Form),
        },
        _ => Err(TermFlaw::Form),
    }
}

// The parts of a definition, by the trees after its first word.
fn definition_form(parts: Trees<'_>) -> Option<ItemForm<'_>>
    ensures { MatchOption result
        (items.item_form (Items (Cons (Reserved DefineFun) (sexps_of parts.entry))) ≡ Err Form)
        (λ form. items.item_form (Items (Cons (Reserved DefineFun) (sexps_of parts.entry)))
        ≡ Ok (item_view form)) }
{
    let Some((Tree::Symbol(name), rest)) = parts.split_first() else {
        return None;
    };
    let Some((Tree::List(parameters), rest)) = rest.split_first() else {
        return None;
    };
    let Some((sort, rest)) = rest.split_first() else {
        return None;
    };
    let Some((body, rest)) = rest.split_first() else {
        return None;
    };
    if rest.split_first().is_some() || !are_named(parameters) {
        return None;
    }
    Some(ItemForm {
        name: name,
        parameters: parameters,
        sort,
        body,
    })
}
