//! The trees in fields; profiles and logics; and the results of declarations, definitions and assertions. This file
//! knows no kind of row.

ghost use Rattle.smt_eval.specs.Interpretation.{HoldsScript};

use anyhow::{Result, bail};
use row_texts::Field;
use smt_faults::{TermFault, TermFlaw, TextFault};
use smt_forms::{are_named, params_of};
use smt_terms::Library;
use smt_text::read_trees;
use smt_theory::{Profile, Theories, all_theories, theories_of};
use smt_trees::{OwnedTree, Tape, Tree, Trees};
use std::alloc::{AllocError, Global};
use std::io::Write;

/// The trees in a field, as the parts of a list.
pub(crate) fn list_of(alloc: Global, field: &Field) -> Result<OwnedTree> {
    let Ok(list) = listed(alloc, trees_of(alloc, field)?.as_slice()) else {
        bail!("out of memory");
    };
    Ok(list)
}

/// Copies of trees, as the parts of a list.
pub(crate) fn listed(alloc: Global, trees: &[OwnedTree]) -> Result<OwnedTree, AllocError> {
    let mut list = Tape::new(alloc);
    list.begin_list()?;
    for tree in trees {
        list.add_tree(tree.view())?;
    }
    list.take(alloc)
}

/// The parts of a list; none where a tree is no list.
pub(crate) fn parts(tree: &OwnedTree) -> Trees<'_> {
    match tree.view() {
        Tree::List(parts) => parts,
        _ => Trees::empty(),
    }
}

/// The trees in a field.
pub(crate) fn trees_of(alloc: Global, field: &Field) -> Result<Vec<OwnedTree>> {
    let bytes = field.bytes(alloc)?;
    match read_trees(alloc, bytes.as_slice()) {
        Ok(trees) => Ok(trees),
        Err(TextFault::Memory) => bail!("out of memory"),
        Err(_) => bail!("line {}: this is no text of the language", field.line),
    }
}

/// The one tree in a field; any other number of trees is an error.
pub(crate) fn tree_of(alloc: Global, field: &Field) -> Result<OwnedTree> {
    match trees_of(alloc, field)?.as_slice() {
        [tree] => Ok(tree.copy(alloc)?),
        _ => bail!("line {}: this is not one S-expression", field.line),
    }
}

/// The parts of the list that a tree in a field is; any other tree is an error.
pub(crate) fn parts_of<'a>(field: &Field, tree: &'a OwnedTree) -> Result<Trees<'a>> {
    match tree.view() {
        Tree::List(parts) => Ok(parts),
        _ => bail!("line {}: this is no list", field.line),
    }
}

/// The theories of the profile and the logic that the first fields name, and the fields after these. Without a
/// profile it is `base`; without a logic there are all theories.
pub(crate) fn split_logic<'a, 'b>(
    alloc: Global,
    fields: &'b [Field<'a>],
) -> Result<(Theories, &'b [Field<'a>])> {
    let (profile, fields) = split_profile(alloc, fields)?;
    match fields.split_first() {
        Some((first, rest)) if first.key == "logic" => {
            match theories_of(profile, first.bytes(alloc)?.as_slice()) {
                Some(theories) => Ok((theories, rest)),
                None => bail!("line {}: this is no logic", first.line),
            }
        }
        _ => Ok((all_theories(profile), fields)),
    }
}

/// The profile that the first field names, and the fields after it. Without one it is `base`.
pub(crate) fn split_profile<'a, 'b>(
    alloc: Global,
    fields: &'b [Field<'a>],
) -> Result<(Profile, &'b [Field<'a>])> {
    match fields.split_first() {
        Some((first, rest)) if first.key == "profile" => match first.bytes(alloc)?.as_slice() {
            b"base" => Ok((Profile::Base, rest)),
            b"wide" => Ok((Profile::Wide, rest)),
            _ => bail!("line {}: this is no profile", first.line),
        },
        _ => Ok((Profile::Base, fields)),
    }
}

/// Declares the name in a field by the command of this number, and prints the result. After the name the field has
/// the sort, or a list of the parameters' sorts and the sort of the result.
pub(crate) fn declare<W: Write>(
    alloc: Global,
    out: &mut W,
    library: &mut Library<'_>,
    command: u64,
    field: &Field,
) -> Result<()>
    ensures { HoldsScript library.old → HoldsScript library.new }
{
    let list = list_of(alloc, field)?;
    let Some((name, params, sort)) = declaration(parts(&list)) else {
        bail!(
            "line {}: a declaration is a symbol, sorts in a list and a sort",
            field.line
        );
    };
    let answer = library.declare(command, name, params, sort);
    print_answer(out, field, "declared", answer.err())
}

// The name, the sorts of the parameters and the sort of the result that these trees declare.
fn declaration(trees: Trees<'_>) -> Option<(&[u8], Trees<'_>, Tree<'_>)> {
    let Some((Tree::Symbol(name), rest)) = trees.split_first() else {
        return None;
    };
    let Some((first, rest)) = rest.split_first() else {
        return None;
    };
    let Some((second, rest)) = rest.split_first() else {
        return Some((name, Trees::empty(), first));
    };
    match first {
        Tree::List(params) if rest.split_first().is_none() => Some((name, params, second)),
        _ => None,
    }
}

/// Defines the name in a field, and prints the result. After the name the field has the parameters, the sort and
/// the body.
pub(crate) fn define<W: Write>(
    alloc: Global,
    out: &mut W,
    library: &mut Library<'_>,
    field: &Field,
) -> Result<()>
    ensures { HoldsScript library.old → HoldsScript library.new }
{
    let list = list_of(alloc, field)?;
    let Some((name, params, sort, body)) = definition(parts(&list)) else {
        bail!(
            "line {}: a definition is a symbol, parameters in a list, a sort and a body",
            field.line
        );
    };
    if !are_named(params) {
        bail!(
            "line {}: a parameter is a list of a symbol and a sort",
            field.line
        );
    }
    let Ok(params) = params_of(alloc, params) else {
        bail!("out of memory");
    };
    let answer = library.define(name, params.as_slice(), sort, body);
    print_answer(out, field, "defined", answer.err())
}

// The name, the parameters, the sort and the body that these trees define.
fn definition(trees: Trees<'_>) -> Option<(&[u8], Trees<'_>, Tree<'_>, Tree<'_>)> {
    let Some((Tree::Symbol(name), rest)) = trees.split_first() else {
        return None;
    };
    let Some((Tree::List(params), rest)) = rest.split_first() else {
        return None;
    };
    let Some((sort, rest)) = rest.split_first() else {
        return None;
    };
    match rest.split_first() {
        Some((body, rest)) if rest.split_first().is_none() => Some((name, params, sort, body)),
        _ => None,
    }
}

/// Asserts the term in a field, and prints the result.
pub(crate) fn assert<W: Write>(
    alloc: Global,
    out: &mut W,
    library: &mut Library<'_>,
    field: &Field,
) -> Result<()>
    ensures { HoldsScript library.old → HoldsScript library.new }
{
    let term = tree_of(alloc, field)?;
    print_answer(out, field, "asserted", library.assert(term.view()).err())
}

/// Prints the flaw of what a field holds; without a fault, what was done with it.
pub(crate) fn print_answer<W: Write>(
    out: &mut W,
    field: &Field,
    done: &str,
    fault: Option<TermFault>,
) -> Result<()> {
    match fault {
        None => writeln!(out, "{} => {done}", field.text)?,
        Some(fault) => {
            let flaw = flaw_of(fault)?;
            writeln!(out, "{} => {flaw}", field.text)?;
        }
    }
    Ok(())
}

/// The flaw that a fault reports, of a term, a sort or a definition. Refused memory is an error, which ends the
/// program.
pub(crate) fn flaw_of(fault: TermFault) -> Result<TermFlaw> {
    match fault.flaw() {
        Some(flaw) => Ok(flaw),
        None => bail!("out of memory"),
    }
}
