//! Parts of terms that are to blame, where the walk over a term stopped at a fault. This file finds no fault.

ghost use Rattle.std.specs.Prelude.{◌≡◌, IfOk, IfSome, Some, option_map};
ghost use Rattle.smt_theory.specs.declared.misfits.RankFlaw.TheVariants.{Widths};
ghost use Rattle.smt_trees.specs.Sexp.{Cons, Reserved, Sexp, Sexps};
ghost use Rattle.smt_trees.specs.declared.reserved.Word.TheVariants.{Underscore};
ghost use Rattle.smt_trees.specs.View.{sexp_of, sexps_of};
ghost use Rattle.smt_forms.specs.Identifier.{Plain};
ghost use Rattle.smt_forms.specs.IdentifierView.{identifier_view};
ghost use Rattle.smt_terms.specs.Blame as blame;
ghost use Rattle.smt_terms.specs.Blame.{IsAlone, IsIdentifier};
ghost use Rattle.smt_terms.specs.declared.blame.Blame.TheVariants.{Arity};
ghost use Rattle.smt_terms.specs.Internal.Blamed.{IsApplied, IsMisfitOf, IsTold};
ghost use Rattle.smt_terms.specs.Internal.LibraryView.{names_of_library};

use crate::blame::Blame;
use crate::labels::Label;
use crate::library::Library;
use crate::library::arguments::Arguments;
use crate::library::checker::is_variable;
use crate::library::draft::Draft;
use crate::sorts::{SortNames, are_equal};
use smt_faults::{Memory, TermFault};
use smt_forms::{
    Identifier, applied_identifier, indexed_identifier, label_at, split_let, split_named,
};
use smt_theory::{Op, OpFault, RankFlaw, Sort, Wanted, misfit, op_of};
use smt_trees::{Tree, Trees, Word};

impl Library<'_> {
    // What is to blame where the walk stopped in this part; so many arguments wait of the parts around it.
    pub(super) fn blame_of_part<'t>(
        &self,
        draft: &Draft<'t>,
        part: Tree<'t>,
        around: usize,
    ) -> Result<Option<Blame<'t>>, Memory>
        ensures { IfOk result (IsTold self.now) }
    {
        let Tree::List(parts) = part else {
            return self.blame_of_atom(part);
        };
        match parts.split_first() {
            Some((Tree::Reserved(Word::Underscore), _)) => self.blame_of_atom(part),
            Some((Tree::Reserved(word), args)) => self.blame_of_form(draft, word, args, around),
            _ => self.blame_of_list(draft, parts, around),
        }
    }

    // The same of a list that begins with a reserved word, by the trees after it.
    fn blame_of_form<'t>(
        &self,
        draft: &Draft<'_>,
        word: Word,
        args: Trees<'t>,
        around: usize,
    ) -> Result<Option<Blame<'t>>, Memory>
        ensures { IfOk result (IsTold self.now) }
    {
        match word {
            Word::Let => self.blame_of_let(draft, args, around),
            Word::Bang => Ok(self.blame_of_label(draft, args)),
            Word::As => Ok(self.blame_of_qualified(args)),
            _ => Ok(None),
        }
    }

    // The same where the part is no list, or an identifier with indexes.
    pub(super) fn blame_of_atom<'t>(&self, part: Tree<'t>) -> Result<Option<Blame<'t>>, Memory>
        ensures { IfOk result (IsTold self.now) }
    {
        match part {
            Tree::Symbol(name) => self.blame_of_alone(part, &Identifier::Plain(name)),
            Tree::List(parts) => self.blame_of_indexed(parts),
            _ => Ok(self.blame_of_literal(part)),
        }
    }

    // The same of an identifier with indexes, by the parts of its list.
    fn blame_of_indexed<'t>(&self, parts: Trees<'t>) -> Result<Option<Blame<'t>>, Memory>
        ensures { IfOk result (IsTold self.now) }
    {
        match parts.split_first() {
            Some((Tree::Reserved(Word::Underscore), args)) => self.blame_behind(parts, args),
            _ => Ok(None),
        }
    }

    // The same, where these trees stand behind the `_`.
    fn blame_behind<'t>(
        &self,
        parts: Trees<'t>,
        args: Trees<'t>,
    ) -> Result<Option<Blame<'t>>, Memory>
        requires { sexps_of parts ≡ Cons (Reserved Underscore) (sexps_of args) }
        ensures { IfOk result (IsTold self.now) }
    {
        match indexed_identifier(self.alloc, args) {
            Ok(identifier) => self.blame_of_alone(Tree::List(parts), &identifier),
            Err(TermFault::Memory) => Err(Memory),
            Err(_) => Ok(None),
        }
    }

    // The same of an identifier that is alone and no variable: it is unknown, or takes arguments.
    fn blame_of_alone<'t>(
        &self,
        part: Tree<'t>,
        identifier: &Identifier<'t>,
    ) -> Result<Option<Blame<'t>>, Memory>
        requires { IsAlone (sexp_of part) (identifier_view identifier.now) }
        ensures { IfOk result (IsTold self.now) }
    {
        match self.call_flaw(identifier, &[])? {
            Some(RankFlaw::Count { wanted }) => Ok(other_count(part, 0, wanted)),
            _ => Ok(self.blame_of_identifier(part, identifier)),
        }
    }

    // ---- applications

    // The same of an application of these parts: its first argument that is not checked, or the application where all
    // are.
    fn blame_of_list<'t>(
        &self,
        draft: &Draft<'_>,
        parts: Trees<'t>,
        around: usize,
    ) -> Result<Option<Blame<'t>>, Memory>
        ensures { IfOk result (IsTold self.now) }
    {
        let Some((_, args)) = parts.split_first() else {
            return Ok(None);
        };
        match tree_at(args, draft.arguments.len().saturating_sub(around)) {
            Some(argument) => self.blame_of_atom(argument),
            None => self.blame_of_application(draft, parts, around),
        }
    }

    // The same of an application of these parts, whose arguments are all checked and wait from this one on.
    fn blame_of_application<'t>(
        &self,
        draft: &Draft<'_>,
        parts: Trees<'t>,
        start: usize,
    ) -> Result<Option<Blame<'t>>, Memory>
        ensures { IfOk result (IsTold self.now) }
    {
        let Some((head, args)) = parts.split_first() else {
            return Ok(None);
        };
        match applied_identifier(self.alloc, head, args) {
            Ok(identifier) => self.blame_of_call(draft, parts, head, &identifier, start),
            Err(TermFault::Memory) => Err(Memory),
            Err(_) => Ok(None),
        }
    }

    // The same of such an application of an identifier, by its head.
    fn blame_of_call<'t>(
        &self,
        draft: &Draft<'_>,
        parts: Trees<'t>,
        head: Tree<'t>,
        identifier: &Identifier<'t>,
        start: usize,
    ) -> Result<Option<Blame<'t>>, Memory>
        requires call { IsApplied (sexps_of parts) (identifier_view identifier.now) }
        requires head { IsIdentifier (sexp_of head) (identifier_view identifier.now) }
        ensures { IfOk result (IsTold self.now) }
    {
        if is_variable(&draft.scope, identifier) {
            return Ok(Some(Blame::Variable {
                part: Tree::List(parts),
            }));
        }
        let sorts = sorts_waiting(&draft.arguments, start);
        match self.call_flaw(identifier, sorts)? {
            Some(flaw) => self.blame_of_flaw(parts, identifier, sorts, flaw),
            None => Ok(self.blame_of_head(head, identifier)),
        }
    }

    // The same of the head of an application that accepts its arguments, if it is known: it is unknown, or is `const`
    // with an unknown sort.
    fn blame_of_head<'t>(&self, head: Tree<'t>, identifier: &Identifier<'t>) -> Option<Blame<'t>>
        requires { IsIdentifier (sexp_of head) (identifier_view identifier.now) }
        ensures { IsTold self.now result }
    {
        match identifier {
            Identifier::Qualified(sort) => self.blame_of_sort(*sort),
            _ => self.blame_of_identifier(head, identifier),
        }
    }

    // The same of an application to arguments of these sorts, which have this flaw.
    fn blame_of_flaw<'t>(
        &self,
        parts: Trees<'t>,
        identifier: &Identifier<'t>,
        sorts: &[Sort],
        flaw: RankFlaw,
    ) -> Result<Option<Blame<'t>>, Memory>
        requires call { IsApplied (sexps_of parts) (identifier_view identifier.now) }
        requires flaw { blame.call_flaw (names_of_library self.now) (identifier_view identifier.now) sorts.now
            ≡ Some flaw }
        ensures { IfOk result (IsTold self.now) }
    {
        match flaw {
            RankFlaw::Argument { place, wanted } => Ok(misfit_at(parts, sorts, place, wanted)),
            RankFlaw::Count { wanted } => Ok(other_count(Tree::List(parts), sorts.len(), wanted)),
            RankFlaw::Widths => self.blame_of_widths(parts, identifier, sorts),
        }
    }

    // The same where the widths do not fit.
    fn blame_of_widths<'t>(
        &self,
        parts: Trees<'t>,
        identifier: &Identifier<'t>,
        sorts: &[Sort],
    ) -> Result<Option<Blame<'t>>, Memory>
        requires call { IsApplied (sexps_of parts) (identifier_view identifier.now) }
        requires flaw { blame.call_flaw (names_of_library self.now) (identifier_view identifier.now) sorts.now
            ≡ Some Widths }
        ensures { IfOk result (IsTold self.now) }
    {
        let found = Vec::from_slice(self.alloc, sorts)?;
        Ok(Some(Blame::Sorts {
            part: Tree::List(parts),
            found,
        }))
    }

    // Why an identifier that is no variable does not take arguments of these sorts.
    fn call_flaw(
        &self,
        identifier: &Identifier<'_>,
        sorts: &[Sort],
    ) -> Result<Option<RankFlaw>, Memory>
        ensures { IfOk result (λ flaw. flaw
            ≡ blame.call_flaw (names_of_library self.now) (identifier_view identifier.now) sorts.now) }
    {
        match identifier {
            Identifier::Plain(name) => Ok(self.plain_flaw(*name, sorts)),
            Identifier::Indexed { name, indexes } => {
                let op = op_of(self.sorts.theories, *name, indexes.as_slice());
                Ok(operator_flaw(op, sorts))
            }
            Identifier::Qualified(sort) => match self.constant_op(*sort) {
                Ok(op) => Ok(misfit(op, sorts)),
                Err(TermFault::Memory) => Err(Memory),
                Err(_) => Ok(None),
            },
        }
    }

    // The same of a symbol.
    fn plain_flaw(&self, name: &[u8], sorts: &[Sort]) -> Option<RankFlaw>
        ensures { result ≡ blame.call_flaw (names_of_library self.now) (Plain name.now) sorts.now }
    {
        match self.get(name) {
            Some(entry) => parameter_flaw(entry.parameters.as_slice(), sorts),
            None => operator_flaw(op_of(self.sorts.theories, name, &[]), sorts),
        }
    }

    // ---- other lists

    // The same of a `let`, by the trees after its word: a name that an earlier binding has, or the term of a binding.
    fn blame_of_let<'t>(
        &self,
        draft: &Draft<'_>,
        args: Trees<'t>,
        around: usize,
    ) -> Result<Option<Blame<'t>>, Memory>
        ensures { IfOk result (IsTold self.now) }
    {
        let Some((bindings, _)) = split_let(args) else {
            return Ok(None);
        };
        self.blame_of_binding(bindings, draft.arguments.len().saturating_sub(around))
    }

    // The same of bindings, of which so many are checked.
    fn blame_of_binding<'t>(
        &self,
        bindings: Trees<'t>,
        checked: usize,
    ) -> Result<Option<Blame<'t>>, Memory>
        ensures { IfOk result (IsTold self.now) }
    {
        let Some((name, term)) = binding_at(bindings, checked) else {
            return Ok(None);
        };
        if is_bound_before(bindings, checked, name) {
            Ok(Some(Blame::Twice { name }))
        } else {
            self.blame_of_atom(term)
        }
    }

    // The same of an annotated term, by the trees after the `!`: its first label that is not given.
    fn blame_of_label<'t>(&self, draft: &Draft<'_>, args: Trees<'t>) -> Option<Blame<'t>>
        ensures { IsTold self.now result }
    {
        let Some((_, attributes)) = args.split_first() else {
            return None;
        };
        let Some(name) = label_behind(attributes, self.labels_of_last(draft)) else {
            return None;
        };
        if draft.labels.is_given(name) {
            Some(Blame::Label { name })
        } else {
            self.blame_of_name(name)
        }
    }

    // How many labels the last node has: they are the last ones.
    fn labels_of_last(&self, draft: &Draft<'_>) -> usize {
        let rows = self.nodes.len().saturating_add(draft.nodes.len());
        count_of(draft.labels.given.as_slice(), rows)
    }

    // The same of `(as symbol sort)`, by the parts after the `as`: a symbol that is in use, or the sort.
    fn blame_of_qualified<'t>(&self, args: Trees<'t>) -> Option<Blame<'t>>
        ensures { IsTold self.now result }
    {
        let Some(elements) = &self.elements else {
            return None;
        };
        let Some((Tree::Symbol(symbol), rest)) = args.split_first() else {
            return None;
        };
        if elements.is_taken(symbol) || self.has_entry(symbol) {
            self.blame_of_name(symbol)
        } else {
            self.blame_of_first_sort(&elements.sorts, rest)
        }
    }

    // The same of the first of these trees, if it is none of these sorts.
    fn blame_of_first_sort<'t>(&self, sorts: &SortNames, trees: Trees<'t>) -> Option<Blame<'t>>
        ensures { IsTold self.now result }
    {
        let Some((tree, _)) = trees.split_first() else {
            return None;
        };
        if sorts.sort_of(self.alloc, tree).is_ok() {
            None
        } else {
            self.blame_of_sort(tree)
        }
    }
}

// ---- sorts

fn operator_flaw(op: Result<Op, OpFault>, sorts: &[Sort]) -> Option<RankFlaw>
    ensures { result ≡ blame.operator_flaw op sorts.now }
{
    match op {
        Ok(op) => misfit(op, sorts),
        Err(_) => None,
    }
}

// Why parameters of these sorts do not take arguments of others.
pub(super) fn parameter_flaw(parameters: &[Sort], sorts: &[Sort]) -> Option<RankFlaw>
    ensures { result ≡ blame.parameter_flaw parameters.now sorts.now }
{
    let wanted = parameters.len();
    if sorts.len() != wanted {
        return Some(RankFlaw::Count { wanted });
    }
    match other_place(parameters, sorts) {
        Some(place) => other_argument(parameters, place),
        None => None,
    }
}

fn other_place(parameters: &[Sort], sorts: &[Sort]) -> Option<usize>
    ensures { result ≡ blame.other_place parameters.now sorts.now }
{
    parameters
        .iter()
        .zip(sorts.iter())
        .position(|(a, b)| !are_equal(*a, *b))
}

fn other_argument(parameters: &[Sort], place: usize) -> Option<RankFlaw>
    ensures { result ≡ blame.other_argument parameters.now place }
{
    match parameters.get(place) {
        Some(sort) => Some(RankFlaw::Argument {
            place,
            wanted: Wanted::Only(*sort),
        }),
        None => None,
    }
}

// The blame of the argument at a place, from 0, of an application of these parts to arguments of these sorts.
fn misfit_at<'t>(
    parts: Trees<'t>,
    sorts: &[Sort],
    place: usize,
    wanted: Wanted,
) -> Option<Blame<'t>>
    ensures { IfSome result (IsMisfitOf (sexps_of parts.entry) sorts.now place wanted) }
{
    let Some(argument) = argument_at(parts, place) else {
        return None;
    };
    let Some(found) = sorts.get(place) else {
        return None;
    };
    let Some(number) = (place as u64).checked_add(1) else {
        return None;
    };
    Some(Blame::Misfit {
        part: Tree::List(parts),
        place: number,
        argument,
        found: *found,
        wanted,
    })
}

// The argument at a place, from 0, of an application of these parts.
fn argument_at<'t>(parts: Trees<'t>, place: usize) -> Option<Tree<'t>>
    ensures { IfSome result (λ argument. (head : Sexp) × (args : Sexps) × (sexps_of parts.entry ≡ Cons head args)
        × (blame.tree_at args place ≡ Some (sexp_of argument))) }
{
    let Some((_, args)) = parts.split_first() else {
        return None;
    };
    tree_at(args, place)
}

// The blame of a part whose head takes another number of arguments.
fn other_count<'t>(part: Tree<'t>, given: usize, wanted: usize) -> Option<Blame<'t>>
    ensures { result ≡ Some (Arity part.entry given wanted) }
{
    Some(Blame::Arity {
        part,
        given: given as u64,
        wanted: wanted as u64,
    })
}

// The sorts of the arguments that wait from this one on.
fn sorts_waiting(arguments: &Arguments, start: usize) -> &[Sort] {
    arguments.sorts(start.min(arguments.len()))
}

// ---- places

// The tree at a place, from 0.
fn tree_at<'t>(trees: Trees<'t>, place: usize) -> Option<Tree<'t>>
    ensures { option_map sexp_of result ≡ blame.tree_at (sexps_of trees.entry) place }
{
    let mut left = trees;
    let mut before = place;
    while let Some((tree, rest)) = left.split_first() {
        if before == 0 {
            return Some(tree);
        }
        before -= 1;
        left = rest;
    }
    None
}

// The name and the term of the binding at a place, from 0.
fn binding_at<'t>(bindings: Trees<'t>, place: usize) -> Option<(&'t [u8], Tree<'t>)> {
    let mut left = bindings;
    let mut before = place;
    while let Some((name, term, rest)) = split_named(left) {
        if before == 0 {
            return Some((name, term));
        }
        before -= 1;
        left = rest;
    }
    None
}

// Whether one of the first bindings, so many, has this name.
fn is_bound_before(bindings: Trees<'_>, count: usize, name: &[u8]) -> bool {
    let mut left = bindings;
    let mut before = count;
    while let Some((earlier, _, rest)) = split_named(left) {
        if before == 0 {
            return false;
        }
        if earlier == name {
            return true;
        }
        before -= 1;
        left = rest;
    }
    false
}

// How many of these labels are those of the last of so many nodes.
fn count_of(labels: &[Label<'_>], rows: usize) -> usize {
    let mut count = 0usize;
    for label in labels {
        if label.node.number().saturating_add(1) == rows {
            count = count.saturating_add(1);
        }
    }
    count
}

// The label among attributes that comes behind so many others.
fn label_behind<'t>(attributes: Trees<'t>, count: usize) -> Option<&'t [u8]> {
    let mut left = attributes;
    let mut before = count;
    while let Some((tree, rest)) = left.split_first() {
        if let Some(name) = label_at(tree, rest) {
            if before == 0 {
                return Some(name);
            }
            before -= 1;
        }
        left = rest;
    }
    None
}
