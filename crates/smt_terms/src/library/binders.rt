//! The sorts and the nodes of terms that bind variables, and of annotated terms, whose labels the draft keeps. This
//! file adds no name to a library.

ghost use Rattle.std.specs.Prelude.{◌≡◌, ◌<◌, ◌≤◌, ◌+◌, ◌*◌, ◌++◌, ◌∷◌, ℕ, List, [], true, false, length, map};
ghost use Rattle.std.specs.Prelude.{IfOk, IfSome, MatchOption, MatchResult, None, OnOk, reverse};
ghost use Rattle.smt_trees.specs.Places.{LiesIn, size_of};
ghost use Rattle.smt_trees.specs.Sexp.{Atom, Cons, Items, Nil, Reserved, Sexp, Sexps, Symbol};
ghost use Rattle.smt_trees.specs.View.{sexp_of, sexps_of};
ghost use Rattle.smt_trees.specs.declared.reserved.Word.TheVariants.{Bang, Let};
ghost use Rattle.smt_forms.specs.Bindings as forms;
ghost use Rattle.smt_forms.specs.NamesIn.{names_in};
ghost use Rattle.smt_forms.specs.Variables.{is_among};
ghost use Rattle.std.specs.Prelude.{if◌then◌else◌, not};
ghost use Rattle.smt_forms.specs.Labels.{label_of_tree, labels_among};
ghost use Rattle.smt_forms.specs.ScopeView.{scope_view};
ghost use Rattle.smt_theory.specs.Sort.{Sort};
ghost use Rattle.smt_terms.specs.Internal.Calls.{IsSortedUnlessOpen, TellsOfLabel, TellsOfLabels, has_labels};
ghost use Rattle.smt_terms.specs.Internal.DraftView.{IsPlaced, argument_sorts, placed_from, seen_by, sorts_from};
ghost use Rattle.smt_terms.specs.Internal.Frames as frames;
ghost use Rattle.smt_terms.specs.Internal.Frames.{AreNested, Begun, BodyWaits, Chain, HasFault, IsBinding, IsDone};
ghost use Rattle.smt_terms.specs.Internal.Frames.{IsCheckedNext, IsDoneNext, IsLess, IsLet, IsNested, IsNext};
ghost use Rattle.smt_terms.specs.Internal.Frames.{LabelledWaits, LetSoFar, begun, distinct_from, place_behind};
ghost use Rattle.smt_terms.specs.Internal.Frames.{first_name, variables_of, work};
ghost use Rattle.smt_terms.specs.Internal.LabelsView.{AreGiven, labels_view};
ghost use Rattle.smt_terms.specs.Internal.LibraryView.{names_for, names_of_library};
ghost use Rattle.smt_terms.specs.Denotes.{Denotes, Table};
ghost use Rattle.smt_terms.specs.Internal.NodesView.{GrowsTo, nodes_given};
ghost use Rattle.smt_terms.specs.declared.library.frames.Next.TheVariants.{Enter};
ghost use Rattle.smt_terms.specs.Internal.TableView.{AreNamed};
ghost use Rattle.smt_terms.specs.declared.labels.Label.{Label};

use crate::labels::Labels;
use crate::library::Library;
use crate::library::draft::{CheckedTerm, Draft};
use crate::library::frames::{Binder, Body, Frame, Labelled, Next, Part, narrow, place_before};
use crate::library::scope::push_variable;
use smt_faults::{Memory, TermFault};
use smt_forms::{
    NameSet, Variable, are_attributes, label_at, split_let_placed, split_named, split_named_placed,
};
use smt_nodes::Node;
use smt_theory::Sort;
use smt_trees::{Tree, Trees};
use std::alloc::Global;

impl Library<'_> {
    // Begins the check of a `let`, by the trees after its word (SMT-LIB 2.6, section 3.6.1).
    pub(super) fn enter_let<'a>(
        &self,
        draft: &mut Draft<'a>,
        frames: &mut Vec<Frame>,
        whole: Trees<'a>,
        args: Trees<'a>,
        part: Part,
    ) -> Result<Next, TermFault>
        requires { IsPlaced (seen_by draft.old) draft.old.base }
        ensures next { (first : Begun) → LiesIn whole.entry args.entry part.to
            → Chain self.now whole.entry (reverse frames.old.items) first
            (begun (Items (Cons (Reserved Let) (sexps_of args.entry))) part.around draft.old)
            → MatchResult result (IsNext self.now whole.entry (reverse frames.new.items) first draft.new)
            (HasFault self.now first) }
        ensures less { IsNested (reverse frames.old.items) (Enter part) → size_of args.entry + part.to < part.from
            → IfOk result (IsLess (reverse frames.new.items) (work (reverse frames.old.items) (Enter part))) }
        ensures longer { GrowsTo draft.old draft.new }
    {
        let Some((bindings, bodies)) = split_let_placed(args) else {
            return Err(TermFault::Form);
        };
        let Some(distinct) = distinct_bindings(self.alloc, bindings)? else {
            return Err(TermFault::Form);
        };
        let body = place_before(bodies.size(), part.to)?;
        let binder = Binder {
            bindings: place_before(bindings.size(), body)?,
            body,
            end: part.to,
            start: narrow(draft.arguments.len())?,
            around: part.around,
        };
        self.check_bindings(draft, frames, whole, binder, bindings, distinct, false)
    }

    // Checks the terms of the bindings that are left of a `let` up to one that is a list, or begins the check of the
    // body where there is none. Of the names that are left only so many are distinct from the names before them.
    pub(super) fn check_bindings<'a>(
        &self,
        draft: &mut Draft<'a>,
        frames: &mut Vec<Frame>,
        whole: Trees<'a>,
        binder: Binder,
        left: Trees<'a>,
        distinct: u32,
        is_open: bool,
    ) -> Result<Next, TermFault>
        requires placed { IsPlaced (seen_by draft.old) draft.old.base }
        requires start { binder.start ≤ length (argument_sorts draft.old.arguments) }
        ensures next { (first outer : Begun) → IsPlaced (seen_by outer.draft) outer.draft.base
            → IsBinding self.now whole.entry binder left.entry distinct is_open outer draft.old
            → Chain self.now whole.entry (reverse frames.old.items) first outer
            → MatchResult result (IsNext self.now whole.entry (reverse frames.new.items) first draft.new)
            (HasFault self.now first) }
        ensures less { AreNested (reverse frames.old.items)
            → place_behind (reverse frames.old.items) ≤ binder.end → binder.end ≤ binder.body
            → IfOk result (IsLess (reverse frames.new.items)
            (3 * (size_of left.entry + binder.body) + 2 + 2 * length (reverse frames.old.items))) }
        ensures longer { GrowsTo draft.old draft.new }
    {
        let mut is_open = is_open;
        let mut distinct = distinct;
        let mut left = left;
        while let Some((_, term, rest)) = split_named_placed(left) {
            if distinct == 0 {
                return Err(TermFault::BoundTwice);
            }
            distinct -= 1;
            match self.begin(draft, term, rest.size(), binder.body, 0)? {
                Next::Checked(checked) => {
                    draft.arguments.push(checked.sort, checked.node)?;
                    is_open |= checked.is_open;
                    left = rest;
                }
                Next::Enter(part) => {
                    frames.push(Frame::Binding {
                        binder,
                        left: part.to,
                        distinct,
                        is_open,
                    })?;
                    return Ok(Next::Enter(part));
                }
            }
        }
        self.begin_body(draft, frames, whole, binder, is_open)
    }

    // Begins the check of the body of a `let` whose bindings are checked. Its variables come before those around it.
    fn begin_body<'a>(
        &self,
        draft: &mut Draft<'a>,
        frames: &mut Vec<Frame>,
        whole: Trees<'a>,
        binder: Binder,
        is_open: bool,
    ) -> Result<Next, TermFault>
        requires placed { IsPlaced (seen_by draft.old) draft.old.base }
        requires start { binder.start ≤ length (argument_sorts draft.old.arguments) }
        ensures next { (first outer : Begun) (bindings : Sexps) (body : Sexp) (bound : List (List ℕ × Sort))
            → IsPlaced (seen_by outer.draft) outer.draft.base
            → IsLet whole.entry binder outer bindings body
            → LetSoFar self.now outer.draft draft.old bindings Nil bound is_open
            → Chain self.now whole.entry (reverse frames.old.items) first outer
            → MatchResult result (IsNext self.now whole.entry (reverse frames.new.items) first draft.new)
            (HasFault self.now first) }
        ensures less { AreNested (reverse frames.old.items)
            → place_behind (reverse frames.old.items) ≤ binder.end → binder.end ≤ binder.body
            → IfOk result (IsLess (reverse frames.new.items)
            (3 * binder.body + 2 + 2 * length (reverse frames.old.items))) }
        ensures longer { GrowsTo draft.old draft.new }
    {
        let body = Body {
            start: binder.start,
            around: binder.around,
            outer: narrow(draft.scope.len())?,
        };
        let bindings = whole.between(binder.bindings as usize, binder.body as usize);
        self.bind_all(draft, bindings, binder.start as usize)?;
        frames.push(Frame::Body { body, is_open })?;
        let bodies = whole.between(binder.body as usize, binder.end as usize);
        let Some((term, rest)) = bodies.split_placed() else {
            return Err(TermFault::Form);
        };
        self.begin(draft, term, rest.size(), binder.end, 0)
    }

    // Binds the variables of bindings, whose terms are the arguments from this one on.
    fn bind_all<'a>(
        &self,
        draft: &mut Draft<'a>,
        bindings: Trees<'a>,
        start: usize,
    ) -> Result<(), Memory>
        requires { start ≤ length (argument_sorts draft.old.arguments) }
        ensures bound { OnOk result (seen_by draft.new ≡ placed_from (length (seen_by draft.old))
            (variables_of (sexps_of bindings.entry) (sorts_from start draft.old.arguments)) ++ seen_by draft.old) }
        ensures base { draft.new.base ≡ draft.old.base }
        ensures labels { draft.new.labels ≡ draft.old.labels }
        ensures nodes { draft.new.nodes ≡ draft.old.nodes }
        ensures arguments { draft.new.arguments ≡ draft.old.arguments }
    {
        if let Some((name, sort)) = only_variable(bindings, draft.arguments.sorts(start)) {
            let place = draft.scope.len();
            return draft.put(name, sort, place);
        }
        let variables = variables_of(self.alloc, bindings, draft.arguments.sorts(start))?;
        draft.bind(variables.as_slice())
    }

    // The sort and the node of a `let` whose body is checked.
    pub(super) fn end_let(
        &self,
        draft: &mut Draft<'_>,
        body: Body,
        is_open: bool,
        checked: CheckedTerm,
    ) -> Result<Next, TermFault>
        requires { body.start ≤ length (argument_sorts draft.old.arguments) }
        ensures done { (outer inner : Begun) → IsPlaced (seen_by outer.draft) outer.draft.base
            → BodyWaits self.now body is_open outer inner → IsDone self.now inner draft.old checked
            → MatchResult result (IsDoneNext self.now outer draft.new) (HasFault self.now outer) }
        ensures checked { IfOk result IsCheckedNext }
        ensures longer { GrowsTo draft.old draft.new }
    {
        draft.scope.cut(body.outer as usize);
        let start = body.start as usize;
        let checked = draft.push_let(&self.nodes, start, checked, is_open, body.around)?;
        draft.arguments.truncate(start);
        Ok(Next::Checked(checked))
    }

    // Begins the check of an annotated term, by the trees after the `!` (SMT-LIB 2.6, section 3.6.5). Unless the
    // annotation has a label, the node is that of the term in it, with one more annotation around it. With one, the
    // term may use no variable bound outside it.
    pub(super) fn enter_annotated<'a>(
        &self,
        draft: &mut Draft<'a>,
        frames: &mut Vec<Frame>,
        args: Trees<'a>,
        part: Part,
    ) -> Result<Next, TermFault>
        requires { IsPlaced (seen_by draft.old) draft.old.base }
        ensures next { (whole : Trees) (first : Begun) → LiesIn whole args.entry part.to
            → Chain self.now whole (reverse frames.old.items) first
            (begun (Items (Cons (Reserved Bang) (sexps_of args.entry))) part.around draft.old)
            → MatchResult result (IsNext self.now whole (reverse frames.new.items) first draft.new)
            (HasFault self.now first) }
        ensures less { IsNested (reverse frames.old.items) (Enter part) → size_of args.entry + part.to < part.from
            → IfOk result (IsLess (reverse frames.new.items) (work (reverse frames.old.items) (Enter part))) }
        ensures longer { GrowsTo draft.old draft.new }
    {
        let Some((term, attributes)) = args.split_placed() else {
            return Err(TermFault::Form);
        };
        if !are_attributes(attributes) {
            return Err(TermFault::Form);
        }
        if !has_label(attributes) {
            let Some(around) = part.around.checked_add(1) else {
                return Err(TermFault::Memory);
            };
            return self.begin(draft, term, attributes.size(), part.to, around);
        }
        let parts = place_before(args.size(), part.to)?;
        frames.push(Frame::Labelled(Labelled {
            parts,
            end: part.to,
            around: part.around,
            base: narrow(draft.base)?,
        }))?;
        draft.base = draft.scope.len();
        self.begin(draft, term, attributes.size(), part.to, 0)
    }

    // The sort and the node of a term with a label, by the check of the term in it. Its node is the name that the first
    // label gives to it.
    pub(super) fn end_labelled<'a>(
        &self,
        draft: &mut Draft<'a>,
        whole: Trees<'a>,
        labelled: Labelled,
        checked: CheckedTerm,
    ) -> Result<Next, TermFault>
        requires { (term : Sexp) × (attributes : Sexps)
            × frames.Lie whole labelled.parts labelled.end (Cons term attributes)
            × IsSortedUnlessOpen self.now checked term }
        ensures done { (outer inner : Begun) → IsPlaced (seen_by outer.draft) outer.draft.base
            → LabelledWaits whole.entry labelled outer inner → IsDone self.now inner draft.old checked
            → MatchResult result (IsDoneNext self.now outer draft.new) (HasFault self.now outer) }
        ensures checked { IfOk result IsCheckedNext }
        ensures longer { GrowsTo draft.old draft.new }
    {
        let args = whole.between(labelled.parts as usize, labelled.end as usize);
        let Some((term, attributes)) = args.split_first() else {
            return Err(TermFault::Form);
        };
        let place = self.bodies.len() + draft.labels.given.len();
        self.give_labels(&mut draft.labels, term, &checked, attributes)?;
        draft.base = labelled.base as usize;
        let node = Node::Defined { place, args: &[] };
        let named = draft.push(&self.nodes, &node, &checked.sort, false, labelled.around)?;
        Ok(Next::Checked(named))
    }

    // Gives the labels among attributes to a checked term, in order, or returns their first fault.
    fn give_labels<'a>(
        &self,
        labels: &mut Labels<'a>,
        term: Tree<'a>,
        checked: &CheckedTerm,
        attributes: Trees<'a>,
    ) -> Result<(), TermFault>
        requires { IsSortedUnlessOpen self.now checked.now (sexp_of term) }
        ensures fault { TellsOfLabels (names_for self.now (labels_view labels.old)) checked.now.is_open
            (sexp_of term.entry) (labels_among (sexps_of attributes.entry)) result }
        ensures labels { OnOk result
            (AreGiven (names_of_library self.now) labels.old labels.new
            (map (λ x. (x, sexp_of term.entry)) (labels_among (sexps_of attributes.entry)))) }
        ensures nodes { OnOk result (nodes_given labels.new ≡ nodes_given labels.old
            ++ map (λ x. checked.now.node) (labels_among (sexps_of attributes.entry))) }
        ensures longer { (more : List Label) × (labels.new.given.items ≡ labels.old.given.items ++ more) }
        ensures named { OnOk result ((t : Table) → AreNamed t labels.old.given.items
            → Denotes t [] 0 0 checked.now.node (sexp_of term.entry) → AreNamed t labels.new.given.items) }
    {
        let mut left = attributes;
        while let Some((tree, rest)) = left.split_first() {
            self.give_label_at(labels, term, checked, tree, rest)?;
            left = rest;
        }
        Ok(())
    }

    // Gives a checked term the label that a tree and the trees after it make, if they make one. Returns the fault of
    // the label.
    fn give_label_at<'a>(
        &self,
        labels: &mut Labels<'a>,
        term: Tree<'a>,
        checked: &CheckedTerm,
        tree: Tree<'a>,
        rest: Trees<'a>,
    ) -> Result<(), TermFault>
        requires { IsSortedUnlessOpen self.now checked.now (sexp_of term) }
        ensures fault { TellsOfLabels (names_for self.now (labels_view labels.old)) checked.now.is_open
            (sexp_of term.entry) (label_of_tree (sexp_of tree.entry) (sexps_of rest.entry)) result }
        ensures labels { OnOk result
            (AreGiven (names_of_library self.now) labels.old labels.new
            (map (λ x. (x, sexp_of term.entry)) (label_of_tree (sexp_of tree.entry) (sexps_of rest.entry)))) }
        ensures nodes { OnOk result (nodes_given labels.new ≡ nodes_given labels.old
            ++ map (λ x. checked.now.node) (label_of_tree (sexp_of tree.entry) (sexps_of rest.entry))) }
        ensures longer { (more : List Label) × (labels.new.given.items ≡ labels.old.given.items ++ more) }
        ensures named { OnOk result ((t : Table) → AreNamed t labels.old.given.items
            → Denotes t [] 0 0 checked.now.node (sexp_of term.entry) → AreNamed t labels.new.given.items) }
    {
        match label_at(tree, rest) {
            Some(name) => self.give_label(labels, term, checked, name),
            None => Ok(()),
        }
    }

    // Gives a label to a checked term, or returns the fault of the label.
    fn give_label<'a>(
        &self,
        labels: &mut Labels<'a>,
        term: Tree<'a>,
        checked: &CheckedTerm,
        name: &'a [u8],
    ) -> Result<(), TermFault>
        requires { IsSortedUnlessOpen self.now checked.now (sexp_of term) }
        ensures fault { TellsOfLabel (names_for self.now (labels_view labels.old)) (labels_view labels.old)
            checked.now.is_open (sexp_of term.entry) name.now result }
        ensures labels { OnOk result
            (AreGiven (names_of_library self.now) labels.old labels.new ((name.now, sexp_of term.entry) ∷ [])) }
        ensures nodes { OnOk result (nodes_given labels.new ≡ nodes_given labels.old
            ++ map (λ x. checked.now.node) (name.now ∷ [])) }
        ensures longer { (more : List Label) × (labels.new.given.items ≡ labels.old.given.items ++ more) }
        ensures named { OnOk result ((t : Table) → AreNamed t labels.old.given.items
            → Denotes t [] 0 0 checked.now.node (sexp_of term.entry) → AreNamed t labels.new.given.items) }
    {
        if labels.are_refused() || checked.is_open {
            return Err(TermFault::Label);
        }
        if self.is_in_use(labels, name) {
            return Err(TermFault::NotFresh);
        }
        Ok(labels.push(self.alloc, name, checked.sort, term, checked.node)?)
    }
}

// Whether one of these attributes is a label.
pub(super) fn has_label(attributes: Trees<'_>) -> bool
    ensures { result ≡ has_labels (labels_among (sexps_of attributes.entry)) }
{
    let mut left = attributes;
    while let Some((tree, rest)) = left.split_first() {
        if label_at(tree, rest).is_some() {
            return true;
        }
        left = rest;
    }
    false
}

// The variables of bindings with these sorts.
fn variables_of<'a>(
    alloc: Global,
    bindings: Trees<'a>,
    sorts: &[Sort],
) -> Result<Vec<Variable<'a, Sort>>, Memory>
    ensures { IfOk result (λ vs. scope_view vs.items
        ≡ frames.variables_of (sexps_of bindings.entry) sorts.now) }
{
    let mut variables = Vec::new(alloc);
    let mut left = bindings;
    let mut sorts = sorts;
    while let Some((name, _, rest)) = split_name(left) {
        let Some((sort, more)) = sorts.split_first() else {
            break;
        };
        push_variable(&mut variables, name, *sort)?;
        left = rest;
        sorts = more;
    }
    Ok(variables)
}

// The variable of a binding, if there is one sort.
fn only_variable<'a>(bindings: Trees<'a>, sorts: &[Sort]) -> Option<(&'a [u8], Sort)>
    ensures { IfSome result
        (λ v. frames.variables_of (sexps_of bindings.entry) sorts.now ≡ (v.0.now, v.1) ∷ []) }
{
    let Some((sort, more)) = sorts.split_first() else {
        return None;
    };
    let Some((name, _, _)) = split_name(bindings) else {
        return None;
    };
    match more.split_first() {
        Some(_) => None,
        None => Some((name, *sort)),
    }
}

// The name of the first binding, what its list has after the name, and the bindings after it.
fn split_name(bindings: Trees<'_>) -> Option<(&[u8], Trees<'_>, Trees<'_>)>
    ensures { MatchOption result (first_name (sexps_of bindings.entry) ≡ None)
        (λ p. sexps_of bindings.entry
        ≡ Cons (Items (Cons (Atom Symbol p.0.now) (sexps_of p.1))) (sexps_of p.2)) }
{
    let Some((Tree::List(parts), rest)) = bindings.split_first() else {
        return None;
    };
    let Some((Tree::Symbol(name), tail)) = parts.split_first() else {
        return None;
    };
    Some((name, tail, rest))
}

// How many of these bindings have names that no earlier one has, up to the first that has not; `None` where these are
// not the bindings of a `let`, one or more.
fn distinct_bindings(alloc: Global, bindings: Trees<'_>) -> Result<Option<u32>, Memory>
    ensures { IfOk result (λ found. MatchOption found (forms.are_bindings (sexps_of bindings.entry) ≡ false)
        (λ distinct. (forms.are_bindings (sexps_of bindings.entry) ≡ true)
        × (distinct ≡ distinct_from [] (sexps_of bindings.entry)))) }
{
    let Some((first, _, rest)) = split_named(bindings) else {
        return Ok(None);
    };
    let Some(_) = rest.split_first() else {
        return Ok(Some(1));
    };
    let mut names = NameSet::new(alloc);
    names.insert(first)?;
    let mut is_distinct = true;
    let mut left = rest;
    while let Some((name, _, rest)) = split_named(left) {
        if is_distinct {
            is_distinct = add_name(&mut names, name)?;
        }
        left = rest;
    }
    match left.split_first() {
        Some(_) => Ok(None),
        None => Ok(Some(narrow(names.len())?)),
    }
}

// Adds a name to others, unless it is one of them. Returns whether it was added.
fn add_name<'a>(names: &mut NameSet<'a>, name: &'a [u8]) -> Result<bool, Memory>
    ensures { IfOk result (λ added. (added ≡ not (is_among (names_in names.old) name.now))
        × (names_in names.new ≡ (if added then names_in names.old ++ name.now ∷ [] else names_in names.old))) }
{
    if names.contains(name) {
        return Ok(false);
    }
    names.insert(name)?;
    Ok(true)
}
