//! The sort checker: the sort and the node of a term, or its first flaw. This file adds no name to a library,
//! and knows no values.

ghost use Rattle.std.specs.Prelude.{◌≡◌, ◌≤◌, ◌*◌, [], Ok, false, length, IfErr, IfOk, OnOk};
ghost use Rattle.smt_nodes.specs.Node.{Literal};
ghost use Rattle.smt_trees.specs.Sexp.{Atom, Binary, Cons, Decimal, Hexadecimal, Items, Numeral, Reserved, Sexp, Sexps};
ghost use Rattle.smt_trees.specs.Sexp.{Symbol};
ghost use Rattle.smt_trees.specs.declared.reserved.Word.TheVariants.{Underscore};
ghost use Rattle.smt_trees.specs.View.{sexp_of, sexps_of};
ghost use Rattle.smt_theory.specs.Operators.{op_by};
ghost use Rattle.smt_theory.specs.Shapes.{are_exactly};
ghost use Rattle.smt_theory.specs.Width.{width_of};
ghost use Rattle.smt_theory.specs.Words.{look_up};
ghost use Rattle.smt_terms.specs.Checking as checking;
ghost use Rattle.smt_terms.specs.Internal.Calls.{GivesLabels, HasSort, HasTheSame, SeesTheSame};
ghost use Rattle.smt_terms.specs.Internal.Calls.{names_variable};
ghost use Rattle.smt_terms.specs.Internal.DraftView.{IsPlaced, argument_sorts, is_open};
ghost use Rattle.smt_terms.specs.Internal.DraftView.{seen_by, sorts_from, sorts_of, sorts_seen, terms_from};
ghost use Rattle.smt_forms.specs.ScopeOf.{scope_of};
ghost use Rattle.smt_forms.specs.Identifier as identifiers;
ghost use Rattle.smt_forms.specs.Identifier.{Plain, applied};
ghost use Rattle.smt_forms.specs.IdentifierView.{identifier_view};
ghost use Rattle.smt_terms.specs.Internal.Frames.{HasFault, IsAtom, IsDone, Lie, begun};
ghost use Rattle.smt_terms.specs.Internal.LibraryView.{names_of_library};
ghost use Rattle.smt_terms.specs.Internal.NodesView.{AddsApplied, AddsNode, AddsOperator, GrowsTo, Stands};
ghost use Rattle.smt_terms.specs.SortTrees.{bit_vectors, numerals, reals};
ghost use Rattle.smt_faults.specs.Outcome.{IsOutcome};

use crate::library::Library;
use crate::library::draft::{Bound, CheckedTerm, Draft};
use crate::library::frames::Application;
use crate::sorts;
use smt_faults::{TermFault, TermFlaw};
use smt_forms::{Identifier, Scope, applied_identifier, indexed_identifier};
use smt_nodes::{Node, Nodes, TermId};
use smt_theory::{LiteralKind, Op, OpFault, Sort, Width, op_of, plain_op_of, plain_rank, rank};
use smt_trees::{Tree, Trees};

impl Library<'_> {
    // The sort and the node of an atom.
    #[inline(always)]
    pub(super) fn sort_of_atom(
        &self,
        draft: &mut Draft<'_>,
        term: Tree<'_>,
        around: u32,
    ) -> Result<CheckedTerm, TermFault>
        requires placed { IsPlaced (seen_by draft.old) draft.old.base }
        requires atom { IsAtom (sexp_of term) }
        ensures sort { HasSort self.now draft.old (sexp_of term.entry) result }
        ensures labels { GivesLabels self.now draft.old draft.new (sexp_of term.entry) result }
        ensures kept { OnOk result (SeesTheSame draft.old draft.new) }
        ensures waiting { OnOk result (HasTheSame draft.old draft.new) }
        ensures open { IfOk result (λ c. c.is_open ≡ is_open draft.old (sexp_of term.entry)) }
        ensures node { IfOk result (Stands self.now draft.old draft.new around (sexp_of term.entry)) }
        ensures longer { GrowsTo draft.old draft.new }
    {
        match term {
            Tree::Symbol(name) => self.sort_of_symbol(draft, name, around),
            Tree::Numeral(digits) => self.push_numeral(draft, digits, around),
            Tree::Decimal(digits) => self.push_decimal(draft, digits, around),
            Tree::Hex(digits) => self.push_hex(draft, digits, around),
            Tree::Bin(digits) => self.push_bin(draft, digits, around),
            Tree::Text(_) => Err(TermFault::Unsupported),
            Tree::Keyword(_) | Tree::Reserved(_) => Err(TermFault::Form),
            Tree::List(_) => unreachable!(),
        }
    }

    // Adds the node of a numeral and finds its sort.
    fn push_numeral(
        &self,
        draft: &mut Draft<'_>,
        digits: &[u8],
        around: u32,
    ) -> Result<CheckedTerm, TermFault>
        ensures sort { IsOutcome (λ c. c.sort) (numerals (names_of_library self.now).theories) result }
        ensures open { IfOk result (λ c. c.is_open ≡ false) }
        ensures node { IfOk result (Stands self.now draft.old draft.new around (Atom Numeral digits.now)) }
        ensures longer { GrowsTo draft.old draft.new }
        ensures scope { draft.new.scope ≡ draft.old.scope }
        ensures base { draft.new.base ≡ draft.old.base }
        ensures labels { draft.new.labels ≡ draft.old.labels }
        ensures arguments { draft.new.arguments ≡ draft.old.arguments }
    {
        push_literal(
            &self.nodes,
            draft,
            LiteralKind::Numeral,
            digits,
            sorts::numerals(self.sorts.theories),
            around,
        )
    }

    // Adds the node of a decimal and finds its sort.
    fn push_decimal(
        &self,
        draft: &mut Draft<'_>,
        digits: &[u8],
        around: u32,
    ) -> Result<CheckedTerm, TermFault>
        ensures sort { IsOutcome (λ c. c.sort) (reals (names_of_library self.now).theories) result }
        ensures open { IfOk result (λ c. c.is_open ≡ false) }
        ensures node { IfOk result (Stands self.now draft.old draft.new around (Atom Decimal digits.now)) }
        ensures longer { GrowsTo draft.old draft.new }
        ensures scope { draft.new.scope ≡ draft.old.scope }
        ensures base { draft.new.base ≡ draft.old.base }
        ensures labels { draft.new.labels ≡ draft.old.labels }
        ensures arguments { draft.new.arguments ≡ draft.old.arguments }
    {
        push_literal(
            &self.nodes,
            draft,
            LiteralKind::Decimal,
            digits,
            sorts::reals(self.sorts.theories),
            around,
        )
    }

    // Adds the node of a hexadecimal literal and finds its sort.
    fn push_hex(
        &self,
        draft: &mut Draft<'_>,
        digits: &[u8],
        around: u32,
    ) -> Result<CheckedTerm, TermFault>
        ensures sort { IsOutcome (λ c. c.sort) (bit_vectors (names_of_library self.now).theories
            (width_of (4 * length digits.now))) result }
        ensures open { IfOk result (λ c. c.is_open ≡ false) }
        ensures node { IfOk result (Stands self.now draft.old draft.new around (Atom Hexadecimal digits.now)) }
        ensures longer { GrowsTo draft.old draft.new }
        ensures scope { draft.new.scope ≡ draft.old.scope }
        ensures base { draft.new.base ≡ draft.old.base }
        ensures labels { draft.new.labels ≡ draft.old.labels }
        ensures arguments { draft.new.arguments ≡ draft.old.arguments }
    {
        push_literal(
            &self.nodes,
            draft,
            LiteralKind::Hexadecimal,
            digits,
            self.sort_of_digits(4, digits),
            around,
        )
    }

    // Adds the node of a binary literal and finds its sort.
    fn push_bin(
        &self,
        draft: &mut Draft<'_>,
        digits: &[u8],
        around: u32,
    ) -> Result<CheckedTerm, TermFault>
        ensures sort { IsOutcome (λ c. c.sort) (bit_vectors (names_of_library self.now).theories
            (width_of (1 * length digits.now))) result }
        ensures open { IfOk result (λ c. c.is_open ≡ false) }
        ensures node { IfOk result (Stands self.now draft.old draft.new around (Atom Binary digits.now)) }
        ensures longer { GrowsTo draft.old draft.new }
        ensures scope { draft.new.scope ≡ draft.old.scope }
        ensures base { draft.new.base ≡ draft.old.base }
        ensures labels { draft.new.labels ≡ draft.old.labels }
        ensures arguments { draft.new.arguments ≡ draft.old.arguments }
    {
        push_literal(
            &self.nodes,
            draft,
            LiteralKind::Binary,
            digits,
            self.sort_of_digits(1, digits),
            around,
        )
    }

    // The bit-vector sort of digits of this number of bits each, if there is one.
    fn sort_of_digits(&self, bits: u64, digits: &[u8]) -> Result<Sort, TermFlaw>
        ensures { result ≡ bit_vectors (names_of_library self.now).theories
            (width_of (bits * length digits.now)) }
    {
        sorts::bit_vectors(self.sorts.theories, width_of_digits(bits, digits))
    }

    // The sort and the node of an identifier with indexes alone, by the trees after the `_`.
    pub(super) fn sort_of_indexed_alone(
        &self,
        draft: &mut Draft<'_>,
        args: Trees<'_>,
        around: u32,
    ) -> Result<CheckedTerm, TermFault>
        ensures done { IfOk result (IsDone self.now
            (begun (Items (Cons (Reserved Underscore) (sexps_of args.entry))) around draft.old) draft.new) }
        ensures fault { IfErr result (HasFault self.now
            (begun (Items (Cons (Reserved Underscore) (sexps_of args.entry))) around draft.old)) }
        ensures longer { GrowsTo draft.old draft.new }
    {
        let identifier = indexed_identifier(self.alloc, args)?;
        let start = draft.arguments.len();
        self.sort_applied(draft, &identifier, start, false, around)
    }

    // The sort and the node of an application whose arguments wait. A head that is a variable is ill sorted, as a
    // variable accepts no arguments.
    #[inline(always)]
    pub(super) fn sort_of_application(
        &self,
        draft: &mut Draft<'_>,
        whole: Trees<'_>,
        application: Application,
        is_open: bool,
    ) -> Result<CheckedTerm, TermFault>
        requires { application.start ≤ length (argument_sorts draft.old.arguments) }
        ensures call { (head : Sexp) (args : Sexps) (f : identifiers.Identifier)
            → Lie whole.entry application.parts application.end (Cons head args) → applied head args ≡ Ok f
            → IsOutcome (λ c. c.sort) (checking.sort_of_call (names_of_library self.now) (sorts_seen draft.old) f
            (sorts_from application.start draft.old.arguments)) result
            × IfOk result (AddsApplied self.now draft.old draft.new application.around f
            (sorts_from application.start draft.old.arguments) (terms_from application.start draft.old.arguments)) }
        ensures open { IfOk result (λ c. c.is_open ≡ is_open) }
        ensures longer { GrowsTo draft.old draft.new }
        ensures scope { draft.new.scope ≡ draft.old.scope }
        ensures base { draft.new.base ≡ draft.old.base }
        ensures labels { draft.new.labels ≡ draft.old.labels }
        ensures arguments { draft.new.arguments ≡ draft.old.arguments }
    {
        let parts = whole.between(application.parts as usize, application.end as usize);
        let start = application.start as usize;
        match parts.split_first() {
            Some((Tree::Symbol(name), _)) => {
                if draft.scope.find(name).is_some() {
                    return Err(TermFault::IllSorted);
                }
                self.sort_of_plain(draft, name, start, is_open, application.around)
            }
            Some((head, args)) => self.sort_of_other_call(
                draft,
                head,
                args,
                start,
                is_open,
                application.around,
            ),
            None => Err(TermFault::Form),
        }
    }

    // The same for a head that is no symbol.
    fn sort_of_other_call(
        &self,
        draft: &mut Draft<'_>,
        head: Tree<'_>,
        args: Trees<'_>,
        start: usize,
        is_open: bool,
        around: u32,
    ) -> Result<CheckedTerm, TermFault>
        requires { start ≤ length (argument_sorts draft.old.arguments) }
        ensures call { (f : identifiers.Identifier) → applied (sexp_of head.entry) (sexps_of args.entry) ≡ Ok f
            → IsOutcome (λ c. c.sort) (checking.sort_of_call (names_of_library self.now) (sorts_seen draft.old) f
            (sorts_from start draft.old.arguments)) result
            × IfOk result (AddsApplied self.now draft.old draft.new around f
            (sorts_from start draft.old.arguments) (terms_from start draft.old.arguments)) }
        ensures open { IfOk result (λ c. c.is_open ≡ is_open) }
        ensures longer { GrowsTo draft.old draft.new }
        ensures scope { draft.new.scope ≡ draft.old.scope }
        ensures base { draft.new.base ≡ draft.old.base }
        ensures labels { draft.new.labels ≡ draft.old.labels }
        ensures arguments { draft.new.arguments ≡ draft.old.arguments }
    {
        let identifier = applied_identifier(self.alloc, head, args)?;
        self.sort_of_call(draft, &identifier, start, is_open, around)
    }

    // The sort and the node of a symbol alone: of the variable that it names, of a name or an operator without
    // arguments, or else of an element.
    #[inline(always)]
    fn sort_of_symbol(
        &self,
        draft: &mut Draft<'_>,
        name: &[u8],
        around: u32,
    ) -> Result<CheckedTerm, TermFault>
        requires { IsPlaced (seen_by draft.old) draft.old.base }
        ensures sort { IsOutcome (λ c. c.sort) (checking.sort_of_symbol (names_of_library self.now) name.now
            (look_up (sorts_seen draft.old) name.now)) result }
        ensures open { IfOk result (λ c. c.is_open ≡ is_open draft.old (Atom Symbol name.now)) }
        ensures scope { draft.new.scope ≡ draft.old.scope }
        ensures base { draft.new.base ≡ draft.old.base }
        ensures labels { draft.new.labels ≡ draft.old.labels }
        ensures arguments { draft.new.arguments ≡ draft.old.arguments }
        ensures node { IfOk result (Stands self.now draft.old draft.new around (Atom Symbol name.now)) }
        ensures longer { GrowsTo draft.old draft.new }
    {
        match draft.scope.find(name) {
            Some(variable) => {
                let node = Node::Slot(variable.place.saturating_sub(draft.base));
                let is_open = variable.place < draft.base;
                Ok(draft.push(&self.nodes, &node, &variable.sort, is_open, around)?)
            }
            None => self.sort_of_alone(draft, name, around),
        }
    }

    // The sort and the node of an identifier applied to the arguments from this one on. An identifier that is a
    // variable is ill sorted, as a variable accepts no arguments.
    #[inline(always)]
    fn sort_of_call(
        &self,
        draft: &mut Draft<'_>,
        identifier: &Identifier<'_>,
        start: usize,
        is_open: bool,
        around: u32,
    ) -> Result<CheckedTerm, TermFault>
        requires { start ≤ length (argument_sorts draft.old.arguments) }
        ensures sort { IsOutcome (λ c. c.sort) (checking.sort_of_call (names_of_library self.now)
            (sorts_seen draft.old) (identifier_view identifier.now)
            (sorts_from start draft.old.arguments)) result }
        ensures open { IfOk result (λ c. c.is_open ≡ is_open) }
        ensures added { IfOk result (AddsApplied self.now draft.old draft.new around (identifier_view identifier.now)
            (sorts_from start draft.old.arguments) (terms_from start draft.old.arguments)) }
        ensures longer { GrowsTo draft.old draft.new }
        ensures scope { draft.new.scope ≡ draft.old.scope }
        ensures base { draft.new.base ≡ draft.old.base }
        ensures labels { draft.new.labels ≡ draft.old.labels }
        ensures arguments { draft.new.arguments ≡ draft.old.arguments }
    {
        if is_variable(&draft.scope, identifier) {
            return Err(TermFault::IllSorted);
        }
        self.sort_applied(draft, identifier, start, is_open, around)
    }

    // The sort and the node of an identifier that is no variable, applied to the arguments from this one on.
    #[inline(always)]
    fn sort_applied(
        &self,
        draft: &mut Draft<'_>,
        identifier: &Identifier<'_>,
        start: usize,
        is_open: bool,
        around: u32,
    ) -> Result<CheckedTerm, TermFault>
        requires { start ≤ length (argument_sorts draft.old.arguments) }
        ensures sort { IsOutcome (λ c. c.sort) (checking.sort_applied (names_of_library self.now)
            (identifier_view identifier.now) (sorts_from start draft.old.arguments)) result }
        ensures open { IfOk result (λ c. c.is_open ≡ is_open) }
        ensures added { IfOk result (AddsApplied self.now draft.old draft.new around (identifier_view identifier.now)
            (sorts_from start draft.old.arguments) (terms_from start draft.old.arguments)) }
        ensures longer { GrowsTo draft.old draft.new }
        ensures scope { draft.new.scope ≡ draft.old.scope }
        ensures base { draft.new.base ≡ draft.old.base }
        ensures labels { draft.new.labels ≡ draft.old.labels }
        ensures arguments { draft.new.arguments ≡ draft.old.arguments }
    {
        match identifier {
            Identifier::Plain(name) => self.sort_of_plain(draft, *name, start, is_open, around),
            Identifier::Indexed { name, indexes } => {
                let op = op_of(self.sorts.theories, *name, indexes.as_slice());
                self.sort_of_indexed(draft, op, start, is_open, around)
            }
            Identifier::Qualified(sort) => {
                self.sort_of_constant(draft, *sort, start, is_open, around)
            }
        }
    }

    // The sort and the node of a symbol that is no variable, applied to the arguments from this one on. The symbol is
    // a name in force, or else an operator.
    #[inline(always)]
    pub(super) fn sort_of_plain(
        &self,
        draft: &mut Draft<'_>,
        name: &[u8],
        start: usize,
        is_open: bool,
        around: u32,
    ) -> Result<CheckedTerm, TermFault>
        requires { start ≤ length (argument_sorts draft.old.arguments) }
        ensures sort { IsOutcome (λ c. c.sort) (checking.sort_applied (names_of_library self.now)
            (Plain name.now) (sorts_from start draft.old.arguments)) result }
        ensures open { IfOk result (λ c. c.is_open ≡ is_open) }
        ensures added { IfOk result (AddsApplied self.now draft.old draft.new around (Plain name.now)
            (sorts_from start draft.old.arguments) (terms_from start draft.old.arguments)) }
        ensures longer { GrowsTo draft.old draft.new }
        ensures scope { draft.new.scope ≡ draft.old.scope }
        ensures base { draft.new.base ≡ draft.old.base }
        ensures labels { draft.new.labels ≡ draft.old.labels }
        ensures arguments { draft.new.arguments ≡ draft.old.arguments }
    {
        match self.get(name) {
            Some(entry) => {
                if !are_same(entry.parameters.as_slice(), draft.arguments.sorts(start)) {
                    return Err(TermFault::IllSorted);
                }
                Ok(draft.push_named(&self.nodes, entry.place, start, entry.sort, is_open, around)?)
            }
            None => self.sort_of_operator(draft, name, start, is_open, around),
        }
    }

    // The sort and the node of a symbol that is no name in force, applied to the arguments from this one on.
    #[inline(always)]
    fn sort_of_operator(
        &self,
        draft: &mut Draft<'_>,
        name: &[u8],
        start: usize,
        is_open: bool,
        around: u32,
    ) -> Result<CheckedTerm, TermFault>
        requires { start ≤ length (argument_sorts draft.old.arguments) }
        ensures sort { IsOutcome (λ c. c.sort) (checking.sort_of_operator
            (op_by (names_of_library self.now).theories name.now [])
            (sorts_from start draft.old.arguments)) result }
        ensures open { IfOk result (λ c. c.is_open ≡ is_open) }
        ensures added { IfOk result (AddsOperator self.now draft.old draft.new around
            (op_by (names_of_library self.now).theories name.now [])
            (terms_from start draft.old.arguments)) }
        ensures longer { GrowsTo draft.old draft.new }
        ensures scope { draft.new.scope ≡ draft.old.scope }
        ensures base { draft.new.base ≡ draft.old.base }
        ensures labels { draft.new.labels ≡ draft.old.labels }
        ensures arguments { draft.new.arguments ≡ draft.old.arguments }
    {
        let Some(op) = plain_op_of(self.sorts.theories, name) else {
            return Err(TermFault::Unknown);
        };
        let Some(sort) = plain_rank(op, draft.arguments.sorts(start)) else {
            return Err(TermFault::IllSorted);
        };
        Ok(draft.push_plain(&self.nodes, op, start, sort, is_open, around)?)
    }

    // The sort and the node of the operator that an identifier with indexes is, applied to the arguments from this
    // one on; or the fault of the identifier.
    pub(super) fn sort_of_indexed(
        &self,
        draft: &mut Draft<'_>,
        op: Result<Op, OpFault>,
        start: usize,
        is_open: bool,
        around: u32,
    ) -> Result<CheckedTerm, TermFault>
        requires { start ≤ length (argument_sorts draft.old.arguments) }
        ensures sort { IsOutcome (λ c. c.sort) (checking.sort_of_operator op
            (sorts_from start draft.old.arguments)) result }
        ensures open { IfOk result (λ c. c.is_open ≡ is_open) }
        ensures added { IfOk result (AddsOperator self.now draft.old draft.new around op
            (terms_from start draft.old.arguments)) }
        ensures longer { GrowsTo draft.old draft.new }
        ensures scope { draft.new.scope ≡ draft.old.scope }
        ensures base { draft.new.base ≡ draft.old.base }
        ensures labels { draft.new.labels ≡ draft.old.labels }
        ensures arguments { draft.new.arguments ≡ draft.old.arguments }
    {
        match op {
            Ok(op) => {
                let Some(sort) = rank(op, draft.arguments.sorts(start)) else {
                    return Err(TermFault::IllSorted);
                };
                Ok(draft.push_numbered(&self.nodes, &op, start, sort, is_open, around)?)
            }
            Err(OpFault::Unknown) => Err(TermFault::Unknown),
            Err(OpFault::Index) => Err(TermFault::Index),
        }
    }
}

// Whether the sorts of the arguments are exactly those of the parameters.
pub(super) fn are_same(parameters: &[Sort], args: &[Sort]) -> bool
    ensures { result ≡ are_exactly parameters.now args.now }
{
    let mut left = args;
    let mut wanted = parameters;
    while let Some((arg, rest)) = left.split_first() {
        let Some((sort, others)) = wanted.split_first() else {
            return false;
        };
        if !arg.is_same(*sort) {
            return false;
        }
        left = rest;
        wanted = others;
    }
    wanted.is_empty()
}

// Whether an identifier is the plain name of a variable in scope.
#[tactic(auto, using(crate::proofs::DraftLemmas::found_sorts))]
pub(super) fn is_variable(scope: &Scope<'_, Bound>, identifier: &Identifier<'_>) -> bool
    ensures { result ≡ names_variable (sorts_of (scope_of scope.now)) (identifier_view identifier.now) }
{
    match identifier {
        Identifier::Plain(name) => scope.find(*name).is_some(),
        Identifier::Indexed { .. } | Identifier::Qualified(_) => false,
    }
}

// Adds the node of a literal of this sort after other nodes, or returns the flaw of its sort.
fn push_literal(
    before: &Nodes,
    draft: &mut Draft<'_>,
    kind: LiteralKind,
    digits: &[u8],
    sort: Result<Sort, TermFlaw>,
    around: u32,
) -> Result<CheckedTerm, TermFault>
    ensures sort { IsOutcome (λ c. c.sort) sort result }
    ensures open { IfOk result (λ c. c.is_open ≡ false) }
    ensures added { IfOk result (λ c. AddsNode before.now draft.old draft.new around (Literal kind digits.now) c) }
    ensures longer { GrowsTo draft.old draft.new }
    ensures scope { draft.new.scope ≡ draft.old.scope }
    ensures base { draft.new.base ≡ draft.old.base }
    ensures labels { draft.new.labels ≡ draft.old.labels }
    ensures arguments { draft.new.arguments ≡ draft.old.arguments }
{
    let sort = sort?;
    Ok(draft.push_literal(before, kind, digits, sort, around)?)
}

// The width of digits of this number of bits each, if it is a width.
fn width_of_digits(bits: u64, digits: &[u8]) -> Option<Width>
    ensures { result ≡ width_of (bits * length digits.now) }
{
    Width::new(bits.checked_mul(digits.len() as u64)?)
}
