//! What each command does to what is in force, and the fault of its effect. What levels do is in `levels`.
//! This file gets the parts of a command, and does not know how the command was written.

ghost use Rattle.std.specs.Prelude.{◌≡◌, ◌∷◌, ◌||◌, ℕ, List, [], None, IfErr, IfOk, MatchResult, OnOk, OnErr, option_map};
ghost use Rattle.std.specs.Str.Parse.{digits_value};
ghost use Rattle.smt_trees.specs.Sexp.{Sexp, weight};
ghost use Rattle.smt_trees.specs.View.{sexp_of, sexps_of};
ghost use Rattle.smt_forms.specs.Bindings.{named_trees};
ghost use Rattle.smt_script.specs.Command as commands;
ghost use Rattle.smt_script.specs.Command.{SetLogic, DeclareConst, DeclareFun, DefineFun, DeclareSort};
ghost use Rattle.smt_script.specs.Command.{DefineSort, Assert};
ghost use Rattle.smt_script.specs.Command.{CheckSatAssuming, Push, Pop, SetGlobalDeclarations, SetsGlobal};
ghost use Rattle.smt_script.specs.Command.{effect_of};
ghost use Rattle.smt_script.specs.CommandView.{command_view, levels_in};
ghost use Rattle.smt_faults.specs.Outcome.{TellsCommand};
ghost use Rattle.smt_terms.specs.Contents.{Extends, contents_of};
ghost use Rattle.smt_terms.specs.Library as libraries;
ghost use Rattle.smt_terms.specs.Signature.{Signature, names_of};
ghost use Rattle.smt_script.specs.Stack as stack;
ghost use Rattle.smt_script.specs.Stack.{flaw_of_formula, flaw_of_literals, trees_of};
ghost use Rattle.smt_terms.specs.Checking.{sort_in};
ghost use Rattle.smt_terms.specs.Library.{IsTerm, terms_of, transient_of};
ghost use Rattle.smt_script.specs.StackView.{AreTerms, HoldsAfter, last_of};
ghost use Rattle.smt_script.specs.Internal.Effect.{ContentsAreKept, HasAssumed, HasEffect, HasMore, HasNotesOf};
ghost use Rattle.smt_script.specs.Internal.Effect.{IsEnded, IsRefused, IsUnchanged, with_notes};

use crate::command::{Command, Kind};
use crate::stack::{Assertion, LogicState, Stack};
use smt_faults::{CommandFault, Memory, TermFault};
use smt_forms::params_of;
use smt_terms::laws::{marks_are_kept, terms_are_kept};
use smt_terms::{Library, TermId};
use smt_theory::{Sort, theories_of};
use smt_trees::{Tree, Trees};
use std::alloc::Global;

// What a mark counts, and what each term is, stays the same when the contents grow.
fn contents_are_kept()
    ensures { ContentsAreKept }
{
    marks_are_kept();
    terms_are_kept();
}

impl Stack {
    // Makes the effect of a command, except for its notes; where the command is refused, nothing changes.
    pub(super) fn try_effect(
        &mut self,
        number: u64,
        command: &Command<'_>,
    ) -> Result<(), CommandFault>
        ensures effect { OnOk result (HasEffect self.old self.new number (command_view command.now)) }
        ensures refused { IfErr result (λ fault. IsRefused self.old number (command_view command.now) fault) }
        ensures unchanged { OnErr result (IsUnchanged self.old self.new) }
        ensures assumed { OnOk result
            (HasAssumed self.old self.new (effect_of (command_view command.now))) }
        ensures held { OnOk result (HoldsAfter self.old (effect_of (command_view command.now))
            (contents_of self.new.library)) }
    {
        contents_are_kept();
        let mark = self.library.mark();
        match self.take_effect(number, command) {
            Ok(()) => Ok(()),
            Err(fault) => {
                self.library.cut(mark);
                Err(fault)
            }
        }
    }

    // Makes the effect of a command, except for its notes. Where the command is refused, the library may hold
    // more.
    fn take_effect(&mut self, number: u64, command: &Command<'_>) -> Result<(), CommandFault>
        ensures effect { OnOk result (HasEffect self.old self.new number (command_view command.now)) }
        ensures refused { IfErr result (λ fault. IsRefused self.old number (command_view command.now) fault) }
        ensures unchanged { OnErr result (HasMore self.old self.new) }
        ensures assumed { OnOk result
            (HasAssumed self.old self.new (effect_of (command_view command.now))) }
        ensures held { OnOk result (HoldsAfter self.old (effect_of (command_view command.now))
            (contents_of self.new.library)) }
    {
        contents_are_kept();
        match command {
            Command::SetLogic { name } => self.set_logic(*name),
            Command::DeclareConst { name, sort } => self.declare_const(number, *name, *sort),
            Command::DeclareFun { name, params, sort } => {
                self.declare_fun(number, *name, *params, *sort)
            }
            Command::DefineFun {
                name,
                params,
                sort,
                body,
            } => self.define(*name, *params, *sort, *body),
            Command::DefineConst { name, sort, body } => {
                self.define(*name, Trees::empty(), *sort, *body)
            }
            Command::DeclareSort { name } => self.declare_sort(number, *name),
            Command::DefineSort { name, sort } => self.define_sort(*name, *sort),
            Command::Assert { term } => self.assert(number, *term),
            Command::Push { levels } => self.push(digits_of(*levels)),
            Command::Pop { levels } => self.pop(digits_of(*levels)),
            Command::Reset => self.reset(),
            Command::ResetAssertions => self.reset_assertions(),
            Command::SetPrintSuccess { .. } => Ok(()),
            Command::SetGlobalDeclarations { on } => self.set_global(*on),
            Command::SetOption { .. } => Ok(()),
            Command::SetInfo { .. } => Ok(()),
            Command::Exit => Ok(()),
            Command::CheckSat => Ok(()),
            Command::CheckSatAssuming { literals } => self.assume(*literals),
            Command::GetModel => Ok(()),
            Command::Echo { .. } => Ok(()),
            Command::Get { .. } => Ok(()),
        }
    }

    // Notes, of a command that took effect, whether a logic may be set, whether declarations are global,
    // whether `success` is printed, and whether it was `exit`.
    pub(super) fn note(&mut self, command: &Command<'_>)
        ensures { self.new ≡ with_notes (command_view command.now) self.old }
    {
        let kind = command.kind();
        self.logic = LogicState {
            set: is_set_after(self.logic.set, kind),
            late: is_late_after(self.logic.late, kind),
        };
        self.global = global_after(self.global, command);
        self.print_success = print_success_after(
            self.start.print_success,
            self.print_success,
            kind,
        );
        self.exited |= matches!(kind, Kind::Exit);
    }

    // Ends the assumptions where the command changes what is in force, or is a check that assumes nothing.
    pub(super) fn end_assumptions(&mut self, command: &Command<'_>)
        ensures { IsEnded (command_view command.now) self.old self.new }
    {
        let ends = match command {
            Command::CheckSatAssuming { .. } => false,
            _ => is_ended_by(command.kind()),
        };
        if ends {
            self.drop_assumptions();
        }
    }

    // Removes the assumptions and their nodes.
    fn drop_assumptions(&mut self)
        ensures assumptions { self.new.assumptions.items ≡ [] }
        ensures transient { transient_of self.new.library ≡ [] }
        ensures library { contents_of self.new.library ≡ contents_of self.old.library }
        ensures assertions { self.new.assertions ≡ self.old.assertions }
        ensures levels { self.new.levels ≡ self.old.levels }
        ensures notes { HasNotesOf self.old self.new }
    {
        let _ = self.library.take_transient();
        self.assumptions.truncate(0);
    }

    // Sets the logic. Nothing is in force then, and there are no levels.
    fn set_logic(&mut self, name: &[u8]) -> Result<(), CommandFault>
        ensures effect { OnOk result ((number : ℕ) → HasEffect self.old self.new number (SetLogic name.now)) }
        ensures refused { IfErr result
            (λ fault. (number : ℕ) → IsRefused self.old number (SetLogic name.now) fault) }
        ensures unchanged { OnErr result (HasMore self.old self.new) }
        ensures held { OnOk result ((contents_of self.new.library).rows ≡ []) }
    {
        if self.logic.is_fixed() {
            return Err(CommandFault::Logic);
        }
        let Some(theories) = theories_of(self.start.profile, name) else {
            return Err(CommandFault::Logic);
        };
        self.library = Library::new(self.alloc, theories);
        Ok(())
    }

    // Refuses another value for global declarations once it is too late. Until then nothing is in force, and
    // there are no levels.
    fn set_global(&mut self, on: bool) -> Result<(), CommandFault>
        ensures effect { OnOk result ((number : ℕ) → HasEffect self.old self.new number (SetGlobalDeclarations on)) }
        ensures refused { IfErr result
            (λ fault. (number : ℕ) → IsRefused self.old number (SetGlobalDeclarations on) fault) }
        ensures unchanged { OnErr result (HasMore self.old self.new) }
        ensures held { contents_of self.new.library ≡ contents_of self.old.library }
        ensures assumed { OnOk result (HasAssumed self.old self.new (SetsGlobal on)) }
    {
        contents_are_kept();
        if self.global == on {
            return Ok(());
        }
        if self.logic.late {
            return Err(CommandFault::Logic);
        }
        Ok(())
    }

    fn declare_const(
        &mut self,
        number: u64,
        name: &[u8],
        sort: Tree<'_>,
    ) -> Result<(), CommandFault>
        ensures effect { OnOk result
            (HasEffect self.old self.new number (DeclareConst name.now (sexp_of sort.entry))) }
        ensures refused { IfErr result
            (λ fault. IsRefused self.old number (DeclareConst name.now (sexp_of sort.entry)) fault) }
        ensures unchanged { OnErr result (HasMore self.old self.new) }
        ensures grown { Extends (contents_of self.old.library) (contents_of self.new.library) }
    {
        contents_are_kept();
        Ok(self.library.declare(number, name, Trees::empty(), sort)?)
    }

    fn declare_fun(
        &mut self,
        number: u64,
        name: &[u8],
        params: Trees<'_>,
        sort: Tree<'_>,
    ) -> Result<(), CommandFault>
        ensures effect { OnOk result
            (HasEffect self.old self.new number
            (DeclareFun name.now (sexps_of params.entry) (sexp_of sort.entry))) }
        ensures refused { IfErr result
            (λ fault. IsRefused self.old number
            (DeclareFun name.now (sexps_of params.entry) (sexp_of sort.entry)) fault) }
        ensures unchanged { OnErr result (HasMore self.old self.new) }
        ensures grown { Extends (contents_of self.old.library) (contents_of self.new.library) }
    {
        contents_are_kept();
        Ok(self.library.declare(number, name, params, sort)?)
    }

    fn define(
        &mut self,
        name: &[u8],
        params: Trees<'_>,
        sort: Tree<'_>,
        body: Tree<'_>,
    ) -> Result<(), CommandFault>
        ensures effect { OnOk result
            ((number : ℕ) → HasEffect self.old self.new number
            (DefineFun name.now (named_trees (sexps_of params.entry)) (sexp_of sort.entry) (sexp_of body.entry))) }
        ensures refused { IfErr result
            (λ fault. (number : ℕ) → IsRefused self.old number
            (DefineFun name.now (named_trees (sexps_of params.entry)) (sexp_of sort.entry) (sexp_of body.entry))
            fault) }
        ensures unchanged { OnErr result (HasMore self.old self.new) }
        ensures grown { Extends (contents_of self.old.library) (contents_of self.new.library) }
    {
        contents_are_kept();
        let params = params_of(self.alloc, params)?;
        Ok(self.library.define(name, params.as_slice(), sort, body)?)
    }

    fn declare_sort(&mut self, number: u64, name: &[u8]) -> Result<(), CommandFault>
        ensures effect { OnOk result (HasEffect self.old self.new number (DeclareSort name.now)) }
        ensures refused { IfErr result (λ fault. IsRefused self.old number (DeclareSort name.now) fault) }
        ensures unchanged { OnErr result (HasMore self.old self.new) }
        ensures grown { Extends (contents_of self.old.library) (contents_of self.new.library) }
    {
        contents_are_kept();
        let Ok(command) = u32::try_from(number) else {
            // A sort has no room for a number from 2^32 on.
            return Err(CommandFault::Memory);
        };
        Ok(self.library.declare_sort(command, name)?)
    }

    fn define_sort(&mut self, name: &[u8], sort: Tree<'_>) -> Result<(), CommandFault>
        ensures effect { OnOk result
            ((number : ℕ) → HasEffect self.old self.new number (DefineSort name.now (sexp_of sort.entry))) }
        ensures refused { IfErr result
            (λ fault. (number : ℕ) → IsRefused self.old number (DefineSort name.now (sexp_of sort.entry)) fault) }
        ensures unchanged { OnErr result (HasMore self.old self.new) }
        ensures grown { Extends (contents_of self.old.library) (contents_of self.new.library) }
    {
        contents_are_kept();
        Ok(self.library.abbreviate(name, sort)?)
    }

    // Makes literals the assumptions, in place of the earlier ones.
    fn assume(&mut self, literals: Trees<'_>) -> Result<(), CommandFault>
        ensures effect { OnOk result ((number : ℕ) → HasEffect self.old self.new number
            (CheckSatAssuming (sexps_of literals.entry))) }
        ensures refused { IfErr result (λ fault. (number : ℕ)
            → IsRefused self.old number (CheckSatAssuming (sexps_of literals.entry)) fault) }
        ensures unchanged { OnErr result (HasMore self.old self.new) }
        ensures assumed { OnOk result ((s : Signature) → libraries.StandsFor self.old.library s
            → AreTerms (terms_of self.new.library) self.new.assumptions.items
            (trees_of (sexps_of literals.entry))) }
        ensures held { contents_of self.new.library ≡ contents_of self.old.library }
    {
        contents_are_kept();
        let before = self.library.take_transient();
        match check_literals(self.alloc, &mut self.library, literals) {
            Ok(terms) => {
                self.assumptions = terms;
                Ok(())
            }
            Err(fault) => {
                self.library.put_transient(before);
                Err(fault)
            }
        }
    }

    fn assert(&mut self, number: u64, term: Tree<'_>) -> Result<(), CommandFault>
        ensures effect { OnOk result (HasEffect self.old self.new number (Assert (sexp_of term.entry))) }
        ensures refused { IfErr result (λ fault. IsRefused self.old number (Assert (sexp_of term.entry)) fault) }
        ensures unchanged { OnErr result (HasMore self.old self.new) }
        ensures grown { Extends (contents_of self.old.library) (contents_of self.new.library) }
    {
        contents_are_kept();
        let size = size_of(term)?;
        let term = self.library.assert(term)?;
        let assertion = Assertion {
            command: number,
            term,
            size,
        };
        match self.assertions.push(assertion) {
            Ok(()) => Ok(()),
            Err(_) => Err(CommandFault::Memory),
        }
    }
}

// How many atoms and lists a tree has. A library has no room for the nodes of 2^32 and more.
fn size_of(tree: Tree<'_>) -> Result<u32, Memory>
    ensures { IfOk result (λ size. size ≡ weight (sexp_of tree.entry)) }
{
    let Tree::List(parts) = tree else {
        return Ok(1);
    };
    let inside = parts.size();
    if inside < u32::MAX as usize {
        Ok(inside as u32 + 1)
    } else {
        Err(Memory)
    }
}

// The digits of a number of levels; where there are none, those of one.
fn digits_of(levels: Option<&[u8]>) -> &[u8]
    ensures { digits_value 10 result.now ≡ levels_in (option_map (λ digits. digits.now) levels.entry) }
{
    match levels {
        Some(digits) => digits,
        None => b"1",
    }
}

// The terms of literals, each of which is a formula, or the first fault. Their nodes are transient.
fn check_literals(
    alloc: Global,
    library: &mut Library<'_>,
    literals: Trees<'_>,
) -> Result<Vec<TermId>, CommandFault>
    requires { transient_of library.old ≡ [] }
    ensures terms { (s : Signature) → libraries.StandsFor library.old s
        → MatchResult result (λ terms. (flaw_of_literals (names_of s) (sexps_of literals.entry) ≡ None)
        × AreTerms (terms_of library.new) terms.items (trees_of (sexps_of literals.entry)))
        (λ fault. TellsCommand (flaw_of_literals (names_of s) (sexps_of literals.entry)) fault) }
    ensures held { contents_of library.new ≡ contents_of library.old }
{
    let mut terms = Vec::new(alloc);
    let mut left = literals;
    while let Some((literal, rest)) = left.split_first() {
        let term = check_literal(library, literal)?;
        terms.push(term)?;
        left = rest;
    }
    Ok(terms)
}

// The term of a literal that is a formula, or its fault.
fn check_literal(library: &mut Library<'_>, literal: Tree<'_>) -> Result<TermId, CommandFault>
    ensures term { (s : Signature) → libraries.StandsFor library.old s
        → MatchResult result (λ term. (flaw_of_formula (sort_in (names_of s) [] (sexp_of literal.entry)) ≡ None)
        × IsTerm library.new term (sexp_of literal.entry))
        (λ fault. TellsCommand (flaw_of_formula (sort_in (names_of s) [] (sexp_of literal.entry))) fault) }
    ensures held { contents_of library.new ≡ contents_of library.old }
    ensures kept { (i : ℕ) (t : Sexp) → IsTerm library.old i t → IsTerm library.new i t }
{
    let (term, sort) = library.check_transient(literal)?;
    if !sort.is_same(Sort::bool()) {
        return Err(CommandFault::Term {
            fault: TermFault::IllSorted,
        });
    }
    Ok(term)
}

// Whether a command of a kind ends the assumptions of the check before it.
fn is_ended_by(kind: Kind) -> bool
    ensures { result ≡ (commands.asks_check kind || commands.changes_force kind) }
{
    match kind {
        Kind::Check | Kind::Logic { .. } | Kind::Change | Kind::Reset => true,
        Kind::PrintSuccess { .. } | Kind::Setting | Kind::Exit => false,
        Kind::Model | Kind::Echo | Kind::Query => false,
    }
}

// Whether declarations are global after a command, given whether they were before it.
fn global_after(global: bool, command: &Command<'_>) -> bool
    ensures { result ≡ stack.global_after global (command_view command.now) }
{
    match command {
        Command::SetGlobalDeclarations { on } => *on,
        Command::Reset => false,
        _ => global,
    }
}

// Whether a logic is set after a command of a kind, given whether one was before it.
fn is_set_after(set: bool, kind: Kind) -> bool
    ensures { result ≡ stack.is_set_by set kind }
{
    match kind {
        Kind::Logic { .. } => true,
        Kind::Reset => false,
        Kind::PrintSuccess { .. } | Kind::Setting | Kind::Change => set,
        Kind::Exit | Kind::Check | Kind::Model | Kind::Echo | Kind::Query => set,
    }
}

// Whether it is too late to set a logic after a command of a kind, given whether it was before it.
fn is_late_after(late: bool, kind: Kind) -> bool
    ensures { result ≡ stack.is_late_by late kind }
{
    match kind {
        Kind::Reset => false,
        Kind::Change | Kind::Check => true,
        Kind::Logic { .. } | Kind::PrintSuccess { .. } | Kind::Setting => late,
        Kind::Exit | Kind::Model | Kind::Echo | Kind::Query => late,
    }
}

// Whether `success` is printed after a command of a kind, given whether it was at the start and before the
// command.
fn print_success_after(initial: bool, before: bool, kind: Kind) -> bool
    ensures { result ≡ stack.print_success_by initial before kind }
{
    match kind {
        Kind::PrintSuccess { on } => on,
        Kind::Reset => initial,
        Kind::Logic { .. } | Kind::Setting | Kind::Change => before,
        Kind::Exit | Kind::Check | Kind::Model | Kind::Echo | Kind::Query => before,
    }
}
