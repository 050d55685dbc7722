//! The stack: what is in force after the commands that took effect. This file knows no answers, and does not
//! say which commands took effect.

ghost use Rattle.std.specs.Prelude.{◌≡◌, ◌<◌, ◌++◌, ◌∷◌, ◌⊎◌, ◌||◌, ℕ, List, [], None, Some, IfErr, OnOk};
ghost use Rattle.std.specs.Prelude.{OnErr, true};
ghost use Rattle.smt_terms.specs.Contents.{contents_of};
ghost use Rattle.smt_terms.specs.Library as terms;
ghost use Rattle.smt_terms.specs.Library.{terms_of, transient_of};
ghost use Rattle.smt_script.specs.Command.{effect_of};
ghost use Rattle.smt_script.specs.CommandView.{command_view};
ghost use Rattle.smt_script.specs.Stack.{Numbered, assertions_in_force, assumptions_in_force, depth_in_force};
ghost use Rattle.smt_script.specs.Stack.{ends_assumptions, flaw_of_effect};
ghost use Rattle.smt_script.specs.Stack.{has_exited, print_success_in_force, signature_in_force};
ghost use Rattle.smt_script.specs.StackView.{AreAssertions, AreTerms, HoldsAfter, StandsFor, last_of};
ghost use Rattle.smt_script.specs.StackView.{library_of, profile_of, start_of};
ghost use Rattle.smt_faults.specs.Outcome.{TellsCommand};

mod blames;
mod effects;
mod level_runs;
mod levels;

use crate::command::Command;
pub use level_runs::Levels;
pub use levels::Level;
use smt_faults::CommandFault;
use smt_terms::{Library, TermId};
use smt_theory::{Profile, all_theories};
use std::alloc::Global;

/// An assertion: the number of the command that made it, from 1; its term, by number in the stack's library; and how
/// many atoms and lists the term has.
#[derive(Clone, Copy)]
pub struct Assertion {
    pub command: u64,
    pub term: TermId,
    pub size: u32,
}

/// What is known of the logic, since the start or the last `Reset` (SMT-LIB 2.6, sections 4.1.1 and 4.2.1).
#[derive(Clone, Copy)]
pub struct LogicState {
    /// Whether a logic is set.
    pub(crate) set: bool,
    /// Whether it is too late to set a logic: a command declared, defined, asserted, changed levels or
    /// checked.
    pub(crate) late: bool,
}

impl LogicState {
    // Whether no logic may be set any more.
    fn is_fixed(self) -> bool
        ensures { result ≡ (self.set || self.late) }
    {
        self.set || self.late
    }
}

/// The settings before the first command, which are no part of a script.
#[derive(Clone, Copy)]
pub struct Start {
    /// Whether `success` is printed, until a command says otherwise.
    pub print_success: bool,
    /// The profile, which no command changes.
    pub profile: Profile,
}

/// What is in force after commands that took effect: theories, names, assertions and assertion levels
/// (SMT-LIB 2.6, sections 4.1.1, 4.1.4 and 4.2.2).
#[derive(Drop)]
pub struct Stack {
    alloc: Global,
    library: Library<'static>,
    assertions: Vec<Assertion>,
    /// The literals of the last check; none where something in force has changed since.
    assumptions: Vec<TermId>,
    /// For each level, what was there before it.
    levels: Levels,
    logic: LogicState,
    /// Whether declarations are global.
    global: bool,
    /// Whether `success` is printed now.
    print_success: bool,
    start: Start,
    exited: bool,
    /// The number of the last command that was applied, 0 before the first.
    last: u64,
}

impl Stack {
    /// A stack before any command, with all theories of the profile and nothing else in force.
    pub fn new(alloc: Global, start: Start) -> Self
        ensures stands { StandsFor result [] }
        ensures last { last_of result ≡ 0 }
        ensures start { start_of result ≡ start }
    {
        Stack {
            alloc,
            library: Library::new(alloc, all_theories(start.profile)),
            assertions: Vec::new(alloc),
            assumptions: Vec::new(alloc),
            levels: Levels::new(alloc),
            logic: LogicState {
                set: false,
                late: false,
            },
            global: false,
            print_success: start.print_success,
            start,
            exited: false,
            last: 0,
        }
    }

    /// The theories, abbreviations and names in force, and the terms of the assertions.
    pub fn library(&self) -> &Library<'_>
        ensures stands { (commands : List Numbered) → StandsFor self.now commands
            → terms.StandsFor result.now (signature_in_force (profile_of self.now) commands) }
        ensures view { result.now ≡ library_of self.now }
    {
        &self.library
    }

    /// The assertions in force, in order. Their terms are those of `library`.
    pub fn assertions(&self) -> &[Assertion]
        ensures { (commands : List Numbered) → StandsFor self.now commands
            → AreAssertions (contents_of (library_of self.now)) result.now
            (assertions_in_force (profile_of self.now) commands) }
    {
        self.assertions.as_slice()
    }

    /// The literals that the last check assumed, in order; none where something in force has changed since
    /// (SMT-LIB 2.6, section 4.2.5). Their terms are those of `library`.
    pub fn assumptions(&self) -> &[TermId]
        ensures { (commands : List Numbered) → StandsFor self.now commands
            → AreTerms (terms_of (library_of self.now)) result.now (assumptions_in_force commands) }
    {
        self.assumptions.as_slice()
    }

    /// The profile, which no command changes.
    pub fn profile(&self) -> Profile
        ensures { result ≡ profile_of self.now }
    {
        self.start.profile
    }

    /// How many assertion levels there are beside the first, from 0 to 10,000 (SMT-LIB 2.6, section 4.1.4).
    pub fn depth(&self) -> u64
        ensures { (commands : List Numbered) → StandsFor self.now commands
            → result ≡ depth_in_force commands }
    {
        self.levels.len() as u64
    }

    /// Whether the solver prints `success` for the next command that has no answer of its own (SMT-LIB 2.6,
    /// section 4.1.7). The last command that set it since the last `reset` says so; without one, it is as at
    /// the start.
    pub fn print_success(&self) -> bool
        ensures { (commands : List Numbered) → StandsFor self.now commands
            → result ≡ print_success_in_force (start_of self.now).print_success commands }
    {
        self.print_success
    }

    /// Whether an `exit` was applied (SMT-LIB 2.6, section 4.2.1).
    pub fn exited(&self) -> bool
        ensures { (commands : List Numbered) → StandsFor self.now commands → result ≡ has_exited commands }
    {
        self.exited
    }

    /// Applies a command that took effect, with its number. Commands count from 1, and their numbers grow.
    ///
    /// The error is the fault of the command's effect, or want of memory; what is in force then stays as it
    /// is. The faults of effects are:
    ///
    /// - `SetLogic`: `Logic` for a name that the profile does not accept. `Logic` too after a command that
    ///   set a logic, declared, defined, asserted, changed levels or checked, since the start or the last
    ///   `Reset` (SMT-LIB 2.6, sections 4.1.1 and 4.2.1).
    /// - `DeclareConst`, `DeclareFun`: `Term` with `NotFresh` for a name that is in use or is a plain
    ///   operator's. Then `Term` with the fault of the first tree that names no sort of the theories in force
    ///   (section 4.2.3).
    /// - `DefineFun`, `DefineConst`: the same for its name. Then, parameter by parameter, `Term` with the
    ///   fault of the tree of its sort, and with `BoundTwice` for the name of an earlier parameter. Then
    ///   `Term` with the fault of the tree of the result's sort. Then `Term` with the first fault of the
    ///   body, which sees the parameters and not the name, and with `IllSorted` for a body of another sort
    ///   (section 4.2.3).
    /// - `DefineSort`: `Term` with `NotFresh` for a name that stands for a sort, `Bool` and `Int`, in the wide
    ///   profile also `Real` and `Array`, and then with the fault of a tree that names no sort (section
    ///   4.2.3). `DeclareSort`: the same for its name.
    /// - `Assert`: `Term` with the first fault of its term, that of a label among them. Then `Term` with
    ///   `IllSorted` for a term that is no formula (sections 3.6.5 and 4.2.4).
    /// - `CheckSatAssuming`: `Term` with the fault of the first literal that has one, and with `IllSorted`
    ///   for one that is no formula (section 4.2.5).
    /// - `SetGlobalDeclarations`: `Logic` for another value than the one in force, after a command that
    ///   declared, defined, asserted, changed levels or checked, since the start or the last `Reset` (section
    ///   4.1.7).
    /// - `Push`: `TooDeep` where there would be more than 10,000 levels. `Pop`: `NoLevel` where it removes
    ///   more levels than there are (section 4.2.2).
    ///
    /// The other commands have no fault. `Pop` removes what came in the levels that it removes, and takes
    /// time for that alone. `ResetAssertions` removes everything but the logic and the options. While
    /// declarations are global, both remove assertions and levels, but no name, and no node that a definition
    /// needs. The stack keeps no tree of the command: its terms are nodes of the library, and those of
    /// assumptions are transient nodes.
    pub fn apply(&mut self, number: u64, command: &Command) -> Result<(), CommandFault>
        requires { last_of self.old < number }
        ensures faultless { OnOk result
            ((commands : List Numbered) → StandsFor self.old commands
            → flaw_of_effect (profile_of self.old) commands number (command_view command.now) ≡ None) }
        ensures applied { OnOk result ((commands : List Numbered) → StandsFor self.old commands
            → StandsFor self.new (commands ++ record { number = number; command = command_view command.now }
            ∷ [])) }
        ensures last { OnOk result (last_of self.new ≡ number) }
        ensures refused { IfErr result (λ fault. (commands : List Numbered) → StandsFor self.old commands
            → TellsCommand (flaw_of_effect (profile_of self.old) commands number (command_view command.now))
            fault) }
        ensures unchanged { OnErr result
            (((commands : List Numbered) → StandsFor self.old commands → StandsFor self.new commands)
            × (last_of self.new ≡ last_of self.old)
            × (contents_of (library_of self.new) ≡ contents_of (library_of self.old))) }
        ensures held { OnOk result (HoldsAfter self.old (effect_of (command_view command.now))
            (contents_of (library_of self.new))) }
        ensures ended { OnOk result (ends_assumptions (command_view command.now) ≡ true
            → transient_of (library_of self.new) ≡ []) }
        ensures start { start_of self.new ≡ start_of self.old }
    {
        self.try_effect(number, command)?;
        self.note(command);
        self.end_assumptions(command);
        self.last = number;
        Ok(())
    }
}
