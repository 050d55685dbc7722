//! The commands that are supported, each of a kind. This file knows no stack and no answers.

ghost use Rattle.std.specs.Prelude.{◌≡◌};
ghost use Rattle.smt_script.specs.Command as commands;
ghost use Rattle.smt_script.specs.CommandView.{command_view};

use smt_theory::{Profile, theories_of};
use smt_trees::{Tree, Trees};

/// A command, which borrows its parts (SMT-LIB 2.6, section 4.2). Names are without bars, and keywords without
/// their colon.
#[derive(Clone, Copy)]
pub enum Command<'a> {
    /// `(set-logic name)` (section 4.2.1). Any name is kept: `Stack::apply` refuses a logic that is not
    /// supported.
    SetLogic {
        name: &'a [u8],
    },
    /// `(set-option :print-success true)`, or `false` (section 4.1.7): whether the solver prints `success`.
    SetPrintSuccess {
        on: bool,
    },
    /// `(set-option :global-declarations true)`, or `false` (section 4.1.7). With `true`, new names and
    /// abbreviations stay in force until a `reset`; with `false`, they go with their levels, as assertions
    /// do.
    SetGlobalDeclarations {
        on: bool,
    },
    /// `(set-option keyword value)` for any other option, with a value or without (section 4.1.7).
    SetOption {
        keyword: &'a [u8],
        value: Option<Tree<'a>>,
    },
    /// `(set-info keyword value)`, with a value or without (section 4.2.9).
    SetInfo {
        keyword: &'a [u8],
        value: Option<Tree<'a>>,
    },
    /// `(declare-const name sort)` (section 4.2.3).
    DeclareConst {
        name: &'a [u8],
        sort: Tree<'a>,
    },
    /// `(declare-fun name (sort ..) sort)` (section 4.2.3): `params` are the trees of the parameters' sorts.
    DeclareFun {
        name: &'a [u8],
        params: Trees<'a>,
        sort: Tree<'a>,
    },
    /// `(define-fun name ((x sort) ..) sort body)` (section 4.2.3): each of `params` is a list of a symbol
    /// and the tree of a sort.
    DefineFun {
        name: &'a [u8],
        params: Trees<'a>,
        sort: Tree<'a>,
        body: Tree<'a>,
    },
    /// `(define-const name sort body)`, only in the wide profile: a `define-fun` without parameters (SMT-LIB
    /// 2.7).
    DefineConst {
        name: &'a [u8],
        sort: Tree<'a>,
        body: Tree<'a>,
    },
    /// `(declare-sort name 0)` (section 4.2.3), only in the wide profile.
    DeclareSort {
        name: &'a [u8],
    },
    /// `(define-sort name () sort)` (section 4.2.3).
    DefineSort {
        name: &'a [u8],
        sort: Tree<'a>,
    },
    /// `(assert term)` (section 4.2.4).
    Assert {
        term: Tree<'a>,
    },
    /// `(push levels)` (section 4.2.2). `levels` are the decimal digits of the number of levels, of any
    /// length; `None` is `(push)`, one level, only in the wide profile.
    Push {
        levels: Option<&'a [u8]>,
    },
    /// `(pop levels)` (section 4.2.2), with `levels` as for `Push`.
    Pop {
        levels: Option<&'a [u8]>,
    },
    /// `(reset)` (section 4.2.1).
    Reset,
    /// `(reset-assertions)` (section 4.2.2).
    ResetAssertions,
    /// `(exit)` (section 4.2.1).
    Exit,
    /// `(check-sat)` (section 4.2.5).
    CheckSat,
    /// `(check-sat-assuming (literal ..))` (section 4.2.5). Each literal is a symbol, or a list of the symbol
    /// `not` and a symbol; in the wide profile, any tree.
    CheckSatAssuming {
        literals: Trees<'a>,
    },
    /// `(get-model)` (section 4.2.6).
    GetModel,
    /// `(echo "text")` (section 4.2.8).
    Echo {
        text: &'a [u8],
    },
    /// Any other command that asks for something.
    Get {
        query: Query<'a>,
    },
}

impl Command<'_> {
    /// The kind of the command.
    pub fn kind(&self) -> Kind
        ensures { result ≡ commands.kind_of (command_view self.now) }
    {
        match self {
            Command::SetLogic { name } => Kind::Logic {
                is_known: is_known_logic(name),
            },
            Command::SetPrintSuccess { on } => Kind::PrintSuccess { on: *on },
            Command::SetGlobalDeclarations { .. } => Kind::Setting,
            Command::SetOption { .. } | Command::SetInfo { .. } => Kind::Setting,
            Command::DeclareConst { .. } | Command::DeclareFun { .. } => Kind::Change,
            Command::DefineFun { .. } | Command::DefineConst { .. } => Kind::Change,
            Command::DeclareSort { .. } | Command::DefineSort { .. } => Kind::Change,
            Command::Assert { .. } | Command::ResetAssertions => Kind::Change,
            Command::Push { .. } | Command::Pop { .. } => Kind::Change,
            Command::Reset => Kind::Reset,
            Command::Exit => Kind::Exit,
            Command::CheckSat | Command::CheckSatAssuming { .. } => Kind::Check,
            Command::GetModel => Kind::Model,
            Command::Echo { .. } => Kind::Echo,
            Command::Get { .. } => Kind::Query,
        }
    }
}

// Whether the wide profile has a logic of this name.
fn is_known_logic(name: &[u8]) -> bool
    ensures { result ≡ commands.is_known_logic name.now }
{
    theories_of(Profile::Wide, name).is_some()
}

/// The kind of a command. It settles all that is asked of a command, except for what the command does to the
/// stack.
#[derive(Clone, Copy)]
pub enum Kind {
    /// It sets the logic. `is_known` says whether the wide profile has a logic of the name.
    Logic { is_known: bool },
    /// It sets whether `success` is printed.
    PrintSuccess { on: bool },
    /// It sets another option, or information.
    Setting,
    /// It declares, defines, asserts, changes levels, or removes all assertions.
    Change,
    /// It removes everything, the logic too.
    Reset,
    /// It ends the script.
    Exit,
    /// It asks whether the assertions in force are satisfiable.
    Check,
    /// It asks for a model.
    Model,
    /// It asks for its own text to be printed.
    Echo,
    /// It asks for something else.
    Query,
}

/// What a solver is asked for other than models (SMT-LIB 2.6, sections 4.2.4 to 4.2.8).
#[derive(Clone, Copy)]
pub enum Query<'a> {
    /// `(get-value (term ..))`, with one term or more, which are not checked.
    Values { terms: Trees<'a> },
    /// `(get-info keyword)`.
    Info { keyword: &'a [u8] },
    /// `(get-option keyword)`.
    Setting { keyword: &'a [u8] },
    /// `(get-assertions)`.
    Assertions,
    /// `(get-assignment)`.
    Assignment,
    /// `(get-proof)`.
    Proof,
    /// `(get-unsat-core)`.
    UnsatCore,
    /// `(get-unsat-assumptions)`.
    UnsatAssumptions,
}
