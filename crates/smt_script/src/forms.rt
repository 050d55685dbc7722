//! The trees that are commands, and why another tree is none. This file knows no stack, and does not say what
//! a command does.

ghost use Rattle.std.specs.Prelude.{◌≡◌, Some, Ok, Err, MatchResult, option_map, bytes_eq, if◌then◌else◌};
ghost use Rattle.smt_theory.specs.declared.profile.Profile.TheVariants.{Base};
ghost use Rattle.smt_trees.specs.Sexp.{Cons, Sexp, Sexps};
ghost use Rattle.smt_trees.specs.View.{sexp_of, sexps_of};
ghost use Rattle.smt_script.specs.Command as commands;
ghost use Rattle.smt_script.specs.CommandView.{command_view, levels_in, query_view};

mod shapes;

use crate::command::{Command, Query};
use crate::forms::shapes::{
    any_list, is_abbreviation, is_global_declarations, keyword_and_value, name_and_abbreviated,
    name_and_definition, name_and_rank, name_and_sort, name_and_two, name_and_zero,
    numeral_or_none, one_keyword, one_list, one_list_of_literals, one_numeral, one_symbol,
    one_text, one_tree, truth_of_value,
};
use smt_faults::CommandFlaw;
use smt_theory::Profile;
use smt_trees::{Tree, Trees, Word};

/// The command that a tree is in a profile (SMT-LIB 2.6, section 4.2).
///
/// The error is `Unsupported` for a list that begins with the name of an unsupported command, whatever
/// follows, and for a `define-sort` with parameters. For every other tree that is no command it is `Form`.
pub fn read_command<'a>(profile: Profile, tree: Tree<'a>) -> Result<Command<'a>, CommandFlaw>
    ensures { MatchResult result
        (λ command. commands.command_of profile (sexp_of tree.entry) ≡ Ok (command_view command))
        (λ flaw. commands.command_of profile (sexp_of tree.entry) ≡ Err flaw) }
{
    let Tree::List(parts) = tree else {
        return Err(CommandFlaw::Form);
    };
    let Some((head, rest)) = parts.split_first() else {
        return Err(CommandFlaw::Form);
    };
    let Tree::Reserved(word) = head else {
        return named_command(profile, head, rest);
    };
    match command_with(profile, word, rest) {
        Some(command) => Ok(command),
        None => Err(refusal(word, rest)),
    }
}

// The command of a list that does not begin with a reserved word.
fn named_command<'a>(
    profile: Profile,
    head: Tree<'_>,
    parts: Trees<'a>,
) -> Result<Command<'a>, CommandFlaw>
    ensures { MatchResult result
        (λ command. commands.command_named profile (sexp_of head.entry) (sexps_of parts.entry)
        ≡ Some (command_view command))
        (λ flaw. (commands.command_named profile (sexp_of head.entry) (sexps_of parts.entry) ≡ None)
        × (flaw ≡ CommandFlaw.Form)) }
{
    if !is_constant_definition(profile, head) {
        return Err(CommandFlaw::Form);
    }
    match constant_defined(parts) {
        Some(command) => Ok(command),
        None => Err(CommandFlaw::Form),
    }
}

fn is_constant_definition(profile: Profile, head: Tree<'_>) -> bool
    ensures { result ≡ commands.is_constant_definition profile (sexp_of head.entry) }
{
    match profile {
        Profile::Base => false,
        Profile::Wide => head.is_symbol(b"define-const"),
    }
}

fn constant_defined(parts: Trees<'_>) -> Option<Command<'_>>
    ensures { option_map command_view result ≡ commands.constant_defined (sexps_of parts.entry) }
{
    let (name, sort, body) = name_and_two(parts)?;
    Some(Command::DefineConst { name, sort, body })
}

// The command of this word with these parts after it.
fn command_with<'a>(profile: Profile, word: Word, parts: Trees<'a>) -> Option<Command<'a>>
    ensures { option_map command_view result ≡ commands.command_with profile word (sexps_of parts.entry) }
{
    match word {
        Word::SetLogic => Some(Command::SetLogic {
            name: one_symbol(parts)?,
        }),
        Word::SetOption => option(parts),
        Word::SetInfo => info(parts),
        Word::DeclareConst => constant(parts),
        Word::DeclareFun => function(parts),
        Word::DefineFun => definition(parts),
        Word::DeclareSort => sort_declaration(profile, parts),
        Word::DefineSort => abbreviation(parts),
        Word::Assert => Some(Command::Assert {
            term: one_tree(parts)?,
        }),
        Word::Push => Some(Command::Push {
            levels: levels_of(profile, parts)?,
        }),
        Word::Pop => Some(Command::Pop {
            levels: levels_of(profile, parts)?,
        }),
        Word::Echo => Some(Command::Echo {
            text: one_text(parts)?,
        }),
        Word::Reset => alone(Command::Reset, parts),
        Word::ResetAssertions => alone(Command::ResetAssertions, parts),
        Word::Exit => alone(Command::Exit, parts),
        Word::CheckSat => alone(Command::CheckSat, parts),
        Word::CheckSatAssuming => assuming(profile, parts),
        Word::GetModel => alone(Command::GetModel, parts),
        Word::GetValue => asked_values(parts),
        Word::GetInfo => asked_info(parts),
        Word::GetOption => asked_setting(parts),
        Word::GetAssertions => query(Query::Assertions, parts),
        Word::GetAssignment => query(Query::Assignment, parts),
        Word::GetProof => query(Query::Proof, parts),
        Word::GetUnsatCore => query(Query::UnsatCore, parts),
        Word::GetUnsatAssumptions => query(Query::UnsatAssumptions, parts),
        Word::Bang | Word::Underscore | Word::As | Word::Binary | Word::Decimal => None,
        Word::Exists | Word::Hexadecimal | Word::Forall | Word::Let | Word::Match => None,
        Word::Numeral | Word::Par | Word::String => None,
        Word::DeclareDatatype | Word::DeclareDatatypes => None,
        Word::DefineFunRec | Word::DefineFunsRec => None,
    }
}

// A command without parts.
fn alone<'a>(command: Command<'a>, parts: Trees<'a>) -> Option<Command<'a>>
    ensures { option_map command_view result ≡ commands.alone (command_view command.entry) (sexps_of parts.entry) }
{
    parts.split_first().is_none().then_some(command)
}

// The setting of an option. The values of `:print-success` and `:global-declarations` have to be truth
// values.
fn option(parts: Trees<'_>) -> Option<Command<'_>>
    ensures { option_map command_view result ≡ commands.command_with Base Word.SetOption (sexps_of parts.entry) }
{
    let (keyword, value) = keyword_and_value(parts)?;
    if is_print_success(keyword) {
        let on = truth_of_value(value)?;
        return Some(Command::SetPrintSuccess { on });
    }
    if is_global_declarations(keyword) {
        let on = truth_of_value(value)?;
        return Some(Command::SetGlobalDeclarations { on });
    }
    Some(Command::SetOption { keyword, value })
}

fn is_print_success(keyword: &[u8]) -> bool
    ensures { result ≡ commands.is_print_success keyword.now }
{
    keyword == b"print-success".as_slice()
}

fn info(parts: Trees<'_>) -> Option<Command<'_>>
    ensures { option_map command_view result ≡ commands.command_with Base Word.SetInfo (sexps_of parts.entry) }
{
    let (keyword, value) = keyword_and_value(parts)?;
    Some(Command::SetInfo { keyword, value })
}

fn constant(parts: Trees<'_>) -> Option<Command<'_>>
    ensures { option_map command_view result ≡ commands.command_with Base Word.DeclareConst (sexps_of parts.entry) }
{
    let (name, sort) = name_and_sort(parts)?;
    Some(Command::DeclareConst { name, sort })
}

fn function(parts: Trees<'_>) -> Option<Command<'_>>
    ensures { option_map command_view result ≡ commands.command_with Base Word.DeclareFun (sexps_of parts.entry) }
{
    let (name, params, sort) = name_and_rank(parts)?;
    Some(Command::DeclareFun { name, params, sort })
}

fn definition(parts: Trees<'_>) -> Option<Command<'_>>
    ensures { option_map command_view result ≡ commands.command_with Base Word.DefineFun (sexps_of parts.entry) }
{
    let (name, params, sort, body) = name_and_definition(parts)?;
    Some(Command::DefineFun {
        name,
        params,
        sort,
        body,
    })
}

// The declaration of a sort: only in the wide profile, and without parameters.
fn sort_declaration<'a>(profile: Profile, parts: Trees<'a>) -> Option<Command<'a>>
    ensures { option_map command_view result
        ≡ commands.command_with profile Word.DeclareSort (sexps_of parts.entry) }
{
    let name = sort_declared_by(profile, parts)?;
    Some(Command::DeclareSort { name })
}

fn sort_declared_by<'a>(profile: Profile, parts: Trees<'a>) -> Option<&'a [u8]>
    ensures { option_map (λ name. name.now) result ≡ commands.sort_declared_by profile (sexps_of parts.entry) }
{
    match profile {
        Profile::Base => None,
        Profile::Wide => name_and_zero(parts),
    }
}

fn abbreviation(parts: Trees<'_>) -> Option<Command<'_>>
    ensures { option_map command_view result ≡ commands.command_with Base Word.DefineSort (sexps_of parts.entry) }
{
    let (name, sort) = name_and_abbreviated(parts)?;
    Some(Command::DefineSort { name, sort })
}

// A command that asks for something other than a model.
fn query<'a>(query: Query<'a>, parts: Trees<'a>) -> Option<Command<'a>>
    ensures { option_map command_view result
        ≡ commands.alone (commands.Get (query_view query.entry)) (sexps_of parts.entry) }
{
    alone(Command::Get { query }, parts)
}

// The digits of the number of levels; in the wide profile there may be none, for one level.
fn levels_of<'a>(profile: Profile, parts: Trees<'a>) -> Option<Option<&'a [u8]>>
    ensures { option_map (λ levels. levels_in (option_map (λ digits. digits.now) levels)) result
        ≡ commands.levels_of profile (sexps_of parts.entry) }
{
    match profile {
        Profile::Base => Some(Some(one_numeral(parts)?)),
        Profile::Wide => numeral_or_none(parts),
    }
}

fn assuming<'a>(profile: Profile, parts: Trees<'a>) -> Option<Command<'a>>
    ensures { option_map command_view result
        ≡ commands.command_with profile Word.CheckSatAssuming (sexps_of parts.entry) }
{
    let literals = assumed_of(profile, parts)?;
    Some(Command::CheckSatAssuming { literals })
}

// The assumptions: literals, and in the wide profile any terms.
fn assumed_of<'a>(profile: Profile, parts: Trees<'a>) -> Option<Trees<'a>>
    ensures { option_map sexps_of result ≡ commands.assumed_of profile (sexps_of parts.entry) }
{
    match profile {
        Profile::Base => one_list_of_literals(parts),
        Profile::Wide => any_list(parts),
    }
}

fn asked_values(parts: Trees<'_>) -> Option<Command<'_>>
    ensures { option_map command_view result ≡ commands.command_with Base Word.GetValue (sexps_of parts.entry) }
{
    let terms = one_list(parts)?;
    let query = Query::Values { terms };
    Some(Command::Get { query })
}

fn asked_setting(parts: Trees<'_>) -> Option<Command<'_>>
    ensures { option_map command_view result ≡ commands.command_with Base Word.GetOption (sexps_of parts.entry) }
{
    let keyword = one_keyword(parts)?;
    let query = Query::Setting { keyword };
    Some(Command::Get { query })
}

fn asked_info(parts: Trees<'_>) -> Option<Command<'_>>
    ensures { option_map command_view result ≡ commands.command_with Base Word.GetInfo (sexps_of parts.entry) }
{
    let keyword = one_keyword(parts)?;
    let query = Query::Info { keyword };
    Some(Command::Get { query })
}

// What is wrong with a list that begins with this word, and is no command.
fn refusal(word: Word, parts: Trees<'_>) -> CommandFlaw
    ensures { result ≡ commands.refusal word (sexps_of parts.entry) }
{
    match word {
        Word::DeclareDatatype | Word::DeclareDatatypes => CommandFlaw::Unsupported,
        Word::DeclareSort | Word::DefineFunRec | Word::DefineFunsRec => CommandFlaw::Unsupported,
        Word::DefineSort => unsupported_if(is_abbreviation(parts)),
        Word::Bang | Word::Underscore | Word::As | Word::Binary | Word::Decimal =>
            CommandFlaw::Form,
        Word::Exists | Word::Hexadecimal | Word::Forall | Word::Let | Word::Match =>
            CommandFlaw::Form,
        Word::Numeral | Word::Par | Word::String | Word::Assert => CommandFlaw::Form,
        Word::CheckSat | Word::CheckSatAssuming => CommandFlaw::Form,
        Word::DeclareConst | Word::DeclareFun | Word::DefineFun | Word::Echo => CommandFlaw::Form,
        Word::Exit | Word::GetAssertions | Word::GetAssignment => CommandFlaw::Form,
        Word::GetInfo | Word::GetModel | Word::GetOption | Word::GetProof => CommandFlaw::Form,
        Word::GetUnsatAssumptions | Word::GetUnsatCore | Word::GetValue => CommandFlaw::Form,
        Word::Pop | Word::Push | Word::Reset | Word::ResetAssertions => CommandFlaw::Form,
        Word::SetInfo | Word::SetLogic | Word::SetOption => CommandFlaw::Form,
    }
}

fn unsupported_if(unsupported: bool) -> CommandFlaw
    ensures { result ≡ (if unsupported then CommandFlaw.Unsupported else CommandFlaw.Form) }
{
    if unsupported {
        CommandFlaw::Unsupported
    } else {
        CommandFlaw::Form
    }
}
