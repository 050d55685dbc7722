//! What is to blame for the effect of a command that is refused. This file changes nothing, and knows no parts of
//! terms.

ghost use Rattle.std.specs.Prelude.{List, IfOk};
ghost use Rattle.smt_terms.specs.Blame.{IsToldOver};
ghost use Rattle.smt_terms.specs.Library as terms;
ghost use Rattle.smt_terms.specs.Signature.{Signature};
ghost use Rattle.smt_script.specs.Stack.{Numbered, signature_in_force};
ghost use Rattle.smt_script.specs.StackView.{StandsFor, profile_of};

use crate::command::Command;
use crate::stack::Stack;
use smt_faults::Memory;
use smt_forms::params_of;
use smt_terms::{Blame, Library};
use smt_trees::{Tree, Trees};

impl Stack {
    /// What is to blame for the fault with which `apply` refuses a command; `None` where it refuses it for its logic or
    /// its levels, for a fault of another kind than F3, F4, F6 and F7, or not at all. It is the first such name or
    /// part, in the order in which `apply` looks at them, and the time is in proportion to the command.
    ///
    /// The only error is want of memory.
    pub fn blame<'t>(&self, command: &Command<'t>) -> Result<Option<Blame<'t>>, Memory>
        ensures { (commands : List Numbered) → StandsFor self.now commands
            → IfOk result (IsToldOver (signature_in_force (profile_of self.now) commands)) }
    {
        blame_over(self.library(), command)
    }
}

// The same over the library of what is in force.
fn blame_over<'t>(library: &Library<'_>, command: &Command<'t>) -> Result<Option<Blame<'t>>, Memory>
    ensures { (s : Signature) → terms.StandsFor library.now s → IfOk result (IsToldOver s) }
{
    match command {
        Command::DeclareConst { name, sort } => {
            Ok(library.blame_of_declaration(*name, Trees::empty(), *sort))
        }
        Command::DeclareFun { name, params, sort } => {
            Ok(library.blame_of_declaration(*name, *params, *sort))
        }
        Command::DefineFun {
            name,
            params,
            sort,
            body,
        } => blame_of_definition(library, *name, *params, *sort, *body),
        Command::DefineConst { name, sort, body } => {
            blame_of_definition(library, *name, Trees::empty(), *sort, *body)
        }
        Command::DeclareSort { name } => Ok(library.blame_of_sort_name(*name)),
        Command::DefineSort { name, sort } => Ok(library.blame_of_abbreviation(*name, *sort)),
        Command::Assert { term } => library.blame_of_assertion(*term),
        Command::CheckSatAssuming { literals } => library.blame_of_assumptions(*literals),
        _ => Ok(None),
    }
}

fn blame_of_definition<'t>(
    library: &Library<'_>,
    name: &'t [u8],
    params: Trees<'t>,
    sort: Tree<'t>,
    body: Tree<'t>,
) -> Result<Option<Blame<'t>>, Memory>
    ensures { (s : Signature) → terms.StandsFor library.now s → IfOk result (IsToldOver s) }
{
    let params = params_of(library.alloc(), params)?;
    library.blame_of_definition(name, params.as_slice(), sort, body)
}
