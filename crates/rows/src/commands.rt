//! Rows of commands: each command with `done` or its flaw, and then what is in force. This file reads no answers of
//! solvers, and evaluates nothing.

ghost use Rattle.std.specs.Prelude.{◌<◌, ◌≤◌};
ghost use Rattle.smt_script.specs.StackView.{last_of};

use crate::names::print_counts;
use crate::trees::{split_profile, tree_of};
use anyhow::{Result, bail};
use row_texts::{Field, is_on, want_key};
use smt_script::{Assertion, Command, CommandFault, Stack, Start, read_command};
use smt_trees::Tree;
use std::alloc::Global;
use std::io;
use std::io::Write;

/// Prints each command in order with `done` or its flaw, and then what the stack holds. The number of a command is
/// its place after `profile` and `start`, from 1; a refused command counts too.
pub(crate) fn print<W: Write>(alloc: Global, out: &mut W, fields: &[Field]) -> Result<()> {
    let (profile, fields) = split_profile(alloc, fields)?;
    let (print_success, fields) = split_print_success(fields)?;
    let start = Start {
        print_success,
        profile,
    };
    let mut stack = Stack::new(alloc, start);
    print_from_start(alloc, out, &mut stack, fields)
}

// Prints the outcomes of the commands of a row on a new stack, and then what the stack holds.
fn print_from_start<W: Write>(
    alloc: Global,
    out: &mut W,
    stack: &mut Stack,
    fields: &[Field],
) -> Result<()>
    requires { last_of stack.old < 1 }
{
    for (place, field) in fields.iter().enumerate() {
        print_command(alloc, out, stack, place as u64 + 1, field)?;
    }
    print_stack(out, stack)?;
    Ok(())
}

fn print_command<W: Write>(
    alloc: Global,
    out: &mut W,
    stack: &mut Stack,
    number: u64,
    field: &Field,
) -> Result<()>
    requires { last_of stack.old < number }
    ensures { last_of stack.new ≤ number }
{
    want_key(field, "command")?;
    let tree = tree_of(alloc, field)?;
    let outcome = take(stack, number, tree.view());
    print_outcome(out, number, field, outcome)?;
    Ok(())
}

fn print_outcome<W: Write>(
    out: &mut W,
    number: u64,
    field: &Field,
    outcome: Result<(), CommandFault>,
) -> Result<()> {
    match outcome {
        Ok(()) => writeln!(out, "{number} {} => done", field.text)?,
        Err(fault) => {
            let Some(flaw) = fault.flaw() else {
                bail!("out of memory")
            };
            writeln!(out, "{number} {} => {flaw}", field.text)?;
        }
    }
    Ok(())
}

// Whether the solver prints `success` before a command sets it, and the fields after the one that says so. Without
// such a field, it does.
fn split_print_success<'a, 'b>(fields: &'b [Field<'a>]) -> Result<(bool, &'b [Field<'a>])> {
    match fields.split_first() {
        Some((first, rest)) if first.key == "start" => Ok((is_on(first)?, rest)),
        _ => Ok((true, fields)),
    }
}

// Reads a command, and applies it to the stack.
fn take(stack: &mut Stack, number: u64, tree: Tree<'_>) -> Result<(), CommandFault>
    requires { last_of stack.old < number }
    ensures { last_of stack.new ≤ number }
{
    let command = read_command(stack.profile(), tree)?;
    apply(stack, number, &command)
}

// Applies a command to the stack, and once more where memory was refused: the first time has then changed nothing.
fn apply(stack: &mut Stack, number: u64, command: &Command<'_>) -> Result<(), CommandFault>
    requires { last_of stack.old < number }
    ensures { last_of stack.new ≤ number }
{
    match stack.apply(number, command) {
        Err(CommandFault::Memory) => stack.apply(number, command),
        outcome => outcome,
    }
}

// Prints what is in force: names, the numbers of the commands with assertions, the depth of levels, whether the
// solver prints `success`, and whether it has exited.
fn print_stack<W: Write>(out: &mut W, stack: &Stack) -> io::Result<()> {
    print_counts(out, "names", stack.library())?;
    print_assertions(out, stack.assertions())?;
    writeln!(out, "depth => {}", stack.depth())?;
    writeln!(out, "print-success => {}", stack.print_success())?;
    writeln!(out, "exited => {}", stack.exited())
}

fn print_assertions<W: Write>(out: &mut W, assertions: &[Assertion]) -> io::Result<()> {
    write!(out, "assertions =>")?;
    for assertion in assertions {
        write!(out, " {}", assertion.command)?;
    }
    writeln!(out)
}
