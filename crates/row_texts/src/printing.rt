//! A program of rows: it reads the files named on its command line, and prints the results of their rows. This file
//! knows no kind of row.

use crate::rows::{Field, read};
use anyhow::{Context, Result};
use std::alloc::Global;
use std::io::{BufWriter, Write};
use std::rt::{Env, Files};
use std::{env, fs, io};

/// The results of rows.
pub trait Answers {
    /// Prints the results of the fields of a row with this title.
    fn print<W: Write>(
        &self,
        alloc: Global,
        out: &mut W,
        title: &Field,
        fields: &[Field],
    ) -> Result<()>;
}

/// Prints each row of the files named on the command line: its title, its results, and an empty line. It ends at
/// the first error.
pub fn run<R: Files + Env + AllocGlobal + Print, A: Answers>(rt: &R, answers: &A) -> Result<()> {
    let mut out = BufWriter::new(rt.alloc(), io::writer(rt))?;
    let outcome = print_files(rt, &mut out, answers);
    out.flush()?;
    outcome
}

fn print_files<R: Files + Env + AllocGlobal, W: Write, A: Answers>(
    rt: &R,
    out: &mut W,
    answers: &A,
) -> Result<()> {
    for name in env::args(rt)?.skip(1) {
        print_file(rt, out, answers, name.as_str())?;
    }
    Ok(())
}

fn print_file<R: Files + AllocGlobal, W: Write, A: Answers>(
    rt: &R,
    out: &mut W,
    answers: &A,
    name: &str,
) -> Result<()> {
    let text = fs::read_to_string(rt, name).context(format_args!("reading {name}"))?;
    print_text(rt.alloc(), out, answers, text.as_str()).context(format_args!("{name}"))
}

fn print_text<W: Write, A: Answers>(
    alloc: Global,
    out: &mut W,
    answers: &A,
    text: &str,
) -> Result<()> {
    let rows = read(alloc, text)?;
    print_rows(alloc, out, answers, rows.as_slice())
}

fn print_rows<W: Write, A: Answers>(
    alloc: Global,
    out: &mut W,
    answers: &A,
    rows: &[Vec<Field>],
) -> Result<()> {
    for row in rows {
        if let Some((title, fields)) = row.split_first() {
            print_row(alloc, out, answers, title, fields)?;
        }
    }
    Ok(())
}

fn print_row<W: Write, A: Answers>(
    alloc: Global,
    out: &mut W,
    answers: &A,
    title: &Field,
    fields: &[Field],
) -> Result<()> {
    writeln!(out, "{}", title.text)?;
    answers.print(alloc, out, title, fields)?;
    writeln!(out)?;
    Ok(())
}
