//! The lines on faults: of a text, of a command, and of the pairing. This file finds no fault: the line of the report
//! names it. It says only in words what a command needs of the answers.

use crate::blames::tell_blame;
use crate::dialogue::{Dialogue, tell_answer, tell_command};
use smt_faults::{CommandFlaw, Memory, TermFlaw, TextFlaw};
use smt_remarks::Page;
use smt_report::{Line, Side};
use smt_script::{Command, Kind, read_command};
use smt_terms::Blame;
use smt_text::{Span, atom_spans, bytes_at, open_places};
use smt_theory::{Profile, op_of};

// ---- texts

/// Writes where a text has its fault: the rest of the line there, and what is still open.
pub(crate) fn tell_text_fault(page: &mut Page<'_>, profile: Profile, side: Side, flaw: TextFlaw) {
    page.begin("fault");
    page.set_spot(side, flaw.place());
    match flaw {
        TextFlaw::Byte { place } => {
            page.put(b"no text goes on like this: ");
            put_line(page, side, place)
        }
        TextFlaw::Deep { .. } => page.put(match profile {
            Profile::Base => b"a list at a depth over 1,000",
            Profile::Wide => b"a list at a depth over 1,000,000",
        }),
        TextFlaw::End { .. } => {
            page.put(b"the text ends here");
            tell_all_open(page, side)
        }
    }
}

// Writes what is open where a text ends: a token, and the innermost and the outermost list.
fn tell_all_open(page: &mut Page<'_>, side: Side) {
    let text = page.text(side);
    let Ok(open) = open_places(page.alloc(), text) else {
        return page.refuse();
    };
    tell_open(
        page,
        side,
        "string or quoted symbol that does not end",
        open.token,
    );
    tell_open(page, side, "open list", open.innermost);
    if open.outermost != open.innermost {
        tell_open(page, side, "outermost open list", open.outermost);
    }
}

fn tell_open(page: &mut Page<'_>, side: Side, kind: &'static str, place: Option<u64>) {
    if let Some(place) = place {
        page.begin(kind);
        page.set_spot(side, place);
        put_line(page, side, place);
    }
}

// Writes the rest of the line that begins at a byte.
fn put_line(page: &mut Page<'_>, side: Side, byte: u64) {
    let text = page.text(side);
    let rest = &text[usize::try_from(byte).unwrap_or(usize::MAX).min(text.len())..];
    let end = rest
        .iter()
        .position(|each| *each == b'\n')
        .unwrap_or(rest.len());
    page.put_squeezed(&rest[..end.min(rest.len())])
}

// ---- commands

/// Writes why a command is refused: the one in turn.
pub(crate) fn tell_command_fault(
    page: &mut Page<'_>,
    dialogue: &Dialogue<'_>,
    command: u64,
    flaw: CommandFlaw,
) {
    tell_command(page, dialogue, "fault", command);
    match flaw {
        CommandFlaw::Form => page.note(b"C1: no command of the standard, or not in its form"),
        CommandFlaw::Unsupported => page.note(b"C2: a command that is not supported"),
        CommandFlaw::TooDeep => page.note(b"C3: it makes more than 10,000 levels"),
        CommandFlaw::NoLevel => page.note(b"C4: it pops more levels than there are"),
        CommandFlaw::Logic => {
            page.note(
                b"C5: the logic or option is not supported, or is set behind a declaration or a check",
            )
        }
        CommandFlaw::AfterExit => page.note(b"C6: it stands behind an exit that took effect"),
        CommandFlaw::Term { flaw } => {
            page.note(b"C7: ");
            page.put(meaning_of(flaw));
            tell_term(page, dialogue)
        }
    }
}

/// What a flaw of a term, a sort or an item means.
pub(crate) fn meaning_of(flaw: TermFlaw) -> &'static [u8] {
    match flaw {
        TermFlaw::Form => b"F1: a sort, a term or an item is not in form",
        TermFlaw::Unsupported =>
            b"F2: a quantifier, a decimal, a string or a sort that is not supported",
        TermFlaw::Unknown => b"F3: a name, a sort or a literal is unknown there",
        TermFlaw::IllSorted =>
            b"F4: arguments that the head does not take, or another sort than is needed",
        TermFlaw::Index => b"F5: an index or a width is wrong; widths go from 1 to 128",
        TermFlaw::BoundTwice => b"F6: a name is bound twice",
        TermFlaw::NotFresh => b"F7: the name is in use, or is an operator's",
        TermFlaw::Label =>
            b"F8: a label outside an assertion, or at a term that uses a variable from outside",
    }
}

// Writes what is to blame for a flaw of the command in turn.
fn tell_term(page: &mut Page<'_>, dialogue: &Dialogue<'_>) {
    let Some((tree, span)) = dialogue.replay.command() else {
        return;
    };
    let Ok(command) = read_command(dialogue.texts.profile, tree) else {
        return;
    };
    match dialogue.replay.stack().blame(&command) {
        Ok(Some(blame)) => tell_blamed(page, dialogue, &blame, &command, span),
        Ok(None) => {}
        Err(Memory) => page.refuse(),
    }
}

fn tell_blamed(
    page: &mut Page<'_>,
    dialogue: &Dialogue<'_>,
    blame: &Blame<'_>,
    command: &Command<'_>,
    span: Span,
) {
    match (blame, command) {
        (Blame::Label { name }, _) => tell_label(page, dialogue, span, *name, true),
        (Blame::InUse { name }, Command::Assert { .. }) => {
            tell_label(page, dialogue, span, *name, false)
        }
        (Blame::InUse { name }, Command::DeclareSort { .. } | Command::DefineSort { .. }) =>
            match dialogue.sort_bringer(*name) {
                Some((number, _)) => tell_command(page, dialogue, "in use", number),
                None => page.note(b"it is a sort of a theory"),
            },
        (Blame::InUse { name }, _) => tell_bringer(page, dialogue, *name),
        (_, Command::Assert { .. }) => tell_blame(page, dialogue, b"its term", blame),
        (_, Command::CheckSatAssuming { .. }) => tell_blame(page, dialogue, b"a literal", blame),
        _ => tell_blame(page, dialogue, b"its body", blame),
    }
}

// Writes the label of an assertion whose name is in use, and by what: by an earlier label of the same assertion, where
// `is_second`, or else by a name in force before.
fn tell_label(
    page: &mut Page<'_>,
    dialogue: &Dialogue<'_>,
    command: Span,
    name: &[u8],
    is_second: bool,
) {
    let text = bytes_at(dialogue.texts.script, command);
    let mut first = None;
    let mut is_label = false;
    let Ok(atoms) = atom_spans(page.alloc(), text) else {
        return page.refuse();
    };
    for atom in atoms.as_slice() {
        let symbol = bytes_at(text, *atom);
        if is_label && without_bars(symbol) == name {
            let place = command.start.saturating_add(atom.start);
            if is_second && first.is_none() {
                first = Some(place);
            } else {
                page.begin("label");
                page.set_spot(Side::Script, place);
                page.put_cut(symbol);
                break;
            }
        }
        is_label = symbol == b":named".as_slice();
    }
    match first {
        Some(place) => {
            page.begin("in use");
            page.set_spot(Side::Script, place);
            page.put(b"this label")
        }
        None => tell_bringer(page, dialogue, name),
    }
}

/// The name that a symbol spells, without its bars.
pub(crate) fn without_bars(symbol: &[u8]) -> &[u8] {
    match symbol.strip_prefix(b"|") {
        Some(rest) => rest.strip_suffix(b"|").unwrap_or(rest),
        None => symbol,
    }
}

fn is_operator(dialogue: &Dialogue<'_>, name: &[u8]) -> bool {
    op_of(dialogue.library().theories(), name, &[]).is_ok()
}

/// Writes the command that brought a name, or that the name is an operator's.
pub(crate) fn tell_bringer(page: &mut Page<'_>, dialogue: &Dialogue<'_>, name: &[u8]) {
    match dialogue.bringer(name) {
        Some(number) => tell_command(page, dialogue, "in use", number),
        None if is_operator(dialogue, name) => page.note(b"it is an operator's name"),
        None => {}
    }
}

// ---- pairing

/// Writes which command and which answer do not fit. `next` is where the next answer stands.
pub(crate) fn tell_pairing(
    page: &mut Page<'_>,
    dialogue: &Dialogue<'_>,
    line: &Line,
    next: Option<Span>,
) {
    match *line {
        Line::MissingAnswer { command } => {
            tell_command(page, dialogue, "fault", command);
            tell_need(page, dialogue);
            page.begin("the answers end");
            page.set_spot(Side::Answers, u64::MAX)
        }
        Line::UnexpectedAnswer { command, .. } => {
            tell_command(page, dialogue, "fault", command);
            tell_need(page, dialogue);
            match next {
                Some(span) => tell_answer(page, "next answer", span),
                None => {}
            }
        }
        Line::ExtraAnswer { .. } => {
            if let Some(span) = next {
                tell_answer(page, "fault", span);
            }
            page.note(b"every command has its answer: this one, and all behind it, are left over")
        }
        _ => {}
    }
}

// Writes what the command in turn needs of the answers.
fn tell_need(page: &mut Page<'_>, dialogue: &Dialogue<'_>) {
    let Some((tree, _)) = dialogue.replay.command() else {
        return;
    };
    let Ok(read) = read_command(dialogue.texts.profile, tree) else {
        return;
    };
    page.note(match read.kind() {
        Kind::Check => b"it needs sat, unsat, unknown, unsupported or an error",
        Kind::Model => b"it needs a list, a model or an error, or unsupported",
        Kind::Echo => b"it needs a string, unsupported or an error",
        Kind::Query => b"it needs an answer other than success",
        _ => b"it needs success, unsupported or an error, since success is printed there",
    })
}
