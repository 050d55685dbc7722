//! A dialogue that is gone over again: where its commands and answers stand, and which command brought what is in
//! force. This file tells nothing.

ghost use Rattle.std.specs.Prelude.{◌≡◌, ◌+◌, IfOk, true};
ghost use Rattle.smt_dialogue.specs.Replays.{number_of};
ghost use Rattle.smt_eval.specs.Interpretation.{HoldsScript};
ghost use Rattle.smt_explain.specs.InForce.{IsInForce};

use smt_dialogue::{Limit, Options, Replay};
use smt_faults::{Memory, TextFault};
use smt_reasons::put_tree;
use smt_remarks::{File, Page};
use smt_report::Side;
use smt_terms::{Found, Library};
use smt_text::{Next, Reader, Span, bytes_at, gap_length};
use smt_theory::Profile;
use smt_trees::{OwnedTree, Tree, Word};
use std::alloc::Global;

/// The most bytes of a piece of a file that is written as the tree that it is, without its comments.
const TREE: usize = 4096;

/// Both texts of a dialogue, and the names of their files. `prints_success` says whether the solver prints
/// `success` from the start, and `profile` which language the texts are in. The explanation of one check may take
/// `steps` steps of evaluation.
#[derive(Clone, Copy)]
pub struct Texts<'a> {
    pub script: &'a [u8],
    pub answers: &'a [u8],
    pub script_name: &'a str,
    pub answers_name: &'a str,
    pub prints_success: bool,
    pub profile: Profile,
    pub steps: u64,
}

impl<'a> Texts<'a> {
    /// The script with the name of its file.
    pub(crate) fn script_file(&self) -> File<'a> {
        File {
            name: self.script_name,
            text: self.script,
        }
    }

    /// The answers with the name of their file.
    pub(crate) fn answers_file(&self) -> File<'a> {
        File {
            name: self.answers_name,
            text: self.answers,
        }
    }
}

/// A dialogue up to the command in turn.
#[derive(Drop)]
pub(crate) struct Dialogue<'a> {
    pub(crate) texts: Texts<'a>,
    pub(crate) replay: Replay<'a>,
    /// Where each command ends.
    ends: Vec<u64>,
    /// For each definition in force the number of the command that brought it.
    brought: Vec<u64>,
    /// The names of sorts that commands brought, each with its command and whether that declares it.
    sorts: Vec<SortName>,
}

// A name of a sort.
#[derive(Drop)]
struct SortName {
    name: Vec<u8>,
    command: u64,
    is_declared: bool,
}

impl<'a> Dialogue<'a> {
    /// A dialogue before its first command.
    pub(crate) fn new(alloc: Global, texts: Texts<'a>) -> Dialogue<'a>
        ensures { IsInForce result.replay }
    {
        Dialogue {
            texts,
            replay: Replay::new(alloc, texts.script, texts.answers, options_of(texts)),
            ends: Vec::new(alloc),
            brought: Vec::new(alloc),
            sorts: Vec::new(alloc),
        }
    }
}

fn options_of(texts: Texts<'_>) -> Options {
    Options {
        print_success: texts.prints_success,
        profile: texts.profile,
        limit: Limit { steps: 0 },
    }
}

impl Dialogue<'_> {
    /// How deep lists may nest in both texts.
    pub(crate) fn max_depth(&self) -> usize {
        options_of(self.texts).max_depth()
    }

    /// Goes on to the next command; `false` where the dialogue ends.
    pub(crate) fn advance(&mut self) -> Result<bool, Memory>
        ensures in_force { IsInForce self.old.replay
            → IfOk result (λ goes_on. goes_on ≡ true → IsInForce self.new.replay) }
        ensures number { IfOk result (λ goes_on. goes_on ≡ true
            → number_of self.new.replay ≡ number_of self.old.replay + 1) }
    {
        let before = self.replay.number();
        if !self.replay.advance()? {
            return Ok(false);
        }
        let count = self.replay.stack().library().definitions().len();
        note_brought(&mut self.brought, count, before)?;
        let end = match self.replay.command() {
            Some((_, span)) => span.end,
            None => return Ok(true),
        };
        self.ends.push(end)?;
        if let Some(sort) = sort_in_turn(&self.replay)? {
            self.sorts.push(sort)?;
        }
        Ok(true)
    }

    /// The last command before the one in turn that brought a sort of this name, and whether it declares it.
    pub(crate) fn sort_bringer(&self, name: &[u8]) -> Option<(u64, bool)> {
        for sort in self.sorts.as_slice().iter().rev() {
            if sort.name.as_slice() == name && sort.command < self.number() {
                return Some((sort.command, sort.is_declared));
            }
        }
        None
    }

    /// The number of the command in turn.
    pub(crate) fn number(&self) -> u64
        ensures { result ≡ number_of self.now.replay }
    {
        self.replay.number()
    }

    /// What is in force before the command in turn.
    pub(crate) fn library(&self) -> &Library<'_>
        ensures { IsInForce self.now.replay → HoldsScript result.now }
    {
        self.replay.stack().library()
    }

    /// Where a command stands, by its number.
    pub(crate) fn span_of(&self, number: u64) -> Option<Span> {
        let place = usize::try_from(number).ok()?.checked_sub(1)?;
        let end = *self.ends.get(place)?;
        let from = match place.checked_sub(1) {
            Some(before) => *self.ends.get(before)?,
            None => 0,
        };
        let rest = bytes_at(self.texts.script, Span { start: from, end });
        Some(Span {
            start: from.saturating_add(gap_length(rest) as u64),
            end,
        })
    }

    /// The text of a command.
    pub(crate) fn text_of(&self, number: u64) -> &[u8] {
        match self.span_of(number) {
            Some(span) => bytes_at(self.texts.script, span),
            None => &[],
        }
    }

    /// The tree of a command, where it is read anew.
    pub(crate) fn tree_of(&self, alloc: Global, number: u64) -> Result<Option<OwnedTree>, Memory> {
        first_tree(alloc, self.text_of(number), self.max_depth())
    }

    /// The numbers of the commands that brought the definitions in force.
    pub(crate) fn brought(&self) -> &[u64] {
        self.brought.as_slice()
    }

    /// The name of the sort that a command declares.
    pub(crate) fn declared_sort(&self, command: u64) -> &[u8] {
        for sort in self.sorts.as_slice() {
            if sort.command == command {
                return sort.name.as_slice();
            }
        }
        b""
    }

    /// The number of the command that brought a name in force.
    pub(crate) fn bringer(&self, name: &[u8]) -> Option<u64> {
        match self.library().find(name)? {
            Found::Declared(place) => Some(self.library().declared().get(place)?.command),
            Found::Defined(place) => self.brought.get(place).copied(),
        }
    }
}

// Notes the command that brought the definitions of which there are so many now.
fn note_brought(brought: &mut Vec<u64>, count: usize, command: u64) -> Result<(), Memory> {
    brought.truncate(count);
    for _new in brought.len()..count {
        brought.push(command)?;
    }
    Ok(())
}

// The name of the sort that the command in turn brings.
fn sort_in_turn(replay: &Replay<'_>) -> Result<Option<SortName>, Memory> {
    let Some((tree, _)) = replay.command() else {
        return Ok(None);
    };
    let Some((word, name)) = sort_of_command(tree) else {
        return Ok(None);
    };
    Ok(Some(SortName {
        name: Vec::from_slice(replay.stack().library().alloc(), name)?,
        command: replay.number(),
        is_declared: word == Word::DeclareSort,
    }))
}

// The word and the name of a command that brings a sort.
fn sort_of_command(tree: Tree<'_>) -> Option<(Word, &[u8])> {
    let Tree::List(parts) = tree else {
        return None;
    };
    match parts.split_first() {
        Some((Tree::Reserved(word), rest))
            if word == Word::DeclareSort || word == Word::DefineSort => {
            match rest.split_first() {
                Some((Tree::Symbol(name), _)) => Some((word, name)),
                _ => None,
            }
        }
        _ => None,
    }
}

// The first tree of a text; `None` where the text has no tree.
fn first_tree(alloc: Global, text: &[u8], max_depth: usize) -> Result<Option<OwnedTree>, Memory> {
    let mut reader = Reader::new(alloc, max_depth);
    reader.feed(text);
    reader.finish();
    match reader.next() {
        Next::Tree(tree) => Ok(Some(tree)),
        Next::Fault(TextFault::Memory) => Err(Memory),
        _ => Ok(None),
    }
}

// ---- places on a page

/// Writes what stands at a place of a text, without its comments where it has at most 4,096 bytes.
pub(crate) fn put_piece(page: &mut Page<'_>, side: Side, span: Span) {
    let text = page.text(side);
    let piece = bytes_at(text, span);
    if piece.len() > TREE {
        return page.put_squeezed(piece);
    }
    match first_tree(page.alloc(), piece, TREE) {
        Ok(Some(tree)) => put_tree(page, tree.view()),
        Ok(None) => page.put_squeezed(piece),
        Err(Memory) => page.refuse(),
    }
}

/// Tells of a command: its place and its text.
pub(crate) fn tell_command(
    page: &mut Page<'_>,
    dialogue: &Dialogue<'_>,
    kind: &'static str,
    command: u64,
) {
    page.begin(kind);
    if let Some(span) = dialogue.span_of(command) {
        page.set_spot(Side::Script, span.start);
        page.set_command(command);
        put_piece(page, Side::Script, span);
    }
}

/// Tells what stands in the answers, with its place.
pub(crate) fn tell_answer(page: &mut Page<'_>, kind: &'static str, span: Span) {
    page.begin(kind);
    page.set_spot(Side::Answers, span.start);
    put_piece(page, Side::Answers, span)
}
