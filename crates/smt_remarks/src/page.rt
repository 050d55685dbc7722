//! The remarks on a line of a report, as they are told. This file knows no form in which they are written.

ghost use Rattle.std.specs.Prelude.{◌≡◌, ◌≤◌, ◌+◌, true};
ghost use Rattle.smt_remarks.specs.Lines.{count_in, is_lined};

use crate::form::Form;
use crate::remark::{Explained, Item, Remark, Spot, Value};
use crate::sarif::put_result;
use crate::text::print;
use smt_faults::Memory;
use smt_report::Side;
use smt_text::Lines;
use std::alloc::{AllocError, Global};
use std::mem;

/// The most bytes of a text.
const WIDTH: usize = 200;

/// The most bytes of a text that is written without a gap in its middle.
const CUT: usize = 120;

/// The most remarks on a line of the report, and the most values and items of a remark.
pub const MOST: usize = 199;

/// A text of a dialogue, and the name of its file.
#[derive(Clone, Copy)]
pub struct File<'t> {
    pub name: &'t str,
    pub text: &'t [u8],
}

/// The remarks on a line of a report. The last one takes what is put, unless there was no room for it.
#[derive(Drop)]
pub struct Page<'t> {
    alloc: Global,
    script: File<'t>,
    answers: File<'t>,
    script_lines: Lines<'t>,
    answer_lines: Lines<'t>,
    remarks: Vec<Remark<'t>>,
    /// Whether the last remark takes what is put.
    is_begun: bool,
    left_out: u64,
    /// Whether memory was refused.
    is_refused: bool,
}

impl<'t> Page<'t> {
    /// An empty page over both texts.
    pub fn new(alloc: Global, script: File<'t>, answers: File<'t>) -> Page<'t> {
        Page {
            alloc,
            script,
            answers,
            script_lines: Lines::new(alloc, script.text),
            answer_lines: Lines::new(alloc, answers.text),
            remarks: Vec::new(alloc),
            is_begun: false,
            left_out: 0,
            is_refused: false,
        }
    }

    /// The allocator of the page.
    pub fn alloc(&self) -> Global {
        self.alloc
    }

    /// The text of a side.
    pub fn text(&self, side: Side) -> &'t [u8] {
        match side {
            Side::Script => self.script.text,
            Side::Answers => self.answers.text,
        }
    }

    /// Notes that memory was refused: `finish` says so.
    pub fn refuse(&mut self) {
        self.is_refused = true;
    }

    /// Whether a remark fits, and another after it.
    pub fn has_room(&self) -> bool {
        self.remarks.len() + 1 < MOST
    }

    /// Begins a remark of this kind.
    pub fn begin(&mut self, kind: &'static str) {
        self.is_begun = self.remarks.len() < MOST;
        if !self.is_begun {
            self.left_out = self.left_out.saturating_add(1);
            return;
        }
        let remark = Remark {
            kind,
            number: None,
            spot: None,
            command: None,
            within: None,
            text: String::new(self.alloc),
            reason: None,
            values: Vec::new(self.alloc),
            items: Vec::new(self.alloc),
        };
        match self.remarks.push(remark) {
            Ok(()) => {}
            Err(_) => self.refuse(),
        }
    }

    /// Begins a remark that is a sentence alone.
    pub fn note(&mut self, text: &[u8]) {
        self.begin("");
        self.put(text);
    }

    fn last(&mut self) -> Option<&mut Remark<'t>> {
        if self.is_begun {
            self.remarks.last_mut()
        } else {
            None
        }
    }

    // The place of a byte of a text, or of its end.
    fn spot_of(&mut self, side: Side, byte: u64) -> Option<Spot<'t>> {
        let (position, file) = match side {
            Side::Script => (self.script_lines.position(byte), self.script),
            Side::Answers => (self.answer_lines.position(byte), self.answers),
        };
        match position {
            Ok(position) => Some(Spot {
                file: file.name,
                line: position.line,
                column: position.column,
                byte: byte.min(file.text.len() as u64),
            }),
            Err(Memory) => None,
        }
    }

    /// Sets the place of the remark: a byte of a text, or its end.
    pub fn set_spot(&mut self, side: Side, byte: u64) {
        let spot = self.spot_of(side, byte);
        if spot.is_none() {
            self.refuse();
        }
        if let Some(remark) = self.last() {
            remark.spot = spot;
        }
    }

    /// Sets the number of the remark, as of a check.
    pub fn set_number(&mut self, number: u64) {
        if let Some(remark) = self.last() {
            remark.number = Some(number);
        }
    }

    /// Sets the number of the command that stands there.
    pub fn set_command(&mut self, command: u64) {
        if let Some(remark) = self.last() {
            remark.command = Some(command);
        }
    }

    /// Sets the reason of the remark.
    pub fn set_reason(&mut self, reason: &'static str) {
        if let Some(remark) = self.last() {
            remark.reason = Some(reason);
        }
    }

    /// Sets the definition in which it stands.
    pub fn set_within(&mut self, name: &[u8]) {
        let text = cut(self.alloc, name);
        match text {
            Ok(text) => {
                if let Some(remark) = self.last() {
                    remark.within = Some(text);
                }
            }
            Err(AllocError) => self.refuse(),
        }
    }

    /// Adds bytes to the text of the remark, as far as it has room. Of what is no printable ASCII the number is
    /// written.
    pub fn put(&mut self, bytes: &[u8]) {
        if let Some(remark) = self.last()
            && add(&mut remark.text, bytes).is_err()
        {
            self.refuse();
        }
    }

    /// Adds a text, without its middle where it is long.
    pub fn put_cut(&mut self, text: &[u8]) {
        if let Some(remark) = self.last()
            && add_cut(&mut remark.text, text).is_err()
        {
            self.refuse();
        }
    }

    /// The same of a text for which memory may have been refused.
    pub fn put_text(&mut self, text: Result<Vec<u8>, Memory>) {
        match text {
            Ok(text) => self.put_cut(text.as_slice()),
            Err(Memory) => self.refuse(),
        }
    }

    /// The same for a piece of a file; each run of spaces, tabs and line ends becomes one space.
    pub fn put_squeezed(&mut self, text: &[u8]) {
        let begin = &text[..text.len().min(2 * CUT)];
        let end = &text[begin.len().max(text.len().saturating_sub(CUT))..];
        let squeezed = squeezed(self.alloc, begin, end);
        self.put_text(squeezed);
    }

    /// Adds a number, in decimal.
    pub fn put_number(&mut self, number: u64) {
        match format!(in self.alloc; "{number}") {
            Ok(text) => self.put(text.as_bytes()),
            Err(_) => self.refuse(),
        }
    }

    /// Adds the value of a term to the remark. Of a variable `given` is the term that it stands for.
    pub fn add_value(&mut self, term: &[u8], given: Option<&[u8]>, value: &[u8]) {
        let alloc = self.alloc;
        match value_of(alloc, term, given, value) {
            Ok(value) => {
                if let Some(remark) = self.last()
                    && remark.values.push(value).is_err()
                {
                    self.refuse();
                }
            }
            Err(AllocError) => self.refuse(),
        }
    }

    /// Adds an item to the remark: its name, and the byte of the answers where it stands.
    pub fn add_item(&mut self, name: &[u8], byte: u64) {
        let Some(spot) = self.spot_of(Side::Answers, byte) else {
            return self.refuse();
        };
        match cut(self.alloc, name) {
            Ok(name) => {
                if let Some(remark) = self.last()
                    && remark.items.push(Item { name, spot }).is_err()
                {
                    self.refuse();
                }
            }
            Err(AllocError) => self.refuse(),
        }
    }

    /// Writes the remarks on a line of the report behind what is there: of this check, or of a fault. The page is empty
    /// afterwards.
    ///
    /// The only error is want of memory, also of calls before.
    pub fn finish(
        &mut self,
        out: &mut Vec<u8>,
        check: Option<u64>,
        outcome: &'static str,
        form: Form,
    ) -> Result<(), Memory>
        requires { is_lined form out.old.items ≡ true }
        ensures lines { is_lined form out.new.items ≡ true }
        ensures few { count_in form out.new.items ≤ count_in form out.old.items + 200 }
    {
        let told = Explained {
            check,
            outcome,
            remarks: mem::replace(&mut self.remarks, Vec::new(self.alloc)),
            left_out: self.left_out,
        };
        self.left_out = 0;
        if self.is_refused {
            return Err(Memory);
        }
        match form {
            Form::Text => print(self.alloc, &told, out),
            Form::Json => put_json(self.alloc, &told, out),
            Form::Sarif => put_result(self.alloc, &told, [self.script, self.answers], out),
        }
    }
}

// ---- texts

// Both pieces of a text, with one space for each run of spaces, tabs and line ends.
fn squeezed(alloc: Global, begin: &[u8], end: &[u8]) -> Result<Vec<u8>, Memory> {
    let mut squeezed = Vec::new(alloc);
    squeeze(&mut squeezed, begin)?;
    squeeze(&mut squeezed, end)?;
    Ok(squeezed)
}

// Adds a text with one space for each run of spaces, tabs and line ends.
fn squeeze(out: &mut Vec<u8>, text: &[u8]) -> Result<(), Memory> {
    let mut gap = false;
    for byte in text {
        let is_gap = matches!(*byte, b' ' | b'\t' | b'\n' | b'\r');
        if !is_gap {
            out.push(*byte)?;
        } else if !gap {
            out.push(b' ')?;
        }
        gap = is_gap;
    }
    Ok(())
}

// Adds bytes to a text, as far as it has room. Of what is no printable ASCII the number is written.
fn add(text: &mut String, bytes: &[u8]) -> Result<(), AllocError> {
    for byte in bytes {
        if text.len() >= WIDTH {
            return Ok(());
        }
        match *byte {
            b' '..=b'~' => text.push(char::from(*byte))?,
            other => add_escaped(text, other)?,
        }
    }
    Ok(())
}

fn add_escaped(text: &mut String, byte: u8) -> Result<(), AllocError> {
    if text.len().saturating_add(4) > WIDTH {
        return Ok(());
    }
    text.push_str("\\x")?;
    text.push(char::from(digit(byte / 16)))?;
    text.push(char::from(digit(byte % 16)))
}

fn digit(number: u8) -> u8 {
    match number {
        low if low < 10 => b'0' + low,
        high => b'a' + (high - 10) % 6,
    }
}

// Adds a text, without its middle where it is long.
fn add_cut(to: &mut String, text: &[u8]) -> Result<(), AllocError> {
    if first_within(text, CUT) == text.len() {
        return add(to, text);
    }
    let begin = first_within(text, CUT / 2).min(text.len());
    add(to, &text[..begin])?;
    add(to, b" .. ")?;
    add(
        to,
        &text[text.len().saturating_sub(last_within(text, CUT / 3))..],
    )
}

// How many of the first bytes fit in so much room as they are written.
fn first_within(text: &[u8], room: usize) -> usize {
    let mut left = room;
    for (place, byte) in text.iter().enumerate() {
        let size = written_size(*byte);
        if left < size {
            return place;
        }
        left -= size;
    }
    text.len()
}

// The same of the last bytes.
fn last_within(text: &[u8], room: usize) -> usize {
    let mut left = room;
    let most = text.len().min(room);
    for place in 0..most {
        let size = written_size(text[text.len() - 1 - place]);
        if left < size {
            return place;
        }
        left -= size;
    }
    most
}

// How many bytes are written for a byte.
fn written_size(byte: u8) -> usize {
    if matches!(byte, b' '..=b'~') { 1 } else { 4 }
}

// A text, without its middle where it is long.
fn cut(alloc: Global, text: &[u8]) -> Result<String, AllocError> {
    let mut out = String::new(alloc);
    add_cut(&mut out, text)?;
    Ok(out)
}

fn value_of(
    alloc: Global,
    term: &[u8],
    given: Option<&[u8]>,
    value: &[u8],
) -> Result<Value, AllocError> {
    let term = cut(alloc, term)?;
    let given = match given {
        Some(given) => Some(cut(alloc, given)?),
        None => None,
    };
    let mut text = String::new(alloc);
    add(&mut text, value)?;
    Ok(Value {
        term,
        given,
        value: text,
    })
}

// Writes remarks as an object of JSON on a line of its own.
fn put_json(alloc: Global, told: &Explained<'_>, out: &mut Vec<u8>) -> Result<(), Memory> {
    match serde_json::to_vec(alloc, told) {
        Ok(json) => {
            out.extend_from_slice(json.as_slice())?;
            out.push(b'\n')?;
            Ok(())
        }
        Err(_) => Err(Memory),
    }
}
