//! Remarks as lines for people: those that tell of a place begin with it, as a compiler's do. Each line has at most 200
//! printable bytes, and a line of the report at most 200 of them. This file knows nothing of what they say.

ghost use Rattle.std.proofs.Props.{props};
ghost use Rattle.std.specs.Prelude.{◌≡◌, ◌≤◌, ◌+◌, length, true};
ghost use Rattle.std.specs.List.{list_all};
ghost use Rattle.smt_remarks.specs.Lines.{are_lines, is_printable, line_count};

use crate::remark::{Explained, Remark, Spot, Value};
use smt_faults::Memory;
use std::alloc::{AllocError, Global};

/// The most bytes of a line, without its end.
const WIDTH: usize = 200;

/// The most lines, beside the one that counts those left out.
const LINES: u64 = 199;

/// The most bytes of a file's name that are written: the last ones.
const NAME: usize = 100;

/// Lines that are being written.
#[derive(Drop)]
struct Sheet {
    alloc: Global,
    out: Vec<u8>,
    line: Vec<u8>,
    /// How many lines there are, and how many were left out.
    lines: u64,
    left_out: u64,
    /// Whether memory was refused.
    is_refused: bool,
    ghost told: { are_lines 200 out.items ≡ true } by { Prim.hlevel props },
    ghost few: { line_count out.items ≤ lines } by { Prim.hlevel props },
    ghost most: { lines ≤ 199 } by { Prim.hlevel props },
    ghost printable: { list_all is_printable line.items ≡ true } by { Prim.hlevel props },
    ghost fits: { length line.items ≤ 200 } by { Prim.hlevel props },
}

/// Writes remarks behind the lines that are there.
pub(crate) fn print(alloc: Global, told: &Explained<'_>, out: &mut Vec<u8>) -> Result<(), Memory>
    requires { are_lines 200 out.old.items ≡ true }
    ensures lines { are_lines 200 out.new.items ≡ true }
    ensures few { line_count out.new.items ≤ line_count out.old.items + 200 }
{
    let mut sheet = Sheet::new(alloc, told.left_out);
    for remark in told.remarks.as_slice() {
        put_remark(&mut sheet, remark);
    }
    sheet.finish(out)
}

impl Sheet {
    // An empty sheet, from which so much was left out.
    fn new(alloc: Global, left_out: u64) -> Sheet {
        Sheet {
            alloc,
            out: Vec::new(alloc),
            line: Vec::new(alloc),
            lines: 0,
            left_out,
            is_refused: false,
        }
    }

    // Adds bytes at the end of the line, up to its width. Of what is no printable ASCII a `?` is written.
    fn put(&mut self, bytes: &[u8]) {
        for byte in bytes {
            if self.line.len() >= WIDTH {
                return;
            }
            self.put_byte(*byte);
        }
    }

    fn put_byte(&mut self, byte: u8) {
        let printable = if byte < b' ' || byte > b'~' {
            b'?'
        } else {
            byte
        };
        if self.line.len() < WIDTH && self.line.push(printable).is_err() {
            self.is_refused = true;
        }
    }

    fn put_number(&mut self, number: u64) {
        match format!(in self.alloc; "{number}") {
            Ok(text) => self.put(text.as_bytes()),
            Err(_) => self.is_refused = true,
        }
    }

    // Adds the place with which a line begins.
    fn put_spot(&mut self, spot: Spot<'_>) {
        let name = spot.file.as_bytes();
        self.put(&name[name.len().saturating_sub(NAME)..]);
        self.put(b":");
        self.put_number(spot.line);
        self.put(b":");
        self.put_number(spot.column);
        self.put(b": ");
    }

    // Ends the line, and leaves it out where there are all lines.
    fn end(&mut self) {
        if self.lines < LINES {
            if append_line(&mut self.out, &mut self.line).is_err() {
                self.is_refused = true;
            }
            self.lines += 1;
        } else {
            self.left_out = self.left_out.saturating_add(1);
        }
        self.line.clear();
    }

    // Adds the lines to others, and says how many were left out.
    fn finish(&mut self, out: &mut Vec<u8>) -> Result<(), Memory>
        requires { are_lines 200 out.old.items ≡ true }
        ensures lines { are_lines 200 out.new.items ≡ true }
        ensures few { line_count out.new.items ≤ line_count out.old.items + 200 }
    {
        self.line.clear();
        let has_left_out = self.left_out > 0;
        if has_left_out {
            self.put(b"    (and ");
            self.put_number(self.left_out);
            self.put(b" more)");
        }
        self.close(has_left_out, out)
    }

    // The same, with a line more where there is one.
    #[tactic(auto, using(crate::proofs::LineLemmas::lines_then, crate::proofs::LineLemmas::count_then))]
    fn close(&mut self, has_line: bool, out: &mut Vec<u8>) -> Result<(), Memory>
        requires { are_lines 200 out.old.items ≡ true }
        ensures lines { are_lines 200 out.new.items ≡ true }
        ensures few { line_count out.new.items ≤ line_count out.old.items + 200 }
    {
        if has_line && append_line(&mut self.out, &mut self.line).is_err() {
            self.is_refused = true;
        }
        let is_added = out.extend_from_slice(self.out.as_slice()).is_ok() && !self.is_refused;
        self.out.clear();
        self.line.clear();
        self.lines = 0;
        self.left_out = 0;
        if is_added { Ok(()) } else { Err(Memory) }
    }
}

// Adds a line to lines. Leaves them as they were where memory is refused.
#[tactic(auto, using(crate::proofs::LineLemmas::line_added, crate::proofs::LineLemmas::count_added))]
fn append_line(out: &mut Vec<u8>, line: &mut Vec<u8>) -> Result<(), AllocError>
    requires told { are_lines 200 out.old.items ≡ true }
    requires printable { list_all is_printable line.old.items ≡ true }
    requires fits { length line.old.items ≤ 200 }
    ensures lines { are_lines 200 out.new.items ≡ true }
    ensures more { line_count out.new.items ≤ line_count out.old.items + 1 }
{
    if line.push(b'\n').is_err() {
        return Err(AllocError);
    }
    out.extend_from_slice(line.as_slice())
}

// ---- what lines say

fn put_remark(sheet: &mut Sheet, remark: &Remark<'_>) {
    put_begin(sheet, remark.spot);
    sheet.put(remark.kind.as_bytes());
    if let Some(number) = remark.number {
        sheet.put(b" ");
        sheet.put_number(number);
    }
    if let Some(command) = remark.command {
        sheet.put(b", command ");
        sheet.put_number(command);
    }
    if let Some(name) = &remark.within {
        sheet.put(b", in ");
        sheet.put(name.as_bytes());
    }
    if !remark.text.is_empty() {
        sheet.put(if remark.kind.is_empty() { b"" } else { b": " });
        sheet.put(remark.text.as_bytes());
    }
    sheet.end();
    put_more(sheet, remark);
}

fn put_begin(sheet: &mut Sheet, spot: Option<Spot<'_>>) {
    match spot {
        Some(spot) => sheet.put_spot(spot),
        None => sheet.put(b"    "),
    }
}

// Writes the reason of a remark, its values and its items.
fn put_more(sheet: &mut Sheet, remark: &Remark<'_>) {
    if let Some(reason) = remark.reason {
        sheet.put(b"    ");
        sheet.put(reason.as_bytes());
        sheet.end();
    }
    put_values(sheet, remark.values.as_slice());
    for item in remark.items.as_slice() {
        sheet.put_spot(item.spot);
        sheet.put(b"item ");
        sheet.put(item.name.as_bytes());
        sheet.end();
    }
}

// Writes values side by side, each whole on a line.
fn put_values(sheet: &mut Sheet, values: &[Value]) {
    for value in values {
        let needed = value
            .term
            .len()
            .saturating_add(value.value.len())
            .saturating_add(8);
        let given = match &value.given {
            Some(given) => given.len().saturating_add(3),
            None => 0,
        };
        if sheet.line.is_empty() {
            sheet.put(b"    ");
        } else if sheet
            .line
            .len()
            .saturating_add(needed)
            .saturating_add(given)
            > WIDTH
        {
            sheet.end();
            sheet.put(b"    ");
        } else {
            sheet.put(b", ");
        }
        put_value(sheet, value);
    }
    if !sheet.line.is_empty() {
        sheet.end();
    }
}

fn put_value(sheet: &mut Sheet, value: &Value) {
    sheet.put(value.term.as_bytes());
    if let Some(given) = &value.given {
        sheet.put(b" = ");
        sheet.put(given.as_bytes());
    }
    sheet.put(b" = ");
    sheet.put(value.value.as_bytes());
}
