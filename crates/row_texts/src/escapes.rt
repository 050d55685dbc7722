//! The texts of fields, and the bytes that they stand for. This file knows no field and no row.
//!
//! | written | stands for |
//! |---|---|
//! | `\n`, `\t`, `\r` | line feed, tab, carriage return |
//! | `\\`, `\{`, `\}` | the byte after the backslash |
//! | `\x0a` | the byte of this number, by two hexadecimal digits |
//! | `\*12{..}` | the text in the braces, 12 times |
//! | `\#`, `\-` | in braces: the number of the present repetition, from 1, and the number before it |
//! | `\*#{..}` | in braces: the text in these, as often as the number of the outer repetition |
//!
//! Every other byte but `}` in braces stands for itself.

ghost use Rattle.std.specs.Prelude.{◌≡◌, ◌<◌, [], ◌++◌, Some, IfOk, OnOk};
ghost use Rattle.std.specs.Result.{result_ok};
ghost use Rattle.row_texts.specs.Escapes.{bytes_meant, bytes_of, bytes_of_all, pieces_after, letter_escape};
ghost use Rattle.row_texts.specs.Escapes.{hexadecimal_digit, read_byte, read_outside, read_escaped, read_times};
ghost use Rattle.row_texts.specs.Escapes.{read_brace, close_brace, after_piece};
ghost use Rattle.row_texts.specs.Internal.Parts.{piece_of, pieces_in, braces_onto, reading_of, HasDigit};

use anyhow::{Result, bail};
use std::alloc::{AllocError, Global};
use std::io::Write;
use std::{io, mem};

/// How often a text is repeated.
#[derive(Clone, Copy)]
enum Times {
    Count(u64),
    /// As often as the number of the outer repetition.
    Outer,
}

/// A part of a text.
#[derive(Drop)]
enum Part {
    Byte(u8),
    /// The number of the repetition.
    Number,
    /// The number before it.
    Before,
    Repeat { times: Times, parts: Vec<Part> },
}

/// The state of the reader: how much of an escape it has read.
#[derive(Clone, Copy)]
enum State {
    /// It is in no escape.
    Outside,
    Backslash,
    /// The two digits of a byte come next.
    Byte,
    /// The second of them comes next.
    SecondDigit { first: u8 },
    /// The count of a repetition comes next.
    Repeat,
    /// The opening brace comes next, or one more digit.
    Brace { times: Times },
}

/// The reader, with the parts of the text so far.
#[derive(Drop)]
struct Reader {
    alloc: Global,
    state: State,
    /// The parts after the last open brace.
    parts: Vec<Part>,
    /// For each open brace the parts before it, and how often its text is repeated.
    outer: Vec<(Vec<Part>, Times)>,
}

/// The bytes that a text stands for.
pub(crate) fn unescape(alloc: Global, text: &str) -> Result<Vec<u8>>
    ensures { IfOk result (λ bytes. bytes_meant text.now ≡ Some bytes.items) }
{
    let mut reader = Reader {
        alloc,
        state: State::Outside,
        parts: Vec::new(alloc),
        outer: Vec::new(alloc),
    };
    reader.take_all(text)?;
    let mut bytes = Vec::new(alloc);
    write_parts(reader.parts.as_slice(), &mut bytes)?;
    Ok(bytes)
}

// Writes the parts of a whole text.
fn write_parts(parts: &[Part], bytes: &mut Vec<u8>) -> io::Result<()>
    ensures { OnOk result (bytes.new.items ≡ bytes.old.items ++ bytes_of_all (pieces_in parts.now) 0) }
{
    for part in parts {
        part.write(0, bytes)?;
    }
    Ok(())
}

impl Reader {
    fn take_all(&mut self, text: &str) -> Result<()>
        requires { HasDigit self.old.state }
        ensures { OnOk result (pieces_after (self.old.state, reading_of self.old) text.now
            ≡ Some (pieces_in self.new.parts.items)) }
    {
        for byte in text.bytes() {
            self.state = self.take(byte)?;
        }
        if !matches!(self.state, State::Outside) || !self.outer.is_empty() {
            bail!("the text ends inside an escape");
        }
        Ok(())
    }

    // Consumes one byte, and returns the state after it.
    fn take(&mut self, byte: u8) -> Result<State>
        requires { HasDigit self.old.state }
        ensures digit { IfOk result HasDigit }
        ensures read { IfOk result (λ state. read_byte self.old.state (reading_of self.old) byte
            ≡ Some (state, reading_of self.new)) }
    {
        match self.state {
            State::Outside => Ok(self.take_outside(byte)?),
            State::Backslash => self.take_escaped(byte),
            State::Byte => Ok(State::SecondDigit {
                first: hex_digit(byte)?,
            }),
            State::SecondDigit { first } => Ok(self.add(Part::Byte(
                first * 16 + hex_digit(byte)?,
            ))?),
            State::Repeat => self.take_times(byte),
            State::Brace { times } => self.take_brace(byte, times),
        }
    }

    fn take_outside(&mut self, byte: u8) -> Result<State, AllocError>
        ensures digit { IfOk result HasDigit }
        ensures read { IfOk result (λ state. read_outside (reading_of self.old) byte ≡ (state, reading_of self.new)) }
    {
        match byte {
            b'\\' => Ok(State::Backslash),
            b'}' => self.close_brace(),
            _ => self.add(Part::Byte(byte)),
        }
    }

    fn take_escaped(&mut self, byte: u8) -> Result<State>
        ensures digit { IfOk result HasDigit }
        ensures read { IfOk result (λ state. read_escaped (reading_of self.old) byte
            ≡ Some (state, reading_of self.new)) }
    {
        match byte {
            b'x' => Ok(State::Byte),
            b'*' => Ok(State::Repeat),
            b'#' if !self.outer.is_empty() => Ok(self.add(Part::Number)?),
            b'-' if !self.outer.is_empty() => Ok(self.add(Part::Before)?),
            _ => Ok(self.add(Part::Byte(escaped(byte)?))?),
        }
    }

    fn take_times(&mut self, byte: u8) -> Result<State>
        ensures digit { IfOk result HasDigit }
        ensures read { IfOk result (λ state. read_times (reading_of self.old) byte
            ≡ Some (state, reading_of self.new)) }
    {
        match byte {
            b'0'..=b'9' => Ok(State::Brace {
                times: Times::Count(u64::from(byte - b'0')),
            }),
            b'#' if !self.outer.is_empty() => Ok(State::Brace {
                times: Times::Outer,
            }),
            _ => bail!("a repetition is not in form"),
        }
    }

    fn take_brace(&mut self, byte: u8, times: Times) -> Result<State>
        ensures digit { IfOk result HasDigit }
        ensures read { IfOk result (λ state. read_brace times (reading_of self.old) byte
            ≡ Some (state, reading_of self.new)) }
    {
        match (byte, times) {
            (b'{', _) => {
                let before = mem::replace(&mut self.parts, Vec::new(self.alloc));
                self.outer.push((before, times))?;
                Ok(State::Outside)
            }
            (b'0'..=b'9', Times::Count(count)) => {
                let digit = u64::from(byte - b'0');
                let times = Times::Count(count.saturating_mul(10).saturating_add(digit));
                Ok(State::Brace { times })
            }
            _ => bail!("a repetition is not in form"),
        }
    }

    // Ends the innermost repetition. Outside of every repetition the brace is a byte like any other.
    fn close_brace(&mut self) -> Result<State, AllocError>
        ensures outside { IfOk result (λ state. state ≡ State.Outside) }
        ensures closed { OnOk result (reading_of self.new
            ≡ close_brace (pieces_in self.old.parts.items) (braces_onto self.old.outer.items [])) }
    {
        match self.outer.pop() {
            Some((before, times)) => {
                let parts = mem::replace(&mut self.parts, before);
                self.add(Part::Repeat { times, parts })
            }
            None => self.add(Part::Byte(b'}')),
        }
    }

    fn add(&mut self, part: Part) -> Result<State, AllocError>
        ensures digit { IfOk result HasDigit }
        ensures read { IfOk result (λ state. after_piece (reading_of self.old) (piece_of part)
            ≡ (state, reading_of self.new)) }
    {
        self.parts.push(part)?;
        Ok(State::Outside)
    }
}

impl Part {
    // Writes the part; `number` is that of the repetition it is in.
    fn write(&self, number: u64, bytes: &mut Vec<u8>) -> io::Result<()>
        ensures { OnOk result (bytes.new.items ≡ bytes.old.items ++ bytes_of (piece_of self.now) number) }
    {
        match self {
            Part::Byte(byte) => bytes.push(*byte)?,
            Part::Number => write!(bytes, "{number}")?,
            Part::Before => write!(bytes, "{}", number.saturating_sub(1))?,
            Part::Repeat { times, parts } => {
                let count = match times {
                    Times::Count(count) => *count,
                    Times::Outer => number,
                };
                for number in 1..=count {
                    for part in parts {
                        part.write(number, bytes)?;
                    }
                }
            }
        }
        Ok(())
    }
}

// The byte that an escape of one letter stands for.
fn escaped(byte: u8) -> Result<u8>
    ensures { result_ok result ≡ letter_escape byte }
{
    match byte {
        b'n' => Ok(b'\n'),
        b't' => Ok(b'\t'),
        b'r' => Ok(b'\r'),
        b'\\' | b'{' | b'}' => Ok(byte),
        _ => bail!("there is no such escape"),
    }
}

fn hex_digit(byte: u8) -> Result<u8>
    ensures digit { result_ok result ≡ hexadecimal_digit byte }
    ensures below { IfOk result (λ digit. digit < 16) }
{
    match byte {
        b'0'..=b'9' => Ok(byte - b'0'),
        b'a'..=b'f' => Ok(byte - b'a' + 10),
        _ => bail!("a byte has two hexadecimal digits, 0 to 9 and a to f"),
    }
}
