//! The texts of values, sorts and names, as SMT-LIB writes them (section 3.1, and the theories). This file knows no
//! term.

ghost use Rattle.std.specs.Prelude.{◌≡◌, ◌<◌, ◌≤◌, ◌*◌, ◌++◌, ◌^◌, IfOk, OnOk, codes, false};
ghost use Rattle.std.specs.Fmt.{digit_glyph};
ghost use Rattle.smt_values.specs.Element.{element_of};
ghost use Rattle.smt_terms.specs.Library.{element_names_of};
ghost use Rattle.smt_reasons.specs.ValueTexts.{IsSymbol, IsTextOf, IsTextOfSort, digits_below, element_named};
ghost use Rattle.smt_reasons.specs.ValueTexts.{quotient_text, text_of_bits, text_of_fraction};
ghost use Rattle.smt_reasons.specs.ValueTexts.{text_of_integer, text_of_real};

use smt_bits::Bits;
use smt_eval::Parts;
use smt_faults::{Memory, TextFault};
use smt_text::read_trees;
use smt_theory::{Sort, SortKind};
use smt_values::{ElementNumber, Ratio, Value};
use std::alloc::Global;

/// The most bytes of a name that are looked at.
const MOST: usize = 4096;

/// The text of a value over these nodes; a bit vector in hexadecimal where its width allows, an integer with `.0` where
/// it is a real's. Of an element it is the name that its number has among those of the model's elements, of an array
/// that it is one.
pub(crate) fn value_text(
    alloc: Global,
    parts: Parts<'_>,
    is_real: bool,
    value: &Value,
) -> Result<Vec<u8>, Memory>
    ensures { IfOk result (λ text. IsTextOf (element_names_of parts.entry.interpretation.now.definitions)
        is_real (element_of value.now) text.items) }
{
    match value {
        Value::Bool(true) => Ok(Vec::from_slice(alloc, b"true")?),
        Value::Bool(false) => Ok(Vec::from_slice(alloc, b"false")?),
        Value::Bits(bits) => bits_text(alloc, *bits),
        Value::Int(number) if is_real => real_text(alloc, number.get()),
        Value::Int(number) => integer_text(alloc, number.get()),
        Value::Ratio(ratio) => fraction_text(alloc, *ratio),
        Value::Abstract(number) if number.array_place().is_some() => {
            Ok(Vec::from_slice(alloc, b"an array")?)
        }
        Value::Abstract(number) => symbol_text(alloc, element_name(parts, *number)),
    }
}

// The name of an element's number.
fn element_name(parts: Parts<'_>, number: ElementNumber) -> &[u8]
    ensures { result.now ≡ element_named (element_names_of parts.entry.interpretation.now.definitions) number }
{
    match number.get() {
        Some(number) => match parts.element_name(number) {
            Some(name) => name,
            None => &[],
        },
        None => &[],
    }
}

/// The text of a sort; `name` is that of a declared one. Of a sort of arrays it is the name `Array` alone.
pub fn sort_text(alloc: Global, sort: Sort, name: &[u8]) -> Result<Vec<u8>, Memory>
    ensures { IfOk result (λ text. IsTextOfSort sort name.now text.items) }
{
    match sort.kind() {
        SortKind::Bool => Ok(Vec::from_slice(alloc, b"Bool")?),
        SortKind::Int => Ok(Vec::from_slice(alloc, b"Int")?),
        SortKind::Real => Ok(Vec::from_slice(alloc, b"Real")?),
        SortKind::Free(_) => symbol_text(alloc, name),
        SortKind::Array(_, _) => Ok(Vec::from_slice(alloc, b"Array")?),
        SortKind::Bits(width) => {
            let text = format!(in alloc; "(_ BitVec {})", width.bits())?;
            Ok(Vec::from_slice(alloc, text.as_bytes())?)
        }
    }
}

/// The text of a name, between bars where it can't be written without them.
pub(crate) fn symbol_text(alloc: Global, name: &[u8]) -> Result<Vec<u8>, Memory>
    ensures { IfOk result (λ text. IsSymbol name.now text.items) }
{
    if is_plain(alloc, name)? {
        return Ok(Vec::from_slice(alloc, name)?);
    }
    let mut text = Vec::from_slice(alloc, b"|")?;
    text.extend_from_slice(name)?;
    text.push(b'|')?;
    Ok(text)
}

// Whether a name is a symbol as it stands. (A long one is not looked at: it is cut in any case.)
fn is_plain(alloc: Global, name: &[u8]) -> Result<bool, Memory> {
    let trees = match read_trees(alloc, &name[..name.len().min(MOST)]) {
        Ok(trees) => trees,
        Err(TextFault::Memory) => return Err(Memory),
        Err(_) => return Ok(false),
    };
    match trees.as_slice() {
        [tree] => Ok(tree.view().is_symbol(name) && !name.starts_with(b"|")),
        _ => Ok(false),
    }
}

// The text of an integer.
fn integer_text(alloc: Global, number: i128) -> Result<Vec<u8>, Memory>
    ensures { IfOk result (λ text. text.items ≡ text_of_integer number) }
{
    let digits = format!(in alloc; "{}", number.unsigned_abs())?;
    if number >= 0 {
        return Ok(Vec::from_slice(alloc, digits.as_bytes())?);
    }
    negated(alloc, digits.as_bytes())
}

// The text of an integer as a real.
fn real_text(alloc: Global, number: i128) -> Result<Vec<u8>, Memory>
    ensures { IfOk result (λ text. text.items ≡ text_of_real number) }
{
    let digits = format!(in alloc; "{}.0", number.unsigned_abs())?;
    if number >= 0 {
        return Ok(Vec::from_slice(alloc, digits.as_bytes())?);
    }
    negated(alloc, digits.as_bytes())
}

// The text of a fraction.
fn fraction_text(alloc: Global, ratio: Ratio) -> Result<Vec<u8>, Memory>
    ensures { IfOk result (λ text. text.items ≡ text_of_fraction ratio.numerator ratio.denominator) }
{
    let numerator = ratio.numerator();
    let quotient = quotient_text(alloc, numerator.unsigned_abs(), ratio.denominator())?;
    if numerator >= 0 {
        return Ok(quotient);
    }
    negated(alloc, quotient.as_slice())
}

fn quotient_text(alloc: Global, top: u128, below: u128) -> Result<Vec<u8>, Memory>
    ensures { IfOk result (λ text. text.items ≡ quotient_text top below) }
{
    let text = format!(in alloc; "(/ {} {})", top, below)?;
    Ok(Vec::from_slice(alloc, text.as_bytes())?)
}

// The minus sign applied to a text.
fn negated(alloc: Global, digits: &[u8]) -> Result<Vec<u8>, Memory>
    ensures { IfOk result (λ text. text.items ≡ codes "(- " ++ (digits.now ++ codes ")")) }
{
    let mut text = Vec::from_slice(alloc, b"(- ")?;
    text.extend_from_slice(digits)?;
    text.push(b')')?;
    Ok(text)
}

// The text of a bit vector: in hexadecimal where its width allows.
fn bits_text(alloc: Global, bits: Bits) -> Result<Vec<u8>, Memory>
    ensures { IfOk result (λ text. text.items ≡ text_of_bits bits) }
{
    let width = bits.width().bits();
    if width % 4 == 0 {
        let mut text = Vec::from_slice(alloc, b"#x")?;
        add_digits(&mut text, bits.number(), width / 4, 4, 16)?;
        Ok(text)
    } else {
        let mut text = Vec::from_slice(alloc, b"#b")?;
        add_digits(&mut text, bits.number(), width, 1, 2)?;
        Ok(text)
    }
}

// Adds the digits of a number at the places below `count`, each of `size` bits, the highest first.
fn add_digits(
    text: &mut Vec<u8>,
    number: u128,
    count: u64,
    size: u64,
    base: u128,
) -> Result<(), Memory>
    requires fits { count * size ≤ 128 }
    requires some { 0 < size }
    requires base { base ≡ 2 ^ size }
    requires few { base ≤ 16 }
    ensures { OnOk result (text.new.items ≡ text.old.items ++ digits_below count size number) }
{
    let mut left = count;
    while left > 0 {
        left -= 1;
        text.push(glyph((number >> (left * size)) % base))?;
    }
    Ok(())
}

// The character of a digit.
fn glyph(digit: u128) -> u8
    requires { digit < 16 }
    ensures { result ≡ digit_glyph false digit }
{
    if digit < 10 {
        b'0' + digit as u8
    } else {
        b'a' + (digit - 10) as u8
    }
}
