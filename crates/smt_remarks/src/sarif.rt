//! Remarks as results of SARIF 2.1.0 (Static Analysis Results Interchange Format). This file knows nothing of what they
//! say.

use crate::page::{File, MOST};
use crate::remark::{Explained, Remark, Spot};
use crate::text::print;
use percent_encoding::{AsciiSet, NON_ALPHANUMERIC, ascii_set, utf8_percent_encode};
use serde::Serialize;
use smt_faults::Memory;
use std::alloc::{AllocError, Global};

/// What stands before the results.
pub(crate) const BEGIN: &[u8] =
    b"{\"$schema\":\"https://json.schemastore.org/sarif-2.1.0.json\",\"version\":\"2.1.0\",\"runs\":[{\
\"tool\":{\"driver\":{\"name\":\"smtcheck\"}},\"columnKind\":\"unicodeCodePoints\",\"results\":[";
/// What stands behind the results.
pub(crate) const END: &[u8] = b"]}]}\n";

/// The last column up to which characters are counted.
const NEAR: u64 = 4096;

/// The characters that are escaped in a URI: all but letters, digits and a few others (RFC 3986, section 3.3).
const ESCAPED: AsciiSet = ascii_set!(
    NON_ALPHANUMERIC
        .remove(b'/')
        .remove(b'.')
        .remove(b'-')
        .remove(b'_')
        .remove(b'~')
);

#[derive(Drop, Serialize)]
#[serde(rename_all = "camelCase")]
struct Finding<'m> {
    rule_id: &'static str,
    level: &'static str,
    message: Message<'m>,
    locations: Vec<Location>,
    related_locations: Vec<Location>,
}

#[derive(Clone, Copy, Serialize)]
struct Message<'t> {
    text: &'t str,
}

#[derive(Drop, Serialize)]
#[serde(rename_all = "camelCase")]
struct Location {
    physical_location: Physical,
    message: Message<'static>,
}

#[derive(Drop, Serialize)]
#[serde(rename_all = "camelCase")]
struct Physical {
    artifact_location: Artifact,
    region: Region,
}

#[derive(Drop, Serialize)]
struct Artifact {
    uri: String,
}

#[derive(Clone, Copy, Serialize)]
#[serde(rename_all = "camelCase")]
struct Region {
    start_line: u64,
    start_column: u64,
}

/// Writes remarks as a result behind what is there, which is the beginning of the document or a result. Where there is
/// no remark there is no result.
pub(crate) fn put_result(
    alloc: Global,
    told: &Explained<'_>,
    files: [File<'_>; 2],
    out: &mut Vec<u8>,
) -> Result<(), Memory> {
    if told.remarks.is_empty() {
        return Ok(());
    }
    let mut text = Vec::new(alloc);
    print(alloc, told, &mut text)?;
    let Ok(text) = str::from_utf8(text.as_slice()) else {
        return Ok(());
    };
    let finding = Finding {
        rule_id: told.outcome,
        level: level_of(told.outcome),
        message: Message { text },
        locations: main_location(alloc, told, &files)?,
        related_locations: related_locations(alloc, told.remarks.as_slice(), &files)?,
    };
    match serde_json::to_vec(alloc, &finding) {
        Ok(json) => put_behind(json.as_slice(), out),
        Err(_) => Err(Memory),
    }
}

// Adds a result behind the beginning of the document, or behind another.
fn put_behind(json: &[u8], out: &mut Vec<u8>) -> Result<(), Memory> {
    if out.ends_with(b"}") {
        out.push(b',')?;
    }
    out.extend_from_slice(json)?;
    Ok(())
}

// The place where a result is shown, if it has one: its claim's, or else the first.
fn main_location(
    alloc: Global,
    told: &Explained<'_>,
    files: &[File<'_>],
) -> Result<Vec<Location>, Memory> {
    let mut locations = Vec::new(alloc);
    if let Some(spot) = main_spot(told.remarks.as_slice()) {
        let character = character_column(files, spot);
        locations.push(location_at(alloc, spot, character, told.outcome)?)?;
    }
    Ok(locations)
}

// What stands at a place.
#[derive(Clone, Copy)]
struct Found<'t> {
    spot: Spot<'t>,
    text: &'static str,
}

// The places of remarks and of their items, each once with what stands there.
fn related_locations(
    alloc: Global,
    remarks: &[Remark<'_>],
    files: &[File<'_>],
) -> Result<Vec<Location>, Memory> {
    let found = found_in(alloc, remarks)?;
    let mut locations = Vec::new(alloc);
    for each in found.as_slice() {
        let character = character_column(files, each.spot);
        locations.push(location_at(alloc, each.spot, character, each.text)?)?;
    }
    Ok(locations)
}

fn found_in<'t>(alloc: Global, remarks: &[Remark<'t>]) -> Result<Vec<Found<'t>>, Memory> {
    let mut found = Vec::new(alloc);
    for remark in remarks {
        if let Some(spot) = remark.spot {
            add_found(&mut found, spot, remark.kind)?;
        }
        for item in remark.items.as_slice() {
            add_found(&mut found, item.spot, "item")?;
        }
    }
    Ok(found)
}

// Adds what stands at a place, unless it is there, or there are many.
fn add_found<'t>(
    found: &mut Vec<Found<'t>>,
    spot: Spot<'t>,
    text: &'static str,
) -> Result<(), Memory> {
    let is_there = found
        .as_slice()
        .iter()
        .any(|each| is_same(each.spot, spot) && each.text == text);
    if !is_there && found.len() < MOST {
        found.push(Found { spot, text })?;
    }
    Ok(())
}

fn is_same(spot: Spot<'_>, other: Spot<'_>) -> bool {
    spot.byte == other.byte && spot.file == other.file
}

// The column of a place in characters, as SARIF counts them; of a place far in its line the column in bytes.
fn character_column(files: &[File<'_>], spot: Spot<'_>) -> u64 {
    for file in files {
        if file.name == spot.file && spot.column <= NEAR {
            return characters_before(file.text, spot).saturating_add(1);
        }
    }
    spot.column
}

// How many characters of UTF-8 stand in the line before a place.
fn characters_before(text: &[u8], spot: Spot<'_>) -> u64 {
    let end = usize::try_from(spot.byte).unwrap_or(usize::MAX);
    let start = usize::try_from(spot.byte.saturating_sub(spot.column.saturating_sub(1)));
    let line = text.get(start.unwrap_or(usize::MAX)..end).unwrap_or(&[]);
    line.iter().filter(|byte| **byte & 0xC0 != 0x80).count() as u64
}

fn location_at(
    alloc: Global,
    spot: Spot<'_>,
    character: u64,
    text: &'static str,
) -> Result<Location, AllocError> {
    let mut uri = String::new(alloc);
    if spot.file.starts_with("/") {
        uri.push_str("file://")?;
    }
    utf8_percent_encode(spot.file, ESCAPED).append_to(&mut uri)?;
    Ok(Location {
        physical_location: Physical {
            artifact_location: Artifact { uri },
            region: Region {
                start_line: spot.line,
                start_column: character,
            },
        },
        message: Message { text },
    })
}

fn main_spot<'t>(remarks: &[Remark<'t>]) -> Option<Spot<'t>> {
    let mut first = None;
    for remark in remarks {
        if remark.kind == "claim" && remark.spot.is_some() {
            return remark.spot;
        }
        if first.is_none() {
            first = remark.spot;
        }
    }
    first
}

// How bad it is: what is not decided or not checked is no error.
fn level_of(outcome: &str) -> &'static str {
    match outcome {
        "unchecked" => "note",
        "no-model" | "too-long" | "not-decided" => "warning",
        _ => "error",
    }
}
