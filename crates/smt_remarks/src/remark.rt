//! Remarks as data. This file writes nothing.

use serde::Serialize;

/// A place in one of the two files. Lines count from 1, and so do the bytes of a line; the bytes of the file count from
/// 0.
#[derive(Clone, Copy, Serialize)]
pub struct Spot<'t> {
    pub file: &'t str,
    pub line: u64,
    pub column: u64,
    pub byte: u64,
}

/// The value of a term in a model: a constant, or `open`. Of a variable `given` is the term that it stands for.
#[derive(Drop, Serialize)]
pub struct Value {
    pub term: String,
    pub given: Option<String>,
    pub value: String,
}

/// The item of a model that gives a name its value, and where it stands.
#[derive(Drop, Serialize)]
pub struct Item<'t> {
    pub name: String,
    pub spot: Spot<'t>,
}

/// One thing that is told. Its texts are printable ASCII.
#[derive(Drop, Serialize)]
pub struct Remark<'t> {
    /// The words for what it is, as `claim`, `false` or `model`, and its number, as of a check.
    pub kind: &'static str,
    pub number: Option<u64>,
    pub spot: Option<Spot<'t>>,
    /// The number of the command that stands there.
    pub command: Option<u64>,
    /// The definition or label in which it stands.
    #[serde(rename = "in")]
    pub within: Option<String>,
    /// At most 200 bytes.
    pub text: String,
    pub reason: Option<&'static str>,
    pub values: Vec<Value>,
    pub items: Vec<Item<'t>>,
}

/// What is told of one line of a report: of a check, or of a fault, which has no number.
#[derive(Drop, Serialize)]
pub struct Explained<'t> {
    pub check: Option<u64>,
    /// What the line says, in a word: `refuted`, `no-model`, `command-fault`.
    pub outcome: &'static str,
    pub remarks: Vec<Remark<'t>>,
    /// How many remarks were left out.
    pub left_out: u64,
}
