//! The rows of a latency file.
ghost use Rattle.std.specs.Prelude.{◌≡◌, ◌==◌, true, ℕ, List, IfOk, Some, [], length, map, option_map};
ghost use Rattle.csv.specs.Reading.{error_kind, stops_reader};
ghost use Rattle.csv.specs.Records.{fields_of};
ghost use Rattle.std.specs.Char.{is_ascii_digit};
ghost use Rattle.std.specs.List.{list_all};
ghost use Rattle.std.specs.Str.Parse.{digits_value};
ghost use Rattle.chord_scenario.specs.Rows.{rows_of, is_numeral, latency_number, link_of, link_seen};
ghost use Rattle.chord_scenario.specs.Latencies.{AreKept, HasLeft, kept_link};

use crate::names::Names;
use csv::{ByteRecord, ByteRecordsIntoIter, ErrorKind, ReaderBuilder};
use std::alloc::{AllocError, Global};

/// What is kept of a row of three fields: the numbers of its two nodes, if they are nodes,
/// whether both have one name, and its latency in microseconds, if it is one.
#[derive(Clone, Copy, Drop)]
pub(crate) struct RowLink {
    pub first: Option<u32>,
    pub second: Option<u32>,
    pub itself: bool,
    pub latency: Option<u32>,
}

/// The records of a text, which has no header row and whose records may differ in length.
fn records_in(alloc: Global, text: &[u8]) -> ByteRecordsIntoIter<&[u8]>
    ensures { HasLeft text.entry.now [] result }
{
    ReaderBuilder::new()
        .has_headers(false)
        .flexible(true)
        .from_reader(alloc, text)
        .into_byte_records()
}

/// What is kept of each record of a text, from a reader that has all of them left. A record is
/// dropped as soon as it is read.
fn kept_links(
    alloc: Global,
    names: &Names<'_>,
    records: &mut ByteRecordsIntoIter<&[u8]>,
) -> Result<Vec<Option<RowLink>>, AllocError>
    requires { (text : List ℕ) × HasLeft text [] records.now }
    ensures { IfOk result (λ v. (text : List ℕ) → HasLeft text [] records.old → AreKept names.now.nodes.now text v.items) }
{
    let mut links = Vec::new(alloc);
    while let Some(record) = records.next() {
        match record {
            Ok(record) => links.push(kept_link(names, &record))?,
            Err(e) => return Err(failed_read(&e)),
        }
    }
    Ok(links)
}

/// What is kept of each record of a text.
fn links_in(
    alloc: Global,
    names: &Names<'_>,
    text: &[u8],
) -> Result<Vec<Option<RowLink>>, AllocError>
    ensures { IfOk result (λ v. AreKept names.now.nodes.now text.now v.items) }
{
    let mut records = records_in(alloc, text);
    let links = kept_links(alloc, names, &mut records);
    // By one call: at each end of a function a struct is dropped field by field.
    drop(records);
    links
}

/// What an error of a flexible reader of bytes counts as.
fn failed_read(error: &csv::Error) -> AllocError
    requires { stops_reader (error_kind error.now) ≡ true }
{
    match error.kind() {
        ErrorKind::OutOfMemory => AllocError,
        // Counted as a failed allocation. It never happens: a reader over memory does not
        // fail, though no contract of the csv crate says so.
        ErrorKind::Io(_) => AllocError,
        // A flexible reader takes records of any length, and bytes need no decoding.
        ErrorKind::UnequalLengths { .. }
        | ErrorKind::Utf8 { .. }
        | ErrorKind::Serialize(_)
        | ErrorKind::Deserialize { .. } => unreachable!(),
    }
}

/// The rows of a latency file and what is kept of each, among the nodes of some names.
#[derive(Drop)]
pub(crate) struct Rows<'a> {
    pub names: Names<'a>,
    pub text: &'a [u8],
    pub links: Vec<Option<RowLink>>,
    ghost kept: { links.items ≡ map (kept_link names.nodes.now) (rows_of text.now) },
}

impl<'a> Rows<'a> {
    /// Reads the rows of a text.
    pub fn read(alloc: Global, names: Names<'a>, text: &'a [u8]) -> Result<Self, AllocError>
        ensures nodes { IfOk result (λ rows. rows.names.nodes.now ≡ names.entry.nodes.now) }
        ensures text { IfOk result (λ rows. rows.text.now ≡ text.entry.now) }
    {
        let links = links_in(alloc, &names, text)?;
        Ok(Rows { names, text, links })
    }

    /// Whether there are no rows.
    pub fn is_empty(&self) -> bool
        ensures { result ≡ (length (rows_of self.now.text.now) == 0) }
    {
        self.links.is_empty()
    }
}

/// Whether each byte is a decimal digit.
fn are_digits(bytes: &[u8]) -> bool
    ensures { result ≡ list_all is_ascii_digit bytes.now }
{
    bytes.iter().all(|byte| byte.is_ascii_digit())
}

/// Whether a field is 1 to 10 decimal digits.
fn is_numeral(field: &[u8]) -> bool
    ensures { result ≡ is_numeral field.now }
{
    1 <= field.len() && field.len() <= 10 && are_digits(field)
}

/// The number that a numeral writes, if the field is one.
fn numeral(field: &[u8]) -> Option<u64>
    requires { is_numeral field.now ≡ true }
    ensures { result ≡ Some (digits_value 10 field.now) }
{
    match std::str::from_utf8(field) {
        Ok(text) => text.parse::<u64>().ok(),
        Err(_) => None,
    }
}

/// The latency that a field writes: 1 to 10 decimal digits of value 1 to 1,000,000,000.
#[tactic(auto, unfolding(crate::specs::Rows::latency_number))]
fn latency_number(field: &[u8]) -> Option<u32>
    ensures { result ≡ latency_number field.now }
{
    if !is_numeral(field) {
        return None;
    }
    match numeral(field) {
        Some(number) if 1 <= number && number <= 1_000_000_000 => Some(number as u32),
        _ => None,
    }
}

/// A row of three fields: two names and a number of microseconds, if it is one.
#[derive(Clone, Copy)]
struct Link<'a> {
    first: &'a [u8],
    second: &'a [u8],
    pub latency: Option<u32>,
}

/// The link that a row is, if it has three fields.
fn link_in(row: &ByteRecord) -> Option<Link<'_>>
    ensures { option_map link_seen result ≡ link_of (fields_of row.now) }
{
    if row.get(3).is_some() {
        return None;
    }
    let Some(first) = row.get(0) else {
        return None;
    };
    let Some(second) = row.get(1) else {
        return None;
    };
    let Some(third) = row.get(2) else {
        return None;
    };
    Some(Link {
        first,
        second,
        latency: latency_number(third),
    })
}

/// What is kept of a row, if it has three fields.
fn kept_link(names: &Names<'_>, row: &ByteRecord) -> Option<RowLink>
    ensures { result ≡ kept_link names.now.nodes.now (fields_of row.now) }
{
    match link_in(row) {
        Some(link) => Some(RowLink {
            first: names.number_of(link.first),
            second: names.number_of(link.second),
            itself: link.first == link.second,
            latency: link.latency,
        }),
        None => None,
    }
}
