//! What a table holds at a key, and which values a key may hold.

ghost use Rattle.std.specs.Prelude.{◌≡◌, ◌<◌, ◌^◌, IfSome, nat_lt, option_map, option_copied};
ghost use Rattle.std.specs.List.{list_all};
ghost use Rattle.toml.specs.View.{table_view, view, items_view};
ghost use Rattle.chord_scenario.specs.Values.{data_at, number_at, truth_at, truth_or, text_at, as_whole, are_tables, has_type, hexadecimal, is_hexadecimal_digit, is_within, is_profile, identifier_of, has_digits, is_in_range, agrees};

use crate::key::{FileKey, Form};
use crate::operation::{is_allowed, operation_named};
use chord_circle::Raw;
use toml::{Table, Value};

/// What a table holds at a key.
pub(crate) fn value_at<'a>(table: &'a Table, key: FileKey) -> Option<&'a Value>
    ensures { option_map (λ v. view v.now) result ≡ data_at key (table_view table.now) }
{
    table.get(key.name())
}

/// The whole number from 0 that a value is.
pub(crate) fn whole(value: &Value) -> Option<u64>
    ensures value { result ≡ as_whole (view value.now) }
    ensures below { IfSome result (λ number. number < 2 ^ 63) }
{
    match value.as_integer() {
        Some(number) => u64::try_from(number).ok(),
        None => None,
    }
}

/// The number at a key, and 0 if the key holds none.
pub(crate) fn number_at(table: &Table, key: FileKey) -> u64
    ensures value { result ≡ number_at key (table_view table.now) }
    ensures below { result < 2 ^ 63 }
{
    match value_at(table, key) {
        Some(value) => whole(value).unwrap_or(0),
        None => 0,
    }
}

/// The boolean at a key, and the default if the key holds none.
pub(crate) fn truth_or(table: &Table, key: FileKey, default: bool) -> bool
    ensures { result ≡ truth_or default key (table_view table.now) }
{
    match value_at(table, key) {
        Some(value) => value.as_bool().unwrap_or(default),
        None => default,
    }
}

/// The boolean at a key, and `false` if the key holds none.
pub(crate) fn truth_at(table: &Table, key: FileKey) -> bool
    ensures { result ≡ truth_at key (table_view table.now) }
{
    truth_or(table, key, false)
}

/// The text at a key.
pub(crate) fn text_at<'a>(table: &'a Table, key: FileKey) -> Option<&'a str>
    ensures { option_copied result ≡ text_at key (table_view table.now) }
{
    match value_at(table, key) {
        Some(value) => value.as_str(),
        None => None,
    }
}

/// Whether each item is a table.
fn are_tables(items: &[Value]) -> bool
    ensures { result ≡ are_tables (items_view items.now) }
{
    for item in items {
        if !item.is_table() {
            return false;
        }
    }
    true
}

/// Whether a value has the type that a form wants.
#[tactic(auto, unfolding(crate::specs::Values::has_type))]
pub(crate) fn has_type(form: Form, value: &Value) -> bool
    ensures { result ≡ has_type form (view value.now) }
{
    match form {
        Form::Whole(_, _) | Form::Profile => value.is_integer(),
        Form::Text | Form::Operation(_) => value.is_str(),
        Form::Boolean => value.is_bool(),
        Form::Identifier(_) => value.is_integer() || value.is_str(),
        Form::Table => value.is_table(),
        Form::Tables(_, _) => match value.as_array() {
            Some(items) => are_tables(items),
            None => false,
        },
    }
}

/// `0` to `9` and `a` to `f`.
fn is_hexadecimal_digit(byte: u8) -> bool
    ensures { result ≡ is_hexadecimal_digit byte }
{
    matches!(byte, b'0'..=b'9' | b'a'..=b'f')
}

/// Whether each byte is a hexadecimal digit.
fn are_hexadecimal_digits(bytes: &[u8]) -> bool
    ensures { result ≡ list_all is_hexadecimal_digit bytes.now }
{
    bytes.iter().all(|byte| is_hexadecimal_digit(*byte))
}

/// The most digits that an identifier is written in.
const MOST_DIGITS: usize = 32;

/// The number that 1 to 32 hexadecimal digits write.
#[tactic(auto, unfolding(crate::specs::Values::hexadecimal))]
fn hexadecimal(text: &str) -> Option<Raw>
    ensures { result ≡ hexadecimal text.now }
{
    let digits = text.as_bytes();
    if 1 <= digits.len() && digits.len() <= MOST_DIGITS && are_hexadecimal_digits(digits) {
        Raw::from_str_radix(text, 16).ok()
    } else {
        None
    }
}

/// The number that an identifier is, whole or in hexadecimal digits.
pub(crate) fn identifier_of(value: &Value) -> Option<Raw>
    ensures { result ≡ identifier_of (view value.now) }
{
    match value {
        Value::Integer(_) => whole(value).map(Raw::from),
        Value::String(text) => hexadecimal(text.as_str()),
        _ => None,
    }
}

/// Whether a number is in a range.
fn is_within(least: u64, greatest: u64, number: u64) -> bool
    ensures { result ≡ is_within least greatest number }
{
    least <= number && number <= greatest
}

/// Whether a number is that of a profile: 1 and 2, or 4, the extended one.
fn is_profile(number: u64) -> bool
    ensures { result ≡ is_profile number }
{
    number == 1 || number == 2 || number == 4
}

/// Whether a value is no text of more than this many digits.
fn has_digits(most: usize, value: &Value) -> bool
    ensures { result ≡ has_digits most (view value.now) }
{
    match value.as_str() {
        Some(text) => text.len() <= most,
        None => true,
    }
}

/// Whether a number is an identifier on a circle of this many bits.
fn is_on_circle(bits: u64, number: Raw) -> bool
    ensures { result ≡ nat_lt number (2 ^ bits) }
{
    bits >= 128 || number >> bits == 0
}

/// Whether a value is one of those that a form allows, on a circle of this many bits.
#[tactic(auto, unfolding(crate::specs::Values::is_in_range))]
pub(crate) fn is_in_range(bits: u64, form: Form, value: &Value) -> bool
    ensures { result ≡ is_in_range bits form (view value.now) }
{
    match form {
        Form::Whole(least, greatest) => match whole(value) {
            Some(number) => is_within(least, greatest, number),
            None => false,
        },
        Form::Profile => match whole(value) {
            Some(number) => is_profile(number),
            None => false,
        },
        Form::Operation(leaves) => match value.as_str() {
            Some(word) => is_allowed(leaves, operation_named(word)),
            None => false,
        },
        Form::Identifier(digits) => match identifier_of(value) {
            Some(number) => has_digits(digits, value) && is_on_circle(bits, number),
            None => false,
        },
        Form::Tables(least, greatest) => match value.as_array() {
            Some(items) => is_within(least as u64, greatest as u64, items.len() as u64),
            None => false,
        },
        Form::Text | Form::Boolean | Form::Table => true,
    }
}

/// Whether a number agrees with those at other keys of its table: a greatest is not below its
/// least, and an audit's period divides the duration into at most 1,000,000.
pub(crate) fn agrees(table: &Table, key: FileKey, number: u64) -> bool
    ensures { result ≡ agrees (table_view table.now) key number }
{
    match key {
        FileKey::LifeMaxUs => number_at(table, FileKey::LifeMinUs) <= number,
        FileKey::DownMaxUs => number_at(table, FileKey::DownMinUs) <= number,
        FileKey::GapMaxUs => number_at(table, FileKey::GapMinUs) <= number,
        FileKey::AuditUs => {
            u128::from(number_at(table, FileKey::DurationUs)) <= 1_000_000 * u128::from(number)
        }
        _ => true,
    }
}
