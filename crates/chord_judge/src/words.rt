//! Words and numbers of a line.
ghost use Rattle.std.specs.Prelude.{◌≡◌, ◌==◌, ◌+◌, ◌*◌, ◌^◌, ◌≤◌, ◌&&◌, ◌++◌, [], ◌∷◌, length, nat_lt, IfOk, OnOk, Some, None, if◌then◌else◌};
ghost use Rattle.std.specs.Char.{digit_value, is_ascii_digit};
ghost use Rattle.std.specs.List.{position_or_len};
ghost use Rattle.std.specs.Str.{bytes_eq};
ghost use Rattle.chord_judge.specs.Words.{after_word, first_word, number_after, number_below};

use chord_event::Memory;
use memchr::memchr;
use std::alloc::Global;

/// The first place of a byte in a text, and the length of a text that does not have it.
pub(crate) fn place_in(text: &[u8], wanted: u8) -> usize
    ensures place { result ≡ position_or_len (λ byte. byte == wanted) text.now }
    ensures within { result ≤ length text.now }
{
    match memchr(wanted, text) {
        Some(place) => place,
        None => text.len(),
    }
}

/// Whether a word is this one.
pub(crate) fn is_text(word: &[u8], wanted: &str) -> bool
    ensures { result ≡ bytes_eq word.now wanted.now }
{
    word == wanted.as_bytes()
}

/// The first word of a text, and what follows the space after it.
pub(crate) fn first_word(text: &[u8]) -> (&[u8], &[u8])
    ensures word { result.0.now ≡ first_word text.now }
    ensures rest { result.1.now ≡ after_word text.now }
{
    let end = place_in(text, b' ');
    if end < text.len() {
        (&text[..end], &text[end + 1..])
    } else {
        (text, &text[end..])
    }
}

/// The number of at most 128 bits that a text of decimal digits gives.
pub(crate) fn number_in(text: &[u8]) -> Option<u128>
    ensures { result ≡ number_below (2 ^ 128) text.now }
{
    if text.is_empty() {
        return None;
    }
    let mut number: u128 = 0;
    for byte in text {
        let Some(next) = with_digit(number, *byte) else {
            return None;
        };
        number = next;
    }
    Some(number)
}

/// The number that a digit makes of the number before it.
fn with_digit(number: u128, byte: u8) -> Option<u128>
    ensures { result ≡ (if is_ascii_digit byte && nat_lt (number * 10 + digit_value byte) (2 ^ 128) then Some (number * 10 + digit_value byte) else None) }
{
    if !byte.is_ascii_digit() {
        return None;
    }
    let Some(tens) = number.checked_mul(10) else {
        return None;
    };
    tens.checked_add(u128::from(byte - b'0'))
}

/// The number of at most 64 bits that a text gives.
pub(crate) fn time_in(text: &[u8]) -> Option<u64>
    ensures { result ≡ number_below (2 ^ 64) text.now }
{
    let Some(number) = number_in(text) else {
        return None;
    };
    if number <= 18_446_744_073_709_551_615 {
        Some(number as u64)
    } else {
        None
    }
}

/// The number of at most 32 bits that follows a name in a text.
pub(crate) fn count_after(name: &[u8], text: &[u8]) -> Option<u32>
    ensures { result ≡ number_after name.now (2 ^ 32) text.now }
{
    let Some(number) = number_after(name, text) else {
        return None;
    };
    if number <= 4_294_967_295 {
        Some(number as u32)
    } else {
        None
    }
}

/// The number of at most 64 bits that follows a name in a text.
pub(crate) fn number_after(name: &[u8], text: &[u8]) -> Option<u64>
    ensures { result ≡ number_after name.now (2 ^ 64) text.now }
{
    let length = name.len();
    if text.len() < length || &text[..length] != name {
        return None;
    }
    time_in(&text[length..])
}

/// What follows so many words of a text.
pub(crate) fn after_words(text: &[u8], count: u32) -> &[u8] {
    let mut rest = text;
    for _ in 0..count {
        rest = first_word(rest).1;
    }
    rest
}

/// A copy of a text.
pub(crate) fn copy_of(alloc: Global, text: &[u8]) -> Result<Vec<u8>, Memory>
    ensures { IfOk result (λ copy. copy.items ≡ text.now) }
{
    let mut copy = Vec::new(alloc);
    copy.extend_from_slice(text)?;
    Ok(copy)
}

/// Adds a line, and the line feed that ends it.
pub(crate) fn push_line(text: &mut Vec<u8>, line: &[u8]) -> Result<(), Memory>
    ensures { OnOk result (text.new.items ≡ text.old.items ++ line.now ++ 10 ∷ []) }
{
    text.extend_from_slice(line)?;
    text.push(b'\n')?;
    Ok(())
}
