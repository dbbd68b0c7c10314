//! Plays whose readers fail or whose texts are too long.
use crate::examples::play::SERIAL;
use crate::examples::table::TWO_LOOKUPS;
use crate::tests::left::{name_of, play_readers, play_texts};
use crate::tests::ring_of_three::text_of_three;
use crate::tests::steps::{is_text, value_of};
use chord_play::{PlayFault, Text, load};
use chord_trace::Watched;
use std::io;
use std::io::{ErrorKind, Read};
use std::process::Abort;

/// A reader that gives a text byte by byte, and then fails instead of ending.
#[derive(Drop)]
struct Halting<'a> {
    text: &'a [u8],
    fails: bool,
}

impl Read for Halting<'_> {
    fn read(&mut self, buf: &mut [u8]) -> io::Result<usize> {
        let [first, rest @ ..] = self.text else {
            return if self.fails {
                Err(io::Error::from(ErrorKind::Other))
            } else {
                Ok(0)
            };
        };
        let Some(place) = buf.first_mut() else {
            return Ok(0);
        };
        *place = *first;
        self.text = rest;
        Ok(1)
    }
}

fn single_bytes(text: &[u8], fails: bool) -> Halting<'_> {
    Halting { text, fails }
}

/// The text that a reader failed in is named, and nothing is written.
#[test]
fn readers_that_fail(rt: HostRuntime) {
    let text = text_of_three(&rt, TWO_LOOKUPS.commands);
    let toml = text.as_str().as_bytes();
    let csv = b"n0,n3,10\n".as_slice();
    for count in 0..=toml.len() {
        let scenario = single_bytes(&toml[..count], true);
        let left = play_readers(&rt, scenario, single_bytes(csv, true), &SERIAL);
        left.is(&rt, &count, "", "scenario not read");
    }
    for count in 0..=csv.len() {
        let latency = single_bytes(&csv[..count], true);
        let left = play_readers(&rt, single_bytes(toml, false), latency, &SERIAL);
        left.is(&rt, &count, "", "latencies not read");
    }
}

/// Readers that give single bytes are read to their ends.
#[test]
fn readers_of_single_bytes(rt: HostRuntime) {
    let text = text_of_three(&rt, TWO_LOOKUPS.commands);
    let csv = b"n0,n3,10\n".as_slice();
    let toml = single_bytes(text.as_str().as_bytes(), false);
    let left = play_readers(&rt, toml, single_bytes(csv, false), &SERIAL);
    left.ends_with(&rt, &"single bytes", TWO_LOOKUPS.trace);
}

/// A latency text as long as it may be is read, and one byte more is too long. No byte is read after that.
#[test]
fn latency_texts_that_are_too_long(rt: HostRuntime) {
    let text = text_of_three(&rt, TWO_LOOKUPS.commands);
    let toml = text.as_str().as_bytes();
    let mut csv = Vec::new(rt.alloc());
    value_of(&rt, csv.resize(16_777_216, b'\n'));
    let longest = play_texts(&rt, toml, csv.as_slice(), &SERIAL);
    longest.ends_with(&rt, &"the longest", TWO_LOOKUPS.trace);
    value_of(&rt, csv.resize(16_777_217 + 9000, b'\n'));
    let mut scenario = Watched::new(toml);
    let mut latency = Watched::new(csv.as_slice());
    let outcome = load(rt.alloc(), &mut scenario, &mut latency);
    assert!(rt; matches!(outcome, Err(PlayFault::TooLong(Text::Latency))));
    assert!(rt; latency.into_inner().len() == 9000);
}

/// The name of the fault with which the load of two texts ends.
fn fault_of_load<T: Abort + AllocGlobal, R: Read + Drop, Q: Read + Drop>(
    rt: &T,
    scenario: R,
    latency: Q,
) -> String {
    let mut scenario = Watched::new(scenario);
    let mut latency = Watched::new(latency);
    let Err(fault) = load(rt.alloc(), &mut scenario, &mut latency) else {
        panic!(rt; "no fault");
    };
    name_of(rt, &fault)
}

/// If both texts have a fault, that of the scenario text is returned. A fault of the scenario is returned only if both
/// texts were read.
#[test]
fn faults_of_both_texts(rt: HostRuntime) {
    let mut long = Vec::new(rt.alloc());
    value_of(&rt, long.resize(16_777_217, b'\n'));
    let long = long.as_slice();
    let no_toml = b"[".as_slice();
    let failing = fault_of_load(&rt, single_bytes(no_toml, true), long);
    is_text(&rt, failing.as_str(), "scenario not read");
    let longer = fault_of_load(&rt, long, single_bytes(b"", true));
    is_text(&rt, longer.as_str(), "scenario too long");
    let unread = fault_of_load(&rt, no_toml, single_bytes(b"", true));
    is_text(&rt, unread.as_str(), "latencies not read");
    let unending = fault_of_load(&rt, no_toml, long);
    is_text(&rt, unending.as_str(), "latencies too long");
    let refused = fault_of_load(&rt, no_toml, b"".as_slice());
    is_text(&rt, refused.as_str(), "NotToml");
}

/// A text as long as it may be is played, and one byte more is too long.
#[test]
fn texts_that_are_too_long(rt: HostRuntime) {
    let mut text = text_of_three(&rt, TWO_LOOKUPS.commands).into_bytes();
    value_of(&rt, text.resize(16_777_216, b'\n'));
    let none = b"".as_slice();
    let longest = play_texts(&rt, text.as_slice(), none, &SERIAL);
    longest.ends_with(&rt, &"the longest", TWO_LOOKUPS.trace);
    value_of(&rt, text.push(b'\n'));
    let longer = play_texts(&rt, text.as_slice(), none, &SERIAL);
    longer.is(&rt, &"a byte more", "", "scenario too long");
}
