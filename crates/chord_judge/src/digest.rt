//! What the table of lookups leaves out of a trace: how many messages there were, and the lines of nodes and audits.
ghost use Rattle.std.specs.Prelude.{◌≡◌, ◌++◌, [], ◌∷◌, OnOk, codes, take, true};
ghost use Rattle.std.specs.Str.{bytes_eq};
ghost use Rattle.chord_judge.specs.Kept.{is_kept_word, is_part_of_line, keeps};

use crate::askers::Askers;
use crate::counts::{Counts, Fate};
use crate::words::{
    after_words, count_after, first_word, is_text, number_after, place_in, push_line, time_in,
};
use chord_event::Memory;
use std::alloc::Global;
use std::mem;

/// What a digest does with a line.
#[derive(Clone, Copy, Drop)]
enum Part {
    /// A request of this node: counts it, and if it is one of a lookup, for the lookup too.
    Asks,
    /// Counts a message of this fate.
    Counts(Fate),
    Begins,
    Finds,
    Loses,
    /// The node stops, with its lookups. The line is kept.
    Stops,
    /// A call of this node had no reply. The line is kept, behind that of its newest stabilization if it asked the same node.
    TimesOut,
    Keeps,
    Skips,
}

/// Takes the text of a trace, piece by piece, and turns it into a shorter text.
///
/// The shorter text has the lines by which nodes come and go (`join`, `member`, `create`, `crash`, `leave`, `stranded`,
/// `join-failed`, `ignored`), those of lookups that could not begin (`busy`), those of audits, of timeouts, of messages
/// that are lost or sent again, and all that begin with no time, as they are.
///
/// A line `TIME messages WORD KIND COUNT` says how many lines `WORD KIND` there were from this time to the next one of
/// `edges`. `WORD` is `ask`, `send` or `drop`. `lookups all` stands for the messages of users' lookups: the requests as
/// they are sent and, when a lookup ends, a reply for each of its calls that did not time out.
///
/// Before a line `timeout` stands the newest line `ask get-state` of its node, if that asked the same node, and not for a
/// lookup.
#[derive(Drop)]
pub struct Digest {
    alloc: Global,
    /// When counts begin anew, in the order of the times.
    edges: Vec<u64>,
    /// How many of the edges have passed.
    passed: usize,
    /// The time from which on messages are counted.
    since: u64,
    counts: Counts,
    askers: Askers,
    /// The beginning of a line that has not ended yet.
    line: Vec<u8>,
    text: Vec<u8>,
    ghost begun: { is_part_of_line line.items ≡ true },
}

impl Digest {
    ghost use Rattle.std.specs.Prelude.{◌≡◌, ◌++◌, [], ◌∷◌, ℕ, List, OnOk, cond, true};
    ghost use Rattle.std.specs.List.{filter};
    ghost use Rattle.chord_judge.specs.Digests.{IsDigestOf};
    ghost use Rattle.chord_judge.specs.Kept.{Adds, IsUnkept, is_kept, is_part_of_line};

    /// A digest of no text yet.
    pub fn new(alloc: Global, edges: Vec<u64>) -> Digest
        ensures { IsDigestOf [] [] result }
    {
        Digest {
            alloc,
            edges,
            passed: 0,
            since: 0,
            counts: Counts::new(),
            askers: Askers::new(alloc),
            line: Vec::new(alloc),
            text: Vec::new(alloc),
        }
    }

    /// The shorter text of what was taken since the last `clear`.
    pub fn text(&self) -> &[u8]
        ensures { result.now ≡ self.now.text.items }
    {
        self.text.as_slice()
    }

    /// Drops the text so far, which was written.
    pub fn clear(&mut self)
        ensures empty { self.new.text.items ≡ [] }
        ensures digest { (text written : List ℕ) → IsDigestOf text written self.old → IsDigestOf text (written ++ self.old.text.items) self.new }
    {
        self.text.clear();
    }

    /// Takes a piece of a trace.
    pub fn take(&mut self, piece: &[u8]) -> Result<(), Memory>
        ensures { OnOk result ((text written : List ℕ) → IsDigestOf text written self.old → IsDigestOf (text ++ piece.now) written self.new) }
    {
        let mut start = 0;
        while start < piece.len() {
            let rest = &piece[start..];
            let length = place_in(rest, b'\n');
            self.take_line(&rest[..length], length < rest.len())?;
            start += length + 1;
        }
        Ok(())
    }

    /// Takes the end of the trace.
    pub fn finish(&mut self) -> Result<(), Memory>
        ensures { OnOk result ((text written : List ℕ) → IsDigestOf text written self.old → IsDigestOf text written self.new) }
    {
        self.counts.push_to(&mut self.text, self.since)
    }

    /// Takes a part of a line, and the line feed behind it if the line ends there.
    fn take_line(&mut self, part: &[u8], ends: bool) -> Result<(), Memory>
        requires { is_part_of_line part.now ≡ true }
        ensures { OnOk result ((text written : List ℕ) → IsDigestOf text written self.old → IsDigestOf (text ++ part.now ++ cond ends (10 ∷ []) []) written self.new) }
    {
        if ends && self.line.is_empty() {
            return self.read(part);
        }
        self.line.extend_from_slice(part)?;
        if !ends {
            return Ok(());
        }
        let mut line = mem::replace(&mut self.line, Vec::new(self.alloc));
        let outcome = self.read(line.as_slice());
        line.clear();
        self.line = line;
        outcome
    }

    /// Takes a line.
    fn read(&mut self, line: &[u8]) -> Result<(), Memory>
        requires { is_part_of_line line.now ≡ true }
        ensures line { self.new.line ≡ self.old.line }
        ensures adds { OnOk result (Adds (filter is_kept (line.now ∷ [])) self.old.text.items self.new.text.items) }
    {
        let (time, rest) = first_word(line);
        let Some(time) = time_in(time) else {
            return self.keep(line);
        };
        self.pass_edges(time)?;
        let (name, rest) = first_word(rest);
        let (word, rest) = first_word(rest);
        match part_of(word) {
            Part::Asks => self.ask(line, name, rest),
            Part::Counts(fate) => {
                self.counts.add(fate, first_word(rest).0);
                Ok(())
            }
            Part::Begins => self.askers.begin(name, time, rest),
            Part::Finds => self.end(time, name, first_word(rest).0, after_words(rest, 2)),
            Part::Loses => self.end(time, name, first_word(rest).0, after_words(rest, 1)),
            Part::Stops => {
                self.askers.stop(name);
                self.keep(line)
            }
            Part::TimesOut => {
                self.keep_stabilization(name, rest)?;
                self.keep(line)
            }
            Part::Keeps => self.keep(line),
            Part::Skips => Ok(()),
        }
    }

    /// Keeps a line.
    fn keep(&mut self, line: &[u8]) -> Result<(), Memory>
        ensures line { self.new.line ≡ self.old.line }
        ensures text { OnOk result (self.new.text.items ≡ self.old.text.items ++ line.now ++ 10 ∷ []) }
    {
        push_line(&mut self.text, line)
    }

    /// Passes the edges up to a time.
    fn pass_edges(&mut self, time: u64) -> Result<(), Memory>
        ensures line { self.new.line ≡ self.old.line }
        ensures adds { OnOk result (Adds [] self.old.text.items self.new.text.items) }
    {
        for _ in 0..self.edges.len() {
            let Some(edge) = self.edges.get(self.passed).copied() else {
                return Ok(());
            };
            if time < edge {
                return Ok(());
            }
            self.counts.push_to(&mut self.text, self.since)?;
            self.since = edge;
            self.passed = self.passed.saturating_add(1);
        }
        Ok(())
    }

    /// A node asks another one: `KIND NODE call=NUMBER`, and `key=KEY since=TIME` if it is for a lookup.
    fn ask(&mut self, line: &[u8], name: &[u8], rest: &[u8]) -> Result<(), Memory>
        requires { IsUnkept line.now }
        ensures line { self.new.line ≡ self.old.line }
        ensures text { self.new.text ≡ self.old.text }
    {
        let (kind, rest) = first_word(rest);
        self.counts.add(Fate::Asked, kind);
        let (call, rest) = first_word(after_words(rest, 1));
        if !rest.is_empty() {
            let (key, since) = first_word(rest);
            if self.askers.ask(name, call, key, since) {
                self.counts.add_of_lookups(1);
            }
            return Ok(());
        }
        if is_text(kind, "get-state") {
            return self.askers.stabilize(name, line);
        }
        Ok(())
    }

    /// Keeps the line by which a node asked a successor for its state, if it asked this node.
    fn keep_stabilization(&mut self, name: &[u8], silent: &[u8]) -> Result<(), Memory>
        ensures line { self.new.line ≡ self.old.line }
        ensures adds { OnOk result (Adds [] self.old.text.items self.new.text.items) }
    {
        let Some(line) = self.askers.stabilization(name) else {
            return Ok(());
        };
        if first_word(after_words(line, 4)).0 == silent {
            push_line(&mut self.text, line)?;
        }
        Ok(())
    }

    /// A lookup of a user ends: `hops=HOPS timeouts=TIMEOUTS us=DURATION`.
    fn end(&mut self, time: u64, name: &[u8], key: &[u8], rest: &[u8]) -> Result<(), Memory>
        ensures line { self.new.line ≡ self.old.line }
        ensures text { self.new.text ≡ self.old.text }
    {
        let (timeouts, us) = first_word(after_words(rest, 1));
        let (Some(timeouts), Some(us)) = (
            count_after(b"timeouts=", timeouts),
            number_after(b"us=", us),
        ) else {
            return Ok(());
        };
        let begun = time.saturating_sub(us);
        let replies = self.askers.end(name, begun, key, timeouts)?;
        self.counts.add_of_lookups(replies);
        Ok(())
    }
}

/// What a digest does with the lines that have this word.
fn part_of(word: &[u8]) -> Part
    ensures { is_kept_word word.now ≡ keeps result }
{
    if is_text(word, "send") {
        Part::Counts(Fate::Sent)
    } else if is_text(word, "ask") {
        Part::Asks
    } else if is_text(word, "drop") {
        Part::Counts(Fate::Dropped)
    } else if is_text(word, "lookup") {
        Part::Begins
    } else if is_text(word, "found") {
        Part::Finds
    } else if is_text(word, "lost") {
        Part::Loses
    } else if is_text(word, "crash") || is_text(word, "leave") {
        Part::Stops
    } else if is_text(word, "timeout") {
        Part::TimesOut
    } else if is_kept_word(word) {
        Part::Keeps
    } else {
        Part::Skips
    }
}

/// Whether lines with this word are kept. The third word of an audit is its number of members.
fn is_kept_word(word: &[u8]) -> bool
    ensures { result ≡ is_kept_word word.now }
{
    is_text(word, "join")
        || is_text(word, "member")
        || is_text(word, "create")
        || is_text(word, "crash")
        || is_text(word, "leave")
        || is_text(word, "stranded")
        || is_text(word, "join-failed")
        || is_text(word, "ignored")
        || is_text(word, "busy")
        || is_text(word, "timeout")
        || is_text(word, "lose")
        || is_text(word, "again")
        || is_of_audit(word)
}

/// Whether a third word is that of an audit.
fn is_of_audit(word: &[u8]) -> bool
    ensures { result ≡ bytes_eq (take 8 word.now) (codes "members=") }
{
    word.len() >= 8 && is_text(&word[..8], "members=")
}

/// The times that a text gives, in microseconds and with commas between them. Returns nothing unless they are in their
/// order.
pub fn edges_in(alloc: Global, text: &str) -> Result<Option<Vec<u64>>, Memory> {
    let mut edges = Vec::new(alloc);
    let mut newest = 0;
    for part in text.split(',') {
        match time_in(part.as_bytes()) {
            Some(time) if time >= newest => newest = time,
            _ => return Ok(None),
        }
        edges.push(newest)?;
    }
    Ok(Some(edges))
}
