//! Lines of a trace, read from their texts.
ghost use Rattle.std.specs.Prelude.{◌≡◌};
ghost use Rattle.chord_judge.specs.Reading.{kind_named, line_alone};
ghost use Rattle.chord_scenario.specs.Index.{Indexes};

use crate::names::names_of;
use crate::told::Told;
use crate::words::{count_after, first_word, is_text, number_after, number_in, time_in};
use chord_circle::Ident;
use chord_event::{Line, Memory};
use chord_scenario::Scenario;
use std::alloc::Global;
use std::collections::BTreeMap;

/// What a text says: a line that a judge is to be told, a line of another kind, or no line of a
/// trace.
#[derive(Clone, Copy, Drop)]
pub enum Said {
    Told(Told),
    Other,
    Nothing,
}

/// The kinds of line that a judge is to be told.
#[derive(Clone, Copy, Drop)]
pub enum Kind {
    Member,
    Create,
    Crash,
    Leave,
    Stranded,
    Lookup,
    Found,
    Lost,
}

/// The scenario of a trace, and its nodes by their names.
#[derive(Drop)]
pub(crate) struct LineReader<'a> {
    pub scenario: &'a Scenario,
    names: BTreeMap<Vec<u8>, u32>,
    ghost indexed: { Indexes scenario.now.nodes names },
}

impl<'a> LineReader<'a> {
    ghost use Rattle.std.specs.Prelude.{◌≡◌, IfOk};
    ghost use Rattle.chord_judge.specs.Lines.{IfTold};
    ghost use Rattle.chord_judge.specs.Reading.{found_in, key_in, line_of, lost_in, node_named, said};

    /// A reader of the lines of a trace of this scenario.
    pub fn new(alloc: Global, scenario: &'a Scenario) -> Result<LineReader<'a>, Memory>
        ensures { IfOk result (λ reader. reader.scenario.now ≡ scenario.entry.now) }
    {
        let names = names_of(alloc, scenario)?;
        Ok(LineReader { scenario, names })
    }

    /// Reads a line, without its line feed.
    pub fn read(&self, text: &[u8]) -> Said
        ensures said { result ≡ said self.now.scenario.now text.now }
        ensures told { IfTold self.now.scenario.now result }
    {
        let (time, rest) = first_word(text);
        let (name, rest) = first_word(rest);
        let (kind, rest) = first_word(rest);
        match kind_named(kind) {
            Some(kind) => match (time_in(time), self.node(name), self.line(kind, rest)) {
                (Some(time), Some(node), Some(line)) => Said::Told(Told { time, node, line }),
                _ => Said::Nothing,
            },
            None => Said::Other,
        }
    }

    /// The node of a name.
    fn node(&self, name: &[u8]) -> Option<u32>
        ensures { result ≡ node_named self.now.scenario.now name.now }
    {
        self.names.get(name).copied()
    }

    /// A key on the circle.
    fn key(&self, text: &[u8]) -> Option<Ident>
        ensures { result ≡ key_in self.now.scenario.now text.now }
    {
        self.scenario.recall_range();
        match number_in(text) {
            Some(raw) => self.scenario.circle().ident(raw),
            None => None,
        }
    }

    /// What a line of this kind says.
    fn line(&self, kind: Kind, text: &[u8]) -> Option<Line>
        ensures { result ≡ line_of self.now.scenario.now kind text.now }
    {
        match kind {
            Kind::Member => {
                let predecessor = self.node(text)?;
                Some(Line::Member { predecessor })
            }
            Kind::Create => line_alone(Line::Create, text),
            Kind::Crash => line_alone(Line::Crash, text),
            Kind::Leave => line_alone(Line::Leave, text),
            Kind::Stranded => {
                let via = self.node(text)?;
                Some(Line::Stranded { via })
            }
            Kind::Lookup => {
                let key = self.key(text)?;
                Some(Line::Lookup { key })
            }
            Kind::Found => self.found(text),
            Kind::Lost => self.lost(text),
        }
    }

    /// The end of a lookup with an answer.
    fn found(&self, text: &[u8]) -> Option<Line>
        ensures { result ≡ found_in self.now.scenario.now text.now }
    {
        let (key, rest) = first_word(text);
        let (owner, rest) = first_word(rest);
        let (hops, rest) = first_word(rest);
        let (timeouts, us) = first_word(rest);
        let key = self.key(key)?;
        let owner = self.node(owner)?;
        let hops = count_after(b"hops=", hops)?;
        let timeouts = count_after(b"timeouts=", timeouts)?;
        let us = number_after(b"us=", us)?;
        Some(Line::Found {
            key,
            owner,
            hops,
            timeouts,
            us,
        })
    }

    /// The end of a lookup without an answer.
    fn lost(&self, text: &[u8]) -> Option<Line>
        ensures { result ≡ lost_in self.now.scenario.now text.now }
    {
        let (key, rest) = first_word(text);
        let (hops, rest) = first_word(rest);
        let (timeouts, us) = first_word(rest);
        let key = self.key(key)?;
        let hops = count_after(b"hops=", hops)?;
        let timeouts = count_after(b"timeouts=", timeouts)?;
        let us = number_after(b"us=", us)?;
        Some(Line::Lost {
            key,
            hops,
            timeouts,
            us,
        })
    }
}

/// The line, if no text follows its kind.
fn line_alone(line: Line, text: &[u8]) -> Option<Line>
    ensures { result ≡ line_alone line text.now }
{
    if text.is_empty() { Some(line) } else { None }
}

/// The kind that a word names, if lines of this kind are told to a judge.
fn kind_named(word: &[u8]) -> Option<Kind>
    ensures { result ≡ kind_named word.now }
{
    let kind = if is_text(word, "member") {
        Kind::Member
    } else if is_text(word, "create") {
        Kind::Create
    } else if is_text(word, "crash") {
        Kind::Crash
    } else if is_text(word, "leave") {
        Kind::Leave
    } else if is_text(word, "stranded") {
        Kind::Stranded
    } else if is_text(word, "lookup") {
        Kind::Lookup
    } else if is_text(word, "found") {
        Kind::Found
    } else if is_text(word, "lost") {
        Kind::Lost
    } else {
        return None;
    };
    Some(kind)
}
