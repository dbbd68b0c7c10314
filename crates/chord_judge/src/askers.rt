//! What nodes have asked for: the lookups of users that are in progress, and the states of successors.
ghost use Rattle.std.specs.Prelude.{◌<◌, IfSome, length};
ghost use Rattle.chord_judge.specs.Kept.{IsUnkept};

use crate::words::{copy_of, number_after};
use chord_event::Memory;
use std::alloc::Global;
use std::collections::HashMap;

/// The calls of a lookup in progress. A request that is sent again is of the same call.
#[derive(Drop)]
struct Asked {
    /// The key, as lines of requests write it: `key=KEY`.
    key: Vec<u8>,
    begun: u64,
    calls: u64,
    /// The number of the newest call.
    newest: Option<u64>,
}

/// A line by which a node asks a successor for its state.
#[derive(Drop)]
struct Stabilization {
    line: Vec<u8>,
    ghost unkept: { IsUnkept line.items },
}

/// What a node has asked for.
#[derive(Drop)]
struct Asker {
    lookups: Vec<Asked>,
    /// The newest stabilization.
    stabilization: Option<Stabilization>,
}

/// What each node has asked for, by the node's name.
#[derive(Drop)]
pub(crate) struct Askers {
    alloc: Global,
    by_name: HashMap<Vec<u8>, Asker>,
}

impl Askers {
    ghost use Rattle.std.specs.Prelude.{IfSome};
    ghost use Rattle.chord_judge.specs.Kept.{IsUnkept};

    /// Nodes that have asked for nothing.
    pub fn new(alloc: Global) -> Askers {
        Askers {
            alloc,
            by_name: HashMap::new(alloc),
        }
    }

    /// Counts a request for a lookup, `call=NUMBER key=KEY since=TIME`. Returns whether the lookup is a user's: it may be one
    /// for a finger, which no line begins.
    pub fn ask(&mut self, name: &[u8], call: &[u8], key: &[u8], since: &[u8]) -> bool {
        let Some(asker) = self.by_name.get_mut(name) else {
            return false;
        };
        count_request(asker.lookups.as_mut_slice(), call, key, since)
    }

    /// A node asks a successor for its state, by this line.
    pub fn stabilize(&mut self, name: &[u8], line: &[u8]) -> Result<(), Memory>
        requires { IsUnkept line.now }
    {
        let line = copy_of(self.alloc, line)?;
        let stabilization = Some(Stabilization { line });
        if let Some(asker) = self.by_name.get_mut(name) {
            asker.stabilization = stabilization;
            return Ok(());
        }
        let lookups = Vec::new(self.alloc);
        self.add(name, lookups, stabilization)
    }

    /// The newest line by which a node asked a successor for its state.
    pub fn stabilization(&self, name: &[u8]) -> Option<&[u8]>
        ensures { IfSome result (λ line. IsUnkept line.now) }
    {
        let Some(asker) = self.by_name.get(name) else {
            return None;
        };
        match &asker.stabilization {
            Some(newest) => Some(newest.line.as_slice()),
            None => None,
        }
    }

    /// A lookup of a user begins.
    pub fn begin(&mut self, name: &[u8], begun: u64, key: &[u8]) -> Result<(), Memory> {
        let lookup = Asked {
            key: key_word(self.alloc, key)?,
            begun,
            calls: 0,
            newest: None,
        };
        if let Some(asker) = self.by_name.get_mut(name) {
            asker.lookups.push(lookup)?;
            return Ok(());
        }
        let mut lookups = Vec::new(self.alloc);
        lookups.push(lookup)?;
        self.add(name, lookups, None)
    }

    /// Adds a node that had asked for nothing.
    fn add(
        &mut self,
        name: &[u8],
        lookups: Vec<Asked>,
        stabilization: Option<Stabilization>,
    ) -> Result<(), Memory> {
        let name = copy_of(self.alloc, name)?;
        let asker = Asker {
            lookups,
            stabilization,
        };
        self.by_name.insert(name, asker)?;
        Ok(())
    }

    /// A lookup of a user that began at this time ends. Returns how many of its calls did not time out.
    pub fn end(
        &mut self,
        name: &[u8],
        begun: u64,
        key: &[u8],
        timeouts: u32,
    ) -> Result<u64, Memory> {
        let key = key_word(self.alloc, key)?;
        let Some(asker) = self.by_name.get_mut(name) else {
            return Ok(0);
        };
        let Some(place) = place_of(asker.lookups.as_slice(), key.as_slice(), begun) else {
            return Ok(0);
        };
        let lookup = asker.lookups.remove(place);
        Ok(lookup.calls.saturating_sub(u64::from(timeouts)))
    }

    /// A node stops, with its lookups.
    pub fn stop(&mut self, name: &[u8]) {
        if let Some(asker) = self.by_name.get_mut(name) {
            asker.lookups.clear();
        }
    }
}

/// Counts a request, if it is for one of these lookups. Returns whether it is for one of them.
fn count_request(lookups: &mut [Asked], call: &[u8], key: &[u8], since: &[u8]) -> bool {
    let (Some(call), Some(since)) = (number_after(b"call=", call), number_after(b"since=", since))
    else {
        return false;
    };
    let Some(place) = place_of(lookups, key, since) else {
        return false;
    };
    let lookup = &mut lookups[place];
    if !is_number(lookup.newest, call) {
        lookup.calls = lookup.calls.saturating_add(1);
        lookup.newest = Some(call);
    }
    true
}

/// Whether it is this number.
fn is_number(found: Option<u64>, number: u64) -> bool {
    match found {
        Some(other) => other == number,
        None => false,
    }
}

/// The word by which a request names this key.
fn key_word(alloc: Global, key: &[u8]) -> Result<Vec<u8>, Memory> {
    let mut word = copy_of(alloc, b"key=")?;
    word.extend_from_slice(key)?;
    Ok(word)
}

/// The place of the first of the lookups of this key that began at this time.
fn place_of(lookups: &[Asked], key: &[u8], begun: u64) -> Option<usize>
    ensures { IfSome result (λ place. place < length lookups.now) }
{
    for (place, lookup) in lookups.iter().enumerate() {
        if lookup.begun == begun && lookup.key.as_slice() == key {
            return Some(place);
        }
    }
    None
}
