//! The lookups in progress.
ghost use Rattle.std.specs.Prelude.{◌≡◌, ◌<◌, ◌++◌, [], ◌∷◌, IfNone, IfOk, IfSome, OnOk, filter, flat_map, length, map, remove, slice_index_or};
ghost use Rattle.chord_judge.specs.declared.row.Lookup.{Lookup};
ghost use Rattle.chord_judge.specs.Rows.{ends_by};
ghost use Rattle.chord_judge.specs.Judged.{first_alone, is_ended_by, is_of, without_first};

use crate::row::{End, Lookup, Row};
use chord_circle::Ident;
use chord_event::Memory;
use std::alloc::Global;

/// The end of a lookup, as a line tells of it: at which node and time, of which key, and how long
/// the lookup took.
#[derive(Clone, Copy, Drop)]
pub(crate) struct Ended {
    pub node: u32,
    pub key: Ident,
    pub time: u64,
    pub us: u64,
}

impl Ended {
    /// Whether it is the end of this lookup.
    fn is_of(&self, lookup: &Lookup) -> bool
        ensures { result ≡ is_ended_by self.now.node self.now.key self.now.time self.now.us lookup.now }
    {
        if lookup.asker != self.node || lookup.key != self.key || self.time < self.us {
            return false;
        }
        lookup.begun == self.time - self.us
    }
}

/// The lookups in progress of each node, in the order of their begins.
#[derive(Drop)]
pub(crate) struct OpenLookups {
    pub lists: Vec<Vec<Lookup>>,
}

impl OpenLookups {
    ghost use Rattle.std.specs.Prelude.{◌≡◌, ◌<◌, ◌++◌, [], ◌∷◌, List, IfNone, IfOk, IfSome, OnOk, filter, length, map, not};
    ghost use Rattle.chord_judge.specs.Judged.{first_alone, is_ended_by, is_of, without_first};
    ghost use Rattle.chord_judge.specs.Open.{AreNumbered, Holds, nodes_of};
    ghost use Rattle.chord_judge.specs.Rows.{ends_by};
    ghost use Rattle.chord_judge.specs.declared.row.End.TheVariants as ended;
    ghost use Rattle.chord_judge.specs.declared.row.Lookup.{Lookup};

    /// No lookup of any of this number of nodes.
    pub fn new(alloc: Global, nodes: u32) -> Result<OpenLookups, Memory>
        ensures nodes { IfOk result (λ held. nodes_of held ≡ nodes) }
        ensures none { IfOk result (Holds []) }
    {
        let mut lists = Vec::new(alloc);
        for _ in 0..nodes {
            lists.push(Vec::new(alloc))?;
        }
        Ok(OpenLookups { lists })
    }

    /// Begins a lookup.
    pub fn begin(&mut self, lookup: Lookup) -> Result<(), Memory>
        requires { lookup.asker < nodes_of self.old }
        ensures nodes { nodes_of self.new ≡ nodes_of self.old }
        ensures begun { OnOk result ((lookups : List Lookup) → Holds lookups self.old → Holds (lookups ++ lookup ∷ []) self.new) }
    {
        self.lists[lookup.asker as usize].push(lookup)?;
        Ok(())
    }

    /// Takes out the first lookup that ends like this.
    pub fn end(&mut self, ended: Ended) -> Option<Lookup>
        requires { ended.node < nodes_of self.old }
        ensures nodes { nodes_of self.new ≡ nodes_of self.old }
        ensures taken { IfSome result (λ lookup. (lookups : List Lookup) → Holds lookups self.old → first_alone (is_ended_by ended.node ended.key ended.time ended.us) lookups ≡ lookup ∷ []) }
        ensures left { IfSome result (λ lookup. (lookups : List Lookup) → Holds lookups self.old → Holds (without_first (is_ended_by ended.node ended.key ended.time ended.us) lookups) self.new) }
        ensures none { IfNone result ((lookups : List Lookup) → Holds lookups self.old → first_alone (is_ended_by ended.node ended.key ended.time ended.us) lookups ≡ []) }
    {
        take_first(&mut self.lists[ended.node as usize], ended)
    }

    /// Cuts off all lookups of a node, and adds their rows.
    pub fn cut_off(&mut self, node: u32, end: End, rows: &mut Vec<Row>) -> Result<(), Memory>
        requires { node < nodes_of self.old }
        ensures nodes { nodes_of self.new ≡ nodes_of self.old }
        ensures rows { OnOk result ((lookups : List Lookup) → Holds lookups self.old → rows.new.items ≡ rows.old.items ++ map (ends_by end) (filter (is_of node) lookups)) }
        ensures left { OnOk result ((lookups : List Lookup) → Holds lookups self.old → Holds (filter (λ lookup. not (is_of node lookup)) lookups) self.new) }
    {
        let list = &mut self.lists[node as usize];
        push_all(list.as_slice(), end, rows)?;
        list.clear();
        Ok(())
    }

    /// Adds the rows of all lookups, in the order of their begins.
    pub fn finish(&self, alloc: Global, rows: &mut Vec<Row>) -> Result<(), Memory>
        ensures { OnOk result ((lookups : List Lookup) → Holds lookups self.now → AreNumbered (nodes_of self.now) lookups → rows.new.items ≡ rows.old.items ++ map (ends_by ended.Trace) lookups) }
    {
        let mut lookups = all_in(alloc, self.lists.as_slice())?;
        lookups.sort_unstable_by_key(|lookup| lookup.number);
        push_all(lookups.as_slice(), End::Trace, rows)
    }
}

/// All lookups, list by list.
fn all_in(alloc: Global, lists: &[Vec<Lookup>]) -> Result<Vec<Lookup>, Memory>
    ensures { IfOk result (λ lookups. lookups.items ≡ flat_map (λ list. list.items) lists.now) }
{
    let mut lookups = Vec::new(alloc);
    for list in lists {
        lookups.extend_from_slice(list.as_slice())?;
    }
    Ok(lookups)
}

/// Takes out the first lookup that ends like this.
fn take_first(lookups: &mut Vec<Lookup>, ended: Ended) -> Option<Lookup>
    ensures taken { IfSome result (λ lookup. first_alone (is_ended_by ended.node ended.key ended.time ended.us) lookups.old.items ≡ lookup ∷ []) }
    ensures left { IfSome result (λ lookup. lookups.new.items ≡ without_first (is_ended_by ended.node ended.key ended.time ended.us) lookups.old.items) }
    ensures none { IfNone result (first_alone (is_ended_by ended.node ended.key ended.time ended.us) lookups.old.items ≡ []) }
{
    let place = first_place(lookups.as_slice(), ended)?;
    Some(lookups.remove(place))
}

/// The place of the first lookup that ends like this.
fn first_place(lookups: &[Lookup], ended: Ended) -> Option<usize>
    ensures within { IfSome result (λ place. place < length lookups.now) }
    ensures first { IfSome result (λ place. (d : Lookup) → first_alone (is_ended_by ended.node ended.key ended.time ended.us) lookups.now ≡ slice_index_or lookups.now place d ∷ []) }
    ensures others { IfSome result (λ place. without_first (is_ended_by ended.node ended.key ended.time ended.us) lookups.now ≡ remove lookups.now place) }
    ensures none { IfNone result (first_alone (is_ended_by ended.node ended.key ended.time ended.us) lookups.now ≡ []) }
{
    for (place, lookup) in lookups.iter().enumerate() {
        if ended.is_of(lookup) {
            return Some(place);
        }
    }
    None
}

/// Adds the rows of lookups that end like this.
fn push_all(lookups: &[Lookup], end: End, rows: &mut Vec<Row>) -> Result<(), Memory>
    ensures { OnOk result (rows.new.items ≡ rows.old.items ++ map (ends_by end) lookups.now) }
{
    for lookup in lookups {
        rows.push(Row {
            lookup: *lookup,
            end,
        })?;
    }
    Ok(())
}
