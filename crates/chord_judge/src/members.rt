//! The members, and the right owner of a key among them.
ghost use Rattle.std.specs.Prelude.{◌≡◌, length};
ghost use Rattle.chord_judge.specs.Places.{AreAllPlaces};
ghost use Rattle.chord_scenario.specs.World.{node_count};

use crate::places::{Place, first_marked, initial_marks, places_of};
use chord_circle::{Ident, Raw};
use chord_event::Memory;
use chord_scenario::Scenario;
use std::alloc::Global;

/// A node became a member or is none any more, or stayed what it was.
#[derive(Clone, Copy, Drop)]
pub(crate) struct Change {
    pub time: u64,
    pub node: u32,
    pub was: bool,
    pub is: bool,
}

/// The members of the ring.
#[derive(Drop)]
pub(crate) struct Members<'a> {
    pub scenario: &'a Scenario,
    /// The places of all nodes, in the order of the identifiers.
    pub places: Vec<Place>,
    /// Whether each node is a member.
    pub marks: Vec<bool>,
    ghost placed: { AreAllPlaces scenario.now places.items },
    ghost marked: { length marks.items ≡ node_count scenario.now },
}

impl<'a> Members<'a> {
    ghost use Rattle.std.specs.Prelude.{◌≡◌, ◌<◌, ◌^◌, ◌≤◌, ◌&&◌, ℕ, Bool, IfOk, cond, nat_lt, set};
    ghost use Rattle.chord_judge.specs.Inside.{HoldMembers, holds};
    ghost use Rattle.chord_judge.specs.Owners.{nearer_count, right_owner, way};
    ghost use Rattle.chord_scenario.specs.World.{node_count, is_initial};

    /// The members at the start.
    pub fn new(alloc: Global, scenario: &'a Scenario) -> Result<Members<'a>, Memory>
        ensures scenario { IfOk result (λ members. members.scenario.now ≡ scenario.entry.now) }
        ensures initial { IfOk result (HoldMembers scenario.entry.now (is_initial scenario.entry.now)) }
    {
        let places = places_of(alloc, scenario)?;
        let marks = initial_marks(alloc, scenario)?;
        Ok(Members {
            scenario,
            places,
            marks,
        })
    }

    /// Whether a node is a member.
    pub fn contains(&self, node: u32) -> bool
        requires { node < node_count self.now.scenario.now }
        ensures { result ≡ holds self.now node }
    {
        self.marks[node as usize]
    }

    /// Makes a node a member, or none.
    pub fn mark(&mut self, node: u32, is: bool)
        requires { node < node_count self.old.scenario.now }
        ensures scenario { self.new.scenario ≡ self.old.scenario }
        ensures marks { self.new.marks.items ≡ set self.old.marks.items node is }
    {
        self.marks[node as usize] = is;
    }

    /// The right owner of a key, if there is a member.
    pub fn owner(&self, key: Ident) -> Option<u32>
        requires { key < 2 ^ self.now.scenario.now.bits }
        ensures { (member : ℕ → Bool) → HoldMembers self.now.scenario.now member self.now → result ≡ right_owner self.now.scenario.now member key }
    {
        self.scenario.recall_range();
        let key = key.raw();
        let start = self.places.partition_point(|place| place.ident < key);
        match first_marked(&self.places[start..], self.marks.as_slice()) {
            Some(node) => Some(node),
            None => first_marked(&self.places[..start], self.marks.as_slice()),
        }
    }

    /// How many members are nearer to a key than a node is.
    pub fn nearer_count(&self, key: Ident, node: u32) -> u32
        requires key { key < 2 ^ self.now.scenario.now.bits }
        requires node { node < node_count self.now.scenario.now }
        ensures { (member : ℕ → Bool) → HoldMembers self.now.scenario.now member self.now → result ≡ nearer_count self.now.scenario.now member key node }
    {
        let way = self.way(key, node);
        let mut count = 0;
        for other in 0..self.scenario.nodes() {
            count += self.count_if_nearer(key, way, other);
        }
        count
    }

    /// The number of places clockwise from a key to a node.
    pub fn way(&self, key: Ident, node: u32) -> Raw
        requires key { key < 2 ^ self.now.scenario.now.bits }
        requires node { node < node_count self.now.scenario.now }
        ensures { result ≡ way self.now.scenario.now key node }
    {
        let place = self.scenario.ident(node);
        self.scenario.circle().distance(key, place)
    }

    /// 1 if a node is a member at less than this many places from the key, and otherwise 0.
    fn count_if_nearer(&self, key: Ident, limit: Raw, other: u32) -> u32
        requires key { key < 2 ^ self.now.scenario.now.bits }
        requires node { other < node_count self.now.scenario.now }
        ensures count { result ≡ cond (holds self.now other && nat_lt (way self.now.scenario.now key other) limit) 1 0 }
        ensures greatest { result ≤ 1 }
    {
        if self.contains(other) && self.way(key, other) < limit {
            1
        } else {
            0
        }
    }
}
