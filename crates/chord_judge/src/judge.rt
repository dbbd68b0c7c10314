//! The judge.
ghost use Rattle.std.specs.Prelude.{◌≡◌, ℕ, ◌+◌, ◌^◌, ◌<◌, ◌==◌, ◌&&◌, ◌++◌, [], ◌∷◌, IsTrue, OnOk, Some, cond};
ghost use Rattle.std.specs.List.{All};
ghost use Rattle.chord_judge.specs.Open.{nodes_of};
ghost use Rattle.chord_judge.specs.Rows.{ends_by};
ghost use Rattle.chord_scenario.specs.World.{node_count};

use crate::members::{Change, Members};
use crate::open::{Ended, OpenLookups};
use crate::row::{Answer, End, Lookup, Row};
use crate::told::Told;
use chord_circle::Ident;
use chord_event::{Line, Memory};
use chord_scenario::Scenario;
use std::alloc::Global;

/// Why a judge refuses a line.
#[derive(Clone, Copy, Drop)]
pub enum JudgeFault {
    /// An allocation failed.
    Memory,
    /// The line ends a lookup that is not in progress.
    NoLookup,
}

impl From<Memory> for JudgeFault {
    ghost use Rattle.chord_judge.specs.declared.judge.JudgeFault.TheVariants.{Memory};

    ghost from_gives = { λ _ fault. fault ≡ Memory };

    fn from(_error: Memory) -> JudgeFault {
        JudgeFault::Memory
    }
}

/// Takes the lines of a trace, one after another, and says what became of each lookup.
#[derive(Drop)]
pub struct Judge<'a> {
    pub(crate) members: Members<'a>,
    /// The changes of members, the oldest first.
    pub(crate) changes: Vec<Change>,
    /// The lookups in progress.
    pub(crate) lookups: OpenLookups,
    /// How many lookups have begun.
    pub(crate) begun: u64,
    ghost changed: { All (λ change. change.node < node_count members.scenario.now) changes.items },
    ghost room: { nodes_of lookups ≡ node_count members.scenario.now },
}

impl<'a> Judge<'a> {
    ghost use Rattle.std.specs.Prelude.{◌≡◌, ◌<◌, ◌^◌, ◌++◌, [], ◌∷◌, List, Err, OnErr, OnOk, IfOk, false, filter, map, not, set, true};
    ghost use Rattle.chord_judge.specs.Inside.{HasRead, HoldMembers, changes_after, holds, setup_of};
    ghost use Rattle.chord_judge.specs.Judged.{answer_of, first_alone, is_ended_by, is_known, is_of, open_after, rows_by, without_first};
    ghost use Rattle.chord_judge.specs.Open.{Holds};
    ghost use Rattle.chord_judge.specs.Rows.{ends_by};
    ghost use Rattle.chord_judge.specs.Members.{is_member_after};
    ghost use Rattle.chord_judge.specs.Owners.{was_right_owner};
    ghost use Rattle.chord_judge.specs.Tellings.{IsToldOf};
    ghost use Rattle.chord_judge.specs.declared.row.End.TheVariants as ended;
    ghost use Rattle.chord_judge.specs.declared.row.Lookup.{Lookup};
    ghost use Rattle.chord_judge.specs.declared.told.Told.{Told};
    ghost use Rattle.chord_scenario.specs.World.{node_count};

    /// A judge of the trace of a scenario, before its first line.
    pub fn new(alloc: Global, scenario: &'a Scenario) -> Result<Judge<'a>, Memory>
        ensures setup { IfOk result (λ judge. setup_of judge ≡ scenario.entry.now) }
        ensures read { IfOk result (HasRead scenario.entry.now []) }
    {
        Ok(Judge {
            members: Members::new(alloc, scenario)?,
            changes: Vec::new(alloc),
            lookups: OpenLookups::new(alloc, scenario.nodes())?,
            begun: 0,
        })
    }

    /// Takes the next line, and adds the rows of the lookups that it ends.
    #[tactic(auto, using(crate::proofs::InProgress::askers_without))]
    pub fn read(&mut self, told: Told, rows: &mut Vec<Row>) -> Result<(), JudgeFault>
        requires { IsToldOf (setup_of self.old) told }
        ensures setup { setup_of self.new ≡ setup_of self.old }
        ensures read { OnOk result ((lines : List Told) → HasRead (setup_of self.old) lines self.old → HasRead (setup_of self.old) (told ∷ lines) self.new) }
        ensures rows { OnOk result ((lines : List Told) → HasRead (setup_of self.old) lines self.old → rows.new.items ≡ rows.old.items ++ rows_by (setup_of self.old) lines (open_after lines) told.line told.time told.node) }
        ensures known { OnOk result ((lines : List Told) → HasRead (setup_of self.old) lines self.old → is_known told.line told.time told.node (open_after lines) ≡ true) }
        ensures unknown { result ≡ Err JudgeFault.NoLookup → (lines : List Told) → HasRead (setup_of self.old) lines self.old → is_known told.line told.time told.node (open_after lines) ≡ false }
    {
        let Told { time, node, line } = told;
        match line {
            Line::Member { .. } | Line::Create => self.change(time, node, true)?,
            Line::Stranded { .. } => self.change(time, node, false)?,
            Line::Crash => self.stop(time, node, End::Crash { at: time }, rows)?,
            Line::Leave => self.stop(time, node, End::Leave { at: time }, rows)?,
            Line::Lookup { key } => self.begin(time, node, key)?,
            Line::Found {
                key,
                owner,
                hops,
                timeouts,
                us,
            } => {
                let lookup = self.end(time, node, key, us)?;
                let answer = self.answer(key, lookup.begun, owner, hops, timeouts);
                push_row(rows, lookup, End::Found { at: time, answer })?;
            }
            Line::Lost {
                key,
                hops,
                timeouts,
                us,
            } => {
                let lookup = self.end(time, node, key, us)?;
                let end = End::Lost {
                    at: time,
                    hops,
                    timeouts,
                };
                push_row(rows, lookup, end)?;
            }
            _ => {}
        }
        Ok(())
    }

    /// Adds the rows of the lookups that the end of the trace cuts off.
    pub fn finish(&self, alloc: Global, rows: &mut Vec<Row>) -> Result<(), Memory>
        ensures { OnOk result ((lines : List Told) → HasRead (setup_of self.now) lines self.now → rows.new.items ≡ rows.old.items ++ map (ends_by ended.Trace) (open_after lines)) }
    {
        self.lookups.finish(alloc, rows)
    }

    /// Begins a lookup.
    fn begin(&mut self, begun: u64, asker: u32, key: Ident) -> Result<(), Memory>
        requires { asker < node_count (setup_of self.old) }
        ensures members { self.new.members ≡ self.old.members }
        ensures changes { self.new.changes ≡ self.old.changes }
        ensures lookups { OnOk result ((lookups : List Lookup) → Holds lookups self.old.lookups → Holds (lookups ++ record { number = self.old.begun; asker = asker; key = key; begun = begun } ∷ []) self.new.lookups) }
        ensures begun { OnOk result (self.new.begun ≡ self.old.begun + 1) }
    {
        // No trace has so many lookups.
        let Some(next) = self.begun.checked_add(1) else {
            return Err(Memory);
        };
        self.lookups.begin(Lookup {
            number: self.begun,
            asker,
            key,
            begun,
        })?;
        self.begun = next;
        Ok(())
    }

    /// Takes out the lookup that ends at a time after this long.
    fn end(&mut self, time: u64, node: u32, key: Ident, us: u64) -> Result<Lookup, JudgeFault>
        requires { node < node_count (setup_of self.old) }
        ensures members { self.new.members ≡ self.old.members }
        ensures changes { self.new.changes ≡ self.old.changes }
        ensures begun { self.new.begun ≡ self.old.begun }
        ensures taken { IfOk result (λ lookup. (lookups : List Lookup) → Holds lookups self.old.lookups → first_alone (is_ended_by node key time us) lookups ≡ lookup ∷ []) }
        ensures left { OnOk result ((lookups : List Lookup) → Holds lookups self.old.lookups → Holds (without_first (is_ended_by node key time us) lookups) self.new.lookups) }
        ensures none { OnErr result ((lookups : List Lookup) → Holds lookups self.old.lookups → first_alone (is_ended_by node key time us) lookups ≡ []) }
    {
        let ended = Ended {
            node,
            key,
            time,
            us,
        };
        match self.lookups.end(ended) {
            Some(lookup) => Ok(lookup),
            None => Err(JudgeFault::NoLookup),
        }
    }

    /// Takes a node out: its lookups end like this, and it is no member any more.
    fn stop(&mut self, time: u64, node: u32, end: End, rows: &mut Vec<Row>) -> Result<(), Memory>
        requires { node < node_count (setup_of self.old) }
        ensures setup { setup_of self.new ≡ setup_of self.old }
        ensures marks { OnOk result (self.new.members.marks.items ≡ set self.old.members.marks.items node false) }
        ensures changes { OnOk result (self.new.changes.items ≡ self.old.changes.items ++ record { time = time; node = node; was = holds self.old.members node; is = false } ∷ []) }
        ensures begun { OnOk result (self.new.begun ≡ self.old.begun) }
        ensures left { OnOk result ((lookups : List Lookup) → Holds lookups self.old.lookups → Holds (filter (λ lookup. not (is_of node lookup)) lookups) self.new.lookups) }
        ensures rows { OnOk result ((lookups : List Lookup) → Holds lookups self.old.lookups → rows.new.items ≡ rows.old.items ++ map (ends_by end) (filter (is_of node) lookups)) }
    {
        self.lookups.cut_off(node, end, rows)?;
        self.change(time, node, false)
    }

    /// Makes a node a member, or none.
    fn change(&mut self, time: u64, node: u32, is: bool) -> Result<(), Memory>
        requires { node < node_count (setup_of self.old) }
        ensures setup { setup_of self.new ≡ setup_of self.old }
        ensures marks { OnOk result (self.new.members.marks.items ≡ set self.old.members.marks.items node is) }
        ensures changes { OnOk result (self.new.changes.items ≡ self.old.changes.items ++ record { time = time; node = node; was = holds self.old.members node; is = is } ∷ []) }
        ensures lookups { self.new.lookups ≡ self.old.lookups }
        ensures begun { self.new.begun ≡ self.old.begun }
    {
        let was = self.members.contains(node);
        self.changes.push(Change {
            time,
            node,
            was,
            is,
        })?;
        self.members.mark(node, is);
        Ok(())
    }

    /// The answer of a lookup, and whether it is right.
    fn answer(&self, key: Ident, begun: u64, named: u32, hops: u32, timeouts: u32) -> Answer
        requires key { key < 2 ^ (setup_of self.now).bits }
        requires named { named < node_count (setup_of self.now) }
        ensures { (lines : List Told) → HoldMembers (setup_of self.now) (is_member_after (setup_of self.now) lines) self.now.members → self.now.changes.items ≡ changes_after (setup_of self.now) lines → result ≡ answer_of (setup_of self.now) lines key begun named hops timeouts }
    {
        self.members.scenario.recall_range();
        let right_owner = self.members.owner(key);
        let strict = is_this(right_owner, named);
        let defensible = strict || self.was_right_owner(begun, key, named);
        Answer {
            named,
            hops,
            timeouts,
            right_owner,
            strict,
            defensible,
        }
    }

    /// Whether a node was the right owner of a key at some instant since a time.
    fn was_right_owner(&self, begun: u64, key: Ident, node: u32) -> bool
        requires key { key < 2 ^ (setup_of self.now).bits }
        requires node { node < node_count (setup_of self.now) }
        ensures { (lines : List Told) → HoldMembers (setup_of self.now) (is_member_after (setup_of self.now) lines) self.now.members → self.now.changes.items ≡ changes_after (setup_of self.now) lines → result ≡ was_right_owner (setup_of self.now) begun key node lines }
    {
        self.members.scenario.recall_range();
        let limit = self.members.way(key, node);
        let mut nearer = self.members.nearer_count(key, node);
        let mut is_member = self.members.contains(node);
        let mut left = self.changes.len();
        while left > 0 {
            if is_first(is_member, nearer) {
                return true;
            }
            let change = self.changes[left - 1];
            if change.time < begun {
                return false;
            }
            let way = self.members.way(key, change.node);
            is_member = member_before(is_member, change, node);
            nearer = nearer_before(nearer, change, way < limit);
            left -= 1;
        }
        is_first(is_member, nearer)
    }
}

/// Whether a node is the right owner, of which this is known.
fn is_first(is_member: bool, nearer: u32) -> bool
    ensures { result ≡ (is_member && nearer == 0) }
{
    is_member && nearer == 0
}

/// Whether a node was a member before a change, from whether it is one after it.
fn member_before(is_member: bool, change: Change, node: u32) -> bool
    ensures { result ≡ cond (change.node == node) change.was is_member }
{
    if change.node == node {
        change.was
    } else {
        is_member
    }
}

/// How many members are nearer before a change, from how many there are after it.
fn nearer_before(nearer: u32, change: Change, is_nearer: bool) -> u32
    ensures { (before : ℕ) → before < 2 ^ 31 → before + cond (change.is && is_nearer) 1 0 ≡ nearer + cond (change.was && is_nearer) 1 0 → result ≡ before }
{
    if !is_nearer {
        return nearer;
    }
    let before = nearer.saturating_add(u32::from(change.was));
    before.saturating_sub(u32::from(change.is))
}

/// Whether it is this node.
fn is_this(found: Option<u32>, node: u32) -> bool
    ensures yes { IsTrue result → found ≡ Some node }
    ensures no { found ≡ Some node → IsTrue result }
{
    match found {
        Some(owner) => owner == node,
        None => false,
    }
}

/// Adds the row of a lookup.
fn push_row(rows: &mut Vec<Row>, lookup: Lookup, end: End) -> Result<(), Memory>
    ensures { OnOk result (rows.new.items ≡ rows.old.items ++ ends_by end lookup ∷ []) }
{
    rows.push(Row { lookup, end })?;
    Ok(())
}
