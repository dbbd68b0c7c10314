//! The start of a run by a team.
ghost use Rattle.std.specs.Prelude.{◌≡◌, ℕ, ◌<◌, ◌^◌, [], List, Option, length, slice_index_or, IfErr, IfOk, OnOk};
ghost use Rattle.std.specs.List.{All};
ghost use Rattle.des_model.specs.Windows.{Divides};
ghost use Rattle.des_team.specs.declared.part.OwnedPart.{OwnedPart as AnOwnedPart};
ghost use Rattle.des_team.specs.Chronicles.{chronicle};
ghost use Rattle.des_team.specs.Layouts.{IsLayout};
ghost use Rattle.des_team.specs.Owned.{AreApart, LeastTimeIs};
ghost use Rattle.des_team.specs.Starts.{AreEmptyParts, AreParcelsOf, HaveEvents, HaveStates};
ghost use Rattle.des_team.specs.Teams.{IsTeam};

use crate::layout::Layout;
use crate::mail::{Inbox, Outbox};
use crate::output::Output;
use crate::part::{OwnedPart, Parcel};
use crate::team::Team;
use des_event::{Event, Memory, RunError};
use des_machine::{AuditClock, Journal, Machine, Scribe};
use des_queue::Pending;
use des_window::{Opening, sooner};
use std::alloc::Global;

/// So many parts, without states and events.
fn empty_parts<M: Machine, S: Scribe<M> + Drop>(
    alloc: Global,
    machine: &M,
    parts: u32,
) -> Result<Vec<OwnedPart<M, S>>, Memory>
    ensures { IfOk result (λ list. AreEmptyParts (S.HasCounted machine.now) parts parts list.items) }
{
    let mut list = Vec::new(alloc);
    for part in 0..parts {
        let outbox = Outbox::new(alloc, parts)?;
        list.push(OwnedPart {
            part,
            states: Vec::new(alloc),
            pending: Pending::new(alloc),
            inbox: Inbox::new(alloc),
            outbox,
            scribe: S::start(alloc, machine),
            made: Vec::new(alloc),
            apart: [0; 16],
        })?;
    }
    Ok(list)
}

/// Gives each state to the part of its node. The slots are in the order of the nodes.
fn deal_states<M: Machine, S: Drop>(
    parts: &mut Vec<OwnedPart<M, S>>,
    layout: &Layout,
    states: Vec<M::State>,
) -> Result<(), Memory>
    requires parts { length parts.old.items ≡ layout.now.division.parts }
    requires divides { Divides layout.now.division (length states.items) }
    requires few { length states.items < 2 ^ 32 }
    ensures { OnOk result (HaveStates layout.now.division states.items parts.old.items parts.new.items) }
{
    let mut node = 0u32;
    for state in states {
        let part = layout.division.part_of(node) as usize;
        parts[part].states.push(state)?;
        node += 1;
    }
    Ok(())
}

/// Gives each event to the part of its target, in turn. Returns the time of the first event.
fn deal_in_turn<M: Machine, S: Drop>(
    parts: &mut Vec<OwnedPart<M, S>>,
    layout: &Layout,
    events: Vec<Event<M::Body>>,
) -> Result<Option<u64>, Memory>
    requires parts { length parts.old.items ≡ layout.now.division.parts }
    requires below { All (λ p. p < layout.now.division.parts) layout.now.division.of_node }
    requires nodes { All (λ x. x.target < length layout.now.division.of_node) events.items }
    requires apart { AreApart events.items }
    requires none { (p : ℕ) (o : AnOwnedPart M S M.State M.Body M.Piece) → p < length parts.old.items → (slice_index_or parts.old.items p o).pending ≡ [] }
    ensures dealt { OnOk result (HaveEvents layout.now.division events.items [] parts.old.items parts.new.items) }
    ensures first { IfOk result (λ first. LeastTimeIs events.items first) }
{
    let mut first = None;
    for event in events {
        let part = layout.division.part_of(event.target) as usize;
        first = sooner(first, Some(event.key.time));
        if let Err(refused) = parts[part].pending.insert(event) {
            // By a call, so that the proof has one case and not one for each kind of body.
            drop(refused);
            return Err(Memory);
        }
    }
    Ok(first)
}

/// Gives each event to the part of its target. Returns the time of the first event.
fn deal_events<M: Machine, S: Drop>(
    parts: &mut Vec<OwnedPart<M, S>>,
    layout: &Layout,
    events: Vec<Event<M::Body>>,
) -> Result<Option<u64>, Memory>
    requires parts { length parts.old.items ≡ layout.now.division.parts }
    requires below { All (λ p. p < layout.now.division.parts) layout.now.division.of_node }
    requires nodes { All (λ x. x.target < length layout.now.division.of_node) events.items }
    requires apart { AreApart events.items }
    requires none { (p : ℕ) (o : AnOwnedPart M S M.State M.Body M.Piece) → p < length parts.old.items → (slice_index_or parts.old.items p o).pending ≡ [] }
    ensures dealt { OnOk result (HaveEvents layout.now.division events.items [] parts.old.items parts.new.items) }
    ensures first { IfOk result (λ first. LeastTimeIs events.items first) }
{
    let mut events = events;
    // The first event goes in first: a calendar opens the day of the first event that it takes, and
    // events of days before it would go into the heap.
    events.sort_unstable_by_key(|event| event.key);
    deal_in_turn(parts, layout, events)
}

/// The parts, each with an empty text.
fn parcels_of<M: Machine, S: Drop>(
    alloc: Global,
    parts: Vec<OwnedPart<M, S>>,
) -> Result<Vec<Option<Parcel<M, S>>>, Memory>
    ensures { IfOk result (λ parcels. AreParcelsOf parts.items parcels.items) }
{
    let mut parcels = Vec::new(alloc);
    for part in parts {
        parcels.push(Some(Parcel {
            count: 0,
            horizon: 0,
            part: Box::new(alloc, part)?,
            output: Output::new(alloc),
        }))?;
    }
    Ok(parcels)
}

impl<M: Machine, S: Scribe<M> + Drop> Team<M, S> {
    /// The start of a run.
    pub fn start(alloc: Global, machine: &M, layout: &Layout) -> Result<Team<M, S>, RunError>
        requires { IsLayout (M.model machine.now).nodes layout.now }
        ensures at { IfOk result (λ team. (now : Option (List ℕ)) → IsTeam (chronicle (M.model machine.now) (S.text machine.now) (S.HasCounted machine.now)) layout.now now now team) }
        ensures only { IfErr result (λ e. e ≡ RunError.Memory) }
    {
        machine.recall();
        let mut parts = empty_parts(alloc, machine, layout.division.parts())?;
        deal_states(&mut parts, layout, machine.start_states(alloc)?)?;
        let next = deal_events(&mut parts, layout, machine.start_events(alloc)?)?;
        let parcels = parcels_of(alloc, parts)?;
        let clock = AuditClock::new(machine.audit_times(alloc)?);
        Ok(Team {
            count: 0,
            parcels,
            next,
            journal: Journal {
                scribe: S::start(alloc, machine),
                clock,
            },
            due: Vec::new(alloc),
            window: Opening {
                time: 0,
                horizon: 0,
            },
        })
    }
}
