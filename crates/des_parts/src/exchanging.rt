//! The end of a window: the results of the parts become one world again.
ghost use Rattle.std.specs.Prelude.{◌≡◌, ◌⊎◌, ◌+◌, ◌<◌, ◌≤◌, ◌++◌, ℕ, None, length, nat_lt, IfOk, IfErr, IfSome, OnOk, Err};
ghost use Rattle.std.specs.List.{AllByRecursion, filter};
ghost use Rattle.des_model.specs.Histories.{IsOverLimit};
ghost use Rattle.des_parts.specs.Ordering.{AreEntriesInOrder, ArePartsDone};
ghost use Rattle.des_parts.specs.Exchanges.{AreDone, NameNodes, entry_lists, events_in, mails, with_all, with_states};
ghost use Rattle.des_parts.specs.Worlds.{IsWorldOf};

use crate::copies::Touched;
use crate::entries::Entry;
use crate::part_order::in_part_order;
use crate::part_run::Done;
use crate::world::{World, deliver, open_window};
use des_event::{Event, Memory, RunError};
use des_machine::{AuditClock, Machine};
use std::alloc::Global;

/// What the parts of a window leave together.
#[derive(Drop)]
pub struct Gathered<B, P> {
    pub mail: Vec<Event<B>>,
    pub entries: Vec<Vec<Entry<P>>>,
}

/// Puts states in the places of their nodes.
fn put_states<T: Drop>(states: &mut Vec<T>, nodes: Vec<Touched<T>>)
    requires { AllByRecursion (λ s. s.node < length states.old.items) nodes.items }
    ensures { states.new.items ≡ with_states nodes.items states.old.items }
{
    for touched in nodes {
        let Touched { node, state } = touched;
        let at = node as usize;
        states[at] = state;
    }
}

/// The items of the first list, and then those of the second.
fn joined<B: Drop>(first: Vec<Event<B>>, second: Vec<Event<B>>) -> Result<Vec<Event<B>>, Memory>
    ensures { IfOk result (λ list. list.items ≡ first.items ++ second.items) }
{
    if first.is_empty() {
        return Ok(second);
    }
    let mut list = first;
    let mut rest = second;
    list.append(&mut rest)?;
    Ok(list)
}

/// How many events the parts of a window ran together, or `None` if these are more than `room`.
pub(crate) fn events_within<T: Drop, B: Drop, P: Drop>(
    room: u64,
    dones: &[Done<T, B, P>],
) -> Option<u64>
    ensures some { IfSome result (λ events. (events ≡ events_in dones.now) × (events ≤ room)) }
    ensures none { result ≡ None → room < events_in dones.now }
{
    let mut events = 0;
    for done in dones {
        if done.events > room - events {
            return None;
        }
        events += done.events;
    }
    Some(events)
}

/// Puts the states of the parts in the places of their nodes, and gathers the rest.
fn gather<T: Drop, B: Drop, P: Drop>(
    alloc: Global,
    states: &mut Vec<T>,
    dones: Vec<Done<T, B, P>>,
) -> Result<Gathered<B, P>, Memory>
    requires { NameNodes (length states.old.items) dones.items }
    ensures states { OnOk result (states.new.items ≡ with_all dones.items states.old.items) }
    ensures mail { IfOk result (λ g. g.mail.items ≡ mails dones.items) }
    ensures entries { IfOk result (λ g. g.entries.items ≡ entry_lists dones.items) }
{
    let mut mail = Vec::new(alloc);
    let mut entries = Vec::new(alloc);
    for done in dones {
        put_states(states, done.nodes);
        mail = joined(mail, done.mail)?;
        entries.push(done.entries)?;
    }
    Ok(Gathered { mail, entries })
}

/// Passes over the audits up to a time.
fn pass_audits(clock: &mut AuditClock, time: u64)
    ensures { clock.new ≡ filter (λ t. nat_lt time t) clock.old }
{
    while let Some(_audit) = clock.take_due(time) {}
}

/// Puts together what the parts of a window leave, and opens the next window. There is one result
/// for each part, in any order. Returns the entries by part, in the order of the parts. After an
/// error the world is unusable.
///
/// # Errors
///
/// `TooManyEvents`, if the run has more events than the machine allows; `Memory`, if an allocation
/// fails.
pub fn exchange<M: Machine>(
    alloc: Global,
    machine: &M,
    world: &mut World<M::State, M::Body>,
    dones: Vec<Done<M::State, M::Body, M::Piece>>,
) -> Result<Vec<Vec<Entry<M::Piece>>>, RunError>
    requires world { IsWorldOf (M.model machine.now) world.old }
    requires done { (horizon : ℕ) × ArePartsDone (M.model machine.now) (M.Known machine.now) world.old horizon dones.items }
    ensures world { OnOk result (IsWorldOf (M.model machine.now) world.new) }
    ensures count { OnOk result (world.new.count ≡ world.old.count + events_in dones.items) }
    ensures division { OnOk result (world.new.division ≡ world.old.division) }
    ensures entries { IfOk result (λ entries. AreEntriesInOrder dones.items world.old.division.parts entries.items) }
    ensures over { result ≡ Err RunError.TooManyEvents → IsOverLimit (M.model machine.now) }
    ensures only { IfErr result (λ e. (e ≡ RunError.Memory) ⊎ (e ≡ RunError.TooManyEvents)) }
{
    machine.recall();
    let list = in_part_order(alloc, world.division.parts(), dones)?;
    let room = machine.max_events() - world.count;
    let Some(events) = events_within(room, list.as_slice()) else {
        return Err(RunError::TooManyEvents);
    };
    Ok(exchange_in_order(alloc, machine, world, list, events)?)
}

/// `exchange`, for results in the order of their parts, which ran this many events together.
pub(crate) fn exchange_in_order<M: Machine>(
    alloc: Global,
    machine: &M,
    world: &mut World<M::State, M::Body>,
    dones: Vec<Done<M::State, M::Body, M::Piece>>,
    events: u64,
) -> Result<Vec<Vec<Entry<M::Piece>>>, Memory>
    requires world { IsWorldOf (M.model machine.now) world.old }
    requires done { (horizon : ℕ) × AreDone (M.model machine.now) (M.Known machine.now) world.old horizon dones.items }
    requires events { events ≡ events_in dones.items }
    requires within { world.old.count + events ≤ (M.model machine.now).max_events }
    ensures world { OnOk result (IsWorldOf (M.model machine.now) world.new) }
    ensures count { OnOk result (world.new.count ≡ world.old.count + events_in dones.items) }
    ensures division { OnOk result (world.new.division ≡ world.old.division) }
    ensures entries { IfOk result (λ entries. entries.items ≡ entry_lists dones.items) }
{
    machine.recall();
    let Some(opening) = world.opening else {
        unreachable!();
    };
    let Gathered { mail, entries } = gather(alloc, &mut world.states, dones)?;
    world.count += events;
    pass_audits(&mut world.clock, opening.time);
    deliver(&mut world.parts, &world.division, mail)?;
    world.opening = open_window(machine, &world.clock, &mut world.parts)?;
    Ok(entries)
}
