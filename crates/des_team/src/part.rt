//! A part of the nodes, and its run in a window.
ghost use Rattle.std.specs.Prelude.{◌≡◌, ◌++◌, ◌<◌, ◌^◌, [], length, IfOk, IfErr, OnOk};
ghost use Rattle.std.specs.List.{All};
ghost use Rattle.des_model.specs.Windows.{part_of};
ghost use Rattle.des_team.specs.Chronicles.{chronicle};
ghost use Rattle.des_team.specs.Orders.{HasRunAll, IsFault, IsDone, IsOrder, MayRun};
ghost use Rattle.des_team.specs.Running.{HasHandled, HasSent, HasTakenIn, CanHandle, is_due};
ghost use Rattle.des_team.specs.Owned.{AreApart};

use crate::layout::Layout;
use crate::mail::{Inbox, Outbox};
use crate::output::Output;
use des_event::{Event, Memory, RunError};
use des_machine::{Machine, Scribe, Upcoming, read_ahead};
use des_queue::{GROUP, Pending};
use des_window::sooner;
use std::alloc::Global;
use std::mem;

/// A part of the nodes, which has their states and their pending events for the whole run.
#[derive(Drop)]
pub struct OwnedPart<M: Machine, S> {
    pub part: u32,
    /// The states of its nodes, at their slots.
    pub states: Vec<M::State>,
    pub pending: Pending<M::Body>,
    /// What the others made for this one in the last window.
    pub inbox: Inbox<M::Body>,
    /// What it made for each part in this one.
    pub outbox: Outbox<M::Body>,
    /// It has counted the events of the part.
    pub scribe: S,
    /// Empty between events: room for what the next one makes.
    pub made: Vec<Event<M::Body>>,
    /// Unused memory between this part and the next one. The boxes of parts lie side by side, and two
    /// workers that write to one cache line would wait for each other.
    pub apart: [u64; 16],
}

/// A part, and where its nodes' states are, to read ahead what its next events need.
#[derive(Clone, Copy, Drop)]
struct PartAhead<'a, M: Machine, S> {
    part: &'a OwnedPart<M, S>,
    layout: &'a Layout,
}

impl<'a, M: Machine, S> Upcoming<M::State> for PartAhead<'a, M, S> {
    #[inline(always)]
    fn state(&self, later: usize) -> Option<&M::State> {
        let node = self.part.pending.target_ahead(later)?;
        let slot = *self.layout.slots.get(node as usize)?;
        self.part.states.get(slot as usize)
    }

    #[inline(always)]
    fn fetch_event(&self, later: usize) -> Option<u64> {
        self.part.pending.fetch_event(later)
    }
}

/// A part on its way to a window, which follows the first `count` events of the run.
#[derive(Drop)]
pub struct Parcel<M: Machine, S> {
    pub count: u64,
    pub horizon: u64,
    /// In a box, since a parcel is moved many times in each window.
    pub part: Box<OwnedPart<M, S>>,
    pub output: Output,
}

/// A window: how many events of the run come before it, and its end in microseconds.
#[derive(Drop)]
struct WindowBounds {
    count: u64,
    horizon: u64,
}

/// What a window leaves of a part.
#[derive(Drop)]
pub struct Done<M: Machine, S> {
    pub parcel: Parcel<M, S>,
    /// How many events it ran.
    pub events: u64,
    /// The time of the first event of all that it has or has made.
    pub next: Option<u64>,
    pub fault: Option<RunError>,
}

/// Whether the first event, if there is one, is before the horizon.
fn is_due(first: Option<u64>, horizon: u64) -> bool
    ensures { result ≡ is_due first horizon }
{
    match first {
        None => false,
        Some(time) => time < horizon,
    }
}

impl<M: Machine, S: Scribe<M> + Drop> OwnedPart<M, S> {
    /// Puts what the other parts made among the pending events.
    fn take_in(&mut self) -> Result<(), Memory>
        requires { AreApart (self.old.pending ++ self.old.inbox) }
        ensures taken { OnOk result (HasTakenIn self.old self.new) }
        ensures part { self.new.part ≡ self.old.part }
    {
        self.inbox.empty_into(&mut self.pending, self.outbox.len())
    }

    /// Puts the events that it made for its own nodes among the pending ones, and the others into
    /// the lists of their parts. Returns the least time of the others.
    fn send(
        &mut self,
        layout: &Layout,
        made: &mut Vec<Event<M::Body>>,
    ) -> Result<Option<u64>, Memory>
        requires apart { AreApart (self.old.pending ++ made.old.items) }
        requires parts { All (λ x. part_of layout.now.division x.target < length self.old.outbox) made.old.items }
        requires nodes { All (λ x. x.target < length layout.now.division.of_node) made.old.items }
        ensures sent { IfOk result (λ soonest. HasSent layout.now.division made.old.items self.old self.new soonest) }
        ensures none_left { OnOk result (made.new.items ≡ []) }
        ensures part { self.new.part ≡ self.old.part }
        ensures states { self.new.states ≡ self.old.states }
        ensures inbox { self.new.inbox ≡ self.old.inbox }
        ensures scribe { self.new.scribe ≡ self.old.scribe }
    {
        self.pending.recall_order();
        // Taken from the end, and so turned round first: each list has them in the order made.
        made.reverse();
        let mut soonest = None;
        while let Some(event) = made.pop() {
            let to = layout.division.part_of(event.target);
            if to == self.part {
                if let Err(refused) = self.pending.insert(event) {
                    // By a call, so that the proof has one case and not one for each kind of body.
                    drop(refused);
                    return Err(Memory);
                }
                self.pending.recall_order();
            } else {
                soonest = sooner(soonest, Some(event.key.time));
                self.outbox.push(to, event)?;
            }
        }
        Ok(soonest)
    }

    /// Lets the target of an event act on it. Returns the least time of the events that it made for
    /// other parts.
    fn handle(
        &mut self,
        alloc: Global,
        machine: &M,
        layout: &Layout,
        event: &Event<M::Body>,
        output: &mut Output,
    ) -> Result<Option<u64>, Memory>
        requires can { CanHandle (chronicle (M.model machine.now) (S.text machine.now) (S.HasCounted machine.now)) (M.Sound machine.now) (M.Fit machine.now) (M.Room machine.now) layout.now self.old event.now }
        requires room { S.size self.old.scribe < 2 ^ 40 }
        ensures handled { IfOk result (λ soonest. HasHandled (chronicle (M.model machine.now) (S.text machine.now) (S.HasCounted machine.now)) layout.now event.now self.old self.new output.old output.new soonest) }
        ensures part { self.new.part ≡ self.old.part }
    {
        machine.recall();
        let slot = layout.slots[event.target as usize] as usize;
        self.look_ahead(alloc, machine, layout);
        let mut made = mem::replace(&mut self.made, Vec::new(alloc));
        let piece = machine.act(alloc, &mut self.states[slot], event, &mut made)?;
        let soonest = self.send(layout, &mut made)?;
        output.put(alloc, machine, event.key, &piece, &mut self.scribe)?;
        self.made = made;
        Ok(soonest)
    }

    /// Reads a little of what the next events need, if many events are pending.
    #[inline(always)]
    fn look_ahead(&self, alloc: Global, machine: &M, layout: &Layout) {
        if self.pending.begins_group() {
            let upcoming = PartAhead { part: self, layout };
            read_ahead(alloc, machine, &upcoming, GROUP);
        }
    }

    /// Runs the events of a window, the least first. Returns how many it ran, and the time of the
    /// first event of all that the part has or has made.
    fn run_events(
        &mut self,
        alloc: Global,
        machine: &M,
        layout: &Layout,
        window: WindowBounds,
        output: &mut Output,
    ) -> Result<(u64, Option<u64>), RunError>
        requires { MayRun (chronicle (M.model machine.now) (S.text machine.now) (S.HasCounted machine.now)) layout.now window.count window.horizon self.old output.old }
        ensures ran { IfOk result (λ ran. HasRunAll (chronicle (M.model machine.now) (S.text machine.now) (S.HasCounted machine.now)) layout.now window.count window.horizon ran.0 ran.1 self.new output.new) }
        ensures failed { IfErr result (IsFault (M.model machine.now)) }
        ensures part { self.new.part ≡ self.old.part }
    {
        machine.recall();
        self.take_in()?;
        let room = machine.max_events() - window.count;
        let mut soonest = None;
        let mut events = 0u64;
        while is_due(self.pending.first_time(), window.horizon) {
            self.pending.recall_order();
            if events >= room {
                return Err(RunError::TooManyEvents);
            }
            let Some(event) = self.pending.pop_first() else {
                unreachable!();
            };
            let made = self.handle(alloc, machine, layout, &event, output)?;
            drop(event);
            soonest = sooner(soonest, made);
            events += 1;
        }
        self.pending.recall_order();
        Ok((events, sooner(soonest, self.pending.first_time())))
    }
}

impl<M: Machine, S: Scribe<M> + Drop> Parcel<M, S> {
    /// Runs the part's window.
    pub fn run(self, alloc: Global, machine: &M, layout: &Layout) -> Done<M, S>
        requires { IsOrder (chronicle (M.model machine.now) (S.text machine.now) (S.HasCounted machine.now)) layout.now self }
        ensures done { IsDone (chronicle (M.model machine.now) (S.text machine.now) (S.HasCounted machine.now)) layout.now result }
        ensures part { result.parcel.part.value.part ≡ self.part.value.part }
        ensures count { result.parcel.count ≡ self.count }
        ensures horizon { result.parcel.horizon ≡ self.horizon }
    {
        let mut parcel = self;
        let window = WindowBounds {
            count: parcel.count,
            horizon: parcel.horizon,
        };
        let output = &mut parcel.output;
        let ran = parcel
            .part
            .run_events(alloc, machine, layout, window, output);
        match ran {
            Ok((events, next)) => Done {
                parcel,
                events,
                next,
                fault: None,
            },
            Err(error) => Done {
                parcel,
                events: 0,
                next: None,
                fault: Some(error),
            },
        }
    }
}
