//! The run of one part in one window.
ghost use Rattle.std.specs.Prelude.{◌≡◌, [], ◌≢◌, ◌⊎◌, ◌+◌, ◌<◌, ◌≤◌, ◌^◌, ◌↔◌, ◌++◌, drop, length, nat_le, IfOk, IfErr, IfSome, OnOk, Err, IfNone};
ghost use Rattle.std.specs.List.{AllPairs, Contains, list_all};
ghost use Rattle.des_event.specs.declared.event.Event.{Event as AnEvent};
ghost use Rattle.des_event.specs.KeyOrder.{InKeyOrder, from_on};
ghost use Rattle.des_model.specs.Histories.{IsOverLimit};
ghost use Rattle.des_model.specs.Windows.{Division as ADivision};
ghost use Rattle.des_queue.specs.EventKey.{event_key};
ghost use Rattle.des_parts.specs.PartRuns.{HasBegun, HasHandled, HasLeft, IsDone, IsFresh, IsNextKey, IsNextWindow, IsReady, IsRunning, IsWindow, comes_first};
ghost use Rattle.des_parts.specs.Worlds.{IsWorldOf};

use crate::copies::{Copies, CopiesStates, Touched};
use crate::entries::Entry;
use crate::window::Window;
use des_event::{Event, Key, Memory, RunError};
use des_machine::Machine;
use des_queue::WindowQueue;
use std::alloc::Global;

/// A part's queue may take fewer events than this in a window. No memory has room for so many.
const MOST_PUSHES: u64 = 1 << 40;

/// What a part ran in a window.
#[derive(Drop)]
pub struct Done<T, B, P> {
    pub part: u32,
    /// The states of the nodes that it touched.
    pub nodes: Vec<Touched<T>>,
    /// The events that it made for the horizon or later.
    pub mail: Vec<Event<B>>,
    /// What its events left in the trace, in the order of their keys.
    pub entries: Vec<Entry<P>>,
    /// How many events it ran.
    pub events: u64,
}

/// The run of a part, so far.
#[derive(Drop)]
pub struct PartRun<T, B, P> {
    pub part: u32,
    /// How many of the due events were taken.
    pub taken: usize,
    pub copies: Copies<T>,
    pub mail: Vec<Event<B>>,
    pub entries: Vec<Entry<P>>,
    /// How many events were made. The queue has taken no more.
    pub pushes: u64,
}

/// How many events were made with these ones, or `Memory` if the queue may not take so many.
fn more_pushes(pushes: u64, made: usize) -> Result<u64, Memory>
    ensures { IfOk result (λ n. (n ≡ pushes + made) × (n < 2 ^ 40)) }
{
    let pushes = pushes.saturating_add(made as u64);
    if pushes >= MOST_PUSHES {
        return Err(Memory);
    }
    Ok(pushes)
}

impl<T: Drop, B: Drop, P: Drop> PartRun<T, B, P> {
    /// Lets the target of an event act on it. Returns the events that it made.
    fn handle<M: CopiesStates<State = T, Body = B, Piece = P>>(
        &mut self,
        alloc: Global,
        machine: &M,
        states: &[T],
        event: &Event<B>,
    ) -> Result<Vec<Event<B>>, Memory>
        requires { (division : ADivision) × IsReady (M.model machine.now) (M.Sound machine.now) (M.Fit machine.now) (M.Room machine.now) division states.now self.old event.now }
        ensures { IfOk result (λ made. (division : ADivision) → IsReady (M.model machine.now) (M.Sound machine.now) (M.Fit machine.now) (M.Room machine.now) division states.now self.old event.now → HasHandled (M.model machine.now) (M.Known machine.now) division states.now event.now self.old self.new made.items) }
    {
        machine.recall();
        let slot = self.copies.touch(machine, states, event.target)?;
        let mut made = Vec::new(alloc);
        let touched = &mut self.copies.states[slot];
        let piece = machine.act(alloc, &mut touched.state, event, &mut made)?;
        self.pushes = more_pushes(self.pushes, made.len())?;
        self.entries.push(Entry {
            key: event.key,
            target: event.target,
            piece,
        })?;
        Ok(made)
    }

    /// The run of a part, before its first event.
    pub fn start<M: Machine<State = T, Body = B, Piece = P>>(
        window: &Window<'_, M>,
        part: u32,
    ) -> PartRun<T, B, P>
        requires window { IsNextWindow (M.model window.now.machine.now) window.now.world.now window.now.horizon }
        requires part { part < window.now.world.now.division.parts }
        ensures { HasBegun (M.model window.now.machine.now) (M.Known window.now.machine.now) window.now.world.now window.now.horizon part result }
    {
        let &Window {
            alloc,
            machine,
            world,
            horizon: _,
        } = window;
        machine.recall();
        let due = world.parts[part as usize].due.len();
        // Room for the due events and a quarter more. If memory refuses it, that is no error: the
        // lists begin with none and grow.
        let many = due.saturating_add(due / 4);
        PartRun {
            part,
            taken: 0,
            copies: Copies::new(alloc, due.min(world.states.len())),
            mail: list_with_room(alloc, many),
            entries: list_with_room(alloc, many),
            pushes: 0,
        }
    }

    /// What a finished run leaves.
    pub fn finish(self) -> Done<T, B, P>
        ensures { HasLeft self result }
    {
        let events = self.entries.len() as u64;
        let PartRun {
            part,
            taken: _,
            copies,
            mail,
            entries,
            pushes: _,
        } = self;
        let Copies {
            slots: _,
            states: nodes,
        } = copies;
        Done {
            part,
            nodes,
            mail,
            entries,
            events,
        }
    }

    /// Runs the least event that waits at the part, and returns its key, or `None` if no event is
    /// left. Returns `TooManyEvents` if an event is left but the run may have no more.
    pub fn step<M: CopiesStates<State = T, Body = B, Piece = P>>(
        &mut self,
        window: &Window<'_, M>,
        due: &[Event<B>],
        queue: &mut WindowQueue<B>,
    ) -> Result<Option<Key>, RunError>
        requires world { IsWorldOf (M.model window.now.machine.now) window.now.world.now }
        requires window { IsWindow (M.model window.now.machine.now) window.now.world.now window.now.horizon due.now }
        requires part { self.old.part < window.now.world.now.division.parts }
        requires running { IsRunning (M.model window.now.machine.now) (M.Known window.now.machine.now) window.now.world.now window.now.horizon due.now self.old queue.old }
        ensures running { OnOk result (IsRunning (M.model window.now.machine.now) (M.Known window.now.machine.now) window.now.world.now window.now.horizon due.now self.new queue.new) }
        ensures part { OnOk result (self.new.part ≡ self.old.part) }
        ensures more { IfOk result (λ next. IfSome next (λ _. length self.new.entries.items ≡ length self.old.entries.items + 1)) }
        ensures key { IfOk result (λ next. IfSome next (λ key. IsNextKey (M.model window.now.machine.now) window.now.world.now window.now.horizon self.old key)) }
        ensures ended { IfOk result (λ next. IfNone next (drop self.new.taken due.now ++ queue.new.events ≡ [])) }
        ensures kept { IfOk result (λ next. IfNone next (self.new ≡ self.old)) }
        ensures over { result ≡ Err RunError.TooManyEvents → IsOverLimit (M.model window.now.machine.now) }
        ensures only { IfErr result (λ e. (e ≡ RunError.Memory) ⊎ (e ≡ RunError.TooManyEvents)) }
    {
        let &Window {
            alloc,
            machine,
            world,
            horizon,
        } = window;
        machine.recall();
        queue.recall_order();
        let full = world.count + self.entries.len() as u64 >= machine.max_events();
        if comes_first(due, self.taken, queue) {
            if full {
                return Err(RunError::TooManyEvents);
            }
            let event = &due[self.taken];
            let key = event.key;
            let made = self.handle(alloc, machine, &world.states, event)?;
            self.taken += 1;
            sort_out(made, horizon, queue, &mut self.mail)?;
            return Ok(Some(key));
        }
        let Some(event) = queue.pop_least() else {
            return Ok(None);
        };
        if full {
            return Err(RunError::TooManyEvents);
        }
        let key = event.key;
        let made = self.handle(alloc, machine, &world.states, event)?;
        sort_out(made, horizon, queue, &mut self.mail)?;
        Ok(Some(key))
    }
}

/// Whether the next due event comes before all that wait in the queue.
fn comes_first<B: Drop>(due: &[Event<B>], taken: usize, queue: &WindowQueue<B>) -> bool
    ensures { result ≡ comes_first due.now taken queue.now.events }
{
    if taken >= due.len() {
        return false;
    }
    match queue.least_key() {
        None => true,
        Some(key) => due[taken].key < key,
    }
}

/// Whether no event is before a time.
fn are_from<B: Drop>(events: &[Event<B>], time: u64) -> bool
    ensures { result ≡ list_all (λ e. nat_le time e.key.time) events.now }
{
    events.iter().all(|event| event.key.time >= time)
}

/// Puts events for this window into the queue, and the others into the mail.
fn sort_out<B: Drop>(
    made: Vec<Event<B>>,
    horizon: u64,
    queue: &mut WindowQueue<B>,
    mail: &mut Vec<Event<B>>,
) -> Result<(), Memory>
    requires apart { AllPairs (λ a b. a.key ≢ b.key) (queue.old.events ++ made.items) }
    requires few { queue.old.pushes + length made.items < 2 ^ 40 }
    ensures queue { OnOk result ((x : AnEvent B) → Contains queue.new.events x ↔ (Contains queue.old.events x ⊎ (Contains made.items x × (x.key.time < horizon)))) }
    ensures ordered { InKeyOrder event_key queue.new.events }
    ensures pushes { OnOk result (queue.new.pushes ≤ queue.old.pushes + length made.items) }
    ensures mail { OnOk result (mail.new.items ≡ mail.old.items ++ from_on event_key horizon made.items) }
{
    queue.recall_order();
    if are_from(made.as_slice(), horizon) {
        let mut later = made;
        mail.append(&mut later)?;
        return Ok(());
    }
    for event in made {
        if event.key.time < horizon {
            if let Err(refused) = queue.push(event) {
                // By a call, so that the proof has one case and not one for each kind of body.
                drop(refused);
                queue.recall_order();
                return Err(Memory);
            }
            queue.recall_order();
        } else {
            mail.push(event)?;
        }
    }
    Ok(())
}

/// Runs the events of a part of a window, the least first. It leaves the world as it was and the
/// queue empty, after an error too.
///
/// # Errors
///
/// `TooManyEvents`, if this part alone shows that the run has more events than the machine allows;
/// `Memory`.
pub fn run_part<M: CopiesStates>(
    window: &Window<'_, M>,
    part: u32,
    queue: &mut WindowQueue<M::Body>,
) -> Result<Done<M::State, M::Body, M::Piece>, RunError>
    requires window { IsNextWindow (M.model window.now.machine.now) window.now.world.now window.now.horizon }
    requires part { part < window.now.world.now.division.parts }
    requires queue { IsFresh queue.old }
    ensures done { IfOk result (λ done. IsDone (M.model window.now.machine.now) (M.Known window.now.machine.now) window.now.world.now window.now.horizon part done) }
    ensures queue { IsFresh queue.new }
    ensures over { result ≡ Err RunError.TooManyEvents → IsOverLimit (M.model window.now.machine.now) }
    ensures only { IfErr result (λ e. (e ≡ RunError.Memory) ⊎ (e ≡ RunError.TooManyEvents)) }
{
    window.machine.recall();
    let events = &window.world.parts[part as usize];
    let due = events.due.as_slice();
    let mut run = PartRun::start(window, part);
    loop {
        match run.step(window, due, queue) {
            Ok(Some(_key)) => {}
            Ok(None) => {
                queue.give_up();
                return Ok(run.finish());
            }
            Err(error) => {
                queue.give_up();
                return Err(error);
            }
        }
    }
}

/// An empty list, with room for `many` items if memory allows it.
pub(crate) fn list_with_room<T: Drop>(alloc: Global, many: usize) -> Vec<T>
    ensures { result.items ≡ [] }
{
    match Vec::with_capacity(alloc, many) {
        Ok(list) => list,
        Err(_) => Vec::new(alloc),
    }
}
