//! The engine that takes one event at a time.
ghost use Rattle.std.specs.Prelude.{◌≡◌, ◌↔◌, ◌⊎◌, ℕ, ◌+◌, ◌≤◌, List, Option, None, false, OnOk, IfOk, IfErr, IfSome, Ok, Err};
ghost use Rattle.std.specs.List.{All, Contains};
ghost use Rattle.des_event.specs.declared.event.Event.{Event as AnEvent};
ghost use Rattle.des_event.specs.KeyOrder.{InKeyOrder};
ghost use Rattle.des_machine.specs.Runs.{IsBeginning, IsRun};
ghost use Rattle.des_model.specs.Histories.{IsOverLimit};
ghost use Rattle.des_output.specs.Watched.{wrapped, has_failed};
ghost use Rattle.des_output.specs.Writing.{is_write};
ghost use Rattle.des_queue.specs.EventKey.{event_key};
ghost use Rattle.des_serial.specs.SerialEngine.{HasTaken, IsAt};

use des_event::{Event, RunError};
use des_machine::{AuditClock, Journal, Machine, Scribe, Upcoming, read_ahead};
use des_output::Watched;
use des_queue::{GROUP, Pending};
use std::alloc::Global;
use std::io::Write;

/// A run in progress: what the nodes know, which events are still to come, and what the scribe has so
/// far.
#[derive(Drop)]
pub struct SerialEngine<M: Machine, S> {
    pub states: Vec<M::State>,
    pub pending: Pending<M::Body>,
    pub journal: Journal<S>,
    /// Room for what the next event makes.
    pub made: Vec<Event<M::Body>>,
    /// How many events were taken.
    pub count: u64,
}

impl<M: Machine, S: Scribe<M> + Drop> SerialEngine<M, S> {
    /// The start of a run.
    pub fn start(alloc: Global, machine: &M) -> Result<SerialEngine<M, S>, RunError>
        ensures at { IfOk result (λ engine. (now : Option (List ℕ)) → IsAt (S.text machine.now) (M.model machine.now) (S.HasCounted machine.now) now now engine) }
        ensures only { IfErr result (λ e. e ≡ RunError.Memory) }
    {
        machine.recall();
        let clock = AuditClock::new(machine.audit_times(alloc)?);
        let states = machine.start_states(alloc)?;
        let pending = pending_at_start(alloc, machine)?;
        let scribe = S::start(alloc, machine);
        Ok(SerialEngine {
            states,
            pending,
            journal: Journal { scribe, clock },
            made: Vec::new(alloc),
            count: 0,
        })
    }

    /// Takes the next event of the run, or returns `None` if the run has no more. Returns
    /// `TooManyEvents` if an event is left but the run may have no more.
    // Inlined: by a call the event would be copied twice on its way out.
    #[inline(always)]
    pub fn take_next(&mut self, machine: &M) -> Result<Option<Event<M::Body>>, RunError>
        ensures next { IfOk result (λ next. IfSome next (λ event. (old now : Option (List ℕ)) → IsAt (S.text machine.now) (M.model machine.now) (S.HasCounted machine.now) old now self.old → HasTaken (S.text machine.now) (M.model machine.now) (S.HasCounted machine.now) old now self.new event)) }
        ensures ended { result ≡ Ok None → (self.new ≡ self.old) × All (λ e. (M.model machine.now).duration ≤ e.key.time) self.new.pending }
        ensures count { self.new.count ≡ self.old.count }
        ensures over { result ≡ Err RunError.TooManyEvents → (old now : Option (List ℕ)) → IsAt (S.text machine.now) (M.model machine.now) (S.HasCounted machine.now) old now self.old → IsOverLimit (M.model machine.now) }
        ensures only { IfErr result (λ e. e ≡ RunError.TooManyEvents) }
    {
        machine.recall();
        self.pending.recall_order();
        let Some(time) = self.pending.first_time() else {
            return Ok(None);
        };
        if time >= machine.duration() {
            return Ok(None);
        }
        if self.count >= machine.max_events() {
            return Err(RunError::TooManyEvents);
        }
        Ok(self.pending.pop_first())
    }

    /// Writes the audits that are due, lets the target of an event act on it, and writes its piece.
    pub fn handle<W: Write>(
        &mut self,
        alloc: Global,
        machine: &M,
        event: &Event<M::Body>,
        writer: &mut Watched<W>,
    ) -> Result<(), RunError>
        requires taken { (old : Option (List ℕ)) × HasTaken (S.text machine.now) (M.model machine.now) (S.HasCounted machine.now) old (W.contents (wrapped writer.old)) self.old event.now }
        requires sound { has_failed writer.old ≡ false }
        ensures at { OnOk result ((old : Option (List ℕ)) → HasTaken (S.text machine.now) (M.model machine.now) (S.HasCounted machine.now) old (W.contents (wrapped writer.old)) self.old event.now → IsAt (S.text machine.now) (M.model machine.now) (S.HasCounted machine.now) old (W.contents (wrapped writer.new)) self.new) }
        ensures count { OnOk result (self.new.count ≡ self.old.count + 1) }
        ensures front { (old : Option (List ℕ)) → HasTaken (S.text machine.now) (M.model machine.now) (S.HasCounted machine.now) old (W.contents (wrapped writer.old)) self.old event.now → IsBeginning (S.text machine.now) (M.model machine.now) old (W.contents (wrapped writer.new)) }
        ensures writer { has_failed writer.new ≡ is_write result }
        ensures only { IfErr result (λ e. (e ≡ RunError.Memory) ⊎ (e ≡ RunError.Write)) }
    {
        machine.recall();
        self.journal.put_audits(
            alloc,
            machine,
            &self.states.as_slice(),
            event.key.time,
            writer,
        )?;
        self.look_ahead(alloc, machine);
        let node = event.target as usize;
        let piece = machine.act(alloc, &mut self.states[node], event, &mut self.made)?;
        self.pending.insert_from(&mut self.made)?;
        self.journal.scribe.put(alloc, machine, &piece, writer)?;
        self.count += 1;
        Ok(())
    }

    /// Reads a little of what the next events need, if many events are pending.
    #[inline(always)]
    fn look_ahead(&self, alloc: Global, machine: &M) {
        if self.pending.begins_group() {
            read_ahead(alloc, machine, self, GROUP);
        }
    }

    /// Writes the remaining audits, and makes the report.
    pub fn finish<W: Write>(
        &mut self,
        alloc: Global,
        machine: &M,
        writer: &mut Watched<W>,
    ) -> Result<S::Report, RunError>
        requires at { (old : Option (List ℕ)) × IsAt (S.text machine.now) (M.model machine.now) (S.HasCounted machine.now) old (W.contents (wrapped writer.old)) self.old }
        requires ended { All (λ e. (M.model machine.now).duration ≤ e.key.time) self.old.pending }
        requires sound { has_failed writer.old ≡ false }
        ensures run { (old : Option (List ℕ)) → IsAt (S.text machine.now) (M.model machine.now) (S.HasCounted machine.now) old (W.contents (wrapped writer.old)) self.old → IsRun (S.text machine.now) (M.model machine.now) (S.IsReport machine.now) old (W.contents (wrapped writer.new)) result }
        ensures writer { has_failed writer.new ≡ is_write result }
        ensures only { IfErr result (λ e. (e ≡ RunError.Memory) ⊎ (e ≡ RunError.Write)) }
    {
        machine.recall();
        self.journal.put_audits(
            alloc,
            machine,
            &self.states.as_slice(),
            machine.duration(),
            writer,
        )?;
        Ok(self.journal.scribe.report(machine))
    }

    /// Takes the events that are left one at a time, and finishes the run.
    pub fn run<W: Write>(
        &mut self,
        alloc: Global,
        machine: &M,
        writer: &mut Watched<W>,
    ) -> Result<S::Report, RunError>
        requires at { IsAt (S.text machine.now) (M.model machine.now) (S.HasCounted machine.now) (W.contents (wrapped writer.old)) (W.contents (wrapped writer.old)) self.old }
        requires sound { has_failed writer.old ≡ false }
        ensures run { IsRun (S.text machine.now) (M.model machine.now) (S.IsReport machine.now) (W.contents (wrapped writer.old)) (W.contents (wrapped writer.new)) result }
        ensures writer { has_failed writer.new ≡ is_write result }
        ensures only { IfErr result (λ e. (e ≡ RunError.Memory) ⊎ (e ≡ RunError.Write) ⊎ (e ≡ RunError.TooManyEvents)) }
    {
        while let Some(event) = self.take_next(machine)? {
            self.handle(alloc, machine, &event, writer)?;
        }
        self.finish(alloc, machine, writer)
    }
}

impl<M: Machine, S> Upcoming<M::State> for SerialEngine<M, S> {
    #[inline(always)]
    fn state(&self, later: usize) -> Option<&M::State> {
        let node = self.pending.target_ahead(later)?;
        self.states.get(node as usize)
    }

    #[inline(always)]
    fn fetch_event(&self, later: usize) -> Option<u64> {
        self.pending.fetch_event(later)
    }
}

/// The events that are pending at the start of a run.
fn pending_at_start<M: Machine>(alloc: Global, machine: &M) -> Result<Pending<M::Body>, RunError>
    ensures same { IfOk result (λ pending. (x : AnEvent M.Body) → Contains pending x ↔ Contains (M.model machine.now).start_events x) }
    ensures ordered { IfOk result (λ pending. InKeyOrder event_key pending) }
    ensures only { IfErr result (λ e. e ≡ RunError.Memory) }
{
    machine.recall();
    let events = machine.start_events(alloc)?;
    let mut pending = Pending::new(alloc);
    pending.insert_all(events)?;
    Ok(pending)
}
