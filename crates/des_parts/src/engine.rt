//! The engine of all runs by windows, from the start to the report.
ghost use Rattle.std.specs.Prelude.{◌≡◌, ◌≢◌, ◌⊎◌, ℕ, ◌+◌, ◌<◌, List, Option, None, Some, false, length, OnOk, IfOk, IfErr, Err};
ghost use Rattle.des_machine.specs.Runs.{IsBeginning, IsRun};
ghost use Rattle.des_model.specs.Histories.{IsOverLimit};
ghost use Rattle.des_output.specs.Watched.{wrapped, has_failed};
ghost use Rattle.des_output.specs.Writing.{is_write};
ghost use Rattle.des_parts.specs.WindowEngine.{IsAt};
ghost use Rattle.des_parts.specs.Exchanges.{AreDone, events_in};

use crate::entries::{merge_entries, put_entries};
use crate::exchanging::{events_within, exchange_in_order};
use crate::part_run::Done;
use crate::world::World;
use des_event::RunError;
use des_machine::{AuditClock, Journal, Machine, Scribe};
use des_output::Watched;
use des_window::{Division, Opening};
use std::alloc::Global;
use std::io::Write;

/// A run by windows: the world, and what the scribe has so far. Each has a clock of audits: the
/// world's says where a window must end, the journal's which audits are to be made.
#[doc(hidden)]
#[derive(Drop)]
pub struct WindowEngine<M: Machine, S> {
    pub world: World<M::State, M::Body>,
    pub journal: Journal<S>,
}

impl<M: Machine, S: Scribe<M> + Drop> WindowEngine<M, S> {
    /// The start of a run.
    pub fn start(
        alloc: Global,
        machine: &M,
        division: &Division,
    ) -> Result<WindowEngine<M, S>, RunError>
        ensures at { IfOk result (λ engine. (now : Option (List ℕ)) → IsAt (S.text machine.now) (M.model machine.now) (S.HasCounted machine.now) now now engine) }
        ensures count { IfOk result (λ engine. engine.world.count ≡ 0) }
        ensures division { IfOk result (λ engine. engine.world.division ≡ division.now) }
        ensures divides { OnOk result (length division.now.of_node ≡ (M.model machine.now).nodes) }
        ensures bad { result ≡ Err RunError.BadDivision → length division.now.of_node ≢ (M.model machine.now).nodes }
        ensures only { IfErr result (λ e. (e ≡ RunError.Memory) ⊎ (e ≡ RunError.BadDivision)) }
    {
        machine.recall();
        let world = World::start(alloc, machine, division)?;
        let clock = AuditClock::new(machine.audit_times(alloc)?);
        let scribe = S::start(alloc, machine);
        Ok(WindowEngine {
            world,
            journal: Journal { scribe, clock },
        })
    }

    /// The world that the windows so far have left.
    pub fn world(&self) -> &World<M::State, M::Body>
        ensures { result.now ≡ self.now.world }
    {
        &self.world
    }

    /// The next window, if there is one.
    pub fn opening(&self) -> Option<Opening>
        ensures { result ≡ self.now.world.opening }
    {
        self.world.opening
    }

    /// Writes the remaining audits, and makes the report. The run is over then.
    pub fn finish<W: Write>(
        &mut self,
        alloc: Global,
        machine: &M,
        writer: &mut Watched<W>,
    ) -> Result<S::Report, RunError>
        requires at { (old : Option (List ℕ)) × IsAt (S.text machine.now) (M.model machine.now) (S.HasCounted machine.now) old (W.contents (wrapped writer.old)) self.old }
        requires ended { self.old.world.opening ≡ None }
        requires sound { has_failed writer.old ≡ false }
        ensures run { (old : Option (List ℕ)) → IsAt (S.text machine.now) (M.model machine.now) (S.HasCounted machine.now) old (W.contents (wrapped writer.old)) self.old → IsRun (S.text machine.now) (M.model machine.now) (S.IsReport machine.now) old (W.contents (wrapped writer.new)) result }
        ensures writer { has_failed writer.new ≡ is_write result }
        ensures only { IfErr result (λ e. (e ≡ RunError.Memory) ⊎ (e ≡ RunError.Write)) }
    {
        machine.recall();
        self.journal.put_audits(
            alloc,
            machine,
            &self.world.states.as_slice(),
            machine.duration(),
            writer,
        )?;
        Ok(self.journal.scribe.report(machine))
    }

    /// Writes what the parts of the next window leave: first the audits that are due at its first
    /// time, then the pieces of all parts in the order of their keys. Writes nothing if the parts
    /// together have more events than the run may still have.
    pub fn put_window<W: Write>(
        &mut self,
        alloc: Global,
        machine: &M,
        opening: Opening,
        dones: Vec<Done<M::State, M::Body, M::Piece>>,
        writer: &mut Watched<W>,
    ) -> Result<(), RunError>
        requires at { (old : Option (List ℕ)) × IsAt (S.text machine.now) (M.model machine.now) (S.HasCounted machine.now) old (W.contents (wrapped writer.old)) self.old }
        requires opening { self.old.world.opening ≡ Some opening }
        requires done { AreDone (M.model machine.now) (M.Known machine.now) self.old.world opening.horizon dones.items }
        requires sound { has_failed writer.old ≡ false }
        ensures at { OnOk result ((old : Option (List ℕ)) → IsAt (S.text machine.now) (M.model machine.now) (S.HasCounted machine.now) old (W.contents (wrapped writer.old)) self.old → IsAt (S.text machine.now) (M.model machine.now) (S.HasCounted machine.now) old (W.contents (wrapped writer.new)) self.new) }
        ensures count { OnOk result (self.new.world.count ≡ self.old.world.count + events_in dones.items) }
        ensures division { OnOk result (self.new.world.division ≡ self.old.world.division) }
        ensures more { OnOk result (self.old.world.count < self.new.world.count) }
        ensures front { (old : Option (List ℕ)) → IsAt (S.text machine.now) (M.model machine.now) (S.HasCounted machine.now) old (W.contents (wrapped writer.old)) self.old → IsBeginning (S.text machine.now) (M.model machine.now) old (W.contents (wrapped writer.new)) }
        ensures writer { has_failed writer.new ≡ is_write result }
        ensures over { result ≡ Err RunError.TooManyEvents → IsOverLimit (M.model machine.now) }
        ensures counted_first { (M.model machine.now).max_events < self.old.world.count + events_in dones.items → (result ≡ Err RunError.TooManyEvents) × (writer.new ≡ writer.old) }
        ensures only { IfErr result (λ e. (e ≡ RunError.Memory) ⊎ (e ≡ RunError.TooManyEvents) ⊎ (e ≡ RunError.Write)) }
    {
        machine.recall();
        // Counted before anything is written: one part finds too many events before the window is
        // written, so several parts must too, or the error would depend on the division.
        let room = machine.max_events() - self.world.count;
        let Some(events) = events_within(room, dones.as_slice()) else {
            return Err(RunError::TooManyEvents);
        };
        // Audits are of the states before the window, so they are written before the states are
        // exchanged. An allocation that fails later comes too late to hide a failed write: a run
        // ends with the first of the two, and no other fault is left to find.
        self.journal.put_audits(
            alloc,
            machine,
            &self.world.states.as_slice(),
            opening.time,
            writer,
        )?;
        let lists = exchange_in_order(alloc, machine, &mut self.world, dones, events)?;
        let entries = merge_entries(alloc, lists)?;
        put_entries(
            alloc,
            machine,
            entries.as_slice(),
            &mut self.journal.scribe,
            writer,
        )?;
        Ok(())
    }
}
