//! The end of a window: the results of the parts become one team again.
ghost use Rattle.std.specs.Prelude.{◌≡◌, ◌⊎◌, ℕ, ◌+◌, ◌<◌, ◌≤◌, List, Option, None, false, length, slice_index_or, OnOk, IfOk, IfErr, IfSome, Err};
ghost use Rattle.des_model.specs.Histories.{IsOverLimit};
ghost use Rattle.des_machine.specs.Runs.{IsBeginning};
ghost use Rattle.des_team.specs.Chronicles.{chronicle};
ghost use Rattle.des_team.specs.Exchanges.{AreBack, AreReady, HasOnlyOutput, HaveExchanged, IsAlikeOrCleared, IsBack, outputs_of, soonest};
ghost use Rattle.des_team.specs.Orders.{AreResults, HaveNoFault};
ghost use Rattle.des_team.specs.Teams.{IsOpened, IsTeam, events_in};
ghost use Rattle.des_output.specs.Watched.{wrapped, has_failed};
ghost use Rattle.des_output.specs.Writing.{is_write};

use crate::course::Course;
use crate::output::{Output, write_outputs};
use crate::part::{Done, Parcel};
use crate::team::Team;
use des_event::{Memory, RunError};
use des_machine::{Machine, Scribe};
use des_output::{Watched, write_text};
use des_window::sooner;
use std::alloc::Global;
use std::io::Write;
use std::mem;

/// How many events the parts of a window ran together, or `None` if these are more than `room`.
fn events_within<M: Machine, S>(room: u64, results: &[Done<M, S>]) -> Option<u64>
    ensures some { IfSome result (λ events. (events ≡ events_in results.now) × (events ≤ room)) }
    ensures none { result ≡ None → room < events_in results.now }
{
    let mut events = 0;
    for result in results {
        if result.events > room - events {
            return None;
        }
        events += result.events;
    }
    Some(events)
}

/// Puts a part into its place with an empty text. Returns the text that it had.
fn put_part<M: Machine, S: Drop>(
    alloc: Global,
    place: &mut Option<Parcel<M, S>>,
    parcel: Parcel<M, S>,
) -> Output
    ensures back { IsBack parcel.part.value place.new }
    ensures output { result ≡ parcel.output }
{
    let mut parcel = parcel;
    let output = mem::replace(&mut parcel.output, Output::new(alloc));
    *place = Some(parcel);
    output
}

/// Clears a text, and gives it to a part that is here.
fn give_output<M: Machine, S: Drop>(place: &mut Option<Parcel<M, S>>, output: Output)
    ensures { HasOnlyOutput place.old place.new }
{
    let mut output = output;
    output.clear();
    if let Some(parcel) = place {
        parcel.output = output;
    }
}

/// Hands what the parts have made for each other to its receivers.
fn exchange_mail<M: Machine, S: Drop>(parcels: &mut Vec<Option<Parcel<M, S>>>) -> Result<(), Memory>
    requires { AreReady parcels.old.items }
    ensures { OnOk result (HaveExchanged parcels.old.items parcels.new.items) }
{
    for from in 0..parcels.len() {
        if let Some(parcel) = mem::replace(&mut parcels[from], None) {
            let mut parcel = parcel;
            parcel.part.outbox.deliver(parcels)?;
            parcels[from] = Some(parcel);
        }
    }
    Ok(())
}

impl<M: Machine, S: Scribe<M> + Drop> Team<M, S> {
    /// Puts the parts of a window's results back, without their texts, and finds the time of the
    /// first event of all. Returns the texts.
    fn put_back(&mut self, alloc: Global, results: Vec<Done<M, S>>) -> Result<Vec<Output>, Memory>
        requires { length results.items ≤ length self.old.parcels.items }
        ensures outputs { IfOk result (λ outputs. outputs.items ≡ outputs_of results.items) }
        ensures back { OnOk result (AreBack results.items self.new.parcels.items) }
        ensures long { OnOk result (length self.new.parcels.items ≡ length self.old.parcels.items) }
        ensures next { OnOk result (self.new.next ≡ soonest None results.items) }
        ensures others { OnOk result (self.new ≡ record self.old { parcels = self.new.parcels; next = self.new.next }) }
    {
        self.next = None;
        let mut outputs = Vec::new(alloc);
        let mut at = 0usize;
        for result in results {
            self.next = sooner(self.next, result.next);
            let output = put_part(alloc, &mut self.parcels[at], result.parcel);
            outputs.push(output)?;
            at += 1;
        }
        Ok(outputs)
    }

    /// Gives the lists of the texts back to the parts, to be used again.
    fn give_outputs(&mut self, outputs: Vec<Output>)
        requires { length outputs.items ≤ length self.old.parcels.items }
        ensures each { (p : ℕ) → IsAlikeOrCleared (slice_index_or self.old.parcels.items p None) (slice_index_or self.new.parcels.items p None) }
        ensures long { length self.new.parcels.items ≡ length self.old.parcels.items }
        ensures others { self.new ≡ record self.old { parcels = self.new.parcels } }
    {
        let mut at = 0usize;
        for output in outputs {
            give_output(&mut self.parcels[at], output);
            at += 1;
        }
    }

    /// Puts the results of a window together: its events are counted, what the parts made for each
    /// other is handed over, and then the audits that were due and the texts of the parts are
    /// written. Writes nothing if the run has too many events.
    pub fn put_window<W: Write>(
        &mut self,
        course: &Course<'_, M>,
        results: Vec<Done<M, S>>,
        writer: &mut Watched<W>,
    ) -> Result<(), RunError>
        requires at { (old : Option (List ℕ)) × IsOpened (chronicle (M.model course.now.machine.now) (S.text course.now.machine.now) (S.HasCounted course.now.machine.now)) course.now.layout.now old (W.contents (wrapped writer.old)) self.old }
        requires results { AreResults (chronicle (M.model course.now.machine.now) (S.text course.now.machine.now) (S.HasCounted course.now.machine.now)) course.now.layout.now self.old.count self.old.window.horizon results.items }
        requires no_fault { HaveNoFault results.items }
        requires sound { has_failed writer.old ≡ false }
        ensures at { OnOk result ((old : Option (List ℕ)) → IsOpened (chronicle (M.model course.now.machine.now) (S.text course.now.machine.now) (S.HasCounted course.now.machine.now)) course.now.layout.now old (W.contents (wrapped writer.old)) self.old → IsTeam (chronicle (M.model course.now.machine.now) (S.text course.now.machine.now) (S.HasCounted course.now.machine.now)) course.now.layout.now old (W.contents (wrapped writer.new)) self.new) }
        ensures more { OnOk result (self.old.count < self.new.count) }
        ensures within { OnOk result (self.new.count ≤ (M.model course.now.machine.now).max_events) }
        ensures front { (old : Option (List ℕ)) → IsOpened (chronicle (M.model course.now.machine.now) (S.text course.now.machine.now) (S.HasCounted course.now.machine.now)) course.now.layout.now old (W.contents (wrapped writer.old)) self.old → IsBeginning (S.text course.now.machine.now) (M.model course.now.machine.now) old (W.contents (wrapped writer.new)) }
        ensures writer { has_failed writer.new ≡ is_write result }
        ensures over { result ≡ Err RunError.TooManyEvents → IsOverLimit (M.model course.now.machine.now) }
        ensures counted_first { (M.model course.now.machine.now).max_events < self.old.count + events_in results.items → (result ≡ Err RunError.TooManyEvents) × (writer.new ≡ writer.old) }
        ensures only { IfErr result (λ e. (e ≡ RunError.Memory) ⊎ (e ≡ RunError.TooManyEvents) ⊎ (e ≡ RunError.Write)) }
    {
        course.machine.recall();
        let room = course.machine.max_events() - self.count;
        let Some(events) = events_within(room, results.as_slice()) else {
            return Err(RunError::TooManyEvents);
        };
        let outputs = self.put_back(course.alloc, results)?;
        exchange_mail(&mut self.parcels)?;
        self.count += events;
        write_text(self.due.as_slice(), writer)?;
        write_outputs(course.alloc, outputs.as_slice(), writer)?;
        self.give_outputs(outputs);
        Ok(())
    }
}
