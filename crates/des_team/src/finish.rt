//! The end of a run by a team.
ghost use Rattle.std.specs.Prelude.{◌≡◌, ◌⊎◌, ℕ, ◌∷◌, List, Option, None, false, IfErr, IfOk, OnOk, ◌++◌, []};
ghost use Rattle.des_model.specs.Histories.{history};
ghost use Rattle.des_machine.specs.Runs.{IsRun};
ghost use Rattle.des_team.specs.Chronicles.{chronicle};
ghost use Rattle.des_team.specs.Shares.{scribes_in};
ghost use Rattle.des_team.specs.Teams.{IsTeam};
ghost use Rattle.des_output.specs.Watched.{wrapped, has_failed};
ghost use Rattle.des_output.specs.Writing.{is_write};
ghost use Rattle.des_window.specs.Openings.{opening_after};

use crate::audits::PlacedStates;
use crate::course::Course;
use crate::part::Parcel;
use crate::team::Team;
use des_event::{Memory, RunError};
use des_machine::{Machine, Scribe};
use des_output::Watched;
use des_window::join_all;
use std::alloc::Global;
use std::io::Write;
use std::mem;

/// Adds the scribe of a part, if the part is here. One that has counted nothing replaces it.
fn push_scribe<M: Machine, S: Scribe<M> + Drop>(
    alloc: Global,
    machine: &M,
    scribes: &mut Vec<S>,
    place: &mut Option<Parcel<M, S>>,
) -> Result<(), Memory>
    ensures { OnOk result (scribes.new.items ≡ scribes.old.items ++ scribes_in (place.old ∷ [])) }
{
    if let Some(parcel) = place {
        let none = S::start(alloc, machine);
        scribes.push(mem::replace(&mut parcel.part.scribe, none))?;
    }
    Ok(())
}

impl<M: Machine, S: Scribe<M> + Drop> Team<M, S> {
    /// The scribe of the audits, and then those of the parts that are here. Others that have counted
    /// nothing replace them.
    fn take_scribes(&mut self, alloc: Global, machine: &M) -> Result<Vec<S>, Memory>
        ensures { IfOk result (λ scribes. scribes.items ≡ self.old.journal.scribe ∷ scribes_in self.old.parcels.items) }
    {
        let mut scribes = Vec::new(alloc);
        let none = S::start(alloc, machine);
        scribes.push(mem::replace(&mut self.journal.scribe, none))?;
        for part in 0..self.parcels.len() {
            push_scribe(alloc, machine, &mut scribes, &mut self.parcels[part])?;
        }
        Ok(scribes)
    }

    /// Writes the remaining audits, and makes the report.
    pub fn finish<W: Write>(
        &mut self,
        course: &Course<'_, M>,
        writer: &mut Watched<W>,
    ) -> Result<S::Report, RunError>
        requires at { (old : Option (List ℕ)) × IsTeam (chronicle (M.model course.now.machine.now) (S.text course.now.machine.now) (S.HasCounted course.now.machine.now)) course.now.layout.now old (W.contents (wrapped writer.old)) self.old }
        requires ended { opening_after (M.model course.now.machine.now) (history (M.model course.now.machine.now) self.old.count) ≡ None }
        requires sound { has_failed writer.old ≡ false }
        ensures run { (old : Option (List ℕ)) → IsTeam (chronicle (M.model course.now.machine.now) (S.text course.now.machine.now) (S.HasCounted course.now.machine.now)) course.now.layout.now old (W.contents (wrapped writer.old)) self.old → IsRun (S.text course.now.machine.now) (M.model course.now.machine.now) (S.IsReport course.now.machine.now) old (W.contents (wrapped writer.new)) result }
        ensures writer { has_failed writer.new ≡ is_write result }
        ensures only { IfErr result (λ e. (e ≡ RunError.Memory) ⊎ (e ≡ RunError.Write)) }
    {
        let &Course {
            alloc,
            machine,
            layout,
            ..
        } = course;
        machine.recall();
        let states = PlacedStates {
            layout,
            parcels: self.parcels.as_slice(),
        };
        self.journal
            .put_audits(alloc, machine, &states, machine.duration(), writer)?;
        let scribes = self.take_scribes(alloc, machine)?;
        let joined = join_all(alloc, machine, scribes)?;
        Ok(joined.report(machine))
    }
}
