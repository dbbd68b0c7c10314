//! The audits that are due when a window opens.
ghost use Rattle.std.specs.Prelude.{◌≡◌, ℕ, List, [], Option, Some, OnOk, IfErr};
ghost use Rattle.des_model.specs.Histories.{history};
ghost use Rattle.des_team.specs.Chronicles.{chronicle};
ghost use Rattle.des_team.specs.Placed.{placed};
ghost use Rattle.des_team.specs.Teams.{IsOpened, IsTeam};
ghost use Rattle.des_window.specs.Openings.{opening_after};

use crate::course::Course;
use crate::layout::Layout;
use crate::part::Parcel;
use crate::team::Team;
use des_event::RunError;
use des_machine::{Machine, Scribe, States};
use des_output::Watched;
use des_window::Opening;
use std::mem;

/// The states of all nodes, in the parts that have them.
#[derive(Drop)]
pub struct PlacedStates<'a, M: Machine, S> {
    pub layout: &'a Layout,
    pub parcels: &'a [Option<Parcel<M, S>>],
}

impl<'a, M: Machine, S> States<M::State> for PlacedStates<'a, M, S> {
    ghost list = { λ states. placed states.layout.now states.parcels.now };

    fn of(&self, node: u32) -> &M::State {
        let part = self.layout.division.part_of(node) as usize;
        let slot = self.layout.slots[node as usize] as usize;
        let parcel = self.parcels[part].as_ref().unwrap();
        &parcel.part.states[slot]
    }
}

impl<M: Machine, S: Scribe<M> + Drop> Team<M, S> {
    /// Opens the next window: makes the audits that are due by its first time. Their text is kept
    /// until the events of the window are counted.
    pub fn open_window(&mut self, course: &Course<'_, M>, window: Opening) -> Result<(), RunError>
        requires at { (old now : Option (List ℕ)) × IsTeam (chronicle (M.model course.now.machine.now) (S.text course.now.machine.now) (S.HasCounted course.now.machine.now)) course.now.layout.now old now self.old }
        requires window { opening_after (M.model course.now.machine.now) (history (M.model course.now.machine.now) self.old.count) ≡ Some window }
        ensures at { OnOk result ((old now : Option (List ℕ)) → IsTeam (chronicle (M.model course.now.machine.now) (S.text course.now.machine.now) (S.HasCounted course.now.machine.now)) course.now.layout.now old now self.old → IsOpened (chronicle (M.model course.now.machine.now) (S.text course.now.machine.now) (S.HasCounted course.now.machine.now)) course.now.layout.now old now self.new) }
        ensures count { OnOk result (self.new.count ≡ self.old.count) }
        ensures only { IfErr result (λ e. e ≡ RunError.Memory) }
    {
        course.machine.recall();
        self.window = window;
        self.due.clear();
        // Most windows have no audit.
        match self.journal.clock.first() {
            Some(time) if time <= window.time => self.make_due(course),
            _ => Ok(()),
        }
    }

    /// Makes the audits that are due by the first time of the window.
    fn make_due(&mut self, course: &Course<'_, M>) -> Result<(), RunError>
        requires at { (old now : Option (List ℕ)) × IsTeam (chronicle (M.model course.now.machine.now) (S.text course.now.machine.now) (S.HasCounted course.now.machine.now)) course.now.layout.now old now self.old }
        requires window { opening_after (M.model course.now.machine.now) (history (M.model course.now.machine.now) self.old.count) ≡ Some self.old.window }
        requires none { self.old.due.items ≡ [] }
        ensures at { OnOk result ((old now : Option (List ℕ)) → IsTeam (chronicle (M.model course.now.machine.now) (S.text course.now.machine.now) (S.HasCounted course.now.machine.now)) course.now.layout.now old now self.old → IsOpened (chronicle (M.model course.now.machine.now) (S.text course.now.machine.now) (S.HasCounted course.now.machine.now)) course.now.layout.now old now self.new) }
        ensures count { OnOk result (self.new.count ≡ self.old.count) }
        ensures only { IfErr result (λ e. e ≡ RunError.Memory) }
    {
        let &Course {
            alloc,
            machine,
            layout,
            ..
        } = course;
        machine.recall();
        let states = PlacedStates {
            layout,
            parcels: self.parcels.as_slice(),
        };
        let text = mem::replace(&mut self.due, Vec::new(alloc));
        let mut writer = Watched::new(text);
        let made = self
            .journal
            .put_audits(alloc, machine, &states, self.window.time, &mut writer);
        self.due = writer.into_inner();
        // Only memory can fail here: the text goes to a list.
        if let Err(_refused) = made {
            return Err(RunError::Memory);
        }
        Ok(())
    }
}
