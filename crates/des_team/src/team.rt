//! What stays with the caller between windows.
ghost use Rattle.std.specs.Prelude.{◌≡◌, ℕ, ◌<◌, List, Option, length, IfSome};
ghost use Rattle.des_model.specs.Histories.{history};
ghost use Rattle.des_team.specs.Chronicles.{chronicle};
ghost use Rattle.des_team.specs.Orders.{IsOrderOf};
ghost use Rattle.des_team.specs.Teams.{CanSend, IsTeam};
ghost use Rattle.des_window.specs.Openings.{opening_after};

use crate::course::Course;
use crate::part::Parcel;
use des_machine::{Journal, Machine, Scribe};
use des_window::{Opening, horizon_from};
use std::mem;

/// What the windows so far have left.
#[derive(Drop)]
pub struct Team<M: Machine, S> {
    /// How many events were run.
    pub count: u64,
    /// The parts that are here.
    pub parcels: Vec<Option<Parcel<M, S>>>,
    /// The time of the first pending event.
    pub next: Option<u64>,
    /// Its scribe has counted the audits. Each part has one for its events.
    pub journal: Journal<S>,
    /// The text of the audits that are due in the next window.
    pub due: Vec<u8>,
    /// The last window that was opened.
    pub window: Opening,
}

impl<M: Machine, S: Scribe<M> + Drop> Team<M, S> {
    /// The next window, if there is one.
    pub fn opening(&self, course: &Course<'_, M>) -> Option<Opening>
        requires { (old now : Option (List ℕ)) × IsTeam (chronicle (M.model course.now.machine.now) (S.text course.now.machine.now) (S.HasCounted course.now.machine.now)) course.now.layout.now old now self.now }
        ensures { result ≡ opening_after (M.model course.now.machine.now) (history (M.model course.now.machine.now) self.now.count) }
    {
        let machine = course.machine;
        machine.recall();
        let time = self.next?;
        if time >= machine.duration() {
            return None;
        }
        Some(Opening {
            time,
            horizon: horizon_from(machine, &self.journal.clock, time),
        })
    }

    /// Takes a part out for the window, if it is here.
    pub fn take_out(&mut self, course: &Course<'_, M>, part: u32) -> Option<Parcel<M, S>>
        requires part { part < length self.old.parcels.items }
        requires can_send { CanSend (chronicle (M.model course.now.machine.now) (S.text course.now.machine.now) (S.HasCounted course.now.machine.now)) course.now.layout.now self.old }
        ensures order { IfSome result (IsOrderOf (chronicle (M.model course.now.machine.now) (S.text course.now.machine.now) (S.HasCounted course.now.machine.now)) course.now.layout.now part self.old.count self.old.window.horizon) }
        ensures rest { CanSend (chronicle (M.model course.now.machine.now) (S.text course.now.machine.now) (S.HasCounted course.now.machine.now)) course.now.layout.now self.new }
        ensures others { self.new ≡ record self.old { parcels = self.new.parcels } }
    {
        let mut parcel = mem::replace(&mut self.parcels[part as usize], None)?;
        parcel.count = self.count;
        parcel.horizon = self.window.horizon;
        Some(parcel)
    }
}
