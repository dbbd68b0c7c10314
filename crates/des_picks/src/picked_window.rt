//! A window whose workers take turns on the calling thread.
ghost use Rattle.std.specs.Prelude.{◌≡◌, ◌⊎◌, ◌+◌, ◌<◌, ◌≤◌, ◌||◌, ℕ, [], List, Some, IsTrue, drop, length, nat_lt, slice_index_or, IfOk, IfErr, OnOk, Err};
ghost use Rattle.std.specs.List.{AllByRecursion};
ghost use Rattle.des_model.specs.Histories.{IsOverLimit};
ghost use Rattle.des_model.specs.Histories.{history};
ghost use Rattle.des_model.specs.Windows.{Window as AWindow, opened};
ghost use Rattle.des_parts.specs.Exchanges.{AreDone, events_in};
ghost use Rattle.des_parts.specs.PartRuns.{IsNextWindow};
ghost use Rattle.des_picks.specs.Picked.{HasStepped, HasTakenTurns, HasTurned, IsOpened, IsPicked, can_go, lowest_by, potential, turn_by};
ghost use Rattle.des_picks.specs.Workers.{IsIdle};

use crate::step::{Step, Taken};
use crate::worker::{Progress, Worker};
use des_event::{Memory, RunError};
use des_parts::{CopiesStates, Done, Window, empty_slots, take_out};
use std::alloc::Global;

/// A window whose workers take turns on the calling thread.
#[derive(Drop)]
pub struct PickedWindow<T, B, P> {
    /// The number of parts that were drawn.
    pub drawn: u32,
    pub workers: Vec<Worker<T, B, P>>,
    /// For each part its result, once it is sealed.
    pub dones: Vec<Option<Done<T, B, P>>>,
}

impl<T: Drop, B: Drop, P: Drop> PickedWindow<T, B, P> {
    /// `workers` workers, and no window.
    pub(crate) fn new(alloc: Global, workers: u32) -> Result<PickedWindow<T, B, P>, Memory>
        ensures workers { IfOk result (λ picked. length picked.workers.items ≡ workers) }
        ensures idle { IfOk result (λ picked. AllByRecursion IsIdle picked.workers.items) }
    {
        let mut list = Vec::new(alloc);
        for _worker in 0..workers {
            list.push(Worker::new(alloc))?;
        }
        Ok(PickedWindow {
            drawn: 0,
            workers: list,
            dones: Vec::new(alloc),
        })
    }

    /// Whether a worker can take a step: it has a part, or not all parts were drawn.
    fn can_go(&self, worker: usize) -> bool
        requires { worker < length self.now.workers.items }
        ensures { result ≡ can_go self.now worker }
    {
        self.workers[worker].run.is_some() || (self.drawn as usize) < self.dones.len()
    }

    /// The lowest worker that can take a step.
    fn lowest(&self) -> Option<usize>
        ensures { result ≡ lowest_by (can_go self.now) (length self.now.workers.items) }
    {
        for worker in 0..self.workers.len() {
            if self.can_go(worker) {
                return Some(worker);
            }
        }
        None
    }

    /// The worker whose turn it is: the first of the picks that can take a step, or else the lowest.
    /// Picks that name no worker, or one that can take no step, are skipped.
    fn turn(&self, lowest: usize, picks: &[u32], next: &mut usize) -> usize
        requires lowest { lowest_by (can_go self.now) (length self.now.workers.items) ≡ Some lowest }
        requires next { next.old ≤ length picks.now }
        ensures turn { turn_by (can_go self.now) (length self.now.workers.items) (drop next.old picks.now) ≡ record { 0 = Some result; 1 = drop next.new picks.now } }
        ensures next { next.new ≤ length picks.now }
        ensures worker { result < length self.now.workers.items }
        ensures can_go { IsTrue (can_go self.now result) }
    {
        while *next < picks.len() {
            let worker = picks[*next] as usize;
            *next += 1;
            if worker < self.workers.len() && self.can_go(worker) {
                return worker;
            }
        }
        lowest
    }

    /// Begins with a window: no part is drawn.
    fn open(&mut self, alloc: Global, parts: u32) -> Result<(), Memory>
        ensures { OnOk result (IsOpened parts self.old self.new) }
    {
        self.dones = empty_slots(alloc, parts)?;
        self.drawn = 0;
        Ok(())
    }

    /// One step of a worker that can take one.
    fn step<M: CopiesStates<State = T, Body = B, Piece = P>>(
        &mut self,
        window: &Window<'_, M>,
        worker: usize,
    ) -> Result<Step, RunError>
        requires window { IsNextWindow (M.model window.now.machine.now) window.now.world.now window.now.horizon }
        requires picked { (w : AWindow B) × IsPicked (M.model window.now.machine.now) (M.Known window.now.machine.now) window.now.world.now window.now.horizon self.old w }
        requires worker { worker < length self.old.workers.items }
        requires can_go { IsTrue (can_go self.old worker) }
        ensures turned { IfOk result (λ step. (w : AWindow B) → IsPicked (M.model window.now.machine.now) (M.Known window.now.machine.now) window.now.world.now window.now.horizon self.old w → HasTurned (M.model window.now.machine.now) (M.Known window.now.machine.now) window.now.world.now window.now.horizon worker w self.new step) }
        ensures fewer { OnOk result (potential (M.model window.now.machine.now) window.now.world.now window.now.horizon self.new < potential (M.model window.now.machine.now) window.now.world.now window.now.horizon self.old) }
        ensures workers { OnOk result (length self.new.workers.items ≡ length self.old.workers.items) }
        ensures over { result ≡ Err RunError.TooManyEvents → IsOverLimit (M.model window.now.machine.now) }
        ensures only { IfErr result (λ e. (e ≡ RunError.Memory) ⊎ (e ≡ RunError.TooManyEvents)) }
    {
        window.world.division.recall_division();
        let progress = self.workers[worker].step(window, self.drawn)?;
        match progress {
            Progress::Drew => {
                let part = self.drawn;
                self.drawn += 1;
                Ok(Step::Drew(part))
            }
            Progress::Ran(key) => Ok(Step::Ran(key)),
            Progress::Sealed(done) => {
                let part = done.part;
                self.dones[part as usize] = Some(done);
                Ok(Step::Sealed(part))
            }
        }
    }

    /// Runs a window, from the first draw to the last seal, and returns what its parts leave.
    pub(crate) fn run<M: CopiesStates<State = T, Body = B, Piece = P>>(
        &mut self,
        window: &Window<'_, M>,
        picks: &[u32],
        next: &mut usize,
        taken: &mut Vec<Taken>,
    ) -> Result<Vec<Done<T, B, P>>, RunError>
        requires window { IsNextWindow (M.model window.now.machine.now) window.now.world.now window.now.horizon }
        requires workers { (0 < length self.old.workers.items) × (length self.old.workers.items ≤ 64) }
        requires idle { AllByRecursion IsIdle self.old.workers.items }
        requires next { next.old ≤ length picks.now }
        ensures done { IfOk result (λ dones. AreDone (M.model window.now.machine.now) (M.Known window.now.machine.now) window.now.world.now window.now.horizon dones.items) }
        ensures steps { IfOk result (λ dones. HasStepped (M.model window.now.machine.now) window.now.world.now.division (length self.old.workers.items) window.now.world.now.count window.now.horizon (drop next.old picks.now) (drop next.new picks.now) taken.old.items taken.new.items (events_in dones.items)) }
        ensures workers { OnOk result (length self.new.workers.items ≡ length self.old.workers.items) }
        ensures idle { OnOk result (AllByRecursion IsIdle self.new.workers.items) }
        ensures next { OnOk result (next.new ≤ length picks.now) }
        ensures over { result ≡ Err RunError.TooManyEvents → IsOverLimit (M.model window.now.machine.now) }
        ensures only { IfErr result (λ e. (e ≡ RunError.Memory) ⊎ (e ≡ RunError.TooManyEvents)) }
    {
        let alloc = window.alloc;
        window.machine.recall();
        self.open(alloc, window.world.division.parts())?;
        self.take_turns(window, picks, next, taken)?;
        let slots = std::mem::replace(&mut self.dones, Vec::new(alloc));
        let dones = take_out(alloc, slots)?;
        Ok(dones)
    }

    /// Takes the steps of a window, until no worker can take one.
    fn take_turns<M: CopiesStates<State = T, Body = B, Piece = P>>(
        &mut self,
        window: &Window<'_, M>,
        picks: &[u32],
        next: &mut usize,
        taken: &mut Vec<Taken>,
    ) -> Result<(), RunError>
        requires window { IsNextWindow (M.model window.now.machine.now) window.now.world.now window.now.horizon }
        requires workers { (0 < length self.old.workers.items) × (length self.old.workers.items ≤ 64) }
        requires opened { IsPicked (M.model window.now.machine.now) (M.Known window.now.machine.now) window.now.world.now window.now.horizon self.old (opened (history (M.model window.now.machine.now) window.now.world.now.count) window.now.horizon) }
        requires next { next.old ≤ length picks.now }
        ensures turns { OnOk result (HasTakenTurns (M.model window.now.machine.now) (M.Known window.now.machine.now) window.now.world.now window.now.horizon self.old self.new (drop next.old picks.now) (drop next.new picks.now) taken.old.items taken.new.items) }
        ensures next { OnOk result (next.new ≤ length picks.now) }
        ensures over { result ≡ Err RunError.TooManyEvents → IsOverLimit (M.model window.now.machine.now) }
        ensures only { IfErr result (λ e. (e ≡ RunError.Memory) ⊎ (e ≡ RunError.TooManyEvents)) }
    {
        window.world.division.recall_division();
        while let Some(lowest) = self.lowest() {
            let worker = self.turn(lowest, picks, next);
            let step = self.step(window, worker)?;
            taken.push(Taken {
                worker: worker as u32,
                step,
            })?;
        }
        Ok(())
    }
}
