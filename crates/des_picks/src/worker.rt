//! A worker on the calling thread.
ghost use Rattle.std.specs.Prelude.{◌≡◌, ◌⊎◌, IfOk, IfErr, IsSome, Err, Some};
ghost use Rattle.des_model.specs.Histories.{IsOverLimit};
ghost use Rattle.des_parts.specs.declared.part_run.PartRun.{PartRun as APartRun};
ghost use Rattle.des_parts.specs.PartRuns.{HasLeft, IsNextWindow};
ghost use Rattle.des_picks.specs.Workers.{HasProgressed, IsIdle, MayGoOn};

use des_event::{Key, RunError};
use des_parts::{CopiesStates, Done, PartRun, Window};
use des_queue::WindowQueue;
use std::alloc::Global;

/// A worker on the calling thread: the run of its part, if it has one, and the queue for it.
#[derive(Drop)]
pub struct Worker<T, B, P> {
    pub run: Option<PartRun<T, B, P>>,
    pub queue: WindowQueue<B>,
}

/// The outcome of a worker's step.
#[derive(Drop)]
pub enum Progress<T, B, P> {
    Drew,
    Ran(Key),
    Sealed(Done<T, B, P>),
}

impl<T: Drop, B: Drop, P: Drop> Worker<T, B, P> {
    /// A worker without a part.
    pub(crate) fn new(alloc: Global) -> Worker<T, B, P>
        ensures { IsIdle result }
    {
        Worker {
            run: None,
            queue: WindowQueue::new(alloc),
        }
    }

    /// Takes one step: begins the part `drawn` if it has none, or goes on with its part.
    pub(crate) fn step<M: CopiesStates<State = T, Body = B, Piece = P>>(
        &mut self,
        window: &Window<'_, M>,
        drawn: u32,
    ) -> Result<Progress<T, B, P>, RunError>
        requires window { IsNextWindow (M.model window.now.machine.now) window.now.world.now window.now.horizon }
        requires may { MayGoOn (M.model window.now.machine.now) (M.Known window.now.machine.now) window.now.world.now window.now.horizon drawn self.old }
        ensures progress { IfOk result (λ progress. HasProgressed (M.model window.now.machine.now) (M.Known window.now.machine.now) window.now.world.now window.now.horizon drawn self.old self.new progress) }
        ensures over { result ≡ Err RunError.TooManyEvents → IsOverLimit (M.model window.now.machine.now) }
        ensures only { IfErr result (λ e. (e ≡ RunError.Memory) ⊎ (e ≡ RunError.TooManyEvents)) }
    {
        window.machine.recall();
        let Some(run) = &mut self.run else {
            self.run = Some(PartRun::start(window, drawn));
            return Ok(Progress::Drew);
        };
        let due = window.world.parts[run.part as usize].due.as_slice();
        match run.step(window, due, &mut self.queue)? {
            Some(key) => Ok(Progress::Ran(key)),
            None => Ok(Progress::Sealed(self.seal())),
        }
    }

    /// Ends the run of the worker's part, which has no events left.
    fn seal(&mut self) -> Done<T, B, P>
        requires { IsSome self.old.run }
        ensures left { (run : APartRun T B P) → self.old.run ≡ Some run → HasLeft run result }
        ensures idle { IsIdle self.new }
    {
        self.queue.give_up();
        match self.run.take() {
            Some(run) => run.finish(),
            None => unreachable!(),
        }
    }
}
