//! What runs the parts that a worker draws.
use des_event::RunError;
use des_window::MOST_PARTS;
use std::alloc::Global;

/// Runs the parts of a window. All workers of the window share it, and each runs the parts that it
/// draws.
pub trait PartRunner {
    ghost use Rattle.std.specs.Prelude.{◌≡◌, ◌<◌, ◌≤◌, ℕ, IfOk, IfErr};
    ghost use Rattle.des_crew.specs.Shifts.{IsPartFault};

    /// What a part leaves.
    type Done: Drop;

    /// What a worker keeps from one part to the next, such as a queue.
    type Tools: Drop;

    // The window is open.
    ghost IsOpen: { Self → Type 0 };

    // The numbers below this are parts.
    ghost part_count: { Self → ℕ };

    // What a part leaves.
    ghost IsDone: { Self → ℕ → Self.Done → Type 0 };

    // The run has more events than it may have.
    ghost IsOver: { Self → Type 0 };

    // The tools are as good as new.
    ghost AreClean: { Self.Tools → Type 0 };

    /// The number of parts.
    fn parts(&self) -> u32
        requires open { IsOpen self.now }
        ensures count { result ≡ part_count self.now }
        ensures some { 0 < result }
        ensures few { result ≤ MOST_PARTS };

    /// The tools of a worker.
    fn tools(&self, alloc: Global) -> Self::Tools
        ensures { AreClean result };

    /// Runs a part.
    ///
    /// # Errors
    ///
    /// `TooManyEvents`, if this part alone shows that the run has more events than it may have;
    /// `Memory`.
    fn run(&self, part: u32, tools: &mut Self::Tools) -> Result<Self::Done, RunError>
        requires open { IsOpen self.now }
        requires part { part < part_count self.now }
        requires tools { AreClean tools.old }
        ensures done { IfOk result (IsDone self.now part) }
        ensures tools { AreClean tools.new }
        ensures fault { IfErr result (IsPartFault (IsOver self.now)) };
}
