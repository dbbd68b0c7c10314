//! The run of one part in one window.
ghost use Rattle.std.specs.Prelude.{◌≡◌, ◌⊎◌, ◌<◌, Err, IfErr, IfOk};
ghost use Rattle.chord_machine.specs.Run.{HasTooManyEvents};
ghost use Rattle.chord_window.specs.PartRuns.{IsDone, IsNextWindow};
ghost use Rattle.des_parts.specs.PartRuns.{IsFresh};

use crate::part_done::Done;
use crate::window::Window;
use chord_event::{Body, RunError};
use chord_output::ChordRing;
use des_queue::WindowQueue;

/// Runs the events of a part of a window, the least first. It leaves the world as it was and the
/// queue empty, after an error too.
///
/// # Errors
///
/// `TooManyEvents`, if this part alone shows that the run has more events than the scenario allows;
/// `Memory`.
pub fn run_part(
    window: &Window<'_>,
    part: u32,
    queue: &mut WindowQueue<Body>,
) -> Result<Done, RunError>
    requires window { IsNextWindow window.now.scenario.now window.now.world.now window.now.horizon }
    requires part { part < window.now.world.now.kernel.division.parts }
    requires queue { IsFresh queue.old }
    ensures done { IfOk result (λ done. IsDone window.now.scenario.now window.now.world.now window.now.horizon part done) }
    ensures queue { IsFresh queue.new }
    ensures over { result ≡ Err RunError.TooManyEvents → HasTooManyEvents window.now.scenario.now }
    ensures only { IfErr result (λ e. (e ≡ RunError.Memory) ⊎ (e ≡ RunError.TooManyEvents)) }
{
    let &Window {
        alloc,
        scenario,
        world,
        horizon,
    } = window;
    scenario.recall_range();
    let ring = ChordRing { scenario };
    let window = des_parts::Window {
        alloc,
        machine: &ring,
        world: &world.kernel,
        horizon,
    };
    let done = des_parts::run_part(&window, part, queue)?;
    Ok(Done::of_kernel(alloc, done)?)
}
