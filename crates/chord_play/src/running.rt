//! How a plan is carried out.
ghost use Rattle.std.specs.Prelude.{◌≡◌, ◌≢◌, ◌⊎◌, ◌<◌, false, IfErr, IfOk, Err};
ghost use Rattle.chord_output.specs.Runs.{IsRun};
ghost use Rattle.chord_play.specs.Plans.{planned};
ghost use Rattle.des_output.specs.Watched.{wrapped, has_failed};
ghost use Rattle.des_output.specs.Writing.{is_write};

use chord_event::{Memory, RunError};
use chord_output::{ActorRing, ChordRing, ChordScribe};
use chord_plan::{Engine, Plan, Split};
use chord_scenario::Scenario;
use chord_trace::{Report, Watched};
use des_crew::{Crew, Gate, Starter, run_crew_started};
use des_serial::run_serial;
use des_team::run_team;
use des_window::Division;
use std::alloc::Global;
use std::io::Write;
use std::sync::Wait;
use std::thread::Threads;

/// The division of `nodes` nodes that a plan asks for.
fn divide(alloc: Global, plan: &Plan, nodes: u32) -> Result<Division, Memory>
    requires { 0 < nodes }
    ensures { IfOk result (λ division. division ≡ planned plan.now nodes) }
{
    match plan.split {
        Split::RoundRobin => Division::dealt(alloc, nodes, plan.parts),
        Split::Blocks => Division::blocks(alloc, nodes, plan.parts),
    }
}

/// Runs a scenario as the plan says. The threads of a crew start if the starter allows it, and each
/// passes the gate before it runs a part: `play` allows all and holds none.
pub fn run_planned<T: Threads + Wait + Sync, S: Starter, G: Gate + Sync, W: Write>(
    rt: &T,
    alloc: Global,
    scenario: &Scenario,
    plan: &Plan,
    starter: &mut S,
    gate: &G,
    writer: &mut Watched<W>,
) -> Result<Report, RunError>
    requires sound { has_failed writer.old ≡ false }
    ensures run { IsRun scenario.now (W.contents (wrapped writer.old)) (W.contents (wrapped writer.new)) result }
    ensures writer { has_failed writer.new ≡ is_write result }
    ensures worker { result ≡ Err RunError.Worker → plan.now.engine ≢ Engine.Serial }
    ensures only { IfErr result (λ e. (e ≡ RunError.Memory) ⊎ (e ≡ RunError.Worker) ⊎ (e ≡ RunError.TooManyEvents) ⊎ (e ≡ RunError.Write)) }
{
    scenario.recall_range();
    let ring = ActorRing { scenario };
    match plan.engine {
        Engine::Serial => run_serial::<ActorRing<'_>, ChordScribe, W>(alloc, &ring, writer),
        Engine::Crew => {
            let ring = ChordRing { scenario };
            let division = divide(alloc, plan, scenario.nodes())?;
            let crew = Crew {
                division: &division,
                workers: plan.workers,
                gate,
            };
            run_crew_started::<ChordRing<'_>, ChordScribe, S, G, T, W>(
                rt, alloc, &ring, &crew, starter, writer,
            )
        }
        Engine::Team => {
            let division = divide(alloc, plan, scenario.nodes())?;
            run_team::<ActorRing<'_>, ChordScribe, T, W>(
                rt,
                alloc,
                &ring,
                &division,
                plan.workers,
                writer,
            )
        }
    }
}
