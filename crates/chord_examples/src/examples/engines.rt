//! The engines, behind one function.
ghost use Rattle.std.specs.Prelude.{◌≡◌, ◌≤◌, false};
ghost use Rattle.des_output.specs.Watched.{has_failed};

use chord_crew::{Dealer, OpenGate, run_crew, run_crew_dealt};
use chord_event::{Memory, RunError};
use chord_scenario::Scenario;
use chord_serial::run_serial;
use chord_team::{Hands, run_team_by};
use chord_trace::{Report, Watched};
use chord_window::{Division, run_picked};
use std::alloc::Global;
use std::io::Write;
use std::sync::Wait;
use std::thread::Threads;

/// How a run is carried out.
#[derive(Clone, Copy, Debug, PartialEq, Eq, Drop)]
pub enum Engine {
    /// One event at a time.
    Serial,
    /// By windows, on one thread, the steps of the workers in a mixed order.
    Picked,
    /// By windows, the workers in their own threads.
    Crew,
    /// The same, with the nodes dealt again before each window.
    Dealt,
    /// By windows, by workers that stand for the whole run and are all woken in each window.
    Team,
}

/// All engines.
pub const ENGINES: [Engine; 5] = [
    Engine::Serial,
    Engine::Picked,
    Engine::Crew,
    Engine::Dealt,
    Engine::Team,
];

/// How many parts and workers a run by windows has.
#[derive(Clone, Copy, Debug, Drop)]
pub struct Shape {
    pub parts: u32,
    pub workers: u32,
    ghost some_parts: { 1 ≤ parts },
    ghost few_parts: { parts ≤ 512 },
    ghost some_workers: { 1 ≤ workers },
    ghost few_workers: { workers ≤ 64 },
}

/// A dealer that rotates the parts: the nodes are dealt in turn, and before each window each of them moves one part on.
#[derive(Drop)]
pub struct TurningDealer {
    pub alloc: Global,
    pub parts: u32,
    /// The part of the first node.
    pub first: u32,
}

impl Dealer for TurningDealer {
    ghost can_name = { λ _ _. Unit {0} };

    fn deal(&mut self, loads: &[u64]) -> Result<Division, Memory> {
        self.first = part_after(self.first, self.parts);
        let mut part = self.first;
        let mut of_node = Vec::new(self.alloc);
        for _load in loads {
            of_node.push(part)?;
            part = part_after(part, self.parts);
        }
        let Ok(nodes) = u32::try_from(of_node.len()) else {
            return Err(Memory);
        };
        Division::new(nodes, self.parts, of_node).map_err(|_fault| Memory)
    }
}

/// The part that comes after another one, and after the last one the first.
fn part_after(part: u32, parts: u32) -> u32 {
    let next = part.wrapping_add(1);
    if next < parts { next } else { 0 }
}

/// Runs a scenario by an engine: writes its trace, and returns its report.
pub fn run_by<T: Threads + Wait + Sync, W: Write>(
    rt: &T,
    alloc: Global,
    engine: Engine,
    shape: Shape,
    scenario: &Scenario,
    writer: &mut Watched<W>,
) -> Result<Report, RunError>
    requires sound { has_failed writer.old ≡ false }
{
    scenario.recall_range();
    let Shape { parts, workers } = shape;
    let division = Division::blocks(alloc, scenario.nodes(), parts)?;
    match engine {
        Engine::Serial => run_serial(alloc, scenario, writer),
        Engine::Picked => {
            let picks = [1, 1, 0, 9, 0];
            let (report, _steps) = run_picked(alloc, scenario, &division, workers, &picks, writer)?;
            Ok(report)
        }
        Engine::Crew => run_crew(rt, alloc, scenario, &division, workers, &OpenGate, writer),
        Engine::Dealt => {
            let mut dealer = TurningDealer {
                alloc,
                parts,
                first: 0,
            };
            run_crew_dealt(rt, alloc, scenario, workers, &mut dealer, &OpenGate, writer)
        }
        Engine::Team => {
            let hands = Hands { workers, worth: 0 };
            run_team_by(rt, alloc, scenario, &division, hands, writer)
        }
    }
}
