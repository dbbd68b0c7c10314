//! One worker's window: its draws and the runs of its parts.
ghost use Rattle.std.specs.Prelude.{◌≡◌, ◌<◌, ◌∷◌, ◌++◌, [], ℕ, List, OnOk, OnErr, IfErr};
ghost use Rattle.des_crew.specs.Shifts.{AreResults, IsPartFault, IsShift};

use crate::draws::Draws;
use crate::hooks::Gate;
use crate::part_runner::PartRunner;
use crate::seat::Seat;
use des_event::RunError;
use std::alloc::Global;

/// The result of a worker.
#[derive(Drop)]
pub struct Shift<T> {
    /// Its seat, with the parts that it drew.
    pub seat: Seat,
    /// What each of these parts leaves, in the order of the draws. If there is a fault, the last
    /// part is missing.
    pub done: Vec<T>,
    /// Why the worker stopped early: `Memory` or `TooManyEvents`.
    pub fault: Option<RunError>,
}

/// Runs a part, and adds what it leaves to the list.
fn add_result<P: PartRunner>(
    runner: &P,
    part: u32,
    tools: &mut P::Tools,
    list: &mut Vec<P::Done>,
) -> Result<(), RunError>
    requires open { P.IsOpen runner.now }
    requires part { part < P.part_count runner.now }
    requires tools { P.AreClean tools.old }
    ensures tools { P.AreClean tools.new }
    ensures results { OnOk result ((parts : List ℕ) → AreResults (P.IsDone runner.now) parts list.old.items → AreResults (P.IsDone runner.now) (parts ++ part ∷ []) list.new.items) }
    ensures unchanged { OnErr result (list.new.items ≡ list.old.items) }
    ensures fault { IfErr result (IsPartFault (P.IsOver runner.now)) }
{
    let done = match runner.run(part, tools) {
        Ok(done) => done,
        Err(error) => return Err(error),
    };
    match list.push(done) {
        Ok(()) => Ok(()),
        Err(_refused) => Err(RunError::Memory),
    }
}

/// One worker's window: draws a part, passes the gate and runs the part, until no part is left or
/// one has a fault. The seat is new, and the draws have as many parts as the runner.
pub fn work_by<P: PartRunner, G: Gate>(
    runner: &P,
    alloc: Global,
    draws: &Draws,
    seat: Seat,
    worker: u32,
    gate: &G,
) -> Shift<P::Done>
    requires open { P.IsOpen runner.now }
    requires parts { draws.now.parts ≡ P.part_count runner.now }
    requires of { seat.table ≡ draws.now.table }
    requires new { seat.numbers ≡ [] }
    ensures { IsShift (P.IsDone runner.now) (P.IsOver runner.now) seat result }
{
    let mut seat = seat;
    let mut done = Vec::new(alloc);
    let mut tools = runner.tools(alloc);
    while let Some(part) = draws.draw(&mut seat) {
        gate.pass(worker, part);
        if let Err(fault) = add_result(runner, part, &mut tools, &mut done) {
            return Shift {
                seat,
                done,
                fault: Some(fault),
            };
        }
    }
    Shift {
        seat,
        done,
        fault: None,
    }
}
