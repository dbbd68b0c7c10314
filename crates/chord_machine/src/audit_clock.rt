//! When a scenario has its audits.
ghost use Rattle.std.specs.Prelude.{◌≡◌, IfOk};
ghost use Rattle.chord_machine.specs.AuditTimes.{audit_times};

use chord_event::Memory;
use chord_scenario::Scenario;
use std::alloc::Global;

/// The times of all audits of a scenario, in microseconds, in order.
pub fn audit_times(alloc: Global, scenario: &Scenario) -> Result<Vec<u64>, Memory>
    ensures { IfOk result (λ times. times.items ≡ audit_times scenario.now) }
{
    scenario.recall_range();
    let mut times = Vec::new(alloc);
    for k in 0..(scenario.duration() - 1) / scenario.audit() {
        times.push((k + 1) * scenario.audit())?;
    }
    times.push(scenario.duration())?;
    Ok(times)
}
