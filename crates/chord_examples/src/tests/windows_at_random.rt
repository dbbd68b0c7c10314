//! Random scenarios, divisions and picks.
ghost use Rattle.std.specs.Prelude.{◌<◌, ◌≤◌};

use crate::tests::left::{Left, run_picks};
use crate::tests::random_texts::{Dice, RandomTexts, random_texts};
use crate::tests::steps::value_of;
use chord_scenario::{Scenario, read_scenario};
use chord_serial::run_serial;
use chord_trace::Watched;
use chord_window::Division;
use std::process::Abort;

/// The number of triples of a scenario, a division and picks that are run.
const TRIPLES: u64 = 50;

/// `length` numbers below the bound.
fn random_list<T: Abort + AllocGlobal>(rt: &T, dice: &mut Dice, length: u32, bound: u32) -> Vec<u32>
    requires { 0 < bound }
{
    let mut list = Vec::new(rt.alloc());
    for _ in 0..length {
        value_of(rt, list.push(dice.below(bound)));
    }
    list
}

/// Asserts that the triple of a seed, if its scenario and its division are accepted, leaves the same by windows as one
/// event at a time. Returns the number of events.
fn leaves_the_same<T: Abort + AllocGlobal>(rt: &T, seed: u64) -> Option<u64> {
    let alloc = rt.alloc();
    let mut dice = Dice { state: seed };
    let RandomTexts { nodes, toml, csv } = value_of(rt, random_texts(alloc, &mut dice, 3000));
    let parts = 1 + dice.below(7);
    let of_node = random_list(rt, &mut dice, nodes, parts);
    let workers = 1 + dice.below(5);
    let count = dice.below(61);
    let picks = random_list(rt, &mut dice, count, 7);
    let toml = toml.as_str().as_bytes();
    let scenario = read_scenario(alloc, toml, csv.as_str().as_bytes()).ok()?;
    let division = Division::new(nodes, parts, of_node).ok()?;
    Some(events_of(rt, &scenario, &division, workers, picks.as_slice()))
}

/// Asserts that a scenario leaves the same by windows as one event at a time. Returns the number of events.
fn events_of<T: Abort + AllocGlobal>(
    rt: &T,
    scenario: &Scenario,
    division: &Division,
    workers: u32,
    picks: &[u32],
) -> u64
    requires { (0 < workers) × (workers ≤ 64) }
{
    let mut writer = Watched::new(Vec::new(rt.alloc()));
    let report = value_of(rt, run_serial(rt.alloc(), scenario, &mut writer));
    let events = report.events;
    let serial = Left::of_run(rt, writer.into_inner(), &Ok(report));
    let picked = run_picks(rt, scenario, division, workers, picks);
    let (trace, end) = (serial.trace.as_str(), serial.end.as_str());
    picked.left.is(rt, &workers, trace, end);
    events
}

/// Random scenarios leave the same by windows as one event at a time, with any division, workers and picks.
#[test]
fn random_triples(rt: HostRuntime) {
    let (mut accepted, mut long): (u64, u64) = (0, 0);
    for seed in 0..TRIPLES {
        if let Some(events) = leaves_the_same(&rt, seed) {
            accepted = accepted.wrapping_add(1);
            if events >= 200 {
                long = long.wrapping_add(1);
            }
        }
    }
    assert!(rt; accepted >= TRIPLES / 10 * 9, "{accepted}");
    assert!(rt; long >= TRIPLES / 10 * 7, "{long}");
}
