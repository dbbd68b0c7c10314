//! The ring of three and its two lookups, in which most tests take place.
use crate::examples::play::{SETTINGS, THREE, text_of};
use crate::examples::table::{Example, TWO_LOOKUPS};
use crate::tests::steps::value_of;
use chord_scenario::{Scenario, read_scenario};
use std::process::Abort;

/// A lookup of n0, which knows the owner.
pub const NO_HOP: &str = "[[command]]\nat_us = 100\ndo = \"lookup\"\nnode = \"n0\"\nkey = 1\n";

/// The text of the ring with these commands.
pub fn text_of_three<T: Abort + AllocGlobal>(rt: &T, commands: &str) -> String {
    value_of(rt, text_of(rt.alloc(), SETTINGS, THREE, commands))
}

/// The ring with these commands.
pub fn ring_of_three<T: Abort + AllocGlobal>(rt: &T, commands: &str) -> Scenario {
    ring_with(rt, SETTINGS, commands)
}

/// The ring with these settings and commands.
pub fn ring_with<T: Abort + AllocGlobal>(rt: &T, settings: &str, commands: &str) -> Scenario {
    let text = value_of(rt, text_of(rt.alloc(), settings, THREE, commands));
    scenario_of(rt, text.as_str(), b"")
}

/// The scenario of a text that is not refused.
pub fn scenario_of<T: Abort + AllocGlobal>(rt: &T, toml: &str, csv: &[u8]) -> Scenario {
    let Ok(scenario) = read_scenario(rt.alloc(), toml.as_bytes(), csv) else {
        panic!(rt; "the scenario is refused");
    };
    scenario
}

/// The scenario of an example.
pub fn scenario_of_example<T: Abort + AllocGlobal>(rt: &T, example: &Example) -> Scenario {
    let Ok(scenario) = example.scenario(rt.alloc()) else {
        panic!(rt; "{} is refused", example.name);
    };
    scenario
}

/// Two lookups at one time, in a run that allows `allowed` events.
pub fn two_lookups<T: Abort + AllocGlobal>(rt: &T, allowed: u32) -> Scenario {
    let settings = format!(in rt.alloc(); "{SETTINGS}max_events = {allowed}\n");
    let settings = value_of(rt, settings);
    ring_with(rt, settings.as_str(), TWO_LOOKUPS.commands)
}

/// Whether a trace is the first `taken` bytes of that of the two lookups.
pub fn is_beginning(trace: &[u8], taken: usize) -> bool {
    trace.len() == taken && TWO_LOOKUPS.trace.as_bytes().starts_with(trace)
}
