//! How far a node goes before it gives up.
ghost use Rattle.std.specs.Prelude.{◌≡◌};
ghost use Rattle.chord_node.specs.Limits.{most_lookup_steps};

use chord_scenario::Scenario;

/// The most requests of an attempt to join after its first request.
pub const MOST_STEPS: u32 = 128;

/// The most lookups of its users that a node works on at once.
pub const MOST_USER_LOOKUPS: usize = 60;

/// The most failures that an attempt to join survives. At the next one the node gives up.
pub const MOST_FAILURES: u32 = 7;

/// The most requests of a lookup, without those that are sent again: those of a long way, and two
/// for each node that the lookup may have to avoid.
pub fn most_lookup_steps(scenario: &Scenario) -> u32
    ensures { result ≡ most_lookup_steps scenario.now }
{
    scenario.recall_range();
    112 + 2 * scenario.rules().lookup_timeouts as u32
}
