//! The nodes through which a node joins when it has to choose one.
ghost use Rattle.std.specs.Prelude.{◌≡◌, ◌<◌, IfSome};
ghost use Rattle.chord_node.specs.Bootstraps.{first_bootstrap, later_bootstrap, next_bootstrap};
ghost use Rattle.chord_scenario.specs.World.{node_count};

use crate::lists::first_other;
use chord_scenario::Scenario;

/// The first bootstrap node other than this one.
#[tactic(auto, using(crate::proofs::Found::first_known))]
pub(crate) fn first_bootstrap(scenario: &Scenario, node: u32) -> Option<u32>
    ensures value { result ≡ first_bootstrap scenario.now node }
    ensures known { IfSome result (λ node. node < node_count scenario.now) }
{
    scenario.recall_range();
    first_other(scenario.bootstraps(), node)
}

/// The first bootstrap node other than this one that follows a node in the order of the file.
#[tactic(auto, using(crate::proofs::Found::later_known))]
fn later_bootstrap(scenario: &Scenario, node: u32, before: u32) -> Option<u32>
    ensures value { result ≡ later_bootstrap scenario.now node before }
    ensures known { IfSome result (λ node. node < node_count scenario.now) }
{
    scenario.recall_range();
    scenario
        .bootstraps()
        .iter()
        .copied()
        .find(|other| *other > before && *other != node)
}

/// The bootstrap node other than this one that follows a node in the order of the file, and after
/// the last one the first.
#[tactic(auto, unfolding(crate::specs::Bootstraps::next_bootstrap))]
pub fn next_bootstrap(scenario: &Scenario, node: u32, before: u32) -> Option<u32>
    ensures value { result ≡ next_bootstrap scenario.now node before }
    ensures known { IfSome result (λ node. node < node_count scenario.now) }
{
    match later_bootstrap(scenario, node, before) {
        Some(other) => Some(other),
        None => first_bootstrap(scenario, node),
    }
}
