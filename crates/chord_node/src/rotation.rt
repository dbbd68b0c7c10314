//! Which fingers a node looks up, in rotation.
ghost use Rattle.std.specs.Prelude.{◌≡◌, ◌+◌, ◌<◌, ◌≤◌, IfSome};
ghost use Rattle.chord_node.specs.Rotation.{first_looked_up, rotation_start};
ghost use Rattle.chord_scenario.specs.World.{node_count};

use chord_scenario::Scenario;

/// The first finger in the rotation of a node with this first successor: the second one, or the
/// first one that begins beyond the successor if those before it are skipped. It is one more than
/// the last finger if the successor covers all.
#[tactic(auto, unfolding(crate::specs::Rotation::rotation_start))]
pub fn rotation_start(scenario: &Scenario, node: u32, head: Option<u32>) -> u32
    requires node { node < node_count scenario.now }
    requires head { IfSome head (λ node. node < node_count scenario.now) }
    ensures value { result ≡ rotation_start scenario.now node head }
    ensures least { 2 ≤ result }
    ensures greatest { result ≤ scenario.now.bits + 1 }
{
    scenario.recall_range();
    if !scenario.rules().skip_near {
        return 2;
    }
    match head {
        Some(head) => scenario
            .circle()
            .finger_beyond(scenario.ident(node), scenario.ident(head)),
        None => 2,
    }
}

/// The finger that a member looks up first, at the start of a run.
#[tactic(auto, unfolding(crate::specs::Rotation::first_looked_up))]
pub(crate) fn first_looked_up(scenario: &Scenario, node: u32, head: Option<u32>) -> u32
    requires node { node < node_count scenario.now }
    requires head { IfSome head (λ node. node < node_count scenario.now) }
    ensures value { result ≡ first_looked_up scenario.now node head }
{
    scenario.recall_range();
    let start = rotation_start(scenario, node, head);
    let bits = scenario.circle().bits();
    if scenario.rules().random_start && start <= bits {
        let count = u64::from(bits + 1 - start);
        start + scenario.finger_number(node, count) as u32
    } else {
        2
    }
}
