//! Laws of what a node knows.
ghost use Rattle.std.specs.Prelude.{◌≡◌, ◌≢◌, ◌<◌, ◌≤◌, ℕ, Some, true, nat_lt, IfSome, IsSome};
ghost use Rattle.std.specs.List.{Contains};
ghost use Rattle.chord_circle.specs.Circle.{finger_start, in_half_open};
ghost use Rattle.chord_scenario.specs.declared.scenario.Scenario.{Scenario as AScenario};
ghost use Rattle.chord_scenario.specs.Range.{IsInRange};
ghost use Rattle.chord_scenario.specs.World.{ident_of, node_count};
ghost use Rattle.chord_node.specs.Bootstraps.{IsNextBootstrap, next_bootstrap};
ghost use Rattle.chord_node.specs.Rotation.{rotation_start};

/// With `skip_near` the rotation of a node skips the fingers that its first successor covers, and no
/// others: those that begin on the way to that successor or at it.
pub fn near_fingers_are_skipped()
    ensures { (sc : AScenario) (n head i : ℕ) → IsInRange sc → sc.rules.skip_near ≡ true → n < node_count sc → head < node_count sc → 2 ≤ i → i ≤ sc.bits → in_half_open sc.bits (ident_of sc n) (finger_start sc.bits (ident_of sc n) i) (ident_of sc head) ≡ nat_lt i (rotation_start sc n (Some head)) }
{}

/// Nodes try the bootstrap nodes in turn: the next one is the first one other than the node itself
/// after the last one tried, in the order of the file, in which the first node follows the last.
/// There is one as long as another node is a bootstrap node.
pub fn bootstrap_nodes_are_tried()
    ensures in_turn { (sc : AScenario) (n before : ℕ) → IsInRange sc → before < node_count sc → IfSome (next_bootstrap sc n before) (IsNextBootstrap sc n before) }
    ensures found { (sc : AScenario) (n before other : ℕ) → Contains sc.bootstraps other → other ≢ n → IsSome (next_bootstrap sc n before) }
{}
