//! Nodes that are dropped because they did not answer.
ghost use Rattle.std.specs.Prelude.{◌≡◌, ◌==◌, ◌<◌, not, None, true, IfOk, IfSome, OnOk, is_some, slice_get, if◌then◌else◌};
ghost use Rattle.std.specs.List.{list_any};
ghost use Rattle.chord_node.specs.Invariant.{AllNodes, IsNodeState};
ghost use Rattle.chord_scenario.specs.World.{node_count};
ghost use Rattle.chord_ops.specs.Rules.{dropped, list_after, list_left, nearer, nearest_finger, others_left};
ghost use Rattle.chord_ops.specs.Turns.{CanAct, GoesOn};

use crate::calls::head_of;
use crate::turn::Turn;
use chord_event::{Line, Listed, Memory};
use chord_node::NodeState;
use chord_scenario::Scenario;

/// The nearer of two nodes, clockwise from `me`.
fn nearer(scenario: &Scenario, me: u32, nearest: Option<u32>, node: u32) -> Option<u32>
    requires me { me < node_count scenario.now }
    requires nearest { IfSome nearest (λ node. node < node_count scenario.now) }
    requires node { node < node_count scenario.now }
    ensures { result ≡ nearer scenario.now me nearest node }
{
    let Some(nearest) = nearest else {
        return Some(node);
    };
    let home = scenario.ident(me);
    let to_node = scenario.circle().distance(home, scenario.ident(node));
    let to_nearest = scenario.circle().distance(home, scenario.ident(nearest));
    if to_node < to_nearest {
        Some(node)
    } else {
        Some(nearest)
    }
}

/// The nearest finger that is neither the node itself nor the silent one.
#[tactic(auto, unfolding(crate::specs::Rules::nearest_finger))]
fn nearest_finger(scenario: &Scenario, state: &NodeState, silent: u32) -> Option<u32>
    requires me { state.now.me < node_count scenario.now }
    requires fingers { AllNodes scenario.now state.now.fingers }
    ensures value { result ≡ nearest_finger scenario.now silent state.now }
    ensures known { IfSome result (λ node. node < node_count scenario.now) }
{
    let mut nearest = None;
    for run in state.fingers.runs() {
        if run.node != state.me && run.node != silent {
            nearest = nearer(scenario, state.me, nearest, run.node);
        }
    }
    nearest
}

/// Whether a list has a node other than this one.
fn has_other(nodes: &[u32], me: u32) -> bool
    ensures { result ≡ list_any (λ x. not (x == me)) nodes.now }
{
    nodes.iter().any(|node| *node != me)
}

/// Takes a node out of a list, at all its places.
pub fn remove_node(nodes: &mut Listed<u32>, node: u32)
    ensures { nodes.new ≡ others_left node nodes.old }
{
    nodes.retain(|other| *other != node);
}

/// The finger that rescues a node whose list, from which the silent one has gone, has nobody left
/// but the node itself.
fn find_rescuer(scenario: &Scenario, state: &NodeState, silent: u32) -> Option<u32>
    requires me { state.now.me < node_count scenario.now }
    requires fingers { AllNodes scenario.now state.now.fingers }
    ensures { result ≡ (if list_any (λ x. not (x == state.now.me)) state.now.succ then None else nearest_finger scenario.now silent state.now) }
{
    if has_other(state.succ.as_slice(), state.me) {
        None
    } else {
        nearest_finger(scenario, state, silent)
    }
}

impl Turn {
    /// Takes a silent node out of the successor list. If that has nobody left, a finger comes into
    /// it.
    #[tactic(auto, unfolding(crate::specs::Rules::list_left, crate::specs::Rules::list_after, crate::specs::Rules::rescuer, crate::specs::Rules::nearest_finger))]
    fn leave_list(&mut self, scenario: &Scenario, silent: u32) -> Result<(), Memory>
        requires me { self.old.state.me < node_count scenario.now }
        requires fingers { AllNodes scenario.now self.old.state.fingers }
        ensures { OnOk result (self.new ≡ list_left scenario.now silent self.old) }
    {
        remove_node(&mut self.state.succ, silent);
        if let Some(finger) = find_rescuer(scenario, &self.state, silent) {
            self.state.succ.insert(0, finger)?;
            self.state.succ.truncate(scenario.list() as usize);
            self.note(Line::Rescue { finger })?;
        }
        Ok(())
    }

    /// Drops a silent node from the list and the fingers. Returns whether the node is still a
    /// member: without a successor it is stranded.
    #[tactic(auto, unfolding(crate::specs::Rules::dropped, crate::specs::Rules::list_left))]
    pub fn drop_node(&mut self, scenario: &Scenario, silent: u32) -> Result<bool, Memory>
        requires can_act { CanAct scenario.now 2 2 self.old }
        requires state { IsNodeState scenario.now self.old.state }
        ensures answer { IfOk result (λ stays. stays ≡ is_some (slice_get (list_after scenario.now silent self.old.state) 0)) }
        ensures value { OnOk result (self.new ≡ dropped scenario.now silent (λ turn. turn) self.old) }
        ensures state { IfOk result (λ stays. stays ≡ true → IsNodeState scenario.now self.new.state) }
        ensures goes_on { IfOk result (λ stays. stays ≡ true → GoesOn 0 0 self.old self.new) }
    {
        self.leave_list(scenario, silent)?;
        let Some(head) = head_of(&self.state) else {
            if let Some(via) = self.state.via {
                self.strand(scenario, via)?;
            }
            return Ok(false);
        };
        self.state.fingers.replace(silent, head)?;
        Ok(true)
    }
}
