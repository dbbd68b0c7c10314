//! Outstanding calls, and the head of the successor list.
ghost use Rattle.std.specs.Prelude.{◌≡◌, ◌==◌, not, filter, OnOk};
ghost use Rattle.chord_node.specs.Invariant.{AllNodes};
ghost use Rattle.chord_ops.specs.Procedures.{call_of, without_call};
ghost use Rattle.chord_ops.specs.Rules.{has_ping_call, head, head_notified};
ghost use Rattle.chord_ops.specs.Turns.{CanAct};

use crate::turn::Turn;
use chord_event::{Body, Listed, Memory, MessageKind};
use chord_node::{Call, NodeState, Purpose};
use chord_scenario::Scenario;

/// The outstanding call with this number.
pub fn find_call(state: &NodeState, number: u64) -> Option<Call>
    ensures { result ≡ call_of number state.now }
{
    state
        .calls
        .as_slice()
        .iter()
        .copied()
        .find(|call| call.number == number)
}

/// Removes the call with this number.
fn remove_call(calls: &mut Listed<Call>, number: u64)
    ensures { calls.new ≡ filter (λ call. not (call.number == number)) calls.old }
{
    calls.retain(|call| call.number != number);
}

/// The first successor.
pub fn head_of(state: &NodeState) -> Option<u32>
    ensures { result ≡ head state.now }
{
    state.succ.as_slice().first().copied()
}

/// Whether a Ping or Check call is outstanding.
pub fn is_ping_out(state: &NodeState) -> bool
    ensures { result ≡ has_ping_call state.now }
{
    state.calls.as_slice().iter().any(|call| matches!(
        call.purpose,
        Purpose::Ping { .. } | Purpose::Check
    ))
}

impl Turn {
    /// Removes the call with this number from the outstanding ones.
    pub fn drop_call(&mut self, number: u64)
        ensures { self.new ≡ without_call number self.old }
    {
        remove_call(&mut self.state.calls, number);
    }

    /// Notifies the head that this node precedes it.
    #[tactic(auto, unfolding(crate::specs::Rules::head_notified))]
    pub fn notify_head(&mut self, scenario: &Scenario) -> Result<(), Memory>
        requires can_act { CanAct scenario.now 1 2 self.old }
        requires successors { AllNodes scenario.now self.old.state.succ }
        ensures value { OnOk result (self.new ≡ head_notified scenario.now self.old) }
    {
        match head_of(&self.state) {
            Some(head) => self.send(scenario, MessageKind::Notify, head, Body::Notify),
            None => Ok(()),
        }
    }
}
