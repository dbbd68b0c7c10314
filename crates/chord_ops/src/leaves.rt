//! How a node leaves, and what the others do then.
ghost use Rattle.std.specs.Prelude.{◌≡◌, ◌-◌, ◌<◌, IfSome, OnOk};
ghost use Rattle.chord_node.specs.Invariant.{AllNodes, IsNodeState};
ghost use Rattle.chord_scenario.specs.World.{node_count};
ghost use Rattle.chord_ops.specs.Procedures.{departed, head_told, told};
ghost use Rattle.chord_ops.specs.Rules.{inherited, leave_heard, mended};
ghost use Rattle.chord_ops.specs.Turns.{CanAct, GoesOn};

use crate::calls::head_of;
use crate::drops::remove_node;
use crate::replies::leave_out;
use crate::turn::Turn;
use chord_event::{Body, Line, Listed, Memory, MessageKind};
use chord_node::push_if_empty;
use chord_scenario::Scenario;

/// The predecessor of a node when another one has left, whose predecessor was `prdc`.
fn inherited(gone: u32, prdc: Option<u32>, own: Option<u32>) -> Option<u32>
    ensures { result ≡ inherited gone prdc own }
{
    if own != Some(gone) {
        own
    } else if prdc == Some(gone) {
        None
    } else {
        prdc
    }
}

impl Turn {
    /// Tells another node which predecessor and which successors this one has, since it leaves.
    fn tell_of_leave(&mut self, scenario: &Scenario, to: u32) -> Result<(), Memory>
        requires can_act { CanAct scenario.now 1 2 self.old }
        requires to { to < node_count scenario.now }
        ensures value { OnOk result (self.new ≡ told scenario.now to self.old) }
        ensures goes_on { OnOk result (GoesOn 1 2 self.old self.new) }
        ensures rest { OnOk result (self.new.state ≡ record self.old.state { place = self.new.state.place; count = self.new.state.count }) }
    {
        if to == self.state.me {
            return Ok(());
        }
        let prdc = self.state.prdc;
        let list = self.state.succ.try_clone()?;
        self.send(scenario, MessageKind::Leave, to, Body::Leave { prdc, list })
    }

    /// Tells the head, unless that is the predecessor, which has been told.
    fn tell_head(&mut self, scenario: &Scenario, head: u32) -> Result<(), Memory>
        requires can_act { CanAct scenario.now 1 2 self.old }
        requires head { head < node_count scenario.now }
        ensures value { OnOk result (self.new ≡ head_told scenario.now head self.old) }
        ensures goes_on { OnOk result (GoesOn 1 2 self.old self.new) }
    {
        if self.state.prdc == Some(head) {
            Ok(())
        } else {
            self.tell_of_leave(scenario, head)
        }
    }

    /// Tells the predecessor and the head that the node leaves, and goes down.
    #[tactic(auto, unfolding(crate::specs::Procedures::departed))]
    pub fn depart(&mut self, scenario: &Scenario) -> Result<(), Memory>
        requires can_act { CanAct scenario.now 2 4 self.old }
        requires prdc { IfSome self.old.state.prdc (λ node. node < node_count scenario.now) }
        requires successors { AllNodes scenario.now self.old.state.succ }
        ensures value { OnOk result (self.new ≡ departed scenario.now self.old) }
        ensures goes_on { OnOk result (GoesOn 2 4 self.old self.new) }
    {
        let head = head_of(&self.state);
        self.note(Line::Leave)?;
        if let Some(prdc) = self.state.prdc {
            self.tell_of_leave(scenario, prdc)?;
        }
        if let Some(head) = head {
            self.tell_head(scenario, head)?;
        }
        self.go_down(scenario);
        Ok(())
    }

    /// Puts the successors of a node that has left in its place.
    fn mend_list(&mut self, scenario: &Scenario, gone: u32, list: &[u32]) -> Result<(), Memory>
        ensures { OnOk result (self.new ≡ record self.old { state = record self.old.state { succ = mended scenario.now gone list.now self.old.state.succ } }) }
    {
        if !self.state.succ.as_slice().contains(&gone) {
            return Ok(());
        }
        remove_node(&mut self.state.succ, gone);
        let mut heirs = Listed::from_vec(Vec::from_slice(self.state.succ.allocator(), list)?);
        remove_node(&mut heirs, gone);
        leave_out(&mut heirs, self.state.succ.as_slice());
        self.state.succ.extend_from_slice(heirs.as_slice())?;
        self.state.succ.truncate(scenario.list() as usize);
        push_if_empty(&mut self.state.succ, gone)
    }

    /// Another node leaves: a member takes over what that one knew, and drops it.
    #[tactic(auto, unfolding(crate::specs::Rules::leave_heard))]
    pub fn on_leave(
        &mut self,
        scenario: &Scenario,
        sender: u32,
        prdc: Option<u32>,
        list: &[u32],
    ) -> Result<(), Memory>
        requires can_act { CanAct scenario.now 2 2 self.old }
        requires state { IsNodeState scenario.now self.old.state }
        requires sender { sender < node_count scenario.now }
        requires prdc { IfSome prdc (λ node. node < node_count scenario.now) }
        requires list { AllNodes scenario.now list.now }
        ensures { OnOk result (self.new ≡ leave_heard scenario.now sender prdc list.now self.old) }
    {
        scenario.recall_range();
        if !self.drop_unless_member(MessageKind::Leave, sender)? {
            return Ok(());
        }
        self.mend_list(scenario, sender, list)?;
        self.state.prdc = inherited(sender, prdc, self.state.prdc);
        let _stays = self.drop_node(scenario, sender)?;
        Ok(())
    }
}
