//! A node that acts where its state lies.
ghost use Rattle.std.specs.Prelude.{◌≡◌, ◌^◌, ◌<◌, ◌≤◌, [], IfOk, OnOk, length};
ghost use Rattle.chord_node.specs.Invariant.{IsNodeState};
ghost use Rattle.chord_scenario.specs.Blocks.{IsBlockOf, most_lines};
ghost use Rattle.chord_ops.specs.Rules.{block_of, effect};
ghost use Rattle.chord_ops.specs.Sound.{IsSoundEvent};

use crate::turn::Turn;
use chord_event::{Block, Event, Listed, Memory};
use chord_node::NodeState;
use chord_scenario::Scenario;
use std::alloc::Global;
use std::marker::Model;
use std::mem;

/// A node that acts on events. Its state lies in a turn, so no event moves it. Contracts see the state.
#[derive(Drop)]
pub struct Actor {
    turn: Turn,
}

impl Model for Actor {
    ghost use Rattle.chord_node.specs.declared.state.NodeState.{NodeState};

    ghost Value = { NodeState };

    ghost view = { λ s. s.turn.state };
}

impl Actor {
    /// A node of this state.
    pub fn new(alloc: Global, state: NodeState) -> Actor
        ensures { result ≡ state }
    {
        Actor {
            turn: Turn {
                time: 0,
                state,
                events: Listed::new(alloc),
                lines: Listed::new(alloc),
            },
        }
    }

    /// The state, by value.
    pub fn into_state(self) -> NodeState
        ensures { result ≡ self }
    {
        let Actor { turn } = self;
        let Turn { state, .. } = turn;
        state
    }

    /// The state.
    #[inline(always)]
    pub fn state(&self) -> &NodeState
        ensures { result.now ≡ self.now }
    {
        &self.turn.state
    }

    /// Applies the rule for an event. What the event makes goes into the list `made`, which is empty and
    /// may have room: as long as it has, no list of events is allocated. Returns the lines. After an
    /// error the state is unusable and must not be read again.
    #[tactic(auto, unfolding(crate::specs::Rules::effect))]
    pub fn act(
        &mut self,
        alloc: Global,
        scenario: &Scenario,
        event: &Event,
        made: &mut Vec<Event>,
    ) -> Result<Block, Memory>
        requires invariant { IsNodeState scenario.now self.old }
        requires target { event.now.target ≡ self.old.me }
        requires event { IsSoundEvent scenario.now event.now }
        requires time { event.now.key.time < scenario.now.duration }
        requires count { self.old.count ≤ 2 ^ 40 }
        requires place { self.old.place ≤ 2 ^ 40 }
        requires empty { made.old.items ≡ [] }
        ensures state { OnOk result (self.new ≡ (effect scenario.now self.old event.now).state) }
        ensures events { OnOk result (made.new.items ≡ (effect scenario.now self.old event.now).events) }
        ensures block { IfOk result (λ block. block ≡ block_of scenario.now self.old event.now) }
        ensures known { IfOk result (IsBlockOf scenario.now) }
        ensures short { IfOk result (λ block. length block.lines ≤ most_lines) }
    {
        scenario.recall_range();
        self.turn.time = event.key.time;
        let room = Listed::from_vec(mem::replace(made, Vec::new(alloc)));
        // What stood in the place of each of these lists has no memory to free.
        mem::forget(mem::replace(&mut self.turn.events, room));
        mem::forget(mem::replace(&mut self.turn.lines, Listed::new(alloc)));
        // Node i has origin 2 + i. Commands have origin 1 and no sender: their rules do not read it.
        let sender = event.key.origin.saturating_sub(2);
        self.turn.handle(scenario, sender, &event.body)?;
        let events = mem::replace(&mut self.turn.events, Listed::new(alloc));
        mem::forget(mem::replace(made, events.into_vec()));
        let lines = mem::replace(&mut self.turn.lines, Listed::new(alloc));
        Ok(Block {
            key: event.key,
            target: event.target,
            lines,
        })
    }
}
