//! Chord as a machine whose nodes act where their states lie.
ghost use Rattle.std.specs.Prelude.{◌≡◌, IfOk};

use crate::chord_scribe::RingMachine;
use chord_audit::audit_states;
use chord_event::{Body, Event, Memory};
use chord_machine::audit_times;
use chord_node::{NodeState, initial_ring};
use chord_ops::Actor;
use chord_scenario::Scenario;
use chord_trace::Piece;
use des_event::free_spare;
use des_machine::{Machine, States};
use std::alloc::Global;

/// The Chord ring of a scenario, as a machine for engines that keep each state at one place for the
/// whole run, such as the serial engine and the team. It is the same machine as `ChordRing`, but no
/// event moves a state.
#[derive(Clone, Copy, Drop)]
pub struct ActorRing<'s> {
    pub scenario: &'s Scenario,
}

/// The states of actors.
#[derive(Drop)]
struct StatesOf<'v, V> {
    actors: &'v V,
}

impl<'v, V: States<Actor>> States<NodeState> for StatesOf<'v, V> {
    ghost list = { λ states. V.list states.actors.now };

    fn of(&self, node: u32) -> &NodeState {
        self.actors.of(node).state()
    }
}

impl<'s> Machine for ActorRing<'s> {
    ghost use Rattle.chord_machine.specs.Chord.{chord};
    ghost use Rattle.chord_machine.specs.Pieces.{IsKnownPiece};
    ghost use Rattle.chord_machine.specs.Room.{HasRoom};
    ghost use Rattle.chord_machine.specs.Sound.{IsStateOf};
    ghost use Rattle.chord_machine.proofs.Simulable.{is_simulable};
    ghost use Rattle.chord_ops.specs.Sound.{IsSoundEvent};
    ghost use Rattle.chord_scenario.specs.Range.{IsInRange};

    type State = Actor;

    type Body = Body;

    type Piece = Piece;

    ghost model = { λ ring. chord ring.scenario.now };

    ghost Valid = { λ ring. IsInRange ring.scenario.now };

    ghost Sound = { λ ring n s. IsStateOf ring.scenario.now n s };

    ghost Fit = { λ ring e. IsSoundEvent ring.scenario.now e };

    ghost Known = { λ ring p. IsKnownPiece ring.scenario.now p };

    ghost Room = { λ _ s. HasRoom s };

    fn recall(&self) {
        self.scenario.recall_range();
    }

    fn nodes(&self) -> u32 {
        self.scenario.nodes()
    }

    fn duration(&self) -> u64 {
        self.scenario.duration()
    }

    fn max_events(&self) -> u64 {
        self.scenario.max_events()
    }

    fn lookahead(&self) -> u64 {
        self.scenario.window()
    }

    fn start_states(&self, alloc: Global) -> Result<Vec<Actor>, Memory> {
        self.scenario.recall_range();
        let states = initial_ring(alloc, self.scenario)?;
        actors_of(alloc, states)
    }

    fn start_events(&self, alloc: Global) -> Result<Vec<Event>, Memory> {
        self.scenario.recall_range();
        self.scenario.start_events(alloc)
    }

    #[inline(always)]
    fn act(
        &self,
        alloc: Global,
        actor: &mut Actor,
        event: &Event,
        made: &mut Vec<Event>,
    ) -> Result<Piece, Memory> {
        self.scenario.recall_range();
        let block = actor.act(alloc, self.scenario, event, made)?;
        Ok(Piece::OfEvent { block })
    }

    #[inline(always)]
    fn fetch_state(&self, actor: &Actor) -> u64 {
        // An actor lies in four or five cache lines. These numbers are in three of them.
        let state = actor.state();
        let calls = state.calls.as_slice().len() as u64;
        state.epoch.wrapping_add(calls).wrapping_add(state.count)
    }

    #[inline(always)]
    fn fetch_lists(&self, actor: &Actor) -> u64 {
        let state = actor.state();
        let successor = state.succ.as_slice().first().copied().unwrap_or(0);
        let finger = match state.fingers.runs().first() {
            Some(run) => run.node,
            None => 0,
        };
        let call = match state.calls.as_slice().first() {
            Some(call) => call.number,
            None => 0,
        };
        let lookup = match state.lookups.as_slice().first() {
            Some(lookup) => lookup.call,
            None => 0,
        };
        let nodes = u64::from(successor).wrapping_add(u64::from(finger));
        nodes.wrapping_add(call).wrapping_add(lookup)
    }

    fn audit_times(&self, alloc: Global) -> Result<Vec<u64>, Memory> {
        audit_times(alloc, self.scenario)
    }

    fn audit<V: States<Actor>>(
        &self,
        alloc: Global,
        states: &V,
        time: u64,
    ) -> Result<Piece, Memory> {
        let states = StatesOf { actors: states };
        let audit = audit_states(alloc, self.scenario, &states, time)?;
        Ok(Piece::OfAudit { audit })
    }

    ghost simulable = { λ ring ranges. is_simulable ring.scenario.now ranges };
}

impl<'s> RingMachine for ActorRing<'s> {
    ghost scenario_of = { λ ring. ring.scenario.now };

    fn scenario(&self) -> &Scenario {
        self.scenario
    }

    ghost known = { λ ring piece known. known };
}

/// The actors of these states, in the same order. The memory of the list is freed on the way.
fn actors_of(alloc: Global, states: Vec<NodeState>) -> Result<Vec<Actor>, Memory>
    ensures { IfOk result (λ actors. actors.items ≡ states.items) }
{
    let mut states = states;
    let mut actors = Vec::with_capacity(alloc, states.len())?;
    while let Some(state) = states.pop() {
        free_spare(&mut states);
        actors.push(Actor::new(alloc, state))?;
    }
    actors.reverse();
    Ok(actors)
}
