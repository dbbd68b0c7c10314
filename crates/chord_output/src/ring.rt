//! Chord as a machine of the simulation kernel.
use crate::chord_scribe::RingMachine;
use chord_audit::audit_states;
use chord_event::{Body, Event, Memory};
use chord_machine::audit_times;
use chord_node::{NodeState, initial_ring};
use chord_ops::Actor;
use chord_scenario::Scenario;
use chord_trace::Piece;
use des_machine::{Machine, States};
use des_parts::CopiesStates;
use std::alloc::Global;
use std::mem;

/// The Chord ring of a scenario, as a machine: its nodes act by the rules of Chord, and its audits are
/// those of the ring.
#[derive(Clone, Copy, Drop)]
pub struct ChordRing<'s> {
    pub scenario: &'s Scenario,
}

impl<'s> Machine for ChordRing<'s> {
    ghost use Rattle.chord_machine.specs.Chord.{chord};
    ghost use Rattle.chord_machine.specs.Pieces.{IsKnownPiece};
    ghost use Rattle.chord_machine.specs.Room.{HasRoom};
    ghost use Rattle.chord_machine.specs.Sound.{IsStateOf};
    ghost use Rattle.chord_machine.proofs.Simulable.{is_simulable};
    ghost use Rattle.chord_ops.specs.Sound.{IsSoundEvent};
    ghost use Rattle.chord_scenario.specs.Range.{IsInRange};

    type State = NodeState;

    type Body = Body;

    type Piece = Piece;

    ghost model = { λ ring. chord ring.scenario.now };

    ghost Valid = { λ ring. IsInRange ring.scenario.now };

    ghost Sound = { λ ring n s. IsStateOf ring.scenario.now n s };

    ghost Fit = { λ ring e. IsSoundEvent ring.scenario.now e };

    ghost Known = { λ ring p. IsKnownPiece ring.scenario.now p };

    ghost Room = { λ _ s. HasRoom s };

    fn recall(&self) {
        self.scenario.recall_range();
    }

    fn nodes(&self) -> u32 {
        self.scenario.nodes()
    }

    fn duration(&self) -> u64 {
        self.scenario.duration()
    }

    fn max_events(&self) -> u64 {
        self.scenario.max_events()
    }

    fn lookahead(&self) -> u64 {
        self.scenario.window()
    }

    fn start_states(&self, alloc: Global) -> Result<Vec<NodeState>, Memory> {
        self.scenario.recall_range();
        let states = initial_ring(alloc, self.scenario)?;
        Ok(states)
    }

    fn start_events(&self, alloc: Global) -> Result<Vec<Event>, Memory> {
        self.scenario.recall_range();
        self.scenario.start_events(alloc)
    }

    #[inline(always)]
    fn act(
        &self,
        alloc: Global,
        state: &mut NodeState,
        event: &Event,
        made: &mut Vec<Event>,
    ) -> Result<Piece, Memory> {
        self.scenario.recall_range();
        let mut actor = Actor::new(alloc, mem::replace(state, NodeState::never_up(alloc, 0)));
        let block = actor.act(alloc, self.scenario, event, made)?;
        // What stood in the state's place has no memory to free.
        mem::forget(mem::replace(state, actor.into_state()));
        Ok(Piece::OfEvent { block })
    }

    fn audit_times(&self, alloc: Global) -> Result<Vec<u64>, Memory> {
        audit_times(alloc, self.scenario)
    }

    fn audit<V: States<NodeState>>(
        &self,
        alloc: Global,
        states: &V,
        time: u64,
    ) -> Result<Piece, Memory> {
        let audit = audit_states(alloc, self.scenario, states, time)?;
        Ok(Piece::OfAudit { audit })
    }

    ghost simulable = { λ ring ranges. is_simulable ring.scenario.now ranges };
}

impl<'s> RingMachine for ChordRing<'s> {
    ghost scenario_of = { λ ring. ring.scenario.now };

    fn scenario(&self) -> &Scenario {
        self.scenario
    }

    ghost known = { λ ring piece known. known };
}

impl<'s> CopiesStates for ChordRing<'s> {
    fn copy_state(&self, state: &NodeState) -> Result<NodeState, Memory> {
        state.clone_state()
    }
}
