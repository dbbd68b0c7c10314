//! A world that can be simulated.
use crate::states::States;
use des_event::{Brief, Event, Memory};
use std::alloc::Global;

/// A world of numbered nodes. Each node has a state, and acts on its events one at a time: an event
/// changes the state of its target alone, makes further events, and leaves a piece of the trace.
///
/// Times are in microseconds. An event comes before another by its key: by its time, then by its
/// origin, then by its number. Node `n` makes events of origin `2 + n`, numbered upwards. Origins 0 and
/// 1 are for the events at the start.
pub trait Machine {
    ghost use Rattle.std.specs.Prelude.{◌≡◌, ◌<◌, ◌≤◌, ℕ, List, [], length, IfOk, OnOk};
    ghost use Rattle.des_event.specs.declared.event.Event.{Event as AnEvent};
    ghost use Rattle.des_machine.specs.Simulable.{AreStates, AreSound, IsSimulable};
    ghost use Rattle.des_model.specs.Machine.{Machine as AMachine};
    ghost use Rattle.des_model.specs.Worlds.{AreStatesAfter};

    /// What a node knows.
    type State: Drop;

    /// What an event asks of its target.
    type Body: Brief + Drop;

    /// What an event or an audit leaves in the trace.
    type Piece: Drop;

    // The machine as definitions and laws see it.
    ghost model: { Self → AMachine Self.State Self.Body Self.Piece };

    // What holds of the machine itself, of each state of a node, of each event and of each piece.
    ghost Valid: { Self → Type 0 };

    ghost Sound: { Self → ℕ → Self.State → Type 0 };

    ghost Fit: { Self → AnEvent Self.Body → Type 0 };

    ghost Known: { Self → Self.Piece → Type 0 };

    // The counters of a state are not too large for one event more.
    ghost Room: { Self → Self.State → Type 0 };

    /// Hands the prover what holds of the machine. It does nothing else.
    fn recall(&self)
        ensures { Valid self.now };

    /// The number of nodes.
    fn nodes(&self) -> u32
        ensures { result ≡ (model self.now).nodes };

    /// The end of a run: only events before it are taken.
    fn duration(&self) -> u64
        ensures { result ≡ (model self.now).duration };

    /// The most events of a run.
    fn max_events(&self) -> u64
        ensures { result ≡ (model self.now).max_events };

    /// The least delay of an event that one node makes for another.
    fn lookahead(&self) -> u64
        ensures { result ≡ (model self.now).lookahead };

    /// The states of all nodes at the start, by node.
    fn start_states(&self, alloc: Global) -> Result<Vec<Self::State>, Memory>
        ensures { IfOk result (λ states. AreStatesAfter (model self.now) [] states.items) };

    /// The events at the start.
    fn start_events(&self, alloc: Global) -> Result<Vec<Event<Self::Body>>, Memory>
        ensures { IfOk result (λ events. events.items ≡ (model self.now).start_events) };

    /// Lets the target of an event act on it. The events that it makes go into `made`, which is empty
    /// and may have room. After an error the state is not read again.
    fn act(
        &self,
        alloc: Global,
        state: &mut Self::State,
        event: &Event<Self::Body>,
        made: &mut Vec<Event<Self::Body>>,
    ) -> Result<Self::Piece, Memory>
        requires sound { Sound self.now event.now.target state.old }
        requires fit { Fit self.now event.now }
        requires room { Room self.now state.old }
        requires in_time { event.now.key.time < (model self.now).duration }
        requires empty { made.old.items ≡ [] }
        ensures state { OnOk result (state.new ≡ ((model self.now).effect state.old event.now).state) }
        ensures events { OnOk result (made.new.items ≡ ((model self.now).effect state.old event.now).events) }
        ensures piece { IfOk result (λ piece. piece ≡ ((model self.now).effect state.old event.now).piece) }
        ensures known { IfOk result (Known self.now) };

    /// Reads a number or two of a state, since an event comes to its node soon: its memory is in a cache
    /// by then. What it returns has no meaning. Every machine may leave it out.
    fn fetch_state(&self, _state: &Self::State) -> u64 {
        0
    }

    /// As `fetch_state`, of what a state refers to, such as its lists. It is called some events later.
    fn fetch_lists(&self, _state: &Self::State) -> u64 {
        0
    }

    /// The times of the audits, in order. A machine without audits has none.
    fn audit_times(&self, alloc: Global) -> Result<Vec<u64>, Memory>
        ensures { IfOk result (λ times. times.items ≡ (model self.now).audit_times) };

    /// The audit of all nodes at a time.
    fn audit<V: States<Self::State>>(
        &self,
        alloc: Global,
        states: &V,
        time: u64,
    ) -> Result<Self::Piece, Memory>
        requires sound { AreSound (model self.now) (Sound self.now) (V.list states.now) }
        ensures piece { IfOk result (λ piece. (account : ℕ → Self.State) → AreStates (model self.now) (V.list states.now) account → piece ≡ (model self.now).audit time account) }
        ensures known { IfOk result (Known self.now) };

    // The laws of runs hold for it.
    ghost simulable: { (m : Self) → Valid m → IsSimulable (model m) (Sound m) (Fit m) (Room m) };
}
