//! What a protocol is.
use crate::numbered::Counted;
use crate::teller::Teller;
use des_event::{Brief, Memory};
use des_machine::States;
use std::alloc::Global;

/// A protocol of numbered nodes. Each node has a state, and acts on what it is told: it changes its
/// state alone, tells others things, and leaves a piece of the trace. `Numbered` makes a machine of it.
///
/// Times are in microseconds. Of things told to nodes at one time, that of the node with the lower
/// number comes first, and of those of one node the one that it told first.
pub trait Protocol {
    ghost use Rattle.std.specs.Prelude.{◌≡◌, ◌+◌, ◌<◌, ◌≤◌, ◌^◌, ℕ, List, [], length, slice_index_or, IfOk, OnOk};
    ghost use Rattle.des_protocol.specs.Laws.{AreAccounted, AreFirst, AreSoundStates, IsRunnable};
    ghost use Rattle.des_protocol.specs.Protocols.{Protocol as AProtocol};

    /// What a node knows.
    type State: Drop;

    /// What a node is told.
    type Body: Brief + Drop;

    /// What a telling or an audit leaves in the trace.
    type Piece: Drop;

    // The protocol as definitions and laws see it.
    ghost rules: { Self → AProtocol Self.State Self.Body Self.Piece };

    // What holds of the protocol itself, of each state of a node, of all that a node is told, and of each piece.
    ghost Valid: { Self → Type 0 };

    ghost Sound: { Self → ℕ → Self.State → Type 0 };

    ghost Fit: { Self → ℕ → Self.Body → Type 0 };

    ghost Known: { Self → Self.Piece → Type 0 };

    // The most that a node tells at once.
    ghost most: { Self → ℕ };

    /// Hands the prover what holds of the protocol. It does nothing else.
    fn recall(&self)
        ensures { Valid self.now };

    /// The number of nodes.
    fn nodes(&self) -> u32
        ensures { result ≡ (rules self.now).nodes };

    /// The end of a run: only what arrives before it is taken.
    fn duration(&self) -> u64
        ensures { result ≡ (rules self.now).duration };

    /// The most events of a run.
    fn max_events(&self) -> u64
        ensures { result ≡ (rules self.now).max_events };

    /// The least delay of what one node tells another.
    fn lookahead(&self) -> u64
        ensures { result ≡ (rules self.now).lookahead };

    /// The states of all nodes at the start, by node.
    fn start_states(&self, alloc: Global) -> Result<Vec<Self::State>, Memory>
        ensures { IfOk result (λ states. AreFirst (rules self.now) states.items) };

    /// Tells nodes what they are told at the start. The teller's time is 0.
    fn start(&self, teller: &mut Teller<Self::Body>) -> Result<(), Memory>
        requires time { teller.old.time ≡ 0 }
        requires made { teller.old.made ≡ 0 }
        requires none { teller.old.told ≡ [] }
        ensures { OnOk result (teller.new ≡ record teller.old { told = (rules self.now).start }) };

    /// Lets a node act on what it is told, at the teller's time. After an error the state is not read
    /// again.
    fn act(
        &self,
        alloc: Global,
        node: u32,
        state: &mut Self::State,
        body: &Self::Body,
        teller: &mut Teller<Self::Body>,
    ) -> Result<Self::Piece, Memory>
        requires node { node < (rules self.now).nodes }
        requires sound { Sound self.now node state.old }
        requires fit { Fit self.now node body.now }
        requires in_time { teller.old.time < (rules self.now).duration }
        requires none { teller.old.told ≡ [] }
        requires room { teller.old.made + most self.now < 2 ^ 64 }
        ensures state { OnOk result (state.new ≡ ((rules self.now).outcome state.old node teller.old.time body.now).state) }
        ensures told { OnOk result (teller.new ≡ record teller.old { told = ((rules self.now).outcome state.old node teller.old.time body.now).tellings }) }
        ensures piece { IfOk result (λ piece. piece ≡ ((rules self.now).outcome state.old node teller.old.time body.now).piece) }
        ensures known { IfOk result (Known self.now) };

    /// The times of the audits, in order. A protocol without audits has none.
    fn audit_times(&self, alloc: Global) -> Result<Vec<u64>, Memory>
        ensures { IfOk result (λ times. times.items ≡ (rules self.now).audit_times) };

    /// The audit of all nodes at a time.
    fn audit<V: States<Counted<Self::State>>>(
        &self,
        alloc: Global,
        states: &V,
        time: u64,
    ) -> Result<Self::Piece, Memory>
        requires sound { AreSoundStates (rules self.now) (Sound self.now) (V.list states.now) }
        ensures piece { IfOk result (λ piece. (account : ℕ → Self.State) → AreAccounted (rules self.now) (V.list states.now) account → piece ≡ (rules self.now).audit time account) }
        ensures known { IfOk result (Known self.now) };

    // The laws of protocols hold for it.
    ghost runnable: { (p : Self) → Valid p → IsRunnable (rules p) (Sound p) (Fit p) (most p) };
}
