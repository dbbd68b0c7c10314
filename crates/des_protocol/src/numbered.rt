//! Protocols as machines.
ghost use Rattle.std.specs.Prelude.{◌≡◌, map, IfOk};
ghost use Rattle.des_protocol.specs.Numbered.{uncounted};

use crate::protocol::Protocol;
use crate::teller::Teller;
use des_event::{Event, Memory};
use des_machine::{Machine, States};
use std::alloc::Global;
use std::mem;

/// A protocol as a machine: it gives each telling a key, and counts them.
#[derive(Clone, Copy, Drop)]
pub struct Numbered<P> {
    pub protocol: P,
}

/// The state of a node, and how many events the node has made.
#[derive(Clone, Copy, Drop)]
pub struct Counted<T> {
    pub state: T,
    pub made: u64,
}

/// The states of nodes that have made no events.
fn uncounted<T: Drop>(alloc: Global, states: Vec<T>) -> Result<Vec<Counted<T>>, Memory>
    ensures { IfOk result (λ counted. counted.items ≡ map uncounted states.items) }
{
    let mut counted = Vec::with_capacity(alloc, states.len())?;
    for state in states {
        counted.push(Counted { state, made: 0 })?;
    }
    Ok(counted)
}

impl<P: Protocol> Machine for Numbered<P> {
    ghost use Rattle.std.specs.Prelude.{◌+◌, ◌<◌, ◌^◌};
    ghost use Rattle.des_protocol.specs.Numbered.{numbered};
    ghost use Rattle.des_protocol.specs.Simulable.{is_simulable};

    type State = Counted<P::State>;

    type Body = P::Body;

    type Piece = P::Piece;

    ghost model = { λ m. numbered (P.rules m.protocol) };

    ghost Valid = { λ m. P.Valid m.protocol };

    ghost Sound = { λ m n s. P.Sound m.protocol n s.state };

    ghost Fit = { λ m e. (e.target < (P.rules m.protocol).nodes) × P.Fit m.protocol e.target e.body };

    ghost Known = { λ m p. P.Known m.protocol p };

    ghost Room = { λ m s. s.made + P.most m.protocol < 2 ^ 64 };

    fn recall(&self) {
        self.protocol.recall();
    }

    fn nodes(&self) -> u32 {
        self.protocol.nodes()
    }

    fn duration(&self) -> u64 {
        self.protocol.duration()
    }

    fn max_events(&self) -> u64 {
        self.protocol.max_events()
    }

    fn lookahead(&self) -> u64 {
        self.protocol.lookahead()
    }

    fn start_states(&self, alloc: Global) -> Result<Vec<Counted<P::State>>, Memory> {
        let states = self.protocol.start_states(alloc)?;
        let counted = uncounted(alloc, states)?;
        Ok(counted)
    }

    fn start_events(&self, alloc: Global) -> Result<Vec<Event<P::Body>>, Memory> {
        let mut teller = Teller::new(0, 1, 0, Vec::new(alloc));
        self.protocol.start(&mut teller)?;
        Ok(teller.into_events())
    }

    #[inline(always)]
    fn act(
        &self,
        alloc: Global,
        state: &mut Counted<P::State>,
        event: &Event<P::Body>,
        made: &mut Vec<Event<P::Body>>,
    ) -> Result<P::Piece, Memory> {
        self.protocol.recall();
        let room = mem::replace(made, Vec::new(alloc));
        let mut teller = Teller::new(event.key.time, 2 + event.target, state.made, room);
        let piece = self.protocol.act(
            alloc,
            event.target,
            &mut state.state,
            &event.body,
            &mut teller,
        )?;
        state.made = teller.made();
        // What stood in its place has no memory to free.
        mem::forget(mem::replace(made, teller.into_events()));
        Ok(piece)
    }

    fn audit_times(&self, alloc: Global) -> Result<Vec<u64>, Memory> {
        self.protocol.audit_times(alloc)
    }

    fn audit<V: States<Counted<P::State>>>(
        &self,
        alloc: Global,
        states: &V,
        time: u64,
    ) -> Result<P::Piece, Memory> {
        self.protocol.audit(alloc, states, time)
    }

    ghost simulable = { λ m valid. is_simulable (P.rules m.protocol) (P.Sound m.protocol) (P.Fit m.protocol) (P.most m.protocol) (P.runnable m.protocol valid) };
}
