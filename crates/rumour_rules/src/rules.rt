//! What a node makes of the rumour.
ghost use Rattle.std.specs.Prelude.{◌≡◌, ◌+◌, ◌<◌, ◌≤◌, ◌^◌, ◌∷◌, [], false, replicate, IfOk, OnOk};
ghost use Rattle.rumour_rules.specs.Range.{IsInRange};
ghost use Rattle.rumour_rules.specs.Rules.{first_telling, outcome_of};

use crate::settings::Settings;
use des_event::{Brief, Memory, Short};
use des_protocol::Teller;
use std::alloc::Global;

/// What a node knows: whether it has heard the rumour.
#[derive(Clone, Copy, Drop)]
pub struct Node {
    pub heard: bool,
}

/// What a node is told.
#[derive(Clone, Copy, Drop)]
pub struct Rumour {}

/// All rumours are alike, so one short form is enough.
impl Brief for Rumour {
    ghost long = { λ _. record {} };

    fn shorten(&self) -> Option<Short> {
        Some(Short { kind: 0, number: 0 })
    }

    fn lengthen(_short: Short) -> Rumour {
        Rumour {}
    }
}

/// What a telling leaves in the trace: a node was told at a time in microseconds, for the first time or
/// again.
#[derive(Clone, Copy, Drop)]
pub struct Told {
    pub time: u64,
    pub node: u32,
    pub first: bool,
}

/// The states of all nodes at the start: none has heard the rumour.
pub fn start_states(alloc: Global, settings: &Settings) -> Result<Vec<Node>, Memory>
    ensures { IfOk result (λ states. states.items ≡ replicate settings.now.nodes (record { heard = false })) }
{
    let unaware = Node { heard: false };
    let states = vec![in alloc; unaware; settings.nodes as usize]?;
    Ok(states)
}

/// Tells node 0 the rumour, at time 1.
pub fn start(teller: &mut Teller<Rumour>) -> Result<(), Memory>
    requires time { teller.old.time ≡ 0 }
    requires made { teller.old.made ≡ 0 }
    requires none { teller.old.told ≡ [] }
    ensures { OnOk result (teller.new ≡ record teller.old { told = first_telling ∷ [] }) }
{
    teller.tell(1, 0, Rumour {})
}

/// Lets a node hear the rumour: the first time it tells two nodes, later it says nothing.
pub fn hear(
    settings: &Settings,
    node: u32,
    state: &mut Node,
    teller: &mut Teller<Rumour>,
) -> Result<Told, Memory>
    requires range { IsInRange settings.now }
    requires node { node < settings.now.nodes }
    requires time { teller.old.time < settings.now.duration }
    requires none { teller.old.told ≡ [] }
    requires room { teller.old.made + 2 < 2 ^ 64 }
    ensures state { OnOk result (state.new ≡ (outcome_of settings.now state.old node teller.old.time).state) }
    ensures told { OnOk result (teller.new ≡ record teller.old { told = (outcome_of settings.now state.old node teller.old.time).tellings }) }
    ensures piece { IfOk result (λ piece. piece ≡ (outcome_of settings.now state.old node teller.old.time).piece) }
{
    let piece = Told {
        time: teller.time(),
        node,
        first: !state.heard,
    };
    if !state.heard {
        teller.tell(settings.delay, (2 * node + 1) % settings.nodes, Rumour {})?;
        teller.tell(settings.delay, (2 * node + 2) % settings.nodes, Rumour {})?;
        state.heard = true;
    }
    Ok(piece)
}
