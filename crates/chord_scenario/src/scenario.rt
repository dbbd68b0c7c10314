//! Scenarios, as a run reads them.
ghost use Rattle.std.specs.Prelude.{◌≡◌, ◌<◌, ◌^◌, length, slice_get, Some};
ghost use Rattle.chord_circle.specs.Circle.{leading};
ghost use Rattle.chord_scenario.specs.Order.{AreInOrder, AreRanks};
ghost use Rattle.chord_scenario.specs.Range.{IsInRange};
ghost use Rattle.chord_scenario.specs.World.{node_count, name_of, ident_of, is_initial, is_churn_node, latency, latency_by_place};

use crate::latency::cell_at;
use crate::order::{KeptOrder, Order};
use crate::setting::{Churn, Command, Coordinates, Jitters, Node, Rules, Span};
use chord_circle::{Circle, Ident};
use std::marker::Model;

/// The number of the extended profile.
pub const EXTENDED_PROFILE: u32 = 4;

/// A scenario that the file format allows, with all that a run of it needs. Contracts see it as
/// what it sets; times are in microseconds.
#[derive(Drop)]
pub struct Scenario {
    pub(crate) profile: u32,
    pub(crate) circle: Circle,
    pub(crate) list: u32,
    pub(crate) seed: u64,
    pub(crate) duration: u64,
    pub(crate) window: u64,
    pub(crate) latency: u64,
    pub(crate) timeout: u64,
    pub(crate) audit: u64,
    pub(crate) stabilize: u64,
    pub(crate) finger: u64,
    pub(crate) jitter: u64,
    pub(crate) max_events: u64,
    pub(crate) loss: u64,
    pub(crate) spread: u64,
    pub(crate) retries: u64,
    pub(crate) join_pause: u64,
    pub(crate) join_forever: bool,
    pub(crate) check: u64,
    pub(crate) detail: bool,
    pub(crate) rules: Rules,
    pub(crate) jitters: Jitters,
    pub(crate) churn: Option<Churn>,
    pub(crate) lookups: Option<Span>,
    pub(crate) nodes: Vec<Node>,
    pub(crate) bootstraps: Vec<u32>,
    /// The nodes in the order of their identifiers.
    pub(crate) order: KeptOrder,
    /// The leading bits of the identifier of each node in turn.
    pub(crate) leading: Vec<u32>,
    pub(crate) commands: Vec<Command>,
    /// For each node in turn its latency to each node, and 0 if no row names the two. Empty if
    /// there are no rows.
    pub(crate) latencies: Vec<u32>,
    /// The coordinates of each node in turn. Empty if the nodes have none.
    pub(crate) coordinates: Vec<Coordinates>,
}

impl Model for Scenario {
    ghost use Rattle.chord_scenario.specs.Inside.{setup_of, IsKept};
    ghost use Rattle.chord_scenario.specs.Setup.{Setup};

    ghost Value = { Setup };

    ghost view = { λ s. setup_of s };

    ghost invariant = { λ s. IsKept s };
}

impl Scenario {
    /// All numbers of a scenario are in range.
    pub fn recall_range(&self)
        ensures { IsInRange self.now }
    {
        // A no-op for the machine: it hands the prover what the type keeps.
        let _ = &self.circle;
    }

    /// The profile: 1 is a lossless network with fixed latencies, 2 adds loss and delay, and 4, the
    /// extended profile, adds requests that are sent again, pauses of joins, checks of
    /// predecessors, coordinates, detail, and draws that do not depend on earlier ones.
    pub fn profile(&self) -> u32
        ensures { result ≡ self.now.profile }
    {
        self.profile
    }

    /// The circle of the identifiers.
    pub fn circle(&self) -> Circle
        ensures { result ≡ self.now.bits }
    {
        self.circle
    }

    /// The most entries of a successor list.
    pub fn list(&self) -> u32
        ensures { result ≡ self.now.list }
    {
        self.list
    }

    /// The seed of all random words.
    pub fn seed(&self) -> u64
        ensures { result ≡ self.now.seed }
    {
        self.seed
    }

    /// How long a run lasts, in microseconds.
    pub fn duration(&self) -> u64
        ensures { result ≡ self.now.duration }
    {
        self.duration
    }

    /// The greatest length of a window, in microseconds. No message between different nodes takes
    /// less.
    pub fn window(&self) -> u64
        ensures { result ≡ self.now.window }
    {
        self.window
    }

    /// The latency between two nodes that no row names, in microseconds. It has its unit in its
    /// name because `latency` is the function of two nodes.
    pub fn latency_us(&self) -> u64
        ensures { result ≡ self.now.latency }
    {
        self.latency
    }

    /// How long a node waits for the reply to a request, in microseconds.
    pub fn timeout(&self) -> u64
        ensures { result ≡ self.now.timeout }
    {
        self.timeout
    }

    /// The time from one audit to the next, in microseconds.
    pub fn audit(&self) -> u64
        ensures { result ≡ self.now.audit }
    {
        self.audit
    }

    /// The time from one stabilization of a node to its next in microseconds, without the jitter.
    pub fn stabilize(&self) -> u64
        ensures { result ≡ self.now.stabilize }
    {
        self.stabilize
    }

    /// The time from one finger lookup of a node to its next in microseconds, without the jitter.
    pub fn finger(&self) -> u64
        ensures { result ≡ self.now.finger }
    {
        self.finger
    }

    /// How much later than its period a timer may come, in microseconds, unless the timer has a
    /// jitter of its own.
    pub fn jitter(&self) -> u64
        ensures { result ≡ self.now.jitter }
    {
        self.jitter
    }

    /// The most events that a run may have.
    pub fn max_events(&self) -> u64
        ensures { result ≡ self.now.max_events }
    {
        self.max_events
    }

    /// The chance, in millionths, that a message between different nodes is lost: 0 in the first
    /// profile.
    pub fn loss(&self) -> u64
        ensures { result ≡ self.now.loss }
    {
        self.loss
    }

    /// How much longer than its latency a message between different nodes may take, in
    /// microseconds: 0 in the first profile.
    pub fn spread(&self) -> u64
        ensures { result ≡ self.now.spread }
    {
        self.spread
    }

    /// How often a request without a reply in time is sent again: 0 in the first two profiles.
    pub fn retries(&self) -> u64
        ensures { result ≡ self.now.retries }
    {
        self.retries
    }

    /// How long a node waits after a failed attempt to join before the next, in microseconds: 0 in
    /// the first two profiles.
    pub fn join_pause(&self) -> u64
        ensures { result ≡ self.now.join_pause }
    {
        self.join_pause
    }

    /// Whether a node goes on joining after its last failure, in place of going down: not in the
    /// first two profiles.
    pub fn join_forever(&self) -> bool
        ensures { result ≡ self.now.join_forever }
    {
        self.join_forever
    }

    /// The time from one check of a node's predecessor to the next in microseconds, without the
    /// jitter, and 0 if there are none: 0 in the first two profiles.
    pub fn check(&self) -> u64
        ensures { result ≡ self.now.check }
    {
        self.check
    }

    /// Whether the messages that are made leave lines: not in the first two profiles.
    pub fn detail(&self) -> bool
        ensures { result ≡ self.now.detail }
    {
        self.detail
    }

    /// Which rules of published Chord the nodes follow: none in the first two profiles.
    pub fn rules(&self) -> Rules
        ensures { result ≡ self.now.rules }
    {
        self.rules
    }

    /// How much later than its period each timer may come: all the same in the first two profiles.
    pub fn jitters(&self) -> Jitters
        ensures { result ≡ self.now.jitters }
    {
        self.jitters
    }

    /// How long churn nodes live and stay down and how many leave, if the scenario says so.
    pub fn churn_times(&self) -> Option<Churn>
        ensures { result ≡ self.now.churn }
    {
        self.churn
    }

    /// How long a node waits between its generated lookups, if the scenario has these.
    pub fn lookups(&self) -> Option<Span>
        ensures { result ≡ self.now.lookups }
    {
        self.lookups
    }

    /// The number of nodes.
    pub fn nodes(&self) -> u32
        ensures { result ≡ node_count self.now }
    {
        self.nodes.len() as u32
    }

    /// The name of a node.
    #[tactic(auto, unfolding(crate::specs::World::name_of))]
    pub fn name(&self, node: u32) -> &str
        requires { node < node_count self.now }
        ensures { result.now ≡ name_of self.now node }
    {
        self.nodes[node as usize].name.as_str()
    }

    /// The place of a node on the circle.
    pub fn ident(&self, node: u32) -> Ident
        requires { node < node_count self.now }
        ensures value { result ≡ ident_of self.now node }
        ensures on_circle { result < 2 ^ self.now.bits }
    {
        self.recall_range();
        self.place_of(node)
    }

    /// The first 32 bits of the identifier of a node, and 0 on a circle with fewer bits. Those of
    /// all nodes lie close together in memory, so a search that they decide is fast.
    #[tactic(auto, unfolding(crate::specs::World::ident_of))]
    pub fn leading(&self, node: u32) -> u32
        requires { node < node_count self.now }
        ensures { result ≡ leading self.now.bits (ident_of self.now node) }
    {
        self.leading[node as usize]
    }

    #[tactic(auto, unfolding(crate::specs::World::ident_of))]
    fn place_of(&self, node: u32) -> Ident
        requires { node < node_count self.now }
        ensures { result ≡ ident_of self.now node }
    {
        self.nodes[node as usize].ident
    }

    /// Whether a node is a member of the ring at the start.
    #[tactic(auto, unfolding(crate::specs::World::is_initial))]
    pub fn initial(&self, node: u32) -> bool
        requires { node < node_count self.now }
        ensures { result ≡ is_initial self.now node }
    {
        self.nodes[node as usize].initial
    }

    /// Whether a node goes down and rises by itself.
    #[tactic(auto, unfolding(crate::specs::World::is_churn_node))]
    pub fn churn(&self, node: u32) -> bool
        requires { node < node_count self.now }
        ensures { result ≡ is_churn_node self.now node }
    {
        self.nodes[node as usize].churn
    }

    /// The bootstrap nodes, those that joining nodes try in turn, in the order of the file: none in
    /// the first two profiles.
    pub fn bootstraps(&self) -> &[u32]
        ensures { result.now ≡ self.now.bootstraps }
    {
        self.bootstraps.as_slice()
    }

    /// The nodes in the order of their identifiers, and their ranks in it.
    pub fn order(&self) -> Order<'_>
        ensures ranks { AreRanks self.now result.ranks.now }
        ensures nodes { AreInOrder result.ranks.now result.nodes.now }
    {
        Order {
            nodes: self.order.nodes.as_slice(),
            ranks: self.order.ranks.as_slice(),
        }
    }

    /// The number of commands, as the length of their list.
    pub fn commands(&self) -> usize
        ensures { result ≡ length self.now.commands }
    {
        self.commands.len()
    }

    /// A command, counted from 0 in the order of the file.
    pub fn command(&self, place: usize) -> Command
        requires { place < length self.now.commands }
        ensures { slice_get self.now.commands place ≡ Some result }
    {
        self.commands[place]
    }

    /// The latency by the coordinates of two nodes in microseconds, if nodes have them.
    fn latency_by_place(&self, from: u32, to: u32) -> Option<u64>
        ensures { result ≡ latency_by_place self.now from to }
    {
        self.recall_range();
        let Some(here) = self.coordinates.get(from as usize) else {
            return None;
        };
        let Some(there) = self.coordinates.get(to as usize) else {
            return None;
        };
        Some(here.latency_to(*there))
    }

    /// The latency of a message from one node to another in microseconds: 1 to the node itself.
    #[tactic(auto, unfolding(crate::specs::World::latency))]
    pub fn latency(&self, from: u32, to: u32) -> u64
        requires from { from < node_count self.now }
        requires to { to < node_count self.now }
        ensures { result ≡ latency self.now from to }
    {
        if from == to {
            return 1;
        }
        if let Some(latency) = self.latency_by_place(from, to) {
            return latency;
        }
        let given = cell_at(
            self.latencies.as_slice(),
            self.nodes.len(),
            from as usize,
            to as usize,
        );
        if given == 0 {
            self.latency
        } else {
            u64::from(given)
        }
    }
}
