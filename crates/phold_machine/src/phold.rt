//! PHOLD as a machine of the simulation kernel.
ghost use Rattle.std.specs.Prelude.{◌≡◌, None, IfSome};
ghost use Rattle.phold_rules.specs.Range.{IsInRange};

use des_event::{Event, Memory};
use des_machine::{Machine, States};
use phold_rules::{Hop, Job, Node, Settings, send_on, start_events, start_states};
use std::alloc::Global;
use std::marker::Model;

/// A run of PHOLD: settings in their ranges. Contracts see the settings.
#[derive(Drop)]
pub struct Phold {
    settings: Settings,
}

impl Model for Phold {
    ghost use Rattle.phold_rules.specs.declared.settings.Settings.{Settings};
    ghost use Rattle.phold_rules.specs.Range.{IsInRange};

    ghost Value = { Settings };

    ghost view = { λ p. p.settings };

    ghost invariant = { λ p. IsInRange p.settings };
}

impl Phold {
    /// The run of these settings, or `None` if a number is out of its range.
    pub fn new(settings: Settings) -> Option<Phold>
        ensures same { IfSome result (λ phold. phold ≡ settings) }
        ensures refused { result ≡ None → IsInRange settings → ⊥ }
    {
        if settings.are_in_range() {
            Some(Phold { settings })
        } else {
            None
        }
    }

    /// The settings, which are in their ranges.
    pub fn settings(&self) -> Settings
        ensures same { result ≡ self.now }
        ensures range { IsInRange self.now }
    {
        self.settings
    }
}

impl Machine for Phold {
    ghost use Rattle.std.specs.Prelude.{⊤};
    ghost use Rattle.phold_rules.specs.Range.{IsInRange};
    ghost use Rattle.phold_rules.specs.Rules.{phold};
    ghost use Rattle.phold_rules.specs.Sound.{HasRoom, IsFit, IsSound};
    ghost use Rattle.phold_rules.proofs.Simulable.{is_simulable};

    type State = Node;

    type Body = Job;

    type Piece = Hop;

    ghost model = { λ p. phold p };

    ghost Valid = { λ p. IsInRange p };

    ghost Sound = { λ p n s. IsSound p n s };

    ghost Fit = { λ p e. IsFit p e };

    ghost Known = { λ _ _. ⊤ };

    ghost Room = { λ _ s. HasRoom s };

    fn recall(&self) {
        let _ = self.settings();
    }

    fn nodes(&self) -> u32 {
        self.settings().nodes
    }

    fn duration(&self) -> u64 {
        self.settings().duration
    }

    fn max_events(&self) -> u64 {
        self.settings().max_events
    }

    fn lookahead(&self) -> u64 {
        self.settings().lookahead
    }

    fn start_states(&self, alloc: Global) -> Result<Vec<Node>, Memory> {
        start_states(alloc, &self.settings())
    }

    fn start_events(&self, alloc: Global) -> Result<Vec<Event<Job>>, Memory> {
        start_events(alloc, &self.settings())
    }

    fn act(
        &self,
        _alloc: Global,
        node: &mut Node,
        event: &Event<Job>,
        made: &mut Vec<Event<Job>>,
    ) -> Result<Hop, Memory> {
        send_on(&self.settings(), node, event, made)
    }

    fn fetch_state(&self, node: &Node) -> u64 {
        node.made
    }

    fn audit_times(&self, alloc: Global) -> Result<Vec<u64>, Memory> {
        Ok(Vec::new(alloc))
    }

    // PHOLD has no audits, so no engine asks for one.
    fn audit<V: States<Node>>(&self, _alloc: Global, _nodes: &V, time: u64) -> Result<Hop, Memory> {
        Ok(Hop {
            time,
            node: 0,
            receiver: 0,
        })
    }

    ghost simulable = { λ p range. is_simulable p range };
}
