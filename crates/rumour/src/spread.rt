//! The rumour as a protocol of the simulation kernel.
ghost use Rattle.std.specs.Prelude.{◌≡◌, None, IfSome};
ghost use Rattle.rumour_rules.specs.Range.{IsInRange};

use des_event::Memory;
use des_machine::States;
use des_protocol::{Counted, Protocol, Teller};
use rumour_rules::{Node, Rumour, Settings, Told, hear, start, start_states};
use std::alloc::Global;
use std::marker::Model;

/// A run of the rumour: settings in their ranges. Contracts see the settings.
#[derive(Drop)]
pub struct Spread {
    settings: Settings,
}

impl Model for Spread {
    ghost use Rattle.rumour_rules.specs.declared.settings.Settings.{Settings};
    ghost use Rattle.rumour_rules.specs.Range.{IsInRange};

    ghost Value = { Settings };

    ghost view = { λ s. s.settings };

    ghost invariant = { λ s. IsInRange s.settings };
}

impl Spread {
    /// The run of these settings, or `None` if a number is out of its range.
    pub fn new(settings: Settings) -> Option<Spread>
        ensures same { IfSome result (λ spread. spread ≡ settings) }
        ensures refused { result ≡ None → IsInRange settings → ⊥ }
    {
        if settings.are_in_range() {
            Some(Spread { settings })
        } else {
            None
        }
    }

    /// The settings, which are in their ranges.
    pub fn settings(&self) -> Settings
        ensures same { result ≡ self.now }
        ensures range { IsInRange self.now }
    {
        self.settings
    }
}

impl Protocol for Spread {
    ghost use Rattle.std.specs.Prelude.{⊤};
    ghost use Rattle.rumour_rules.specs.Range.{IsInRange};
    ghost use Rattle.rumour_rules.specs.Rules.{rumour};
    ghost use Rattle.rumour_rules.specs.Sound.{IsFit, IsSound};
    ghost use Rattle.rumour_rules.proofs.Runnable.{is_runnable};

    type State = Node;

    type Body = Rumour;

    type Piece = Told;

    ghost rules = { λ p. rumour p };

    ghost Valid = { λ p. IsInRange p };

    ghost Sound = { λ _ n s. IsSound n s };

    ghost Fit = { λ _ n body. IsFit n body };

    ghost Known = { λ _ _. ⊤ };

    ghost most = { λ _. 2 };

    fn recall(&self) {
        let _ = self.settings();
    }

    fn nodes(&self) -> u32 {
        self.settings().nodes
    }

    fn duration(&self) -> u64 {
        self.settings().duration
    }

    fn max_events(&self) -> u64 {
        self.settings().max_events
    }

    fn lookahead(&self) -> u64 {
        self.settings().delay
    }

    fn start_states(&self, alloc: Global) -> Result<Vec<Node>, Memory> {
        start_states(alloc, &self.settings())
    }

    fn start(&self, teller: &mut Teller<Rumour>) -> Result<(), Memory> {
        start(teller)
    }

    fn act(
        &self,
        _alloc: Global,
        node: u32,
        state: &mut Node,
        _body: &Rumour,
        teller: &mut Teller<Rumour>,
    ) -> Result<Told, Memory> {
        hear(&self.settings(), node, state, teller)
    }

    fn audit_times(&self, alloc: Global) -> Result<Vec<u64>, Memory> {
        Ok(Vec::new(alloc))
    }

    // There are no audits, so no engine asks for one.
    fn audit<V: States<Counted<Node>>>(
        &self,
        _alloc: Global,
        _states: &V,
        time: u64,
    ) -> Result<Told, Memory> {
        Ok(Told {
            time,
            node: 0,
            first: false,
        })
    }

    ghost runnable = { λ p range. is_runnable p range };
}
