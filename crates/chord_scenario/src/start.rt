//! The events that a run starts with.
ghost use Rattle.std.specs.Prelude.{◌≡◌, ◌+◌, ◌<◌, ◌^◌, ◌++◌, [], ◌∷◌, map, option_map, IfOk, IfSome, OnOk};
ghost use Rattle.std.specs.List.{enumerate_from};
ghost use Rattle.chord_scenario.specs.Range.{IsSpanUpTo};
ghost use Rattle.chord_scenario.specs.Start.{check_timer, command_body, command_event, first_span, jittered, most_timers, timer_event, first_timers, start_events};
ghost use Rattle.chord_scenario.specs.World.{node_count};

use crate::draw::Drawer;
use crate::scenario::Scenario;
use crate::setting::{Action, Command, Span};
use chord_event::{Body, Event, Key, Memory};
use std::alloc::Global;

/// What a command asks of its node, as the body of an event.
fn command_body(action: Action) -> Body
    ensures { result ≡ command_body action }
{
    match action {
        Action::Join { via } => Body::CmdJoin { via },
        Action::Crash => Body::CmdCrash,
        Action::Leave => Body::CmdLeave,
        Action::Lookup { key } => Body::CmdLookup { key },
    }
}

/// The command of this number as an event.
fn command_event(number: u64, command: &Command) -> Event
    ensures { result ≡ command_event number command.now }
{
    Event {
        key: Key {
            time: command.at,
            origin: 1,
            number,
        },
        target: command.node,
        body: command_body(command.action),
    }
}

/// A span from a period to the period plus a jitter, in microseconds.
fn jittered(period: u64, jitter: u64) -> Span
    requires period { period < 2 ^ 32 }
    requires jitter { jitter < 2 ^ 32 }
    ensures { result ≡ jittered period jitter }
{
    Span {
        least: period,
        greatest: period + jitter,
    }
}

/// Adds the commands, numbered from 1.
fn push_commands(events: &mut Vec<Event>, commands: &[Command]) -> Result<(), Memory>
    ensures { OnOk result (events.new.items ≡ events.old.items ++ map (λ p. command_event p.0 p.1) (enumerate_from 1 commands.now)) }
{
    for (i, command) in commands.iter().enumerate() {
        events.push(command_event(i as u64 + 1, command))?;
    }
    Ok(())
}

impl Scenario {
    /// The span of the timer to stabilize, in microseconds.
    pub fn stabilize_span(&self) -> Span
        ensures value { result ≡ jittered self.now.stabilize self.now.jitters.stabilize }
        ensures is { IsSpanUpTo 2000000000 result }
    {
        self.recall_range();
        jittered(self.stabilize(), self.jitters().stabilize)
    }

    /// The span of the timer to look up a finger, in microseconds.
    pub fn finger_span(&self) -> Span
        ensures value { result ≡ jittered self.now.finger self.now.jitters.finger }
        ensures is { IsSpanUpTo 2000000000 result }
    {
        self.recall_range();
        jittered(self.finger(), self.jitters().finger)
    }

    /// The span of the timer to check the predecessor, in microseconds, if the scenario has checks.
    pub fn check_span(&self) -> Option<Span>
        ensures value { result ≡ option_map (λ timer. timer.0) (check_timer self.now 0) }
        ensures is { IfSome result (IsSpanUpTo 2000000000) }
    {
        self.recall_range();
        if self.check() == 0 {
            None
        } else {
            Some(jittered(self.check(), self.jitters().check))
        }
    }

    /// The span of a node's first timer of a kind, in microseconds.
    #[tactic(auto, unfolding(crate::specs::Start::first_span))]
    pub fn first_span(&self, span: Span) -> Span
        requires { IsSpanUpTo 2000000000 span }
        ensures value { result ≡ first_span self.now span }
        ensures is { IsSpanUpTo 2000000000 result }
    {
        if self.rules().random_start {
            Span {
                least: 1,
                greatest: span.greatest,
            }
        } else {
            span
        }
    }

    /// Adds the timer at a place, from 0, among the first ones of a node.
    fn push_timer(
        &self,
        events: &mut Vec<Event>,
        node: u32,
        place: u64,
        span: Span,
        body: Body,
    ) -> Result<(), Memory>
        requires node { node < node_count self.now }
        requires place { place < most_timers }
        requires span { IsSpanUpTo 2000000000 span }
        ensures { OnOk result (events.new.items ≡ events.old.items ++ timer_event self.now node place (span, body) ∷ []) }
    {
        self.recall_range();
        let drawer = Drawer {
            node,
            place,
            time: 0,
        };
        let time = self.delay(drawer, span, &body);
        events.push(Event {
            key: Key::next_of(time, node, place),
            target: node,
            body,
        })?;
        Ok(())
    }

    /// Adds the first timers of a node.
    #[tactic(auto, unfolding(crate::specs::Start::first_timers, crate::specs::Start::timers))]
    fn push_first_timers(&self, events: &mut Vec<Event>, node: u32) -> Result<(), Memory>
        requires { node < node_count self.now }
        ensures { OnOk result (events.new.items ≡ events.old.items ++ first_timers self.now node) }
    {
        self.recall_range();
        let stabilize = self.first_span(self.stabilize_span());
        self.push_timer(events, node, 0, stabilize, Body::StabilizeTick { epoch: 1 })?;
        let finger = self.first_span(self.finger_span());
        self.push_timer(events, node, 1, finger, Body::FingerTick { epoch: 1 })?;
        let mut place = 2;
        if let Some(gap) = self.lookups() {
            let first = self.first_span(gap);
            self.push_timer(events, node, place, first, Body::TrafficTick { epoch: 1 })?;
            place += 1;
        }
        if self.churn(node) {
            if let Some(churn) = self.churn_times() {
                self.push_timer(events, node, place, churn.life, Body::LifeEnd { epoch: 1 })?;
                place += 1;
            }
        }
        if let Some(span) = self.check_span() {
            let check = self.first_span(span);
            self.push_timer(events, node, place, check, Body::CheckTick { epoch: 1 })?;
        }
        Ok(())
    }

    /// The events that a run starts with: the commands, numbered from 1 in the order of the file,
    /// and then the first timers of each node that is a member at the start. The list is a plain
    /// `Vec`, since an engine takes it apart at once.
    #[tactic(auto, unfolding(crate::specs::Start::start_events, crate::specs::Start::command_events))]
    pub fn start_events(&self, alloc: Global) -> Result<Vec<Event>, Memory>
        ensures { IfOk result (λ events. events.items ≡ start_events self.now) }
    {
        let mut events = Vec::new(alloc);
        push_commands(&mut events, self.commands.as_slice())?;
        for node in 0..self.nodes() {
            if self.initial(node) {
                self.push_first_timers(&mut events, node)?;
            }
        }
        Ok(events)
    }
}
