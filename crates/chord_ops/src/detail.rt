//! What an event tells of the messages that it has made.
ghost use Rattle.std.specs.Prelude.{◌≡◌, OnOk, ◌++◌};
ghost use Rattle.chord_ops.specs.Detail.{detailed, line_for, message_lines, request_line, seek_line};

use crate::calls::find_call;
use crate::joins::push_some;
use crate::turn::Turn;
use chord_event::{Body, Event, Line, Listed, Memory, MessageKind};
use chord_node::{Call, NodeState, Purpose};
use chord_scenario::Scenario;

/// The line of a lookup's request.
fn seek_line(state: &NodeState, kind: MessageKind, call: Call) -> Option<Line>
    ensures { result ≡ seek_line state.now kind call }
{
    match state
        .lookups
        .as_slice()
        .iter()
        .find(|lookup| lookup.call == call.number)
    {
        Some(lookup) => Some(Line::Seek {
            kind,
            receiver: call.to,
            call: call.number,
            key: lookup.key,
            since: lookup.started,
        }),
        None => None,
    }
}

/// The line of a call's request.
fn request_line(state: &NodeState, call: Call) -> Option<Line>
    ensures { result ≡ request_line state.now call call.purpose }
{
    let kind = match call.purpose {
        Purpose::Lookup => return seek_line(state, MessageKind::Step, call),
        Purpose::Owner => return seek_line(state, MessageKind::GetState, call),
        Purpose::JoinStep => MessageKind::Step,
        Purpose::JoinList | Purpose::List => MessageKind::GetList,
        Purpose::State | Purpose::JoinHead { .. } => MessageKind::GetState,
        Purpose::Check | Purpose::Ping { .. } => MessageKind::Ping,
    };
    Some(Line::Ask {
        kind,
        receiver: call.to,
        call: call.number,
    })
}

/// The line for an event that was made. A timeout stands for the request of its call.
fn line_for(state: &NodeState, target: u32, body: &Body) -> Option<Line>
    ensures { result ≡ line_for state.now target body.now }
{
    let kind = match body {
        Body::Timeout { call } => {
            return match find_call(state, *call) {
                Some(call) => request_line(state, call),
                None => None,
            };
        }
        Body::StepReply { .. } => MessageKind::StepReply,
        Body::StateReply { .. } => MessageKind::StateReply,
        Body::ListReply { .. } => MessageKind::ListReply,
        Body::Pong { .. } => MessageKind::Pong,
        Body::Notify => MessageKind::Notify,
        Body::Leave { .. } => MessageKind::Leave,
        _ => return None,
    };
    Some(Line::Send {
        kind,
        receiver: target,
    })
}

/// Adds the lines for the events that were made.
fn push_message_lines(
    lines: &mut Listed<Line>,
    state: &NodeState,
    events: &[Event],
) -> Result<(), Memory>
    ensures { OnOk result (lines.new ≡ lines.old ++ message_lines state.now events.now) }
{
    for event in events {
        push_some(lines, line_for(state, event.target, &event.body))?;
    }
    Ok(())
}

impl Turn {
    /// Tells of the messages that were made, if the scenario asks for detail.
    #[tactic(auto, unfolding(crate::specs::Detail::detailed))]
    pub fn tell(&mut self, scenario: &Scenario) -> Result<(), Memory>
        ensures { OnOk result (self.new ≡ detailed scenario.now self.old) }
    {
        if scenario.detail() {
            push_message_lines(&mut self.lines, &self.state, self.events.as_slice())?;
        }
        Ok(())
    }
}
