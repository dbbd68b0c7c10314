//! Comparisons of events and of states, whose types have no `==`.
use chord_circle::Ident;
use chord_event::{Answer, Body, Boxed, Event};
use chord_node::{Attempt, Lookup, NodeState};

/// What a body carries: the name of its kind, the number of its call, its life or its node, its key, its answer, and its
/// list of nodes.
#[derive(PartialEq, Drop)]
struct Content<'a> {
    kind: &'static str,
    number: u64,
    key: Option<Ident>,
    answer: Option<Answer>,
    nodes: &'a [u32],
}

/// A body that carries a number alone.
fn number_alone(kind: &'static str, number: u64) -> Content<'static> {
    Content {
        kind,
        number,
        key: None,
        answer: None,
        nodes: &[],
    }
}

/// What a body carries.
fn content_of(body: &Body) -> Content<'_> {
    match body {
        Body::CmdJoin { via } => number_alone("CmdJoin", u64::from(*via)),
        Body::CmdCrash => number_alone("CmdCrash", 0),
        Body::CmdLeave => number_alone("CmdLeave", 0),
        Body::StabilizeTick { epoch } => number_alone("StabilizeTick", *epoch),
        Body::FingerTick { epoch } => number_alone("FingerTick", *epoch),
        Body::TrafficTick { epoch } => number_alone("TrafficTick", *epoch),
        Body::CheckTick { epoch } => number_alone("CheckTick", *epoch),
        Body::Rejoin { epoch } => number_alone("Rejoin", *epoch),
        Body::LifeEnd { epoch } => number_alone("LifeEnd", *epoch),
        Body::Rise { epoch } => number_alone("Rise", *epoch),
        Body::Timeout { call } => number_alone("Timeout", *call),
        Body::GetState { call } => number_alone("GetState", *call),
        Body::GetList { call } => number_alone("GetList", *call),
        Body::Ping { call } => number_alone("Ping", *call),
        Body::Notify => number_alone("Notify", 0),
        Body::Pong { call } => number_alone("Pong", *call),
        Body::CmdLookup { key } => Content {
            key: Some(*key),
            ..number_alone("CmdLookup", 0)
        },
        Body::Step { call, key, avoid } => Content {
            key: Some(*key),
            nodes: avoid.as_slice(),
            ..number_alone("Step", *call)
        },
        Body::Leave { prdc, list } => Content {
            answer: prdc.map(Answer::Next),
            nodes: list.as_slice(),
            ..number_alone("Leave", 0)
        },
        Body::StepReply { call, answer } => Content {
            answer: Some(*answer),
            ..number_alone("StepReply", *call)
        },
        Body::StateReply { call, prdc, list } => Content {
            answer: prdc.map(Answer::Next),
            nodes: list.as_slice(),
            ..number_alone("StateReply", *call)
        },
        Body::ListReply { call, list } => Content {
            nodes: list.as_slice(),
            ..number_alone("ListReply", *call)
        },
    }
}

/// Whether two events are the same.
pub fn is_same_event(one: &Event, other: &Event) -> bool {
    one.key == other.key
        && one.target == other.target
        && content_of(&one.body) == content_of(&other.body)
}

/// Whether two lists have the same events, in the same order.
pub fn are_same_events(some: &[Event], others: &[Event]) -> bool {
    some.len() == others.len()
        && some
            .iter()
            .zip(others)
            .all(|(one, other)| is_same_event(one, other))
}

/// Whether two searches have come equally far.
fn is_same_lookup(one: &Lookup, other: &Lookup) -> bool {
    one.call == other.call
        && one.key == other.key
        && one.aim == other.aim
        && one.started == other.started
        && one.steps == other.steps
        && one.hops == other.hops
        && one.timeouts == other.timeouts
        && one.avoid.as_slice() == other.avoid.as_slice()
}

/// Whether two lists have the same searches, in the same order.
fn are_same_lookups(some: &[Lookup], others: &[Lookup]) -> bool {
    some.len() == others.len()
        && some
            .iter()
            .zip(others)
            .all(|(one, other)| is_same_lookup(one, other))
}

/// Whether two attempts to join have come equally far, if there are any.
fn is_same_attempt(one: &Option<Boxed<Attempt>>, other: &Option<Boxed<Attempt>>) -> bool {
    match (one, other) {
        (Some(one), Some(other)) => {
            let (one, other) = (one.as_ref(), other.as_ref());
            one.failures == other.failures
                && one.steps == other.steps
                && one.answered == other.answered
                && one.avoid.as_slice() == other.avoid.as_slice()
        }
        (None, None) => true,
        _ => false,
    }
}

/// Whether two nodes know the same.
pub fn is_same_state(one: &NodeState, other: &NodeState) -> bool {
    one.me == other.me
        && one.status == other.status
        && one.epoch == other.epoch
        && one.via == other.via
        && one.prdc == other.prdc
        && one.succ.as_slice() == other.succ.as_slice()
        && one.fingers.runs() == other.fingers.runs()
        && one.next_finger == other.next_finger
        && one.calls.as_slice() == other.calls.as_slice()
        && are_same_lookups(one.lookups.as_slice(), other.lookups.as_slice())
        && is_same_attempt(&one.join, &other.join)
        && one.place == other.place
        && one.count == other.count
}
