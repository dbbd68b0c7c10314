//! Copies of events' bodies. An allocation may fail for each kind of body, and no clause could say that it does not fail
//! without need: so each kind is copied once.
use crate::tests::steps::value_of;
use chord_circle::{Circle, Ident};
use chord_event::{Answer, Body, Listed};

/// The body of each kind from 0 to 21, with two nodes in each list.
fn body_of(kind: u32, key: Ident, list: Listed<u32>) -> Body {
    match kind {
        0 => Body::CmdJoin { via: 1 },
        1 => Body::CmdCrash,
        2 => Body::CmdLookup { key },
        3 => Body::StabilizeTick { epoch: 1 },
        4 => Body::FingerTick { epoch: 1 },
        5 => Body::TrafficTick { epoch: 1 },
        6 => Body::LifeEnd { epoch: 1 },
        7 => Body::Rise { epoch: 1 },
        8 => Body::Timeout { call: 1 },
        9 => Body::GetState { call: 1 },
        10 => Body::GetList { call: 1 },
        11 => Body::Ping { call: 1 },
        12 => Body::Notify,
        13 => Body::StepReply {
            call: 1,
            answer: Answer::Stuck,
        },
        14 => Body::Pong { call: 1 },
        15 => Body::CheckTick { epoch: 1 },
        16 => Body::Rejoin { epoch: 1 },
        17 => Body::CmdLeave,
        _ => body_with(kind, key, list),
    }
}

/// The bodies that have a list.
fn body_with(kind: u32, key: Ident, list: Listed<u32>) -> Body {
    match kind {
        18 => Body::Step {
            call: 1,
            key,
            avoid: list,
        },
        19 => Body::StateReply {
            call: 1,
            prdc: Some(1),
            list,
        },
        20 => Body::Leave {
            prdc: Some(1),
            list,
        },
        _ => Body::ListReply { call: 1, list },
    }
}

#[test]
fn a_copy_of_each_body(rt: HostRuntime) {
    let key = Circle::new(3).and_then(|circle| circle.ident(5));
    let key = value_of(&rt, key.ok_or("no key"));
    for kind in 0..22 {
        let mut list = Listed::new(rt.alloc());
        value_of(&rt, list.push(1));
        value_of(&rt, list.push(2));
        let body = body_of(kind, key, list);
        value_of(&rt, body.try_clone());
    }
}
