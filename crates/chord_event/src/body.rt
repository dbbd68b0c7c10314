//! What events do: commands, timers and messages.
ghost use Rattle.std.specs.Prelude.{◌≡◌, IfOk};

use chord_circle::Ident;
use des_event::{Brief, Copied, Listed, Memory, Short};

/// The reply to one step of a search: the owner of the key, the node to ask next, or `Stuck` if the
/// node knows neither.
#[derive(Clone, Copy, Debug, PartialEq, Eq, Drop)]
pub enum Answer {
    Owner(u32),
    Next(u32),
    Stuck,
}

/// What an event asks of its target: a command, a timer of the target, or a message. The sender of
/// a message is the node of its key's origin. Requests and replies carry the number of their call.
#[derive(Drop)]
pub enum Body {
    CmdJoin {
        via: u32,
    },
    CmdCrash,
    CmdLeave,
    CmdLookup {
        key: Ident,
    },
    StabilizeTick {
        epoch: u64,
    },
    FingerTick {
        epoch: u64,
    },
    TrafficTick {
        epoch: u64,
    },
    LifeEnd {
        epoch: u64,
    },
    Rise {
        epoch: u64,
    },
    CheckTick {
        epoch: u64,
    },
    /// The end of a pause between two attempts to join.
    Rejoin {
        epoch: u64,
    },
    Timeout {
        call: u64,
    },
    Step {
        call: u64,
        key: Ident,
        avoid: Listed<u32>,
    },
    GetState {
        call: u64,
    },
    GetList {
        call: u64,
    },
    Ping {
        call: u64,
    },
    Notify,
    /// The sender leaves. Its predecessor and its successors take its place.
    Leave {
        prdc: Option<u32>,
        list: Listed<u32>,
    },
    StepReply {
        call: u64,
        answer: Answer,
    },
    StateReply {
        call: u64,
        prdc: Option<u32>,
        list: Listed<u32>,
    },
    ListReply {
        call: u64,
        list: Listed<u32>,
    },
    Pong {
        call: u64,
    },
}

impl Body {
    /// A copy of the body.
    pub fn try_clone(&self) -> Result<Body, Memory>
        ensures { IfOk result (λ copy. copy ≡ self.now) }
    {
        let copy = match self {
            Body::CmdJoin { via } => Body::CmdJoin { via: *via },
            Body::CmdCrash => Body::CmdCrash,
            Body::CmdLeave => Body::CmdLeave,
            Body::CmdLookup { key } => Body::CmdLookup { key: *key },
            Body::StabilizeTick { epoch } => Body::StabilizeTick { epoch: *epoch },
            Body::FingerTick { epoch } => Body::FingerTick { epoch: *epoch },
            Body::TrafficTick { epoch } => Body::TrafficTick { epoch: *epoch },
            Body::LifeEnd { epoch } => Body::LifeEnd { epoch: *epoch },
            Body::Rise { epoch } => Body::Rise { epoch: *epoch },
            Body::CheckTick { epoch } => Body::CheckTick { epoch: *epoch },
            Body::Rejoin { epoch } => Body::Rejoin { epoch: *epoch },
            Body::Timeout { call } => Body::Timeout { call: *call },
            Body::Step { call, key, avoid } => Body::Step {
                call: *call,
                key: *key,
                avoid: avoid.try_clone()?,
            },
            Body::GetState { call } => Body::GetState { call: *call },
            Body::GetList { call } => Body::GetList { call: *call },
            Body::Ping { call } => Body::Ping { call: *call },
            Body::Notify => Body::Notify,
            Body::Leave { prdc, list } => Body::Leave {
                prdc: *prdc,
                list: list.try_clone()?,
            },
            Body::StepReply { call, answer } => Body::StepReply {
                call: *call,
                answer: *answer,
            },
            Body::StateReply { call, prdc, list } => Body::StateReply {
                call: *call,
                prdc: *prdc,
                list: list.try_clone()?,
            },
            Body::ListReply { call, list } => Body::ListReply {
                call: *call,
                list: list.try_clone()?,
            },
            Body::Pong { call } => Body::Pong { call: *call },
        };
        Ok(copy)
    }
}

impl Copied for Body {
    fn try_copy(&self) -> Result<Body, Memory> {
        self.try_clone()
    }
}

/// Timers and timeouts have a short form: most events that wait are such.
impl Brief for Body {
    ghost use Rattle.chord_event.specs.Bodies.{spelled_out};

    ghost long = { spelled_out };

    #[inline(always)]
    fn shorten(&self) -> Option<Short> {
        let (kind, number) = match self {
            Body::Timeout { call } => (0, *call),
            Body::StabilizeTick { epoch } => (1, *epoch),
            Body::FingerTick { epoch } => (2, *epoch),
            Body::TrafficTick { epoch } => (3, *epoch),
            Body::LifeEnd { epoch } => (4, *epoch),
            Body::Rise { epoch } => (5, *epoch),
            Body::CheckTick { epoch } => (6, *epoch),
            Body::Rejoin { epoch } => (7, *epoch),
            _ => return None,
        };
        Some(Short { kind, number })
    }

    #[inline(always)]
    fn lengthen(short: Short) -> Body {
        let epoch = short.number;
        match short.kind {
            1 => Body::StabilizeTick { epoch },
            2 => Body::FingerTick { epoch },
            3 => Body::TrafficTick { epoch },
            4 => Body::LifeEnd { epoch },
            5 => Body::Rise { epoch },
            6 => Body::CheckTick { epoch },
            7 => Body::Rejoin { epoch },
            _ => Body::Timeout { call: epoch },
        }
    }
}
