//! The lines of a trace.
use chord_circle::Ident;

/// The kinds of message between nodes.
#[derive(Clone, Copy, Drop)]
pub enum MessageKind {
    Step,
    GetState,
    GetList,
    Ping,
    Notify,
    Leave,
    StepReply,
    StateReply,
    ListReply,
    Pong,
}

/// The kinds of command in a scenario.
#[derive(Clone, Copy, Drop)]
pub enum CommandKind {
    Join,
    Crash,
    Leave,
    Lookup,
}

/// One line of an event's block. Nodes are named by their numbers from 0. `us` is in microseconds.
#[derive(Clone, Copy, Drop)]
pub enum Line {
    Join {
        via: u32,
    },
    Member {
        predecessor: u32,
    },
    JoinFailed,
    Crash,
    /// A node leaves, by a command or at the end of its life.
    Leave,
    Stranded {
        via: u32,
    },
    Drop {
        kind: MessageKind,
        sender: u32,
    },
    Late {
        kind: MessageKind,
        sender: u32,
    },
    Timeout {
        silent: u32,
    },
    /// A message from this node that the network loses.
    Lose {
        kind: MessageKind,
        receiver: u32,
    },
    /// A request that this node sends again.
    Again {
        kind: MessageKind,
        receiver: u32,
    },
    /// A predecessor that did not reply to a check, and that this node forgets.
    Forget {
        predecessor: u32,
    },
    /// A finger that this node takes as its successor, since its list has no other node left.
    Rescue {
        finger: u32,
    },
    /// A node makes a ring of its own.
    Create,
    /// With detail: a request that this node sends for another purpose than a lookup, under the
    /// number of its call.
    Ask {
        kind: MessageKind,
        receiver: u32,
        call: u64,
    },
    /// With detail: a request of a lookup, with the lookup's key and the time at which it started.
    Seek {
        kind: MessageKind,
        receiver: u32,
        call: u64,
        key: Ident,
        since: u64,
    },
    /// With detail: a reply, a notify or a leave that this node sends and the network does not lose.
    Send {
        kind: MessageKind,
        receiver: u32,
    },
    Lookup {
        key: Ident,
    },
    Found {
        key: Ident,
        owner: u32,
        hops: u32,
        timeouts: u32,
        us: u64,
    },
    Lost {
        key: Ident,
        hops: u32,
        timeouts: u32,
        us: u64,
    },
    Busy {
        key: Ident,
    },
    Ignored {
        command: CommandKind,
    },
}
