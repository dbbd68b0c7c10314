//! What nodes draw. In the first two profiles each draw takes the next words of the node's one stream.
//! In the extended profile each draw has words of its own, so that no draw depends on earlier ones.
ghost use Rattle.std.specs.Prelude.{◌≡◌, ◌+◌, ◌-◌, ◌^◌, ◌<◌, ◌≤◌, nat_lt};
ghost use Rattle.chord_scenario.specs.Draws.{chance, delay, extra, finger_number, leave_number, timer_number, timer_occasion, timer_purpose};
ghost use Rattle.chord_scenario.specs.Range.{IsSpanUpTo};

use crate::scenario::{EXTENDED_PROFILE, Scenario};
use crate::setting::Span;
use chord_event::Body;
use des_stream::Stream;

/// The purpose of the words from which a random key is made, in the extended profile.
pub const KEY_PURPOSE: u32 = 6;

/// The purpose of the words that decide what becomes of a message, in the extended profile.
const MESSAGE_PURPOSE: u32 = 7;

/// The purpose of the words that decide which finger a node looks up first, in the extended profile.
/// It is 9, since 8 is that of the timer of checks.
const FINGER_PURPOSE: u32 = 9;

/// The purpose of the words that decide whether a life ends with a leave, in the extended profile.
const LEAVE_PURPOSE: u32 = 10;

/// Who draws and when: the node, how many words of its stream it has drawn, and the time in
/// microseconds.
#[derive(Clone, Copy, Drop)]
pub struct Drawer {
    pub node: u32,
    pub place: u64,
    pub time: u64,
}

/// The purpose of the words from which a timer's delay is made, in the extended profile.
fn timer_purpose(timer: &Body) -> u32
    ensures { result ≡ timer_purpose timer.now }
{
    match timer {
        Body::StabilizeTick { .. } => 1,
        Body::FingerTick { .. } => 2,
        Body::TrafficTick { .. } => 3,
        Body::LifeEnd { .. } => 4,
        Body::Rise { .. } => 5,
        Body::CheckTick { .. } => 8,
        _ => 0,
    }
}

/// Which of the delays of its kind a timer has, in the extended profile.
fn timer_occasion(time: u64, timer: &Body) -> u64
    ensures { result ≡ timer_occasion time timer.now }
{
    match timer {
        Body::LifeEnd { epoch } | Body::Rise { epoch } => *epoch,
        _ => time,
    }
}

impl Scenario {
    /// The number below a bound that decides how long a timer takes.
    fn timer_number(&self, drawer: Drawer, timer: &Body, bound: u64) -> u64
        requires { 0 < bound }
        ensures value { result ≡ timer_number self.now drawer.node drawer.place drawer.time timer.now bound }
        ensures below { result < bound }
    {
        if self.profile() == EXTENDED_PROFILE {
            let stream = Stream::for_purpose(self.seed(), drawer.node, timer_purpose(timer));
            return stream.number_in(timer_occasion(drawer.time, timer), bound);
        }
        let word = Stream::of(self.seed(), drawer.node).word_at(drawer.place);
        u64::from(word) % bound
    }

    /// How long a timer takes that a node sets, in microseconds: a time of the span.
    pub fn delay(&self, drawer: Drawer, span: Span, timer: &Body) -> u64
        requires { IsSpanUpTo 2000000000 span }
        ensures value { result ≡ delay self.now drawer.node drawer.place drawer.time span timer.now }
        ensures least { span.least ≤ result }
        ensures greatest { result ≤ span.greatest }
    {
        span.least + self.timer_number(drawer, timer, span.greatest - span.least + 1)
    }

    /// The number below a bound that decides which finger a node looks up first.
    pub fn finger_number(&self, node: u32, bound: u64) -> u64
        requires { 0 < bound }
        ensures value { result ≡ finger_number self.now node bound }
        ensures below { result < bound }
    {
        Stream::for_purpose(self.seed(), node, FINGER_PURPOSE).number_in(0, bound)
    }

    /// The number below 1,000,000 that decides whether a node's life ends with a leave.
    pub fn leave_number(&self, node: u32, epoch: u64) -> u64
        ensures { result ≡ leave_number self.now node epoch }
    {
        Stream::for_purpose(self.seed(), node, LEAVE_PURPOSE).number_in(epoch, 1_000_000)
    }

    /// The two numbers of a node's message of this number. The first is below 1,000,000 and decides
    /// whether the message is lost. The second says how many microseconds longer than the latency it
    /// takes.
    fn message_numbers(&self, drawer: Drawer, number: u64) -> (u64, u64)
        requires { drawer.place < 2 ^ 64 - 1 }
        ensures chance { result.0 ≡ chance self.now drawer.node drawer.place number }
        ensures extra { result.1 ≡ extra self.now drawer.node drawer.place number }
        ensures most_extra { result.1 ≤ self.now.spread }
    {
        self.recall_range();
        let bounds = (1_000_000, self.spread() + 1);
        if self.profile() == EXTENDED_PROFILE {
            let stream = Stream::for_purpose(self.seed(), drawer.node, MESSAGE_PURPOSE);
            return stream.numbers_in(number, bounds);
        }
        let (chance, extra) = Stream::of(self.seed(), drawer.node).pair_at(drawer.place);
        (u64::from(chance) % bounds.0, u64::from(extra) % bounds.1)
    }

    /// What becomes of a node's message of this number: whether it is lost, and how many
    /// microseconds longer than the latency it takes. Nothing is drawn if the scenario neither loses
    /// nor delays messages.
    pub fn message_fate(&self, drawer: Drawer, number: u64) -> (bool, u64)
        requires { drawer.place < 2 ^ 64 - 1 }
        ensures lost { result.0 ≡ nat_lt (chance self.now drawer.node drawer.place number) self.now.loss }
        ensures extra { result.1 ≡ extra self.now drawer.node drawer.place number }
        ensures most_extra { result.1 ≤ self.now.spread }
    {
        let loss = self.loss();
        let spread = self.spread();
        if loss == 0 && spread == 0 {
            return (false, 0);
        }
        let (chance, extra) = self.message_numbers(drawer, number);
        (chance < loss, extra)
    }
}
