//! What an event does.
ghost use Rattle.std.specs.Prelude.{◌≡◌, ◌<◌, ◌≤◌, ◌^◌, ◌++◌, replicate, IfOk, OnOk};
ghost use Rattle.phold_rules.specs.Range.{IsInRange};
ghost use Rattle.phold_rules.specs.Rules.{all_jobs, delay_of, jobs_of, phold, receiver_of};

use crate::hop::Hop;
use crate::settings::Settings;
use des_event::{Brief, Event, Key, Memory, Short};
use des_stream::Stream;
use std::alloc::Global;

/// What a node knows: how many events it has made. It has made its first jobs.
#[derive(Clone, Copy, Drop)]
pub struct Node {
    pub made: u64,
}

/// What an event asks of its target: to send the job on.
#[derive(Clone, Copy, Drop)]
pub struct Job {}

/// All jobs are alike, so one short form is enough.
impl Brief for Job {
    ghost long = { λ _. record {} };

    fn shorten(&self) -> Option<Short> {
        Some(Short { kind: 0, number: 0 })
    }

    fn lengthen(_short: Short) -> Job {
        Job {}
    }
}

/// The delay in microseconds of the event of this number that a node makes, and its receiver.
fn draw(settings: &Settings, node: u32, number: u64) -> (u64, u32)
    requires range { IsInRange settings.now }
    requires node { node < settings.now.nodes }
    ensures delay { result.0 ≡ delay_of settings.now node number }
    ensures short { result.0 ≤ 3000000000 }
    ensures receiver { result.1 ≡ receiver_of settings.now node number }
{
    let others = u64::from(settings.nodes) - 1;
    let bounds = (2 * settings.mean + 1, 1_000_000 * others);
    let (beyond, way) = Stream::of(settings.seed, node).numbers_in(number, bounds);
    let delay = settings.lookahead + beyond;
    if way / others < u64::from(settings.remote) {
        let receiver = (u64::from(node) + 1 + way % others) % u64::from(settings.nodes);
        (delay, receiver as u32)
    } else {
        (delay, node)
    }
}

/// The states of all nodes at the start.
pub fn start_states(alloc: Global, settings: &Settings) -> Result<Vec<Node>, Memory>
    ensures { IfOk result (λ states. states.items ≡ replicate settings.now.nodes (record { made = settings.now.jobs })) }
{
    let made = u64::from(settings.jobs);
    let states = vec![in alloc; Node { made }; settings.nodes as usize]?;
    Ok(states)
}

/// The events at the start: each node sends its first jobs to itself.
pub fn start_events(alloc: Global, settings: &Settings) -> Result<Vec<Event<Job>>, Memory>
    requires range { IsInRange settings.now }
    ensures { IfOk result (λ events. events.items ≡ all_jobs settings.now settings.now.nodes) }
{
    let mut events = Vec::new(alloc);
    for node in 0..settings.nodes {
        push_jobs(settings, node, &mut events)?;
    }
    Ok(events)
}

/// Sends a job on: adds the event that its node makes, and returns what the trace says of it.
pub fn send_on(
    settings: &Settings,
    node: &mut Node,
    event: &Event<Job>,
    made: &mut Vec<Event<Job>>,
) -> Result<Hop, Memory>
    requires range { IsInRange settings.now }
    requires target { event.now.target < settings.now.nodes }
    requires time { event.now.key.time < settings.now.duration }
    requires room { node.old.made ≤ 2 ^ 40 }
    ensures node { OnOk result (node.new ≡ ((phold settings.now).effect node.old event.now).state) }
    ensures made { OnOk result (made.new.items ≡ made.old.items ++ ((phold settings.now).effect node.old event.now).events) }
    ensures hop { IfOk result (λ hop. hop ≡ ((phold settings.now).effect node.old event.now).piece) }
{
    let time = event.key.time;
    node.made += 1;
    let (delay, receiver) = draw(settings, event.target, node.made);
    made.push(Event {
        key: Key {
            time: time + delay,
            origin: 2 + event.target,
            number: node.made,
        },
        target: receiver,
        body: Job {},
    })?;
    Ok(Hop {
        time,
        node: event.target,
        receiver,
    })
}

/// Adds the first jobs of a node.
fn push_jobs(settings: &Settings, node: u32, events: &mut Vec<Event<Job>>) -> Result<(), Memory>
    requires range { IsInRange settings.now }
    requires node { node < settings.now.nodes }
    ensures { OnOk result (events.new.items ≡ events.old.items ++ jobs_of settings.now node settings.now.jobs) }
{
    for job in 0..settings.jobs {
        let number = u64::from(job) + 1;
        let (time, _) = draw(settings, node, number);
        events.push(Event {
            key: Key {
                time,
                origin: 2 + node,
                number,
            },
            target: node,
            body: Job {},
        })?;
    }
    Ok(())
}
