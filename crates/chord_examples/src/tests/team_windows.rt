//! A part's first window by itself: a team's worker leaves what `run_part` leaves.
ghost use Rattle.std.specs.Prelude.{◌≡◌, ◌<◌, length};
ghost use Rattle.std.specs.List.{All};
ghost use Rattle.chord_scenario.specs.World.{node_count};
ghost use Rattle.chord_team.specs.Rings.{ring_of};
ghost use Rattle.chord_window.specs.PartRuns.{IsNextWindow, IsShortBlock};
ghost use Rattle.des_team.specs.Layouts.{IsLayout};
ghost use Rattle.des_team.specs.Orders.{IsOrder};
ghost use Rattle.des_team.specs.Teams.{CanSend};

use crate::tests::comparisons::{are_same_events, is_same_state};
use crate::tests::random_texts::{Dice, RandomTexts, random_texts};
use crate::tests::steps::{holds, value_of};
use crate::tests::windows::horizon_of;
use chord_event::{Block, Event, Key};
use chord_node::NodeState;
use chord_output::{ChordRing, ChordScribe};
use chord_queue::WindowQueue;
use chord_scenario::{Scenario, read_scenario};
use chord_trace::{Watched, write_block};
use chord_window::{Division, Done, Window, World, run_part};
use des_team::{Course, Done as TeamDone, Layout, OwnedPart, Parcel, Team};
use std::process::Abort;

/// The number of random scenarios.
const SCENARIOS: u64 = 40;

/// What a window leaves of a part: how many events it ran, the states of its nodes, the events that are still to come, the
/// text of its events, and the key of each that has lines with the place at which its text ends.
#[derive(Drop)]
struct Leavings {
    events: u64,
    states: Vec<NodeState>,
    coming: Vec<Event>,
    text: Vec<u8>,
    ends: Vec<(Key, usize)>,
}

impl Leavings {
    /// Asserts that the other side left the same of the part.
    fn is(&self, rt: &impl Abort, other: &Leavings, part: u32) {
        holds(rt, self.events == other.events, &part);
        holds(rt, self.states.len() == other.states.len(), &part);
        for (one, state) in self.states.iter().zip(&other.states) {
            holds(rt, is_same_state(one, state), &(part, one.me));
        }
        let coming = other.coming.as_slice();
        holds(rt, are_same_events(self.coming.as_slice(), coming), &part);
        holds(rt, self.text == other.text, &part);
        holds(rt, self.ends == other.ends, &part);
    }
}

/// The text of blocks, and the key of each that has lines with the place at which its text ends.
fn text_of<T: Abort + AllocGlobal>(
    rt: &T,
    scenario: &Scenario,
    blocks: &[Block],
) -> (Vec<u8>, Vec<(Key, usize)>)
    requires { All (IsShortBlock scenario.now) blocks.now }
{
    let alloc = rt.alloc();
    let (mut text, mut ends) = (Vec::new(alloc), Vec::new(alloc));
    for block in blocks {
        let mut writer = Watched::new(Vec::new(alloc));
        value_of(rt, write_block(alloc, scenario, block, &mut writer));
        value_of(rt, text.append(&mut writer.into_inner()));
        if !block.lines.as_slice().is_empty() {
            value_of(rt, ends.push((block.key, text.len())));
        }
    }
    (text, ends)
}

/// The states of a part's nodes after its window: those that it touched, and the others as they were.
fn states_after<T: Abort + AllocGlobal>(rt: &T, world: &World, done: &Done) -> Vec<NodeState> {
    let mut states = Vec::new(rt.alloc());
    for old in world.kernel.states.as_slice() {
        let known = (old.me as usize) < world.kernel.division.nodes();
        if known && world.kernel.division.part_of(old.me) == done.part {
            let touched = done.nodes.as_slice().iter().find(|new| new.me == old.me);
            let copy = value_of(rt, touched.unwrap_or(old).clone_state());
            value_of(rt, states.push(copy));
        }
    }
    states
}

/// What `run_part` leaves of a part.
fn by_run_part<T: Abort + AllocGlobal>(rt: &T, window: &Window<'_>, part: u32) -> Leavings
    requires window { IsNextWindow window.now.scenario.now window.now.world.now window.now.horizon }
    requires part { part < window.now.world.now.kernel.division.parts }
{
    let (scenario, world) = (window.scenario, window.world);
    let mut queue = WindowQueue::new(rt.alloc());
    let mut done = value_of(rt, run_part(window, part, &mut queue));
    let (text, ends) = text_of(rt, scenario, done.blocks.as_slice());
    let states = states_after(rt, world, &done);
    let mut coming = Vec::new(rt.alloc());
    if let Some(events) = world.kernel.parts.get(part as usize) {
        coming = value_of(rt, events.later.up_to(u64::MAX));
    }
    value_of(rt, coming.append(&mut done.mail));
    coming.sort_unstable_by_key(|event| event.key);
    Leavings {
        events: done.events,
        states,
        coming,
        text,
        ends,
    }
}

/// Asserts that what a team's part made for the others lies in their lists.
fn lies_apart(rt: &impl Abort, layout: &Layout, outbox: &[Vec<Event>]) {
    for (part, list) in outbox.iter().enumerate() {
        for event in list {
            let known = (event.target as usize) < layout.division.nodes();
            holds(
                rt,
                known && layout.division.part_of(event.target) as usize == part,
                &part,
            );
        }
    }
}

/// What a team's worker leaves of a part.
fn by_worker<'a, T: Abort + AllocGlobal>(
    rt: &T,
    course: &Course<'_, ChordRing<'a>>,
    parcel: Parcel<ChordRing<'a>, ChordScribe>,
) -> Leavings
    requires { IsOrder (ring_of course.now.machine.now.scenario.now) course.now.layout.now parcel }
{
    let TeamDone {
        parcel,
        events,
        fault,
        ..
    } = parcel.run(rt.alloc(), course.machine, course.layout);
    holds(rt, fault.is_none(), &fault);
    let Parcel { part, output, .. } = parcel;
    let OwnedPart {
        states,
        pending,
        outbox,
        ..
    } = Box::into_inner(part);
    let mut lists = outbox.into_lists();
    lies_apart(rt, course.layout, lists.as_slice());
    let mut coming = value_of(rt, pending.up_to(u64::MAX));
    for list in lists.iter_mut() {
        value_of(rt, coming.append(list));
    }
    coming.sort_unstable_by_key(|event| event.key);
    let mut ends = Vec::new(rt.alloc());
    for mark in output.marks.iter() {
        value_of(rt, ends.push((mark.key, mark.end)));
    }
    Leavings {
        events,
        states,
        coming,
        text: output.text,
        ends,
    }
}

/// Takes a part out, which must be here, for the window.
fn taken_out<'a>(
    rt: &impl Abort,
    course: &Course<'_, ChordRing<'a>>,
    team: &mut Team<ChordRing<'a>, ChordScribe>,
    part: u32,
) -> Parcel<ChordRing<'a>, ChordScribe>
    requires part { part < length team.old.parcels.items }
    requires can_send { CanSend (ring_of course.now.machine.now.scenario.now) course.now.layout.now team.old }
    ensures order { IsOrder (ring_of course.now.machine.now.scenario.now) course.now.layout.now result }
    ensures can_send { CanSend (ring_of course.now.machine.now.scenario.now) course.now.layout.now team.new }
{
    let Some(parcel) = team.take_out(course, part) else {
        panic!(rt; "part {part} is not here");
    };
    parcel
}

/// Asserts that a part's window leaves the same by both. Returns the number of its events.
fn leaves_the_same<'a, T: Abort + AllocGlobal>(
    rt: &T,
    course: &Course<'_, ChordRing<'a>>,
    parcel: Parcel<ChordRing<'a>, ChordScribe>,
    window: &Window<'_>,
    part: u32,
) -> u64
    requires order { IsOrder (ring_of course.now.machine.now.scenario.now) course.now.layout.now parcel }
    requires window { IsNextWindow window.now.scenario.now window.now.world.now window.now.horizon }
    requires part { part < window.now.world.now.kernel.division.parts }
{
    let begins = parcel.horizon == window.horizon && parcel.count == 0;
    holds(rt, begins, &part);
    let worker = by_worker(rt, course, parcel);
    let other = by_run_part(rt, window, part);
    worker.is(rt, &other, part);
    worker.events
}

/// Asserts that the window of each part leaves the same by both. Adds the numbers of their events to the list.
fn all_leave_the_same<'a, T: Abort + AllocGlobal>(
    rt: &T,
    course: &Course<'_, ChordRing<'a>>,
    team: &mut Team<ChordRing<'a>, ChordScribe>,
    window: &Window<'_>,
    counts: &mut Vec<u64>,
)
    requires can_send { CanSend (ring_of course.now.machine.now.scenario.now) course.now.layout.now team.old }
    requires window { IsNextWindow window.now.scenario.now window.now.world.now window.now.horizon }
    requires parts { course.now.layout.now.division ≡ window.now.world.now.kernel.division }
{
    for part in 0..course.layout.division.parts() {
        let parcel = taken_out(rt, course, team, part);
        let events = leaves_the_same(rt, course, parcel, window, part);
        value_of(rt, counts.push(events));
    }
}

/// The team of a run whose first window is open.
fn opened<'a, T: Abort + AllocGlobal>(
    rt: &T,
    course: &Course<'_, ChordRing<'a>>,
) -> Team<ChordRing<'a>, ChordScribe>
    requires { IsLayout (node_count course.now.machine.now.scenario.now) course.now.layout.now }
    ensures { CanSend (ring_of course.now.machine.now.scenario.now) course.now.layout.now result }
{
    let started = Team::start(course.alloc, course.machine, course.layout);
    let mut team = value_of(rt, started);
    let Some(opening) = team.opening(course) else {
        panic!(rt; "no window");
    };
    value_of(rt, team.open_window(course, opening));
    team
}

/// Asserts that the first window of each part leaves the same by both. Adds the numbers of their events to the list.
fn begins_the_same<T: Abort + AllocGlobal>(
    rt: &T,
    scenario: &Scenario,
    division: &Division,
    counts: &mut Vec<u64>,
) {
    let alloc = rt.alloc();
    let ring = ChordRing { scenario };
    let layout = value_of(rt, Layout::new(alloc, &ring, division));
    let course = Course {
        alloc,
        machine: &ring,
        layout: &layout,
        parkers: &[],
        worth: 0,
    };
    let mut team = opened(rt, &course);
    let world = value_of(rt, World::start(alloc, scenario, division));
    let window = Window {
        alloc,
        scenario,
        world: &world,
        horizon: horizon_of(rt, scenario, &world),
    };
    all_leave_the_same(rt, &course, &mut team, &window, counts);
}

/// Asserts that the first windows of the scenario of a seed, if it is accepted, leave the same by both in two parts and in
/// three. Adds the numbers of their events to the list.
fn begins_in_parts<T: Abort + AllocGlobal>(rt: &T, seed: u64, counts: &mut Vec<u64>) {
    let alloc = rt.alloc();
    let mut dice = Dice { state: seed };
    let RandomTexts { nodes, toml, csv } = value_of(rt, random_texts(alloc, &mut dice, 3000));
    let csv = csv.as_str().as_bytes();
    let Ok(scenario) = read_scenario(alloc, toml.as_str().as_bytes(), csv) else {
        return;
    };
    let two = value_of(rt, Division::dealt(alloc, nodes.max(1), 2));
    let three = value_of(rt, Division::blocks(alloc, nodes.max(1), 3));
    begins_the_same(rt, &scenario, &two, counts);
    begins_the_same(rt, &scenario, &three, counts);
}

/// In random scenarios the first window of each of two and three parts leaves the same by a team's worker as by
/// `run_part`.
#[test]
fn random_first_windows(rt: HostRuntime) {
    let mut counts = Vec::new(rt.alloc());
    for seed in 0..SCENARIOS {
        begins_in_parts(&rt, seed, &mut counts);
    }
    counts.retain(|count| *count > 0);
    assert!(rt; counts.len() as u64 >= 2 * SCENARIOS, "{counts:?}");
}
