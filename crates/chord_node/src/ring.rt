//! The states of the nodes at the start of a run.
ghost use Rattle.std.specs.Prelude.{◌≡◌, true, unwrap_or, ◌+◌, ◌-◌, ◌<◌, ◌≤◌, length, map, slice_get, All, IfOk, OnOk};
ghost use Rattle.std.specs.List.{range_with_len, AllWithin};
ghost use Rattle.std.specs.List.Sorted.{IsNonDecreasingBy, IsPermutation};
ghost use Rattle.chord_scenario.specs.Start.{initial_nodes, timers};
ghost use Rattle.chord_scenario.specs.World.{ident_of, is_initial, node_count};
ghost use Rattle.chord_node.specs.Places.{placed, ring, successor, two_rounds};
ghost use Rattle.chord_node.specs.Ring.{clockwise, finger, first_member, first_via, initial_ring, never_up, or_itself};

use crate::bootstraps::first_bootstrap;
use crate::fingers::Fingers;
use crate::lists::{first_other, push_if_empty};
use crate::rotation::first_looked_up;
use crate::state::{NodeState, Status};
use chord_circle::Raw;
use chord_event::{Listed, Memory};
use chord_scenario::Scenario;
use std::alloc::Global;

/// A member at the start, with its identifier.
#[derive(Clone, Copy, Drop)]
struct Place {
    ident: Raw,
    node: u32,
}

/// The nodes that are members at the start.
fn members_at_start(alloc: Global, scenario: &Scenario) -> Result<Vec<u32>, Memory>
    ensures { IfOk result (λ nodes. nodes.items ≡ initial_nodes scenario.now) }
{
    let mut nodes = Vec::new(alloc);
    for node in 0..scenario.nodes() {
        if scenario.initial(node) {
            nodes.push(node)?;
        }
    }
    Ok(nodes)
}

/// The nodes with their identifiers.
fn places_of(alloc: Global, scenario: &Scenario, nodes: &[u32]) -> Result<Vec<Place>, Memory>
    requires { All (λ x. x < node_count scenario.now) nodes.now }
    ensures { IfOk result (λ places. places.items ≡ placed scenario.now nodes.now) }
{
    let mut places = Vec::new(alloc);
    for node in nodes {
        let ident = scenario.ident(*node).raw();
        places.push(Place { ident, node: *node })?;
    }
    Ok(places)
}

/// Puts nodes in the order of their identifiers.
fn sort_by_ident(places: &mut Vec<Place>) -> Result<(), Memory>
    ensures moved { OnOk result (IsPermutation places.old.items places.new.items) }
    ensures sorted { OnOk result (IsNonDecreasingBy (λ p. p.ident) places.new.items) }
{
    places.sort_by_key(|place| place.ident)?;
    Ok(())
}

/// The ring: the members at the start in the order of their identifiers.
fn ring_of(alloc: Global, scenario: &Scenario, nodes: &[u32]) -> Result<Vec<Place>, Memory>
    requires { nodes.now ≡ initial_nodes scenario.now }
    ensures { IfOk result (λ places. places.items ≡ placed scenario.now (ring scenario.now)) }
{
    scenario.recall_range();
    let mut places = places_of(alloc, scenario, nodes)?;
    sort_by_ident(&mut places)?;
    Ok(places)
}

/// Two rounds of the ring. The way from any member round to itself is one part of these, so no
/// member needs a list of its own.
fn rounds_of(alloc: Global, scenario: &Scenario, nodes: &[u32]) -> Result<Vec<Place>, Memory>
    requires { nodes.now ≡ initial_nodes scenario.now }
    ensures { IfOk result (λ places. places.items ≡ two_rounds scenario.now) }
{
    let mut places = ring_of(alloc, scenario, nodes)?;
    places.extend_from_within(..)?;
    Ok(places)
}

/// The number of members at the start that are before an identifier.
fn count_before(scenario: &Scenario, rounds: &[Place], ident: Raw) -> usize
    requires { rounds.now ≡ two_rounds scenario.now }
    ensures bound { result ≤ length (ring scenario.now) }
    ensures before { AllWithin (λ x. ident_of scenario.now x < ident) (ring scenario.now) 0 result }
    ensures rest { AllWithin (λ x. ident ≤ ident_of scenario.now x) (ring scenario.now) result (length (ring scenario.now)) }
{
    scenario.recall_range();
    let ring = &rounds[..rounds.len() / 2];
    ring.partition_point(|place| place.ident < ident)
}

/// The other members at the start, in the order in which they are met clockwise from a member.
fn clockwise<'a>(scenario: &Scenario, rounds: &'a [Place], node: u32) -> &'a [Place]
    requires node { node < node_count scenario.now }
    requires member { is_initial scenario.now node ≡ true }
    requires rounds { rounds.now ≡ two_rounds scenario.now }
    ensures { result.now ≡ placed scenario.now (clockwise scenario.now node) }
{
    scenario.recall_range();
    let at = count_before(scenario, rounds, scenario.ident(node).raw());
    &rounds[at + 1..at + rounds.len() / 2]
}

/// The first member at an identifier or after it, or the first one of the ring if there is none.
fn successor(scenario: &Scenario, rounds: &[Place], start: Raw) -> u32
    requires rounds { rounds.now ≡ two_rounds scenario.now }
    requires some { 0 < length rounds.now }
    ensures { result ≡ successor scenario.now start }
{
    rounds[count_before(scenario, rounds, start)].node
}

/// The node through which a member would join: the first bootstrap node, or else the first other
/// member, or else itself.
fn first_via(scenario: &Scenario, nodes: &[u32], node: u32) -> u32
    requires { nodes.now ≡ initial_nodes scenario.now }
    ensures { result ≡ first_via scenario.now node }
{
    match first_bootstrap(scenario, node) {
        Some(via) => via,
        None => first_other(nodes, node).unwrap_or(node),
    }
}

/// The nodes, without their identifiers.
fn nodes_of(alloc: Global, places: &[Place]) -> Result<Listed<u32>, Memory>
    ensures { IfOk result (λ nodes. nodes ≡ map (λ p. p.node) places.now) }
{
    let mut nodes = Listed::new(alloc);
    for place in places {
        nodes.push(place.node)?;
    }
    Ok(nodes)
}

/// The node that is met first, and the node itself if it meets nobody.
fn first_node(met: &[Place], node: u32) -> u32
    ensures { result ≡ unwrap_or (slice_get (map (λ p. p.node) met.now) 0) node }
{
    match met.first() {
        Some(place) => place.node,
        None => node,
    }
}

/// The node that is met last, and the node itself if it meets nobody.
fn last_node(met: &[Place], node: u32) -> u32
    ensures { result ≡ unwrap_or (slice_get (map (λ p. p.node) met.now) (length (map (λ p. p.node) met.now) - 1)) node }
{
    match met.last() {
        Some(place) => place.node,
        None => node,
    }
}

/// The nodes, or the node itself if there are none.
fn nodes_or_itself(alloc: Global, places: &[Place], node: u32) -> Result<Listed<u32>, Memory>
    ensures { IfOk result (λ nodes. nodes ≡ or_itself node (map (λ p. p.node) places.now)) }
{
    let mut nodes = nodes_of(alloc, places)?;
    push_if_empty(&mut nodes, node)?;
    Ok(nodes)
}

/// The fingers of a member from the second on. Those that start before the node found last, or at
/// it, are that node too, so most of them need no search.
fn fingers(
    alloc: Global,
    scenario: &Scenario,
    rounds: &[Place],
    node: u32,
) -> Result<Fingers, Memory>
    requires node { node < node_count scenario.now }
    requires member { is_initial scenario.now node ≡ true }
    requires rounds { rounds.now ≡ two_rounds scenario.now }
    ensures { IfOk result (λ fingers. fingers ≡ map (finger scenario.now node) (range_with_len 2 (scenario.now.bits - 1))) }
{
    scenario.recall_range();
    let circle = scenario.circle();
    let home = scenario.ident(node);
    let mut fingers = Fingers::new(alloc);
    let mut last = node;
    let mut beyond = 2;
    for i in 2..circle.bits() + 1 {
        if beyond <= i {
            let start = circle.add_power(home, i);
            last = successor(scenario, rounds, start.raw());
            beyond = circle.finger_beyond(home, scenario.ident(last));
        }
        fingers.push(last)?;
    }
    Ok(fingers)
}

/// The number of timers of a member at the start: two, one more for its generated lookups if the
/// scenario has these, one more for the end of its life if it is a churn node, and one more for the
/// checks of its predecessor if the scenario has these.
#[tactic(auto, unfolding(chord_scenario::specs::Start::timers))]
fn timer_count(scenario: &Scenario, node: u32) -> u64
    requires { node < node_count scenario.now }
    ensures { result ≡ length (timers scenario.now node) }
{
    let mut count = 2;
    if scenario.lookups().is_some() {
        count += 1;
    }
    if scenario.churn(node) && scenario.churn_times().is_some() {
        count += 1;
    }
    if scenario.check() > 0 {
        count += 1;
    }
    count
}

/// The state of a node that is a member at the start.
fn first_member(
    alloc: Global,
    scenario: &Scenario,
    nodes: &[u32],
    rounds: &[Place],
    node: u32,
) -> Result<NodeState, Memory>
    requires node { node < node_count scenario.now }
    requires member { is_initial scenario.now node ≡ true }
    requires nodes { nodes.now ≡ initial_nodes scenario.now }
    requires rounds { rounds.now ≡ two_rounds scenario.now }
    ensures { IfOk result (λ state. state ≡ first_member scenario.now node) }
{
    let met = clockwise(scenario, rounds, node);
    let most = (scenario.list() as usize).min(met.len());
    let timers = timer_count(scenario, node);
    Ok(NodeState {
        me: node,
        status: Status::Member,
        epoch: 1,
        via: Some(first_via(scenario, nodes, node)),
        prdc: Some(last_node(met, node)),
        succ: nodes_or_itself(alloc, &met[..most], node)?,
        fingers: fingers(alloc, scenario, rounds, node)?,
        next_finger: first_looked_up(scenario, node, Some(first_node(met, node))),
        calls: Listed::new(alloc),
        lookups: Listed::new(alloc),
        join: None,
        place: timers,
        count: timers,
    })
}

/// The states of nodes that are all down.
fn all_down(alloc: Global, nodes: u32) -> Result<Vec<NodeState>, Memory>
    ensures { IfOk result (λ states. states.items ≡ map never_up (range_with_len 0 nodes)) }
{
    let mut states = Vec::with_capacity(alloc, nodes as usize)?;
    for node in 0..nodes {
        states.push(NodeState::never_up(alloc, node))?;
    }
    Ok(states)
}

/// Puts the members at the start in the places of their numbers.
fn put_members(
    alloc: Global,
    scenario: &Scenario,
    nodes: &[u32],
    rounds: &[Place],
    states: &mut Vec<NodeState>,
) -> Result<(), Memory>
    requires nodes { nodes.now ≡ initial_nodes scenario.now }
    requires rounds { rounds.now ≡ two_rounds scenario.now }
    requires down { states.old.items ≡ map never_up (range_with_len 0 (node_count scenario.now)) }
    ensures { OnOk result (states.new.items ≡ initial_ring scenario.now) }
{
    // In the order of the ring, not of the numbers: one member and the next look for their fingers
    // at the same places, which the cache has then.
    let ring = &rounds[..rounds.len() / 2];
    for place in ring {
        let node = place.node;
        states[node as usize] = first_member(alloc, scenario, nodes, rounds, node)?;
    }
    Ok(())
}

/// The states of all nodes at the start of a run, by their numbers: the members know the ring, all
/// other nodes are down. The list is a plain `Vec`, since an engine takes it apart at once.
pub fn initial_ring(alloc: Global, scenario: &Scenario) -> Result<Vec<NodeState>, Memory>
    ensures { IfOk result (λ states. states.items ≡ initial_ring scenario.now) }
{
    let nodes = members_at_start(alloc, scenario)?;
    let rounds = rounds_of(alloc, scenario, nodes.as_slice())?;
    let mut states = all_down(alloc, scenario.nodes())?;
    put_members(
        alloc,
        scenario,
        nodes.as_slice(),
        rounds.as_slice(),
        &mut states,
    )?;
    Ok(states)
}
