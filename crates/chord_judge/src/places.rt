//! The places of the nodes on the circle, and marks of nodes.
ghost use Rattle.std.specs.Prelude.{◌≡◌, ◌<◌, ℕ, IfOk, length};
ghost use Rattle.std.specs.List.{All};
ghost use Rattle.chord_judge.specs.Places.{AreAllPlaces, first_marked, is_marked};
ghost use Rattle.chord_scenario.specs.World.{node_count, is_initial};

use chord_circle::Raw;
use chord_event::Memory;
use chord_scenario::Scenario;
use std::alloc::Global;

/// The place of a node on the circle.
#[derive(Clone, Copy, Drop)]
pub(crate) struct Place {
    pub ident: Raw,
    pub node: u32,
}

/// The first of these places whose node is marked.
pub(crate) fn first_marked(places: &[Place], marks: &[bool]) -> Option<u32>
    requires { All (λ place. place.node < length marks.now) places.now }
    ensures { result ≡ first_marked marks.now places.now }
{
    for place in places {
        if marks[place.node as usize] {
            return Some(place.node);
        }
    }
    None
}

/// The places of all nodes, in the order of the identifiers.
pub(crate) fn places_of(alloc: Global, scenario: &Scenario) -> Result<Vec<Place>, Memory>
    ensures { IfOk result (λ places. AreAllPlaces scenario.now places.items) }
{
    scenario.recall_range();
    let mut places = Vec::new(alloc);
    for node in 0..scenario.nodes() {
        let ident = scenario.ident(node).raw();
        places.push(Place { ident, node })?;
    }
    places.sort_unstable_by_key(|place| place.ident);
    Ok(places)
}

/// Whether each node is a member at the start.
pub(crate) fn initial_marks(alloc: Global, scenario: &Scenario) -> Result<Vec<bool>, Memory>
    ensures length { IfOk result (λ marks. length marks.items ≡ node_count scenario.now) }
    ensures marks { IfOk result (λ marks. (n : ℕ) → n < node_count scenario.now → is_marked marks.items n ≡ is_initial scenario.now n) }
{
    let mut marks = Vec::new(alloc);
    for node in 0..scenario.nodes() {
        marks.push(scenario.initial(node))?;
    }
    Ok(marks)
}
