//! What an audit knows of each node.
ghost use Rattle.std.specs.Prelude.{◌≡◌, IfOk, length};
ghost use Rattle.std.specs.List.{All};
ghost use Rattle.chord_scenario.specs.World.{node_count};
ghost use Rattle.chord_node.specs.Invariant.{AllNodes};
ghost use Rattle.chord_audit.specs.Tables.{HoldFacts};

use crate::list_facts::{ListFacts, read_lists};
use crate::passes::skipped_ranks;
use crate::ring::ring_of;
use crate::successors::members_of;
use chord_event::Memory;
use chord_node::NodeState;
use chord_scenario::Scenario;
use des_machine::States;
use std::alloc::Global;

/// What an audit knows of each node: whether it is a member, its best successor, whether it is on a
/// ring, and its rank in the order of the identifiers. And of each rank: whether a ring member
/// skips it, and whether a member's list skips it.
#[derive(Drop)]
pub(crate) struct Tables<'a> {
    pub members: Vec<bool>,
    pub best: Vec<Option<u32>>,
    pub ring: Vec<bool>,
    pub ranks: &'a [u32],
    pub skipped: Vec<bool>,
    pub passed: Vec<bool>,
}

impl<'a> Tables<'a> {
    pub fn of<V: States<NodeState>>(
        alloc: Global,
        scenario: &'a Scenario,
        states: &V,
    ) -> Result<Tables<'a>, Memory>
        requires each { length (V.list states.now) ≡ node_count scenario.now }
        requires succ { All (λ state. AllNodes scenario.now state.succ) (V.list states.now) }
        ensures { IfOk result (HoldFacts scenario.entry.now (V.list states.now)) }
    {
        scenario.recall_range();
        let order = scenario.order();
        let members = members_of(alloc, scenario.nodes(), states)?;
        let ListFacts { best, passed } = read_lists(alloc, &order, &members, states)?;
        let ring = ring_of(alloc, &best)?;
        let skipped = skipped_ranks(alloc, order.ranks, &ring, &best)?;
        Ok(Tables {
            members,
            best,
            ring,
            ranks: order.ranks,
            skipped,
            passed,
        })
    }
}
