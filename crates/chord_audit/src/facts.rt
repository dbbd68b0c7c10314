//! The audit itself, from the tables of a ring.
ghost use Rattle.std.specs.Prelude.{◌≡◌, ℕ, ◌<◌, ◌^◌, ◌&&◌, IfOk, count_by, is_none, length, not};
ghost use Rattle.std.specs.List.{All, list_any, range_with_len};
ghost use Rattle.chord_scenario.specs.World.{node_count};
ghost use Rattle.chord_node.specs.Invariant.{AllNodes};
ghost use Rattle.chord_node.specs.declared.state.NodeState.{NodeState};
ghost use Rattle.chord_audit.specs.Audit.{audit_facts, AreStates};
ghost use Rattle.chord_audit.specs.Tables.{is_marked, is_marked_rank, node_at};

use crate::audit_line::AuditLine;
use crate::tables::Tables;
use chord_event::Memory;
use chord_node::NodeState;
use chord_scenario::Scenario;
use des_machine::States;
use std::alloc::Global;

/// The facts of a ring at a time in microseconds. There is one state for each node of the scenario.
/// The work grows with the entries of all lists, and with n log n for n nodes.
pub fn audit(
    alloc: Global,
    scenario: &Scenario,
    states: &[NodeState],
    time: u64,
) -> Result<AuditLine, Memory>
    requires each { length states.now ≡ node_count scenario.now }
    requires succ { All (λ state. AllNodes scenario.now state.succ) states.now }
    ensures { IfOk result (λ line. (state : ℕ → NodeState) → AreStates scenario.now states.now state → line ≡ audit_facts scenario.now state time) }
{
    audit_states(alloc, scenario, &states, time)
}

/// The same of states that lie wherever an engine keeps them.
pub fn audit_states<V: States<NodeState>>(
    alloc: Global,
    scenario: &Scenario,
    states: &V,
    time: u64,
) -> Result<AuditLine, Memory>
    requires each { length (V.list states.now) ≡ node_count scenario.now }
    requires succ { All (λ state. AllNodes scenario.now state.succ) (V.list states.now) }
    ensures { IfOk result (λ line. (state : ℕ → NodeState) → AreStates scenario.now (V.list states.now) state → line ≡ audit_facts scenario.now state time) }
{
    let tables = Tables::of(alloc, scenario, states)?;
    let dead = count_dead(&tables.members, &tables.best);
    let principals = count_principals(&tables.members, tables.ranks, &tables.passed);
    Ok(AuditLine {
        time,
        members: count_marked(&tables.members),
        dead,
        ring: count_marked(&tables.ring),
        ordered: !any_skipped(&tables.ring, tables.ranks, &tables.skipped),
        principals,
        sufficient: scenario.list() < principals && dead == 0,
    })
}

/// The number of marked nodes.
fn count_marked(marks: &[bool]) -> u32
    requires { length marks.now < 2 ^ 32 }
    ensures { result ≡ count_by (is_marked marks.now) (range_with_len 0 (length marks.now)) }
{
    let mut count = 0;
    for node in 0..marks.len() {
        if marks[node] {
            count += 1;
        }
    }
    count
}

/// The number of members without a best successor.
fn count_dead(members: &[bool], best: &[Option<u32>]) -> u32
    requires few { length members.now < 2 ^ 32 }
    requires best { length best.now ≡ length members.now }
    ensures { result ≡ count_by (λ n. is_marked members.now n && is_none (node_at best.now n)) (range_with_len 0 (length members.now)) }
{
    let mut count = 0;
    for node in 0..members.len() {
        if members[node] && best[node].is_none() {
            count += 1;
        }
    }
    count
}

/// Whether the rank of some ring node is skipped.
fn any_skipped(ring: &[bool], ranks: &[u32], skipped: &[bool]) -> bool
    requires ranks { length ranks.now ≡ length ring.now }
    requires within { All (λ rank. rank < length skipped.now) ranks.now }
    ensures { result ≡ list_any (λ n. is_marked ring.now n && is_marked_rank ranks.now skipped.now n) (range_with_len 0 (length ring.now)) }
{
    for node in 0..ring.len() {
        if ring[node] && skipped[ranks[node] as usize] {
            return true;
        }
    }
    false
}

/// The number of members whose rank is not skipped by a list.
fn count_principals(members: &[bool], ranks: &[u32], passed: &[bool]) -> u32
    requires few { length members.now < 2 ^ 32 }
    requires ranks { length ranks.now ≡ length members.now }
    requires within { All (λ rank. rank < length passed.now) ranks.now }
    ensures { result ≡ count_by (λ n. is_marked members.now n && not (is_marked_rank ranks.now passed.now n)) (range_with_len 0 (length members.now)) }
{
    let mut count = 0;
    for node in 0..members.len() {
        if members[node] && !passed[ranks[node] as usize] {
            count += 1;
        }
    }
    count
}
