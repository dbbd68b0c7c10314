//! What a part leaves, in the terms of Chord.
ghost use Rattle.std.specs.Prelude.{◌≡◌, map, IfOk};
ghost use Rattle.std.specs.List.{All};
ghost use Rattle.chord_window.specs.Dones.{IsOfBlock, IsOwn, IsSame, entry_of, touched_of};

use chord_event::{Block, Body, Event, Memory};
use chord_node::NodeState;
use chord_trace::Piece;
use des_parts::{Entry, Touched};
use std::alloc::Global;

/// What a part ran in a window.
#[derive(Drop)]
pub struct Done {
    pub part: u32,
    /// The states of the nodes that it touched.
    pub nodes: Vec<NodeState>,
    /// The events that it made for the horizon or later.
    pub mail: Vec<Event>,
    /// What its events left in the trace, in the order of their keys.
    pub blocks: Vec<Block>,
    /// How many events it ran.
    pub events: u64,
}

/// The states alone: each knows its node.
fn states_of(alloc: Global, nodes: Vec<Touched<NodeState>>) -> Result<Vec<NodeState>, Memory>
    requires { All IsOwn nodes.items }
    ensures { IfOk result (λ states. nodes.items ≡ map touched_of states.items) }
{
    let mut states = Vec::new(alloc);
    for touched in nodes {
        states.push(touched.state)?;
    }
    Ok(states)
}

/// The states with their nodes.
fn nodes_of(alloc: Global, states: Vec<NodeState>) -> Result<Vec<Touched<NodeState>>, Memory>
    ensures { IfOk result (λ nodes. nodes.items ≡ map touched_of states.items) }
{
    let mut nodes = Vec::new(alloc);
    for state in states {
        let node = state.me;
        nodes.push(Touched { node, state })?;
    }
    Ok(nodes)
}

/// The blocks of entries.
pub(crate) fn blocks_of(alloc: Global, entries: Vec<Entry<Piece>>) -> Result<Vec<Block>, Memory>
    requires { All IsOfBlock entries.items }
    ensures { IfOk result (λ blocks. entries.items ≡ map entry_of blocks.items) }
{
    let mut blocks = Vec::new(alloc);
    for entry in entries {
        let Piece::OfEvent { block } = entry.piece else {
            unreachable!();
        };
        blocks.push(block)?;
    }
    Ok(blocks)
}

/// The entries of blocks.
fn entries_of(alloc: Global, blocks: Vec<Block>) -> Result<Vec<Entry<Piece>>, Memory>
    ensures { IfOk result (λ entries. entries.items ≡ map entry_of blocks.items) }
{
    let mut entries = Vec::new(alloc);
    for block in blocks {
        let (key, target) = (block.key, block.target);
        let piece = Piece::OfEvent { block };
        entries.push(Entry { key, target, piece })?;
    }
    Ok(entries)
}

impl Done {
    /// What the kernel's part leaves.
    pub(crate) fn of_kernel(
        alloc: Global,
        done: des_parts::Done<NodeState, Body, Piece>,
    ) -> Result<Done, Memory>
        requires nodes { All IsOwn done.nodes.items }
        requires entries { All IsOfBlock done.entries.items }
        ensures { IfOk result (λ d. IsSame d done) }
    {
        Ok(Done {
            part: done.part,
            nodes: states_of(alloc, done.nodes)?,
            mail: done.mail,
            blocks: blocks_of(alloc, done.entries)?,
            events: done.events,
        })
    }

    /// The same for the kernel.
    pub(crate) fn into_kernel(
        self,
        alloc: Global,
    ) -> Result<des_parts::Done<NodeState, Body, Piece>, Memory>
        ensures { IfOk result (IsSame self) }
    {
        Ok(des_parts::Done {
            part: self.part,
            nodes: nodes_of(alloc, self.nodes)?,
            mail: self.mail,
            entries: entries_of(alloc, self.blocks)?,
            events: self.events,
        })
    }
}
