//! Helpers for lists of nodes.
ghost use Rattle.std.specs.Prelude.{◌≡◌, OnOk};
ghost use Rattle.chord_node.specs.Bootstraps.{first_other};
ghost use Rattle.chord_node.specs.Ring.{or_itself};

use chord_event::{Listed, Memory};

/// The first node of a list that is not this one.
pub fn first_other(nodes: &[u32], node: u32) -> Option<u32>
    ensures { result ≡ first_other node nodes.now }
{
    nodes.iter().copied().find(|other| *other != node)
}

/// Adds a node to a list that has none.
pub fn push_if_empty(nodes: &mut Listed<u32>, node: u32) -> Result<(), Memory>
    ensures { OnOk result (nodes.new ≡ or_itself node nodes.old) }
{
    if nodes.as_slice().is_empty() {
        nodes.push(node)?;
    }
    Ok(())
}
