//! Nodes by name.
ghost use Rattle.std.specs.Prelude.{◌≡◌, ◌<◌, ◌^◌, length, IfOk};
ghost use Rattle.chord_scenario.specs.Settings.{index_of};
ghost use Rattle.chord_scenario.specs.Faults.{is_unknown};
ghost use Rattle.chord_scenario.specs.Index.{Indexes};

use crate::setting::Node;
use std::alloc::{AllocError, Global};
use std::collections::BTreeMap;

/// Maps the name of each node to its number. A name that several nodes have is mapped to the first.
fn index(alloc: Global, nodes: &[Node]) -> Result<BTreeMap<Vec<u8>, u32>, AllocError>
    requires { length nodes.now < 2 ^ 32 }
    ensures { IfOk result (Indexes nodes.now) }
{
    let mut map = BTreeMap::new(alloc);
    let mut i = nodes.len();
    while i > 0 {
        i -= 1;
        let name = Vec::from_slice(alloc, nodes[i].name.as_str().as_bytes())?;
        map.insert(name, i as u32)?;
    }
    Ok(map)
}

/// The nodes of a scenario and their numbers by name.
#[derive(Drop)]
pub(crate) struct Names<'a> {
    pub nodes: &'a [Node],
    index: BTreeMap<Vec<u8>, u32>,
    ghost indexed: { Indexes nodes.now index },
}

impl<'a> Names<'a> {
    /// The names of these nodes.
    pub fn new(alloc: Global, nodes: &'a [Node]) -> Result<Self, AllocError>
        requires { length nodes.now < 2 ^ 32 }
        ensures { IfOk result (λ names. names.nodes.now ≡ nodes.entry.now) }
    {
        let index = index(alloc, nodes)?;
        Ok(Names { nodes, index })
    }

    /// The number of the first node of a name.
    pub fn number_of(&self, name: &[u8]) -> Option<u32>
        ensures { result ≡ index_of name.now self.now.nodes.now }
    {
        self.index.get(name).copied()
    }

    /// Whether no node has this name.
    pub fn is_unknown(&self, name: &[u8]) -> bool
        ensures { result ≡ is_unknown self.now.nodes.now name.now }
    {
        self.number_of(name).is_none()
    }
}
