//! Nodes by their names.
ghost use Rattle.std.specs.Prelude.{IfOk};
ghost use Rattle.chord_scenario.specs.Index.{Indexes};

use chord_event::Memory;
use chord_scenario::Scenario;
use std::alloc::Global;
use std::collections::BTreeMap;

/// The numbers of the nodes by their names. A name that several nodes have is that of the first.
pub(crate) fn names_of(alloc: Global, scenario: &Scenario) -> Result<BTreeMap<Vec<u8>, u32>, Memory>
    ensures { IfOk result (Indexes scenario.now.nodes) }
{
    let mut names = BTreeMap::new(alloc);
    let mut node = scenario.nodes();
    while node > 0 {
        node -= 1;
        let name = Vec::from_slice(alloc, scenario.name(node).as_bytes())?;
        names.insert(name, node)?;
    }
    Ok(names)
}
