//! Merging the blocks of all parts into one list.
ghost use Rattle.std.specs.Prelude.{◌≡◌, IfOk};
ghost use Rattle.chord_trace.specs.Merging.{CanMerge, IsMerged, all_blocks};

use chord_event::{Block, Memory};
use std::alloc::Global;

/// The blocks of all lists, one list after another.
fn append_lists(alloc: Global, lists: Vec<Vec<Block>>) -> Result<Vec<Block>, Memory>
    ensures { IfOk result (λ all. all.items ≡ all_blocks lists.items) }
{
    let mut all = Vec::new(alloc);
    for list in lists {
        let mut list = list;
        all.append(&mut list)?;
    }
    Ok(all)
}

/// The blocks of all lists in one list, in the order of keys. Each list must be in that order.
pub fn merge_blocks(alloc: Global, lists: Vec<Vec<Block>>) -> Result<Vec<Block>, Memory>
    requires { CanMerge lists.items }
    ensures { IfOk result (λ blocks. IsMerged lists.items blocks.items) }
{
    let mut blocks = append_lists(alloc, lists)?;
    blocks.sort_unstable_by_key(|block| block.key);
    Ok(blocks)
}
