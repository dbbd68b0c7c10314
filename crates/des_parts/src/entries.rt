//! What the events of a window leave in the trace.
ghost use Rattle.std.specs.Prelude.{◌≡◌, ◌⊎◌, ◌+◌, ◌≤◌, ◌^◌, ◌++◌, false, length, IfOk, IfErr, OnOk};
ghost use Rattle.std.specs.List.{All};
ghost use Rattle.des_machine.specs.Runs.{Adds, WritesFront};
ghost use Rattle.des_output.specs.Watched.{wrapped, has_failed};
ghost use Rattle.des_output.specs.Writing.{is_write};
ghost use Rattle.des_parts.specs.Entries.{HaveOwnKeys, IsMerged, all_entries, pieces_of};

use des_event::{Key, Memory, RunError};
use des_machine::{Machine, Scribe};
use des_output::Watched;
use std::alloc::Global;
use std::io::Write;

/// What an event left in the trace.
#[derive(Drop)]
pub struct Entry<P> {
    pub key: Key,
    pub target: u32,
    pub piece: P,
}

/// The entries of all lists, one list after another.
fn append_lists<P: Drop>(alloc: Global, lists: Vec<Vec<Entry<P>>>) -> Result<Vec<Entry<P>>, Memory>
    ensures { IfOk result (λ all. all.items ≡ all_entries lists.items) }
{
    let mut all = Vec::new(alloc);
    for list in lists {
        let mut list = list;
        all.append(&mut list)?;
    }
    Ok(all)
}

/// The entries of all lists in one list, in the order of their keys.
pub(crate) fn merge_entries<P: Drop>(
    alloc: Global,
    lists: Vec<Vec<Entry<P>>>,
) -> Result<Vec<Entry<P>>, Memory>
    requires { HaveOwnKeys (all_entries lists.items) }
    ensures { IfOk result (λ entries. IsMerged lists.items entries.items) }
{
    let mut entries = append_lists(alloc, lists)?;
    entries.sort_unstable_by_key(|entry| entry.key);
    Ok(entries)
}

/// Writes and counts the pieces of entries in their order.
pub(crate) fn put_entries<M: Machine, S: Scribe<M>, W: Write>(
    alloc: Global,
    machine: &M,
    entries: &[Entry<M::Piece>],
    scribe: &mut S,
    writer: &mut Watched<W>,
) -> Result<(), RunError>
    requires known { All (λ x. M.Known machine.now x.piece) entries.now }
    requires room { S.size scribe.old + length entries.now ≤ 2 ^ 40 }
    requires sound { has_failed writer.old ≡ false }
    ensures adds { OnOk result (Adds (S.text machine.now) (S.HasCounted machine.now) (W.contents (wrapped writer.old)) (W.contents (wrapped writer.new)) scribe.old scribe.new (pieces_of entries.now)) }
    ensures front { WritesFront (S.text machine.now) (W.contents (wrapped writer.old)) (W.contents (wrapped writer.new)) (pieces_of entries.now) }
    ensures writer { has_failed writer.new ≡ is_write result }
    ensures only { IfErr result (λ e. (e ≡ RunError.Memory) ⊎ (e ≡ RunError.Write)) }
{
    for entry in entries {
        scribe.put(alloc, machine, &entry.piece, writer)?;
    }
    Ok(())
}
