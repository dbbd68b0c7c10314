//! How many events each node has handled.
ghost use Rattle.std.specs.Prelude.{◌≡◌, ℕ, ◌+◌, ◌<◌, ◌^◌, length, slice_index};
ghost use Rattle.std.specs.List.{All};
ghost use Rattle.des_dealt.specs.Loads.{events_at, events_of};

use des_parts::{Done, Entry};

/// Adds 1 to the load of the target of each entry.
fn count_entries<P: Drop>(loads: &mut Vec<u64>, entries: &[Entry<P>])
    requires targets { All (λ entry. entry.target < length loads.old.items) entries.now }
    requires room { (node : ℕ) → slice_index loads.old.items node + events_of node entries.now < 2 ^ 64 }
    ensures long { length loads.new.items ≡ length loads.old.items }
    ensures counted { (node : ℕ) → slice_index loads.new.items node ≡ slice_index loads.old.items node + events_of node entries.now }
{
    for entry in entries {
        loads[entry.target as usize] += 1;
    }
}

/// Adds to the load of each node the number of its events in a window.
pub(crate) fn count_events<T: Drop, B: Drop, P: Drop>(loads: &mut Vec<u64>, dones: &[Done<T, B, P>])
    requires targets { All (λ done. All (λ entry. entry.target < length loads.old.items) done.entries.items) dones.now }
    requires room { (node : ℕ) → slice_index loads.old.items node + events_at node dones.now < 2 ^ 64 }
    ensures long { length loads.new.items ≡ length loads.old.items }
    ensures counted { (node : ℕ) → slice_index loads.new.items node ≡ slice_index loads.old.items node + events_at node dones.now }
{
    for done in dones {
        count_entries(loads, done.entries.as_slice());
    }
}
