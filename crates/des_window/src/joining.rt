//! One scribe for each part.
ghost use Rattle.std.specs.Prelude.{◌≡◌, ℕ, ◌≤◌, ◌^◌, List, length, IfOk};
ghost use Rattle.des_window.specs.Shares.{HaveCountedShares, shares_to};

use des_event::Memory;
use des_machine::{Machine, Scribe};
use std::alloc::Global;

/// All scribes joined, in their order.
pub fn join_all<M: Machine, S: Scribe<M> + Drop>(
    alloc: Global,
    machine: &M,
    scribes: Vec<S>,
) -> Result<S, Memory>
    requires room { (share : ℕ → List M.Piece) × HaveCountedShares (S.HasCounted machine.now) share scribes.items × (length (shares_to share (length scribes.items)) ≤ 2 ^ 40) }
    ensures pieces { IfOk result (λ joined. (share : ℕ → List M.Piece) → HaveCountedShares (S.HasCounted machine.now) share scribes.items → S.HasCounted machine.now (shares_to share (length scribes.items)) joined) }
{
    let mut joined = S::start(alloc, machine);
    for scribe in scribes {
        joined = joined.join(machine, scribe)?;
    }
    Ok(joined)
}
