//! The results of the parts, in the order of the parts.
ghost use Rattle.std.specs.Prelude.{◌≡◌, None, length, IfOk, ◌<◌, ℕ, slice_index_or};
ghost use Rattle.std.specs.List.{AllByRecursion};
ghost use Rattle.des_parts.specs.Slots.{in_slots};
ghost use Rattle.des_parts.specs.Ordering.{AreInOrder, HasEachOnce, IsFilled, parts_of};

use crate::part_run::Done;
use des_event::Memory;
use std::alloc::Global;

/// `parts` empty places.
pub fn empty_slots<T: Drop, B: Drop, P: Drop>(
    alloc: Global,
    parts: u32,
) -> Result<Vec<Option<Done<T, B, P>>>, Memory>
    ensures long { IfOk result (λ slots. length slots.items ≡ parts) }
    ensures empty { IfOk result (λ slots. AllByRecursion (λ slot. slot ≡ None) slots.items) }
{
    let mut slots = Vec::new(alloc);
    for _part in 0..parts {
        slots.push(None)?;
    }
    Ok(slots)
}

/// What the places hold.
pub fn take_out<T: Drop, B: Drop, P: Drop>(
    alloc: Global,
    slots: Vec<Option<Done<T, B, P>>>,
) -> Result<Vec<Done<T, B, P>>, Memory>
    ensures { IfOk result (λ list. list.items ≡ in_slots slots.items) }
{
    let mut list = Vec::new(alloc);
    for slot in slots {
        if let Some(done) = slot {
            list.push(done)?;
        }
    }
    Ok(list)
}

/// Puts the result of each part at the place of the part.
fn place<T: Drop, B: Drop, P: Drop>(
    alloc: Global,
    parts: u32,
    dones: Vec<Done<T, B, P>>,
) -> Result<Vec<Option<Done<T, B, P>>>, Memory>
    requires once { HasEachOnce parts (parts_of dones.items) }
    ensures long { IfOk result (λ slots. length slots.items ≡ parts) }
    ensures filled { IfOk result (λ slots. (k : ℕ) → k < parts → IsFilled dones.items k (slice_index_or slots.items k None)) }
{
    let mut slots = empty_slots(alloc, parts)?;
    for done in dones {
        let part = done.part as usize;
        slots[part] = Some(done);
    }
    Ok(slots)
}

/// The results of the parts, in the order of the parts. There is one result for each part.
///
/// # Errors
///
/// `Memory`, if an allocation fails.
pub fn in_part_order<T: Drop, B: Drop, P: Drop>(
    alloc: Global,
    parts: u32,
    dones: Vec<Done<T, B, P>>,
) -> Result<Vec<Done<T, B, P>>, Memory>
    requires once { HasEachOnce parts (parts_of dones.items) }
    ensures { IfOk result (λ list. AreInOrder dones.items parts list.items) }
{
    // All that follows goes by part order, which makes its proof an induction over the parts.
    let slots = place(alloc, parts, dones)?;
    take_out(alloc, slots)
}
