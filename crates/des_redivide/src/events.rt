//! The pending events of a world that is divided again.
ghost use Rattle.std.specs.Prelude.{◌≡◌, ◌++◌, IfOk, OnOk};
ghost use Rattle.std.specs.List.{flat_map};
ghost use Rattle.des_parts.specs.Worlds.{events_of};

use des_event::{Brief, Event, Memory};
use des_parts::PartEvents;
use std::alloc::Global;

/// Moves all events of a part to the end of a list.
fn move_events<B: Brief + Drop>(
    part: &mut PartEvents<B>,
    list: &mut Vec<Event<B>>,
) -> Result<(), Memory>
    ensures { OnOk result (list.new.items ≡ list.old.items ++ events_of part.old) }
{
    list.append(&mut part.due)?;
    while let Some(event) = part.later.pop_first() {
        list.push(event)?;
    }
    Ok(())
}

/// The events of all parts.
pub(crate) fn all_events<B: Brief + Drop>(
    alloc: Global,
    parts: Vec<PartEvents<B>>,
) -> Result<Vec<Event<B>>, Memory>
    ensures { IfOk result (λ list. list.items ≡ flat_map events_of parts.items) }
{
    let mut list = Vec::new(alloc);
    for part in parts {
        let mut part = part;
        let moved = move_events(&mut part, &mut list);
        // By one call: at each end of a function a struct is dropped field by field.
        drop(part);
        moved?;
    }
    Ok(list)
}
