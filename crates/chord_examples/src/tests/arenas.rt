//! Records are placed up to the room, and each is dropped once.
use chord_arena::RecordArena;
use chord_event::Memory;
use std::cell::Cell;

/// A record that counts its drops.
struct Counted<'a> {
    number: u64,
    dropped: &'a Cell<u64>,
}

impl Drop for Counted<'_> {
    fn drop(self) {
        let Counted { number: _, dropped } = self;
        dropped.set(dropped.get().wrapping_add(1));
    }
}

#[test]
fn records_are_placed_up_to_the_room(rt: HostRuntime) -> Result<(), Memory> {
    let mut arena: RecordArena<u64> = RecordArena::new(rt.alloc());
    assert!(&rt; arena.place(7) == Err(7));
    arena.reserve(300)?;
    assert!(&rt; arena.room() == 512);
    for number in 0..512u64 {
        match arena.place(number) {
            Ok(ticket) => {
                assert!(&rt; ticket.index() as u64 == number);
                assert!(&rt; *arena.get(&ticket) == number);
            }
            Err(_) => assert!(&rt; false),
        }
    }
    assert!(&rt; arena.place(512) == Err(512));
    assert!(&rt; arena.len() == 512);
    Ok(())
}

#[test]
fn records_are_dropped_by_clear_and_at_the_end(rt: HostRuntime) -> Result<(), Memory> {
    let dropped = Cell::new(0);
    let mut arena = RecordArena::new(rt.alloc());
    arena.reserve(300)?;
    for number in 0..512u64 {
        let counted = Counted {
            number,
            dropped: &dropped,
        };
        assert!(&rt; arena.place(counted).is_ok());
    }
    assert!(&rt; dropped.get() == 0);
    arena.clear();
    assert!(&rt; dropped.get() == 512);
    assert!(&rt; arena.len() == 0);
    assert!(&rt; arena.room() == 512);
    let last = Counted {
        number: 7,
        dropped: &dropped,
    };
    match arena.place(last) {
        Ok(ticket) => assert!(&rt; arena.get(&ticket).number == 7),
        Err(_) => assert!(&rt; false),
    }
    drop(arena);
    assert!(&rt; dropped.get() == 513);
    Ok(())
}
