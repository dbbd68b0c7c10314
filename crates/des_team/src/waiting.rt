//! How a thread waits for the other end of a ring.
use std::sync::Wait;
use std::thread::Parker;
use std::{hint, thread};

/// How often a thread looks again before it sleeps. This is cheaper than a wake-up. More would take
/// the processor from the thread that is waited for, if there are too few processors.
const SPINS: u32 = 300;

/// A turn has one pause of the processor, and one more for each so many turns before it. So a thread
/// looks often at first. It looks for some 50 to 100 microseconds, where a pause takes 5 to 9
/// nanoseconds.
const TURNS_FOR_A_PAUSE: u32 = 4;

/// Whether it took so many turns that the thread was to sleep.
pub fn is_long(turns: u32) -> bool {
    turns >= SPINS
}

/// Waits a turn: the first turns are short, the later ones sleep until the parker is woken.
pub fn wait_a_turn<R: Wait>(rt: &R, turn: u32, parker: &Parker) {
    if turn >= SPINS {
        parker.park(rt);
        return;
    }
    for _ in 0..1 + turn / TURNS_FOR_A_PAUSE {
        hint::spin_loop();
    }
}
