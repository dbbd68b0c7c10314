//! The rings between the caller and a worker.
use crate::named::Named;
use crate::order::{Order, Reply};
use crate::waiting::wait_a_turn;
use des_machine::{Machine, Scribe};
use rtrb::{Consumer, Producer};
use std::sync::Wait;
use std::thread::Parker;

/// The caller's ends.
#[derive(Drop)]
pub struct Link<M: Machine, S: Scribe<M> + Drop, J: Named<M>> {
    pub orders: Producer<Order<M, S, J>>,
    pub replies: Consumer<Reply<M, S, J>>,
    /// Whether the caller had to wait long for a reply.
    pub is_slow: bool,
}

/// The worker's ends.
#[derive(Drop)]
pub struct Desk<M: Machine, S: Scribe<M> + Drop, J: Named<M>> {
    pub orders: Consumer<Order<M, S, J>>,
    pub replies: Producer<Reply<M, S, J>>,
}

/// The next item, or `None` if no other can come, and how many turns it took.
pub fn next_item<R: Wait, T>(rt: &R, ring: &mut Consumer<T>, parker: &Parker) -> (Option<T>, u32) {
    let mut turn = 0u32;
    for _ in rt.forever() {
        // An empty ring is not asked for an item: each answer has the size of one.
        if !ring.is_empty() || ring.is_abandoned() {
            // The last item may have come between the two looks.
            return (ring.pop().ok(), turn);
        }
        wait_a_turn(rt, turn, parker);
        turn = turn.saturating_add(1);
    }
    unreachable!()
}
