//! What a worker's thread does.
ghost use Rattle.std.specs.Prelude.{◌≡◌, Some};

use crate::course::Course;
use crate::link::{Desk, next_item};
use crate::named::Named;
use des_machine::{Machine, Scribe};
use std::sync::Wait;

/// Runs the parts that come, until no more can come or a reply finds no room.
pub fn serve<M: Machine, S: Scribe<M> + Drop, J: Named<M>, R: Wait>(
    rt: &R,
    course: &Course<'_, M>,
    desk: Desk<M, S, J>,
    worker: usize,
)
    requires { J.run ≡ Some (course.now.machine.now, course.now.layout.now) }
{
    let &Course {
        alloc,
        machine,
        layout,
        parkers,
        ..
    } = course;
    let (Some(caller), Some(mine)) = (parkers.first(), parkers.get(worker)) else {
        return;
    };
    let mut desk = desk;
    for _ in rt.forever() {
        let (order, _turns) = next_item(rt, &mut desk.orders, mine);
        let Some(order) = order else {
            break;
        };
        let reply = order.run(alloc, machine, layout);
        if desk.replies.push(reply).is_err() {
            break;
        }
        caller.unpark();
    }
    // A caller that waits for a reply has to see that none can come.
    drop(desk);
    caller.unpark();
}
