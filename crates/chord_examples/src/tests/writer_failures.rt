//! Runs by any engine whose writers fail.
use crate::examples::engines::{ENGINES, Engine, Shape, run_by};
use crate::examples::table::TWO_LOOKUPS;
use crate::tests::by_engine::{PAIR, TEAMS};
use crate::tests::ring_of_three::{is_beginning, two_lookups};
use crate::tests::steps::holds;
use chord_event::RunError;
use chord_scenario::Scenario;
use chord_trace::Watched;
use std::io;
use std::io::{ErrorKind, Write};
use std::process::Abort;
use std::sync::Wait;
use std::thread::Threads;

/// A writer with room for some bytes, which takes a limited number of them in a call. After that it fails, or takes
/// nothing.
#[derive(Drop)]
struct Bounded {
    taken: Vec<u8>,
    room: usize,
    most: usize,
    takes_nothing: bool,
}

impl Write for Bounded {
    fn write(&mut self, buf: &[u8]) -> io::Result<usize> {
        let count = buf.len().min(self.room).min(self.most);
        if count == 0 {
            return if self.takes_nothing {
                Ok(0)
            } else {
                Err(io::Error::from(ErrorKind::Other))
            };
        }
        self.taken.extend_from_slice(&buf[..count])?;
        self.room -= count;
        Ok(count)
    }

    fn flush(&mut self) -> io::Result<()> {
        Ok(())
    }
}

/// Asserts that a run of the two lookups has written what its writer has room for, and that it fails unless that is
/// all.
fn fills<T: Abort + AllocGlobal + Threads + Wait + Sync>(
    rt: &T,
    engine: Engine,
    shape: Shape,
    scenario: &Scenario,
    bounded: Bounded,
) {
    let room = bounded.room;
    let expected = if room < TWO_LOOKUPS.trace.len() {
        Some(RunError::Write)
    } else {
        None
    };
    let mut writer = Watched::new(bounded);
    let fault = run_by(rt, rt.alloc(), engine, shape, scenario, &mut writer).err();
    let how = (engine, shape, room);
    holds(rt, fault == expected, &how);
    let taken = writer.into_inner().taken;
    holds(rt, is_beginning(taken.as_slice(), room), &how);
}

/// Runs the two lookups with each room for bytes up to the whole trace. The writers take them one by one or in whole
/// pieces, and then fail or take nothing.
fn fills_each_room<T: Abort + AllocGlobal + Threads + Wait + Sync>(
    rt: &T,
    engine: Engine,
    shape: Shape,
) {
    let scenario = two_lookups(rt, 50);
    for room in 0..=TWO_LOOKUPS.trace.len() {
        for (most, takes_nothing) in [(1, false), (1, true), (190, false), (190, true)] {
            let bounded = Bounded {
                taken: Vec::new(rt.alloc()),
                room,
                most,
                takes_nothing,
            };
            fills(rt, engine, shape, &scenario, bounded);
        }
    }
}

#[test]
fn writers_that_fail_by_engines(rt: HostRuntime) {
    for engine in ENGINES {
        fills_each_room(&rt, engine, PAIR);
    }
}

#[test]
fn writers_that_fail_by_teams(rt: HostRuntime) {
    for shape in TEAMS {
        fills_each_room(&rt, Engine::Team, shape);
    }
}
