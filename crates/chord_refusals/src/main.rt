//! Does what allocates and starts threads: single calls of the library, and whole runs by each engine. A script makes
//! each allocation fail in turn, and each start of a thread (`tools/refusals`).
//!
//!     chord_refusals [TASK]
//!     chord_refusals list
//!
//! Without an argument all tasks are done. `list` prints their names. `few-windows` and `many-windows` are not among
//! them: they run 1,000 and 100,000 windows, and should take the same memory. The status is 0 if all is done; 3 if an
//! allocation failed, or 4 if a thread could not be started, and all that is promised of this held; and 1, with a line
//! that says what is wrong, if a promise did not hold.
#![tactic(auto)]

mod queues;
mod runs;
mod stop;
mod tasks;
mod texts;
mod windows;

use crate::stop::Stop;
use crate::tasks::{TASKS, do_task};
use std::env;
use std::process::ExitCode;
use std::rt::Env;
use std::sync::Wait;
use std::thread::Threads;

/// Prints a line.
fn print_line(rt: &impl Print, line: &str) -> Result<(), Stop> {
    println!(rt; "{line}").map_err(|_error| Stop::Wrong("cannot print"))
}

/// Does the task that the arguments name, or all tasks, or prints their names.
fn obey<T: AllocGlobal + Env + Print + Threads + Wait + Sync>(rt: &T) -> Result<(), Stop> {
    let Ok(words) = env::args(rt) else {
        return Err(Stop::Memory);
    };
    let words: Vec<String> = words.collect(rt.alloc())?;
    let name = words.get(1).map(|word| word.as_str());
    if name == Some("list") {
        return list_tasks(rt);
    }
    match name {
        Some(name) => do_task(rt, name)?,
        None => do_all(rt)?,
    }
    print_line(rt, "done")
}

/// Prints the names of all tasks.
fn list_tasks(rt: &impl Print) -> Result<(), Stop> {
    for name in TASKS {
        print_line(rt, name)?;
    }
    Ok(())
}

/// Does all tasks.
fn do_all<T: AllocGlobal + Threads + Wait + Sync>(rt: &T) -> Result<(), Stop> {
    for name in TASKS {
        do_task(rt, name)?;
    }
    Ok(())
}

fn main(rt: HostRuntime) -> ExitCode {
    match obey(&rt) {
        Ok(()) => ExitCode::from(0),
        Err(Stop::Memory) => ExitCode::from(3),
        Err(Stop::Worker) => ExitCode::from(4),
        Err(Stop::Wrong(what)) => {
            let _ = println!(&rt; "wrong: {what}");
            ExitCode::from(1)
        }
    }
}
