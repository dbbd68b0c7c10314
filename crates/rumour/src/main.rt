//! The program `rumour`: lets a rumour spread among 12 nodes, and prints who heard it when. It is the
//! example of docs/kernel.md.
#![tactic(auto)]

mod running;
mod scribe;
mod spread;

use std::process::ExitCode;

fn main(rt: HostRuntime) -> ExitCode {
    running::perform(&rt, &rt)
}
