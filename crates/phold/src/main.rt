//! The program `phold`: runs PHOLD, the benchmark of parallel discrete-event simulation, on the
//! simulation kernel.
#![tactic(auto)]

mod options;
mod running;

use std::process::ExitCode;

fn main(rt: HostRuntime) -> ExitCode {
    running::perform(&rt, &rt)
}
