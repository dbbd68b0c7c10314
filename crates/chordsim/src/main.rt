//! The program `chordsim`: simulates a Chord ring from a scenario file.
#![tactic(auto)]

mod execution;
mod failure;
mod judging;
mod status;

use chord_command::read_process;
use std::process::ExitCode;

fn main(rt: HostRuntime) -> ExitCode {
    match read_process(&rt) {
        Ok(order) => execution::carry_out(&rt, &rt, &order),
        Err(fault) => status::refuse(&rt, fault),
    }
}
