//! The command line.
use clap::{Arg, ArgAction, ArgMatches, Command, value_parser};
use phold_rules::Settings;
use std::alloc::{AllocError, Global};

/// What the arguments ask for.
#[derive(Drop)]
pub struct Order {
    pub settings: Settings,
    /// How many threads run it.
    pub workers: u32,
    /// The file for the trace, if one is wanted.
    pub trace: Option<String>,
}

/// The command line with all its options.
pub fn command<'a>(alloc: Global) -> Result<Command<'a>, AllocError> {
    let arguments = vec![in alloc;
        number(
            alloc,
            "nodes",
            "Number of nodes, 2 to 1000000 [default: 1024]",
            (2, 1_000_000)
        ),
        number(
            alloc,
            "jobs",
            "Jobs of each node at the start, 1 to 1024 [default: 1]",
            (1, 1024)
        ),
        number(
            alloc,
            "remote",
            "Hops of a million that go to another node, 0 to 1000000 [default: 500000]",
            (0, 1_000_000)
        ),
        number(
            alloc,
            "lookahead",
            "Least delay of a hop in microseconds, 1 to 1000000000 [default: 1000]",
            (1, 1_000_000_000)
        ),
        number(
            alloc,
            "mean",
            "Mean of what a delay has beyond that in microseconds, 0 to 1000000000 [default: 9000]",
            (0, 1_000_000_000)
        ),
        number(
            alloc,
            "seed",
            "Seed of all draws, 0 to 9223372036854775807 [default: 1]",
            (0, i64::MAX)
        ),
        number(
            alloc,
            "duration",
            "End of the run in microseconds, 1 to 1000000000000000 [default: 1000000]",
            (1, 1_000_000_000_000_000)
        ),
        number(
            alloc,
            "max-events",
            "Most events of the run, 1 to 549755813888 [default: 100000000]",
            (1, 549_755_813_888)
        ),
        number(
            alloc,
            "workers",
            "Number of worker threads, 1 to 64 [default: 1]",
            (1, 64)
        ),
        option(
            alloc,
            "trace",
            "FILE",
            "File for the trace, a line for each event: its time, its node and the node that it goes to [default: no trace]"
        ),
    ]?;
    Command::new(alloc, "phold")
        .version("0.2.0")
        .about(
            "Runs PHOLD, the benchmark of parallel discrete-event simulation, and prints its report",
        )
        .after_help(
            "Exit status: 0 on success, 2 if the arguments are refused, 3 if the run fails.",
        )
        .args(arguments)
}

fn option<'a>(alloc: Global, name: &'a str, value_name: &'a str, help: &'a str) -> Arg<'a> {
    Arg::new(alloc, name)
        .long(name)
        .value_name(value_name)
        .help(help)
        .action(ArgAction::Set)
}

/// An option that takes a number in this range.
fn number<'a>(alloc: Global, name: &'a str, help: &'a str, range: (i64, i64)) -> Arg<'a> {
    option(alloc, name, "NUMBER", help).value_parser(value_parser!(i64).range(range.0..=range.1))
}

/// What the options ask for.
pub fn order_of(alloc: Global, matches: &ArgMatches<'_>) -> Result<Order, AllocError> {
    let trace = match matches.get_str("trace") {
        Some(name) => Some(String::from_str(alloc, name)?),
        None => None,
    };
    let settings = Settings {
        nodes: matches.get_one::<u32>("nodes").unwrap_or(1024),
        jobs: matches.get_one::<u32>("jobs").unwrap_or(1),
        remote: matches.get_one::<u32>("remote").unwrap_or(500_000),
        lookahead: matches.get_one::<u64>("lookahead").unwrap_or(1000),
        mean: matches.get_one::<u64>("mean").unwrap_or(9000),
        seed: matches.get_one::<u64>("seed").unwrap_or(1),
        duration: matches.get_one::<u64>("duration").unwrap_or(1_000_000),
        max_events: matches.get_one::<u64>("max-events").unwrap_or(100_000_000),
        trace: trace.is_some(),
    };
    Ok(Order {
        settings,
        workers: matches.get_one::<u32>("workers").unwrap_or(1),
        trace,
    })
}
