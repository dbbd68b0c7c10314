//! The command line of the program, for clap to read.
ghost use Rattle.std.specs.Prelude.{◌≡◌, false, List, IfOk};
ghost use Rattle.clap.specs.Words.{Rule, app_of, new_app, rule_of};
ghost use Rattle.chord_command.specs.Commands.{HaveRules, IsEngineNames, IsSplitNames, Names, OptionNames, check_app, digest_rule, edges_rule, engine_rule, ids_app, judge_app, latency_rule, option_rule, parts_rule, rules_of_files, rules_of_judge, rules_of_run, run_app, scenario_rule, serial_rule, split_rule, trace_rule, with_rules, workers_rule};

use clap::{Arg, ArgAction, Command, value_parser};
use std::alloc::{AllocError, Global};

/// The version that `--version` prints. CHANGELOG.md says what is in it.
const VERSION: &str = "0.2.0";

/// The whole command line, which writes the texts for `--help` and `--version`, and refuses arguments that name
/// no command.
pub fn whole_command<'a>(alloc: Global) -> Result<Command<'a>, AllocError> {
    let mut whole = described(alloc);
    for command in commands(alloc)? {
        whole = whole.subcommand(command)?;
    }
    Ok(whole)
}

/// The commands of the program.
fn commands<'a>(alloc: Global) -> Result<Vec<Command<'a>>, AllocError> {
    let mut commands = Vec::new(alloc);
    push_built(&mut commands, check_command(alloc))?;
    push_built(&mut commands, ids_command(alloc))?;
    push_built(&mut commands, judge_command(alloc))?;
    push_built(&mut commands, run_command(alloc))?;
    Ok(commands)
}

/// Adds a command, if its allocations succeeded.
fn push_built<'a>(
    commands: &mut Vec<Command<'a>>,
    command: Result<Command<'a>, AllocError>,
) -> Result<(), AllocError> {
    commands.push(command?)?;
    Ok(())
}

/// The program's name, version and help, with no command yet.
fn described<'a>(alloc: Global) -> Command<'a> {
    Command::new(alloc, "chordsim")
        .version(VERSION)
        .about(
            "Simulates a ring of the Chord protocol under churn, as a scenario file describes it",
        )
        .after_help(
            "All times are in microseconds. Exit status: 0 on success, 1 if a file is refused, 2 if the arguments are refused, 3 if a run fails.",
        )
        .subcommand_required(true)
}

/// The command `check`.
pub fn check_command<'a>(alloc: Global) -> Result<Command<'a>, AllocError>
    ensures { IfOk result (λ c. app_of c ≡ check_app) }
{
    let about = "Checks the files, and prints how many nodes and commands the scenario has";
    command_with(
        alloc,
        "check",
        "chordsim check",
        about,
        file_arguments(alloc)?,
    )
}

/// The command `ids`.
pub fn ids_command<'a>(alloc: Global) -> Result<Command<'a>, AllocError>
    ensures { IfOk result (λ c. app_of c ≡ ids_app) }
{
    let about = "Prints the name and the decimal identifier of each node, in file order";
    command_with(alloc, "ids", "chordsim ids", about, file_arguments(alloc)?)
}

/// The command `judge`.
pub fn judge_command<'a>(alloc: Global) -> Result<Command<'a>, AllocError>
    ensures { IfOk result (λ c. app_of c ≡ judge_app) }
{
    let about = "Reads a trace of the scenario, and prints what became of each lookup, as CSV";
    command_with(
        alloc,
        "judge",
        "chordsim judge",
        about,
        judge_arguments(alloc)?,
    )
}

/// The command `run`.
pub fn run_command<'a>(alloc: Global) -> Result<Command<'a>, AllocError>
    ensures { IfOk result (λ c. (names : OptionNames) × (app_of c ≡ run_app names)) }
{
    let about = "Runs the scenario, and prints its trace and then its report";
    command_with(alloc, "run", "chordsim run", about, run_arguments(alloc)?)
}

/// A command with these arguments.
fn command_with<'a>(
    alloc: Global,
    name: &'a str,
    bin_name: &str,
    about: &'a str,
    arguments: Vec<Arg<'a>>,
) -> Result<Command<'a>, AllocError>
    ensures { IfOk result (λ c. (rules : List Rule) → HaveRules arguments.entry.items rules → app_of c ≡ with_rules (new_app name.now) rules) }
{
    Command::new(alloc, name)
        .about(about)
        .bin_name(bin_name)?
        .args(arguments)
}

/// The files of a scenario.
fn file_arguments<'a>(alloc: Global) -> Result<Vec<Arg<'a>>, AllocError>
    ensures { IfOk result (λ v. HaveRules v.items rules_of_files) }
{
    let arguments = vec![in alloc; scenario_argument(alloc), latency_argument(alloc)]?;
    Ok(arguments)
}

/// The files of a scenario, and what is read and written of a run of it.
fn judge_arguments<'a>(alloc: Global) -> Result<Vec<Arg<'a>>, AllocError>
    ensures { IfOk result (λ v. HaveRules v.items rules_of_judge) }
{
    let arguments = vec![in alloc;
        scenario_argument(alloc),
        latency_argument(alloc),
        read_trace_argument(alloc),
        digest_argument(alloc),
        edges_argument(alloc),
    ]?;
    Ok(arguments)
}

/// The files of a scenario, and how it is run.
fn run_arguments<'a>(alloc: Global) -> Result<Vec<Arg<'a>>, AllocError>
    ensures { IfOk result (λ v. (names : OptionNames) × HaveRules v.items (rules_of_run names)) }
{
    let arguments = vec![in alloc;
        scenario_argument(alloc),
        latency_argument(alloc),
        workers_argument(alloc),
        parts_argument(alloc),
        split_argument(alloc),
        engine_argument(alloc),
        serial_argument(alloc),
        trace_argument(alloc),
    ]?;
    Ok(arguments)
}

/// An option that takes a value.
fn option_argument<'a>(alloc: Global, name: &'a str, value_name: &'a str, help: &'a str) -> Arg<'a>
    ensures rule { rule_of result ≡ option_rule name.now }
    ensures local { result.global ≡ false }
{
    Arg::new(alloc, name)
        .long(name)
        .value_name(value_name)
        .help(help)
        .action(ArgAction::Set)
}

fn scenario_argument<'a>(alloc: Global) -> Arg<'a>
    ensures rule { rule_of result ≡ scenario_rule }
    ensures local { result.global ≡ false }
{
    let help = "Scenario file: TOML, at most 16777216 bytes";
    option_argument(alloc, "scenario", "FILE", help).required(true)
}

fn latency_argument<'a>(alloc: Global) -> Arg<'a>
    ensures rule { rule_of result ≡ latency_rule }
    ensures local { result.global ≡ false }
{
    let help = "Latency file: CSV, at most 16777216 bytes, rows of two node names and \
        the microseconds between them [default: no rows]";
    option_argument(alloc, "latency", "FILE", help)
}

fn workers_argument<'a>(alloc: Global) -> Arg<'a>
    ensures rule { rule_of result ≡ workers_rule }
    ensures local { result.global ≡ false }
{
    let help = "Number of worker threads, 1 to 64 [default: 1]";
    option_argument(alloc, "workers", "COUNT", help).value_parser(value_parser!(u32).range(1..=64))
}

fn parts_argument<'a>(alloc: Global) -> Arg<'a>
    ensures rule { rule_of result ≡ parts_rule }
    ensures local { result.global ≡ false }
{
    let help =
        "Number of parts that the nodes are divided into, 1 to 512 [default: as many as workers]";
    option_argument(alloc, "parts", "COUNT", help).value_parser(value_parser!(u32).range(1..=512))
}

static SPLITS: [&str; 2] = ["rr", "block"];

fn split_argument<'a>(alloc: Global) -> Arg<'a>
    ensures rule { (names : Names) × IsSplitNames names × (rule_of result ≡ split_rule names) }
    ensures local { result.global ≡ false }
{
    let help =
        "How the nodes are divided: rr deals them out in turn, block keeps neighbours in the file \
        together [default: rr]";
    option_argument(alloc, "split", "WAY", help).value_parser(SPLITS.as_slice())
}

static ENGINES: [&str; 3] = ["serial", "crew", "team"];

fn engine_argument<'a>(alloc: Global) -> Arg<'a>
    ensures rule { (names : Names) × IsEngineNames names × (rule_of result ≡ engine_rule names) }
    ensures local { result.global ≡ false }
{
    let help =
        "What runs the scenario: serial is one event at a time on one thread, team has threads for \
        the whole run, crew starts threads in each window [default: serial with one worker and one part, else team]";
    option_argument(alloc, "engine", "NAME", help).value_parser(ENGINES.as_slice())
}

fn serial_argument<'a>(alloc: Global) -> Arg<'a>
    ensures rule { rule_of result ≡ serial_rule }
    ensures local { result.global ≡ false }
{
    Arg::new(alloc, "serial")
        .long("serial")
        .help(
            "Same as --engine serial, and wins over --engine; --workers, --parts and --split are then ignored",
        )
        .action(ArgAction::SetTrue)
}

fn read_trace_argument<'a>(alloc: Global) -> Arg<'a>
    ensures rule { rule_of result ≡ trace_rule }
    ensures local { result.global ≡ false }
{
    let help = "File with the trace of a run of the scenario [default: standard input]";
    option_argument(alloc, "trace", "FILE", help)
}

fn digest_argument<'a>(alloc: Global) -> Arg<'a>
    ensures rule { rule_of result ≡ digest_rule }
    ensures local { result.global ≡ false }
{
    let help =
        "File for what the table leaves out: how many messages of each kind there were, and the \
        lines of nodes, audits and timeouts; its old content is lost [default: none]";
    option_argument(alloc, "digest", "FILE", help)
}

fn edges_argument<'a>(alloc: Global) -> Arg<'a>
    ensures rule { rule_of result ≡ edges_rule }
    ensures local { result.global ≡ false }
{
    let help =
        "Times at which the numbers of messages begin anew, in their order, with commas between them \
        [default: none]";
    option_argument(alloc, "edges", "US,US,..", help)
}

fn trace_argument<'a>(alloc: Global) -> Arg<'a>
    ensures rule { rule_of result ≡ trace_rule }
    ensures local { result.global ≡ false }
{
    let help =
        "File for the trace; its old content is lost, even if the scenario is then refused [default: \
        standard output]";
    option_argument(alloc, "trace", "FILE", help)
}
