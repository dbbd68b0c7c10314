//! The arguments of the program, read by clap.
ghost use Rattle.std.specs.Prelude.{◌≡◌, ◌↔◌, Some, IsTrue, true, map, codes, is_some, option_map, string_bytes, [], OnOk, IfOk, IfErr, IfSome};
ghost use Rattle.clap.specs.Words.{fault_of, first_of, first_value, found_of, kind_of, matches_of, one_of, one_text, rows_of, takes};
ghost use Rattle.clap.specs.declared.error.kind.ErrorKind.TheVariants.{OutOfMemory};
ghost use Rattle.chord_command.specs.Commands.{OptionNames, check_app, ids_app, judge_app, run_app};
ghost use Rattle.chord_command.specs.Orders.{HasFiles, HasJudging, HasOptions, HasPlan, IsCountUpTo, IsJudged, IsOrderOf, IsRunOf, TakesWords, count_or, engine_for, engine_named, engine_of};
ghost use Rattle.chord_command.specs.declared.words.WordFault.TheVariants.{Memory};

use crate::commands::{check_command, ids_command, judge_command, run_command, whole_command};
use crate::order::{Files, Judging, Order};
use chord_plan::{Engine, Plan, Split};
use clap::error::ErrorKind;
use clap::{ArgMatches, Command, Error};
use std::alloc::{AllocError, Global};

/// Why the arguments of the program give no order.
#[derive(Drop)]
pub enum WordFault {
    /// Clap refuses them, with this text. For `--help` and `--version` it is the text that they ask for.
    Refused(Error),
    /// One of them is not UTF-8 text.
    NotText,
    /// An allocation failed.
    Memory,
}

impl From<AllocError> for WordFault {
    ghost from_gives = { λ _ fault. fault ≡ Memory };

    fn from(_error: AllocError) -> WordFault {
        WordFault::Memory
    }
}

impl From<Error> for WordFault {
    ghost from_gives = { λ error fault. kind_of error ≡ OutOfMemory → fault ≡ Memory };

    fn from(error: Error) -> WordFault {
        if error.kind() == ErrorKind::OutOfMemory {
            WordFault::Memory
        } else {
            WordFault::Refused(error)
        }
    }
}

/// Reads the arguments of the program, its name first, then `check`, `ids`, `judge` or `run`, and then options.
/// Arguments that clap does not take are refused; so are `--help` and `--version`, with the text to print.
pub fn read_words(alloc: Global, words: Vec<String>) -> Result<Order, WordFault>
    ensures order { IfOk result (IsOrderOf (map string_bytes words.items)) }
    ensures taken { TakesWords (map string_bytes words.items) → IfErr result (λ e. e ≡ WordFault.Memory) }
{
    order_in(alloc, words.as_slice())
}

/// The order of these arguments. The one after the program's name picks the command, which reads the rest.
fn order_in(alloc: Global, words: &[String]) -> Result<Order, WordFault>
    ensures order { IfOk result (IsOrderOf (map string_bytes words.now)) }
    ensures taken { TakesWords (map string_bytes words.now) → IfErr result (λ e. e ≡ WordFault.Memory) }
{
    let Some((_, rest)) = words.split_first() else {
        return Err(refusal(alloc, words));
    };
    let Some(name) = rest.first() else {
        return Err(refusal(alloc, words));
    };
    match name.as_str() {
        "check" => Ok(Order::Check(files_of_check(alloc, rest)?)),
        "ids" => Ok(Order::Ids(files_of_ids(alloc, rest)?)),
        "judge" => {
            let (files, judging) = judge_options(alloc, rest)?;
            Ok(Order::Judge { files, judging })
        }
        "run" => {
            let (files, plan, trace) = run_options(alloc, rest)?;
            Ok(Order::Run { files, plan, trace })
        }
        _ => Err(refusal(alloc, words)),
    }
}

fn files_of_check(alloc: Global, words: &[String]) -> Result<Files, WordFault>
    ensures accepted { OnOk result (fault_of check_app (map string_bytes words.now) ≡ []) }
    ensures files { IfOk result (HasFiles (matches_of check_app (map string_bytes words.now))) }
    ensures taken { takes check_app (map string_bytes words.now) ≡ true → IfErr result (λ e. e ≡ WordFault.Memory) }
{
    let command = check_command(alloc)?;
    let matches = command.try_get_matches_from(words)?;
    files_in(alloc, &matches)
}

fn files_of_ids(alloc: Global, words: &[String]) -> Result<Files, WordFault>
    ensures accepted { OnOk result (fault_of ids_app (map string_bytes words.now) ≡ []) }
    ensures files { IfOk result (HasFiles (matches_of ids_app (map string_bytes words.now))) }
    ensures taken { takes ids_app (map string_bytes words.now) ≡ true → IfErr result (λ e. e ≡ WordFault.Memory) }
{
    let command = ids_command(alloc)?;
    let matches = command.try_get_matches_from(words)?;
    files_in(alloc, &matches)
}

fn judge_options(alloc: Global, words: &[String]) -> Result<(Files, Judging), WordFault>
    ensures accepted { OnOk result (fault_of judge_app (map string_bytes words.now) ≡ []) }
    ensures options { IfOk result (λ r. IsJudged (matches_of judge_app (map string_bytes words.now)) r.0 r.1) }
    ensures taken { takes judge_app (map string_bytes words.now) ≡ true → IfErr result (λ e. e ≡ WordFault.Memory) }
{
    let command = judge_command(alloc)?;
    let matches = command.try_get_matches_from(words)?;
    judge_options_in(alloc, &matches)
}

fn judge_options_in(alloc: Global, matches: &ArgMatches<'_>) -> Result<(Files, Judging), WordFault>
    requires { is_some (first_value (found_of matches.now) (codes "scenario")) ≡ true }
    ensures options { IfOk result (λ r. IsJudged (rows_of (found_of matches.now)) r.0 r.1) }
    ensures memory { IfErr result (λ e. e ≡ WordFault.Memory) }
{
    let files = files_in(alloc, matches)?;
    let judging = judging_in(alloc, matches)?;
    Ok((files, judging))
}

fn judging_in(alloc: Global, matches: &ArgMatches<'_>) -> Result<Judging, AllocError>
    ensures { IfOk result (HasJudging (rows_of (found_of matches.now))) }
{
    Ok(Judging {
        trace: text_in(alloc, matches, "trace")?,
        digest: text_in(alloc, matches, "digest")?,
        edges: text_in(alloc, matches, "edges")?,
    })
}

fn run_options(alloc: Global, words: &[String]) -> Result<RunOptions, WordFault>
    ensures order { IfOk result (λ r. IsRunOf (map string_bytes words.now) r.0 r.1 r.2) }
    ensures taken { ((names : OptionNames) → takes (run_app names) (map string_bytes words.now) ≡ true) → IfErr result (λ e. e ≡ WordFault.Memory) }
{
    let command = run_command(alloc)?;
    let matches = command.try_get_matches_from(words)?;
    let options = run_options_in(alloc, &matches);
    drop(matches);
    options
}

/// The files, the plan and the file for the trace that options of `run` name.
type RunOptions = (Files, Plan, Option<String>);

fn run_options_in(alloc: Global, matches: &ArgMatches<'_>) -> Result<RunOptions, WordFault>
    requires scenario { is_some (first_value (found_of matches.now) (codes "scenario")) ≡ true }
    requires workers { IfSome (one_text (found_of matches.now) (codes "workers")) (IsCountUpTo 64) }
    requires parts { IfSome (one_text (found_of matches.now) (codes "parts")) (IsCountUpTo 512) }
    ensures options { IfOk result (λ r. HasOptions (rows_of (found_of matches.now)) r.0 r.1 r.2) }
    ensures memory { IfErr result (λ e. e ≡ WordFault.Memory) }
{
    let plan = plan_in(matches);
    let trace = text_in(alloc, matches, "trace")?;
    let files = files_in(alloc, matches)?;
    Ok((files, plan, trace))
}

fn plan_in(matches: &ArgMatches<'_>) -> Plan
    requires workers { IfSome (one_text (found_of matches.now) (codes "workers")) (IsCountUpTo 64) }
    requires parts { IfSome (one_text (found_of matches.now) (codes "parts")) (IsCountUpTo 512) }
    ensures { HasPlan (rows_of (found_of matches.now)) result }
{
    let workers = count_in(matches, "workers", 1);
    let parts = count_in(matches, "parts", workers);
    let engine = engine_in(matches, workers, parts);
    let split = split_in(matches);
    Plan {
        engine,
        workers,
        parts,
        split,
    }
}

/// The serial engine with `--serial`, else the one that is named, else the one for these workers and parts.
fn engine_in(matches: &ArgMatches<'_>, workers: u32, parts: u32) -> Engine
    ensures { result ≡ engine_of (rows_of (found_of matches.now)) workers parts }
{
    if has_text(matches, "serial", "true") {
        return Engine::Serial;
    }
    match matches.get_str("engine") {
        Some(name) => engine_named(name),
        None => engine_for(workers, parts),
    }
}

/// The engine of a name: clap takes no name but these three.
fn engine_named(name: &str) -> Engine
    ensures { result ≡ engine_named name.now }
{
    match name {
        "serial" => Engine::Serial,
        "crew" => Engine::Crew,
        _ => Engine::Team,
    }
}

/// The engine where none is named.
fn engine_for(workers: u32, parts: u32) -> Engine
    ensures { result ≡ engine_for workers parts }
{
    if workers == 1 && parts == 1 {
        Engine::Serial
    } else {
        Engine::Team
    }
}

fn split_in(matches: &ArgMatches<'_>) -> Split
    ensures { (result ≡ Split.Blocks) ↔ (first_of (codes "split") (rows_of (found_of matches.now)) ≡ Some (codes "block")) }
{
    if has_text(matches, "split", "block") {
        Split::Blocks
    } else {
        Split::RoundRobin
    }
}

/// Whether the option has this value.
fn has_text(matches: &ArgMatches<'_>, id: &str, text: &str) -> bool
    ensures { IsTrue result ↔ (first_of id.now (rows_of (found_of matches.now)) ≡ Some text.now) }
{
    match matches.get_str(id) {
        Some(found) => found == text,
        None => false,
    }
}

/// The number that the option was given, and the default without the option.
fn count_in(matches: &ArgMatches<'_>, id: &str, default: u32) -> u32
    requires { IfSome (one_text (found_of matches.now) id.now) (IsCountUpTo 512) }
    ensures { result ≡ count_or default (one_of id.now (rows_of (found_of matches.now))) }
{
    matches.get_one::<u32>(id).unwrap_or(default)
}

fn files_in(alloc: Global, matches: &ArgMatches<'_>) -> Result<Files, WordFault>
    requires { is_some (first_value (found_of matches.now) (codes "scenario")) ≡ true }
    ensures files { IfOk result (HasFiles (rows_of (found_of matches.now))) }
    ensures memory { IfErr result (λ e. e ≡ WordFault.Memory) }
{
    let scenario = matches.get_str("scenario").unwrap();
    let scenario = String::from_str(alloc, scenario)?;
    let latency = text_in(alloc, matches, "latency")?;
    Ok(Files { scenario, latency })
}

fn text_in(alloc: Global, matches: &ArgMatches<'_>, id: &str) -> Result<Option<String>, AllocError>
    ensures { IfOk result (λ text. first_of id.now (rows_of (found_of matches.now)) ≡ option_map string_bytes text) }
{
    match matches.get_str(id) {
        Some(text) => Ok(Some(String::from_str(alloc, text)?)),
        None => Ok(None),
    }
}

/// Why the whole command line refuses arguments that name none of its commands.
fn refusal(alloc: Global, words: &[String]) -> WordFault {
    match whole_command(alloc) {
        Ok(mut command) => {
            let fault = refusal_by(&mut command, words);
            // By one call: at the end of a function a struct is dropped field by field.
            drop(command);
            fault
        }
        Err(AllocError) => WordFault::Memory,
    }
}

/// Why this command line refuses these arguments, or that they name none of its commands.
fn refusal_by<'a>(command: &mut Command<'a>, words: &'a [String]) -> WordFault {
    match command.try_get_matches_from_mut(words) {
        Err(error) => WordFault::from(error),
        Ok(_) => no_command(command),
    }
}

/// What the command line says of arguments without a command.
fn no_command(command: &mut Command<'_>) -> WordFault {
    match command.error(ErrorKind::MissingSubcommand, "a command is required") {
        Ok(error) => WordFault::Refused(error),
        Err(AllocError) => WordFault::Memory,
    }
}
