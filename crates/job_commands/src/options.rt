//! The options of the commands, and the settings that they make.

ghost use Rattle.std.specs.Prelude.{◌≡◌, IfErr, IfOk, Some, false, map};
ghost use Rattle.clap.specs.Simple.{new_rule};
ghost use Rattle.clap.specs.Words.{found_of, rows_of, rule_of};
ghost use Rattle.job_commands.specs.Commands.{AddsRules, flag_rule, live_rules, number_rule, pace_rules, report_rules};
ghost use Rattle.job_commands.specs.Commands.{sweep_rules};
ghost use Rattle.job_commands.specs.Options.{AreRefused, AsksFor, AsksForSweep, IsFlag, IsGiven, Says};

use clap::{Arg, ArgAction, ArgMatches, Command};
use rate_limit::{Asked, Settings, SettingsError};
use std::alloc::{AllocError, Global};

/// An option that takes a whole number: its name, and its help.
pub type Number<'a> = (&'a str, &'a str);

/// When a migration begins.
const START: Number<'static> = ("start", "Tick at which the first round begins [default: 0]");

/// Where a warm start begins.
const BASE: Number<'static> = (
    "base",
    "Tick before which the destination has the guest's memory [default: none]",
);

/// The number of threads allowed.
const WORKERS: Number<'static> = ("workers", "Threads that work side by side [default: 1]");

/// How a migration is paced.
const PACE: [Number<'static>; 7] = [
    (
        "min",
        "Least rate, in pages per 1,000 ticks [default: 1000]",
    ),
    (
        "max",
        "Greatest rate, in pages per 1,000 ticks [default: 5000]",
    ),
    (
        "inc",
        "Added to a round's dirtying rate, in pages per 1,000 ticks [default: 500]",
    ),
    (
        "threshold",
        "Stop once a round dirties fewer pages [default: 64]",
    ),
    ("rounds", "Most rounds [default: 30]"),
    START,
    BASE,
];

/// What a report shows besides the plan.
const REPORT: [Number<'static>; 3] = [
    ("window", "Length of a window, in ticks [default: 1000]"),
    ("hot", "Windows that make a page hot [default: 2]"),
    WORKERS,
];

/// The threads and lanes of a live run.
const LIVE: [Number<'static>; 4] = [
    WORKERS,
    ("streams", "Streams that pages are sent over [default: 1]"),
    (
        "replayers",
        "Threads that change the guest's pages [default: 1]",
    ),
    ("lane", "Frames that each lane has room for [default: 1024]"),
];

/// What all cases of a sweep have in common.
const SWEEP: [Number<'static>; 3] = [START, BASE, WORKERS];

/// Returns an option of this name.
fn option<'a>(alloc: Global, name: &'a str, help: &'a str) -> Arg<'a>
    ensures rule { rule_of result ≡ record (new_rule name.entry.now) { long = Some name.entry.now } }
    ensures local { result.global ≡ false }
{
    Arg::new(alloc, name).long(name).help(help)
}

/// Returns an option that takes a whole number.
pub fn number<'a>(alloc: Global, name: &'a str, help: &'a str) -> Arg<'a>
    ensures rule { rule_of result ≡ number_rule name.entry.now }
    ensures local { result.global ≡ false }
{
    option(alloc, name, help)
        .value_name("N")
        .action(ArgAction::Set)
        .value_parser(clap::value_parser!(u64))
}

/// Returns an option that is present or absent.
pub fn flag<'a>(alloc: Global, name: &'a str, help: &'a str) -> Arg<'a>
    ensures rule { rule_of result ≡ flag_rule name.entry.now }
    ensures local { result.global ≡ false }
{
    option(alloc, name, help).action(ArgAction::SetTrue)
}

/// Returns the command with these options, each of which takes a whole number.
pub fn with_numbers<'a>(
    alloc: Global,
    mut command: Command<'a>,
    numbers: &[Number<'a>],
) -> Result<Command<'a>, AllocError>
    ensures { IfOk result (λ new. AddsRules command.entry (map (λ n. number_rule n.0.now) numbers.now) new) }
{
    for (name, help) in numbers {
        command = command.arg(number(alloc, name, help))?;
    }
    Ok(command)
}

/// Returns the command with the options that set a migration's pace.
fn with_pace<'a>(alloc: Global, command: Command<'a>) -> Result<Command<'a>, AllocError>
    ensures { IfOk result (λ new. AddsRules command.entry pace_rules new) }
{
    let command = with_numbers(alloc, command, &PACE)?;
    command.arg(flag(
        alloc,
        "skip",
        "Skip pages that are written again while a round sends its pages",
    ))
}

/// Returns the command with the options of a report.
pub fn with_report<'a>(alloc: Global, command: Command<'a>) -> Result<Command<'a>, AllocError>
    ensures { IfOk result (λ new. AddsRules command.entry report_rules new) }
{
    let command = with_pace(alloc, command)?;
    with_numbers(alloc, command, &REPORT)
}

/// Returns the command with the options of a live run.
pub(crate) fn with_live<'a>(alloc: Global, command: Command<'a>) -> Result<Command<'a>, AllocError>
    ensures { IfOk result (λ new. AddsRules command.entry live_rules new) }
{
    let command = with_pace(alloc, command)?;
    let command = with_numbers(alloc, command, &LIVE)?;
    command.arg(flag(
        alloc,
        "at-stop",
        "Write the memory at the tick where the guest stops",
    ))
}

/// Returns the command with the options of a sweep.
pub fn with_sweep<'a>(alloc: Global, command: Command<'a>) -> Result<Command<'a>, AllocError>
    ensures { IfOk result (λ new. AddsRules command.entry sweep_rules new) }
{
    with_numbers(alloc, command, &SWEEP)
}

/// Returns the number given for an option.
pub fn number_given(matches: &ArgMatches, name: &str) -> Option<u64>
    ensures { Says (rows_of (found_of matches.now)) name.now result }
{
    matches.get_one::<u64>(name)
}

/// Returns the number given for an option, or the default.
pub fn number_or(matches: &ArgMatches, name: &str, default: u64) -> u64
    ensures { IsGiven (rows_of (found_of matches.now)) name.now default result }
{
    number_given(matches, name).unwrap_or(default)
}

/// Returns whether a flag is present.
pub fn is_flag(matches: &ArgMatches, name: &str) -> bool
    ensures { IsFlag (rows_of (found_of matches.now)) name.now result }
{
    matches.get_flag(name)
}

/// Returns what the options of a sweep ask for in each of its cases.
pub fn sweep_options(matches: &ArgMatches) -> Asked
    ensures { AsksForSweep (rows_of (found_of matches.now)) result }
{
    Asked {
        start: number_or(matches, "start", Asked::DEFAULTS.start),
        workers: number_or(matches, "workers", Asked::DEFAULTS.workers),
        base: number_given(matches, "base"),
        ..Asked::DEFAULTS
    }
}

/// Returns what the options of a report or of a live run ask for.
fn asked_of(matches: &ArgMatches) -> Asked
    ensures { AsksFor (rows_of (found_of matches.now)) result }
{
    Asked {
        min: number_or(matches, "min", Asked::DEFAULTS.min),
        max: number_or(matches, "max", Asked::DEFAULTS.max),
        increment: number_or(matches, "inc", Asked::DEFAULTS.increment),
        threshold: number_or(matches, "threshold", Asked::DEFAULTS.threshold),
        rounds: number_or(matches, "rounds", Asked::DEFAULTS.rounds),
        start: number_or(matches, "start", Asked::DEFAULTS.start),
        window: number_or(matches, "window", Asked::DEFAULTS.window),
        hot: number_or(matches, "hot", Asked::DEFAULTS.hot),
        workers: number_or(matches, "workers", Asked::DEFAULTS.workers),
        streams: number_or(matches, "streams", Asked::DEFAULTS.streams),
        replayers: number_or(matches, "replayers", Asked::DEFAULTS.replayers),
        lane: number_or(matches, "lane", Asked::DEFAULTS.lane),
        skip: is_flag(matches, "skip"),
        base: number_given(matches, "base"),
    }
}

/// Returns the settings that a command's options make, or the first that is out of its range.
pub fn settings_of(matches: &ArgMatches) -> Result<Settings, SettingsError>
    ensures made { IfOk result (λ settings. AsksFor (rows_of (found_of matches.now)) settings) }
    ensures refused { IfErr result (λ e. AreRefused (rows_of (found_of matches.now)) e) }
{
    Settings::new(asked_of(matches))
}
