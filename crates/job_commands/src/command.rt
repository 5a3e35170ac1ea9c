//! The command line: words in, a job or a refusal out.

ghost use Rattle.std.specs.Prelude.{[], ◌≡◌, ◌↔◌, IfErr, IfOk, IsTrue, codes, map, option_map, string_bytes};
ghost use Rattle.clap.specs.Values.{kind_of};
ghost use Rattle.clap.specs.Words.{app_of, found_of, rows_of};
ghost use Rattle.job_commands.specs.Commands.{AreHelpNames, FailsByKind, IsLeaf, TellsError, WordsAsk, WordsFail};
ghost use Rattle.job_commands.specs.Commands.{help_names, precopy_line};
ghost use Rattle.job_commands.specs.Jobs.{AsksForJob, IsCommand, RefusesJob};
ghost use Rattle.job_commands.specs.declared.command.WordsError.TheVariants.{Memory, Refused};
ghost use Rattle.job_commands.specs.declared.command.WordsRefusal.TheVariants.{Settings};

use crate::cases::{cases_and_workers, with_cases};
use crate::options::{is_flag, settings_of, with_live, with_report};
use clap::error::ErrorKind;
use clap::{ArgMatches, Command};
use job_kinds::{Job, Show};
use rate_limit::SettingsError;
use std::alloc::{AllocError, AllocFailed, Global};
use std::env::Args;
use std::rt::Env;
use std::{env, io};
use thiserror::Error;

/// Why words make no job.
#[derive(Debug, Drop)]
pub enum WordsError {
    /// Memory ran out while the words were read.
    Memory,
    /// A request for help, with the text to show.
    Help(String),
    /// Words that the command line does not have, with the text to show.
    Usage(String),
    /// Words that say what the program does not do.
    Refused(WordsRefusal),
}

/// Why words that the command line has are refused. It follows `precopy: ` in a fault line.
#[derive(Clone, Copy, Debug, PartialEq, Eq, Error)]
pub enum WordsRefusal {
    /// A setting is out of its range.
    #[error("settings {0}")]
    Settings(SettingsError),
    /// There are more than 256 cases.
    #[error("cases")]
    TooManyCases,
    /// This case, counting from 0, is not six numbers.
    #[error("case {0}")]
    Case(usize),
    /// A setting of this case is out of its range.
    #[error("case {0} {1}")]
    CaseSettings(usize, SettingsError),
}

impl From<AllocError> for WordsError {
    ghost from_gives = { λ _ e. e ≡ Memory };

    fn from(_error: AllocError) -> WordsError {
        WordsError::Memory
    }
}

impl<T: Drop> From<AllocFailed<T>> for WordsError {
    ghost from_gives = { λ _ e. e ≡ Memory };

    fn from(_error: AllocFailed<T>) -> WordsError {
        WordsError::Memory
    }
}

impl From<WordsRefusal> for WordsError {
    ghost from_gives = { λ refusal e. e ≡ Refused refusal };

    fn from(refusal: WordsRefusal) -> WordsError {
        WordsError::Refused(refusal)
    }
}

impl From<SettingsError> for WordsError {
    ghost from_gives = { λ error e. e ≡ Refused (Settings error) };

    fn from(error: SettingsError) -> WordsError {
        WordsError::Refused(WordsRefusal::Settings(error))
    }
}

/// Returns the arguments in a list, allocated for all of them at once. Lack of memory for it is an error of the words.
fn gathered(alloc: Global, args: Args<Global>) -> Result<Vec<String>, AllocError> {
    let mut words = Vec::with_capacity(alloc, args.len())?;
    for word in args {
        words.push(word)?;
    }
    Ok(words)
}

/// Returns the program's words, the first being its name.
pub fn words<R: Env + AllocGlobal>(rt: &R) -> Result<Vec<String>, WordsError> {
    match env::args(rt) {
        Ok(args) => Ok(gathered(rt.alloc(), args)?),
        Err(error) if error.kind() == io::ErrorKind::OutOfMemory => Err(WordsError::Memory),
        Err(_) => Err(WordsError::Usage(String::from_str(
            rt.alloc(),
            "error: an argument is not UTF-8\n",
        )?)),
    }
}

/// Returns a command with no options yet.
pub fn leaf_command<'a>(alloc: Global, name: &'a str, about: &'a str) -> Command<'a>
    ensures { IsLeaf result name.entry.now [] }
{
    Command::new(alloc, name).about(about)
}

/// Returns the program's commands.
fn commands<'a>(alloc: Global) -> Result<Command<'a>, AllocError>
    ensures { IfOk result (λ line. app_of line ≡ precopy_line) }
{
    let image = "Writes the memory after all writes of the trace on standard input";
    let report = "Writes the working sets of the trace on standard input";
    let live =
        "Performs a migration over the trace on standard input, and writes the memory that it leaves";
    let sweep =
        "Plans many cases over the trace on standard input, and writes their sums and the best one";
    leaf_command(
        alloc,
        "precopy",
        "Predicts and performs pre-copy migrations over a trace of guest writes",
    )
    .subcommand_required(true)
    .subcommand(leaf_command(alloc, "image", image))?
    .subcommand(with_report(alloc, leaf_command(alloc, "report", report))?)?
    .subcommand(with_live(alloc, leaf_command(alloc, "live", live))?)?
    .subcommand(with_cases(alloc, leaf_command(alloc, "sweep", sweep))?)
}

/// Returns the error for a `clap` refusal, with `clap`'s text.
pub fn refusal_of(alloc: Global, error: &clap::Error) -> WordsError
    ensures { TellsError (kind_of error.now) result }
{
    if error.kind() == ErrorKind::OutOfMemory {
        return WordsError::Memory;
    }
    match format!(in alloc; "{error}") {
        Err(_) => WordsError::Memory,
        Ok(text) if error.use_stderr() => WordsError::Usage(text),
        Ok(text) => WordsError::Help(text),
    }
}

/// Returns the words after `help`, if it follows the program's name.
fn help_names(words: &[String]) -> Option<&[String]>
    ensures { option_map (λ names. map string_bytes names.now) result ≡ help_names (map string_bytes words.now) }
{
    match words {
        [_, word, names @ ..] if word.as_str() == "help" => Some(names),
        _ => None,
    }
}

/// Returns whether `help` has a text for what follows it: nothing, the name of a command, or `help`.
fn are_help_names(names: &[String]) -> bool
    ensures { IsTrue result ↔ AreHelpNames (map string_bytes names.now) }
{
    match names {
        [] => true,
        [name] => matches!(
            name.as_str(),
            "image" | "report" | "live" | "sweep" | "help"
        ),
        _ => false,
    }
}

/// Returns a `clap` refusal as it is reported. About `help`, the contract of `clap` says only that it is a request or a
/// wrong word, so what follows it decides.
fn told(words: &[String], refusal: WordsError) -> WordsError
    requires { FailsByKind precopy_line (map string_bytes words.now) refusal }
    ensures { WordsFail (map string_bytes words.now) result }
{
    let Some(names) = help_names(words) else {
        return refusal;
    };
    let has_text = are_help_names(names);
    match refusal {
        WordsError::Help(text) | WordsError::Usage(text) if has_text => WordsError::Help(text),
        WordsError::Help(text) => WordsError::Usage(text),
        other => other,
    }
}

/// Returns the report that its options ask for.
fn report_of(options: &ArgMatches) -> Result<Job, WordsError>
    ensures made { IfOk result (λ job. AsksForJob (codes "report") (rows_of (found_of options.now)) job) }
    ensures refused { IfErr result (λ e. RefusesJob (codes "report") (rows_of (found_of options.now)) e) }
{
    Ok(Job::Report(settings_of(options)?))
}

/// Returns the live run that its options ask for.
fn live_of(options: &ArgMatches) -> Result<Job, WordsError>
    ensures made { IfOk result (λ job. AsksForJob (codes "live") (rows_of (found_of options.now)) job) }
    ensures refused { IfErr result (λ e. RefusesJob (codes "live") (rows_of (found_of options.now)) e) }
{
    let settings = settings_of(options)?;
    let show = if is_flag(options, "at-stop") {
        Show::Stop
    } else {
        Show::End
    };
    Ok(Job::Live(settings, show))
}

/// Returns the sweep that its options and cases ask for.
fn sweep_of(alloc: Global, options: &ArgMatches) -> Result<Job, WordsError>
    ensures made { IfOk result (λ job. AsksForJob (codes "sweep") (rows_of (found_of options.now)) job) }
    ensures refused { IfErr result (λ e. RefusesJob (codes "sweep") (rows_of (found_of options.now)) e) }
{
    let (cases, workers) = cases_and_workers(alloc, options)?;
    Ok(Job::Sweep { cases, workers })
}

/// Returns the job that the command of this name asks for.
fn command_job(alloc: Global, name: &str, options: &ArgMatches) -> Result<Job, WordsError>
    requires { IsCommand name.now }
    ensures made { IfOk result (λ job. AsksForJob name.now (rows_of (found_of options.now)) job) }
    ensures refused { IfErr result (λ e. RefusesJob name.now (rows_of (found_of options.now)) e) }
{
    match name {
        "report" => report_of(options),
        "live" => live_of(options),
        "sweep" => sweep_of(alloc, options),
        _ => Ok(Job::Image),
    }
}

/// Returns the job that the words ask for, the first being the program's name.
pub fn job_of(alloc: Global, words: &[String]) -> Result<Job, WordsError>
    ensures made { IfOk result (λ job. WordsAsk (map string_bytes words.now) job) }
    ensures failed { IfErr result (λ e. WordsFail (map string_bytes words.now) e) }
{
    let matches = match commands(alloc)?.try_get_matches_from(words) {
        Ok(matches) => matches,
        Err(error) => return Err(told(words, refusal_of(alloc, &error))),
    };
    match matches.subcommand() {
        Some((name, options)) => command_job(alloc, name, options),
        None => Ok(Job::Image),
    }
}
