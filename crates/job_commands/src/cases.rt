//! The cases of a sweep, as words.

ghost use Rattle.std.specs.Prelude.{[], ◌∷◌, ◌++◌, ◌≡◌, ◌<◌, ◌≤◌, ℕ, List, false, length, map};
ghost use Rattle.std.specs.Prelude.{Err, IfErr, IfNone, IfOk, IfSome};
ghost use Rattle.migration_model.specs.Rates.{AreSettings};
ghost use Rattle.job_commands.specs.Cases.{AreCases, IsCase, IsNoCase, IsNumber, RefusesCase, RefusesWords};
ghost use Rattle.job_commands.specs.Cases.{SpellsNumbers};
ghost use Rattle.clap.specs.Words.{found_of, rows_of, rule_of};
ghost use Rattle.job_commands.specs.Commands.{AddsRules, case_rule, sweep_rules};
ghost use Rattle.job_commands.specs.Jobs.{AsksForCases, SweepFails};

use crate::command::{WordsError, WordsRefusal};
use crate::options::{sweep_options, with_sweep};
use clap::{Arg, ArgAction, ArgMatches, Command};
use rate_limit::{Asked, Settings};
use std::alloc::{AllocError, Global};

/// The most cases of a sweep.
const MAX_CASES: usize = 256;

/// The most digits of a number of a case.
const MAX_DIGITS: usize = 13;

/// Returns the argument of the cases.
fn cases_arg<'a>(alloc: Global) -> Arg<'a>
    ensures rule { rule_of result ≡ case_rule }
    ensures local { result.global ≡ false }
{
    Arg::new(alloc, "case")
        .value_name("CASE")
        .required(true)
        .num_args(1..)
        .action(ArgAction::Append)
        .help("min,max,inc,threshold,rounds,skip: six numbers, the last 0 or 1")
}

/// Returns the command with the options and the cases of a sweep. It takes any number of cases: too many are refused
/// later.
pub fn with_cases<'a>(alloc: Global, command: Command<'a>) -> Result<Command<'a>, AllocError>
    ensures { IfOk result (λ new. AddsRules command.entry (sweep_rules ++ case_rule ∷ []) new) }
{
    let command = with_sweep(alloc, command)?;
    command.arg(cases_arg(alloc))
}

/// Returns a number of 1 to 13 digits. A plus, which `parse` also takes, is not a digit.
fn number_of(word: &str) -> Option<u64>
    ensures number { IfSome result (λ n. IsNumber word.now n) }
    ensures none { IfNone result ((n : ℕ) → ¬ IsNumber word.now n) }
{
    if word.len() > MAX_DIGITS || word.starts_with('+') {
        return None;
    }
    word.parse::<u64>().ok()
}

/// Returns the six numbers of a case.
fn numbers_of(word: &str) -> Option<[u64; 6]>
    ensures numbers { IfSome result (λ numbers. SpellsNumbers word.now numbers) }
    ensures none { IfNone result ((numbers : List ℕ) → length numbers ≡ 6 → ¬ SpellsNumbers word.now numbers) }
{
    let mut parts = word.split(',');
    let mut numbers = [0; 6];
    for number in numbers.iter_mut() {
        *number = number_of(parts.next()?)?;
    }
    if parts.next().is_some() {
        return None;
    }
    Some(numbers)
}

/// Returns what a case asks for, besides the options that all cases share.
fn asked_of(options: &Asked, word: &str) -> Option<Asked>
    ensures asked { IfSome result (λ asked. IsCase options.now word.now asked) }
    ensures none { IfNone result (IsNoCase options.now word.now) }
{
    let [min, max, increment, threshold, rounds, skip] = numbers_of(word)?;
    if skip > 1 {
        return None;
    }
    Some(Asked {
        min,
        max,
        increment,
        threshold,
        rounds,
        skip: skip == 1,
        ..*options
    })
}

/// Returns the settings of the case with this number, or why it has none.
fn case_of(options: &Asked, number: usize, word: &str) -> Result<Settings, WordsRefusal>
    ensures settings { IfOk result (λ settings. IsCase options.now word.now settings) }
    ensures in_range { IfOk result (λ settings. AreSettings settings) }
    ensures refused { IfErr result (λ refusal. RefusesCase options.now number word.now refusal) }
{
    let Some(asked) = asked_of(options, word) else {
        return Err(WordsRefusal::Case(number));
    };
    Settings::new(asked).map_err(|error| WordsRefusal::CaseSettings(number, error))
}

/// Returns the settings of all cases, in order, or why the first refused case has none.
fn cases_of(alloc: Global, options: &Asked, words: &[&str]) -> Result<Vec<Settings>, WordsError>
    ensures each { IfOk result (λ cases. AreCases options.now (map (λ w. w.now) words.now) cases.items) }
    ensures few { IfOk result (λ cases. length cases.items ≤ 256) }
    ensures refused { IfErr result (λ e. RefusesWords options.now (map (λ w. w.now) words.now) e) }
    ensures many { 256 < length words.now → result ≡ Err (WordsError.Refused WordsRefusal.TooManyCases) }
{
    if words.len() > MAX_CASES {
        return Err(WordsError::Refused(WordsRefusal::TooManyCases));
    }
    let mut cases = Vec::with_capacity(alloc, words.len())?;
    for (number, word) in words.iter().enumerate() {
        let settings = case_of(options, number, word)?;
        cases.push(settings)?;
    }
    Ok(cases)
}

/// Returns the cases that the options and the words of a sweep ask for, and the number of workers.
pub fn cases_and_workers(
    alloc: Global,
    options: &ArgMatches,
) -> Result<(Vec<Settings>, usize), WordsError>
    ensures made { IfOk result (λ sweep. AsksForCases (rows_of (found_of options.now)) sweep.0.items sweep.1) }
    ensures failed { IfErr result (SweepFails (rows_of (found_of options.now))) }
{
    let asked = sweep_options(options);
    let words = options.get_strs("case").unwrap_or(&[]);
    let cases = cases_of(alloc, &asked, words)?;
    Ok((cases, asked.workers as usize))
}
