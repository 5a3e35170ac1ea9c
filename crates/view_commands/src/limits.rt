//! Limits in time and bytes, in place of rates and thresholds in ticks and pages.

ghost use Rattle.std.specs.Prelude.{◌≡◌, ◌≢◌, IfErr, IfNone, IfOk, IfSome, None, Some, false, map, true};
ghost use Rattle.clap.specs.Walk.{first_of};
ghost use Rattle.clap.specs.Words.{found_of, rows_of, rule_of};
ghost use Rattle.job_commands.specs.Commands.{AddsRules};
ghost use Rattle.view_commands.specs.Nearest.{TellsScale};
ghost use Rattle.view_commands.specs.Quantities.{IsRate, IsTime};
ghost use Rattle.view_commands.specs.Units.{AreLimitsSaid, HasNoUnits, IsNo, IsNoSample, IsSaid, RefusesWord, SaysBy};
ghost use Rattle.view_commands.specs.Units.{SaysSample, has_units, is_incomplete, quantity_rule, scale_in, scale_rules};
ghost use Rattle.view_commands.specs.Units.{unit_rules};
ghost use Rattle.view_commands.specs.declared.limits.LimitsRefusal.TheVariants.{Range, Settings};

use crate::quantities::{link_rate_of, sample_of, time_of};
use crate::ranges::{RangeRefusal, scale_refused};
use clap::{Arg, ArgAction, ArgMatches, Command};
use job_commands::{number, number_given};
use predictions::units::{Limits, Scale};
use rate_limit::SettingsError;
use std::alloc::{AllocError, Global};
use thiserror::Error;

/// Why words make no limits. It follows `precopy-view: ` in a fault line.
#[derive(Clone, Copy, Debug, PartialEq, Eq, Error)]
pub enum LimitsRefusal {
    /// The length of a tick is not a time.
    #[error("--tick: a number and its unit, us, ms, s, m or h, as in 1ms")]
    Tick,
    /// The downtime is not a time.
    #[error("--downtime: a number and its unit, us, ms, s, m or h, as in 300ms or 0.3s")]
    Downtime,
    /// The reserved part of the downtime is not a time.
    #[error("--reserve: a number and its unit, us, ms, s, m or h, as in 50ms")]
    Reserve,
    /// The rate of the link is not a rate.
    #[error("--link: a number and its unit, Kbit, Mbit, Gbit, KB, MB, GB, KiB, MiB or GiB, per second, as in 10Gbit")]
    Link,
    /// The rate of the first round is not a rate.
    #[error("--first: a number and its unit, Kbit, Mbit, Gbit, KB, MB, GB, KiB, MiB or GiB, per second, as in 1.5GB")]
    First,
    /// The sample is not two numbers.
    #[error("--sampled: two whole numbers with a slash between them, as in 16384/16777216")]
    Sampled,
    /// There is a link without a downtime, or what belongs to them without both.
    #[error("--link and --downtime go together, and --first and --reserve need them")]
    Incomplete,
    /// There are no limits, though they are needed.
    #[error("--link and --downtime are needed, as in --link 10Gbit --downtime 300ms")]
    Missing,
    /// There are options of Clark's rounds without the flag for these.
    #[error("--first, --inc, --rounds and --skip are of Clark's rounds, and need --clark")]
    NeedsClark,
    /// There are rates or a threshold in both kinds of words.
    #[error("--min, --max and --threshold cannot be used with --link and --downtime")]
    Mixed,
    /// There is no downtime, though one is needed in either kind of words.
    #[error("--down is needed, or --link and --downtime, as in --link 10Gbit --downtime 300ms")]
    NoBudget,
    /// There is a downtime in both kinds of words.
    #[error("--down cannot be used with --link and --downtime")]
    TwoBudgets,
    /// An amount is out of its range.
    #[error("{0}")]
    Range(RangeRefusal),
    /// Another setting is out of its range.
    #[error("settings {0}")]
    Settings(SettingsError),
}

impl From<RangeRefusal> for LimitsRefusal {
    ghost from_gives = { λ refusal e. e ≡ Range refusal };

    fn from(refusal: RangeRefusal) -> LimitsRefusal {
        LimitsRefusal::Range(refusal)
    }
}

impl From<SettingsError> for LimitsRefusal {
    ghost from_gives = { λ error e. e ≡ Settings error };

    fn from(error: SettingsError) -> LimitsRefusal {
        LimitsRefusal::Settings(error)
    }
}

/// An option of a quantity: its name, the name of its value, and its help.
type Quantity<'a> = (&'a str, &'a str, &'a str);

/// What a migration may take.
const LIMITS: [Quantity<'static>; 4] = [
    (
        "link",
        "RATE",
        "What the migration may use of the link, as in 10Gbit, 1250MB or 128MiB per second",
    ),
    (
        "first",
        "RATE",
        "What the first round may use [default: the whole link]",
    ),
    ("downtime", "TIME", "Longest downtime, as in 300ms or 0.3s"),
    (
        "reserve",
        "TIME",
        "The part of it for switching over and for devices [default: 0s]",
    ),
];

/// What ticks and pages stand for.
const SCALE: [Quantity<'static>; 2] = [
    (
        "tick",
        "TIME",
        "How long a tick of the trace is [default: 1ms]",
    ),
    (
        "sampled",
        "M/P",
        "The trace has M of the guest's P pages [default: all]",
    ),
];

/// Returns an option that takes a quantity.
fn quantity<'a>(alloc: Global, name: &'a str, value: &'a str, help: &'a str) -> Arg<'a>
    ensures rule { rule_of result ≡ quantity_rule name.entry.now }
    ensures local { result.global ≡ false }
{
    Arg::new(alloc, name)
        .long(name)
        .help(help)
        .value_name(value)
        .action(ArgAction::Set)
}

/// Returns the command with options that take quantities.
fn with_quantities<'a>(
    alloc: Global,
    mut command: Command<'a>,
    quantities: &[Quantity<'a>],
) -> Result<Command<'a>, AllocError>
    ensures { IfOk result (λ new. AddsRules command.entry (map (λ q. quantity_rule q.0.now) quantities.now) new) }
{
    for (name, value, help) in quantities {
        command = command.arg(quantity(alloc, name, value, help))?;
    }
    Ok(command)
}

/// Returns the command with the options of limits in time and bytes.
pub fn with_units<'a>(alloc: Global, command: Command<'a>) -> Result<Command<'a>, AllocError>
    ensures { IfOk result (λ new. AddsRules command.entry unit_rules new) }
{
    let command = with_quantities(alloc, command, &LIMITS)?;
    with_scale(alloc, command)
}

/// Returns the command with the options of what ticks and pages stand for.
pub fn with_scale<'a>(alloc: Global, command: Command<'a>) -> Result<Command<'a>, AllocError>
    ensures { IfOk result (λ new. AddsRules command.entry scale_rules new) }
{
    let command = with_quantities(alloc, command, &SCALE)?;
    command.arg(number(
        alloc,
        "page",
        "How many bytes a page of the trace has [default: 4096]",
    ))
}

/// What the options of limits say.
#[derive(Clone, Copy)]
pub(crate) struct Said {
    tick: Option<u64>,
    page: Option<u64>,
    sampled: Option<(u64, u64)>,
    link: Option<u64>,
    first: Option<u64>,
    downtime: Option<u64>,
    reserve: Option<u64>,
}

/// Returns an option's word, if it is given.
pub(crate) fn word_of<'a>(options: &ArgMatches<'a>, name: &str) -> Option<&'a str>
    ensures given { IfSome result (λ word. first_of name.now (rows_of (found_of options.now)) ≡ Some word.now) }
    ensures missing { IfNone result (first_of name.now (rows_of (found_of options.now)) ≡ None) }
{
    options.get_str(name)
}

/// Returns whether an option has a word.
pub(crate) fn has_word(options: &ArgMatches, name: &str) -> bool
    ensures none { result ≡ false → first_of name.now (rows_of (found_of options.now)) ≡ None }
    ensures some { result ≡ true → first_of name.now (rows_of (found_of options.now)) ≢ None }
{
    word_of(options, name).is_some()
}

/// Returns whether some option of limits, or of what ticks and pages stand for, is given.
pub fn says_units(options: &ArgMatches) -> bool
    ensures none { result ≡ false → HasNoUnits (rows_of (found_of options.now)) }
    ensures some { result ≡ true → ¬ HasNoUnits (rows_of (found_of options.now)) }
{
    has_word(options, "link")
        || has_word(options, "first")
        || has_word(options, "downtime")
        || has_word(options, "reserve")
        || has_word(options, "tick")
        || has_word(options, "sampled")
        || number_given(options, "page").is_some()
}

/// Returns an option's time, if it is given, or a refusal if its word is not a time.
fn time_said(
    options: &ArgMatches,
    name: &str,
    refusal: LimitsRefusal,
) -> Result<Option<u64>, LimitsRefusal>
    ensures said { IfOk result (SaysBy IsTime (rows_of (found_of options.now)) name.now) }
    ensures refused { IfErr result (λ e. (e ≡ refusal) × IsNo IsTime (rows_of (found_of options.now)) name.now) }
{
    match word_of(options, name) {
        None => Ok(None),
        Some(word) => match time_of(word) {
            Some(time) => Ok(Some(time)),
            None => Err(refusal),
        },
    }
}

/// Returns an option's rate, if it is given, or a refusal if its word is not a rate.
fn rate_said(
    options: &ArgMatches,
    name: &str,
    refusal: LimitsRefusal,
) -> Result<Option<u64>, LimitsRefusal>
    ensures said { IfOk result (SaysBy IsRate (rows_of (found_of options.now)) name.now) }
    ensures refused { IfErr result (λ e. (e ≡ refusal) × IsNo IsRate (rows_of (found_of options.now)) name.now) }
{
    match word_of(options, name) {
        None => Ok(None),
        Some(word) => match link_rate_of(word) {
            Some(rate) => Ok(Some(rate)),
            None => Err(refusal),
        },
    }
}

/// Returns the sample of its option, if it is given, or a refusal if its word is not a sample.
fn sample_said(options: &ArgMatches) -> Result<Option<(u64, u64)>, LimitsRefusal>
    ensures said { IfOk result (SaysSample (rows_of (found_of options.now))) }
    ensures refused { IfErr result (λ e. (e ≡ LimitsRefusal.Sampled) × IsNoSample (rows_of (found_of options.now))) }
{
    match word_of(options, "sampled") {
        None => Ok(None),
        Some(word) => match sample_of(word) {
            Some(sample) => Ok(Some(sample)),
            None => Err(LimitsRefusal::Sampled),
        },
    }
}

/// Returns what the options of limits say.
pub(crate) fn said_of(options: &ArgMatches) -> Result<Said, LimitsRefusal>
    ensures said { IfOk result (IsSaid (rows_of (found_of options.now))) }
    ensures refused { IfErr result (RefusesWord (rows_of (found_of options.now))) }
{
    let tick = time_said(options, "tick", LimitsRefusal::Tick)?;
    let sampled = sample_said(options)?;
    let link = rate_said(options, "link", LimitsRefusal::Link)?;
    let first = rate_said(options, "first", LimitsRefusal::First)?;
    let downtime = time_said(options, "downtime", LimitsRefusal::Downtime)?;
    let reserve = time_said(options, "reserve", LimitsRefusal::Reserve)?;
    Ok(Said {
        tick,
        page: number_given(options, "page"),
        sampled,
        link,
        first,
        downtime,
        reserve,
    })
}

/// Returns whether some option of limits is given, if they are complete.
pub(crate) fn is_measured(said: &Said) -> bool
    ensures { result ≡ has_units said.now }
{
    said.tick.is_some() || said.page.is_some() || said.sampled.is_some() || said.link.is_some()
}

/// Returns what ticks and pages stand for: a tick of 1 ms, a page of 4,096 bytes and all pages unless something else
/// is given.
pub(crate) fn scale_of(said: &Said) -> Result<Scale, RangeRefusal>
    ensures made { IfOk result (λ scale. scale ≡ scale_in said.now) }
    ensures refused { IfErr result (TellsScale (scale_in said.now)) }
{
    let tick = said.tick.unwrap_or(1000);
    let page = said.page.unwrap_or(4096);
    let sample = said.sampled.unwrap_or((1, 1));
    match Scale::new(tick, page, sample.0, sample.1) {
        Ok(scale) => Ok(scale),
        Err(error) => Err(scale_refused(&error, tick, page, sample)),
    }
}

/// Returns the limits that are given, if any.
pub(crate) fn limits_of(said: &Said) -> Result<Option<Limits>, LimitsRefusal>
    ensures made { IfOk result (AreLimitsSaid said.now) }
    ensures refused { IfErr result (λ e. (e ≡ LimitsRefusal.Incomplete) × (is_incomplete said.now ≡ true)) }
{
    match (said.link, said.downtime) {
        (Some(link), Some(downtime)) => Ok(Some(Limits {
            link,
            first: said.first,
            downtime,
            reserve: said.reserve.unwrap_or(0),
        })),
        (None, None) if said.first.is_none() && said.reserve.is_none() => Ok(None),
        _ => Err(LimitsRefusal::Incomplete),
    }
}
