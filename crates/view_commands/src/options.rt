//! The options of reports for a terminal and of advice in ticks and pages, and what they make.

ghost use Rattle.std.specs.Prelude.{◌≡◌, IfErr, IfNone, IfOk, IfSome, codes, false};
ghost use Rattle.clap.specs.Walk.{first_of};
ghost use Rattle.clap.specs.Words.{found_of, rows_of, rule_of};
ghost use Rattle.job_commands.specs.Commands.{AddsRules};
ghost use Rattle.view_commands.specs.Advice.{AsksForGrid, IsGridRefused};
ghost use Rattle.view_commands.specs.Commands.{budget_rules, color_rule, style_rules};
ghost use Rattle.view_commands.specs.Styles.{AsksForStyle, IsColorRefused, IsColored, RefusesStyle};

use crate::limits::{with_units, word_of};
use clap::{Arg, ArgAction, ArgMatches, Command};
use job_commands::{number, number_or, sweep_options, with_report, with_sweep};
use rate_limit::{Asked, Settings, SettingsError};
use std::alloc::{AllocError, Global};
use view_kinds::Style;

/// Returns the command with the options of advice.
pub(crate) fn with_budget<'a>(
    alloc: Global,
    command: Command<'a>,
) -> Result<Command<'a>, AllocError>
    ensures { IfOk result (λ new. AddsRules command.entry budget_rules new) }
{
    let command = with_sweep(alloc, command)?;
    let command = command.arg(number(
        alloc,
        "max",
        "Greatest rate, in pages per 1,000 ticks [default: 5000]",
    ))?;
    let command = command.arg(number(
        alloc,
        "total",
        "Most pages of the trace sent, over all rounds and after the stop",
    ))?;
    let command = command.arg(number(alloc, "down", "Most downtime, in ticks"))?;
    with_units(alloc, command)
}

/// Returns what the options of advice ask for. The least rate is no greater than the greatest.
fn grid_of(options: &ArgMatches) -> Asked
    ensures { AsksForGrid (rows_of (found_of options.now)) result }
{
    let asked = sweep_options(options);
    let max = number_or(options, "max", asked.max);
    Asked {
        max,
        min: asked.min.min(max),
        ..asked
    }
}

/// Returns the settings that the options of advice make, or the first that is out of its range.
pub(crate) fn settings_for(options: &ArgMatches) -> Result<Settings, SettingsError>
    ensures made { IfOk result (λ settings. AsksForGrid (rows_of (found_of options.now)) settings) }
    ensures refused { IfErr result (λ e. IsGridRefused (rows_of (found_of options.now)) e) }
{
    Settings::new(grid_of(options))
}

/// How wide a line may be.
const DEFAULT_WIDTH: u64 = 80;

const MIN_WIDTH: u64 = 72;

const MAX_WIDTH: u64 = 512;

/// What help tells of colors, in the words of `clap`.
const COLOR_HELP: &str =
    "Color the bars; auto: on a terminal [possible values: always, never, auto] \
    [default: never] [without WHEN: always]";

/// Returns the option of colors.
fn color_arg<'a>(alloc: Global) -> Arg<'a>
    ensures rule { rule_of result ≡ color_rule }
    ensures local { result.global ≡ false }
{
    Arg::new(alloc, "color")
        .long("color")
        .help(COLOR_HELP)
        .value_name("WHEN")
        .num_args(0..=1)
        .default_missing_value("always")
        .action(ArgAction::Set)
}

/// Returns the command with the options of a report for a terminal.
pub(crate) fn with_style<'a>(alloc: Global, command: Command<'a>) -> Result<Command<'a>, AllocError>
    ensures { IfOk result (λ new. AddsRules command.entry style_rules new) }
{
    let command = with_report(alloc, command)?;
    let command = command.arg(number(
        alloc,
        "width",
        "Most characters of a line, 72 to 512 [default: 80]",
    ))?;
    let command = command.arg(color_arg(alloc))?;
    with_units(alloc, command)
}

/// Why a report is not shown as its options say.
#[derive(Clone, Copy, Debug, PartialEq, Eq)]
pub(crate) enum StyleRefusal {
    /// Its width is out of range.
    Width,
    /// The option of colors has a word that it does not take.
    Color,
}

/// Returns whether bars have colors, if the option has a word that it takes.
fn colors_of(options: &ArgMatches, is_terminal: bool) -> Option<bool>
    ensures colors { IfSome result (IsColored is_terminal (first_of (codes "color") (rows_of (found_of options.now)))) }
    ensures refused { IfNone result (IsColorRefused (rows_of (found_of options.now))) }
{
    let Some(word) = word_of(options, "color") else {
        return Some(false);
    };
    match word {
        "never" => Some(false),
        "always" => Some(true),
        "auto" => Some(is_terminal),
        _ => None,
    }
}

/// Returns how a report is shown. Standard output is a terminal or not.
pub(crate) fn style_of(options: &ArgMatches, is_terminal: bool) -> Result<Style, StyleRefusal>
    ensures style { IfOk result (AsksForStyle is_terminal (rows_of (found_of options.now))) }
    ensures refused { IfErr result (RefusesStyle (rows_of (found_of options.now))) }
{
    let width = number_or(options, "width", DEFAULT_WIDTH);
    if width < MIN_WIDTH || width > MAX_WIDTH {
        return Err(StyleRefusal::Width);
    }
    let colors = colors_of(options, is_terminal).ok_or(StyleRefusal::Color)?;
    Ok(Style {
        width: width as usize,
        colors,
    })
}
