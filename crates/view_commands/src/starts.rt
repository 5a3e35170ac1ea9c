//! The options of starts, and what they ask for.

ghost use Rattle.std.specs.Prelude.{[], ◌∷◌, ◌≡◌, IfErr, IfNone, IfOk, IfSome, Some, codes, false};
ghost use Rattle.clap.specs.Words.{found_of, rows_of, rule_of};
ghost use Rattle.job_commands.specs.Commands.{AddsRules, flag_rule};
ghost use Rattle.view_commands.specs.Manners.{AsksForMigration};
ghost use Rattle.view_commands.specs.Commands.{from_rule, start_rules};
ghost use Rattle.view_commands.specs.Starts.{AreTicksRefused, AsksForForm, AsksForStarts, AsksForTicks, RefusesStarts};

use crate::command::{ViewWordsError, usage};
use crate::limits::with_units;
use crate::manners::{Migration, migration_of, with_clark};
use clap::{Arg, ArgAction, ArgMatches, Command};
use job_commands::{Number, flag, is_flag, number_given, with_numbers};
use predictions::starts::Starts;
use std::alloc::{AllocError, Global};
use view_kinds::{AskedStarts, StartsForm};

/// The first tick that can no longer be a start, `2^40`.
const START_LIMIT: u64 = 1 << 40;

/// The ticks at which a migration begins, and its pace.
const NUMBERS: [Number<'static>; 7] = [
    ("to", "No start comes after this tick [default: the last]"),
    (
        "every",
        "Ticks from one start to the next [default: a 200th of the trace]",
    ),
    (
        "inc",
        "Added to a round's dirtying rate, in pages per 1,000 ticks",
    ),
    ("rounds", "Most rounds [default: 30]"),
    (
        "base",
        "Tick before which the destination has the guest's memory [default: none]",
    ),
    (
        "window",
        "Length of a window of the picture, in ticks [default: 1000]",
    ),
    ("workers", "Threads that work side by side [default: 1]"),
];

/// Returns the option of the first start. It replaces `--start`.
fn from<'a>(alloc: Global) -> Arg<'a>
    ensures rule { rule_of result ≡ from_rule }
    ensures local { result.global ≡ false }
{
    Arg::new(alloc, "start")
        .long("from")
        .help("Tick of the first start [default: 0]")
        .value_name("N")
        .action(ArgAction::Set)
        .value_parser(clap::value_parser!(u64))
}

/// Returns the command with the options of starts.
pub(crate) fn with_starts<'a>(
    alloc: Global,
    command: Command<'a>,
) -> Result<Command<'a>, AllocError>
    ensures { IfOk result (λ new. AddsRules command.entry start_rules new) }
{
    let command = command.arg(from(alloc))?;
    let command = with_numbers(alloc, command, &NUMBERS)?;
    let command = command.arg(flag(
        alloc,
        "skip",
        "Skip pages that are written again while a round sends its pages",
    ))?;
    let command = with_clark(alloc, command)?;
    with_units(alloc, command)
}

/// Returns the command with the flag for a picture.
pub(crate) fn with_chart<'a>(alloc: Global, command: Command<'a>) -> Result<Command<'a>, AllocError>
    ensures { IfOk result (λ new. AddsRules command.entry (flag_rule (codes "chart") ∷ []) new) }
{
    command.arg(flag(alloc, "chart", "Write a picture, in SVG"))
}

/// Returns how starts are shown for people: as a picture if the flag for it is present.
pub(crate) fn form_of(options: &ArgMatches) -> StartsForm
    ensures { AsksForForm (rows_of (found_of options.now)) result }
{
    if is_flag(options, "chart") {
        StartsForm::Chart
    } else {
        StartsForm::Table
    }
}

/// Returns the ticks at which the options ask for starts, from this one on, if they are in range.
fn ticks_of(options: &ArgMatches, from: u64) -> Option<Starts>
    ensures made { IfSome result (λ starts. AsksForTicks (rows_of (found_of options.now)) from starts) }
    ensures refused { IfNone result (AreTicksRefused (rows_of (found_of options.now)) from) }
{
    let to = number_given(options, "to");
    let every = number_given(options, "every");
    let last = to.unwrap_or(from);
    if every.unwrap_or(1) < 1 || last < from || last >= START_LIMIT {
        return None;
    }
    Some(Starts { from, to, every })
}

/// The message for starts that are out of range.
const OUT_OF_RANGE: &str =
    "error: --every is at least 1, and --to is not before --from and below 2^40\n";

/// Returns the starts that the options ask for, of this migration.
fn starts_with(
    alloc: Global,
    options: &ArgMatches,
    migration: &Migration,
    form: StartsForm,
) -> Result<AskedStarts, ViewWordsError>
    requires { AsksForMigration (rows_of (found_of options.now)) migration.now.settings migration.now.scale
        migration.now.limits migration.now.manner }
    ensures made { IfOk result (AsksForStarts (rows_of (found_of options.now)) form) }
    ensures refused { IfErr result (RefusesStarts (rows_of (found_of options.now))) }
{
    match ticks_of(options, migration.settings.asked().start) {
        Some(starts) => Ok(AskedStarts {
            settings: migration.settings,
            scale: migration.scale,
            limits: migration.limits,
            manner: migration.manner,
            starts,
            form,
        }),
        None => Err(usage(alloc, OUT_OF_RANGE)),
    }
}

/// Returns the starts that the options ask for, in this form.
pub(crate) fn starts_of(
    alloc: Global,
    options: &ArgMatches,
    form: StartsForm,
) -> Result<AskedStarts, ViewWordsError>
    ensures made { IfOk result (AsksForStarts (rows_of (found_of options.now)) form) }
    ensures refused { IfErr result (RefusesStarts (rows_of (found_of options.now))) }
{
    let migration = migration_of(options)?;
    starts_with(alloc, options, &migration, form)
}
