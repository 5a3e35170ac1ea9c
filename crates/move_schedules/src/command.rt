//! The command line: words for help and for the version, and no others.

ghost use Rattle.std.specs.Prelude.{◌≡◌, IfErr, OnOk, map, string_bytes};
ghost use Rattle.clap.specs.Words.{app_of};
ghost use Rattle.job_commands.specs.Commands.{FailsByKind};
ghost use Rattle.move_schedules.specs.Words.{AskForSchedules, schedule_line};

use clap::Command;
use job_commands::{WordsError, leaf_command, refusal_of};
use std::alloc::Global;

/// What `--version` prints after the program's name: the version of all of precopy, as in tools/version.py.
const VERSION: &str = "(precopy) 0.6.0";

/// What follows the help: the form of a table and of what is told of it.
const FORM: &str = "\
Each line of the table is a plan, whole numbers with one blank between two: how many
guests move at a time, a deadline, and for each guest its time, bytes and downtime,
whether its limits are kept (0 or 1), and its group. 0 is no deadline and no group.

It writes a line for each plan, the number of the best one, from 0, and a line for each
move of that. `precopy-evacuate` makes such tables.";

/// Returns the command line.
fn command_line<'a>(alloc: Global) -> Command<'a>
    ensures { app_of result ≡ schedule_line }
{
    leaf_command(
        alloc,
        "precopy-schedule",
        "Schedules moves of guests by the plans on standard input, and writes which is the best",
    )
    .version(VERSION)
    .after_help(FORM)
}

/// Tests whether words ask for schedules: if nothing follows the program's name.
pub(crate) fn check_words(alloc: Global, words: &[String]) -> Result<(), WordsError>
    ensures asked { OnOk result (AskForSchedules (map string_bytes words.now)) }
    ensures failed { IfErr result (FailsByKind schedule_line (map string_bytes words.now)) }
{
    match command_line(alloc).try_get_matches_from(words) {
        Ok(_) => Ok(()),
        Err(error) => Err(refusal_of(alloc, &error)),
    }
}
