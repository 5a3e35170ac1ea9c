//! By whose plan a migration goes, which the options say: a hypervisor's, or by Clark's rounds.

ghost use Rattle.std.specs.Prelude.{◌≡◌, ◌∷◌, [], IfErr, IfNone, IfOk, IfSome, codes, false, true};
ghost use Rattle.clap.specs.Words.{found_of, rows_of};
ghost use Rattle.job_commands.specs.Commands.{AddsRules, flag_rule};
ghost use Rattle.view_commands.specs.Manners.{AsksForManner, AsksForMigration, HasNoRounds, HasRounds, LacksClark};
ghost use Rattle.view_commands.specs.Manners.{RefusesMigration};

use crate::command::limited;
use crate::limits::{LimitsRefusal, has_word};
use crate::measures::measure_of;
use clap::{ArgMatches, Command};
use job_commands::{flag, is_flag, number_given};
use predictions::Manner;
use predictions::units::{Limits, Scale};
use rate_limit::Settings;
use std::alloc::{AllocError, Global};

/// A migration with limits, and by whose plan it goes.
#[derive(Clone, Copy, Debug)]
pub(crate) struct Migration {
    pub(crate) settings: Settings,
    pub(crate) scale: Scale,
    pub(crate) limits: Limits,
    pub(crate) manner: Manner,
}

/// Returns the command with the flag for Clark's rounds.
pub(crate) fn with_clark<'a>(alloc: Global, command: Command<'a>) -> Result<Command<'a>, AllocError>
    ensures { IfOk result (λ new. AddsRules command.entry (flag_rule (codes "clark") ∷ []) new) }
{
    command.arg(flag(
        alloc,
        "clark",
        "Plan by Clark's rounds, in place of a hypervisor's looks",
    ))
}

/// Returns whether an option of Clark's rounds is given.
fn has_rounds(options: &ArgMatches) -> bool
    ensures some { result ≡ true → HasRounds (rows_of (found_of options.now)) }
    ensures none { result ≡ false → HasNoRounds (rows_of (found_of options.now)) }
{
    has_word(options, "first")
        || number_given(options, "inc").is_some()
        || number_given(options, "rounds").is_some()
        || is_flag(options, "skip")
}

/// Returns by whose plan the options ask for a migration, if those of Clark's rounds are given only with their flag.
fn manner_of(options: &ArgMatches) -> Option<Manner>
    ensures made { IfSome result (AsksForManner (rows_of (found_of options.now))) }
    ensures refused { IfNone result (LacksClark (rows_of (found_of options.now))) }
{
    if is_flag(options, "clark") {
        Some(Manner::Rounds)
    } else if has_rounds(options) {
        None
    } else {
        Some(Manner::Looks)
    }
}

/// Returns the migration that the options ask for, or why they are refused. It needs limits.
pub(crate) fn migration_of(options: &ArgMatches) -> Result<Migration, LimitsRefusal>
    ensures made { IfOk result (λ m. AsksForMigration (rows_of (found_of options.now)) m.settings m.scale m.limits
        m.manner) }
    ensures refused { IfErr result (RefusesMigration (rows_of (found_of options.now))) }
{
    let measure = measure_of(options)?;
    let Some((scale, limits)) = limited(&measure) else {
        return Err(LimitsRefusal::Missing);
    };
    match manner_of(options) {
        Some(manner) => Ok(Migration {
            settings: measure.settings,
            scale,
            limits,
            manner,
        }),
        None => Err(LimitsRefusal::NeedsClark),
    }
}
