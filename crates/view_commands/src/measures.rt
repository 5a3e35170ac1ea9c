//! The settings that options ask for, in either kind of words.

ghost use Rattle.std.specs.Prelude.{◌≡◌, IfErr, IfOk, Some, false, true};
ghost use Rattle.clap.specs.Words.{found_of, rows_of};
ghost use Rattle.view_commands.specs.Measures.{AreUnsaid, AsksForMeasure, AsksForScale, AsksForSettings};
ghost use Rattle.view_commands.specs.Measures.{IsMixed, RefusesScaleWords};
ghost use Rattle.view_commands.specs.Measures.{RefusesMeasure, RefusesSettings};
ghost use Rattle.view_commands.specs.Units.{scale_in};

use crate::limits::{LimitsRefusal, Said, is_measured, limits_of, said_of, scale_of};
use crate::ranges::limits_refused;
use clap::ArgMatches;
use job_commands::{number_given, settings_of};
use predictions::units::{Limits, Scale, UnitsError};
use rate_limit::Settings;

/// Settings, and what ticks and pages of the trace stand for if options of limits are given.
#[derive(Clone, Copy, Debug)]
pub struct Measure {
    /// The settings of the plan.
    pub settings: Settings,
    /// What ticks and pages stand for, if an option of limits is given.
    pub scale: Option<Scale>,
    /// The limits that the settings are made of, if any.
    pub limits: Option<Limits>,
}

/// Returns whether a rate or a threshold is given in pages and ticks.
fn is_mixed(options: &ArgMatches) -> bool
    ensures mixed { result ≡ true → IsMixed (rows_of (found_of options.now)) }
    ensures unsaid { result ≡ false → AreUnsaid (rows_of (found_of options.now)) }
{
    number_given(options, "min").is_some()
        || number_given(options, "max").is_some()
        || number_given(options, "threshold").is_some()
}

/// Returns the settings that the options ask for: those of limits, if there are any.
fn settings_with(
    options: &ArgMatches,
    scale: &Scale,
    limits: Option<Limits>,
) -> Result<Settings, LimitsRefusal>
    ensures made { IfOk result (λ settings. (said : Said) → scale.now ≡ scale_in said
        → AsksForSettings (rows_of (found_of options.now)) said limits settings) }
    ensures refused { IfErr result (λ e. (said : Said) → scale.now ≡ scale_in said
        → RefusesSettings (rows_of (found_of options.now)) said limits e) }
{
    let Some(limits) = limits else {
        return Ok(settings_of(options)?);
    };
    if is_mixed(options) {
        return Err(LimitsRefusal::Mixed);
    }
    let others = settings_of(options)?;
    let increment = number_given(options, "inc");
    match limits.settings(scale, increment, *others.asked()) {
        Ok(settings) => Ok(settings),
        Err(UnitsError::Setting(error)) => Err(LimitsRefusal::Settings(error)),
        Err(error) => Err(LimitsRefusal::Range(limits_refused(&error, scale, &limits))),
    }
}

/// Returns the settings that the options ask for, and what ticks and pages stand for, or why they are refused.
pub fn measure_of(options: &ArgMatches) -> Result<Measure, LimitsRefusal>
    ensures made { IfOk result (λ m. AsksForMeasure (rows_of (found_of options.now)) m.settings m.scale m.limits) }
    ensures refused { IfErr result (RefusesMeasure (rows_of (found_of options.now))) }
{
    let said = said_of(options)?;
    let scale = scale_of(&said)?;
    let limits = limits_of(&said)?;
    let settings = settings_with(options, &scale, limits)?;
    Ok(Measure {
        settings,
        scale: is_measured(&said).then_some(scale),
        limits,
    })
}

/// Returns what ticks and pages stand for, if an option says so, or why that is refused.
pub fn scale_said(options: &ArgMatches) -> Result<Option<Scale>, LimitsRefusal>
    ensures made { IfOk result (AsksForScale (rows_of (found_of options.now))) }
    ensures refused { IfErr result (RefusesScaleWords (rows_of (found_of options.now))) }
{
    let said = said_of(options)?;
    let scale = scale_of(&said)?;
    Ok(is_measured(&said).then_some(scale))
}
