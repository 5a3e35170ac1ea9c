//! Advice as words: a budget and the settings around it, in either kind of words.

ghost use Rattle.std.specs.Prelude.{◌≡◌, Bool, IfErr, IfOk, None, Some, codes, false, true};
ghost use Rattle.clap.specs.Words.{found_of, rows_of};
ghost use Rattle.predictions.specs.Units.Limits.{ticks_for_pages};
ghost use Rattle.job_commands.specs.Options.{Says};
ghost use Rattle.view_commands.specs.Measures.{AsksForMeasure, IsThere};
ghost use Rattle.view_commands.specs.Units.{HasNoUnits};
ghost use Rattle.view_commands.specs.Advice.{RefusesAdvice};
ghost use Rattle.view_commands.specs.Views.{AsksForView};

use crate::command::{AskedView, ViewWordsError, limited};
use crate::limits::{LimitsRefusal, says_units};
use crate::measures::measure_of;
use crate::options::settings_for;
use clap::ArgMatches;
use job_commands::{WordsError, WordsRefusal, number_given};
use predictions::units::{Limits, Scale};
use rate_limit::Settings;
use view_kinds::{Budget, Measured, View};

/// Returns the advice that options in ticks and pages ask for.
fn advice_in_ticks(options: &ArgMatches) -> Result<AskedView, ViewWordsError>
    requires { HasNoUnits (rows_of (found_of options.now)) }
    ensures made { (terminal : Bool) → IfOk result (λ asked. AsksForView terminal (codes "advise")
        (rows_of (found_of options.now)) asked.view asked.scale) }
    ensures refused { IfErr result (RefusesAdvice (rows_of (found_of options.now))) }
{
    let Some(down) = number_given(options, "down") else {
        return Err(ViewWordsError::Limits(LimitsRefusal::NoBudget));
    };
    let settings = match settings_for(options) {
        Ok(settings) => settings,
        Err(error) => {
            let refusal = WordsRefusal::Settings(error);
            return Err(ViewWordsError::Words(WordsError::Refused(refusal)));
        }
    };
    Ok(AskedView {
        view: View::Advise {
            budget: Budget {
                down,
                total: number_given(options, "total"),
            },
            settings,
            measured: None,
        },
        scale: None,
    })
}

/// Returns the ticks that the downtime of limits leaves for pages.
fn ticks_of(scale: &Scale, limits: &Limits) -> u64
    ensures { result ≡ ticks_for_pages scale.now limits.now }
{
    scale.ticks(limits.downtime.saturating_sub(limits.reserve))
}

/// Returns whether a downtime in ticks is given.
fn is_down_said(options: &ArgMatches) -> bool
    ensures there { result ≡ true → IsThere (rows_of (found_of options.now)) (codes "down") }
    ensures unsaid { result ≡ false → Says (rows_of (found_of options.now)) (codes "down") None }
{
    number_given(options, "down").is_some()
}

/// Returns the advice for limits, with these settings.
fn measured_advice(options: &ArgMatches, settings: &Settings, measured: Measured) -> AskedView
    requires unsaid { Says (rows_of (found_of options.now)) (codes "down") None }
    requires measured { AsksForMeasure (rows_of (found_of options.now)) settings.now (Some measured.scale)
        (Some measured.limits) }
    ensures { (terminal : Bool) → AsksForView terminal (codes "advise") (rows_of (found_of options.now)) result.view
        result.scale }
{
    AskedView {
        view: View::Advise {
            budget: Budget {
                down: ticks_of(&measured.scale, &measured.limits),
                total: number_given(options, "total"),
            },
            settings: *settings,
            measured: Some(measured),
        },
        scale: Some(measured.scale),
    }
}

/// Returns the advice that options in time and bytes ask for.
fn advice_in_units(options: &ArgMatches) -> Result<AskedView, ViewWordsError>
    requires { ¬ HasNoUnits (rows_of (found_of options.now)) }
    ensures made { (terminal : Bool) → IfOk result (λ asked. AsksForView terminal (codes "advise")
        (rows_of (found_of options.now)) asked.view asked.scale) }
    ensures refused { IfErr result (RefusesAdvice (rows_of (found_of options.now))) }
{
    if is_down_said(options) {
        return Err(ViewWordsError::Limits(LimitsRefusal::TwoBudgets));
    }
    let measure = measure_of(options)?;
    match limited(&measure) {
        Some((scale, limits)) => Ok(measured_advice(
            options,
            &measure.settings,
            Measured { scale, limits },
        )),
        None => Err(ViewWordsError::Limits(LimitsRefusal::Missing)),
    }
}

/// Returns the advice that its options ask for.
pub(crate) fn advice_of(options: &ArgMatches) -> Result<AskedView, ViewWordsError>
    ensures made { (terminal : Bool) → IfOk result (λ asked. AsksForView terminal (codes "advise")
        (rows_of (found_of options.now)) asked.view asked.scale) }
    ensures refused { IfErr result (RefusesAdvice (rows_of (found_of options.now))) }
{
    if says_units(options) {
        advice_in_units(options)
    } else {
        advice_in_ticks(options)
    }
}
