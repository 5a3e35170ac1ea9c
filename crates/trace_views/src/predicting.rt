//! Predictions of a log of touches, as texts.

ghost use Rattle.std.specs.Prelude.{◌≡◌, ◌++◌, IfErr, IfOk, OnOk};
ghost use Rattle.predictions.specs.Agreements.{sure_kept};
ghost use Rattle.trace_views.specs.PredictionViews.{IsPredictionView, outlook_text, predicted_text, prediction_in};
ghost use Rattle.trace_views.specs.PredictionViews.{run_text, told_text};

use crate::advice_writing::push_live;
use crate::enough::{is_sure, push_enough};
use crate::error::ViewError;
use crate::outlook::{Outlook, outlook_over};
use crate::prediction_document::json_prediction;
use crate::shown_text::ViewText;
use predictions::looks::push_forecast;
use predictions::shares::push_share;
use predictions::starts::push_ranges;
use predictions::units::Limits;
use predictions::{Manner, Verdict, push_hosts, push_prediction};
use rate_limit::Settings;
use std::alloc::{AllocError, Global};
use std::thread::Threads;
use trace_readers::TouchLog;
use view_kinds::{AskedPrediction, PredictionForm};

/// Appends what comes of the migration if the hypervisor looks as QEMU does, if that is told.
fn push_told(text: &mut Vec<u8>, outlook: &Outlook) -> Result<(), AllocError>
    ensures { OnOk result (text.new.items ≡ text.old.items ++ told_text outlook.now) }
{
    if outlook.tells_looks() {
        push_forecast(text, &outlook.looks)
    } else {
        Ok(())
    }
}

/// Appends what the migration will be, beside the limit of its downtime, what comes of it if the hypervisor looks as
/// QEMU does, its ranges over starts, the shares of its link, and what is enough for the limit.
fn push_outlook(text: &mut Vec<u8>, limit: u64, outlook: &Outlook) -> Result<(), AllocError>
    ensures { OnOk result (text.new.items ≡ text.old.items ++ outlook_text limit outlook.now) }
{
    let Outlook {
        prediction,
        errors,
        agreement,
        ..
    } = outlook;
    push_prediction(text, limit, prediction, errors, agreement)?;
    push_told(text, outlook)?;
    push_ranges(text, &outlook.ranges)?;
    push_share(text, &outlook.share)?;
    push_enough(text, is_sure(limit, outlook), &outlook.remedies)?;
    Ok(())
}

/// Appends the words that run a live migration with some settings, if the plan goes by rounds as that does.
fn push_run(text: &mut Vec<u8>, manner: Manner, settings: &Settings) -> Result<(), AllocError>
    ensures { OnOk result (text.new.items ≡ text.old.items ++ run_text manner settings.now) }
{
    match manner {
        Manner::Looks => Ok(()),
        Manner::Rounds => push_live(text, settings),
    }
}

/// Returns a prediction as a text: what is predicted, and the words that set the same limits.
fn predicted(
    alloc: Global,
    settings: &Settings,
    limits: &Limits,
    outlook: &Outlook,
) -> Result<Vec<u8>, AllocError>
    ensures { IfOk result (λ text. text.items ≡ predicted_text settings.now limits.now outlook.now) }
{
    let mut text = Vec::new(alloc);
    push_outlook(&mut text, limits.downtime, outlook)?;
    push_run(&mut text, outlook.prediction.manner, settings)?;
    push_hosts(&mut text, limits)?;
    Ok(text)
}

/// Returns whether a migration keeps its limit, if that is sure.
fn kept(limit: u64, outlook: &Outlook) -> Verdict
    ensures { result ≡ sure_kept limit outlook.now.agreement outlook.now.prediction.cost outlook.now.errors }
{
    let cost = &outlook.prediction.cost;
    outlook.agreement.kept(limit, cost, &outlook.errors)
}

/// Returns a prediction in the requested form.
fn written(alloc: Global, asked: &AskedPrediction, outlook: &Outlook) -> Result<Vec<u8>, AllocError>
    ensures { IfOk result (λ text. text.items ≡ prediction_in asked.now.form asked.now.settings asked.now.scale
        asked.now.limits outlook.now) }
{
    let AskedPrediction {
        settings,
        scale,
        limits,
        form,
        ..
    } = asked;
    match form {
        PredictionForm::Lines => predicted(alloc, settings, limits, outlook),
        PredictionForm::Json => json_prediction(alloc, settings, scale, limits, outlook),
    }
}

/// Returns what a migration over a log will be, in the requested form, and whether it keeps its limit.
pub(crate) fn prediction_view<R: Threads + Sync>(
    rt: &R,
    alloc: Global,
    asked: &AskedPrediction,
    log: &TouchLog,
) -> Result<ViewText, ViewError>
    ensures made { IfOk result (λ shown. IsPredictionView log.now asked.now shown.text.items shown.kept) }
    ensures refused { IfErr result (λ e. e ≡ ViewError.Memory) }
{
    let outlook = outlook_over(rt, alloc, asked, log)?;
    Ok(ViewText {
        text: written(alloc, asked, &outlook)?,
        kept: kept(asked.limits.downtime, &outlook),
    })
}
