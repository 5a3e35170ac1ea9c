//! A prediction as a JSON document.

ghost use Rattle.std.specs.Prelude.{◌≡◌, ◌++◌, IfOk, OnOk, codes};
ghost use Rattle.std.specs.List.{flat_map};
ghost use Rattle.trace_views.specs.Json.{line_of, member_of};
ghost use Rattle.trace_views.specs.PredictionJson.{answer_members, answers_with, asked_members, base_member};
ghost use Rattle.trace_views.specs.PredictionJson.{first_member, hosts_object, limits_object, mib_member};
ghost use Rattle.trace_views.specs.PredictionJson.{migration_member, migration_object, outlook_members};
ghost use Rattle.trace_views.specs.PredictionJson.{prediction_object, settings_object, told_member};

use crate::agreement_document::write_draws;
use crate::document::Document;
use crate::enough::is_sure;
use crate::enough_document::write_enough;
use crate::looks_document::write_looks;
use crate::outlook::Outlook;
use crate::plan_document::write_plan;
use crate::ranges_document::write_ranges;
use crate::share_document::write_share;
use crate::starts_document::{write_cost_numbers, write_errors};
use crate::sweep_document::{write_scale, write_settings};
use predictions::redrawn::Errors;
use predictions::units::{Limits, Scale};
use predictions::{Manner, Prediction, Verdict, link_in_mib, millis_for_pages};
use rate_limit::Settings;
use std::alloc::{AllocError, Global};

/// Writes what the first round may use of the link as a member, if that is given.
fn write_first(out: &mut Document, first: Option<u64>) -> Result<(), AllocError>
    ensures { OnOk result (out.new ≡ out.old ++ first_member first) }
{
    match first {
        Some(first) => out.number_member("first_bytes", first),
        None => Ok(()),
    }
}

/// Writes what a migration may take.
fn write_limits(alloc: Global, out: &mut Document, limits: &Limits) -> Result<(), AllocError>
    ensures { OnOk result (out.new ≡ out.old ++ limits_object limits.now) }
{
    out.begin_object()?;
    out.number_member("link_bytes", limits.link)?;
    write_first(out, limits.first)?;
    out.seconds_member(alloc, "down_seconds", limits.downtime as u128)?;
    out.seconds_member(alloc, "reserve_seconds", limits.reserve as u128)?;
    out.end_object()?;
    Ok(())
}

/// Writes the tick of the copy at the destination as a member, if there is one.
fn write_base(out: &mut Document, base: Option<u64>) -> Result<(), AllocError>
    ensures { OnOk result (out.new ≡ out.old ++ base_member base) }
{
    match base {
        Some(base) => out.number_member("base", base),
        None => Ok(()),
    }
}

/// Writes the settings of a plan, and the tick at which it begins.
fn write_plan_settings(out: &mut Document, settings: &Settings) -> Result<(), AllocError>
    ensures { OnOk result (out.new ≡ out.old ++ settings_object settings.now) }
{
    let asked = settings.asked();
    out.begin_object()?;
    write_settings(out, settings)?;
    out.number_member("start", asked.start)?;
    write_base(out, asked.base)?;
    out.end_object()?;
    Ok(())
}

/// Writes a link in whole MiB a second as a member, if it has one of them.
#[tactic(auto, unfolding(crate::specs::PredictionJson::mib_member))]
fn write_mib(out: &mut Document, mib: u64) -> Result<(), AllocError>
    ensures { OnOk result (out.new ≡ out.old ++ mib_member mib) }
{
    if mib == 0 {
        return Ok(());
    }
    out.number_member("bandwidth_mib", mib)
}

/// Writes the same limits for QEMU and libvirt.
fn write_hosts(out: &mut Document, limits: &Limits) -> Result<(), AllocError>
    ensures { OnOk result (out.new ≡ out.old ++ hosts_object limits.now) }
{
    out.begin_object()?;
    out.number_member("bandwidth_bytes", limits.link)?;
    write_mib(out, link_in_mib(limits))?;
    out.number_member("down_milliseconds", millis_for_pages(limits))?;
    out.end_object()?;
    Ok(())
}

/// Writes the migration of a plan: why it stops, what it costs, and how many pages of the trace are left then.
fn write_foretold(
    alloc: Global,
    out: &mut Document,
    prediction: &Prediction,
    errors: &Option<Errors>,
) -> Result<(), AllocError>
    ensures { OnOk result (out.new ≡ out.old ++ migration_object prediction.now errors.now) }
{
    out.begin_object()?;
    out.text_member("why", prediction.ending.word())?;
    write_cost_numbers(alloc, out, prediction.manner, &prediction.cost)?;
    out.number_member("left_pages", prediction.left)?;
    write_errors(alloc, out, errors)?;
    out.end_object()?;
    Ok(())
}

/// Writes the migration of a plan as a member.
fn write_known(
    alloc: Global,
    out: &mut Document,
    prediction: &Prediction,
    errors: &Option<Errors>,
) -> Result<(), AllocError>
    ensures { OnOk result (out.new ≡ out.old
        ++ member_of (codes "migration") (migration_object prediction.now errors.now)) }
{
    out.key("migration")?;
    write_foretold(alloc, out, prediction, errors)?;
    Ok(())
}

/// Writes the migration as a member, if the trace does not end before it.
fn write_migration(
    alloc: Global,
    out: &mut Document,
    prediction: &Prediction,
    errors: &Option<Errors>,
) -> Result<(), AllocError>
    ensures { OnOk result (out.new ≡ out.old ++ migration_member prediction.now errors.now) }
{
    if prediction.cost.is_late {
        Ok(())
    } else {
        write_known(alloc, out, prediction, errors)
    }
}

/// Writes whether a migration converges and keeps its limit, and how long the trace goes on, as members.
fn write_answers(
    alloc: Global,
    out: &mut Document,
    converges: Verdict,
    kept: Verdict,
    recorded: u128,
) -> Result<(), AllocError>
    ensures { OnOk result (out.new ≡ out.old ++ flat_map (λ m. m) (answers_with converges kept recorded)) }
{
    out.text_member("converges", converges.word())?;
    out.text_member("kept", kept.word())?;
    out.seconds_member(alloc, "recorded_seconds", recorded)?;
    Ok(())
}

/// Writes the answers of an outlook beside the limit of its downtime as members.
fn write_sure(
    alloc: Global,
    out: &mut Document,
    limit: u64,
    outlook: &Outlook,
) -> Result<(), AllocError>
    ensures { OnOk result (out.new ≡ out.old ++ flat_map (λ m. m) (answer_members limit outlook.now.agreement
        outlook.now.prediction outlook.now.errors)) }
{
    let prediction = &outlook.prediction;
    let converges = outlook.agreement.verdict(prediction);
    let kept = outlook
        .agreement
        .kept(limit, &prediction.cost, &outlook.errors);
    write_answers(alloc, out, converges, kept, prediction.recorded)?;
    Ok(())
}

/// Writes what was asked of a migration: what ticks and pages stand for, its limits, the settings that these make, and
/// by whose plan it goes.
fn write_asked(
    alloc: Global,
    out: &mut Document,
    settings: &Settings,
    scale: &Scale,
    limits: &Limits,
    manner: Manner,
) -> Result<(), AllocError>
    ensures { OnOk result (out.new ≡ out.old
        ++ flat_map (λ m. m) (asked_members settings.now scale.now limits.now manner)) }
{
    out.key("units")?;
    write_scale(alloc, out, scale)?;
    out.key("limits")?;
    write_limits(alloc, out, limits)?;
    out.key("settings")?;
    write_plan_settings(out, settings)?;
    write_plan(out, manner)?;
    Ok(())
}

/// Writes what comes of a migration if the hypervisor looks as QEMU does, if that is told, as a member.
fn write_told(alloc: Global, out: &mut Document, outlook: &Outlook) -> Result<(), AllocError>
    ensures { OnOk result (out.new ≡ out.old ++ told_member outlook.now) }
{
    if outlook.tells_looks() {
        write_looks(alloc, out, &outlook.looks)
    } else {
        Ok(())
    }
}

/// Writes what is predicted: the answers, the migration if the trace does not end before it, what comes of it if the
/// hypervisor looks as QEMU does if that is told, the answers of draws and the ranges over starts if there are any, the
/// shares of the link, and what is enough for the limit, as members.
fn write_outlook(
    alloc: Global,
    out: &mut Document,
    limit: u64,
    outlook: &Outlook,
) -> Result<(), AllocError>
    ensures { OnOk result (out.new ≡ out.old ++ flat_map (λ m. m) (outlook_members limit outlook.now)) }
{
    write_sure(alloc, out, limit, outlook)?;
    write_migration(alloc, out, &outlook.prediction, &outlook.errors)?;
    write_told(alloc, out, outlook)?;
    write_draws(out, &outlook.agreement.draws)?;
    write_ranges(alloc, out, &outlook.ranges)?;
    write_share(out, &outlook.share)?;
    let sure = is_sure(limit, outlook);
    write_enough(alloc, out, sure, &outlook.remedies)?;
    Ok(())
}

/// Writes a prediction.
fn write_prediction(
    alloc: Global,
    out: &mut Document,
    settings: &Settings,
    scale: &Scale,
    limits: &Limits,
    outlook: &Outlook,
) -> Result<(), AllocError>
    ensures { OnOk result (out.new ≡ out.old
        ++ prediction_object settings.now scale.now limits.now outlook.now) }
{
    out.begin_object()?;
    let prediction = &outlook.prediction;
    write_asked(alloc, out, settings, scale, limits, prediction.manner)?;
    write_outlook(alloc, out, limits.downtime, outlook)?;
    out.key("hosts")?;
    write_hosts(out, limits)?;
    out.end_object()?;
    Ok(())
}

/// Returns a prediction as a JSON document, in one line: what was asked, the answers, the migration if the trace does
/// not end before it, what comes of it if the hypervisor looks as QEMU does if that is told, the answers of draws, the
/// ranges over starts, the shares of the link, what is enough for the limit, and the same limits for QEMU and libvirt.
pub fn json_prediction(
    alloc: Global,
    settings: &Settings,
    scale: &Scale,
    limits: &Limits,
    outlook: &Outlook,
) -> Result<Vec<u8>, AllocError>
    ensures { IfOk result (λ text. text.items
        ≡ line_of (prediction_object settings.now scale.now limits.now outlook.now)) }
{
    let mut out = Document::new(alloc);
    write_prediction(alloc, &mut out, settings, scale, limits, outlook)?;
    out.into_line()
}
