//! The costs of starts as a JSON document.

ghost use Rattle.std.specs.Prelude.{◌≡◌, ◌<◌, ◌++◌, IfOk, OnOk};
ghost use Rattle.std.specs.List.{flat_map};
ghost use Rattle.trace_views.specs.Json.{line_of};
ghost use Rattle.trace_views.specs.StartsJson.{chosen_member, cost_members, cost_numbers, errors_member};
ghost use Rattle.trace_views.specs.StartsJson.{errors_object, start_object, starts_object};

use crate::document::Document;
use crate::plan_document::{write_plan, write_steps};
use predictions::redrawn::Errors;
use predictions::starts::StartCost;
use predictions::{Cost, Manner, Measure};
use std::alloc::{AllocError, Global};

/// Writes what a migration costs by a manner as members.
pub(crate) fn write_cost_numbers(
    alloc: Global,
    out: &mut Document,
    manner: Manner,
    cost: &Cost,
) -> Result<(), AllocError>
    ensures { OnOk result (out.new ≡ out.old ++ flat_map (λ m. m) (cost_numbers manner cost.now)) }
{
    write_steps(out, manner, cost.steps)?;
    out.seconds_member(alloc, "time_seconds", cost.time)?;
    out.wide_member("sent_bytes", cost.bytes)?;
    out.seconds_member(alloc, "down_seconds", cost.downtime)?;
    Ok(())
}

/// Writes what a migration costs, and whether the limit is kept, as members.
fn write_cost(
    alloc: Global,
    out: &mut Document,
    manner: Manner,
    cost: &Cost,
) -> Result<(), AllocError>
    ensures { OnOk result (out.new ≡ out.old ++ flat_map (λ m. m) (cost_members manner cost.now)) }
{
    write_cost_numbers(alloc, out, manner, cost)?;
    out.text_member("kept", cost.kept().word())?;
    Ok(())
}

/// Writes standard errors.
fn write_all(alloc: Global, out: &mut Document, errors: &Errors) -> Result<(), AllocError>
    ensures { OnOk result (out.new ≡ out.old ++ errors_object errors.now) }
{
    out.begin_object()?;
    out.wide_member("sent_bytes", errors.bytes)?;
    out.seconds_member(alloc, "time_seconds", errors.time)?;
    out.seconds_member(alloc, "down_seconds", errors.downtime)?;
    out.end_object()?;
    Ok(())
}

/// Writes standard errors as a member, if they are given.
pub(crate) fn write_errors(
    alloc: Global,
    out: &mut Document,
    errors: &Option<Errors>,
) -> Result<(), AllocError>
    ensures { OnOk result (out.new ≡ out.old ++ errors_member errors.now) }
{
    match errors {
        Some(errors) => {
            out.key("errors")?;
            write_all(alloc, out, errors)
        }
        None => Ok(()),
    }
}

/// Writes a start.
fn write_start(
    alloc: Global,
    out: &mut Document,
    measure: &Measure,
    at: &StartCost,
) -> Result<(), AllocError>
    ensures { OnOk result (out.new ≡ out.old ++ start_object measure.now at.now) }
{
    out.begin_object()?;
    out.number_member("start", at.start)?;
    out.seconds_member(alloc, "start_seconds", measure.scale.micros(at.start))?;
    write_cost(alloc, out, measure.manner, &at.cost)?;
    write_errors(alloc, out, &at.errors)?;
    out.end_object()?;
    Ok(())
}

/// Writes the items of an array of starts.
fn write_starts(
    alloc: Global,
    out: &mut Document,
    measure: &Measure,
    costs: &[StartCost],
) -> Result<(), AllocError>
    ensures { OnOk result (out.new ≡ out.old ++ flat_map (start_object measure.now) costs.now) }
{
    for at in costs {
        write_start(alloc, out, measure, at)?;
    }
    Ok(())
}

/// Writes the chosen start as a member, if there is one.
fn write_chosen(
    alloc: Global,
    out: &mut Document,
    measure: &Measure,
    name: &str,
    chosen: &Option<StartCost>,
) -> Result<(), AllocError>
    ensures { OnOk result (out.new ≡ out.old ++ chosen_member measure.now name.now chosen.now) }
{
    match chosen {
        Some(at) => {
            out.key(name)?;
            write_start(alloc, out, measure, at)
        }
        None => Ok(()),
    }
}

/// Writes the facts of some starts.
fn write_facts(
    alloc: Global,
    out: &mut Document,
    measure: &Measure,
    costs: &[StartCost],
    best: &Option<StartCost>,
    worst: &Option<StartCost>,
) -> Result<(), AllocError>
    ensures { OnOk result (out.new ≡ out.old ++ starts_object measure.now costs.now best.now worst.now) }
{
    out.begin_object()?;
    out.seconds_member(alloc, "limit_seconds", measure.limits.downtime as u128)?;
    write_plan(out, measure.manner)?;
    out.key("starts")?;
    out.begin_array()?;
    write_starts(alloc, out, measure, costs)?;
    out.end_array()?;
    write_chosen(alloc, out, measure, "best", best)?;
    write_chosen(alloc, out, measure, "worst", worst)?;
    out.end_object()?;
    Ok(())
}

/// Returns the costs of starts as a JSON document, in one line: the limit, by whose plan the migrations go, each start,
/// and the best and the worst.
pub fn json_starts(
    alloc: Global,
    measure: &Measure,
    costs: &[StartCost],
    best: &Option<StartCost>,
    worst: &Option<StartCost>,
) -> Result<Vec<u8>, AllocError>
    ensures { IfOk result (λ text. text.items
        ≡ line_of (starts_object measure.now costs.now best.now worst.now)) }
{
    let mut out = Document::new(alloc);
    write_facts(alloc, &mut out, measure, costs, best, worst)?;
    out.into_line()
}
