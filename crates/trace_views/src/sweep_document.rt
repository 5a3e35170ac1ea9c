//! A sweep as a JSON document.

ghost use Rattle.std.specs.Prelude.{◌≡◌, ◌++◌, IfErr, IfOk, OnOk, Some};
ghost use Rattle.std.specs.List.{flat_map};
ghost use Rattle.trace_views.specs.Json.{best_member, case_object, case_objects, line_of, outcome_members};
ghost use Rattle.trace_views.specs.Json.{outcome_units, page_members, scale_member, scale_object};
ghost use Rattle.trace_views.specs.Json.{settings_members, sweep_object};

use crate::document::Document;
use crate::error::ViewError;
use predictions::units::Scale;
use rate_limit::Settings;
use std::alloc::{AllocError, Global};
use sweep_report::{Line, best_case};

/// Writes the settings of a case as members.
pub(crate) fn write_settings(out: &mut Document, settings: &Settings) -> Result<(), AllocError>
    ensures { OnOk result (out.new ≡ out.old ++ flat_map (λ m. m) (settings_members settings.now)) }
{
    let asked = settings.asked();
    out.number_member("min", asked.min)?;
    out.number_member("max", asked.max)?;
    out.number_member("inc", asked.increment)?;
    out.number_member("threshold", asked.threshold)?;
    out.number_member("limit", asked.rounds)?;
    out.flag_member("skip", asked.skip)?;
    Ok(())
}

/// Writes the sums of a plan as members.
fn write_outcome(out: &mut Document, line: &Line) -> Result<(), AllocError>
    ensures { OnOk result (out.new ≡ out.old ++ flat_map (λ m. m) (outcome_members line.now.outcome)) }
{
    out.number_member("rounds", line.rounds)?;
    out.text_member("stop", line.reason.word())?;
    out.number_member("at", line.stop)?;
    out.number_member("down", line.down)?;
    out.number_member("total", line.total)?;
    Ok(())
}

/// Writes the times and the bytes of a plan as members.
fn write_measures(
    alloc: Global,
    out: &mut Document,
    scale: &Scale,
    line: &Line,
) -> Result<(), AllocError>
    ensures { OnOk result (out.new ≡ out.old ++ flat_map (λ m. m) (outcome_units (Some scale.now) line.now.outcome)) }
{
    out.seconds_member(alloc, "at_seconds", scale.micros(line.stop))?;
    out.seconds_member(alloc, "down_seconds", scale.micros(line.down))?;
    out.wide_member("total_bytes", scale.bytes(line.total))?;
    Ok(())
}

/// Writes the times and the bytes of a plan as members, if they are known.
fn write_known(
    alloc: Global,
    out: &mut Document,
    scale: &Option<Scale>,
    line: &Line,
) -> Result<(), AllocError>
    ensures { OnOk result (out.new ≡ out.old ++ flat_map (λ m. m) (outcome_units scale.now line.now.outcome)) }
{
    match scale {
        Some(scale) => write_measures(alloc, out, scale, line),
        None => Ok(()),
    }
}

/// Writes a case.
fn write_case(
    alloc: Global,
    out: &mut Document,
    scale: &Option<Scale>,
    number: usize,
    line: &Line,
) -> Result<(), AllocError>
    ensures { OnOk result (out.new ≡ out.old ++ case_object scale.now number line.now) }
{
    out.begin_object()?;
    out.number_member("case", number as u64)?;
    write_settings(out, &line.settings)?;
    write_outcome(out, line)?;
    write_known(alloc, out, scale, line)?;
    out.end_object()?;
    Ok(())
}

/// Writes the items of an array of cases.
fn write_cases(
    alloc: Global,
    out: &mut Document,
    scale: &Option<Scale>,
    lines: &[Line],
) -> Result<(), AllocError>
    ensures { OnOk result (out.new ≡ out.old ++ case_objects scale.now lines.now) }
{
    for (number, line) in lines.iter().enumerate() {
        write_case(alloc, out, scale, number, line)?;
    }
    Ok(())
}

/// Writes what pages stand for as members.
pub(crate) fn write_page_scale(out: &mut Document, scale: &Scale) -> Result<(), AllocError>
    ensures { OnOk result (out.new ≡ out.old ++ flat_map (λ m. m) (page_members scale.now)) }
{
    out.number_member("page_bytes", scale.page())?;
    out.number_member("sampled_pages", scale.sampled())?;
    out.number_member("guest_pages", scale.guest())?;
    Ok(())
}

/// Writes what ticks and pages stand for.
pub(crate) fn write_scale(
    alloc: Global,
    out: &mut Document,
    scale: &Scale,
) -> Result<(), AllocError>
    ensures { OnOk result (out.new ≡ out.old ++ scale_object scale.now) }
{
    out.begin_object()?;
    out.seconds_member(alloc, "tick_seconds", scale.tick() as u128)?;
    write_page_scale(out, scale)?;
    out.end_object()?;
    Ok(())
}

/// Writes what ticks and pages stand for as a member, if that is known.
fn write_units(alloc: Global, out: &mut Document, scale: &Option<Scale>) -> Result<(), AllocError>
    ensures { OnOk result (out.new ≡ out.old ++ scale_member scale.now) }
{
    match scale {
        Some(scale) => {
            out.key("units")?;
            write_scale(alloc, out, scale)
        }
        None => Ok(()),
    }
}

/// Writes the number of the best case as a member, if there is a case.
fn write_best(out: &mut Document, lines: &[Line]) -> Result<(), AllocError>
    ensures { OnOk result (out.new ≡ out.old ++ best_member lines.now) }
{
    if lines.is_empty() {
        return Ok(());
    }
    out.number_member("best", best_case(lines) as u64)
}

/// Writes the facts of a sweep as an object.
fn write_sweep(
    alloc: Global,
    out: &mut Document,
    scale: &Option<Scale>,
    lines: &[Line],
) -> Result<(), AllocError>
    ensures { OnOk result (out.new ≡ out.old ++ sweep_object scale.now lines.now) }
{
    out.begin_object()?;
    write_units(alloc, out, scale)?;
    out.key("cases")?;
    out.begin_array()?;
    write_cases(alloc, out, scale, lines)?;
    out.end_array()?;
    write_best(out, lines)?;
    out.end_object()?;
    Ok(())
}

/// Returns the facts of a sweep as a JSON document, in one line: its cases, and the number of the best of them.
pub fn json_sweep(
    alloc: Global,
    scale: &Option<Scale>,
    lines: &[Line],
) -> Result<Vec<u8>, ViewError>
    ensures made { IfOk result (λ text. text.items ≡ line_of (sweep_object scale.now lines.now)) }
    ensures refused { IfErr result (λ e. e ≡ ViewError.Memory) }
{
    let mut out = Document::new(alloc);
    write_sweep(alloc, &mut out, scale, lines)?;
    Ok(out.into_line()?)
}
