//! The same migration over a log, started at many ticks.

ghost use Rattle.std.specs.Prelude.{◌≡◌, IfErr, IfOk, OnOk};
ghost use Rattle.migration_model.specs.Windows.{working_sets_of};
ghost use Rattle.migration_model.specs.Touches.{last_tick_of};
ghost use Rattle.predictions.specs.Starts.{AreAccepted};
ghost use Rattle.report_pictures.specs.StartCharts.{IsStartsChart};
ghost use Rattle.trace_views.specs.StartViews.{AreStartsOf, IsStartsText, IsStartsView, RefusesStartsView};
ghost use Rattle.trace_views.specs.StartViews.{kept_from, starts_measure};

use crate::case_planning::cases_over;
use crate::error::ViewError;
use crate::shown_text::ViewText;
use crate::starts_document::json_starts;
use guest_log::last_tick;
use predictions::starts::{
    StartCost, best_start, known_starts, start_costs, starts_text, worst_start,
};
use predictions::{Measure, Verdict};
use report_pictures::{Chosen, starts_chart};
use std::alloc::Global;
use std::thread::Threads;
use trace_readers::TouchLog;
use view_kinds::{AskedStarts, StartsForm};
use working_sets::tables;

/// What a migration costs from each start, and the best and the worst start.
#[derive(Drop)]
struct Found {
    costs: Vec<StartCost>,
    best: Option<StartCost>,
    worst: Option<StartCost>,
}

/// Returns whether the best start keeps the limit, if a migration ends within the trace.
fn kept_by(best: &Option<StartCost>) -> Verdict
    ensures { result ≡ kept_from best.now }
{
    match best {
        Some(at) => at.cost.kept(),
        None => Verdict::Unknown,
    }
}

/// Returns by what the migrations of some starts are judged.
fn measure_of(asked: &AskedStarts) -> Measure
    ensures { result ≡ starts_measure asked.now }
{
    Measure {
        scale: asked.scale,
        limits: asked.limits,
        manner: asked.manner,
    }
}

/// Returns what a migration over a log costs from each start.
fn starts_found<R: Threads + Sync>(
    rt: &R,
    alloc: Global,
    asked: &AskedStarts,
    log: &TouchLog,
) -> Result<Found, ViewError>
    ensures made { IfOk result (λ found. AreStartsOf log.now asked.now found.costs.items found.best found.worst) }
    ensures accepted { OnOk result (AreAccepted asked.now.settings asked.now.starts (last_tick_of log.now.touches)) }
    ensures refused { IfErr result (RefusesStartsView log.now asked.now) }
{
    let last = last_tick(log);
    let starts = asked.starts.cases(alloc, &asked.settings, last)?;
    let workers = asked.settings.asked().workers as usize;
    let measure = measure_of(asked);
    let cases = cases_over(rt, alloc, &starts, &measure, workers, log)?;
    let costs = start_costs(alloc, &measure, &cases, last)?;
    let known = known_starts(alloc, &costs)?;
    let best = best_start(alloc, log, &measure, &cases)?;
    let worst = worst_start(asked.limits.downtime, &known);
    Ok(Found { costs, best, worst })
}

/// Returns the starts as a picture.
fn chart(
    alloc: Global,
    asked: &AskedStarts,
    found: &Found,
    log: &TouchLog,
) -> Result<Vec<u8>, ViewError>
    ensures made { IfOk result (λ text. IsStartsChart asked.now.settings asked.now.scale asked.now.limits
        (working_sets_of log.now.pages log.now.touches asked.now.settings) found.now.costs.items found.now.best
        found.now.worst text.items) }
    ensures refused { IfErr result (λ e. e ≡ ViewError.Memory) }
{
    let AskedStarts {
        settings,
        scale,
        limits,
        ..
    } = asked;
    let tables = tables(alloc, log, settings).or(Err(ViewError::Memory))?;
    let chosen = Chosen {
        best: found.best,
        worst: found.worst,
    };
    Ok(starts_chart(
        alloc,
        settings,
        scale,
        limits,
        &tables,
        &found.costs,
        &chosen,
    )?)
}

/// Returns the starts in the requested form.
fn formed(
    alloc: Global,
    asked: &AskedStarts,
    found: &Found,
    log: &TouchLog,
) -> Result<Vec<u8>, ViewError>
    ensures made { IfOk result (λ text. IsStartsText asked.now.form log.now asked.now found.now.costs.items
        found.now.best found.now.worst text.items) }
    ensures refused { IfErr result (λ e. e ≡ ViewError.Memory) }
{
    let Found { costs, best, worst } = found;
    let scale = &asked.scale;
    let limit = asked.limits.downtime;
    match asked.form {
        StartsForm::Table => Ok(starts_text(alloc, scale, limit, costs, best, worst)?),
        StartsForm::Json => Ok(json_starts(alloc, &measure_of(asked), costs, best, worst)?),
        StartsForm::Chart => chart(alloc, asked, found, log),
    }
}

/// Returns what a migration over a log costs from each start, in some form, and whether the best start keeps the limit.
pub(crate) fn starts_view<R: Threads + Sync>(
    rt: &R,
    alloc: Global,
    asked: &AskedStarts,
    log: &TouchLog,
) -> Result<ViewText, ViewError>
    ensures made { IfOk result (λ shown. IsStartsView log.now asked.now shown.text.items shown.kept) }
    ensures refused { IfErr result (RefusesStartsView log.now asked.now) }
{
    let found = starts_found(rt, alloc, asked, log)?;
    let text = formed(alloc, asked, &found, log)?;
    Ok(ViewText {
        text,
        kept: kept_by(&found.best),
    })
}
