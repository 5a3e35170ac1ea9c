//! Views of a log of touches.

ghost use Rattle.std.specs.Prelude.{◌≡◌, Err, IfErr, IfOk, Ok};
ghost use Rattle.migration_model.specs.Rounds.{IsPlan};
ghost use Rattle.migration_model.specs.Windows.{working_sets_of};
ghost use Rattle.trace_views.specs.AdviceText.{known_cost};
ghost use Rattle.trace_views.specs.Views.{IsAdviceView, IsChartView, IsReportView, IsShownView, IsSweepView, IsView};
ghost use Rattle.trace_views.specs.Views.{RefusesView};

use crate::advice_writing::{advice_head, push_choice};
use crate::choosing::advise;
use crate::error::ViewError;
use crate::grid::Grid;
use crate::likely::case_errors;
use crate::predicting::prediction_view;
use crate::report_document::json_report;
use crate::shown_text::ViewText;
use crate::starting::starts_view;
use crate::sweep_document::json_sweep;
use crate::sweeping::planned;
use guest_log::last_tick;
use predictions::redrawn::Errors;
use predictions::units::Scale;
use predictions::{Cost, Verdict};
use rate_limit::Settings;
use report_pictures::{measured_screen, report_chart, report_screen};
use round_planner::{Plan, plan};
use std::alloc::{AllocError, Global};
use std::thread::Threads;
use sweep_report::Line;
use trace_readers::TouchLog;
use view_kinds::{Budget, Measured, Style, View};
use working_sets::{Tables, tables};

/// Returns the report on a log as a JSON document.
fn report_view(
    alloc: Global,
    settings: &Settings,
    scale: &Option<Scale>,
    log: &TouchLog,
) -> Result<Vec<u8>, ViewError>
    ensures made { IfOk result (λ v. IsReportView log.now settings.now scale.now v.items) }
    ensures refused { IfErr result (λ e. e ≡ ViewError.Memory) }
{
    let tables = tables(alloc, log, settings).or(Err(ViewError::Memory))?;
    let plan = plan(alloc, log, settings).or(Err(ViewError::Memory))?;
    json_report(alloc, &log.shape(), settings, scale, &tables, &plan)
}

/// What a report tells: the working sets, and the plan.
#[derive(Drop)]
struct Facts {
    tables: Tables,
    plan: Plan,
}

/// Returns what a report on a log tells.
fn facts_of(alloc: Global, settings: &Settings, log: &TouchLog) -> Result<Facts, ViewError>
    ensures made { IfOk result (λ facts. (facts.tables ≡ working_sets_of log.now.pages log.now.touches settings.now)
        × IsPlan log.now.pages log.now.touches settings.now facts.plan) }
    ensures refused { IfErr result (λ e. e ≡ ViewError.Memory) }
{
    let tables = tables(alloc, log, settings).or(Err(ViewError::Memory))?;
    let plan = plan(alloc, log, settings).or(Err(ViewError::Memory))?;
    Ok(Facts { tables, plan })
}

/// Returns the report on a log as a picture.
fn chart_view(
    alloc: Global,
    settings: &Settings,
    scale: &Option<Scale>,
    log: &TouchLog,
) -> Result<Vec<u8>, ViewError>
    ensures made { IfOk result (λ v. IsChartView log.now settings.now scale.now v.items) }
    ensures refused { IfErr result (λ e. e ≡ ViewError.Memory) }
{
    let facts = facts_of(alloc, settings, log)?;
    Ok(report_chart(
        alloc,
        &log.shape(),
        settings,
        scale,
        &facts.tables,
        &facts.plan,
    )?)
}

/// Returns the report on a log for a terminal.
fn screen_view(
    alloc: Global,
    settings: &Settings,
    scale: &Option<Scale>,
    style: &Style,
    log: &TouchLog,
) -> Result<Vec<u8>, ViewError>
    ensures made { IfOk result (λ v. IsShownView log.now settings.now scale.now style.now v.items) }
    ensures refused { IfErr result (λ e. e ≡ ViewError.Memory) }
{
    let tables = tables(alloc, log, settings).or(Err(ViewError::Memory))?;
    let plan = plan(alloc, log, settings).or(Err(ViewError::Memory))?;
    let shape = log.shape();
    let text = match scale {
        Some(scale) => measured_screen(alloc, style, scale, &shape, settings, &tables, &plan)?,
        None => report_screen(alloc, style, &shape, settings, &tables, &plan)?,
    };
    Ok(text)
}

/// Returns the sweep of a log as a JSON document.
fn sweep_view<R: Threads + Sync>(
    rt: &R,
    alloc: Global,
    cases: &[Settings],
    workers: usize,
    scale: &Option<Scale>,
    log: &TouchLog,
) -> Result<Vec<u8>, ViewError>
    ensures made { IfOk result (λ v. IsSweepView log.now cases.now scale.now v.items) }
    ensures refused { IfErr result (λ e. e ≡ ViewError.Memory) }
{
    let lines = planned(rt, alloc, cases, workers, log)?;
    json_sweep(alloc, scale, &lines)
}

/// Returns what a case costs, if it is known what ticks and pages stand for.
fn cost_of(measured: &Option<Measured>, line: &Line, last_tick: u64) -> Option<Cost>
    ensures { result ≡ known_cost measured.now line.now last_tick }
{
    match measured {
        Some(Measured { scale, limits }) => Some(Cost::of_line(scale, limits, line, last_tick)),
        None => None,
    }
}

/// What is told of a case to take, and the errors that it has.
#[derive(Drop)]
struct ToldChoice {
    errors: Option<Errors>,
    text: Vec<u8>,
}

impl ToldChoice {
    ghost use Rattle.std.specs.Prelude.{◌≡◌, ◌<◌, ℕ, IfOk, Some, length};
    ghost use Rattle.trace_views.specs.Views.{IsCaseTold, IsChoiceTold};

    /// Returns what is told of a case over a log, by its number.
    fn of_case(
        alloc: Global,
        log: &TouchLog,
        measured: &Option<Measured>,
        lines: &[Line],
        case: usize,
    ) -> Result<ToldChoice, AllocError>
        requires { case < length lines.now }
        ensures { IfOk result (λ told. IsCaseTold log.now measured.now lines.now case told.errors told.text.items) }
    {
        let line = &lines[case];
        let errors = case_errors(alloc, log, measured, line)?;
        let cost = cost_of(measured, line, last_tick(log));
        let mut text = Vec::new(alloc);
        push_choice(&mut text, case, line, &cost, &errors)?;
        Ok(ToldChoice { errors, text })
    }

    /// Returns what is told of the case to take over a log, or nothing if there is none.
    fn of_choice(
        alloc: Global,
        log: &TouchLog,
        measured: &Option<Measured>,
        lines: &[Line],
        choice: Option<usize>,
    ) -> Result<ToldChoice, AllocError>
        requires { (case : ℕ) → choice ≡ Some case → case < length lines.now }
        ensures { IfOk result (λ told. IsChoiceTold log.now measured.now lines.now choice told.errors
            told.text.items) }
    {
        match choice {
            Some(case) => ToldChoice::of_case(alloc, log, measured, lines, case),
            None => Ok(ToldChoice {
                errors: None,
                text: Vec::new(alloc),
            }),
        }
    }
}

/// Returns the advice for a budget, as a text, and whether it is known.
fn advice_view<R: Threads + Sync>(
    rt: &R,
    alloc: Global,
    budget: &Budget,
    settings: &Settings,
    measured: &Option<Measured>,
    log: &TouchLog,
) -> Result<ViewText, ViewError>
    ensures made { IfOk result (λ v. IsAdviceView log.now settings.now budget.now measured.now v.text.items v.kept) }
    ensures refused { IfErr result (λ e. e ≡ ViewError.Memory) }
{
    let grid = Grid::new(settings, budget);
    let cases = grid.cases(alloc, settings)?;
    let workers = settings.asked().workers as usize;
    let lines = planned(rt, alloc, &cases, workers, log)?;
    let advice = advise(alloc, log, measured, budget, &lines)?;
    let told = ToldChoice::of_choice(alloc, log, measured, &lines, advice.case())?;
    let (count, errors) = (lines.len(), &told.errors);
    let mut text = advice_head(alloc, budget, settings, &grid, count, &advice, errors)?;
    text.extend_from_slice(&told.text)?;
    Ok(ViewText {
        text,
        kept: advice.verdict(),
    })
}

/// Returns the view with this text, without a limit to keep.
fn shown(text: Result<Vec<u8>, ViewError>) -> Result<ViewText, ViewError>
    ensures made { IfOk result (λ shown. (shown.kept ≡ Verdict.Yes) × (text ≡ Ok shown.text)) }
    ensures refused { IfErr result (λ e. text ≡ Err e) }
{
    Ok(ViewText {
        text: text?,
        kept: Verdict::Yes,
    })
}

/// Returns a view of a trace.
pub fn view_text<R: Threads + Sync>(
    rt: &R,
    alloc: Global,
    view: &View,
    log: &TouchLog,
) -> Result<ViewText, ViewError>
    ensures made { IfOk result (λ shown. IsView log.now view.now shown.text.items shown.kept) }
    ensures refused { IfErr result (RefusesView log.now view.now) }
{
    match view {
        View::JsonReport { settings, scale } => shown(report_view(alloc, settings, scale, log)),
        View::JsonSweep {
            cases,
            workers,
            scale,
        } => shown(sweep_view(rt, alloc, cases, *workers, scale, log)),
        View::Advise {
            budget,
            settings,
            measured,
        } => advice_view(rt, alloc, budget, settings, measured, log),
        View::Chart { settings, scale } => shown(chart_view(alloc, settings, scale, log)),
        View::Show {
            settings,
            scale,
            style,
        } => shown(screen_view(alloc, settings, scale, style, log)),
        View::When(asked) => starts_view(rt, alloc, asked, log),
        View::Predict(asked) => prediction_view(rt, alloc, asked, log),
    }
}
