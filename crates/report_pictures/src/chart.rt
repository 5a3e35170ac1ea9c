//! A report as a picture: the working set by window, and the rounds below it on an axis of their own.

ghost use Rattle.std.specs.Prelude.{◌≡◌, ◌^◌, ◌++◌, IfOk, OnOk};
ghost use Rattle.report_pictures.specs.ReportCharts.{IsReportChart, place_marks, sizes_words, stop_mark, stop_numbers};
ghost use Rattle.report_pictures.specs.ReportCharts.{stop_reason, stop_sizes, stop_times, trace_mark, units_mark};
ghost use Rattle.report_pictures.specs.ReportCharts.{units_of, writes_words};

use crate::axis::{Axis, LEFT};
use crate::panel::Panel;
use crate::round_panels::{panels_of_rounds, push_rounds};
use crate::svg::{begin_picture, begin_text, end_picture, end_text};
use crate::units_screen::{push_named_moment, push_named_size, push_named_time};
use crate::window_panel::{panel_of_windows, push_windows};
use crate::words::push_words;
use guest_log::Shape;
use predictions::units::Scale;
use rate_limit::Settings;
use round_planner::Plan;
use std::alloc::{AllocError, Global};
use sweep_report::push_field;
use working_sets::Tables;

/// Appends how many pages a trace has, and how large they are.
#[tactic(auto, unfolding(crate::specs::ReportCharts::sizes_words))]
fn push_sizes(text: &mut Vec<u8>, shape: &Shape) -> Result<(), AllocError>
    ensures { OnOk result (text.new.items ≡ text.old.items ++ sizes_words shape.now.pages (2 ^ shape.now.shift)) }
{
    push_field(text, "A trace of ", shape.pages as u64)?;
    push_field(text, " pages of ", shape.page_size() as u64)
}

/// Appends how many writes a trace has, and how long windows are.
#[tactic(auto, unfolding(crate::specs::ReportCharts::writes_words))]
fn push_writes(text: &mut Vec<u8>, shape: &Shape, length: u64) -> Result<(), AllocError>
    ensures { OnOk result (text.new.items ≡ text.old.items ++ writes_words shape.now.writes length) }
{
    push_field(text, " bytes, ", shape.writes as u64)?;
    push_field(text, " writes; windows of ", length)?;
    push_words(text, " ticks")
}

/// Appends the line on the trace, at the top.
#[tactic(auto, unfolding(crate::specs::ReportCharts::trace_mark))]
fn push_trace(text: &mut Vec<u8>, shape: &Shape, length: u64) -> Result<(), AllocError>
    ensures { OnOk result (text.new.items ≡ text.old.items
        ++ trace_mark shape.now.pages (2 ^ shape.now.shift) shape.now.writes length) }
{
    begin_text(text, "head", LEFT, 36)?;
    push_sizes(text, shape)?;
    push_writes(text, shape, length)?;
    end_text(text)
}

/// Appends why and when the guest stops.
#[tactic(auto, unfolding(crate::specs::ReportCharts::stop_reason))]
fn push_reason(text: &mut Vec<u8>, plan: &Plan) -> Result<(), AllocError>
    ensures { OnOk result (text.new.items ≡ text.old.items ++ stop_reason plan.now) }
{
    push_words(text, "Stop (")?;
    push_words(text, plan.reason.word())?;
    push_field(text, ") at tick ", plan.stop)
}

/// Appends how long the stop is, for what, and how much is sent in all.
#[tactic(auto, unfolding(crate::specs::ReportCharts::stop_numbers))]
fn push_numbers(text: &mut Vec<u8>, plan: &Plan) -> Result<(), AllocError>
    ensures { OnOk result (text.new.items ≡ text.old.items ++ stop_numbers plan.now) }
{
    push_field(text, "; downtime ", plan.down)?;
    push_field(text, " ticks for ", plan.last.len() as u64)?;
    push_field(text, " pages; ", plan.total())?;
    push_words(text, " pages sent in all")?;
    Ok(())
}

/// Appends the line on the stop, at the bottom.
#[tactic(auto, unfolding(crate::specs::ReportCharts::stop_mark))]
fn push_stop(text: &mut Vec<u8>, plan: &Plan) -> Result<(), AllocError>
    ensures { OnOk result (text.new.items ≡ text.old.items ++ stop_mark plan.now) }
{
    begin_text(text, "foot", LEFT, 684)?;
    push_reason(text, plan)?;
    push_numbers(text, plan)?;
    end_text(text)
}

/// Appends the times of the stop and of the downtime.
#[tactic(auto, unfolding(crate::specs::ReportCharts::stop_times))]
fn push_stop_times(text: &mut Vec<u8>, scale: &Scale, plan: &Plan) -> Result<(), AllocError>
    ensures { OnOk result (text.new.items ≡ text.old.items ++ stop_times scale.now plan.now) }
{
    push_named_moment(text, "Stop at ", scale, plan.stop)?;
    push_named_time(text, "; downtime ", scale, plan.down)
}

/// Appends how much is sent after the stop, and in all.
#[tactic(auto, unfolding(crate::specs::ReportCharts::stop_sizes))]
fn push_stop_sizes(text: &mut Vec<u8>, scale: &Scale, plan: &Plan) -> Result<(), AllocError>
    ensures { OnOk result (text.new.items ≡ text.old.items ++ stop_sizes scale.now plan.now) }
{
    push_named_size(text, " for ", scale, plan.last.len() as u64)?;
    push_named_size(text, "; ", scale, plan.total())?;
    push_words(text, " sent in all")?;
    Ok(())
}

/// Appends the line on the stop in times and bytes of the guest, below the other.
#[tactic(auto, unfolding(crate::specs::ReportCharts::units_of))]
fn push_units(text: &mut Vec<u8>, scale: &Scale, plan: &Plan) -> Result<(), AllocError>
    ensures { OnOk result (text.new.items ≡ text.old.items ++ units_of scale.now plan.now) }
{
    begin_text(text, "foot", LEFT, 706)?;
    push_stop_times(text, scale, plan)?;
    push_stop_sizes(text, scale, plan)?;
    end_text(text)
}

/// Appends that line, if it is known what ticks and pages stand for.
fn push_units_if(text: &mut Vec<u8>, scale: &Option<Scale>, plan: &Plan) -> Result<(), AllocError>
    ensures { OnOk result (text.new.items ≡ text.old.items ++ units_mark scale.now plan.now) }
{
    match scale {
        Some(scale) => push_units(text, scale, plan),
        None => Ok(()),
    }
}

/// Marks on the windows where the rounds lie, and where the guest stops.
#[tactic(auto, unfolding(crate::specs::ReportCharts::place_marks))]
fn push_place(
    text: &mut Vec<u8>,
    axis: &Axis,
    rounds: &Axis,
    panel: &Panel,
    plan: &Plan,
) -> Result<(), AllocError>
    ensures { OnOk result (text.new.items ≡ text.old.items
        ++ place_marks axis.now rounds.now panel.now plan.now) }
{
    let from = axis.place(rounds.first);
    let to = axis.place(rounds.last).max(from.saturating_add(2));
    panel.push_span(text, "span", from, to)?;
    let stop = axis.place(plan.stop);
    panel.push_span(text, "stop", stop, stop.saturating_add(2))
}

/// Appends the picture of a report.
fn push_chart(
    text: &mut Vec<u8>,
    shape: &Shape,
    settings: &Settings,
    scale: &Option<Scale>,
    tables: &Tables,
    plan: &Plan,
) -> Result<(), AllocError>
    ensures { OnOk result (IsReportChart shape.now.pages (2 ^ shape.now.shift) shape.now.writes settings.now
        scale.now tables.now plan.now text.new.items) }
{
    let length = settings.asked().window;
    let rounds_axis = Axis::of_rounds(settings, plan);
    let axis = rounds_axis.with_windows(length, &tables.windows);
    let windows = panel_of_windows(&tables.windows);
    let (pages, rates) = panels_of_rounds(&plan.rounds);
    begin_picture(text, 720)?;
    push_trace(text, shape, length)?;
    push_windows(text, &axis, length, &tables.windows)?;
    push_place(text, &axis, &rounds_axis, &windows, plan)?;
    axis.push_labels(text, scale, windows.bottom())?;
    push_rounds(text, &rounds_axis, &pages, &rates, plan)?;
    rounds_axis.push_labels(text, scale, rates.bottom())?;
    push_stop(text, plan)?;
    push_units_if(text, scale, plan)?;
    end_picture(text)?;
    Ok(())
}

/// Returns a report as a picture, an SVG document: the pages of each window, and below them, on an axis of their own,
/// the rounds, the stop and the downtime. The windows are marked where these lie. If windows are narrower than a unit
/// of the picture, the one with the most pages is drawn. With a scale it also has times and sizes.
pub fn report_chart(
    alloc: Global,
    shape: &Shape,
    settings: &Settings,
    scale: &Option<Scale>,
    tables: &Tables,
    plan: &Plan,
) -> Result<Vec<u8>, AllocError>
    ensures { IfOk result (λ text. IsReportChart shape.now.pages (2 ^ shape.now.shift) shape.now.writes settings.now
        scale.now tables.now plan.now text.items) }
{
    let mut text = Vec::new(alloc);
    push_chart(&mut text, shape, settings, scale, tables, plan)?;
    Ok(text)
}
