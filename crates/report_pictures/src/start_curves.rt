//! What a migration costs from each start as a picture: the working set by window, and curves below it on the same
//! axis.

ghost use Rattle.std.specs.Prelude.{◌≡◌, ◌++◌, Some, IfOk, OnOk};
ghost use Rattle.report_pictures.specs.Panels.{IsPanel};
ghost use Rattle.report_pictures.specs.StartCharts.{IsStartsChart, belongs, chosen_line, chosen_marks, chosen_words};
ghost use Rattle.report_pictures.specs.StartCharts.{cost_words, curve_head, curve_marks, curve_panel, curve_text};
ghost use Rattle.report_pictures.specs.StartCharts.{curves_marks, limit_keys, limit_marks, point_text};
ghost use Rattle.report_pictures.specs.StartCharts.{shown_of, start_mark, start_words, starts_axis};
ghost use Rattle.report_pictures.specs.StartCharts.{title_words};

use crate::axis::{Axis, LEFT, SPAN};
use crate::panel::Panel;
use crate::svg::{Area, begin_picture, begin_text, end_picture, end_text, push_rect, push_text};
use crate::window_panel::push_windows;
use crate::words::push_words;
use predictions::redrawn::Errors;
use predictions::starts::{StartCost, push_spread};
use predictions::units::{Limits, Scale};
use predictions::{push_bytes, push_moment, push_time};
use rate_limit::Settings;
use std::alloc::{AllocError, Global};
use sweep_report::push_field;
use working_sets::Tables;

/// A number of a start that a curve shows.
#[derive(Clone, Copy)]
enum Quantity {
    /// The downtime, in milliseconds.
    Downtime,
    /// The total time, in milliseconds.
    Time,
    /// What is sent, in MiB.
    Sent,
}

/// Returns the number that a curve shows of a start.
fn number_of(quantity: Quantity, at: &StartCost) -> u64
    ensures { result ≡ shown_of quantity at.now }
{
    let number = match quantity {
        Quantity::Downtime => at.cost.downtime / 1000,
        Quantity::Time => at.cost.time / 1000,
        Quantity::Sent => at.cost.bytes / (1 << 20),
    };
    number.min(1 << 50) as u64
}

/// Returns the panel of a curve, whose greatest number is a start's, but at least this one.
fn panel_of(quantity: Quantity, costs: &[StartCost], least: u64, top: u64) -> Panel
    ensures { result ≡ curve_panel quantity costs.now least top }
{
    let mut most = least.max(1);
    for at in costs {
        most = number_of(quantity, at).max(most);
    }
    Panel {
        top,
        height: 90,
        most,
    }
}

/// Returns whether a start belongs to the curve of those whose migration outlasts the trace, or to that of the others.
fn is_in(is_late: bool, at: &StartCost) -> bool
    ensures { result ≡ belongs is_late at.now }
{
    if is_late {
        at.cost.is_late
    } else {
        !at.cost.is_late
    }
}

/// Appends the point of a start.
#[tactic(auto, unfolding(crate::specs::StartCharts::point_text))]
fn push_point(
    text: &mut Vec<u8>,
    axis: &Axis,
    panel: &Panel,
    quantity: Quantity,
    at: &StartCost,
) -> Result<(), AllocError>
    requires small { IsPanel panel.now }
    ensures { OnOk result (text.new.items ≡ text.old.items ++ point_text axis.now panel.now quantity at.now) }
{
    push_field(text, "", axis.place(at.start))?;
    push_field(text, ",", panel.level(number_of(quantity, at)))?;
    push_words(text, " ")
}

/// Begins a curve of the starts that are known, or of those that are not.
#[tactic(auto, unfolding(crate::specs::StartCharts::curve_head))]
fn begin_curve(text: &mut Vec<u8>, is_late: bool) -> Result<(), AllocError>
    ensures { OnOk result (text.new.items ≡ text.old.items ++ curve_head is_late) }
{
    push_words(text, "<polyline class=\"")?;
    push_words(text, if is_late { "late" } else { "known" })?;
    push_words(text, "\" points=\"")
}

/// Appends a curve for the starts that are known, or for those that are not.
#[tactic(auto, unfolding(crate::specs::StartCharts::curve_text))]
fn push_line(
    text: &mut Vec<u8>,
    axis: &Axis,
    panel: &Panel,
    quantity: Quantity,
    is_late: bool,
    costs: &[StartCost],
) -> Result<(), AllocError>
    requires small { IsPanel panel.now }
    ensures { OnOk result (text.new.items
        ≡ text.old.items ++ curve_text axis.now panel.now quantity is_late costs.now) }
{
    begin_curve(text, is_late)?;
    for at in costs {
        if is_in(is_late, at) {
            push_point(text, axis, panel, quantity, at)?;
        }
    }
    push_words(text, "\"/>\n")
}

/// Appends a line over a panel, at a start.
fn push_start(
    text: &mut Vec<u8>,
    axis: &Axis,
    panel: &Panel,
    class: &str,
    at: &Option<StartCost>,
) -> Result<(), AllocError>
    ensures { OnOk result (text.new.items ≡ text.old.items ++ start_mark axis.now panel.now class.now at.now) }
{
    let Some(at) = at else {
        return Ok(());
    };
    let place = axis.place(at.start);
    panel.push_span(text, class, place, place.saturating_add(2))
}

/// The best and the worst of some starts.
#[derive(Clone, Copy)]
pub struct Chosen {
    /// The best, if there is one.
    pub best: Option<StartCost>,
    /// The worst, if there is one.
    pub worst: Option<StartCost>,
}

/// Appends the lines of the best and of the worst start over a panel.
#[tactic(auto, unfolding(crate::specs::StartCharts::chosen_marks))]
fn push_chosen_starts(
    text: &mut Vec<u8>,
    axis: &Axis,
    panel: &Panel,
    chosen: &Chosen,
) -> Result<(), AllocError>
    ensures { OnOk result (text.new.items
        ≡ text.old.items ++ chosen_marks axis.now panel.now chosen.now.best chosen.now.worst) }
{
    push_start(text, axis, panel, "best", &chosen.best)?;
    push_start(text, axis, panel, "worst", &chosen.worst)
}

/// Returns the title of the panel of a curve.
fn title(quantity: Quantity) -> &'static str
    ensures { result.now ≡ title_words quantity }
{
    match quantity {
        Quantity::Downtime => "Downtime by start, in ms",
        Quantity::Time => "Time by start, in ms",
        Quantity::Sent => "Sent by start, in MiB",
    }
}

/// Appends a panel with a curve.
#[tactic(auto, unfolding(crate::specs::StartCharts::curve_marks))]
fn push_curve(
    text: &mut Vec<u8>,
    axis: &Axis,
    panel: &Panel,
    quantity: Quantity,
    costs: &[StartCost],
    chosen: &Chosen,
) -> Result<(), AllocError>
    requires small { IsPanel panel.now }
    ensures { OnOk result (text.new.items ≡ text.old.items
        ++ curve_marks axis.now panel.now quantity costs.now chosen.now.best chosen.now.worst) }
{
    panel.push_frame(text, title(quantity))?;
    push_line(text, axis, panel, quantity, true, costs)?;
    push_line(text, axis, panel, quantity, false, costs)?;
    push_chosen_starts(text, axis, panel, chosen)
}

/// Appends what the colors of the curves mean.
#[tactic(auto, unfolding(crate::specs::StartCharts::limit_keys))]
fn push_limit_keys(text: &mut Vec<u8>, panel: &Panel) -> Result<(), AllocError>
    ensures { OnOk result (text.new.items ≡ text.old.items ++ limit_keys panel.now) }
{
    panel.push_key(text, "limit", 330, "limit")?;
    panel.push_key(text, "best", 420, "best start")?;
    panel.push_key(text, "worst", 540, "worst start")?;
    panel.push_key(text, "latekey", 670, "ends after the trace")
}

/// Appends the line of the limit over the panel of the downtime, and what the colors mean.
#[tactic(auto, unfolding(crate::specs::StartCharts::limit_marks))]
fn push_limit(text: &mut Vec<u8>, panel: &Panel, limit: u64) -> Result<(), AllocError>
    requires small { IsPanel panel.now }
    ensures { OnOk result (text.new.items ≡ text.old.items ++ limit_marks panel.now limit) }
{
    let line = Area {
        x: LEFT,
        y: panel.level(limit),
        width: SPAN,
        height: 1,
    };
    push_rect(text, "limit", &line)?;
    push_limit_keys(text, panel)
}

/// Appends when a start is, and its downtime with its standard error, if one is counted.
#[tactic(auto, unfolding(crate::specs::StartCharts::start_words))]
fn push_start_words(
    text: &mut Vec<u8>,
    scale: &Scale,
    name: &str,
    start: u64,
    downtime: u128,
    errors: &Option<Errors>,
) -> Result<(), AllocError>
    ensures { OnOk result (text.new.items
        ≡ text.old.items ++ start_words scale.now name.now start downtime errors.now) }
{
    push_words(text, name)?;
    push_moment(text, scale.micros(start))?;
    push_words(text, ": downtime ")?;
    push_time(text, downtime)?;
    push_spread(text, errors)?;
    Ok(())
}

/// Appends the time from a start, and what is sent.
#[tactic(auto, unfolding(crate::specs::StartCharts::cost_words))]
fn push_cost_words(text: &mut Vec<u8>, at: &StartCost) -> Result<(), AllocError>
    ensures { OnOk result (text.new.items ≡ text.old.items ++ cost_words at.now) }
{
    push_words(text, ", time ")?;
    push_time(text, at.cost.time)?;
    push_words(text, ", ")?;
    push_bytes(text, at.cost.bytes)?;
    push_words(text, " sent")?;
    Ok(())
}

/// Appends the line of a start.
#[tactic(auto, unfolding(crate::specs::StartCharts::chosen_line))]
fn push_chosen_line(
    text: &mut Vec<u8>,
    scale: &Scale,
    name: &str,
    y: u64,
    at: &StartCost,
) -> Result<(), AllocError>
    ensures { OnOk result (text.new.items ≡ text.old.items ++ chosen_line scale.now name.now y at.now) }
{
    begin_text(text, "foot", LEFT, y)?;
    push_start_words(text, scale, name, at.start, at.cost.downtime, &at.errors)?;
    push_cost_words(text, at)?;
    end_text(text)
}

/// Appends the line of a chosen start, if there is one.
fn push_chosen(
    text: &mut Vec<u8>,
    scale: &Scale,
    name: &str,
    y: u64,
    at: &Option<StartCost>,
) -> Result<(), AllocError>
    ensures { OnOk result (text.new.items ≡ text.old.items ++ chosen_words scale.now name.now y at.now) }
{
    match at {
        Some(at) => push_chosen_line(text, scale, name, y, at),
        None => Ok(()),
    }
}

/// Appends the curves below the windows, from the top down.
#[tactic(auto, unfolding(crate::specs::StartCharts::curves_marks))]
fn push_curves(
    text: &mut Vec<u8>,
    axis: &Axis,
    limit: u64,
    costs: &[StartCost],
    chosen: &Chosen,
) -> Result<(), AllocError>
    ensures { OnOk result (text.new.items ≡ text.old.items
        ++ curves_marks axis.now limit costs.now chosen.now.best chosen.now.worst) }
{
    let downtime = panel_of(Quantity::Downtime, costs, limit, 300);
    let time = panel_of(Quantity::Time, costs, 1, 440);
    let sent = panel_of(Quantity::Sent, costs, 1, 580);
    push_curve(text, axis, &downtime, Quantity::Downtime, costs, chosen)?;
    push_limit(text, &downtime, limit)?;
    push_curve(text, axis, &time, Quantity::Time, costs, chosen)?;
    push_curve(text, axis, &sent, Quantity::Sent, costs, chosen)
}

/// Returns the axis that covers all starts.
fn axis_of(costs: &[StartCost]) -> Axis
    ensures { result ≡ starts_axis costs.now }
{
    let mut axis = Axis {
        first: u64::MAX,
        last: 0,
    };
    for at in costs {
        axis.first = at.start.min(axis.first);
        axis.last = at.start.max(axis.last);
    }
    axis
}

/// Appends the picture of what a migration costs from each start.
fn push_chart(
    text: &mut Vec<u8>,
    settings: &Settings,
    scale: &Scale,
    limits: &Limits,
    tables: &Tables,
    costs: &[StartCost],
    chosen: &Chosen,
) -> Result<(), AllocError>
    ensures { OnOk result (IsStartsChart settings.now scale.now limits.now tables.now costs.now
        chosen.now.best chosen.now.worst text.new.items) }
{
    let length = settings.asked().window;
    let axis = axis_of(costs).with_windows(length, &tables.windows);
    let known = Some(*scale);
    begin_picture(text, 800)?;
    push_text(text, "head", LEFT, 36, "When to migrate")?;
    push_windows(text, &axis, length, &tables.windows)?;
    push_curves(text, &axis, limits.downtime / 1000, costs, chosen)?;
    axis.push_labels(text, &known, 670)?;
    push_chosen(text, scale, "Best start at ", 746, &chosen.best)?;
    push_chosen(text, scale, "Worst start at ", 768, &chosen.worst)?;
    end_picture(text)?;
    Ok(())
}

/// Returns what a migration costs from each start as a picture, an SVG document: the pages of each window, and below
/// them, on the same axis, the downtime, the time and the bytes by start. The best and the worst start are marked.
pub fn starts_chart(
    alloc: Global,
    settings: &Settings,
    scale: &Scale,
    limits: &Limits,
    tables: &Tables,
    costs: &[StartCost],
    chosen: &Chosen,
) -> Result<Vec<u8>, AllocError>
    ensures { IfOk result (λ text. IsStartsChart settings.now scale.now limits.now tables.now costs.now
        chosen.now.best chosen.now.worst text.items) }
{
    let mut text = Vec::new(alloc);
    push_chart(&mut text, settings, scale, limits, tables, costs, chosen)?;
    Ok(text)
}
