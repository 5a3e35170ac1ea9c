//! The axis of ticks that several panels share.

ghost use Rattle.std.specs.Prelude.{◌≡◌, ◌≤◌, ◌-◌, ◌++◌, ℕ, List, OnOk};
ghost use Rattle.report_pictures.specs.Axes.{IsStep, place_of, share_of};
ghost use Rattle.report_pictures.specs.Labels.{AreLabels, label_at, label_mark, label_words, time_label, title_of};
ghost use Rattle.report_pictures.specs.ReportCharts.{rounds_axis};
ghost use Rattle.report_pictures.specs.Spans.{axis_over, window_from, window_to};
ghost use Rattle.std.specs.List.{flat_map, range_with_len};

use crate::svg::{Area, begin_text, end_text, push_rect, push_text};
use crate::words::push_words;
use predictions::push_wide;
use predictions::units::Scale;
use rate_limit::Settings;
use round_planner::Plan;
use std::alloc::AllocError;
use working_sets::Window;

/// Where plots begin and how wide they are, in the chart's units.
pub(crate) const LEFT: u64 = 90;

pub(crate) const SPAN: u64 = 800;

/// The most labels of an axis, besides the last.
const MOST_LABELS: u64 = 6;

/// The first and the last tick of a chart.
#[derive(Clone, Copy)]
pub(crate) struct Axis {
    pub(crate) first: u64,
    pub(crate) last: u64,
}

/// Returns a part's share of some room for the whole, rounded down.
pub(crate) fn share(part: u64, whole: u64, room: u64) -> u64
    ensures share { result ≡ share_of part whole room }
    ensures bound { result ≤ room }
{
    let all = part as u128 * room as u128 / whole.max(1) as u128;
    all.min(room as u128) as u64
}

/// Returns the first tick of a window.
pub(crate) fn window_start(window: &Window, length: u64) -> u64
    ensures { result ≡ window_from length window.now }
{
    window.number.saturating_mul(length)
}

/// Returns the first tick after a window.
pub(crate) fn window_end(window: &Window, length: u64) -> u64
    ensures { result ≡ window_to length window.now }
{
    window.number.saturating_add(1).saturating_mul(length)
}

impl Axis {
    /// Returns this axis extended to cover all windows.
    pub(crate) fn with_windows(self, length: u64, windows: &[Window]) -> Axis
        ensures { result ≡ axis_over self length windows.now }
    {
        let mut axis = self;
        for window in windows {
            axis.first = window_start(window, length).min(axis.first);
            axis.last = window_end(window, length).max(axis.last);
        }
        axis
    }

    /// Returns the axis that covers all rounds and the downtime.
    pub(crate) fn of_rounds(settings: &Settings, plan: &Plan) -> Axis
        ensures { result ≡ rounds_axis settings.now plan.now }
    {
        Axis {
            first: settings.asked().start,
            last: plan.stop.saturating_add(plan.down),
        }
    }

    /// Returns where a tick is.
    pub(crate) fn place(&self, tick: u64) -> u64
        ensures place { result ≡ place_of self.now.first self.now.last tick }
        ensures bound { result ≤ 890 }
    {
        let passed = tick.saturating_sub(self.first);
        LEFT + share(passed, self.last.saturating_sub(self.first), SPAN)
    }

    /// Returns the ticks between two labels: the least of 1, 2 and 5 times a power of 10 that leaves few enough labels.
    fn step(&self) -> u64
        ensures step { IsStep (self.now.last - self.now.first) result }
        ensures bound { 1 ≤ result }
    {
        let span = self.last.saturating_sub(self.first);
        let mut unit = 1u64;
        while span / unit / 5 > MOST_LABELS {
            unit *= 10;
        }
        if span / unit <= MOST_LABELS {
            unit
        } else if span / unit / 2 <= MOST_LABELS {
            2 * unit
        } else {
            5 * unit
        }
    }

    /// Appends the numbers of the axis below a panel that ends at this height, and the axis' title: ticks, or times if
    /// it is known what a tick stands for.
    pub(crate) fn push_labels(
        &self,
        text: &mut Vec<u8>,
        scale: &Option<Scale>,
        bottom: u64,
    ) -> Result<(), AllocError>
        requires near { bottom ≤ 1_000 }
        ensures { OnOk result ((labels : List ℕ) × (text.new.items ≡ text.old.items ++ labels)
            × AreLabels self.now scale.now bottom labels) }
    {
        let step = self.step();
        self.push_steps(text, scale, bottom, step)?;
        let middle = LEFT + SPAN / 2;
        push_text(
            text,
            "middle",
            middle,
            bottom.saturating_add(44),
            title(scale),
        )?;
        Ok(())
    }

    /// Appends the labels at the multiples of a step.
    fn push_steps(
        &self,
        text: &mut Vec<u8>,
        scale: &Option<Scale>,
        bottom: u64,
        step: u64,
    ) -> Result<(), AllocError>
        requires near { bottom ≤ 1_000 }
        requires step { 1 ≤ step }
        ensures { OnOk result (text.new.items ≡ text.old.items
            ++ flat_map (label_at self.now scale.now bottom step) (range_with_len 0 8)) }
    {
        for number in 0..MOST_LABELS + 2 {
            self.push_step(text, scale, bottom, step, number)?;
        }
        Ok(())
    }

    /// Appends the label at a multiple of a step, by its number from where the axis begins, if it is on the axis.
    fn push_step(
        &self,
        text: &mut Vec<u8>,
        scale: &Option<Scale>,
        bottom: u64,
        step: u64,
        number: u64,
    ) -> Result<(), AllocError>
        requires near { bottom ≤ 1_000 }
        requires step { 1 ≤ step }
        ensures { OnOk result (text.new.items ≡ text.old.items ++ label_at self.now scale.now bottom step number) }
    {
        let tick = (self.first / step)
            .saturating_add(number)
            .saturating_mul(step);
        if self.first <= tick && tick <= self.last {
            self.push_label(text, scale, bottom, step, tick)?;
        }
        Ok(())
    }

    /// Appends a mark and a label below it.
    #[tactic(auto, unfolding(crate::specs::Labels::label_mark, crate::specs::Svg::placed_text))]
    fn push_label(
        &self,
        text: &mut Vec<u8>,
        scale: &Option<Scale>,
        bottom: u64,
        step: u64,
        tick: u64,
    ) -> Result<(), AllocError>
        requires near { bottom ≤ 1_000 }
        ensures { OnOk result (text.new.items ≡ text.old.items ++ label_mark self.now scale.now bottom step tick) }
    {
        let x = self.place(tick);
        let mark = Area {
            x,
            y: bottom.saturating_add(1),
            width: 1,
            height: 5,
        };
        push_rect(text, "line", &mark)?;
        begin_text(text, "middle", x, bottom.saturating_add(22))?;
        push_label_words(text, scale, step, tick)?;
        end_text(text)
    }
}

/// Returns the title of an axis.
fn title(scale: &Option<Scale>) -> &'static str
    ensures { result.now ≡ title_of scale.now }
{
    match scale {
        Some(_) => "time",
        None => "tick",
    }
}

/// Appends the words of a label: a tick as a number, or as a time if it is known what ticks stand for.
fn push_label_words(
    text: &mut Vec<u8>,
    scale: &Option<Scale>,
    step: u64,
    tick: u64,
) -> Result<(), AllocError>
    ensures { OnOk result (text.new.items ≡ text.old.items ++ label_words scale.now step tick) }
{
    match scale {
        Some(scale) => push_time(text, scale.micros(step), scale.micros(tick)),
        None => push_wide(text, tick as u128),
    }
}

/// Appends a time in the largest unit in which all labels are whole numbers, these being so many microseconds apart.
fn push_time(text: &mut Vec<u8>, between: u128, micros: u128) -> Result<(), AllocError>
    ensures { OnOk result (text.new.items ≡ text.old.items ++ time_label between micros) }
{
    if between % 1_000_000 == 0 {
        push_wide(text, micros / 1_000_000)?;
        push_words(text, " s")
    } else if between % 1000 == 0 {
        push_wide(text, micros / 1000)?;
        push_words(text, " ms")
    } else {
        push_wide(text, micros)?;
        push_words(text, " us")
    }
}
