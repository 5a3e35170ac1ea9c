//! The panel of the working set: the pages of each window.

ghost use Rattle.std.specs.Prelude.{◌≡◌, ◌++◌, OnOk, map};
ghost use Rattle.report_pictures.specs.Panels.{IsPanel, parted_of};
ghost use Rattle.report_pictures.specs.ReportCharts.{windows_frame, windows_keys, windows_marks, windows_panel};
ghost use Rattle.report_pictures.specs.WindowBars.{column_marks, column_of, columns_from, columns_marks, joined};
ghost use Rattle.report_pictures.specs.WindowBars.{window_bars, window_marks};

use crate::axis::{Axis, window_end, window_start};
use crate::panel::Panel;
use std::alloc::AllocError;
use working_sets::Window;

/// The windows that fall in the same units of the picture: the one with the most pages stands for all.
#[derive(Clone, Copy)]
pub(crate) struct Column {
    pub(crate) from: u64,
    pub(crate) to: u64,
    pub(crate) window: Window,
}

/// Returns the units of the picture that a window takes.
fn placed(axis: &Axis, length: u64, window: &Window) -> Column
    ensures { result ≡ column_of axis.now length window.now }
{
    let from = axis.place(window_start(window, length));
    let to = axis.place(window_end(window, length)).max(from + 1);
    Column {
        from,
        to,
        window: *window,
    }
}

/// Returns the column for two that fall in the same units.
fn merged(column: &Column, next: &Column) -> Column
    ensures { result ≡ joined column.now next.now }
{
    let window = if next.window.pages > column.window.pages {
        next.window
    } else {
        column.window
    };
    Column {
        from: column.from,
        to: column.to.max(next.to),
        window,
    }
}

/// Returns where a bar begins and ends, with a gap after it if there is room for one.
pub(crate) fn parted(from: u64, to: u64) -> (u64, u64)
    ensures { result ≡ parted_of from to }
{
    let is_wide = to.saturating_sub(from) > 3;
    (from, if is_wide { to.saturating_sub(1) } else { to })
}

/// Appends the bar of a window: its pages, by when they were written before.
#[tactic(auto, unfolding(crate::specs::WindowBars::window_marks))]
fn push_window(
    text: &mut Vec<u8>,
    panel: &Panel,
    place: (u64, u64),
    window: &Window,
) -> Result<(), AllocError>
    requires small { IsPanel panel.now }
    ensures { OnOk result (text.new.items ≡ text.old.items ++ window_marks panel.now place window.now) }
{
    let old = window.pages.saturating_sub(window.fresh);
    let earlier = old.saturating_sub(window.again);
    let high = panel.push_bar(text, "again", place, 0, window.again as u64)?;
    let high = panel.push_bar(text, "earlier", place, high, earlier as u64)?;
    panel.push_bar(text, "fresh", place, high, window.fresh as u64)?;
    Ok(())
}

/// Appends the bar of a column.
fn push_column(text: &mut Vec<u8>, panel: &Panel, column: &Column) -> Result<(), AllocError>
    requires small { IsPanel panel.now }
    ensures { OnOk result (text.new.items ≡ text.old.items ++ column_marks panel.now column.now) }
{
    push_window(text, panel, parted(column.from, column.to), &column.window)
}

/// Appends the bars from a column on, of which these windows follow.
fn push_columns(
    text: &mut Vec<u8>,
    axis: &Axis,
    panel: &Panel,
    length: u64,
    first: Column,
    windows: &[Window],
) -> Result<(), AllocError>
    requires small { IsPanel panel.now }
    ensures { OnOk result (text.new.items ≡ text.old.items
        ++ columns_marks panel.now (columns_from first (map (column_of axis.now length) windows.now))) }
{
    let mut last = first;
    for window in windows {
        let next = placed(axis, length, window);
        if next.from < last.to {
            last = merged(&last, &next);
        } else {
            push_column(text, panel, &last)?;
            last = next;
        }
    }
    push_column(text, panel, &last)?;
    Ok(())
}

/// Appends the bars of all windows.
fn push_bars(
    text: &mut Vec<u8>,
    axis: &Axis,
    panel: &Panel,
    length: u64,
    windows: &[Window],
) -> Result<(), AllocError>
    requires small { IsPanel panel.now }
    ensures { OnOk result (text.new.items ≡ text.old.items ++ window_bars axis.now length panel.now windows.now) }
{
    match windows.split_first() {
        Some((first, rest)) => {
            let first = placed(axis, length, first);
            push_columns(text, axis, panel, length, first, rest)
        }
        None => Ok(()),
    }
}

/// Returns the panel of the working set: its greatest number is that of the window with the most pages.
pub(crate) fn panel_of_windows(windows: &[Window]) -> Panel
    ensures { result ≡ windows_panel windows.now }
{
    let mut most = 1;
    for window in windows {
        most = (window.pages as u64).max(most);
    }
    Panel {
        top: 90,
        height: 150,
        most,
    }
}

/// Appends what the colors of windows mean.
#[tactic(auto, unfolding(crate::specs::ReportCharts::windows_keys))]
fn push_window_keys(text: &mut Vec<u8>, panel: &Panel) -> Result<(), AllocError>
    ensures { OnOk result (text.new.items ≡ text.old.items ++ windows_keys panel.now) }
{
    panel.push_key(text, "again", 480, "also in the window before")?;
    panel.push_key(text, "earlier", 680, "earlier")?;
    panel.push_key(text, "fresh", 770, "never before")?;
    Ok(())
}

/// Appends the frame of the panel of the working set, and what its colors mean.
#[tactic(auto, unfolding(crate::specs::ReportCharts::windows_frame))]
fn push_windows_frame(text: &mut Vec<u8>, panel: &Panel) -> Result<(), AllocError>
    requires small { IsPanel panel.now }
    ensures { OnOk result (text.new.items ≡ text.old.items ++ windows_frame panel.now) }
{
    panel.push_frame(text, "Working set: pages written in a window")?;
    push_window_keys(text, panel)?;
    Ok(())
}

/// Appends the panel of the working set. If windows are narrower than a unit of the picture, the one with the most
/// pages is drawn.
#[tactic(auto, unfolding(crate::specs::ReportCharts::windows_marks))]
pub(crate) fn push_windows(
    text: &mut Vec<u8>,
    axis: &Axis,
    length: u64,
    windows: &[Window],
) -> Result<(), AllocError>
    ensures { OnOk result (text.new.items ≡ text.old.items ++ windows_marks axis.now length windows.now) }
{
    let panel = panel_of_windows(windows);
    push_windows_frame(text, &panel)?;
    push_bars(text, axis, &panel, length, windows)?;
    Ok(())
}
