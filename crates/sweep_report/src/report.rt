//! The text of a report.

ghost use Rattle.std.specs.Prelude.{◌≡◌, ◌++◌, IfErr, IfOk, OnOk};
ghost use Rattle.std.specs.List.{flat_map};
ghost use Rattle.sweep_report.specs.Lines.{page_line, window_line};
ghost use Rattle.sweep_report.specs.Texts.{report_of, round_lines};

use crate::error::SweepError;
use crate::lines::{push_hot, push_page, push_round, push_stop, push_trace, push_window};
use guest_log::Shape;
use rate_limit::Settings;
use round_planner::{Plan, Round};
use std::alloc::{AllocError, Global};
use working_sets::{Tables, Window};

/// Appends a line for each window.
fn push_windows(text: &mut Vec<u8>, windows: &[Window]) -> Result<(), AllocError>
    ensures { OnOk result (text.new.items ≡ text.old.items ++ flat_map window_line windows.now) }
{
    for window in windows {
        push_window(text, window)?;
    }
    Ok(())
}

/// Appends a line for each hot page.
fn push_pages(text: &mut Vec<u8>, pages: &[u32]) -> Result<(), AllocError>
    ensures { OnOk result (text.new.items ≡ text.old.items ++ flat_map page_line pages.now) }
{
    for page in pages {
        push_page(text, *page)?;
    }
    Ok(())
}

/// Appends a line for each round.
fn push_rounds(text: &mut Vec<u8>, rounds: &[Round]) -> Result<(), AllocError>
    ensures { OnOk result (text.new.items ≡ text.old.items ++ round_lines rounds.now) }
{
    for (number, round) in rounds.iter().enumerate() {
        push_round(text, number, round)?;
    }
    Ok(())
}

/// Returns the text of a report on the working sets and the plan of a trace of this shape, in ASCII. It has a line for
/// the trace, for each window with a write, for the hot pages, for each of them, for each round, and for the stop.
pub fn report_text(
    alloc: Global,
    shape: &Shape,
    settings: &Settings,
    tables: &Tables,
    plan: &Plan,
) -> Result<Vec<u8>, SweepError>
    ensures written { IfOk result (λ text. text.items
        ≡ report_of shape.now.shift shape.now.pages shape.now.writes settings.now.hot tables.now plan.now) }
    ensures refused { IfErr result (λ e. e ≡ SweepError.Memory) }
{
    let mut text = Vec::new(alloc);
    push_trace(&mut text, shape)?;
    push_windows(&mut text, &tables.windows)?;
    push_hot(&mut text, settings.asked().hot, tables.hot.len())?;
    push_pages(&mut text, &tables.hot)?;
    push_rounds(&mut text, &plan.rounds)?;
    push_stop(&mut text, plan)?;
    Ok(text)
}
