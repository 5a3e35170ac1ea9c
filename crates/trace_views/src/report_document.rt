//! A report as a JSON document.

ghost use Rattle.std.specs.Prelude.{◌≡◌, ◌≤◌, ◌*◌, ◌/◌, ◌++◌, ◌∷◌, [], IfErr, IfOk, OnOk, length};
ghost use Rattle.std.specs.List.{flat_map};
ghost use Rattle.trace_views.specs.Json.{hot_object, line_of, number_token, plan_members, report_object};
ghost use Rattle.trace_views.specs.Json.{round_measures, round_object, round_objects, round_units, sets_members};
ghost use Rattle.trace_views.specs.Json.{stop_measures, stop_object, stop_units, trace_object, units_member};
ghost use Rattle.trace_views.specs.Json.{units_object, window_object, window_units};

use crate::document::Document;
use crate::error::ViewError;
use crate::sweep_document::write_page_scale;
use guest_log::Shape;
use predictions::units::Scale;
use rate_limit::Settings;
use round_planner::{Plan, Round};
use std::alloc::{AllocError, Global};
use working_sets::{Tables, Window};

/// Writes the sizes of a trace: its pages, the bytes of each, and its writes.
fn write_sizes(out: &mut Document, pages: u32, size: usize, writes: u32) -> Result<(), AllocError>
    ensures { OnOk result (out.new ≡ out.old ++ trace_object pages size writes) }
{
    out.begin_object()?;
    out.number_member("pages", pages as u64)?;
    out.number_member("size", size as u64)?;
    out.number_member("writes", writes as u64)?;
    out.end_object()
}

/// Writes what ticks, windows of `length` ticks, and pages stand for.
fn write_scale(
    alloc: Global,
    out: &mut Document,
    scale: &Scale,
    length: u64,
) -> Result<(), AllocError>
    ensures { OnOk result (out.new ≡ out.old ++ units_object scale.now length) }
{
    out.begin_object()?;
    out.seconds_member(alloc, "tick_seconds", scale.tick() as u128)?;
    out.seconds_member(alloc, "window_seconds", scale.micros(length))?;
    write_page_scale(out, scale)?;
    out.end_object()?;
    Ok(())
}

/// Writes what ticks, windows of `length` ticks, and pages stand for as a member, if that is known.
fn write_units(
    alloc: Global,
    out: &mut Document,
    scale: &Option<Scale>,
    length: u64,
) -> Result<(), AllocError>
    ensures { OnOk result (out.new ≡ out.old ++ units_member scale.now length) }
{
    match scale {
        Some(scale) => {
            out.key("units")?;
            write_scale(alloc, out, scale, length)
        }
        None => Ok(()),
    }
}

/// Writes the bytes of a window as a member, if they are known.
fn write_window_units(
    out: &mut Document,
    scale: &Option<Scale>,
    window: &Window,
) -> Result<(), AllocError>
    ensures { OnOk result (out.new ≡ out.old ++ flat_map (λ m. m) (window_units scale.now window.now)) }
{
    match scale {
        Some(scale) => out.wide_member("bytes", scale.bytes(window.pages as u64)),
        None => Ok(()),
    }
}

/// Writes a window.
fn write_window(
    out: &mut Document,
    scale: &Option<Scale>,
    window: &Window,
) -> Result<(), AllocError>
    ensures { OnOk result (out.new ≡ out.old ++ window_object scale.now window.now) }
{
    out.begin_object()?;
    out.number_member("window", window.number)?;
    out.number_member("writes", window.writes as u64)?;
    out.number_member("pages", window.pages as u64)?;
    out.number_member("again", window.again as u64)?;
    out.number_member("fresh", window.fresh as u64)?;
    write_window_units(out, scale, window)?;
    out.end_object()?;
    Ok(())
}

/// Writes the items of an array of windows.
fn write_windows(
    out: &mut Document,
    scale: &Option<Scale>,
    windows: &[Window],
) -> Result<(), AllocError>
    ensures { OnOk result (out.new ≡ out.old ++ flat_map (window_object scale.now) windows.now) }
{
    for window in windows {
        write_window(out, scale, window)?;
    }
    Ok(())
}

/// Writes the items of an array of pages.
fn write_pages(out: &mut Document, pages: &[u32]) -> Result<(), AllocError>
    ensures { OnOk result (out.new ≡ out.old ++ flat_map (λ page. number_token page ∷ []) pages.now) }
{
    for page in pages {
        out.number(*page as u64)?;
    }
    Ok(())
}

/// Writes the setting that makes a page hot, and the hot pages.
fn write_hot(out: &mut Document, hot: u64, pages: &[u32]) -> Result<(), AllocError>
    ensures { OnOk result (out.new ≡ out.old ++ hot_object hot pages.now) }
{
    out.begin_object()?;
    out.number_member("windows", hot)?;
    out.key("pages")?;
    out.begin_array()?;
    write_pages(out, pages)?;
    out.end_array()?;
    out.end_object()
}

/// Writes the times, the bytes and the share of the link of a round as members.
fn write_round_measures(
    alloc: Global,
    out: &mut Document,
    scale: &Scale,
    max: u64,
    round: &Round,
) -> Result<(), AllocError>
    requires { 1 ≤ max }
    ensures { OnOk result (out.new ≡ out.old ++ flat_map (λ m. m) (round_measures scale.now max round.now)) }
{
    let share = round.rate as u128 * 1_000_000 / max as u128;
    out.seconds_member(alloc, "from_seconds", scale.micros(round.from))?;
    out.seconds_member(alloc, "to_seconds", scale.micros(round.to))?;
    out.wide_member("sent_bytes", scale.bytes(round.sent.len() as u64))?;
    out.wide_member("dirtied_bytes", scale.bytes(round.dirtied as u64))?;
    out.seconds_member(alloc, "link_share", share)?;
    Ok(())
}

/// Writes the times, the bytes and the share of the link of a round as members, if they are known.
fn write_round_units(
    alloc: Global,
    out: &mut Document,
    scale: &Option<Scale>,
    max: u64,
    round: &Round,
) -> Result<(), AllocError>
    requires { 1 ≤ max }
    ensures { OnOk result (out.new ≡ out.old ++ flat_map (λ m. m) (round_units scale.now max round.now)) }
{
    match scale {
        Some(scale) => write_round_measures(alloc, out, scale, max, round),
        None => Ok(()),
    }
}

/// Writes a round.
fn write_round(
    alloc: Global,
    out: &mut Document,
    scale: &Option<Scale>,
    max: u64,
    number: usize,
    round: &Round,
) -> Result<(), AllocError>
    requires { 1 ≤ max }
    ensures { OnOk result (out.new ≡ out.old ++ round_object scale.now max number round.now) }
{
    out.begin_object()?;
    out.number_member("round", number as u64)?;
    out.number_member("from", round.from)?;
    out.number_member("to", round.to)?;
    out.number_member("rate", round.rate)?;
    out.number_member("pages", round.pages.len() as u64)?;
    out.number_member("sent", round.sent.len() as u64)?;
    out.number_member("dirtied", round.dirtied as u64)?;
    write_round_units(alloc, out, scale, max, round)?;
    out.end_object()?;
    Ok(())
}

/// Writes the items of an array of rounds.
fn write_rounds(
    alloc: Global,
    out: &mut Document,
    scale: &Option<Scale>,
    max: u64,
    rounds: &[Round],
) -> Result<(), AllocError>
    requires { 1 ≤ max }
    ensures { OnOk result (out.new ≡ out.old ++ round_objects scale.now max rounds.now) }
{
    for (number, round) in rounds.iter().enumerate() {
        write_round(alloc, out, scale, max, number, round)?;
    }
    Ok(())
}

/// Writes the times and the bytes of the end of a plan as members.
fn write_stop_measures(
    alloc: Global,
    out: &mut Document,
    scale: &Scale,
    plan: &Plan,
) -> Result<(), AllocError>
    ensures { OnOk result (out.new ≡ out.old ++ flat_map (λ m. m) (stop_measures scale.now plan.now)) }
{
    out.seconds_member(alloc, "at_seconds", scale.micros(plan.stop))?;
    out.wide_member("bytes", scale.bytes(plan.last.len() as u64))?;
    out.seconds_member(alloc, "down_seconds", scale.micros(plan.down))?;
    out.wide_member("total_bytes", scale.bytes(plan.total()))?;
    Ok(())
}

/// Writes the times and the bytes of the end of a plan as members, if they are known.
fn write_stop_units(
    alloc: Global,
    out: &mut Document,
    scale: &Option<Scale>,
    plan: &Plan,
) -> Result<(), AllocError>
    ensures { OnOk result (out.new ≡ out.old ++ flat_map (λ m. m) (stop_units scale.now plan.now)) }
{
    match scale {
        Some(scale) => write_stop_measures(alloc, out, scale, plan),
        None => Ok(()),
    }
}

/// Writes the end of a plan.
fn write_stop(
    alloc: Global,
    out: &mut Document,
    scale: &Option<Scale>,
    plan: &Plan,
) -> Result<(), AllocError>
    ensures { OnOk result (out.new ≡ out.old ++ stop_object scale.now plan.now) }
{
    out.begin_object()?;
    out.text_member("why", plan.reason.word())?;
    out.number_member("at", plan.stop)?;
    out.number_member("pages", plan.last.len() as u64)?;
    out.number_member("down", plan.down)?;
    out.number_member("total", plan.total())?;
    write_stop_units(alloc, out, scale, plan)?;
    out.end_object()?;
    Ok(())
}

/// Writes the working sets as members: the windows, and the hot pages.
fn write_sets(
    out: &mut Document,
    scale: &Option<Scale>,
    hot: u64,
    tables: &Tables,
) -> Result<(), AllocError>
    ensures { OnOk result (out.new ≡ out.old ++ sets_members scale.now hot tables.now) }
{
    out.key("windows")?;
    out.begin_array()?;
    write_windows(out, scale, &tables.windows)?;
    out.end_array()?;
    out.key("hot")?;
    write_hot(out, hot, &tables.hot)
}

/// Writes a plan as members: the rounds, and the stop.
fn write_plan(
    alloc: Global,
    out: &mut Document,
    scale: &Option<Scale>,
    max: u64,
    plan: &Plan,
) -> Result<(), AllocError>
    requires { 1 ≤ max }
    ensures { OnOk result (out.new ≡ out.old ++ plan_members scale.now max plan.now) }
{
    out.key("rounds")?;
    out.begin_array()?;
    write_rounds(alloc, out, scale, max, &plan.rounds)?;
    out.end_array()?;
    out.key("stop")?;
    write_stop(alloc, out, scale, plan)
}

/// Writes the facts of a report on a trace of this shape.
fn write_report(
    alloc: Global,
    out: &mut Document,
    shape: &Shape,
    settings: &Settings,
    scale: &Option<Scale>,
    tables: &Tables,
    plan: &Plan,
) -> Result<(), AllocError>
    ensures { OnOk result (out.new ≡ out.old ++ report_object shape.now.shift shape.now.pages shape.now.writes
        settings.now scale.now tables.now plan.now) }
{
    let asked = settings.asked();
    out.begin_object()?;
    out.key("trace")?;
    write_sizes(out, shape.pages, shape.page_size(), shape.writes)?;
    write_units(alloc, out, scale, asked.window)?;
    write_sets(out, scale, asked.hot, tables)?;
    write_plan(alloc, out, scale, asked.max, plan)?;
    out.end_object()?;
    Ok(())
}

/// Returns the facts of a report on a trace of this shape as a JSON document, in one line. With a scale it also has
/// times and bytes of the guest.
pub fn json_report(
    alloc: Global,
    shape: &Shape,
    settings: &Settings,
    scale: &Option<Scale>,
    tables: &Tables,
    plan: &Plan,
) -> Result<Vec<u8>, ViewError>
    ensures made { IfOk result (λ text. text.items
        ≡ line_of (report_object shape.now.shift shape.now.pages shape.now.writes settings.now scale.now
        tables.now plan.now)) }
    ensures refused { IfErr result (λ e. e ≡ ViewError.Memory) }
{
    let mut out = Document::new(alloc);
    write_report(alloc, &mut out, shape, settings, scale, tables, plan)?;
    Ok(out.into_line()?)
}
