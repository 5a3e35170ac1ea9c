//! A report for a terminal: aligned tables, with bars beside them.

ghost use Rattle.std.specs.Prelude.{◌≡◌, ◌++◌, ◌^◌, IfOk, OnOk, length};
ghost use Rattle.report_pictures.specs.Bars.{round_parts, window_parts};
ghost use Rattle.report_pictures.specs.MeasuredScreens.{IsMeasuredScreen};
ghost use Rattle.report_pictures.specs.Screens.{IsScreen, left_words, reason_words, round_mosts, round_numbers};
ghost use Rattle.report_pictures.specs.Screens.{round_rows, rounds_table, rounds_text, rounds_with, stop_words};
ghost use Rattle.report_pictures.specs.Screens.{trace_words, window_mosts, window_numbers, window_rows, windows_table};
ghost use Rattle.report_pictures.specs.Screens.{windows_text, windows_with};

use crate::bar::{Part, dark, full, light, push_round_key, push_window_key};
use crate::hot_pages::push_hot;
use crate::table::{column_widths, push_names, push_row};
use crate::units_screen;
use crate::words::push_words;
use guest_log::Shape;
use predictions::units::Scale;
use rate_limit::Settings;
use round_planner::{Plan, Round};
use std::alloc::{AllocError, Global};
use sweep_report::{end_line, push_field};
use view_kinds::Style;
use working_sets::{Tables, Window};

/// The columns of the table of windows.
const WINDOW: [&str; 5] = ["window", "writes", "pages", "again", "fresh"];

/// The columns of the table of rounds.
const ROUND: [&str; 7] = ["round", "from", "to", "rate", "pages", "sent", "dirtied"];

/// Appends the line on a trace.
#[tactic(auto, unfolding(crate::specs::Screens::trace_words))]
fn push_trace(text: &mut Vec<u8>, shape: &Shape) -> Result<(), AllocError>
    ensures { OnOk result (text.new.items
        ≡ text.old.items ++ trace_words shape.now.pages (2 ^ shape.now.shift) shape.now.writes) }
{
    push_field(text, "trace: ", shape.pages as u64)?;
    push_field(text, " pages of ", shape.page_size() as u64)?;
    push_field(text, " bytes, ", shape.writes as u64)?;
    push_words(text, " writes\n")
}

/// Returns the numbers of a window, by column.
fn numbers_of_window(window: &Window) -> [u64; 5]
    ensures { result ≡ window_numbers window.now }
{
    [
        window.number,
        window.writes as u64,
        window.pages as u64,
        window.again as u64,
        window.fresh as u64,
    ]
}

/// Returns the bar of a window: its pages, by when they were written before.
pub(crate) fn window_bar(window: &Window) -> [Part; 3]
    ensures { result ≡ window_parts window.now }
{
    let old = window.pages.saturating_sub(window.fresh);
    [
        full(window.again as u64),
        dark(old.saturating_sub(window.again) as u64),
        light(window.fresh as u64),
    ]
}

/// Returns the greatest number of each column of windows.
pub(crate) fn greatest_of_windows(windows: &[Window]) -> [u64; 5]
    ensures { result ≡ window_mosts windows.now }
{
    let mut mosts = Window {
        number: 0,
        writes: 0,
        pages: 0,
        again: 0,
        fresh: 0,
    };
    for window in windows {
        mosts.number = window.number.max(mosts.number);
        mosts.writes = window.writes.max(mosts.writes);
        mosts.pages = window.pages.max(mosts.pages);
        mosts.again = window.again.max(mosts.again);
        mosts.fresh = window.fresh.max(mosts.fresh);
    }
    numbers_of_window(&mosts)
}

/// Appends the rows of windows.
fn push_window_rows(
    text: &mut Vec<u8>,
    style: &Style,
    widths: &[usize],
    most: u64,
    windows: &[Window],
) -> Result<(), AllocError>
    requires wide { length widths.now ≡ 5 }
    ensures { OnOk result (text.new.items ≡ text.old.items ++ window_rows style.now widths.now most windows.now) }
{
    for window in windows {
        let numbers = numbers_of_window(window);
        push_row(text, style, widths, most, &numbers, &window_bar(window))?;
    }
    Ok(())
}

/// Appends the table of windows with columns of these widths.
fn push_windows_with(
    text: &mut Vec<u8>,
    style: &Style,
    widths: &[usize],
    most: u64,
    windows: &[Window],
) -> Result<(), AllocError>
    requires wide { length widths.now ≡ 5 }
    ensures { OnOk result (text.new.items ≡ text.old.items ++ windows_with style.now widths.now most windows.now) }
{
    push_names(text, widths, &WINDOW)?;
    push_window_rows(text, style, widths, most, windows)?;
    end_line(text)
}

/// Appends the table of windows.
#[tactic(auto, unfolding(crate::specs::Screens::windows_table))]
fn push_windows_table(
    alloc: Global,
    text: &mut Vec<u8>,
    style: &Style,
    windows: &[Window],
) -> Result<(), AllocError>
    ensures { OnOk result (text.new.items ≡ text.old.items ++ windows_table style.now windows.now) }
{
    let mosts = greatest_of_windows(windows);
    let widths = column_widths(alloc, &WINDOW, &mosts)?;
    push_windows_with(text, style, &widths, mosts[2], windows)
}

/// Appends the windows: what the parts of their bars mean, and their table.
#[tactic(auto, unfolding(crate::specs::Screens::windows_text))]
fn push_windows(
    alloc: Global,
    text: &mut Vec<u8>,
    style: &Style,
    length: u64,
    windows: &[Window],
) -> Result<(), AllocError>
    ensures { OnOk result (text.new.items ≡ text.old.items ++ windows_text style.now length windows.now) }
{
    push_field(text, "windows of ", length)?;
    push_words(text, " ticks; pages:")?;
    push_window_key(text, style.colors)?;
    push_windows_table(alloc, text, style, windows)?;
    Ok(())
}

/// Returns the numbers of a round, by column.
fn numbers_of_round(number: usize, round: &Round) -> [u64; 7]
    ensures { result ≡ round_numbers number round.now }
{
    [
        number as u64,
        round.from,
        round.to,
        round.rate,
        round.pages.len() as u64,
        round.sent.len() as u64,
        round.dirtied as u64,
    ]
}

/// Returns the bar of a round: its pages, by whether they are sent.
fn round_bar(round: &Round) -> [Part; 2]
    ensures { result ≡ round_parts round.now }
{
    let sent = round.sent.len() as u64;
    [
        full(sent),
        light((round.pages.len() as u64).saturating_sub(sent)),
    ]
}

/// Returns the greatest number of each column of rounds.
fn greatest_of_rounds(rounds: &[Round]) -> [u64; 7]
    ensures { result ≡ round_mosts rounds.now }
{
    let (mut from, mut to, mut rate) = (0, 0, 0);
    let (mut pages, mut sent, mut dirtied) = (0, 0, 0);
    for round in rounds {
        from = round.from.max(from);
        to = round.to.max(to);
        rate = round.rate.max(rate);
        pages = (round.pages.len() as u64).max(pages);
        sent = (round.sent.len() as u64).max(sent);
        dirtied = (round.dirtied as u64).max(dirtied);
    }
    let last = (rounds.len() as u64).saturating_sub(1);
    [last, from, to, rate, pages, sent, dirtied]
}

/// Appends the rows of rounds.
fn push_round_rows(
    text: &mut Vec<u8>,
    style: &Style,
    widths: &[usize],
    most: u64,
    rounds: &[Round],
) -> Result<(), AllocError>
    requires wide { length widths.now ≡ 7 }
    ensures { OnOk result (text.new.items ≡ text.old.items ++ round_rows style.now widths.now most rounds.now) }
{
    for (number, round) in rounds.iter().enumerate() {
        let numbers = numbers_of_round(number, round);
        push_row(text, style, widths, most, &numbers, &round_bar(round))?;
    }
    Ok(())
}

/// Appends the table of rounds with columns of these widths.
fn push_rounds_with(
    text: &mut Vec<u8>,
    style: &Style,
    widths: &[usize],
    most: u64,
    rounds: &[Round],
) -> Result<(), AllocError>
    requires wide { length widths.now ≡ 7 }
    ensures { OnOk result (text.new.items ≡ text.old.items ++ rounds_with style.now widths.now most rounds.now) }
{
    push_names(text, widths, &ROUND)?;
    push_round_rows(text, style, widths, most, rounds)?;
    end_line(text)
}

/// Appends the table of rounds.
#[tactic(auto, unfolding(crate::specs::Screens::rounds_table))]
fn push_rounds_table(
    alloc: Global,
    text: &mut Vec<u8>,
    style: &Style,
    rounds: &[Round],
) -> Result<(), AllocError>
    ensures { OnOk result (text.new.items ≡ text.old.items ++ rounds_table style.now rounds.now) }
{
    let mosts = greatest_of_rounds(rounds);
    let widths = column_widths(alloc, &ROUND, &mosts)?;
    push_rounds_with(text, style, &widths, mosts[4], rounds)
}

/// Appends the rounds: what the parts of their bars mean, and their table.
#[tactic(auto, unfolding(crate::specs::Screens::rounds_text))]
fn push_rounds(
    alloc: Global,
    text: &mut Vec<u8>,
    style: &Style,
    rounds: &[Round],
) -> Result<(), AllocError>
    ensures { OnOk result (text.new.items ≡ text.old.items ++ rounds_text style.now rounds.now) }
{
    push_words(text, "rounds, at a rate in pages per 1,000 ticks; pages:")?;
    push_round_key(text, style.colors)?;
    push_rounds_table(alloc, text, style, rounds)
}

/// Appends why and when the guest stops.
#[tactic(auto, unfolding(crate::specs::Screens::reason_words))]
fn push_reason(text: &mut Vec<u8>, plan: &Plan) -> Result<(), AllocError>
    ensures { OnOk result (text.new.items ≡ text.old.items ++ reason_words plan.now) }
{
    push_words(text, "stop: ")?;
    push_words(text, plan.reason.word())?;
    push_field(text, ", at tick ", plan.stop)
}

/// Appends what is left at the stop, how long that takes, and all that is sent.
#[tactic(auto, unfolding(crate::specs::Screens::left_words))]
fn push_left(text: &mut Vec<u8>, plan: &Plan) -> Result<(), AllocError>
    ensures { OnOk result (text.new.items ≡ text.old.items ++ left_words plan.now) }
{
    push_field(text, "\nleft: ", plan.last.len() as u64)?;
    push_field(text, " pages\ndowntime: ", plan.down)?;
    push_field(text, " ticks\nsent in all: ", plan.total())?;
    push_words(text, " pages\n")?;
    Ok(())
}

/// Appends the end of a plan.
#[tactic(auto, unfolding(crate::specs::Screens::stop_words))]
fn push_stop(text: &mut Vec<u8>, plan: &Plan) -> Result<(), AllocError>
    ensures { OnOk result (text.new.items ≡ text.old.items ++ stop_words plan.now) }
{
    push_reason(text, plan)?;
    push_left(text, plan)
}

/// Returns a report for a terminal, in UTF-8: the working sets and the plan of a trace of this shape as tables, with
/// bars of block characters. It has colors only if the style asks for them.
pub fn report_screen(
    alloc: Global,
    style: &Style,
    shape: &Shape,
    settings: &Settings,
    tables: &Tables,
    plan: &Plan,
) -> Result<Vec<u8>, AllocError>
    ensures { IfOk result (λ text. IsScreen style.now shape.now.pages (2 ^ shape.now.shift) shape.now.writes
        settings.now tables.now plan.now text.items) }
{
    let asked = settings.asked();
    let mut text = Vec::new(alloc);
    push_trace(&mut text, shape)?;
    end_line(&mut text)?;
    push_windows(alloc, &mut text, style, asked.window, &tables.windows)?;
    push_hot(alloc, &mut text, style, asked.hot, shape.pages, &tables.hot)?;
    push_rounds(alloc, &mut text, style, &plan.rounds)?;
    push_stop(&mut text, plan)?;
    Ok(text)
}

/// Returns the same report in times and bytes of the guest, if it is known what ticks and pages stand for.
pub fn measured_screen(
    alloc: Global,
    style: &Style,
    scale: &Scale,
    shape: &Shape,
    settings: &Settings,
    tables: &Tables,
    plan: &Plan,
) -> Result<Vec<u8>, AllocError>
    ensures { IfOk result (λ text. IsMeasuredScreen style.now scale.now shape.now.pages (2 ^ shape.now.shift)
        shape.now.writes settings.now tables.now plan.now text.items) }
{
    let asked = settings.asked();
    let mut text = Vec::new(alloc);
    push_trace(&mut text, shape)?;
    units_screen::push_scale(&mut text, scale)?;
    units_screen::push_windows(
        alloc,
        &mut text,
        style,
        scale,
        asked.window,
        &tables.windows,
    )?;
    push_hot(alloc, &mut text, style, asked.hot, shape.pages, &tables.hot)?;
    units_screen::push_rounds(alloc, &mut text, style, scale, settings, plan)?;
    units_screen::push_stop(&mut text, scale, plan)?;
    Ok(text)
}
