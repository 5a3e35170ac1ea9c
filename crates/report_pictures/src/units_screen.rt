//! Windows and rounds in times and bytes of the guest, a line each.

ghost use Rattle.std.specs.Prelude.{◌≡◌, ◌++◌, ◌∷◌, [], IfOk, OnOk};
ghost use Rattle.std.specs.Fmt.{decimal};
ghost use Rattle.std.specs.List.{enumerate_from, flat_map};
ghost use Rattle.report_pictures.specs.MeasuredScreens.{left_words, moment_width, moment_words};
ghost use Rattle.report_pictures.specs.MeasuredScreens.{moments_width, named_moment, named_size, named_time};
ghost use Rattle.report_pictures.specs.MeasuredScreens.{reason_words, round_line, round_lines, round_words};
ghost use Rattle.report_pictures.specs.MeasuredScreens.{sample_words, scale_words, share_words, size_width, size_words};
ghost use Rattle.report_pictures.specs.MeasuredScreens.{sizes_width, stop_words, window_line, window_lines};
ghost use Rattle.report_pictures.specs.MeasuredScreens.{windows_head, windows_text};
ghost use Rattle.predictions.specs.Starts.Texts.{cell_in, right_in};

use crate::bar::{push_bar, push_window_key};
use crate::screen::{greatest_of_windows, window_bar};
use crate::words::push_words;
use predictions::starts::{push_cell, push_right};
use predictions::units::Scale;
use predictions::{push_bytes, push_moment, push_time, push_wide};
use rate_limit::Settings;
use round_planner::{Plan, Round};
use std::alloc::{AllocError, Global};
use sweep_report::{end_line, push_field};
use view_kinds::Style;
use working_sets::Window;

/// How wide the columns of windows are, without the blank before each.
const COLUMN: usize = 11;

/// The columns of windows.
const NAMES: &str = "      window        from     written\n";

/// Returns a tick as a moment in words.
fn words_of_moment(alloc: Global, scale: &Scale, tick: u64) -> Result<Vec<u8>, AllocError>
    ensures { IfOk result (λ words. words.items ≡ moment_words scale.now tick) }
{
    let mut words = Vec::new(alloc);
    push_moment(&mut words, scale.micros(tick))?;
    Ok(words)
}

/// Returns pages as a size in words.
fn words_of_size(alloc: Global, scale: &Scale, pages: u64) -> Result<Vec<u8>, AllocError>
    ensures { IfOk result (λ words. words.items ≡ size_words scale.now pages) }
{
    let mut words = Vec::new(alloc);
    push_bytes(&mut words, scale.bytes(pages))?;
    Ok(words)
}

/// Appends some words, and ticks as a time after them.
#[tactic(auto, unfolding(crate::specs::MeasuredScreens::named_time))]
pub(crate) fn push_named_time(
    text: &mut Vec<u8>,
    name: &str,
    scale: &Scale,
    ticks: u64,
) -> Result<(), AllocError>
    ensures { OnOk result (text.new.items ≡ text.old.items ++ named_time name.now scale.now ticks) }
{
    push_words(text, name)?;
    push_time(text, scale.micros(ticks))
}

/// Appends some words, and a tick as a moment after them.
#[tactic(auto, unfolding(crate::specs::MeasuredScreens::named_moment))]
pub(crate) fn push_named_moment(
    text: &mut Vec<u8>,
    name: &str,
    scale: &Scale,
    tick: u64,
) -> Result<(), AllocError>
    ensures { OnOk result (text.new.items ≡ text.old.items ++ named_moment name.now scale.now tick) }
{
    push_words(text, name)?;
    push_moment(text, scale.micros(tick))
}

/// Appends some words, and pages as a size after them.
#[tactic(auto, unfolding(crate::specs::MeasuredScreens::named_size))]
pub(crate) fn push_named_size(
    text: &mut Vec<u8>,
    name: &str,
    scale: &Scale,
    pages: u64,
) -> Result<(), AllocError>
    ensures { OnOk result (text.new.items ≡ text.old.items ++ named_size name.now scale.now pages) }
{
    push_words(text, name)?;
    push_bytes(text, scale.bytes(pages))
}

/// Appends a number at the right end of a column.
fn push_number(
    alloc: Global,
    text: &mut Vec<u8>,
    width: usize,
    number: u64,
) -> Result<(), AllocError>
    ensures { OnOk result (text.new.items ≡ text.old.items ++ right_in width (decimal number)) }
{
    let mut words = Vec::new(alloc);
    push_wide(&mut words, number as u128)?;
    push_right(text, width, &words)
}

/// Appends a tick as a moment at the right end of a column.
fn push_right_moment(
    alloc: Global,
    text: &mut Vec<u8>,
    width: usize,
    scale: &Scale,
    tick: u64,
) -> Result<(), AllocError>
    ensures { OnOk result (text.new.items ≡ text.old.items ++ right_in width (moment_words scale.now tick)) }
{
    push_right(text, width, &words_of_moment(alloc, scale, tick)?)
}

/// Appends pages as a size at the right end of a column.
fn push_size(
    alloc: Global,
    text: &mut Vec<u8>,
    width: usize,
    scale: &Scale,
    pages: u64,
) -> Result<(), AllocError>
    ensures { OnOk result (text.new.items ≡ text.old.items ++ right_in width (size_words scale.now pages)) }
{
    push_right(text, width, &words_of_size(alloc, scale, pages)?)
}

/// Appends a number as a column of windows.
fn push_number_cell(alloc: Global, text: &mut Vec<u8>, number: u64) -> Result<(), AllocError>
    ensures { OnOk result (text.new.items ≡ text.old.items ++ cell_in 11 (decimal number)) }
{
    let mut words = Vec::new(alloc);
    push_wide(&mut words, number as u128)?;
    push_cell(text, COLUMN, &words)
}

/// Appends a tick as a moment, as a column of windows.
fn push_moment_cell(
    alloc: Global,
    text: &mut Vec<u8>,
    scale: &Scale,
    tick: u64,
) -> Result<(), AllocError>
    ensures { OnOk result (text.new.items ≡ text.old.items ++ cell_in 11 (moment_words scale.now tick)) }
{
    push_cell(text, COLUMN, &words_of_moment(alloc, scale, tick)?)
}

/// Appends pages as a size, as a column of windows.
fn push_size_cell(
    alloc: Global,
    text: &mut Vec<u8>,
    scale: &Scale,
    pages: u64,
) -> Result<(), AllocError>
    ensures { OnOk result (text.new.items ≡ text.old.items ++ cell_in 11 (size_words scale.now pages)) }
{
    push_cell(text, COLUMN, &words_of_size(alloc, scale, pages)?)
}

/// Appends how many of the guest's pages were sampled, if not all.
fn push_sample(text: &mut Vec<u8>, scale: &Scale) -> Result<(), AllocError>
    ensures { OnOk result (text.new.items ≡ text.old.items ++ sample_words scale.now) }
{
    if scale.sampled() < scale.guest() {
        push_field(text, "; the trace has ", scale.sampled())?;
        push_field(text, " of the guest's ", scale.guest())?;
        push_words(text, " pages")?;
    }
    Ok(())
}

/// Appends what ticks and pages stand for.
#[tactic(auto, unfolding(crate::specs::MeasuredScreens::scale_words))]
pub(crate) fn push_scale(text: &mut Vec<u8>, scale: &Scale) -> Result<(), AllocError>
    ensures { OnOk result (text.new.items ≡ text.old.items ++ scale_words scale.now) }
{
    push_field(text, "a tick is ", scale.tick())?;
    push_words(text, " us")?;
    push_sample(text, scale)?;
    push_words(text, "\n\n")
}

/// Appends the line of a window of this many ticks, with its bar, for pages up to `most`.
fn push_window(
    alloc: Global,
    text: &mut Vec<u8>,
    style: &Style,
    scale: &Scale,
    ticks: u64,
    most: u64,
    window: &Window,
) -> Result<(), AllocError>
    ensures { OnOk result (text.new.items ≡ text.old.items ++ window_line style.now scale.now ticks most window.now) }
{
    push_number_cell(alloc, text, window.number)?;
    let from = window.number.saturating_mul(ticks);
    push_moment_cell(alloc, text, scale, from)?;
    push_size_cell(alloc, text, scale, window.pages as u64)?;
    push_words(text, "  ")?;
    let room = style.width.saturating_sub(3 * (COLUMN + 1) + 2);
    push_bar(text, style.colors, most, room, &window_bar(window))?;
    end_line(text)
}

/// Appends a line for each window.
fn push_window_lines(
    alloc: Global,
    text: &mut Vec<u8>,
    style: &Style,
    scale: &Scale,
    ticks: u64,
    windows: &[Window],
) -> Result<(), AllocError>
    ensures { OnOk result (text.new.items ≡ text.old.items ++ window_lines style.now scale.now ticks windows.now) }
{
    let most = greatest_of_windows(windows)[2];
    for window in windows {
        push_window(alloc, text, style, scale, ticks, most, window)?;
    }
    Ok(())
}

/// Appends what the lines of windows show.
#[tactic(auto, unfolding(crate::specs::MeasuredScreens::windows_head))]
fn push_windows_head(
    text: &mut Vec<u8>,
    style: &Style,
    scale: &Scale,
    ticks: u64,
) -> Result<(), AllocError>
    ensures { OnOk result (text.new.items ≡ text.old.items ++ windows_head style.now scale.now ticks) }
{
    push_named_time(text, "windows of ", scale, ticks)?;
    push_words(text, "; written:")?;
    push_window_key(text, style.colors)?;
    push_words(text, NAMES)
}

/// Appends the windows of this many ticks.
#[tactic(auto, unfolding(crate::specs::MeasuredScreens::windows_text))]
pub(crate) fn push_windows(
    alloc: Global,
    text: &mut Vec<u8>,
    style: &Style,
    scale: &Scale,
    ticks: u64,
    windows: &[Window],
) -> Result<(), AllocError>
    ensures { OnOk result (text.new.items ≡ text.old.items ++ windows_text style.now scale.now ticks windows.now) }
{
    push_windows_head(text, style, scale, ticks)?;
    push_window_lines(alloc, text, style, scale, ticks, windows)?;
    end_line(text)
}

/// How wide the times and the sizes of rounds are.
#[derive(Clone, Copy)]
struct Widths {
    time: usize,
    size: usize,
}

/// Returns how wide the moments of a round are.
fn moments_of(alloc: Global, scale: &Scale, round: &Round) -> Result<usize, AllocError>
    ensures { IfOk result (λ width. width ≡ moments_width scale.now round.now) }
{
    let from = words_of_moment(alloc, scale, round.from)?.len();
    let to = words_of_moment(alloc, scale, round.to)?.len();
    Ok(to.max(from))
}

/// Returns how wide the sizes of a round are.
fn sizes_of(alloc: Global, scale: &Scale, round: &Round) -> Result<usize, AllocError>
    ensures { IfOk result (λ width. width ≡ sizes_width scale.now round.now) }
{
    let sent = words_of_size(alloc, scale, round.sent.len() as u64)?.len();
    let dirtied = words_of_size(alloc, scale, round.dirtied as u64)?.len();
    Ok(dirtied.max(sent))
}

/// Returns how wide the moments and the sizes of the rounds of a plan are.
fn widths_of(alloc: Global, scale: &Scale, plan: &Plan) -> Result<Widths, AllocError>
    ensures time { IfOk result (λ widths. widths.time ≡ moment_width scale.now plan.now) }
    ensures size { IfOk result (λ widths. widths.size ≡ size_width scale.now plan.now) }
{
    let mut widths = Widths { time: 0, size: 0 };
    for round in &plan.rounds {
        widths.time = moments_of(alloc, scale, round)?.max(widths.time);
        widths.size = sizes_of(alloc, scale, round)?.max(widths.size);
    }
    Ok(widths)
}

/// Returns the line of a round: when it begins and ends, what it sends, and what is dirtied meanwhile.
#[tactic(auto, unfolding(crate::specs::MeasuredScreens::round_words))]
fn words_of_round(
    alloc: Global,
    scale: &Scale,
    widths: &Widths,
    number: usize,
    round: &Round,
) -> Result<Vec<u8>, AllocError>
    ensures { IfOk result (λ words. words.items
        ≡ round_words scale.now widths.now.time widths.now.size number round.now) }
{
    let mut line = Vec::new(alloc);
    push_words(&mut line, "round ")?;
    push_number(alloc, &mut line, 2, number as u64)?;
    push_words(&mut line, "   ")?;
    push_right_moment(alloc, &mut line, widths.time, scale, round.from)?;
    push_words(&mut line, " to ")?;
    push_right_moment(alloc, &mut line, widths.time, scale, round.to)?;
    push_words(&mut line, "   ")?;
    push_size(
        alloc,
        &mut line,
        widths.size,
        scale,
        round.sent.len() as u64,
    )?;
    push_words(&mut line, " sent   ")?;
    push_size(alloc, &mut line, widths.size, scale, round.dirtied as u64)?;
    push_words(&mut line, " dirtied")?;
    Ok(line)
}

/// Appends the share of the link that a round takes, if the line has room for it.
fn push_share(
    text: &mut Vec<u8>,
    style: &Style,
    settings: &Settings,
    taken: usize,
    rate: u64,
) -> Result<(), AllocError>
    ensures { OnOk result (text.new.items ≡ text.old.items ++ share_words style.now settings.now taken rate) }
{
    if style.width.saturating_sub(taken) >= 16 {
        let percent = rate as u128 * 100 / settings.asked().max.max(1) as u128;
        push_words(text, "   ")?;
        push_wide(text, percent)?;
        push_words(text, "% of link")?;
    }
    Ok(())
}

/// Appends the line of a round.
fn push_round(
    alloc: Global,
    text: &mut Vec<u8>,
    style: &Style,
    scale: &Scale,
    settings: &Settings,
    widths: &Widths,
    at: (usize, &Round),
) -> Result<(), AllocError>
    ensures { OnOk result (text.new.items ≡ text.old.items
        ++ round_line style.now scale.now settings.now widths.now.time widths.now.size at.entry.0 at.entry.1.now) }
{
    let (number, round) = at;
    let words = words_of_round(alloc, scale, widths, number, round)?;
    text.extend_from_slice(&words)?;
    push_share(text, style, settings, words.len(), round.rate)?;
    end_line(text)
}

/// Appends the lines of rounds, with times and sizes of these widths.
fn push_round_lines(
    alloc: Global,
    text: &mut Vec<u8>,
    style: &Style,
    scale: &Scale,
    settings: &Settings,
    widths: &Widths,
    rounds: &[Round],
) -> Result<(), AllocError>
    ensures { OnOk result (text.new.items ≡ text.old.items
        ++ flat_map (λ at. round_line style.now scale.now settings.now widths.now.time widths.now.size at.0 at.1)
        (enumerate_from 0 rounds.now)) }
{
    for (number, round) in rounds.iter().enumerate() {
        push_round(alloc, text, style, scale, settings, widths, (number, round))?;
    }
    Ok(())
}

/// Appends a line for each round, and an empty one.
#[tactic(auto, unfolding(crate::specs::MeasuredScreens::round_lines))]
pub(crate) fn push_rounds(
    alloc: Global,
    text: &mut Vec<u8>,
    style: &Style,
    scale: &Scale,
    settings: &Settings,
    plan: &Plan,
) -> Result<(), AllocError>
    ensures { OnOk result (text.new.items ≡ text.old.items
        ++ (round_lines style.now scale.now settings.now plan.now ++ 10 ∷ [])) }
{
    let widths = widths_of(alloc, scale, plan)?;
    push_round_lines(alloc, text, style, scale, settings, &widths, &plan.rounds)?;
    end_line(text)
}

/// Appends why and when the guest stops.
#[tactic(auto, unfolding(crate::specs::MeasuredScreens::reason_words))]
fn push_reason(text: &mut Vec<u8>, scale: &Scale, plan: &Plan) -> Result<(), AllocError>
    ensures { OnOk result (text.new.items ≡ text.old.items ++ reason_words scale.now plan.now) }
{
    push_words(text, "stop: ")?;
    push_words(text, plan.reason.word())?;
    push_named_moment(text, ", at ", scale, plan.stop)
}

/// Appends what is left at the stop, how long that takes, and all that is sent.
#[tactic(auto, unfolding(crate::specs::MeasuredScreens::left_words))]
fn push_left(text: &mut Vec<u8>, scale: &Scale, plan: &Plan) -> Result<(), AllocError>
    ensures { OnOk result (text.new.items ≡ text.old.items ++ left_words scale.now plan.now) }
{
    push_named_size(text, "\nleft: ", scale, plan.last.len() as u64)?;
    push_named_time(text, "\ndowntime: ", scale, plan.down)?;
    push_named_size(text, "\nsent in all: ", scale, plan.total())?;
    end_line(text)
}

/// Appends the end of a plan.
#[tactic(auto, unfolding(crate::specs::MeasuredScreens::stop_words))]
pub(crate) fn push_stop(text: &mut Vec<u8>, scale: &Scale, plan: &Plan) -> Result<(), AllocError>
    ensures { OnOk result (text.new.items ≡ text.old.items ++ stop_words scale.now plan.now) }
{
    push_reason(text, scale, plan)?;
    push_left(text, scale, plan)
}
