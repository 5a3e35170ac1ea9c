//! Hot pages as runs, and a strip that shows where in the guest they lie.

ghost use Rattle.std.specs.Prelude.{◌≡◌, ℕ, ◌<◌, List, ◌++◌, IfOk, OnOk, length};
ghost use Rattle.std.specs.List.{flat_map, range_with_len};
ghost use Rattle.report_pictures.specs.HotStrips.{cell_text, count_within, first_page, shade_of, spots_text};
ghost use Rattle.report_pictures.specs.HotStrips.{strip_text};
ghost use Rattle.report_pictures.specs.Screens.{hot_count, hot_text};

use crate::words::push_words;
use predictions::push_wide;
use std::alloc::{AllocError, Global};
use sweep_report::{end_line, push_field};
use view_kinds::Style;

/// The most lines of runs.
const MOST_LINES: usize = 8;

/// Pages one after another: the first and the last.
#[derive(Clone, Copy)]
struct Run {
    first: u32,
    last: u32,
}

/// Returns the runs of some pages, given in ascending order.
fn runs_of(alloc: Global, pages: &[u32]) -> Result<Vec<Run>, AllocError> {
    let mut runs = Vec::new(alloc);
    let mut pending: Option<Run> = None;
    for page in pages {
        let alone = Run {
            first: *page,
            last: *page,
        };
        match pending {
            Some(run) if run.last.saturating_add(1) == *page => {
                pending = Some(Run {
                    first: run.first,
                    last: *page,
                });
            }
            Some(run) => {
                runs.push(run)?;
                pending = Some(alone);
            }
            None => pending = Some(alone),
        }
    }
    if let Some(run) = pending {
        runs.push(run)?;
    }
    Ok(runs)
}

/// Returns a run in words, with a comma after it if more follow.
fn run_words(alloc: Global, run: &Run, is_last: bool) -> Result<Vec<u8>, AllocError> {
    let mut words = Vec::new(alloc);
    push_wide(&mut words, run.first as u128)?;
    if run.last > run.first {
        push_field(&mut words, "-", run.last as u64)?;
    }
    if !is_last {
        push_words(&mut words, ",")?;
    }
    Ok(words)
}

/// Appends runs in lines no wider than the style allows, up to a screen's worth. Returns how many pages they have.
fn push_runs(
    alloc: Global,
    text: &mut Vec<u8>,
    style: &Style,
    runs: &[Run],
) -> Result<u64, AllocError> {
    let mut column = 0usize;
    let mut lines = 1usize;
    let mut shown = 0u64;
    for (number, run) in runs.iter().enumerate() {
        let words = run_words(alloc, run, number.saturating_add(1) == runs.len())?;
        let end = column.saturating_add(words.len()).saturating_add(1);
        if end > style.width {
            if lines == MOST_LINES {
                break;
            }
            end_line(text)?;
            lines = lines.saturating_add(1);
            column = 0;
        }
        push_words(text, " ")?;
        text.extend_from_slice(&words)?;
        column = column.saturating_add(words.len()).saturating_add(1);
        let more = run.last.saturating_sub(run.first) as u64;
        shown = shown.saturating_add(more).saturating_add(1);
    }
    end_line(text)?;
    Ok(shown)
}

/// Returns how many of some pages lie from one page up to another.
fn count_within(pages: &[u32], from: u64, to: u64) -> u64
    ensures { result ≡ count_within pages.now from to }
{
    pages
        .iter()
        .filter(|page| from <= **page as u64 && (**page as u64) < to)
        .count() as u64
}

/// Returns the shade for `hot` hot pages of `pages`.
fn shade_of(hot: u64, pages: u64) -> &'static str
    ensures { result.now ≡ shade_of hot pages }
{
    let thirds = hot as u128 * 3;
    if hot == 0 {
        " "
    } else if hot >= pages {
        "█"
    } else if thirds < pages as u128 {
        "░"
    } else if thirds < pages as u128 * 2 {
        "▒"
    } else {
        "▓"
    }
}

/// Returns the first page of a cell, of `cells` cells.
fn first_page(cells: u32, count: u32, cell: u32) -> u64
    ensures { result ≡ first_page cells count cell }
{
    (cell as u64 * count as u64).div_ceil(cells.max(1) as u64)
}

/// Appends a cell of the strip, of `cells` cells.
fn push_cell(
    text: &mut Vec<u8>,
    cells: u32,
    count: u32,
    cell: u32,
    pages: &[u32],
) -> Result<(), AllocError>
    requires { cell < cells }
    ensures { OnOk result (text.new.items ≡ text.old.items ++ cell_text pages.now cells count cell) }
{
    let from = first_page(cells, count, cell);
    let to = first_page(cells, count, cell + 1);
    push_words(
        text,
        shade_of(count_within(pages, from, to), to.saturating_sub(from)),
    )
}

/// Appends all cells of the strip.
fn push_cells(text: &mut Vec<u8>, cells: u32, count: u32, pages: &[u32]) -> Result<(), AllocError>
    ensures { OnOk result (text.new.items
        ≡ text.old.items ++ flat_map (cell_text pages.now cells count) (range_with_len 0 cells)) }
{
    for cell in 0..cells {
        push_cell(text, cells, count, cell, pages)?;
    }
    Ok(())
}

/// Appends the strip that shows where in a guest of `count` pages the hot ones lie.
#[tactic(auto, unfolding(crate::specs::HotStrips::strip_text))]
fn push_strip(
    text: &mut Vec<u8>,
    style: &Style,
    count: u32,
    pages: &[u32],
) -> Result<(), AllocError>
    ensures { OnOk result (text.new.items ≡ text.old.items ++ strip_text style.now.width count pages.now) }
{
    let cells = style.width.saturating_sub(3).min(count as usize) as u32;
    push_words(text, " |")?;
    push_cells(text, cells, count, pages)?;
    push_words(text, "|\n")
}

/// Returns the lines of the runs of hot pages, and of how many more there are.
fn run_lines(alloc: Global, style: &Style, pages: &[u32]) -> Result<Vec<u8>, AllocError> {
    let mut text = Vec::new(alloc);
    let runs = runs_of(alloc, pages)?;
    let shown = push_runs(alloc, &mut text, style, &runs)?;
    let more = (pages.len() as u64).saturating_sub(shown);
    if more > 0 {
        push_field(&mut text, " and ", more)?;
        push_words(&mut text, " more\n")?;
    }
    Ok(text)
}

/// Returns where the hot pages of a guest of `count` pages lie: their runs, and a strip. Of no pages it is empty.
fn spots_of(alloc: Global, style: &Style, count: u32, pages: &[u32]) -> Result<Vec<u8>, AllocError>
    ensures { IfOk result (λ spots. (lines : List ℕ)
        × (spots.items ≡ spots_text style.now.width count pages.now lines)) }
{
    if pages.is_empty() {
        return Ok(Vec::new(alloc));
    }
    let mut text = run_lines(alloc, style, pages)?;
    push_strip(&mut text, style, count, pages)?;
    Ok(text)
}

/// Appends how many pages are hot, in how many windows or more.
#[tactic(auto, unfolding(crate::specs::Screens::hot_count))]
fn push_count(text: &mut Vec<u8>, windows: u64, count: u64) -> Result<(), AllocError>
    ensures { OnOk result (text.new.items ≡ text.old.items ++ hot_count windows count) }
{
    push_field(text, "hot pages, in ", windows)?;
    push_field(text, " windows or more: ", count)?;
    end_line(text)?;
    Ok(())
}

/// Appends the hot pages of a guest of `count` pages: how many there are, and where they lie.
pub(crate) fn push_hot(
    alloc: Global,
    text: &mut Vec<u8>,
    style: &Style,
    windows: u64,
    count: u32,
    pages: &[u32],
) -> Result<(), AllocError>
    ensures { OnOk result ((lines : List ℕ) × (text.new.items ≡ text.old.items
        ++ hot_text windows (length pages.now) (spots_text style.now.width count pages.now lines))) }
{
    let spots = spots_of(alloc, style, count, pages)?;
    push_count(text, windows, pages.len() as u64)?;
    text.extend_from_slice(&spots)?;
    end_line(text)?;
    Ok(())
}
