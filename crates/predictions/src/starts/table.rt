//! The starts as a table.

ghost use Rattle.std.specs.Prelude.{◌≡◌, ◌++◌, ◌<◌, ◌^◌, IfOk, OnOk, codes};
ghost use Rattle.std.specs.Fmt.{decimal};
ghost use Rattle.predictions.specs.Predictions.{kept_of};
ghost use Rattle.predictions.specs.Quantities.{bytes_text, error_text, moment_text, time_text};
ghost use Rattle.predictions.specs.Starts.Texts.{cell_in, choice_line, chosen_cost, chosen_downtime, chosen_text};
ghost use Rattle.predictions.specs.Starts.Texts.{cost_cells, doubt_words, down_spread, mark_of, right_in, start_row};
ghost use Rattle.predictions.specs.Starts.Texts.{start_rows, starts_text_of};

use crate::cost::Cost;
use crate::quantities::{push_bytes, push_error, push_moment, push_time, push_wide};
use crate::redrawn::Errors;
use crate::starts::choosing::is_likely;
use crate::starts::starting::StartCost;
use crate::units::Scale;
use crate::verdict::Verdict;
use std::alloc::{AllocError, Global};
use sweep_report::{end_line, push_field};

/// The names of the columns.
const HEADING: &str = "          tick         start          time          sent      downtime\n";

/// How wide a column is, without the blank before it.
const WIDTH: usize = 13;

/// Appends words at the right end of a column of this width.
pub fn push_right(text: &mut Vec<u8>, width: usize, words: &[u8]) -> Result<(), AllocError>
    ensures { OnOk result (text.new.items ≡ text.old.items ++ right_in width words.now) }
{
    for _column in words.len()..width {
        text.push(b' ')?;
    }
    text.extend_from_slice(words)?;
    Ok(())
}

/// Appends words at the right end of a column of this width, and a blank before it.
#[tactic(auto, unfolding(crate::specs::Starts::Texts::cell_in))]
pub fn push_cell(text: &mut Vec<u8>, width: usize, words: &[u8]) -> Result<(), AllocError>
    ensures { OnOk result (text.new.items ≡ text.old.items ++ cell_in width words.now) }
{
    text.extend_from_slice(" ".as_bytes())?;
    push_right(text, width, words)
}

/// Appends a number as a column.
fn push_number_cell(alloc: Global, text: &mut Vec<u8>, number: u64) -> Result<(), AllocError>
    ensures { OnOk result (text.new.items ≡ text.old.items ++ cell_in 13 (decimal number)) }
{
    let mut words = Vec::new(alloc);
    push_wide(&mut words, number as u128)?;
    push_cell(text, WIDTH, &words)
}

/// Appends a time, given in microseconds, as a column.
fn push_time_cell(alloc: Global, text: &mut Vec<u8>, micros: u128) -> Result<(), AllocError>
    ensures { OnOk result (text.new.items ≡ text.old.items ++ cell_in 13 (time_text micros)) }
{
    let mut words = Vec::new(alloc);
    push_time(&mut words, micros)?;
    push_cell(text, WIDTH, &words)
}

/// Appends a moment, given in microseconds, as a column.
fn push_moment_cell(alloc: Global, text: &mut Vec<u8>, micros: u128) -> Result<(), AllocError>
    ensures { OnOk result (text.new.items ≡ text.old.items ++ cell_in 13 (moment_text micros)) }
{
    let mut words = Vec::new(alloc);
    push_moment(&mut words, micros)?;
    push_cell(text, WIDTH, &words)
}

/// Appends a size as a column.
fn push_size_cell(alloc: Global, text: &mut Vec<u8>, bytes: u128) -> Result<(), AllocError>
    requires { bytes < 2 ^ 120 }
    ensures { OnOk result (text.new.items ≡ text.old.items ++ cell_in 13 (bytes_text bytes)) }
{
    let mut words = Vec::new(alloc);
    push_bytes(&mut words, bytes)?;
    push_cell(text, WIDTH, &words)
}

/// Returns whether the limit is kept, in words.
fn mark_words(cost: &Cost) -> &'static str
    ensures { result.now ≡ mark_of (kept_of cost.now) }
{
    match cost.kept() {
        Verdict::Yes => "kept",
        Verdict::No => "not kept",
        Verdict::Unknown => "unknown",
        Verdict::Uncertain => "uncertain",
    }
}

/// Appends what a migration costs, as columns.
#[tactic(auto, unfolding(crate::specs::Starts::Texts::cost_cells))]
fn push_cost(alloc: Global, text: &mut Vec<u8>, cost: &Cost) -> Result<(), AllocError>
    ensures { OnOk result (text.new.items ≡ text.old.items ++ cost_cells cost.now) }
{
    push_time_cell(alloc, text, cost.time)?;
    push_size_cell(alloc, text, cost.bytes)?;
    push_time_cell(alloc, text, cost.downtime)?;
    text.extend_from_slice("  ".as_bytes())?;
    text.extend_from_slice(mark_words(cost).as_bytes())?;
    Ok(())
}

/// Appends the line of a start.
fn push_row(
    alloc: Global,
    text: &mut Vec<u8>,
    scale: &Scale,
    at: &StartCost,
) -> Result<(), AllocError>
    ensures { OnOk result (text.new.items ≡ text.old.items ++ start_row scale.now at.now) }
{
    push_number_cell(alloc, text, at.start)?;
    push_moment_cell(alloc, text, scale.micros(at.start))?;
    push_cost(alloc, text, &at.cost)?;
    end_line(text)
}

/// Appends a line for each start.
fn push_rows(
    alloc: Global,
    text: &mut Vec<u8>,
    scale: &Scale,
    costs: &[StartCost],
) -> Result<(), AllocError>
    ensures { OnOk result (text.new.items ≡ text.old.items ++ start_rows scale.now costs.now) }
{
    for at in costs {
        push_row(alloc, text, scale, at)?;
    }
    Ok(())
}

/// Appends one standard error of a downtime beside it, if one is counted.
pub fn push_spread(text: &mut Vec<u8>, errors: &Option<Errors>) -> Result<(), AllocError>
    ensures { OnOk result (text.new.items ≡ text.old.items ++ down_spread errors.now) }
{
    match errors {
        Some(errors) => push_error_of(text, errors.downtime),
        None => Ok(()),
    }
}

/// Appends a standard error, in microseconds, behind its number.
fn push_error_of(text: &mut Vec<u8>, error: u128) -> Result<(), AllocError>
    ensures { OnOk result (text.new.items ≡ text.old.items ++ (codes " +- " ++ error_text error)) }
{
    text.extend_from_slice(" +- ".as_bytes())?;
    push_error(text, error)?;
    Ok(())
}

/// Returns a word on a limit that is kept, but not likely so.
#[tactic(auto, unfolding(crate::specs::Starts::Texts::doubt_words))]
fn doubt(limit: u64, at: &StartCost) -> &'static str
    ensures { result.now ≡ doubt_words limit at.now }
{
    if at.cost.is_kept && !is_likely(limit, at) {
        " by less than two standard errors"
    } else {
        ""
    }
}

/// Appends how long the guest stands still from a chosen start, and whether the limit is kept.
#[tactic(auto, unfolding(crate::specs::Starts::Texts::chosen_downtime))]
fn push_chosen_downtime(text: &mut Vec<u8>, limit: u64, at: &StartCost) -> Result<(), AllocError>
    ensures { OnOk result (text.new.items ≡ text.old.items ++ chosen_downtime limit at.now) }
{
    text.extend_from_slice(", downtime ".as_bytes())?;
    push_time(text, at.cost.downtime)?;
    push_spread(text, &at.errors)?;
    text.extend_from_slice(", ".as_bytes())?;
    text.extend_from_slice(mark_words(&at.cost).as_bytes())?;
    text.extend_from_slice(doubt(limit, at).as_bytes())?;
    end_line(text)?;
    Ok(())
}

/// Appends what a migration costs from a chosen start.
#[tactic(auto, unfolding(crate::specs::Starts::Texts::chosen_cost))]
fn push_chosen_cost(text: &mut Vec<u8>, cost: &Cost) -> Result<(), AllocError>
    ensures { OnOk result (text.new.items ≡ text.old.items ++ chosen_cost cost.now) }
{
    text.extend_from_slice(": time ".as_bytes())?;
    push_time(text, cost.time)?;
    text.extend_from_slice(", sent ".as_bytes())?;
    push_bytes(text, cost.bytes)?;
    Ok(())
}

/// Appends a chosen start.
#[tactic(auto, unfolding(crate::specs::Starts::Texts::chosen_text))]
fn push_chosen(
    text: &mut Vec<u8>,
    scale: &Scale,
    limit: u64,
    at: &StartCost,
) -> Result<(), AllocError>
    ensures { OnOk result (text.new.items ≡ text.old.items ++ chosen_text scale.now limit at.now) }
{
    push_moment(text, scale.micros(at.start))?;
    push_field(text, ", --start ", at.start)?;
    push_chosen_cost(text, &at.cost)?;
    push_chosen_downtime(text, limit, at)
}

/// Appends the line of a chosen start, or of none.
fn push_choice(
    text: &mut Vec<u8>,
    scale: &Scale,
    limit: u64,
    name: &str,
    chosen: &Option<StartCost>,
) -> Result<(), AllocError>
    ensures { OnOk result (text.new.items
        ≡ text.old.items ++ choice_line scale.now limit name.now chosen.now) }
{
    text.extend_from_slice(name.as_bytes())?;
    match chosen {
        Some(at) => push_chosen(text, scale, limit, at),
        None => text.extend_from_slice(NONE.as_bytes()),
    }
}

/// What is printed if no start is known.
const NONE: &str = "none, since no migration ends within the trace; record longer\n";

/// Returns starts as a table, in ASCII: what a migration costs from each, and which is the best and which the worst,
/// beside the limit of the downtime.
pub fn starts_text(
    alloc: Global,
    scale: &Scale,
    limit: u64,
    costs: &[StartCost],
    best: &Option<StartCost>,
    worst: &Option<StartCost>,
) -> Result<Vec<u8>, AllocError>
    ensures { IfOk result (λ text. text.items ≡ starts_text_of scale.now limit costs.now best.now
        worst.now) }
{
    let mut text = Vec::new(alloc);
    text.extend_from_slice(HEADING.as_bytes())?;
    push_rows(alloc, &mut text, scale, costs)?;
    push_choice(&mut text, scale, limit, "best:  ", best)?;
    push_choice(&mut text, scale, limit, "worst: ", worst)?;
    Ok(text)
}
