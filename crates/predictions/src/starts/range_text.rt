//! The ranges over starts as lines.

ghost use Rattle.std.specs.Prelude.{◌≡◌, ◌++◌, ◌<◌, ◌^◌, OnOk, Some};
ghost use Rattle.predictions.specs.Starts.RangeTexts.{bytes_span, counts_line, ranges_text, spans_line, time_span};

use crate::quantities::{push_bytes, push_time};
use crate::starts::ranges::{CostNumbers, StartRanges};
use std::alloc::AllocError;
use sweep_report::{end_line, push_field};

/// Appends how many starts there are, and from how many the migration is known, converges, and keeps its limit.
fn push_counts(text: &mut Vec<u8>, ranges: &StartRanges) -> Result<(), AllocError>
    ensures { OnOk result (text.new.items ≡ text.old.items ++ counts_line ranges.now) }
{
    push_field(text, "starts: ", ranges.count)?;
    push_field(text, ", known: ", ranges.known)?;
    push_field(text, ", converging: ", ranges.converging)?;
    push_field(text, ", limit kept: ", ranges.kept)?;
    end_line(text)?;
    Ok(())
}

/// Appends the least and the greatest of some sizes, in bytes.
#[tactic(auto, unfolding(crate::specs::Starts::RangeTexts::bytes_span))]
fn push_bytes_span(text: &mut Vec<u8>, least: u128, greatest: u128) -> Result<(), AllocError>
    requires low { least < 2 ^ 120 }
    requires high { greatest < 2 ^ 120 }
    ensures { OnOk result (text.new.items ≡ text.old.items ++ bytes_span least greatest) }
{
    push_bytes(text, least)?;
    text.extend_from_slice(" to ".as_bytes())?;
    push_bytes(text, greatest)
}

/// Appends the least and the greatest of some times, in microseconds.
#[tactic(auto, unfolding(crate::specs::Starts::RangeTexts::time_span))]
fn push_time_span(text: &mut Vec<u8>, least: u128, greatest: u128) -> Result<(), AllocError>
    ensures { OnOk result (text.new.items ≡ text.old.items ++ time_span least greatest) }
{
    push_time(text, least)?;
    text.extend_from_slice(" to ".as_bytes())?;
    push_time(text, greatest)
}

/// Appends what a migration costs from the known starts, at least and at most.
fn push_spans(
    text: &mut Vec<u8>,
    least: &CostNumbers,
    greatest: &CostNumbers,
) -> Result<(), AllocError>
    ensures { OnOk result (text.new.items ≡ text.old.items ++ spans_line least.now greatest.now) }
{
    text.extend_from_slice("over known starts: sent ".as_bytes())?;
    push_bytes_span(text, least.bytes, greatest.bytes)?;
    text.extend_from_slice(", time ".as_bytes())?;
    push_time_span(text, least.time, greatest.time)?;
    text.extend_from_slice(", downtime ".as_bytes())?;
    push_time_span(text, least.downtime, greatest.downtime)?;
    end_line(text)?;
    Ok(())
}

/// Appends some ranges over starts.
fn push_both(text: &mut Vec<u8>, ranges: &StartRanges) -> Result<(), AllocError>
    ensures { OnOk result (text.new.items ≡ text.old.items ++ ranges_text (Some ranges.now)) }
{
    push_counts(text, ranges)?;
    push_spans(text, &ranges.least, &ranges.greatest)?;
    Ok(())
}

/// Appends ranges over starts as two lines, in ASCII, if there are any: from how many starts the migration is known,
/// converges and keeps its limit, and its least and greatest bytes, time and downtime.
pub fn push_ranges(text: &mut Vec<u8>, ranges: &Option<StartRanges>) -> Result<(), AllocError>
    ensures { OnOk result (text.new.items ≡ text.old.items ++ ranges_text ranges.now) }
{
    match ranges {
        Some(ranges) => push_both(text, ranges),
        None => Ok(()),
    }
}
