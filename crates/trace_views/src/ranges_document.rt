//! The ranges over starts as a member of a JSON document.

ghost use Rattle.std.specs.Prelude.{◌≡◌, ◌++◌, OnOk, codes};
ghost use Rattle.std.specs.List.{flat_map};
ghost use Rattle.trace_views.specs.Json.{member_of};
ghost use Rattle.trace_views.specs.RangesJson.{counts_members, numbers_object, ranges_member, ranges_object};

use crate::document::Document;
use predictions::starts::{CostNumbers, StartRanges};
use std::alloc::{AllocError, Global};

/// Writes how long a migration takes, what it sends, and how long the guest does not run.
fn write_numbers(alloc: Global, out: &mut Document, numbers: &CostNumbers) -> Result<(), AllocError>
    ensures { OnOk result (out.new ≡ out.old ++ numbers_object numbers.now) }
{
    out.begin_object()?;
    out.seconds_member(alloc, "time_seconds", numbers.time)?;
    out.wide_member("sent_bytes", numbers.bytes)?;
    out.seconds_member(alloc, "down_seconds", numbers.downtime)?;
    out.end_object()?;
    Ok(())
}

/// Writes such numbers as a member.
fn write_named(
    alloc: Global,
    out: &mut Document,
    name: &str,
    numbers: &CostNumbers,
) -> Result<(), AllocError>
    ensures { OnOk result (out.new ≡ out.old ++ member_of name.now (numbers_object numbers.now)) }
{
    out.key(name)?;
    write_numbers(alloc, out, numbers)?;
    Ok(())
}

/// Writes how many starts there are, and from how many the migration is known, converges and keeps its limit.
fn write_counts(out: &mut Document, ranges: &StartRanges) -> Result<(), AllocError>
    ensures { OnOk result (out.new ≡ out.old ++ flat_map (λ m. m) (counts_members ranges.now)) }
{
    out.number_member("count", ranges.count)?;
    out.number_member("known", ranges.known)?;
    out.number_member("converging", ranges.converging)?;
    out.number_member("kept", ranges.kept)?;
    Ok(())
}

/// Writes ranges over starts.
fn write_all(alloc: Global, out: &mut Document, ranges: &StartRanges) -> Result<(), AllocError>
    ensures { OnOk result (out.new ≡ out.old ++ ranges_object ranges.now) }
{
    out.begin_object()?;
    write_counts(out, ranges)?;
    write_named(alloc, out, "least", &ranges.least)?;
    write_named(alloc, out, "greatest", &ranges.greatest)?;
    out.end_object()?;
    Ok(())
}

/// Writes ranges over starts as a member, if there are any.
pub(crate) fn write_ranges(
    alloc: Global,
    out: &mut Document,
    ranges: &Option<StartRanges>,
) -> Result<(), AllocError>
    ensures { OnOk result (out.new ≡ out.old ++ ranges_member ranges.now) }
{
    match ranges {
        Some(ranges) => {
            out.key("starts")?;
            write_all(alloc, out, ranges)
        }
        None => Ok(()),
    }
}
