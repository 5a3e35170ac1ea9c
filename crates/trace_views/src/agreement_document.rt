//! The answers of draws as a member of a JSON document.

ghost use Rattle.std.specs.Prelude.{◌≡◌, ◌++◌, OnOk, codes};
ghost use Rattle.trace_views.specs.AgreementJson.{counts_object, draws_member};
ghost use Rattle.trace_views.specs.Json.{member_of};

use crate::document::Document;
use predictions::agreement::AnswerCounts;
use std::alloc::AllocError;

/// Writes how many draws there are, and in how many the migration is known, converges and keeps its limit.
fn write_counts(out: &mut Document, counts: &AnswerCounts) -> Result<(), AllocError>
    ensures { OnOk result (out.new ≡ out.old ++ counts_object counts.now) }
{
    out.begin_object()?;
    out.number_member("count", counts.whole)?;
    out.number_member("known", counts.known)?;
    out.number_member("converging", counts.converging)?;
    out.number_member("kept", counts.kept)?;
    out.end_object()?;
    Ok(())
}

/// Writes these as a member.
fn write_named(out: &mut Document, counts: &AnswerCounts) -> Result<(), AllocError>
    ensures { OnOk result (out.new ≡ out.old ++ member_of (codes "redraws") (counts_object counts.now)) }
{
    out.key("redraws")?;
    write_counts(out, counts)?;
    Ok(())
}

/// Writes the answers of draws as a member, if pages were sampled.
pub(crate) fn write_draws(
    out: &mut Document,
    draws: &Option<AnswerCounts>,
) -> Result<(), AllocError>
    ensures { OnOk result (out.new ≡ out.old ++ draws_member draws.now) }
{
    match draws {
        Some(counts) => write_named(out, counts),
        None => Ok(()),
    }
}
