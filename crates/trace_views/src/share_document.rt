//! The shares of a link as a member of a JSON document.

ghost use Rattle.std.specs.Prelude.{◌≡◌, ◌++◌, OnOk, codes};
ghost use Rattle.trace_views.specs.Json.{member_of};
ghost use Rattle.trace_views.specs.ShareJson.{below_member, share_member, share_object};

use crate::document::Document;
use predictions::Verdict;
use predictions::shares::LinkShare;
use std::alloc::AllocError;

/// Writes the verdict at the share below as a member, if one is tried.
fn write_below(out: &mut Document, below: Option<Verdict>) -> Result<(), AllocError>
    ensures { OnOk result (out.new ≡ out.old ++ below_member below) }
{
    match below {
        Some(other) => out.text_member("below", other.word()),
        None => Ok(()),
    }
}

/// Writes whether a migration converges, and from which share of the link on.
fn write_found(out: &mut Document, found: &LinkShare) -> Result<(), AllocError>
    ensures { OnOk result (out.new ≡ out.old ++ share_object found.now) }
{
    out.begin_object()?;
    out.text_member("converges", found.verdict.word())?;
    out.number_member("percent", found.share)?;
    write_below(out, found.below)?;
    out.end_object()?;
    Ok(())
}

/// Writes these as a member.
fn write_named(out: &mut Document, found: &LinkShare) -> Result<(), AllocError>
    ensures { OnOk result (out.new ≡ out.old ++ member_of (codes "link_shares") (share_object found.now)) }
{
    out.key("link_shares")?;
    write_found(out, found)?;
    Ok(())
}

/// Writes the shares of a link as a member, if the verdict at all of it is known.
pub(crate) fn write_share(out: &mut Document, found: &LinkShare) -> Result<(), AllocError>
    ensures { OnOk result (out.new ≡ out.old ++ share_member found.now) }
{
    if found.is_known() {
        write_named(out, found)
    } else {
        Ok(())
    }
}
