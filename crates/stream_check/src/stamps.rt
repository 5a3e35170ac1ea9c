//! Stamps of pages.

ghost use Rattle.std.specs.Prelude.{◌≡◌, ◌<◌, ℕ, IfErr, OnOk};
ghost use Rattle.migration_model.specs.Trace.{GuestTrace};
ghost use Rattle.page_versions.specs.Index.{IsIndexOf};
ghost use Rattle.stream_check.specs.Faults.{IsRightStamp, IsStampFault};
ghost use Rattle.stream_check.specs.Stamps.{greater};

use crate::faults::{FrameCause, FrameFault};
use page_versions::PageIndex;

/// Returns the greater of the stamp that came, if any, and another.
pub(crate) fn greater_stamp(came: Option<u32>, stamp: u32) -> u32
    ensures { result ≡ greater came stamp }
{
    match came {
        None => stamp,
        Some(came) => came.max(stamp),
    }
}

/// Tests the stamp of a frame, which comes after one of its page with the stamp `last`, if any.
pub(crate) fn test_stamp(
    index: &PageIndex,
    stop: u32,
    last: Option<u32>,
    page: u32,
    stamp: u32,
) -> Result<(), FrameFault>
    requires { page < index.now.pages }
    ensures right { (trace : GuestTrace) → IsIndexOf index.now trace
        → OnOk result (IsRightStamp trace stop last page stamp) }
    ensures wrong { (trace : GuestTrace) → IsIndexOf index.now trace
        → IfErr result (λ fault. (fault.page ≡ page) × (fault.stamp ≡ stamp)
        × IsStampFault trace stop last page stamp fault.cause fault.wanted) }
{
    let version = index.version_after(page, stamp);
    if version != stamp {
        return Err(FrameFault {
            cause: FrameCause::NoVersion,
            page,
            stamp,
            wanted: version,
        });
    }
    if stamp > stop {
        return Err(FrameFault {
            cause: FrameCause::AfterStop,
            page,
            stamp,
            wanted: index.version_after(page, stop),
        });
    }
    match last {
        Some(came) if stamp < came => Err(FrameFault {
            cause: FrameCause::Older,
            page,
            stamp,
            wanted: came,
        }),
        Some(_) => Ok(()),
        None => Ok(()),
    }
}
