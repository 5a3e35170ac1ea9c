//! The memory of a guest that has stopped, and what its later writes make of it.

ghost use Rattle.std.specs.Prelude.{◌≡◌, IfErr, IfOk, length};
ghost use Rattle.image_build.specs.Joins.{memory_by};
ghost use Rattle.migration_model.specs.Memory.{image_of};
ghost use Rattle.migration_model.specs.Resumed.{AtVersions};
ghost use Rattle.page_versions.specs.Index.{IsIndexOf};

use guest_log::WriteLog;
use image_build::{Image, ImageError, JoinedParts, resume};
use page_versions::PageIndex;
use std::alloc::Global;

/// The memory of a guest that stopped and was resumed.
#[derive(Debug, Drop)]
pub struct GuestImages {
    /// Its memory when it stopped.
    pub at_stop: Image,
    /// Its memory after all its writes.
    pub at_end: Image,
}

impl GuestImages {
    /// Returns the memory of a guest that stopped with each page at its version, and its memory after all its writes.
    /// The only error is that memory runs out.
    pub fn new<W: WriteLog>(
        alloc: Global,
        stopped: &JoinedParts,
        trace: &W,
        index: &PageIndex,
        versions: &[u32],
    ) -> Result<GuestImages, ImageError>
        requires of { IsIndexOf index.now (W.trace trace.now) }
        requires shift { (memory_by stopped.now).shift ≡ (W.trace trace.now).shift }
        requires pages { (memory_by stopped.now).pages ≡ (W.trace trace.now).pages }
        requires versions { length versions.now ≡ (W.trace trace.now).pages }
        requires at { AtVersions (W.trace trace.now) versions.now (memory_by stopped.now) }
        ensures at_stop { IfOk result (λ images. images.at_stop ≡ memory_by stopped.now) }
        ensures at_end { IfOk result (λ images. images.at_end ≡ image_of (W.trace trace.now)) }
        ensures refused { IfErr result (λ e. e ≡ ImageError.Memory) }
    {
        let at_stop = stopped.image(alloc)?;
        let at_end = resume(at_stop.copy(alloc)?, trace, index, versions);
        Ok(GuestImages { at_stop, at_end })
    }
}
