//! Frames of pages as they are now.

ghost use Rattle.std.specs.Prelude.{◌≡◌, ◌<◌, ◌≤◌, IfOk, length};
ghost use Rattle.std.specs.List.{All};
ghost use Rattle.page_versions.specs.Index.{IsIndexOf};
ghost use Rattle.stop_copy.specs.Copies.{AreCurrentFrames, IsCurrentFrame};

use crate::error::CopyError;
use guest_log::WriteLog;
use page_message::{Frame, frame_of};
use page_versions::PageIndex;
use std::alloc::Global;

/// The guest's pages, each at its own version.
#[derive(Drop)]
pub(crate) struct CurrentPages<'a, W: WriteLog> {
    pub(crate) trace: &'a W,
    pub(crate) index: &'a PageIndex,
    pub(crate) versions: &'a [u32],
    pub(crate) ghost is_index: { IsIndexOf index.now (W.trace trace.now) },
    pub(crate) ghost count: { length versions.now ≡ (W.trace trace.now).pages },
    pub(crate) ghost low: { All (λ version. version ≤ length (W.trace trace.now).writes) versions.now },
}

impl<'a, W: WriteLog> CurrentPages<'a, W> {
    /// Returns the frame of a page at its version.
    fn frame_at(&self, alloc: Global, page: u32) -> Result<Frame, CopyError>
        requires { page < (W.trace self.now.trace.now).pages }
        ensures frame { IfOk result (IsCurrentFrame (W.trace self.now.trace.now) self.now.versions.now) }
        ensures own { IfOk result (λ frame. frame.page ≡ page) }
    {
        let shape = self.trace.shape();
        let version = self.versions[page as usize];
        let bytes = self.index.bytes_at(alloc, self.trace, page, version)?;
        Ok(frame_of(&shape, page, version, bytes))
    }

    /// Returns the frames of these pages, in order, each at its version.
    pub(crate) fn frames_of(&self, alloc: Global, pages: &[u32]) -> Result<Vec<Frame>, CopyError>
        requires { All (λ page. page < (W.trace self.now.trace.now).pages) pages.now }
        ensures { IfOk result (λ frames. AreCurrentFrames (W.trace self.now.trace.now) self.now.versions.now
            pages.now frames.items) }
    {
        let mut frames = Vec::with_capacity(alloc, pages.len())?;
        for page in pages {
            frames.push(self.frame_at(alloc, *page)?)?;
        }
        Ok(frames)
    }
}
