//! How far streams have come that are checked in pieces, and what is wrong in a piece, counted in its stream.

ghost use Rattle.std.specs.Prelude.{◌≡◌};
ghost use Rattle.c_answers.specs.Pieces.{counted};

use crate::checking::{StreamFinding, finding_of_frame};
use page_message::FrameError;
use stream_check::{FrameFault, Taken, WrongFrame};

/// How far streams have come that are checked in pieces: C's `struct precopy_progress`.
#[derive(Clone, Copy)]
#[repr(C)]
pub struct PieceProgress {
    /// The stream that comes now, from 0.
    pub stream: usize,
    /// How many of its frames came.
    pub frames: usize,
    /// How many bytes these have.
    pub bytes: usize,
    /// After how many writes the guest is stopped.
    pub stop: u32,
}

/// Returns the sum of two counts, or the greatest count if it is more.
fn counted(old: usize, more: usize) -> usize
    ensures { result ≡ counted old more }
{
    old.saturating_add(more)
}

impl PieceProgress {
    ghost use Rattle.std.specs.Prelude.{◌≡◌};
    ghost use Rattle.c_answers.specs.Pieces.{cut_frame, gone_on, piece_finding};
    ghost use Rattle.c_answers.specs.StreamChecks.{frame_finding};

    /// Returns how far the stream has come after more frames.
    pub fn after(&self, taken: &Taken) -> PieceProgress
        ensures { result ≡ gone_on self.now taken.now }
    {
        PieceProgress {
            frames: counted(self.frames, taken.frames),
            bytes: counted(self.bytes, taken.bytes),
            ..*self
        }
    }

    /// Returns a wrong frame of a piece as C sees it, counted in its stream.
    pub(crate) fn finding(&self, found: &WrongFrame) -> StreamFinding
        ensures { result ≡ piece_finding self.now found.now }
    {
        let in_stream = WrongFrame {
            number: counted(self.frames, found.number),
            offset: counted(self.bytes, found.offset),
            fault: found.fault,
        };
        finding_of_frame(self.stream, &in_stream)
    }

    /// Returns the frame that is cut off, as C sees it, where the stream ends and bytes are left.
    pub fn cut_off(&self) -> StreamFinding
        ensures { result ≡ frame_finding self.now.stream (cut_frame self.now) }
    {
        let cut = WrongFrame {
            number: self.frames,
            offset: self.bytes,
            fault: FrameFault::from(FrameError::Short),
        };
        finding_of_frame(self.stream, &cut)
    }
}
