//! What can be wrong in the streams of a migration.

ghost use Rattle.std.specs.Prelude.{◌≡◌};
ghost use Rattle.stream_check.specs.declared.faults.FrameCause.TheVariants.{Refused};

use page_message::FrameError;

/// Why a frame is wrong. If there are several causes, it is the first in this order.
#[derive(Clone, Copy, Debug, PartialEq, Eq)]
pub enum FrameCause {
    /// The bytes are refused as a frame.
    Refused(FrameError),
    /// The stamp is not 0, and no write to the page has that place.
    NoVersion,
    /// The stamp is of a write after the stop.
    AfterStop,
    /// A frame of the page with a greater stamp came before in the stream.
    Older,
    /// The bytes are not those of the page at the stamp.
    Bytes,
}

/// What is wrong with a frame.
#[derive(Clone, Copy, Debug, PartialEq, Eq)]
pub struct FrameFault {
    /// Why it is wrong.
    pub cause: FrameCause,
    /// The page of the frame; 0 if it is refused.
    pub page: u32,
    /// The stamp of the frame; 0 if it is refused.
    pub stamp: u32,
    /// What was to be: for `NoVersion` the page's version after `stamp` writes, for `AfterStop` its version at the
    /// stop, for `Older` the stamp that came before, and for `Bytes` the stamp itself. It is 0 if the frame is refused.
    pub wanted: u32,
}

impl From<FrameError> for FrameFault {
    ghost from_gives = { λ error fault. fault ≡ record { cause = Refused error; page = 0; stamp = 0; wanted = 0 } };

    fn from(error: FrameError) -> FrameFault {
        FrameFault {
            cause: FrameCause::Refused(error),
            page: 0,
            stamp: 0,
            wanted: 0,
        }
    }
}

/// The first frame of some bytes that is wrong.
#[derive(Clone, Copy, Debug, PartialEq, Eq)]
pub struct WrongFrame {
    /// The number of the frame in these bytes, from 0.
    pub number: usize,
    /// The byte at which it begins, from 0.
    pub offset: usize,
    /// What is wrong with it.
    pub fault: FrameFault,
}

/// A page that is not at its version at the stop when all streams have ended.
#[derive(Clone, Copy, Debug, PartialEq, Eq)]
pub struct WrongPage {
    /// The number of the page.
    pub page: u32,
    /// The greatest stamp with which it came, or None if it never came.
    pub stamp: Option<u32>,
    /// Its version at the stop.
    pub wanted: u32,
    /// The place of the first write that it lacks, or 0 if it lacks none and never came.
    pub missing: u32,
    /// The tick of that write, or 0.
    pub tick: u64,
}
