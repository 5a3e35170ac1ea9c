//! The checker: what it knows of the streams that came, and how it takes more.

// `SpellsStream` holds of one value alone: `one_frame`. `TakesAll` does: `one_wrong_frame`. `StopsAt` does, and not
// where `TakesAll` or the end of a right stream holds: `one_wrong_frame`. `IsFirstBehind` does: `one_wrong_page`.

ghost use Rattle.std.specs.Prelude.{◌≡◌, ◌≢◌, ◌<◌, ◌≤◌, ◌^◌, [], List, IfErr, IfOk, OnErr, OnOk, Some, drop, length};
ghost use Rattle.std.specs.Prelude.{slice_set};
ghost use Rattle.migration_model.specs.Final.{shape_of_trace};
ghost use Rattle.page_message.specs.Shapes.{shape_of};
ghost use Rattle.page_versions.specs.Index.{IsIndexOf};
ghost use Rattle.stream_check.specs.Checked.{StopsAt, TakesAll, TakesRight, after_frames, after_stream, checked_with};
ghost use Rattle.stream_check.specs.Checked.{unchecked};
ghost use Rattle.stream_check.specs.Ends.{AreCurrentStamps, IsFirstBehind};
ghost use Rattle.migration_model.specs.Frames.{PageFrame};
ghost use Rattle.stream_check.specs.Faults.{BeginsRight, IsFirstWrong, IsWrongFront, refused_for};
ghost use Rattle.stream_check.specs.declared.faults.FrameCause.TheVariants.{Refused};
ghost use Rattle.page_message.specs.declared.error.FrameError.TheVariants.{Short};
ghost use Rattle.stream_check.specs.Stamps.{greater, no_stamps, stamp_of};

use crate::ending::page_behind;
use crate::faults::{FrameCause, FrameFault, WrongFrame, WrongPage};
use crate::stamps::greater_stamp;
use crate::taken::Taken;
use crate::testing::test_frame;
use guest_log::{Shape, WriteLog};
use page_message::{FrameError, view_frame};
use page_versions::PageIndex;
use std::alloc::{AllocError, Global};
use std::marker::Model;

/// What a check of a migration's streams knows: the last stamp of each page in the stream that comes now, and the
/// greatest in all streams. All its memory is taken when it is made.
#[derive(Debug, Drop)]
pub struct StreamChecker {
    shape: Shape,
    stop: u32,
    last: Vec<Option<u32>>,
    greatest: Vec<Option<u32>>,
    room: Vec<u8>,
}

impl Model for StreamChecker {
    ghost use Rattle.page_message.specs.Shapes.{shape_of};
    ghost use Rattle.stream_check.specs.Checked.{Checked, HasRoom, checked_with};

    ghost Value = { Checked };

    ghost view = { λ c. checked_with (shape_of c.shape) c.stop c.last.items c.greatest.items };

    ghost invariant = { λ c. HasRoom c.shape.shift c.shape.pages c.last.items c.greatest.items c.room.items };
}

/// Returns slots for the stamps of all pages, of which none came.
fn slots(alloc: Global, pages: usize) -> Result<Vec<Option<u32>>, AllocError>
    ensures { IfOk result (λ slots. slots.items ≡ no_stamps pages) }
{
    vec![in alloc; None; pages]
}

/// Returns what ends a check of some bytes at this frame of them. If the bytes end within the frame, that is no error.
pub fn end_at(fault: FrameFault, number: usize, offset: usize) -> Result<Taken, WrongFrame>
    ensures part { IfOk result (λ taken. (taken.frames ≡ number) × (taken.bytes ≡ offset)
        × (fault.cause ≡ Refused Short)) }
    ensures wrong { IfErr result (λ found. (fault.cause ≢ Refused Short) × (found.number ≡ number)
        × (found.offset ≡ offset) × (found.fault ≡ fault)) }
{
    match fault.cause {
        FrameCause::Refused(FrameError::Short) => Ok(Taken {
            frames: number,
            bytes: offset,
        }),
        _ => Err(WrongFrame {
            number,
            offset,
            fault,
        }),
    }
}

/// Returns the frame behind those that were taken, which the bytes end within.
fn cut_off(taken: Taken) -> WrongFrame
    ensures number { result.number ≡ taken.frames }
    ensures offset { result.offset ≡ taken.bytes }
    ensures fault { result.fault ≡ refused_for Short }
{
    WrongFrame {
        number: taken.frames,
        offset: taken.bytes,
        fault: FrameFault {
            cause: FrameCause::Refused(FrameError::Short),
            page: 0,
            stamp: 0,
            wanted: 0,
        },
    }
}

impl StreamChecker {
    /// Returns a checker to which nothing came, for a guest that is stopped after the first `stop` writes of its trace.
    /// The only error is that memory runs out.
    pub fn new(alloc: Global, shape: Shape, stop: u32) -> Result<StreamChecker, AllocError>
        ensures { IfOk result (λ checker. checker ≡ unchecked (shape_of shape) stop) }
    {
        let last = slots(alloc, shape.pages as usize)?;
        let greatest = slots(alloc, shape.pages as usize)?;
        let room = vec![in alloc; 0; shape.page_size()]?;
        Ok(StreamChecker {
            shape,
            stop,
            last,
            greatest,
            room,
        })
    }

    /// Returns a checker to which pages came with these stamps: the last ones of the stream that comes now, and the
    /// greatest of all streams. The only error is that memory runs out.
    pub fn resume(
        alloc: Global,
        shape: Shape,
        stop: u32,
        last: Vec<Option<u32>>,
        greatest: Vec<Option<u32>>,
    ) -> Result<StreamChecker, AllocError>
        requires last { length last.items ≡ shape.pages }
        requires greatest { length greatest.items ≡ shape.pages }
        ensures { IfOk result (λ checker. checker ≡ checked_with (shape_of shape) stop last.items greatest.items) }
    {
        let room = vec![in alloc; 0; shape.page_size()]?;
        Ok(StreamChecker {
            shape,
            stop,
            last,
            greatest,
            room,
        })
    }

    /// Returns the last stamp of each page in the stream that comes now.
    pub fn last_stamps(&self) -> &[Option<u32>]
        ensures stamps { result.now ≡ self.now.last }
        ensures count { length result.now ≡ self.now.shape.pages }
    {
        &self.last
    }

    /// Returns the greatest stamp of each page in all streams.
    pub fn greatest_stamps(&self) -> &[Option<u32>]
        ensures stamps { result.now ≡ self.now.greatest }
        ensures count { length result.now ≡ self.now.shape.pages }
    {
        &self.greatest
    }

    /// Notes that a page came with a stamp.
    fn note(&mut self, page: u32, stamp: u32)
        requires { page < self.old.shape.pages }
        ensures { self.new ≡ checked_with self.old.shape self.old.stop (slice_set self.old.last page (Some stamp))
            (slice_set self.old.greatest page (Some (greater (stamp_of self.old.greatest page) stamp))) }
    {
        let page = page as usize;
        let kept = self.greatest[page];
        self.last[page] = Some(stamp);
        self.greatest[page] = Some(greater_stamp(kept, stamp));
    }

    /// Returns the last stamp of a page in the stream that comes now.
    fn last_of(&self, page: u32) -> Option<u32>
        requires { page < self.now.shape.pages }
        ensures { result ≡ stamp_of self.now.last page }
    {
        self.last[page as usize]
    }

    /// Takes the frame at the front of some bytes, if it is right. Returns how many bytes it has.
    fn take_front<W: WriteLog>(
        &mut self,
        trace: &W,
        index: &PageIndex,
        bytes: &[u8],
    ) -> Result<usize, FrameFault>
        requires of { IsIndexOf index.now (W.trace trace.now) }
        requires shape { self.old.shape ≡ shape_of_trace (W.trace trace.now) }
        ensures taken { IfOk result (λ size. TakesRight (W.trace trace.now) self.old self.new bytes.now 1
            (drop size bytes.now)) }
        ensures some { IfOk result (λ size. 1 ≤ size) }
        ensures within { IfOk result (λ size. size ≤ length bytes.now) }
        ensures wrong { IfErr result (IsWrongFront (W.trace trace.now) self.old.stop self.old.last bytes.now) }
        ensures unchanged { OnErr result (self.new ≡ self.old) }
    {
        let (view, size) = view_frame(&self.shape, bytes)?;
        let last = self.last_of(view.page);
        test_frame(trace, index, self.stop, last, &view, &mut self.room)?;
        self.note(view.page, view.stamp);
        Ok(size)
    }

    /// Takes all whole frames of the next bytes of a stream, up to the first that is wrong. What is behind them is the
    /// beginning of a frame, or nothing, and comes again at the front of the next bytes. After an error the frames
    /// before the wrong one are taken. It allocates nothing.
    pub fn take<W: WriteLog>(
        &mut self,
        trace: &W,
        index: &PageIndex,
        bytes: &[u8],
    ) -> Result<Taken, WrongFrame>
        requires of { IsIndexOf index.now (W.trace trace.now) }
        requires shape { self.old.shape ≡ shape_of_trace (W.trace trace.now) }
        ensures taken { IfOk result (TakesAll (W.trace trace.now) self.old self.new bytes.now) }
        ensures wrong { IfErr result (StopsAt (W.trace trace.now) self.old self.new bytes.now) }
        ensures whole { IfErr result (λ found. found.fault.cause ≢ Refused Short) }
    {
        let mut rest = bytes;
        let mut number = 0usize;
        while !rest.is_empty() {
            match self.take_front(trace, index, rest) {
                Ok(size) => {
                    let (_, behind) = rest.split_at(size);
                    rest = behind;
                    number += 1;
                }
                Err(fault) => return end_at(fault, number, bytes.len() - rest.len()),
            }
        }
        Ok(Taken {
            frames: number,
            bytes: bytes.len(),
        })
    }

    /// Takes the bytes of a stream, or all of them that are left, and ends it. Bytes that end within a frame are wrong.
    /// After an error the frames before the wrong one are taken, and the stream has not ended. It allocates nothing.
    pub fn take_last<W: WriteLog>(
        &mut self,
        trace: &W,
        index: &PageIndex,
        bytes: &[u8],
    ) -> Result<(), WrongFrame>
        requires of { IsIndexOf index.now (W.trace trace.now) }
        requires shape { self.old.shape ≡ shape_of_trace (W.trace trace.now) }
        ensures taken { OnOk result ((frames : List PageFrame)
            × BeginsRight (W.trace trace.now) self.old.stop self.old.last bytes.now frames []
            × (self.new ≡ after_stream (after_frames self.old frames))) }
        ensures wrong { IfErr result (StopsAt (W.trace trace.now) self.old self.new bytes.now) }
    {
        let taken = self.take(trace, index, bytes)?;
        if taken.bytes < bytes.len() {
            return Err(cut_off(taken));
        }
        self.end_stream();
        Ok(())
    }

    /// Ends a stream, and begins the next one: its frames may be older than those that came. It allocates nothing.
    pub fn end_stream(&mut self)
        ensures { self.new ≡ after_stream self.old }
    {
        self.last.fill(None);
    }

    /// Tests, at the end of all streams, that each page came at its version at the stop. It allocates nothing.
    pub fn finish<W: WriteLog>(&self, trace: &W, index: &PageIndex) -> Result<(), WrongPage>
        requires of { IsIndexOf index.now (W.trace trace.now) }
        requires shape { self.now.shape ≡ shape_of_trace (W.trace trace.now) }
        ensures current { OnOk result (AreCurrentStamps (W.trace trace.now) self.now.stop self.now.greatest) }
        ensures behind { IfErr result (IsFirstBehind (W.trace trace.now) self.now.stop self.now.greatest) }
    {
        for page in 0..self.shape.pages {
            let stamp = self.greatest[page as usize];
            let wanted = index.version_after(page, self.stop);
            if stamp != Some(wanted) {
                return Err(page_behind(trace, index, self.stop, page, stamp));
            }
        }
        Ok(())
    }
}
