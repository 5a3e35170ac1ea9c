//! A part of a guest's memory.

// `SpellsStream` holds of one value alone: `one_frame`. `IsFate` does: `one_fate`.
// `IsFirstRefused` holds of one value alone, and of none if all frames are taken: `one_refused_frame`.

ghost use Rattle.std.specs.Prelude.{◌≡◌, ◌≤◌, List, [], IfErr, IfOk, IfSome, MatchResult, None, OnErr, OnOk, drop};
ghost use Rattle.std.specs.Prelude.{length, option_map};
ghost use Rattle.migration_model.specs.Frames.{IsFrame, IsZeros, PageFrame, SpellsStream};
ghost use Rattle.migration_model.specs.Parts.{GuestPart, IsPart, copy_at, copy_in, empty_part, join, part_with};
ghost use Rattle.migration_model.specs.Parts.{with_frame, with_frames};
ghost use Rattle.collector.specs.Fates.{IsFate, goes, stamp_at};
ghost use Rattle.collector.specs.Streams.{RefusesStream, TakesFrames};
ghost use Rattle.collector.specs.Tables.{IsTable, copies_of, frame_at, frame_in, with_slot};
ghost use Rattle.page_message.specs.Refusals.{RefusesFrame};
ghost use Rattle.page_message.specs.Shapes.{shape_of};

use crate::error::PartError;
use crate::fate::{Fate, fate_of};
use crate::table::{make_place, put_frame, put_view, stamp_in, swap_frame};
use guest_log::Shape;
use page_message::{Frame, FrameError, FrameView, view_frame};
use std::alloc::Global;
use std::marker::Model;

/// A part of a guest's memory: for each page, the frame with the greatest stamp of those that came.
///
/// The frames are in a table by page, with slots up to the last page that came, so that one is found in constant time.
/// No slot is made before a page comes.
#[derive(Debug, Drop)]
pub struct Part {
    alloc: Global,
    shape: Shape,
    frames: Vec<Option<Frame>>,
}

impl Model for Part {
    ghost Value = { GuestPart };

    ghost view = { λ p. part_with (shape_of p.shape) (copies_of (shape_of p.shape) p.frames.items) };

    ghost invariant = { λ p. IsTable (shape_of p.shape) p.frames.items };
}

impl Part {
    /// Returns a part that has no page. It allocates nothing.
    pub fn new(alloc: Global, shape: Shape) -> Part
        ensures { result ≡ empty_part (shape_of shape) }
    {
        Part::with_table(alloc, shape, Vec::new(alloc))
    }

    /// Returns the part that has the frames of this table.
    pub(crate) fn with_table(alloc: Global, shape: Shape, frames: Vec<Option<Frame>>) -> Part
        requires { IsTable (shape_of shape) frames.items }
        ensures { result ≡ part_with (shape_of shape) (copies_of (shape_of shape) frames.items) }
    {
        Part {
            alloc,
            shape,
            frames,
        }
    }

    /// Returns the shape of the part's trace.
    pub fn shape(&self) -> Shape
        ensures shape { shape_of result ≡ self.now.shape }
        ensures is_part { IsPart self.now }
    {
        self.shape
    }

    /// Returns the stamp of a page, or None if the part does not have it.
    pub fn stamp(&self, page: u32) -> Option<u32>
        ensures { result ≡ stamp_at self.now page }
    {
        stamp_in(&self.frames, page as usize)
    }

    /// Returns the frame of a page, or None if the part does not have it.
    pub fn frame(&self, page: u32) -> Option<&Frame>
        ensures is { option_map (λ f. f.now) result ≡ frame_at self.now page }
        ensures copy { option_map (λ f. copy_in self.now.shape f.now) result ≡ copy_at self.now page }
        ensures own { IfSome result (λ f. f.now.page ≡ page) }
        ensures fits { IfSome result (λ f. IsFrame self.now.shape f.now) }
    {
        match self.frames.get(page as usize) {
            Some(Some(frame)) => Some(frame),
            _ => None,
        }
    }

    /// Returns the table of the part.
    fn into_frames(self) -> Vec<Option<Frame>>
        ensures copies { copies_of self.shape result.items ≡ self.copies }
        ensures table { IsTable self.shape result.items }
    {
        let Part {
            alloc: _,
            shape: _,
            frames,
        } = self;
        frames
    }

    /// Takes a frame, and returns the one that goes: the old frame of the page, or the new one if it is not newer, or
    /// None if the page came for the first time. Memory can run out only for a page that the part does not have; the
    /// part is then as before.
    pub fn exchange(&mut self, frame: Frame) -> Result<Option<Frame>, PartError>
        requires { IsFrame self.old.shape frame }
        ensures kept { OnOk result (self.new ≡ with_frame self.old frame) }
        ensures gone { IfOk result (λ gone. option_map (λ f. copy_in self.old.shape f) gone
            ≡ goes (copy_at self.old frame.page) (copy_in self.old.shape frame)) }
        ensures gone_frame { IfOk result (λ gone. gone ≡ option_map (frame_in frame.page)
            (goes (copy_at self.old frame.page) (copy_in self.old.shape frame))) }
        ensures unchanged { OnErr result (self.new ≡ self.old) }
        ensures refused { OnErr result (copy_at self.old frame.page ≡ None) }
    {
        let page = frame.page as usize;
        match stamp_in(&self.frames, page) {
            None => {
                make_place(&mut self.frames, page)?;
                put_frame(&mut self.frames, page, frame);
                Ok(None)
            }
            Some(stamp) if stamp < frame.stamp => Ok(swap_frame(&mut self.frames, page, frame)),
            Some(_) => Ok(Some(frame)),
        }
    }

    /// Takes a frame, and returns its fate. Memory can run out only for a page that the part does not have; the part
    /// is then as before.
    pub fn accept(&mut self, frame: Frame) -> Result<Fate, PartError>
        requires { IsFrame self.old.shape frame }
        ensures kept { OnOk result (self.new ≡ with_frame self.old frame) }
        ensures fate { IfOk result (IsFate (stamp_at self.old frame.page) frame.stamp) }
        ensures unchanged { OnErr result (self.new ≡ self.old) }
        ensures refused { OnErr result (copy_at self.old frame.page ≡ None) }
    {
        let fate = fate_of(self.stamp(frame.page), frame.stamp);
        self.exchange(frame)?;
        Ok(fate)
    }

    /// Takes a frame that is borrowed from a stream. It copies the bytes of a page over those that the part has. Memory
    /// can run out only if the part has none, or zeros; the part is then as before.
    pub fn accept_view(&mut self, view: &FrameView<'_>) -> Result<(), PartError>
        requires { IsFrame self.old.shape view.now }
        ensures kept { OnOk result (self.new ≡ with_frame self.old view.now) }
        ensures unchanged { OnErr result (self.new ≡ self.old) }
        ensures refused { OnErr result (IfSome (copy_at self.old view.now.page) (λ copy. IsZeros copy.content)) }
    {
        let page = view.page as usize;
        match stamp_in(&self.frames, page) {
            None => {
                make_place(&mut self.frames, page)?;
                put_view(&mut self.frames, page, self.alloc, view)?;
                Ok(())
            }
            Some(stamp) if stamp < view.stamp => {
                put_view(&mut self.frames, page, self.alloc, view)?;
                Ok(())
            }
            Some(_) => Ok(()),
        }
    }

    /// Takes the frame at the front of some bytes. Returns how many bytes the frame has.
    fn accept_front(&mut self, bytes: &[u8]) -> Result<usize, FrameError>
        ensures taken { IfOk result (λ size. TakesFrames self.old self.new bytes.now 1 (drop size bytes.now)) }
        ensures some { IfOk result (λ size. 1 ≤ size) }
        ensures within { IfOk result (λ size. size ≤ length bytes.now) }
        ensures refused { IfErr result (RefusesFrame self.old.shape bytes.now) }
        ensures unchanged { OnErr result (self.new ≡ self.old) }
    {
        let (view, size) = view_frame(&self.shape, bytes)?;
        match self.accept_view(&view) {
            Ok(()) => Ok(size),
            Err(PartError::Memory) => Err(FrameError::Memory),
        }
    }

    fn take_frames(&mut self, bytes: &[u8]) -> Result<usize, (usize, FrameError)>
        ensures taken { IfOk result (λ count. TakesFrames self.old self.new bytes.now count []) }
        ensures refused { IfErr result (RefusesStream self.old self.new bytes.now) }
    {
        let mut rest = bytes;
        let mut count = 0usize;
        while !rest.is_empty() {
            match self.accept_front(rest) {
                Ok(size) => {
                    let (_, behind) = rest.split_at(size);
                    rest = behind;
                    count += 1;
                }
                Err(error) => return Err((count, error)),
            }
        }
        Ok(count)
    }

    /// Takes frame after frame to the end of the bytes, and returns how many. An error is that of the first frame
    /// refused, with its index, from 0; the frames before it are taken. If memory runs out, the error is `F6`.
    pub fn accept_bytes(&mut self, bytes: &[u8]) -> Result<usize, (usize, FrameError)>
        ensures taken { IfOk result (λ count. TakesFrames self.old self.new bytes.now count []) }
        ensures refused { IfErr result (RefusesStream self.old self.new bytes.now) }
        ensures only { (frames : List PageFrame) → SpellsStream self.old.shape bytes.now frames
            → MatchResult result (λ count. (count ≡ length frames) × (self.new ≡ with_frames self.old frames))
            (λ e. e.1 ≡ FrameError.Memory) }
    {
        // For the proof: the shape is one that a trace may have.
        let _ = &self.shape;
        self.take_frames(bytes)
    }
}

/// Takes a frame, if there is one.
fn accept_slot(part: &mut Part, slot: Option<Frame>) -> Result<(), PartError>
    requires { IfSome slot (IsFrame part.old.shape) }
    ensures { OnOk result (part.new ≡ with_slot part.old slot) }
{
    if let Some(frame) = slot {
        part.accept(frame)?;
    }
    Ok(())
}

/// Returns the join of two parts: for each page, the copy with the greater stamp, or that of the first part if the
/// stamps are equal. It moves each frame of the second part once. After an error both parts are dropped.
pub fn merge(mut first: Part, second: Part) -> Result<Part, PartError>
    requires { first.shape ≡ second.shape }
    ensures { IfOk result (λ part. part ≡ join first second) }
{
    // For the proof: the table fits the shape.
    let _ = &first.shape;
    for slot in second.into_frames() {
        accept_slot(&mut first, slot)?;
    }
    Ok(first)
}
