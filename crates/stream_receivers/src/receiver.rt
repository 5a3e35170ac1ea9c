//! The receiver of a stream.

ghost use Rattle.std.specs.Prelude.{◌≡◌, ◌<◌, Err, IfErr, IfOk, IfSome, IsTrue, None, Some, [], false, is_some};
ghost use Rattle.std.specs.Prelude.{length, map, slice_get};
ghost use Rattle.std.specs.List.{All};
ghost use Rattle.migration_model.specs.Parts.{empty_part};
ghost use Rattle.page_message.specs.Shapes.{shape_of};
ghost use Rattle.stream_lanes.specs.Ends.{InView, IsSentOn};
ghost use Rattle.stream_receivers.specs.Held.{IsReceiver};
ghost use Rattle.stream_receivers.specs.Receivers.{AreEnds, AreFrames, HasFrames, TakesOne, receiver_with};

use crate::error::ReceiverError;
use crate::taking::{accept, accept_rests, give_back};
use collector::Part;
use guest_log::Shape;
use std::alloc::Global;
use std::marker::Model;
use stream_lanes::{LaneIn, LaneOut};

/// Takes the frames of one stream, which come on a lane from each worker, into a part of the guest's memory.
///
/// Once a frame is refused, because memory runs out or the bytes are not the encoding of one frame, the part stays as
/// it is: frames taken after it are dropped. At the end the receiver returns why, instead of its part.
#[derive(Drop)]
pub struct Receiver {
    ends: Vec<LaneIn>,
    part: Part,
    refusal: Option<ReceiverError>,
}

impl Model for Receiver {
    ghost use Rattle.stream_receivers.specs.Receivers.{ReceiverView, receiver_with};

    ghost Value = { ReceiverView };

    ghost use Rattle.stream_lanes.specs.Ends.{IsTakenFrom};
    ghost use Rattle.stream_receivers.specs.Held.{IsHeld};

    ghost view = { λ r. receiver_with r.ends.items r.part r.refusal };

    ghost invariant = { λ r. IsHeld r.part.shape (IsTakenFrom r.ends.items) r.part r.refusal };
}

impl Receiver {
    /// Returns a receiver of the lanes with these ends, in order of the workers. It has taken nothing yet, and
    /// allocates nothing.
    pub fn new(alloc: Global, shape: Shape, ends: Vec<LaneIn>) -> Receiver
        requires { All (λ end. end.taken ≡ []) ends.items }
        ensures { result ≡ receiver_with ends.items (empty_part (shape_of shape)) None }
    {
        Receiver {
            ends,
            part: Part::new(alloc, shape),
            refusal: None,
        }
    }

    /// Returns how many lanes it has.
    pub fn lanes(&self) -> usize
        ensures count { result ≡ length self.now.ends }
        ensures is_receiver { IsReceiver self.now }
    {
        self.ends.len()
    }

    /// Returns whether a frame was refused.
    pub fn is_refused(&self) -> bool
        ensures { result ≡ is_some self.now.refusal }
    {
        self.refusal.is_some()
    }

    /// Takes the next frame from a worker's lane, and returns whether one had come. The part then has it, unless a
    /// frame is or was refused. The frame's buffer goes back on the lane, unless the part keeps it: for the first bytes
    /// of a page.
    pub fn take(&mut self, worker: usize) -> bool
        requires { worker < length self.old.ends }
        ensures lanes { map (λ end. end.lane) self.new.ends ≡ map (λ end. end.lane) self.old.ends }
        ensures shape { self.new.part.shape ≡ self.old.part.shape }
        ensures refused { IfSome self.old.refusal (λ e. self.new.refusal ≡ Some e) }
        ensures none { result ≡ false → self.new ≡ self.old }
        ensures seen { result ≡ false → (end : InView) → slice_get self.old.ends worker ≡ Some end → end.seen ≡ [] }
        ensures some { IsTrue result → TakesOne worker self.old.ends self.new.ends }
    {
        let end = &mut self.ends[worker];
        let Some(buffer) = end.take() else {
            return false;
        };
        let left = accept(&mut self.part, &mut self.refusal, buffer);
        give_back(end, left);
        true
    }

    /// Takes what is left on its lanes, given their other ends in order of the workers, and returns its part. The error
    /// is the first refusal, if there was one.
    pub fn finish(self, outs: Vec<LaneOut>) -> Result<Part, ReceiverError>
        requires { AreEnds outs.items self.ends }
        ensures received { AreFrames self.part.shape (IsSentOn outs.items)
            → IfOk result (HasFrames self.part.shape (IsSentOn outs.items)) }
        ensures frames { IfOk result (λ _. AreFrames self.part.shape (IsSentOn outs.items)) }
        ensures refused { IfSome self.refusal (λ e. result ≡ Err e) }
        ensures only { AreFrames self.part.shape (IsSentOn outs.items) → IfErr result (λ e. e ≡ ReceiverError.Memory) }
    {
        let Receiver {
            ends,
            mut part,
            refusal,
        } = self;
        match accept_rests(&mut part, refusal, ends, outs) {
            None => Ok(part),
            Some(error) => Err(error),
        }
    }
}
