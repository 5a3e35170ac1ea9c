//! The two ends of a lane.

ghost use Rattle.std.specs.Prelude.{◌≡◌, ◌+◌, ◌<◌, ◌≤◌, ◌↔◌, [], ◌∷◌, ◌++◌, length, IsTrue, IfOk, IfSome, IfNone};
ghost use Rattle.stream_lanes.specs.Ends.{Begins, HasRoom, SameOut, SameIn};
ghost use Rattle.stream_lanes.specs.Grids.{IsNewLane};

use rtrb::{Consumer, Producer, RingBuffer};
use std::alloc::{AllocError, Global};
use std::marker::Model;

/// The most buffers that wait at once to be reused. No caller needs more, and a ring of this size takes 24 KB, which
/// stay in the processor's cache.
const SPARE: usize = 1024;

/// The sending end of a lane. A contract sees which lane it belongs to, how many more frames it knows to fit, and what
/// it sent.
#[derive(Drop)]
pub struct LaneOut {
    pub(crate) producer: Producer<Vec<u8>>,
    pub(crate) back: Consumer<Vec<u8>>,
}

impl Model for LaneOut {
    ghost use Rattle.stream_lanes.specs.Ends.{OutView};
    ghost use Rattle.stream_lanes.specs.Rings.{out_view};

    ghost Value = { OutView };

    ghost view = { λ o. out_view o.producer };
}

/// The taking end of a lane. A contract sees which lane it belongs to, what it took, and what it has seen.
#[derive(Drop)]
pub struct LaneIn {
    pub(crate) consumer: Consumer<Vec<u8>>,
    pub(crate) back: Producer<Vec<u8>>,
}

impl Model for LaneIn {
    ghost use Rattle.stream_lanes.specs.Ends.{InView};
    ghost use Rattle.stream_lanes.specs.Rings.{in_view};

    ghost Value = { InView };

    ghost view = { λ i. in_view i.consumer };
}

/// Returns the ends of a lane with room for `capacity` frames. The buffers that go back have a ring of their own.
pub(crate) fn lane(alloc: Global, capacity: usize) -> Result<(LaneOut, LaneIn), AllocError>
    ensures { IfOk result (λ ends. IsNewLane capacity ends.0 ends.1) }
{
    let (producer, consumer) = RingBuffer::new(alloc, capacity)?;
    let (giving, given) = RingBuffer::new(alloc, capacity.min(SPARE))?;
    let out = LaneOut {
        producer,
        back: given,
    };
    let end = LaneIn {
        consumer,
        back: giving,
    };
    Ok((out, end))
}

impl LaneOut {
    /// Returns whether one more frame fits. It checks the other end, which makes room as it takes.
    pub fn has_room(&mut self) -> bool
        ensures lane { SameOut self.old self.new }
        ensures sent { self.new.sent ≡ self.old.sent }
        ensures kept { self.old.room ≤ self.new.room }
        ensures room { IsTrue result ↔ HasRoom self.new }
        ensures few { length self.old.sent < self.old.lane.capacity → IsTrue result }
    {
        !self.producer.is_full()
    }

    /// Sends a frame. It allocates nothing.
    pub fn send(&mut self, frame: Vec<u8>)
        requires { HasRoom self.old }
        ensures lane { SameOut self.old self.new }
        ensures sent { self.new.sent ≡ self.old.sent ++ frame.items ∷ [] }
        ensures room { self.old.room ≡ self.new.room + 1 }
    {
        self.producer.push_reserved(frame);
    }

    /// Returns a buffer that the other end gave back for reuse, if one has come. It allocates nothing.
    pub fn spare(&mut self) -> Option<Vec<u8>>
        ensures { self.new ≡ self.old }
    {
        if self.back.is_empty() {
            return None;
        }
        Some(self.back.pop_known())
    }
}

impl LaneIn {
    /// Returns the first frame that was sent and not yet taken, if one has come. It allocates nothing.
    #[tactic(auto, using(crate::proofs::Seen::begins_with_next))]
    pub fn take(&mut self) -> Option<Vec<u8>>
        ensures lane { SameIn self.old self.new }
        ensures taken { IfSome result (λ frame. self.new.taken ≡ self.old.taken ++ frame.items ∷ []) }
        ensures seen { IfSome result (λ frame. Begins self.old.seen (frame.items ∷ self.new.seen)) }
        ensures none { IfNone result ((self.new.taken ≡ self.old.taken) × (self.old.seen ≡ []) × (self.new.seen ≡ [])) }
    {
        if self.consumer.is_empty() {
            return None;
        }
        Some(self.consumer.pop_known())
    }

    /// Gives a buffer back to the other end for reuse. If the ring of such buffers is full, the buffer is dropped. It
    /// allocates nothing.
    pub fn give_back(&mut self, buffer: Vec<u8>)
        ensures { self.new ≡ self.old }
    {
        if !self.back.is_full() {
            self.back.push_reserved(buffer);
        }
    }
}
