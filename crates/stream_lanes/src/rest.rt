//! The frames left on a lane.

ghost use Rattle.std.specs.Prelude.{◌≡◌, ◌∷◌, ◌++◌, [], IfSome, IfNone};
ghost use Rattle.stream_lanes.specs.Ends.{IsLane};

use crate::ends::{LaneIn, LaneOut};
use rtrb::Consumer;
use std::marker::Model;

/// The frames that were sent on a lane and not taken, in order.
#[derive(Drop)]
pub struct Rest {
    consumer: Consumer<Vec<u8>>,
}

impl Model for Rest {
    ghost use Rattle.std.specs.Prelude.{List, ℕ};
    ghost use Rattle.stream_lanes.specs.Rings.{rest_view};

    ghost Value = { List (List ℕ) };

    ghost view = { λ r. rest_view r.consumer };
}

/// Returns the frames that were sent on a lane and not taken, when both ends are back. It allocates nothing.
pub fn drain(out: LaneOut, end: LaneIn) -> Rest
    requires { IsLane out end }
    ensures { end.taken ++ result ≡ out.sent }
{
    let LaneOut {
        mut producer,
        back: _,
    } = out;
    let LaneIn {
        mut consumer,
        back: _,
    } = end;
    consumer.slots_beside(&mut producer);
    Rest { consumer }
}

impl Rest {
    /// Returns the next frame, if there is one. It allocates nothing.
    pub fn take(&mut self) -> Option<Vec<u8>>
        ensures next { IfSome result (λ frame. self.old ≡ frame.items ∷ self.new) }
        ensures none { IfNone result ((self.old ≡ []) × (self.new ≡ [])) }
    {
        if self.consumer.cached_slots() == 0 {
            return None;
        }
        Some(self.consumer.pop_known())
    }
}
