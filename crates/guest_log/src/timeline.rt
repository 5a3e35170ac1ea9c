//! When pages are written, without the bytes.

// `ArePlacedBefore` holds of one value alone: `one_count_before`.

ghost use Rattle.std.specs.Prelude.{◌≡◌, ◌<◌, ◌≤◌, ◌^◌, ℕ, List, length, slice_index_or};
ghost use Rattle.migration_model.specs.Touches.{ArePlacedBefore, AreTouches, GuestTouch, last_tick_of, no_touch};

use std::marker::Model;

/// When a write was, in ticks, and to which page.
#[derive(Clone, Copy, Debug)]
pub struct Touch {
    /// The tick of the write.
    pub tick: u64,
    /// The page that it writes to.
    pub page: u32,
}

impl Model for Touch {
    ghost use Rattle.migration_model.specs.Touches.{GuestTouch, touch_with};

    ghost Value = { GuestTouch };

    ghost view = { λ t. touch_with t.tick t.page };

    ghost inverse = { λ t. record { tick = t.tick; page = t.page } };
}

/// Reads when each page of a guest was written: all that working sets and rounds need.
pub trait Timeline {
    // The touches in order.
    ghost touches: { Self → List GuestTouch };

    // How many pages the guest has.
    ghost pages: { Self → ℕ };

    /// Returns how many pages the guest has.
    fn page_count(&self) -> u32
        ensures pages { result ≡ pages self.now }
        ensures some { 1 ≤ result }
        ensures few { result ≤ 65_536 };

    /// Returns how many touches there are.
    fn touch_count(&self) -> usize
        ensures count { result ≡ length (touches self.now) }
        ensures fits { AreTouches (pages self.now) (touches self.now) };

    /// Returns touch `index`. The first has index 0.
    fn touch(&self, index: usize) -> Touch
        requires { index < length (touches self.now) }
        ensures { result ≡ slice_index_or (touches self.now) index no_touch };

    /// Returns how many touches there are before a tick, by binary search.
    fn before(&self, tick: u64) -> usize
        ensures bound { result ≤ length (touches self.now) }
        ensures point { ArePlacedBefore (touches self.now) tick result };
}

/// Returns the tick of the last touch, or 0 if there is none.
pub fn last_tick<T: Timeline>(timeline: &T) -> u64
    ensures value { result ≡ last_tick_of (T.touches timeline.now) }
    ensures low { result < 2 ^ 40 }
{
    match timeline.touch_count() {
        0 => 0,
        count => timeline.touch(count - 1).tick,
    }
}
