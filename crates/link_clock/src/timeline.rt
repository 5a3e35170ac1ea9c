//! Touches by the clock of a link.

ghost use Rattle.link_clock.specs.Links.{IsLink, touches_by};

use crate::link::Link;
use guest_log::{Timeline, Touch};

/// The last tick of a clock that is told apart from later ones, after all ticks of a trace: `2^43`.
const LAST: u64 = 8_796_093_022_208;

/// A guest's touches by the clock of a link. Reading one takes as long as the link has changes before it.
#[derive(Drop)]
pub struct LinkTimeline<'a, T> {
    timeline: &'a T,
    link: &'a Link,
    ghost is_link: { IsLink link.now },
}

impl<'a, T: Timeline> LinkTimeline<'a, T> {
    ghost use Rattle.std.specs.Prelude.{◌≡◌};

    /// Returns the touches of a timeline by the clock of a link.
    pub fn new(timeline: &'a T, link: &'a Link) -> LinkTimeline<'a, T>
        ensures timeline { result.timeline.now ≡ timeline.now }
        ensures link { result.link.now ≡ link.now }
    {
        // For the proof: a link is in range.
        let _ = link.rate();
        LinkTimeline { timeline, link }
    }
}

impl<'a, T: Timeline> Timeline for LinkTimeline<'a, T> {
    ghost touches = { λ t. touches_by t.link.now (T.touches t.timeline.now) };

    ghost pages = { λ t. T.pages t.timeline.now };

    fn page_count(&self) -> u32 {
        self.timeline.page_count()
    }

    fn touch_count(&self) -> usize {
        self.timeline.touch_count()
    }

    fn touch(&self, index: usize) -> Touch {
        // For the proof: the tick of a touch is below 2^40.
        let _ = self.timeline.touch_count();
        let touch = self.timeline.touch(index);
        Touch {
            tick: self.link.clock(touch.tick),
            page: touch.page,
        }
    }

    fn before(&self, tick: u64) -> usize {
        // For the proof: the touches are in order.
        let _ = self.timeline.touch_count();
        let first = self.link.tick_of(tick.min(LAST));
        self.timeline.before(first)
    }
}
