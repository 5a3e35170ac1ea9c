//! When the writes of a trace were, in room that is lent.

ghost use Rattle.std.specs.Prelude.{◌≡◌, ◌≤◌, length, map, nat_lt, take};
ghost use Rattle.migration_model.specs.Touches.{touches_of};
ghost use Rattle.browser_planner.specs.Touches.{touch_in};

use guest_log::{Timeline, Touch};
use std::marker::Model;
use trace_codec::TraceView;

/// When a write was, in ticks, and to which page: 16 bytes of room.
#[derive(Clone, Copy)]
#[repr(C)]
pub struct LentTouch {
    /// The tick of the write.
    pub tick: u64,
    /// The page that it writes to.
    pub page: u32,
}

/// Writes the touches of a trace over the front of some room.
pub(crate) fn put_touches(trace: &TraceView<'_>, room: &mut [LentTouch])
    requires { length trace.now.writes ≤ length room.old }
    ensures touches { map touch_in (take (length trace.now.writes) room.new) ≡ touches_of trace.now }
    ensures len { length room.new ≡ length room.old }
{
    let mut count = 0usize;
    for write in trace.records() {
        room[count] = LentTouch {
            tick: write.tick,
            page: write.page,
        };
        count += 1;
    }
}

/// The touches of a trace, in room that is lent.
#[derive(Drop)]
pub(crate) struct LentLog<'a> {
    pages: u32,
    touches: &'a [LentTouch],
}

impl<'a> Model for LentLog<'a> {
    ghost use Rattle.std.specs.Prelude.{map};
    ghost use Rattle.browser_planner.specs.Touches.{IsTimeline, LentTimeline, timeline_with, touch_in};

    ghost Value = { LentTimeline };

    ghost view = { λ l. timeline_with l.pages (map touch_in l.touches.now) };

    ghost invariant = { λ l. IsTimeline l.pages (map touch_in l.touches.now) };
}

impl<'a> LentLog<'a> {
    ghost use Rattle.std.specs.Prelude.{◌≡◌, ◌≤◌, length, map, take};
    ghost use Rattle.migration_model.specs.Touches.{touches_of};
    ghost use Rattle.browser_planner.specs.Touches.{timeline_with, touch_in};

    /// Returns the touches of a trace, which are at the front of some room.
    pub(crate) fn of(trace: &TraceView<'_>, room: &'a [LentTouch]) -> LentLog<'a>
        requires len { length trace.now.writes ≤ length room.now }
        requires touches { map touch_in (take (length trace.now.writes) room.now) ≡ touches_of trace.now }
        ensures { result ≡ timeline_with trace.now.pages (touches_of trace.now) }
    {
        let shape = trace.shape();
        let (touches, _) = room.split_at(shape.writes as usize);
        LentLog {
            pages: shape.pages,
            touches,
        }
    }
}

impl<'a> Timeline for LentLog<'a> {
    ghost touches = { λ l. l.touches };

    ghost pages = { λ l. l.pages };

    fn page_count(&self) -> u32 {
        self.pages
    }

    fn touch_count(&self) -> usize {
        self.touches.len()
    }

    fn touch(&self, index: usize) -> Touch {
        let touches = self.touches;
        let touch = touches[index];
        Touch {
            tick: touch.tick,
            page: touch.page,
        }
    }

    fn before(&self, tick: u64) -> usize {
        self.touches.partition_point(
            |touch: &LentTouch| -> bool
                ensures { result ≡ nat_lt touch.now.tick tick }
            { touch.tick < tick },
        )
    }
}
