//! The plan of a hypervisor over a link whose rate changes.

// `AreLinkSums` holds of one value alone: `one_set_of_link_sums`.

ghost use Rattle.std.specs.Prelude.{◌≡◌, ◌≤◌, ◌^◌, IfSome, length};
ghost use Rattle.std.specs.Option.{option_map};
ghost use Rattle.page_bitmap.specs.Listing.{word_count};
ghost use Rattle.migration_model.specs.Looks.{AreHypervisorSettings};
ghost use Rattle.link_clock.specs.Links.{IsLink, clock_at};
ghost use Rattle.link_clock.specs.Plans.{AreByTicks, AreLinkSums, settings_by};

use crate::link::Link;
use crate::timeline::LinkTimeline;
use guest_log::Timeline;
use look_planner::{LookAsked, LookSettings, LookSums, look_sums};

/// Returns what the clock of a link shows at the base, if there is one.
fn base_by(link: &Link, base: Option<u64>) -> Option<u64>
    requires { IfSome base (λ tick. tick ≤ 2 ^ 43) }
    ensures { result ≡ option_map (clock_at link.now) base }
{
    match base {
        Some(tick) => Some(link.clock(tick)),
        None => None,
    }
}

/// Returns settings by the clock of a link, whose rate takes the place of theirs.
fn by_clock(link: &Link, settings: &LookSettings) -> LookSettings
    ensures value { result ≡ settings_by link.now settings.now }
    ensures is_link { IsLink link.now }
    ensures in_range { AreHypervisorSettings settings.now }
{
    let asked = settings.asked();
    let by_clock = LookAsked {
        start: link.clock(asked.start),
        base: base_by(link, asked.base),
        rate: link.rate(),
        window: asked.window,
        threshold: asked.threshold,
        looks: asked.looks,
        end: link.clock(asked.end),
    };
    let Ok(settings) = LookSettings::new(by_clock) else {
        unreachable!()
    };
    settings
}

/// Returns sums by the clock of a link as sums by ticks.
fn by_ticks(link: &Link, sums: &LookSums) -> LookSums
    requires early { sums.now.stop ≤ clock_at link.now (2 ^ 40) }
    requires few { sums.now.left ≤ 65_536 }
    ensures { AreByTicks link.now sums.now result }
{
    // For the proof: the link is in range.
    let _ = link.rate();
    let stop = link.tick_of(sums.stop);
    let sent = link.sent_before(stop) + 1000 * sums.left;
    LookSums {
        stop,
        down: link.when_sent(sent) - stop,
        ..*sums
    }
}

/// Returns the sums of the plan of a hypervisor over a link, whose rate takes the place of that of the settings. Their
/// ticks are those of the trace, but the window is of the link's clock, and the threshold is one number of pages: that
/// which the lowest rate sends within the downtime keeps it at each.
///
/// It allocates nothing: the caller lends a bit of `marks` and a slot of `room` for each page. What they hold does not
/// matter. It costs what `look_sums` costs, and for each touch as much as the link has changes.
pub fn link_sums<T: Timeline>(
    timeline: &T,
    link: &Link,
    settings: &LookSettings,
    marks: &mut [u64],
    room: &mut [u32],
) -> LookSums
    requires marks { length marks.old ≡ word_count (T.pages timeline.now) }
    requires room { length room.old ≡ T.pages timeline.now }
    ensures { AreLinkSums (T.pages timeline.now) (T.touches timeline.now) link.now settings.now result }
{
    let by_link = LinkTimeline::new(timeline, link);
    // For the proof: a guest has at most 65,536 pages.
    let _ = by_link.page_count();
    let sums = look_sums(&by_link, &by_clock(link, settings), marks, room);
    by_ticks(link, &sums)
}
