//! A page that is not current at the end, and the first write that it lacks.

ghost use Rattle.std.specs.Prelude.{◌≡◌, ◌<◌, ◌≤◌, nat_le, length, slice_index};
ghost use Rattle.std.specs.List.{filter};
ghost use Rattle.std.specs.List.Sorted.{IsNonDecreasing};
ghost use Rattle.page_versions.specs.Index.{IsIndexOf, version_after};
ghost use Rattle.stream_check.specs.Ends.{places_missing, tick_of_place};

use crate::faults::WrongPage;
use guest_log::WriteLog;
use page_versions::PageIndex;

/// Returns the first of ascending places, if it is not after the stop, or 0.
fn first_to(places: &[u32], stop: u32) -> u32
    requires { IsNonDecreasing places.now }
    ensures { result ≡ slice_index (filter (λ place. nat_le place stop) places.now) 0 }
{
    if places.len() == 0 {
        return 0;
    }
    let first = places[0];
    if first > stop {
        return 0;
    }
    first
}

/// Returns the place of the first write that a page with this stamp lacks at the stop, or 0.
fn missing_place<W: WriteLog>(
    trace: &W,
    index: &PageIndex,
    stop: u32,
    page: u32,
    stamp: Option<u32>,
) -> u32
    requires of { IsIndexOf index.now (W.trace trace.now) }
    requires page { page < index.now.pages }
    ensures place { result ≡ slice_index (places_missing (W.trace trace.now) stop page stamp) 0 }
    ensures within { result ≤ length (W.trace trace.now).writes }
{
    // For the proof: the log describes a trace.
    let _ = trace.shape();
    first_to(index.writes_after(page, stamp.unwrap_or(0)), stop)
}

/// Returns the tick of the write at a place, or 0 if the place is 0.
pub fn tick_of<W: WriteLog>(trace: &W, place: u32) -> u64
    requires { place ≤ length (W.trace trace.now).writes }
    ensures { result ≡ tick_of_place (W.trace trace.now) place }
{
    if place == 0 {
        return 0;
    }
    trace.write(place as usize - 1).tick
}

/// Returns what is wrong with a page whose greatest stamp is not its version at the stop.
pub(crate) fn page_behind<W: WriteLog>(
    trace: &W,
    index: &PageIndex,
    stop: u32,
    page: u32,
    stamp: Option<u32>,
) -> WrongPage
    requires of { IsIndexOf index.now (W.trace trace.now) }
    requires page { page < index.now.pages }
    ensures page { result.page ≡ page }
    ensures stamp { result.stamp ≡ stamp }
    ensures wanted { result.wanted ≡ version_after (W.trace trace.now) page stop }
    ensures missing { result.missing ≡ slice_index (places_missing (W.trace trace.now) stop page stamp) 0 }
    ensures tick { result.tick ≡ tick_of_place (W.trace trace.now) result.missing }
{
    let missing = missing_place(trace, index, stop, page, stamp);
    WrongPage {
        page,
        stamp,
        wanted: index.version_after(page, stop),
        missing,
        tick: tick_of(trace, missing),
    }
}
