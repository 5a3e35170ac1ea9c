//! The pages at the end of all streams.

// `IsFirstBehind` holds of one value alone: `one_wrong_page`.

ghost use Rattle.std.specs.Prelude.{◌≡◌, ◌↔◌, ◌<◌, ◌≤◌, ◌-◌, IfErr, IsTrue, OnOk, Some, length, slice_index};
ghost use Rattle.page_versions.specs.Index.{version_after};
ghost use Rattle.stream_check.specs.Ends.{AreCurrentStamps, IsFirstBehind, places_missing, tick_of_place};
ghost use Rattle.open_checks.specs.Kept.{AreVersions, stamp_in, stamps_in};

use crate::stamps::stamp_of;
use guest_log::WriteLog;
use open_traces::OpenTrace;
use stream_check::{WrongPage, tick_of};

/// Returns whether a page with this word came at its version at the stop. It looks at the next write to the page alone.
fn is_current(trace: &OpenTrace<'_>, stop: u32, page: u32, word: u32) -> bool
    requires page { page < trace.now.pages }
    requires version { word - 1 ≡ version_after trace.now page (word - 1) }
    ensures { IsTrue result ↔ (stamp_in word ≡ Some (version_after trace.now page stop)) }
{
    word != 0 && trace.is_version_after(page, word - 1, stop)
}

/// Returns the place of the first write that a page with this word lacks at the stop, or 0.
fn missing_place(trace: &OpenTrace<'_>, stop: u32, page: u32, word: u32) -> u32
    requires page { page < trace.now.pages }
    requires version { word - 1 ≡ version_after trace.now page (word - 1) }
    ensures place { result ≡ slice_index (places_missing trace.now stop page (stamp_in word)) 0 }
    ensures within { result ≤ length trace.now.writes }
{
    let next = trace.behind(page, word.saturating_sub(1));
    if next > stop {
        return 0;
    }
    next
}

/// Returns what is wrong with a page with this word, which is not its version at the stop.
fn page_behind(trace: &OpenTrace<'_>, stop: u32, page: u32, word: u32) -> WrongPage
    requires page { page < trace.now.pages }
    requires version { word - 1 ≡ version_after trace.now page (word - 1) }
    ensures page { result.page ≡ page }
    ensures stamp { result.stamp ≡ stamp_in word }
    ensures wanted { result.wanted ≡ version_after trace.now page stop }
    ensures missing { result.missing ≡ slice_index (places_missing trace.now stop page (stamp_in word)) 0 }
    ensures tick { result.tick ≡ tick_of_place trace.now result.missing }
{
    let missing = missing_place(trace, stop, page, word);
    WrongPage {
        page,
        stamp: stamp_of(word),
        wanted: trace.version_after(page, stop),
        missing,
        tick: tick_of(trace, missing),
    }
}

/// Tests, at the end of all streams, that each page came at its version at the stop. It looks at one write of each.
pub fn test_pages(trace: &OpenTrace<'_>, stop: u32, greatest: &[u32]) -> Result<(), WrongPage>
    requires words { length greatest.now ≡ trace.now.pages }
    requires versions { AreVersions trace.now greatest.now }
    ensures current { OnOk result (AreCurrentStamps trace.now stop (stamps_in greatest.now)) }
    ensures behind { IfErr result (IsFirstBehind trace.now stop (stamps_in greatest.now)) }
{
    for page in 0..trace.shape().pages {
        let word = greatest[page as usize];
        if !is_current(trace, stop, page, word) {
            return Err(page_behind(trace, stop, page, word));
        }
    }
    Ok(())
}
