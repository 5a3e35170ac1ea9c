//! Pages that come without a stamp.

// `IsFirstFitting` holds of one value alone: `one_fitting_version`.

ghost use Rattle.std.specs.Prelude.{◌≡◌, ◌<◌, ◌+◌, ◌*◌, ◌^◌, ℕ, IfErr, IfOk, IfSome, IsSome, None, OnErr};
ghost use Rattle.std.specs.Prelude.{length, slice_set};
ghost use Rattle.std.specs.Option.{OnSome};
ghost use Rattle.migration_model.specs.Memory.{memory_with, page_of, put};
ghost use Rattle.migration_model.specs.Versions.{page_at};
ghost use Rattle.page_versions.specs.Index.{version_after};
ghost use Rattle.open_checks.specs.Kept.{IsKept, kept_version};
ghost use Rattle.open_checks.specs.Unstamped.{IsFirstFitting, IsFittingVersion};

use crate::differences::are_same;
use guest_log::WriteLog;
use open_traces::OpenTrace;

/// Brings a page on from a version to the first that has these bytes. If none has them up to the stop, it returns the
/// version at which it leaves the page.
fn bring_to(
    trace: &OpenTrace<'_>,
    stop: u32,
    page: u32,
    from: u32,
    bytes: &[u8],
    content: &mut [u8],
) -> Result<u32, u32>
    requires page { page < trace.now.pages }
    requires from { from ≡ version_after trace.now page from }
    requires content { content.old ≡ page_at trace.now page from }
    ensures found { IfOk result (IsFirstFitting trace.now stop page from bytes.now) }
    ensures made { IfOk result (λ version. content.new ≡ page_at trace.now page version) }
    ensures none { OnErr result ((version : ℕ) → ¬ IsFittingVersion trace.now stop page from bytes.now version) }
    ensures left { IfErr result (λ version. (version ≡ version_after trace.now page version)
        × (content.new ≡ page_at trace.now page version)) }
{
    // For the proof: `shape` promises that this is a trace.
    let _ = trace.shape();
    let mut version = from;
    while version <= stop {
        if are_same(bytes, content) {
            return Ok(version);
        }
        let next = trace.behind(page, version);
        if next == 0 {
            return Err(version);
        }
        trace.turn_page(page, version, next, content);
        version = next;
    }
    Err(version)
}

/// Brings a page on from a version to the first that has these bytes, or leaves it if none has them up to the stop.
fn turn_to(
    trace: &OpenTrace<'_>,
    stop: u32,
    page: u32,
    from: u32,
    bytes: &[u8],
    content: &mut [u8],
) -> Option<u32>
    requires page { page < trace.now.pages }
    requires from { from ≡ version_after trace.now page from }
    requires content { content.old ≡ page_at trace.now page from }
    ensures found { IfSome result (IsFirstFitting trace.now stop page from bytes.now) }
    ensures made { IfSome result (λ version. content.new ≡ page_at trace.now page version) }
    ensures none { result ≡ None → (version : ℕ) → ¬ IsFittingVersion trace.now stop page from bytes.now version }
    ensures unchanged { result ≡ None → content.new ≡ content.old }
{
    match bring_to(trace, stop, page, from, bytes, content) {
        Ok(version) => Some(version),
        Err(version) => {
            trace.turn_page(page, version, from, content);
            None
        }
    }
}

/// Brings a page in memory on from a version, as [`turn_to`] does.
fn turn_in_memory(
    trace: &OpenTrace<'_>,
    stop: u32,
    page: u32,
    from: u32,
    bytes: &[u8],
    memory: &mut [u8],
) -> Option<u32>
    requires page { page < trace.now.pages }
    requires from { from ≡ version_after trace.now page from }
    requires memory { length memory.old ≡ trace.now.pages * 2 ^ trace.now.shift }
    requires content { page_of (memory_with trace.now.shift trace.now.pages memory.old) page
        ≡ page_at trace.now page from }
    ensures found { IfSome result (IsFirstFitting trace.now stop page from bytes.now) }
    ensures made { IfSome result (λ version. memory.new ≡ put memory.old (page * 2 ^ trace.now.shift)
        (page_at trace.now page version)) }
    ensures none { result ≡ None → (version : ℕ) → ¬ IsFittingVersion trace.now stop page from bytes.now version }
    ensures unchanged { result ≡ None → memory.new ≡ memory.old }
{
    let size = trace.shape().page_size();
    let (_, rest) = memory.split_at_mut(page as usize * size);
    let (content, _) = rest.split_at_mut(size);
    turn_to(trace, stop, page, from, bytes, content)
}

/// Takes a page that comes without a stamp, if it has the bytes of one of its versions: not of an earlier one than that
/// in memory, nor of one behind the first `stop` writes. Returns the least of these, at which memory then has the page.
/// If there is none, nothing changes.
pub fn take_bytes(
    trace: &OpenTrace<'_>,
    stop: u32,
    page: u32,
    bytes: &[u8],
    greatest: &mut [u32],
    memory: &mut [u8],
) -> Option<u32>
    requires page { page < trace.now.pages }
    requires kept { IsKept trace.now greatest.old memory.old }
    ensures found { IfSome result (IsFirstFitting trace.now stop page (kept_version greatest.old page) bytes.now) }
    ensures none { result ≡ None → (version : ℕ)
        → ¬ IsFittingVersion trace.now stop page (kept_version greatest.old page) bytes.now version }
    ensures only { (version : ℕ)
        → IsFittingVersion trace.now stop page (kept_version greatest.old page) bytes.now version → IsSome result }
    ensures words { IfSome result (λ version. greatest.new ≡ slice_set greatest.old page (version + 1)) }
    ensures memory { OnSome result (memory.new ≡ put memory.old (page * 2 ^ trace.now.shift) bytes.now) }
    ensures unchanged { result ≡ None → (greatest.new ≡ greatest.old) × (memory.new ≡ memory.old) }
    ensures kept { IsKept trace.now greatest.new memory.new }
{
    // For the proof: `shape` promises that this is a trace.
    let _ = trace.shape();
    let from = greatest[page as usize].saturating_sub(1);
    match turn_in_memory(trace, stop, page, from, bytes, memory) {
        Some(version) => {
            greatest[page as usize] = version + 1;
            Some(version)
        }
        None => None,
    }
}
