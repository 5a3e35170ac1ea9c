//! Checks onto memory as it was before a tick, pages that come without a stamp, and memory at the end, over a trace
//! that stays open.

// `IsFirstFitting` holds of one value alone: `one_fitting_version`, and `IsFirstWrongByte` does: `one_wrong_byte`.

ghost use Rattle.std.specs.Prelude.{◌≡◌, ◌^◌, ℕ, IfErr, IsOk, OnErr, OnOk, length};
ghost use Rattle.migration_model.specs.Memory.{image_after, image_before};
ghost use Rattle.open_checks.specs.Kept.{kept_version, words_at};
ghost use Rattle.open_checks.specs.Unstamped.{IsFittingVersion};
ghost use Rattle.c_answers.specs.Memories.{writes_before};
ghost use Rattle.c_answers.specs.OpenPieces.{KeepsPages};
ghost use Rattle.c_answers.specs.Unstamped.{FitsPage, FitsWords, RefusesBytes, RefusesMemory, RefusesWords};
ghost use Rattle.c_answers.specs.Unstamped.{TakesBytes, byte_finding};
ghost use Rattle.c_answers.specs.declared.unstamped.UnstampedRefusal.TheVariants.{Byte as OfByte};

use crate::answers::Refusal;
use crate::checking::{StreamFinding, cause_number, stamp_number};
use crate::open_answers::{open_count_before, open_replay_before};
use crate::place_answers::PlaceRefusal;
use open_checks::{WrongByte, put_words, take_bytes, test_memory};
use open_traces::OpenTrace;
use stream_check::FrameCause;
use trace_codec::WriteLog;

/// Why such a check refuses, or what it finds wrong.
#[derive(Clone, Copy)]
pub enum UnstampedRefusal {
    /// There are not as many bytes of memory as all pages have.
    MemoryLength,
    /// There is not a word for each page.
    PageCount,
    /// The guest does not have the page.
    NoPage,
    /// The number of bytes is not that of a page.
    PageLength,
    /// The page has these bytes at no version that it may come at.
    OtherBytes,
    /// A byte of memory is wrong.
    Byte(WrongByte),
}

impl From<WrongByte> for UnstampedRefusal {
    ghost from_gives = { λ e r. r ≡ OfByte e };

    fn from(found: WrongByte) -> UnstampedRefusal {
        UnstampedRefusal::Byte(found)
    }
}

/// Returns a wrong byte as C sees it.
fn finding_of_byte(found: &WrongByte) -> StreamFinding
    ensures { result ≡ byte_finding found.now }
{
    StreamFinding {
        stream: 0,
        frame: 0,
        offset: found.offset,
        tick: found.tick,
        page: found.page,
        stamp: 0,
        wanted: found.version,
        missing: found.place,
    }
}

impl UnstampedRefusal {
    ghost use Rattle.std.specs.Prelude.{◌≡◌, ◌≤◌};
    ghost use Rattle.c_answers.specs.Unstamped.{found_unstamped, number_of_unstamped};

    /// Returns the number that C sees.
    pub fn number(self) -> u32
        ensures number { result ≡ number_of_unstamped self }
        ensures some { 1 ≤ result }
    {
        match self {
            UnstampedRefusal::MemoryLength => Refusal::MemoryLength.number(),
            UnstampedRefusal::PageCount => Refusal::PageCount.number(),
            UnstampedRefusal::NoPage => PlaceRefusal::NoPage.number(),
            UnstampedRefusal::PageLength => Refusal::PageLength.number(),
            UnstampedRefusal::OtherBytes => cause_number(FrameCause::Bytes),
            UnstampedRefusal::Byte(wrong) => stamp_number(Some(wrong.version)),
        }
    }

    /// Tells C of this refusal: sets `found` to what is wrong. It returns the number of the refusal.
    pub fn told(self, found: &mut StreamFinding) -> u32
        ensures number { result ≡ number_of_unstamped self }
        ensures some { 1 ≤ result }
        ensures found { found.new ≡ found_unstamped self found.old }
    {
        match self {
            UnstampedRefusal::Byte(wrong) => {
                *found = finding_of_byte(&wrong);
                self.number()
            }
            other => other.number(),
        }
    }
}

/// Begins a check onto memory as it was before a tick: makes this memory, and the word of each page's version in it.
pub fn begin_before(
    trace: &OpenTrace<'_>,
    tick: u64,
    greatest: &mut [u32],
    memory: &mut [u8],
) -> Result<(), UnstampedRefusal>
    ensures fits { OnOk result (FitsWords trace.now greatest.old memory.old) }
    ensures words { OnOk result (greatest.new ≡ words_at trace.now (writes_before trace.now tick)) }
    ensures memory { OnOk result (memory.new ≡ (image_before trace.now tick).bytes) }
    ensures refused { IfErr result (RefusesWords trace.now greatest.old memory.old) }
    ensures only { FitsWords trace.now greatest.old memory.old → IsOk result }
    ensures unchanged { OnErr result ((greatest.new ≡ greatest.old) × (memory.new ≡ memory.old)) }
    ensures kept { KeepsPages trace.now greatest.new memory.new }
{
    let shape = trace.shape();
    let pages = shape.pages as usize;
    if memory.len() != pages * shape.page_size() {
        return Err(UnstampedRefusal::MemoryLength);
    }
    if greatest.len() != pages {
        return Err(UnstampedRefusal::PageCount);
    }
    let count = open_count_before(trace, tick);
    put_words(trace, count, greatest);
    open_replay_before(trace, tick, memory);
    Ok(())
}

/// Tests that there are as many bytes of memory as all pages have and a word for each page, that the page is one of the
/// guest, and that it has as many bytes as one has.
fn test_page(
    trace: &OpenTrace<'_>,
    stop: u32,
    page: u32,
    content: &[u8],
    greatest: &[u32],
    memory: &[u8],
) -> Result<(), UnstampedRefusal>
    ensures fits { OnOk result (FitsPage trace.now page content.now greatest.now memory.now) }
    ensures refused { IfErr result (RefusesBytes trace.now stop page content.now greatest.now memory.now) }
    ensures only { FitsPage trace.now page content.now greatest.now memory.now → IsOk result }
{
    let shape = trace.shape();
    let pages = shape.pages as usize;
    let size = shape.page_size();
    if memory.len() != pages * size {
        return Err(UnstampedRefusal::MemoryLength);
    }
    if greatest.len() != pages {
        return Err(UnstampedRefusal::PageCount);
    }
    if page >= shape.pages {
        return Err(UnstampedRefusal::NoPage);
    }
    if content.len() != size {
        return Err(UnstampedRefusal::PageLength);
    }
    Ok(())
}

/// Takes a page that comes without a stamp, if it has the bytes of one of its versions.
pub fn take_open_bytes(
    trace: &OpenTrace<'_>,
    stop: u32,
    page: u32,
    content: &[u8],
    greatest: &mut [u32],
    memory: &mut [u8],
) -> Result<(), UnstampedRefusal>
    requires { KeepsPages trace.now greatest.old memory.old }
    ensures taken { OnOk result (TakesBytes trace.now stop page content.now greatest.old memory.old greatest.new
        memory.new) }
    ensures refused { IfErr result (RefusesBytes trace.now stop page content.now greatest.old memory.old) }
    ensures unchanged { OnErr result ((greatest.new ≡ greatest.old) × (memory.new ≡ memory.old)) }
    ensures only { (version : ℕ) → FitsPage trace.now page content.now greatest.old memory.old
        → IsFittingVersion trace.now stop page (kept_version greatest.old page) content.now version → IsOk result }
    ensures kept { KeepsPages trace.now greatest.new memory.new }
{
    test_page(trace, stop, page, content, greatest, memory)?;
    match take_bytes(trace, stop, page, content, greatest, memory) {
        Some(_) => Ok(()),
        None => Err(UnstampedRefusal::OtherBytes),
    }
}

/// Tests that memory is that after the first `count` writes, in room for a page.
pub fn test_open_memory(
    trace: &OpenTrace<'_>,
    count: u32,
    memory: &[u8],
    room: &mut [u8],
) -> Result<(), UnstampedRefusal>
    ensures same { OnOk result (memory.now ≡ (image_after trace.now count).bytes) }
    ensures room { OnOk result (length room.old ≡ 2 ^ trace.now.shift) }
    ensures refused { IfErr result (RefusesMemory trace.now count memory.now (length room.old)) }
    ensures only { memory.now ≡ (image_after trace.now count).bytes → length room.old ≡ 2 ^ trace.now.shift
        → IsOk result }
{
    let shape = trace.shape();
    let size = shape.page_size();
    if memory.len() != shape.pages as usize * size {
        return Err(UnstampedRefusal::MemoryLength);
    }
    if room.len() != size {
        return Err(UnstampedRefusal::PageLength);
    }
    Ok(test_memory(trace, count, memory, room)?)
}
