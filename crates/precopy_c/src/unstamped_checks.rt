//! Checks onto memory as it was before a tick, pages that come without a stamp, and memory at the end, over a trace
//! that stays open.

// `Spells`, and so `Shows`, holds of one value alone: `one_trace`. `IsFirstFitting` does: `one_fitting_version`.
// `IsFirstWrongByte` does: `one_wrong_byte`.

ghost use Rattle.std.specs.Prelude.{◌≡◌, ◌≢◌, ◌^◌, ℕ, length};
ghost use Rattle.migration_model.specs.Memory.{image_after, image_before};
ghost use Rattle.migration_model.specs.Trace.{GuestTrace};
ghost use Rattle.open_checks.specs.Kept.{kept_version, words_at};
ghost use Rattle.open_checks.specs.Unstamped.{IsFittingVersion};
ghost use Rattle.c_answers.specs.Memories.{writes_before};
ghost use Rattle.c_answers.specs.OpenPieces.{KeepsPages};
ghost use Rattle.c_answers.specs.Opened.{IsOpened, Shows};
ghost use Rattle.c_answers.specs.Unstamped.{FitsPage, FitsWords, RefusesBytes, RefusesMemory, RefusesWords};
ghost use Rattle.c_answers.specs.Unstamped.{TakesBytes, found_unstamped, number_of_unstamped};
ghost use Rattle.c_answers.specs.declared.unstamped.UnstampedRefusal.{UnstampedRefusal as Refusal};

use c_answers::checking::StreamFinding;
use c_answers::opened::TraceHandle;
use c_answers::unstamped::{begin_before, take_open_bytes, test_open_memory};

/// Begins a check onto a destination that has the memory before a tick: sets `memory` to it, and each word to the
/// page's version there, plus 1. What both held before is lost. It allocates nothing.
#[unsafe(no_mangle)]
pub extern "C" fn precopy_trace_check_base(
    trace: &TraceHandle<'_>,
    tick: u64,
    greatest: &mut [u32],
    memory: &mut [u8],
) -> u32
    requires { IsOpened trace.now }
    ensures made { result ≡ 0 → (t : GuestTrace) × Shows trace.now t × FitsWords t greatest.old memory.old
        × (greatest.new ≡ words_at t (writes_before t tick)) × (memory.new ≡ (image_before t tick).bytes) }
    ensures refused { result ≢ 0 → (t : GuestTrace) × Shows trace.now t × (refusal : Refusal)
        × (result ≡ number_of_unstamped refusal) × RefusesWords t greatest.old memory.old refusal }
    ensures only { (t : GuestTrace) → Shows trace.now t → FitsWords t greatest.old memory.old → result ≡ 0 }
    ensures unchanged { result ≢ 0 → (greatest.new ≡ greatest.old) × (memory.new ≡ memory.old) }
    ensures kept { (t : GuestTrace) → Shows trace.now t → KeepsPages t greatest.new memory.new }
{
    match begin_before(&trace.opened(), tick, greatest, memory) {
        Ok(()) => 0,
        Err(refusal) => refusal.number(),
    }
}

/// Checks a page that comes without a stamp: it is right if it has the bytes of one of its versions, not of an earlier
/// one than memory has, nor of one behind the first `stop` writes. The least of these is then kept, and memory has the
/// bytes. If there is none, nothing changes. It allocates nothing.
#[unsafe(no_mangle)]
pub extern "C" fn precopy_trace_check_bytes(
    trace: &TraceHandle<'_>,
    stop: u32,
    page: u32,
    content: &[u8],
    greatest: &mut [u32],
    memory: &mut [u8],
) -> u32
    requires trace { IsOpened trace.now }
    requires kept { (t : GuestTrace) → Shows trace.now t → KeepsPages t greatest.old memory.old }
    ensures taken { result ≡ 0 → (t : GuestTrace) × Shows trace.now t
        × TakesBytes t stop page content.now greatest.old memory.old greatest.new memory.new }
    ensures refused { result ≢ 0 → (t : GuestTrace) × Shows trace.now t × (refusal : Refusal)
        × (result ≡ number_of_unstamped refusal)
        × RefusesBytes t stop page content.now greatest.old memory.old refusal }
    ensures only { (t : GuestTrace) (version : ℕ) → Shows trace.now t
        → FitsPage t page content.now greatest.old memory.old
        → IsFittingVersion t stop page (kept_version greatest.old page) content.now version → result ≡ 0 }
    ensures unchanged { result ≢ 0 → (greatest.new ≡ greatest.old) × (memory.new ≡ memory.old) }
    ensures kept { (t : GuestTrace) → Shows trace.now t → KeepsPages t greatest.new memory.new }
{
    match take_open_bytes(&trace.opened(), stop, page, content, greatest, memory) {
        Ok(()) => 0,
        Err(refusal) => refusal.number(),
    }
}

/// Compares memory with that after the first `count` writes, in room for a page, which is written over. If they differ,
/// it returns the number of that and sets `found` to the first byte that does. It allocates nothing.
#[unsafe(no_mangle)]
pub extern "C" fn precopy_trace_differs(
    trace: &TraceHandle<'_>,
    count: u32,
    memory: &[u8],
    room: &mut [u8],
    found: &mut StreamFinding,
) -> u32
    requires { IsOpened trace.now }
    ensures same { result ≡ 0 → (t : GuestTrace) × Shows trace.now t × (length room.old ≡ 2 ^ t.shift)
        × (memory.now ≡ (image_after t count).bytes) × (found.new ≡ found.old) }
    ensures refused { result ≢ 0 → (t : GuestTrace) × Shows trace.now t × (refusal : Refusal)
        × (result ≡ number_of_unstamped refusal) × RefusesMemory t count memory.now (length room.old) refusal
        × (found.new ≡ found_unstamped refusal found.old) }
    ensures only { (t : GuestTrace) → Shows trace.now t → length room.old ≡ 2 ^ t.shift
        → memory.now ≡ (image_after t count).bytes → result ≡ 0 }
{
    match test_open_memory(&trace.opened(), count, memory, room) {
        Ok(()) => 0,
        Err(refusal) => refusal.told(found),
    }
}
