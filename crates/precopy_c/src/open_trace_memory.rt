//! Traces that stay open between calls: memory, versions of pages, and the writes to a page.

// `Refuses` holds of one value alone: `TraceView::parse: first`.
// `Spells`, and so `Shows`, holds of one value alone: `one_trace`.

ghost use Rattle.std.specs.Prelude.{◌≡◌, ◌≢◌, ◌<◌, ◌⊎◌, ◌≤◌, ◌^◌, length};
ghost use Rattle.migration_model.specs.Memory.{image_after, image_before};
ghost use Rattle.migration_model.specs.Trace.{GuestTrace, Spells};
ghost use Rattle.migration_model.specs.Versions.{page_at};
ghost use Rattle.trace_codec.specs.Refusals.{Refuses};
ghost use Rattle.trace_codec.specs.declared.error.TraceError.{TraceError};
ghost use Rattle.page_versions.specs.Index.{version_after as version_at};
ghost use Rattle.open_traces.specs.Index.{index_length as length_of_index, versions_at};
ghost use Rattle.c_layout.specs.Refusals.{number_of_trace, record_after};
ghost use Rattle.c_answers.specs.Buffers.{over};
ghost use Rattle.c_answers.specs.Memories.{memory_length, writes_before};
ghost use Rattle.c_answers.specs.Opened.{IsOpened, Shows, IsNumberOfPlace, LacksVersion};
ghost use Rattle.c_answers.specs.Places.{IsStep, IsVersion, RefusesStep, rows_of};

use c_answers::answers::Refusal;
use c_answers::memory_steps::answer_step;
use c_answers::open_answers::{
    answer_open_memory, answer_open_page, answer_open_versions, open_count_before,
};
use c_answers::opened::TraceHandle;
use c_answers::page_writes::{PageWrite, count_writes, put_writes};
use c_answers::place_answers::PlaceRefusal;
use c_layout::refuse_trace;
use open_traces::{index_length, put_index};
use trace_codec::{TraceView, WriteLog};

/// Tests the bytes of a trace, makes its index over the front of lent words, and sets `trace` to a handle of both. It
/// sets `needed` to the number of words; if there are fewer, it sets only that. It allocates nothing.
#[unsafe(no_mangle)]
pub extern "C" fn precopy_trace_open<'a>(
    bytes: &'a [u8],
    words: &'a mut [u32],
    trace: &mut TraceHandle<'a>,
    needed: &mut usize,
    record: &mut u32,
) -> u32
    ensures made { result ≡ 0 → (t : GuestTrace) × Spells bytes.now t × Shows trace.new t
        × (needed.new ≡ length_of_index t) }
    ensures short { result ≡ 61 → (t : GuestTrace) × Spells bytes.now t × (needed.new ≡ length_of_index t)
        × (length words.old < needed.new) }
    ensures refused { result ≢ 0 → result ≢ 61 → (e : TraceError) × Refuses bytes.now e × (result ≡ number_of_trace e)
        × (needed.new ≡ needed.old) × (record.new ≡ record_after e record.old) }
    ensures not_told { (result ≡ 0) ⊎ (result ≡ 61) → record.new ≡ record.old }
    ensures only { (t : GuestTrace) → Spells bytes.now t → (result ≡ 0) ⊎ (result ≡ 61) }
    ensures unchanged { result ≢ 0 → trace.new ≡ trace.old }
{
    match TraceView::parse(bytes) {
        Ok(view) => {
            let count = index_length(&view);
            *needed = count;
            if words.len() < count {
                return Refusal::ShortBuffer.number();
            }
            let (front, _) = words.split_at_mut(count);
            put_index(&view, front);
            *trace = TraceHandle::of(&view, bytes, front);
            0
        }
        Err(error) => refuse_trace(error, record),
    }
}

/// Sets `count` to the number of writes before a tick: after so many writes memory is as before the tick.
#[unsafe(no_mangle)]
pub extern "C" fn precopy_trace_writes_before(
    trace: &TraceHandle<'_>,
    tick: u64,
    count: &mut u32,
) -> u32
    requires { IsOpened trace.now }
    ensures found { result ≡ 0 → (t : GuestTrace) × Shows trace.now t × (count.new ≡ writes_before t tick)
        × (image_after t count.new ≡ image_before t tick) }
    ensures only { (t : GuestTrace) → Shows trace.now t → result ≡ 0 }
    ensures status { result ≡ 0 }
{
    *count = open_count_before(&trace.opened(), tick);
    0
}

/// Writes the memory after the writes before a tick, page after page, over the front of a buffer, and sets `needed` to
/// its length. If the buffer is too short, it sets only that. It allocates nothing.
#[unsafe(no_mangle)]
pub extern "C" fn precopy_trace_memory_before(
    trace: &TraceHandle<'_>,
    tick: u64,
    memory: &mut [u8],
    needed: &mut usize,
) -> u32
    requires { IsOpened trace.now }
    ensures made { result ≡ 0 → (t : GuestTrace) × Shows trace.now t × (needed.new ≡ memory_length t)
        × (memory.new ≡ over (image_before t tick).bytes memory.old) }
    ensures short { result ≢ 0 → (t : GuestTrace) × Shows trace.now t × (result ≡ 61) × (needed.new ≡ memory_length t)
        × (length memory.old < needed.new) }
    ensures only { (t : GuestTrace) → Shows trace.now t → (result ≡ 0) ⊎ (result ≡ 61) }
    ensures unchanged { result ≢ 0 → memory.new ≡ memory.old }
{
    match answer_open_memory(&trace.opened(), tick, memory, needed) {
        Ok(()) => 0,
        Err(refusal) => refusal.number(),
    }
}

/// Writes the versions of all pages after the first `count` writes, page by page, over the front of a buffer, and sets
/// `needed` to their number. If the buffer is too short, it sets only that. It allocates nothing.
#[unsafe(no_mangle)]
pub extern "C" fn precopy_trace_versions_after(
    trace: &TraceHandle<'_>,
    count: u32,
    versions: &mut [u32],
    needed: &mut usize,
) -> u32
    requires { IsOpened trace.now }
    ensures made { result ≡ 0 → (t : GuestTrace) × Shows trace.now t × (needed.new ≡ t.pages)
        × (versions.new ≡ over (versions_at t count) versions.old) }
    ensures short { result ≢ 0 → (t : GuestTrace) × Shows trace.now t × (result ≡ 61) × (needed.new ≡ t.pages)
        × (length versions.old < needed.new) }
    ensures only { (t : GuestTrace) → Shows trace.now t → (result ≡ 0) ⊎ (result ≡ 61) }
    ensures unchanged { result ≢ 0 → versions.new ≡ versions.old }
{
    match answer_open_versions(&trace.opened(), count, versions, needed) {
        Ok(()) => 0,
        Err(refusal) => refusal.number(),
    }
}

/// Writes the versions of all pages after the writes before a tick, as [`precopy_trace_versions_after`] does after a
/// number of writes.
#[unsafe(no_mangle)]
pub extern "C" fn precopy_trace_versions_before(
    trace: &TraceHandle<'_>,
    tick: u64,
    versions: &mut [u32],
    needed: &mut usize,
) -> u32
    requires { IsOpened trace.now }
    ensures made { result ≡ 0 → (t : GuestTrace) × Shows trace.now t × (needed.new ≡ t.pages)
        × (versions.new ≡ over (versions_at t (writes_before t tick)) versions.old) }
    ensures short { result ≢ 0 → (t : GuestTrace) × Shows trace.now t × (result ≡ 61) × (needed.new ≡ t.pages)
        × (length versions.old < needed.new) }
    ensures only { (t : GuestTrace) → Shows trace.now t → (result ≡ 0) ⊎ (result ≡ 61) }
    ensures unchanged { result ≢ 0 → versions.new ≡ versions.old }
{
    let opened = trace.opened();
    let count = open_count_before(&opened, tick);
    match answer_open_versions(&opened, count, versions, needed) {
        Ok(()) => 0,
        Err(refusal) => refusal.number(),
    }
}

/// Sets `version` to the page's version after the first `count` writes: the place of the last of them that is to the
/// page, or 0. It allocates nothing.
#[unsafe(no_mangle)]
pub extern "C" fn precopy_trace_version_after(
    trace: &TraceHandle<'_>,
    page: u32,
    count: u32,
    version: &mut u32,
) -> u32
    requires { IsOpened trace.now }
    ensures found { result ≡ 0 → (t : GuestTrace) × Shows trace.now t × (page < t.pages)
        × (version.new ≡ version_at t page count) }
    ensures refused { result ≢ 0 → (t : GuestTrace) × Shows trace.now t × (result ≡ 67) × (t.pages ≤ page)
        × (version.new ≡ version.old) }
    ensures only { (t : GuestTrace) → Shows trace.now t → page < t.pages → result ≡ 0 }
{
    let opened = trace.opened();
    if page >= opened.shape().pages {
        return PlaceRefusal::NoPage.number();
    }
    *version = opened.version_after(page, count);
    0
}

/// Writes the bytes of a page at a version, which is 0 or the place of a write to it, over the front of a buffer. It
/// allocates nothing.
#[unsafe(no_mangle)]
pub extern "C" fn precopy_trace_page_at(
    trace: &TraceHandle<'_>,
    page: u32,
    stamp: u32,
    content: &mut [u8],
) -> u32
    requires { IsOpened trace.now }
    ensures made { result ≡ 0 → (t : GuestTrace) × Shows trace.now t × IsVersion t page stamp
        × (content.new ≡ over (page_at t page stamp) content.old) }
    ensures refused { result ≢ 0 → (t : GuestTrace) × Shows trace.now t
        × IsNumberOfPlace result (LacksVersion t page stamp (length content.old)) }
    ensures only { (t : GuestTrace) → Shows trace.now t → IsVersion t page stamp → 2 ^ t.shift ≤ length content.old
        → result ≡ 0 }
    ensures unchanged { result ≢ 0 → content.new ≡ content.old }
{
    match answer_open_page(&trace.opened(), page, stamp, content) {
        Ok(()) => 0,
        Err(refusal) => refusal.number(),
    }
}

/// Brings memory after the first `from` writes on, in place, to that after the first `to` writes. It allocates nothing.
#[unsafe(no_mangle)]
pub extern "C" fn precopy_trace_memory_step(
    trace: &TraceHandle<'_>,
    from: u32,
    to: u32,
    memory: &mut [u8],
) -> u32
    requires { IsOpened trace.now }
    ensures made { result ≡ 0 → (t : GuestTrace) × Shows trace.now t × IsStep t from to memory.old memory.new }
    ensures refused { result ≢ 0 → (t : GuestTrace) × Shows trace.now t
        × IsNumberOfPlace result (RefusesStep t from to (length memory.old)) }
    ensures only { (t : GuestTrace) → Shows trace.now t → from ≤ to → length memory.old ≡ memory_length t
        → result ≡ 0 }
    ensures unchanged { result ≢ 0 → memory.new ≡ memory.old }
{
    match answer_step(&trace.opened(), from, to, memory) {
        Ok(()) => 0,
        Err(refusal) => refusal.number(),
    }
}

/// Writes the writes to a page, in their order, over the front of a buffer, and sets `count` to their number. If the
/// buffer is too short, it sets only that. It allocates nothing.
#[unsafe(no_mangle)]
pub extern "C" fn precopy_trace_page_writes(
    trace: &TraceHandle<'_>,
    page: u32,
    writes: &mut [PageWrite],
    count: &mut usize,
) -> u32
    requires { IsOpened trace.now }
    ensures made { result ≡ 0 → (t : GuestTrace) × Shows trace.now t × (page < t.pages)
        × (count.new ≡ length (rows_of t page)) × (writes.new ≡ over (rows_of t page) writes.old) }
    ensures short { result ≡ 61 → (t : GuestTrace) × Shows trace.now t × (page < t.pages)
        × (count.new ≡ length (rows_of t page)) × (length writes.old < count.new) }
    ensures refused { result ≢ 0 → result ≢ 61 → (t : GuestTrace) × Shows trace.now t × (result ≡ 67) × (t.pages ≤ page)
        × (count.new ≡ count.old) }
    ensures only { (t : GuestTrace) → Shows trace.now t → page < t.pages → (result ≡ 0) ⊎ (result ≡ 61) }
    ensures unchanged { result ≢ 0 → writes.new ≡ writes.old }
{
    let opened = trace.opened();
    if page >= opened.shape().pages {
        return PlaceRefusal::NoPage.number();
    }
    *count = count_writes(&opened, page);
    if writes.len() < *count {
        return PlaceRefusal::ShortBuffer.number();
    }
    put_writes(&opened, page, writes);
    0
}
