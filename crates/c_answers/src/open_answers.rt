//! Answers from a trace that stays open: memory, and versions of pages.

// `Spells`, and so `Shows`, holds of one value alone: `one_trace`.

ghost use Rattle.std.specs.Prelude.{◌≡◌, ◌<◌, ◌≤◌, IfErr, IsOk, OnErr, OnOk, length, ◌^◌};
ghost use Rattle.migration_model.specs.Memory.{image_after, image_before};
ghost use Rattle.migration_model.specs.Versions.{page_at};
ghost use Rattle.open_traces.specs.Index.{versions_at};
ghost use Rattle.c_answers.specs.Buffers.{over};
ghost use Rattle.c_answers.specs.Memories.{memory_length, writes_before};
ghost use Rattle.c_answers.specs.Opened.{LacksVersion};
ghost use Rattle.c_answers.specs.Places.{IsVersion};

use crate::answers::Refusal;
use crate::memories::write_over;
use crate::place_answers::PlaceRefusal;
use open_traces::OpenTrace;
use trace_codec::{Timeline, WriteLog};

/// Returns how many writes have a tick below this one, by binary search.
pub fn open_count_before(trace: &OpenTrace<'_>, tick: u64) -> u32
    ensures count { result ≡ writes_before trace.now tick }
    ensures memory { image_after trace.now result ≡ image_before trace.now tick }
{
    // For the proof: a trace has at most 2^20 writes, in the order of their ticks.
    let _ = trace.shape();
    let count = trace.before(tick);
    count as u32
}

/// Makes the memory after the writes before a tick.
pub(crate) fn open_replay_before(trace: &OpenTrace<'_>, tick: u64, memory: &mut [u8])
    requires { length memory.old ≡ memory_length trace.now }
    ensures { memory.new ≡ (image_before trace.now tick).bytes }
{
    let shape = trace.shape();
    memory.fill(0);
    let end = trace.before(tick);
    for index in 0..end {
        write_over(memory, shape, &trace.write(index));
    }
}

/// Makes the memory after the writes before a tick over the front of a buffer, and sets `needed` to its length.
pub fn answer_open_memory(
    trace: &OpenTrace<'_>,
    tick: u64,
    room: &mut [u8],
    needed: &mut usize,
) -> Result<(), Refusal>
    ensures needed { needed.new ≡ memory_length trace.now }
    ensures put { OnOk result (room.new ≡ over (image_before trace.now tick).bytes room.old) }
    ensures refused { IfErr result (λ e. e ≡ Refusal.ShortBuffer) }
    ensures fits { OnOk result (memory_length trace.now ≤ length room.old) }
    ensures short { OnErr result (length room.old < memory_length trace.now) }
    ensures unchanged { OnErr result (room.new ≡ room.old) }
{
    let shape = trace.shape();
    let count = shape.pages as usize * shape.page_size();
    *needed = count;
    if room.len() < count {
        return Err(Refusal::ShortBuffer);
    }
    let (front, _) = room.split_at_mut(count);
    open_replay_before(trace, tick, front);
    Ok(())
}

/// Makes the versions of all pages over the front of a buffer, and sets `needed` to their number.
pub fn answer_open_versions(
    trace: &OpenTrace<'_>,
    count: u32,
    room: &mut [u32],
    needed: &mut usize,
) -> Result<(), Refusal>
    ensures needed { needed.new ≡ trace.now.pages }
    ensures put { OnOk result (room.new ≡ over (versions_at trace.now count) room.old) }
    ensures refused { IfErr result (λ e. e ≡ Refusal.ShortBuffer) }
    ensures fits { OnOk result (trace.now.pages ≤ length room.old) }
    ensures short { OnErr result (length room.old < trace.now.pages) }
    ensures unchanged { OnErr result (room.new ≡ room.old) }
{
    let pages = trace.shape().pages as usize;
    *needed = pages;
    if room.len() < pages {
        return Err(Refusal::ShortBuffer);
    }
    let (front, _) = room.split_at_mut(pages);
    trace.put_versions(count, front);
    Ok(())
}

/// Makes the bytes of a page at a version over the front of a buffer.
pub fn answer_open_page(
    trace: &OpenTrace<'_>,
    page: u32,
    stamp: u32,
    content: &mut [u8],
) -> Result<(), PlaceRefusal>
    ensures version { OnOk result (IsVersion trace.now page stamp) }
    ensures made { OnOk result (content.new ≡ over (page_at trace.now page stamp) content.old) }
    ensures fits { OnOk result (2 ^ trace.now.shift ≤ length content.old) }
    ensures refused { IfErr result (LacksVersion trace.now page stamp (length content.old)) }
    ensures only { IsVersion trace.now page stamp → 2 ^ trace.now.shift ≤ length content.old → IsOk result }
    ensures unchanged { OnErr result (content.new ≡ content.old) }
{
    let shape = trace.shape();
    if page >= shape.pages {
        return Err(PlaceRefusal::NoPage);
    }
    if trace.version_after(page, stamp) != stamp {
        return Err(PlaceRefusal::NoVersion);
    }
    let size = shape.page_size();
    if content.len() < size {
        return Err(PlaceRefusal::ShortBuffer);
    }
    let (front, _) = content.split_at_mut(size);
    trace.put_page(page, stamp, front);
    Ok(())
}
