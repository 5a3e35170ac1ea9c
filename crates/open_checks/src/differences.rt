//! Memory beside that after the first writes of a trace.

// `IsFirstWrongByte` holds of one value alone: `one_wrong_byte`.

ghost use Rattle.std.specs.Prelude.{◌≡◌, ◌≢◌, ◌↔◌, ◌<◌, ◌≤◌, ◌*◌, ◌^◌, ◌+◌, ℕ, IfErr, IfSome, IsOk, IsTrue, None};
ghost use Rattle.std.specs.Prelude.{OnOk, length, slice_index};
ghost use Rattle.migration_model.specs.Memory.{bytes_put, image_after};
ghost use Rattle.guest_log.specs.Writes.{shown};
ghost use Rattle.page_versions.specs.Index.{version_after};
ghost use Rattle.stream_check.specs.Ends.{tick_of_place};
ghost use Rattle.open_checks.specs.Differences.{IsFirstWrongByte, IsLastTo, WritesByte};

use guest_log::{Shape, WriteLog, WriteView};
use open_traces::OpenTrace;
use stream_check::tick_of;

/// The first byte of memory that is not as the first writes of a trace leave it.
#[derive(Clone, Copy, Debug, PartialEq, Eq)]
pub struct WrongByte {
    /// The byte, from 0.
    pub offset: usize,
    /// Its page.
    pub page: u32,
    /// The version of the page after these writes.
    pub version: u32,
    /// The place of the last of these writes that writes the byte, or 0.
    pub place: u32,
    /// The tick of that write, or 0.
    pub tick: u64,
}

/// Returns how many bytes of its page a write writes: all, if it releases the page.
fn put_length(shape: Shape, write: &WriteView<'_>) -> usize
    ensures { result ≡ length (bytes_put shape.shift (shown write.now)) }
{
    if write.is_release() {
        return shape.page_size();
    }
    write.bytes.len()
}

/// Returns whether a write writes this byte of memory.
fn writes_byte(shape: Shape, byte: usize, write: &WriteView<'_>) -> bool
    ensures { IsTrue result ↔ WritesByte shape.shift byte (shown write.now) }
{
    let begin = write.page as usize * shape.page_size() + write.offset as usize;
    begin <= byte && byte - begin < put_length(shape, write)
}

/// Returns the place of the last of the first `count` writes that writes this byte of memory, or 0.
fn last_to(trace: &OpenTrace<'_>, count: u32, byte: usize) -> u32
    ensures { IsLastTo trace.now count byte result }
{
    let shape = trace.shape();
    let mut place = count.min(shape.writes);
    while place > 0 {
        if writes_byte(shape, byte, &trace.write(place as usize - 1)) {
            return place;
        }
        place -= 1;
    }
    0
}

/// Returns whether two slices have the same bytes.
pub(crate) fn are_same(some: &[u8], others: &[u8]) -> bool
    ensures { IsTrue result ↔ (some.now ≡ others.now) }
{
    some == others
}

/// Returns the first index at which two slices of one length differ.
fn first_other(some: &[u8], others: &[u8]) -> Option<usize>
    requires { length some.now ≡ length others.now }
    ensures within { IfSome result (λ index. index < length some.now) }
    ensures first { IfSome result (λ index. (before : ℕ) → before < index
        → slice_index some.now before ≡ slice_index others.now before) }
    ensures other { IfSome result (λ index. slice_index some.now index ≢ slice_index others.now index) }
    ensures same { result ≡ None → some.now ≡ others.now }
{
    if are_same(some, others) {
        return None;
    }
    for index in 0..some.len() {
        if some[index] != others[index] {
            return Some(index);
        }
    }
    None
}

/// Returns what there is to say of the first byte that is wrong, which is in this page.
fn wrong_byte(trace: &OpenTrace<'_>, count: u32, page: u32, offset: usize) -> WrongByte
    requires { page < trace.now.pages }
    ensures offset { result.offset ≡ offset }
    ensures page { result.page ≡ page }
    ensures version { result.version ≡ version_after trace.now page count }
    ensures place { IsLastTo trace.now count offset result.place }
    ensures tick { result.tick ≡ tick_of_place trace.now result.place }
{
    let place = last_to(trace, count, offset);
    WrongByte {
        offset,
        page,
        version: trace.version_after(page, count),
        place,
        tick: tick_of(trace, place),
    }
}

/// Tests that memory is that after the first `count` writes, page by page in a room for one, which is written over.
pub fn test_memory(
    trace: &OpenTrace<'_>,
    count: u32,
    memory: &[u8],
    room: &mut [u8],
) -> Result<(), WrongByte>
    requires memory { length memory.now ≡ trace.now.pages * 2 ^ trace.now.shift }
    requires room { length room.old ≡ 2 ^ trace.now.shift }
    ensures same { OnOk result (memory.now ≡ (image_after trace.now count).bytes) }
    ensures wrong { IfErr result (IsFirstWrongByte trace.now count memory.now) }
    ensures only { memory.now ≡ (image_after trace.now count).bytes → IsOk result }
{
    let shape = trace.shape();
    let size = shape.page_size();
    for page in 0..shape.pages {
        let start = page as usize * size;
        trace.put_page(page, count, room);
        let (_, rest) = memory.split_at(start);
        let (content, _) = rest.split_at(size);
        if let Some(index) = first_other(content, room) {
            return Err(wrong_byte(trace, count, page, start + index));
        }
    }
    Ok(())
}
