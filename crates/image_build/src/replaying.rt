//! Memory as the writes of a trace leave it.

// `Refuses` holds of one value alone: `TraceView::parse: first`.
// `Spells` holds of one value alone: `one_trace`.

ghost use Rattle.std.specs.Prelude.{◌≡◌, ◌+◌, ◌*◌, ◌^◌, ◌≤◌, [], IfErr, IfOk, MatchResult, length, vec_len};
ghost use Rattle.migration_model.specs.Memory.{bytes_put, image_before, image_of, put, zeros};
ghost use Rattle.migration_model.specs.Trace.{GuestTrace, Spells};
ghost use Rattle.image_build.specs.Replay.{RefusesReplay};
ghost use Rattle.guest_log.specs.Writes.{shown};

use crate::error::{ImageError, ReplayError};
use crate::image::Image;
use std::alloc::{AllocError, Global};
use trace_codec::{Shape, Trace, TraceReader, TraceView, WriteLog, WriteView};

/// Returns memory of this shape before any write: zeros.
fn blank(alloc: Global, shape: Shape) -> Result<Vec<u8>, AllocError>
    ensures { IfOk result (λ v. v.items ≡ (zeros shape.shift shape.pages).bytes) }
{
    Vec::from_elem(alloc, 0, (shape.pages as usize) << shape.shift)
}

/// Applies a write to memory of this shape, at its offset in its page.
pub(crate) fn write_over(memory: &mut Vec<u8>, shape: Shape, write: &WriteView<'_>)
    requires { write.now.page * 2 ^ shape.shift + write.now.offset + length (bytes_put shape.shift (shown write.now))
        ≤ vec_len memory.old }
    ensures { memory.new.items
        ≡ put memory.old.items (write.now.page * 2 ^ shape.shift + write.now.offset)
        (bytes_put shape.shift (shown write.now)) }
{
    let start = write.page as usize * shape.page_size() + write.offset as usize;
    write.put_at(shape, memory, start);
}

/// Returns the memory after all writes of a trace. The only error is that memory runs out.
pub fn replay(alloc: Global, trace: &Trace) -> Result<Image, ImageError>
    ensures { MatchResult result (λ image. image ≡ image_of trace.now) (λ e. e ≡ ImageError.Memory) }
{
    let shape = trace.shape();
    let mut memory = blank(alloc, shape)?;
    for write in &trace.writes {
        write_over(&mut memory, shape, &write.view());
    }
    Ok(Image::of(shape.shift, shape.pages, memory))
}

/// Returns the memory after the writes before a tick. The only error is that memory runs out.
pub fn replay_before<W: WriteLog>(alloc: Global, trace: &W, tick: u64) -> Result<Image, ImageError>
    ensures { MatchResult result (λ image. image ≡ image_before (W.trace trace.now) tick)
        (λ e. e ≡ ImageError.Memory) }
{
    let shape = trace.shape();
    let mut memory = blank(alloc, shape)?;
    let end = trace.before(tick);
    for index in 0..end {
        write_over(&mut memory, shape, &trace.write(index));
    }
    Ok(Image::of(shape.shift, shape.pages, memory))
}

fn view_memory(alloc: Global, trace: &TraceView<'_>) -> Result<Image, AllocError>
    ensures { IfOk result (λ image. image ≡ image_of trace.now) }
{
    let shape = trace.shape();
    let mut memory = blank(alloc, shape)?;
    for write in trace.records() {
        write_over(&mut memory, shape, &write);
    }
    Ok(Image::of(shape.shift, shape.pages, memory))
}

/// Returns the memory after all writes of a trace that is read in place. The only error is that memory runs out.
pub fn replay_view(alloc: Global, trace: &TraceView<'_>) -> Result<Image, ImageError>
    ensures { MatchResult result (λ image. image ≡ image_of trace.now) (λ e. e ≡ ImageError.Memory) }
{
    Ok(view_memory(alloc, trace)?)
}

/// Returns the memory after all writes, each put there as it is read.
fn replay_reader(alloc: Global, mut reader: TraceReader<'_>) -> Result<Image, ReplayError>
    requires { reader.writes ≡ [] }
    ensures made { IfOk result (λ image. (trace : GuestTrace) × Spells reader.entry.bytes trace
        × (image ≡ image_of trace)) }
    ensures refused { IfErr result (RefusesReplay reader.entry.bytes) }
{
    let shape = reader.shape();
    let mut memory = blank(alloc, shape)?;
    for _ in 0..shape.writes {
        let write = reader.read_record()?;
        write_over(&mut memory, shape, &write);
    }
    reader.finish()?;
    Ok(Image::of(shape.shift, shape.pages, memory))
}

/// Memory no larger than the trace's bytes, or than this, is made while the bytes are tested.
const SMALL: usize = 1_048_576;

/// Returns the memory after all writes of the trace that the bytes encode, if they do. If memory is larger than the
/// bytes and than `SMALL`, it tests the bytes first, so that refused bytes never make the program allocate it.
fn replay_text(alloc: Global, bytes: &[u8]) -> Result<Image, ReplayError>
    ensures made { IfOk result (λ image. (trace : GuestTrace) × Spells bytes.now trace × (image ≡ image_of trace)) }
    ensures refused { IfErr result (RefusesReplay bytes.now) }
{
    let reader = TraceReader::new(bytes)?;
    let shape = reader.shape();
    if shape.pages as usize * shape.page_size() <= bytes.len().max(SMALL) {
        return replay_reader(alloc, reader);
    }
    let trace = TraceView::parse(bytes)?;
    Ok(view_memory(alloc, &trace)?)
}

/// Returns the memory after all writes of the trace that the bytes encode, in the fastest way: it copies each write
/// only into memory. Errors are the refusals of the bytes, and that memory runs out.
pub fn replay_bytes(alloc: Global, bytes: &[u8]) -> Result<Image, ReplayError>
    ensures made { IfOk result (λ image. (trace : GuestTrace) × Spells bytes.now trace × (image ≡ image_of trace)) }
    ensures refused { IfErr result (RefusesReplay bytes.now) }
    ensures only { (trace : GuestTrace) → Spells bytes.now trace
        → MatchResult result (λ image. image ≡ image_of trace) (λ e. e ≡ ReplayError.Memory) }
{
    replay_text(alloc, bytes)
}
