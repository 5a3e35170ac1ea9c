//! Memory as the writes of a trace leave it, in the caller's buffer.

ghost use Rattle.std.specs.Prelude.{◌≡◌, ◌+◌, ◌*◌, ◌^◌, ◌<◌, ◌≤◌, IfErr, OnErr, OnOk, length};
ghost use Rattle.migration_model.specs.Memory.{bytes_put, image_of, put};
ghost use Rattle.guest_log.specs.Writes.{shown};
ghost use Rattle.c_answers.specs.Buffers.{over};
ghost use Rattle.c_answers.specs.Memories.{memory_length};

use crate::answers::Refusal;
use guest_log::{Shape, WriteView};
use trace_codec::TraceView;

/// Applies a write to memory of this shape, at its offset in its page.
pub(crate) fn write_over(memory: &mut [u8], shape: Shape, write: &WriteView<'_>)
    requires { write.now.page * 2 ^ shape.shift + write.now.offset + length (bytes_put shape.shift (shown write.now))
        ≤ length memory.old }
    ensures { memory.new
        ≡ put memory.old (write.now.page * 2 ^ shape.shift + write.now.offset)
        (bytes_put shape.shift (shown write.now)) }
{
    let start = write.page as usize * shape.page_size() + write.offset as usize;
    write.put_at(shape, memory, start);
}

/// Makes the memory after all writes.
fn replay_all(trace: &TraceView<'_>, memory: &mut [u8])
    requires { length memory.old ≡ memory_length trace.now }
    ensures { memory.new ≡ (image_of trace.now).bytes }
{
    let shape = trace.shape();
    memory.fill(0);
    for write in trace.records() {
        write_over(memory, shape, &write);
    }
}

/// Makes the memory after all writes over the front of a buffer, and sets `needed` to its length.
pub fn answer_memory(
    trace: &TraceView<'_>,
    room: &mut [u8],
    needed: &mut usize,
) -> Result<(), Refusal>
    ensures needed { needed.new ≡ memory_length trace.now }
    ensures put { OnOk result (room.new ≡ over (image_of trace.now).bytes room.old) }
    ensures refused { IfErr result (λ e. e ≡ Refusal.ShortBuffer) }
    ensures fits { OnOk result (memory_length trace.now ≤ length room.old) }
    ensures short { OnErr result (length room.old < memory_length trace.now) }
    ensures unchanged { OnErr result (room.new ≡ room.old) }
{
    let shape = trace.shape();
    let count = shape.pages as usize * shape.page_size();
    *needed = count;
    if room.len() < count {
        return Err(Refusal::ShortBuffer);
    }
    let (front, _) = room.split_at_mut(count);
    replay_all(trace, front);
    Ok(())
}
