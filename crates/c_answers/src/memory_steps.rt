//! Memory that is brought on from one place of a trace to another.

ghost use Rattle.std.specs.Prelude.{◌≡◌, ◌≤◌, IfErr, IsOk, OnErr, OnOk, length};
ghost use Rattle.c_answers.specs.Memories.{memory_length};
ghost use Rattle.c_answers.specs.Places.{IsStep, RefusesStep};

use crate::memories::write_over;
use crate::place_answers::PlaceRefusal;
use open_traces::OpenTrace;
use trace_codec::WriteLog;

/// Applies the writes behind the first `from` ones, up to the first `to`, to memory.
fn bring_memory(trace: &OpenTrace<'_>, from: u32, to: u32, memory: &mut [u8])
    requires order { from ≤ to }
    requires len { length memory.old ≡ memory_length trace.now }
    ensures { IsStep trace.now from to memory.old memory.new }
{
    let shape = trace.shape();
    let end = to.min(shape.writes);
    for index in from as usize..end as usize {
        write_over(memory, shape, &trace.write(index));
    }
}

/// Brings memory on, for the call. It reads the writes in between alone.
pub fn answer_step(
    trace: &OpenTrace<'_>,
    from: u32,
    to: u32,
    memory: &mut [u8],
) -> Result<(), PlaceRefusal>
    ensures made { OnOk result (IsStep trace.now from to memory.old memory.new) }
    ensures refused { IfErr result (RefusesStep trace.now from to (length memory.old)) }
    ensures only { from ≤ to → length memory.old ≡ memory_length trace.now → IsOk result }
    ensures unchanged { OnErr result (memory.new ≡ memory.old) }
{
    if to < from {
        return Err(PlaceRefusal::Backwards);
    }
    let shape = trace.shape();
    if memory.len() != shape.pages as usize * shape.page_size() {
        return Err(PlaceRefusal::MemoryLength);
    }
    bring_memory(trace, from, to, memory);
    Ok(())
}
