//! What a job writes, and how.

ghost use Rattle.std.specs.Prelude.{◌≡◌, ◌≢◌, ◌⊎◌, IfErr, OnOk, false, true};
ghost use Rattle.std.specs.Io.KnownBytes.{Appends};
ghost use Rattle.byte_sinks.specs.Sink.{AppendsPart};
ghost use Rattle.migration_jobs.specs.Bytes.{bytes_in};

use crate::shown::ShownMemory;
use byte_sinks::{Sink, SinkError, write_memory, write_out};
use dealt_memory::DealtMemory;
use std::alloc::Global;
use std::mem;
use std::thread::Threads;

/// The whole output of a job.
#[derive(Drop)]
pub(crate) enum Output {
    /// Bytes that are complete.
    Text(Vec<u8>),
    /// The memory of a live run, written piece by piece.
    Memory(ShownMemory),
    /// The memory after all writes of a trace, written piece by piece.
    Dealt(DealtMemory),
}

impl Output {
    /// Ends an output that was written. Before the process ends its memory is left to the system.
    pub(crate) fn end(self, is_last: bool) {
        if is_last {
            mem::forget(self);
        }
    }
}

/// Writes all of an output and flushes. At most so many workers make memory. If memory runs out, nothing is written.
pub(crate) fn write_output<R: Threads + Sync, K: Sink>(
    rt: &R,
    alloc: Global,
    sink: &mut K,
    output: &Output,
    workers: usize,
) -> Result<(), SinkError>
    requires { K.has_failed sink.old ≡ false }
    ensures written { OnOk result (Appends (K.contents sink.old) (K.contents sink.new) (bytes_in output.now)) }
    ensures flushed { OnOk result (K.is_flushed sink.new ≡ true) }
    ensures unfailed { OnOk result (K.has_failed sink.new ≡ false) }
    ensures part { IfErr result (λ e. e ≡ SinkError.Write → AppendsPart (K.contents sink.old) (K.contents sink.new)
        (bytes_in output.now)) }
    ensures refused { IfErr result (λ e. e ≢ SinkError.Write → sink.new ≡ sink.old) }
    ensures error { IfErr result (λ e. (e ≡ SinkError.Write) ⊎ (e ≡ SinkError.Memory)) }
    ensures failed { IfErr result (λ e. e ≡ SinkError.Write → K.has_failed sink.new ≡ true) }
{
    match output {
        Output::Text(text) => write_out(sink, text),
        Output::Memory(memory) => write_memory(rt, alloc, sink, memory, workers),
        Output::Dealt(memory) => write_memory(rt, alloc, sink, memory, workers),
    }
}
