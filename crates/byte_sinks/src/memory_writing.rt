//! Memory that is written to a sink, piece by piece.

ghost use Rattle.std.specs.Prelude.{◌≡◌, ◌≢◌, ◌⊎◌, ◌≤◌, ℕ, List, IfErr, OnErr, OnOk, drop, false, length, max, true};
ghost use Rattle.std.specs.List.{All, between};
ghost use Rattle.std.specs.Io.KnownBytes.{Appends};
ghost use Rattle.byte_sinks.specs.Pieces.{AreCuts, HasRoom};
ghost use Rattle.byte_sinks.specs.Sink.{AppendsPart};

use crate::error::SinkError;
use crate::making::{Piece, fill_pieces, new_pieces};
use crate::pieced_memory::{PIECE, PiecedMemory, memory_size};
use crate::sink::Sink;
use crate::writing::{flush, write_all};
use guest_log::Shape;
use std::alloc::Global;
use std::thread::Threads;

/// Each of several threads makes this many pieces before any of them is written, so that starting it pays.
const PIECES_EACH: usize = 4;

/// The most threads that make pieces.
const MOST_THREADS: usize = 16;

/// The fewest bytes of memory that several threads make.
const WORTH_THREADS: usize = 1 << 23;

/// Writes what pieces hold, one after the other. Whatever bytes they are cut from, those from the first cut to the last
/// are written.
fn write_each<K: Sink>(sink: &mut K, pieces: &[Piece]) -> Result<(), SinkError>
    requires { K.has_failed sink.old ≡ false }
    ensures written { OnOk result ((starts : ℕ → ℕ) (bytes : List ℕ) → AreCuts starts bytes pieces.now
        → Appends (K.contents sink.old) (K.contents sink.new) (between (starts 0) (starts (length pieces.now)) bytes)) }
    ensures unfailed { OnOk result (K.has_failed sink.new ≡ false) }
    ensures part { OnErr result ((starts : ℕ → ℕ) (bytes : List ℕ) → AreCuts starts bytes pieces.now
        → AppendsPart (K.contents sink.old) (K.contents sink.new) (drop (starts 0) bytes)) }
    ensures error { IfErr result (λ e. e ≡ SinkError.Write) }
    ensures failed { OnErr result (K.has_failed sink.new ≡ true) }
{
    for piece in pieces {
        write_all(sink, &piece.bytes)?;
    }
    Ok(())
}

/// Writes all of some memory, some pieces after others, which are made in at most so many threads.
fn write_pieces<R: Threads + Sync, K: Sink, M: PiecedMemory + Sync>(
    rt: &R,
    sink: &mut K,
    memory: &M,
    pieces: &mut [Piece],
    threads: usize,
) -> Result<(), SinkError>
    requires unfailed { K.has_failed sink.old ≡ false }
    requires threads { 1 ≤ threads }
    requires pieces { 1 ≤ length pieces.old }
    requires few { length pieces.old ≤ 65536 }
    requires room { All (HasRoom (M.memory memory.now).shift) pieces.old }
    ensures written { OnOk result (Appends (K.contents sink.old) (K.contents sink.new) (M.memory memory.now).bytes) }
    ensures unfailed { OnOk result (K.has_failed sink.new ≡ false) }
    ensures part { OnErr result (AppendsPart (K.contents sink.old) (K.contents sink.new) (M.memory memory.now).bytes) }
    ensures error { IfErr result (λ e. e ≡ SinkError.Write) }
    ensures failed { OnErr result (K.has_failed sink.new ≡ true) }
{
    let size = memory_size(memory.shape());
    let mut first = 0;
    while first * PIECE < size {
        fill_pieces(rt, memory, first, threads, pieces);
        write_each(sink, pieces)?;
        first += pieces.len();
    }
    Ok(())
}

/// Returns how many threads make memory of this shape: no more than there are workers.
fn threads_for(shape: Shape, workers: usize) -> usize
    ensures some { 1 ≤ result }
    ensures few { result ≤ 16 }
    ensures workers { result ≤ max 1 workers }
{
    if workers < 2 || memory_size(shape) < WORTH_THREADS {
        return 1;
    }
    workers.min(MOST_THREADS)
}

/// Returns how many pieces these threads make before any of them is written.
fn pieces_for(threads: usize) -> usize
    requires some { 1 ≤ threads }
    requires few { threads ≤ 16 }
    ensures some { 1 ≤ result }
    ensures few { result ≤ 65536 }
{
    if threads == 1 {
        return 1;
    }
    threads * PIECES_EACH
}

/// Writes all of some memory and flushes. It allocates its pieces before it writes the first byte, and nothing later
/// but what starting a thread takes.
pub fn write_memory<R: Threads + Sync, K: Sink, M: PiecedMemory + Sync>(
    rt: &R,
    alloc: Global,
    sink: &mut K,
    memory: &M,
    workers: usize,
) -> Result<(), SinkError>
    requires { K.has_failed sink.old ≡ false }
    ensures written { OnOk result (Appends (K.contents sink.old) (K.contents sink.new) (M.memory memory.now).bytes) }
    ensures flushed { OnOk result (K.is_flushed sink.new ≡ true) }
    ensures unfailed { OnOk result (K.has_failed sink.new ≡ false) }
    ensures part { IfErr result (λ e. e ≡ SinkError.Write → AppendsPart (K.contents sink.old) (K.contents sink.new)
        (M.memory memory.now).bytes) }
    ensures refused { IfErr result (λ e. e ≢ SinkError.Write → sink.new ≡ sink.old) }
    ensures error { IfErr result (λ e. (e ≡ SinkError.Write) ⊎ (e ≡ SinkError.Memory)) }
    ensures failed { IfErr result (λ e. e ≡ SinkError.Write → K.has_failed sink.new ≡ true) }
{
    let shape = memory.shape();
    let threads = threads_for(shape, workers);
    let count = pieces_for(threads);
    let mut pieces = new_pieces(alloc, shape, count).or(Err(SinkError::Memory))?;
    write_pieces(rt, sink, memory, &mut pieces, threads)?;
    flush(sink)
}
