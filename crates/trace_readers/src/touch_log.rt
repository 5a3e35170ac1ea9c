//! A trace without the bytes of its writes.

// `Refuses` holds of one value alone: `TraceView::parse: first`.
// `Spells` holds of one value alone: `one_trace`.

ghost use Rattle.std.specs.Prelude.{◌≡◌, ◌↔◌, [], ℕ, List, Err, IfErr, IfOk, MatchResult, Some, false, length, nat_lt};
ghost use Rattle.std.specs.Prelude.{◌++◌, map, true, ⊤};
ghost use Rattle.migration_model.specs.Trace.{GuestTrace, Spells};
ghost use Rattle.migration_model.specs.Touches.{AreTouches, GuestTouches, touch_of, touches_in, touches_with};
ghost use Rattle.guest_log.specs.Writes.{shown};
ghost use Rattle.trace_readers.specs.Pieces.{IsLogOf};
ghost use Rattle.trace_codec.specs.Refusals.{RefusesUnlessMemory};
ghost use Rattle.trace_codec.specs.Source.{IsOutside, SourceRefuses};

use crate::pieces::Pieces;
use crate::visiting::{Taken, take_header, visit_rest};
use crate::write_visitor::WriteVisitor;
use std::alloc::{AllocError, Global};
use std::marker::Model;
use trace_codec::{
    Header, Shape, Source, Timeline, Touch, TraceError, TraceReader, WriteLog, WriteView,
};

/// How many bytes the shortest record has: that of a release, which has only its 16 bytes of numbers.
pub(crate) const SHORTEST_RECORD: usize = 16;

/// When each write of a trace was, and to which page: 16 bytes a write, however long the writes are.
#[derive(Debug, Drop)]
pub struct TouchLog {
    pub(crate) header: Header,
    pub(crate) touches: Vec<Touch>,
}

impl Model for TouchLog {
    ghost Value = { GuestTouches };

    ghost view = { λ l. touches_with l.header.version l.header.shape.shift l.header.shape.pages l.touches.items };

    ghost invariant = { λ l. (length l.touches.items ≡ l.header.shape.writes) × AreTouches l.header.shape.pages
        l.touches.items };
}

/// Returns when a write was, and to which page.
fn touch_in(write: &WriteView<'_>) -> Touch
    ensures { result ≡ touch_of (shown write.now) }
{
    Touch {
        tick: write.tick,
        page: write.page,
    }
}

/// Returns the log of the writes that a reader has in front of it, with slots reserved for `room` of them.
fn log_of_reader(
    alloc: Global,
    mut reader: TraceReader<'_>,
    room: usize,
) -> Result<TouchLog, TraceError>
    requires { reader.writes ≡ [] }
    ensures made { IfOk result (λ log. (trace : GuestTrace) × Spells reader.entry.bytes trace
        × (log ≡ touches_in trace)) }
    ensures refused { IfErr result (RefusesUnlessMemory reader.entry.bytes) }
{
    let header = reader.header();
    let mut touches = Vec::with_capacity(alloc, room)?;
    for _ in 0..header.shape.writes {
        let write = reader.read_record()?;
        touches.push(touch_in(&write))?;
    }
    reader.finish()?;
    Ok(TouchLog { header, touches })
}

/// Returns the log of the trace that the bytes encode.
fn log_of_bytes(alloc: Global, bytes: &[u8]) -> Result<TouchLog, TraceError>
    ensures made { IfOk result (λ log. (trace : GuestTrace) × Spells bytes.now trace × (log ≡ touches_in trace)) }
    ensures refused { IfErr result (RefusesUnlessMemory bytes.now) }
{
    let reader = TraceReader::new(bytes)?;
    let claimed = reader.shape().writes as usize;
    log_of_reader(alloc, reader, claimed.min(bytes.len() / SHORTEST_RECORD))
}

/// The touches of the writes that came so far.
#[derive(Drop)]
struct Touches {
    all: Vec<Touch>,
}

impl WriteVisitor for Touches {
    ghost takes = { λ touches write. ⊤ };

    ghost makes = { λ start now writes. now.all.items ≡ start.all.items ++ map touch_of writes };

    fn visit(&mut self, write: &WriteView<'_>) -> Result<(), AllocError> {
        self.all.push(touch_in(write))?;
        Ok(())
    }
}

/// Returns the log of the trace that a source holds.
fn log_of_source<S: Source>(alloc: Global, source: &mut S) -> Result<TouchLog, TraceError>
    requires { S.has_failed source.old ≡ false }
    ensures found { IfOk result (IsLogOf (S.remaining source.old)) }
    ensures refused { IfErr result (SourceRefuses (S.remaining source.old)) }
    ensures failed { (result ≡ Err TraceError.ReadFault) ↔ (S.has_failed source.new ≡ true) }
{
    let mut pieces = Pieces::new(alloc)?;
    let header = take_header(source, &mut pieces)?;
    let mut touches = Touches {
        all: Vec::new(alloc),
    };
    visit_rest(source, &mut pieces, Taken::none(header), &mut touches)?;
    Ok(TouchLog {
        header,
        touches: touches.all,
    })
}

impl TouchLog {
    /// Returns the touches of the writes of a log, which are in memory. The only error is that memory runs out.
    pub fn of_log<W: WriteLog>(alloc: Global, log: &W) -> Result<TouchLog, AllocError>
        ensures { IfOk result (λ touches. touches ≡ touches_in (W.trace log.now)) }
    {
        let header = Header {
            version: log.version(),
            shape: log.shape(),
        };
        let count = log.touch_count();
        let mut touches = Vec::with_capacity(alloc, count)?;
        for index in 0..count {
            touches.push(log.touch(index))?;
        }
        Ok(TouchLog { header, touches })
    }

    /// Reads the touches of a trace from its bytes, in one pass over the records. It never returns `E17`. It allocates
    /// no more than the bytes' length, whatever the header claims.
    pub fn parse(alloc: Global, bytes: &[u8]) -> Result<TouchLog, TraceError>
        ensures made { IfOk result (λ log. (trace : GuestTrace) × Spells bytes.now trace × (log ≡ touches_in trace)) }
        ensures refused { IfErr result (RefusesUnlessMemory bytes.now) }
        ensures only { (trace : GuestTrace) → Spells bytes.now trace → IfErr result (λ e. e ≡ TraceError.Memory) }
    {
        log_of_bytes(alloc, bytes)
    }

    /// Reads the touches of the trace that a source holds, piece by piece in one buffer of 256 KiB; it never holds the
    /// bytes whole. It reads the source to its end, or past the longest trace and no further, even if it found a
    /// refusal before. Any failed read is `E17`, whatever came before it.
    pub fn read<S: Source>(alloc: Global, source: &mut S) -> Result<TouchLog, TraceError>
        requires { S.has_failed source.old ≡ false }
        ensures found { IfOk result (IsLogOf (S.remaining source.old)) }
        ensures refused { IfErr result (SourceRefuses (S.remaining source.old)) }
        ensures only { (bytes : List ℕ) (trace : GuestTrace) → S.remaining source.old ≡ Some bytes → Spells bytes trace
            → MatchResult result (λ log. log ≡ touches_in trace) IsOutside }
        ensures failed { (result ≡ Err TraceError.ReadFault) ↔ (S.has_failed source.new ≡ true) }
    {
        log_of_source(alloc, source)
    }

    /// Returns the version of the trace's format.
    pub fn version(&self) -> u8
        ensures { result ≡ self.now.version }
    {
        self.header.version
    }

    /// Returns the sizes of the trace.
    pub fn shape(&self) -> Shape
        ensures shift { result.shift ≡ self.now.shift }
        ensures pages { result.pages ≡ self.now.pages }
        ensures writes { result.writes ≡ length self.now.touches }
    {
        self.header.shape
    }
}

impl Timeline for TouchLog {
    ghost touches = { λ l. l.touches };

    ghost pages = { λ l. l.pages };

    fn page_count(&self) -> u32 {
        self.header.shape.pages
    }

    fn touch_count(&self) -> usize {
        self.touches.len()
    }

    fn touch(&self, index: usize) -> Touch {
        self.touches[index]
    }

    fn before(&self, tick: u64) -> usize {
        self.touches.as_slice().partition_point(
            |touch: &Touch| -> bool
                ensures { result ≡ nat_lt touch.now.tick tick }
            { touch.tick < tick },
        )
    }
}
