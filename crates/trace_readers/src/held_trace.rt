//! A trace that is held as its bytes.

// `Refuses` holds of one value alone: `TraceView::parse: first`.
// `Spells` holds of one value alone: `one_trace`.

ghost use Rattle.std.specs.Prelude.{◌≡◌, ◌↔◌, ◌+◌, ◌<◌, ◌≤◌, Err, IfErr, IfOk, List, MatchResult, Some, false, length};
ghost use Rattle.std.specs.Prelude.{refl, slice_index_or, true, ℕ};
ghost use Rattle.migration_model.specs.Touches.{touches_of};
ghost use Rattle.migration_model.specs.Trace.{GuestTrace, Spells};
ghost use Rattle.migration_model.specs.TraceReading.{length_in, write_in};
ghost use Rattle.trace_codec.specs.Refusals.{RefusesUnlessMemory};
ghost use Rattle.trace_codec.specs.Source.{IsOutside, SourceRefuses, SourceSpells};
ghost use Rattle.trace_readers.specs.Texts.{IsHeldText, held_trace};
ghost use Rattle.guest_log.specs.Writes.{no_write};

use crate::front_records::FrontRecords;
use crate::text_reading::{ComingText, read_on};
use crate::touch_log::SHORTEST_RECORD;
use std::alloc::Global;
use std::marker::Model;
use trace_codec::{
    Header, Shape, Source, Timeline, Touch, TraceError, WriteLog, WriteView, first_write,
};

/// A trace that is held as its bytes, with the offset of each record: 4 bytes a write besides the bytes of the trace,
/// and no other copy of what is written.
#[derive(Debug, Drop)]
pub struct HeldTrace {
    header: Header,
    bytes: Vec<u8>,
    positions: Vec<u32>,
}

impl Model for HeldTrace {
    ghost Value = { GuestTrace };

    ghost view = { λ t. held_trace t.header.version t.header.shape.shift t.header.shape.pages
        t.header.shape.writes t.bytes.items };

    ghost invariant = { λ t. IsHeldText t.header.version t.header.shape.shift t.header.shape.pages
        t.header.shape.writes t.bytes.items t.positions.items };
}

impl HeldTrace {
    /// Takes over the bytes of a trace, of which the first records may be tested already. If none are, the slots for
    /// the offsets follow the bytes, whatever the header claims.
    pub(crate) fn of_text(alloc: Global, text: ComingText) -> Result<HeldTrace, TraceError>
        ensures found { IfOk result (λ trace. Spells text trace) }
        ensures refused { IfErr result (RefusesUnlessMemory text) }
    {
        let bytes = text.bytes;
        let front = match text.front {
            Some(front) => front,
            None => FrontRecords::new(alloc, &bytes, bytes.len() / SHORTEST_RECORD)?,
        };
        let all = front.all(&bytes)?;
        Ok(HeldTrace {
            header: all.header,
            bytes,
            positions: all.positions,
        })
    }

    /// Takes over the bytes of a trace, in one pass over the records. It never returns `E17`. It allocates no more
    /// than a quarter of the bytes' length, whatever the header claims.
    pub fn parse(alloc: Global, bytes: Vec<u8>) -> Result<HeldTrace, TraceError>
        ensures found { IfOk result (λ trace. Spells bytes.items trace) }
        ensures refused { IfErr result (RefusesUnlessMemory bytes.items) }
        ensures only { (trace : GuestTrace) → Spells bytes.items trace
            → MatchResult result (λ found. found ≡ trace) (λ e. e ≡ TraceError.Memory) }
    {
        HeldTrace::of_text(alloc, ComingText { bytes, front: None })
    }

    /// Returns the trace that a source holds. It reads the source to its end, or past the longest trace and no further,
    /// even if it found a refusal before. Any failed read is `E17`, whatever came before it.
    ///
    /// Once 1 MiB has come, it tests each piece as it comes. The offsets then take 4 bytes for each write that the
    /// header counts, at most 4 MiB. For a shorter trace they take a quarter of the bytes' length, whatever the header
    /// claims.
    pub fn read<S: Source>(alloc: Global, source: &mut S) -> Result<HeldTrace, TraceError>
        requires { S.has_failed source.old ≡ false }
        ensures found { IfOk result (SourceSpells (S.remaining source.old)) }
        ensures refused { IfErr result (SourceRefuses (S.remaining source.old)) }
        ensures only { (bytes : List ℕ) (trace : GuestTrace) → S.remaining source.old ≡ Some bytes → Spells bytes trace
            → MatchResult result (λ found. found ≡ trace) IsOutside }
        ensures failed { (result ≡ Err TraceError.ReadFault) ↔ (S.has_failed source.new ≡ true) }
    {
        let text = read_on(alloc, source, Vec::new(alloc))?;
        HeldTrace::of_text(alloc, text)
    }

    /// Returns the bytes from the record of write `index` on.
    fn record(&self, index: usize) -> &[u8]
        requires { index < length self.now.writes }
        ensures whole { 16 + length_in result.now ≤ length result.now }
        ensures write { write_in result.now ≡ slice_index_or self.now.writes index no_write }
    {
        let (_, record) = self.bytes.split_at(self.positions[index] as usize);
        record
    }
}

impl Timeline for HeldTrace {
    ghost touches = { touches_of };

    ghost pages = { λ t. t.pages };

    fn page_count(&self) -> u32 {
        self.header.shape.pages
    }

    fn touch_count(&self) -> usize {
        self.positions.len()
    }

    fn touch(&self, index: usize) -> Touch {
        let write = self.write(index);
        Touch {
            tick: write.tick,
            page: write.page,
        }
    }

    fn before(&self, tick: u64) -> usize {
        let mut low = 0;
        let mut high = self.positions.len();
        while low < high {
            let middle = low + (high - low) / 2;
            if self.touch(middle).tick < tick {
                low = middle + 1;
            } else {
                high = middle;
            }
        }
        low
    }
}

impl WriteLog for HeldTrace {
    ghost trace = { λ t. t };

    fn version(&self) -> u8 {
        self.header.version
    }

    fn shape(&self) -> Shape {
        self.header.shape
    }

    fn write(&self, index: usize) -> WriteView<'_> {
        let (write, _) = first_write(self.record(index));
        write
    }

    ghost same_pages = { λ t. refl };

    ghost same_touches = { λ t. refl };
}
