//! The records at the front of a trace's bytes that are already tested, while more may come.

ghost use Rattle.std.specs.Prelude.{◌≡◌, ◌+◌, ◌<◌, IfErr, IfOk, OnOk, length};
ghost use Rattle.migration_model.specs.Trace.{Spells};
ghost use Rattle.trace_codec.specs.Refusals.{RefusesUnlessMemory};
ghost use Rattle.trace_readers.specs.Texts.{IsHeldText, IsTested, held_trace};

use std::alloc::Global;
use trace_codec::{Header, TraceError, checked_write, read_header};

/// The first records of a trace's bytes, all of them right: the offset of each, the tick of the last, and the offset
/// of the first record that is not tested yet.
#[derive(Drop)]
pub(crate) struct FrontRecords {
    pub(crate) header: Header,
    last: u64,
    end: usize,
    pub(crate) positions: Vec<u32>,
}

impl FrontRecords {
    /// Returns no records yet, after a header that is right. It reserves slots for as many offsets as the header
    /// counts, and for no more than `most`.
    pub(crate) fn new(alloc: Global, bytes: &[u8], most: usize) -> Result<FrontRecords, TraceError>
        ensures tested { IfOk result (IsTested bytes.now) }
        ensures refused { IfErr result (RefusesUnlessMemory bytes.now) }
    {
        let header = read_header(bytes)?;
        let positions = Vec::with_capacity(alloc, most.min(header.shape.writes as usize))?;
        Ok(FrontRecords {
            header,
            last: 0,
            end: 16,
            positions,
        })
    }

    /// Tests the next record.
    fn test_record(&mut self, bytes: &[u8]) -> Result<(), TraceError>
        requires tested { IsTested bytes.now self.old }
        requires left { length self.old.positions.items < self.old.header.shape.writes }
        ensures header { self.new.header ≡ self.old.header }
        ensures tested { IsTested bytes.now self.new }
        ensures one_more { OnOk result (length self.new.positions.items ≡ length self.old.positions.items + 1) }
        ensures refused { IfErr result (RefusesUnlessMemory bytes.now) }
    {
        let index = self.positions.len() as u32;
        let (_, rest) = bytes.split_at(self.end);
        let (write, behind) = checked_write(self.header, self.last, index, rest)?;
        self.positions.push(self.end as u32)?;
        self.last = write.tick;
        self.end = bytes.len() - behind.len();
        Ok(())
    }

    /// Tests the records from the first that is not tested yet on, until all that the header counts are tested, or one
    /// is refused. The records tested by then stay so, and bytes that come after them may end the refusal.
    pub(crate) fn go_on(&mut self, bytes: &[u8]) -> Result<(), TraceError>
        requires { IsTested bytes.now self.old }
        ensures header { self.new.header ≡ self.old.header }
        ensures tested { IsTested bytes.now self.new }
        ensures all { OnOk result (length self.new.positions.items ≡ self.new.header.shape.writes) }
        ensures refused { IfErr result (RefusesUnlessMemory bytes.now) }
    {
        while self.positions.len() < self.header.shape.writes as usize {
            self.test_record(bytes)?;
        }
        Ok(())
    }

    /// Returns all records of a whole trace, after which no bytes follow.
    pub(crate) fn all(mut self, bytes: &[u8]) -> Result<FrontRecords, TraceError>
        requires { IsTested bytes.now self }
        ensures spelled { IfOk result (λ all. Spells bytes.now
            (held_trace all.header.version all.header.shape.shift all.header.shape.pages
            all.header.shape.writes bytes.now)) }
        ensures held { IfOk result (λ all. IsHeldText all.header.version all.header.shape.shift all.header.shape.pages
            all.header.shape.writes bytes.now all.positions.items) }
        ensures refused { IfErr result (RefusesUnlessMemory bytes.now) }
    {
        self.go_on(bytes)?;
        if self.end < bytes.len() {
            return Err(TraceError::TrailingBytes);
        }
        Ok(self)
    }
}
