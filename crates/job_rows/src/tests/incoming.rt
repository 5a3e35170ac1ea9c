//! The writes of a trace, handed to a visitor while its bytes come, and a trace that is held after its header is seen.

ghost use Rattle.std.specs.Prelude.{⊤};

use super::whole;
use std::alloc::{AllocError, Global};
use std::test::Fail;
use trace_codec::{TestSource, Timeline, TraceError, WriteLog, WriteView};
use trace_readers::{HeldTrace, IncomingTrace, WriteVisitor};
use worked_guest::changed;

/// A write: its tick, page, offset and length, and the sum of its bytes.
pub(crate) type Seen = (u64, u32, u16, usize, u32);

/// The writes of the worked trace.
const WRITES: [Seen; 5] = [
    (0, 0, 0, 1, 1),
    (5, 1, 15, 1, 2),
    (1200, 1, 0, 1, 3),
    (2500, 3, 2, 2, 9),
    (2500, 1, 0, 1, 0),
];

fn seen(write: &WriteView<'_>) -> Seen {
    let mut sum = 0u32;
    for byte in write.bytes {
        sum = sum.saturating_add(u32::from(*byte));
    }
    (write.tick, write.page, write.offset, write.bytes.len(), sum)
}

/// The writes that came.
#[derive(Drop)]
pub(crate) struct Writes {
    pub(crate) all: Vec<Seen>,
}

impl WriteVisitor for Writes {
    ghost takes = { λ writes write. ⊤ };

    ghost makes = { λ start now writes. ⊤ };

    fn visit(&mut self, write: &WriteView<'_>) -> Result<(), AllocError> {
        self.all.push(seen(write))?;
        Ok(())
    }
}

/// Returns the writes of a trace that comes at most `greatest` bytes a read. The first `held` bytes are held first.
pub(crate) fn visited(
    alloc: Global,
    bytes: Vec<u8>,
    greatest: usize,
    held: u8,
) -> Result<(bool, Writes), TraceError> {
    let mut source = TestSource::new(bytes, greatest.max(1), None);
    let mut incoming = IncomingTrace::open(alloc, &mut source)?;
    let enough = incoming.read_to(&mut source, held as usize)?;
    let header = incoming.header()?;
    let mut writes = Writes {
        all: Vec::new(alloc),
    };
    incoming.visit(&mut source, header, &mut writes)?;
    Ok((enough, writes))
}

/// Returns the trace that comes at most `greatest` bytes in one read, held after `held` bytes.
pub(crate) fn held(
    alloc: Global,
    bytes: Vec<u8>,
    greatest: usize,
    held: u8,
) -> Result<HeldTrace, TraceError> {
    let mut source = TestSource::new(bytes, greatest.max(1), None);
    let mut incoming = IncomingTrace::open(alloc, &mut source)?;
    incoming.read_to(&mut source, held as usize)?;
    incoming.hold(alloc, &mut source)
}

#[test]
fn visits_pieces_of_every_size(rt: HostRuntime) -> Result<(), Fail> {
    let alloc = rt.alloc();
    for greatest in [1, 7, 16, 33, 102, 1000] {
        for least in [0u8, 17, 60, 102, 103] {
            let (enough, writes) = visited(alloc, whole(alloc)?, greatest, least)?;
            assert!(rt;
                enough == (least <= 102) && writes.all.as_slice() == WRITES.as_slice(),
                "{greatest} {least}"
            );
        }
    }
    Ok(())
}

#[test]
fn holds_pieces_of_every_size(rt: HostRuntime) -> Result<(), Fail> {
    let alloc = rt.alloc();
    for greatest in [1, 16, 33, 1000] {
        for least in [0u8, 60, 103] {
            let trace = held(alloc, whole(alloc)?, greatest, least)?;
            let mut found = Vec::new(alloc);
            for index in 0..trace.touch_count() {
                found.push(seen(&trace.write(index)))?;
            }
            assert!(rt; found.as_slice() == WRITES.as_slice(), "{greatest} {least}");
        }
    }
    Ok(())
}

#[test]
fn refuses_the_first_cause_on_the_way(rt: HostRuntime) -> Result<(), Fail> {
    let alloc = rt.alloc();
    const REFUSED: [(usize, usize, &[u8], &[u8], TraceError); 5] = [
        (15, 0, &[], &[], TraceError::ShortHeader),
        (102, 0, &[0x51], &[], TraceError::BadMagic),
        (102, 12, &[6], &[], TraceError::ShortRecord(5)),
        (102, 67, &[0xaf, 4], &[], TraceError::TickOrder(3)),
        (102, 0, &[], &[0], TraceError::TrailingBytes),
    ];
    for &(len, place, patch, more, cause) in &REFUSED {
        for least in [0u8, 70] {
            let visit = visited(alloc, changed(alloc, len, place, patch, more)?, 20, least);
            let hold = held(alloc, changed(alloc, len, place, patch, more)?, 20, least);
            assert!(rt;
                matches!(visit, Err(error) if error == cause)
                    && matches!(hold, Err(error) if error == cause)
            );
        }
    }
    Ok(())
}
