//! Worked examples of a trace held as its bytes.

ghost use Rattle.std.specs.Prelude.{◌≤◌};

use std::alloc::Global;
use std::process::Abort;
use trace_codec::{
    Shape, TestSource, Timeline, TraceError, WriteLog, checked_write, decode, read_header,
};
use trace_readers::HeldTrace;
use worked_guest::{Change, NO_WRITES, TRACE, refused};

/// Returns the shape, and ticks, pages, offsets and bytes in order.
fn told<L: WriteLog>(
    rt: &impl Abort,
    alloc: Global,
    log: &L,
) -> (Shape, Vec<(u64, u32, u16, Vec<u8>)>) {
    let mut writes = Vec::new(alloc);
    for index in 0..log.shape().writes as usize {
        let write = log.write(index);
        let bytes = Vec::from_slice(alloc, write.bytes).expect(rt, "memory");
        writes
            .push((write.tick, write.page, write.offset, bytes))
            .expect(rt, "memory");
    }
    (log.shape(), writes)
}

/// Returns the trace of these bytes, held as they are.
fn held(rt: &impl Abort, alloc: Global, bytes: &[u8]) -> HeldTrace {
    HeldTrace::parse(alloc, Vec::from_slice(alloc, bytes).expect(rt, "memory")).expect(
        rt, "a trace",
    )
}

#[test]
fn knows_its_sizes(rt: HostRuntime) {
    let text = held(&rt, rt.alloc(), &TRACE);
    let Shape {
        shift,
        pages,
        writes,
    } = text.shape();
    assert!(rt; (shift, pages, writes, text.page_count()) == (4, 4, 5, 4));
}

#[test]
fn holds_each_write(rt: HostRuntime) {
    const WRITES: [(u64, u32, u16, &[u8]); 5] = [
        (0, 0, 0, &[1]),
        (5, 1, 15, &[2]),
        (1200, 1, 0, &[3]),
        (2500, 3, 2, &[4, 5]),
        (2500, 1, 0, &[0]),
    ];
    let text = held(&rt, rt.alloc(), &TRACE);
    assert!(rt; text.touch_count() == 5);
    for (index, &(tick, page, offset, bytes)) in WRITES.iter().enumerate() {
        let write = text.write(index);
        let touch = text.touch(index);
        assert!(rt;
            (write.tick, write.page, write.offset, write.bytes) == (tick, page, offset, bytes)
                && (touch.tick, touch.page) == (tick, page),
            "{index}"
        );
    }
}

#[test]
fn header_and_first_record_are_tested(rt: HostRuntime) {
    let header = read_header(&TRACE).expect(&rt, "a header");
    let shape = header.shape;
    let (write, behind) = checked_write(header, 0, 0, &TRACE[16..]).expect(&rt, "a write");
    let late = checked_write(header, 1, 7, &TRACE[16..]).err();
    assert!(rt;
        (
            (header.version, shape.shift, shape.pages, shape.writes),
            (write.tick, write.page, write.bytes, behind.len()),
            late
        ) == (
            (1, 4, 4, 5),
            (0, 0, [1].as_slice(), 69),
            Some(TraceError::TickOrder(7))
        )
    );
}

#[test]
fn counts_the_touches_before_a_tick(rt: HostRuntime) {
    let empty = held(&rt, rt.alloc(), &NO_WRITES);
    assert!(rt; (empty.page_count(), empty.touch_count(), empty.before(1)) == (4, 0, 0));
    drop(empty);
    let text = held(&rt, rt.alloc(), &TRACE);
    let ticks = [0, 1, 5, 6, 1200, 1201, 2500, 2501, 1 << 40];
    let counts = ticks.map(|tick| text.before(tick));
    assert!(rt; counts == [0, 1, 1, 2, 2, 3, 3, 5, 5]);
}

/// Returns the shape and the writes of the trace, if each read gives at most `greatest` bytes.
fn told_by_reads(
    rt: &impl Abort,
    alloc: Global,
    greatest: usize,
) -> (Shape, Vec<(u64, u32, u16, Vec<u8>)>)
    requires { 1 ≤ greatest }
{
    let mut source = TestSource::new(
        Vec::from_slice(alloc, &TRACE).expect(rt, "memory"),
        greatest,
        None,
    );
    let read = HeldTrace::read(alloc, &mut source).expect(rt, "a trace");
    told(rt, alloc, &read)
}

#[test]
fn is_the_same_as_a_trace_with_writes_of_its_own(rt: HostRuntime) {
    let alloc = rt.alloc();
    let wanted = told(&rt, alloc, &decode(alloc, &TRACE).expect(&rt, "a trace"));
    for greatest in [1, 17, 102, 1000] {
        assert!(rt;
            told_by_reads(&rt, alloc, greatest) == wanted,
            "{greatest} bytes a read"
        );
    }
}

/// Returns why the bytes are refused, if they are, when each read gives at most `greatest` and the read of this
/// number fails.
fn read_refusal(
    alloc: Global,
    bytes: Vec<u8>,
    greatest: usize,
    fault: Option<u64>,
) -> Option<TraceError>
    requires { 1 ≤ greatest }
{
    HeldTrace::read(alloc, &mut TestSource::new(bytes, greatest, fault)).err()
}

/// Returns why the changed trace is refused, as a whole, and when each read gives at most 20 bytes.
fn refusals(rt: &impl Abort, alloc: Global, change: &Change) -> [Option<TraceError>; 2] {
    let parsed = HeldTrace::parse(alloc, change.bytes(alloc).expect(rt, "memory")).err();
    let read = read_refusal(alloc, change.bytes(alloc).expect(rt, "memory"), 20, None);
    [parsed, read]
}

#[test]
fn refuses_the_first_cause(rt: HostRuntime) {
    let alloc = rt.alloc();
    for (change, cause) in refused() {
        let causes = refusals(&rt, alloc, &change);
        assert!(rt; causes == [Some(cause); 2]);
    }
    let fault = read_refusal(
        alloc,
        Vec::from_slice(alloc, &TRACE).expect(&rt, "memory"),
        20,
        Some(6),
    );
    assert!(rt; fault == Some(TraceError::ReadFault));
}

/// Returns the bytes of a trace of 2 pages of 16 bytes, which writes byte 7 to the start of page 1 at each of 70000
/// ticks.
fn long_text(rt: &impl Abort, alloc: Global) -> Vec<u8> {
    let mut bytes = Vec::from_slice(
        alloc,
        &[
            0x50, 0x43, 0x57, 0x54, 1, 4, 0, 0, 2, 0, 0, 0, 0x70, 0x11, 1, 0,
        ],
    )
    .expect(rt, "memory");
    for tick in 0..70_000u64 {
        let [a, b, c, ..] = tick.to_le_bytes();
        bytes
            .extend_from_slice(&[a, b, c, 0, 0, 0, 0, 0, 1, 0, 0, 0, 0, 0, 1, 0, 7])
            .expect(rt, "memory");
    }
    bytes
}

/// Returns the length of the long trace's bytes, and the trace read at most `greatest` bytes at a time.
fn long_trace(rt: &impl Abort, alloc: Global, greatest: usize) -> (usize, HeldTrace)
    requires { 1 ≤ greatest }
{
    let bytes = long_text(rt, alloc);
    let length = bytes.len();
    let read = HeldTrace::read(alloc, &mut TestSource::new(bytes, greatest, None)).expect(
        rt, "a trace",
    );
    (length, read)
}

#[test]
fn tests_a_text_while_it_comes(rt: HostRuntime) {
    for greatest in [100_003, 1_000_000] {
        let (length, read) = long_trace(&rt, rt.alloc(), greatest);
        let shape = read.shape();
        assert!(rt;
            (length, (shape.shift, shape.pages, shape.writes)) == (1_190_016, (4, 2, 70_000))
        );
        assert!(rt; (read.touch_count(), read.before(65_536)) == (70_000, 65_536));
        for place in [0, 61_679, 69_999] {
            let write = read.write(place);
            assert!(rt;
                (write.tick, write.page, write.offset, write.bytes)
                    == (place as u64, 1, 0, &[7][..])
            );
        }
    }
}

/// Returns the long trace's bytes with one of them changed.
fn changed_long(rt: &impl Abort, alloc: Global, place: usize, byte: u8) -> Vec<u8> {
    let mut bytes = long_text(rt, alloc);
    if place < bytes.len() {
        bytes[place] = byte;
    }
    bytes
}

#[test]
fn refuses_behind_what_was_tested(rt: HostRuntime) {
    let alloc = rt.alloc();
    // The first 1 MiB ends in front of record 61680, counted from 0, and record 69998 begins at byte 1189982.
    const REFUSED: [(usize, u8, TraceError); 7] = [
        (0, 0x51, TraceError::BadMagic),
        (109, 2, TraceError::PageOutOfRange(5)),
        (1_048_576, 0, TraceError::TickOrder(61_680)),
        (1_189_982, 0x6c, TraceError::TickOrder(69_998)),
        (1_189_990, 2, TraceError::PageOutOfRange(69_998)),
        (12, 0x71, TraceError::ShortRecord(70_000)),
        (12, 0x6f, TraceError::TrailingBytes),
    ];
    for &(place, byte, cause) in &REFUSED {
        let read = read_refusal(alloc, changed_long(&rt, alloc, place, byte), 100_003, None);
        assert!(rt; read == Some(cause), "at {place}");
    }
    let fault = read_refusal(alloc, long_text(&rt, alloc), 100_003, Some(12));
    assert!(rt; fault == Some(TraceError::ReadFault));
}
