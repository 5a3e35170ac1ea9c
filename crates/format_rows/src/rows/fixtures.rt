//! Frames of the worked guest, which is stopped after its third write, and of any guest of its shape.

ghost use Rattle.std.specs.Prelude.{◌≡◌};

use page_versions::PageIndex;
use std::alloc::Global;
use std::process::Abort;
use stream_check::{StreamsError, check_streams};
use trace_codec::{Shape, decode};
use worked_guest::TRACE;

pub(crate) type Page = [u8; 16];

/// A page and its stamp, with the bytes of a frame.
pub(crate) type Sent<'a> = (u32, u32, &'a Page);

/// After these many writes the guest is stopped, at tick 2500.
pub(crate) const STOP: u32 = 3;

pub(crate) const ZEROS: Page = [0; 16];

/// The first page after its only write.
pub(crate) const FIRST: Page = [1, 0, 0, 0, 0, 0, 0, 0, 0, 0, 0, 0, 0, 0, 0, 0];

/// The second page after the second write of the trace, and after the fifth.
pub(crate) const SECOND: Page = [0, 0, 0, 0, 0, 0, 0, 0, 0, 0, 0, 0, 0, 0, 0, 2];

/// The second page after the third write of the trace.
pub(crate) const THIRD: Page = [3, 0, 0, 0, 0, 0, 0, 0, 0, 0, 0, 0, 0, 0, 0, 2];

/// The third page, which is zeros, in a frame.
pub(crate) const ZEROS_FRAME: [u8; 9] = [2, 0, 0, 0, 0, 0, 0, 0, 0];

/// The last page at version 4, in a frame.
pub(crate) const DATA_FRAME: [u8; 25] = [
    3, 0, 0, 0, 4, 0, 0, 0, 1, 0, 0, 4, 5, 0, 0, 0, 0, 0, 0, 0, 0, 0, 0, 0, 0,
];

/// Returns the sizes of the guest and its trace: 4 pages of 16 bytes, and 5 writes.
pub(crate) fn shape() -> Shape
    ensures pages { result.pages ≡ 4 }
    ensures writes { result.writes ≡ 5 }
    ensures shift { result.shift ≡ 4 }
{
    Shape {
        shift: 4,
        pages: 4,
        writes: 5,
    }
}

/// A stream in which all is right. Its frames begin at bytes 0, 25, 50, 59 and 68, and it has 93.
pub(crate) const RIGHT: [Sent<'static>; 5] = [
    (0, 1, &FIRST),
    (1, 2, &SECOND),
    (2, 0, &ZEROS),
    (3, 0, &ZEROS),
    (1, 3, &THIRD),
];

/// Appends the encoding of a frame to a stream.
fn add_frame(rt: &impl Abort, stream: &mut Vec<u8>, sent: &Sent<'_>) {
    let (page, stamp, bytes) = *sent;
    stream
        .extend_from_slice(&page.to_le_bytes())
        .expect(rt, "memory");
    stream
        .extend_from_slice(&stamp.to_le_bytes())
        .expect(rt, "memory");
    if *bytes == ZEROS {
        stream.push(0).expect(rt, "memory");
        return;
    }
    stream.push(1).expect(rt, "memory");
    stream.extend_from_slice(bytes).expect(rt, "memory");
}

/// Returns the stream of these frames.
pub(crate) fn stream_of(rt: &impl Abort, alloc: Global, sent: &[Sent<'_>]) -> Vec<u8> {
    let mut stream = Vec::new(alloc);
    for one in sent {
        add_frame(rt, &mut stream, one);
    }
    stream
}

/// Checks two streams of the worked guest.
pub(crate) fn checked(
    rt: &impl Abort,
    alloc: Global,
    first: &[u8],
    second: &[u8],
) -> Result<(), StreamsError> {
    let trace = decode(alloc, &TRACE).expect(rt, "a trace");
    let index = PageIndex::build_alone(alloc, &trace).expect(rt, "an index");
    let mut bytes = Vec::new(alloc);
    bytes.extend_from_slice(first).expect(rt, "memory");
    bytes.extend_from_slice(second).expect(rt, "memory");
    let sizes = [first.len(), second.len()];
    check_streams(alloc, &trace, &index, STOP, &bytes, &sizes)
}
