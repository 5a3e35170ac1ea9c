//! The guest of the worked examples, its pages, and parts that have some of them.

ghost use Rattle.std.specs.Prelude.{◌≡◌};
ghost use Rattle.page_message.specs.Shapes.{shape_of};

use collector::Part;
use page_message::frame_of;
use std::alloc::Global;
use std::process::Abort;
use trace_codec::{Shape, Trace, Write};

pub(crate) type Page = [u8; 16];

pub(crate) const ZEROS: Page = [0; 16];

/// The first page after its only write.
pub(crate) const FIRST: Page = [1, 0, 0, 0, 0, 0, 0, 0, 0, 0, 0, 0, 0, 0, 0, 0];

/// The second page after the second write of the trace, and after the fifth.
pub(crate) const SECOND: Page = [0, 0, 0, 0, 0, 0, 0, 0, 0, 0, 0, 0, 0, 0, 0, 2];

/// The second page after the third write of the trace.
pub(crate) const THIRD: Page = [3, 0, 0, 0, 0, 0, 0, 0, 0, 0, 0, 0, 0, 0, 0, 2];

/// The last page after its only write.
pub(crate) const FOURTH: Page = [0, 0, 4, 5, 0, 0, 0, 0, 0, 0, 0, 0, 0, 0, 0, 0];

/// A page, from one version to another, and its bytes.
pub(crate) const VERSIONS: [(u32, u32, u32, Page); 9] = [
    (0, 0, 0, ZEROS),
    (0, 1, 5, FIRST),
    (1, 0, 1, ZEROS),
    (1, 2, 2, SECOND),
    (1, 3, 4, THIRD),
    (1, 5, 5, SECOND),
    (2, 0, 5, ZEROS),
    (3, 0, 3, ZEROS),
    (3, 4, 5, FOURTH),
];

/// The memory before the writes at tick 2500.
pub(crate) static AT_STOP: [u8; 64] = [
    1, 0, 0, 0, 0, 0, 0, 0, 0, 0, 0, 0, 0, 0, 0, 0, //
    3, 0, 0, 0, 0, 0, 0, 0, 0, 0, 0, 0, 0, 0, 0, 2, //
    0, 0, 0, 0, 0, 0, 0, 0, 0, 0, 0, 0, 0, 0, 0, 0, //
    0, 0, 0, 0, 0, 0, 0, 0, 0, 0, 0, 0, 0, 0, 0, 0,
];

/// The memory after all writes.
pub(crate) static AT_END: [u8; 64] = [
    1, 0, 0, 0, 0, 0, 0, 0, 0, 0, 0, 0, 0, 0, 0, 0, //
    0, 0, 0, 0, 0, 0, 0, 0, 0, 0, 0, 0, 0, 0, 0, 2, //
    0, 0, 0, 0, 0, 0, 0, 0, 0, 0, 0, 0, 0, 0, 0, 0, //
    0, 0, 4, 5, 0, 0, 0, 0, 0, 0, 0, 0, 0, 0, 0, 0,
];

/// Returns a trace of 4 pages of 16 bytes, which writes pages 0 and 1 at ticks 0 and 5, page 1 at tick 1200, and pages
/// 3 and 1 at tick 2500. Or all of this `later` ticks later.
pub(crate) fn guest(rt: &impl Abort, alloc: Global, later: u64) -> Trace {
    guest_with_last(rt, alloc, 1, later, &[0])
}

/// Returns this trace in version 2, except that its last write releases page 1.
pub(crate) fn releasing_guest(rt: &impl Abort, alloc: Global) -> Trace {
    guest_with_last(rt, alloc, 2, 0, &[])
}

/// Returns this trace in a version, `later` ticks later, with these bytes for its last write.
fn guest_with_last(rt: &impl Abort, alloc: Global, version: u8, later: u64, last: &[u8]) -> Trace {
    let cases: [(u64, u32, u16, &[u8]); 5] = [
        (0, 0, 0, &[1]),
        (5, 1, 15, &[2]),
        (1200, 1, 0, &[3]),
        (2500, 3, 2, &[4, 5]),
        (2500, 1, 0, last),
    ];
    let mut writes = Vec::new(alloc);
    for (tick, page, offset, bytes) in cases {
        writes
            .push(Write {
                tick: later.saturating_add(tick),
                page,
                offset,
                bytes: Vec::from_slice(alloc, bytes).expect(rt, "memory"),
            })
            .expect(rt, "memory");
    }
    Trace::new(version, 4, 4, writes).expect(rt, "a trace")
}

/// Returns these bytes, if they are a page.
pub(crate) fn page_of(bytes: &[u8]) -> Option<Page> {
    if bytes.len() != 16 {
        return None;
    }
    let mut page = ZEROS;
    page.copy_from_slice(bytes);
    Some(page)
}

/// Gives the part a page of the guest.
fn give(
    rt: &impl Abort,
    alloc: Global,
    part: &mut Part,
    shape: &Shape,
    page: u32,
    stamp: u32,
    bytes: &Page,
)
    requires { part.old.shape ≡ shape_of shape.now }
    ensures { part.new.shape ≡ part.old.shape }
{
    let bytes = Vec::from_slice(alloc, bytes).expect(rt, "memory");
    if page >= shape.pages || stamp > shape.writes || bytes.len() != shape.page_size() {
        panic!(rt; "a page of the guest");
    }
    part.accept(frame_of(shape, page, stamp, bytes))
        .expect(rt, "room");
}

/// Returns a part that has these pages: the number of each, its stamp and its bytes.
pub(crate) fn part_of(
    rt: &impl Abort,
    alloc: Global,
    shape: &Shape,
    pages: &[(u32, u32, Page)],
) -> Part
    ensures { result.shape ≡ shape_of shape.now }
{
    let mut part = Part::new(alloc, *shape);
    for (page, stamp, bytes) in pages {
        give(rt, alloc, &mut part, shape, *page, *stamp, bytes);
    }
    part
}
