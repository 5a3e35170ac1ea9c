//! The guest whose pages the calls use, and frames and parts of them.

ghost use Rattle.std.specs.Prelude.{◌≡◌, IfOk};
ghost use Rattle.migration_model.specs.Frames.{IsFrame};
ghost use Rattle.page_message.specs.Shapes.{shape_of};

use anyhow::{Result, bail};
use collector::Part;
use page_message::{Body, Frame, frame_of};
use std::alloc::Global;
use std::io;
use trace_codec::{Shape, Trace, Write};

pub(crate) type Page = [u8; 16];

pub(crate) const ZEROS: Page = [0; 16];

/// Page 0 after its only write.
pub(crate) const FIRST: Page = [1, 0, 0, 0, 0, 0, 0, 0, 0, 0, 0, 0, 0, 0, 0, 0];

/// Page 1 after the second write of the trace, and after the fifth.
pub(crate) const SECOND: Page = [0, 0, 0, 0, 0, 0, 0, 0, 0, 0, 0, 0, 0, 0, 0, 2];

/// Page 1 after the third write of the trace.
pub(crate) const THIRD: Page = [3, 0, 0, 0, 0, 0, 0, 0, 0, 0, 0, 0, 0, 0, 0, 2];

/// Page 3 after its only write.
pub(crate) const FOURTH: Page = [0, 0, 4, 5, 0, 0, 0, 0, 0, 0, 0, 0, 0, 0, 0, 0];

/// A guest of 4 pages of 16 bytes, which writes pages 0 and 1 at ticks 0 and 5, page 1 at tick 1200, and pages 3 and 1
/// at tick 2500.
pub(crate) fn guest(alloc: Global) -> Result<Trace> {
    let cases: [(u64, u32, u16, &[u8]); 5] = [
        (0, 0, 0, &[1]),
        (5, 1, 15, &[2]),
        (1200, 1, 0, &[3]),
        (2500, 3, 2, &[4, 5]),
        (2500, 1, 0, &[0]),
    ];
    let mut writes = Vec::new(alloc);
    for (tick, page, offset, bytes) in cases {
        writes.push(Write {
            tick,
            page,
            offset,
            bytes: Vec::from_slice(alloc, bytes)?,
        })?;
    }
    Ok(Trace::new(1, 4, 4, writes)?)
}

/// The frame of a page of the guest.
pub(crate) fn frame_at(
    alloc: Global,
    shape: &Shape,
    page: u32,
    stamp: u32,
    bytes: &Page,
) -> Result<Frame>
    ensures { IfOk result (IsFrame (shape_of shape.now)) }
{
    let bytes = Vec::from_slice(alloc, bytes)?;
    if page >= shape.pages || stamp > shape.writes || bytes.len() != shape.page_size() {
        bail!("page {page} at stamp {stamp} is not of the guest");
    }
    Ok(frame_of(shape, page, stamp, bytes))
}

/// Gives the part a frame.
fn give(part: &mut Part, frame: Frame) -> Result<()>
    requires { IsFrame part.old.shape frame }
    ensures { part.new.shape ≡ part.old.shape }
{
    part.accept(frame)?;
    Ok(())
}

/// A part that has these pages: the number of each, its stamp and its bytes.
pub(crate) fn part_of(alloc: Global, shape: &Shape, pages: &[(u32, u32, Page)]) -> Result<Part>
    ensures { IfOk result (λ part. part.shape ≡ shape_of shape.now) }
{
    let mut part = Part::new(alloc, *shape);
    for (page, stamp, bytes) in pages {
        let frame = frame_at(alloc, shape, *page, *stamp, bytes)?;
        give(&mut part, frame)?;
    }
    Ok(part)
}

fn show_frame(rt: &impl Print, frame: &Frame) -> io::Result<()> {
    let page = frame.page;
    let stamp = frame.stamp;
    match &frame.body {
        Body::Zero => println!(rt; "page {page} stamp {stamp} zeros"),
        Body::Data(bytes) => println!(rt; "page {page} stamp {stamp} {bytes:?}"),
    }
}

/// Prints the pages that a part has, each with its stamp and its bytes.
pub(crate) fn show_part(rt: &impl Print, part: &Part) -> io::Result<()> {
    for page in 0..part.shape().pages {
        if let Some(frame) = part.frame(page) {
            show_frame(rt, frame)?;
        }
    }
    Ok(())
}
