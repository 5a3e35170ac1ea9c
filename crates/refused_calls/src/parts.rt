//! What a part takes.

ghost use Rattle.std.specs.Prelude.{◌≡◌, IfOk};
ghost use Rattle.migration_model.specs.Frames.{IsFrame};
ghost use Rattle.page_message.specs.Shapes.{shape_of};

use crate::fixtures::{FOURTH, SECOND, THIRD, ZEROS, frame_at, part_of, show_part};
use anyhow::Result;
use collector::{Fate, Part, PartError, merge};
use page_message::Frame;
use std::alloc::Global;
use std::io;
use trace_codec::Shape;

fn shape() -> Shape {
    Shape {
        shift: 4,
        pages: 4,
        writes: 5,
    }
}

/// Enough pages for the table of a part to grow in several steps before it has a place for the last one.
fn wide() -> Shape {
    Shape {
        shift: 4,
        pages: 65,
        writes: 5,
    }
}

/// What a part returns for a frame.
fn accepted(part: &mut Part, frame: Frame) -> Result<Fate, PartError>
    requires { IsFrame part.old.shape frame }
    ensures { part.new.shape ≡ part.old.shape }
{
    part.accept(frame)
}

/// A part gets a new frame and an old one, and the new one again.
fn accept_frames(
    rt: &impl Print,
    part: &mut Part,
    new: Frame,
    old: Frame,
    again: Frame,
) -> Result<()>
    requires new { IsFrame part.old.shape new }
    requires old { IsFrame part.old.shape old }
    requires again { IsFrame part.old.shape again }
{
    println!(rt; "ready")?;
    let fate_of_new = accepted(part, new);
    let fate_of_old = accepted(part, old);
    println!(rt; "accept {fate_of_new:?}, of an older frame {fate_of_old:?}")?;
    show_part(rt, part)?;
    let again = accepted(part, again);
    println!(rt; "again {again:?}")?;
    Ok(show_part(rt, part)?)
}

/// A part has two pages. It gets a third one far after them, and then an older frame of the first, for which it needs
/// no memory.
pub(crate) fn drive_accept(rt: &impl Print, alloc: Global) -> Result<()> {
    let shape = wide();
    let mut part = part_of(alloc, &shape, &[(1, 2, SECOND), (2, 0, ZEROS)])?;
    let new = frame_at(alloc, &shape, 64, 4, &FOURTH)?;
    let old = frame_at(alloc, &shape, 1, 1, &THIRD)?;
    let again = frame_at(alloc, &shape, 64, 4, &FOURTH)?;
    accept_frames(rt, &mut part, new, old, again)
}

/// Frames of pages 2, 3, 1, 1, 1 and 0: the first of page 1 has zeros, so that the second needs room for its bytes, and
/// the third uses that room.
static STREAM: [u8; 118] = [
    2, 0, 0, 0, 0, 0, 0, 0, 0, //
    3, 0, 0, 0, 4, 0, 0, 0, 1, 0, 0, 4, 5, 0, 0, 0, 0, 0, 0, 0, 0, 0, 0, 0, 0, //
    1, 0, 0, 0, 0, 0, 0, 0, 0, //
    1, 0, 0, 0, 2, 0, 0, 0, 1, 0, 0, 0, 0, 0, 0, 0, 0, 0, 0, 0, 0, 0, 0, 0, 2, //
    1, 0, 0, 0, 3, 0, 0, 0, 1, 3, 0, 0, 0, 0, 0, 0, 0, 0, 0, 0, 0, 0, 0, 0, 2, //
    0, 0, 0, 0, 1, 0, 0, 0, 1, 1, 0, 0, 0, 0, 0, 0, 0, 0, 0, 0, 0, 0, 0, 0, 0,
];

/// A part gets the stream, and what it returns is printed after a word.
fn accept_stream(rt: &impl Print, part: &mut Part, word: &str) -> Result<()> {
    let taken = part.accept_bytes(&STREAM);
    println!(rt; "{word} {taken:?}")?;
    Ok(show_part(rt, part)?)
}

/// An empty part gets six frames in one stream.
pub(crate) fn drive_accept_bytes(rt: &impl Print, alloc: Global) -> Result<()> {
    let mut part = Part::new(alloc, shape());
    println!(rt; "ready")?;
    accept_stream(rt, &mut part, "accept_bytes")?;
    accept_stream(rt, &mut part, "again")
}

/// Two parts that agree: one has pages 1 and 2, the other pages 1, 2 and 64.
fn two_parts(alloc: Global, shape: &Shape) -> Result<(Part, Part)>
    ensures { IfOk result (λ parts. (parts.0.shape ≡ shape_of shape.now) × (parts.1.shape ≡ shape_of shape.now)) }
{
    let first = part_of(alloc, shape, &[(1, 3, THIRD), (2, 0, ZEROS)])?;
    let second = part_of(
        alloc,
        shape,
        &[(1, 2, SECOND), (2, 0, ZEROS), (64, 4, FOURTH)],
    )?;
    Ok((first, second))
}

fn show_merged(rt: &impl Print, merged: Result<Part, PartError>) -> io::Result<()> {
    match merged {
        Ok(part) => {
            println!(rt; "merged")?;
            show_part(rt, &part)
        }
        Err(error) => println!(rt; "merge {error:?}"),
    }
}

/// Merges two parts after a word.
fn merge_two(rt: &impl Print, alloc: Global, word: &str) -> Result<()> {
    let (first, second) = two_parts(alloc, &wide())?;
    println!(rt; "{word}")?;
    Ok(show_merged(rt, merge(first, second))?)
}

/// Two parts are merged, and the table of the first must grow.
pub(crate) fn drive_merge(rt: &impl Print, alloc: Global) -> Result<()> {
    merge_two(rt, alloc, "ready")?;
    merge_two(rt, alloc, "again")
}
