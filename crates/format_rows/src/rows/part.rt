//! Worked examples: parts of a guest of 4 pages of 16 bytes, with 5 writes.

ghost use Rattle.std.specs.Prelude.{◌≡◌, ◌<◌, ◌≤◌};
ghost use Rattle.page_message.specs.Shapes.{shape_of};

use super::fixtures::{DATA_FRAME, ZEROS_FRAME, shape};
use collector::{Fate, Part, PartError, merge};
use page_message::{Body, FrameError, append_frame, decode_frame, frame_of};
use std::alloc::Global;
use std::process::Abort;
use trace_codec::Shape;

/// Gives the part a page filled with this byte. Returns the page's fate, or None if memory ran out.
fn give(
    alloc: Global,
    part: &mut Part,
    shape: &Shape,
    page: u32,
    stamp: u32,
    byte: u8,
) -> Option<Fate>
    requires part { part.old.shape ≡ shape_of shape.now }
    requires page { page < shape.now.pages }
    requires stamp { stamp ≤ shape.now.writes }
    ensures { part.new.shape ≡ part.old.shape }
{
    let bytes = vec![in alloc; byte; shape.page_size()].ok()?;
    part.accept(frame_of(shape, page, stamp, bytes)).ok()
}

/// Returns a part that got page 1 with these stamps in turn, and the fate of each.
fn given(alloc: Global, first: u32, second: u32, third: u32) -> (Part, [Option<Fate>; 3])
    requires first { first ≤ 5 }
    requires second { second ≤ 5 }
    requires third { third ≤ 5 }
{
    let shape = shape();
    let mut part = Part::new(alloc, shape);
    let fates = [
        give(alloc, &mut part, &shape, 1, first, 7),
        give(alloc, &mut part, &shape, 1, second, 8),
        give(alloc, &mut part, &shape, 1, third, 9),
    ];
    (part, fates)
}

#[test]
fn greatest_stamp_is_kept(rt: HostRuntime) {
    assert!(rt; Part::new(rt.alloc(), shape()).stamp(1).is_none());
    let (part, fates) = given(rt.alloc(), 5, 2, 5);
    assert!(rt;
        (fates, part.stamp(1)) == ([Some(Fate::New), Some(Fate::Old), Some(Fate::Old)], Some(5))
    );
    drop(part);
    let (other, fates) = given(rt.alloc(), 2, 5, 2);
    assert!(rt;
        (fates, other.stamp(1), other.stamp(65_536), other.shape())
            == (
                [Some(Fate::New), Some(Fate::Newer), Some(Fate::Old)],
                Some(5),
                None,
                shape()
            )
    );
}

/// Exchanges page 1, filled with this byte. Returns the stamp and the first byte of the frame that goes.
fn swap(
    alloc: Global,
    part: &mut Part,
    shape: &Shape,
    stamp: u32,
    byte: u8,
) -> Result<Option<(u32, u8)>, PartError>
    requires part { part.old.shape ≡ shape_of shape.now }
    requires pages { 1 < shape.now.pages }
    requires stamp { stamp ≤ shape.now.writes }
    ensures { part.new.shape ≡ part.old.shape }
{
    let bytes = vec![in alloc; byte; shape.page_size()]?;
    let Some(gone) = part.exchange(frame_of(shape, 1, stamp, bytes))? else {
        return Ok(None);
    };
    let first = match &gone.body {
        Body::Zero => 0,
        Body::Data(bytes) => bytes.first().copied().unwrap_or(0),
    };
    Ok(Some((gone.stamp, first)))
}

#[test]
fn older_frame_goes(rt: HostRuntime) {
    let shape = shape();
    let mut part = Part::new(rt.alloc(), shape);
    let gone = [
        swap(rt.alloc(), &mut part, &shape, 2, 7),
        swap(rt.alloc(), &mut part, &shape, 4, 8),
        swap(rt.alloc(), &mut part, &shape, 3, 9),
        swap(rt.alloc(), &mut part, &shape, 4, 6),
        swap(rt.alloc(), &mut part, &shape, 5, 0),
    ];
    assert!(rt;
        (gone, part.stamp(1))
            == (
                [
                    Ok(None),
                    Ok(Some((2, 7))),
                    Ok(Some((3, 9))),
                    Ok(Some((4, 6))),
                    Ok(Some((4, 8)))
                ],
                Some(5)
            )
    );
}

/// Returns a frame of zeros followed by these bytes.
fn behind_zeros(rt: &impl Abort, alloc: Global, frame: &[u8]) -> Vec<u8> {
    let mut bytes = Vec::from_slice(alloc, &ZEROS_FRAME).expect(rt, "memory");
    bytes.extend_from_slice(frame).expect(rt, "memory");
    bytes
}

#[test]
fn frames_in_front_of_a_refused_one_are_taken(rt: HostRuntime) {
    let mut bytes = behind_zeros(&rt, rt.alloc(), &DATA_FRAME);
    bytes.truncate(33);
    let mut part = Part::new(rt.alloc(), shape());
    let taken = part.accept_bytes(&bytes);
    drop(bytes);
    assert!(rt;
        (
            taken,
            [part.stamp(0), part.stamp(1), part.stamp(2), part.stamp(3)]
        ) == (Err((1, FrameError::Short)), [None, None, Some(0), None])
    );
}

#[test]
fn frames_are_taken_to_the_end(rt: HostRuntime) {
    let bytes = behind_zeros(&rt, rt.alloc(), &ZEROS_FRAME);
    let mut part = Part::new(rt.alloc(), shape());
    let taken = [
        part.accept_bytes(&bytes),
        part.accept_bytes(&DATA_FRAME),
        part.accept_bytes(b""),
    ];
    drop(bytes);
    assert!(rt;
        (taken, [part.stamp(0), part.stamp(2), part.stamp(3)])
            == ([Ok(2), Ok(1), Ok(0)], [None, Some(0), Some(4)])
    );
}

/// What a part returns for the frame at the front of some bytes, if there is one and memory lasts.
fn accept_front(alloc: Global, part: &mut Part, bytes: &[u8]) -> Option<Fate> {
    let shape = part.shape();
    let (frame, _) = decode_frame(alloc, &shape, bytes).ok()?;
    if !frame.fits(&shape) {
        return None;
    }
    part.accept(frame).ok()
}

#[test]
fn frame_that_comes_twice_is_old(rt: HostRuntime) {
    let mut part = Part::new(rt.alloc(), shape());
    let fates = [
        accept_front(rt.alloc(), &mut part, &ZEROS_FRAME),
        accept_front(rt.alloc(), &mut part, &ZEROS_FRAME),
    ];
    assert!(rt; (fates, part.stamp(2)) == ([Some(Fate::New), Some(Fate::Old)], Some(0)));
}

/// Returns the value of each of page 1's bytes, if the part has the page and they are equal.
fn filling(part: &Part) -> Option<u8> {
    match &part.frame(1)?.body {
        Body::Zero => Some(0),
        Body::Data(bytes) => {
            let byte = *bytes.first()?;
            (bytes.as_slice() == [byte; 16].as_slice()).then_some(byte)
        }
    }
}

/// Gives the part the encoding of page 1, filled with this byte. Returns how many frames the part takes, and then its
/// stamp of the page and the byte that fills the page.
fn copy(
    alloc: Global,
    part: &mut Part,
    stamp: u32,
    byte: u8,
) -> (Option<usize>, Option<u32>, Option<u8>)
    requires { stamp ≤ 5 }
{
    let mut stream = Vec::new(alloc);
    let spelled = append_frame(&mut stream, &shape(), 1, stamp, &[byte; 16]);
    let taken = match spelled {
        Ok(()) => part.accept_bytes(&stream).ok(),
        Err(_) => None,
    };
    (taken, part.stamp(1), filling(part))
}

#[test]
fn newer_frames_are_copied_over_older_ones(rt: HostRuntime) {
    let mut part = Part::new(rt.alloc(), shape());
    let copies = [
        copy(rt.alloc(), &mut part, 1, 7),
        copy(rt.alloc(), &mut part, 2, 8),
        copy(rt.alloc(), &mut part, 3, 0),
        copy(rt.alloc(), &mut part, 5, 9),
        copy(rt.alloc(), &mut part, 4, 6),
    ];
    assert!(rt;
        copies
            == [
                (Some(1), Some(1), Some(7)),
                (Some(1), Some(2), Some(8)),
                (Some(1), Some(3), Some(0)),
                (Some(1), Some(5), Some(9)),
                (Some(1), Some(5), Some(9)),
            ]
    );
}

/// Returns the join of two parts, the first with pages 1 and 2, the second with pages 1, 2 and 3.
fn merged(alloc: Global) -> Option<Part> {
    let shape = shape();
    let mut first = Part::new(alloc, shape);
    let mut second = Part::new(alloc, shape);
    let fates = [
        give(alloc, &mut first, &shape, 1, 3, 7),
        give(alloc, &mut first, &shape, 2, 0, 0),
        give(alloc, &mut second, &shape, 1, 3, 9),
        give(alloc, &mut second, &shape, 2, 4, 8),
        give(alloc, &mut second, &shape, 3, 1, 6),
    ];
    if fates != [Some(Fate::New); 5] {
        return None;
    }
    merge(first, second).ok()
}

#[test]
fn first_part_stays_where_stamps_are_equal(rt: HostRuntime) {
    let both = merged(rt.alloc()).expect(&rt, "a part");
    let stamps = [both.stamp(0), both.stamp(1), both.stamp(2), both.stamp(3)];
    assert!(rt;
        (stamps, filling(&both), both.frame(0).is_none())
            == ([None, Some(3), Some(4), Some(1)], Some(7), true)
    );
}

/// Returns the join of two parts as a final copy leaves them: the first had pages 1, 2 and 3, and pages 0 and 1 were
/// marked.
fn merged_after_a_final_copy(alloc: Global) -> Option<Part> {
    let shape = shape();
    let mut first = Part::new(alloc, shape);
    let mut second = Part::new(alloc, shape);
    let fates = [
        give(alloc, &mut first, &shape, 1, 2, 7),
        give(alloc, &mut first, &shape, 2, 0, 0),
        give(alloc, &mut first, &shape, 3, 0, 0),
        give(alloc, &mut first, &shape, 0, 1, 8),
        give(alloc, &mut second, &shape, 1, 3, 9),
    ];
    if fates != [Some(Fate::New); 5] {
        return None;
    }
    merge(first, second).ok()
}

#[test]
fn join_has_the_greatest_stamps(rt: HostRuntime) {
    let both = merged_after_a_final_copy(rt.alloc()).expect(&rt, "a part");
    let stamps = [both.stamp(0), both.stamp(1), both.stamp(2), both.stamp(3)];
    assert!(rt; (stamps, filling(&both)) == ([Some(1), Some(3), Some(0), Some(0)], Some(9)));
}
