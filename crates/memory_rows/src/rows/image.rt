//! Worked examples: parts of a guest of 4 pages of 16 bytes, with 5 writes.

ghost use Rattle.std.specs.Prelude.{◌≡◌};
ghost use Rattle.std.specs.List.{All};
ghost use Rattle.page_message.specs.Shapes.{shape_of};

use super::fixtures::{
    AT_END, AT_STOP, FIRST, FOURTH, Page, SECOND, THIRD, ZEROS, page_of, part_of,
};
use collector::Part;
use image_build::{ImageError, JoinedParts, of_parts};
use page_message::Body;
use std::alloc::Global;
use std::process::Abort;
use trace_codec::Shape;

const SHAPE: Shape = Shape {
    shift: 4,
    pages: 4,
    writes: 5,
};

/// Returns two parts that together have all pages, one of them at two stamps.
fn two_parts(rt: &impl Abort, alloc: Global, shape: &Shape) -> Vec<Part>
    ensures { All (λ part. part.shape ≡ shape_of shape.now) result.items }
{
    let first = part_of(
        rt,
        alloc,
        shape,
        &[(0, 1, FIRST), (1, 3, THIRD), (2, 0, ZEROS)],
    );
    let second = part_of(rt, alloc, shape, &[(1, 5, SECOND), (3, 4, FOURTH)]);
    vec![in alloc; first, second].expect(rt, "memory")
}

#[test]
fn parts_together_give_memory(rt: HostRuntime) {
    let alloc = rt.alloc();
    let image = of_parts(alloc, &SHAPE, two_parts(&rt, alloc, &SHAPE)).expect(&rt, "an image");
    let other = image.copy(alloc).expect(&rt, "memory");
    assert!(rt;
        [image.bytes(), other.bytes()] == [AT_END.as_slice(), AT_END.as_slice()]
            && other.fits(&SHAPE)
    );
}

/// Returns a page of memory left in parts, copied over other bytes.
fn page_in(alloc: Global, memory: &JoinedParts, page: u32) -> Option<Page> {
    let shape = memory.shape();
    let mut room = Vec::from_elem(alloc, 7u8, 16).ok()?;
    if page >= shape.pages || room.len() != shape.page_size() {
        return None;
    }
    memory.page_into(page, &mut room);
    page_of(&room)
}

#[test]
fn pages_stand_in_parts(rt: HostRuntime) {
    let alloc = rt.alloc();
    let parts = two_parts(&rt, alloc, &SHAPE);
    let memory = JoinedParts::new(SHAPE, parts).expect(&rt, "all pages");
    let pages = [
        page_in(alloc, &memory, 3),
        page_in(alloc, &memory, 1),
        page_in(alloc, &memory, 2),
        page_in(alloc, &memory, 0),
    ];
    let image = memory.image(alloc).expect(&rt, "an image");
    let expected = [Some(FOURTH), Some(SECOND), Some(ZEROS), Some(FIRST)];
    assert!(rt; pages == expected && image.bytes() == AT_END.as_slice());
}

#[test]
fn least_page_in_no_part_is_named(rt: HostRuntime) {
    let alloc = rt.alloc();
    let part = part_of(&rt, alloc, &SHAPE, &[(0, 0, ZEROS), (2, 0, ZEROS)]);
    let parts = vec![in alloc; part].expect(&rt, "memory");
    assert!(rt;
        (
            of_parts(alloc, &SHAPE, parts).err(),
            of_parts(alloc, &SHAPE, Vec::new(alloc)).err(),
            JoinedParts::new(SHAPE, Vec::new(alloc)).err()
        ) == (
            Some(ImageError::Missing(1)),
            Some(ImageError::Missing(0)),
            Some(ImageError::Missing(0))
        )
    );
}

/// Returns a part's stamp of a page, and the page's bytes, or None in their place if all of them are 0.
fn kept(part: &Part, page: u32) -> Option<(u32, Option<Page>)> {
    let frame = part.frame(page)?;
    match &frame.body {
        Body::Zero => Some((frame.stamp, None)),
        Body::Data(bytes) => Some((frame.stamp, page_of(bytes))),
    }
}

#[test]
fn memory_makes_a_part(rt: HostRuntime) {
    let part = Part::of_image(rt.alloc(), SHAPE, &AT_STOP, &[1, 3, 0, 0]).expect(&rt, "a part");
    let pages = [
        kept(&part, 0),
        kept(&part, 1),
        kept(&part, 2),
        kept(&part, 3),
    ];
    assert!(rt;
        pages
            == [
                Some((1, Some(FIRST))),
                Some((3, Some(THIRD))),
                Some((0, None)),
                Some((0, None))
            ]
    );
}
