//! A worked example: a page that is marked again though its sent copy is up to date.

use collector::{Fate, Part};
use dirty_core::{Answer, Core, Event, Opening, step};
use page_message::{Body, Frame};
use std::alloc::Global;
use std::process::Abort;
use trace_codec::Shape;

/// A core of one marked page at place 0, a guest and a copier.
fn core_of_one_page(rt: &impl Abort, alloc: Global) -> Core {
    let places = vec![in alloc; 0].expect(rt, "memory");
    let dirty = vec![in alloc; 1].expect(rt, "memory");
    let opening = Opening::new(places, dirty, 1, 1).expect(rt, "an opening");
    Core::open(alloc, &opening).expect(rt, "a core")
}

/// The copier takes the page and reads its place, and the part gets a frame of it with that stamp.
fn send(core: &mut Core, part: &mut Part) -> Option<Fate> {
    let harvested = step(core, Event::Harvest { copier: 0, word: 0 });
    let read = step(core, Event::Read { copier: 0, page: 0 });
    let (Ok(Answer::Pages(1)), Ok(Answer::Place(stamp))) = (harvested, read) else {
        return None;
    };
    let frame = Frame {
        page: 0,
        stamp,
        body: Body::Zero,
    };
    if !frame.fits(&part.shape()) {
        return None;
    }
    part.accept(frame).ok()
}

#[test]
fn page_that_is_sent_once_more_is_old(rt: HostRuntime) {
    let mut core = core_of_one_page(&rt, rt.alloc());
    let shape = Shape {
        shift: 4,
        pages: 1,
        writes: 1,
    };
    let mut part = Part::new(rt.alloc(), shape);
    let store = Event::Store {
        guest: 0,
        page: 0,
        place: 1,
    };
    let stored = step(&mut core, store);
    let first = send(&mut core, &mut part);
    let marked = step(&mut core, Event::Mark { guest: 0 });
    let second = send(&mut core, &mut part);
    assert!(rt; (stored, marked) == (Ok(Answer::Done), Ok(Answer::Done)));
    assert!(rt; (first, second, part.stamp(0)) == (Some(Fate::New), Some(Fate::Old), Some(1)));
}
