//! Worked openings of the dirty core, with their events and answers.

use dirty_core::{Answer, Core, CoreRefusal, Event, Opening, run, step};
use std::alloc::Global;
use std::process::Abort;

/// What a guest or a copier does.
#[derive(Clone, Copy)]
enum Does {
    /// Guest 0 stores a page, at a place.
    Store,
    /// Guest 0 marks the page that it stored.
    Mark,
    /// A copier harvests a word.
    Harvest,
    /// Copier 0 peeks at a word.
    Peek,
    /// Copier 0 restores these pages of word 0.
    Restore,
    /// Copier 0 reads a page.
    Read,
}

/// Returns the event of these numbers.
fn event(does: Does, first: u32, second: u32) -> Event {
    match does {
        Does::Store => Event::Store {
            guest: 0,
            page: first,
            place: second,
        },
        Does::Mark => Event::Mark { guest: 0 },
        Does::Harvest => Event::Harvest {
            copier: first as usize,
            word: second as usize,
        },
        Does::Peek => Event::Peek {
            copier: 0,
            word: first as usize,
        },
        Does::Restore => Event::Restore {
            copier: 0,
            word: 0,
            bits: u64::from(first),
        },
        Does::Read => Event::Read {
            copier: 0,
            page: first,
        },
    }
}

/// An event, its numbers, and the answer to it.
type Step = (Does, u32, u32, Result<Answer, CoreRefusal>);

/// Returns an opening of pages at place 0, if there is one.
fn opening_of(
    rt: &impl Abort,
    alloc: Global,
    pages: usize,
    dirty: u64,
    last: Option<u64>,
    guests: usize,
    copiers: usize,
) -> Option<Opening> {
    let places = vec![in alloc; 0u32; pages].expect(rt, "memory");
    let mut words = vec![in alloc; dirty].expect(rt, "memory");
    if let Some(last) = last {
        words.push(last).expect(rt, "memory");
    }
    Opening::new(places, words, guests, copiers)
}

/// Returns a core that opens with these parts.
fn core_of(
    rt: &impl Abort,
    alloc: Global,
    pages: usize,
    dirty: u64,
    last: Option<u64>,
    guests: usize,
    copiers: usize,
) -> Core {
    let opening = opening_of(rt, alloc, pages, dirty, last, guests, copiers);
    let opening = opening.expect(rt, "an opening");
    Core::open(alloc, &opening).expect(rt, "a core")
}

/// Steps through the events, and compares each answer.
fn follow(rt: &impl Abort, core: &mut Core, steps: &[Step]) {
    for &(does, first, second, wanted) in steps {
        let event = event(does, first, second);
        let answer = step(core, event);
        assert!(rt; answer == wanted, "at {event:?}");
    }
}

#[test]
fn two_clean_pages(rt: HostRuntime) {
    const STEPS: [Step; 9] = [
        (Does::Mark, 0, 0, Err(CoreRefusal::NothingPending)),
        (Does::Store, 0, 1, Ok(Answer::Done)),
        (Does::Store, 1, 2, Err(CoreRefusal::Pending)),
        (Does::Mark, 0, 0, Ok(Answer::Done)),
        (Does::Harvest, 0, 0, Ok(Answer::Pages(1))),
        (Does::Read, 0, 0, Ok(Answer::Place(1))),
        (Does::Read, 0, 0, Err(CoreRefusal::NotHeld)),
        (Does::Store, 0, 1, Err(CoreRefusal::OldPlace)),
        (Does::Harvest, 0, 1, Err(CoreRefusal::NotOwner)),
    ];
    let opening = opening_of(&rt, rt.alloc(), 2, 0, None, 1, 1).expect(&rt, "an opening");
    let mut core = Core::open(rt.alloc(), &opening).expect(&rt, "a core");
    assert!(rt; core.place(0) == 0);
    follow(&rt, &mut core, &STEPS);
}

/// Returns whether page 0 is marked, whether copier 0 holds it, and what is pending for guest 0.
fn page_zero(core: &Core) -> (bool, bool, Option<u32>) {
    (core.marked(0), core.held(0, 0), core.pending(0))
}

#[test]
fn marked_again_though_not_behind(rt: HostRuntime) {
    const STEPS: [Step; 4] = [
        (Does::Store, 0, 1, Ok(Answer::Done)),
        (Does::Harvest, 0, 0, Ok(Answer::Pages(1))),
        (Does::Read, 0, 0, Ok(Answer::Place(1))),
        (Does::Mark, 0, 0, Ok(Answer::Done)),
    ];
    let opening = opening_of(&rt, rt.alloc(), 1, 1, None, 1, 1).expect(&rt, "an opening");
    let mut core = Core::open(rt.alloc(), &opening).expect(&rt, "a core");
    follow(&rt, &mut core, &STEPS);
    let stored = event(Does::Store, 0, 1);
    let mark = event(Does::Mark, 0, 0);
    let events = [
        stored,
        event(Does::Harvest, 0, 0),
        event(Does::Read, 0, 0),
        mark,
    ];
    let after = run(rt.alloc(), &opening, &events).ok();
    let refused = run(rt.alloc(), &opening, &[stored, mark, mark]).err();
    drop(opening);
    let wanted = (true, false, None);
    assert!(rt;
        (page_zero(&core), after.as_ref().map(page_zero), refused)
            == (wanted, Some(wanted), Some((2, CoreRefusal::NothingPending)))
    );
}

#[test]
fn restored_while_stored_again(rt: HostRuntime) {
    const STEPS: [Step; 7] = [
        (Does::Harvest, 0, 0, Ok(Answer::Pages(3))),
        (Does::Store, 1, 1, Ok(Answer::Done)),
        (Does::Mark, 0, 0, Ok(Answer::Done)),
        (Does::Peek, 0, 0, Ok(Answer::Pages(2))),
        (Does::Restore, 2, 0, Ok(Answer::Done)),
        (Does::Read, 1, 0, Err(CoreRefusal::NotHeld)),
        (Does::Read, 0, 0, Ok(Answer::Place(0))),
    ];
    let mut core = core_of(&rt, rt.alloc(), 2, 3, None, 1, 1);
    follow(&rt, &mut core, &STEPS);
    assert!(rt;
        [
            core.marked(0),
            core.marked(1),
            core.held(0, 0),
            core.held(0, 1)
        ] == [false, true, false, false]
    );
}

#[test]
fn restored_after_a_read(rt: HostRuntime) {
    const STEPS: [Step; 4] = [
        (Does::Harvest, 0, 0, Ok(Answer::Pages(3))),
        (Does::Read, 1, 0, Ok(Answer::Place(0))),
        (Does::Restore, 3, 0, Err(CoreRefusal::NotHeld)),
        (Does::Restore, 0, 0, Ok(Answer::Done)),
    ];
    let mut core = core_of(&rt, rt.alloc(), 2, 3, None, 1, 1);
    follow(&rt, &mut core, &STEPS);
    assert!(rt; core.held(0, 0));
}

#[test]
fn words_of_two_copiers(rt: HostRuntime) {
    const STEPS: [Step; 4] = [
        (Does::Harvest, 0, 1, Err(CoreRefusal::NotOwner)),
        (Does::Harvest, 1, 2, Err(CoreRefusal::NotOwner)),
        (Does::Harvest, 1, 1, Ok(Answer::Pages(1))),
        (Does::Harvest, 1, 1, Ok(Answer::Pages(0))),
    ];
    let mut core = core_of(&rt, rt.alloc(), 65, 0, Some(1), 1, 2);
    follow(&rt, &mut core, &STEPS);
    assert!(rt; core.held(1, 64) && !core.held(0, 64));
}

#[test]
fn no_such_opening(rt: HostRuntime) {
    let refused = [
        opening_of(&rt, rt.alloc(), 4, 16, None, 1, 1).is_none(),
        opening_of(&rt, rt.alloc(), 4, 15, None, 17, 1).is_none(),
        opening_of(&rt, rt.alloc(), 0, 0, None, 1, 1).is_none(),
    ];
    assert!(rt; refused == [true; 3]);
    let opening = opening_of(&rt, rt.alloc(), 4, 15, None, 16, 2).expect(&rt, "an opening");
    assert!(rt;
        (
            opening.dirty(),
            opening.places(),
            opening.guests(),
            opening.copiers()
        ) == (&[15][..], &[0, 0, 0, 0][..], 16, 2)
    );
}

#[test]
fn names_of_refusals(rt: HostRuntime) {
    const NAMES: [(CoreRefusal, &str); 6] = [
        (CoreRefusal::NotOwner, "C1"),
        (CoreRefusal::Pending, "C2"),
        (CoreRefusal::NothingPending, "C3"),
        (CoreRefusal::NotHeld, "C4"),
        (CoreRefusal::OldPlace, "C5"),
        (CoreRefusal::Memory, "C6"),
    ];
    for (refusal, name) in &NAMES {
        let text = refusal.to_string(rt.alloc()).expect(&rt, "memory");
        assert!(rt; text.as_str() == *name);
    }
}
