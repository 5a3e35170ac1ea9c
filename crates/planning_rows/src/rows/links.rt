//! Sums of a hypervisor's plan over links whose rate changes. Each was worked out by hand, by the link's clock.

use super::plan::guest;
use super::sums::{COLD, Sums, TOUCHES, has_sums};
use guest_log::Timeline;
use link_clock::{Link, LinkChange, LinkError, link_sums};
use look_planner::{LookAsked, LookSettings, LookSums, PlanEnd};
use page_bitmap::word_count;
use std::alloc::Global;
use std::process::Abort;
use trace_codec::Trace;

/// Returns a link of 2 pages per 1,000 ticks that changes at two ticks.
fn link_of(
    rt: &impl Abort,
    alloc: Global,
    first: (u64, u64),
    second: (u64, u64),
) -> Result<Link, LinkError> {
    let mut changes = Vec::new(alloc);
    for (tick, rate) in [first, second] {
        changes.push(LinkChange { tick, rate }).expect(rt, "memory");
    }
    Link::new(2, changes)
}

/// Returns the sums of a plan over a link, in memory that holds something else before.
fn sums_over(
    rt: &impl Abort,
    alloc: Global,
    trace: &Trace,
    link: &Link,
    asked: LookAsked,
) -> LookSums {
    let settings = LookSettings::new(asked).expect(rt, "settings");
    let pages = trace.page_count() as usize;
    let mut marks = Vec::from_elem(alloc, u64::MAX, word_count(pages)).expect(rt, "memory");
    let mut room = Vec::from_elem(alloc, 7, pages).expect(rt, "memory");
    link_sums(trace, link, &settings, &mut marks, &mut room)
}

#[test]
fn worked_links(rt: HostRuntime) {
    /// Two changes of the link, the threshold, the end of the record, and the sums.
    const CASES: [((u64, u64), (u64, u64), u64, u64, Sums); 5] = [
        (
            (1000, 1),
            (1000, 1),
            1,
            10_000,
            (PlanEnd::Few, 2, 6000, 7, 0, 0, true),
        ),
        (
            (1000, 1),
            (1000, 1),
            4,
            10_000,
            (PlanEnd::Few, 1, 3000, 7, 3, 3000, true),
        ),
        (
            (1000, 1),
            (1000, 1),
            1,
            2500,
            (PlanEnd::Record, 0, 2500, 6, 3, 3000, true),
        ),
        (
            (1000, 1),
            (2000, 2),
            1,
            10_000,
            (PlanEnd::Few, 3, 4500, 8, 0, 0, false),
        ),
        (
            (0, 2),
            (9000, 1),
            1,
            10_000,
            (PlanEnd::Few, 3, 4000, 8, 0, 0, false),
        ),
    ];
    let trace = guest(&rt, rt.alloc(), 4, &TOUCHES);
    for (first, second, threshold, end, expected) in &CASES {
        let link = link_of(&rt, rt.alloc(), *first, *second).expect(&rt, "link");
        let asked = LookAsked {
            rate: 1,
            threshold: *threshold,
            end: *end,
            ..COLD
        };
        let sums = sums_over(&rt, rt.alloc(), &trace, &link, asked);
        assert!(rt; has_sums(&sums, expected));
    }
}

fn is_refused(
    rt: &impl Abort,
    alloc: Global,
    first: (u64, u64),
    second: (u64, u64),
    change: usize,
) -> bool {
    link_of(rt, alloc, first, second).err() == Some(LinkError::Change(change))
}

#[test]
fn refused_links(rt: HostRuntime) {
    assert!(rt; is_refused(&rt, rt.alloc(), (5, 2), (4, 1), 1));
    assert!(rt; is_refused(&rt, rt.alloc(), (5, 3), (6, 0), 0));
    assert!(rt; is_refused(&rt, rt.alloc(), (5, 1), (6, 0), 1));
    assert!(rt; Link::new(0, Vec::new(rt.alloc())).err() == Some(LinkError::Rate));
}
