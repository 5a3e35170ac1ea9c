//! Sums of a hypervisor's plan in memory that is lent. They are those of the worked plans, and of the model
//! `python/precopy_dev/models/looks.py`.

use super::plan::guest;
use super::redrawn::WRITES;
use guest_log::Timeline;
use look_planner::{LookAsked, LookSettings, LookSums, PlanEnd, look_sums, redrawn_sums};
use page_bitmap::word_count;
use predictions::redrawn::are_drawn;
use std::alloc::Global;
use std::process::Abort;
use trace_codec::Trace;

/// The writes of the worked guest.
pub(crate) const TOUCHES: [(u64, u32); 5] = [(0, 0), (5, 1), (1200, 1), (2500, 3), (2500, 1)];

/// Settings of a cold start at tick 0.
pub(crate) const COLD: LookAsked = LookAsked {
    start: 0,
    base: None,
    rate: 2,
    window: 0,
    threshold: 1,
    looks: None,
    end: 10_000,
};

/// Sums of a plan: why it ends, how many looks there are, when it stops, how many pages are sent and are left, the
/// downtime, and whether the last list is the shortest but perhaps for the first one.
pub(crate) type Sums = (PlanEnd, u64, u64, u64, u64, u64, bool);

pub(crate) fn has_sums(sums: &LookSums, expected: &Sums) -> bool {
    let &(end, looks, stop, total, left, down, shortens) = expected;
    sums.end == end
        && sums.looks == looks
        && sums.stop == stop
        && sums.total == total
        && sums.left == left
        && sums.down == down
        && sums.shortens == shortens
}

/// Returns the sums of a plan in memory that holds something else before.
fn sums_of(rt: &impl Abort, alloc: Global, trace: &Trace, asked: LookAsked) -> LookSums {
    let settings = LookSettings::new(asked).expect(rt, "settings");
    let pages = trace.page_count() as usize;
    let mut marks = Vec::from_elem(alloc, u64::MAX, word_count(pages)).expect(rt, "memory");
    let mut room = Vec::from_elem(alloc, 7, pages).expect(rt, "memory");
    look_sums(trace, &settings, &mut marks, &mut room)
}

/// Returns the sums of the plan of some pages of a trace, in memory that holds something else before. Each digit is a
/// page.
fn redrawn(
    rt: &impl Abort,
    alloc: Global,
    trace: &Trace,
    asked: LookAsked,
    digits: &str,
) -> Option<LookSums> {
    let pages = trace.page_count();
    let mut drawn = Vec::new(alloc);
    for digit in digits.bytes() {
        drawn
            .push(digit.saturating_sub(b'0') as u32)
            .expect(rt, "memory");
    }
    if !are_drawn(&drawn, pages) {
        return None;
    }
    let settings = LookSettings::new(asked).expect(rt, "settings");
    let words = word_count(pages as usize);
    let places = word_count(drawn.len());
    let mut marks = Vec::from_elem(alloc, u64::MAX, words).expect(rt, "memory");
    let mut places = Vec::from_elem(alloc, u64::MAX, places).expect(rt, "memory");
    let mut room = Vec::from_elem(alloc, 7, drawn.len()).expect(rt, "memory");
    Some(redrawn_sums(trace, &settings, &drawn, &mut marks, &mut places, &mut room))
}

#[test]
fn worked_sums(rt: HostRuntime) {
    /// The window, the threshold, the end of the record, and the sums.
    const CASES: [(u64, u64, u64, Sums); 5] = [
        (0, 1, 10_000, (PlanEnd::Few, 3, 4000, 8, 0, 0, false)),
        (300, 2, 10_000, (PlanEnd::Few, 3, 3300, 7, 1, 500, true)),
        (0, 3, 10_000, (PlanEnd::Few, 1, 2000, 6, 2, 1000, true)),
        (0, 1, 1999, (PlanEnd::Record, 0, 1999, 6, 3, 1500, true)),
        (0, 1, 2600, (PlanEnd::Record, 1, 2600, 7, 2, 1000, true)),
    ];
    let trace = guest(&rt, rt.alloc(), 4, &TOUCHES);
    for (window, threshold, end, expected) in &CASES {
        let asked = LookAsked {
            window: *window,
            threshold: *threshold,
            end: *end,
            ..COLD
        };
        let sums = sums_of(&rt, rt.alloc(), &trace, asked);
        assert!(rt; has_sums(&sums, expected));
    }
}

#[test]
fn worked_redrawn_sums(rt: HostRuntime) {
    /// It asks only when all of a list is sent, over the whole record.
    const WHOLE: LookAsked = LookAsked {
        rate: 3,
        end: 4001,
        ..COLD
    };
    /// It asks each 100 ticks.
    const WINDOWS: LookAsked = LookAsked {
        window: 100,
        threshold: 2,
        ..WHOLE
    };
    const WARM: LookAsked = LookAsked {
        start: 900,
        base: Some(300),
        rate: 5,
        ..WINDOWS
    };
    const THREE: LookAsked = LookAsked {
        rate: 9,
        threshold: 3,
        looks: Some(3),
        ..WINDOWS
    };
    const LONG: LookAsked = LookAsked {
        end: 40_000,
        ..WINDOWS
    };
    const CASES: [(LookAsked, &str, Sums); 9] = [
        (
            WHOLE,
            "012345",
            (PlanEnd::Record, 2, 4001, 16, 4, 1334, true),
        ),
        (WHOLE, "33", (PlanEnd::Few, 2, 1334, 4, 0, 0, true)),
        (WHOLE, "", (PlanEnd::Few, 1, 0, 0, 0, 0, true)),
        (
            WINDOWS,
            "012345",
            (PlanEnd::Record, 2, 4001, 15, 4, 1334, true),
        ),
        (
            WINDOWS,
            "202124",
            (PlanEnd::Record, 2, 4001, 17, 6, 2000, false),
        ),
        (LONG, "202124", (PlanEnd::Few, 4, 6500, 20, 1, 334, true)),
        (
            WARM,
            "202124",
            (PlanEnd::Record, 3, 4001, 20, 5, 1000, false),
        ),
        (WARM, "555555", (PlanEnd::Few, 1, 900, 0, 0, 0, true)),
        (
            THREE,
            "2200220",
            (PlanEnd::Looks, 3, 1600, 20, 7, 778, true),
        ),
    ];
    let alloc = rt.alloc();
    let trace = guest(&rt, alloc, 6, &WRITES);
    for &(asked, drawn, expected) in &CASES {
        let sums = redrawn(&rt, alloc, &trace, asked, drawn).expect(&rt, "pages of the guest");
        assert!(rt; has_sums(&sums, &expected), "{drawn}");
    }
    assert!(rt; redrawn(&rt, alloc, &trace, WHOLE, "16").is_none());
}
