//! The advice for cases whose downtime and pages sent are given.

use rate_limit::{Asked, Reason, Settings};
use std::alloc::Global;
use std::process::Abort;
use sweep_report::Line;
use trace_readers::TouchLog;
use trace_views::{Advice, advise};
use view_kinds::Budget;
use worked_guest::{ASKED, TRACE};

/// A case with this stop, this downtime and this many pages sent.
fn case(rt: &impl Abort, stop: u64, down: u64, total: u64) -> Line {
    let settings = Settings::new(Asked {
        min: 1000,
        max: 5000,
        increment: 500,
        threshold: 64,
        rounds: 30,
        ..ASKED
    })
    .expect(rt, "settings");
    Line {
        settings,
        rounds: 1,
        reason: Reason::Few,
        stop,
        down,
        total,
    }
}

/// Cases that stop at a tick, with these downtimes and pages sent.
fn cases(rt: &impl Abort, alloc: Global, stop: u64, costs: &[(u64, u64)]) -> Vec<Line> {
    let mut cases = Vec::new(alloc);
    for (down, total) in costs {
        cases
            .push(case(rt, stop, *down, *total))
            .expect(rt, "memory");
    }
    cases
}

/// Returns the advice for a budget, unless memory runs out. Without what ticks stand for no case has errors.
fn advised(
    rt: &impl Abort,
    alloc: Global,
    cases: &[Line],
    down: u64,
    total: Option<u64>,
) -> Option<Advice> {
    let log = TouchLog::parse(alloc, &TRACE).expect(rt, "trace");
    advise(alloc, &log, &None, &Budget { down, total }, cases).ok()
}

#[test]
fn takes_the_cheapest_case_within_a_budget(rt: HostRuntime) {
    let costs = [(500, 6), (0, 8), (250, 7), (250, 7), (200, 7)];
    let cases = cases(&rt, rt.alloc(), 2500, &costs);
    let found = [
        advised(&rt, rt.alloc(), &cases, 500, None),
        advised(&rt, rt.alloc(), &cases, 300, None),
        advised(&rt, rt.alloc(), &cases, 100, Some(8)),
        advised(&rt, rt.alloc(), &cases, 300, Some(6)),
    ];
    let over_total = Advice::OverTotal {
        nearest: 1,
        cheapest: 4,
    };
    let expected = [
        Advice::Fits(0),
        Advice::Fits(4),
        Advice::Fits(1),
        over_total,
    ];
    assert!(rt; found == expected.map(Some));
}

#[test]
fn takes_the_least_downtime_where_no_case_keeps_it(rt: HostRuntime) {
    let costs = [(500, 6), (300, 8), (300, 7), (300, 7)];
    let cases = cases(&rt, rt.alloc(), 2500, &costs);
    assert!(rt; advised(&rt, rt.alloc(), &cases, 299, Some(9)) == Some(Advice::OverDown(2)));
}

#[test]
fn takes_no_case_that_ends_after_the_trace(rt: HostRuntime) {
    let mut mixed = cases(&rt, rt.alloc(), 2501, &[(0, 6), (100, 6)]);
    let unknown = advised(&rt, rt.alloc(), &mixed, 500, None);
    mixed.push(case(&rt, 2500, 300, 8)).expect(&rt, "memory");
    let found = [
        unknown,
        advised(&rt, rt.alloc(), &mixed, 500, None),
        advised(&rt, rt.alloc(), &mixed, 299, None),
    ];
    let expected = [Advice::Unknown, Advice::Fits(2), Advice::OverDown(2)];
    assert!(rt; found == expected.map(Some));
}
