//! Worked examples, with results worked out by hand.

use guest_log::Timeline;
use page_bitmap::word_count;
use rate_limit::{Asked, Reason, Settings};
use round_planner::{
    Following, Outcome, Plan, Planner, Round, RoundIndex, RoundNumbers, RoundSums, mark_until,
    par_plan, plan,
};
use std::alloc::Global;
use std::fmt::{self, Write as _};
use std::process::Abort;
use std::thread::Threads;
use trace_codec::{Trace, Write};
use worked_guest::ASKED;

/// Returns a trace whose writes are of one byte, at these ticks and to these pages.
pub(crate) fn guest(rt: &impl Abort, alloc: Global, pages: u32, touches: &[(u64, u32)]) -> Trace {
    let mut writes = Vec::new(alloc);
    for (tick, page) in touches {
        writes
            .push(Write {
                tick: *tick,
                page: *page,
                offset: 0,
                bytes: Vec::from_slice(alloc, &[1]).expect(rt, "memory"),
            })
            .expect(rt, "memory");
    }
    Trace::new(1, 4, pages, writes).expect(rt, "a trace")
}

/// The writes of the worked guest.
const TOUCHES: [(u64, u32); 5] = [(0, 0), (5, 1), (1200, 1), (2500, 3), (2500, 1)];

/// The same, except that the last two writes come a tick earlier.
const EARLIER: [(u64, u32); 5] = [(0, 0), (5, 1), (1200, 1), (2499, 3), (2499, 1)];

/// Writes to pages at the edges of three words. The second round sends a page in 7 ticks and 90 of 130 parts of one
/// more. Page 63 is written one tick before its scan ends, page 64 exactly when it has ended, and page 129 in the tick
/// that the parts of two pages make.
const EDGES: [(u64, u32); 7] = [
    (10, 129),
    (20, 64),
    (30, 0),
    (40, 63),
    (1006, 63),
    (1007, 64),
    (1014, 129),
];

/// A guest, by what it writes.
#[derive(Clone, Copy)]
enum GuestKind {
    Worked,
    Earlier,
    /// It writes nothing.
    Idle,
    /// It writes the first page of the second word.
    LastWord,
    Edges,
}

impl GuestKind {
    /// Returns the trace of the guest.
    fn trace(self, rt: &impl Abort, alloc: Global) -> Trace {
        match self {
            GuestKind::Worked => guest(rt, alloc, 4, &TOUCHES),
            GuestKind::Earlier => guest(rt, alloc, 4, &EARLIER),
            GuestKind::Idle => guest(rt, alloc, 4, &[]),
            GuestKind::LastWord => guest(rt, alloc, 65, &[(10, 64)]),
            GuestKind::Edges => guest(rt, alloc, 130, &EDGES),
        }
    }
}

/// Returns the worked settings with these changes.
fn asked_with(max: u64, threshold: u64, start: u64, skip: bool) -> Asked {
    Asked {
        max,
        threshold,
        start,
        skip,
        ..ASKED
    }
}

/// Settings of a warm start.
fn warm(base: u64, start: u64, skip: bool) -> Asked {
    Asked {
        base: Some(base),
        ..asked_with(4, 1, start, skip)
    }
}

/// Pages of a plan: their list, or how many they are if these are more than eight.
#[derive(Clone, Copy)]
struct Pages<'a>(&'a [u32]);

impl fmt::Display for Pages<'_> {
    fn fmt<W: fmt::Write>(&self, f: &mut fmt::Formatter<W>) -> fmt::Result {
        let Pages(pages) = *self;
        if pages.len() > 8 {
            write!(f, "{} pages", pages.len())
        } else {
            write!(f, "{pages:?}")
        }
    }
}

/// Returns a plan's rounds (from, to, rate, pages, those sent, how many were dirtied), and then why and when it stops,
/// the pages that are left, the downtime and the total.
fn text_of(rt: &impl Abort, alloc: Global, plan: &Plan) -> String {
    let mut text = String::new(alloc);
    for round in &plan.rounds {
        let Round { from, to, rate, .. } = round;
        let (pages, sent) = (Pages(&round.pages), Pages(&round.sent));
        write!(
            text,
            "{from} {to} {rate} {pages} {sent} {}; ",
            round.dirtied
        )
        .expect(rt, "memory");
    }
    let last = Pages(&plan.last);
    write!(
        text,
        "{} {} {last} {} {}",
        plan.reason,
        plan.stop,
        plan.down,
        plan.total()
    )
    .expect(rt, "memory");
    text
}

/// Rounds, reason, stop, downtime and total.
pub(crate) type Told = (u64, Reason, u64, u64, u64);

fn told_of_plan(plan: &Plan) -> Told {
    let rounds = plan.rounds.len() as u64;
    (rounds, plan.reason, plan.stop, plan.down, plan.total())
}

pub(crate) fn told(outcome: &Outcome) -> Told {
    (
        outcome.rounds,
        outcome.reason,
        outcome.stop,
        outcome.down,
        outcome.total,
    )
}

/// Returns whether this is the text of a plan.
fn is_as(rt: &impl Abort, alloc: Global, plan: &Plan, expected: &str) -> bool {
    text_of(rt, alloc, plan).as_str() == expected
}

/// Returns whether a planner that plans a second time finds the sums of a plan.
fn has_sums(
    rt: &impl Abort,
    alloc: Global,
    trace: &Trace,
    settings: &Settings,
    plan: &Plan,
) -> bool {
    let index = RoundIndex::build(alloc, trace).expect(rt, "an index");
    let mut planner = Planner::new(alloc, trace).expect(rt, "a planner");
    planner.outcome(trace, &index, settings);
    let second = told(&planner.outcome(trace, &index, settings));
    [second, told(&plan.outcome())] == [told_of_plan(plan); 2]
}

/// Returns whether this plan is made on one thread, with its sums.
fn is_planned_alone(
    rt: &impl Abort,
    alloc: Global,
    trace: &Trace,
    settings: &Settings,
    expected: &str,
) -> bool {
    let plan = plan(alloc, trace, settings).expect(rt, "a plan");
    is_as(rt, alloc, &plan, expected) && has_sums(rt, alloc, trace, settings, &plan)
}

/// Returns whether any number of workers makes this plan.
fn is_planned_by_workers<R: Abort + Threads + Sync>(
    rt: &R,
    alloc: Global,
    trace: &Trace,
    settings: &Settings,
    expected: &str,
) -> bool {
    let mut right = true;
    for workers in [1, 3, 16] {
        let plan = par_plan(rt, alloc, trace, settings, workers).expect(rt, "a plan");
        right &= is_as(rt, alloc, &plan, expected);
    }
    right
}

/// Returns whether each way to plan makes this plan.
fn is_planned<R: Abort + Threads + Sync>(
    rt: &R,
    alloc: Global,
    guest: GuestKind,
    asked: Asked,
    expected: &str,
) -> bool {
    let trace = guest.trace(rt, alloc);
    let settings = Settings::new(asked).expect(rt, "settings");
    let is_right = is_planned_alone(rt, alloc, &trace, &settings, expected);
    is_right && is_planned_by_workers(rt, alloc, &trace, &settings, expected)
}

#[test]
fn worked_plans(rt: HostRuntime) {
    /// A guest, the greatest rate, the threshold, the start, whether pages are skipped, and the plan.
    const CASES: [(GuestKind, u64, u64, u64, bool, &str); 8] = [
        (
            GuestKind::Worked,
            4,
            1,
            0,
            false,
            "0 2000 2 [0, 1, 2, 3] [0, 1, 2, 3] 2; 2000 3000 2 [0, 1] [0, 1] 2; 3000 3667 3 [1, 3] [1, 3] 0; \
             few 3667 [] 0 8",
        ),
        (
            GuestKind::Worked,
            2,
            1,
            0,
            false,
            "0 2000 2 [0, 1, 2, 3] [0, 1, 2, 3] 2; 2000 3000 2 [0, 1] [0, 1] 2; fast 3000 [1, 3] 1000 8",
        ),
        (
            GuestKind::Worked,
            4,
            1,
            0,
            true,
            "0 2000 2 [0, 1, 2, 3] [0, 1, 2, 3] 2; 2000 3000 2 [0, 1] [0, 1] 2; 3000 3667 3 [1, 3] [1, 3] 0; \
             few 3667 [] 0 8",
        ),
        (
            GuestKind::Earlier,
            4,
            1,
            0,
            true,
            "0 2000 2 [0, 1, 2, 3] [0, 1, 2, 3] 2; 2000 2500 2 [0, 1] [0] 2; fast 2500 [1, 3] 500 7",
        ),
        (
            GuestKind::Worked,
            4,
            3,
            0,
            false,
            "0 2000 2 [0, 1, 2, 3] [0, 1, 2, 3] 2; few 2000 [0, 1] 500 6",
        ),
        (
            GuestKind::Worked,
            4,
            2,
            0,
            false,
            "0 2000 2 [0, 1, 2, 3] [0, 1, 2, 3] 2; 2000 3000 2 [0, 1] [0, 1] 2; 3000 3667 3 [1, 3] [1, 3] 0; \
             few 3667 [] 0 8",
        ),
        (
            GuestKind::Worked,
            4,
            1,
            3000,
            false,
            "3000 5000 2 [0, 1, 2, 3] [0, 1, 2, 3] 0; few 5000 [] 0 4",
        ),
        (
            GuestKind::Idle,
            4,
            1,
            0,
            false,
            "0 2000 2 [0, 1, 2, 3] [0, 1, 2, 3] 0; few 2000 [] 0 4",
        ),
    ];
    for &(guest, max, threshold, start, skip, expected) in &CASES {
        let asked = asked_with(max, threshold, start, skip);
        assert!(rt;
            is_planned(&rt, rt.alloc(), guest, asked, expected),
            "{expected}"
        );
    }
}

#[test]
fn worked_plans_of_warm_starts(rt: HostRuntime) {
    /// The base, the start, whether pages are skipped, and the plan.
    const CASES: [(u64, u64, bool, &str); 7] = [
        (
            0,
            1000,
            false,
            "1000 2000 2 [0, 1] [0, 1] 1; 2000 2500 2 [1] [1] 0; few 2500 [] 0 3",
        ),
        (
            0,
            1000,
            true,
            "1000 2000 2 [0, 1] [0, 1] 1; 2000 2500 2 [1] [1] 0; few 2500 [] 0 3",
        ),
        (6, 1200, false, "1200 1200 2 [] [] 0; few 1200 [] 0 0"),
        (6, 1200, true, "1200 1200 2 [] [] 0; few 1200 [] 0 0"),
        (1200, 1201, false, "1201 1701 2 [1] [1] 0; few 1701 [] 0 1"),
        (1200, 1201, true, "1201 1701 2 [1] [1] 0; few 1701 [] 0 1"),
        (5, 5, false, "5 5 2 [] [] 0; few 5 [] 0 0"),
    ];
    for &(base, start, skip, expected) in &CASES {
        let asked = warm(base, start, skip);
        assert!(rt;
            is_planned(&rt, rt.alloc(), GuestKind::Worked, asked, expected),
            "{expected}"
        );
    }
}

#[test]
fn a_page_of_the_last_word(rt: HostRuntime) {
    const ONE_ROUND: Asked = Asked {
        min: 10,
        max: 10,
        rounds: 1,
        ..ASKED
    };
    let expected = "0 6500 10 65 pages 65 pages 1; rounds 6500 [64] 100 66";
    assert!(rt; is_planned(&rt, rt.alloc(), GuestKind::LastWord, ONE_ROUND, expected));
}

#[test]
fn pages_of_three_words(rt: HostRuntime) {
    let asked = Asked {
        min: 130,
        ..asked_with(200, 1, 0, true)
    };
    let expected = "0 1000 130 130 pages 130 pages 4; 1000 1016 130 [0, 63, 64, 129] [0, 64] 3; \
                    1016 1032 189 [63, 64, 129] [63, 64, 129] 0; few 1032 [] 0 135";
    assert!(rt; is_planned(&rt, rt.alloc(), GuestKind::Edges, asked, expected));
}

/// What two rounds found: those of the second worked plan.
const RAN: [RoundSums; 2] = [
    RoundSums {
        sent: 4,
        to: 2000,
        next: 3,
        dirtied: 2,
    },
    RoundSums {
        sent: 2,
        to: 3000,
        next: 5,
        dirtied: 2,
    },
];

/// Returns what follows a round that ended later than it began.
fn after(now: &RoundNumbers, settings: &Settings, ran: &RoundSums) -> Option<Following> {
    if now.step.done >= 64 || ran.to <= now.step.from || now.total >= 1 << 31 {
        return None;
    }
    Some(now.after(settings, ran))
}

/// Returns the numbers of the second round, and the sums at the stop that follows it.
fn second_and_stop(settings: &Settings) -> Option<(RoundNumbers, Outcome)> {
    let first = RoundNumbers::first(settings, 0, 4);
    let Some(Following::Round(second)) = after(&first, settings, &RAN[0]) else {
        return None;
    };
    let Some(Following::Stop(outcome)) = after(&second, settings, &RAN[1]) else {
        return None;
    };
    Some((second, outcome))
}

#[test]
fn rounds_by_their_numbers(rt: HostRuntime) {
    let settings = Settings::new(Asked { max: 2, ..ASKED }).expect(&rt, "settings");
    let (second, outcome) = second_and_stop(&settings).expect(&rt, "a second round and a stop");
    let RoundNumbers {
        step,
        listed,
        next,
        total,
        ..
    } = second;
    assert!(rt; (step.from, step.rate, listed, next, total) == (2000, 2, 2, 3, 4));
    assert!(rt; told(&outcome) == (2, Reason::Fast, 3000, 1000, 8));
}

/// The first round of the second worked plan marks these pages.
#[test]
fn pages_that_a_round_marks(rt: HostRuntime) {
    let alloc = rt.alloc();
    let trace = guest(&rt, alloc, 4, &TOUCHES);
    let words = word_count(trace.page_count() as usize);
    let mut marks = Vec::from_elem(alloc, 0, words).expect(&rt, "memory");
    let next = mark_until(&trace, &mut marks, 0, 2000);
    assert!(rt; next == 3 && marks.as_slice() == [0b11].as_slice());
}
