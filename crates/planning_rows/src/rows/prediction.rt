//! What plans predict, and what migrations cost from several starts. By looks it is what the model
//! `python/precopy_dev/models/looks.py` says, which shares no code with the crate.

use super::plan::guest;
use super::redrawn::WRITES;
use predictions::agreement::{Agreement, AnswerCounts};
use predictions::starts::{
    CostNumbers, StartRanges, Starts, best_start, cases_by, ranges_over, spread_cases,
};
use predictions::units::{Limits, Scale};
use predictions::{CourseEnd, Manner, Measure, Prediction, Verdict, push_prediction};
use rate_limit::{Asked, Settings};
use std::alloc::Global;
use std::process::Abort;
use trace_codec::Trace;
use worked_guest::ASKED;

/// The last tick of the trace.
const LAST: u64 = 4000;

/// Why a plan ends, how many rounds or looks there are, the time, the bytes, the downtime, and the pages that are left.
type Told = (CourseEnd, u64, u128, u128, u128, u64);

fn told(prediction: &Prediction) -> Told {
    let cost = &prediction.cost;
    (
        prediction.ending,
        cost.steps,
        cost.time,
        cost.bytes,
        cost.downtime,
        prediction.left,
    )
}

/// Returns a measure at which the hypervisor asks each 100 ticks, with a limit of 100 ms of which 50 ms are reserved.
fn measure(rt: &impl Abort, manner: Manner) -> Measure {
    Measure {
        scale: Scale::new(1000, 4096, 6, 6).expect(rt, "a scale"),
        limits: Limits {
            link: 1,
            first: None,
            downtime: 100_000,
            reserve: 50_000,
        },
        manner,
    }
}

/// Returns settings with a rate of the link, and a start.
fn settings(rt: &impl Abort, max: u64, start: u64) -> Settings {
    let asked = Asked {
        max,
        start,
        ..ASKED
    };
    Settings::new(asked).expect(rt, "settings")
}

fn predicted(
    rt: &impl Abort,
    alloc: Global,
    trace: &Trace,
    manner: Manner,
    (max, start): (u64, u64),
) -> Prediction {
    let settings = settings(rt, max, start);
    let measure = measure(rt, manner);
    Prediction::of_trace(alloc, trace, &settings, &measure).expect(rt, "memory")
}

#[test]
fn predictions_of_a_trace(rt: HostRuntime) {
    const ROWS: [(Manner, (u64, u64), Told, Verdict, Verdict); 5] = [
        (
            Manner::Looks,
            (20, 0),
            (CourseEnd::Fits, 4, 550_000, 40_960, 50_000, 0),
            Verdict::Yes,
            Verdict::Yes,
        ),
        (
            Manner::Looks,
            (5, 0),
            (CourseEnd::Fits, 7, 3_650_000, 73_728, 50_000, 0),
            Verdict::Yes,
            Verdict::Yes,
        ),
        (
            Manner::Looks,
            (3, 0),
            (CourseEnd::Cut, 2, 5_385_000, 61_440, 1_384_000, 4),
            Verdict::Unknown,
            Verdict::Unknown,
        ),
        (
            Manner::Looks,
            (4, 600),
            (CourseEnd::Level, 2, 4_200_000, 65_536, 800_000, 3),
            Verdict::No,
            Verdict::No,
        ),
        (
            Manner::Rounds,
            (20, 0),
            (CourseEnd::Few, 3, 5_717_000, 57_344, 50_000, 0),
            Verdict::Unknown,
            Verdict::Unknown,
        ),
    ];
    let alloc = rt.alloc();
    let trace = guest(&rt, alloc, 6, &WRITES);
    for &(manner, (max, start), expected, converges, kept) in &ROWS {
        let found = predicted(&rt, alloc, &trace, manner, (max, start));
        assert!(rt; told(&found) == expected, "{max}");
        assert!(rt; found.manner == manner);
        assert!(rt; found.recorded == (LAST - start) as u128 * 1000);
        assert!(rt; (found.verdict(), found.cost.kept()) == (converges, kept));
    }
}

/// The record ends first, and the list under way is as long as the one before it.
static LEVEL: &str =
    "converges: no, from 0 of 4 starts; the trace ends first, and the lists did not get shorter; looks: 3
total time: 4.350 s
sent: 68.00 KiB
downtime: 550 ms, limit: 100 ms, kept: no, from 0 of 4 starts
warning: fewer than 100 pages decided the stop; chance moves it
warning: the plan ends with `level`; a hypervisor goes on, and takes longer; give more of the link
";

/// Few pages are left.
static FEW: &str = "converges: yes, from 4 of 4 starts; looks: 4
total time: 550 ms
sent: 40.00 KiB
downtime: 50 ms, limit: 100 ms, kept: yes, from 4 of 4 starts
warning: fewer than 100 pages decided the stop; chance moves it
";

#[test]
fn lines_of_predictions_by_looks(rt: HostRuntime) {
    let rows = [((4, 200), 0, LEVEL), ((20, 0), 4, FEW)];
    let alloc = rt.alloc();
    let trace = guest(&rt, alloc, 6, &WRITES);
    for &(asked, so, expected) in &rows {
        let found = predicted(&rt, alloc, &trace, Manner::Looks, asked);
        let agreement = Agreement {
            draws: None,
            starts: AnswerCounts {
                whole: 4,
                known: 4,
                converging: so,
                kept: so,
            },
        };
        let mut text = Vec::new(alloc);
        push_prediction(&mut text, 100_000, &found, &None, &agreement).expect(&rt, "memory");
        assert!(rt; text.as_slice() == expected.as_bytes());
    }
}

/// The time, the bytes, and the downtime.
type Numbers = (u128, u128, u128);

fn numbers(costs: &CostNumbers) -> Numbers {
    (costs.time, costs.bytes, costs.downtime)
}

/// How many starts there are, from how many the migration is known, converges and keeps its limit, and what it costs at
/// least and at most.
type Ranges = ([u64; 4], Numbers, Numbers);

fn ranges_told(ranges: &StartRanges) -> Ranges {
    (
        [ranges.count, ranges.known, ranges.converging, ranges.kept],
        numbers(&ranges.least),
        numbers(&ranges.greatest),
    )
}

#[test]
fn ranges_over_starts_by_looks(rt: HostRuntime) {
    type Row = (u64, Option<Ranges>);
    const ROWS: [Row; 3] = [
        (3, None),
        (
            4,
            Some((
                [21, 3, 0, 0],
                (3_150_000, 49_152, 550_000),
                (4_350_000, 69_632, 800_000),
            )),
        ),
        (
            8,
            Some((
                [21, 15, 15, 15],
                (1_175_000, 36_864, 50_000),
                (1_925_000, 61_440, 50_000),
            )),
        ),
    ];
    let alloc = rt.alloc();
    let trace = guest(&rt, alloc, 6, &WRITES);
    let measure = measure(&rt, Manner::Looks);
    for &(max, expected) in &ROWS {
        let settings = settings(&rt, max, 0);
        let spread = spread_cases(alloc, &settings, LAST).expect(&rt, "memory");
        let cases = cases_by(alloc, &trace, &spread, &measure).expect(&rt, "memory");
        let ranges = ranges_over(alloc, &measure, &cases, LAST).expect(&rt, "memory");
        let found = ranges.map(|ranges| ranges_told(&ranges));
        assert!(rt; found == expected, "{max}");
    }
}

#[test]
fn the_best_start_by_looks(rt: HostRuntime) {
    const ROWS: [(u64, u64, Option<(u64, Numbers)>); 3] = [
        (4, 400, None),
        (4, 600, Some((600, (4_200_000, 65_536, 800_000)))),
        (8, 400, Some((2400, (1_175_000, 36_864, 50_000)))),
    ];
    let alloc = rt.alloc();
    let trace = guest(&rt, alloc, 6, &WRITES);
    let measure = measure(&rt, Manner::Looks);
    for &(max, every, expected) in &ROWS {
        let settings = settings(&rt, max, 0);
        let starts = Starts {
            from: 0,
            to: None,
            every: Some(every),
        };
        let spread = starts.cases(alloc, &settings, LAST).expect(&rt, "starts");
        let cases = cases_by(alloc, &trace, &spread, &measure).expect(&rt, "memory");
        let best = best_start(alloc, &trace, &measure, &cases).expect(&rt, "memory");
        let found = best.map(|at| (at.start, (at.cost.time, at.cost.bytes, at.cost.downtime)));
        assert!(rt; found == expected, "{max}");
    }
}
