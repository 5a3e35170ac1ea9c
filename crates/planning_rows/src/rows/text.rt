//! Worked examples.

use rate_limit::{Asked, Reason, Settings};
use round_planner::{Plan, Round, plan};
use std::alloc::Global;
use std::process::Abort;
use std::thread::Threads;
use sweep_report::{Line, report_text, sweep, sweep_text};
use trace_codec::{Trace, TraceView, Write, decode};
use worked_guest::{ASKED, NO_WRITES, TRACE};
use working_sets::{Tables, Window, tables};

/// Returns a plan of one round, with its greatest numbers.
fn one_round(rt: &impl Abort, alloc: Global) -> Plan {
    let mut rounds = Vec::new(alloc);
    rounds
        .push(Round {
            from: 1_099_511_627_775,
            to: 1_099_577_163_775,
            rate: 1_000_000,
            pages: Vec::from_slice(alloc, &[1, 2, 3]).expect(rt, "memory"),
            sent: Vec::from_slice(alloc, &[2, 3]).expect(rt, "memory"),
            dirtied: 65_536,
        })
        .expect(rt, "memory");
    Plan {
        rounds,
        reason: Reason::Fast,
        stop: 1_099_577_163_775,
        last: Vec::from_slice(alloc, &[0]).expect(rt, "memory"),
        down: 65_536_000,
    }
}

/// Returns whether this is the report over these windows and hot pages, with `hot` windows for a hot page.
fn is_report(
    rt: &impl Abort,
    alloc: Global,
    windows: &[Window],
    pages: &[u32],
    hot: u64,
    expected: &str,
) -> bool {
    let settings = Settings::new(Asked { hot, ..ASKED }).expect(rt, "settings");
    let trace = TraceView::parse(&NO_WRITES).expect(rt, "a trace");
    let tables = Tables {
        windows: Vec::from_slice(alloc, windows).expect(rt, "memory"),
        hot: Vec::from_slice(alloc, pages).expect(rt, "memory"),
    };
    let plan = one_round(rt, alloc);
    let report = report_text(alloc, &trace.shape(), &settings, &tables, &plan);
    let report = report.expect(rt, "a report");
    report.as_slice() == expected.as_bytes()
}

const WINDOW: Window = Window {
    number: 1_099_511_627_775,
    writes: 1_048_576,
    pages: 65_536,
    again: 10,
    fresh: 0,
};

#[test]
fn a_line_for_each_window_and_hot_page(rt: HostRuntime) {
    let expected = "trace pages 4 size 16 writes 0
hot 2 pages 0
round 0 from 1099511627775 to 1099577163775 rate 1000000 pages 3 sent 2 dirtied 65536
stop fast at 1099577163775 pages 1 down 65536000 total 3
";
    assert!(rt; is_report(&rt, rt.alloc(), &[], &[], 2, expected));
    let expected = "trace pages 4 size 16 writes 0
window 1099511627775 writes 1048576 pages 65536 again 10 fresh 0
hot 1048576 pages 2
page 0
page 65535
round 0 from 1099511627775 to 1099577163775 rate 1000000 pages 3 sent 2 dirtied 65536
stop fast at 1099577163775 pages 1 down 65536000 total 3
";
    assert!(rt;
        is_report(
            &rt,
            rt.alloc(),
            &[WINDOW],
            &[0, 65_535],
            1_048_576,
            expected
        )
    );
}

/// Returns the worked guest.
fn guest(rt: &impl Abort, alloc: Global) -> Trace {
    decode(alloc, &TRACE).expect(rt, "a trace")
}

fn case(rt: &impl Abort, max: u64, threshold: u64) -> Settings {
    Settings::new(Asked {
        max,
        threshold,
        ..ASKED
    })
    .expect(rt, "settings")
}

/// Returns the settings of a warm start.
fn warm(rt: &impl Abort, base: u64, start: u64) -> Settings {
    Settings::new(Asked {
        start,
        base: Some(base),
        ..ASKED
    })
    .expect(rt, "settings")
}

/// Returns the report on the guest.
fn reported(rt: &impl Abort, alloc: Global, settings: &Settings) -> Vec<u8> {
    let trace = guest(rt, alloc);
    let tables = tables(alloc, &trace, settings).expect(rt, "tables");
    let plan = plan(alloc, &trace, settings).expect(rt, "a plan");
    report_text(alloc, &trace.shape(), settings, &tables, &plan).expect(rt, "a report")
}

/// Returns the text of the sweep over these cases.
fn swept<R: Abort + Threads + Sync>(
    rt: &R,
    alloc: Global,
    cases: &[Settings],
    workers: usize,
) -> Vec<u8> {
    let lines = sweep(rt, alloc, &guest(rt, alloc), cases, workers).expect(rt, "a sweep");
    sweep_text(alloc, &lines).expect(rt, "a text")
}

#[test]
fn sweeps_of_any_number_of_workers(rt: HostRuntime) {
    let alloc = rt.alloc();
    let cases = [case(&rt, 4, 1), case(&rt, 2, 1), case(&rt, 4, 3)];
    for workers in [1, 2, 16] {
        let of_none = swept(&rt, alloc, &[], workers).len();
        let text = swept(&rt, alloc, &cases, workers);
        assert!(rt;
            (of_none, text.as_slice())
                == (
                    0,
                    "case 0 min 2 max 4 inc 1 threshold 1 limit 8 skip 0 rounds 3 stop few at 3667 down 0 total 8
case 1 min 2 max 2 inc 1 threshold 1 limit 8 skip 0 rounds 2 stop fast at 3000 down 1000 total 8
case 2 min 2 max 4 inc 1 threshold 3 limit 8 skip 0 rounds 1 stop few at 2000 down 500 total 6
best 0
"
                        .as_bytes()
                )
        );
    }
}

#[test]
fn warm_starts_are_told(rt: HostRuntime) {
    let report = reported(&rt, rt.alloc(), &warm(&rt, 6, 1200));
    assert!(rt;
        report.as_slice()
            == "trace pages 4 size 16 writes 5
window 0 writes 2 pages 2 again 0 fresh 2
window 1 writes 1 pages 1 again 1 fresh 0
window 2 writes 2 pages 2 again 1 fresh 1
hot 2 pages 1
page 1
round 0 from 1200 to 1200 rate 2 pages 0 sent 0 dirtied 0
stop few at 1200 pages 0 down 0 total 0
"
                .as_bytes()
    );
}

#[test]
fn sweeps_of_warm_starts_are_told(rt: HostRuntime) {
    let cases = [warm(&rt, 0, 1000)];
    for workers in [1, 3] {
        let text = swept(&rt, rt.alloc(), &cases, workers);
        assert!(rt;
            text.as_slice()
                == "case 0 min 2 max 4 inc 1 threshold 1 limit 8 skip 0 rounds 2 stop few at 2500 down 0 total 3
best 0
"
                    .as_bytes()
        );
    }
}

#[test]
fn the_first_of_equal_cases_is_the_best(rt: HostRuntime) {
    let alloc = rt.alloc();
    let text = swept(
        &rt,
        alloc,
        &[case(&rt, 2, 1), case(&rt, 4, 1), case(&rt, 4, 1)],
        1,
    );
    assert!(rt;
        text.as_slice()
            == "case 0 min 2 max 2 inc 1 threshold 1 limit 8 skip 0 rounds 2 stop fast at 3000 down 1000 total 8
case 1 min 2 max 4 inc 1 threshold 1 limit 8 skip 0 rounds 3 stop few at 3667 down 0 total 8
case 2 min 2 max 4 inc 1 threshold 1 limit 8 skip 0 rounds 3 stop few at 3667 down 0 total 8
best 1
"
                .as_bytes()
    );
}

/// Returns a line with this downtime and total.
fn line(rt: &impl Abort, down: u64, total: u64) -> Line {
    Line {
        settings: case(rt, 4, 1),
        rounds: 64,
        reason: Reason::Rounds,
        stop: 2_199_023_255_551,
        down,
        total,
    }
}

#[test]
fn the_downtime_counts_first(rt: HostRuntime) {
    let alloc = rt.alloc();
    let lines = [line(&rt, 2, 1), line(&rt, 1, 3), line(&rt, 1, 2)];
    let text = sweep_text(alloc, &lines).expect(&rt, "a text");
    assert!(rt; text.ends_with(b"down 1 total 2\nbest 2\n"));
}

/// Returns a trace of 64 pages that writes one byte at each of 8,192 ticks.
fn busy_guest(rt: &impl Abort, alloc: Global) -> Trace {
    let mut writes = Vec::new(alloc);
    for tick in 0..8192u32 {
        writes
            .push(Write {
                tick: tick as u64,
                page: tick % 977 % 64,
                offset: 0,
                bytes: Vec::from_slice(alloc, &[1]).expect(rt, "memory"),
            })
            .expect(rt, "memory");
    }
    Trace::new(1, 4, 64, writes).expect(rt, "a trace")
}

/// Returns cases of which some begin alike: half of them skip, half begin with a base, and rates, thresholds and starts
/// come again.
fn many_cases(rt: &impl Abort, alloc: Global) -> Vec<Settings> {
    let mut cases = Vec::new(alloc);
    for number in 0..256u64 {
        cases
            .push(Settings::new(Asked {
                min: 1 + number % 13,
                max: 100 + number % 3,
                increment: number % 2,
                threshold: 1 + number % 5,
                start: 100 + 400 * (number / 8 % 2),
                skip: number / 2 % 2 == 1,
                base: (number >= 128).then_some(50),
                ..ASKED
            })
            .expect(rt, "settings"))
            .expect(rt, "memory");
    }
    cases
}

/// Returns the rounds, the reason, the stop, the downtime and the total of a case's plan.
fn told_of_plan(
    rt: &impl Abort,
    alloc: Global,
    guest: &Trace,
    case: &Settings,
) -> (u64, Reason, u64, u64, u64) {
    let made = plan(alloc, guest, case).expect(rt, "a plan");
    let rounds = made.rounds.len() as u64;
    (rounds, made.reason, made.stop, made.down, made.total())
}

/// Returns the text of a sweep, if each of its lines tells of its case's plan.
fn swept_as_planned<R: Abort + Threads + Sync>(
    rt: &R,
    alloc: Global,
    guest: &Trace,
    cases: &[Settings],
    workers: usize,
) -> Option<Vec<u8>> {
    let lines = sweep(rt, alloc, guest, cases, workers).expect(rt, "a sweep");
    for (line, case) in lines.iter().zip(cases) {
        let told = (line.rounds, line.reason, line.stop, line.down, line.total);
        if told != told_of_plan(rt, alloc, guest, case) {
            return None;
        }
    }
    Some(sweep_text(alloc, &lines).expect(rt, "a text"))
}

#[test]
fn many_cases_side_by_side(rt: HostRuntime) {
    let alloc = rt.alloc();
    let guest = busy_guest(&rt, alloc);
    let cases = many_cases(&rt, alloc);
    let alone = swept_as_planned(&rt, alloc, &guest, &cases, 1);
    assert!(rt; alone.is_some());
    for workers in [2, 16] {
        assert!(rt; swept_as_planned(&rt, alloc, &guest, &cases, workers) == alone);
    }
}
