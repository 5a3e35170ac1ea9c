//! Plans of a hypervisor. The results are those of the model `python/precopy_dev/models/looks.py`, which shares no code
//! with the planner. Those of the worked guest were worked out by hand too.

use super::plan::guest;
use look_planner::{LookAsked, LookPlan, LookSettings, LookSettingsError, PlanEnd, look_plan};
use std::alloc::Global;
use std::fmt::{self, Write as _};
use std::process::Abort;
use trace_codec::Trace;

/// The writes of the worked guest.
const TOUCHES: [(u64, u32); 5] = [(0, 0), (5, 1), (1200, 1), (2500, 3), (2500, 1)];

/// Settings at which each page takes 500 ticks, and the hypervisor asks only when all of a list is sent.
const SLOW: LookAsked = LookAsked {
    start: 0,
    base: None,
    rate: 2,
    window: 0,
    threshold: 1,
    looks: None,
    end: 10_000,
};

/// Returns the trace of a guest of 130 pages that writes one each third tick, 400 times.
fn busy_guest(rt: &impl Abort, alloc: Global) -> Trace {
    let mut touches = Vec::new(alloc);
    for write in 0..400u32 {
        touches
            .push((u64::from(write) * 3, (write * 37 + 5) % 130))
            .expect(rt, "memory");
    }
    guest(rt, alloc, 130, &touches)
}

/// Pages of a plan: their list, or how many they are if these are more than eight.
#[derive(Clone, Copy)]
struct Pages<'a>(&'a [u32]);

impl fmt::Display for Pages<'_> {
    fn fmt<W: fmt::Write>(&self, f: &mut fmt::Formatter<W>) -> fmt::Result {
        let Pages(pages) = *self;
        if pages.len() > 8 {
            write!(f, "{} pages", pages.len())
        } else {
            write!(f, "{pages:?}")
        }
    }
}

/// Returns a plan's lists (from, to, how many pages it has, how many are sent, how many are left), and then why and
/// when it ends, the pages that are left, the downtime, how many pages were sent before, the total, and the looks.
fn text_of(rt: &impl Abort, alloc: Global, plan: &LookPlan) -> String {
    let mut text = String::new(alloc);
    for row in &plan.rows {
        write!(
            text,
            "{} {} {} {} {}; ",
            row.from, row.to, row.pages, row.sent, row.left
        )
        .expect(rt, "memory");
    }
    write!(
        text,
        "{} {} {} {} {} {} {}",
        plan.end,
        plan.stop,
        Pages(&plan.last),
        plan.down,
        plan.sent,
        plan.total(),
        plan.looks()
    )
    .expect(rt, "memory");
    text
}

/// Returns whether a guest has this plan.
fn is_planned(
    rt: &impl Abort,
    alloc: Global,
    trace: &Trace,
    asked: LookAsked,
    expected: &str,
) -> bool {
    let settings = LookSettings::new(asked).expect(rt, "settings");
    let plan = look_plan(alloc, trace, &settings).expect(rt, "a plan");
    text_of(rt, alloc, &plan).as_str() == expected
}

#[test]
fn worked_looks(rt: HostRuntime) {
    /// The window, the threshold, the most looks, the end of the record, and the plan.
    const CASES: [(u64, u64, Option<u64>, u64, &str); 9] = [
        (
            0,
            1,
            None,
            10_000,
            "0 2000 4 4 2; 2000 3000 2 2 2; 3000 4000 2 2 0; few 4000 [] 0 8 8 3",
        ),
        (
            300,
            2,
            None,
            10_000,
            "0 1500 4 3 3; 1500 2700 3 2 2; 2700 3300 2 1 1; few 3300 [3] 500 6 7 3",
        ),
        (
            600,
            2,
            None,
            10_000,
            "0 1800 4 3 3; 1800 3000 3 2 2; 3000 3600 2 1 1; few 3600 [3] 500 6 7 3",
        ),
        (
            0,
            3,
            None,
            10_000,
            "0 2000 4 4 2; few 2000 [0, 1] 1000 4 6 1",
        ),
        (
            0,
            1,
            None,
            1999,
            "0 1999 4 3 3; record 1999 [0, 1, 3] 1500 3 6 0",
        ),
        (
            0,
            1,
            None,
            2000,
            "0 2000 4 4 2; 2000 2000 2 0 2; record 2000 [0, 1] 1000 4 6 1",
        ),
        (
            0,
            1,
            None,
            2600,
            "0 2000 4 4 2; 2000 2600 2 1 2; record 2600 [1, 3] 1000 5 7 1",
        ),
        (
            0,
            1,
            Some(1),
            10_000,
            "0 2000 4 4 2; looks 2000 [0, 1] 1000 4 6 1",
        ),
        (
            0,
            1,
            Some(2),
            10_000,
            "0 2000 4 4 2; 2000 3000 2 2 2; looks 3000 [1, 3] 1000 6 8 2",
        ),
    ];
    let trace = guest(&rt, rt.alloc(), 4, &TOUCHES);
    for &(window, threshold, looks, end, expected) in &CASES {
        let asked = LookAsked {
            window,
            threshold,
            looks,
            end,
            ..SLOW
        };
        assert!(rt;
            is_planned(&rt, rt.alloc(), &trace, asked, expected),
            "{expected}"
        );
    }
}

#[test]
fn worked_looks_of_warm_and_late_starts(rt: HostRuntime) {
    /// The base, the start, and the plan.
    const CASES: [(Option<u64>, u64, &str); 3] = [
        (
            Some(0),
            1000,
            "1000 2000 2 2 1; 2000 2500 1 1 0; few 2500 [] 0 3 3 2",
        ),
        (Some(6), 1200, "1200 1200 0 0 0; few 1200 [] 0 0 0 1"),
        (
            None,
            10_000,
            "10000 10000 4 0 4; record 10000 [0, 1, 2, 3] 2000 0 4 0",
        ),
    ];
    let trace = guest(&rt, rt.alloc(), 4, &TOUCHES);
    for &(base, start, expected) in &CASES {
        let asked = LookAsked {
            base,
            start,
            ..SLOW
        };
        assert!(rt;
            is_planned(&rt, rt.alloc(), &trace, asked, expected),
            "{expected}"
        );
    }
}

#[test]
fn looks_of_a_busy_guest(rt: HostRuntime) {
    /// The rate, the window, the threshold, and the plan.
    const CASES: [(u64, u64, u64, &str); 4] = [
        (
            1000,
            10,
            20,
            "0 120 130 120 50; 120 160 50 40 22; 160 170 22 10 14; few 170 14 pages 14 170 184 3",
        ),
        (
            500,
            25,
            40,
            "0 200 130 100 83; 200 300 83 50 57; 300 350 57 25 44; 350 375 44 12 39; \
             few 375 39 pages 78 187 226 4",
        ),
        (
            300,
            25,
            40,
            "0 325 130 97 115; 325 600 115 82 103; 600 825 103 67 89; 825 1000 89 52 80; 1000 1150 80 45 71; \
             1150 1200 71 15 68; record 1200 68 pages 227 358 426 5",
        ),
        (
            999,
            7,
            64,
            "0 70 130 69 75; 70 84 75 13 64; 84 91 64 6 60; few 91 60 pages 61 88 148 3",
        ),
    ];
    let trace = busy_guest(&rt, rt.alloc());
    for &(rate, window, threshold, expected) in &CASES {
        let asked = LookAsked {
            rate,
            window,
            threshold,
            end: 1200,
            ..SLOW
        };
        assert!(rt;
            is_planned(&rt, rt.alloc(), &trace, asked, expected),
            "{expected}"
        );
    }
}

#[test]
fn refused_look_settings(rt: HostRuntime) {
    const MOST: LookAsked = LookAsked {
        start: 1 << 40,
        base: Some(1 << 40),
        rate: 1_000_000,
        window: 1 << 40,
        threshold: 65_536,
        looks: Some(1),
        end: 1 << 40,
    };
    /// Settings, and the first that is refused.
    let cases = [
        (LookAsked { rate: 0, ..SLOW }, LookSettingsError::Rate),
        (
            LookAsked {
                rate: 1_000_001,
                ..SLOW
            },
            LookSettingsError::Rate,
        ),
        (
            LookAsked {
                window: (1 << 40) + 1,
                ..SLOW
            },
            LookSettingsError::Window,
        ),
        (
            LookAsked {
                threshold: 0,
                ..SLOW
            },
            LookSettingsError::Threshold,
        ),
        (
            LookAsked {
                threshold: 65_537,
                ..SLOW
            },
            LookSettingsError::Threshold,
        ),
        (
            LookAsked {
                looks: Some(0),
                ..SLOW
            },
            LookSettingsError::Looks,
        ),
        (
            LookAsked {
                end: (1 << 40) + 1,
                ..SLOW
            },
            LookSettingsError::End,
        ),
        (
            LookAsked {
                start: 10_001,
                ..SLOW
            },
            LookSettingsError::Start,
        ),
        (
            LookAsked {
                base: Some(1),
                ..SLOW
            },
            LookSettingsError::Base,
        ),
        (
            LookAsked {
                rate: 0,
                start: 10_001,
                ..SLOW
            },
            LookSettingsError::Rate,
        ),
    ];
    for (asked, error) in cases {
        assert!(rt; LookSettings::new(asked).err() == Some(error), "{error}");
    }
    assert!(rt; LookSettings::new(MOST).is_ok());
}

#[test]
fn words_of_ends(rt: HostRuntime) {
    assert!(rt; PlanEnd::Record.word() == "record");
    assert!(rt; PlanEnd::Few.word() == "few");
    assert!(rt; PlanEnd::Looks.word() == "looks");
}
