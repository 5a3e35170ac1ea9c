//! What plans come to. By looks it is what the model `python/precopy_dev/models/looks.py` says, and by rounds
//! `python/precopy_dev/models/redrawn.py`. Neither shares code with the crate.

use super::plan::guest;
use super::redrawn::WRITES;
use guest_log::Timeline;
use page_bitmap::word_count;
use predictions::redrawn::{are_drawn, redrawn_course};
use predictions::units::Scale;
use predictions::{Course, CourseEnd, Manner, Verdict};
use rate_limit::{Asked, Settings};
use std::alloc::Global;
use std::process::Abort;
use trace_codec::Trace;
use worked_guest::ASKED;

/// The last tick of the trace.
const LAST: u64 = 4000;

/// Why a plan ends, how many rounds or looks there are, when it stops, the downtime, and how many pages are sent.
type Told = (CourseEnd, u64, u64, u64, u64);

fn told(course: &Course) -> Told {
    (
        course.ending,
        course.steps,
        course.stop,
        course.down,
        course.total,
    )
}

/// Returns a scale at which the hypervisor asks each 100 ticks.
fn scale(rt: &impl Abort) -> Scale {
    Scale::new(1000, 4096, 6, 6).expect(rt, "a scale")
}

/// Returns what the plan of some pages of a trace comes to, in memory that holds something else before. Each digit is a
/// page.
fn redrawn(
    rt: &impl Abort,
    alloc: Global,
    trace: &Trace,
    asked: Asked,
    manner: Manner,
    digits: &str,
) -> Option<Course> {
    let pages = trace.page_count();
    let mut drawn = Vec::new(alloc);
    for digit in digits.bytes() {
        drawn
            .push(digit.saturating_sub(b'0') as u32)
            .expect(rt, "memory");
    }
    if !are_drawn(&drawn, pages) {
        return None;
    }
    let settings = Settings::new(asked).expect(rt, "settings");
    let words = 2 * word_count(pages as usize) + word_count(drawn.len());
    let mut bits = Vec::from_elem(alloc, u64::MAX, words).expect(rt, "memory");
    let mut room = Vec::from_elem(alloc, 7, drawn.len()).expect(rt, "memory");
    let scale = scale(rt);
    Some(redrawn_course(
        trace, &settings, &scale, manner, &drawn, &mut bits, &mut room,
    ))
}

/// Settings of plans that come to few pages.
const FAST: Asked = Asked { max: 20, ..ASKED };

/// Settings of plans that the record cuts.
const SLOW: Asked = Asked { max: 3, ..ASKED };

#[test]
fn courses_of_redrawn_pages(rt: HostRuntime) {
    const WARM: Asked = Asked {
        start: 900,
        base: Some(300),
        ..FAST
    };
    const LATE: Asked = Asked {
        max: 4,
        start: 5000,
        ..ASKED
    };
    const CASES: [(Manner, Asked, &str, Told); 10] = [
        (
            Manner::Looks,
            FAST,
            "012345",
            (CourseEnd::Fits, 4, 500, 0, 10),
        ),
        (
            Manner::Looks,
            FAST,
            "202124",
            (CourseEnd::Fits, 4, 600, 0, 12),
        ),
        (Manner::Looks, FAST, "", (CourseEnd::Fits, 1, 0, 0, 0)),
        (
            Manner::Looks,
            SLOW,
            "012345",
            (CourseEnd::Cut, 2, 4001, 1334, 15),
        ),
        (
            Manner::Looks,
            SLOW,
            "202124",
            (CourseEnd::Cut, 2, 4001, 1667, 17),
        ),
        (
            Manner::Looks,
            SLOW,
            "000125",
            (CourseEnd::Level, 2, 4000, 2000, 17),
        ),
        (
            Manner::Looks,
            WARM,
            "202124",
            (CourseEnd::Fits, 4, 1400, 0, 10),
        ),
        (
            Manner::Looks,
            LATE,
            "012345",
            (CourseEnd::Cut, 0, 5001, 1500, 6),
        ),
        (
            Manner::Rounds,
            FAST,
            "012345",
            (CourseEnd::Few, 3, 5667, 0, 14),
        ),
        (
            Manner::Rounds,
            FAST,
            "202124",
            (CourseEnd::Few, 3, 6334, 0, 16),
        ),
    ];
    let alloc = rt.alloc();
    let trace = guest(&rt, alloc, 6, &WRITES);
    for &(manner, asked, drawn, expected) in &CASES {
        let course = redrawn(&rt, alloc, &trace, asked, manner, drawn).expect(
            &rt,
            "pages of the guest",
        );
        assert!(rt; told(&course) == expected, "{drawn}");
    }
}

#[test]
fn courses_of_a_trace(rt: HostRuntime) {
    const CASES: [(Manner, Asked, Told, Verdict); 3] = [
        (
            Manner::Looks,
            FAST,
            (CourseEnd::Fits, 4, 500, 0, 10),
            Verdict::Yes,
        ),
        (
            Manner::Looks,
            SLOW,
            (CourseEnd::Cut, 2, 4001, 1334, 15),
            Verdict::Unknown,
        ),
        (
            Manner::Rounds,
            FAST,
            (CourseEnd::Few, 3, 5667, 0, 14),
            Verdict::Unknown,
        ),
    ];
    let alloc = rt.alloc();
    let trace = guest(&rt, alloc, 6, &WRITES);
    let scale = scale(&rt);
    for &(manner, asked, expected, verdict) in &CASES {
        let settings = Settings::new(asked).expect(&rt, "settings");
        let course = Course::of_trace(alloc, &trace, &settings, &scale, manner).expect(
            &rt, "memory",
        );
        assert!(rt; told(&course) == expected);
        assert!(rt; course.verdict(LAST) == verdict);
    }
}
