//! Plans of redrawn pages and standard errors. The results come from `python/precopy_dev/models/redrawn.py`, which
//! shares no code with the crate.

use super::plan::{Told, guest, told};
use guest_log::Timeline;
use page_bitmap::word_count;
use predictions::Manner;
use predictions::redrawn::{Errors, are_drawn, has_errors, redrawn_outcome, sample_errors};
use predictions::units::Scale;
use rate_limit::{Asked, Reason, Settings};
use std::alloc::Global;
use std::process::Abort;
use trace_codec::Trace;
use worked_guest::ASKED;

/// When each of six pages is written.
pub(crate) const WRITES: [(u64, u32); 18] = [
    (0, 0),
    (100, 1),
    (300, 2),
    (420, 0),
    (500, 3),
    (700, 1),
    (900, 2),
    (1200, 0),
    (1300, 4),
    (1500, 2),
    (1700, 2),
    (2100, 0),
    (2300, 1),
    (2600, 2),
    (3000, 5),
    (3200, 0),
    (3600, 2),
    (4000, 0),
];

/// Settings of a plan.
#[derive(Clone, Copy)]
pub(crate) enum Case {
    /// It converges.
    Slow,
    /// Its rounds are over before it converges.
    Three,
    /// It skips pages.
    Skipping,
    /// A warm start.
    Warm,
}

impl Case {
    pub(crate) fn asked(self) -> Asked {
        let slow = Asked { max: 20, ..ASKED };
        match self {
            Case::Slow => slow,
            Case::Three => Asked {
                min: 3,
                max: 9,
                increment: 2,
                rounds: 3,
                ..ASKED
            },
            Case::Skipping => Asked {
                min: 4,
                max: 50,
                increment: 3,
                rounds: 4,
                skip: true,
                ..ASKED
            },
            Case::Warm => Asked {
                start: 900,
                base: Some(300),
                ..slow
            },
        }
    }
}

/// Returns the sums of the plan of some pages of a trace, if it has these. Each digit is a page.
fn redrawn(
    rt: &impl Abort,
    alloc: Global,
    trace: &Trace,
    case: Case,
    digits: &str,
) -> Option<Told> {
    let pages = trace.page_count();
    let mut drawn = Vec::new(alloc);
    for digit in digits.bytes() {
        drawn
            .push(digit.saturating_sub(b'0') as u32)
            .expect(rt, "memory");
    }
    if !are_drawn(&drawn, pages) {
        return None;
    }
    let settings = Settings::new(case.asked()).expect(rt, "settings");
    let words = word_count(pages as usize);
    let mut listed = Vec::from_elem(alloc, u64::MAX, words).expect(rt, "memory");
    let mut marks = Vec::from_elem(alloc, u64::MAX, words).expect(rt, "memory");
    let outcome = redrawn_outcome(trace, &settings, &drawn, &mut listed, &mut marks);
    Some(told(&outcome))
}

#[test]
fn plans_of_redrawn_pages(rt: HostRuntime) {
    const CASES: [(Case, &str, Told); 11] = [
        (Case::Slow, "012345", (3, Reason::Few, 5667, 0, 14)),
        (Case::Slow, "202124", (3, Reason::Few, 6334, 0, 16)),
        (Case::Slow, "33", (2, Reason::Few, 1667, 0, 4)),
        (Case::Slow, "", (1, Reason::Few, 0, 0, 0)),
        (Case::Three, "202124", (3, Reason::Rounds, 3915, 445, 21)),
        (Case::Three, "2200220", (3, Reason::Rounds, 4734, 334, 24)),
        (Case::Skipping, "012345", (4, Reason::Rounds, 2397, 20, 13)),
        (Case::Skipping, "202124", (4, Reason::Rounds, 2629, 60, 18)),
        (Case::Skipping, "2200220", (4, Reason::Few, 3126, 0, 19)),
        (Case::Warm, "202124", (3, Reason::Few, 5900, 0, 15)),
        (Case::Warm, "555555", (1, Reason::Few, 900, 0, 0)),
    ];
    let alloc = rt.alloc();
    let trace = guest(&rt, alloc, 6, &WRITES);
    for &(case, drawn, expected) in &CASES {
        assert!(rt;
            redrawn(&rt, alloc, &trace, case, drawn) == Some(expected),
            "{drawn}"
        );
    }
    assert!(rt; redrawn(&rt, alloc, &trace, Case::Slow, "16").is_none());
}

/// Standard errors of bytes, and in microseconds of time and downtime.
type Numbers = (u128, u128, u128);

fn numbers(errors: Errors) -> Numbers {
    (errors.bytes, errors.time, errors.downtime)
}

/// Returns the standard errors of the plan of a trace.
fn errors(
    rt: &impl Abort,
    alloc: Global,
    trace: &Trace,
    asked: Asked,
    scale: &Scale,
) -> Option<Numbers> {
    let settings = Settings::new(asked).expect(rt, "settings");
    Errors::of_trace(alloc, trace, &settings, scale, Manner::Rounds)
        .expect(rt, "memory")
        .map(numbers)
}

/// Returns the same, in memory that is lent and not empty.
fn lent_errors(
    rt: &impl Abort,
    alloc: Global,
    trace: &Trace,
    asked: Asked,
    scale: &Scale,
) -> Option<Numbers> {
    if !has_errors(scale) {
        return None;
    }
    let settings = Settings::new(asked).expect(rt, "settings");
    let sampled = scale.sampled() as usize;
    let words = 2 * word_count(trace.page_count() as usize) + word_count(sampled);
    let mut room = Vec::from_elem(alloc, u32::MAX, 2 * sampled).expect(rt, "memory");
    let mut bits = Vec::from_elem(alloc, u64::MAX, words).expect(rt, "memory");
    let errors = sample_errors(
        trace,
        &settings,
        scale,
        Manner::Rounds,
        &mut room,
        &mut bits,
    );
    Some(numbers(errors))
}

/// What a tick is in microseconds, a page in bytes, and how many pages of a guest of how many are in the trace.
pub(crate) type Units = (u64, u64, u64, u64);

/// Returns the standard errors by both calls.
fn both_errors(
    rt: &impl Abort,
    alloc: Global,
    trace: &Trace,
    asked: Asked,
    (tick, page, sampled, pages): Units,
) -> [Option<Numbers>; 2] {
    let scale = Scale::new(tick, page, sampled, pages).expect(rt, "a scale");
    let owned = errors(rt, alloc, trace, asked, &scale);
    let lent = lent_errors(rt, alloc, trace, asked, &scale);
    [owned, lent]
}

#[test]
fn errors_of_samples(rt: HostRuntime) {
    const SOME: Units = (1000, 4096, 6, 1000);
    const MOST: Units = (1, 16, 9, 10);
    const FEW: Units = (1_000_000, 4096, 6, 1 << 32);
    const ALL: Units = (1000, 4096, 6, 6);
    const CASES: [(Case, Units, Option<Numbers>); 8] = [
        (Case::Slow, SOME, Some((749_568, 381_629, 0))),
        (Case::Slow, MOST, Some((32, 440, 0))),
        (Case::Three, SOME, Some((1_552_384, 267_566, 121_628))),
        (Case::Three, MOST, Some((32, 320, 31))),
        (
            Case::Three,
            FEW,
            Some((6_677_594_955_776, 268_371_596, 121_993_734)),
        ),
        (Case::Skipping, SOME, Some((1_687_552, 270_665, 15_138))),
        (Case::Warm, SOME, Some((679_936, 651_847, 0))),
        (Case::Slow, ALL, None),
    ];
    let alloc = rt.alloc();
    let trace = guest(&rt, alloc, 6, &WRITES);
    for &(case, units, expected) in &CASES {
        assert!(rt; both_errors(&rt, alloc, &trace, case.asked(), units) == [expected; 2]);
    }
}

/// Returns 5,000 writes to some of 200 pages, by a generator of Park and Miller.
fn many(rt: &impl Abort, alloc: Global) -> Vec<(u64, u32)> {
    let mut writes = Vec::with_capacity(alloc, 5000).expect(rt, "memory");
    let mut state = 1u64;
    let mut tick = 0u64;
    for _ in 0..5000 {
        state = state.wrapping_mul(48_271) % 2_147_483_647;
        tick = tick.wrapping_add(state % 7);
        let place = (state / 7 % 200) as u32;
        writes
            .push((tick, place * place / 200))
            .expect(rt, "memory");
    }
    writes
}

#[test]
fn errors_of_a_larger_sample(rt: HostRuntime) {
    let rising = Asked {
        min: 40,
        max: 200,
        increment: 16,
        threshold: 20,
        rounds: 30,
        ..ASKED
    };
    let late = Asked {
        start: 1000,
        skip: true,
        ..rising
    };
    let five = Asked {
        min: 60,
        max: 90,
        increment: 3,
        rounds: 5,
        start: 3000,
        base: Some(1000),
        ..rising
    };
    let alloc = rt.alloc();
    let writes = many(&rt, alloc);
    let trace = guest(&rt, alloc, 200, &writes);
    let scale = Scale::new(1000, 4096, 210, 100_000).expect(&rt, "a scale");
    let found = [
        errors(&rt, alloc, &trace, rising, &scale),
        errors(&rt, alloc, &trace, late, &scale),
        errors(&rt, alloc, &trace, five, &scale),
    ];
    let expected = [
        (35_467_264, 216_776, 0),
        (47_628_288, 160_295, 76_654),
        (83_152_896, 636_125, 105_881),
    ];
    assert!(rt; found == expected.map(Some));
}
