//! In how many redraws, and from how many starts, a migration converges and keeps its limit. The counts come from
//! `python/precopy_dev/models/agreements.py`, which shares no code with the crate.

use super::plan::guest;
use super::redrawn::{Case, Units, WRITES};
use super::remedy::OLD_ROW;
use guest_log::Timeline;
use page_bitmap::word_count;
use predictions::agreement::{
    Agreement, AgreementNumbers, AnswerCounts, asked_of_draws, draw_counts, start_counts,
};
use predictions::redrawn::{Errors, has_errors};
use predictions::units::{Limits, Scale};
use predictions::{Course, Manner, Measure, Prediction, Verdict};
use rate_limit::{Reason, Settings};
use round_planner::Outcome;
use std::alloc::Global;
use std::process::Abort;
use trace_codec::Trace;

/// How many there are, of how many the answer is known, and how many converge and keep the limit.
type Counts = (u64, u64, u64, u64);

fn counted((whole, known, converging, kept): Counts) -> AnswerCounts {
    AnswerCounts {
        whole,
        known,
        converging,
        kept,
    }
}

/// Returns limits of which only the downtime and the reserve count.
fn limits((downtime, reserve): (u64, u64)) -> Limits {
    Limits {
        link: 1,
        first: None,
        downtime,
        reserve,
    }
}

/// Returns the counts in memory that is lent and not empty.
fn lent(
    rt: &impl Abort,
    alloc: Global,
    trace: &Trace,
    settings: &Settings,
    measure: &Measure,
) -> Agreement {
    let pages = trace.page_count() as usize;
    let mut marks = Vec::from_elem(alloc, u64::MAX, word_count(pages)).expect(rt, "memory");
    let mut list = Vec::from_elem(alloc, u32::MAX, pages).expect(rt, "memory");
    let mut rows = Vec::from_elem(alloc, OLD_ROW, 64).expect(rt, "memory");
    let starts = start_counts(trace, settings, measure, &mut marks, &mut list, &mut rows);
    if !has_errors(&measure.scale) {
        return Agreement {
            draws: None,
            starts,
        };
    }
    let sampled = measure.scale.sampled() as usize;
    let words = 2 * word_count(pages) + word_count(sampled);
    let mut room = Vec::from_elem(alloc, u32::MAX, 2 * sampled).expect(rt, "memory");
    let mut bits = Vec::from_elem(alloc, u64::MAX, words).expect(rt, "memory");
    let course = Course::of_trace(alloc, trace, settings, &measure.scale, measure.manner);
    let asked = asked_of_draws(&course.expect(rt, "memory"), settings);
    let draws = draw_counts(trace, &asked, measure, &mut room, &mut bits);
    Agreement {
        draws: Some(draws),
        starts,
    }
}

/// Returns the counts by both calls.
fn both_counts(
    rt: &impl Abort,
    alloc: Global,
    trace: &Trace,
    case: Case,
    (tick, page, sampled, pages): Units,
    times: (u64, u64),
) -> [Agreement; 2] {
    let settings = Settings::new(case.asked()).expect(rt, "settings");
    let scale = Scale::new(tick, page, sampled, pages).expect(rt, "a scale");
    let measure = Measure {
        scale,
        limits: limits(times),
        manner: Manner::Rounds,
    };
    let owned = Agreement::of_trace(alloc, trace, &settings, &measure).expect(rt, "memory");
    [owned, lent(rt, alloc, trace, &settings, &measure)]
}

#[test]
fn counts_of_draws_and_starts(rt: HostRuntime) {
    const SOME: Units = (1000, 4096, 6, 1000);
    const MOST: Units = (1, 16, 9, 10);
    const ALL: Units = (1000, 4096, 6, 6);
    type Row = (Case, Units, (u64, u64), Option<Counts>, Counts);
    const ROWS: [Row; 8] = [
        (Case::Slow, MOST, (0, 0), Some((20, 1, 1, 1)), (0, 0, 0, 0)),
        (
            Case::Three,
            SOME,
            (100_000, 0),
            Some((20, 20, 0, 0)),
            (3, 3, 0, 0),
        ),
        (
            Case::Three,
            SOME,
            (300_000, 150_000),
            Some((20, 20, 0, 2)),
            (3, 3, 0, 1),
        ),
        (
            Case::Three,
            MOST,
            (200, 0),
            Some((20, 10, 5, 10)),
            (3, 3, 0, 1),
        ),
        (
            Case::Skipping,
            SOME,
            (0, 0),
            Some((20, 20, 13, 13)),
            (9, 9, 4, 4),
        ),
        (Case::Skipping, ALL, (100_000, 0), None, (9, 9, 4, 9)),
        (Case::Warm, MOST, (0, 0), Some((20, 5, 5, 5)), (2, 2, 2, 2)),
        (Case::Warm, ALL, (0, 0), None, (2, 2, 2, 2)),
    ];
    let alloc = rt.alloc();
    let trace = guest(&rt, alloc, 6, &WRITES);
    for &(case, units, times, draws, starts) in &ROWS {
        let expected = Agreement {
            draws: draws.map(counted),
            starts: counted(starts),
        };
        let found = both_counts(&rt, alloc, &trace, case, units, times);
        assert!(rt; found == [expected; 2], "{found:?}");
    }
}

/// Returns whether a migration surely converges and keeps a limit of 100 us, by a plan that ends for a reason and has
/// this downtime, with these counts and this standard error.
fn verdicts(
    rt: &impl Abort,
    reason: Reason,
    down: u64,
    draws: Counts,
    starts: Counts,
    error: u128,
) -> (Verdict, Verdict) {
    let scale = Scale::new(1, 16, 9, 10).expect(rt, "a scale");
    let outcome = Outcome {
        rounds: 1,
        reason,
        stop: 9,
        down,
        total: 9,
    };
    let prediction = Prediction::of_outcome(&scale, &limits((100, 0)), 0, &outcome, 1, 9);
    let errors = Errors {
        bytes: 0,
        time: 0,
        downtime: error,
    };
    let agreement = Agreement {
        draws: Some(counted(draws)),
        starts: counted(starts),
    };
    let numbers = AgreementNumbers::new(100, &agreement, &prediction, &Some(errors));
    let kept = agreement.kept(100, &prediction.cost, &Some(errors));
    let converges = agreement.verdict(&prediction);
    if (numbers.converges, numbers.kept) != (number(converges), number(kept)) {
        return (Verdict::Unknown, Verdict::Unknown);
    }
    (converges, kept)
}

/// Returns the number of a verdict.
fn number(verdict: Verdict) -> u32 {
    match verdict {
        Verdict::Yes => 0,
        Verdict::No => 1,
        Verdict::Unknown => 2,
        Verdict::Uncertain => 3,
    }
}

/// 19 of 20 are nearly all, and 18 are not. With two standard errors a downtime of 90 us is within 100 us, or not.
#[test]
fn nearly_all_agree(rt: HostRuntime) {
    const ALL: Counts = (20, 20, 20, 20);
    const MOST: Counts = (20, 20, 19, 19);
    const FEWER: Counts = (20, 20, 18, 18);
    const NONE: Counts = (20, 20, 0, 0);
    const ONE: Counts = (20, 20, 1, 1);
    const LATE: Counts = (20, 18, 0, 0);
    const NO_START: Counts = (0, 0, 0, 0);
    type Row = ((Reason, u64), (Counts, Counts), u128, (Verdict, Verdict));
    let sure = (Verdict::Yes, Verdict::Yes);
    let never = (Verdict::No, Verdict::No);
    let doubtful = (Verdict::Uncertain, Verdict::Uncertain);
    let rows: [Row; 9] = [
        ((Reason::Few, 90), (MOST, MOST), 5, sure),
        ((Reason::Few, 90), (ALL, NO_START), 5, sure),
        ((Reason::Few, 90), (FEWER, ALL), 5, doubtful),
        ((Reason::Few, 90), (ALL, FEWER), 5, doubtful),
        (
            (Reason::Few, 90),
            (ALL, ALL),
            6,
            (Verdict::Yes, Verdict::Uncertain),
        ),
        ((Reason::Fast, 101), (ONE, NONE), 90, never),
        ((Reason::Rounds, 101), (ALL, ALL), 0, doubtful),
        // a draw that ends after the trace has no answer
        ((Reason::Fast, 101), (LATE, NONE), 0, doubtful),
        (
            (Reason::Fast, 90),
            ((20, 20, 0, 20), (9, 9, 0, 9)),
            0,
            (Verdict::No, Verdict::Yes),
        ),
    ];
    for &((reason, down), (draws, starts), error, expected) in &rows {
        let found = verdicts(&rt, reason, down, draws, starts, error);
        assert!(rt; found == expected, "{found:?}");
    }
}
