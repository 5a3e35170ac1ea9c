//! What keeps limits. The results come from `python/precopy_dev/models/remedies.py`, which shares no code with the
//! crate.

use super::plan::guest;
use super::redrawn::WRITES;
use guest_log::Timeline;
use page_bitmap::word_count;
use predictions::Manner;
use predictions::remedies::{Ending, Remedies, Trial, push_remedies, remedies_of};
use predictions::units::{Limits, Scale};
use rate_limit::Asked;
use round_planner::RoundRow;
use std::alloc::Global;
use std::process::Abort;
use trace_codec::Trace;
use worked_guest::ASKED;

/// A row of a buffer, with numbers that no round has.
pub(crate) const OLD_ROW: RoundRow = RoundRow {
    from: 9,
    to: 8,
    rate: 7,
    pages: 6,
    sent: 5,
    dirtied: 4,
};

/// What is tried: ticks of so many microseconds, of so many pages of a guest 6 in the trace, the link and the first
/// round, the downtime and the reserve, the increment, and the other settings.
pub(crate) type Tried = (
    u64,
    u64,
    (u64, Option<u64>),
    (u64, u64),
    Option<u64>,
    Others,
);

/// Whether a migration ends within the trace, and the link and the start that end it there.
type Ends = (bool, Option<u64>, Option<u64>);

/// It does as it is, or nothing that was tried does.
const SOON: Ends = (true, None, None);

const NEVER: Ends = (false, None, None);

/// What is found: whether the limit is kept, and the link, the downtime and the speed that keep it; and its end.
type Found = (bool, Option<u64>, Option<u64>, Option<u64>, Ends);

/// The settings that limits do not make.
#[derive(Clone, Copy)]
pub(crate) enum Others {
    Worked,
    /// A warm start of 30 rounds, or of three.
    Long,
    Short,
    /// Three rounds from the first tick on, over the memory before it.
    AtOnce,
    /// Three rounds that skip pages, at once or late, or 30.
    Skipping,
    Late,
    Many,
    /// Three rounds that skip pages, from a tick near the last one, which may go back to an earlier one.
    Latest,
    Based,
}

impl Others {
    fn asked(self) -> Asked {
        let short = Asked {
            rounds: 3,
            start: 900,
            base: Some(0),
            ..ASKED
        };
        let skipping = Asked {
            rounds: 3,
            skip: true,
            ..ASKED
        };
        match self {
            Others::Worked => ASKED,
            Others::Long => Asked {
                rounds: 30,
                ..short
            },
            Others::Short => short,
            Others::AtOnce => Asked { start: 0, ..short },
            Others::Skipping => skipping,
            Others::Late => Asked {
                start: 900,
                ..skipping
            },
            Others::Many => Asked {
                rounds: 30,
                ..skipping
            },
            Others::Latest => Asked {
                start: 3900,
                ..skipping
            },
            Others::Based => Asked {
                start: 3900,
                base: Some(1500),
                ..skipping
            },
        }
    }
}

/// Returns a trial.
pub(crate) fn trial(rt: &impl Abort, tried: &Tried) -> Trial {
    let (tick, guest, (link, first), (downtime, reserve), increment, others) = *tried;
    Trial {
        scale: Scale::new(tick, 16, 6, guest).expect(rt, "a scale"),
        limits: Limits {
            link,
            first,
            downtime,
            reserve,
        },
        increment,
        others: others.asked(),
        manner: Manner::Rounds,
    }
}

/// Returns what keeps the limit of a trial, in memory that is lent and not empty.
fn lent(rt: &impl Abort, alloc: Global, trace: &Trace, trial: &Trial) -> Remedies {
    let pages = trace.page_count() as usize;
    let mut marks = Vec::from_elem(alloc, u64::MAX, word_count(pages)).expect(rt, "memory");
    let mut list = Vec::from_elem(alloc, u32::MAX, pages).expect(rt, "memory");
    let mut rows = Vec::from_elem(alloc, OLD_ROW, 64).expect(rt, "memory");
    remedies_of(trace, trial, &mut marks, &mut list, &mut rows)
}

/// Returns what keeps the limit of a trial, by both calls.
fn both_remedies(rt: &impl Abort, alloc: Global, trace: &Trace, trial: &Trial) -> [Remedies; 2] {
    let owned = Remedies::of_trace(alloc, trace, trial).expect(rt, "memory");
    [owned, lent(rt, alloc, trace, trial)]
}

fn remedies((is_kept, link, downtime, speed, ends): Found) -> Remedies {
    let (ends, ending_link, start) = ends;
    Remedies {
        is_kept,
        link,
        downtime,
        speed,
        ending: Ending {
            ends,
            link: ending_link,
            start,
        },
    }
}

#[test]
fn remedies_of_migrations(rt: HostRuntime) {
    const CASES: [(Tried, Found); 11] = [
        // the rate is too high after a round; it is not from 11 Kbit a second on
        (
            (
                1000,
                60,
                (650, None),
                (206_011, 10_000),
                Some(2),
                Others::Long,
            ),
            (false, Some(11), Some(761_274), Some(50), SOON),
        ),
        // the stop comes after the last tick
        (
            (333, 60, (1175, None), (28_963, 0), None, Others::Skipping),
            (
                false,
                Some(39),
                Some(832_686),
                Some(15),
                (false, Some(16), None),
            ),
        ),
        (
            (
                333,
                60,
                (700, None),
                (452_653, 10_000),
                Some(2),
                Others::Short,
            ),
            (false, Some(12), None, Some(15), (false, Some(8), Some(500))),
        ),
        // the first round has so little of the link that more of it or a longer downtime does not help
        (
            (
                333,
                6,
                (950, Some(50)),
                (225_318, 0),
                None,
                Others::Skipping,
            ),
            (false, None, None, Some(50), NEVER),
        ),
        (
            (
                333,
                6,
                (50, Some(50)),
                (217_634, 10_000),
                Some(2),
                Others::Late,
            ),
            (false, None, None, None, NEVER),
        ),
        (
            (
                100,
                6,
                (1400, None),
                (174_571, 10_000),
                Some(2),
                Others::Many,
            ),
            (true, Some(6), Some(22_502), None, SOON),
        ),
        // a 64th of either is enough
        (
            (
                1000,
                60,
                (412_500, None),
                (1_428_099, 10_000),
                Some(2),
                Others::AtOnce,
            ),
            (true, Some(51), Some(22_314), None, SOON),
        ),
        // an earlier start is enough, though no longer downtime is; it goes back to the copy at the destination
        (
            (333, 60, (11_750, None), (28_963, 0), None, Others::Latest),
            (
                false,
                Some(231),
                None,
                Some(40),
                (false, Some(231), Some(3750)),
            ),
        ),
        (
            (333, 60, (5000, None), (0, 0), None, Others::Based),
            (
                false,
                Some(154),
                None,
                Some(25),
                (false, Some(154), Some(3500)),
            ),
        ),
        // no settings
        (
            (1000, 60, (0, None), (0, 0), None, Others::Worked),
            (false, None, None, None, NEVER),
        ),
        (
            (
                1000,
                60,
                (u64::MAX, None),
                (100_000, 0),
                None,
                Others::Worked,
            ),
            (false, None, None, None, NEVER),
        ),
    ];
    let alloc = rt.alloc();
    let trace = guest(&rt, alloc, 6, &WRITES);
    for (tried, found) in &CASES {
        assert!(rt; both_remedies(&rt, alloc, &trace, &trial(&rt, tried)) == [remedies(*found); 2]);
    }
}

/// The lines on the first of these, on a migration that ends after the trace, on a limit that is kept, and on one that
/// nothing keeps.
#[test]
fn lines_of_remedies(rt: HostRuntime) {
    let alloc = rt.alloc();
    const CASES: [(Found, &str); 4] = [
        (
            (false, Some(11), Some(761_274), Some(50), SOON),
            "enough: --link 11Kbit\nenough: --downtime 761274us\n\
             enough: the guest slowed to 50 per cent of its speed\n",
        ),
        (
            (false, Some(12), None, Some(15), (false, Some(8), Some(500))),
            "enough: --link 12Kbit\nenough: the guest slowed to 15 per cent of its speed\n\
             enough to end within the trace: --link 8Kbit\nenough to end within the trace: --start 500\n",
        ),
        (
            (true, Some(6), Some(22_502), None, SOON),
            "enough: --link 6Kbit\nenough: --downtime 22502us\n",
        ),
        ((false, None, None, None, NEVER), ""),
    ];
    for &(found, expected) in &CASES {
        let mut text = Vec::new(alloc);
        push_remedies(&mut text, &remedies(found)).expect(&rt, "memory");
        assert!(rt; text.as_slice() == expected.as_bytes(), "{expected}");
    }
}
