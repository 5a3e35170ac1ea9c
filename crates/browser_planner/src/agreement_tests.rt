//! How sure answers about the worked trace are. The numbers come from `python/precopy_dev/models/agreements.py`, which
//! shares no code with the crates.

use crate::agreements::lent_agreement;
use crate::prediction_tests::ASKED;
use crate::tests::{ROUND, TOUCH, TRACE};
use predictions::Question;
use predictions::agreement::AgreementNumbers;
use std::alloc::Global;
use std::process::Abort;

/// What is told: the status; of the draws how many there are, are known, converge and keep the limit; of the starts
/// the same, but for those that are not known; and both verdicts.
type Told = (u32, [u64; 7], [u32; 2]);

/// How sure the answer to a question is, with this many slots for a list.
fn agreement(rt: &impl Abort, alloc: Global, question: &Question, slots: usize) -> Told {
    let mut list = Vec::from_elem(alloc, 9, slots).expect(rt, "memory");
    let mut marks = Vec::from_elem(alloc, u64::MAX, 3_072).expect(rt, "memory");
    let mut told = AgreementNumbers {
        draws: 7,
        draws_known: 7,
        draws_converging: 7,
        draws_kept: 7,
        starts: 7,
        starts_converging: 7,
        starts_kept: 7,
        converges: 7,
        kept: 7,
    };
    let status = lent_agreement(
        &TRACE,
        question,
        &mut [TOUCH; 5],
        &mut marks,
        &mut list,
        &mut [ROUND; 64],
        &mut told,
    );
    (
        status,
        [
            told.draws,
            told.draws_known,
            told.draws_converging,
            told.draws_kept,
            told.starts,
            told.starts_converging,
            told.starts_kept,
        ],
        [told.converges, told.kept],
    )
}

#[test]
fn answers_that_are_sure_or_not(rt: HostRuntime) {
    const SLOTS: usize = 131_072;
    let alloc = rt.alloc();
    let whole = Question {
        sampled: 16,
        ..ASKED
    };
    let short = Question {
        rounds: 1,
        downtime: 100_000,
        ..ASKED
    };
    let slow = Question { link: 128, ..ASKED };
    let warm = Question {
        base: 6,
        start: 1201,
        has_base: 1,
        ..ASKED
    };
    let sure = agreement(&rt, alloc, &ASKED, SLOTS);
    assert!(rt; sure == (0, [20, 20, 20, 20, 19, 19, 19], [0, 3]));
    let sure = agreement(&rt, alloc, &whole, SLOTS);
    assert!(rt; sure == (0, [0, 0, 0, 0, 20, 20, 20], [0, 0]));
    let sure = agreement(&rt, alloc, &short, SLOTS);
    assert!(rt; sure == (0, [20, 20, 4, 4, 19, 18, 18], [3, 3]));
    let sure = agreement(&rt, alloc, &slow, SLOTS);
    assert!(rt; sure == (0, [20, 4, 4, 4, 0, 0, 0], [2, 2]));
    let sure = agreement(&rt, alloc, &warm, SLOTS);
    assert!(rt; sure == (0, [20, 20, 20, 20, 20, 20, 20], [0, 0]));
}

#[test]
fn answers_by_looks_that_are_sure_or_not(rt: HostRuntime) {
    const SLOTS: usize = 131_072;
    let alloc = rt.alloc();
    let looks = Question { clark: 0, ..ASKED };
    let sure = agreement(&rt, alloc, &looks, SLOTS);
    assert!(rt; sure == (0, [20, 20, 20, 20, 20, 20, 20], [0, 0]));
    let sure = agreement(&rt, alloc, &Question { link: 128, ..looks }, SLOTS);
    assert!(rt; sure == (0, [20, 4, 4, 4, 0, 0, 0], [2, 2]));
    let tight = Question {
        link: 256,
        downtime: 40_000,
        ..looks
    };
    let sure = agreement(&rt, alloc, &tight, SLOTS);
    assert!(rt; sure == (0, [20, 17, 17, 17, 13, 13, 13], [3, 3]));
}

#[test]
fn refusals_leave_the_agreement(rt: HostRuntime) {
    const SLOTS: usize = 131_072;
    let alloc = rt.alloc();
    let short = agreement(&rt, alloc, &ASKED, SLOTS - 1);
    assert!(rt; short == (61, [7; 7], [7; 2]));
    let out = agreement(&rt, alloc, &Question { tick: 0, ..ASKED }, SLOTS);
    assert!(rt; out == (81, [7; 7], [7; 2]));
    let other = agreement(&rt, alloc, &Question { page: 32, ..ASKED }, SLOTS);
    assert!(rt; other == (88, [7; 7], [7; 2]));
}
