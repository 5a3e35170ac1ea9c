//! What keeps limits over the worked trace. The amounts come from `python/precopy_dev/models/remedies.py`, which shares
//! no code with the crates.

use crate::prediction_tests::ASKED;
use crate::remedies::lent_remedies;
use crate::tests::{ROUND, TOUCH, TRACE};
use predictions::Question;
use predictions::remedies::RemedyNumbers;

/// What is told: the status, whether the limit is kept, and whether the migration ends within the trace; the link in
/// bytes a second, the downtime and the speed that keep the limit, and the link and the start that end the migration
/// within the trace, with whether each was found.
type Told = (u32, [u32; 2], [u64; 5], [u32; 5]);

/// What keeps the limit of a question, with this many slots for rounds.
fn remedies(question: &Question, slots: usize) -> Told {
    let mut rounds = [ROUND; 64];
    let (lent, _) = rounds.split_at_mut(slots.min(64));
    let mut told = RemedyNumbers {
        link: 7,
        downtime: 7,
        speed: 7,
        ending_link: 7,
        ending_start: 7,
        has_link: 7,
        has_downtime: 7,
        has_speed: 7,
        has_ending_link: 7,
        has_ending_start: 7,
        is_kept: 7,
        ends: 7,
    };
    let status = lent_remedies(
        &TRACE,
        question,
        &mut [TOUCH; 5],
        &mut [u64::MAX; 1],
        &mut [9; 4],
        lent,
        &mut told,
    );
    (
        status,
        [told.is_kept, told.ends],
        [
            told.link,
            told.downtime,
            told.speed,
            told.ending_link,
            told.ending_start,
        ],
        [
            told.has_link,
            told.has_downtime,
            told.has_speed,
            told.has_ending_link,
            told.has_ending_start,
        ],
    )
}

#[test]
fn amounts_that_keep_a_limit(rt: HostRuntime) {
    let few_rounds = Question {
        downtime: 100_000,
        rounds: 1,
        ..ASKED
    };
    let late = Question {
        start: 2400,
        ..ASKED
    };
    let given = Question {
        link: 512,
        downtime: 100_000,
        reserve: 0,
        increment: 5,
        has_increment: 1,
        ..ASKED
    };
    let not_given = Question {
        has_increment: 0,
        ..given
    };
    assert!(rt; remedies(&ASKED, 64) == (0, [1, 1], [250, 10_009, 0, 0, 0], [1, 1, 0, 0, 0]));
    assert!(rt;
        remedies(&few_rounds, 64) == (0, [0, 1], [1500, 135_156, 0, 0, 0], [1, 1, 0, 0, 0])
    );
    assert!(rt; remedies(&late, 64) == (0, [0, 0], [2625, 0, 40, 2625, 2250], [1, 0, 1, 1, 1]));
    assert!(rt; remedies(&given, 64) == (0, [0, 1], [750, 250_000, 80, 0, 0], [1, 1, 1, 0, 0]));
    assert!(rt; remedies(&not_given, 64) == (0, [1, 1], [250, 1562, 0, 0, 0], [1, 1, 0, 0, 0]));
}

#[test]
fn amounts_that_keep_a_limit_by_looks(rt: HostRuntime) {
    let given = Question {
        link: 512,
        downtime: 100_000,
        reserve: 0,
        clark: 0,
        ..ASKED
    };
    let late = Question {
        start: 2400,
        clark: 0,
        ..ASKED
    };
    let slow = Question {
        link: 128,
        clark: 0,
        ..ASKED
    };
    assert!(rt; remedies(&given, 64) == (0, [1, 1], [250, 1562, 0, 0, 0], [1, 1, 0, 0, 0]));
    assert!(rt; remedies(&late, 64) == (0, [1, 1], [1125, 198_046, 0, 0, 0], [1, 1, 0, 0, 0]));
    assert!(rt; remedies(&slow, 64) == (0, [0, 0], [250, 510_937, 65, 250, 0], [1, 1, 1, 1, 0]));
}

/// Returns whether a question is refused with this number, before anything is written.
fn is_refused(question: &Question, slots: usize, number: u32) -> bool {
    remedies(question, slots) == (number, [7; 2], [7; 5], [7; 5])
}

#[test]
fn refusals_leave_the_amounts(rt: HostRuntime) {
    assert!(rt; is_refused(&ASKED, 63, 61));
    assert!(rt; is_refused(&Question { tick: 0, ..ASKED }, 64, 81));
    assert!(rt; is_refused(&Question { page: 32, ..ASKED }, 64, 88));
}
