//! Questions about the worked trace. The answers are those of `precopy-view`; standard errors come from
//! `python/precopy_dev/models/redrawn.py`, which shares no code with this crate.

use crate::answering::{lent_predict, lent_question};
use crate::errors::lent_errors;
use crate::starts::{LentChoice, LentStart, lent_chosen_starts};
use crate::tests::{ROUND, TOUCH, TRACE, settings};
use c_layout::PlanSettings;
use predictions::{Answer, ErrorNumbers, Question};

/// A link of 64 pages of the guest in 1,000 ticks, a guest of which one page in four was recorded, and a downtime of
/// 200 ms, of which 10 are reserved.
pub(crate) const ASKED: Question = Question {
    link: 1024,
    first: 0,
    downtime: 200_000,
    reserve: 10_000,
    tick: 1000,
    page: 16,
    sampled: 4,
    guest: 16,
    increment: 0,
    rounds: 30,
    start: 0,
    base: 0,
    has_first: 0,
    has_increment: 0,
    has_base: 0,
    skip: 0,
    clark: 1,
};

const UNANSWERED: Answer = Answer {
    rounds: 7,
    reason: 7,
    stop: 7,
    down: 7,
    total: 7,
    left: 7,
    time: 7,
    bytes: 7,
    downtime: 7,
    recorded: 7,
    converges: 7,
    kept: 7,
};

/// What is answered, with this many slots for rounds.
fn predicted(question: &Question, slots: usize) -> (u32, Answer) {
    let mut rounds = [ROUND; 30];
    let (lent, _) = rounds.split_at_mut(slots.min(30));
    let mut answer = UNANSWERED;
    let status = lent_predict(
        &TRACE,
        question,
        &mut [TOUCH; 5],
        &mut [u64::MAX; 1],
        &mut [9; 4],
        lent,
        &mut answer,
    );
    (status, answer)
}

#[test]
fn settings_of_limits(rt: HostRuntime) {
    let mut made = settings(0, Some(0), 1);
    let asked = Question {
        first: 512,
        has_first: 1,
        start: 5,
        base: 3,
        has_base: 1,
        skip: 7,
        ..ASKED
    };
    assert!(rt; lent_question(&asked, &mut made) == 0);
    let PlanSettings {
        min,
        max,
        increment,
        threshold,
        rounds,
        ..
    } = made;
    assert!(rt; [min, max, increment, threshold, rounds] == [8, 16, 0, 4, 30]);
    assert!(rt;
        (
            made.start,
            made.window,
            made.hot,
            made.base,
            made.has_base,
            made.skip
        ) == (5, 1000, 2, 3, 1, 1)
    );
}

/// Returns whether a question is refused with this number, before anything is written.
fn is_refused(question: &Question, number: u32) -> bool {
    let mut made = settings(0, None, 0);
    let status = lent_question(question, &mut made);
    status == number && made.min == 2 && predicted(question, 30) == (number, UNANSWERED)
}

#[test]
fn refused_units_have_numbers(rt: HostRuntime) {
    assert!(rt; is_refused(&Question { tick: 0, ..ASKED }, 81));
    let wide = Question {
        page: 8192,
        ..ASKED
    };
    assert!(rt; is_refused(&wide, 82));
    let many = Question {
        sampled: 17,
        ..ASKED
    };
    assert!(rt; is_refused(&many, 83));
    assert!(rt; is_refused(&Question { link: 0, ..ASKED }, 84));
}

#[test]
fn refused_limits_have_numbers(rt: HostRuntime) {
    let fast = Question {
        first: 2048,
        has_first: 1,
        ..ASKED
    };
    assert!(rt; is_refused(&fast, 85));
    let reserved = Question {
        reserve: 200_001,
        ..ASKED
    };
    assert!(rt; is_refused(&reserved, 86));
    let long = Question {
        downtime: 4_097_000_000,
        ..ASKED
    };
    assert!(rt; is_refused(&long, 87));
}

#[test]
fn refused_settings_have_numbers(rt: HostRuntime) {
    let many = Question {
        rounds: 65,
        ..ASKED
    };
    assert!(rt; is_refused(&many, 25));
    let late = Question {
        base: 1,
        has_base: 1,
        ..ASKED
    };
    assert!(rt; is_refused(&late, 30));
}

#[test]
fn questions_that_misfit_the_trace_have_numbers(rt: HostRuntime) {
    let wide = Question { page: 32, ..ASKED };
    assert!(rt; predicted(&wide, 30) == (88, UNANSWERED));
    let few = Question {
        sampled: 3,
        ..ASKED
    };
    assert!(rt; predicted(&few, 30) == (89, UNANSWERED));
    assert!(rt; predicted(&ASKED, 29) == (61, UNANSWERED));
}

#[test]
fn answers_are_those_of_the_program(rt: HostRuntime) {
    let expected = Answer {
        rounds: 1,
        reason: 0,
        stop: 250,
        down: 125,
        total: 6,
        left: 2,
        time: 385_000,
        bytes: 384,
        downtime: 135_000,
        recorded: 2_500_000,
        converges: 0,
        kept: 0,
    };
    assert!(rt; predicted(&ASKED, 30) == (0, expected));
    let missed = Question {
        downtime: 100_000,
        rounds: 1,
        ..ASKED
    };
    let (status, answer) = predicted(&missed, 1);
    assert!(rt; (status, answer.converges, answer.kept, answer.bytes) == (0, 1, 1, 384));
    let (status, answer) = predicted(
        &Question {
            start: 2400,
            ..ASKED
        },
        30,
    );
    assert!(rt; (status, answer.converges, answer.kept, answer.recorded) == (0, 2, 2, 100_000));
}

#[test]
fn answers_by_looks_are_those_of_the_program(rt: HostRuntime) {
    let looks = Question { clark: 0, ..ASKED };
    let expected = Answer {
        rounds: 2,
        reason: 0,
        stop: 200,
        down: 188,
        total: 5,
        left: 3,
        time: 398_000,
        bytes: 320,
        downtime: 198_000,
        recorded: 2_500_000,
        converges: 0,
        kept: 0,
    };
    assert!(rt; predicted(&looks, 30) == (0, expected));
    let cut = Answer {
        rounds: 1,
        reason: 4,
        stop: 2501,
        down: 500,
        total: 6,
        left: 1,
        time: 3_011_000,
        bytes: 384,
        downtime: 510_000,
        converges: 2,
        kept: 2,
        ..expected
    };
    assert!(rt; predicted(&Question { link: 128, ..looks }, 30) == (0, cut));
}

#[test]
fn looks_write_no_rounds(rt: HostRuntime) {
    let mut rounds = [ROUND; 30];
    let mut answer = UNANSWERED;
    let looks = Question { clark: 0, ..ASKED };
    for (question, first) in [(&looks, ROUND.to), (&ASKED, 250)] {
        let status = lent_predict(
            &TRACE,
            question,
            &mut [TOUCH; 5],
            &mut [u64::MAX; 1],
            &mut [9; 4],
            &mut rounds,
            &mut answer,
        );
        assert!(rt; (status, rounds[0].to, rounds[1].to) == (0, first, ROUND.to));
    }
}

#[test]
fn times_beyond_64_bits_are_capped(rt: HostRuntime) {
    let wide = Question {
        link: u64::MAX / 2,
        guest: 1 << 32,
        tick: 1,
        reserve: u64::MAX,
        downtime: u64::MAX,
        ..ASKED
    };
    let (status, answer) = predicted(&wide, 30);
    assert!(rt; (status, answer.downtime, answer.time) == (0, u64::MAX, u64::MAX));
}

/// What is told of standard errors, with this many slots for the sample.
fn errors(question: &Question, slots: usize) -> (u32, [u64; 3], u32) {
    let mut sample = [9; 8];
    let (lent, _) = sample.split_at_mut(slots.min(8));
    let mut told = ErrorNumbers {
        bytes: 7,
        time: 7,
        downtime: 7,
        has_errors: 7,
    };
    let status = lent_errors(
        &TRACE,
        question,
        &mut [TOUCH; 5],
        lent,
        &mut [u64::MAX; 3],
        &mut told,
    );
    (
        status,
        [told.bytes, told.time, told.downtime],
        told.has_errors,
    )
}

#[test]
fn errors_are_those_of_redrawn_pages(rt: HostRuntime) {
    assert!(rt; errors(&ASKED, 8) == (0, [64, 54_082, 60_686], 1));
    let looks = Question { clark: 0, ..ASKED };
    assert!(rt; errors(&looks, 8) == (0, [32, 40_718, 0], 1));
    let all = Question {
        sampled: 16,
        guest: 16,
        ..ASKED
    };
    assert!(rt; errors(&all, 0) == (0, [0; 3], 0));
    assert!(rt; errors(&ASKED, 7) == (61, [7; 3], 7));
    assert!(rt; errors(&Question { tick: 0, ..ASKED }, 8) == (81, [7; 3], 7));
}

const NO_ERRORS: ErrorNumbers = ErrorNumbers {
    bytes: 0,
    time: 0,
    downtime: 0,
    has_errors: 0,
};

/// The answers from four starts, of which nothing is known of the first.
fn answered() -> [LentStart; 4] {
    let mut starts = [LentStart {
        answer: UNANSWERED,
        errors: NO_ERRORS,
    }; 4];
    for (place, start) in [2400, 0, 800, 1600].iter().enumerate() {
        let asked = Question {
            start: *start,
            ..ASKED
        };
        let (_, answer) = predicted(&asked, 30);
        starts[place.min(3)].answer = answer;
    }
    starts
}

/// The places that are chosen of some starts, and how many of them tell something.
fn chosen_by(clark: u32, starts: &[LentStart]) -> (usize, u64, u64) {
    let mut choice = LentChoice { best: 7, worst: 7 };
    let known = lent_chosen_starts(starts, ASKED.downtime, clark, &mut choice);
    (known, choice.best, choice.worst)
}

/// The same by Clark's rounds.
fn chosen(starts: &[LentStart]) -> (usize, u64, u64) {
    chosen_by(1, starts)
}

#[test]
fn starts_that_tell_nothing_are_not_chosen(rt: HostRuntime) {
    let starts = answered();
    assert!(rt; chosen(&starts) == (3, 2, 1));
    let (late, _) = starts.split_at(1);
    assert!(rt; chosen(late) == (0, 0, 0));
    assert!(rt; chosen(&[]) == (0, 7, 7));
}

/// Of the start that sends least, two standard errors reach the limit, or a microsecond more. A hypervisor stops the
/// guest only when what is left fits the limit.
#[test]
fn a_start_that_may_miss_its_limit_is_not_the_best(rt: HostRuntime) {
    let mut starts = answered();
    let errors = ErrorNumbers {
        downtime: 95_000,
        has_errors: 1,
        ..NO_ERRORS
    };
    starts[2].errors = errors;
    assert!(rt; chosen(&starts) == (3, 2, 1));
    starts[2].errors.downtime += 1;
    assert!(rt; chosen(&starts) == (3, 3, 1));
    assert!(rt; chosen_by(0, &starts) == (3, 2, 1));
    starts[2].answer.reason = 1;
    assert!(rt; chosen_by(0, &starts) == (3, 3, 1));
    starts[2].errors.has_errors = 0;
    assert!(rt; chosen(&starts) == (3, 2, 1));
}
