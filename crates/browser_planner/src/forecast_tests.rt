//! What comes of migrations over the worked trace like QEMU. The numbers come from
//! `python/precopy_dev/models/looks.py`, which shares no code with the crates.

use crate::forecasts::lent_forecast;
use crate::prediction_tests::ASKED;
use crate::tests::{TOUCH, TRACE};
use c_layout::ForecastNumbers;
use predictions::Question;

/// What is told: the status; the looks, the time, the bytes, how many of them are left, and the downtime; and the end,
/// and whether the limit is kept.
type Told = (u32, [u64; 5], [u32; 2]);

/// What comes of a question, with this many slots for a list of pages.
fn forecast(question: &Question, slots: usize) -> Told {
    let mut list = [9; 4];
    let (lent, _) = list.split_at_mut(slots.min(4));
    let mut told = ForecastNumbers {
        looks: 7,
        time: 7,
        bytes: 7,
        left: 7,
        downtime: 7,
        end: 7,
        kept: 7,
    };
    let status = lent_forecast(
        &TRACE,
        question,
        &mut [TOUCH; 5],
        &mut [u64::MAX; 1],
        lent,
        &mut told,
    );
    (
        status,
        [told.looks, told.time, told.bytes, told.left, told.downtime],
        [told.end, told.kept],
    )
}

#[test]
fn migrations_like_qemu(rt: HostRuntime) {
    let tight = Question {
        link: 256,
        downtime: 40_000,
        ..ASKED
    };
    let slow = Question { link: 128, ..ASKED };
    let warm = Question {
        base: 6,
        start: 1201,
        has_base: 1,
        ..ASKED
    };
    let after = Question {
        start: 2501,
        ..ASKED
    };
    assert!(rt; forecast(&ASKED, 4) == (0, [2, 398_000, 320, 192, 198_000], [0, 0]));
    assert!(rt; forecast(&tight, 4) == (0, [3, 1_760_000, 448, 0, 10_000], [0, 0]));
    assert!(rt; forecast(&slow, 4) == (0, [1, 3_010_000, 384, 64, 510_000], [1, 2]));
    assert!(rt; forecast(&warm, 4) == (0, [1, 73_000, 64, 0, 10_000], [0, 0]));
    assert!(rt; forecast(&after, 4) == (0, [0; 5], [2, 2]));
}

#[test]
fn refusals_leave_the_forecast(rt: HostRuntime) {
    assert!(rt; forecast(&ASKED, 3) == (61, [7; 5], [7; 2]));
    assert!(rt; forecast(&Question { tick: 0, ..ASKED }, 4) == (81, [7; 5], [7; 2]));
    assert!(rt; forecast(&Question { page: 32, ..ASKED }, 4) == (88, [7; 5], [7; 2]));
}
