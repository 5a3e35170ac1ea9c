//! Worked examples, whose results were worked out by hand.

use crate::plans::lent_plan;
use crate::touches::LentTouch;
use crate::traces::{LentSizes, lent_check_trace};
use crate::windows::lent_windows;
use c_layout::{PlanSettings, PlanSums};
use round_planner::RoundRow;
use working_sets::{PageSeen, WindowNumbers};

/// Pages of 16 bytes, 4 pages, 5 writes: of pages 0 and 1 at ticks 0 and 5, of page 1 at tick 1200, of pages 3 and 1
/// at tick 2500.
pub(crate) static TRACE: [u8; 102] = [
    0x50, 0x43, 0x57, 0x54, 1, 4, 0, 0, 4, 0, 0, 0, 5, 0, 0, 0, //
    0, 0, 0, 0, 0, 0, 0, 0, 0, 0, 0, 0, 0, 0, 1, 0, 1, //
    5, 0, 0, 0, 0, 0, 0, 0, 1, 0, 0, 0, 15, 0, 1, 0, 2, //
    0xb0, 4, 0, 0, 0, 0, 0, 0, 1, 0, 0, 0, 0, 0, 1, 0, 3, //
    0xc4, 9, 0, 0, 0, 0, 0, 0, 3, 0, 0, 0, 2, 0, 2, 0, 4, 5, //
    0xc4, 9, 0, 0, 0, 0, 0, 0, 1, 0, 0, 0, 0, 0, 1, 0, 0,
];

/// The same with both last writes at tick 2499.
static EARLIER: [u8; 102] = [
    0x50, 0x43, 0x57, 0x54, 1, 4, 0, 0, 4, 0, 0, 0, 5, 0, 0, 0, //
    0, 0, 0, 0, 0, 0, 0, 0, 0, 0, 0, 0, 0, 0, 1, 0, 1, //
    5, 0, 0, 0, 0, 0, 0, 0, 1, 0, 0, 0, 15, 0, 1, 0, 2, //
    0xb0, 4, 0, 0, 0, 0, 0, 0, 1, 0, 0, 0, 0, 0, 1, 0, 3, //
    0xc3, 9, 0, 0, 0, 0, 0, 0, 3, 0, 0, 0, 2, 0, 2, 0, 4, 5, //
    0xc3, 9, 0, 0, 0, 0, 0, 0, 1, 0, 0, 0, 0, 0, 1, 0, 0,
];

pub(crate) const TOUCH: LentTouch = LentTouch { tick: 0, page: 0 };

pub(crate) const ROUND: RoundRow = RoundRow {
    from: 7,
    to: 7,
    rate: 7,
    pages: 7,
    sent: 7,
    dirtied: 7,
};

const SEEN: PageSeen = PageSeen {
    last: 9,
    windows: 9,
};

const WINDOW: WindowNumbers = WindowNumbers {
    number: 7,
    writes: 7,
    pages: 7,
    again: 7,
    fresh: 7,
};

pub(crate) fn settings(start: u64, base: Option<u64>, skip: u32) -> PlanSettings {
    PlanSettings {
        min: 2,
        max: 4,
        increment: 1,
        threshold: 1,
        rounds: 8,
        start,
        window: 1000,
        hot: 2,
        base: base.unwrap_or(0),
        has_base: u32::from(base.is_some()),
        skip,
    }
}

fn numbers_of_round(row: &RoundRow) -> [u64; 6] {
    [row.from, row.to, row.rate, row.pages, row.sent, row.dirtied]
}

/// What a call answers, the sums, and the first three slots for rounds.
type Planned = (u32, [u64; 5], [[u64; 6]; 3]);

/// Plans with this many slots for touches, and all else that a plan needs. The marks are not clear before.
fn planned(trace: &[u8], settings: &PlanSettings, slots: usize) -> Planned {
    let mut touches = [TOUCH; 6];
    let mut rounds = [ROUND; 8];
    let mut sums = PlanSums {
        rounds: 7,
        reason: 7,
        stop: 7,
        down: 7,
        total: 7,
    };
    let (lent, _) = touches.split_at_mut(slots.min(6));
    let status = lent_plan(
        trace,
        settings,
        lent,
        &mut [u64::MAX; 1],
        &mut [9; 4],
        &mut rounds,
        &mut sums,
    );
    let told = [sums.rounds, sums.reason, sums.stop, sums.down, sums.total];
    let rows = [
        numbers_of_round(&rounds[0]),
        numbers_of_round(&rounds[1]),
        numbers_of_round(&rounds[2]),
    ];
    (status, told, rows)
}

#[test]
fn plans_of_five_writes(rt: HostRuntime) {
    let cold = planned(&TRACE, &settings(0, None, 0), 5);
    let rows = [
        [0, 2000, 2, 4, 4, 2],
        [2000, 3000, 2, 2, 2, 2],
        [3000, 3667, 3, 2, 2, 0],
    ];
    assert!(rt; cold == (0, [3, 0, 3667, 0, 8], rows));
    let skipping = planned(&EARLIER, &settings(0, None, 1), 6);
    let rows = [[0, 2000, 2, 4, 4, 2], [2000, 2500, 2, 2, 1, 2], [7; 6]];
    assert!(rt; skipping == (0, [2, 1, 2500, 500, 7], rows));
    let warm = planned(&TRACE, &settings(1000, Some(0), 1), 5);
    let rows = [[1000, 2000, 2, 2, 2, 1], [2000, 2500, 2, 1, 1, 0], [7; 6]];
    assert!(rt; warm == (0, [2, 0, 2500, 0, 3], rows));
}

#[test]
fn refusals_write_nothing(rt: HostRuntime) {
    let untouched = [[7; 6]; 3];
    let short = planned(&TRACE, &settings(0, None, 0), 4);
    assert!(rt; short == (61, [7; 5], untouched));
    let (cut, _) = TRACE.split_at(101);
    let cut = planned(cut, &settings(0, None, 0), 5);
    assert!(rt; cut == (8, [7; 5], untouched));
    let late = planned(&TRACE, &settings(5, Some(6), 0), 5);
    assert!(rt; late == (30, [7; 5], untouched));
}

#[test]
fn windows_of_five_writes(rt: HostRuntime) {
    let mut touches = [TOUCH; 5];
    let mut rows = [WINDOW; 4];
    let mut count = 7usize;
    let asked = settings(0, None, 0);
    let (short, _) = rows.split_at_mut(2);
    let refused = lent_windows(
        &TRACE,
        &asked,
        &mut touches,
        &mut [SEEN; 4],
        short,
        &mut count,
    );
    assert!(rt; (refused, count, rows[0].number) == (61, 7, 7));
    let status = lent_windows(
        &TRACE,
        &asked,
        &mut touches,
        &mut [SEEN; 4],
        &mut rows,
        &mut count,
    );
    assert!(rt; (status, count) == (0, 3));
    for (row, expected) in rows.iter().zip([
        [0, 2, 2, 0, 2],
        [1, 1, 1, 1, 0],
        [2, 2, 2, 1, 1],
        [7; 5],
    ]) {
        assert!(rt; [row.number, row.writes, row.pages, row.again, row.fresh] == expected);
    }
}

#[test]
fn sizes_of_five_writes(rt: HostRuntime) {
    let mut sizes = LentSizes {
        shift: 7,
        pages: 7,
        writes: 7,
        last: 7,
    };
    let mut record = 7u32;
    assert!(rt; lent_check_trace(&TRACE, &mut sizes, &mut record) == 0);
    assert!(rt; (sizes.shift, sizes.pages, sizes.writes, sizes.last, record) == (4, 4, 5, 2500, 7));
    let (cut, _) = TRACE.split_at(30);
    assert!(rt; lent_check_trace(cut, &mut sizes, &mut record) == 8);
    assert!(rt; (sizes.writes, record) == (5, 0));
}
