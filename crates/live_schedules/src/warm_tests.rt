//! Warm starts: the destination begins with the guest's memory before a base tick.

use crate::tests::{has_images, run};
use live_engine::{Live, OpenGate};
use rate_limit::Asked;
use worked_guest::{ASKED, MEMORY, MEMORY_AT_1200, MEMORY_AT_2000};

/// The memory before tick 5.
static MEMORY_AT_5: [u8; 64] = [
    1, 0, 0, 0, 0, 0, 0, 0, 0, 0, 0, 0, 0, 0, 0, 0, //
    0, 0, 0, 0, 0, 0, 0, 0, 0, 0, 0, 0, 0, 0, 0, 0, //
    0, 0, 0, 0, 0, 0, 0, 0, 0, 0, 0, 0, 0, 0, 0, 0, //
    0, 0, 0, 0, 0, 0, 0, 0, 0, 0, 0, 0, 0, 0, 0, 0,
];

/// Returns whether the first round sent these pages, and left none for later.
fn sent_first(live: &Live, pages: &[u32]) -> bool {
    match live.rounds.get(0) {
        Some(round) => {
            round
                .sent
                .iter()
                .map(|sent| sent.0)
                .eq(pages.iter().copied())
                && round.skipped.is_empty()
                && round.deferred.is_empty()
        }
        None => false,
    }
}

#[test]
fn a_warm_start_sends_what_was_written_since_the_base(rt: HostRuntime) {
    let alloc = rt.alloc();
    // The base, the start, the stop, the pages of the first round, and the memory at the stop.
    const ROWS: [(u64, u64, u64, &[u32], &[u8; 64]); 4] = [
        (0, 1000, 2500, &[0, 1], &MEMORY_AT_2000),
        (6, 1200, 1200, &[], &MEMORY_AT_1200),
        (1200, 1201, 1701, &[1], &MEMORY_AT_2000),
        (5, 5, 5, &[], &MEMORY_AT_5),
    ];
    let mut right = true;
    for &(base, start, stop, pages, at_stop) in &ROWS {
        for workers in [1, 3] {
            let warm = Asked {
                start,
                workers,
                base: Some(base),
                ..ASKED
            };
            let live = run(&rt, alloc, warm, &OpenGate);
            let memory = has_images(&live, at_stop, &MEMORY);
            right &= memory && live.stop == stop && sent_first(&live, pages);
        }
    }
    assert!(rt; right);
}
