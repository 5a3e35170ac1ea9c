//! Worked examples.

use rate_limit::{Asked, Settings};
use std::alloc::Global;
use std::process::Abort;
use std::thread::Threads;
use trace_codec::decode;
use trace_readers::TouchLog;
use worked_guest::{ASKED, NO_WRITES, TRACE};
use working_sets::{Tables, Window, par_tables, tables};

/// A guest of 1 page with a write at tick 0 and one at the greatest tick, 2^40 - 1.
const FAR_APART: [u8; 50] = [
    0x50, 0x43, 0x57, 0x54, 1, 4, 0, 0, 1, 0, 0, 0, 2, 0, 0, 0, // header
    0, 0, 0, 0, 0, 0, 0, 0, 0, 0, 0, 0, 0, 0, 1, 0, 1, // write 1
    0xff, 0xff, 0xff, 0xff, 0xff, 0, 0, 0, 0, 0, 0, 0, 0, 0, 1, 0, 1, // write 2
];

fn settings(rt: &impl Abort, window: u64, hot: u64) -> Settings {
    Settings::new(Asked {
        window,
        hot,
        ..ASKED
    })
    .expect(rt, "settings")
}

fn row(number: u64, writes: u32, pages: u32, again: u32, fresh: u32) -> Window {
    Window {
        number,
        writes,
        pages,
        again,
        fresh,
    }
}

/// Returns the tables of a trace, and of only its touches.
fn both(rt: &impl Abort, alloc: Global, bytes: &[u8], window: u64, hot: u64) -> (Tables, Tables) {
    let settings = settings(rt, window, hot);
    let trace = decode(alloc, bytes).expect(rt, "a trace");
    let owned = tables(alloc, &trace, &settings).expect(rt, "tables");
    let log = TouchLog::parse(alloc, bytes).expect(rt, "a trace");
    let touched = tables(alloc, &log, &settings).expect(rt, "tables");
    (owned, touched)
}

/// Returns the windows and the hot pages.
fn parts(tables: &Tables) -> (&[Window], &[u32]) {
    (tables.windows.as_slice(), tables.hot.as_slice())
}

#[test]
fn windows_of_a_thousand_ticks(rt: HostRuntime) {
    let rows = [row(0, 2, 2, 0, 2), row(1, 1, 1, 1, 0), row(2, 2, 2, 1, 1)];
    let (owned, touched) = both(&rt, rt.alloc(), &TRACE, 1000, 2);
    let wanted = (rows.as_slice(), [1].as_slice());
    assert!(rt; [parts(&owned), parts(&touched)] == [wanted; 2]);
}

#[test]
fn one_long_window(rt: HostRuntime) {
    let rows = [row(0, 5, 3, 0, 3)];
    let (owned, touched) = both(&rt, rt.alloc(), &TRACE, 5000, 1);
    let wanted = (rows.as_slice(), [0, 1, 3].as_slice());
    assert!(rt; [parts(&owned), parts(&touched)] == [wanted; 2]);
}

/// Returns whether tables made by `workers` workers are the same as those made by none.
fn are_same_by<R: Abort + Threads + Sync>(
    rt: &R,
    alloc: Global,
    log: &TouchLog,
    settings: &Settings,
    workers: usize,
) -> bool {
    let alone = tables(alloc, log, settings).expect(rt, "tables");
    let by_workers = par_tables(rt, alloc, log, settings, workers).expect(rt, "tables");
    parts(&by_workers) == parts(&alone)
}

#[test]
fn any_number_of_workers(rt: HostRuntime) {
    let log = TouchLog::parse(rt.alloc(), &TRACE).expect(&rt, "a trace");
    for (window, hot) in [(5000, 1), (1000, 2)] {
        let settings = settings(&rt, window, hot);
        for workers in [1, 2, 16] {
            assert!(rt;
                are_same_by(&rt, rt.alloc(), &log, &settings, workers),
                "{workers}"
            );
        }
    }
}

/// Returns a trace of this many writes to 3,000 pages, 17 of them at each tick, so long that workers count pieces of
/// it.
fn long_trace(rt: &impl Abort, alloc: Global, writes: u32) -> Vec<u8> {
    let mut bytes = Vec::from_slice(
        alloc,
        &[0x50, 0x43, 0x57, 0x54, 1, 12, 0, 0, 0xb8, 0x0b, 0, 0],
    )
    .expect(rt, "memory");
    bytes
        .extend_from_slice(&writes.to_le_bytes())
        .expect(rt, "memory");
    let mut drawn: u32 = 1;
    for index in 0..writes {
        drawn = drawn.wrapping_mul(1_664_525).wrapping_add(1_013_904_223);
        bytes
            .extend_from_slice(&u64::from(index / 17).to_le_bytes())
            .expect(rt, "memory");
        bytes
            .extend_from_slice(&(drawn / 65_536 % 3_000).to_le_bytes())
            .expect(rt, "memory");
        bytes
            .extend_from_slice(&[0, 0, 1, 0, 1])
            .expect(rt, "memory");
    }
    bytes
}

#[test]
fn windows_that_pieces_cut(rt: HostRuntime) {
    let bytes = long_trace(&rt, rt.alloc(), 200_000);
    let log = TouchLog::parse(rt.alloc(), &bytes).expect(&rt, "a trace");
    for (window, hot) in [(1, 60), (1000, 11), (20_000, 1)] {
        let settings = settings(&rt, window, hot);
        for workers in [2, 3] {
            assert!(rt;
                are_same_by(&rt, rt.alloc(), &log, &settings, workers),
                "{workers}"
            );
        }
    }
}

#[test]
fn no_writes_no_rows(rt: HostRuntime) {
    let (owned, touched) = both(&rt, rt.alloc(), &NO_WRITES, 1000, 2);
    let lengths = [&owned, &touched].map(|tables| (tables.windows.len(), tables.hot.len()));
    assert!(rt; lengths == [(0, 0); 2]);
}

#[test]
fn one_tick_windows_have_rows_only_where_writes_are(rt: HostRuntime) {
    let rows = [row(0, 1, 1, 0, 1), row(1_099_511_627_775, 1, 1, 0, 0)];
    let (owned, touched) = both(&rt, rt.alloc(), &FAR_APART, 1, 2);
    let wanted = (rows.as_slice(), [0].as_slice());
    assert!(rt; [parts(&owned), parts(&touched)] == [wanted; 2]);
}
