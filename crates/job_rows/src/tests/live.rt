//! Live runs, also under a schedule that the tests choose.

use super::{sink, whole};
use byte_sinks::TestSink;
use live_engine::{Gate, LiveError, OpenGate, Point};
use migration_jobs::{Job, RunError, Show, run};
use rate_limit::{Asked, Settings};
use std::alloc::{AllocError, Global};
use std::sync::Wait;
use std::sync::atomic::{AtomicU64, Ordering};
use std::test::Fail;
use std::thread;
use std::thread::Threads;
use trace_codec::{TestSource, TraceError};
use worked_guest::{ASKED, MEMORY, MEMORY_AT_2000, TRACE};

/// Returns what a live run over some bytes writes.
pub(crate) fn shown<R: Threads + Wait + Sync, G: Gate>(
    rt: &R,
    alloc: Global,
    bytes: Vec<u8>,
    asked: Asked,
    show: Show,
    gate: &G,
) -> Result<TestSink, Fail> {
    let job = Job::Live(Settings::new(asked)?, show);
    let mut source = TestSource::new(bytes, 102, None);
    let mut output = sink(alloc);
    run(rt, alloc, &job, &mut source, &mut output, gate)?;
    Ok(output)
}

/// Returns whether live runs over some bytes leave these memories, at the stop and at the end.
pub(crate) fn leaves<R: Threads + Wait + Sync>(
    rt: &R,
    alloc: Global,
    bytes: &[u8],
    asked: Asked,
    at_stop: &[u8],
    at_end: &[u8],
) -> Result<bool, Fail> {
    let stopped = shown(
        rt,
        alloc,
        Vec::from_slice(alloc, bytes)?,
        asked,
        Show::Stop,
        &OpenGate,
    )?;
    let ended = shown(
        rt,
        alloc,
        Vec::from_slice(alloc, bytes)?,
        asked,
        Show::End,
        &OpenGate,
    )?;
    Ok(stopped.bytes() == at_stop && ended.bytes() == at_end)
}

/// Settings of more than one thread of each kind.
pub(crate) const MANY: Asked = Asked {
    workers: 3,
    streams: 2,
    replayers: 4,
    ..ASKED
};

/// Settings of a run that stops after its first round.
pub(crate) const ONE_ROUND: Asked = Asked {
    max: 2,
    rounds: 1,
    ..ASKED
};

#[test]
fn writes_memory_of_a_live_run(rt: HostRuntime) -> Result<(), Fail> {
    let alloc = rt.alloc();
    let early = Asked { max: 2, ..MANY };
    let skipping = Asked {
        skip: true,
        ..ASKED
    };
    assert!(rt; leaves(&rt, alloc, &TRACE, ASKED, &MEMORY, &MEMORY)?);
    assert!(rt; leaves(&rt, alloc, &TRACE, early, &MEMORY, &MEMORY)?);
    assert!(rt; leaves(&rt, alloc, &TRACE, ONE_ROUND, &MEMORY_AT_2000, &MEMORY)?);
    assert!(rt; leaves(&rt, alloc, &TRACE, skipping, &MEMORY, &MEMORY)?);
    Ok(())
}

/// Pages of 16 bytes, 65 pages, one write.
static LAST_PAGE: [u8; 33] = [
    0x50, 0x43, 0x57, 0x54, 1, 4, 0, 0, 0x41, 0, 0, 0, 1, 0, 0, 0, //
    10, 0, 0, 0, 0, 0, 0, 0, 0x40, 0, 0, 0, 0, 0, 1, 0, 7,
];

/// Returns the memory of this guest.
fn memory_of_the_last_page(alloc: Global) -> Result<Vec<u8>, AllocError> {
    let mut memory = Vec::from_elem(alloc, 0u8, 1024)?;
    memory.push(7)?;
    memory.extend_from_slice(&[0; 15])?;
    Ok(memory)
}

#[test]
fn writes_a_page_past_the_first_word(rt: HostRuntime) -> Result<(), Fail> {
    let alloc = rt.alloc();
    let asked = Asked {
        min: 10,
        max: 10,
        rounds: 1,
        workers: 2,
        ..ASKED
    };
    for show in [Show::Stop, Show::End] {
        let bytes = Vec::from_slice(alloc, &LAST_PAGE)?;
        let output = shown(&rt, alloc, bytes, asked, show, &OpenGate)?;
        let expected = memory_of_the_last_page(alloc)?;
        assert!(rt; output.bytes() == expected.as_slice());
    }
    Ok(())
}

#[test]
fn refusals_of_a_live_run_have_their_names(rt: HostRuntime) -> Result<(), Fail> {
    let alloc = rt.alloc();
    const NAMES: [(RunError, &str); 3] = [
        (RunError::Live(LiveError::Memory), "live L1"),
        (RunError::Live(LiveError::Thread), "live L2"),
        (RunError::Trace(TraceError::Memory), "trace E16"),
    ];
    for &(error, text) in &NAMES {
        let line = format!(in alloc; "{error}")?;
        assert!(rt; line.as_str() == text);
    }
    Ok(())
}

/// How often points were reached. Each side waits for the other's first step.
#[derive(Drop)]
struct Meeting {
    stored: AtomicU64,
    marked: AtomicU64,
    harvested: AtomicU64,
    /// How many waits gave up.
    late: AtomicU64,
}

/// How often a wait polls before it gives up.
const TURNS: u64 = 50_000_000;

impl Meeting {
    fn new() -> Meeting {
        Meeting {
            stored: AtomicU64::new(0),
            marked: AtomicU64::new(0),
            harvested: AtomicU64::new(0),
            late: AtomicU64::new(0),
        }
    }

    /// Returns how many waits gave up, and how often each point was reached.
    fn counts(&self) -> [u64; 4] {
        [
            self.late.load(Ordering::SeqCst),
            self.stored.load(Ordering::SeqCst),
            self.marked.load(Ordering::SeqCst),
            self.harvested.load(Ordering::SeqCst),
        ]
    }

    /// Waits until a point is reached.
    fn wait_for(&self, count: &AtomicU64) {
        for _ in 0..TURNS {
            if count.load(Ordering::SeqCst) > 0 {
                return;
            }
            thread::yield_now();
        }
        add_one(&self.late);
    }
}

fn add_one(count: &AtomicU64) {
    count.fetch_add(1, Ordering::SeqCst);
}

impl Gate for Meeting {
    fn at(&self, point: Point) {
        match point {
            Point::Stored { .. } => {
                add_one(&self.stored);
                self.wait_for(&self.harvested);
            }
            Point::Marked { .. } => add_one(&self.marked),
            Point::Harvested { .. } => {
                add_one(&self.harvested);
                self.wait_for(&self.stored);
            }
            _ => {}
        }
    }
}

#[test]
fn replayers_and_copiers_run_at_once(rt: HostRuntime) -> Result<(), Fail> {
    let alloc = rt.alloc();
    for show in [Show::Stop, Show::End] {
        let gate = Meeting::new();
        let output = shown(&rt, alloc, whole(alloc)?, ASKED, show, &gate)?;
        assert!(rt; output.bytes() == MEMORY.as_slice());
        assert!(rt; gate.counts() == [0, 5, 5, 3]);
    }
    Ok(())
}
