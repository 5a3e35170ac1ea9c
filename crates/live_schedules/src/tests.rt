//! Worked examples: a guest of 4 pages of 16 bytes that writes pages 0 and 1 at ticks 0 and 5, page 1 at tick 1200,
//! and pages 3 and 1 at tick 2500.

ghost use Rattle.std.specs.Prelude.{◌≤◌};
ghost use Rattle.image_build.specs.Joins.{memory_by};
ghost use Rattle.live_engine.specs.Runs.{IsStoppedAt};

use crate::gates::{Counts, MarkedEarly, MarkedInTurn, MarkedLate, Meeting};
use image_build::{replay, replay_before};
use live_engine::{Gate, Live, OpenGate, StoppedGuest, live_run, migrate};
use rate_limit::{Asked, Settings};
use std::alloc::Global;
use std::process::Abort;
use std::sync::Wait;
use std::sync::atomic::{AtomicU64, Ordering};
use std::thread::Threads;
use trace_codec::{Trace, Write, decode};
use worked_guest::{ASKED, MEMORY, MEMORY_AT_2000, TRACE};

/// Returns the worked guest.
fn guest(rt: &impl Abort, alloc: Global) -> Trace {
    decode(alloc, &TRACE).expect(rt, "a trace")
}

pub(crate) fn run(
    rt: &(impl Abort + Threads + Wait + Sync),
    alloc: Global,
    asked: Asked,
    gate: &impl Gate,
) -> Live {
    let trace = guest(rt, alloc);
    let settings = Settings::new(asked).expect(rt, "settings");
    live_run(rt, alloc, &trace, &settings, gate).expect(rt, "a live run")
}

/// Returns whether the run made these memories: when the guest stopped, and after all writes.
pub(crate) fn has_images(live: &Live, at_stop: &[u8], at_end: &[u8]) -> bool {
    live.at_stop.bytes() == at_stop && live.at_end.bytes() == at_end
}

/// Returns what a round sent, with the stamps.
pub(crate) fn sent(live: &Live, number: usize) -> Option<&[(u32, u32)]> {
    Some(live.rounds.get(number)?.sent.as_slice())
}

/// Returns the first page that a round sent, and its stamp.
pub(crate) fn first_sent(live: &Live, number: usize) -> Option<(u32, u32)> {
    sent(live, number)?.first().copied()
}

/// Returns whether a round sent these pages, in order, with whatever stamps.
fn has_sent_pages(live: &Live, number: usize, pages: &[u32]) -> bool {
    let Some(sent) = sent(live, number) else {
        return false;
    };
    if sent.len() != pages.len() {
        return false;
    }
    for i in 0..pages.len() {
        if sent[i].0 != pages[i] {
            return false;
        }
    }
    true
}

pub(crate) fn times(count: &AtomicU64) -> u64 {
    count.load(Ordering::SeqCst)
}

#[test]
fn a_live_run_ends_where_the_plan_does(rt: HostRuntime) {
    let live = run(&rt, rt.alloc(), ASKED, &OpenGate);
    let is_right = has_images(&live, &MEMORY, &MEMORY);
    assert!(rt; (live.stop, live.rounds.len(), is_right) == (3667, 3, true));
}

#[test]
fn many_threads_and_streams_make_the_same_memory(rt: HostRuntime) {
    let many = Asked {
        max: 2,
        workers: 3,
        streams: 2,
        replayers: 4,
        ..ASKED
    };
    let live = run(&rt, rt.alloc(), many, &OpenGate);
    assert!(rt; (live.stop, has_images(&live, &MEMORY, &MEMORY)) == (3000, true));
}

#[test]
fn the_guest_resumes_from_where_it_stopped(rt: HostRuntime) {
    let early = Asked {
        max: 2,
        rounds: 1,
        ..ASKED
    };
    let live = run(&rt, rt.alloc(), early, &OpenGate);
    assert!(rt; (live.stop, has_images(&live, &MEMORY_AT_2000, &MEMORY)) == (2000, true));
}

/// Returns the memory after all writes of the trace, page by page; none if the guest is a different one.
fn resumed(alloc: Global, stopped: &StoppedGuest, trace: &Trace) -> Option<Vec<u8>>
    requires { IsStoppedAt trace.now stopped.now.versions.items stopped.now.index (memory_by stopped.now.memory) }
{
    let mut memory = Vec::new(alloc);
    let mut room = Vec::from_elem(alloc, 7u8, trace.shape().page_size()).ok()?;
    for page in 0..trace.pages {
        if room.len() != trace.shape().page_size() {
            return None;
        }
        stopped.resumed_page(trace, page, &mut room);
        memory.extend_from_slice(&room).ok()?;
    }
    Some(memory)
}

#[test]
fn the_guest_resumes_in_the_memory_in_which_it_stopped(rt: HostRuntime) {
    let alloc = rt.alloc();
    let trace = guest(&rt, alloc);
    let settings = Settings::new(Asked {
        max: 2,
        rounds: 1,
        ..ASKED
    })
    .expect(&rt, "settings");
    let stopped = migrate(&rt, alloc, &trace, &settings, &OpenGate).expect(&rt, "a migration");
    let at_stop = stopped.memory.image(alloc).expect(&rt, "an image");
    let at_end = resumed(alloc, &stopped, &trace).expect(&rt, "the pages of the guest");
    let is_right = at_stop.bytes() == MEMORY_AT_2000.as_slice()
        && at_end.as_slice() == MEMORY.as_slice();
    assert!(rt; (stopped.stop, is_right) == (2000, true));
}

/// Returns a trace of 65 pages of 16 bytes, which writes byte 7 to its last page.
fn guest_of_65_pages(rt: &impl Abort, alloc: Global) -> Trace {
    let mut writes = Vec::new(alloc);
    writes
        .push(Write {
            tick: 10,
            page: 64,
            offset: 0,
            bytes: Vec::from_slice(alloc, &[7]).expect(rt, "memory"),
        })
        .expect(rt, "memory");
    Trace::new(1, 4, 65, writes).expect(rt, "a trace")
}

#[test]
fn a_last_word_of_one_page_is_copied(rt: HostRuntime) {
    let alloc = rt.alloc();
    let trace = guest_of_65_pages(&rt, alloc);
    let settings = Settings::new(Asked {
        min: 10,
        max: 10,
        rounds: 1,
        workers: 2,
        ..ASKED
    })
    .expect(&rt, "settings");
    let live = live_run(&rt, alloc, &trace, &settings, &OpenGate).expect(&rt, "a live run");
    let image = replay(alloc, &trace).expect(&rt, "an image");
    let is_right = has_images(&live, image.bytes(), image.bytes());
    // The first byte of page 64.
    let last = image.bytes().get(1024).copied();
    assert!(rt; (live.stop, last, is_right) == (6500, Some(7), true));
}

/// Returns how many pages all rounds sent.
fn total_sent(live: &Live) -> u64 {
    let mut total = 0u64;
    for round in &live.rounds {
        total = total.saturating_add(round.sent.len() as u64);
    }
    total
}

#[test]
fn replayers_and_copiers_meet(rt: HostRuntime) {
    let gate = Meeting(Counts::new());
    let live = run(&rt, rt.alloc(), ASKED, &gate);
    let Counts {
        late,
        stored,
        marked,
        harvested,
        read,
        ..
    } = &gate.0;
    let steps = [
        times(late),
        times(stored),
        times(marked),
        times(harvested),
        times(read),
    ];
    let firsts = [first_sent(&live, 0), first_sent(&live, 1)];
    let is_whole = has_sent_pages(&live, 0, &[0, 1, 2, 3]);
    assert!(rt; steps == [0, 5, 5, 3, total_sent(&live)]);
    assert!(rt; (firsts, is_whole) == ([Some((0, 1)), Some((0, 1))], true));
    assert!(rt; has_images(&live, &MEMORY, &MEMORY));
}

/// Returns whether the first round sent these pages, the second began with page 0, and both memories are right.
fn has_rounds(live: &Live, first: &[(u32, u32)]) -> bool {
    sent(live, 0) == Some(first)
        && first_sent(live, 1) == Some((0, 1))
        && has_images(live, &MEMORY, &MEMORY)
}

#[test]
fn a_store_is_read_before_its_mark(rt: HostRuntime) {
    let gate = MarkedLate(Counts::new());
    let live = run(&rt, rt.alloc(), ASKED, &gate);
    let is_right = has_rounds(&live, &[(0, 1), (1, 0), (2, 0), (3, 0)]);
    assert!(rt; (times(&gate.0.late), is_right) == (0, true));
}

#[test]
fn all_stores_of_a_round_are_read(rt: HostRuntime) {
    let gate = MarkedEarly(Counts::new());
    let live = run(&rt, rt.alloc(), ASKED, &gate);
    let is_right = has_rounds(&live, &[(0, 1), (1, 3), (2, 0), (3, 0)]);
    assert!(rt; (times(&gate.0.late), is_right) == (0, true));
}

/// Returns whether a round sent and skipped these pages, and deferred none.
fn has_round(live: &Live, number: usize, sent: &[(u32, u32)], skipped: &[u32]) -> bool {
    match live.rounds.get(number) {
        Some(round) => {
            round.sent.as_slice() == sent
                && round.skipped.as_slice() == skipped
                && round.deferred.is_empty()
        }
        None => false,
    }
}

#[test]
fn a_page_that_is_marked_again_is_skipped(rt: HostRuntime) {
    let gate = MarkedInTurn(Counts::new());
    let skipping = Asked {
        skip: true,
        ..ASKED
    };
    let live = run(&rt, rt.alloc(), skipping, &gate);
    let rounds = [
        has_round(&live, 0, &[(0, 1), (1, 3), (2, 0), (3, 0)], &[]),
        has_round(&live, 1, &[(0, 1)], &[1]),
        has_round(&live, 2, &[(1, 5), (3, 4)], &[]),
    ];
    let is_right = has_images(&live, &MEMORY, &MEMORY);
    assert!(rt; (rounds, live.rounds.len(), is_right) == ([true; 3], 3, true));
    assert!(rt; times(&gate.0.late) == 0);
}

/// Returns a trace of this many pages of 64 bytes, with 3,000 writes that go round them in strides.
fn busy_guest(rt: &impl Abort, alloc: Global, pages: u32) -> Trace
    requires { 1 ≤ pages }
{
    let mut writes = Vec::new(alloc);
    for number in 0..3000u32 {
        let page = number % 1000 * 7919 % pages;
        let offset = (number % 60) as u16;
        writes
            .push(Write {
                tick: u64::from(number) * 3,
                page,
                offset,
                bytes: Vec::from_slice(
                    alloc,
                    &[(number % 256) as u8, (number / 256 % 256) as u8, 1],
                )
                .expect(rt, "memory"),
            })
            .expect(rt, "memory");
    }
    Trace::new(1, 6, pages, writes).expect(rt, "a trace")
}

/// Runs over `pages` pages with a team of `team` workers, streams and replayers, and lanes of `lane` frames: both
/// memories come out right.
fn run_busy(
    rt: &(impl Abort + Threads + Wait + Sync),
    alloc: Global,
    pages: u32,
    team: u64,
    lane: u64,
    skip: bool,
) -> Live
    requires { 1 ≤ pages }
{
    let trace = busy_guest(rt, alloc, pages);
    let settings = Settings::new(Asked {
        min: 100,
        max: 100_000,
        increment: 50,
        threshold: 10,
        rounds: 5,
        workers: team,
        streams: team,
        replayers: team,
        lane,
        skip,
        ..ASKED
    })
    .expect(rt, "settings");
    let live = live_run(rt, alloc, &trace, &settings, &OpenGate).expect(rt, "a live run");
    let at_stop = replay_before(alloc, &trace, live.stop).expect(rt, "an image");
    let at_end = replay(alloc, &trace).expect(rt, "an image");
    if !has_images(&live, at_stop.bytes(), at_end.bytes()) {
        panic!(rt; "another memory");
    }
    live
}

/// Runs over this many pages with sixteen workers, streams and replayers.
pub(crate) fn run_sixteen(
    rt: &(impl Abort + Threads + Wait + Sync),
    alloc: Global,
    pages: u32,
    lane: u64,
    skip: bool,
)
    requires { 1 ≤ pages }
{
    run_busy(rt, alloc, pages, 16, lane, skip);
}

#[test]
fn sixteen_of_each_make_the_same_memory(rt: HostRuntime) {
    for skip in [false, true] {
        run_sixteen(&rt, rt.alloc(), 300, 1024, skip);
    }
}

#[test]
fn pages_written_often_make_the_same_memory(rt: HostRuntime) {
    for skip in [false, true] {
        run_sixteen(&rt, rt.alloc(), 12, 1024, skip);
    }
}

/// Each round sends more pages than a copier's cache keeps, so pages leave it and are made anew.
#[test]
fn pages_that_went_from_a_cache_are_made_anew(rt: HostRuntime) {
    for skip in [false, true] {
        let live = run_busy(&rt, rt.alloc(), 150, 1, 1024, skip);
        let mut full = 0u32;
        for round in &live.rounds {
            full = full.saturating_add(u32::from(round.sent.len() > 64));
        }
        assert!(rt; full >= 2);
    }
}

/// Returns a trace of 600 pages of 4,096 bytes, which writes each of them once.
fn wide_guest(rt: &impl Abort, alloc: Global) -> Trace {
    let mut writes = Vec::new(alloc);
    for page in 0..600u32 {
        writes
            .push(Write {
                tick: 0,
                page,
                offset: 4000,
                bytes: Vec::from_slice(alloc, &[1, (page % 251) as u8]).expect(rt, "memory"),
            })
            .expect(rt, "memory");
    }
    Trace::new(1, 12, 600, writes).expect(rt, "a trace")
}

#[test]
fn three_streams_of_many_pages_make_the_same_memory(rt: HostRuntime) {
    let alloc = rt.alloc();
    let trace = wide_guest(&rt, alloc);
    let settings = Settings::new(Asked {
        streams: 3,
        ..ASKED
    })
    .expect(&rt, "settings");
    let live = live_run(&rt, alloc, &trace, &settings, &OpenGate).expect(&rt, "a live run");
    let image = replay(alloc, &trace).expect(&rt, "an image");
    assert!(rt; has_images(&live, image.bytes(), image.bytes()));
}
