//! Worked lanes, on one thread and on two.

ghost use Rattle.std.specs.Prelude.{◌≡◌, IfSome, Some, slice_get};
ghost use Rattle.stream_lanes.specs.Ends.{IsLane, SameIn, SameOut};

use std::alloc::Global;
use std::process::Abort;
use std::snapshot::Snapshot;
use std::thread;
use std::thread::{Promise, PromisedHandle, Threads};
use stream_lanes::{LaneIn, LaneOut, Lanes, by_stream, drain, lanes};

/// More turns than any thread of these tests needs.
const TURNS: u32 = 50_000_000;

/// The number of frames that go from thread to thread.
const FRAMES: u16 = 1_000;

/// Returns the first item.
fn first_of<T: Drop>(items: Vec<T>) -> Option<T>
    ensures { IfSome result (λ item. slice_get items.items 0 ≡ Some item) }
{
    items.into_iter().next()
}

/// Returns a lane with room for `capacity` frames.
fn one_lane(rt: &impl Abort, alloc: Global, capacity: usize) -> (LaneOut, LaneIn)
    ensures { IsLane result.0 result.1 }
{
    let Lanes { outs, ins } = lanes(alloc, 1, 1, capacity).expect(rt, "lanes");
    let outs = first_of(outs).expect(rt, "a worker");
    let ins = first_of(ins).expect(rt, "a stream");
    let out = first_of(outs).expect(rt, "an end that sends");
    let end = first_of(ins).expect(rt, "an end that takes");
    (out, end)
}

/// Sends one byte, if there is room. Returns false if there is none, or if memory runs out.
fn send_byte(alloc: Global, out: &mut LaneOut, byte: u8) -> bool
    ensures { SameOut out.old out.new }
{
    if !out.has_room() {
        return false;
    }
    let Ok(frame) = vec![in alloc; byte] else {
        return false;
    };
    out.send(frame);
    true
}

/// Gives a buffer back, if there is one.
fn give_back(end: &mut LaneIn, buffer: Option<Vec<u8>>) -> bool {
    let Some(buffer) = buffer else {
        return false;
    };
    end.give_back(buffer);
    true
}

/// Returns the first byte of a frame, or 0 if there is none.
fn first_byte(frame: Option<Vec<u8>>) -> u8 {
    match frame {
        Some(frame) => frame.first().copied().unwrap_or(0),
        None => 0,
    }
}

#[test]
fn a_lane_of_two(rt: HostRuntime) {
    let (mut out, mut end) = one_lane(&rt, rt.alloc(), 2);
    let steps = [
        send_byte(rt.alloc(), &mut out, 0x61),
        send_byte(rt.alloc(), &mut out, 0x62),
        !out.has_room(),
    ];
    let first = first_byte(end.take());
    let mut rest = drain(out, end);
    let second = first_byte(rest.take());
    assert!(rt; (steps, first, second, rest.take().is_none()) == ([true; 3], 0x61, 0x62, true));
}

#[test]
fn room_comes_back_as_frames_are_taken(rt: HostRuntime) {
    let (mut out, mut end) = one_lane(&rt, rt.alloc(), 2);
    for byte in 1..=10u8 {
        let other = byte + 100;
        let steps = [
            send_byte(rt.alloc(), &mut out, byte),
            send_byte(rt.alloc(), &mut out, other),
            !out.has_room(),
        ];
        let taken = [first_byte(end.take()), first_byte(end.take())];
        assert!(rt; (steps, taken, end.take().is_none()) == ([true; 3], [byte, other], true));
    }
}

#[test]
fn texts_go_back_in_order(rt: HostRuntime) {
    let (mut out, mut end) = one_lane(&rt, rt.alloc(), 2);
    let sent = [
        out.spare().is_none(),
        send_byte(rt.alloc(), &mut out, 0x61),
        send_byte(rt.alloc(), &mut out, 0x62),
    ];
    let first = end.take();
    let given = [
        give_back(&mut end, first),
        end.take().is_some(),
        give_back(&mut end, vec![in rt.alloc(); 0x63].ok()),
    ];
    let spares = [first_byte(out.spare()), first_byte(out.spare())];
    assert!(rt;
        (sent, given, spares, out.spare().is_none()) == ([true; 3], [true; 3], [0x61, 0x63], true)
    );
}

#[test]
fn no_more_than_1024_texts_wait(rt: HostRuntime) {
    let (mut out, mut end) = one_lane(&rt, rt.alloc(), 2_000);
    let first = send_byte(rt.alloc(), &mut out, 0x61);
    for _ in 0..1_030 {
        end.give_back(Vec::new(rt.alloc()));
    }
    let second = send_byte(rt.alloc(), &mut out, 0x62);
    let mut all = true;
    for _ in 0..1_024 {
        all &= out.spare().is_some();
    }
    let steps = [first, second, all, out.spare().is_none()];
    let taken = [first_byte(end.take()), first_byte(end.take())];
    assert!(rt; (steps, taken, end.take().is_none()) == ([true; 4], [0x61, 0x62], true));
}

/// Sends 1, 2, 3 and so on, one to each lane, worker by worker.
fn send_each(rt: &impl Abort, alloc: Global, outs: Vec<Vec<LaneOut>>) {
    let mut byte = 0u8;
    for row in outs {
        for mut out in row {
            byte = byte.wrapping_add(1);
            if !send_byte(alloc, &mut out, byte) {
                panic!(rt; "no room");
            }
        }
    }
}

/// Returns the first byte of each lane, stream by stream.
fn take_each(rt: &impl Abort, alloc: Global, ins: Vec<Vec<LaneIn>>) -> Vec<u8> {
    let mut bytes = Vec::new(alloc);
    for row in ins {
        for mut end in row {
            bytes.push(first_byte(end.take())).expect(rt, "memory");
        }
    }
    bytes
}

#[test]
fn lanes_cross(rt: HostRuntime) {
    let Lanes { outs, ins } = lanes(rt.alloc(), 2, 3, 4).expect(&rt, "lanes");
    send_each(&rt, rt.alloc(), outs);
    let bytes = take_each(&rt, rt.alloc(), ins);
    assert!(rt; bytes.as_slice() == [1, 4, 2, 5, 3, 6].as_slice());
}

#[test]
fn columns_are_of_the_same_lanes(rt: HostRuntime) {
    let Lanes { outs, ins } = lanes(rt.alloc(), 2, 3, 4).expect(&rt, "lanes");
    send_each(
        &rt,
        rt.alloc(),
        by_stream(rt.alloc(), 3, outs).expect(&rt, "lanes"),
    );
    let bytes = take_each(&rt, rt.alloc(), ins);
    assert!(rt; bytes.as_slice() == [1, 2, 3, 4, 5, 6].as_slice());
}

/// The thread returns the end that it was given.
#[derive(Drop)]
struct Sends {
    out: Snapshot<LaneOut>,
}

impl Promise<LaneOut> for Sends {
    ghost kept_by = { λ p out. SameOut p.out.value out };
}

/// Sends the numbers below `FRAMES`, as room allows. Returns the end.
fn send_numbers(alloc: Global, mut out: LaneOut) -> LaneOut
    ensures { SameOut out result }
{
    let mut next = 0u16;
    for _ in 0..TURNS {
        if next >= FRAMES {
            break;
        }
        if !out.has_room() {
            thread::yield_now();
            continue;
        }
        let Ok(frame) = next.to_le_bytes().to_vec(alloc) else {
            break;
        };
        out.send(frame);
        next += 1;
    }
    out
}

fn start_sending(
    rt: &(impl Abort + Threads),
    alloc: Global,
    out: LaneOut,
) -> PromisedHandle<LaneOut, Sends>
    ensures { result.promise.out.value ≡ out }
{
    let promise = Sends {
        out: Snapshot::of(&out),
    };
    let sending = move || -> LaneOut
        ensures { SameOut out result }
    { send_numbers(alloc, out) };
    let Ok(handle) = thread::spawn_with(rt, promise, sending) else {
        panic!(rt; "no thread");
    };
    handle
}

/// The end after its thread, and how many numbers came in order.
#[derive(Drop)]
struct Taken {
    end: LaneIn,
    count: u16,
}

/// The thread returns the end that it was given.
#[derive(Drop)]
struct Takes {
    end: Snapshot<LaneIn>,
}

impl Promise<Taken> for Takes {
    ghost kept_by = { λ p taken. SameIn p.end.value taken.end };
}

/// Takes frames while they are the numbers in order, and leaves the last 10.
fn take_numbers(mut end: LaneIn) -> Taken
    ensures { SameIn end result.end }
{
    let mut count = 0u16;
    for _ in 0..TURNS {
        if count >= FRAMES - 10 {
            break;
        }
        let Some(frame) = end.take() else {
            thread::yield_now();
            continue;
        };
        if frame.as_slice() != count.to_le_bytes().as_slice() {
            break;
        }
        count += 1;
    }
    Taken { end, count }
}

fn start_taking(rt: &(impl Abort + Threads), end: LaneIn) -> PromisedHandle<Taken, Takes>
    ensures { result.promise.end.value ≡ end }
{
    let promise = Takes {
        end: Snapshot::of(&end),
    };
    let taking = move || -> Taken
        ensures { SameIn end result.end }
    { take_numbers(end) };
    let Ok(handle) = thread::spawn_with(rt, promise, taking) else {
        panic!(rt; "no thread");
    };
    handle
}

/// Returns whether there is a frame, and it is this number.
fn is_number(frame: Option<Vec<u8>>, number: u16) -> bool {
    match frame {
        Some(frame) => frame.as_slice() == number.to_le_bytes().as_slice(),
        None => false,
    }
}

#[test]
fn one_thread_sends_and_one_takes(rt: HostRuntime) {
    let (out, end) = one_lane(&rt, rt.alloc(), 16);
    let taking = start_taking(&rt, end);
    let sending = start_sending(&rt, rt.alloc(), out);
    let out = sending.join(&rt);
    let Taken { end, count } = taking.join(&rt);
    let mut rest = drain(out, end);
    let mut in_order = true;
    for number in FRAMES - 10..FRAMES {
        in_order &= is_number(rest.take(), number);
    }
    assert!(rt; (count, in_order, rest.take().is_none()) == (FRAMES - 10, true, true));
}
