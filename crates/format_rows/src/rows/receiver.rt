//! Worked examples: a stream from two workers, of a guest of 4 pages of 16 bytes, with 5 writes.

ghost use Rattle.std.specs.Prelude.{◌≡◌, ◌≤◌, ◌<◌, IfSome, Some, map, slice_get};
ghost use Rattle.stream_receivers.specs.Receivers.{AreEnds, AreNewEnds};

use super::fixtures::shape;
use collector::Part;
use page_message::{Body, FrameError, append_frame};
use std::alloc::Global;
use std::process::Abort;
use stream_lanes::{LaneIn, LaneOut, Lanes, by_stream, lanes};
use stream_receivers::{Receiver, ReceiverError};

/// Returns the first item.
fn first_of<T: Drop>(items: Vec<T>) -> Option<T>
    ensures { IfSome result (λ item. slice_get items.items 0 ≡ Some item) }
{
    items.into_iter().next()
}

/// Returns the ends of new lanes, each with room for 4 frames.
fn new_ends(rt: &impl Abort, alloc: Global) -> (Vec<LaneOut>, Vec<LaneIn>)
    ensures { AreNewEnds result.0.items result.1.items }
{
    let Lanes { outs, ins } = lanes(alloc, 2, 1, 4).expect(rt, "lanes");
    let columns = by_stream(alloc, 1, outs).expect(rt, "lanes");
    match (first_of(columns), first_of(ins)) {
        (Some(column), Some(row)) => (column, row),
        _ => panic!(rt; "no stream"),
    }
}

/// A stream: the sending ends, and what takes from their other ends.
#[derive(Drop)]
struct Stream {
    outs: Vec<LaneOut>,
    receiver: Receiver,
    ghost are_ends: { AreEnds outs.items receiver.ends },
}

fn new_stream(rt: &impl Abort, alloc: Global) -> Stream {
    let (outs, ends) = new_ends(rt, alloc);
    let receiver = Receiver::new(alloc, shape(), ends);
    Stream { outs, receiver }
}

/// Sends some bytes on one of the lanes. Returns false if there is no such lane, or no room.
fn send(outs: &mut Vec<LaneOut>, worker: usize, buffer: Vec<u8>) -> bool
    ensures { map (λ out. out.lane) outs.new.items ≡ map (λ out. out.lane) outs.old.items }
{
    if worker >= outs.len() {
        return false;
    }
    if !outs[worker].has_room() {
        return false;
    }
    outs[worker].send(buffer);
    true
}

impl Stream {
    ghost use Rattle.std.specs.Prelude.{◌<◌, ◌≤◌};

    fn send(&mut self, worker: usize, buffer: Vec<u8>) -> bool {
        send(&mut self.outs, worker, buffer)
    }

    /// Sends a copy of some bytes. Also returns false if memory runs out for the copy.
    fn send_bytes(&mut self, alloc: Global, worker: usize, bytes: &[u8]) -> bool {
        match Vec::from_slice(alloc, bytes) {
            Ok(buffer) => self.send(worker, buffer),
            Err(_) => false,
        }
    }

    /// Sends the encoding of a page filled with this byte.
    fn send_page(&mut self, alloc: Global, worker: usize, page: u32, stamp: u32, byte: u8) -> bool
        requires page { page < 4 }
        requires stamp { stamp ≤ 5 }
    {
        match encoded(alloc, page, stamp, byte) {
            Ok(buffer) => self.send(worker, buffer),
            Err(_) => false,
        }
    }

    fn take(&mut self, worker: usize) -> bool {
        worker < self.receiver.lanes() && self.receiver.take(worker)
    }

    fn finish(self) -> Result<Part, ReceiverError> {
        let Stream { outs, receiver } = self;
        receiver.finish(outs)
    }
}

/// Returns the encoding of a page filled with this byte.
fn encoded(alloc: Global, page: u32, stamp: u32, byte: u8) -> Result<Vec<u8>, FrameError>
    requires page { page < 4 }
    requires stamp { stamp ≤ 5 }
{
    let mut buffer = Vec::new(alloc);
    append_frame(&mut buffer, &shape(), page, stamp, &[byte; 16])?;
    Ok(buffer)
}

/// Returns whether the part has the page, filled with this byte.
fn is_filled(part: &Part, page: u32, byte: u8) -> bool {
    match part.frame(page).map(|frame| &frame.body) {
        Some(Body::Zero) => byte == 0,
        Some(Body::Data(bytes)) => bytes.as_slice() == [byte; 16].as_slice(),
        None => false,
    }
}

#[test]
fn frames_of_two_workers_come_in_any_order(rt: HostRuntime) {
    let mut stream = new_stream(&rt, rt.alloc());
    let steps = [
        stream.send_page(rt.alloc(), 0, 1, 5, 7),
        stream.send_page(rt.alloc(), 1, 1, 2, 8),
        stream.send_page(rt.alloc(), 1, 2, 0, 0),
        stream.take(0),
        stream.take(1),
        !stream.take(0),
        stream.send_page(rt.alloc(), 0, 3, 4, 9),
    ];
    let part = stream.finish().expect(&rt, "a part");
    let stamps = [part.stamp(0), part.stamp(1), part.stamp(2), part.stamp(3)];
    let filled = [
        is_filled(&part, 1, 7),
        is_filled(&part, 2, 0),
        is_filled(&part, 3, 9),
    ];
    assert!(rt;
        (steps, stamps, filled) == ([true; 7], [None, Some(5), Some(0), Some(4)], [true; 3])
    );
}

#[test]
fn nothing_comes_where_nothing_is_sent(rt: HostRuntime) {
    let mut stream = new_stream(&rt, rt.alloc());
    let lanes = stream.receiver.lanes();
    let taken = [stream.take(0), stream.take(1)];
    let part = stream.finish().expect(&rt, "a part");
    let missing = [
        part.frame(0).is_none(),
        part.frame(1).is_none(),
        part.frame(2).is_none(),
        part.frame(3).is_none(),
    ];
    assert!(rt; (lanes, taken, part.shape(), missing) == (2, [false; 2], shape(), [true; 4]));
}

#[test]
fn a_refusal_is_kept_and_frames_are_taken_behind_it(rt: HostRuntime) {
    let mut stream = new_stream(&rt, rt.alloc());
    let steps = [
        stream.send_bytes(rt.alloc(), 0, &[0]),
        stream.send_page(rt.alloc(), 0, 1, 5, 7),
        stream.take(0),
        stream.take(0),
    ];
    let refusal = stream.finish().err();
    assert!(rt; (steps, refusal) == ([true; 4], Some(ReceiverError::Frame)));
}

#[test]
fn what_is_left_may_be_refused(rt: HostRuntime) {
    let mut stream = new_stream(&rt, rt.alloc());
    let steps = [
        stream.send_page(rt.alloc(), 0, 1, 5, 7),
        stream.send_bytes(rt.alloc(), 1, &[0]),
        stream.take(0),
    ];
    let refusal = stream.finish().err();
    assert!(rt; (steps, refusal) == ([true; 3], Some(ReceiverError::Frame)));
}

/// Returns the encodings of pages 1 and 2 as one run of bytes.
fn two_pages(rt: &impl Abort, alloc: Global) -> Vec<u8> {
    let mut two = encoded(alloc, 1, 5, 7).expect(rt, "memory");
    two.extend_from_slice(&encoded(alloc, 2, 5, 7).expect(rt, "memory"))
        .expect(rt, "memory");
    two
}

#[test]
fn a_text_is_of_one_frame(rt: HostRuntime) {
    let two = two_pages(&rt, rt.alloc());
    for bytes in [&[][..], two.as_slice()] {
        let mut stream = new_stream(&rt, rt.alloc());
        let sent = stream.send_bytes(rt.alloc(), 0, bytes);
        let refusal = stream.finish().err();
        assert!(rt; (sent, refusal) == (true, Some(ReceiverError::Frame)));
    }
}

/// Returns an end of a lane, and a receiver that takes from the other.
fn one_out(rt: &impl Abort, alloc: Global) -> (LaneOut, Receiver) {
    let (outs, ends) = new_ends(rt, alloc);
    let out = first_of(outs).expect(rt, "an end that sends");
    (out, Receiver::new(alloc, shape(), ends))
}

/// Sends some bytes and takes them. Returns whether the buffer that came back has room for them, if one did.
fn pass_buffer(
    out: &mut LaneOut,
    receiver: &mut Receiver,
    buffer: Vec<u8>,
) -> Result<Option<bool>, &'static str> {
    if receiver.lanes() == 0 || !out.has_room() {
        return Err("no room");
    }
    let size = buffer.len();
    out.send(buffer);
    if !receiver.take(0) {
        return Err("nothing came");
    }
    Ok(out.spare().map(|back| back.capacity() >= size))
}

/// Sends the encoding of page 1 and takes it. Returns whether the buffer that came back has room for it, if one did.
fn pass(
    alloc: Global,
    out: &mut LaneOut,
    receiver: &mut Receiver,
    stamp: u32,
    byte: u8,
) -> Result<Option<bool>, &'static str>
    requires { stamp ≤ 5 }
{
    match encoded(alloc, 1, stamp, byte) {
        Ok(buffer) => pass_buffer(out, receiver, buffer),
        Err(_) => Err("no memory"),
    }
}

#[test]
fn a_page_keeps_its_first_buffer_and_others_go_back(rt: HostRuntime) {
    let (mut out, mut receiver) = one_out(&rt, rt.alloc());
    let rooms = [
        pass(rt.alloc(), &mut out, &mut receiver, 1, 0),
        pass(rt.alloc(), &mut out, &mut receiver, 2, 7),
        pass(rt.alloc(), &mut out, &mut receiver, 4, 8),
        pass(rt.alloc(), &mut out, &mut receiver, 3, 9),
        pass(rt.alloc(), &mut out, &mut receiver, 5, 0),
    ];
    assert!(rt;
        rooms
            == [
                Ok(Some(true)),
                Ok(None),
                Ok(Some(true)),
                Ok(Some(true)),
                Ok(Some(true))
            ]
    );
}

#[test]
fn texts_go_back_after_a_refusal(rt: HostRuntime) {
    let (mut out, mut receiver) = one_out(&rt, rt.alloc());
    let first = pass(rt.alloc(), &mut out, &mut receiver, 2, 7);
    let empty = pass_buffer(&mut out, &mut receiver, Vec::new(rt.alloc()));
    let refused = receiver.is_refused();
    let last = pass(rt.alloc(), &mut out, &mut receiver, 4, 8);
    assert!(rt; ([first, empty, last], refused) == ([Ok(None), Ok(None), Ok(Some(true))], true));
}
