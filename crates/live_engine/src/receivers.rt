//! The receivers, one for each stream: their threads, and the parts they leave.

ghost use Rattle.std.specs.Prelude.{◌≡◌, ℕ, IfErr, IfOk, OnOk, Some, Vec, length, map, slice_get};
ghost use Rattle.std.specs.Global.{Global};
ghost use Rattle.std.specs.List.{All};
ghost use Rattle.live_engine.specs.Joining.{IsSentBy, lanes_of};
ghost use Rattle.live_engine.specs.Lists.{rows_of};
ghost use Rattle.live_engine.specs.Receiving.{AreCrossed, HaveArrived, identity_of, lanes_in};
ghost use Rattle.migration_model.specs.Frames.{GuestShape};
ghost use Rattle.migration_model.specs.Parts.{GuestPart};
ghost use Rattle.stream_lanes.specs.Ends.{IsSentOn, OutView};
ghost use Rattle.stream_receivers.specs.Receivers.{AreEnds, AreFrames, HasFrames, ReceiverView};

use crate::error::LiveError;
use collector::Part;
use live_tasks::{CopierState, Gate, Point};
use std::alloc::Global;
use std::collections::VecDeque;
use std::hint::spin_loop;
use std::snapshot::Snapshot;
use std::sync::Wait;
use std::sync::atomic::{AtomicBool, Ordering};
use std::thread::{Parker, Promise, PromisedHandle, Scope};
use std::time::Duration;
use stream_lanes::{LaneOut, by_stream};
use stream_receivers::Receiver;

/// How many frames a lane holds at least if its receiver sleeps as soon as nothing is left to take. A shorter lane
/// could be full before the receiver wakes.
const LONG_LANE: usize = 1_024;

/// How often the receiver of shorter lanes looks again before it sleeps.
const LOOKS: u32 = 8;

/// How long it waits before each of these looks: a few microseconds in all. Each look takes the lane's memory away from
/// the sender, so it is cheaper for both to take several frames at a time.
const TURNS: u32 = 64;

/// How many microseconds a receiver then sleeps before each look. Awake it would take a processor from the others,
/// since a page takes a copier longer than its receiver.
const SLEEP: u64 = 20;

/// Flags between a run and its receivers, and how often these look. No claim rests on them.
#[derive(Drop)]
pub(crate) struct Signals {
    /// All rounds have ended, or one was refused.
    pub(crate) ended: AtomicBool,
    /// A receiver did not take a frame.
    pub(crate) refused: AtomicBool,
    /// How often a receiver with nothing to take looks again before it sleeps.
    looks: u32,
}

impl Signals {
    /// Returns the flags of a run whose lanes hold this many frames, none of them set.
    pub(crate) fn new(lane: usize) -> Signals {
        let looks = if lane < LONG_LANE { LOOKS } else { 0 };
        Signals {
            ended: AtomicBool::new(false),
            refused: AtomicBool::new(false),
            looks,
        }
    }
}

/// A receiver's thread owes the receiver, with the lanes it had and a part of the same guest.
#[derive(Drop)]
pub(crate) struct Receives {
    receiver: Snapshot<Receiver>,
}

impl Promise<Receiver> for Receives {
    ghost kept_by = { λ p receiver. identity_of receiver ≡ identity_of p.receiver.value };
}

/// Looks at each lane of a stream once, and returns whether a frame came. Once a frame is refused it looks no further.
fn look<G: Gate>(gate: &G, stream: usize, receiver: &mut Receiver) -> bool
    ensures { identity_of receiver.new ≡ identity_of receiver.old }
{
    let mut came = false;
    for worker in 0..receiver.lanes() {
        if receiver.is_refused() {
            break;
        }
        gate.at(Point::Taking { stream });
        if receiver.take(worker) {
            gate.at(Point::Taken { stream });
            came = true;
        }
    }
    came
}

/// Waits before the next look, after so many in which nothing came: it sleeps once these are the most.
fn pause<R: Wait>(rt: &R, looks: u32, most: u32) {
    if looks < most {
        for _ in 0..TURNS {
            spin_loop();
        }
    } else {
        Parker::new().park_timeout(rt, Duration::from_micros(SLEEP));
    }
}

/// Takes what comes on the lanes of a stream, until the run has ended and nothing is left, or until a frame is refused.
fn receive<R: Wait, G: Gate>(
    rt: &R,
    gate: &G,
    stream: usize,
    signals: &Signals,
    mut receiver: Receiver,
) -> Receiver
    ensures { identity_of result ≡ identity_of receiver }
{
    let mut looks = 0u32;
    for _ in 0..u64::MAX {
        let ended = signals.ended.load(Ordering::SeqCst);
        let came = look(gate, stream, &mut receiver);
        if receiver.is_refused() {
            signals.refused.store(true, Ordering::SeqCst);
            break;
        }
        if came {
            looks = 0;
        } else if ended {
            break;
        } else {
            pause(rt, looks, signals.looks);
            looks = looks.saturating_add(1);
        }
    }
    receiver
}

/// Starts a receiver.
fn start_receiver<'s, E, R: Wait + Sync, G: Gate>(
    rt: &'s R,
    scope: &'s Scope<'s, E>,
    gate: &'s G,
    stream: usize,
    signals: &'s Signals,
    receiver: Receiver,
) -> Result<PromisedHandle<Receiver, Receives>, LiveError>
    ensures refused { IfErr result (λ e. e ≡ LiveError.Thread) }
    ensures promised { IfOk result (λ h. h.promise.receiver.value ≡ receiver) }
{
    let promise = Receives {
        receiver: Snapshot::of(&receiver),
    };
    let run = move || -> Receiver
        ensures { identity_of result ≡ identity_of receiver }
    { receive(rt, gate, stream, signals, receiver) };
    Ok(scope.spawn_with(promise, run)?)
}

/// Starts the receivers, in order of their streams. Without room for its handle a receiver is not started.
pub(crate) fn start_receivers<'s, E, R: Wait + Sync, G: Gate>(
    rt: &'s R,
    scope: &'s Scope<'s, E>,
    gate: &'s G,
    signals: &'s Signals,
    receivers: Vec<Receiver>,
    handles: &mut Vec<PromisedHandle<Receiver, Receives>>,
) -> Result<(), LiveError>
    requires none { length handles.old.items ≡ 0 }
    ensures refused { IfErr result (λ e. e ≡ LiveError.Thread) }
    ensures started { OnOk result (map (λ h. identity_of h.promise.receiver.value) handles.new.items
        ≡ map identity_of receivers.items) }
{
    for receiver in receivers {
        let stream = handles.len();
        handles.reserve(1).or(Err(LiveError::Thread))?;
        let handle = start_receiver(rt, scope, gate, stream, signals, receiver)?;
        handles.push_reserved(handle);
    }
    Ok(())
}

/// Returns the lanes of each copier.
fn take_lanes(
    alloc: Global,
    mut states: VecDeque<CopierState>,
) -> Result<Vec<Vec<LaneOut>>, LiveError>
    ensures rows { IfOk result (λ rows. map (λ row. row.items) rows.items ≡ rows_of states.items) }
    ensures memory { IfErr result (λ e. e ≡ LiveError.Memory) }
{
    let mut rows = Vec::with_capacity(alloc, states.len())?;
    for _ in 0..states.len() {
        let Some(state) = states.pop_front() else {
            unreachable!()
        };
        let CopierState { outs, .. } = state;
        rows.push(outs)?;
    }
    Ok(rows)
}

/// Lets each receiver take what is left on its lanes. Returns their parts.
fn finish_all(
    alloc: Global,
    columns: Vec<Vec<LaneOut>>,
    receivers: Vec<Receiver>,
) -> Result<Vec<Part>, LiveError>
    requires count { length columns.items ≡ length receivers.items }
    requires ends { (stream : ℕ) (outs : Vec OutView Global) (receiver : ReceiverView)
        → slice_get columns.items stream ≡ Some outs → slice_get receivers.items stream ≡ Some receiver
        → AreEnds outs.items receiver.ends }
    ensures count { IfOk result (λ parts. length parts.items ≡ length receivers.items) }
    ensures each { IfOk result (λ parts. (stream : ℕ) (outs : Vec OutView Global)
        (receiver : ReceiverView) (part : GuestPart)
        → slice_get columns.items stream ≡ Some outs → slice_get receivers.items stream ≡ Some receiver
        → slice_get parts.items stream ≡ Some part → AreFrames receiver.part.shape (IsSentOn outs.items)
        → HasFrames receiver.part.shape (IsSentOn outs.items) part) }
    ensures memory { IfErr result (λ e. e ≡ LiveError.Memory) }
{
    let mut columns = columns.into_iter();
    let mut parts = Vec::with_capacity(alloc, receivers.len())?;
    for receiver in receivers {
        let Some(outs) = columns.next() else {
            unreachable!()
        };
        parts.push(receiver.finish(outs)?)?;
    }
    Ok(parts)
}

/// Drains each lane into the part of its stream, when all threads have ended: each part then has what was sent to it.
pub(crate) fn drain_all(
    alloc: Global,
    streams: usize,
    states: VecDeque<CopierState>,
    receivers: Vec<Receiver>,
) -> Result<Vec<Part>, LiveError>
    requires { AreCrossed (length states.items) streams (lanes_of (rows_of states.items))
        (map lanes_in receivers.items) }
    ensures arrived { (shape : GuestShape) → All (λ receiver. receiver.part.shape ≡ shape) receivers.items
        → AreFrames shape (IsSentBy (rows_of states.items))
        → IfOk result (λ parts. HaveArrived shape streams (rows_of states.items) parts.items) }
    ensures memory { IfErr result (λ e. e ≡ LiveError.Memory) }
{
    let rows = take_lanes(alloc, states)?;
    let columns = by_stream(alloc, streams, rows)?;
    let parts = finish_all(alloc, columns, receivers)?;
    Ok(parts)
}
