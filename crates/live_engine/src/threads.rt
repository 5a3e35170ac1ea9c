//! The threads of a round: one for each replayer and one for each copier.

ghost use Rattle.std.specs.Prelude.{Ok, ◌≡◌, IfErr, IfOk, OnOk, [], length, map, slice_index_or};
ghost use Rattle.std.specs.List.{All};
ghost use Rattle.dirty_words.specs.Closing.{first_guests, first_copiers};
ghost use Rattle.dirty_words.specs.Facts.{first_guest, first_copier};
ghost use Rattle.dirty_words.specs.Seats.{copy_table, guest_table};
ghost use Rattle.live_engine.specs.Crews.{CrewHasEnded, IsCrewOf};
ghost use Rattle.live_engine.specs.Lists.{rows_of};
ghost use Rattle.live_engine.specs.Seated.{EachAt, IsReplayed, IsRoundOf, copy_task, replay_task};
ghost use Rattle.live_tasks.specs.Copies.{HasCopied};
ghost use Rattle.live_tasks.specs.CopierStates.{IsCopierState};
ghost use Rattle.live_tasks.specs.Replays.{OpensAt};

use crate::error::LiveError;
use dirty_words::{CopySeat, GuestSeat, RoundTable};
use guest_log::WriteLog;
use live_tasks::{Copier, CopierState, Gate, SeatError, SharedRound, Ticks, replay};
use std::alloc::Global;
use std::collections::VecDeque;
use std::marker::Model;
use std::snapshot::Snapshot;
use std::sync::Wait;
use std::thread;
use std::thread::{Promise, PromisedHandle, Scope, Threads, scope_env};
use stop_copy::join_all;
use stream_lanes::LaneOut;

/// What a replayer's thread owes: its part of the round.
#[derive(Drop)]
struct Replays<'a, W: WriteLog> {
    trace: &'a W,
    table: &'a RoundTable,
    ticks: Ticks,
    number: usize,
}

impl<'a, W: WriteLog> Model for Replays<'a, W> {
    ghost use Rattle.live_engine.specs.Seated.{ReplayTask, replay_task};

    ghost Value = { ReplayTask };

    ghost view = { λ p. replay_task (W.trace p.trace.now) p.table.now p.ticks.from p.ticks.to p.number };
}

impl<'a, W: WriteLog> Promise<GuestSeat> for Replays<'a, W> {
    ghost kept_by = { λ task seat. IsReplayed task.trace task.table task.from task.to task.number seat };
}

/// What a copier's thread owes: its part of the round, or a refusal.
#[derive(Drop)]
struct Copies<'a, W: WriteLog> {
    trace: &'a W,
    skip: bool,
    table: &'a RoundTable,
    streams: usize,
    number: usize,
    outs: Snapshot<Vec<LaneOut>>,
}

impl<'a, W: WriteLog> Model for Copies<'a, W> {
    ghost use Rattle.live_engine.specs.Seated.{CopyTask, copy_task};

    ghost Value = { CopyTask };

    ghost view = { λ p. copy_task (W.trace p.trace.now) p.skip p.table.now p.streams p.number p.outs.value.items };
}

impl<'a, W: WriteLog> Promise<Result<Copier, SeatError>> for Copies<'a, W> {
    ghost kept_by = { λ task result. IfOk result
        (λ copier. HasCopied task.trace task.skip task.table task.number task.streams
        task.outs copier.seat copier.state) };
}

/// Starts a replayer.
fn start_guest<'s, E, W: WriteLog + Sync, G: Gate>(
    scope: &'s Scope<'s, E>,
    round: &SharedRound<'s, W, G>,
    ticks: Ticks,
    seat: GuestSeat,
) -> Result<PromisedHandle<GuestSeat, Replays<'s, W>>, LiveError>
    requires table { guest_table seat ≡ round.now.table.now }
    requires idle { seat.facts ≡ first_guest round.now.table.now.start seat.facts.number }
    requires opening { OpensAt (W.trace round.now.trace.now) ticks.from round.now.table.now.start }
    ensures refused { IfErr result (λ e. e ≡ LiveError.Thread) }
    ensures promised { IfOk result (λ h. h.promise ≡ replay_task (W.trace round.now.trace.now) round.now.table.now
        ticks.from ticks.to seat.facts.number) }
{
    let SharedRound {
        trace,
        table,
        gate,
        ..
    } = *round;
    let promise = Replays {
        trace,
        table,
        ticks,
        number: seat.number(),
    };
    let run = move || -> GuestSeat
        requires table { guest_table seat ≡ table.now }
        requires idle { seat.facts ≡ first_guest table.now.start seat.facts.number }
        requires opening { OpensAt (W.trace trace.now) ticks.from table.now.start }
        ensures { IsReplayed (W.trace trace.entry.now) table.entry.now ticks.from ticks.to seat.facts.number result }
    { replay(trace, ticks, table, gate, seat) };
    Ok(scope.spawn_with(promise, run)?)
}

/// Starts the replayers, in order. Without room for its handle a replayer is not started.
fn start_replayers<'s, E, W: WriteLog + Sync, G: Gate>(
    scope: &'s Scope<'s, E>,
    round: &SharedRound<'s, W, G>,
    ticks: Ticks,
    seats: Vec<GuestSeat>,
    handles: &mut Vec<PromisedHandle<GuestSeat, Replays<'s, W>>>,
) -> Result<(), LiveError>
    requires seats { seats.items ≡ first_guests round.now.table.now }
    requires none { length handles.old.items ≡ 0 }
    requires opening { OpensAt (W.trace round.now.trace.now) ticks.from round.now.table.now.start }
    ensures refused { IfErr result (λ e. e ≡ LiveError.Thread) }
    ensures count { OnOk result (length handles.new.items ≡ length seats.items) }
    ensures started { OnOk result (EachAt (λ h i. h.promise
        ≡ replay_task (W.trace round.now.trace.now) round.now.table.now
        ticks.from ticks.to i) handles.new.items) }
{
    for seat in seats {
        handles.reserve(1).or(Err(LiveError::Thread))?;
        let handle = start_guest(scope, round, ticks, seat)?;
        handles.push_reserved(handle);
    }
    Ok(())
}

/// Starts a copier.
fn start_copier<'s, E, W: WriteLog + Sync, G: Gate>(
    scope: &'s Scope<'s, E>,
    alloc: Global,
    round: &SharedRound<'s, W, G>,
    seat: CopySeat,
    state: CopierState,
) -> Result<PromisedHandle<Result<Copier, SeatError>, Copies<'s, W>>, LiveError>
    requires table { copy_table seat ≡ round.now.table.now }
    requires idle { seat.facts ≡ first_copier round.now.table.now.start seat.facts.number }
    requires state { IsCopierState (W.trace round.now.trace.now) round.now.streams state }
    ensures refused { IfErr result (λ e. e ≡ LiveError.Thread) }
    ensures promised { IfOk result (λ h. h.promise
        ≡ copy_task (W.trace round.now.trace.now) round.now.skip round.now.table.now
        round.now.streams seat.facts.number state.outs) }
{
    let SharedRound {
        trace,
        pages,
        table,
        gate,
        skip,
        streams,
    } = *round;
    let promise = Copies {
        trace,
        skip,
        table,
        streams,
        number: seat.number(),
        outs: Snapshot::of(&state.outs),
    };
    let run = move || -> Result<Copier, SeatError>
        requires of { IsRoundOf (W.trace trace.now) pages.now table.now }
        requires table { copy_table seat ≡ table.now }
        requires idle { seat.facts ≡ first_copier table.now.start seat.facts.number }
        requires state { IsCopierState (W.trace trace.now) streams state }
        ensures { IfOk result (λ copier. HasCopied (W.trace trace.entry.now) skip table.entry.now
            seat.facts.number streams
            state.outs copier.seat copier.state) }
    {
        let round = SharedRound {
            trace,
            pages,
            table,
            gate,
            skip,
            streams,
        };
        round.copy(alloc, seat, state)
    };
    Ok(scope.spawn_with(promise, run)?)
}

/// Starts the copiers, in order, each with its state. Without room for its handle a copier is not started.
fn start_copiers<'s, E, W: WriteLog + Sync, G: Gate>(
    scope: &'s Scope<'s, E>,
    alloc: Global,
    round: &SharedRound<'s, W, G>,
    seats: Vec<CopySeat>,
    mut states: VecDeque<CopierState>,
    handles: &mut Vec<PromisedHandle<Result<Copier, SeatError>, Copies<'s, W>>>,
) -> Result<(), LiveError>
    requires seats { seats.items ≡ first_copiers round.now.table.now }
    requires count { length states.items ≡ length seats.items }
    requires states { All (IsCopierState (W.trace round.now.trace.now) round.now.streams) states.items }
    requires none { length handles.old.items ≡ 0 }
    ensures refused { IfErr result (λ e. e ≡ LiveError.Thread) }
    ensures count { OnOk result (length handles.new.items ≡ length seats.items) }
    ensures started { OnOk result (EachAt (λ h i. h.promise ≡ copy_task (W.trace round.now.trace.now) round.now.skip
        round.now.table.now round.now.streams i (slice_index_or (rows_of states.items) i [])) handles.new.items) }
{
    for seat in seats {
        let Some(state) = states.pop_front() else {
            unreachable!()
        };
        handles.reserve(1).or(Err(LiveError::Thread))?;
        let handle = start_copier(scope, alloc, round, seat, state)?;
        handles.push_reserved(handle);
    }
    Ok(())
}

/// Returns the copiers, if none ran out of memory.
fn unrefused(
    alloc: Global,
    copied: Vec<Result<Copier, SeatError>>,
) -> Result<Vec<Copier>, LiveError>
    ensures count { IfOk result (λ copiers. length copiers.items ≡ length copied.items) }
    ensures same { IfOk result (λ copiers. map Ok copiers.items ≡ copied.items) }
    ensures memory { IfErr result (λ e. e ≡ LiveError.Memory) }
{
    let mut copiers = Vec::with_capacity(alloc, copied.len())?;
    for copier in copied {
        copiers.push(copier?)?;
    }
    Ok(copiers)
}

/// Who takes part in a round: the seats of its replayers and copiers, and each copier's state.
#[derive(Drop)]
pub(crate) struct Crew {
    pub(crate) guests: Vec<GuestSeat>,
    pub(crate) copiers: Vec<CopySeat>,
    pub(crate) states: VecDeque<CopierState>,
}

/// A crew after a round: the seats of its replayers, and its copiers.
#[derive(Drop)]
pub(crate) struct EndedCrew {
    pub(crate) guests: Vec<GuestSeat>,
    pub(crate) copiers: Vec<Copier>,
}

/// Starts a round's replayers and then its copiers.
fn start_crew<'s, E, W: WriteLog + Sync, G: Gate>(
    scope: &'s Scope<'s, E>,
    alloc: Global,
    round: &SharedRound<'s, W, G>,
    ticks: Ticks,
    crew: Crew,
    guests: &mut Vec<PromisedHandle<GuestSeat, Replays<'s, W>>>,
    copiers: &mut Vec<PromisedHandle<Result<Copier, SeatError>, Copies<'s, W>>>,
) -> Result<(), LiveError>
    requires opening { OpensAt (W.trace round.now.trace.now) ticks.from round.now.table.now.start }
    requires crew { IsCrewOf (W.trace round.now.trace.now) round.now.table.now round.now.streams crew }
    requires no_guests { length guests.old.items ≡ 0 }
    requires no_copiers { length copiers.old.items ≡ 0 }
    ensures guests { OnOk result (length guests.new.items ≡ length crew.guests.items) }
    ensures replays { OnOk result (EachAt (λ h i. h.promise ≡ replay_task (W.trace round.now.trace.now)
        round.now.table.now ticks.from ticks.to i) guests.new.items) }
    ensures copiers { OnOk result (length copiers.new.items ≡ length crew.copiers.items) }
    ensures copies { OnOk result (EachAt (λ h i. h.promise ≡ copy_task (W.trace round.now.trace.now) round.now.skip
        round.now.table.now round.now.streams i (slice_index_or (rows_of crew.states.items) i [])) copiers.new.items) }
{
    let Crew {
        guests: guest_seats,
        copiers: copy_seats,
        states,
    } = crew;
    start_replayers(scope, round, ticks, guest_seats, guests)?;
    start_copiers(scope, alloc, round, copy_seats, states, copiers)
}

/// Runs a round's replayers and copiers, each in its own thread and all at once. It waits for those that run before it
/// returns an error; `Thread` comes before `Memory`.
fn run_in_scope<'s, E, W: WriteLog + Sync, G: Gate, R: Threads>(
    rt: &R,
    scope: &'s Scope<'s, E>,
    alloc: Global,
    round: &SharedRound<'s, W, G>,
    ticks: Ticks,
    crew: Crew,
) -> Result<EndedCrew, LiveError>
    requires opening { OpensAt (W.trace round.now.trace.now) ticks.from round.now.table.now.start }
    requires crew { IsCrewOf (W.trace round.now.trace.now) round.now.table.now round.now.streams crew }
    ensures { IfOk result (CrewHasEnded (W.trace round.now.trace.now) round.now.skip round.now.table.now
        round.now.streams ticks crew) }
{
    let mut guests = Vec::new(alloc);
    let mut copiers = Vec::new(alloc);
    let started = start_crew(scope, alloc, round, ticks, crew, &mut guests, &mut copiers);
    let replayed = join_all(rt, guests);
    let copied = join_all(rt, copiers);
    started?;
    let guests = replayed?;
    let copiers = unrefused(alloc, copied?)?;
    Ok(EndedCrew { guests, copiers })
}

/// Runs a round's replayers and copiers, each in its own thread, and waits until all have ended.
pub(crate) fn run_crew<W: WriteLog + Sync, G: Gate, R: Threads + Wait + Sync>(
    rt: &R,
    alloc: Global,
    round: &SharedRound<'_, W, G>,
    ticks: Ticks,
    crew: Crew,
) -> Result<EndedCrew, LiveError>
    requires opening { OpensAt (W.trace round.now.trace.now) ticks.from round.now.table.now.start }
    requires crew { IsCrewOf (W.trace round.now.trace.now) round.now.table.now round.now.streams crew }
    ensures { IfOk result (CrewHasEnded (W.trace round.now.trace.now) round.now.skip round.now.table.now
        round.now.streams ticks crew) }
{
    let SharedRound {
        trace,
        pages,
        table,
        gate,
        skip,
        streams,
    } = *round;
    thread::scope(
        scope_env(),
        rt,
        move |scope| -> Result<EndedCrew, LiveError>
            requires of { IsRoundOf (W.trace trace.now) pages.now table.now }
            requires opening { OpensAt (W.trace trace.now) ticks.from table.now.start }
            requires crew { IsCrewOf (W.trace trace.now) table.now streams crew }
            ensures { IfOk result (CrewHasEnded (W.trace trace.entry.now) skip table.entry.now streams ticks crew) }
        {
            let round = SharedRound {
                trace,
                pages,
                table,
                gate,
                skip,
                streams,
            };
            run_in_scope(rt, scope, alloc, &round, ticks, crew)
        },
    )
}
