//! A migration, from its plan to its final copy.

ghost use Rattle.std.specs.Prelude.{◌≡◌, IfOk, OnOk, length, map};
ghost use Rattle.image_build.specs.Joins.{memory_by};
ghost use Rattle.live_engine.specs.Receiving.{identity_of};
ghost use Rattle.live_engine.specs.Runs.{AreDone, AreNewStates, HasEnded, IsLiveRun, IsPlanOf, IsStopped};
ghost use Rattle.live_engine.specs.Runs.{IsTeam};
ghost use Rattle.page_versions.specs.Copies.{ArePagesOf};

use crate::error::LiveError;
use crate::live_round::LiveRound;
use crate::opening::{Team, open_lanes};
use crate::preparation::{Preparation, prepare};
use crate::receivers::{Receives, Signals, drain_all, start_receivers};
use crate::rounds::{Migration, Progress};
use crate::stop_and_copy::stop_and_copy;
use crate::stopped::StoppedGuest;
use guest_log::WriteLog;
use image_build::Image;
use live_tasks::{CopierState, Gate};
use rate_limit::Settings;
use std::alloc::Global;
use std::collections::VecDeque;
use std::sync::Wait;
use std::sync::atomic::Ordering;
use std::thread;
use std::thread::{PromisedHandle, Scope, Threads, scope_env};
use stop_copy::{GuestImages, join_all};
use stream_receivers::{Receiver, join_first};

/// What a run leaves: the state of the migration after its last round, and the receivers.
#[derive(Drop)]
struct EndedRun {
    progress: Progress,
    receivers: Vec<Receiver>,
}

/// Starts the receivers, and then runs all rounds.
fn run_started<'s, E, W: WriteLog + Sync, G: Gate, R: Threads + Wait + Sync>(
    rt: &'s R,
    scope: &'s Scope<'s, E>,
    alloc: Global,
    migration: &Migration<'s, W, G>,
    states: VecDeque<CopierState>,
    receivers: Vec<Receiver>,
    handles: &mut Vec<PromisedHandle<Receiver, Receives>>,
) -> Result<Progress, LiveError>
    requires plan { IsPlanOf (W.trace migration.now.trace.now) migration.now.settings.now migration.now.plan.now }
    requires states { AreNewStates (W.trace migration.now.trace.now) migration.now.team states.items }
    requires none { length handles.old.items ≡ 0 }
    ensures done { IfOk result (AreDone (W.trace migration.now.trace.now) migration.now.settings.now
        migration.now.plan.now migration.now.team states.items) }
    ensures started { OnOk result (map (λ h. identity_of h.promise.receiver.value) handles.new.items
        ≡ map identity_of receivers.items) }
{
    let (gate, signals) = (migration.gate, migration.signals);
    start_receivers(rt, scope, gate, signals, receivers, handles)?;
    migration.run_rounds(rt, alloc, states)
}

/// Runs all rounds beside the receivers. On every path it sets the flag and waits for all receivers before it returns
/// an error.
fn run_beside_receivers<'s, E, W: WriteLog + Sync, G: Gate, R: Threads + Wait + Sync>(
    rt: &'s R,
    scope: &'s Scope<'s, E>,
    alloc: Global,
    migration: &Migration<'s, W, G>,
    states: VecDeque<CopierState>,
    receivers: Vec<Receiver>,
) -> Result<EndedRun, LiveError>
    requires plan { IsPlanOf (W.trace migration.now.trace.now) migration.now.settings.now migration.now.plan.now }
    requires states { AreNewStates (W.trace migration.now.trace.now) migration.now.team states.items }
    ensures { IfOk result (HasEnded (W.trace migration.now.trace.now) migration.now.settings.now
        migration.now.plan.now migration.now.team states.items receivers.items) }
{
    let mut handles = Vec::new(alloc);
    let done = run_started(rt, scope, alloc, migration, states, receivers, &mut handles);
    migration.signals.ended.store(true, Ordering::SeqCst);
    let joined = join_all(rt, handles);
    let progress = done?;
    let receivers = joined?;
    Ok(EndedRun {
        progress,
        receivers,
    })
}

/// Runs all rounds with the receivers beside them, in threads that have ended when it returns.
fn run_all<W: WriteLog + Sync, G: Gate, R: Threads + Wait + Sync>(
    rt: &R,
    alloc: Global,
    migration: &Migration<'_, W, G>,
    states: VecDeque<CopierState>,
    receivers: Vec<Receiver>,
) -> Result<EndedRun, LiveError>
    requires plan { IsPlanOf (W.trace migration.now.trace.now) migration.now.settings.now migration.now.plan.now }
    requires states { AreNewStates (W.trace migration.now.trace.now) migration.now.team states.items }
    ensures { IfOk result (HasEnded (W.trace migration.now.trace.now) migration.now.settings.now
        migration.now.plan.now migration.now.team states.items receivers.items) }
{
    let Migration {
        trace,
        pages,
        gate,
        settings,
        plan,
        signals,
        team,
    } = *migration;
    thread::scope(
        scope_env(),
        rt,
        move |scope| -> Result<EndedRun, LiveError>
            requires pages { ArePagesOf pages.now.index pages.now.packed (W.trace trace.now) }
            requires team { IsTeam team }
            requires plan { IsPlanOf (W.trace trace.now) settings.now plan.now }
            requires states { AreNewStates (W.trace trace.now) team states.items }
            ensures { IfOk result (HasEnded (W.trace trace.entry.now) settings.entry.now plan.entry.now team
                states.items receivers.items) }
        {
            let migration = Migration {
                trace,
                pages,
                gate,
                settings,
                plan,
                signals,
                team,
            };
            run_beside_receivers(rt, scope, alloc, &migration, states, receivers)
        },
    )
}

/// Performs a migration over the trace until the guest has stopped and all of its memory has arrived. In the ticks of
/// each planned round replayers change the guest's pages while copiers send them over lanes, from which receivers take
/// them, each in its own thread. With a base, a part with each page as it was before that tick is made before the first
/// round. Then the guest stops, and the pages that are still dirty are sent. The error is `L2` if a thread was not
/// started, and else `L1`. All threads have ended when it returns.
pub fn migrate<W: WriteLog + Sync, G: Gate, R: Threads + Wait + Sync>(
    rt: &R,
    alloc: Global,
    trace: &W,
    settings: &Settings,
    gate: &G,
) -> Result<StoppedGuest, LiveError>
    ensures { IfOk result (λ s. IsStopped (W.trace trace.now) settings.now s.stop (memory_by s.memory) s.versions.items
        s.index s.rounds.items) }
{
    let Preparation { plan, pages, first } = prepare(rt, alloc, trace, settings)?;
    let team = Team::of(settings);
    let (states, receivers) = open_lanes(alloc, trace, team)?;
    let signals = Signals::new(team.lane);
    let migration = Migration {
        trace,
        pages: &pages,
        gate,
        settings,
        plan: &plan,
        signals: &signals,
        team,
    };
    let EndedRun {
        progress,
        receivers,
    } = run_all(rt, alloc, &migration, states, receivers)?;
    let Progress {
        closed,
        states,
        rounds,
    } = progress;
    let arrived = drain_all(alloc, team.streams, states, receivers)?;
    let parts = join_first(alloc, first, arrived)?;
    let memory = stop_and_copy(rt, alloc, trace, &pages.index, team, &closed, parts)?;
    Ok(StoppedGuest {
        memory,
        stop: plan.stop,
        versions: closed.versions,
        index: pages.index,
        rounds,
    })
}

/// What a live run leaves.
#[derive(Debug, Drop)]
pub struct Live {
    /// The guest's memory when it stopped.
    pub at_stop: Image,
    /// The guest's memory after all its writes.
    pub at_end: Image,
    /// The tick at which it stopped.
    pub stop: u64,
    /// What was done, round by round.
    pub rounds: Vec<LiveRound>,
}

/// Performs a migration as `migrate` does, and then resumes the guest. Returns the memory at the guest's stop and after
/// all of its writes.
pub fn live_run<W: WriteLog + Sync, G: Gate, R: Threads + Wait + Sync>(
    rt: &R,
    alloc: Global,
    trace: &W,
    settings: &Settings,
    gate: &G,
) -> Result<Live, LiveError>
    ensures { IfOk result (λ live. IsLiveRun (W.trace trace.now) settings.now live.stop live.at_stop live.at_end
        live.rounds.items) }
{
    let stopped = migrate(rt, alloc, trace, settings, gate)?;
    let StoppedGuest {
        memory,
        stop,
        versions,
        index,
        rounds,
    } = stopped;
    let GuestImages { at_stop, at_end } = GuestImages::new(
        alloc, &memory, trace, &index, &versions,
    )?;
    Ok(Live {
        at_stop,
        at_end,
        stop,
        rounds,
    })
}
