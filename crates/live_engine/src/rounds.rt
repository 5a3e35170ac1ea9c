//! A migration under way, round by round.

ghost use Rattle.std.specs.Prelude.{◌≡◌, ◌&&◌, nat_le, ◌≤◌, ◌++◌, ◌∷◌, ℕ, [], List, Option, IfErr, IfOk, IfSome, map};
ghost use Rattle.live_engine.specs.Joining.{AreJoined, HaveCapacity, lanes_of};
ghost use Rattle.live_engine.specs.Lists.{rows_of};
ghost use Rattle.live_engine.specs.Runs.{AreDone, AreNewStates, IsPlanOf, IsTeam, IsUnderWay};
ghost use Rattle.migration_model.specs.Live.{LiveRounds};
ghost use Rattle.migration_model.specs.Rounds.{PlannedRound};
ghost use Rattle.page_versions.specs.Copies.{ArePagesOf};
ghost use Rattle.std.proofs.Props.{props};

use crate::error::LiveError;
use crate::live_round::{LiveRound, list};
use crate::opening::{Team, versions_before};
use crate::receivers::Signals;
use crate::threads::{Crew, EndedCrew, run_crew};
use crate::warm::pages_lacking;
use dirty_core::Opening;
use dirty_words::{Closed, CopySeat, Opened, RoundTable};
use guest_log::WriteLog;
use live_tasks::{Copier, CopierState, Gate, Point, SharedRound, Ticks};
use page_versions::TracePages;
use rate_limit::Settings;
use round_planner::{Plan, Round};
use std::alloc::Global;
use std::collections::VecDeque;
use std::sync::Wait;
use std::sync::atomic::Ordering;
use std::thread::Threads;

/// A migration under way: what does not change from round to round.
#[derive(Drop)]
pub(crate) struct Migration<'a, W: WriteLog, G> {
    pub(crate) trace: &'a W,
    pub(crate) pages: &'a TracePages,
    pub(crate) gate: &'a G,
    pub(crate) settings: &'a Settings,
    pub(crate) plan: &'a Plan,
    pub(crate) signals: &'a Signals,
    pub(crate) team: Team,
    pub(crate) ghost are_pages: { ArePagesOf pages.now.index pages.now.packed
        (W.trace trace.now) } by { Prim.hlevel props },
    pub(crate) ghost is_team: { IsTeam team },
}

/// The state of a migration between two rounds.
#[derive(Drop)]
pub(crate) struct Progress {
    pub(crate) closed: Closed,
    pub(crate) states: VecDeque<CopierState>,
    pub(crate) rounds: Vec<LiveRound>,
}

/// Returns whether pages may be skipped in the round with this number: never in the first.
fn may_skip(skip: bool, number: usize) -> bool
    ensures { result ≡ (skip && nat_le 1 number) }
{
    skip && number >= 1
}

/// Returns the seats of copiers and their states, separately.
fn take_apart(
    alloc: Global,
    copiers: Vec<Copier>,
) -> Result<(Vec<CopySeat>, Vec<CopierState>), LiveError>
    ensures seats { IfOk result (λ parts. parts.0.items ≡ map (λ c. c.seat) copiers.items) }
    ensures states { IfOk result (λ parts. parts.1.items ≡ map (λ c. c.state) copiers.items) }
    ensures memory { IfErr result (λ e. e ≡ LiveError.Memory) }
{
    let mut seats = Vec::with_capacity(alloc, copiers.len())?;
    let mut states = Vec::with_capacity(alloc, copiers.len())?;
    for copier in copiers {
        let Copier { seat, state } = copier;
        seats.push(seat)?;
        states.push(state)?;
    }
    Ok((seats, states))
}

impl<'a, W: WriteLog + Sync, G: Gate> Migration<'a, W, G> {
    /// Returns the state before the first round: the pages that the destination lacks are marked, and nothing was sent.
    fn begin(
        &self,
        alloc: Global,
        base: Option<u64>,
        start: u64,
        states: VecDeque<CopierState>,
    ) -> Result<Progress, LiveError>
        requires base { IfSome base (λ tick. tick ≤ start) }
        requires states { AreNewStates (W.trace self.now.trace.now) self.now.team states.items }
        ensures none { IfOk result (λ p. p.rounds.items ≡ []) }
        ensures states { IfOk result (λ p. p.states.items ≡ states.items) }
        ensures under_way { IfOk result (λ p. IsUnderWay (W.trace self.now.trace.now) self.now.team
            p.closed p.states.items) }
        ensures joined { IfOk result (λ p. AreJoined (W.trace self.now.trace.now) base self.now.team.copiers start [] []
            p.closed (rows_of p.states.items)) }
        ensures memory { IfErr result (λ e. e ≡ LiveError.Memory) }
    {
        let versions = versions_before(alloc, self.trace, &self.pages.index, start)?;
        let dirty = pages_lacking(alloc, self.trace, &self.pages.index, base, start, &versions)?;
        Ok(Progress {
            closed: Closed { versions, dirty },
            states,
            rounds: Vec::new(alloc),
        })
    }

    /// Runs the next round, in the ticks planned for it: opens a table with what the previous round closed, runs the
    /// round's threads on it, and closes it. After a refusal no table is closed.
    fn run_round<R: Threads + Wait + Sync>(
        &self,
        rt: &R,
        alloc: Global,
        skip: bool,
        planned: &Round,
        progress: Progress,
    ) -> Result<Progress, LiveError>
        requires span { planned.now.from ≤ planned.now.to }
        requires under_way { IsUnderWay (W.trace self.now.trace.now) self.now.team progress.closed
            progress.states.items }
        requires joined { (base : Option ℕ) × (before : List PlannedRound)
            × AreJoined (W.trace self.now.trace.now) base self.now.team.copiers planned.now.from before
            progress.rounds.items progress.closed (rows_of progress.states.items) }
        ensures under_way { IfOk result (λ p. IsUnderWay (W.trace self.now.trace.now) self.now.team
            p.closed p.states.items) }
        ensures lanes { IfOk result (λ p. lanes_of (rows_of p.states.items)
            ≡ lanes_of (rows_of progress.states.items)) }
        ensures joined { (base : Option ℕ) (before : List PlannedRound)
            → AreJoined (W.trace self.now.trace.now) base self.now.team.copiers planned.now.from
            before progress.rounds.items progress.closed (rows_of progress.states.items)
            → IfOk result (λ p. AreJoined (W.trace self.now.trace.now) base self.now.team.copiers planned.now.to
            (before ++ planned.now ∷ []) p.rounds.items p.closed (rows_of p.states.items)) }
        ensures law { (base : Option ℕ) (lane : ℕ) (before : List PlannedRound)
            → HaveCapacity lane (lanes_of (rows_of progress.states.items))
            → AreJoined (W.trace self.now.trace.now) base self.now.team.copiers planned.now.from
            before progress.rounds.items progress.closed (rows_of progress.states.items)
            → LiveRounds (W.trace self.now.trace.now) base skip self.now.team.copiers lane before progress.rounds.items
            → IfOk result (λ p. LiveRounds (W.trace self.now.trace.now) base skip self.now.team.copiers lane
            (before ++ planned.now ∷ []) p.rounds.items) }
    {
        let Progress {
            closed,
            states,
            mut rounds,
        } = progress;
        let number = rounds.len();
        let ticks = Ticks {
            from: planned.from,
            to: planned.to,
        };
        if self.signals.refused.load(Ordering::SeqCst) {
            return Err(LiveError::Memory);
        }
        let Closed { versions, dirty } = closed;
        let Some(opening) = Opening::new(versions, dirty, self.team.replayers, self.team.copiers)
        else {
            unreachable!()
        };
        let Opened {
            table,
            guests,
            copiers,
        } = RoundTable::open(alloc, opening)?;
        let round = SharedRound {
            trace: self.trace,
            pages: self.pages,
            table: &table,
            gate: self.gate,
            skip: may_skip(skip, number),
            streams: self.team.streams,
        };
        let crew = Crew {
            guests,
            copiers,
            states,
        };
        let EndedCrew { guests, copiers } = run_crew(rt, alloc, &round, ticks, crew)?;
        let (seats, states) = take_apart(alloc, copiers)?;
        let closed = table.close(guests, seats);
        self.gate.at(Point::RoundClosed { round: number });
        let (listed, states) = list(alloc, states)?;
        rounds.push(listed)?;
        Ok(Progress {
            closed,
            states,
            rounds,
        })
    }

    /// Runs all planned rounds.
    pub(crate) fn run_rounds<R: Threads + Wait + Sync>(
        &self,
        rt: &R,
        alloc: Global,
        states: VecDeque<CopierState>,
    ) -> Result<Progress, LiveError>
        requires plan { IsPlanOf (W.trace self.now.trace.now) self.now.settings.now self.now.plan.now }
        requires states { AreNewStates (W.trace self.now.trace.now) self.now.team states.items }
        ensures { IfOk result (AreDone (W.trace self.now.trace.now) self.now.settings.now self.now.plan.now
            self.now.team states.items) }
    {
        let (settings, plan) = (self.settings, self.plan);
        let asked = settings.asked();
        let mut progress = self.begin(alloc, asked.base, asked.start, states)?;
        for number in 0..plan.rounds.len() {
            progress = self.run_round(rt, alloc, asked.skip, &plan.rounds[number], progress)?;
        }
        Ok(progress)
    }
}
