//! What a migration begins with.

ghost use Rattle.std.specs.Prelude.{◌≡◌, ◌<◌, ◌≤◌, ℕ, IfErr, IfOk, [], length, map, replicate, slice_index};
ghost use Rattle.std.specs.List.{All};
ghost use Rattle.migration_model.specs.Versions.{version_before};
ghost use Rattle.live_tasks.specs.CopierStates.{IsCopierState};
ghost use Rattle.migration_model.specs.Trace.{GuestTrace};
ghost use Rattle.page_message.specs.Shapes.{shape_of};
ghost use Rattle.live_engine.specs.Lists.{rows_of};
ghost use Rattle.live_engine.specs.Receiving.{lanes_in};
ghost use Rattle.live_engine.specs.Runs.{AreOpened, IsTeam, IsTeamOf};
ghost use Rattle.page_versions.specs.Index.{IsIndexOf};

use crate::error::LiveError;
use guest_log::{Shape, WriteLog};
use live_tasks::CopierState;
use page_versions::PageIndex;
use rate_limit::Settings;
use std::alloc::Global;
use std::collections::VecDeque;
use stream_lanes::{LaneIn, LaneOut, Lanes, lanes};
use stream_receivers::Receiver;

/// How many replayers, copiers and streams there are, and how many frames a lane holds.
#[derive(Clone, Copy, Debug)]
pub(crate) struct Team {
    pub(crate) replayers: usize,
    pub(crate) copiers: usize,
    pub(crate) streams: usize,
    pub(crate) lane: usize,
}

impl Team {
    /// Returns the team that the settings ask for.
    pub(crate) fn of(settings: &Settings) -> Team
        ensures { IsTeamOf settings.now result }
    {
        let asked = settings.asked();
        Team {
            replayers: asked.replayers as usize,
            copiers: asked.workers as usize,
            streams: asked.streams as usize,
            lane: asked.lane as usize,
        }
    }
}

/// Returns a version of 0 for each page.
fn no_versions(alloc: Global, pages: usize) -> Result<Vec<u32>, LiveError>
    ensures versions { IfOk result (λ v. v.items ≡ replicate pages 0) }
    ensures memory { IfErr result (λ e. e ≡ LiveError.Memory) }
{
    Ok(Vec::from_elem(alloc, 0, pages)?)
}

/// Returns the version of each page before a tick.
pub(crate) fn versions_before<W: WriteLog>(
    alloc: Global,
    trace: &W,
    index: &PageIndex,
    tick: u64,
) -> Result<Vec<u32>, LiveError>
    requires { IsIndexOf index.now (W.trace trace.now) }
    ensures count { IfOk result (λ v. length v.items ≡ (W.trace trace.now).pages) }
    ensures each { IfOk result (λ v. (page : ℕ) → page < (W.trace trace.now).pages
        → slice_index v.items page ≡ version_before (W.trace trace.now) page tick) }
    ensures memory { IfErr result (λ e. e ≡ LiveError.Memory) }
{
    let pages = trace.shape().pages;
    if tick == 0 {
        // Nothing is written before the first tick.
        return no_versions(alloc, pages as usize);
    }
    let mut versions = Vec::with_capacity(alloc, pages as usize)?;
    for page in 0..pages {
        versions.push(index.version_before(page, tick))?;
    }
    Ok(versions)
}

/// Returns a state for each copier, before the first round, with its lanes.
fn new_states(alloc: Global, rows: Vec<Vec<LaneOut>>) -> Result<VecDeque<CopierState>, LiveError>
    requires some { All (λ row. 1 ≤ length row.items) rows.items }
    requires few { All (λ row. length row.items ≤ 16) rows.items }
    ensures rows { IfOk result (λ v. rows_of v.items ≡ map (λ row. row.items) rows.items) }
    ensures each { (trace : GuestTrace) (streams : ℕ) → All (λ row. length row.items ≡ streams) rows.items
        → IfOk result (λ v. All (IsCopierState trace streams) v.items) }
    ensures memory { IfErr result (λ e. e ≡ LiveError.Memory) }
{
    let mut states = VecDeque::with_capacity(alloc, rows.len())?;
    for row in rows {
        states.push_back(CopierState::new(alloc, row)?)?;
    }
    Ok(states)
}

/// Returns a receiver for each stream, with its lanes. No part has any page.
fn new_receivers(
    alloc: Global,
    shape: Shape,
    columns: Vec<Vec<LaneIn>>,
) -> Result<Vec<Receiver>, LiveError>
    requires { All (λ column. All (λ end. end.taken ≡ []) column.items) columns.items }
    ensures lanes { IfOk result (λ v. map lanes_in v.items
        ≡ map (λ column. map (λ end. end.lane) column.items) columns.items) }
    ensures shapes { IfOk result (λ v. All (λ receiver. receiver.part.shape ≡ shape_of shape) v.items) }
    ensures memory { IfErr result (λ e. e ≡ LiveError.Memory) }
{
    let mut receivers = Vec::with_capacity(alloc, columns.len())?;
    for column in columns {
        receivers.push(Receiver::new(alloc, shape, column))?;
    }
    Ok(receivers)
}

/// Opens a lane from each copier to each stream. Returns a state for each copier, and a receiver for each stream.
pub(crate) fn open_lanes<W: WriteLog>(
    alloc: Global,
    trace: &W,
    team: Team,
) -> Result<(VecDeque<CopierState>, Vec<Receiver>), LiveError>
    requires { IsTeam team }
    ensures opened { IfOk result (λ ends. AreOpened (W.trace trace.now) team ends.0.items ends.1.items) }
    ensures memory { IfErr result (λ e. e ≡ LiveError.Memory) }
{
    let shape = trace.shape();
    let Lanes { outs, ins } = lanes(alloc, team.copiers, team.streams, team.lane)?;
    let states = new_states(alloc, outs)?;
    let receivers = new_receivers(alloc, shape, ins)?;
    Ok((states, receivers))
}
