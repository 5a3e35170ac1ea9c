//! The stop-and-copy phase of a migration.

ghost use Rattle.std.specs.Prelude.{◌≡◌, ◌<◌, ℕ, IfOk, slice_index_or};
ghost use Rattle.image_build.specs.Joins.{memory_by};
ghost use Rattle.live_engine.specs.Runs.{AllArrived, IsStoppedAt, IsTeam};
ghost use Rattle.migration_model.specs.Memory.{image_before};
ghost use Rattle.migration_model.specs.Versions.{version_before};
ghost use Rattle.page_versions.specs.Index.{IsIndexOf};

use crate::error::LiveError;
use crate::opening::Team;
use collector::Part;
use dirty_words::Closed;
use guest_log::WriteLog;
use image_build::JoinedParts;
use migration_model::{current_copies_make_memory, final_copy_makes_current};
use page_versions::PageIndex;
use std::alloc::Global;
use std::sync::Wait;
use std::thread::Threads;
use stop_copy::final_copy;

/// Sends the pages that are still marked. Returns the parts, which then hold all of the guest's memory.
pub(crate) fn stop_and_copy<W: WriteLog + Sync, R: Threads + Wait + Sync>(
    rt: &R,
    alloc: Global,
    trace: &W,
    index: &PageIndex,
    team: Team,
    closed: &Closed,
    parts: Vec<Part>,
) -> Result<JoinedParts, LiveError>
    requires index { IsIndexOf index.now (W.trace trace.now) }
    requires team { IsTeam team }
    requires arrived { AllArrived (W.trace trace.now) team.streams closed.now parts.items }
    ensures at_stop { IfOk result (λ memory. (tick : ℕ)
        → ((page : ℕ) → page < (W.trace trace.now).pages
        → slice_index_or closed.now.versions page 0 ≡ version_before (W.trace trace.now) page tick)
        → memory_by memory ≡ image_before (W.trace trace.now) tick) }
    ensures stopped { IfOk result (λ memory. IsStoppedAt (W.trace trace.now) closed.now.versions index.now
        (memory_by memory)) }
{
    let copied = final_copy(
        rt,
        alloc,
        trace,
        index,
        closed,
        team.copiers,
        team.streams,
        parts,
    )?;
    final_copy_makes_current();
    current_copies_make_memory();
    let memory = JoinedParts::new(trace.shape(), copied)?;
    Ok(memory)
}
