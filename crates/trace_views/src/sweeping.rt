//! Lines of the cases of a sweep over a log.

ghost use Rattle.std.specs.Prelude.{◌≡◌, IfErr, IfOk};
ghost use Rattle.migration_model.specs.Sweeps.{AreLines};

use crate::error::ViewError;
use rate_limit::Settings;
use std::alloc::Global;
use std::thread::Threads;
use sweep_report::{Line, sweep};
use trace_readers::TouchLog;

/// Returns the line of each case, planned on its own.
pub(crate) fn planned<R: Threads + Sync>(
    rt: &R,
    alloc: Global,
    cases: &[Settings],
    workers: usize,
    log: &TouchLog,
) -> Result<Vec<Line>, ViewError>
    ensures lines { IfOk result (λ lines. AreLines log.now.pages log.now.touches cases.now lines.items) }
    ensures refused { IfErr result (λ e. e ≡ ViewError.Memory) }
{
    sweep(rt, alloc, log, cases, workers).or(Err(ViewError::Memory))
}
