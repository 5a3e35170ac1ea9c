//! A live run over the trace that was read, and its requested memory.

ghost use Rattle.std.specs.Prelude.{◌≡◌, ◌↔◌, IfErr, IfOk, Err, false, true};
ghost use Rattle.migration_model.specs.Trace.{GuestTrace, IsTrace};
ghost use Rattle.trace_codec.specs.Source.{SourceSpells};
ghost use Rattle.trace_codec.specs.declared.error.TraceError.TheVariants.{ReadFault};
ghost use Rattle.migration_jobs.specs.Output.{IsLiveJob, IsShown, RefusesOutput, RefusesRun};

use crate::error::RunError;
use crate::shown::ShownMemory;
use job_kinds::{Job, Show};
use live_engine::{Gate, LiveError, migrate};
use rate_limit::Settings;
use std::alloc::Global;
use std::sync::Wait;
use std::thread::Threads;
use trace_codec::Source;
use trace_readers::HeldTrace;

/// Returns the memory of a live run of a trace.
fn live_of_trace<R: Threads + Wait + Sync, G: Gate>(
    rt: &R,
    alloc: Global,
    settings: &Settings,
    show: Show,
    trace: HeldTrace,
    gate: &G,
) -> Result<ShownMemory, RunError>
    ensures made { IfOk result (λ m. IsTrace trace × IsShown show trace settings.now m.bytes) }
    ensures refused { IfErr result (λ e. (error : LiveError) × (e ≡ RunError.Live error)) }
{
    let stopped = migrate(rt, alloc, &trace, settings, gate)?;
    Ok(ShownMemory::new(stopped, trace, show))
}

/// Returns the memory of a live run of the trace that a source holds.
pub(crate) fn live_output<R: Threads + Wait + Sync, S: Source, G: Gate>(
    rt: &R,
    alloc: Global,
    settings: &Settings,
    show: Show,
    source: &mut S,
    gate: &G,
) -> Result<ShownMemory, RunError>
    requires { S.has_failed source.old ≡ false }
    ensures made { IfOk result (λ m. (trace : GuestTrace) × IsTrace trace × SourceSpells (S.remaining source.old) trace
        × IsShown show trace settings.now m.bytes) }
    ensures refused { IfErr result (RefusesRun (S.remaining source.old)) }
    ensures own { IfErr result (λ e. (job : Job) → IsLiveJob job → RefusesOutput job e) }
    ensures read_failed { (result ≡ Err (RunError.Trace ReadFault)) ↔ (S.has_failed source.new ≡ true) }
{
    let trace = HeldTrace::read(alloc, source)?;
    live_of_trace(rt, alloc, settings, show, trace, gate)
}
