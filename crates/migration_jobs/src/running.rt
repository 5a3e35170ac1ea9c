//! A job, from the bytes read to the bytes written.

ghost use Rattle.std.specs.Prelude.{◌≡◌, ◌≢◌, ◌↔◌, ℕ, List, IfErr, IfOk, OnOk, Err, Some, false, true};
ghost use Rattle.std.specs.Io.KnownBytes.{Appends, Keeps};
ghost use Rattle.migration_model.specs.Trace.{GuestTrace, IsTrace, Spells};
ghost use Rattle.migration_model.specs.Rounds.{IsPlan};
ghost use Rattle.migration_model.specs.Touches.{touches_in};
ghost use Rattle.migration_model.specs.Windows.{working_sets_of};
ghost use Rattle.trace_codec.specs.declared.error.TraceError.TheVariants.{ReadFault};
ghost use Rattle.trace_codec.specs.Source.{SourceSpells};
ghost use Rattle.byte_sinks.specs.Sink.{AppendsPart};
ghost use Rattle.migration_jobs.specs.Output.{IsOtherJob, IsOutput, IsOutsideRun, IsRefusalOf, RefusesOutput};
ghost use Rattle.migration_jobs.specs.Output.{RefusesRun};
ghost use Rattle.sweep_report.specs.Reports.{IsReport, IsSweep};
ghost use Rattle.migration_jobs.specs.Bytes.{bytes_in};

use crate::error::RunError;
use crate::imaging::image_output;
use crate::live::live_output;
use crate::output::{Output, write_output};
use byte_sinks::Sink;
use job_kinds::Job;
use live_engine::Gate;
use rate_limit::Settings;
use round_planner::{Plan, PlanError, par_plan};
use std::alloc::Global;
use std::sync::Wait;
use std::thread;
use std::thread::Threads;
use sweep_report::{report_text, sweep, sweep_text};
use trace_codec::{Source, Timeline};
use trace_readers::TouchLog;
use working_sets::{Tables, TablesError, par_tables};

/// The fewest touches for which tables and plan are made side by side: fewer take less time than starting a thread.
const WORTH_A_THREAD: usize = 1 << 18;

/// Returns the tables and the plan of a log, made side by side if there are two workers and enough to do.
fn tables_and_plan<R: Threads + Sync>(
    rt: &R,
    alloc: Global,
    settings: &Settings,
    log: &TouchLog,
) -> (Result<Tables, TablesError>, Result<Plan, PlanError>)
    ensures tables { IfOk result.0 (λ tables. tables ≡ working_sets_of log.now.pages log.now.touches settings.now) }
    ensures plan { IfOk result.1 (λ plan. IsPlan log.now.pages log.now.touches settings.now plan) }
{
    let workers = settings.asked().workers as usize;
    let tables = || -> Result<Tables, TablesError>
        ensures { IfOk result (λ tables. tables ≡ working_sets_of log.entry.now.pages log.entry.now.touches
            settings.entry.now) }
    { par_tables(rt, alloc, log, settings, workers) };
    let planned = || -> Result<Plan, PlanError>
        ensures { IfOk result (λ plan. IsPlan log.entry.now.pages log.entry.now.touches settings.entry.now plan) }
    { par_plan(rt, alloc, log, settings, workers) };
    if workers < 2 || log.touch_count() < WORTH_A_THREAD {
        return (tables(), planned());
    }
    thread::join(rt, tables, planned)
}

/// Returns the text of a report, from its tables and its plan.
fn text_of_report(
    alloc: Global,
    settings: &Settings,
    log: &TouchLog,
    tables: &Tables,
    plan: &Plan,
) -> Result<Vec<u8>, RunError>
    requires tables { tables.now ≡ working_sets_of log.now.pages log.now.touches settings.now }
    requires plan { IsPlan log.now.pages log.now.touches settings.now plan.now }
    ensures made { IfOk result (λ v. (trace : GuestTrace) → log.now ≡ touches_in trace
        → IsReport trace settings.now v.items) }
    ensures memory { IfErr result (λ e. e ≡ RunError.Memory) }
{
    report_text(alloc, &log.shape(), settings, tables, plan).or(Err(RunError::Memory))
}

/// Returns the report on a log of touches.
fn report_of_log<R: Threads + Sync>(
    rt: &R,
    alloc: Global,
    settings: &Settings,
    log: &TouchLog,
) -> Result<Vec<u8>, RunError>
    ensures made { IfOk result (λ v. (trace : GuestTrace) → log.now ≡ touches_in trace
        → IsReport trace settings.now v.items) }
    ensures memory { IfErr result (λ e. e ≡ RunError.Memory) }
{
    let (tables, planned) = tables_and_plan(rt, alloc, settings, log);
    let tables = tables.or(Err(RunError::Memory))?;
    let planned = planned.or(Err(RunError::Memory))?;
    text_of_report(alloc, settings, log, &tables, &planned)
}

/// Returns the report on the trace that a source holds.
fn report_output<R: Threads + Sync, S: Source>(
    rt: &R,
    alloc: Global,
    settings: &Settings,
    source: &mut S,
) -> Result<Vec<u8>, RunError>
    requires { S.has_failed source.old ≡ false }
    ensures made { IfOk result (λ v. (trace : GuestTrace) × IsTrace trace × SourceSpells (S.remaining source.old) trace
        × IsReport trace settings.now v.items) }
    ensures refused { IfErr result (RefusesRun (S.remaining source.old)) }
    ensures own { IfErr result (λ e. (job : Job) → IsOtherJob job → RefusesOutput job e) }
    ensures read_failed { (result ≡ Err (RunError.Trace ReadFault)) ↔ (S.has_failed source.new ≡ true) }
{
    let log = TouchLog::read(alloc, source)?;
    report_of_log(rt, alloc, settings, &log)
}

/// Returns the sweep over a log of touches.
fn sweep_of_log<R: Threads + Sync>(
    rt: &R,
    alloc: Global,
    cases: &[Settings],
    workers: usize,
    log: &TouchLog,
) -> Result<Vec<u8>, RunError>
    ensures made { IfOk result (λ v. (trace : GuestTrace) → log.now ≡ touches_in trace
        → IsSweep trace cases.now v.items) }
    ensures memory { IfErr result (λ e. e ≡ RunError.Memory) }
{
    let lines = sweep(rt, alloc, log, cases, workers).or(Err(RunError::Memory))?;
    sweep_text(alloc, &lines).or(Err(RunError::Memory))
}

/// Returns the sweep over the trace that a source holds.
fn sweep_output<R: Threads + Sync, S: Source>(
    rt: &R,
    alloc: Global,
    cases: &[Settings],
    workers: usize,
    source: &mut S,
) -> Result<Vec<u8>, RunError>
    requires { S.has_failed source.old ≡ false }
    ensures made { IfOk result (λ v. (trace : GuestTrace) × IsTrace trace × SourceSpells (S.remaining source.old) trace
        × IsSweep trace cases.now v.items) }
    ensures refused { IfErr result (RefusesRun (S.remaining source.old)) }
    ensures own { IfErr result (λ e. (job : Job) → IsOtherJob job → RefusesOutput job e) }
    ensures read_failed { (result ≡ Err (RunError.Trace ReadFault)) ↔ (S.has_failed source.new ≡ true) }
{
    let log = TouchLog::read(alloc, source)?;
    sweep_of_log(rt, alloc, cases, workers, &log)
}

/// Returns the output of a job over the trace that a source holds.
fn read_output<R: Threads + Wait + Sync, S: Source, G: Gate>(
    rt: &R,
    alloc: Global,
    job: &Job,
    source: &mut S,
    gate: &G,
) -> Result<Output, RunError>
    requires { S.has_failed source.old ≡ false }
    ensures made { IfOk result (λ output. IsOutput (S.remaining source.old) job.now (bytes_in output)) }
    ensures refused { IfErr result (RefusesRun (S.remaining source.old)) }
    ensures own { IfErr result (RefusesOutput job.now) }
    ensures read_failed { (result ≡ Err (RunError.Trace ReadFault)) ↔ (S.has_failed source.new ≡ true) }
{
    match job {
        Job::Image => image_output(alloc, source),
        Job::Report(settings) => Ok(Output::Text(report_output(rt, alloc, settings, source)?)),
        Job::Live(settings, show) => {
            let memory = live_output(rt, alloc, settings, *show, source, gate)?;
            Ok(Output::Memory(memory))
        }
        Job::Sweep { cases, workers } => {
            Ok(Output::Text(sweep_output(rt, alloc, cases, *workers, source)?))
        }
    }
}

/// Returns how many threads may make the memory that a job writes: as many as a live run has workers. `image` makes
/// its pieces in little more time than starting threads for them takes.
fn workers_of(job: &Job) -> usize {
    match job {
        Job::Live(settings, _) => settings.asked().workers as usize,
        _ => 1,
    }
}

/// Runs one job: reads a trace to the end of the source, makes its output, writes it and flushes. Texts are made whole
/// before they are written; memory is written in pieces, which workers make in memory that was taken before. So
/// nothing is written while anything but a write can still fail: each error but `Write` leaves nothing written, and
/// `Write` leaves a prefix of the output. Only the threads of a live run call the gate. The memory of the output is
/// freed, unless the process ends after this sink's output.
pub fn run<R: Threads + Wait + Sync, S: Source, K: Sink, G: Gate>(
    rt: &R,
    alloc: Global,
    job: &Job,
    source: &mut S,
    sink: &mut K,
    gate: &G,
) -> Result<(), RunError>
    requires unread { S.has_failed source.old ≡ false }
    requires unwritten { K.has_failed sink.old ≡ false }
    // Exactly the output of what was read is written, and flushed.
    ensures written { OnOk result ((output : List ℕ) × IsOutput (S.remaining source.old) job.now output
        × Appends (K.contents sink.old) (K.contents sink.new) output) }
    ensures flushed { OnOk result (K.is_flushed sink.new ≡ true) }

    // What an error leaves written.
    ensures part { result ≡ Err RunError.Write → (output : List ℕ) × IsOutput (S.remaining source.old) job.now output
        × AppendsPart (K.contents sink.old) (K.contents sink.new) output }
    ensures unwritten { IfErr result (λ e. e ≢ RunError.Write → Keeps (K.contents sink.old) (K.contents sink.new)) }

    // When each error comes.
    ensures refused { IfErr result (RefusesRun (S.remaining source.old)) }
    ensures own { IfErr result (IsRefusalOf job.now) }
    ensures only { (bytes : List ℕ) (trace : GuestTrace) → S.remaining source.old ≡ Some bytes → Spells bytes trace
        → IfErr result IsOutsideRun }
    ensures read_failed { (result ≡ Err (RunError.Trace ReadFault)) ↔ (S.has_failed source.new ≡ true) }
    ensures write_failed { (result ≡ Err RunError.Write) ↔ (K.has_failed sink.new ≡ true) }
{
    let output = read_output(rt, alloc, job, source, gate)?;
    let answer = write_output(rt, alloc, sink, &output, workers_of(job));
    output.end(sink.is_last());
    Ok(answer?)
}
