//! The program over words, a source and two sinks.

ghost use Rattle.std.specs.Prelude.{◌≡◌, ◌≤◌, ◌⊎◌, List, ℕ, map, string_bytes, true};
ghost use Rattle.std.specs.Io.KnownBytes.{Appends};
ghost use Rattle.byte_sinks.specs.Sink.{AppendsPart};
ghost use Rattle.job_commands.specs.Commands.{AreRefusedWords, AskForHelp, WordsAsk};
ghost use Rattle.job_commands.specs.Ends.{IsTold, NoneHasFailed, memory_line, write_line};
ghost use Rattle.migration_jobs.specs.Output.{IsOutput};
ghost use Rattle.precopy.specs.Ends.{HasFailed, TellsRefusal, TellsRun};

use crate::faults::run_fault;
use byte_sinks::Sink;
use job_commands::{Program, job_of, refuse};
use live_engine::OpenGate;
use migration_jobs::{Job, run};
use std::alloc::Global;
use std::sync::Wait;
use std::thread::Threads;
use trace_codec::Source;

/// Runs a job, and returns the program's status.
fn run_job<R: Threads + Wait + Sync, S: Source, K: Sink, E: Sink>(
    rt: &R,
    alloc: Global,
    job: &Job,
    source: &mut S,
    sink: &mut K,
    faults: &mut E,
) -> u8
    requires { NoneHasFailed (S.has_failed source.old) (K.has_failed sink.old) (E.has_failed faults.old) }
    ensures status { result ≤ 1 }
    ensures flushed { result ≡ 0 → K.is_flushed sink.new ≡ true }
    ensures written { result ≡ 0 → (output : List ℕ) × IsOutput (S.remaining source.old) job.now output
        × Appends (K.contents sink.old) (K.contents sink.new) output }
    ensures failed { result ≡ 1 → HasFailed (S.remaining source.old) job.now (S.has_failed source.new)
        (K.has_failed sink.new) (K.contents sink.old) (K.contents sink.new)
        (λ e. TellsRun e (E.contents faults.old) (E.contents faults.new) (E.has_failed faults.new)) }
    ensures untold { result ≡ 0 → faults.new ≡ faults.old }
{
    match run(rt, alloc, job, source, sink, &OpenGate) {
        Ok(()) => 0,
        Err(error) => run_fault(&error, faults),
    }
}

/// Runs the program: `words` are its name and its arguments, and the trace comes from `source`. The output and a
/// request for help go to `sink`, and the line of a fault or the text of a refused command line to `faults`.
///
/// Returns the program's status: 0 is success, 1 a run that failed, 2 a refused command line. A failure of `faults`
/// is ignored.
pub fn start<R: Threads + Wait + Sync, S: Source, K: Sink, E: Sink>(
    rt: &R,
    alloc: Global,
    words: Vec<String>,
    source: &mut S,
    sink: &mut K,
    faults: &mut E,
) -> u8
    requires { NoneHasFailed (S.has_failed source.old) (K.has_failed sink.old) (E.has_failed faults.old) }
    ensures status { result ≤ 2 }
    // Nothing that was written is held back.
    ensures flushed { result ≡ 0 → K.is_flushed sink.new ≡ true }
    // What was written is the output of the job that the words ask for, over what was read; or else they ask for help,
    // and nothing was read.
    ensures written { result ≡ 0 → ((job : Job) × (output : List ℕ) × WordsAsk (map string_bytes words.items) job
        × IsOutput (S.remaining source.old) job output × Appends (K.contents sink.old) (K.contents sink.new) output)
        ⊎ (AskForHelp (map string_bytes words.items) × (source.new ≡ source.old)
        × (text : List ℕ) × Appends (K.contents sink.old) (K.contents sink.new) text) }
    // The job that the words ask for failed; or else nothing was read: a write of help failed, or memory ran out while
    // the words were read, and nothing is written. Each of these is told.
    ensures failed { result ≡ 1 → ((job : Job) × WordsAsk (map string_bytes words.items) job
        × HasFailed (S.remaining source.old) job (S.has_failed source.new) (K.has_failed sink.new)
        (K.contents sink.old) (K.contents sink.new)
        (λ e. TellsRun e (E.contents faults.old) (E.contents faults.new) (E.has_failed faults.new)))
        ⊎ ((source.new ≡ source.old) × ((AskForHelp (map string_bytes words.items) × (K.has_failed sink.new ≡ true)
        × IsTold (write_line Program.Precopy) (E.contents faults.old) (E.contents faults.new)
        (E.has_failed faults.new) × (text : List ℕ) × AppendsPart (K.contents sink.old) (K.contents sink.new) text)
        ⊎ ((sink.new ≡ sink.old) × IsTold (memory_line Program.Precopy) (E.contents faults.old)
        (E.contents faults.new) (E.has_failed faults.new)))) }
    // Words are refused before any byte of the trace is read, and nothing is written then.
    ensures refused { result ≡ 2 → AreRefusedWords (map string_bytes words.items) × (source.new ≡ source.old)
        × (sink.new ≡ sink.old) }
    ensures told { result ≡ 2 → TellsRefusal (map string_bytes words.items) (E.contents faults.old)
        (E.contents faults.new) (E.has_failed faults.new) }
    ensures untold { result ≡ 0 → faults.new ≡ faults.old }
{
    match job_of(alloc, &words) {
        Ok(job) => run_job(rt, alloc, &job, source, sink, faults),
        Err(error) => refuse(Program::Precopy, error, sink, faults),
    }
}
