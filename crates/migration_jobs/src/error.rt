//! Why a run ended without its output.

ghost use Rattle.std.specs.Prelude.{◌≡◌};
ghost use Rattle.migration_jobs.specs.Errors.{error_of_sink};
ghost use Rattle.migration_jobs.specs.declared.error.RunError.TheVariants.{Live, Trace};

use byte_sinks::SinkError;
use live_engine::LiveError;
use thiserror::Error;
use trace_codec::TraceError;

/// Why a run ended without its output. It follows `precopy: ` in a fault line.
#[derive(Clone, Copy, Debug, PartialEq, Eq, Error)]
pub enum RunError {
    /// The trace was refused.
    #[error("trace {0}")]
    Trace(TraceError),
    /// Memory ran out.
    #[error("memory")]
    Memory,
    /// A thread could not be started. No job returns it: a live run has an error of its own, and in a report or a sweep
    /// the caller's thread does the work.
    #[error("thread")]
    Thread,
    /// The live run gave no memory: memory ran out, or a thread could not be started.
    #[error("live {0}")]
    Live(LiveError),
    /// The writer failed, took none of some bytes, or failed to flush.
    #[error("write")]
    Write,
}

impl From<TraceError> for RunError {
    ghost from_gives = { λ error e. e ≡ Trace error };

    fn from(error: TraceError) -> RunError {
        RunError::Trace(error)
    }
}

impl From<LiveError> for RunError {
    ghost from_gives = { λ error e. e ≡ Live error };

    fn from(error: LiveError) -> RunError {
        RunError::Live(error)
    }
}

impl From<SinkError> for RunError {
    ghost from_gives = { λ error e. e ≡ error_of_sink error };

    fn from(error: SinkError) -> RunError {
        match error {
            SinkError::Memory => RunError::Memory,
            SinkError::Write => RunError::Write,
        }
    }
}
