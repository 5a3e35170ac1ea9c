//! The fault lines of failed runs.

ghost use Rattle.std.specs.Prelude.{◌≡◌, false};
ghost use Rattle.precopy.specs.Ends.{TellsRun};

use byte_sinks::Sink;
use job_commands::{Program, fault, known_fault};
use migration_jobs::RunError;

/// Writes the fault line of a failed run, and returns its status, 1. It allocates nothing.
pub(crate) fn run_fault<E: Sink>(error: &RunError, faults: &mut E) -> u8
    requires { E.has_failed faults.old ≡ false }
    ensures status { result ≡ 1 }
    ensures told { TellsRun error.now (E.contents faults.old) (E.contents faults.new) (E.has_failed faults.new) }
{
    match error {
        RunError::Trace(_) => fault(Program::Precopy, error, faults),
        RunError::Memory => known_fault(Program::Precopy, "memory", faults),
        RunError::Thread => known_fault(Program::Precopy, "thread", faults),
        RunError::Live(_) => fault(Program::Precopy, error, faults),
        RunError::Write => known_fault(Program::Precopy, "write", faults),
    }
}
