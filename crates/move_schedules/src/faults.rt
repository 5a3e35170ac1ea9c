//! The fault lines of tables that have no answer.

ghost use Rattle.std.specs.Prelude.{◌≡◌, ◌≤◌, false, length};
ghost use Rattle.move_schedules.specs.Faults.{cause_of, line_cause};
ghost use Rattle.job_commands.specs.Ends.{IsTold, line_of};

use crate::error::TableError;
use arrayvec::ArrayString;
use byte_sinks::Sink;
use itoa::Buffer;
use job_commands::{Program, known_fault};

/// Returns a short text as a cause.
fn cause(text: &str) -> ArrayString<128>
    requires { length text.now ≤ 128 }
    ensures { result.bytes ≡ text.now }
{
    let mut cause = ArrayString::<128>::new();
    cause.push_str(text);
    cause
}

/// Returns why the line of this number is no plan.
fn line_cause(number: usize) -> ArrayString<128>
    ensures { result.bytes ≡ line_cause number }
{
    let mut digits = Buffer::new();
    let mut cause = cause("line ");
    cause.push_str(digits.format(number));
    cause.push_str(" is no plan: slots, a deadline, and five numbers for each guest");
    cause
}

/// Returns why a table has no answer.
fn cause_of(error: &TableError) -> ArrayString<128>
    ensures { result.bytes ≡ cause_of error.now }
{
    match error {
        TableError::Memory => cause("memory"),
        TableError::Read => cause("read"),
        TableError::Write => cause("write"),
        TableError::TooLong => cause("more than 268,435,456 bytes"),
        TableError::NoText => cause("the table is no text"),
        TableError::NoPlans => cause("there is no plan"),
        TableError::Line(number) => line_cause(*number),
    }
}

/// Writes the fault line of an error, and returns the error's status, 1. It allocates nothing.
pub(crate) fn table_fault<E: Sink>(error: &TableError, faults: &mut E) -> u8
    requires { E.has_failed faults.old ≡ false }
    ensures status { result ≡ 1 }
    ensures told { IsTold (line_of Program.PrecopySchedule (cause_of error.now)) (E.contents faults.old)
        (E.contents faults.new) (E.has_failed faults.new) }
{
    let cause = cause_of(error);
    known_fault(Program::PrecopySchedule, cause.as_str(), faults)
}
