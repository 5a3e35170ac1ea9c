//! Why a trace is not begun, or not written on, as C is told.

ghost use Rattle.std.specs.Prelude.{◌≡◌, ◌≤◌};
ghost use Rattle.c_answers.specs.Recordings.{number_of_recording};

use crate::answers::Refusal;
use trace_writer::RecordingError;

/// Returns the number of a refusal of a writer.
pub fn recording_number(error: RecordingError) -> u32
    ensures number { result ≡ number_of_recording error }
    ensures some { 1 ≤ result }
{
    match error {
        RecordingError::Trace(error) => Refusal::Trace(error).number(),
        RecordingError::ShortBuffer => Refusal::ShortBuffer.number(),
    }
}
