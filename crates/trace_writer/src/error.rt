//! Why a trace is not begun, or not written on.

ghost use Rattle.std.specs.Prelude.{◌≡◌};
ghost use Rattle.trace_writer.specs.declared.error.RecordingError.TheVariants.{Trace as OfTrace};

use trace_codec::TraceError;

/// Why a trace is not begun, or not written on.
#[derive(Clone, Copy, Debug, PartialEq, Eq)]
pub enum RecordingError {
    /// It would be no trace. This is what `Trace::new` refuses it for.
    Trace(TraceError),
    /// The bytes that are lent are too few for it.
    ShortBuffer,
}

impl From<TraceError> for RecordingError {
    ghost from_gives = { λ e r. r ≡ OfTrace e };

    fn from(error: TraceError) -> RecordingError {
        RecordingError::Trace(error)
    }
}
