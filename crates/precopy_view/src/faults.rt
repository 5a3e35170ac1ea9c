//! What is written on standard error, and the statuses that go with it.

ghost use Rattle.std.specs.Prelude.{◌≡◌, ◌≤◌, ◌⊎◌, IfErr, List, None, OnOk, ℕ, false, true};
ghost use Rattle.std.specs.Io.KnownBytes.{Appends};
ghost use Rattle.byte_sinks.specs.Sink.{AppendsPart};
ghost use Rattle.job_commands.specs.Ends.{IsTold, TellsLine, memory_line, write_line};
ghost use Rattle.precopy_view.specs.Ends.{IsHelpOf, IsRefusal, TellsShow, TellsViewWords, error_of_sink};
ghost use Rattle.precopy_view.specs.Fitting.{FitsScale, IsMisfit};
ghost use Rattle.precopy_view.specs.declared.faults.ShowError.TheVariants.{Trace};

use byte_sinks::{Sink, SinkError};
use job_commands::{Program, known_fault, tell_line};
use predictions::units::Scale;
use thiserror::Error;
use trace_codec::TraceError;
use trace_readers::TouchLog;
use trace_views::ViewError;
use view_commands::ViewWordsError;

/// Why a view was not shown. It follows `precopy-view: ` in a fault line.
#[derive(Clone, Copy, Debug, PartialEq, Eq, Error)]
pub enum ShowError {
    /// The trace was refused.
    #[error("trace {0}")]
    Trace(TraceError),
    /// Memory ran out.
    #[error("memory")]
    Memory,
    /// The writer failed, took none of some bytes, or failed to flush.
    #[error("write")]
    Write,
    /// The pages of the trace have a size other than the words say: this many bytes.
    #[error("a page of the trace has {0} bytes; say so by --page")]
    PageSize(u64),
    /// The trace has this many pages, which is more than were sampled.
    #[error("the trace has {0} pages, more than --sampled says")]
    TooManyPages(u64),
    /// A view could not be made.
    #[error("{0}")]
    View(ViewError),
}

impl From<TraceError> for ShowError {
    ghost from_gives = { λ error e. e ≡ Trace error };

    fn from(error: TraceError) -> ShowError {
        ShowError::Trace(error)
    }
}

impl From<SinkError> for ShowError {
    ghost from_gives = { λ error e. e ≡ error_of_sink error };

    fn from(error: SinkError) -> ShowError {
        match error {
            SinkError::Memory => ShowError::Memory,
            SinkError::Write => ShowError::Write,
        }
    }
}

/// Tests whether a trace may have a scale: the size of its pages, and how many pages it has.
pub(crate) fn check_scale(scale: &Option<Scale>, log: &TouchLog) -> Result<(), ShowError>
    ensures fits { OnOk result (FitsScale scale.now log.now.shift log.now.pages) }
    ensures misfit { IfErr result (IsMisfit scale.now log.now.shift log.now.pages) }
{
    let Some(scale) = scale else {
        return Ok(());
    };
    let shape = log.shape();
    let size = shape.page_size() as u64;
    let pages = shape.pages as u64;
    if size != scale.page() {
        return Err(ShowError::PageSize(size));
    }
    if scale.sampled() < scale.guest() && scale.sampled() < pages {
        return Err(ShowError::TooManyPages(pages));
    }
    Ok(())
}

/// Returns what is wrong with a trace, in words.
fn cause_of(error: &TraceError) -> &'static str {
    match error {
        TraceError::ShortHeader => "it has fewer than the 16 bytes of a header",
        TraceError::BadMagic => "it does not begin with PCWT",
        TraceError::BadVersion => "its version is not 1 or 2",
        TraceError::BadShift => "its pages do not have 16 to 4,096 bytes",
        TraceError::BadReserved => "byte 6 or 7 is not 0",
        TraceError::BadPages => "it does not have 1 to 65,536 pages",
        TraceError::TooManyWrites => "it has more than 1,048,576 writes",
        TraceError::ShortRecord(_) => "it ends within this record",
        TraceError::TickOrder(_) => "the tick is below that of the previous record",
        TraceError::TickTooLarge(_) => "the tick is 2^40 or more",
        TraceError::PageOutOfRange(_) => "the guest does not have the page",
        TraceError::EmptyWrite(_) => "the write has no bytes, and is no release",
        TraceError::OutOfPage(_) => "the write goes beyond its page",
        TraceError::TrailingBytes => "bytes follow the last record",
        TraceError::TooLong => "it has more than 2^28 bytes",
        TraceError::Memory => "memory ran out",
        TraceError::ReadFault => "it could not be read",
    }
}

/// A refused trace, with what is wrong with it in words.
#[derive(Clone, Copy, Debug, PartialEq, Eq, Error)]
#[error("trace {0}: {1}")]
struct ExplainedTrace(TraceError, &'static str);

/// Writes the fault line of a refused trace, with what is wrong with it, and returns the program's status, 1.
fn trace_fault<E: Sink>(faults: &mut E, error: TraceError) -> u8
    requires { E.has_failed faults.old ≡ false }
    ensures status { result ≡ 1 }
    ensures told { TellsLine Program.PrecopyView None (E.contents faults.old) (E.contents faults.new)
        (E.has_failed faults.new) }
{
    let explained = ExplainedTrace(error, cause_of(&error));
    job_commands::fault(Program::PrecopyView, &explained, faults)
}

/// Writes the fault line of an error, and returns the error's status, 1. It allocates nothing.
pub(crate) fn fault<E: Sink>(faults: &mut E, error: &ShowError) -> u8
    requires { E.has_failed faults.old ≡ false }
    ensures status { result ≡ 1 }
    ensures told { TellsShow error.now (E.contents faults.old) (E.contents faults.new) (E.has_failed faults.new) }
{
    match error {
        ShowError::Trace(trace) => trace_fault(faults, *trace),
        ShowError::Memory => known_fault(Program::PrecopyView, "memory", faults),
        ShowError::Write => known_fault(Program::PrecopyView, "write", faults),
        ShowError::PageSize(_) => job_commands::fault(Program::PrecopyView, error, faults),
        ShowError::TooManyPages(_) => job_commands::fault(Program::PrecopyView, error, faults),
        ShowError::View(_) => job_commands::fault(Program::PrecopyView, error, faults),
    }
}

/// Writes why words make no view, and returns the program's status.
pub fn refuse<K: Sink, E: Sink>(error: ViewWordsError, sink: &mut K, faults: &mut E) -> u8
    requires unwritten { K.has_failed sink.old ≡ false }
    requires untold { E.has_failed faults.old ≡ false }
    ensures status { result ≤ 2 }
    ensures flushed { result ≡ 0 → K.is_flushed sink.new ≡ true }
    ensures help { result ≡ 0 → (text : List ℕ) × IsHelpOf error text
        × Appends (K.contents sink.old) (K.contents sink.new) text }
    ensures refused { result ≡ 2 → IsRefusal error × (sink.new ≡ sink.old) }
    // Each status but 0 is told.
    ensures told { (1 ≤ result) → TellsViewWords error (E.contents faults.old) (E.contents faults.new)
        (E.has_failed faults.new) }
    ensures untold { result ≡ 0 → faults.new ≡ faults.old }
    // Help that could not be written, or memory that ran out.
    ensures failed { result ≡ 1 → ((text : List ℕ) × IsHelpOf error text × (K.has_failed sink.new ≡ true)
        × IsTold (write_line Program.PrecopyView) (E.contents faults.old) (E.contents faults.new)
        (E.has_failed faults.new) × AppendsPart (K.contents sink.old) (K.contents sink.new) text)
        ⊎ ((sink.new ≡ sink.old) × IsTold (memory_line Program.PrecopyView) (E.contents faults.old)
        (E.contents faults.new) (E.has_failed faults.new)) }
{
    match error {
        ViewWordsError::Words(error) => {
            job_commands::refuse(Program::PrecopyView, error, sink, faults)
        }
        ViewWordsError::Limits(refusal) => {
            tell_line(Program::PrecopyView, &refusal, faults);
            2
        }
    }
}
