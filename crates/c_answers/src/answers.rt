//! What calls return.

ghost use Rattle.std.specs.Prelude.{◌≡◌, ◌≤◌};
ghost use Rattle.c_answers.specs.Answers.{number_of_frame};
ghost use Rattle.c_answers.specs.declared.answers.Refusal.TheVariants.{Frame as OfFrame, Memory as OutOfMemory};
ghost use Rattle.c_answers.specs.declared.answers.Refusal.TheVariants.{Settings as OfSettings, Trace as OfTrace};

use c_layout::{refuse_trace, settings_number, trace_number};
use page_message::FrameError;
use rate_limit::SettingsError;
use round_planner::PlanError;
use std::alloc::{AllocError, AllocFailed};
use sweep_report::SweepError;
use trace_codec::TraceError;
use working_sets::TablesError;

/// Why a call refuses.
#[derive(Clone, Copy)]
pub enum Refusal {
    /// The bytes are not a trace, or no guest has these sizes.
    Trace(TraceError),
    /// The settings are out of range.
    Settings(SettingsError),
    /// The struct of the settings is longer or shorter than this library knows it.
    SettingsSize,
    /// The bytes begin with no frame, or a page has no frame.
    Frame(FrameError),
    /// Memory ran out.
    Memory,
    /// A buffer is too short for what belongs there.
    ShortBuffer,
    /// The number of bytes is not that of a page.
    PageLength,
    /// The number of bytes of memory is not that of all pages.
    MemoryLength,
    /// There is not a state for each page.
    PageCount,
    /// A page did not come.
    PageMissing,
}

impl From<TraceError> for Refusal {
    ghost from_gives = { λ e r. r ≡ OfTrace e };

    fn from(error: TraceError) -> Refusal {
        Refusal::Trace(error)
    }
}

impl From<SettingsError> for Refusal {
    ghost from_gives = { λ e r. r ≡ OfSettings e };

    fn from(error: SettingsError) -> Refusal {
        Refusal::Settings(error)
    }
}

impl From<FrameError> for Refusal {
    ghost from_gives = { λ e r. r ≡ OfFrame e };

    fn from(error: FrameError) -> Refusal {
        Refusal::Frame(error)
    }
}

impl From<AllocError> for Refusal {
    ghost from_gives = { λ _ r. r ≡ OutOfMemory };

    fn from(_error: AllocError) -> Refusal {
        Refusal::Memory
    }
}

impl<T: Drop> From<AllocFailed<T>> for Refusal {
    ghost from_gives = { λ _ r. r ≡ OutOfMemory };

    fn from(_error: AllocFailed<T>) -> Refusal {
        Refusal::Memory
    }
}

impl From<PlanError> for Refusal {
    ghost from_gives = { λ _ r. r ≡ OutOfMemory };

    fn from(_error: PlanError) -> Refusal {
        Refusal::Memory
    }
}

impl From<TablesError> for Refusal {
    ghost from_gives = { λ _ r. r ≡ OutOfMemory };

    fn from(_error: TablesError) -> Refusal {
        Refusal::Memory
    }
}

impl From<SweepError> for Refusal {
    ghost from_gives = { λ _ r. r ≡ OutOfMemory };

    fn from(_error: SweepError) -> Refusal {
        Refusal::Memory
    }
}

/// Returns the number of a refusal of a frame.
fn frame_number(error: FrameError) -> u32
    ensures number { result ≡ number_of_frame error }
    ensures some { 1 ≤ result }
{
    match error {
        FrameError::Short => 41,
        FrameError::Page => 42,
        FrameError::Stamp => 43,
        FrameError::Kind => 44,
        FrameError::ZeroData => 45,
        FrameError::Memory => 16,
    }
}

impl Refusal {
    ghost use Rattle.std.specs.Prelude.{◌≡◌, ◌≤◌};
    ghost use Rattle.c_answers.specs.Answers.{number_of, record_told};

    /// Returns the number that C sees.
    pub fn number(self) -> u32
        ensures number { result ≡ number_of self }
        ensures some { 1 ≤ result }
    {
        match self {
            Refusal::Trace(error) => trace_number(error),
            Refusal::Settings(error) => settings_number(error),
            Refusal::SettingsSize => 31,
            Refusal::Frame(error) => frame_number(error),
            Refusal::Memory => 16,
            Refusal::ShortBuffer => 61,
            Refusal::PageLength => 62,
            Refusal::MemoryLength => 63,
            Refusal::PageCount => 64,
            Refusal::PageMissing => 65,
        }
    }

    /// Tells C of this refusal: sets `record` to the record that it names, if it names one, and returns its number.
    pub fn told(self, record: &mut u32) -> u32
        ensures number { result ≡ number_of self }
        ensures some { 1 ≤ result }
        ensures record { record.new ≡ record_told self record.old }
    {
        match self {
            Refusal::Trace(error) => refuse_trace(error, record),
            other => other.number(),
        }
    }
}
