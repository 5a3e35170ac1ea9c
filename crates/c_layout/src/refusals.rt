//! Numbers of refusals.

ghost use Rattle.std.specs.Prelude.{◌≡◌, ◌≤◌};
ghost use Rattle.c_layout.specs.Refusals.{number_of_misfit, number_of_settings, number_of_trace, number_of_units};
ghost use Rattle.c_layout.specs.Refusals.{record_after, record_in};

use predictions::Misfit;
use predictions::units::UnitsError;
use rate_limit::SettingsError;
use trace_codec::TraceError;

/// Returns the number of a refusal of a trace.
pub fn trace_number(error: TraceError) -> u32
    ensures number { result ≡ number_of_trace error }
    ensures some { 1 ≤ result }
{
    match error {
        TraceError::ShortHeader => 1,
        TraceError::BadMagic => 2,
        TraceError::BadVersion => 3,
        TraceError::BadShift => 4,
        TraceError::BadReserved => 5,
        TraceError::BadPages => 6,
        TraceError::TooManyWrites => 7,
        TraceError::ShortRecord(_) => 8,
        TraceError::TickOrder(_) => 9,
        TraceError::TickTooLarge(_) => 10,
        TraceError::PageOutOfRange(_) => 11,
        TraceError::EmptyWrite(_) => 12,
        TraceError::OutOfPage(_) => 13,
        TraceError::TrailingBytes => 14,
        TraceError::TooLong => 15,
        TraceError::Memory => 16,
        TraceError::ReadFault => 17,
    }
}

/// Returns the record that a refusal names.
fn record_of(error: TraceError) -> Option<u32>
    ensures { result ≡ record_in error }
{
    match error {
        TraceError::ShortRecord(record) => Some(record),
        TraceError::TickOrder(record) => Some(record),
        TraceError::TickTooLarge(record) => Some(record),
        TraceError::PageOutOfRange(record) => Some(record),
        TraceError::EmptyWrite(record) => Some(record),
        TraceError::OutOfPage(record) => Some(record),
        _ => None,
    }
}

/// Tells a caller of a refused trace: sets `record` to the record that is named, if one is, and returns the number of
/// the refusal.
pub fn refuse_trace(error: TraceError, record: &mut u32) -> u32
    ensures number { result ≡ number_of_trace error }
    ensures some { 1 ≤ result }
    ensures record { record.new ≡ record_after error record.old }
{
    if let Some(number) = record_of(error) {
        *record = number;
    }
    trace_number(error)
}

/// Returns the number of a refusal of settings.
pub fn settings_number(error: SettingsError) -> u32
    ensures number { result ≡ number_of_settings error }
    ensures some { 1 ≤ result }
{
    match error {
        SettingsError::MinRate => 21,
        SettingsError::MaxRate => 22,
        SettingsError::Increment => 23,
        SettingsError::Threshold => 24,
        SettingsError::Rounds => 25,
        SettingsError::WindowLength => 26,
        SettingsError::HotWindows => 27,
        SettingsError::StartTick => 28,
        SettingsError::Parallelism => 29,
        SettingsError::BaseTick => 30,
    }
}

/// Returns the number of a refusal of a question.
pub fn units_number(error: UnitsError) -> u32
    ensures number { result ≡ number_of_units error }
    ensures some { 1 ≤ result }
{
    match error {
        UnitsError::Tick => 81,
        UnitsError::Page => 82,
        UnitsError::Sampled => 83,
        UnitsError::Link => 84,
        UnitsError::First => 85,
        UnitsError::Reserve => 86,
        UnitsError::Downtime => 87,
        UnitsError::Setting(error) => settings_number(error),
    }
}

/// Returns the number of a trace that does not have the question's scale.
pub fn misfit_number(error: Misfit) -> u32
    ensures number { result ≡ number_of_misfit error }
    ensures some { 1 ≤ result }
{
    match error {
        Misfit::PageSize => 88,
        Misfit::TooManyPages => 89,
    }
}
