//! What a migration comes to like QEMU.

ghost use Rattle.std.specs.Prelude.{◌≡◌};
ghost use Rattle.look_planner.specs.Plans.{end_of};
ghost use Rattle.c_layout.specs.Forecasts.{end_number, kept_number};

use crate::numbers::capped;
use look_planner::PlanEnd;
use predictions::looks::LookForecast;

/// What a migration comes to if its hypervisor goes on as QEMU does: C's `struct precopy_forecast`.
#[derive(Clone, Copy)]
#[repr(C)]
pub struct ForecastNumbers {
    /// How many looks there are.
    pub looks: u64,
    /// From its start until the guest runs again, in microseconds.
    pub time: u64,
    /// How many bytes of the guest are sent, over all lists and after the stop.
    pub bytes: u64,
    /// How many of them are sent after the stop.
    pub left: u64,
    /// How long the guest does not run, in microseconds.
    pub downtime: u64,
    /// Why it ends: 0 if few pages are left, 1 if the trace ends first, and 2 if it begins after the trace.
    pub end: u32,
    /// Whether it keeps the downtime limit: 0 for yes, 1 for no, and 2 if the trace ends first.
    pub kept: u32,
}

/// Returns the number of the end of a plan. No forecast ends since all looks are done.
fn end_number(end: PlanEnd) -> u32
    ensures { result ≡ end_number (end_of end) }
{
    match end {
        PlanEnd::Few => 0,
        PlanEnd::Record => 1,
        PlanEnd::Looks => 3,
    }
}

/// Returns whether a plan that ends so keeps a limit, as a number.
fn kept_number(end: PlanEnd, is_kept: bool) -> u32
    ensures { result ≡ kept_number (end_of end) is_kept }
{
    match end {
        PlanEnd::Record => 2,
        PlanEnd::Few | PlanEnd::Looks => u32::from(!is_kept),
    }
}

impl ForecastNumbers {
    ghost use Rattle.std.specs.Prelude.{◌≡◌};
    ghost use Rattle.c_layout.specs.Forecasts.{forecast_numbers, numbers_with};

    /// The numbers of a migration that begins after the trace.
    const NONE: ForecastNumbers = ForecastNumbers {
        looks: 0,
        time: 0,
        bytes: 0,
        left: 0,
        downtime: 0,
        end: 2,
        kept: 2,
    };

    /// Returns the numbers of a forecast.
    fn with(forecast: &LookForecast) -> ForecastNumbers
        ensures { result ≡ numbers_with forecast.now }
    {
        ForecastNumbers {
            looks: forecast.looks,
            time: capped(forecast.time),
            bytes: capped(forecast.bytes),
            left: capped(forecast.left),
            downtime: capped(forecast.downtime),
            end: end_number(forecast.end),
            kept: kept_number(forecast.end, forecast.is_kept),
        }
    }

    /// Returns the numbers of a forecast, if the migration does not begin after the trace.
    pub fn new(forecast: &Option<LookForecast>) -> ForecastNumbers
        ensures { result ≡ forecast_numbers forecast.now }
    {
        match forecast {
            Some(forecast) => ForecastNumbers::with(forecast),
            None => ForecastNumbers::NONE,
        }
    }
}
