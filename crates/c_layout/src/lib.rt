//! What the calls for C and those of a web page lay out alike, so that both lists of calls read it from one place.
#![tactic(auto)]

mod forecasts;
mod numbers;
mod refusals;
mod settings;
mod shares;
mod starts;
mod sums;

pub use forecasts::ForecastNumbers;
pub use refusals::{misfit_number, refuse_trace, settings_number, trace_number, units_number};
pub use settings::PlanSettings;
pub use shares::ShareNumbers;
pub use starts::{BestStartNumbers, best_error_numbers};
pub use sums::PlanSums;
