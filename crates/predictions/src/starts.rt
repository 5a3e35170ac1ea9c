//! The same migration begun at many ticks: what it costs from each, and which start is the best and which the worst.

mod best;
mod cases;
mod choosing;
mod error;
mod planned;
mod range_text;
mod ranges;
mod spread;
mod starting;
mod table;

pub use best::best_start;
pub use cases::Starts;
pub use choosing::{is_better_known, is_likely, is_worse_known, known_starts, worst_start};
pub use error::StartsError;
pub use planned::{PlannedCase, cases_by, cases_of_lines};
pub use range_text::push_ranges;
pub use ranges::{CostNumbers, StartRanges, ranges_over};
pub use spread::spread_cases;
pub(crate) use spread::{spread_case, spread_count};
pub use starting::{StartCost, start_costs};
pub use table::{push_cell, push_right, push_spread, starts_text};
