//! The best start of a migration.

ghost use Rattle.std.specs.Prelude.{◌≡◌};
ghost use Rattle.c_layout.specs.Starts.{best_errors};
ghost use Rattle.predictions.specs.Questions.{error_numbers};

use crate::numbers::{capped, verdict_number};
use predictions::ErrorNumbers;
use predictions::redrawn::Errors;
use predictions::starts::{StartCost, is_likely};

/// The best of some starts, and what the migration costs from there: C's `struct precopy_best_start`.
#[derive(Clone, Copy)]
#[repr(C)]
pub struct BestStartNumbers {
    /// The tick at which it begins.
    pub start: u64,
    /// How many rounds or looks there are.
    pub rounds: u64,
    /// From the start until the guest runs again, in microseconds.
    pub time: u64,
    /// How many bytes of the guest are sent.
    pub bytes: u64,
    /// How long the guest does not run, in microseconds.
    pub downtime: u64,
    /// Whether it keeps the downtime limit: 0 for yes, 1 for no, and 2 if no migration ends within the trace.
    pub kept: u32,
    /// Whether it is likely to: 0 for no, and 1 if the downtime and two standard errors are within the limit.
    pub is_likely: u32,
}

/// Returns the standard errors from the best start, if there is one and they are counted.
fn errors_from(best: &Option<StartCost>) -> Option<Errors>
    ensures { result ≡ best_errors best.now }
{
    match best {
        Some(at) => at.errors,
        None => None,
    }
}

/// Returns the numbers of standard errors from the best start, or zeros.
pub fn best_error_numbers(best: &Option<StartCost>) -> ErrorNumbers
    ensures { result ≡ error_numbers (best_errors best.now) }
{
    ErrorNumbers::new(&errors_from(best))
}

impl BestStartNumbers {
    ghost use Rattle.std.specs.Prelude.{◌≡◌};
    ghost use Rattle.c_layout.specs.Starts.{best_numbers, numbers_from};

    /// The numbers if no migration ends within the trace.
    const NONE: BestStartNumbers = BestStartNumbers {
        start: 0,
        rounds: 0,
        time: 0,
        bytes: 0,
        downtime: 0,
        kept: 2,
        is_likely: 0,
    };

    /// Returns the numbers of the migration from a start.
    fn from_start(limit: u64, at: &StartCost) -> BestStartNumbers
        ensures { result ≡ numbers_from limit at.now }
    {
        let cost = &at.cost;
        BestStartNumbers {
            start: at.start,
            rounds: cost.steps,
            time: capped(cost.time),
            bytes: capped(cost.bytes),
            downtime: capped(cost.downtime),
            kept: verdict_number(cost.kept()),
            is_likely: u32::from(is_likely(limit, at)),
        }
    }

    /// Returns the numbers of the migration from the best start beside a limit, if there is one.
    pub fn new(limit: u64, best: &Option<StartCost>) -> BestStartNumbers
        ensures { result ≡ best_numbers limit best.now }
    {
        match best {
            Some(at) => BestStartNumbers::from_start(limit, at),
            None => BestStartNumbers::NONE,
        }
    }
}
