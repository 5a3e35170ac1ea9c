//! What is asked of the draws of a sample.

ghost use Rattle.std.specs.Prelude.{◌≡◌, ◌≤◌};
ghost use Rattle.predictions.specs.Agreements.{asked_of_draws, nine_tenths, with_less_link};

use crate::course::Course;
use rate_limit::{Asked, Settings};

/// Returns nine tenths of a rate.
fn nine_tenths(rate: u64) -> u64
    requires { rate ≤ 1_000_000 }
    ensures { result ≡ nine_tenths rate }
{
    (rate * 9 / 10).max(1)
}

/// Returns the settings of a migration with a tenth less of the link.
fn with_less_link(settings: &Settings) -> Settings
    ensures { result ≡ with_less_link settings.now }
{
    let asked = settings.asked();
    let max = nine_tenths(asked.max);
    let less = Asked {
        min: asked.min.min(max),
        max,
        threshold: (asked.threshold * max / asked.max).max(1),
        ..*asked
    };
    let Ok(settings) = Settings::new(less) else {
        unreachable!()
    };
    settings
}

/// Returns the settings of the plans of draws, by what the plan of the sample comes to: with a tenth less of the link
/// if that is a hypervisor's and converges.
pub fn asked_of_draws(course: &Course, settings: &Settings) -> Settings
    ensures { result ≡ asked_of_draws course.now settings.now }
{
    if course.ending.is_bounded() {
        with_less_link(settings)
    } else {
        *settings
    }
}
