//! Why settings are refused.

use thiserror::Error;

/// Why settings are refused: the setting that is out of its range. An error is written as that setting's name. If
/// several settings are out of range, the error is the first in this order.
#[derive(Clone, Copy, Debug, PartialEq, Eq, Error)]
pub enum LookSettingsError {
    /// The rate is not 1 to 1,000,000 pages per 1,000 ticks.
    #[error("rate")]
    Rate,
    /// The window is longer than 2^40 ticks.
    #[error("window")]
    Window,
    /// The threshold is not 1 to 65,536 pages.
    #[error("threshold")]
    Threshold,
    /// The greatest number of looks is 0.
    #[error("looks")]
    Looks,
    /// The record ends after tick 2^40.
    #[error("end")]
    End,
    /// The record ends before the first tick.
    #[error("start")]
    Start,
    /// The base comes after the first tick.
    #[error("base")]
    Base,
}
