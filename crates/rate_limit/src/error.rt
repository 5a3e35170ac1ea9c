//! Why settings are refused.

use thiserror::Error;

/// Why settings are refused: the setting that is out of its range. An error is written as its name in fault lines. If
/// several settings are out of range, the error is the first in this order.
#[derive(Clone, Copy, Debug, PartialEq, Eq, Error)]
pub enum SettingsError {
    /// The least rate is not 1 to 1,000,000 pages per 1,000 ticks.
    #[error("S1")]
    MinRate,
    /// The greatest rate is not the least rate to 1,000,000 pages per 1,000 ticks.
    #[error("S2")]
    MaxRate,
    /// The increment is more than 1,000,000 pages per 1,000 ticks.
    #[error("S3")]
    Increment,
    /// The threshold is not 1 to 65,536 pages.
    #[error("S4")]
    Threshold,
    /// The greatest number of rounds is not 1 to 64.
    #[error("S5")]
    Rounds,
    /// The length of a window is not 1 to 2^40 ticks.
    #[error("S6")]
    WindowLength,
    /// The number of windows that makes a page hot is not 1 to 1,048,576.
    #[error("S7")]
    HotWindows,
    /// The first tick is 2^40 or more.
    #[error("S8")]
    StartTick,
    /// The workers, streams or replayers are not 1 to 16, or the frames of a lane not 1 to 65,536.
    #[error("S9")]
    Parallelism,
    /// The base comes after the first tick.
    #[error("S10")]
    BaseTick,
}
