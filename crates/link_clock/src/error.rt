//! Why a link is refused.

use thiserror::Error;

/// Why a link is refused: the first thing that is out of its range.
#[derive(Clone, Copy, Debug, PartialEq, Eq, Error)]
pub enum LinkError {
    /// The rate is not 1 to 1,000,000 pages per 1,000 ticks.
    #[error("rate")]
    Rate,
    /// This change, counted from 0, comes before the one before it or after tick 2^40, or its rate is 0 or above that
    /// of the link.
    #[error("change {0}")]
    Change(usize),
}
