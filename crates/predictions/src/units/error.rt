//! Why limits make no settings.

use rate_limit::SettingsError;
use thiserror::Error;

/// Why limits make no settings: the option that is out of its range. If several are, it is the first in this order.
#[derive(Clone, Copy, Debug, PartialEq, Eq, Error)]
pub enum UnitsError {
    /// A tick is not 1 microsecond to 1 second.
    #[error("--tick: a tick is 1us to 1s")]
    Tick,
    /// A page is not 16 to 4,096 bytes.
    #[error("--page: a page has 16 to 4,096 bytes")]
    Page,
    /// No page was sampled, more than the guest has, or the guest has more than `2^32`.
    #[error("--sampled: M of P pages, where M is 1 to P, and P at most 2^32")]
    Sampled,
    /// The rate of the link is not 1 to 1,000,000 pages per 1,000 ticks.
    #[error("--link: the rate is not 1 to 1,000,000 pages per 1,000 ticks; take another --tick")]
    Link,
    /// The rate of the first round is not 1 page per 1,000 ticks to the rate of the link.
    #[error("--first: the rate is not 1 page per 1,000 ticks to that of --link")]
    First,
    /// What is reserved is more than the downtime.
    #[error("--reserve: it is longer than --downtime")]
    Reserve,
    /// More than 65,535 pages go over the link within the downtime.
    #[error("--downtime: more than 65,535 pages go over the link in it")]
    Downtime,
    /// Another setting is out of its range.
    #[error("settings {0}")]
    Setting(SettingsError),
}
