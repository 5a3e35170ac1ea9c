//! What a migration may cost.

/// What a migration may cost.
#[derive(Clone, Copy, Debug, PartialEq, Eq)]
pub struct Budget {
    /// The most downtime, in ticks.
    pub down: u64,
    /// The most pages sent, over all rounds and after the stop; none if any number will do.
    pub total: Option<u64>,
}
