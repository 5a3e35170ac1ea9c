//! The sums of a plan.

use crate::parts::PlanEnd;

/// The sums of a hypervisor's plan.
#[derive(Clone, Copy, Debug, PartialEq, Eq)]
pub struct LookSums {
    /// Why the plan ends.
    pub end: PlanEnd,
    /// How many looks there are.
    pub looks: u64,
    /// The tick at which the guest is stopped, or the record ends.
    pub stop: u64,
    /// How many pages are sent, over all lists and after the stop.
    pub total: u64,
    /// How many of them are left at the stop.
    pub left: u64,
    /// The downtime: how many ticks it takes to send these.
    pub down: u64,
    /// Whether the last list has fewer pages than each list before it but the first.
    pub shortens: bool,
}
