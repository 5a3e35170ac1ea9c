//! Moves of guests, and when they run.

/// The move of a guest. Times are in one unit throughout.
#[derive(Clone, Copy, Debug, PartialEq, Eq)]
pub struct Move {
    /// How long it takes.
    pub time: u64,
    /// How many bytes it sends.
    pub bytes: u64,
    /// How long the guest does not run.
    pub downtime: u64,
    /// Whether the guest's limits are kept.
    pub is_kept: bool,
    /// The group of which one guest moves at a time, if it is in one.
    pub group: Option<u64>,
}

/// When a move runs, and in which slot.
#[derive(Clone, Copy, Debug, PartialEq, Eq)]
pub struct Placement {
    /// The slot, from 0.
    pub slot: usize,
    /// The group of the guest.
    pub group: Option<u64>,
    /// When it begins; the first begin at 0.
    pub start: u128,
    /// When it ends.
    pub end: u128,
}
