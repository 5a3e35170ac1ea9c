//! What an event returns.

/// The answer to an event.
#[derive(Clone, Copy, Debug, PartialEq, Eq)]
pub enum Answer {
    /// To a store, a mark and a restore.
    Done,
    /// To a harvest and a peek: the word's marked pages, the lowest bit first.
    Pages(u64),
    /// To a read: the page's place.
    Place(u32),
}
