//! What happens to a core.

/// One event of a core. Guests and copiers have numbers, a word has its index among the dirty words, and `bits` are
/// pages of a word, the lowest bit first.
#[derive(Clone, Copy, Debug, PartialEq, Eq)]
pub enum Event {
    /// A guest stores one of its pages at a place.
    Store {
        guest: usize,
        page: u32,
        place: u32,
    },
    /// A guest marks the page that it stored.
    Mark {
        guest: usize,
    },
    /// A copier takes the marked pages of a word, and holds each until it reads or restores it.
    Harvest {
        copier: usize,
        word: usize,
    },
    /// A copier looks at the marked pages of a word and leaves them marked (the peek of Clark and others 2005, section
    /// 5.4).
    Peek {
        copier: usize,
        word: usize,
    },
    /// A copier marks held pages again.
    Restore {
        copier: usize,
        word: usize,
        bits: u64,
    },
    /// A copier reads the place of a page that it holds.
    Read {
        copier: usize,
        page: u32,
    },
}
