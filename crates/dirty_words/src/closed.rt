//! What a closed table leaves.

ghost use Rattle.std.specs.Prelude.{◌↔◌, ◌≤◌, IsTrue, All};
ghost use Rattle.dirty_words.specs.Closing.{FitsPages};

use page_bitmap::{ends_before, word_count};
use std::marker::Model;

/// The place of each page and the marked pages by words, when all seats have come back.
#[derive(Debug, Drop)]
pub struct Closed {
    /// The place of each page.
    pub versions: Vec<u32>,
    /// A word for each 64 pages begun, page `64 * w` being the lowest bit of word `w`.
    pub dirty: Vec<u64>,
}

impl Model for Closed {
    ghost use Rattle.dirty_words.specs.Seats.{ClosedView};

    ghost Value = { ClosedView };

    ghost use Rattle.dirty_words.specs.Seats.{closed_view};

    ghost view = { λ c. closed_view c.versions.items c.dirty.items };
}

/// Returns whether no version is above `writes`.
fn none_above(versions: &[u32], writes: u32) -> bool
    ensures { IsTrue result ↔ All (λ version. version ≤ writes) versions.now }
{
    versions.iter().all(|version| *version <= writes)
}

impl Closed {
    /// Returns whether a table of `pages` pages may leave this after `writes` writes: a version for each page, none
    /// above `writes`, a dirty word for each 64 pages begun, and no bit past the last page.
    pub fn fits(&self, pages: u32, writes: u32) -> bool
        ensures { IsTrue result ↔ FitsPages self.now pages writes }
    {
        let pages = pages as usize;
        self.versions.len() == pages
            && none_above(&self.versions, writes)
            && self.dirty.len() == word_count(pages)
            && (pages == 0 || ends_before(&self.dirty, pages))
    }
}
