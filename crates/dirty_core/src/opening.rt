//! What a core opens with.

ghost use Rattle.std.specs.Prelude.{◌≡◌, ◌↔◌, IsSome, IfSome};
ghost use Rattle.dirty_core.specs.Start.{Start, IsStart, start_with};

use page_bitmap::{ends_before, word_count};
use std::marker::Model;

/// The most pages that a guest may have.
pub const MAX_PAGES: usize = 65_536;

/// The most guests and the most copiers that a core may have.
pub const MAX_SEATS: usize = 16;

/// The parts that a core opens with: a place for each page, the dirty words, and how many guests and copiers there
/// are. Each value is one that a core may open with.
#[derive(Debug, Drop)]
pub struct Opening {
    places: Vec<u32>,
    dirty: Vec<u64>,
    guests: usize,
    copiers: usize,
}

impl Model for Opening {
    ghost Value = { Start };

    ghost view = { λ o. start_with o.places.items o.dirty.items o.guests o.copiers };

    ghost invariant = { λ o. IsStart (start_with o.places.items o.dirty.items o.guests o.copiers) };
}

impl Opening {
    /// Returns the opening with these parts, or None if no core may open with them. `places` has one for each page.
    /// `dirty` has a word for each 64 pages begun, page `64 * w` being the lowest bit of word `w`. There are 1 to
    /// 65,536 pages, and 1 to 16 guests and copiers.
    pub fn new(places: Vec<u32>, dirty: Vec<u64>, guests: usize, copiers: usize) -> Option<Opening>
        ensures accepted { IsSome result ↔ IsStart (start_with places.items dirty.items guests copiers) }
        ensures given { IfSome result (λ opening. opening ≡ start_with places.items dirty.items guests copiers) }
    {
        if !(1 <= places.len() && places.len() <= MAX_PAGES) {
            return None;
        }
        if dirty.len() != word_count(places.len()) {
            return None;
        }
        if !ends_before(&dirty, places.len()) {
            return None;
        }
        if !(1 <= guests && guests <= MAX_SEATS) {
            return None;
        }
        if !(1 <= copiers && copiers <= MAX_SEATS) {
            return None;
        }
        Some(Opening {
            places,
            dirty,
            guests,
            copiers,
        })
    }

    /// Returns the place of each page.
    pub fn places(&self) -> &[u32]
        ensures places { result.now ≡ self.now.places }
        ensures start { IsStart self.now }
    {
        &self.places
    }

    /// Returns the marked pages by words.
    pub fn dirty(&self) -> &[u64]
        ensures dirty { result.now ≡ self.now.dirty }
        ensures start { IsStart self.now }
    {
        &self.dirty
    }

    /// Returns how many guests there are.
    pub fn guests(&self) -> usize
        ensures guests { result ≡ self.now.guests }
        ensures start { IsStart self.now }
    {
        self.guests
    }

    /// Returns how many copiers there are.
    pub fn copiers(&self) -> usize
        ensures copiers { result ≡ self.now.copiers }
        ensures start { IsStart self.now }
    {
        self.copiers
    }

    /// Returns the places and the marked pages, as they were given.
    pub fn into_parts(self) -> (Vec<u32>, Vec<u64>)
        ensures places { result.0.items ≡ self.places }
        ensures dirty { result.1.items ≡ self.dirty }
        ensures start { IsStart self }
    {
        let Opening {
            places,
            dirty,
            guests: _,
            copiers: _,
        } = self;
        (places, dirty)
    }
}
