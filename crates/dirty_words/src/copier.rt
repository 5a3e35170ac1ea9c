//! A copier's seat: it harvests the marks of its words, restores and reads the pages that it holds.

ghost use Rattle.std.specs.Prelude.{◌≡◌, ◌↔◌, ◌<◌, ℕ, [], IsTrue, IsFalse, IfOk, false, replicate, slice_index};
ghost use Rattle.std.specs.Prelude.{bit_and, ◌^◌};
ghost use Rattle.page_bitmap.specs.Pages.{in_words, word_pages, bit_pages, one_page, union, minus, IsWithin, SamePages};
ghost use Rattle.dirty_words.specs.Facts.{first_copier, OwnsWord, CopyFits, HoldsNone, after_harvest, after_peek};
ghost use Rattle.dirty_words.specs.Facts.{after_restore, after_read};
ghost use Rattle.dirty_words.specs.Plays.{lone_copier, IsAnswer, MakesFresh, IsOver};
ghost use Rattle.dirty_words.specs.Seats.{copy_view, copy_table};

use crate::rule::{Harvests, Peeks, Reads, Restores, View};
use crate::table::RoundTable;
use atomic_table::Seat;
use dirty_core::Opening;
use std::alloc::{AllocError, Global};
use std::marker::Model;

/// The seat of one copier of a table. To a contract it is which table it is of, and what the copier did there.
#[derive(Drop)]
pub struct CopySeat {
    seat: Seat<u8, View>,
    number: usize,
    copiers: usize,
    /// The pages that are held, by dirty words.
    held: Vec<u64>,
}

impl Model for CopySeat {
    ghost use Rattle.dirty_words.specs.Seats.{CopyView};

    ghost Value = { CopyView };

    ghost use Rattle.dirty_words.specs.Seats.{copy_view};
    ghost use Rattle.dirty_words.specs.Plays.{copier_in};
    ghost use Rattle.dirty_words.specs.Invariants.{IsCopySeat};

    ghost view = { λ s. copy_view s.seat.table_id (copier_in s.seat.me.0) };

    ghost invariant = { IsCopySeat };
}

/// Returns `count` words of no pages.
fn empty_words(alloc: Global, count: usize) -> Result<Vec<u64>, AllocError>
    ensures { IfOk result (λ words. words.items ≡ replicate count 0) }
{
    vec![in alloc; 0u64; count]
}

/// Returns whether any bit of these words is set.
fn has_bits(words: &[u64]) -> bool
    ensures { IsFalse result ↔ ((page : ℕ) → in_words words.now page ≡ false) }
{
    for bits in words {
        if *bits != 0 {
            return true;
        }
    }
    false
}

impl CopySeat {
    /// Returns the seat of a copier that has done nothing yet.
    pub(crate) fn first(
        alloc: Global,
        seat: Seat<u8, View>,
        opening: &Opening,
        number: usize,
    ) -> Result<CopySeat, AllocError>
        requires alone { seat.me ≡ (lone_copier (first_copier opening.now number), []) }
        requires number { number < opening.now.copiers }
        ensures { IfOk result (λ copier. copier ≡ copy_view seat.table_id (first_copier opening.now number)) }
    {
        let held = empty_words(alloc, opening.dirty().len())?;
        Ok(CopySeat {
            seat,
            number,
            copiers: opening.copiers(),
            held,
        })
    }

    /// Returns the seat that steps on the table.
    pub(crate) fn into_seat(self) -> Seat<u8, View>
        ensures table { result.table_id ≡ self.id }
        ensures alone { result.me ≡ (lone_copier self.facts, []) }
    {
        let CopySeat {
            seat,
            number: _,
            copiers: _,
            held: _,
        } = self;
        seat
    }

    /// Returns the copier's number, from 0.
    pub fn number(&self) -> usize
        ensures number { result ≡ self.now.facts.number }
        ensures fits { CopyFits self.now.facts }
    {
        self.number
    }

    /// Returns whether the dirty word exists and is the copier's.
    pub fn owns(&self, word: usize) -> bool
        ensures { IsTrue result ↔ OwnsWord self.now.facts word }
    {
        word < self.held.len() && word % self.copiers == self.number
    }

    /// Returns the pages of a word that are held, the lowest bit first.
    pub fn held(&self, word: usize) -> u64
        requires { OwnsWord self.now.facts word }
        ensures bits { result ≡ slice_index self.now.facts.held word }
        ensures within { (bits : ℕ) → bits < 2 ^ 64
            → bit_and result bits ≡ bits → IsWithin (bit_pages word bits) (in_words self.now.facts.held) }
    {
        self.held[word]
    }

    /// Returns whether any page is held.
    pub fn holds(&self) -> bool
        ensures { IsFalse result ↔ HoldsNone self.now.facts }
    {
        has_bits(&self.held)
    }

    /// Takes the marked pages of a word, and holds each until it is read or restored: one swap of the word with 0.
    /// Returns the pages, the lowest bit first.
    pub fn harvest(&mut self, table: &RoundTable, word: usize) -> u64
        requires table { copy_table self.old ≡ table.now }
        requires own { OwnsWord self.old.facts word }
        ensures table { copy_table self.new ≡ copy_table self.old }
        ensures facts { self.new.facts ≡ after_harvest word result self.old.facts }
        ensures answer { IsAnswer self.old.facts word result }
        ensures held { SamePages (in_words self.new.facts.held)
            (union (in_words self.old.facts.held) (bit_pages word result)) }
        ensures returned { SamePages (in_words self.new.facts.returned)
            (minus (in_words self.old.facts.returned) (word_pages word)) }
        ensures fresh { MakesFresh self.old.facts word result self.new.facts }
    {
        let bits = table.table.shared.swap::<Harvests>(&mut self.seat, word, 0);
        self.held[word] |= bits;
        bits
    }

    /// Returns the marked pages of a word, the lowest bit first, and leaves them marked: one load of the word. It is
    /// the peek of Clark and others (2005), section 5.4.
    pub fn peek(&mut self, table: &RoundTable, word: usize) -> u64
        requires table { copy_table self.old ≡ table.now }
        requires own { OwnsWord self.old.facts word }
        ensures table { copy_table self.new ≡ copy_table self.old }
        ensures facts { self.new.facts ≡ after_peek word result self.old.facts }
        ensures answer { IsAnswer self.old.facts word result }
        ensures fresh { MakesFresh self.old.facts word result self.new.facts }
    {
        table.table.shared.load::<Peeks>(&mut self.seat, word)
    }

    /// Marks held pages of a word again, and holds them no longer: one fetch-or of the word.
    pub fn restore(&mut self, table: &RoundTable, word: usize, bits: u64)
        requires table { copy_table self.old ≡ table.now }
        requires own { OwnsWord self.old.facts word }
        requires held { IsWithin (bit_pages word bits) (in_words self.old.facts.held) }
        ensures table { copy_table self.new ≡ copy_table self.old }
        ensures facts { self.new.facts ≡ after_restore word bits self.old.facts }
        ensures held { SamePages (in_words self.new.facts.held)
            (minus (in_words self.old.facts.held) (bit_pages word bits)) }
        ensures returned { SamePages (in_words self.new.facts.returned)
            (union (in_words self.old.facts.returned) (bit_pages word bits)) }
    {
        let shared = &table.table.shared;
        shared.fetch_or::<Restores>(&mut self.seat, word, bits);
        self.held[word] &= !bits;
    }

    /// Returns the place of a held page, and holds it no longer: one load of the page's word.
    pub fn read(&mut self, table: &RoundTable, page: u32) -> u32
        requires table { copy_table self.old ≡ table.now }
        requires held { IsTrue (in_words self.old.facts.held page) }
        ensures table { copy_table self.new ≡ copy_table self.old }
        ensures facts { self.new.facts ≡ after_read page result self.old.facts }
        ensures held { SamePages (in_words self.new.facts.held) (minus (in_words self.old.facts.held) (one_page page)) }
        ensures over { IsOver self.old.facts page result }
    {
        let word = table.dirty.len() + page as usize;
        let place = table.table.shared.load::<Reads>(&mut self.seat, word);
        self.held[(page / 64) as usize] &= !(1 << (page % 64));
        place as u32
    }
}
