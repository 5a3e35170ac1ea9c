//! A guest's seat: it stores the places of its pages, and marks each page after its store.

ghost use Rattle.std.specs.Prelude.{◌≡◌, ◌≢◌, ◌↔◌, ◌<◌, ℕ, [], None, Some, IsSome, IsTrue, IfOk};
ghost use Rattle.dirty_words.specs.Facts.{first_guest, last_place, OwnsPage, after_store, after_mark, GuestFits};
ghost use Rattle.dirty_words.specs.Seats.{guest_view, guest_table};
ghost use Rattle.dirty_words.specs.Plays.{lone_guest};

use crate::rule::{Marks, Stores, View};
use crate::table::RoundTable;
use atomic_table::Seat;
use dirty_core::Opening;
use std::alloc::{AllocError, Global};
use std::marker::Model;

/// The seat of one guest of a table. To a contract it is which table it is of, and what the guest did there.
#[derive(Drop)]
pub struct GuestSeat {
    seat: Seat<u8, View>,
    number: usize,
    guests: usize,
    /// The last place of each page. Those of other guests' pages stay as at opening.
    last: Vec<u32>,
    pending: Option<u32>,
}

impl Model for GuestSeat {
    ghost use Rattle.dirty_words.specs.Seats.{GuestView};

    ghost Value = { GuestView };

    ghost use Rattle.dirty_words.specs.Seats.{guest_view};
    ghost use Rattle.dirty_words.specs.Plays.{guest_in};
    ghost use Rattle.dirty_words.specs.Invariants.{IsGuestSeat};

    ghost view = { λ s. guest_view s.seat.table_id (guest_in s.seat.me.0) };

    ghost invariant = { IsGuestSeat };
}

impl GuestSeat {
    /// Returns the seat of a guest that has done nothing yet.
    pub(crate) fn first(
        alloc: Global,
        seat: Seat<u8, View>,
        opening: &Opening,
        number: usize,
    ) -> Result<GuestSeat, AllocError>
        requires alone { seat.me ≡ (lone_guest (first_guest opening.now number), []) }
        requires number { number < opening.now.guests }
        ensures { IfOk result (λ guest. guest ≡ guest_view seat.table_id (first_guest opening.now number)) }
    {
        let last = Vec::from_slice(alloc, opening.places())?;
        Ok(GuestSeat {
            seat,
            number,
            guests: opening.guests(),
            last,
            pending: None,
        })
    }

    /// Returns the seat that steps on the table.
    pub(crate) fn into_seat(self) -> Seat<u8, View>
        ensures table { result.table_id ≡ self.id }
        ensures alone { result.me ≡ (lone_guest self.facts, []) }
    {
        let GuestSeat {
            seat,
            number: _,
            guests: _,
            last: _,
            pending: _,
        } = self;
        seat
    }

    /// Returns the guest's number, from 0.
    pub fn number(&self) -> usize
        ensures number { result ≡ self.now.facts.number }
        ensures fits { GuestFits self.now.facts }
    {
        self.number
    }

    /// Returns whether the page exists and is the guest's.
    pub fn owns(&self, page: u32) -> bool
        ensures { IsTrue result ↔ OwnsPage self.now.facts page }
    {
        let page = page as usize;
        page < self.last.len() && page % self.guests == self.number
    }

    /// Returns the page that was stored and is not marked yet.
    pub fn pending(&self) -> Option<u32>
        ensures { result ≡ self.now.facts.pending }
    {
        self.pending
    }

    /// Returns the place of the page's last store, or the opening's.
    pub fn last(&self, page: u32) -> u32
        requires { OwnsPage self.now.facts page }
        ensures { result ≡ last_place self.now.facts page }
    {
        self.last[page as usize]
    }

    /// Stores a page's place, which must be above the last one: one store to the page's word. The page is then pending.
    pub fn advance(&mut self, table: &RoundTable, page: u32, place: u32)
        requires table { guest_table self.old ≡ table.now }
        requires own { OwnsPage self.old.facts page }
        requires free { self.old.facts.pending ≡ None }
        requires over { last_place self.old.facts page < place }
        ensures table { guest_table self.new ≡ guest_table self.old }
        ensures facts { self.new.facts ≡ after_store page place self.old.facts }
        ensures last { last_place self.new.facts page ≡ place }
        ensures others { (other : ℕ) → other ≢ page
            → last_place self.new.facts other ≡ last_place self.old.facts other }
    {
        let index = page as usize;
        let word = table.dirty.len() + index;
        let shared = &table.table.shared;
        shared.store::<Stores>(&mut self.seat, word, u64::from(place));
        self.last[index] = place;
        self.pending = Some(page);
    }

    /// Marks the pending page: one fetch-or of its dirty word.
    pub fn mark(&mut self, table: &RoundTable)
        requires table { guest_table self.old ≡ table.now }
        requires pending { IsSome self.old.facts.pending }
        ensures table { guest_table self.new ≡ guest_table self.old }
        ensures facts { self.new.facts ≡ after_mark self.old.facts }
    {
        if let Some(page) = self.pending {
            let word = (page / 64) as usize;
            let bit = 1u64 << (page % 64);
            let shared = &table.table.shared;
            shared.fetch_or::<Marks>(&mut self.seat, word, bit);
            self.pending = None;
        }
    }
}
