//! The table that all seats step on.

ghost use Rattle.std.specs.Prelude.{◌≡◌, IfOk};
ghost use Rattle.dirty_core.specs.Start.{IsStart, start_with};
ghost use Rattle.dirty_words.specs.Closing.{first_guests, first_copiers, AllGuests, AllCopiers, IsLeftByEvents};
ghost use Rattle.dirty_words.specs.Closing.{EachPageLeft};

use crate::closed::Closed;
use crate::closing::{copy_dirty, copy_places, join_copiers, join_guests};
use crate::copier::CopySeat;
use crate::error::TableError;
use crate::guest::GuestSeat;
use crate::opening::{cut_copiers, cut_guests, opening_words};
use crate::rule::{Enters, Shown, View};
use atomic_table::Table;
use dirty_core::Opening;
use std::alloc::Global;
use std::marker::Model;

/// The dirty words of one round, and the place of each page. Threads share it by a `&`. To a contract it is which
/// table it is, and what it opened with.
#[derive(Drop)]
pub struct RoundTable {
    /// The dirty words come first, then a word for the place of each page.
    pub(crate) table: Table<u8, View, Opening, Shown, Global>,
    /// What the table opened with, in which `close` answers.
    pub(crate) places: Vec<u32>,
    pub(crate) dirty: Vec<u64>,
}

impl Model for RoundTable {
    ghost use Rattle.dirty_words.specs.Seats.{TableView};

    ghost Value = { TableView };

    ghost use Rattle.dirty_words.specs.Seats.{table_view};
    ghost use Rattle.dirty_words.specs.Invariants.{IsTable};

    ghost view = { λ t. table_view t.table.shared.table_id t.table.shared.key };

    ghost invariant = { IsTable };
}

/// A new table, with the seats of its guests and of its copiers in order of their numbers.
#[derive(Drop)]
pub struct Opened {
    /// The table, for all threads of the round.
    pub table: RoundTable,
    /// The seat of each guest, by its number.
    pub guests: Vec<GuestSeat>,
    /// The seat of each copier, by its number.
    pub copiers: Vec<CopySeat>,
}

impl RoundTable {
    /// Returns a table with the opening's places and marks, on which nothing has happened. It allocates all memory
    /// that its seats and `close` need; the only error is that memory runs out.
    pub fn open(alloc: Global, opening: Opening) -> Result<Opened, TableError>
        ensures table { IfOk result (λ opened. opened.table.start ≡ opening) }
        ensures guests { IfOk result (λ opened. opened.guests.items ≡ first_guests opened.table) }
        ensures copiers { IfOk result (λ opened. opened.copiers.items ≡ first_copiers opened.table) }
        ensures start { IsStart opening }
    {
        let words = opening_words(alloc, &opening)?;
        let (table, mut seat) = Table::of_words(alloc, &words, &opening)?;
        let guests = cut_guests(alloc, &table.shared, &mut seat, &opening)?;
        let copiers = cut_copiers(alloc, &table.shared, &mut seat, &opening)?;
        let (places, dirty) = opening.into_parts();
        let table = RoundTable {
            table,
            places,
            dirty,
        };
        Ok(Opened {
            table,
            guests,
            copiers,
        })
    }

    /// Returns what all seats have left, when all have come back. It allocates nothing.
    pub fn close(self, guests: Vec<GuestSeat>, copiers: Vec<CopySeat>) -> Closed
        requires guests { AllGuests self guests.items }
        requires copiers { AllCopiers self copiers.items }
        ensures left { IsLeftByEvents self.start guests.items copiers.items result }
        ensures pages { EachPageLeft self.start guests.items copiers.items result }
        ensures next { IsStart (start_with result.versions result.dirty self.start.guests self.start.copiers) }
    {
        let RoundTable {
            table,
            places,
            dirty,
        } = self;
        let (_, mut seat) = table.shared.load_new_seat::<Enters>(0);
        join_guests(&table.shared, &mut seat, guests);
        join_copiers(&table.shared, &mut seat, copiers);
        let closed = table.close_with(seat);
        let versions = copy_places(&closed, dirty.len(), places);
        let dirty = copy_dirty(&closed, dirty);
        closed.free();
        Closed { versions, dirty }
    }
}
