//! The words of a new table, and its seats, which are cut off one seat.

ghost use Rattle.std.specs.Prelude.{◌≡◌, ℕ, ◌<◌, ◌^◌, ◌++◌, [], slice_index, IfOk, OnOk};
ghost use Rattle.dirty_words.specs.Facts.{opening_facts, copier_entries};
ghost use Rattle.dirty_words.specs.Seats.{table_view};
ghost use Rattle.dirty_words.specs.Closing.{first_guests, first_copiers};

use crate::copier::CopySeat;
use crate::error::TableError;
use crate::guest::GuestSeat;
use crate::rule::{CutFirst, Shown, View};
use atomic_table::{Seat, Shared};
use dirty_core::Opening;
use std::alloc::Global;

/// Returns the words of a new table: the dirty words, and then a word for each place.
pub(crate) fn opening_words(alloc: Global, opening: &Opening) -> Result<Vec<u64>, TableError>
    ensures words { IfOk result (λ words. words.items ≡ opening.now.dirty ++ opening.now.places) }
    ensures small { OnOk result ((page : ℕ) → slice_index opening.now.places page < 2 ^ 32) }
{
    let mut words = Vec::from_slice(alloc, opening.dirty())?;
    words.reserve(opening.places().len())?;
    for place in opening.places() {
        words.push(u64::from(*place))?;
    }
    Ok(words)
}

/// Cuts a seat for each guest off the seat that all are in.
pub(crate) fn cut_guests(
    alloc: Global,
    table: &Shared<u8, View, Opening, Shown>,
    seat: &mut Seat<u8, View>,
    opening: &Opening,
) -> Result<Vec<GuestSeat>, TableError>
    requires table { (seat.old.table_id ≡ table.now.table_id) × (0 < table.now.table_id.words) }
    requires key { table.now.key ≡ opening.now }
    requires all { seat.old.me ≡ (opening_facts opening.now, []) }
    ensures table { OnOk result (seat.new.table_id ≡ seat.old.table_id) }
    ensures rest { OnOk result (seat.new.me ≡ (copier_entries opening.now 0 opening.now.copiers, [])) }
    ensures guests { IfOk result (λ guests. guests.items ≡ first_guests (table_view table.now.table_id opening.now)) }
{
    let mut guests = Vec::new(alloc);
    for number in 0..opening.guests() {
        let cut = table.split_seat::<CutFirst>(seat);
        let guest = GuestSeat::first(alloc, cut, opening, number)?;
        guests.push(guest)?;
    }
    Ok(guests)
}

/// Cuts a seat for each copier off the seat that all copiers are in.
pub(crate) fn cut_copiers(
    alloc: Global,
    table: &Shared<u8, View, Opening, Shown>,
    seat: &mut Seat<u8, View>,
    opening: &Opening,
) -> Result<Vec<CopySeat>, TableError>
    requires table { (seat.old.table_id ≡ table.now.table_id) × (0 < table.now.table_id.words) }
    requires key { table.now.key ≡ opening.now }
    requires all { seat.old.me ≡ (copier_entries opening.now 0 opening.now.copiers, []) }
    ensures copiers { IfOk result (λ copiers. copiers.items
        ≡ first_copiers (table_view table.now.table_id opening.now)) }
{
    let mut copiers = Vec::new(alloc);
    for number in 0..opening.copiers() {
        let cut = table.split_seat::<CutFirst>(seat);
        let copier = CopySeat::first(alloc, cut, opening, number)?;
        copiers.push(copier)?;
    }
    Ok(copiers)
}
