//! All seats joined into one again, and the words read back.

ghost use Rattle.std.specs.Prelude.{◌≡◌, ℕ, ◌+◌, ◌<◌, ◌≤◌, ◌^◌, ◌++◌, [], map, length, All, slice_index};
ghost use Rattle.std.specs.Mem.Slots.{slots_items, slots_len, IsFull};
ghost use Rattle.dirty_words.specs.Facts.{of_guest, of_copier};

use crate::copier::CopySeat;
use crate::guest::GuestSeat;
use crate::rule::{JoinBoth, Shown, View};
use atomic_table::{Closed as ClosedTable, Seat, Shared};
use dirty_core::Opening;
use std::alloc::Global;

/// Joins the guests' seats to `seat`.
pub(crate) fn join_guests(
    table: &Shared<u8, View, Opening, Shown>,
    seat: &mut Seat<u8, View>,
    guests: Vec<GuestSeat>,
)
    requires table { (seat.old.table_id ≡ table.now.table_id) × (0 < table.now.table_id.words) }
    requires alone { seat.old.me.1 ≡ [] }
    requires guests { All (λ guest. guest.id ≡ table.now.table_id) guests.items }
    ensures table { seat.new.table_id ≡ seat.old.table_id }
    ensures joined { seat.new.me ≡ (seat.old.me.0 ++ map (λ guest. of_guest guest.facts) guests.items, []) }
{
    for guest in guests {
        table.join_seat::<JoinBoth>(seat, guest.into_seat());
    }
}

/// Joins the copiers' seats to `seat`.
pub(crate) fn join_copiers(
    table: &Shared<u8, View, Opening, Shown>,
    seat: &mut Seat<u8, View>,
    copiers: Vec<CopySeat>,
)
    requires table { (seat.old.table_id ≡ table.now.table_id) × (0 < table.now.table_id.words) }
    requires alone { seat.old.me.1 ≡ [] }
    requires copiers { All (λ copier. copier.id ≡ table.now.table_id) copiers.items }
    ensures table { seat.new.table_id ≡ seat.old.table_id }
    ensures joined { seat.new.me ≡ (seat.old.me.0 ++ map (λ copier. of_copier copier.facts) copiers.items, []) }
{
    for copier in copiers {
        table.join_seat::<JoinBoth>(seat, copier.into_seat());
    }
}

/// Returns the table's dirty words, written over these.
pub(crate) fn copy_dirty(closed: &ClosedTable<u8, Global>, mut dirty: Vec<u64>) -> Vec<u64>
    requires full { IsFull closed.now.words }
    requires words { length dirty.items ≤ slots_len closed.now.words }
    ensures len { length result.items ≡ length dirty.items }
    ensures words { (word : ℕ) → word < length dirty.items
        → slice_index result.items word ≡ slice_index (slots_items closed.now.words) word }
{
    for word in 0..dirty.len() {
        dirty[word] = closed.word(word);
    }
    dirty
}

/// Returns the table's places, which begin at word `first`, written over these.
pub(crate) fn copy_places(
    closed: &ClosedTable<u8, Global>,
    first: usize,
    mut places: Vec<u32>,
) -> Vec<u32>
    requires full { IsFull closed.now.words }
    requires words { first + length places.items ≡ slots_len closed.now.words }
    requires small { (page : ℕ) → page < length places.items
        → slice_index (slots_items closed.now.words) (first + page) < 2 ^ 32 }
    ensures len { length result.items ≡ length places.items }
    ensures places { (page : ℕ) → page < length places.items
        → slice_index result.items page ≡ slice_index (slots_items closed.now.words) (first + page) }
{
    for page in 0..places.len() {
        places[page] = closed.word(first + page) as u32;
    }
    places
}
