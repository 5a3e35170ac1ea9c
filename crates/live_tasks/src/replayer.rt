//! What a replayer does: it changes its pages as the trace says.

ghost use Rattle.std.specs.Prelude.{◌≡◌, ◌<◌, ◌+◌, ◌^◌, None};
ghost use Rattle.dirty_words.specs.Facts.{after_store, after_mark, first_guest, last_place, OwnsPage};
ghost use Rattle.dirty_words.specs.Seats.{guest_table};
ghost use Rattle.live_tasks.specs.Replays.{HasReplayed, IsStoredIfOwn, OpensAt};

use crate::gate::{Gate, Point};
use dirty_words::{GuestSeat, RoundTable};
use guest_log::{Timeline, WriteLog};

/// The ticks of a round: from the first to before the second.
#[derive(Clone, Copy, Debug)]
pub struct Ticks {
    pub from: u64,
    pub to: u64,
}

/// Stores a page's place, and marks the page.
fn replay_write<G: Gate>(table: &RoundTable, gate: &G, seat: &mut GuestSeat, page: u32, place: u32)
    requires table { guest_table seat.old ≡ table.now }
    requires own { OwnsPage seat.old.facts page }
    requires free { seat.old.facts.pending ≡ None }
    requires over { last_place seat.old.facts page < place }
    ensures table { guest_table seat.new ≡ guest_table seat.old }
    ensures facts { seat.new.facts ≡ after_mark (after_store page place seat.old.facts) }
{
    let guest = seat.number();
    seat.advance(table, page, place);
    gate.at(Point::Stored { guest, page });
    seat.mark(table);
    gate.at(Point::Marked { guest, page });
}

/// Stores a page's place and marks the page, if the page is the guest's own; else it does nothing.
fn replay_own<G: Gate>(table: &RoundTable, gate: &G, seat: &mut GuestSeat, page: u32, place: u32)
    requires table { guest_table seat.old ≡ table.now }
    requires free { seat.old.facts.pending ≡ None }
    requires over { OwnsPage seat.old.facts page → last_place seat.old.facts page < place }
    ensures table { guest_table seat.new ≡ guest_table seat.old }
    ensures facts { IsStoredIfOwn page place seat.old.facts seat.new.facts }
{
    if seat.owns(page) {
        replay_write(table, gate, seat, page, place);
    }
}

/// Returns the place of the write with this index.
fn place_of(index: usize) -> u32
    requires { index < 2 ^ 20 }
    ensures { result ≡ index + 1 }
{
    index as u32 + 1
}

/// Replays the writes of a round to the guest's own pages, in the order of the trace: for each it stores the place, and
/// then marks the page. The seat has done nothing yet, and the table opened with the versions before the round.
pub fn replay<W: WriteLog, G: Gate>(
    trace: &W,
    ticks: Ticks,
    table: &RoundTable,
    gate: &G,
    mut seat: GuestSeat,
) -> GuestSeat
    requires table { guest_table seat ≡ table.now }
    requires idle { seat.facts ≡ first_guest table.now.start seat.facts.number }
    requires opening { OpensAt (W.trace trace.now) ticks.from table.now.start }
    ensures table { guest_table result ≡ table.now }
    ensures number { result.facts.number ≡ seat.facts.number }
    ensures replayed { HasReplayed (W.trace trace.now) ticks.from ticks.to result.facts }
{
    // For the proof: `shape` promises that the log describes a trace.
    let _ = trace.shape();
    let first = trace.before(ticks.from);
    let end = trace.before(ticks.to);
    for index in first..end {
        let touch = trace.touch(index);
        replay_own(table, gate, &mut seat, touch.page, place_of(index));
    }
    seat
}
