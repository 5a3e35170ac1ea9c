//! What a copier does: it harvests its dirty words and sends their pages on its lanes.

ghost use Rattle.std.specs.Prelude.{◌≡◌, ◌<◌, ◌≤◌, ◌+◌, ◌*◌, ◌^◌, ℕ, IsTrue, IfOk, OnOk, length, ◌/◌};
ghost use Rattle.page_bitmap.specs.Pages.{in_words, one_page, word_pages, bit_pages, union, minus, SamePages};
ghost use Rattle.dirty_words.specs.Facts.{after_harvest, after_read, first_copier, OwnsWord, HoldsNone};
ghost use Rattle.dirty_words.specs.Plays.{IsAnswer, MakesFresh};
ghost use Rattle.dirty_words.specs.Seats.{copy_table};
ghost use Rattle.live_tasks.specs.CopierStates.{IsCopierState};
ghost use Rattle.page_versions.specs.Copies.{ArePagesOf};
ghost use Rattle.std.proofs.Props.{props};
ghost use Rattle.live_tasks.specs.RoundLogs.{IsCrowded, SpellsPage};
ghost use Rattle.live_tasks.specs.Scans.{HoldsFrom, IsLeast, IsOwn};
ghost use Rattle.live_tasks.specs.Copies.{AdvancesScan, HasCopied, HasDeferredPage, HasOfferedPage, HasPeeked};
ghost use Rattle.live_tasks.specs.Copies.{HasRestored, HasSkippedPage, IsReady, KeepsScan};

use crate::copier_state::{CopierState, RoundState};
use crate::error::SeatError;
use crate::gate::{Gate, Point};
use dirty_words::{CopySeat, RoundTable};
use guest_log::WriteLog;
use page_bitmap::word_count;
use page_cache::PageCache;
use page_message::append_frame;
use page_versions::{PageSource, TracePages};
use std::alloc::Global;

/// What the threads of a round share: a trace, what its pages are made from, and a table of them.
#[derive(Drop)]
pub struct SharedRound<'a, W: WriteLog, G> {
    pub trace: &'a W,
    pub pages: &'a TracePages,
    pub table: &'a RoundTable,
    pub gate: &'a G,
    /// Whether a page that is marked again is skipped.
    pub skip: bool,
    /// How many streams each copier has.
    pub streams: usize,
    pub ghost are_pages: { ArePagesOf pages.now.index pages.now.packed (W.trace trace.now) } by { Prim.hlevel props },
    pub ghost has_pages: { length table.now.start.places ≡ (W.trace trace.now).pages },
}

/// A copier after a round: its seat, and what it keeps for the next round.
#[derive(Drop)]
pub struct Copier {
    pub seat: CopySeat,
    pub state: CopierState,
}

/// A copier in a round.
#[derive(Drop)]
struct BusyCopier<'a, W: WriteLog> {
    seat: CopySeat,
    state: RoundState<'a, W>,
}

/// Returns the page that a bit of a dirty word stands for.
fn page_at(word: usize, bit: u32) -> u32
    requires bit { bit < 64 }
    requires small { 64 * word + bit < 2 ^ 32 }
    ensures { result ≡ 64 * word + bit }
{
    64 * word as u32 + bit
}

impl<'a, W: WriteLog, G: Gate> SharedRound<'a, W, G> {
    /// Harvests a word: returns the bits of its marked pages, and clears them.
    fn harvest(&self, seat: &mut CopySeat, word: usize) -> u64
        requires table { copy_table seat.old ≡ self.now.table.now }
        requires own { OwnsWord seat.old.facts word }
        ensures table { copy_table seat.new ≡ copy_table seat.old }
        ensures facts { seat.new.facts ≡ after_harvest word result seat.old.facts }
        ensures answer { IsAnswer seat.old.facts word result }
        ensures held { SamePages (in_words seat.new.facts.held)
            (union (in_words seat.old.facts.held) (bit_pages word result)) }
        ensures returned { SamePages (in_words seat.new.facts.returned)
            (minus (in_words seat.old.facts.returned) (word_pages word)) }
        ensures fresh { MakesFresh seat.old.facts word result seat.new.facts }
    {
        let copier = seat.number();
        let bits = seat.harvest(self.table, word);
        self.gate.at(Point::Harvested { copier, word });
        bits
    }

    /// Returns the place of a held page as it is read now.
    fn read(&self, seat: &mut CopySeat, page: u32) -> u32
        requires table { copy_table seat.old ≡ self.now.table.now }
        requires held { IsTrue (in_words seat.old.facts.held page) }
        ensures table { copy_table seat.new ≡ copy_table seat.old }
        ensures facts { seat.new.facts ≡ after_read page result seat.old.facts }
        ensures held { SamePages (in_words seat.new.facts.held) (minus (in_words seat.old.facts.held) (one_page page)) }
    {
        let copier = seat.number();
        let place = seat.read(self.table, page);
        self.gate.at(Point::Read { copier, page });
        place
    }

    /// Encodes the frame of a page, at the place that was read, into a buffer, whose contents it replaces. The page
    /// comes from the cache, which keeps it.
    fn encode(
        &self,
        cache: &mut PageCache<'_, W>,
        page: u32,
        place: u32,
        buffer: &mut Vec<u8>,
    ) -> Result<(), SeatError>
        requires trace { cache.old.trace ≡ (W.trace self.now.trace.now) }
        requires page { page < (W.trace self.now.trace.now).pages }
        ensures spells { OnOk result (SpellsPage (W.trace self.now.trace.now) page place buffer.new.items) }
        ensures trace { cache.new.trace ≡ cache.old.trace }
        ensures capacity { cache.new.capacity ≡ cache.old.capacity }
    {
        let shape = self.trace.shape();
        let stamp = place.min(shape.writes);
        buffer.clear();
        cache.keep(page, stamp)?;
        let Some(bytes) = cache.bytes(page) else {
            unreachable!()
        };
        append_frame(buffer, &shape, page, stamp, bytes)?;
        Ok(())
    }

    /// Returns whether the page is marked now, without a harvest.
    fn shows(&self, seat: &mut CopySeat, page: u32) -> bool
        requires table { copy_table seat.old ≡ self.now.table.now }
        requires own { OwnsWord seat.old.facts (page / 64) }
        ensures table { copy_table seat.new ≡ copy_table seat.old }
        ensures peeked { HasPeeked page result seat.old.facts seat.new.facts }
    {
        let bits = seat.peek(self.table, (page / 64) as usize);
        (bits >> (page % 64)) & 1 == 1
    }

    /// Gives a held page back.
    fn restore(&self, seat: &mut CopySeat, page: u32)
        requires table { copy_table seat.old ≡ self.now.table.now }
        requires own { OwnsWord seat.old.facts (page / 64) }
        requires held { IsTrue (in_words seat.old.facts.held page) }
        ensures table { copy_table seat.new ≡ copy_table seat.old }
        ensures restored { HasRestored page seat.old.facts seat.new.facts }
    {
        let word = (page / 64) as usize;
        seat.restore(self.table, word, 1 << (page % 64));
    }

    /// Gives a held page back, and lists it as skipped.
    fn skip_page(&self, page: u32, copier: &mut BusyCopier<'_, W>) -> Result<(), SeatError>
        requires table { copy_table copier.old.seat ≡ self.now.table.now }
        requires own { OwnsWord copier.old.seat.facts (page / 64) }
        requires held { IsTrue (in_words copier.old.seat.facts.held page) }
        ensures table { copy_table copier.new.seat ≡ copy_table copier.old.seat }
        ensures skipped { OnOk result (HasSkippedPage page copier.old.seat.facts copier.old.state
            copier.new.seat.facts copier.new.state) }
        ensures cache { copier.new.state.cache ≡ copier.old.state.cache }
        ensures turn { copier.new.state.turn ≡ copier.old.state.turn }
    {
        self.restore(&mut copier.seat, page);
        copier.state.log.list_skipped(page)?;
        Ok(())
    }

    /// Gives a held page back, and lists it as deferred, if a lane is full.
    fn defer_page(&self, page: u32, copier: &mut BusyCopier<'_, W>) -> Result<(), SeatError>
        requires table { copy_table copier.old.seat ≡ self.now.table.now }
        requires own { OwnsWord copier.old.seat.facts (page / 64) }
        requires held { IsTrue (in_words copier.old.seat.facts.held page) }
        requires full { IsCrowded copier.old.state.outs }
        ensures table { copy_table copier.new.seat ≡ copy_table copier.old.seat }
        ensures deferred { OnOk result (HasDeferredPage page copier.old.seat.facts copier.old.state
            copier.new.seat.facts copier.new.state) }
        ensures cache { copier.new.state.cache ≡ copier.old.state.cache }
        ensures turn { copier.new.state.turn ≡ copier.old.state.turn }
    {
        self.restore(&mut copier.seat, page);
        copier.state.log.list_deferred(page)?;
        Ok(())
    }

    /// Sends a held page in the stream whose turn it is, or defers it if that stream's lane is full.
    fn offer_page(
        &self,
        alloc: Global,
        page: u32,
        copier: &mut BusyCopier<'_, W>,
    ) -> Result<(), SeatError>
        requires page { page < (W.trace self.now.trace.now).pages }
        requires ready { IsReady (W.trace self.now.trace.now) self.now.table.now copier.old.seat copier.old.state }
        requires own { OwnsWord copier.old.seat.facts (page / 64) }
        requires held { IsTrue (in_words copier.old.seat.facts.held page) }
        ensures offered { OnOk result (HasOfferedPage (W.trace self.now.trace.now) page
            copier.old.seat.facts copier.old.state
            copier.new.seat.facts copier.new.state) }
        ensures ready { OnOk result (IsReady (W.trace self.now.trace.now) self.now.table.now copier.new.seat
            copier.new.state) }
    {
        let Some(stream) = copier.state.next_lane() else {
            return self.defer_page(page, copier);
        };
        let place = self.read(&mut copier.seat, page);
        let mut buffer = copier.state.buffer(alloc, stream);
        self.encode(&mut copier.state.cache, page, place, &mut buffer)?;
        copier.state.send(stream, buffer);
        copier.state.log.list_sent(page, place)?;
        Ok(())
    }

    /// Sends or defers a held page with none held before it, or skips it if it is marked again and skipping is allowed.
    fn copy_page(
        &self,
        alloc: Global,
        page: u32,
        copier: &mut BusyCopier<'_, W>,
    ) -> Result<(), SeatError>
        requires ready { IsReady (W.trace self.now.trace.now) self.now.table.now copier.old.seat copier.old.state }
        requires least { IsLeast copier.old.seat.facts page }
        requires own { IsOwn copier.old.seat.facts page }
        ensures ready { OnOk result (IsReady (W.trace self.now.trace.now) self.now.table.now copier.new.seat
            copier.new.state) }
        ensures scan { OnOk result (KeepsScan (W.trace self.now.trace.now) self.now.skip
            copier.old.seat.facts copier.old.state
            copier.new.seat.facts copier.new.state) }
        ensures held { OnOk result (SamePages (in_words copier.new.seat.facts.held)
            (minus (in_words copier.old.seat.facts.held) (one_page page))) }
    {
        if !self.skip {
            return self.offer_page(alloc, page, copier);
        }
        if self.shows(&mut copier.seat, page) {
            return self.skip_page(page, copier);
        }
        self.offer_page(alloc, page, copier)
    }

    /// Sends, defers or skips the harvested pages of a word, in ascending order.
    fn copy_bits(
        &self,
        alloc: Global,
        word: usize,
        bits: u64,
        copier: &mut BusyCopier<'_, W>,
    ) -> Result<(), SeatError>
        requires few { (W.trace self.now.trace.now).pages ≤ 65_536 }
        requires ready { IsReady (W.trace self.now.trace.now) self.now.table.now copier.old.seat copier.old.state }
        requires own { OwnsWord copier.old.seat.facts word }
        requires real { (page : ℕ) → IsTrue (bit_pages word bits page) → page < (W.trace self.now.trace.now).pages }
        requires holds { HoldsFrom word bits 0 copier.old.seat.facts }
        ensures ready { OnOk result (IsReady (W.trace self.now.trace.now) self.now.table.now copier.new.seat
            copier.new.state) }
        ensures scan { OnOk result (KeepsScan (W.trace self.now.trace.now) self.now.skip
            copier.old.seat.facts copier.old.state
            copier.new.seat.facts copier.new.state) }
        ensures held { OnOk result (HoldsNone copier.new.seat.facts) }
    {
        for bit in 0..64 {
            if (bits >> bit) & 1 != 1 {
                continue;
            }
            self.copy_page(alloc, page_at(word, bit), copier)?;
        }
        Ok(())
    }

    /// Harvests a word, if it is the copier's, and sends, defers or skips its pages.
    fn copy_word(
        &self,
        alloc: Global,
        word: usize,
        copier: &mut BusyCopier<'_, W>,
    ) -> Result<(), SeatError>
        requires few { (W.trace self.now.trace.now).pages ≤ 65_536 }
        requires ready { IsReady (W.trace self.now.trace.now) self.now.table.now copier.old.seat copier.old.state }
        requires held { HoldsNone copier.old.seat.facts }
        ensures ready { OnOk result (IsReady (W.trace self.now.trace.now) self.now.table.now copier.new.seat
            copier.new.state) }
        ensures scan { OnOk result (AdvancesScan (W.trace self.now.trace.now) self.now.skip word
            copier.old.seat.facts copier.old.state
            copier.new.seat.facts copier.new.state) }
        ensures held { OnOk result (HoldsNone copier.new.seat.facts) }
    {
        if !copier.seat.owns(word) {
            return Ok(());
        }
        let bits = self.harvest(&mut copier.seat, word);
        self.copy_bits(alloc, word, bits, copier)?;
        Ok(())
    }

    /// Does a copier's part of a round: it harvests its words once, in ascending order, and sends, defers or skips the
    /// pages of each. The seat has done nothing yet, and the previous round's log is emptied. The error is `Memory`.
    pub fn copy(
        &self,
        alloc: Global,
        seat: CopySeat,
        state: CopierState,
    ) -> Result<Copier, SeatError>
        requires table { copy_table seat ≡ self.now.table.now }
        requires idle { seat.facts ≡ first_copier self.now.table.now.start seat.facts.number }
        requires state { IsCopierState (W.trace self.now.trace.now) self.now.streams state }
        ensures { IfOk result (λ copier. HasCopied (W.trace self.now.trace.now) self.now.skip
            self.now.table.now seat.facts.number
            self.now.streams state.outs copier.seat copier.state) }
    {
        let TracePages { index, packed } = self.pages;
        let source = PageSource::new(self.trace, index, packed.as_ref());
        let mut copier = BusyCopier {
            seat,
            state: state.open(source),
        };
        let shape = self.trace.shape();
        for word in 0..word_count(shape.pages as usize) {
            self.copy_word(alloc, word, &mut copier)?;
        }
        let BusyCopier { seat, state } = copier;
        Ok(Copier {
            seat,
            state: state.close(),
        })
    }
}
