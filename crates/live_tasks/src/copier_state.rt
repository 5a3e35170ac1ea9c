//! What a copier keeps from round to round.

ghost use Rattle.std.specs.Prelude.{◌≡◌, ◌+◌, ◌%◌, ◌≤◌, [], IfNone, IfOk, IfSome, length};
ghost use Rattle.migration_model.specs.Trace.{GuestTrace};
ghost use Rattle.live_tasks.specs.Copies.{HasRoomAt, HasSentFrame, IsFullAt, KeepsSent};
ghost use Rattle.live_tasks.specs.CopierStates.{IsCopierState, cache_capacity, state_with, round_state_with};
ghost use Rattle.live_tasks.specs.RoundLogs.{IsCrowded, empty_log};
ghost use Rattle.page_cache.specs.Cache.{AreKept, cache_with, pages_with};
ghost use Rattle.stream_split.specs.Deals.{turn_with};

use crate::error::SeatError;
use crate::round_log::RoundLog;
use guest_log::WriteLog;
use page_cache::{KeptPages, PageCache};
use page_versions::PageSource;
use std::alloc::Global;
use std::marker::Model;
use stream_lanes::LaneOut;
use stream_split::Dealer;

/// The most pages that a copier's cache keeps.
const CACHE_CAPACITY: usize = 64;

/// What a copier keeps from round to round: which stream's turn it is, its cache of the pages that it sent, the log of
/// the last round, whose buffers the next round reuses, and the sending ends of its lanes.
#[derive(Drop)]
pub struct CopierState {
    pub dealer: Dealer,
    pub pages: KeptPages,
    pub log: RoundLog,
    /// The sending ends: one for each stream, in the order of the streams.
    pub outs: Vec<LaneOut>,
}

impl Model for CopierState {
    ghost use Rattle.live_tasks.specs.CopierStates.{CopierStateView, state_with};

    ghost Value = { CopierStateView };

    ghost view = { λ d. state_with d.dealer d.pages d.log d.outs.items };
}

/// The state of a copier during a round: its cache is open over the trace.
#[derive(Drop)]
pub(crate) struct RoundState<'a, W: WriteLog> {
    pub(crate) dealer: Dealer,
    pub(crate) cache: PageCache<'a, W>,
    pub(crate) log: RoundLog,
    pub(crate) outs: Vec<LaneOut>,
}

impl<'a, W: WriteLog> Model for RoundState<'a, W> {
    ghost use Rattle.live_tasks.specs.CopierStates.{RoundStateView, round_state_with};

    ghost Value = { RoundStateView };

    ghost view = { λ d. round_state_with d.dealer d.cache d.log d.outs.items };
}

impl CopierState {
    /// Returns the state before the first round, with the sending ends of a copier's lanes, one for each of 1 to 16
    /// streams, and a cache that keeps nothing yet. The error is `Memory`.
    pub fn new(alloc: Global, outs: Vec<LaneOut>) -> Result<CopierState, SeatError>
        requires some { 1 ≤ length outs.items }
        requires few { length outs.items ≤ 16 }
        ensures state { (trace : GuestTrace) → IfOk result (IsCopierState trace (length outs.items)) }
        ensures pages { IfOk result (λ state. state.pages ≡ pages_with [] cache_capacity) }
        ensures turn { IfOk result (λ state. state.turn ≡ turn_with (length outs.items) 0) }
        ensures outs { IfOk result (λ state. state.outs ≡ outs.items) }
    {
        let pages = KeptPages::new(alloc, CACHE_CAPACITY)?;
        Ok(CopierState {
            dealer: Dealer::new(outs.len()),
            pages,
            log: RoundLog::new(alloc),
            outs,
        })
    }

    /// Returns the state at the beginning of a round, with an empty log that keeps its buffers.
    pub(crate) fn open<'a, W: WriteLog>(self, source: PageSource<'a, W>) -> RoundState<'a, W>
        requires { AreKept source self.pages.entries }
        ensures { result ≡ round_state_with self.turn
            (cache_with source.entry self.pages.entries self.pages.capacity)
            empty_log self.outs }
    {
        let CopierState {
            dealer,
            pages,
            mut log,
            outs,
        } = self;
        log.clear();
        RoundState {
            dealer,
            cache: PageCache::with_pages(source, pages),
            log,
            outs,
        }
    }
}

impl<'a, W: WriteLog> RoundState<'a, W> {
    /// Returns the stream whose turn it is, if one more frame fits on its lane. Either way the turn passes to the next.
    pub(crate) fn next_lane(&mut self) -> Option<usize>
        requires lanes { length self.old.outs ≡ self.old.turn.streams }
        ensures lane { IfSome result (λ stream. stream ≡ self.old.turn.next) }
        ensures room { IfSome result (HasRoomAt self.new.outs) }
        ensures full { IfNone result (IsCrowded self.new.outs) }
        ensures full_lane { IfNone result (IsFullAt self.new.outs self.old.turn.next) }
        ensures sent { KeepsSent self.old.outs self.new.outs }
        ensures turn { self.new.turn ≡ turn_with self.old.turn.streams
            ((self.old.turn.next + 1) % self.old.turn.streams) }
        ensures cache { self.new.cache ≡ self.old.cache }
        ensures log { self.new.log ≡ self.old.log }
    {
        let stream = self.dealer.deal();
        if self.outs[stream].has_room() {
            return Some(stream);
        }
        None
    }

    /// Returns a buffer for a frame to go on the lane of a stream: one that came back on it, or a new one.
    pub(crate) fn buffer(&mut self, alloc: Global, stream: usize) -> Vec<u8>
        requires { HasRoomAt self.old.outs stream }
        ensures { self.new ≡ self.old }
    {
        match self.outs[stream].spare() {
            Some(buffer) => buffer,
            None => Vec::new(alloc),
        }
    }

    /// Sends a frame on the lane of a stream.
    pub(crate) fn send(&mut self, stream: usize, frame: Vec<u8>)
        requires { HasRoomAt self.old.outs stream }
        ensures sent { HasSentFrame frame.items self.old.outs self.new.outs }
        ensures turn { self.new.turn ≡ self.old.turn }
        ensures cache { self.new.cache ≡ self.old.cache }
        ensures log { self.new.log ≡ self.old.log }
    {
        self.outs[stream].send(frame);
    }

    /// Returns the state at the end of the round.
    pub(crate) fn close(self) -> CopierState
        ensures state { result ≡ state_with self.entry.turn
            (pages_with self.entry.cache.entries self.entry.cache.capacity)
            self.entry.log self.entry.outs }
        ensures kept { AreKept self.entry.cache.trace self.entry.cache.entries }
    {
        let RoundState {
            dealer,
            cache,
            log,
            outs,
        } = self;
        CopierState {
            dealer,
            pages: cache.into_pages(),
            log,
            outs,
        }
    }
}
