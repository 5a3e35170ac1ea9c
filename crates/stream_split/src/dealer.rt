//! The streams in turn.

ghost use Rattle.std.specs.Prelude.{◌≡◌, ◌≤◌, ◌<◌, ◌+◌, ◌%◌};
ghost use Rattle.stream_split.specs.Deals.{Turn, turn_with};

use std::marker::Model;

/// Deals out streams in turn, starting with 0. It allocates nothing.
#[derive(Debug, Drop)]
pub struct Dealer {
    streams: usize,
    next: usize,
}

impl Model for Dealer {
    ghost Value = { Turn };

    ghost view = { λ d. turn_with d.streams d.next };

    ghost invariant = { λ d. (1 ≤ d.streams) × (d.streams ≤ 16) × (d.next < d.streams) };
}

impl Dealer {
    /// Returns a dealer over this many streams, before its first turn.
    pub fn new(streams: usize) -> Dealer
        requires some { 1 ≤ streams }
        requires few { streams ≤ 16 }
        ensures { result ≡ turn_with streams 0 }
    {
        Dealer { streams, next: 0 }
    }

    /// Returns the stream whose turn it is, and passes the turn to the next one; the first follows the last.
    pub fn deal(&mut self) -> usize
        ensures next { result ≡ self.old.next }
        ensures within { result < self.old.streams }
        ensures turn { self.new ≡ turn_with self.old.streams ((self.old.next + 1) % self.old.streams) }
    {
        let stream = self.next;
        self.next = (stream + 1) % self.streams;
        stream
    }
}
