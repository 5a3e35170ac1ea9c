//! What a copier lists in a round.

ghost use Rattle.std.specs.Prelude.{◌≡◌, OnOk};
ghost use Rattle.live_tasks.specs.RoundLogs.{empty_log, with_deferred, with_sent, with_skipped};

use crate::error::SeatError;
use std::alloc::Global;
use std::marker::Model;

/// The pages that a copier sent, skipped and deferred in a round, each list in the order of its steps.
#[derive(Debug, Drop)]
pub struct RoundLog {
    /// The pages sent, each with the place that was read.
    pub sent: Vec<(u32, u32)>,
    /// The pages skipped, because they were marked again.
    pub skipped: Vec<u32>,
    /// The pages deferred, because the lane of the stream whose turn it was is full.
    pub deferred: Vec<u32>,
}

impl Model for RoundLog {
    ghost use Rattle.live_tasks.specs.RoundLogs.{RoundLogView, log_with};

    ghost Value = { RoundLogView };

    ghost view = { λ o. log_with o.sent.items o.skipped.items o.deferred.items };
}

impl RoundLog {
    /// Returns an empty log. It allocates nothing.
    pub(crate) fn new(alloc: Global) -> RoundLog
        ensures { result ≡ empty_log }
    {
        RoundLog {
            sent: Vec::new(alloc),
            skipped: Vec::new(alloc),
            deferred: Vec::new(alloc),
        }
    }

    /// Lists a page that was sent.
    pub(crate) fn list_sent(&mut self, page: u32, place: u32) -> Result<(), SeatError>
        ensures { OnOk result (self.new ≡ with_sent page place self.old) }
    {
        self.sent.push((page, place))?;
        Ok(())
    }

    /// Lists a page that was skipped.
    pub(crate) fn list_skipped(&mut self, page: u32) -> Result<(), SeatError>
        ensures { OnOk result (self.new ≡ with_skipped page self.old) }
    {
        self.skipped.push(page)?;
        Ok(())
    }

    /// Lists a page that was deferred.
    pub(crate) fn list_deferred(&mut self, page: u32) -> Result<(), SeatError>
        ensures { OnOk result (self.new ≡ with_deferred page self.old) }
    {
        self.deferred.push(page)?;
        Ok(())
    }

    /// Empties all lists. They keep their buffers.
    pub(crate) fn clear(&mut self)
        ensures { self.new ≡ empty_log }
    {
        self.sent.clear();
        self.skipped.clear();
        self.deferred.clear();
    }
}
