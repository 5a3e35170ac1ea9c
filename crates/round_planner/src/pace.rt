//! How a round goes on, page by page.

ghost use Rattle.std.specs.Prelude.{◌≡◌, ◌≤◌, ◌<◌, ◌+◌, ◌^◌};
ghost use Rattle.round_planner.specs.Scanning.{IsPace, IsProgress};

/// How far a round has come: `sent` of its pages are sent, which takes it to a tick and some parts of the next one.
#[derive(Clone, Copy)]
pub(crate) struct Progress {
    pub(crate) sent: u32,
    pub(crate) tick: u64,
    /// A tick has as many parts as pages are sent in 1,000 ticks.
    part: u64,
}

/// The pace of a round, which begins at tick `from` and sends `rate` pages in 1,000 ticks. A page takes `ticks` ticks
/// and `parts` parts of one more.
#[derive(Clone, Copy)]
pub(crate) struct Pace {
    pub(crate) from: u64,
    rate: u64,
    ticks: u64,
    parts: u64,
}

impl Pace {
    /// Returns the pace of a round.
    pub(crate) fn new(from: u64, rate: u64) -> Pace
        requires rate { 1 ≤ rate }
        requires from { from < 2 ^ 42 }
        ensures pace { IsPace result }
        ensures from { result.from ≡ from }
        ensures rate { result.rate ≡ rate }
    {
        Pace {
            from,
            rate,
            ticks: 1000 / rate,
            parts: 1000 % rate,
        }
    }

    /// Returns the progress at which no page is sent.
    pub(crate) fn begin(&self) -> Progress
        requires { IsPace self.now }
        ensures at { IsProgress self.now result }
        ensures sent { result.sent ≡ 0 }
        ensures tick { result.tick ≡ self.now.from }
    {
        Progress {
            sent: 0,
            tick: self.from,
            part: 0,
        }
    }

    /// Returns the progress after one more page is sent.
    pub(crate) fn send(&self, at: Progress) -> Progress
        requires pace { IsPace self.now }
        requires at { IsProgress self.now at }
        requires few { at.sent < 65_536 }
        ensures at { IsProgress self.now result }
        ensures sent { result.sent ≡ at.sent + 1 }
        ensures later { at.tick ≤ result.tick }
    {
        let sent = at.sent + 1;
        let tick = at.tick + self.ticks;
        let part = at.part + self.parts;
        if part < self.rate {
            return Progress { sent, tick, part };
        }
        Progress {
            sent,
            tick: tick + 1,
            part: part - self.rate,
        }
    }
}
