//! What the program can do.

use rate_limit::Settings;

/// One run of the program over one trace.
#[derive(Debug, Drop)]
pub enum Job {
    /// Writes the memory after all writes of the trace.
    Image,
    /// Writes a report on the trace.
    Report(Settings),
    /// Performs a migration over the trace, and writes the resulting memory.
    Live(Settings, Show),
    /// Writes a line of sums for the plan of each case, and the best of them; with no case it writes nothing. Up to
    /// `workers` workers, 1 to 16, plan side by side.
    Sweep {
        cases: Vec<Settings>,
        workers: usize,
    },
}

/// Which memory of a live run is written.
#[derive(Clone, Copy, Debug, PartialEq, Eq)]
pub enum Show {
    /// The memory at the tick at which the guest stopped.
    Stop,
    /// The memory after all writes.
    End,
}
