//! What a trial is to reach.

/// What a trial is to reach.
#[derive(Clone, Copy)]
pub(crate) enum Aim {
    /// It converges, and ends within the trace and within its downtime.
    Limit,
    /// It ends within the trace.
    End,
}
