//! Points of a live run at which a caller may observe it.

/// A step that a thread of a live run has just made, or is about to make.
#[derive(Clone, Copy, Debug)]
pub enum Point {
    /// A replayer stored the place of a page.
    Stored { guest: usize, page: u32 },
    /// A replayer marked a page.
    Marked { guest: usize, page: u32 },
    /// A copier harvested a dirty word.
    Harvested { copier: usize, word: usize },
    /// A copier read the place of a page.
    Read { copier: usize, page: u32 },
    /// A receiver is about to look at the lanes of its stream.
    Taking { stream: usize },
    /// A receiver took a frame.
    Taken { stream: usize },
    /// A round's table was closed. The first round has number 0.
    RoundClosed { round: usize },
}

/// Called at each point, by the thread that reached it. It may wait there, and so choose a schedule; this changes
/// nothing that a live run promises.
pub trait Gate: Sync {
    fn at(&self, point: Point);
}

/// Lets every thread go on.
#[derive(Clone, Copy, Debug)]
pub struct OpenGate;

impl Gate for OpenGate {
    fn at(&self, _point: Point) {}
}
