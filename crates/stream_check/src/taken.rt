//! How far a check has come.

/// How much of some bytes was taken.
#[derive(Clone, Copy, Debug, PartialEq, Eq)]
pub struct Taken {
    /// How many frames.
    pub frames: usize,
    /// How many bytes they have together.
    pub bytes: usize,
}
