//! How views look on a terminal.

/// How something is shown on a terminal.
#[derive(Clone, Copy, Debug, PartialEq, Eq)]
pub struct Style {
    /// The most characters of a line.
    pub width: usize,
    /// Whether bars have colors.
    pub colors: bool,
}
