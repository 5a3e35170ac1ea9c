//! What is shown about a trace.

use predictions::Verdict;

/// A view as a text.
#[derive(Drop)]
pub struct ViewText {
    /// The text.
    pub text: Vec<u8>,
    /// Whether the limit is kept: that of a prediction, or from the best of some starts; of advice whether it is known.
    /// A view without limit keeps it.
    pub kept: Verdict,
}
