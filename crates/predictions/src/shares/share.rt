//! The shares of a link that have one verdict.

ghost use Rattle.std.specs.Prelude.{◌≡◌};
ghost use Rattle.predictions.specs.Shares.Texts.{is_known};

use crate::verdict::Verdict;

/// Whether a migration converges at all of its link, and down to which share of it the verdict is the same.
#[derive(Clone, Copy, Debug, PartialEq, Eq)]
pub struct LinkShare {
    /// Whether it converges at all of its link.
    pub verdict: Verdict,
    /// The least share from which on each whole per cent has that verdict, from 50 to 100 per cent.
    pub share: u64,
    /// The verdict at one per cent less than that, which is another one; none if less than a half would be tried.
    pub below: Option<Verdict>,
}

impl LinkShare {
    /// Returns whether the verdict at all of the link is known.
    pub fn is_known(&self) -> bool
        ensures { result ≡ is_known self.now.verdict }
    {
        !matches!(self.verdict, Verdict::Unknown)
    }
}
