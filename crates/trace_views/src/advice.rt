//! What is advised for a budget.

use predictions::Verdict;

/// The advice for some cases, which are named by their numbers from 0. All but the last speak of those cases that end
/// within the trace.
#[derive(Clone, Copy, Debug, PartialEq, Eq)]
pub enum Advice {
    /// This case is likely to keep the budget, with the fewest pages sent.
    Fits(usize),
    /// No case is likely to keep the budget, though some are to keep its downtime.
    OverTotal {
        /// The case with the least downtime.
        nearest: usize,
        /// The case with the fewest pages sent of those that are likely to keep the downtime.
        cheapest: usize,
    },
    /// No case is likely to keep the downtime. This one has the least.
    OverDown(usize),
    /// No case ends within the trace, so nothing is known of any.
    Unknown,
}

impl Advice {
    ghost use Rattle.std.specs.Prelude.{◌≡◌};
    ghost use Rattle.trace_views.specs.AdviceText.{case_of};
    ghost use Rattle.trace_views.specs.Views.{advice_verdict};

    /// Returns the number of the advised case, if there is one.
    pub fn case(&self) -> Option<usize>
        ensures { result ≡ case_of self.now }
    {
        match self {
            Advice::Fits(case) | Advice::OverDown(case) => Some(*case),
            Advice::OverTotal { nearest, .. } => Some(*nearest),
            Advice::Unknown => None,
        }
    }

    /// Returns whether the advice is known.
    pub(crate) fn verdict(&self) -> Verdict
        ensures { result ≡ advice_verdict self.now }
    {
        match self {
            Advice::Fits(_) | Advice::OverDown(_) | Advice::OverTotal { .. } => Verdict::Yes,
            Advice::Unknown => Verdict::Unknown,
        }
    }
}
