//! The shares of a link that have one verdict.

use crate::numbers::verdict_number;
use predictions::shares::LinkShare;

/// Whether a migration converges at all of its link, and down to which share of it: C's `struct precopy_link_shares`.
#[derive(Clone, Copy)]
#[repr(C)]
pub struct ShareNumbers {
    /// The least share from which on each whole per cent has that verdict, from 50 to 100 per cent.
    pub percent: u64,
    /// Whether it converges at all of its link: 0 for yes, 1 for no, 2 if the trace ends before the migration does.
    pub converges: u32,
    /// Whether it does at one per cent less than the least share, in the same numbers: another one. If less than a half
    /// would be tried, the same one.
    pub below: u32,
}

impl ShareNumbers {
    ghost use Rattle.std.specs.Prelude.{◌≡◌};
    ghost use Rattle.c_layout.specs.Shares.{share_numbers};

    /// Returns the numbers of what was found.
    pub fn new(found: &LinkShare) -> ShareNumbers
        ensures { result ≡ share_numbers found.now }
    {
        ShareNumbers {
            percent: found.share,
            converges: verdict_number(found.verdict),
            below: verdict_number(found.below.unwrap_or(found.verdict)),
        }
    }
}
