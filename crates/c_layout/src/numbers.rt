//! Numbers as C has them.

ghost use Rattle.std.specs.Prelude.{◌≡◌};
ghost use Rattle.predictions.specs.Questions.{capped, verdict_number};

use predictions::Verdict;

/// Returns a number, or else the greatest that 64 bits hold.
pub(crate) fn capped(number: u128) -> u64
    ensures { result ≡ capped number }
{
    number.min(u64::MAX as u128) as u64
}

/// Returns the number of a verdict.
pub(crate) fn verdict_number(verdict: Verdict) -> u32
    ensures { result ≡ verdict_number verdict }
{
    match verdict {
        Verdict::Yes => 0,
        Verdict::No => 1,
        Verdict::Unknown => 2,
        Verdict::Uncertain => 3,
    }
}
