//! How sure an answer is, in the numbers that C and a web page have.

ghost use Rattle.std.specs.Prelude.{◌≡◌};
ghost use Rattle.predictions.specs.Agreements.Numbers.{agreement_numbers, counts_or_none, sure_numbers};

use crate::agreement::counts::AnswerCounts;
use crate::agreement::verdicts::Agreement;
use crate::answer::number_of_verdict;
use crate::prediction::Prediction;
use crate::redrawn::Errors;
use crate::verdict::Verdict;

/// How sure an answer is. It is laid out as C's `struct precopy_agreement`.
#[derive(Clone, Copy, Debug, PartialEq, Eq)]
#[repr(C)]
pub struct AgreementNumbers {
    /// How many draws there are: 20, or 0 if no pages were sampled, or all.
    pub draws: u64,
    /// In how many of them the migration ends within the trace.
    pub draws_known: u64,
    /// In how many of these it converges.
    pub draws_converging: u64,
    /// In how many of these it keeps its limit.
    pub draws_kept: u64,
    /// From how many starts it ends within the trace.
    pub starts: u64,
    /// From how many of these it converges.
    pub starts_converging: u64,
    /// From how many of these it keeps its limit.
    pub starts_kept: u64,
    /// Whether the migration converges: 0 for yes, 1 for no, 2 if the trace ends before the migration does, and 3 if
    /// the draws or the starts do not agree.
    pub converges: u32,
    /// Whether it keeps its limit, in the same numbers.
    pub kept: u32,
}

/// Returns the counts of draws, or zeros if there are none.
fn counts_or_none(draws: &Option<AnswerCounts>) -> AnswerCounts
    ensures { result ≡ counts_or_none draws.now }
{
    match draws {
        Some(counts) => *counts,
        None => AnswerCounts::NONE,
    }
}

/// Returns the numbers of some counts, and of some answers.
fn numbers_with(agreement: &Agreement, converges: Verdict, kept: Verdict) -> AgreementNumbers
    ensures { result ≡ agreement_numbers agreement.now converges kept }
{
    let draws = counts_or_none(&agreement.draws);
    let starts = agreement.starts;
    AgreementNumbers {
        draws: draws.whole,
        draws_known: draws.known,
        draws_converging: draws.converging,
        draws_kept: draws.kept,
        starts: starts.whole,
        starts_converging: starts.converging,
        starts_kept: starts.kept,
        converges: number_of_verdict(converges),
        kept: number_of_verdict(kept),
    }
}

impl AgreementNumbers {
    /// Returns the numbers of some counts, and of whether the migration surely converges and keeps its limit.
    pub fn new(
        limit: u64,
        agreement: &Agreement,
        prediction: &Prediction,
        errors: &Option<Errors>,
    ) -> AgreementNumbers
        ensures { result ≡ sure_numbers limit agreement.now prediction.now errors.now }
    {
        let converges = agreement.verdict(prediction);
        let kept = agreement.kept(limit, &prediction.cost, errors);
        numbers_with(agreement, converges, kept)
    }
}
