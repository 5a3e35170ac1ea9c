//! How sure an answer is, in words.

ghost use Rattle.std.specs.Prelude.{◌≡◌, ◌++◌, OnOk};
ghost use Rattle.predictions.specs.Agreements.Texts.{converging_words, draws_converging, draws_kept, draws_words};
ghost use Rattle.predictions.specs.Agreements.Texts.{kept_words, starts_words};

use crate::agreement::counts::AnswerCounts;
use crate::agreement::verdicts::Agreement;
use std::alloc::AllocError;
use sweep_report::push_field;

/// Appends in how many draws something is so.
#[tactic(auto, unfolding(crate::specs::Agreements::Texts::draws_words))]
fn push_draws(text: &mut Vec<u8>, part: u64, whole: u64) -> Result<(), AllocError>
    ensures { OnOk result (text.new.items ≡ text.old.items ++ draws_words part whole) }
{
    push_field(text, ", in ", part)?;
    push_field(text, " of ", whole)?;
    text.extend_from_slice(" redraws and".as_bytes())?;
    Ok(())
}

/// Appends from how many starts something is so.
#[tactic(auto, unfolding(crate::specs::Agreements::Texts::starts_words))]
fn push_starts(text: &mut Vec<u8>, part: u64, whole: u64) -> Result<(), AllocError>
    ensures { OnOk result (text.new.items ≡ text.old.items ++ starts_words part whole) }
{
    push_field(text, " from ", part)?;
    push_field(text, " of ", whole)?;
    text.extend_from_slice(" starts".as_bytes())?;
    Ok(())
}

/// Appends in how many draws a migration converges, if pages were sampled.
fn push_draws_converging(text: &mut Vec<u8>, draws: &Option<AnswerCounts>) -> Result<(), AllocError>
    ensures { OnOk result (text.new.items ≡ text.old.items ++ draws_converging draws.now) }
{
    match draws {
        Some(counts) => push_draws(text, counts.converging, counts.whole),
        None => {
            text.extend_from_slice(",".as_bytes())?;
            Ok(())
        }
    }
}

/// Appends in how many draws a migration keeps its limit, if pages were sampled.
fn push_draws_kept(text: &mut Vec<u8>, draws: &Option<AnswerCounts>) -> Result<(), AllocError>
    ensures { OnOk result (text.new.items ≡ text.old.items ++ draws_kept draws.now) }
{
    match draws {
        Some(counts) => push_draws(text, counts.kept, counts.whole),
        None => {
            text.extend_from_slice(",".as_bytes())?;
            Ok(())
        }
    }
}

/// Appends in how many draws, and from how many starts, a migration converges.
pub(crate) fn push_converging(text: &mut Vec<u8>, agreement: &Agreement) -> Result<(), AllocError>
    ensures { OnOk result (text.new.items ≡ text.old.items ++ converging_words agreement.now) }
{
    push_draws_converging(text, &agreement.draws)?;
    push_starts(text, agreement.starts.converging, agreement.starts.whole)
}

/// Appends in how many draws, and from how many starts, a migration keeps its limit.
pub(crate) fn push_kept(text: &mut Vec<u8>, agreement: &Agreement) -> Result<(), AllocError>
    ensures { OnOk result (text.new.items ≡ text.old.items ++ kept_words agreement.now) }
{
    push_draws_kept(text, &agreement.draws)?;
    push_starts(text, agreement.starts.kept, agreement.starts.whole)
}
