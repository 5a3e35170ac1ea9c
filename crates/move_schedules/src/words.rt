//! Numbers in a line.

ghost use Rattle.std.specs.Prelude.{◌≡◌, ◌==◌, ℕ, IfErr, IfNone, IfOk, IfSome, List, map};
ghost use Rattle.std.specs.List.{AllZip, slice_split};
ghost use Rattle.std.specs.Str.Lines.{lines};
ghost use Rattle.move_schedules.specs.Tables.{IsNumber, SpellsNumbers};

use crate::error::PlanError;
use std::alloc::{AllocError, Global};

/// Returns the lines of a text.
pub(crate) fn lines_of(alloc: Global, text: &str) -> Result<Vec<&str>, AllocError>
    ensures { IfOk result (λ v. map (λ x. x.now) v.items ≡ lines text.now) }
{
    text.lines().collect(alloc)
}

/// Returns the words of a line, with one blank between two.
fn words_of(alloc: Global, line: &str) -> Result<Vec<&str>, AllocError>
    ensures { IfOk result (λ v. map (λ x. x.now) v.items ≡ slice_split (λ b. b == 32) line.now) }
{
    line.split(' ').collect(alloc)
}

/// Returns the number that a word is.
fn number_of(word: &str) -> Option<u64>
    ensures some { IfSome result (IsNumber word.now) }
    ensures none { IfNone result ((n : ℕ) → ¬ IsNumber word.now n) }
{
    word.parse::<u64>().ok()
}

/// Returns the numbers that some words are.
fn numbers_in(alloc: Global, words: &[&str]) -> Result<Vec<u64>, PlanError>
    ensures spelled { IfOk result (λ v. AllZip IsNumber (map (λ x. x.now) words.now) v.items) }
    ensures refused { IfErr result (λ e. e ≡ PlanError.NoPlan → (numbers : List ℕ)
        → ¬ AllZip IsNumber (map (λ x. x.now) words.now) numbers) }
{
    let mut numbers = Vec::with_capacity(alloc, words.len())?;
    for word in words {
        match number_of(word) {
            Some(number) => numbers.push(number)?,
            None => return Err(PlanError::NoPlan),
        }
    }
    Ok(numbers)
}

/// Returns the numbers of a line.
pub(crate) fn numbers_of(alloc: Global, line: &str) -> Result<Vec<u64>, PlanError>
    ensures spelled { IfOk result (λ v. SpellsNumbers line.now v.items) }
    ensures refused { IfErr result (λ e. e ≡ PlanError.NoPlan → (numbers : List ℕ) → ¬ SpellsNumbers line.now numbers) }
{
    let words = words_of(alloc, line)?;
    numbers_in(alloc, &words)
}
