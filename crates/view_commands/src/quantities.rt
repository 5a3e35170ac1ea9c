//! Numbers followed by a unit.

ghost use Rattle.std.specs.Prelude.{ℕ, IfNone, IfSome, map};
ghost use Rattle.view_commands.specs.Quantities.{IsCounted, IsQuantity, IsRate, IsSample, IsTime, unit_with};

use crate::decimals::{decimal_of, whole_of};

/// A unit: its name and its factor.
type Unit<'a> = (&'a str, u64);

/// Units of time, in microseconds.
const TIMES: [Unit<'static>; 5] = [
    ("us", 1),
    ("ms", 1_000),
    ("s", 1_000_000),
    ("m", 60_000_000),
    ("h", 3_600_000_000),
];

/// Units of a rate, in bytes a second.
const RATES: [Unit<'static>; 9] = [
    ("Kbit", 125),
    ("Mbit", 125_000),
    ("Gbit", 125_000_000),
    ("KB", 1_000),
    ("MB", 1_000_000),
    ("GB", 1_000_000_000),
    ("KiB", 1 << 10),
    ("MiB", 1 << 20),
    ("GiB", 1 << 30),
];

/// Returns what a number followed by this unit stands for.
fn counted(word: &str, name: &str, factor: u64) -> Option<u64>
    ensures some { IfSome result (IsCounted word.now name.now factor) }
    ensures none { IfNone result ((n : ℕ) → ¬ IsCounted word.now name.now factor n) }
{
    let text = word.strip_suffix(name)?;
    decimal_of(text)?.times(factor)
}

/// Returns what a number followed by one of these units stands for.
fn quantity_of(word: &str, units: &[Unit<'_>]) -> Option<u64>
    ensures some { IfSome result (IsQuantity (map (λ u. unit_with u.0.now u.1) units.now) word.now) }
    ensures none { IfNone result ((n : ℕ) → ¬ IsQuantity (map (λ u. unit_with u.0.now u.1) units.now) word.now n) }
{
    for (name, factor) in units {
        if let Some(n) = counted(word, name, *factor) {
            return Some(n);
        }
    }
    None
}

/// Returns how many microseconds the word stands for: a decimal number followed by a unit of time, rounded down.
pub fn time_of(word: &str) -> Option<u64>
    ensures some { IfSome result (IsTime word.now) }
    ensures none { IfNone result ((n : ℕ) → ¬ IsTime word.now n) }
{
    quantity_of(word, &TIMES)
}

/// Returns how many bytes a second the word stands for: a decimal number followed by a unit of bits or bytes, rounded
/// down.
pub fn link_rate_of(word: &str) -> Option<u64>
    ensures some { IfSome result (IsRate word.now) }
    ensures none { IfNone result ((n : ℕ) → ¬ IsRate word.now n) }
{
    quantity_of(word, &RATES)
}

/// Returns how many pages the word says were sampled, and out of how many.
pub fn sample_of(word: &str) -> Option<(u64, u64)>
    ensures some { IfSome result (λ sample. IsSample word.now sample.0 sample.1) }
    ensures none { IfNone result ((sampled guest : ℕ) → ¬ IsSample word.now sampled guest) }
{
    let (before, behind) = word.split_once('/')?;
    Some((whole_of(before)?, whole_of(behind)?))
}
