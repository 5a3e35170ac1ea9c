//! The cases that advice is chosen from.

ghost use Rattle.std.specs.Prelude.{◌≡◌, ◌≤◌, ◌++◌, IfOk, OnOk};
ghost use Rattle.trace_views.specs.Grid.{cases_on, grid_of, kept, part, threshold_within, with_minima};
ghost use Rattle.trace_views.specs.Grid.{with_increments, with_thresholds};

use rate_limit::{Asked, Settings};
use std::alloc::{AllocError, Global};
use view_kinds::Budget;

/// One less than the greatest threshold that settings may have, in pages.
const BELOW_MAX_THRESHOLD: u128 = 65_535;

/// How many cases there are at most: the given settings, and each value of an axis with each of the others, with and
/// without skipping.
const MOST_CASES: usize = 1 + 4 * 2 * 5 * 3 * 2;

/// The values that are combined, besides the given settings.
#[derive(Clone, Copy, Debug)]
pub struct Grid {
    /// Least rates, in pages per 1,000 ticks: the greatest rate and parts of it.
    pub min: [u64; 4],
    /// Increments, in pages per 1,000 ticks: parts of the greatest rate.
    pub increment: [u64; 2],
    /// Thresholds, in pages: that below which the downtime of the budget is kept, and parts of it.
    pub threshold: [u64; 5],
    /// Most rounds.
    pub rounds: [u64; 3],
}

/// Returns the least threshold above the number of pages that can be sent within some ticks at a rate. If a round
/// dirties fewer pages than that, they are sent within the ticks.
fn threshold_for(ticks: u64, rate: u64) -> u64
    ensures { result ≡ threshold_within ticks rate }
{
    let pages = ticks as u128 * rate as u128 / 1000;
    pages.min(BELOW_MAX_THRESHOLD) as u64 + 1
}

/// Returns a part of a number, at least 1.
fn part_of(whole: u64, n: u64) -> u64
    requires { 1 ≤ n }
    ensures { result ≡ part whole n }
{
    (whole / n).max(1)
}

impl Grid {
    /// Returns the grid around some settings, for a budget. Its greatest rate and its first tick are theirs.
    pub fn new(settings: &Settings, budget: &Budget) -> Grid
        ensures { result ≡ grid_of settings.now budget.now }
    {
        let max = settings.asked().max;
        let threshold = threshold_for(budget.down, max);
        Grid {
            min: [max, part_of(max, 2), part_of(max, 4), part_of(max, 8)],
            increment: [max / 20, max / 5],
            threshold: [
                threshold,
                part_of(threshold, 2),
                part_of(threshold, 4),
                part_of(threshold, 8),
                1,
            ],
            rounds: [2, 8, 30],
        }
    }

    /// Returns the cases: the given settings, and then each that the axes make.
    pub fn cases(&self, alloc: Global, settings: &Settings) -> Result<Vec<Settings>, AllocError>
        ensures { IfOk result (λ cases. cases.items ≡ cases_on self.now settings.now) }
    {
        let mut cases = Vec::with_capacity(alloc, MOST_CASES)?;
        cases.push(*settings)?;
        self.push_minima(&mut cases, settings.asked())?;
        Ok(cases)
    }

    /// Appends settings with each least rate, and with each of the other values.
    fn push_minima(&self, cases: &mut Vec<Settings>, asked: &Asked) -> Result<(), AllocError>
        ensures { OnOk result (cases.new.items ≡ cases.old.items ++ with_minima self.now asked.now) }
    {
        for min in &self.min {
            self.push_increments(
                cases,
                &Asked {
                    min: *min,
                    ..*asked
                },
            )?;
        }
        Ok(())
    }

    /// Appends settings with each increment, and with what stops a plan.
    fn push_increments(&self, cases: &mut Vec<Settings>, asked: &Asked) -> Result<(), AllocError>
        ensures { OnOk result (cases.new.items ≡ cases.old.items ++ with_increments self.now asked.now) }
    {
        for increment in &self.increment {
            self.push_stops(
                cases,
                &Asked {
                    increment: *increment,
                    ..*asked
                },
            )?;
        }
        Ok(())
    }

    /// Appends settings with each threshold and number of rounds, without and with skipping.
    fn push_stops(&self, cases: &mut Vec<Settings>, asked: &Asked) -> Result<(), AllocError>
        ensures { OnOk result (cases.new.items ≡ cases.old.items ++ with_thresholds self.now asked.now) }
    {
        for threshold in &self.threshold {
            for rounds in &self.rounds {
                let plain = Asked {
                    threshold: *threshold,
                    rounds: *rounds,
                    skip: false,
                    ..*asked
                };
                push_kept(cases, plain)?;
                push_kept(
                    cases,
                    Asked {
                        skip: true,
                        ..plain
                    },
                )?;
            }
        }
        Ok(())
    }
}

/// Appends settings, if none of them is out of range.
fn push_kept(cases: &mut Vec<Settings>, asked: Asked) -> Result<(), AllocError>
    ensures { OnOk result (cases.new.items ≡ cases.old.items ++ kept asked) }
{
    if let Ok(settings) = Settings::new(asked) {
        cases.push(settings)?;
    }
    Ok(())
}
