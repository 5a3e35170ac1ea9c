//! The ranges of what a migration costs that may begin at any tick.

// `AreRanges` holds of one value alone: `one_ranges`.

ghost use Rattle.std.specs.Prelude.{◌≡◌, ◌≤◌, IfOk, length, max, min};
ghost use Rattle.std.specs.List.{count_by};
ghost use Rattle.predictions.specs.Starts.Ranges.{AreExtremes, AreRanges, converges_by};

use crate::cost::Cost;
use crate::course::Course;
use crate::measure::Measure;
use crate::starts::choosing::known_starts;
use crate::starts::planned::PlannedCase;
use crate::starts::starting::{StartCost, start_costs};
use std::alloc::{AllocError, Global};
use std::marker::Model;

/// How long a migration takes, what it sends, and how long the guest does not run.
#[derive(Clone, Copy, Debug, PartialEq, Eq)]
pub struct CostNumbers {
    /// From the start until the guest runs again, in microseconds.
    pub time: u128,
    /// How many bytes of the guest are sent.
    pub bytes: u128,
    /// How long the guest does not run, in microseconds.
    pub downtime: u128,
}

impl Model for CostNumbers {
    ghost use Rattle.predictions.specs.Starts.Ranges.{MigrationNumbers};
    ghost use Rattle.std.specs.Prelude.{◌<◌, ◌^◌};

    ghost Value = { MigrationNumbers };

    ghost view = { λ n. record { time = n.time; bytes = n.bytes; downtime = n.downtime } };

    ghost invariant = { λ n. n.bytes < 2 ^ 110 };

    ghost inverse = { λ n. record { time = n.time; bytes = n.bytes; downtime = n.downtime } };
}

/// From how many starts a migration is known, and what it costs from these at least and at most.
#[derive(Clone, Copy, Debug, PartialEq, Eq)]
pub struct StartRanges {
    /// How many starts there are.
    pub count: u64,
    /// From how many the migration ends within the trace.
    pub known: u64,
    /// From how many it converges.
    pub converging: u64,
    /// From how many it keeps its limit.
    pub kept: u64,
    /// What it costs at least, each number by itself.
    pub least: CostNumbers,
    /// What it costs at most.
    pub greatest: CostNumbers,
}

impl Model for StartRanges {
    ghost use Rattle.predictions.specs.Starts.Ranges.{RangesOfStarts};

    ghost Value = { RangesOfStarts };

    ghost view = { λ r. record {
      count = r.count;
      known = r.known;
      converging = r.converging;
      kept = r.kept;
      least = r.least;
      greatest = r.greatest;
    } };

    ghost inverse = { λ r. record {
      count = r.count;
      known = r.known;
      converging = r.converging;
      kept = r.kept;
      least = r.least;
      greatest = r.greatest;
    } };
}

impl CostNumbers {
    /// Returns the numbers of what a migration costs.
    fn of(cost: &Cost) -> CostNumbers
        ensures time { result.time ≡ cost.now.time }
        ensures bytes { result.bytes ≡ cost.now.bytes }
        ensures downtime { result.downtime ≡ cost.now.downtime }
    {
        CostNumbers {
            time: cost.time,
            bytes: cost.bytes,
            downtime: cost.downtime,
        }
    }

    /// Returns the lesser of each two numbers.
    fn lesser(&self, other: &CostNumbers) -> CostNumbers
        ensures time { result.time ≡ min self.now.time other.now.time }
        ensures bytes { result.bytes ≡ min self.now.bytes other.now.bytes }
        ensures downtime { result.downtime ≡ min self.now.downtime other.now.downtime }
    {
        CostNumbers {
            time: self.time.min(other.time),
            bytes: self.bytes.min(other.bytes),
            downtime: self.downtime.min(other.downtime),
        }
    }

    /// Returns the greater of each two numbers.
    fn greater(&self, other: &CostNumbers) -> CostNumbers
        ensures time { result.time ≡ max self.now.time other.now.time }
        ensures bytes { result.bytes ≡ max self.now.bytes other.now.bytes }
        ensures downtime { result.downtime ≡ max self.now.downtime other.now.downtime }
    {
        CostNumbers {
            time: self.time.max(other.time),
            bytes: self.bytes.max(other.bytes),
            downtime: self.downtime.max(other.downtime),
        }
    }
}

/// Returns what migrations cost at least and at most, each number by itself.
fn extremes(known: &[StartCost]) -> (CostNumbers, CostNumbers)
    requires { 1 ≤ length known.now }
    ensures { AreExtremes known.now result.0 result.1 }
{
    let first = &known[0];
    let mut least = CostNumbers::of(&first.cost);
    let mut greatest = least;
    for number in 1..known.len() {
        let at = &known[number];
        let numbers = CostNumbers::of(&at.cost);
        least = least.lesser(&numbers);
        greatest = greatest.greater(&numbers);
    }
    (least, greatest)
}

/// Returns whether the migration of a case converges within a trace with this last tick.
fn converges(case: &PlannedCase, last_tick: u64) -> bool
    ensures { result ≡ converges_by last_tick case.now }
{
    let Course { stop, ending, .. } = case.course;
    stop <= last_tick && ending.converges()
}

/// Returns how many migrations converge within a trace with this last tick.
fn converging(cases: &[PlannedCase], last_tick: u64) -> u64
    ensures { result ≡ count_by (converges_by last_tick) cases.now }
{
    let mut count = 0;
    for case in cases {
        if converges(case, last_tick) {
            count += 1;
        }
    }
    count
}

/// Returns how many migrations keep their limit.
fn keeping(known: &[StartCost]) -> u64
    ensures { result ≡ count_by (λ at. at.cost.is_kept) known.now }
{
    let mut count = 0;
    for at in known {
        if at.cost.is_kept {
            count += 1;
        }
    }
    count
}

/// Returns the ranges of what the migrations of some cases cost, over a trace with this last tick. There are none if no
/// migration ends within the trace.
pub fn ranges_over(
    alloc: Global,
    measure: &Measure,
    cases: &[PlannedCase],
    last_tick: u64,
) -> Result<Option<StartRanges>, AllocError>
    ensures { IfOk result (AreRanges measure.now.scale measure.now.limits last_tick cases.now) }
{
    let costs = start_costs(alloc, measure, cases, last_tick)?;
    let known = known_starts(alloc, &costs)?;
    if known.is_empty() {
        return Ok(None);
    }
    let (least, greatest) = extremes(&known);
    Ok(Some(StartRanges {
        count: cases.len() as u64,
        known: known.len() as u64,
        converging: converging(cases, last_tick),
        kept: keeping(&known),
        least,
        greatest,
    }))
}
