//! How many migrations have an answer.

ghost use Rattle.std.specs.Prelude.{◌≡◌, ◌≤◌, ◌<◌, ◌+◌, ◌^◌, ◌++◌, ◌∷◌, [], if◌then◌else◌, List};
ghost use Rattle.predictions.specs.Agreements.{converge_as, converges_by, counts_of, count_same, keep_as};
ghost use Rattle.predictions.specs.Agreements.{keeps_by, nearly_all, of_known, stops_by};
ghost use Rattle.predictions.specs.declared.course.Course.{Course};

use crate::course::Course;
use crate::units::{Limits, Scale};
use crate::verdict::Verdict;

/// Of some migrations, how many converge and how many keep their limit.
#[derive(Clone, Copy, Debug, PartialEq, Eq)]
pub struct AnswerCounts {
    /// How many there are.
    pub whole: u64,
    /// How many of them end within the trace, so that their answers are known.
    pub known: u64,
    /// How many of these converge.
    pub converging: u64,
    /// How many of these keep their limit.
    pub kept: u64,
}

/// Returns whether a plan that comes to this stops by a tick.
fn stops_by(course: &Course, last_tick: u64) -> bool
    ensures { result ≡ stops_by last_tick course.now }
{
    course.stop <= last_tick
}

/// Returns whether a plan that comes to this stops by a tick, and converges.
fn converges_by(course: &Course, last_tick: u64) -> bool
    ensures { result ≡ converges_by last_tick course.now }
{
    stops_by(course, last_tick) && course.ending.converges()
}

/// Returns whether a plan that comes to this stops by a tick, and keeps its limit.
fn keeps_by(scale: &Scale, limits: &Limits, course: &Course, last_tick: u64) -> bool
    ensures { result ≡ keeps_by scale.now limits.now last_tick course.now }
{
    stops_by(course, last_tick) && course.keeps_limit(scale, limits)
}

/// Returns a number, and one more if something holds.
fn with_one(number: u64, holds: bool) -> u64
    requires { number < 2 ^ 63 }
    ensures { result ≡ (if holds then number + 1 else number) }
{
    number + u64::from(holds)
}

/// Returns whether these are nearly all of a whole.
fn nearly_all(part: u64, whole: u64) -> bool
    ensures { result ≡ nearly_all part whole }
{
    19 * whole as u128 <= 20 * part as u128
}

/// Returns how many of the known answers are this one, if so many are yes.
fn count_same(verdict: Verdict, known: u64, so: u64) -> u64
    ensures { result ≡ count_same verdict known so }
{
    match verdict {
        Verdict::Yes => so,
        Verdict::No => known.saturating_sub(so),
        Verdict::Uncertain => 0,
        Verdict::Unknown => 0,
    }
}

impl AnswerCounts {
    /// The counts of no migration.
    pub(crate) const NONE: AnswerCounts = AnswerCounts {
        whole: 0,
        known: 0,
        converging: 0,
        kept: 0,
    };

    /// Returns the counts with one more plan.
    pub(crate) fn with(
        self,
        scale: &Scale,
        limits: &Limits,
        course: &Course,
        last_tick: u64,
    ) -> AnswerCounts
        requires whole { self.whole < 100 }
        requires known { self.known < 100 }
        requires converging { self.converging < 100 }
        requires kept { self.kept < 100 }
        ensures whole { result.whole ≡ self.whole + 1 }
        ensures known { result.known ≤ self.known + 1 }
        ensures converging { result.converging ≤ self.converging + 1 }
        ensures kept { result.kept ≤ self.kept + 1 }
        ensures counts { (courses : List Course) → self ≡ counts_of scale.now limits.now last_tick courses
            → result ≡ counts_of scale.now limits.now last_tick (courses ++ course.now ∷ []) }
    {
        AnswerCounts {
            whole: self.whole + 1,
            known: with_one(self.known, stops_by(course, last_tick)),
            converging: with_one(self.converging, converges_by(course, last_tick)),
            kept: with_one(self.kept, keeps_by(scale, limits, course, last_tick)),
        }
    }

    /// Returns the counts of those migrations that end within the trace.
    pub(crate) fn of_known(self) -> AnswerCounts
        ensures { result ≡ of_known self }
    {
        AnswerCounts {
            whole: self.known,
            ..self
        }
    }

    /// Returns whether nearly all converge as an answer says.
    pub(crate) fn converge_as(&self, verdict: Verdict) -> bool
        ensures { result ≡ converge_as verdict self.now }
    {
        nearly_all(count_same(verdict, self.known, self.converging), self.whole)
    }

    /// Returns whether nearly all keep the limit as an answer says.
    pub(crate) fn keep_as(&self, verdict: Verdict) -> bool
        ensures { result ≡ keep_as verdict self.now }
    {
        nearly_all(count_same(verdict, self.known, self.kept), self.whole)
    }
}
