//! Questions about a migration, in the numbers that C and a web page have.

// `IsMisfit` holds of one value alone: `one_misfit`. `RefusesQuestion` does: `one_refused_question`.

ghost use Rattle.std.specs.Prelude.{◌≡◌, ℕ, IfErr, IsOk, OnOk};
ghost use Rattle.predictions.specs.Questions.{Fits, IsMisfit, given};
ghost use Rattle.predictions.specs.Units.Scales.{TraceScale};

use crate::course::Manner;
use crate::units::{Limits, Scale, UnitsError};
use guest_log::Shape;
use rate_limit::{Asked, Settings};

/// What is asked of a migration: how much it may take, what ticks and pages of the trace stand for, and where it
/// begins. It is laid out as C's `struct precopy_question`.
#[derive(Clone, Copy, Debug, PartialEq, Eq)]
#[repr(C)]
pub struct Question {
    /// How much of the link the migration may use, in bytes a second.
    pub link: u64,
    /// How much its first round may use, in bytes a second, if `has_first` is not 0; else the whole link.
    pub first: u64,
    /// The longest downtime, in microseconds.
    pub downtime: u64,
    /// How much of the downtime goes to other things than pages, in microseconds.
    pub reserve: u64,
    /// The length of a tick, in microseconds.
    pub tick: u64,
    /// How many bytes a page of the trace has.
    pub page: u64,
    /// How many of the guest's pages were recorded.
    pub sampled: u64,
    /// How many pages the guest has.
    pub guest: u64,
    /// What is added to a dirtying rate, in pages per 1,000 ticks, if `has_increment` is not 0; else a tenth of what
    /// the link has above the first round.
    pub increment: u64,
    /// The most rounds.
    pub rounds: u64,
    /// The tick at which the first round begins.
    pub start: u64,
    /// A warm start, if `has_base` is not 0: the destination begins with the memory before this tick.
    pub base: u64,
    /// Whether there is a rate of the first round: 0 for no.
    pub has_first: u32,
    /// Whether there is an increment: 0 for no.
    pub has_increment: u32,
    /// Whether there is a base: 0 for a cold start.
    pub has_base: u32,
    /// Whether pages that were written again are skipped: 0 for no.
    pub skip: u32,
    /// Whether it goes by Clark's rounds: 0 for a hypervisor's looks. Only rounds have a `first`, an `increment`, a number
    /// and `skip`; the ranges of the increment and of the number are tested always.
    pub clark: u32,
}

/// What a question comes to: what ticks and pages stand for, the limits, and the settings of the plan.
#[derive(Clone, Copy, Debug)]
pub struct Terms {
    /// What ticks and pages of the trace stand for.
    pub scale: Scale,
    /// What the migration may take.
    pub limits: Limits,
    /// By whose plan it goes.
    pub manner: Manner,
    /// The settings of the plan.
    pub settings: Settings,
}

/// How a trace does not have a scale.
#[derive(Clone, Copy, Debug, PartialEq, Eq)]
pub enum Misfit {
    /// Its pages have another size.
    PageSize,
    /// It has more pages than were sampled.
    TooManyPages,
}

/// Returns a number, if it is given.
fn given(has: u32, number: u64) -> Option<u64>
    ensures { result ≡ given has number }
{
    if has == 0 {
        return None;
    }
    Some(number)
}

impl Question {
    ghost use Rattle.std.specs.Prelude.{◌≡◌, IfErr, IfOk, IsOk, OnOk};
    ghost use Rattle.predictions.specs.Questions.{AcceptsQuestion, RefusesQuestion, first_in, limits_in, manner_in};
    ghost use Rattle.predictions.specs.Questions.{others_in, terms_of};

    /// Returns what the first round may use, if that is given and there are rounds.
    fn first(&self) -> Option<u64>
        ensures { result ≡ first_in self.now }
    {
        match self.manner() {
            Manner::Looks => None,
            Manner::Rounds => given(self.has_first, self.first),
        }
    }

    /// Returns the limits that the question gives.
    fn limits(&self) -> Limits
        ensures { result ≡ limits_in self.now }
    {
        Limits {
            link: self.link,
            first: self.first(),
            downtime: self.downtime,
            reserve: self.reserve,
        }
    }

    /// Returns by whose plan the migration goes.
    fn manner(&self) -> Manner
        ensures { result ≡ manner_in self.now }
    {
        if self.clark == 0 {
            Manner::Looks
        } else {
            Manner::Rounds
        }
    }

    /// Returns the settings that limits do not make.
    fn others(&self) -> Asked
        ensures { result ≡ others_in self.now }
    {
        Asked {
            min: 1,
            max: 1,
            increment: 0,
            threshold: 1,
            rounds: self.rounds,
            start: self.start,
            window: 1000,
            hot: 2,
            workers: 1,
            streams: 1,
            replayers: 1,
            lane: 1,
            skip: self.skip != 0,
            base: given(self.has_base, self.base),
        }
    }

    /// Returns what the question comes to, or the first thing that is out of its range.
    pub fn terms(&self) -> Result<Terms, UnitsError>
        ensures made { IfOk result (λ terms. terms ≡ terms_of self.now) }
        ensures accepted { OnOk result (AcceptsQuestion self.now) }
        ensures refused { IfErr result (RefusesQuestion self.now) }
        ensures only { AcceptsQuestion self.now → IsOk result }
    {
        let scale = Scale::new(self.tick, self.page, self.sampled, self.guest)?;
        let limits = self.limits();
        let increment = given(self.has_increment, self.increment);
        let settings = limits.settings(&scale, increment, self.others())?;
        Ok(Terms {
            scale,
            limits,
            manner: self.manner(),
            settings,
        })
    }
}

/// Tests whether a trace of these sizes may have a scale: its pages have the scale's size, and if pages were sampled
/// there are no more of them than that.
pub fn check_fit(scale: &Scale, shape: &Shape) -> Result<(), Misfit>
    ensures fits { OnOk result (Fits scale.now shape.now.shift shape.now.pages) }
    ensures misfit { IfErr result (IsMisfit scale.now shape.now.shift shape.now.pages) }
    ensures only { Fits scale.now shape.now.shift shape.now.pages → IsOk result }
{
    if shape.page_size() as u64 != scale.page() {
        return Err(Misfit::PageSize);
    }
    if scale.sampled() < scale.guest() && scale.sampled() < shape.pages as u64 {
        return Err(Misfit::TooManyPages);
    }
    Ok(())
}

/// A trace has one misfit with a scale.
pub fn one_misfit()
    ensures { (scale : TraceScale) (shift pages : ℕ) (a b : Misfit) → IsMisfit scale shift pages a
        → IsMisfit scale shift pages b → a ≡ b }
{}
