//! What is enough for the limit of a question, in the numbers that C and a web page have.

ghost use Rattle.std.specs.Prelude.{◌≡◌, ◌-◌, ◌*◌, ◌^◌, if◌then◌else◌, IfErr, IfOk, IsOk, OnOk, is_some, min};
ghost use Rattle.std.specs.Prelude.{unwrap_or};
ghost use Rattle.predictions.specs.Remedies.Questions.{remedy_numbers, trial_in};
ghost use Rattle.predictions.specs.Questions.{AcceptsQuestion, RefusesQuestion, given};

use crate::question::Question;
use crate::remedies::change::KBIT;
use crate::remedies::finding::Remedies;
use crate::remedies::trial::Trial;
use crate::units::UnitsError;

/// Whether a migration keeps its limit, and the least amounts that do, each by itself; and what ends it within the
/// trace. An amount that was not found is 0. It is laid out as C's `struct precopy_amounts`.
#[derive(Clone, Copy, Debug, PartialEq, Eq)]
#[repr(C)]
pub struct RemedyNumbers {
    /// The least link, in bytes a second, if `has_link` is not 0.
    pub link: u64,
    /// The least downtime, in microseconds, if `has_downtime` is not 0.
    pub downtime: u64,
    /// To how many per cent of its speed the guest has to be slowed, if `has_speed` is not 0.
    pub speed: u64,
    /// The least link with which the migration ends within the trace, in bytes a second, if `has_ending_link` is not 0.
    pub ending_link: u64,
    /// The latest start from which it does, if `has_ending_start` is not 0.
    pub ending_start: u64,
    /// Whether a link was found: 0 for no.
    pub has_link: u32,
    /// Whether a downtime was found: 0 for no.
    pub has_downtime: u32,
    /// Whether a speed was found: 0 for no; if the limit is kept there is none.
    pub has_speed: u32,
    /// Whether a link that ends the migration within the trace was found: 0 for no; if it ends there as it is there is
    /// none.
    pub has_ending_link: u32,
    /// Whether such a start was found: 0 for no, in the same way.
    pub has_ending_start: u32,
    /// Whether the limit is kept as it is: 0 for no.
    pub is_kept: u32,
    /// Whether the migration ends within the trace as it is: 0 for no.
    pub ends: u32,
}

/// Returns a link in bytes a second by one in Kbit a second, or 0 if there is none.
fn link_bytes(kbit: Option<u64>) -> u64
    ensures { result ≡ min (unwrap_or kbit 0 * 125) (2 ^ 64 - 1) }
{
    kbit.unwrap_or(0).saturating_mul(KBIT)
}

/// Returns whether an amount was found: 0 for no.
fn has(amount: Option<u64>) -> u32
    ensures { result ≡ (if is_some amount then 1 else 0) }
{
    u32::from(amount.is_some())
}

impl RemedyNumbers {
    /// Returns what was found, with links in bytes a second.
    pub fn new(found: &Remedies) -> RemedyNumbers
        ensures { result ≡ remedy_numbers found.now }
    {
        RemedyNumbers {
            link: link_bytes(found.link),
            downtime: found.downtime.unwrap_or(0),
            speed: found.speed.unwrap_or(0),
            ending_link: link_bytes(found.ending.link),
            ending_start: found.ending.start.unwrap_or(0),
            has_link: has(found.link),
            has_downtime: has(found.downtime),
            has_speed: has(found.speed),
            has_ending_link: has(found.ending.link),
            has_ending_start: has(found.ending.start),
            is_kept: u32::from(found.is_kept),
            ends: u32::from(found.ending.ends),
        }
    }
}

/// Returns the increment of a question, if it gives one.
fn increment_of(question: &Question) -> Option<u64>
    ensures { result ≡ given question.now.has_increment question.now.increment }
{
    if question.has_increment == 0 {
        return None;
    }
    Some(question.increment)
}

impl Trial {
    /// Returns the migration that a question asks for, or the first thing that is out of its range.
    pub fn of_question(question: &Question) -> Result<Trial, UnitsError>
        ensures made { IfOk result (λ trial. trial ≡ trial_in question.now) }
        ensures accepted { OnOk result (AcceptsQuestion question.now) }
        ensures refused { IfErr result (RefusesQuestion question.now) }
        ensures only { AcceptsQuestion question.now → IsOk result }
    {
        let terms = question.terms()?;
        Ok(Trial {
            scale: terms.scale,
            limits: terms.limits,
            increment: increment_of(question),
            others: *terms.settings.asked(),
            manner: terms.manner,
        })
    }
}
