//! How far chance moves a plan, if pages were sampled.

// `AreErrors` holds of one value alone: `one_errors`.

ghost use Rattle.std.specs.Prelude.{◌≡◌, ◌↔◌, ◌≤◌, ◌+◌, ◌*◌, ◌-◌, ◌^◌, ℕ, IfOk, IsTrue, List, length};
ghost use Rattle.predictions.specs.Units.Scales.{IsScale};
ghost use Rattle.page_bitmap.specs.Listing.{word_count};
ghost use Rattle.predictions.specs.Redrawn.Errors.{AreErrors, AreErrorsOf, HasErrors, IsErrorOf};
ghost use Rattle.predictions.specs.Redrawn.Sums.{IsSpread};

use crate::course::Manner;
use crate::redrawn::roots::{root_above_quotient, share_above};
use crate::redrawn::spread::Spread;
use crate::redrawn::sums::summed;
use crate::units::Scale;
use guest_log::Timeline;
use page_bitmap::word_count;
use rate_limit::Settings;
use std::alloc::{AllocError, Global};
use std::marker::Model;

/// The most pages of a trace, and so of a sample.
const MOST_PAGES: u64 = 65_536;

/// How many plans there are, times one less.
const WEIGHT: u128 = 380;

/// Standard errors of what a plan predicts.
#[derive(Clone, Copy, Debug, PartialEq, Eq)]
pub struct Errors {
    /// Of the bytes of the guest that are sent.
    pub bytes: u128,
    /// Of the time, in microseconds.
    pub time: u128,
    /// Of the downtime, in microseconds.
    pub downtime: u128,
}

impl Model for Errors {
    ghost use Rattle.predictions.specs.Redrawn.Errors.{SampleErrors};
    ghost use Rattle.std.specs.Prelude.{◌<◌, ◌^◌};

    ghost Value = { SampleErrors };

    ghost view = { λ e. record { bytes = e.bytes; time = e.time; downtime = e.downtime } };

    ghost invariant = { λ e. e.bytes < 2 ^ 110 };

    ghost inverse = { λ e. record { bytes = e.bytes; time = e.time; downtime = e.downtime } };
}

/// Returns whether standard errors are given for a trace of this scale.
pub fn has_errors(scale: &Scale) -> bool
    ensures told { IsTrue result ↔ HasErrors scale.now }
    ensures in_range { IsScale scale.now }
{
    let (sampled, guest) = (scale.sampled(), scale.guest());
    2 <= sampled && sampled < guest && sampled <= MOST_PAGES
}

/// Returns the standard error of what 20 plans send, in pages of the guest.
fn sent_error(scale: &Scale, sent: Spread) -> u128
    requires sampled { HasErrors scale.now }
    requires sum { sent.sum ≤ 20 * 131_203_072 }
    requires squares { sent.squares ≤ 20 * 17_214_246_102_237_184 }
    ensures error { (numbers : List ℕ) → length numbers ≡ 20 → IsSpread numbers sent → IsErrorOf numbers
        ((scale.now.guest - scale.now.sampled) * scale.now.guest) (scale.now.sampled * scale.now.sampled) result }
    ensures small { result ≤ 2 ^ 64 }
    ensures in_range { IsScale scale.now }
{
    let guest = scale.guest() as u128;
    let sampled = scale.sampled() as u128;
    let left = guest - sampled;
    root_above_quotient(sent.apart() * (left * guest), WEIGHT * (sampled * sampled))
}

/// Returns the standard error of 20 times, in microseconds.
fn time_error(scale: &Scale, times: Spread) -> u128
    requires sampled { HasErrors scale.now }
    requires sum { times.sum ≤ 20 * 2 ^ 52 }
    requires squares { times.squares ≤ 20 * 2 ^ 104 }
    ensures { (numbers : List ℕ) → length numbers ≡ 20 → IsSpread numbers times → IsErrorOf numbers
        (scale.now.guest - scale.now.sampled) scale.now.guest result }
{
    let guest = scale.guest() as u128;
    let left = guest - scale.sampled() as u128;
    root_above_quotient(share_above(times.apart(), left, guest), WEIGHT)
}

/// Returns the standard errors of what the plan of a trace predicts, by the plans of 20 draws from its pages and by a
/// manner.
///
/// It allocates nothing: the caller lends two slots of `room` for each page of the sample, and in whole words two bits
/// of `bits` for each page of the trace and one for each of the sample. What they hold does not matter. It costs as
/// much as 20 plans.
pub fn sample_errors<T: Timeline>(
    timeline: &T,
    settings: &Settings,
    scale: &Scale,
    manner: Manner,
    room: &mut [u32],
    bits: &mut [u64],
) -> Errors
    requires sampled { HasErrors scale.now }
    requires room { 2 * scale.now.sampled ≤ length room.old }
    requires bits { 2 * word_count (T.pages timeline.now) + word_count scale.now.sampled ≤ length bits.old }
    ensures { AreErrorsOf manner (T.pages timeline.now) (T.touches timeline.now) settings.now scale.now result }
{
    let sums = summed(timeline, settings, scale, manner, room, bits);
    Errors {
        bytes: sent_error(scale, sums.sent) * scale.page() as u128,
        time: time_error(scale, sums.time),
        downtime: time_error(scale, sums.pause),
    }
}

impl Errors {
    /// Returns the standard errors of what the plan of a trace predicts by a manner, if pages were sampled. The only
    /// error is that memory runs out.
    pub fn of_trace<T: Timeline>(
        alloc: Global,
        timeline: &T,
        settings: &Settings,
        scale: &Scale,
        manner: Manner,
    ) -> Result<Option<Errors>, AllocError>
        ensures { IfOk result (AreErrors manner (T.pages timeline.now) (T.touches timeline.now) settings.now
            scale.now) }
    {
        if !has_errors(scale) {
            return Ok(None);
        }
        let sampled = scale.sampled() as usize;
        let words = 2 * word_count(timeline.page_count() as usize) + word_count(sampled);
        let mut room = Vec::from_elem(alloc, 0, 2 * sampled)?;
        let mut bits = Vec::from_elem(alloc, 0, words)?;
        let errors = sample_errors(timeline, settings, scale, manner, &mut room, &mut bits);
        Ok(Some(errors))
    }
}
