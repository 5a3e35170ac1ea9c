//! What a hypervisor's plan predicts.

// `IsForecast` holds of one value alone: `one_forecast`.

ghost use Rattle.std.specs.Prelude.{◌≡◌, ◌<◌, ◌≤◌, ◌^◌, ℕ, IfNone, IfSome, List, Option, length};
ghost use Rattle.look_planner.specs.Plans.{PlanNumbers};
ghost use Rattle.look_planner.specs.Sums.{HasSums};
ghost use Rattle.migration_model.specs.Rates.{MigrationSettings};
ghost use Rattle.migration_model.specs.Touches.{GuestTouch};
ghost use Rattle.page_bitmap.specs.Listing.{word_count};
ghost use Rattle.predictions.specs.Looks.{IsForecast, LookForecast, look_settings};
ghost use Rattle.predictions.specs.Units.Scales.{TraceScale};
ghost use Rattle.predictions.specs.declared.units.limits.Limits.{Limits};

use crate::units::{Limits, Scale};
use guest_log::{Timeline, last_tick};
use look_planner::{LookAsked, LookSettings, LookSums, PlanEnd, look_sums};
use page_bitmap::word_count;
use rate_limit::Settings;
use round_planner::PlanError;
use std::alloc::Global;
use std::marker::Model;

/// How often QEMU asks how many pages are left, in microseconds.
const WINDOW: u64 = 100_000;

/// What a migration will be: how it ends, and what it costs. Its hypervisor sends with the whole link, asks each 100 ms
/// how many pages of its list are left, and looks at its dirty bitmap again when these go within the downtime.
#[derive(Debug, Drop)]
pub struct LookForecast {
    /// Why it ends.
    pub end: PlanEnd,
    /// How many looks there are.
    pub looks: u64,
    /// From its start until the guest runs again, in microseconds. If the trace ends first, until then and as long as
    /// it takes to send what is left.
    pub time: u128,
    /// How many bytes of the guest are sent, in all lists and at the end.
    pub bytes: u128,
    /// How many of them are left at the end.
    pub left: u128,
    /// How long the guest does not run, in microseconds.
    pub downtime: u128,
    /// Whether the downtime is within its limit.
    pub is_kept: bool,
}

impl Model for LookForecast {
    ghost use Rattle.std.specs.Prelude.{◌<◌, ◌^◌};
    ghost use Rattle.look_planner.specs.Plans.{end_of};
    ghost use Rattle.predictions.specs.Looks.{LookForecast};

    ghost Value = { LookForecast };

    ghost view = { λ f. record {
      end = end_of f.end;
      looks = f.looks;
      time = f.time;
      bytes = f.bytes;
      left = f.left;
      downtime = f.downtime;
      is_kept = f.is_kept;
    } };

    ghost invariant = { λ f. (f.bytes < 2 ^ 110) × (f.left < 2 ^ 110) };
}

/// Returns what is asked of the hypervisor if the record ends at a tick.
pub(crate) fn look_asked(scale: &Scale, settings: &Settings, end: u64) -> LookAsked
    ensures { result ≡ look_settings scale.now settings.now end }
{
    let asked = settings.asked();
    LookAsked {
        start: asked.start,
        base: asked.base,
        rate: asked.max,
        window: scale.ticks(WINDOW),
        threshold: asked.threshold,
        looks: None,
        end,
    }
}

/// Returns the settings of the hypervisor, if the trace does not end before its start.
fn settings_of(scale: &Scale, settings: &Settings, last: u64) -> Option<LookSettings>
    requires { last < 2 ^ 40 }
    ensures none { IfNone result (last < settings.now.start) }
    ensures some { IfSome result (λ s. settings.now.start ≤ last) }
    ensures settings { IfSome result (λ s. s ≡ look_settings scale.now settings.now last) }
{
    if settings.asked().start > last {
        return None;
    }
    let Ok(settings) = LookSettings::new(look_asked(scale, settings, last)) else {
        unreachable!()
    };
    Some(settings)
}

impl LookForecast {
    ghost use Rattle.std.specs.Prelude.{◌≡◌, IfErr, IfOk};
    ghost use Rattle.predictions.specs.Looks.{IsForecast, forecast_of, sent_before};

    /// Returns how many bytes are sent before the guest stops, or the trace ends.
    pub fn sent_before(&self) -> u128
        ensures { result ≡ sent_before self.now }
    {
        self.bytes.saturating_sub(self.left)
    }

    /// Returns what a plan with these sums comes to that begins at a tick, over a trace of this scale.
    fn of_sums(scale: &Scale, limits: &Limits, start: u64, sums: &LookSums) -> LookForecast
        ensures { (numbers : PlanNumbers) → HasSums numbers sums.now
            → result ≡ forecast_of scale.now limits.now start numbers }
    {
        let downtime = scale.micros(sums.down) + limits.reserve as u128;
        LookForecast {
            end: sums.end,
            looks: sums.looks,
            time: scale.micros(sums.stop.saturating_sub(start)) + downtime,
            bytes: scale.bytes(sums.total),
            left: scale.bytes(sums.left),
            downtime,
            is_kept: downtime <= limits.downtime as u128,
        }
    }

    /// Returns what a migration over a timeline will be, or None if it begins after the last tick.
    ///
    /// It allocates nothing: the caller lends a bit of `marks` and a slot of `list` for each page. What they hold does
    /// not matter.
    pub fn over<T: Timeline>(
        timeline: &T,
        settings: &Settings,
        scale: &Scale,
        limits: &Limits,
        marks: &mut [u64],
        list: &mut [u32],
    ) -> Option<LookForecast>
        requires marks { length marks.old ≡ word_count (T.pages timeline.now) }
        requires list { length list.old ≡ T.pages timeline.now }
        ensures { IsForecast (T.pages timeline.now) (T.touches timeline.now) scale.now limits.now settings.now result }
    {
        let looks = settings_of(scale, settings, last_tick(timeline))?;
        let sums = look_sums(timeline, &looks, marks, list);
        let start = settings.asked().start;
        Some(LookForecast::of_sums(scale, limits, start, &sums))
    }

    /// Returns what `over` does. The only error is that memory runs out.
    pub fn of_trace<T: Timeline>(
        alloc: Global,
        timeline: &T,
        settings: &Settings,
        scale: &Scale,
        limits: &Limits,
    ) -> Result<Option<LookForecast>, PlanError>
        ensures made { IfOk result (IsForecast (T.pages timeline.now) (T.touches timeline.now) scale.now limits.now
            settings.now) }
        ensures refused { IfErr result (λ e. e ≡ PlanError.Memory) }
    {
        let pages = timeline.page_count() as usize;
        let mut marks = Vec::from_elem(alloc, 0, word_count(pages))?;
        let mut list = Vec::from_elem(alloc, 0, pages)?;
        Ok(LookForecast::over(timeline, settings, scale, limits, &mut marks, &mut list))
    }
}

/// A hypervisor's migration has one forecast, or none.
pub fn one_forecast()
    ensures { (pages : ℕ) (touches : List GuestTouch) (scale : TraceScale) (limits : Limits) (s : MigrationSettings)
        (a b : Option LookForecast) → IsForecast pages touches scale limits s a
        → IsForecast pages touches scale limits s b → a ≡ b }
{}
