//! Sums of the results of plans.

ghost use Rattle.std.specs.Prelude.{◌≡◌, ◌≤◌, ◌<◌, ◌+◌, ◌*◌, ◌^◌, ◌++◌, ◌∷◌, [], List, length};
ghost use Rattle.predictions.specs.Units.Scales.{micros_of};
ghost use Rattle.page_bitmap.specs.Listing.{word_count};
ghost use Rattle.predictions.specs.Redrawn.Errors.{HasErrors};
ghost use Rattle.predictions.specs.Redrawn.Sums.{AreLow, AreSums, AreSumsOf};
ghost use Rattle.predictions.specs.declared.course.Course.{Course};

use crate::course::{Course, Manner};
use crate::redrawn::courses::drawn_course;
use crate::redrawn::spread::Spread;
use crate::units::Scale;
use guest_log::Timeline;
use rate_limit::Settings;

/// How many plans there are.
const PLANS: u64 = 20;

/// The sums of what some plans send, of how long they take, and of how long the guest does not run.
#[derive(Clone, Copy)]
pub(crate) struct Sums {
    /// How many plans there are.
    pub(crate) count: u64,
    pub(crate) sent: Spread,
    pub(crate) time: Spread,
    pub(crate) pause: Spread,
}

impl Sums {
    /// The sums of no plan.
    pub(crate) const NONE: Sums = Sums {
        count: 0,
        sent: Spread::NONE,
        time: Spread::NONE,
        pause: Spread::NONE,
    };
}

/// Returns how long some ticks are, in microseconds.
fn micros(scale: &Scale, ticks: u64) -> u64
    requires { ticks ≤ 4_259_840_000 }
    ensures time { result ≡ micros_of scale.now ticks }
    ensures small { result ≤ 2 ^ 52 }
{
    let _guest = scale.guest();
    ticks * scale.tick()
}

impl Sums {
    /// Returns the sums with one more plan, which begins at a tick.
    fn with(self, scale: &Scale, settings: &Settings, course: &Course) -> Sums
        requires few { self.count < 20 }
        requires low { AreLow self }
        requires total { course.now.total ≤ 131_203_072 }
        requires stop { course.now.stop ≤ settings.now.start + 4_194_304_000 }
        requires down { course.now.down ≤ 65_536_000 }
        ensures count { result.count ≡ self.count + 1 }
        ensures low { AreLow result }
        ensures sums { (courses : List Course) → AreSums scale.now settings.now courses self
            → AreSums scale.now settings.now (courses ++ course.now ∷ []) result }
    {
        let lasted = course.stop.saturating_sub(settings.asked().start);
        Sums {
            count: self.count + 1,
            sent: self.sent.with(course.total),
            time: self.time.with(micros(scale, lasted + course.down)),
            pause: self.pause.with(micros(scale, course.down)),
        }
    }
}

/// Returns the sums of the plans of the first 20 draws, by a manner.
pub(crate) fn summed<T: Timeline>(
    timeline: &T,
    settings: &Settings,
    scale: &Scale,
    manner: Manner,
    room: &mut [u32],
    bits: &mut [u64],
) -> Sums
    requires sampled { HasErrors scale.now }
    requires room { 2 * scale.now.sampled ≤ length room.old }
    requires bits { 2 * word_count (T.pages timeline.now) + word_count scale.now.sampled ≤ length bits.old }
    ensures sums { AreSumsOf manner (T.pages timeline.now) (T.touches timeline.now) settings.now scale.now 20 result }
    ensures count { result.count ≡ 20 }
    ensures low { AreLow result }
{
    let mut sums = Sums::NONE;
    let mut state = 0;
    for _plan in 0..PLANS {
        let (after, course) = drawn_course(timeline, settings, scale, manner, state, room, bits);
        sums = sums.with(scale, settings, &course);
        state = after;
    }
    sums
}
