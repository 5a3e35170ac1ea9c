//! What the plan of redrawn pages comes to, by a manner.

// `IsCourse` holds of one value alone: `one_course`.

ghost use Rattle.std.specs.Prelude.{◌≡◌, ◌≤◌, ◌+◌, ◌*◌, ℕ, length};
ghost use Rattle.look_planner.specs.DrawnPages.{AreDrawn, redrawn_touches};
ghost use Rattle.migration_model.specs.Touches.{last_tick_of};
ghost use Rattle.page_bitmap.specs.Listing.{word_count};
ghost use Rattle.predictions.specs.Courses.{IsCourse};
ghost use Rattle.predictions.specs.Redrawn.Draws.{IsState, drawn_after, state_after};
ghost use Rattle.predictions.specs.Redrawn.Errors.{HasErrors, IsRedrawn};
ghost use Rattle.predictions.specs.Units.Scales.{TraceScale};
ghost use Rattle.predictions.specs.declared.course.Manner.TheVariants as manners;

use crate::course::{Course, Manner, course_settings};
use crate::redrawn::draws::draw;
use crate::redrawn::plans::redrawn_outcome;
use crate::units::Scale;
use guest_log::{Timeline, last_tick};
use look_planner::redrawn_sums;
use page_bitmap::word_count;
use rate_limit::Settings;

/// Returns what Clark's plan of drawn pages comes to.
fn redrawn_rounds<T: Timeline>(
    timeline: &T,
    settings: &Settings,
    drawn: &[u32],
    bits: &mut [u64],
) -> Course
    requires drawn { AreDrawn (T.pages timeline.now) drawn.now }
    requires bits { 2 * word_count (T.pages timeline.now) ≤ length bits.old }
    ensures course { (scale : TraceScale) → IsCourse manners.Rounds (length drawn.now)
        (redrawn_touches drawn.now (T.touches timeline.now)) scale settings.now (last_tick_of (T.touches timeline.now))
        result }
    ensures total { result.total ≤ 131_203_072 }
    ensures stop { result.stop ≤ settings.now.start + 4_194_304_000 }
    ensures down { result.down ≤ 65_536_000 }
{
    let words = word_count(timeline.page_count() as usize);
    let (listed, rest) = bits.split_at_mut(words);
    let (marks, _) = rest.split_at_mut(words);
    let outcome = redrawn_outcome(timeline, settings, drawn, listed, marks);
    Course::of_outcome(&outcome)
}

/// Returns what a hypervisor's plan of drawn pages comes to.
fn redrawn_looks<T: Timeline>(
    timeline: &T,
    settings: &Settings,
    scale: &Scale,
    drawn: &[u32],
    bits: &mut [u64],
    room: &mut [u32],
) -> Course
    requires drawn { AreDrawn (T.pages timeline.now) drawn.now }
    requires bits { word_count (T.pages timeline.now) + word_count (length drawn.now) ≤ length bits.old }
    requires room { length drawn.now ≤ length room.old }
    ensures course { IsCourse manners.Looks (length drawn.now) (redrawn_touches drawn.now (T.touches timeline.now))
        scale.now settings.now (last_tick_of (T.touches timeline.now)) result }
    ensures total { result.total ≤ 131_203_072 }
    ensures stop { result.stop ≤ settings.now.start + 4_194_304_000 }
    ensures down { result.down ≤ 65_536_000 }
{
    let looks = course_settings(scale, settings, last_tick(timeline));
    let (marks, rest) = bits.split_at_mut(word_count(timeline.page_count() as usize));
    let (places, _) = rest.split_at_mut(word_count(drawn.len()));
    let (list, _) = room.split_at_mut(drawn.len());
    let sums = redrawn_sums(timeline, &looks, drawn, marks, places, list);
    Course::of_sums(&sums)
}

/// Returns what the plan of a guest comes to that consists of drawn pages, by a manner: page `n` of it is written
/// whenever page `drawn[n]` of the timeline is.
///
/// It allocates nothing: the caller lends two bits of `bits` for each page of the timeline, a bit more and a slot of
/// `room` for each page that is drawn, each in whole words. What they hold does not matter.
pub fn redrawn_course<T: Timeline>(
    timeline: &T,
    settings: &Settings,
    scale: &Scale,
    manner: Manner,
    drawn: &[u32],
    bits: &mut [u64],
    room: &mut [u32],
) -> Course
    requires drawn { AreDrawn (T.pages timeline.now) drawn.now }
    requires bits { 2 * word_count (T.pages timeline.now) + word_count (length drawn.now) ≤ length bits.old }
    requires room { length drawn.now ≤ length room.old }
    ensures course { IsRedrawn manner (T.touches timeline.now) scale.now settings.now drawn.now result }
    ensures total { result.total ≤ 131_203_072 }
    ensures stop { result.stop ≤ settings.now.start + 4_194_304_000 }
    ensures down { result.down ≤ 65_536_000 }
{
    match manner {
        Manner::Looks => redrawn_looks(timeline, settings, scale, drawn, bits, room),
        Manner::Rounds => redrawn_rounds(timeline, settings, drawn, bits),
    }
}

/// Draws as many pages as the sample has, from a state on. Returns the last state, and what the plan of a guest comes
/// to that consists of these pages, by a manner.
///
/// It allocates nothing: the caller lends two slots of `room` for each page of the sample, and in whole words two bits
/// of `bits` for each page of the timeline and one for each of the sample. What they hold does not matter.
pub(crate) fn drawn_course<T: Timeline>(
    timeline: &T,
    settings: &Settings,
    scale: &Scale,
    manner: Manner,
    before: u64,
    room: &mut [u32],
    bits: &mut [u64],
) -> (u64, Course)
    requires sampled { HasErrors scale.now }
    requires before { IsState before }
    requires room { 2 * scale.now.sampled ≤ length room.old }
    requires bits { 2 * word_count (T.pages timeline.now) + word_count scale.now.sampled ≤ length bits.old }
    ensures state { (steps : ℕ) → before ≡ state_after steps
        → result.0 ≡ state_after (steps + scale.now.sampled) }
    ensures course { (steps : ℕ) → before ≡ state_after steps → IsRedrawn manner (T.touches timeline.now) scale.now
        settings.now (drawn_after scale.now.sampled (T.pages timeline.now) steps) result.1 }
    ensures total { result.1.total ≤ 131_203_072 }
    ensures stop { result.1.stop ≤ settings.now.start + 4_194_304_000 }
    ensures down { result.1.down ≤ 65_536_000 }
{
    let sampled = scale.sampled();
    let (slots, list) = room.split_at_mut(sampled as usize);
    let (after, count) = draw(before, sampled, timeline.page_count(), slots);
    let (drawn, _) = slots.split_at(count);
    let course = redrawn_course(timeline, settings, scale, manner, drawn, bits, list);
    (after, course)
}
