//! The index that the plans of one trace share.

ghost use Rattle.std.specs.Prelude.{◌≡◌, ◌≤◌, ◌<◌, ◌-◌, ◌^◌, IfErr, IfOk, drop, length, nat_le, take};
ghost use Rattle.std.specs.List.{count_by};
ghost use Rattle.round_planner.specs.Indexing.{IsRoundIndexOf};

use crate::error::PlanError;
use guest_log::Timeline;
use std::alloc::Global;
use std::marker::Model;

/// For each touch, when its page was touched before: 4 bytes a touch. With the index, one pass over numbers counts the
/// pages of a round, and marks no page.
#[derive(Debug, Drop)]
pub struct RoundIndex {
    /// 1 more than the index of the previous touch to the same page, or 0.
    earlier: Vec<u32>,
}

impl Model for RoundIndex {
    ghost use Rattle.round_planner.specs.Indexing.{RoundColumns};

    ghost Value = { RoundColumns };

    ghost view = { λ i. record { earlier = i.earlier.items } };
}

impl RoundIndex {
    /// Returns the index of a trace. The error is `Memory`, if memory runs out.
    pub fn build<T: Timeline>(alloc: Global, timeline: &T) -> Result<RoundIndex, PlanError>
        ensures index { IfOk result (λ index. IsRoundIndexOf (T.pages timeline.now) (T.touches timeline.now) index) }
        ensures refusal { IfErr result (λ e. e ≡ PlanError.Memory) }
    {
        let count = timeline.touch_count();
        let mut last = Vec::from_elem(alloc, 0u32, timeline.page_count() as usize)?;
        let mut earlier = Vec::with_capacity(alloc, count)?;
        for number in 0..count {
            let page = timeline.touch(number).page;
            earlier.push(last[page as usize])?;
            last[page as usize] = number as u32 + 1;
        }
        Ok(RoundIndex { earlier })
    }

    /// Returns how many of the touches from `low` on and before `high` are the first of their pages there.
    pub(crate) fn first_touches(&self, low: usize, high: usize) -> u32
        requires order { low ≤ high }
        requires bound { high ≤ length self.now.earlier }
        requires few { length self.now.earlier < 2 ^ 32 }
        ensures { result ≡ count_by (λ place. nat_le place low) (take (high - low) (drop low self.now.earlier)) }
    {
        let (_, rest) = self.earlier.split_at(low);
        let (part, _) = rest.split_at(high - low);
        count_up_to(part, low as u32)
    }
}

/// Returns how many of these numbers are not above `low`.
fn count_up_to(places: &[u32], low: u32) -> u32
    requires { length places.now < 2 ^ 32 }
    ensures { result ≡ count_by (λ place. nat_le place low) places.now }
{
    let mut count = 0u32;
    for place in places {
        count += u32::from(*place <= low);
    }
    count
}
