//! Sums of the plans of many settings over one trace.

// `IsPlan` holds of one value alone: `one_plan`.

ghost use Rattle.std.specs.Prelude.{IfErr, IfOk, None, replicate, ◌≡◌};
ghost use Rattle.migration_model.specs.Sweeps.{IsOutcome};
ghost use Rattle.round_planner.specs.Indexing.{IsRoundIndexOf};
ghost use Rattle.round_planner.specs.Known.{IsPlannerFor};

use crate::error::PlanError;
use crate::index::RoundIndex;
use crate::known::{Followed, KnownRound, follow, no_rounds};
use crate::marked::marked_on;
use crate::parts::Outcome;
use crate::tally::{counted_rounds, first_counted};
use guest_log::Timeline;
use page_bitmap::word_count;
use rate_limit::Settings;
use std::alloc::Global;
use std::marker::Model;

/// Makes the sums of plans, one after another, with buffers that are allocated once. A planner is for one trace: it
/// remembers the last round of each number that it worked out, and a plan that begins as the last one did goes on from
/// there. So plans of equal starts, rates and skipping are best asked for one after another.
#[derive(Drop)]
pub struct Planner {
    marks: Vec<u64>,
    /// A buffer for the list of a round's pages.
    room: Vec<u32>,
    /// A slot for a round of each number.
    known: Vec<Option<KnownRound>>,
}

impl Model for Planner {
    ghost use Rattle.std.specs.Prelude.{◌≡◌, length};
    ghost use Rattle.round_planner.specs.Indexing.{AreMarksOf};
    ghost use Rattle.round_planner.specs.Known.{PlannerState};

    ghost Value = { PlannerState };

    ghost view = { λ p. record { pages = length p.room.items; known = p.known.items } };

    ghost invariant = { λ p. AreMarksOf (length p.room.items) p.marks.items p.room.items
        × (length p.known.items ≡ 64) };
}

impl Planner {
    /// Returns a planner for a trace. The error is `Memory`, if memory runs out for its buffers of 33 bits a page and
    /// of 64 rounds.
    pub fn new<T: Timeline>(alloc: Global, timeline: &T) -> Result<Planner, PlanError>
        ensures value { IfOk result (λ planner. planner
            ≡ record { pages = T.pages timeline.now; known = replicate 64 None }) }
        ensures planner { IfOk result (IsPlannerFor (T.pages timeline.now) (T.touches timeline.now)) }
        ensures refusal { IfErr result (λ e. e ≡ PlanError.Memory) }
    {
        let pages = timeline.page_count() as usize;
        Ok(Planner {
            marks: Vec::from_elem(alloc, 0, word_count(pages))?,
            room: Vec::from_elem(alloc, 0, pages)?,
            known: no_rounds(alloc)?,
        })
    }

    /// Returns the sums of the plan of some settings: as many rounds, the same end and as many pages sent as the plan
    /// of `plan` has. It allocates nothing.
    ///
    /// Rounds that are remembered cost nothing. Of the others, if no page is skipped, it reads 4 bytes for each touch
    /// in their ticks and no more. If pages are skipped, it marks the pages of these touches, and of those in the last
    /// round that was remembered. If the settings have a base, it also reads 4 bytes for each touch from there to the
    /// first tick.
    pub fn outcome<T: Timeline>(
        &mut self,
        timeline: &T,
        index: &RoundIndex,
        settings: &Settings,
    ) -> Outcome
        requires planner { IsPlannerFor (T.pages timeline.now) (T.touches timeline.now) self.old }
        requires index { IsRoundIndexOf (T.pages timeline.now) (T.touches timeline.now) index.now }
        ensures outcome { IsOutcome (T.pages timeline.now) (T.touches timeline.now) settings.now result }
        ensures planner { IsPlannerFor (T.pages timeline.now) (T.touches timeline.now) self.new }
    {
        let first = first_counted(timeline, index, settings);
        let ahead = match follow(timeline, settings, first, &self.known) {
            Followed::Round(ahead) => ahead,
            Followed::Stop(outcome) => return outcome,
        };
        if settings.asked().skip {
            marked_on(
                timeline,
                settings,
                ahead,
                &mut self.marks,
                &mut self.room,
                &mut self.known,
            )
        } else {
            counted_rounds(timeline, index, settings, ahead, &mut self.known)
        }
    }
}
