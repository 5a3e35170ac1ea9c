//! Whole runs of events. No program runs it: it serves users of the library, and tests.

// `Stops` holds of one value alone, and of none if the run is legal: `one_stop`.

ghost use Rattle.std.specs.Prelude.{◌≡◌, ℕ, List, IfOk, IfErr, OnOk};
ghost use Rattle.dirty_core.specs.declared.event.Event.{Event as AnyEvent};
ghost use Rattle.page_bitmap.specs.Pages.{in_words};
ghost use Rattle.dirty_core.specs.Start.{Start, IsStart, sizes_of};
ghost use Rattle.dirty_core.specs.Kept.{Keeps, kept_sizes};
ghost use Rattle.dirty_core.specs.Runs.{core_after, IsLegal, CaughtUp, OnlyDue, KnowsMark, KnowsPlace, IsOverReads};
ghost use Rattle.dirty_core.specs.Runs.{IsReal, RunRefuses};

use crate::event::Event;
use crate::machine::{Core, step};
use crate::opening::Opening;
use crate::refusal::CoreRefusal;
use std::alloc::Global;

/// Takes all events in order, from an opening on. An error has the index of the event that was refused, from 0, or
/// index 0 with `C6` if memory ran out for the opening.
pub fn run(alloc: Global, opening: &Opening, events: &[Event]) -> Result<Core, (usize, CoreRefusal)>
    ensures legal { OnOk result (IsLegal opening.now events.now) }
    ensures leads { IfOk result (λ core. Keeps core (core_after opening.now events.now)) }
    ensures caught_up { OnOk result (CaughtUp (core_after opening.now events.now)) }
    ensures only_due { OnOk result (OnlyDue (core_after opening.now events.now)) }
    ensures sizes { IfOk result (λ core. kept_sizes core ≡ sizes_of opening.now) }
    ensures refused { IfErr result (RunRefuses opening.now events.now) }
{
    let mut core = match Core::open(alloc, opening) {
        Ok(core) => core,
        Err(refusal) => return Err((0, refusal)),
    };
    for (index, event) in events.iter().enumerate() {
        if let Err(refusal) = step(&mut core, *event) {
            return Err((index, refusal));
        }
    }
    Ok(core)
}

/// After any legal list of events no changed page is lost, and no other page is marked. The history also says of each
/// page what a caller needs that keeps a core in words of its own.
pub fn every_page()
    ensures caught_up { (start : Start) (events : List AnyEvent) → IsLegal start events
        → CaughtUp (core_after start events) }
    ensures only_due { (start : Start) (events : List AnyEvent) → IsLegal start events
        → OnlyDue (core_after start events) }
    ensures mark { (start : Start) (events : List AnyEvent) → IsLegal start events
        → (page : ℕ) → KnowsMark (core_after start events) page }
    ensures real { (start : Start) (events : List AnyEvent) → IsStart start → IsLegal start events
        → (page : ℕ) → IsReal (core_after start events) page }
    ensures sizes { (start : Start) (events : List AnyEvent) → (core_after start events).sizes ≡ sizes_of start }
    ensures at_opening { (start : Start) (events : List AnyEvent)
        → (core_after start events).at_opening ≡ in_words start.dirty }
    ensures place { (start : Start) (events : List AnyEvent) → IsLegal start events
        → (page : ℕ) → KnowsPlace start (core_after start events) page }
    ensures over { (start : Start) (events : List AnyEvent) → IsLegal start events
        → (page : ℕ) → IsOverReads start (core_after start events) page }
{}
