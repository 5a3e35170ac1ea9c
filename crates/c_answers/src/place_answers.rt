//! Why there is no answer about a page or a place of a trace.

ghost use Rattle.std.specs.Prelude.{◌≡◌};

use crate::answers::Refusal;

/// Why a call about a page or a place of a trace refuses.
#[derive(Clone, Copy)]
pub enum PlaceRefusal {
    /// The guest does not have the page.
    NoPage,
    /// A step ends before it begins.
    Backwards,
    /// The page has no version with this stamp.
    NoVersion,
    /// The number of bytes of memory is not that of all pages.
    MemoryLength,
    /// A buffer is too short for what belongs there.
    ShortBuffer,
}

impl PlaceRefusal {
    ghost use Rattle.std.specs.Prelude.{◌≡◌, ◌≤◌};
    ghost use Rattle.c_answers.specs.Places.{number_of_place};

    /// Returns the number that C sees.
    pub fn number(self) -> u32
        ensures number { result ≡ number_of_place self }
        ensures some { 1 ≤ result }
    {
        match self {
            PlaceRefusal::NoPage => 67,
            PlaceRefusal::Backwards => 68,
            PlaceRefusal::NoVersion => 71,
            PlaceRefusal::MemoryLength => Refusal::MemoryLength.number(),
            PlaceRefusal::ShortBuffer => Refusal::ShortBuffer.number(),
        }
    }
}
