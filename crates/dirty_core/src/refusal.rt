//! Why a core refuses.

ghost use Rattle.std.specs.Prelude.{◌≡◌};
ghost use Rattle.dirty_core.specs.declared.refusal.CoreRefusal.TheVariants.{Memory};

use std::alloc::AllocError;
use thiserror::Error;

/// Why an event is refused, written as its name. If an event has several causes, the refusal is the first in the order
/// of the names.
#[derive(Clone, Copy, Debug, PartialEq, Eq, Error)]
pub enum CoreRefusal {
    /// The page or word is not the guest's or copier's own, or there is no such guest, copier, page or word.
    #[error("C1")]
    NotOwner,
    /// A store while the guest has a page pending.
    #[error("C2")]
    Pending,
    /// A mark while the guest has none pending.
    #[error("C3")]
    NothingPending,
    /// A page to be read or restored is not held.
    #[error("C4")]
    NotHeld,
    /// A place that is not above the page's.
    #[error("C5")]
    OldPlace,
    /// Memory ran out.
    #[error("C6")]
    Memory,
}

impl From<AllocError> for CoreRefusal {
    ghost from_gives = { λ _ e. e ≡ Memory };

    fn from(_error: AllocError) -> CoreRefusal {
        CoreRefusal::Memory
    }
}
