//! What became of a frame.

ghost use Rattle.std.specs.Prelude.{◌≡◌, ℕ, Option};
ghost use Rattle.collector.specs.Fates.{IsFate};

/// What a part did with a frame that came to it.
#[derive(Clone, Copy, Debug, PartialEq, Eq)]
pub enum Fate {
    /// The part did not have the page, and has it now.
    New,
    /// The frame's stamp is greater than the kept one's, which it replaces.
    Newer,
    /// The frame's stamp is not greater than the kept one's, which stays.
    Old,
}

/// Returns the fate of a frame with this stamp, given the kept stamp of its page, if any.
pub(crate) fn fate_of(kept: Option<u32>, stamp: u32) -> Fate
    ensures { IsFate kept stamp result }
{
    match kept {
        None => Fate::New,
        Some(kept) if kept < stamp => Fate::Newer,
        Some(_) => Fate::Old,
    }
}

/// A frame that comes to a part has one fate.
pub fn one_fate()
    ensures { (kept : Option ℕ) (stamp : ℕ) (a b : Fate) → IsFate kept stamp a → IsFate kept stamp b → a ≡ b }
{}
