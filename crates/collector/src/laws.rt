//! The laws of what a stream determines.
//!
//! A law is a function with an empty body: its contract is the law, and a call brings it into the caller's proof.

ghost use Rattle.std.specs.Prelude.{◌≡◌, ℕ, List, []};
ghost use Rattle.migration_model.specs.Frames.{IsGuestShape};
ghost use Rattle.migration_model.specs.Parts.{GuestPart};
ghost use Rattle.collector.specs.Streams.{IsFirstRefused, TakesFrames};
ghost use Rattle.page_message.specs.declared.error.FrameError.{FrameError};

/// Of the frames in a stream's bytes one is the first that is refused, for one cause, and the part has then taken the
/// frames before it. If all are taken, none is refused.
pub fn one_refused_frame()
    ensures index { (old new other : GuestPart) (bytes : List ℕ) (i j : ℕ) (e f : FrameError) → IsGuestShape old.shape
        → IsFirstRefused old new bytes i e → IsFirstRefused old other bytes j f → i ≡ j }
    ensures cause { (old new other : GuestPart) (bytes : List ℕ) (i j : ℕ) (e f : FrameError) → IsGuestShape old.shape
        → IsFirstRefused old new bytes i e → IsFirstRefused old other bytes j f → e ≡ f }
    ensures part { (old new other : GuestPart) (bytes : List ℕ) (i j : ℕ) (e f : FrameError) → IsGuestShape old.shape
        → IsFirstRefused old new bytes i e → IsFirstRefused old other bytes j f → new ≡ other }
    ensures none { (old new other : GuestPart) (bytes : List ℕ) (count index : ℕ) (e : FrameError)
        → IsGuestShape old.shape → TakesFrames old new bytes count [] → ¬ IsFirstRefused old other bytes index e }
{}
