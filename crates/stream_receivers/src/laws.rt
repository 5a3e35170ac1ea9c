//! What the final copy and the receivers leave, in terms of the join of parts.
//!
//! A law is a function with an empty body: its contract is the law, and a call brings it into the caller's proof.

ghost use Rattle.std.specs.Prelude.{◌≡◌, ◌∷◌, ℕ, Bool, List, Some, map};
ghost use Rattle.std.specs.List.{All, Contains, fold};
ghost use Rattle.migration_model.specs.Final.{IsFinalCopy};
ghost use Rattle.migration_model.specs.Frames.{GuestShape, IsGuestShape, IsFrame, PageFrame, frame_text};
ghost use Rattle.migration_model.specs.Parts.{Agree, FramesAgree, GuestPart, IsPart, join, join_all, part_of};
ghost use Rattle.migration_model.specs.Trace.{GuestTrace};
ghost use Rattle.stream_lanes.specs.Ends.{IsSentOn, OutView};
ghost use Rattle.stream_receivers.specs.First.{parts_with};
ghost use Rattle.stream_receivers.specs.Receivers.{HasFrames};
ghost use Rattle.stream_receivers.specs.Current.{current_part};

/// The parts that a final copy leaves, joined, are the join of the parts that it was given and the current copies of
/// the marked pages, if these agree.
pub fn final_copy_is_a_join()
    ensures { (trace : GuestTrace) (shape : GuestShape) (versions : List ℕ)
        (marked : ℕ → Bool) (old new : List GuestPart)
        → All IsPart old → All (λ part. Agree part (current_part trace shape versions marked)) old
        → IsFinalCopy trace versions marked old new
        → join_all shape new ≡ join (join_all shape old) (current_part trace shape versions marked) }
{}

/// The part that a receiver returns is the join of the frames whose encodings were sent on its lanes, if these agree.
pub fn received_part_is_a_join()
    ensures { (shape : GuestShape) (outs : List OutView) (frames : List PageFrame) (part : GuestPart)
        → IsGuestShape shape → All (IsFrame shape) frames → FramesAgree shape frames
        → ((text : List ℕ) → IsSentOn outs text → Contains (map frame_text frames) text)
        → ((text : List ℕ) → Contains (map frame_text frames) text → IsSentOn outs text)
        → HasFrames shape (IsSentOn outs) part → part ≡ join_all shape (map (part_of shape) frames) }
{}

/// What the first stream of a warm start ends up with: the first of the parts that `join_first` returns is the join of
/// the part that the destination began with and the frames whose encodings were sent on the first receiver's lanes, if
/// these agree. The other parts are those that came.
pub fn first_part_is_joined()
    ensures { (shape : GuestShape) (outs : List OutView) (first : GuestPart) (frames : List PageFrame)
        (part : GuestPart) (rest : List GuestPart)
        → IsGuestShape shape → IsPart first → first.shape ≡ shape → All (IsFrame shape) frames
        → FramesAgree shape frames
        → ((text : List ℕ) → IsSentOn outs text → Contains (map frame_text frames) text)
        → ((text : List ℕ) → Contains (map frame_text frames) text → IsSentOn outs text)
        → HasFrames shape (IsSentOn outs) part
        → parts_with (Some first) (part ∷ rest) ≡ fold join first (map (part_of shape) frames) ∷ rest }
{}
