//! The laws of a check over a trace that stays open.
//!
//! A law is a function with an empty body: its contract is the law.

ghost use Rattle.std.specs.Prelude.{◌≡◌, ◌<◌, ◌*◌, ◌^◌, ℕ, List, replicate};
ghost use Rattle.migration_model.specs.Frames.{PageFrame};
ghost use Rattle.migration_model.specs.Memory.{image_after};
ghost use Rattle.migration_model.specs.Trace.{GuestTrace, IsTrace};
ghost use Rattle.page_versions.specs.Index.{version_after};
ghost use Rattle.stream_check.specs.Ends.{AreCurrentStamps, IsCurrent};
ghost use Rattle.stream_check.specs.Faults.{AreRight};
ghost use Rattle.stream_check.specs.Stamps.{no_stamps};
ghost use Rattle.open_checks.specs.Differences.{IsFirstWrongByte};
ghost use Rattle.open_checks.specs.Kept.{IsKept, stamps_in, words_at};
ghost use Rattle.open_checks.specs.Unstamped.{AreFirstFitting, IsFirstFitting, IsFittingVersion};
ghost use Rattle.open_checks.specs.declared.differences.WrongByte.{WrongByte};

/// Words and memory that are zeros hold that no page came.
pub fn zeros_hold_nothing()
    ensures stamps { (pages : ℕ) → stamps_in (replicate pages 0) ≡ no_stamps pages }
    ensures kept { (trace : GuestTrace) → IsTrace trace
        → IsKept trace (replicate trace.pages 0) (replicate (trace.pages * 2 ^ trace.shift) 0) }
{}

/// The words of pages that came as they are after some writes keep the memory after these writes. A page without a
/// write from there to the stop is current, so it need not come.
pub fn memory_after_is_kept()
    ensures kept { (trace : GuestTrace) (count : ℕ) → IsTrace trace
        → IsKept trace (words_at trace count) (image_after trace count).bytes }
    ensures current { (trace : GuestTrace) (count stop page : ℕ) → page < trace.pages
        → version_after trace page count ≡ version_after trace page stop
        → IsCurrent trace stop (stamps_in (words_at trace count)) page }
{}

/// When each page is current, the memory that is kept is that at the stop.
pub fn current_pages_are_the_memory()
    ensures { (trace : GuestTrace) (stop : ℕ) (greatest memory : List ℕ) → IsTrace trace
        → IsKept trace greatest memory → AreCurrentStamps trace stop (stamps_in greatest)
        → memory ≡ (image_after trace stop).bytes }
{}

/// One version is the first that fits, if any does.
pub fn one_fitting_version()
    ensures first { (trace : GuestTrace) (stop page from : ℕ) (content : List ℕ) (a b : ℕ)
        → IsFirstFitting trace stop page from content a → IsFirstFitting trace stop page from content b → a ≡ b }
    ensures none { (trace : GuestTrace) (stop page from : ℕ) (content : List ℕ) (version : ℕ)
        → IsFirstFitting trace stop page from content version
        → ¬ ((other : ℕ) → ¬ IsFittingVersion trace stop page from content other) }
{}

/// To take the first version that fits costs nothing later: what fits after another one fits after the first.
pub fn first_version_serves()
    ensures { (trace : GuestTrace) (stop page from : ℕ) (content more : List ℕ) (first other version : ℕ)
        → IsFirstFitting trace stop page from content first → IsFittingVersion trace stop page from content other
        → IsFittingVersion trace stop page other more version → IsFittingVersion trace stop page first more version }
{}

/// Pages that come without stamps, one after another, are with those that are found for them a stream of frames with
/// none of which anything is wrong.
pub fn fitting_pages_are_right_frames()
    ensures { (trace : GuestTrace) (stop : ℕ) (greatest : List ℕ) (frames : List PageFrame)
        → AreFirstFitting trace stop greatest frames → AreRight trace stop (stamps_in greatest) frames }
{}

/// One byte of memory is the first that is wrong, if there is any, and there is one thing to say of it.
pub fn one_wrong_byte()
    ensures found { (trace : GuestTrace) (count : ℕ) (memory : List ℕ) (a b : WrongByte)
        → IsFirstWrongByte trace count memory a → IsFirstWrongByte trace count memory b → a ≡ b }
    ensures none { (trace : GuestTrace) (count : ℕ) (memory : List ℕ) (found : WrongByte)
        → memory ≡ (image_after trace count).bytes → ¬ IsFirstWrongByte trace count memory found }
{}
