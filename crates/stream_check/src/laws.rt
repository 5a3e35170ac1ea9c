//! The laws of a check: of one that finds nothing, and that there is one thing that it finds first.
//!
//! A law is a function with an empty body: its contract is the law, and a call brings it into the caller's proof.

ghost use Rattle.std.specs.Prelude.{◌≡◌, ◌≢◌, ◌<◌, ◌∷◌, ◌++◌, ℕ, List, Option, [], drop};
ghost use Rattle.migration_model.specs.Final.{shape_of_trace};
ghost use Rattle.migration_model.specs.Frames.{PageFrame};
ghost use Rattle.migration_model.specs.Parts.{empty_part, with_frames};
ghost use Rattle.migration_model.specs.Trace.{GuestTrace, IsTrace};
ghost use Rattle.migration_model.specs.Versions.{page_at};
ghost use Rattle.page_message.specs.declared.error.FrameError.TheVariants.{Short};
ghost use Rattle.page_versions.specs.Index.{version_after};
ghost use Rattle.stream_check.specs.Checked.{Checked, StopsAt, TakesAll, behind_taken, both_taken};
ghost use Rattle.stream_check.specs.Ends.{AreCurrentStamps, IsFirstBehind};
ghost use Rattle.stream_check.specs.Faults.{BeginsRight, IsFirstWrong};
ghost use Rattle.stream_check.specs.Receivers.{AreRightStreams, HasMemoryAt, all_frames, with_last_frames};
ghost use Rattle.stream_check.specs.declared.faults.FrameCause.TheVariants.{Refused};
ghost use Rattle.stream_check.specs.Streams.{IsWrongAtEnd, IsWrongIn};
ghost use Rattle.stream_check.specs.declared.faults.WrongFrame.{WrongFrame};
ghost use Rattle.stream_check.specs.declared.faults.WrongPage.{WrongPage};
ghost use Rattle.stream_check.specs.declared.taken.Taken.{Taken};

/// A page at its version after the first writes of a trace is as these writes leave it.
pub fn versions_are_as_at_the_stop()
    ensures { (trace : GuestTrace) (page stop : ℕ) → IsTrace trace → page < trace.pages
        → page_at trace page (version_after trace page stop) ≡ page_at trace page stop }
{}

/// Streams in which nothing is wrong leave the memory at the stop in a receiver that keeps the frame of each page with
/// the greatest stamp. If there is only one stream, so does a receiver that keeps the last frame of each page.
pub fn right_streams_make_memory()
    ensures greatest { (trace : GuestTrace) (stop : ℕ) (streams : List (List PageFrame)) → IsTrace trace
        → AreRightStreams trace stop streams
        → HasMemoryAt trace stop
        (with_frames (empty_part (shape_of_trace trace)) (all_frames streams)) }
    ensures last { (trace : GuestTrace) (stop : ℕ) (frames : List PageFrame) → IsTrace trace
        → AreRightStreams trace stop (frames ∷ [])
        → HasMemoryAt trace stop (with_last_frames (empty_part (shape_of_trace trace)) frames) }
{}

/// A stream that comes in two pieces is taken as it is if it comes at once, if what the first piece leaves comes again
/// at the front of the second: as many frames and bytes, with the same stamps, or up to the same wrong frame.
pub fn pieces_are_as_the_whole()
    ensures taken { (trace : GuestTrace) (old mid new : Checked) (front more : List ℕ) (first second : Taken)
        → TakesAll trace old mid front first → TakesAll trace mid new (drop first.bytes front ++ more) second
        → TakesAll trace old new (front ++ more) (both_taken first second) }
    ensures behind { (trace : GuestTrace) (old mid new : Checked) (front more : List ℕ) (first : Taken)
        (found : WrongFrame) → TakesAll trace old mid front first
        → StopsAt trace mid new (drop first.bytes front ++ more) found
        → StopsAt trace old new (front ++ more) (behind_taken first found) }
    ensures early { (trace : GuestTrace) (old new : Checked) (front more : List ℕ) (found : WrongFrame)
        → found.fault.cause ≢ Refused Short → StopsAt trace old new front found
        → StopsAt trace old new (front ++ more) found }
{}

/// Of some bytes one part is taken, up to one frame that is wrong, for one thing; none is wrong where all are right.
pub fn one_wrong_frame()
    ensures taken { (trace : GuestTrace) (old new other : Checked) (bytes : List ℕ) (a b : Taken) → IsTrace trace
        → TakesAll trace old new bytes a → TakesAll trace old other bytes b → a ≡ b }
    ensures kept { (trace : GuestTrace) (old new other : Checked) (bytes : List ℕ) (a b : Taken) → IsTrace trace
        → TakesAll trace old new bytes a → TakesAll trace old other bytes b → new ≡ other }
    ensures found { (trace : GuestTrace) (old new other : Checked) (bytes : List ℕ) (a b : WrongFrame)
        → IsTrace trace → StopsAt trace old new bytes a → StopsAt trace old other bytes b → a ≡ b }
    ensures left { (trace : GuestTrace) (old new other : Checked) (bytes : List ℕ) (a b : WrongFrame)
        → IsTrace trace → StopsAt trace old new bytes a → StopsAt trace old other bytes b → new ≡ other }
    ensures none { (trace : GuestTrace) (old new other : Checked) (bytes : List ℕ) (taken : Taken)
        (found : WrongFrame) → IsTrace trace → found.fault.cause ≢ Refused Short → TakesAll trace old new bytes taken
        → ¬ StopsAt trace old other bytes found }
    ensures last { (trace : GuestTrace) (stop : ℕ) (last : List (Option ℕ)) (bytes : List ℕ)
        (frames : List PageFrame) (found : WrongFrame) → IsTrace trace → BeginsRight trace stop last bytes frames []
        → ¬ IsFirstWrong trace stop last bytes found }
{}

/// One page is the first that is not current, if there is any.
pub fn one_wrong_page()
    ensures found { (trace : GuestTrace) (stop : ℕ) (greatest : List (Option ℕ)) (a b : WrongPage)
        → IsFirstBehind trace stop greatest a → IsFirstBehind trace stop greatest b → a ≡ b }
    ensures none { (trace : GuestTrace) (stop : ℕ) (greatest : List (Option ℕ)) (found : WrongPage)
        → AreCurrentStamps trace stop greatest → ¬ IsFirstBehind trace stop greatest found }
{}

/// Of all streams one thing is the first that is wrong: a frame of one stream, or, if all frames are right, a page.
pub fn one_first_thing()
    ensures stream { (trace : GuestTrace) (stop : ℕ) (texts : List (List ℕ)) (m n : ℕ) (a b : WrongFrame)
        → IsTrace trace → IsWrongIn trace stop texts m a → IsWrongIn trace stop texts n b → m ≡ n }
    ensures frame { (trace : GuestTrace) (stop : ℕ) (texts : List (List ℕ)) (m n : ℕ) (a b : WrongFrame)
        → IsTrace trace → IsWrongIn trace stop texts m a → IsWrongIn trace stop texts n b → a ≡ b }
    ensures page { (trace : GuestTrace) (stop : ℕ) (texts : List (List ℕ)) (a b : WrongPage) → IsTrace trace
        → IsWrongAtEnd trace stop texts a → IsWrongAtEnd trace stop texts b → a ≡ b }
    ensures apart { (trace : GuestTrace) (stop : ℕ) (texts : List (List ℕ)) (n : ℕ) (a : WrongPage) (b : WrongFrame)
        → IsTrace trace → IsWrongAtEnd trace stop texts a → ¬ IsWrongIn trace stop texts n b }
{}
