//! The law of pieces that come in any order.
//!
//! A law is a function with an empty body: its contract is the law.

ghost use Rattle.std.specs.Prelude.{◌≡◌, ◌≢◌, ◌<◌, ◌++◌, ℕ, List, []};
ghost use Rattle.std.specs.List.{All};
ghost use Rattle.migration_model.specs.Trace.{GuestTrace};
ghost use Rattle.page_message.specs.declared.error.FrameError.TheVariants.{Short};
ghost use Rattle.stream_check.specs.Checked.{Checked, StopsAt, behind_taken};
ghost use Rattle.stream_check.specs.Ends.{AreCurrentStamps, IsFirstBehind};
ghost use Rattle.stream_check.specs.Faults.{IsFirstWrong};
ghost use Rattle.stream_check.specs.Stamps.{no_stamps};
ghost use Rattle.stream_check.specs.Streams.{IsAllRight, IsWrongAtEnd};
ghost use Rattle.stream_check.specs.declared.faults.FrameCause.TheVariants.{Refused};
ghost use Rattle.stream_check.specs.declared.faults.WrongFrame.{WrongFrame};
ghost use Rattle.stream_check.specs.declared.faults.WrongPage.{WrongPage};
ghost use Rattle.open_checks.specs.Arrivals.{Known, StreamPiece, TakesPieces, bytes_of, cut_off, known_of};
ghost use Rattle.open_checks.specs.Arrivals.{nothing_known, texts_in, with_left};

/// Pieces of several streams, in whatever order they come, are checked as all streams at once are. If all are taken and
/// nothing is left, nothing is wrong, or the same page is at the end. If a frame is wrong, it is the first that is wrong
/// in its stream, whatever comes behind it. If bytes are left where a stream ends, its last frame is cut off.
pub fn pieces_come_in_any_order()
    ensures right { (trace : GuestTrace) (stop count : ℕ) (pieces : List StreamPiece) (known : Known)
        → All (λ piece. piece.stream < count) pieces
        → TakesPieces trace stop (nothing_known trace.pages) pieces known
        → ((n : ℕ) → n < count → (known.stream n).left ≡ []) → AreCurrentStamps trace stop known.greatest
        → IsAllRight trace stop (texts_in pieces count) }
    ensures behind { (trace : GuestTrace) (stop count : ℕ) (pieces : List StreamPiece) (known : Known)
        (found : WrongPage) → All (λ piece. piece.stream < count) pieces
        → TakesPieces trace stop (nothing_known trace.pages) pieces known
        → ((n : ℕ) → n < count → (known.stream n).left ≡ []) → IsFirstBehind trace stop known.greatest found
        → IsWrongAtEnd trace stop (texts_in pieces count) found }
    ensures wrong { (trace : GuestTrace) (stop : ℕ) (pieces : List StreamPiece) (known : Known)
        (piece : StreamPiece) (more : List ℕ) (new : Checked) (found : WrongFrame)
        → TakesPieces trace stop (nothing_known trace.pages) pieces known
        → found.fault.cause ≢ Refused Short
        → StopsAt trace (known_of trace stop known piece.stream) new (with_left known piece) found
        → IsFirstWrong trace stop (no_stamps trace.pages) (bytes_of pieces piece.stream ++ (piece.bytes ++ more))
        (behind_taken (known.stream piece.stream).taken found) }
    ensures cut { (trace : GuestTrace) (stop n : ℕ) (pieces : List StreamPiece) (known : Known)
        → TakesPieces trace stop (nothing_known trace.pages) pieces known → (known.stream n).left ≢ []
        → IsFirstWrong trace stop (no_stamps trace.pages) (bytes_of pieces n) (cut_off (known.stream n).taken) }
{}
