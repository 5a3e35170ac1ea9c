//! Streams of a migration, checked in pieces over a trace that stays open, in memory that the caller lends.

// `Spells`, and so `Shows`, holds of one value alone: `one_trace`.
// `TakesAll` holds of one value alone: `one_wrong_frame`. `StopsAt` does, and not where `TakesAll` holds:
// `one_wrong_frame`. `IsFirstBehind` holds of one value alone: `one_wrong_page`.

ghost use Rattle.std.specs.Prelude.{◌≡◌, ◌≢◌, length};
ghost use Rattle.migration_model.specs.Trace.{GuestTrace};
ghost use Rattle.page_message.specs.declared.error.FrameError.TheVariants.{Short};
ghost use Rattle.stream_check.specs.Checked.{Checked, TakesAll};
ghost use Rattle.stream_check.specs.Ends.{AreCurrentStamps};
ghost use Rattle.stream_check.specs.declared.taken.Taken.{Taken as TakenFrames};
ghost use Rattle.open_checks.specs.Kept.{known_by, stamps_in};
ghost use Rattle.c_answers.specs.Answers.{number_of_frame};
ghost use Rattle.c_answers.specs.OpenPieces.{FitsGuest, IsOpenPiece, KeepsPages, KeepsVersions, RefusesOpenPages};
ghost use Rattle.c_answers.specs.OpenPieces.{RefusesOpenPiece, found_in_open, lent_with, number_of_open};
ghost use Rattle.c_answers.specs.Opened.{IsOpened, Shows};
ghost use Rattle.c_answers.specs.Pieces.{cut_frame, gone_on};
ghost use Rattle.c_answers.specs.StreamChecks.{frame_finding};

use c_answers::answers::Refusal;
use c_answers::checking::StreamFinding;
use c_answers::open_pieces::{OpenRefusal, take_open_piece, test_open_pages};
use c_answers::opened::TraceHandle;
use c_answers::pieces::PieceProgress;
use page_message::FrameError;

/// Checks the next bytes of a stream, of a guest that is stopped after so many writes of the trace as `progress` says:
/// all whole frames of them. It sets `progress` to how far the stream has come then. What is behind them is the
/// beginning of a frame, or nothing, and comes again at the front of the next bytes. If a frame is wrong, it returns
/// the number of what is wrong with it and sets `found`.
///
/// It works in memory that is lent: `last` is the stream's own, and `greatest` and `memory` are those of all streams,
/// whose pieces may come in any order. It allocates nothing.
#[unsafe(no_mangle)]
pub extern "C" fn precopy_trace_check_piece(
    trace: &TraceHandle<'_>,
    piece: &[u8],
    progress: &mut PieceProgress,
    last: &mut [u32],
    greatest: &mut [u32],
    memory: &mut [u8],
    found: &mut StreamFinding,
) -> u32
    requires trace { IsOpened trace.now }
    requires kept { (t : GuestTrace) → Shows trace.now t → KeepsPages t greatest.old memory.old }
    ensures taken { result ≡ 0 → (t : GuestTrace) × Shows trace.now t × (taken : TakenFrames)
        × IsOpenPiece t progress.old.stop piece.now (lent_with last.old greatest.old memory.old)
        (lent_with last.new greatest.new memory.new) taken
        × (progress.new ≡ gone_on progress.old taken) × (found.new ≡ found.old) }
    ensures refused { result ≢ 0 → (t : GuestTrace) × Shows trace.now t × (refusal : OpenRefusal)
        × (result ≡ number_of_open refusal)
        × RefusesOpenPiece t progress.old.stop piece.now (lent_with last.old greatest.old memory.old)
        (lent_with last.new greatest.new memory.new) refusal
        × (progress.new ≡ progress.old) × (found.new ≡ found_in_open progress.old refusal found.old) }
    ensures kept { (t : GuestTrace) → Shows trace.now t → KeepsPages t greatest.new memory.new }
    ensures only { (t : GuestTrace) (after : Checked) (all : TakenFrames) → Shows trace.now t
        → FitsGuest t (lent_with last.old greatest.old memory.old)
        → TakesAll t (known_by t progress.old.stop last.old greatest.old) after piece.now all → result ≡ 0 }
{
    match take_open_piece(
        &trace.opened(),
        progress.stop,
        piece,
        last,
        greatest,
        memory,
    ) {
        Ok(taken) => {
            *progress = progress.after(&taken);
            0
        }
        Err(refusal) => refusal.told(progress, found),
    }
}

/// Ends a stream of which so many bytes are left behind the last whole frame. If there are any, a frame is cut off: it
/// returns the number of that and sets `found`.
#[unsafe(no_mangle)]
pub extern "C" fn precopy_end_stream(
    progress: &PieceProgress,
    left: usize,
    found: &mut StreamFinding,
) -> u32
    ensures whole { result ≡ 0 → (left ≡ 0) × (found.new ≡ found.old) }
    ensures cut { result ≢ 0 → (left ≢ 0) × (result ≡ number_of_frame Short)
        × (found.new ≡ frame_finding progress.now.stream (cut_frame progress.now)) }
    ensures only { left ≡ 0 → result ≡ 0 }
{
    if left == 0 {
        return 0;
    }
    *found = progress.cut_off();
    Refusal::Frame(FrameError::Short).number()
}

/// Checks, at the end of all streams, that each page came at its version at the stop, by the words of the greatest
/// stamps. If one did not, it returns the number of that and sets `found`.
#[unsafe(no_mangle)]
pub extern "C" fn precopy_trace_check_pages(
    trace: &TraceHandle<'_>,
    progress: &PieceProgress,
    greatest: &[u32],
    found: &mut StreamFinding,
) -> u32
    requires trace { IsOpened trace.now }
    requires kept { (t : GuestTrace) → Shows trace.now t → KeepsVersions t greatest.now }
    ensures current { result ≡ 0 → (t : GuestTrace) × Shows trace.now t × (length greatest.now ≡ t.pages)
        × AreCurrentStamps t progress.now.stop (stamps_in greatest.now) × (found.new ≡ found.old) }
    ensures refused { result ≢ 0 → (t : GuestTrace) × Shows trace.now t × (refusal : OpenRefusal)
        × (result ≡ number_of_open refusal) × RefusesOpenPages t progress.now.stop greatest.now refusal
        × (found.new ≡ found_in_open progress.now refusal found.old) }
    ensures only { (t : GuestTrace) → Shows trace.now t → length greatest.now ≡ t.pages
        → AreCurrentStamps t progress.now.stop (stamps_in greatest.now) → result ≡ 0 }
{
    match test_open_pages(&trace.opened(), progress.stop, greatest) {
        Ok(()) => 0,
        Err(refusal) => refusal.told(progress, found),
    }
}
