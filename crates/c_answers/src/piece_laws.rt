//! The law of streams that are checked in pieces, as C sees them.
//!
//! A law is a function with an empty body: its contract is the law.

ghost use Rattle.std.specs.Prelude.{◌≡◌, ◌<◌, ◌+◌, ◌^◌};
ghost use Rattle.stream_check.specs.Checked.{behind_taken, both_taken};
ghost use Rattle.stream_check.specs.declared.faults.WrongFrame.{WrongFrame};
ghost use Rattle.stream_check.specs.declared.taken.Taken.{Taken};
ghost use Rattle.open_checks.specs.Arrivals.{cut_off};
ghost use Rattle.c_answers.specs.Pieces.{cut_frame, gone_on, piece_finding};
ghost use Rattle.c_answers.specs.StreamChecks.{frame_finding};
ghost use Rattle.c_answers.specs.declared.pieces.PieceProgress.{PieceProgress};

/// What C is told of pieces is counted in their stream. If its progress has what was taken of it, so it has after one
/// more piece, and a frame that is wrong or cut off has the number and the byte that it has in the whole stream
/// (`pieces_come_in_any_order` of `open_checks`).
pub fn pieces_are_counted_in_their_stream()
    ensures taken { (at : PieceProgress) (first second : Taken) → at.frames ≡ first.frames → at.bytes ≡ first.bytes
        → first.frames + second.frames < 2 ^ 64 → first.bytes + second.bytes < 2 ^ 64
        → gone_on at second ≡ record {
          stream = at.stream;
          frames = (both_taken first second).frames;
          bytes = (both_taken first second).bytes;
          stop = at.stop;
        } }
    ensures wrong { (at : PieceProgress) (taken : Taken) (found : WrongFrame) → at.frames ≡ taken.frames
        → at.bytes ≡ taken.bytes → taken.frames + found.number < 2 ^ 64 → taken.bytes + found.offset < 2 ^ 64
        → piece_finding at found ≡ frame_finding at.stream (behind_taken taken found) }
    ensures cut { (at : PieceProgress) (taken : Taken) → at.frames ≡ taken.frames → at.bytes ≡ taken.bytes
        → cut_frame at ≡ cut_off taken }
{}
