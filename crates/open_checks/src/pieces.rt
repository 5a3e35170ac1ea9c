//! Pieces of streams, as they come.

// `TakesAll` holds of one value alone: `one_wrong_frame`. `StopsAt` does, and not where `TakesAll` holds:
// `one_wrong_frame`.

ghost use Rattle.std.specs.Prelude.{◌≡◌, ◌≢◌, ◌≤◌, IfErr, IfOk, OnErr, drop, length};
ghost use Rattle.stream_check.specs.Checked.{StopsAt, TakesAll, TakesRight};
ghost use Rattle.stream_check.specs.Faults.{IsWrongFront};
ghost use Rattle.stream_check.specs.declared.faults.FrameCause.TheVariants.{Refused};
ghost use Rattle.page_message.specs.declared.error.FrameError.TheVariants.{Short};
ghost use Rattle.open_checks.specs.Kept.{IsKept, known_by, stamps_in};

use crate::frames::test_in_memory;
use crate::stamps::stamp_of;
use guest_log::WriteLog;
use open_traces::OpenTrace;
use page_message::view_frame;
use stream_check::{FrameFault, Taken, WrongFrame, end_at};

/// Takes the frame at the front of some bytes, if it is right. Returns how many bytes it has.
fn take_front(
    trace: &OpenTrace<'_>,
    stop: u32,
    bytes: &[u8],
    last: &mut [u32],
    greatest: &mut [u32],
    memory: &mut [u8],
) -> Result<usize, FrameFault>
    requires last { length last.old ≡ trace.now.pages }
    requires kept { IsKept trace.now greatest.old memory.old }
    ensures taken { IfOk result (λ size. TakesRight trace.now (known_by trace.now stop last.old greatest.old)
        (known_by trace.now stop last.new greatest.new) bytes.now 1 (drop size bytes.now)) }
    ensures some { IfOk result (λ size. 1 ≤ size) }
    ensures within { IfOk result (λ size. size ≤ length bytes.now) }
    ensures wrong { IfErr result (IsWrongFront trace.now stop (stamps_in last.old) bytes.now) }
    ensures last { OnErr result (last.new ≡ last.old) }
    ensures greatest { OnErr result (greatest.new ≡ greatest.old) }
    ensures kept { IsKept trace.now greatest.new memory.new }
{
    let (view, size) = view_frame(&trace.shape(), bytes)?;
    let page = view.page as usize;
    let came = stamp_of(last[page]);
    let version = greatest[page].saturating_sub(1);
    test_in_memory(trace, stop, came, &view, version, memory)?;
    last[page] = view.stamp + 1;
    greatest[page] = greatest[page].max(view.stamp + 1);
    Ok(size)
}

/// Takes all whole frames of the next bytes of a stream, up to the first that is wrong, of a guest that is stopped
/// after the first `stop` writes of the trace. What is behind them is the beginning of a frame, or nothing, and comes
/// again at the front of the stream's next bytes. After an error the frames before the wrong one are taken.
///
/// `last` is the stream's own; `greatest` and `memory` are those of all streams, which may come in any order.
pub fn take_piece(
    trace: &OpenTrace<'_>,
    stop: u32,
    piece: &[u8],
    last: &mut [u32],
    greatest: &mut [u32],
    memory: &mut [u8],
) -> Result<Taken, WrongFrame>
    requires last { length last.old ≡ trace.now.pages }
    requires kept { IsKept trace.now greatest.old memory.old }
    ensures taken { IfOk result (TakesAll trace.now (known_by trace.now stop last.old greatest.old)
        (known_by trace.now stop last.new greatest.new) piece.now) }
    ensures wrong { IfErr result (StopsAt trace.now (known_by trace.now stop last.old greatest.old)
        (known_by trace.now stop last.new greatest.new) piece.now) }
    ensures whole { IfErr result (λ found. found.fault.cause ≢ Refused Short) }
    ensures kept { IsKept trace.now greatest.new memory.new }
{
    let mut rest = piece;
    let mut number = 0usize;
    while !rest.is_empty() {
        match take_front(trace, stop, rest, last, greatest, memory) {
            Ok(size) => {
                let (_, behind) = rest.split_at(size);
                rest = behind;
                number += 1;
            }
            Err(fault) => return end_at(fault, number, piece.len() - rest.len()),
        }
    }
    Ok(Taken {
        frames: number,
        bytes: piece.len(),
    })
}
