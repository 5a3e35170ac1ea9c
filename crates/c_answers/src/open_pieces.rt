//! Streams that are checked in pieces over a trace that stays open, in memory that the caller lends.

ghost use Rattle.std.specs.Prelude.{◌≡◌, IfErr, IfOk, IsOk, OnOk, length};
ghost use Rattle.stream_check.specs.Checked.{Checked, TakesAll};
ghost use Rattle.stream_check.specs.Ends.{AreCurrentStamps};
ghost use Rattle.stream_check.specs.declared.taken.Taken.{Taken as TakenFrames};
ghost use Rattle.open_checks.specs.Kept.{known_by, stamps_in};
ghost use Rattle.c_answers.specs.OpenPieces.{FitsGuest, IsOpenPiece, KeepsPages, KeepsVersions, RefusesOpenPages};
ghost use Rattle.c_answers.specs.OpenPieces.{RefusesOpenPiece, lent_with};
ghost use Rattle.c_answers.specs.declared.open_pieces.OpenRefusal.TheVariants.{Frame as OfFrame, Page as OfPage};

use crate::answers::Refusal;
use crate::checking::{StreamFinding, cause_number, finding_of_page, stamp_number};
use crate::pieces::PieceProgress;
use open_checks::{take_piece, test_pages};
use open_traces::OpenTrace;
use stream_check::{Taken, WrongFrame, WrongPage};
use trace_codec::WriteLog;

/// Why a piece, or the end of all streams, is not found to be right.
#[derive(Clone, Copy)]
pub enum OpenRefusal {
    /// There are not as many bytes of memory as all pages have.
    MemoryLength,
    /// There is not a word for each page.
    PageCount,
    /// A frame is wrong.
    Frame(WrongFrame),
    /// A page is not at its version at the stop.
    Page(WrongPage),
}

impl From<WrongFrame> for OpenRefusal {
    ghost from_gives = { λ e r. r ≡ OfFrame e };

    fn from(found: WrongFrame) -> OpenRefusal {
        OpenRefusal::Frame(found)
    }
}

impl From<WrongPage> for OpenRefusal {
    ghost from_gives = { λ e r. r ≡ OfPage e };

    fn from(found: WrongPage) -> OpenRefusal {
        OpenRefusal::Page(found)
    }
}

impl OpenRefusal {
    ghost use Rattle.std.specs.Prelude.{◌≡◌, ◌≤◌};
    ghost use Rattle.c_answers.specs.OpenPieces.{found_in_open, number_of_open};

    /// Tells C of this refusal: sets `found` to what is wrong. It returns the number of the refusal.
    pub fn told(self, at: &PieceProgress, found: &mut StreamFinding) -> u32
        ensures number { result ≡ number_of_open self }
        ensures some { 1 ≤ result }
        ensures found { found.new ≡ found_in_open at.now self found.old }
    {
        match self {
            OpenRefusal::MemoryLength => Refusal::MemoryLength.number(),
            OpenRefusal::PageCount => Refusal::PageCount.number(),
            OpenRefusal::Frame(wrong) => {
                *found = at.finding(&wrong);
                cause_number(wrong.fault.cause)
            }
            OpenRefusal::Page(wrong) => {
                *found = finding_of_page(&wrong);
                stamp_number(wrong.stamp)
            }
        }
    }
}

/// Takes a piece of a stream: all whole frames, up to the first that is wrong.
pub fn take_open_piece(
    trace: &OpenTrace<'_>,
    stop: u32,
    piece: &[u8],
    last: &mut [u32],
    greatest: &mut [u32],
    memory: &mut [u8],
) -> Result<Taken, OpenRefusal>
    requires { KeepsPages trace.now greatest.old memory.old }
    ensures taken { IfOk result (IsOpenPiece trace.now stop piece.now (lent_with last.old greatest.old memory.old)
        (lent_with last.new greatest.new memory.new)) }
    ensures refused { IfErr result (RefusesOpenPiece trace.now stop piece.now
        (lent_with last.old greatest.old memory.old) (lent_with last.new greatest.new memory.new)) }
    ensures kept { KeepsPages trace.now greatest.new memory.new }
    ensures only { (after : Checked) (all : TakenFrames)
        → FitsGuest trace.now (lent_with last.old greatest.old memory.old)
        → TakesAll trace.now (known_by trace.now stop last.old greatest.old) after piece.now all → IsOk result }
{
    let shape = trace.shape();
    let pages = shape.pages as usize;
    if memory.len() != pages * shape.page_size() {
        return Err(OpenRefusal::MemoryLength);
    }
    if last.len() != pages || greatest.len() != pages {
        return Err(OpenRefusal::PageCount);
    }
    Ok(take_piece(trace, stop, piece, last, greatest, memory)?)
}

/// Tests that each page came at its version at the stop, at the end of all streams.
pub fn test_open_pages(
    trace: &OpenTrace<'_>,
    stop: u32,
    greatest: &[u32],
) -> Result<(), OpenRefusal>
    requires { KeepsVersions trace.now greatest.now }
    ensures words { OnOk result (length greatest.now ≡ trace.now.pages) }
    ensures current { OnOk result (AreCurrentStamps trace.now stop (stamps_in greatest.now)) }
    ensures refused { IfErr result (RefusesOpenPages trace.now stop greatest.now) }
{
    if greatest.len() != trace.shape().pages as usize {
        return Err(OpenRefusal::PageCount);
    }
    Ok(test_pages(trace, stop, greatest)?)
}
