//! Frames dealt out to parts.

ghost use Rattle.std.specs.Prelude.{◌≡◌, ◌++◌, List, OnOk, length};
ghost use Rattle.std.specs.List.{All};
ghost use Rattle.migration_model.specs.Frames.{IsFrame, PageFrame};
ghost use Rattle.migration_model.specs.Parts.{IsPart};
ghost use Rattle.stop_copy.specs.Copies.{after_dealing};

use crate::error::CopyError;
use collector::Part;
use page_message::Frame;
use std::alloc::Global;
use stream_split::Dealer;

/// Does nothing. For the proof: `shape` promises that each of them is a part.
pub(crate) fn know_parts(parts: &[Part])
    ensures { All IsPart parts.now }
{
    for part in parts {
        let _ = part.shape();
    }
}

/// Gives the frames to the parts in turn.
pub(crate) fn deal_out(
    dealer: &mut Dealer,
    parts: &mut Vec<Part>,
    frames: Vec<Frame>,
) -> Result<(), CopyError>
    requires streams { dealer.old.streams ≡ length parts.old.items }
    requires fit { All (λ part. All (IsFrame part.shape) frames.items) parts.old.items }
    ensures streams { dealer.new.streams ≡ dealer.old.streams }
    ensures shapes { length parts.new.items ≡ length parts.old.items }
    ensures dealt { OnOk result ((rest : List PageFrame)
        → after_dealing dealer.new.next parts.new.items rest
        ≡ after_dealing dealer.old.next parts.old.items (frames.items ++ rest)) }
{
    for frame in frames {
        let stream = dealer.deal();
        parts[stream].accept(frame)?;
    }
    Ok(())
}
