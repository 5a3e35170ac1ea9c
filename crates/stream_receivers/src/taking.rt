//! Frames that come to a part, each in a buffer that stays there or goes back.

ghost use Rattle.std.specs.Prelude.{◌≡◌, ◌∷◌, IfErr, IfSome, IsTrue, OnOk, Some, [], is_some, true};
ghost use Rattle.migration_model.specs.Frames.{PageFrame, SpellsFrame};
ghost use Rattle.stream_lanes.specs.Ends.{IsSentOn, IsTakenFrom};
ghost use Rattle.stream_receivers.specs.Held.{Accepts, IsHeld};
ghost use Rattle.stream_receivers.specs.Receivers.{AreEnds};
ghost use Rattle.stream_receivers.specs.Texts.{HasBytes, TakesText};

use crate::error::ReceiverError;
use crate::keeping::frame_behind_head;
use collector::Part;
use page_message::{Body, FrameView, view_frame};
use stream_lanes::{LaneIn, LaneOut, Rest, drain};

/// Returns whether a part has bytes of a page, not all of them 0.
fn has_bytes(part: &Part, page: u32) -> bool {
    match part.frame(page).map(|frame| &frame.body) {
        Some(Body::Data(_)) => true,
        Some(Body::Zero) | None => false,
    }
}

/// Returns whether a frame has bytes of a page of which the part has none.
fn brings_first_bytes(part: &Part, view: &FrameView<'_>) -> bool
    ensures { IsTrue result → is_some view.now.body ≡ true }
{
    view.body.is_some() && !has_bytes(part, view.page)
}

/// Takes an encoded frame with bytes into a part, which keeps its buffer. These are its page and its stamp.
fn keep_frame(part: &mut Part, page: u32, stamp: u32, buffer: Vec<u8>) -> Result<(), ReceiverError>
    requires { HasBytes part.old.shape buffer.items page stamp }
    ensures shape { part.new.shape ≡ part.old.shape }
    ensures taken { OnOk result (TakesText part.old part.new buffer.items) }
    ensures error { IfErr result (λ e. e ≡ ReceiverError.Memory) }
{
    let frame = frame_behind_head(page, stamp, buffer);
    match part.accept(frame) {
        Ok(_) => Ok(()),
        Err(_) => Err(ReceiverError::Memory),
    }
}

/// Takes one encoded frame into a part. The first bytes of a page stay in the frame's buffer. Later ones are copied
/// over them, and the buffer in which they came is returned.
fn accept_frame(part: &mut Part, buffer: Vec<u8>) -> Result<Option<Vec<u8>>, ReceiverError>
    ensures shape { part.new.shape ≡ part.old.shape }
    ensures taken { OnOk result (TakesText part.old part.new buffer.items) }
    ensures only { (frame : PageFrame) → SpellsFrame part.old.shape buffer.items frame
        → IfErr result (λ e. e ≡ ReceiverError.Memory) }
{
    let Ok((view, size)) = view_frame(&part.shape(), &buffer) else {
        return Err(ReceiverError::Frame);
    };
    if size != buffer.len() {
        return Err(ReceiverError::Frame);
    }
    if brings_first_bytes(part, &view) {
        let (page, stamp) = (view.page, view.stamp);
        keep_frame(part, page, stamp, buffer)?;
        return Ok(None);
    }
    part.accept_view(&view).or(Err(ReceiverError::Memory))?;
    Ok(Some(buffer))
}

/// Takes one encoded frame, unless something was refused before, and keeps the first refusal. Returns the frame's
/// buffer, unless the part keeps it.
pub(crate) fn accept(
    part: &mut Part,
    refusal: &mut Option<ReceiverError>,
    buffer: Vec<u8>,
) -> Option<Vec<u8>>
    ensures { Accepts part.old part.new refusal.old refusal.new (buffer.items ∷ []) }
{
    if refusal.is_some() {
        return Some(buffer);
    }
    match accept_frame(part, buffer) {
        Ok(left) => left,
        Err(error) => {
            *refusal = Some(error);
            None
        }
    }
}

/// Gives a buffer back to the worker of a lane, if there is one.
pub(crate) fn give_back(end: &mut LaneIn, buffer: Option<Vec<u8>>)
    ensures { end.new ≡ end.old }
{
    if let Some(buffer) = buffer {
        end.give_back(buffer);
    }
}

/// Takes what is left on a lane, unless something was refused before. Returns the first refusal.
pub(crate) fn accept_rest(
    part: &mut Part,
    mut refusal: Option<ReceiverError>,
    mut rest: Rest,
) -> Option<ReceiverError>
    ensures { Accepts part.old part.new refusal result rest }
{
    while let Some(buffer) = rest.take() {
        drop(accept(part, &mut refusal, buffer));
    }
    refusal
}

/// Takes what is left on each lane. Returns the first refusal.
pub(crate) fn accept_rests(
    part: &mut Part,
    mut refusal: Option<ReceiverError>,
    ends: Vec<LaneIn>,
    outs: Vec<LaneOut>,
) -> Option<ReceiverError>
    requires ends { AreEnds outs.items ends.items }
    requires held { IsHeld part.old.shape (IsTakenFrom ends.items) part.old refusal }
    ensures shape { part.new.shape ≡ part.old.shape }
    ensures kept { IfSome refusal (λ e. result ≡ Some e) }
    ensures held { IsHeld part.old.shape (IsSentOn outs.items) part.new result }
{
    for (out, end) in outs.into_iter().zip(ends) {
        let rest = drain(out, end);
        refusal = accept_rest(part, refusal, rest);
    }
    refusal
}
