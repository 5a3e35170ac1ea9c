//! Frames by page.

ghost use Rattle.std.specs.Prelude.{◌≡◌, ◌≢◌, ◌<◌, ◌^◌, IfSome, IsSomeAnd, None, OnErr, OnOk, OnSome, Some, length};
ghost use Rattle.std.specs.Prelude.{option_map, slice_index_or, slice_set, vec_len};
ghost use Rattle.collector.specs.Tables.{Grows};

use page_message::{Frame, FrameView};
use std::alloc::{AllocError, Global};
use std::mem;

/// Returns the stamp of the frame that a table has for a page.
pub(crate) fn stamp_in(table: &[Option<Frame>], page: usize) -> Option<u32>
    ensures stamp { result ≡ option_map (λ f. f.stamp) (slice_index_or table.now page None) }
    ensures within { OnSome result (page < length table.now) }
{
    match table.get(page) {
        Some(Some(frame)) => Some(frame.stamp),
        _ => None,
    }
}

/// Makes slots up to that of a page. After an error there may be more slots than before, all empty.
pub(crate) fn make_place(table: &mut Vec<Option<Frame>>, page: usize) -> Result<(), AllocError>
    requires { page < 2 ^ 32 }
    ensures grows { Grows table.old.items table.new.items page }
    ensures place { OnOk result (page < vec_len table.new) }
{
    while table.len() <= page {
        table.push(None)?;
    }
    Ok(())
}

/// Puts a frame in its slot, and drops what was there.
pub(crate) fn put_frame(table: &mut Vec<Option<Frame>>, page: usize, frame: Frame)
    requires { page < vec_len table.old }
    ensures { table.new.items ≡ slice_set table.old.items page (Some frame) }
{
    table[page] = Some(frame);
}

/// Puts a frame in its slot, and returns what was there.
pub(crate) fn swap_frame(table: &mut Vec<Option<Frame>>, page: usize, frame: Frame) -> Option<Frame>
    requires { page < vec_len table.old }
    ensures put { table.new.items ≡ slice_set table.old.items page (Some frame) }
    ensures was { result ≡ slice_index_or table.old.items page None }
{
    mem::replace(&mut table[page], Some(frame))
}

/// Puts the viewed frame in its slot, over the frame that is there, if any.
pub(crate) fn put_view(
    table: &mut Vec<Option<Frame>>,
    page: usize,
    alloc: Global,
    view: &FrameView<'_>,
) -> Result<(), AllocError>
    requires { page < vec_len table.old }
    ensures put { OnOk result (table.new.items ≡ slice_set table.old.items page (Some view.now)) }
    ensures unchanged { OnErr result (table.new.items ≡ table.old.items) }
    ensures refused { OnErr result (IfSome (slice_index_or table.old.items page None)
        (λ f. IsSomeAnd view.now.body (λ bytes. option_map length f.body ≢ Some (length bytes)))) }
{
    match &mut table[page] {
        Some(frame) => frame.copy_from(alloc, view),
        place => {
            *place = Some(view.to_frame(alloc)?);
            Ok(())
        }
    }
}
