//! A page's bytes from its own writes.

ghost use Rattle.std.specs.Prelude.{◌≡◌, ◌^◌, ◌≤◌, ◌∷◌, [], List, OnOk, fold, length, map, take};
ghost use Rattle.std.specs.List.{All};
ghost use Rattle.migration_model.specs.Trace.{GuestWrite, IsTrace};
ghost use Rattle.page_versions.specs.Pages.{IsLost, PutsWithin, bytes_by, overwrite, put_all, write_at};
ghost use Rattle.guest_log.specs.Writes.{shown};

use crate::error::IndexError;
use guest_log::{LAST_VERSION, Shape, WriteLog, WriteView};
use std::marker::Model;

/// Applies a write to the bytes of its page.
fn put_one(shape: Shape, bytes: &mut [u8], write: &WriteView<'_>)
    requires room { length bytes.old ≡ 2 ^ shape.shift }
    requires within { PutsWithin shape.shift (shown write.now) }
    ensures room { length bytes.new ≡ 2 ^ shape.shift }
    ensures put { bytes.new ≡ overwrite shape.shift bytes.old (shown write.now) }
{
    write.put_at(shape, bytes, write.offset as usize);
}

/// One to four writes that were looked up, in the order in which they are applied to a page.
#[derive(Drop)]
struct UpToFour<'a> {
    count: usize,
    first: WriteView<'a>,
    second: WriteView<'a>,
    third: WriteView<'a>,
    fourth: WriteView<'a>,
}

impl<'a> Model for UpToFour<'a> {
    ghost Value = { List GuestWrite };

    ghost view = { λ f. take f.count (shown f.first ∷ shown f.second ∷ shown f.third ∷ shown f.fourth ∷ []) };

    ghost invariant = { λ f. (1 ≤ f.count) × (f.count ≤ 4) };
}

impl<'a> UpToFour<'a> {
    /// Applies the writes to the bytes of their page, one after the other.
    fn put_over(&self, shape: Shape, bytes: &mut [u8])
        requires room { length bytes.old ≡ 2 ^ shape.shift }
        requires within { All (PutsWithin shape.shift) self.now }
        ensures room { length bytes.new ≡ 2 ^ shape.shift }
        ensures put { bytes.new ≡ fold (overwrite shape.shift) bytes.old self.now }
    {
        put_one(shape, bytes, &self.first);
        if self.count == 1 {
            return;
        }
        put_one(shape, bytes, &self.second);
        if self.count == 2 {
            return;
        }
        put_one(shape, bytes, &self.third);
        if self.count == 3 {
            return;
        }
        put_one(shape, bytes, &self.fourth);
    }
}

/// Returns the writes at one to four places. If there are fewer than four, the last one fills the remaining fields.
fn look_up<'a, W: WriteLog>(trace: &'a W, places: &[u32]) -> UpToFour<'a>
    requires some { 1 ≤ length places.now }
    requires few { length places.now ≤ 4 }
    requires places { All (λ place. (1 ≤ place) × (place ≤ length (W.trace trace.now).writes)) places.now }
    ensures { result ≡ map (write_at (W.trace trace.now).writes) places.now }
{
    let last = places.len() - 1;
    UpToFour {
        count: places.len(),
        first: trace.write(places[0] as usize - 1),
        second: trace.write(places[last.min(1)] as usize - 1),
        third: trace.write(places[last.min(2)] as usize - 1),
        fourth: trace.write(places[last.min(3)] as usize - 1),
    }
}

/// Applies the writes at one to four places to the bytes. It looks all of them up before it applies the first, so that
/// none waits for the previous one if they must come from memory.
fn put_four<W: WriteLog>(bytes: &mut [u8], trace: &W, places: &[u32])
    requires some { 1 ≤ length places.now }
    requires few { length places.now ≤ 4 }
    requires room { length bytes.old ≡ 2 ^ (W.trace trace.now).shift }
    requires places { All (λ place. (1 ≤ place) × (place ≤ length (W.trace trace.now).writes)) places.now }
    requires is_trace { IsTrace (W.trace trace.now) }
    ensures room { length bytes.new ≡ 2 ^ (W.trace trace.now).shift }
    ensures put { bytes.new ≡ put_all (W.trace trace.now) bytes.old places.now }
{
    look_up(trace, places).put_over(trace.shape(), bytes);
}

/// Applies the writes at five to eight places to the bytes. It looks all of them up before it applies the first, for
/// the same reason.
fn put_eight<W: WriteLog>(bytes: &mut [u8], trace: &W, places: &[u32])
    requires many { 5 ≤ length places.now }
    requires few { length places.now ≤ 8 }
    requires room { length bytes.old ≡ 2 ^ (W.trace trace.now).shift }
    requires places { All (λ place. (1 ≤ place) × (place ≤ length (W.trace trace.now).writes)) places.now }
    requires is_trace { IsTrace (W.trace trace.now) }
    ensures room { length bytes.new ≡ 2 ^ (W.trace trace.now).shift }
    ensures put { bytes.new ≡ put_all (W.trace trace.now) bytes.old places.now }
{
    let (front, back) = places.split_at(4);
    let earlier = look_up(trace, front);
    let later = look_up(trace, back);
    let shape = trace.shape();
    earlier.put_over(shape, bytes);
    later.put_over(shape, bytes);
}

/// Returns how many of the places come before the last one that releases the page, or 0 if none does. The effect of the
/// writes before it is lost.
fn released_at<W: WriteLog>(trace: &W, places: &[u32]) -> usize
    requires is_trace { IsTrace (W.trace trace.now) }
    requires places { All (λ place. (1 ≤ place) × (place ≤ length (W.trace trace.now).writes)) places.now }
    ensures bound { result ≤ length places.now }
    ensures lost { IsLost (W.trace trace.now) result places.now }
{
    if trace.version() < LAST_VERSION {
        return 0;
    }
    let mut index = places.len();
    while index > 0 {
        index -= 1;
        if trace.write(places[index] as usize - 1).is_release() {
            return index;
        }
    }
    0
}

/// Applies the writes at these places to the bytes of their page, one after the other, from the last release on. It
/// looks up to eight of them up before it applies the first.
pub fn put_writes<W: WriteLog>(bytes: &mut [u8], trace: &W, places: &[u32])
    requires room { length bytes.old ≡ 2 ^ (W.trace trace.now).shift }
    requires places { All (λ place. (1 ≤ place) × (place ≤ length (W.trace trace.now).writes)) places.now }
    requires is_trace { IsTrace (W.trace trace.now) }
    ensures { bytes.new ≡ put_all (W.trace trace.now) bytes.old places.now }
{
    let (_, mut rest) = places.split_at(released_at(trace, places));
    while rest.len() > 4 {
        let (front, behind) = rest.split_at(rest.len().min(8));
        put_eight(bytes, trace, front);
        rest = behind;
    }
    if !rest.is_empty() {
        put_four(bytes, trace, rest);
    }
}

/// Fills a buffer with zeros, and applies the writes at these places to it. Its old contents are lost.
pub(crate) fn put_bytes<W: WriteLog>(
    room: &mut Vec<u8>,
    trace: &W,
    places: &[u32],
) -> Result<(), IndexError>
    requires { All (λ place. (1 ≤ place) × (place ≤ length (W.trace trace.now).writes)) places.now }
    ensures bytes { OnOk result (room.new.items ≡ bytes_by (W.trace trace.now) places.now) }
    ensures is_trace { IsTrace (W.trace trace.now) }
{
    let shape = trace.shape();
    room.clear();
    room.resize(shape.page_size(), 0)?;
    put_writes(room, trace, places);
    Ok(())
}
