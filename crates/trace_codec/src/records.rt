//! The writes of a trace, read one by one in place, and their refusals.

ghost use Rattle.std.specs.Prelude.{◌≡◌, ◌≤◌, ◌+◌, IfErr, IfOk, List, None, OnOk, Some, length};
ghost use Rattle.std.specs.Iterator.{item_count, YieldsFirstBy};
ghost use Rattle.migration_model.specs.Trace.{GuestWrite};
ghost use Rattle.migration_model.specs.TraceReading.{length_in, rest_after, tick_in, write_in, writes_in};
ghost use Rattle.trace_codec.specs.Reading.{HoldsWrites};
ghost use Rattle.trace_codec.specs.Refusals.{write_refusal};
ghost use Rattle.guest_log.specs.Writes.{shown};

use crate::error::TraceError;
use crate::fields::{u16_in, u32_in, u64_in};
use crate::limits::{TICK_LIMIT, is_empty_write};
use guest_log::{Header, WriteView};
use std::marker::Model;

/// Returns the write at the front of some bytes, and the bytes after it.
#[tactic(auto, unfolding(migration_model::specs::TraceReading::write_in, migration_model::specs::TraceReading::rest_after))]
pub fn first_write<'a>(bytes: &'a [u8]) -> (WriteView<'a>, &'a [u8])
    requires { 16 + length_in bytes.now ≤ length bytes.now }
    ensures write { shown result.0 ≡ write_in bytes.now }
    ensures rest { result.1.now ≡ rest_after bytes.now }
{
    let tick = u64_in(bytes);
    let page = u32_in(&bytes[8..]);
    let offset = u16_in(&bytes[12..]);
    let len = u16_in(&bytes[14..]) as usize;
    let (front, rest) = bytes.split_at(16 + len);
    let (_, bytes) = front.split_at(16);
    let write = WriteView {
        tick,
        page,
        offset,
        bytes,
    };
    (write, rest)
}

/// Returns the write at the front, which is write `index` of a trace with this header, and the bytes after it, or what
/// it is refused for, `E8` to `E13`. The previous write was at tick `before`.
#[tactic(auto, unfolding(migration_model::specs::TraceReading::write_in))]
pub fn checked_write<'a>(
    header: Header,
    before: u64,
    index: u32,
    bytes: &'a [u8],
) -> Result<(WriteView<'a>, &'a [u8]), TraceError>
    ensures refused { IfErr result (λ e. write_refusal header.version header.shape.shift header.shape.pages before
        index bytes.now ≡ Some e) }
    ensures accepted { OnOk result (write_refusal header.version header.shape.shift header.shape.pages before index
        bytes.now ≡ None) }
    ensures tick { IfOk result (λ found. found.0.tick ≡ tick_in bytes.now) }
    ensures write { IfOk result (λ found. shown found.0 ≡ write_in bytes.now) }
    ensures rest { IfOk result (λ found. found.1.now ≡ rest_after bytes.now) }
{
    let shape = header.shape;
    if bytes.len() < 16 {
        return Err(TraceError::ShortRecord(index));
    }
    let len = u16_in(&bytes[14..]) as usize;
    if bytes.len() < 16 + len {
        return Err(TraceError::ShortRecord(index));
    }
    let (write, rest) = first_write(bytes);
    if write.tick < before {
        return Err(TraceError::TickOrder(index));
    }
    if write.tick >= TICK_LIMIT {
        return Err(TraceError::TickTooLarge(index));
    }
    if write.page >= shape.pages {
        return Err(TraceError::PageOutOfRange(index));
    }
    if is_empty_write(header.version, write.offset, len) {
        return Err(TraceError::EmptyWrite(index));
    }
    if shape.page_size() < write.offset as usize + len {
        return Err(TraceError::OutOfPage(index));
    }
    Ok((write, rest))
}

/// An iterator over the writes of a trace, read in place.
#[derive(Drop)]
pub struct Records<'a> {
    left: u32,
    rest: &'a [u8],
}

impl<'a> Model for Records<'a> {
    ghost Value = { List GuestWrite };

    ghost view = { λ r. writes_in r.left r.rest.now };

    ghost invariant = { λ r. HoldsWrites r.left r.rest.now };
}

impl<'a> Records<'a> {
    /// Returns an iterator over `count` writes, which the bytes hold.
    pub(crate) fn of(count: u32, bytes: &'a [u8]) -> Records<'a>
        requires { HoldsWrites count bytes.now }
        ensures { result ≡ writes_in count bytes.entry.now }
    {
        Records {
            left: count,
            rest: bytes,
        }
    }
}

impl<'a> Iterator for Records<'a> {
    type Item = WriteView<'a>;

    ghost next_gives = { YieldsFirstBy shown (λ s. s) };

    ghost remaining = { item_count (λ s. s) };

    fn next(&mut self) -> Option<WriteView<'a>> {
        if self.left == 0 {
            return None;
        }
        let (write, rest) = first_write(self.rest);
        self.left -= 1;
        self.rest = rest;
        Some(write)
    }
}
