//! A trace as bytes. No program runs it: it serves users of the library, and tests.

ghost use Rattle.std.specs.Prelude.{◌≡◌, ◌++◌, ◌^◌, ◌<◌, IfErr, IfOk, OnOk, length};
ghost use Rattle.std.specs.Int.{w16, w32, w64};
ghost use Rattle.migration_model.specs.Numbers.{text_of};
ghost use Rattle.migration_model.specs.Trace.{Spells, header_text, trace_text, write_text};

use crate::error::TraceError;
use crate::trace::Trace;
use byteorder::{ByteOrder, LittleEndian};
use guest_log::Write;
use std::alloc::{AllocError, Global};

/// Returns the 16 bytes in front of the records.
#[tactic(auto, unfolding(migration_model::specs::Trace::header_text, migration_model::specs::Numbers::text_of))]
fn header_of(version: u8, shift: u8, pages: u32, writes: u32) -> [u8; 16]
    ensures { result ≡ header_text version shift pages writes }
{
    let mut header = [
        b'P', b'C', b'W', b'T', version, shift, 0, 0, 0, 0, 0, 0, 0, 0, 0, 0,
    ];
    LittleEndian::write_u32(&mut header[8..], pages);
    LittleEndian::write_u32(&mut header[12..], writes);
    header
}

/// Returns the 16 bytes in front of a write's data.
#[tactic(auto, unfolding(migration_model::specs::Numbers::text_of))]
fn head_of(tick: u64, page: u32, offset: u16, len: u16) -> [u8; 16]
    ensures { result ≡ text_of w64 tick ++ (text_of w32 page ++ (text_of w16 offset ++ text_of w16 len)) }
{
    let mut head = [0u8; 16];
    LittleEndian::write_u64(&mut head, tick);
    LittleEndian::write_u32(&mut head[8..], page);
    LittleEndian::write_u16(&mut head[12..], offset);
    LittleEndian::write_u16(&mut head[14..], len);
    head
}

/// Appends the encoding of one write.
fn push_write(text: &mut Vec<u8>, write: &Write) -> Result<(), AllocError>
    requires { length write.now.bytes < 2 ^ 16 }
    ensures { OnOk result (text.new.items ≡ text.old.items ++ write_text write.now) }
{
    let len = write.bytes.len() as u16;
    text.extend_from_slice(&head_of(write.tick, write.page, write.offset, len))?;
    text.extend_from_slice(&write.bytes)?;
    Ok(())
}

/// Returns the encoding of a trace in its own version: the bytes from which `decode` reads it. The only error is `E16`.
pub fn encode(alloc: Global, trace: &Trace) -> Result<Vec<u8>, TraceError>
    ensures text { IfOk result (λ bytes. bytes.items ≡ trace_text trace.now) }
    ensures spells { IfOk result (λ bytes. Spells bytes.items trace.now) }
    ensures refused { IfErr result (λ e. e ≡ TraceError.Memory) }
{
    let shape = trace.shape();
    let mut text = Vec::new(alloc);
    let header = header_of(trace.version, shape.shift, shape.pages, shape.writes);
    text.extend_from_slice(&header)?;
    for write in &trace.writes {
        push_write(&mut text, write)?;
    }
    Ok(text)
}
