//! The parts of a trace, put into lent bytes.

ghost use Rattle.std.specs.Prelude.{◌≡◌, ◌≤◌, ◌<◌, ◌+◌, ◌++◌, ◌^◌, length};
ghost use Rattle.std.specs.Int.{w16, w32, w64};
ghost use Rattle.migration_model.specs.Memory.{put};
ghost use Rattle.migration_model.specs.Numbers.{text_of};
ghost use Rattle.migration_model.specs.Trace.{header_text, write_text, write_with};

use byteorder::{ByteOrder, LittleEndian};
use guest_log::LAST_VERSION;

/// Returns the header of a trace without writes.
#[tactic(auto, unfolding(migration_model::specs::Trace::header_text, migration_model::specs::Numbers::text_of))]
fn header_of(shift: u8, pages: u32) -> [u8; 16]
    ensures { result ≡ header_text 2 shift pages 0 }
{
    let mut header = [
        b'P',
        b'C',
        b'W',
        b'T',
        LAST_VERSION,
        shift,
        0,
        0,
        0,
        0,
        0,
        0,
        0,
        0,
        0,
        0,
    ];
    LittleEndian::write_u32(&mut header[8..], pages);
    header
}

/// Puts a part over some bytes, from `start` on.
fn put_part(trace: &mut [u8], start: usize, part: &[u8])
    requires { start + length part.now ≤ length trace.old }
    ensures { trace.new ≡ put trace.old start part.now }
{
    trace[start..start + part.len()].copy_from_slice(part);
}

/// Puts the header of a trace without writes at the front of some bytes.
pub(crate) fn put_header(trace: &mut [u8], shift: u8, pages: u32)
    requires { 16 ≤ length trace.old }
    ensures { trace.new ≡ put trace.old 0 (header_text 2 shift pages 0) }
{
    put_part(trace, 0, &header_of(shift, pages));
}

/// Returns a number as the four bytes of a trace.
#[tactic(auto, unfolding(migration_model::specs::Numbers::text_of))]
fn word_of(number: u32) -> [u8; 4]
    ensures { result ≡ text_of w32 number }
{
    let mut word = [0u8; 4];
    LittleEndian::write_u32(&mut word, number);
    word
}

/// Puts how many writes a trace has into its header.
pub(crate) fn put_count(trace: &mut [u8], writes: u32)
    requires { 16 ≤ length trace.old }
    ensures { trace.new ≡ put trace.old 12 (text_of w32 writes) }
{
    put_part(trace, 12, &word_of(writes));
}

/// Returns the 16 bytes in front of a write's data.
#[tactic(auto, unfolding(migration_model::specs::Numbers::text_of))]
fn head_of(tick: u64, page: u32, offset: u16, len: u16) -> [u8; 16]
    ensures { result ≡ text_of w64 tick ++ (text_of w32 page ++ (text_of w16 offset ++ text_of w16 len)) }
{
    let mut head = [0u8; 16];
    LittleEndian::write_u64(&mut head, tick);
    LittleEndian::write_u32(&mut head[8..], page);
    LittleEndian::write_u16(&mut head[12..], offset);
    LittleEndian::write_u16(&mut head[14..], len);
    head
}

/// Puts the encoding of a write into some bytes, from `start` on.
pub(crate) fn put_write(
    trace: &mut [u8],
    start: usize,
    tick: u64,
    page: u32,
    offset: u16,
    bytes: &[u8],
)
    requires room { start + (16 + length bytes.now) ≤ length trace.old }
    requires short { length bytes.now < 2 ^ 16 }
    ensures { trace.new ≡ put trace.old start (write_text (write_with tick page offset bytes.now)) }
{
    put_part(
        trace,
        start,
        &head_of(tick, page, offset, bytes.len() as u16),
    );
    put_part(trace, start + 16, bytes);
}
