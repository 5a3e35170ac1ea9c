//! The trace of the guest of five writes, with changes.

use crate::TRACE;
use std::alloc::{AllocError, Global};
use trace_codec::TraceError;

/// A change of the trace. It keeps the trace's first bytes, writes a patch over some of them, and appends more bytes.
#[derive(Clone, Copy)]
pub struct Change {
    /// How many bytes of the trace are kept.
    pub len: usize,
    /// The place of the patch's first byte.
    pub place: usize,
    /// The bytes that stand from that place on.
    pub patch: &'static [u8],
    /// The bytes that follow those that are kept.
    pub more: &'static [u8],
}

impl Change {
    /// Returns the bytes of the changed trace.
    pub fn bytes(&self, alloc: Global) -> Result<Vec<u8>, AllocError> {
        changed(alloc, self.len, self.place, self.patch, self.more)
    }
}

/// Returns the change that keeps only so many bytes.
fn cut(len: usize) -> Change {
    Change {
        len,
        place: 0,
        patch: &[],
        more: &[],
    }
}

/// Returns the change that writes a patch, and keeps the length.
fn patched(place: usize, patch: &'static [u8]) -> Change {
    Change {
        patch,
        place,
        ..cut(TRACE.len())
    }
}

/// Returns the change that appends bytes.
fn extended(more: &'static [u8]) -> Change {
    Change {
        more,
        ..cut(TRACE.len())
    }
}

/// Returns changes of the trace, and what each is refused for.
pub fn refused() -> [(Change, TraceError); 12] {
    [
        (cut(0), TraceError::ShortHeader),
        (cut(15), TraceError::ShortHeader),
        (patched(0, &[0x51]), TraceError::BadMagic),
        (patched(12, &[6]), TraceError::ShortRecord(5)),
        (cut(101), TraceError::ShortRecord(4)),
        (patched(47, &[0xff, 0xff]), TraceError::ShortRecord(1)),
        (patched(67, &[0xaf, 4]), TraceError::TickOrder(3)),
        (patched(55, &[1]), TraceError::TickTooLarge(2)),
        (patched(41, &[4]), TraceError::PageOutOfRange(1)),
        (patched(47, &[0]), TraceError::EmptyWrite(1)),
        (patched(45, &[16]), TraceError::OutOfPage(1)),
        (extended(&[0]), TraceError::TrailingBytes),
    ]
}

/// Returns the first `len` bytes of the trace with `patch` over those from `place` on, and `more` after them.
pub fn changed(
    alloc: Global,
    len: usize,
    place: usize,
    patch: &[u8],
    more: &[u8],
) -> Result<Vec<u8>, AllocError> {
    let mut bytes = Vec::from_slice(alloc, &TRACE)?;
    for (byte, new) in bytes.iter_mut().skip(place).zip(patch) {
        *byte = *new;
    }
    bytes.truncate(len);
    bytes.extend_from_slice(more)?;
    Ok(bytes)
}
