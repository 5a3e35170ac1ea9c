//! How long a trace may be, from its first records.

use trace_codec::{Header, checked_write};

/// Returns how long all records of a trace are if they are as long, on average, as the whole ones in front of these
/// bytes. It is a guess: no contract speaks of it, and nothing but time and memory may depend on it.
pub(crate) fn likely_length(header: Header, bytes: &[u8]) -> usize {
    let mut rest = bytes;
    let mut last = 0;
    let mut count = 0;
    for index in 0..header.shape.writes {
        let Ok((write, behind)) = checked_write(header, last, index, rest) else {
            break;
        };
        rest = behind;
        last = write.tick;
        count = index as usize + 1;
    }
    if count == 0 {
        return bytes.len();
    }
    let length = bytes.len().saturating_sub(rest.len());
    length.saturating_mul(header.shape.writes as usize) / count
}
