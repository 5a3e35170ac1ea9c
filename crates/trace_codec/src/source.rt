//! Where the bytes of a trace come from.

ghost use Rattle.std.specs.Prelude.{◌≡◌, ◌<◌, ℕ, Bool, List, Option, Some, None, is_none, false};
ghost use Rattle.trace_codec.specs.Source.{SourceState, source_state, ReadsFrom};

use std::io;
use std::io::Read;
use std::marker::Model;

/// A source of bytes.
pub trait Source {
    // The bytes that reads will give from here on, if they are known.
    ghost remaining: { Self → Option (List ℕ) };

    // Whether a read failed.
    ghost has_failed: { Self → Bool };

    /// Reads some bytes into the front of `buffer`, and returns how many. 0 into a buffer that is not empty is the end.
    /// None is a failed read, after which the source may not be read again.
    fn read(&mut self, buffer: &mut [u8]) -> Option<usize>
        requires { has_failed self.old ≡ false }
        ensures bytes { ReadsFrom (remaining self.old) (remaining self.new) result buffer.new }
        ensures failed { has_failed self.new ≡ is_none result };

    /// Returns whether a read failed.
    fn failed(&self) -> bool
        ensures { result ≡ has_failed self.now };
}

/// One of std's readers as a source. It retries a read that a signal interrupts.
#[derive(Drop)]
pub struct FromRead<R: Read + Drop> {
    reader: R,
    has_failed: bool,
}

impl<R: Read + Drop> Model for FromRead<R> {
    ghost Value = { SourceState };

    ghost view = { λ s. source_state (R.remaining s.reader) s.has_failed };
}

impl<R: Read + Drop> FromRead<R> {
    /// Returns the source of what the reader gives from here on.
    pub fn new(reader: R) -> FromRead<R>
        ensures { result ≡ source_state (R.remaining reader) false }
    {
        FromRead {
            reader,
            has_failed: false,
        }
    }
}

impl<R: Read + Drop> Source for FromRead<R> {
    ghost remaining = { λ s. s.remaining };

    ghost has_failed = { λ s. s.has_failed };

    fn read(&mut self, buffer: &mut [u8]) -> Option<usize> {
        for _ in 0..u64::MAX {
            match self.reader.read(buffer) {
                Ok(count) => return Some(count),
                Err(error) if error.kind() == io::ErrorKind::Interrupted => {}
                Err(_) => break,
            }
        }
        self.has_failed = true;
        None
    }

    fn failed(&self) -> bool {
        self.has_failed
    }
}
