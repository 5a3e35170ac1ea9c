//! Where the output goes.

ghost use Rattle.std.specs.Prelude.{◌≡◌, ℕ, Bool, List, Option, is_none, not, true, false};
ghost use Rattle.std.specs.Bool.{OnTrue};
ghost use Rattle.std.specs.Io.KnownBytes.{Keeps};
ghost use Rattle.byte_sinks.specs.Sink.{SinkState, sink_state, WritesTo};

use std::io;
use std::io::Write;
use std::marker::Model;

/// A sink of bytes.
pub trait Sink {
    // The bytes that the sink holds, if they are known.
    ghost contents: { Self → Option (List ℕ) };

    // Whether a write or a flush failed.
    ghost has_failed: { Self → Bool };

    // Whether nothing was written since the last flush.
    ghost is_flushed: { Self → Bool };

    /// Writes the first of some bytes, and returns how many. None is a write that failed or took none of some bytes;
    /// the sink must not be used after that.
    fn write(&mut self, bytes: &[u8]) -> Option<usize>
        requires { has_failed self.old ≡ false }
        ensures written { WritesTo (contents self.old) (contents self.new) result bytes.now }
        ensures failed { has_failed self.new ≡ is_none result };

    /// Passes on what was written, and returns whether that succeeded.
    fn flush(&mut self) -> bool
        requires { has_failed self.old ≡ false }
        ensures kept { Keeps (contents self.old) (contents self.new) }
        ensures failed { has_failed self.new ≡ not result }
        ensures flushed { OnTrue result (is_flushed self.new ≡ true) };

    /// Returns whether a write or a flush failed.
    fn failed(&self) -> bool
        ensures { result ≡ has_failed self.now };

    /// Returns whether the process ends after what is written here, so that no memory needs to be freed.
    fn is_last(&self) -> bool {
        false
    }
}

/// One of std's writers as a sink. It retries a write that a signal interrupts.
#[derive(Drop)]
pub struct FromWrite<W: Write + Drop> {
    writer: W,
    has_failed: bool,
    is_flushed: bool,
    is_last: bool,
}

impl<W: Write + Drop> Model for FromWrite<W> {
    ghost Value = { SinkState };

    ghost view = { λ s. sink_state (W.contents s.writer) s.has_failed s.is_flushed };
}

impl<W: Write + Drop> FromWrite<W> {
    /// Returns the sink that adds to what the writer holds.
    pub fn new(writer: W) -> FromWrite<W>
        ensures { result ≡ sink_state (W.contents writer) false false }
    {
        FromWrite {
            writer,
            has_failed: false,
            is_flushed: false,
            is_last: false,
        }
    }

    /// Returns such a sink for the last output of a process: who writes to it may leave memory to the system.
    pub fn last(writer: W) -> FromWrite<W>
        ensures { result ≡ sink_state (W.contents writer) false false }
    {
        FromWrite {
            is_last: true,
            ..FromWrite::new(writer)
        }
    }
}

impl<W: Write + Drop> Sink for FromWrite<W> {
    ghost contents = { λ s. s.contents };

    ghost has_failed = { λ s. s.has_failed };

    ghost is_flushed = { λ s. s.is_flushed };

    fn write(&mut self, bytes: &[u8]) -> Option<usize> {
        self.is_flushed = false;
        for _ in 0..u64::MAX {
            match self.writer.write(bytes) {
                Ok(count) if count > 0 || bytes.is_empty() => return Some(count),
                Err(error) if error.kind() == io::ErrorKind::Interrupted => {}
                _ => break,
            }
        }
        self.has_failed = true;
        None
    }

    fn flush(&mut self) -> bool {
        self.is_flushed = self.writer.flush().is_ok();
        self.has_failed = !self.is_flushed;
        self.is_flushed
    }

    fn failed(&self) -> bool {
        self.has_failed
    }

    fn is_last(&self) -> bool {
        self.is_last
    }
}
