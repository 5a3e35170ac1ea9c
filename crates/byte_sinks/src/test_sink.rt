//! A sink into memory, for tests.

ghost use Rattle.std.specs.Prelude.{◌≡◌, Some, false};
ghost use Rattle.byte_sinks.specs.Sink.{SinkState, sink_state};

use crate::sink::Sink;
use std::marker::Model;

/// A sink whose bytes are known, which takes them in pieces of a bounded size, and can fail.
#[derive(Debug, Drop)]
pub struct TestSink {
    bytes: Vec<u8>,
    greatest: usize,
    calls: u64,
    failing_call: Option<u64>,
    flush_fails: bool,
    has_failed: bool,
    is_flushed: bool,
}

impl Model for TestSink {
    ghost Value = { SinkState };

    ghost view = { λ s. sink_state (Some s.bytes.items) s.has_failed s.is_flushed };
}

impl TestSink {
    /// Returns a sink that adds to these bytes, in the capacity that they have or can get, at most `greatest` in one
    /// write; with 0 it takes none. The write numbered `failing_call`, counted from 1, fails, and `flush_fails` says
    /// whether each flush does.
    pub fn new(
        bytes: Vec<u8>,
        greatest: usize,
        failing_call: Option<u64>,
        flush_fails: bool,
    ) -> TestSink
        ensures { result ≡ sink_state (Some bytes.items) false false }
    {
        TestSink {
            bytes,
            greatest,
            calls: 0,
            failing_call,
            flush_fails,
            has_failed: false,
            is_flushed: false,
        }
    }

    /// Returns what the sink holds.
    pub fn bytes(&self) -> &[u8]
        ensures { Some result.now ≡ self.now.contents }
    {
        &self.bytes
    }
}

impl Sink for TestSink {
    ghost contents = { λ s. s.contents };

    ghost has_failed = { λ s. s.has_failed };

    ghost is_flushed = { λ s. s.is_flushed };

    fn write(&mut self, bytes: &[u8]) -> Option<usize> {
        self.is_flushed = false;
        self.calls = self.calls.saturating_add(1);
        let count = bytes.len().min(self.greatest);
        let takes = (count > 0 || bytes.is_empty()) && self.failing_call != Some(self.calls);
        if !takes || self.bytes.extend_from_slice(&bytes[..count]).is_err() {
            self.has_failed = true;
            return None;
        }
        Some(count)
    }

    fn flush(&mut self) -> bool {
        self.has_failed = self.flush_fails;
        self.is_flushed = !self.flush_fails;
        self.is_flushed
    }

    fn failed(&self) -> bool {
        self.has_failed
    }
}
