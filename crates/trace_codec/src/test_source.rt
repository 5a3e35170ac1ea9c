//! A source over bytes in memory, for tests.

ghost use Rattle.std.specs.Prelude.{◌≡◌, ◌≤◌, Some, false, vec_len, drop};
ghost use Rattle.trace_codec.specs.Source.{SourceState, source_state};

use crate::source::Source;
use std::marker::Model;

/// A source whose bytes are known, which gives them in pieces of a bounded size, and can fail.
#[derive(Debug, Drop)]
pub struct TestSource {
    bytes: Vec<u8>,
    taken: usize,
    greatest: usize,
    calls: u64,
    failing_call: Option<u64>,
    has_failed: bool,
}

impl Model for TestSource {
    ghost Value = { SourceState };

    ghost view = { λ s. source_state (Some (drop s.taken s.bytes.items)) s.has_failed };

    ghost invariant = { λ s. (s.taken ≤ vec_len s.bytes) × (1 ≤ s.greatest) };
}

impl TestSource {
    /// Returns the source of these bytes, which gives at most `greatest` in one read. The read numbered
    /// `failing_call`, counted from 1, fails.
    pub fn new(bytes: Vec<u8>, greatest: usize, failing_call: Option<u64>) -> TestSource
        requires { 1 ≤ greatest }
        ensures { result ≡ source_state (Some bytes.items) false }
    {
        TestSource {
            bytes,
            taken: 0,
            greatest,
            calls: 0,
            failing_call,
            has_failed: false,
        }
    }
}

impl Source for TestSource {
    ghost remaining = { λ s. s.remaining };

    ghost has_failed = { λ s. s.has_failed };

    fn read(&mut self, buffer: &mut [u8]) -> Option<usize> {
        self.calls = self.calls.saturating_add(1);
        if self.failing_call == Some(self.calls) {
            self.has_failed = true;
            return None;
        }
        let left = self.bytes.len() - self.taken;
        let count = buffer.len().min(self.greatest).min(left);
        let end = self.taken + count;
        buffer[..count].copy_from_slice(&self.bytes[self.taken..end]);
        self.taken = end;
        Some(count)
    }

    fn failed(&self) -> bool {
        self.has_failed
    }
}
