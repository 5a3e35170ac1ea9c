//! Traces that stay open between calls.

// `Spells`, and so `Shows`, holds of one value alone: `one_trace`.

ghost use Rattle.std.specs.Prelude.{◌≡◌, ◌<◌};
ghost use Rattle.migration_model.specs.Trace.{Spells};
ghost use Rattle.open_traces.specs.Index.{index_of};
ghost use Rattle.c_answers.specs.Opened.{IsOpened, Shows};

use crate::sizes::GuestSizes;
use open_traces::OpenTrace;
use trace_codec::{Header, Shape, TraceView};

/// A trace that is open: C's `struct precopy_trace`. It borrows the trace's bytes and the words of its index.
#[derive(Clone, Copy)]
#[repr(C)]
pub struct TraceHandle<'a> {
    sizes: GuestSizes,
    version: u32,
    bytes: &'a [u8],
    words: &'a [u32],
}

impl<'a> TraceHandle<'a> {
    /// Returns the handle of a trace, with its bytes and its index.
    pub fn of(trace: &TraceView<'_>, bytes: &'a [u8], words: &'a [u32]) -> TraceHandle<'a>
        requires bytes { Spells bytes.now trace.now }
        requires words { words.now ≡ index_of trace.now }
        ensures { Shows result trace.now }
    {
        TraceHandle {
            sizes: GuestSizes::of(&trace.shape()),
            version: trace.version() as u32,
            bytes,
            words,
        }
    }

    /// Returns the trace that the handle shows.
    pub fn opened(&self) -> OpenTrace<'a>
        requires { IsOpened self.now }
        ensures { Shows self.now result }
    {
        let GuestSizes {
            shift,
            pages,
            writes,
        } = self.sizes;
        let shape = Shape {
            shift: shift as u8,
            pages,
            writes,
        };
        let header = Header {
            version: self.version as u8,
            shape,
        };
        OpenTrace::of(header, self.bytes, self.words)
    }
}
