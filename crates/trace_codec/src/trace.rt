//! A trace that owns its writes. No program runs it: it serves users of the library, and tests.

// `RefusesTrace` holds of one value alone: `Trace::new: first`.

ghost use Rattle.std.specs.Prelude.{◌≡◌, Err, IfErr, IfOk, IsOk, length};
ghost use Rattle.migration_model.specs.Trace.{GuestTrace, IsTrace, trace_with};
ghost use Rattle.trace_codec.specs.Refusals.{RefusesTrace};

use crate::building::check_trace;
use crate::error::TraceError;
use guest_log::{Shape, Write};
use std::marker::Model;

/// A recorded trace: a guest of `pages` pages of `2^shift` bytes, and its writes in the order of their ticks. Each
/// value is valid: it has an encoding in the trace format.
#[derive(Debug, Drop)]
pub struct Trace {
    /// The version of its format: 1, or 2, in which a write of no bytes releases its page.
    pub version: u8,
    /// The page shift: a page has `2^shift` bytes.
    pub shift: u8,
    /// How many pages the guest has.
    pub pages: u32,
    /// The writes, in the order of their ticks.
    pub writes: Vec<Write>,
}

impl Model for Trace {
    ghost Value = { GuestTrace };

    ghost view = { λ t. trace_with t.version t.shift t.pages t.writes.items };

    ghost invariant = { λ t. IsTrace (trace_with t.version t.shift t.pages t.writes.items) };
}

impl Trace {
    /// Returns the trace of these writes. It is refused for `E15` if its encoding would be too long, then for its
    /// version (`E3`) and its sizes (`E4`, `E6`, `E7`), and then record by record (`E9` to `E13`); records count from
    /// 0. It allocates nothing.
    pub fn new(version: u8, shift: u8, pages: u32, writes: Vec<Write>) -> Result<Trace, TraceError>
        ensures made { IfOk result (λ trace. trace ≡ trace_with version shift pages writes.items) }
        ensures valid { IfOk result IsTrace }
        ensures refused { IfErr result (RefusesTrace (trace_with version shift pages writes.items)) }
        ensures accepted { IsTrace (trace_with version shift pages writes.items) → IsOk result }
        ensures first { (e : TraceError) → RefusesTrace (trace_with version shift pages writes.items) e
            → result ≡ Err e }
    {
        check_trace(version, shift, pages, &writes)?;
        Ok(Trace {
            version,
            shift,
            pages,
            writes,
        })
    }

    /// Returns the sizes of the trace.
    pub fn shape(&self) -> Shape
        ensures shift { result.shift ≡ self.now.shift }
        ensures pages { result.pages ≡ self.now.pages }
        ensures writes { result.writes ≡ length self.now.writes }
        ensures is_trace { IsTrace self.now }
    {
        Shape {
            shift: self.shift,
            pages: self.pages,
            writes: self.writes.len() as u32,
        }
    }
}
