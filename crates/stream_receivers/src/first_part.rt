//! What a destination had before any frame came.

ghost use Rattle.std.specs.Prelude.{◌≡◌, ◌≤◌, IfOk, IfSome, length};
ghost use Rattle.std.specs.List.{All};
ghost use Rattle.stream_receivers.specs.First.{parts_with};

use collector::{Part, PartError, merge};
use std::alloc::Global;
use std::mem;

/// Joins the part that the destination began with, if any, to that of the first stream. In a warm start the first
/// stream's part is then the join of that part and the frames of its lanes. The only error is that memory runs out.
pub fn join_first(
    alloc: Global,
    first: Option<Part>,
    mut parts: Vec<Part>,
) -> Result<Vec<Part>, PartError>
    requires some { 1 ≤ length parts.items }
    requires shapes { IfSome first (λ one. All (λ part. one.shape ≡ part.shape) parts.items) }
    ensures { IfOk result (λ v. v.items ≡ parts_with first parts.items) }
{
    let Some(first) = first else {
        return Ok(parts);
    };
    let empty = Part::new(alloc, first.shape());
    let part = mem::replace(&mut parts[0], empty);
    parts[0] = merge(first, part)?;
    Ok(parts)
}
