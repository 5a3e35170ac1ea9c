//! Waiting for threads, each of which owes what its promise says.

ghost use Rattle.std.specs.Prelude.{◌≡◌, IfOk, length};
ghost use Rattle.std.specs.PromisedHandle.{KeepsEach};

use std::alloc::AllocError;
use std::thread::{Promise, PromisedHandle, Threads, join_promised};

/// Waits until all these threads have ended, and returns what they made, in order. If memory runs out it waits for them
/// too, and drops what they made.
pub fn join_all<R: Threads, T: Drop, P: Promise<T>>(
    rt: &R,
    handles: Vec<PromisedHandle<T, P>>,
) -> Result<Vec<T>, AllocError>
    ensures count { IfOk result (λ made. length made.items ≡ length handles.items) }
    ensures each { IfOk result (λ made. KeepsEach P.Promise (length handles.items) handles.items made.items) }
{
    match join_promised(rt, handles) {
        Ok(made) => Ok(made),
        Err(refused) => {
            for handle in refused.value {
                drop(handle.join(rt));
            }
            Err(AllocError)
        }
    }
}
