//! Frames made on several threads.

ghost use Rattle.std.specs.Prelude.{◌≡◌, ◌<◌, ◌≤◌, ℕ, List, IfErr, IfOk, OnOk, [], length};
ghost use Rattle.std.specs.List.{All, flat_map};
ghost use Rattle.migration_model.specs.Trace.{GuestTrace};
ghost use Rattle.page_versions.specs.Index.{IsIndexOf};
ghost use Rattle.stop_copy.specs.Copies.{AreCurrentFrames};
ghost use Rattle.stop_copy.specs.Pieces.{AreMadeOf};

use crate::error::CopyError;
use crate::frames::CurrentPages;
use crate::threads::join_all;
use guest_log::WriteLog;
use page_message::Frame;
use page_versions::PageIndex;
use std::alloc::Global;
use std::sync::Wait;
use std::thread;
use std::thread::{Promise, PromisedHandle, Scope, Threads};

/// Making the frames of this many pages takes longer than starting a thread.
const WORTH_A_THREAD: usize = 512;

/// The frames that a thread made from its piece of the pages, or why it could not.
type Made = Result<Vec<Frame>, CopyError>;

/// A thread's promise: the frames of these pages, at these versions of the trace.
#[derive(Drop)]
struct MakesFrames<'a, W> {
    trace: &'a W,
    versions: &'a [u32],
    pages: &'a [u32],
}

impl<'a, W: WriteLog> Promise<Made> for MakesFrames<'a, W> {
    ghost kept_by = { λ p r. IfOk r (λ frames. AreCurrentFrames (W.trace p.trace.now) p.versions.now
        p.pages.now frames.items) };
}

/// Starts a thread that makes the frames of these pages.
fn start_piece<'s, E, W: WriteLog + Sync>(
    scope: &'s Scope<'s, E>,
    alloc: Global,
    current: &CurrentPages<'s, W>,
    pages: &'s [u32],
) -> Result<PromisedHandle<Made, MakesFrames<'s, W>>, CopyError>
    requires { All (λ page. page < (W.trace current.now.trace.now).pages) pages.now }
    ensures refused { IfErr result (λ e. e ≡ CopyError.Thread) }
    ensures trace { IfOk result (λ h. W.trace h.promise.trace.now ≡ W.trace current.now.trace.now) }
    ensures versions { IfOk result (λ h. h.promise.versions.now ≡ current.now.versions.now) }
    ensures pages { IfOk result (λ h. h.promise.pages.now ≡ pages.now) }
{
    let CurrentPages {
        trace,
        index,
        versions,
    } = *current;
    let promise = MakesFrames {
        trace,
        versions,
        pages,
    };
    let run = move || -> Made
        requires is_index { IsIndexOf index.now (W.trace trace.now) }
        requires count { length versions.now ≡ (W.trace trace.now).pages }
        requires low { All (λ version. version ≤ length (W.trace trace.now).writes) versions.now }
        requires pages { All (λ page. page < (W.trace trace.now).pages) pages.now }
        ensures { IfOk result (λ frames. AreCurrentFrames (W.trace trace.entry.now) versions.entry.now
            pages.entry.now frames.items) }
    {
        let current = CurrentPages {
            trace,
            index,
            versions,
        };
        current.frames_of(alloc, pages)
    };
    Ok(scope.spawn_with(promise, run)?)
}

/// Starts a thread for each piece of `size` pages. Without room for its handle a thread is not started.
fn start_pieces<'s, E, W: WriteLog + Sync>(
    scope: &'s Scope<'s, E>,
    alloc: Global,
    current: &CurrentPages<'s, W>,
    pages: &'s [u32],
    size: usize,
    handles: &mut Vec<PromisedHandle<Made, MakesFrames<'s, W>>>,
) -> Result<(), CopyError>
    requires pages { All (λ page. page < (W.trace current.now.trace.now).pages) pages.now }
    requires size { 1 ≤ size }
    requires none { handles.old.items ≡ [] }
    ensures refused { IfErr result (λ e. e ≡ CopyError.Thread) }
    ensures pieces { OnOk result (flat_map (λ h. h.promise.pages.now) handles.new.items ≡ pages.now) }
    ensures same { OnOk result (All (λ h. (W.trace h.promise.trace.now ≡ W.trace current.now.trace.now)
        × (h.promise.versions.now ≡ current.now.versions.now)) handles.new.items) }
{
    let mut rest = pages;
    while !rest.is_empty() {
        let (piece, behind) = rest.split_at(rest.len().min(size));
        handles.reserve(1).or(Err(CopyError::Thread))?;
        let handle = start_piece(scope, alloc, current, piece)?;
        handles.push_reserved(handle);
        rest = behind;
    }
    Ok(())
}

/// Starts the threads and joins them. Those that run are joined before any refusal is returned.
fn make_in_scope<'s, E, R: Threads, W: WriteLog + Sync>(
    rt: &R,
    scope: &'s Scope<'s, E>,
    alloc: Global,
    current: &CurrentPages<'s, W>,
    pages: &'s [u32],
    size: usize,
) -> Result<Vec<Made>, CopyError>
    requires pages { All (λ page. page < (W.trace current.now.trace.now).pages) pages.now }
    requires size { 1 ≤ size }
    ensures { IfOk result (λ made. AreMadeOf (W.trace current.now.trace.now) current.now.versions.now
        pages.now made.items) }
{
    let mut handles = Vec::new(alloc);
    let started = start_pieces(scope, alloc, current, pages, size, &mut handles);
    let made = join_all(rt, handles);
    started?;
    Ok(made?)
}

/// Returns all frames that were made, in order, or the first error.
fn all_frames(alloc: Global, made: Vec<Made>) -> Result<Vec<Frame>, CopyError>
    ensures { IfOk result (λ frames. (trace : GuestTrace) (versions pages : List ℕ)
        → AreMadeOf trace versions pages made.items
        → AreCurrentFrames trace versions pages frames.items) }
{
    let mut all = Vec::new(alloc);
    for piece in made {
        let mut frames = piece?;
        all.append(&mut frames)?;
    }
    Ok(all)
}

/// Returns the frames of these pages, in order, each at its version, made by up to `workers` threads. For few pages it
/// starts none.
pub(crate) fn frames_by_workers<R: Threads + Wait + Sync, W: WriteLog + Sync>(
    rt: &R,
    alloc: Global,
    current: &CurrentPages<'_, W>,
    pages: &[u32],
    workers: usize,
) -> Result<Vec<Frame>, CopyError>
    requires pages { All (λ page. page < (W.trace current.now.trace.now).pages) pages.now }
    requires some { 1 ≤ workers }
    ensures { IfOk result (λ frames. AreCurrentFrames (W.trace current.now.trace.now) current.now.versions.now
        pages.now frames.items) }
{
    let size = (pages.len() / workers + 1).max(WORTH_A_THREAD);
    if pages.len() <= size {
        return current.frames_of(alloc, pages);
    }
    let CurrentPages {
        trace,
        index,
        versions,
    } = *current;
    let made = thread::scope(
        thread::scope_env(),
        rt,
        |scope| -> Result<Vec<Made>, CopyError>
            requires is_index { IsIndexOf index.now (W.trace trace.now) }
            requires count { length versions.now ≡ (W.trace trace.now).pages }
            requires low { All (λ version. version ≤ length (W.trace trace.now).writes) versions.now }
            requires pages { All (λ page. page < (W.trace trace.now).pages) pages.now }
            requires size { 1 ≤ size }
            ensures { IfOk result (λ made. AreMadeOf (W.trace trace.entry.now) versions.entry.now
                pages.entry.now made.items) }
        {
            let current = CurrentPages {
                trace,
                index,
                versions,
            };
            make_in_scope(rt, scope, alloc, &current, pages, size)
        },
    )?;
    all_frames(alloc, made)
}
