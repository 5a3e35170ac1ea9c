//! Pages at some versions, from which later ones are made.

ghost use Rattle.std.specs.Prelude.{◌≡◌, ◌<◌, ◌≤◌, ℕ, [], IfOk, length, map, slice_index_or};
ghost use Rattle.std.specs.List.{All};
ghost use Rattle.page_versions.specs.Index.{IsIndexOf, places_of};
ghost use Rattle.page_versions.specs.Copies.{IsCheckpoint, PageCheckpoint};

use crate::error::IndexError;
use crate::index::{PageIndex, PageProgress};
use crate::source::PageSource;
use guest_log::WriteLog;
use std::alloc::Global;
use std::marker::Model;

/// A checkpoint comes after each of this many writes to a page.
pub(crate) const WRITES_BETWEEN: usize = 1_024;

/// A page's bytes at a version.
#[derive(Debug, Drop)]
pub(crate) struct Checkpoint {
    pub(crate) version: u32,
    pub(crate) bytes: Vec<u8>,
}

impl Model for Checkpoint {
    ghost Value = { PageCheckpoint };

    ghost view = { λ c. record { version = c.version; bytes = c.bytes.items } };
}

/// Returns the page after every 1,024th of its writes, whose places these are.
fn checkpoints_of<W: WriteLog>(
    alloc: Global,
    source: &PageSource<'_, W>,
    page: u32,
    places: &[u32],
) -> Result<Vec<Checkpoint>, IndexError>
    requires page { page < source.now.pages }
    requires places { places.now ≡ places_of source.now page }
    ensures { IfOk result (λ made. All (IsCheckpoint source.now page) made.items) }
{
    // For the proof: `shape` promises that the source is of a trace.
    let _ = source.shape();
    let mut made = Vec::new(alloc);
    let mut reached = PageProgress {
        version: 0,
        writes: 0,
    };
    let mut bytes = Vec::new(alloc);
    source.bytes_into(page, 0, &mut bytes)?;
    let mut count = WRITES_BETWEEN;
    while count <= places.len() {
        let version = places[count - 1];
        reached = source.bring_on(page, reached, version, &mut bytes);
        let bytes = Vec::from_slice(alloc, &bytes)?;
        made.push(Checkpoint { version, bytes })?;
        count += WRITES_BETWEEN;
    }
    Ok(made)
}

/// Returns the checkpoints of all pages, page by page.
pub(crate) fn all_checkpoints<W: WriteLog>(
    alloc: Global,
    index: &PageIndex,
    source: &PageSource<'_, W>,
) -> Result<Vec<Vec<Checkpoint>>, IndexError>
    requires { IsIndexOf index.now source.now }
    ensures { IfOk result (λ made. (page : ℕ) → page < source.now.pages → All (IsCheckpoint source.now page)
        (slice_index_or (map (λ m. m.items) made.items) page [])) }
{
    let count = source.shape().pages;
    let mut made = Vec::with_capacity(alloc, count as usize)?;
    for page in 0..count {
        let places = index.places(page);
        if places.len() < WRITES_BETWEEN {
            made.push(Vec::new(alloc))?;
            continue;
        }
        made.push(checkpoints_of(alloc, source, page, places)?)?;
    }
    Ok(made)
}
