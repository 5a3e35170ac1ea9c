//! Kept pages without their trace.

ghost use Rattle.std.specs.Prelude.{◌≡◌, ◌≤◌, [], IfOk};

use crate::error::CacheError;
use crate::kept::Kept;
use lru::LruCache;
use std::alloc::Global;
use std::marker::Model;
use std::num::NonZeroUsize;

/// What a cache keeps, without the trace of the pages: for a holder that has no trace at hand.
#[derive(Debug, Drop)]
pub struct KeptPages {
    pub(crate) kept: LruCache<u32, Kept>,
}

impl Model for KeptPages {
    ghost use Rattle.page_cache.specs.Cache.{GuestPages, pages_with};

    ghost Value = { GuestPages };

    ghost view = { λ p. pages_with p.kept.entries p.kept.cap };
}

impl KeptPages {
    ghost use Rattle.page_cache.specs.Cache.{pages_with};

    /// Returns no pages yet; later there are at most `capacity`. Memory grows with what is kept. The only error is that
    /// memory runs out.
    pub fn new(alloc: Global, capacity: usize) -> Result<KeptPages, CacheError>
        requires { (1 ≤ capacity) × (capacity ≤ 4_096) }
        ensures { IfOk result (λ pages. pages ≡ pages_with [] capacity) }
    {
        let capacity = NonZeroUsize::new(capacity).unwrap();
        Ok(KeptPages {
            kept: LruCache::sparse(alloc, capacity)?,
        })
    }
}
