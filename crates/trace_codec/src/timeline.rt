//! When the pages of a trace are written.

ghost use Rattle.std.specs.Prelude.{◌≡◌, nat_lt};
ghost use Rattle.migration_model.specs.Touches.{touches_of};

use crate::trace::Trace;
use guest_log::{Timeline, Touch, Write};

impl Timeline for Trace {
    ghost touches = { touches_of };

    ghost pages = { λ t. t.pages };

    fn page_count(&self) -> u32 {
        self.pages
    }

    fn touch_count(&self) -> usize {
        self.writes.len()
    }

    fn touch(&self, index: usize) -> Touch {
        let write = &self.writes[index];
        Touch {
            tick: write.tick,
            page: write.page,
        }
    }

    fn before(&self, tick: u64) -> usize {
        self.writes.as_slice().partition_point(
            |write: &Write| -> bool
                ensures { result ≡ nat_lt write.now.tick tick }
            { write.tick < tick },
        )
    }
}
