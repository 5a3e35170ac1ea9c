//! The writes of a trace, by index.

ghost use Rattle.std.specs.Prelude.{◌≡◌, ◌<◌, length, slice_index_or};
ghost use Rattle.migration_model.specs.Touches.{touches_of};
ghost use Rattle.migration_model.specs.Trace.{GuestTrace, IsTrace};
ghost use Rattle.guest_log.specs.Writes.{no_write, shown};

use crate::shape::Shape;
use crate::timeline::Timeline;
use crate::write::WriteView;

/// Reads each write of a trace: all that versions of pages, resumed memory and migrations need.
pub trait WriteLog: Timeline {
    // The trace.
    ghost trace: { Self → GuestTrace };

    /// Returns the version of the trace's format.
    fn version(&self) -> u8
        ensures { result ≡ (trace self.now).version };

    /// Returns the sizes of the trace.
    fn shape(&self) -> Shape
        ensures shift { result.shift ≡ (trace self.now).shift }
        ensures pages { result.pages ≡ (trace self.now).pages }
        ensures writes { result.writes ≡ length (trace self.now).writes }
        ensures is_trace { IsTrace (trace self.now) };

    /// Returns write `index`. The first has index 0.
    fn write(&self, index: usize) -> WriteView<'_>
        requires { index < length (trace self.now).writes }
        ensures { shown result ≡ slice_index_or (trace self.now).writes index no_write };

    ghost same_pages: { (log : Self) → Self.pages log ≡ (trace log).pages };

    ghost same_touches: { (log : Self) → Self.touches log ≡ touches_of (trace log) };
}
