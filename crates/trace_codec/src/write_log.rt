//! The writes of a trace, by index.

ghost use Rattle.std.specs.Prelude.{refl};

use crate::trace::Trace;
use guest_log::{Shape, WriteLog, WriteView};

impl WriteLog for Trace {
    ghost trace = { λ t. t };

    fn version(&self) -> u8 {
        self.version
    }

    fn shape(&self) -> Shape {
        self.shape()
    }

    fn write(&self, index: usize) -> WriteView<'_> {
        self.writes[index].view()
    }

    ghost same_pages = { λ t. refl };

    ghost same_touches = { λ t. refl };
}
