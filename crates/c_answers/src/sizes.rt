//! The sizes of a guest as C sees them.

use guest_log::Shape;
use trace_codec::TraceError;

/// The sizes of a trace: C's `struct precopy_sizes`.
#[derive(Clone, Copy)]
#[repr(C)]
pub struct GuestSizes {
    /// The page shift: a page has `2^shift` bytes.
    pub shift: u32,
    /// How many pages the guest has.
    pub pages: u32,
    /// How many writes the trace has.
    pub writes: u32,
}

impl GuestSizes {
    ghost use Rattle.std.specs.Prelude.{◌≡◌, ◌↔◌, IfErr, IfOk, IsOk, Some};
    ghost use Rattle.migration_model.specs.Frames.{IsGuestShape};
    ghost use Rattle.page_message.specs.Shapes.{shape_of};
    ghost use Rattle.c_answers.specs.Settings.{shape_in, shape_refusal};

    /// Returns the shape of a trace of these sizes, or why they are refused.
    pub(crate) fn shape(&self) -> Result<Shape, TraceError>
        ensures accepted { IfOk result (λ shape. shape_of shape ≡ shape_in self.now) }
        ensures in_range { IsOk result ↔ IsGuestShape (shape_in self.now) }
        ensures refused { IfErr result (λ e. shape_refusal self.now ≡ Some e) }
    {
        if self.shift < 4 || self.shift > 12 {
            return Err(TraceError::BadShift);
        }
        if self.pages < 1 || self.pages > 65_536 {
            return Err(TraceError::BadPages);
        }
        if self.writes > 1_048_576 {
            return Err(TraceError::TooManyWrites);
        }
        Ok(Shape {
            shift: self.shift as u8,
            pages: self.pages,
            writes: self.writes,
        })
    }

    /// Returns the sizes of this shape.
    pub fn of(shape: &Shape) -> GuestSizes
        ensures { shape_in result ≡ shape_of shape.now }
    {
        GuestSizes {
            shift: shape.shift as u32,
            pages: shape.pages,
            writes: shape.writes,
        }
    }
}
