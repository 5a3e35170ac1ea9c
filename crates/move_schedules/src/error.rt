//! Why plans have no schedule.

ghost use Rattle.std.specs.Prelude.{◌≡◌};
ghost use Rattle.move_schedules.specs.declared.error.PlanError.TheVariants as plan_errors;
ghost use Rattle.move_schedules.specs.declared.error.TableError.TheVariants as table_errors;

use std::alloc::{AllocError, AllocFailed};

/// Why a line is no plan.
#[derive(Clone, Copy, Debug, PartialEq, Eq)]
pub enum PlanError {
    /// Memory ran out.
    Memory,
    /// The line has other numbers, or something that is no number.
    NoPlan,
}

impl From<AllocError> for PlanError {
    ghost from_gives = { λ _ e. e ≡ plan_errors.Memory };

    fn from(_error: AllocError) -> PlanError {
        PlanError::Memory
    }
}

impl<T: Drop> From<AllocFailed<T>> for PlanError {
    ghost from_gives = { λ _ e. e ≡ plan_errors.Memory };

    fn from(_error: AllocFailed<T>) -> PlanError {
        PlanError::Memory
    }
}

/// Why a table has no answer.
#[derive(Clone, Copy, Debug, PartialEq, Eq)]
pub enum TableError {
    /// Memory ran out.
    Memory,
    /// A read failed.
    Read,
    /// A write failed.
    Write,
    /// There are more than `2^28` bytes.
    TooLong,
    /// The bytes are no text.
    NoText,
    /// There is no plan.
    NoPlans,
    /// The line of this number, from 1 on, is no plan.
    Line(usize),
}

impl From<AllocError> for TableError {
    ghost from_gives = { λ _ e. e ≡ table_errors.Memory };

    fn from(_error: AllocError) -> TableError {
        TableError::Memory
    }
}

impl<T: Drop> From<AllocFailed<T>> for TableError {
    ghost from_gives = { λ _ e. e ≡ table_errors.Memory };

    fn from(_error: AllocFailed<T>) -> TableError {
        TableError::Memory
    }
}
