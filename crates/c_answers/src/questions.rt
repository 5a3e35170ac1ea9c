//! Questions about a migration as C asks them, and why there is no answer.

ghost use Rattle.std.specs.Prelude.{◌≡◌};
ghost use Rattle.c_answers.specs.declared.questions.QuestionRefusal.TheVariants.{Memory as OutOfMemory};
ghost use Rattle.c_answers.specs.declared.questions.QuestionRefusal.TheVariants.{Misfit as OfMisfit};
ghost use Rattle.c_answers.specs.declared.questions.QuestionRefusal.TheVariants.{Units as OfUnits};

use crate::answers::Refusal;
use c_layout::{misfit_number, units_number};
use predictions::units::UnitsError;
use predictions::{Misfit, Question};
use round_planner::PlanError;
use std::alloc::AllocError;

/// How many bytes the struct of a question has.
pub(crate) const SIZE: u64 = 128;

/// What is asked of a migration: C's `struct precopy_question`.
#[derive(Clone, Copy)]
#[repr(C)]
pub struct SizedQuestion {
    /// How many bytes the struct has, so that a later version can add to it.
    pub size: u64,
    /// What is asked.
    pub question: Question,
}

/// Why a question has no answer.
#[derive(Clone, Copy)]
pub enum QuestionRefusal {
    /// The struct of the question is longer or shorter than this library knows it.
    Size,
    /// The question is out of range.
    Units(UnitsError),
    /// The trace does not have the question's scale.
    Misfit(Misfit),
    /// Memory ran out.
    Memory,
}

impl From<UnitsError> for QuestionRefusal {
    ghost from_gives = { λ e r. r ≡ OfUnits e };

    fn from(error: UnitsError) -> QuestionRefusal {
        QuestionRefusal::Units(error)
    }
}

impl From<Misfit> for QuestionRefusal {
    ghost from_gives = { λ e r. r ≡ OfMisfit e };

    fn from(error: Misfit) -> QuestionRefusal {
        QuestionRefusal::Misfit(error)
    }
}

impl From<PlanError> for QuestionRefusal {
    ghost from_gives = { λ _ r. r ≡ OutOfMemory };

    fn from(_error: PlanError) -> QuestionRefusal {
        QuestionRefusal::Memory
    }
}

impl From<AllocError> for QuestionRefusal {
    ghost from_gives = { λ _ r. r ≡ OutOfMemory };

    fn from(_error: AllocError) -> QuestionRefusal {
        QuestionRefusal::Memory
    }
}

impl QuestionRefusal {
    ghost use Rattle.std.specs.Prelude.{◌≡◌, ◌≤◌};
    ghost use Rattle.c_answers.specs.Predictions.{number_of_question};

    /// Returns the number that C sees.
    pub fn number(self) -> u32
        ensures number { result ≡ number_of_question self }
        ensures some { 1 ≤ result }
    {
        match self {
            QuestionRefusal::Size => Refusal::SettingsSize.number(),
            QuestionRefusal::Units(error) => units_number(error),
            QuestionRefusal::Misfit(misfit) => misfit_number(misfit),
            QuestionRefusal::Memory => Refusal::Memory.number(),
        }
    }
}
