//! What calls answer.

ghost use Rattle.std.specs.Prelude.{◌≡◌};
ghost use Rattle.browser_planner.specs.declared.answers.Refusal.TheVariants.{Misfit as OfMisfit, Trace as OfTrace};
ghost use Rattle.browser_planner.specs.declared.answers.Refusal.TheVariants.{Settings as OfSettings, Units as OfUnits};

use c_layout::{misfit_number, settings_number, trace_number, units_number};
use predictions::Misfit;
use predictions::units::UnitsError;
use rate_limit::SettingsError;
use trace_codec::TraceError;

/// Why a call refuses.
#[derive(Clone, Copy)]
pub enum Refusal {
    /// The bytes are no trace.
    Trace(TraceError),
    /// The settings are out of range.
    Settings(SettingsError),
    /// A question is out of range.
    Units(UnitsError),
    /// The trace does not have the question's scale.
    Misfit(Misfit),
    /// Room or a buffer is too short for what belongs there.
    ShortBuffer,
}

impl From<TraceError> for Refusal {
    ghost from_gives = { λ e r. r ≡ OfTrace e };

    fn from(error: TraceError) -> Refusal {
        Refusal::Trace(error)
    }
}

impl From<SettingsError> for Refusal {
    ghost from_gives = { λ e r. r ≡ OfSettings e };

    fn from(error: SettingsError) -> Refusal {
        Refusal::Settings(error)
    }
}

impl From<UnitsError> for Refusal {
    ghost from_gives = { λ e r. r ≡ OfUnits e };

    fn from(error: UnitsError) -> Refusal {
        Refusal::Units(error)
    }
}

impl From<Misfit> for Refusal {
    ghost from_gives = { λ e r. r ≡ OfMisfit e };

    fn from(error: Misfit) -> Refusal {
        Refusal::Misfit(error)
    }
}

impl Refusal {
    ghost use Rattle.std.specs.Prelude.{◌≡◌, ◌≤◌};
    ghost use Rattle.browser_planner.specs.Answers.{number_of};

    /// Returns the number that the caller sees.
    pub(crate) fn number(self) -> u32
        ensures number { result ≡ number_of self }
        ensures some { 1 ≤ result }
    {
        match self {
            Refusal::Trace(error) => trace_number(error),
            Refusal::Settings(error) => settings_number(error),
            Refusal::Units(error) => units_number(error),
            Refusal::Misfit(error) => misfit_number(error),
            Refusal::ShortBuffer => 61,
        }
    }
}
