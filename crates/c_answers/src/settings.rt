//! Settings as C asks for them.

ghost use Rattle.std.specs.Prelude.{◌≡◌, ◌↔◌};
ghost use Rattle.c_answers.specs.Settings.{AreGiven, RefusesSettings};

use crate::answers::Refusal;
use c_layout::PlanSettings;
use rate_limit::Settings;

/// How many bytes the struct of the settings has.
const SIZE: u64 = 88;

/// The settings of a plan, in any range: C's `struct precopy_settings`.
#[derive(Clone, Copy)]
#[repr(C)]
pub struct SizedSettings {
    /// How many bytes the struct has, so that a later version can add to it.
    pub size: u64,
    /// What is asked for.
    pub settings: PlanSettings,
}

impl SizedSettings {
    ghost use Rattle.std.specs.Prelude.{◌≡◌, ◌↔◌, IfErr, IfOk, IsOk};
    ghost use Rattle.c_answers.specs.Settings.{AreGiven, RefusesSettings, settings_in};

    /// Returns these settings if the struct has its size and each is in its range, or else the first refusal. It
    /// allocates nothing.
    pub fn checked(&self) -> Result<Settings, Refusal>
        ensures accepted { IfOk result (λ settings. settings ≡ settings_in self.now) }
        ensures given { IsOk result ↔ AreGiven self.now }
        ensures refused { IfErr result (RefusesSettings self.now) }
    {
        if self.size != SIZE {
            return Err(Refusal::SettingsSize);
        }
        Ok(self.settings.checked()?)
    }
}
