//! Tests of settings.

ghost use Rattle.std.specs.Prelude.{◌≡◌, ◌≢◌, ◌↔◌, Some};
ghost use Rattle.migration_model.specs.Rates.{AreSettings};
ghost use Rattle.rate_limit.specs.Refusals.{refusal_of};
ghost use Rattle.rate_limit.specs.declared.error.SettingsError.{SettingsError};
ghost use Rattle.c_layout.specs.Refusals.{number_of_settings};
ghost use Rattle.c_layout.specs.Settings.{settings_in};

use c_layout::{PlanSettings, settings_number};

/// Tests settings: answers 0 if each is in its range, or else the number of the first that is not.
#[unsafe(no_mangle)]
pub extern "C" fn lent_check_settings(settings: &PlanSettings) -> u32
    ensures in_range { (result ≡ 0) ↔ AreSettings (settings_in settings.now) }
    ensures refused { result ≢ 0 → (e : SettingsError) × (result ≡ number_of_settings e)
        × (refusal_of (settings_in settings.now) ≡ Some e) }
{
    match settings.checked() {
        Ok(_) => 0,
        Err(error) => settings_number(error),
    }
}
