//! The settings of a migration, and the rates and stop tests of its rounds.
#![tactic(auto)]

mod error;
mod outcome;
mod pacing;
mod settings;

pub use error::SettingsError;
pub use outcome::{Next, Reason};
pub use pacing::{dirty_rate, duration, next};
pub use settings::{Asked, Settings};
