//! Limits of a migration in time and bytes, as settings in ticks and pages.

mod error;
mod limits;
mod scale;

pub use error::UnitsError;
pub use limits::Limits;
pub use scale::Scale;
