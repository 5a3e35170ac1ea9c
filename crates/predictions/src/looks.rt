//! What a migration will be if the hypervisor looks at its dirty bitmap only when few pages are left, as QEMU does.

mod forecast;
mod forecast_text;

pub(crate) use forecast::look_asked;
pub use forecast::{LookForecast, one_forecast};
pub use forecast_text::push_forecast;
