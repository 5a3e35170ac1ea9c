//! The forecast of a hypervisor's migration as a line.

ghost use Rattle.std.specs.Prelude.{◌≡◌, ◌++◌, OnOk};
ghost use Rattle.predictions.specs.Looks.Texts.{ended_line, forecast_line, look_text, unended_line};
ghost use Rattle.predictions.specs.Texts.{verdict};

use crate::looks::forecast::LookForecast;
use crate::quantities::{push_bytes, push_time};
use look_planner::PlanEnd;
use std::alloc::AllocError;
use sweep_report::{end_line, push_field};

/// Returns whether a limit is kept, in words.
fn verdict_of(is_kept: bool) -> &'static str
    ensures { result.now ≡ verdict is_kept }
{
    if is_kept { ", kept" } else { ", not kept" }
}

/// Appends what a migration costs.
fn push_ended(text: &mut Vec<u8>, forecast: &LookForecast) -> Result<(), AllocError>
    ensures { OnOk result (text.new.items ≡ text.old.items ++ ended_line forecast.now) }
{
    push_field(text, "like QEMU: looks ", forecast.looks)?;
    text.extend_from_slice(", time ".as_bytes())?;
    push_time(text, forecast.time)?;
    text.extend_from_slice(", sent ".as_bytes())?;
    push_bytes(text, forecast.bytes)?;
    text.extend_from_slice(", downtime ".as_bytes())?;
    push_time(text, forecast.downtime)?;
    text.extend_from_slice(verdict_of(forecast.is_kept).as_bytes())?;
    end_line(text)?;
    Ok(())
}

/// Appends what is known of a migration if the trace ends before it.
fn push_unended(text: &mut Vec<u8>, forecast: &LookForecast) -> Result<(), AllocError>
    ensures { OnOk result (text.new.items ≡ text.old.items ++ unended_line forecast.now) }
{
    push_field(
        text,
        "like QEMU: the trace ends first, looks ",
        forecast.looks,
    )?;
    text.extend_from_slice(", sent ".as_bytes())?;
    push_bytes(text, forecast.sent_before())?;
    text.extend_from_slice(", left ".as_bytes())?;
    push_bytes(text, forecast.left)?;
    end_line(text)
}

/// Appends a forecast as a line, in ASCII: how many looks there are, the time, what is sent, and the downtime. If the
/// trace ends first, it says how much is sent and left then. Without a forecast it appends nothing.
pub fn push_forecast(text: &mut Vec<u8>, forecast: &Option<LookForecast>) -> Result<(), AllocError>
    ensures { OnOk result (text.new.items ≡ text.old.items ++ look_text forecast.now) }
{
    let Some(forecast) = forecast else {
        return Ok(());
    };
    match forecast.end {
        PlanEnd::Record => push_unended(text, forecast),
        PlanEnd::Few | PlanEnd::Looks => push_ended(text, forecast),
    }
}
