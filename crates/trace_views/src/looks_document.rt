//! The forecast of a hypervisor's migration as a member of a JSON document.

ghost use Rattle.std.specs.Prelude.{◌≡◌, ◌++◌, OnOk, codes};
ghost use Rattle.std.specs.List.{flat_map};
ghost use Rattle.trace_views.specs.Json.{member_of, object_of};
ghost use Rattle.trace_views.specs.LooksJson.{ended_members, forecast_members, looks_member, unended_members};

use crate::document::Document;
use look_planner::PlanEnd;
use predictions::looks::LookForecast;
use std::alloc::{AllocError, Global};

/// Writes what a migration costs as members.
fn write_ended(alloc: Global, out: &mut Document, forecast: &LookForecast) -> Result<(), AllocError>
    ensures { OnOk result (out.new ≡ out.old ++ flat_map (λ m. m) (ended_members forecast.now)) }
{
    out.number_member("looks", forecast.looks)?;
    out.seconds_member(alloc, "time_seconds", forecast.time)?;
    out.wide_member("sent_bytes", forecast.bytes)?;
    out.seconds_member(alloc, "down_seconds", forecast.downtime)?;
    out.flag_member("kept", forecast.is_kept)?;
    Ok(())
}

/// Writes what is known of a migration as members, if the trace ends before it.
fn write_unended(out: &mut Document, forecast: &LookForecast) -> Result<(), AllocError>
    ensures { OnOk result (out.new ≡ out.old ++ flat_map (λ m. m) (unended_members forecast.now)) }
{
    out.number_member("looks", forecast.looks)?;
    out.wide_member("sent_bytes", forecast.sent_before())?;
    out.wide_member("left_bytes", forecast.left)?;
    Ok(())
}

/// Writes a forecast as members.
fn write_members(
    alloc: Global,
    out: &mut Document,
    forecast: &LookForecast,
) -> Result<(), AllocError>
    ensures { OnOk result (out.new ≡ out.old
        ++ flat_map (λ m. m) (forecast_members forecast.now.end forecast.now)) }
{
    match forecast.end {
        PlanEnd::Record => write_unended(out, forecast),
        PlanEnd::Few | PlanEnd::Looks => write_ended(alloc, out, forecast),
    }
}

/// Writes a forecast.
fn write_object(
    alloc: Global,
    out: &mut Document,
    forecast: &LookForecast,
) -> Result<(), AllocError>
    ensures { OnOk result (out.new ≡ out.old ++ object_of (forecast_members forecast.now.end forecast.now)) }
{
    out.begin_object()?;
    write_members(alloc, out, forecast)?;
    out.end_object()?;
    Ok(())
}

/// Writes a forecast as a member.
fn write_named(alloc: Global, out: &mut Document, forecast: &LookForecast) -> Result<(), AllocError>
    ensures { OnOk result (out.new ≡ out.old
        ++ member_of (codes "like_qemu") (object_of (forecast_members forecast.now.end forecast.now))) }
{
    out.key("like_qemu")?;
    write_object(alloc, out, forecast)?;
    Ok(())
}

/// Writes a forecast as a member, if there is one.
pub(crate) fn write_looks(
    alloc: Global,
    out: &mut Document,
    forecast: &Option<LookForecast>,
) -> Result<(), AllocError>
    ensures { OnOk result (out.new ≡ out.old ++ looks_member forecast.now) }
{
    match forecast {
        Some(forecast) => write_named(alloc, out, forecast),
        None => Ok(()),
    }
}
