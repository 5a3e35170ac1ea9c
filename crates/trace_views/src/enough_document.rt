//! What is enough for the limit of a migration as a member of a JSON document.

ghost use Rattle.std.specs.Prelude.{◌≡◌, ◌++◌, [], if◌then◌else◌, OnOk};
ghost use Rattle.std.specs.List.{flat_map};
ghost use Rattle.trace_views.specs.EnoughJson.{amount_members, down_member, enough_member, enough_object, link_member};
ghost use Rattle.trace_views.specs.EnoughJson.{speed_member, start_member};

use crate::document::Document;
use crate::enough::Enough;
use predictions::remedies::Remedies;
use std::alloc::{AllocError, Global};

/// How many bytes a second a Kbit a second is.
const KBIT: u128 = 125;

/// Writes a link, in Kbit a second, as a member in bytes a second, if there is one.
fn write_link(out: &mut Document, name: &str, kbit: Option<u64>) -> Result<(), AllocError>
    ensures { OnOk result (out.new ≡ out.old ++ link_member name.now kbit) }
{
    match kbit {
        Some(kbit) => out.wide_member(name, kbit as u128 * KBIT),
        None => Ok(()),
    }
}

/// Writes the least downtime as a member, if there is one.
fn write_down(alloc: Global, out: &mut Document, micros: Option<u64>) -> Result<(), AllocError>
    ensures { OnOk result (out.new ≡ out.old ++ down_member micros) }
{
    match micros {
        Some(micros) => out.seconds_member(alloc, "down_seconds", micros as u128),
        None => Ok(()),
    }
}

/// Writes the guest's speed as a member, if there is one.
fn write_speed(out: &mut Document, percent: Option<u64>) -> Result<(), AllocError>
    ensures { OnOk result (out.new ≡ out.old ++ speed_member percent) }
{
    match percent {
        Some(percent) => out.number_member("guest_percent", percent),
        None => Ok(()),
    }
}

/// Writes the tick of the latest start as a member, if there is one.
fn write_latest(out: &mut Document, start: Option<u64>) -> Result<(), AllocError>
    ensures { OnOk result (out.new ≡ out.old ++ start_member start) }
{
    match start {
        Some(start) => out.number_member("ending_start", start),
        None => Ok(()),
    }
}

/// Writes the amounts that are enough.
fn write_amounts(alloc: Global, out: &mut Document, remedies: &Remedies) -> Result<(), AllocError>
    ensures { OnOk result (out.new ≡ out.old ++ flat_map (λ m. m) (amount_members remedies.now)) }
{
    write_link(out, "link_bytes", remedies.link)?;
    write_down(alloc, out, remedies.downtime)?;
    write_speed(out, remedies.speed)?;
    write_link(out, "ending_link_bytes", remedies.ending.link)?;
    write_latest(out, remedies.ending.start)?;
    Ok(())
}

/// Writes the amounts that are enough, if some are offered.
fn write_offered(
    alloc: Global,
    out: &mut Document,
    offers: bool,
    remedies: &Remedies,
) -> Result<(), AllocError>
    ensures { OnOk result (out.new ≡ out.old
        ++ flat_map (λ m. m) (if offers then amount_members remedies.now else [])) }
{
    if offers {
        write_amounts(alloc, out, remedies)
    } else {
        Ok(())
    }
}

/// Writes what is enough.
fn write_answer(
    alloc: Global,
    out: &mut Document,
    sure: bool,
    remedies: &Remedies,
) -> Result<(), AllocError>
    ensures { OnOk result (out.new ≡ out.old ++ enough_object sure remedies.now) }
{
    let answer = Enough::new(sure, remedies);
    out.begin_object()?;
    out.text_member("answer", answer.word())?;
    write_offered(alloc, out, answer.offers(), remedies)?;
    out.end_object()?;
    Ok(())
}

/// Writes what is enough as a member.
pub(crate) fn write_enough(
    alloc: Global,
    out: &mut Document,
    sure: bool,
    remedies: &Remedies,
) -> Result<(), AllocError>
    ensures { OnOk result (out.new ≡ out.old ++ enough_member sure remedies.now) }
{
    out.key("enough")?;
    write_answer(alloc, out, sure, remedies)?;
    Ok(())
}
