//! The panels of the rounds: their pages and their rates, the stop and the downtime.

ghost use Rattle.std.specs.Prelude.{◌≡◌, ◌++◌, OnOk};
ghost use Rattle.report_pictures.specs.Panels.{IsPanel};
ghost use Rattle.report_pictures.specs.ReportCharts.{bar_keys, dirtied_mark, downtime_marks, pages_panel, rates_panel};
ghost use Rattle.report_pictures.specs.ReportCharts.{round_marks, rounds_bars, rounds_frame, rounds_marks, sent_marks};
ghost use Rattle.report_pictures.specs.ReportCharts.{stop_keys};

use crate::axis::Axis;
use crate::panel::Panel;
use crate::svg::{Area, push_rect};
use crate::window_panel::parted;
use round_planner::{Plan, Round};
use std::alloc::AllocError;

/// Returns the panels of the rounds: their pages, and their rates.
pub(crate) fn panels_of_rounds(rounds: &[Round]) -> (Panel, Panel)
    ensures { result ≡ (pages_panel rounds.now, rates_panel rounds.now) }
{
    let mut pages = 1;
    let mut rate = 1;
    for round in rounds {
        pages = (round.pages.len() as u64)
            .max(round.dirtied as u64)
            .max(pages);
        rate = round.rate.max(rate);
    }
    let upper = Panel {
        top: 360,
        height: 120,
        most: pages,
    };
    let lower = Panel {
        top: 540,
        height: 70,
        most: rate,
    };
    (upper, lower)
}

/// Appends the bar of the pages of a round, sent and skipped.
#[tactic(auto, unfolding(crate::specs::ReportCharts::sent_marks))]
fn push_sent(
    text: &mut Vec<u8>,
    panel: &Panel,
    place: (u64, u64),
    round: &Round,
) -> Result<(), AllocError>
    requires small { IsPanel panel.now }
    ensures { OnOk result (text.new.items ≡ text.old.items ++ sent_marks panel.now place round.now) }
{
    let sent = round.sent.len() as u64;
    let skipped = (round.pages.len() as u64).saturating_sub(sent);
    let high = panel.push_bar(text, "sent", place, 0, sent)?;
    panel.push_bar(text, "skipped", place, high, skipped)?;
    Ok(())
}

/// Appends the mark of the pages that were dirtied in a round.
#[tactic(auto, unfolding(crate::specs::ReportCharts::dirtied_mark))]
fn push_dirtied(
    text: &mut Vec<u8>,
    panel: &Panel,
    place: (u64, u64),
    dirtied: u64,
) -> Result<(), AllocError>
    requires small { IsPanel panel.now }
    ensures { OnOk result (text.new.items ≡ text.old.items ++ dirtied_mark panel.now place dirtied) }
{
    let mark = Area {
        x: place.0,
        y: panel.level(dirtied).saturating_sub(1),
        width: place.1.saturating_sub(place.0).max(2),
        height: 2,
    };
    push_rect(text, "dirtied", &mark)
}

/// Appends the bars of a round.
fn push_round(
    text: &mut Vec<u8>,
    axis: &Axis,
    pages: &Panel,
    rates: &Panel,
    round: &Round,
) -> Result<(), AllocError>
    requires pages { IsPanel pages.now }
    requires rates { IsPanel rates.now }
    ensures { OnOk result (text.new.items
        ≡ text.old.items ++ round_marks axis.now pages.now rates.now round.now) }
{
    let place = parted(axis.place(round.from), axis.place(round.to));
    push_sent(text, pages, place, round)?;
    push_dirtied(text, pages, place, round.dirtied as u64)?;
    rates.push_bar(text, "rate", place, 0, round.rate)?;
    Ok(())
}

/// Appends the bars of all rounds.
fn push_bars(
    text: &mut Vec<u8>,
    axis: &Axis,
    pages: &Panel,
    rates: &Panel,
    rounds: &[Round],
) -> Result<(), AllocError>
    requires pages { IsPanel pages.now }
    requires rates { IsPanel rates.now }
    ensures { OnOk result (text.new.items
        ≡ text.old.items ++ rounds_bars axis.now pages.now rates.now rounds.now) }
{
    for round in rounds {
        push_round(text, axis, pages, rates, round)?;
    }
    Ok(())
}

/// Appends the stop and the downtime, over a panel of the rounds.
#[tactic(auto, unfolding(crate::specs::ReportCharts::downtime_marks))]
fn push_downtime(
    text: &mut Vec<u8>,
    axis: &Axis,
    panel: &Panel,
    plan: &Plan,
) -> Result<(), AllocError>
    ensures { OnOk result (text.new.items ≡ text.old.items ++ downtime_marks axis.now panel.now plan.now) }
{
    let stop = axis.place(plan.stop);
    let end = axis.place(plan.stop.saturating_add(plan.down));
    panel.push_span(text, "down", stop, end)?;
    panel.push_span(text, "stop", stop, stop.saturating_add(2))
}

/// Appends what the colors of rounds mean.
#[tactic(auto, unfolding(crate::specs::ReportCharts::bar_keys))]
fn push_bar_keys(text: &mut Vec<u8>, panel: &Panel) -> Result<(), AllocError>
    ensures { OnOk result (text.new.items ≡ text.old.items ++ bar_keys panel.now) }
{
    panel.push_key(text, "sent", 330, "sent")?;
    panel.push_key(text, "skipped", 410, "skipped")?;
    panel.push_key(text, "dirtied", 510, "dirtied meanwhile")?;
    Ok(())
}

/// Appends what the colors of the stop mean.
#[tactic(auto, unfolding(crate::specs::ReportCharts::stop_keys))]
fn push_stop_keys(text: &mut Vec<u8>, panel: &Panel) -> Result<(), AllocError>
    ensures { OnOk result (text.new.items ≡ text.old.items ++ stop_keys panel.now) }
{
    panel.push_key(text, "stop", 670, "stop")?;
    panel.push_key(text, "down", 770, "downtime")
}

/// Appends the frames of the panels of the rounds.
#[tactic(auto, unfolding(crate::specs::ReportCharts::rounds_frame))]
fn push_rounds_frame(text: &mut Vec<u8>, pages: &Panel, rates: &Panel) -> Result<(), AllocError>
    requires pages { IsPanel pages.now }
    requires rates { IsPanel rates.now }
    ensures { OnOk result (text.new.items ≡ text.old.items ++ rounds_frame pages.now rates.now) }
{
    pages.push_frame(text, "Rounds: pages")?;
    push_bar_keys(text, pages)?;
    push_stop_keys(text, pages)?;
    rates.push_frame(text, "Rounds: rate, in pages per 1,000 ticks")?;
    Ok(())
}

/// Appends the panels of the rounds.
#[tactic(auto, unfolding(crate::specs::ReportCharts::rounds_marks))]
pub(crate) fn push_rounds(
    text: &mut Vec<u8>,
    axis: &Axis,
    pages: &Panel,
    rates: &Panel,
    plan: &Plan,
) -> Result<(), AllocError>
    requires pages { IsPanel pages.now }
    requires rates { IsPanel rates.now }
    ensures { OnOk result (text.new.items
        ≡ text.old.items ++ rounds_marks axis.now pages.now rates.now plan.now) }
{
    push_rounds_frame(text, pages, rates)?;
    push_bars(text, axis, pages, rates, &plan.rounds)?;
    push_downtime(text, axis, pages, plan)?;
    push_downtime(text, axis, rates, plan)
}
