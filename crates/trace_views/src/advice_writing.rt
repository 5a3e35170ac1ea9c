//! Advice as a text.

ghost use Rattle.std.specs.Prelude.{◌≡◌, ◌++◌, IfOk, OnOk, if◌then◌else◌, codes};
ghost use Rattle.std.specs.List.{flat_map};
ghost use Rattle.trace_views.specs.AdviceText.{advice_head, base_field, budget_line, choice_text, cost_line};
ghost use Rattle.trace_views.specs.AdviceText.{grid_lines, live_line, measures_line, number_fields, numbers_line};
ghost use Rattle.trace_views.specs.AdviceText.{reason_fields, reason_line, total_field, within_words};

use crate::advice::Advice;
use crate::grid::Grid;
use predictions::redrawn::Errors;
use predictions::starts::push_spread;
use predictions::{Cost, push_bytes, push_time};
use rate_limit::Settings;
use std::alloc::{AllocError, Global};
use sweep_report::{Line, end_line, push_case, push_field};
use view_kinds::Budget;

/// Appends numbers, with a blank before each.
fn push_list(text: &mut Vec<u8>, numbers: &[u64]) -> Result<(), AllocError>
    ensures { OnOk result (text.new.items ≡ text.old.items ++ number_fields numbers.now) }
{
    for number in numbers {
        push_field(text, " ", *number)?;
    }
    Ok(())
}

/// Appends a line of some words followed by numbers.
fn push_numbers(text: &mut Vec<u8>, words: &str, numbers: &[u64]) -> Result<(), AllocError>
    ensures { OnOk result (text.new.items ≡ text.old.items ++ numbers_line words.now numbers.now) }
{
    text.extend_from_slice(words.as_bytes())?;
    push_list(text, numbers)?;
    end_line(text)
}

/// Appends the most pages of a budget, if it limits them.
fn push_total(text: &mut Vec<u8>, total: Option<u64>) -> Result<(), AllocError>
    ensures { OnOk result (text.new.items ≡ text.old.items ++ total_field total) }
{
    match total {
        Some(total) => push_field(text, " total ", total),
        None => Ok(()),
    }
}

/// Appends the line on a budget.
fn push_budget(text: &mut Vec<u8>, budget: &Budget) -> Result<(), AllocError>
    ensures { OnOk result (text.new.items ≡ text.old.items ++ budget_line budget.now) }
{
    push_field(text, "budget down ", budget.down)?;
    push_total(text, budget.total)?;
    end_line(text)?;
    Ok(())
}

/// Appends the lines on a grid: what all cases have, and the values of each axis.
fn push_grid(text: &mut Vec<u8>, settings: &Settings, grid: &Grid) -> Result<(), AllocError>
    ensures { OnOk result (text.new.items ≡ text.old.items ++ grid_lines settings.now grid.now) }
{
    let asked = settings.asked();
    push_numbers(text, "grid start", &[asked.start])?;
    push_numbers(text, "grid max", &[asked.max])?;
    push_numbers(text, "grid min", &grid.min)?;
    push_numbers(text, "grid inc", &grid.increment)?;
    push_numbers(text, "grid threshold", &grid.threshold)?;
    push_numbers(text, "grid limit", &grid.rounds)?;
    push_numbers(text, "grid skip", &[0, 1])?;
    Ok(())
}

/// Returns the words on a downtime that cases keep, or are likely to keep if errors are counted.
fn within_down(errors: &Option<Errors>) -> &'static str
    ensures { result.now ≡ within_words errors.now }
{
    match errors {
        Some(_) => " likely within down ",
        None => " within down ",
    }
}

/// Appends whether a case keeps the budget, and if not, why none does.
fn push_reason(
    text: &mut Vec<u8>,
    budget: &Budget,
    advice: &Advice,
    errors: &Option<Errors>,
) -> Result<(), AllocError>
    ensures { OnOk result (text.new.items
        ≡ text.old.items ++ flat_map (λ f. f) (reason_fields budget.now advice.now errors.now)) }
{
    match advice {
        Advice::Fits(case) => push_field(text, " fits ", *case as u64),
        Advice::OverDown(nearest) => {
            text.extend_from_slice(" none".as_bytes())?;
            push_field(text, within_down(errors), budget.down)?;
            push_field(text, " nearest ", *nearest as u64)
        }
        Advice::OverTotal { nearest, cheapest } => {
            push_field(
                text,
                " none within total ",
                budget.total.unwrap_or(u64::MAX),
            )?;
            text.extend_from_slice(" of those".as_bytes())?;
            push_field(text, within_down(errors), budget.down)?;
            push_field(text, " cheapest ", *cheapest as u64)?;
            push_field(text, " nearest ", *nearest as u64)
        }
        Advice::Unknown => text.extend_from_slice(" none ends within the trace".as_bytes()),
    }
}

/// Appends the line of how many cases there are, and which of them keeps the budget or why none does.
fn push_count(
    text: &mut Vec<u8>,
    budget: &Budget,
    cases: usize,
    advice: &Advice,
    errors: &Option<Errors>,
) -> Result<(), AllocError>
    ensures { OnOk result (text.new.items ≡ text.old.items ++ reason_line budget.now cases advice.now errors.now) }
{
    push_field(text, "cases ", cases as u64)?;
    push_reason(text, budget, advice, errors)?;
    end_line(text)
}

/// Appends the words that run a live migration with some settings.
pub(crate) fn push_live(text: &mut Vec<u8>, settings: &Settings) -> Result<(), AllocError>
    ensures { OnOk result (text.new.items ≡ text.old.items ++ live_line settings.now) }
{
    let asked = settings.asked();
    push_field(text, "precopy live --min ", asked.min)?;
    push_field(text, " --max ", asked.max)?;
    push_field(text, " --inc ", asked.increment)?;
    push_field(text, " --threshold ", asked.threshold)?;
    push_field(text, " --rounds ", asked.rounds)?;
    push_field(text, " --start ", asked.start)?;
    push_base(text, asked.base)?;
    push_skip(text, asked.skip)?;
    end_line(text)?;
    Ok(())
}

/// Appends the option for a base, if there is one.
fn push_base(text: &mut Vec<u8>, base: Option<u64>) -> Result<(), AllocError>
    ensures { OnOk result (text.new.items ≡ text.old.items ++ base_field base) }
{
    match base {
        Some(base) => push_field(text, " --base ", base),
        None => Ok(()),
    }
}

/// Appends the word for skipping, if it is on.
fn push_skip(text: &mut Vec<u8>, skip: bool) -> Result<(), AllocError>
    ensures { OnOk result (text.new.items ≡ text.old.items ++ (if skip then codes " --skip" else codes "")) }
{
    let word = if skip { " --skip" } else { "" };
    text.extend_from_slice(word.as_bytes())
}

/// Appends what a case costs in time and bytes, if that is known.
fn push_cost(
    text: &mut Vec<u8>,
    cost: &Option<Cost>,
    errors: &Option<Errors>,
) -> Result<(), AllocError>
    ensures { OnOk result (text.new.items ≡ text.old.items ++ cost_line cost.now errors.now) }
{
    match cost {
        Some(cost) => push_measures(text, cost, errors),
        None => Ok(()),
    }
}

/// Appends the line of what a migration costs in time and bytes.
fn push_measures(text: &mut Vec<u8>, cost: &Cost, errors: &Option<Errors>) -> Result<(), AllocError>
    ensures { OnOk result (text.new.items ≡ text.old.items ++ measures_line cost.now errors.now) }
{
    text.extend_from_slice("time ".as_bytes())?;
    push_time(text, cost.time)?;
    text.extend_from_slice(", sent ".as_bytes())?;
    push_bytes(text, cost.bytes)?;
    text.extend_from_slice(", downtime ".as_bytes())?;
    push_time(text, cost.downtime)?;
    push_spread(text, errors)?;
    end_line(text)
}

/// Appends a case: what it costs in time and bytes if that is known, its line, and the words that run it.
pub(crate) fn push_choice(
    text: &mut Vec<u8>,
    case: usize,
    line: &Line,
    cost: &Option<Cost>,
    errors: &Option<Errors>,
) -> Result<(), AllocError>
    ensures { OnOk result (text.new.items ≡ text.old.items ++ choice_text case line.now cost.now errors.now) }
{
    push_cost(text, cost, errors)?;
    push_case(text, case, line)?;
    push_live(text, &line.settings)?;
    Ok(())
}

/// Returns what precedes the advised case, which has these errors: the budget, the grid, and whether a case keeps the
/// budget or why none does. The text is ASCII.
pub(crate) fn advice_head(
    alloc: Global,
    budget: &Budget,
    settings: &Settings,
    grid: &Grid,
    cases: usize,
    advice: &Advice,
    errors: &Option<Errors>,
) -> Result<Vec<u8>, AllocError>
    ensures { IfOk result (λ text. text.items
        ≡ advice_head budget.now settings.now grid.now cases advice.now errors.now) }
{
    let mut text = Vec::new(alloc);
    push_budget(&mut text, budget)?;
    push_grid(&mut text, settings, grid)?;
    push_count(&mut text, budget, cases, advice, errors)?;
    Ok(text)
}
