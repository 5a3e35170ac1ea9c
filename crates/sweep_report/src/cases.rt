//! The text of a sweep.

ghost use Rattle.std.specs.Prelude.{◌≡◌, ◌≤◌, ◌<◌, ◌++◌, if◌then◌else◌, IfErr, IfOk, OnOk, length};
ghost use Rattle.std.specs.List.{flat_map};
ghost use Rattle.migration_model.specs.Sweeps.{best_of, is_better};
ghost use Rattle.sweep_report.specs.Lines.{best_line, case_fields, case_line, outcome_fields};
ghost use Rattle.sweep_report.specs.Texts.{case_lines, sweep_of};

use crate::error::SweepError;
use crate::line::Line;
use crate::lines::{end_line, push_field};
use rate_limit::Settings;
use std::alloc::{AllocError, Global};

/// Returns the number that stands for a flag.
fn flag(given: bool) -> u64
    ensures { result ≡ (if given then 1 else 0) }
{
    if given { 1 } else { 0 }
}

/// Appends the settings of a case.
fn push_settings(text: &mut Vec<u8>, number: usize, settings: &Settings) -> Result<(), AllocError>
    ensures { OnOk result (text.new.items ≡ text.old.items ++ flat_map (λ f. f) (case_fields number settings.now)) }
{
    let asked = settings.asked();
    push_field(text, "case ", number as u64)?;
    push_field(text, " min ", asked.min)?;
    push_field(text, " max ", asked.max)?;
    push_field(text, " inc ", asked.increment)?;
    push_field(text, " threshold ", asked.threshold)?;
    push_field(text, " limit ", asked.rounds)?;
    push_field(text, " skip ", flag(asked.skip))?;
    Ok(())
}

/// Appends the sums of a plan.
fn push_outcome(text: &mut Vec<u8>, line: &Line) -> Result<(), AllocError>
    ensures { OnOk result (text.new.items ≡ text.old.items ++ flat_map (λ f. f) (outcome_fields line.now.outcome)) }
{
    push_field(text, " rounds ", line.rounds)?;
    text.extend_from_slice(" stop ".as_bytes())?;
    text.extend_from_slice(line.reason.word().as_bytes())?;
    push_field(text, " at ", line.stop)?;
    push_field(text, " down ", line.down)?;
    push_field(text, " total ", line.total)?;
    Ok(())
}

/// Appends the line of a case: its number, its settings and the sums of its plan.
pub fn push_case(text: &mut Vec<u8>, number: usize, line: &Line) -> Result<(), AllocError>
    ensures { OnOk result (text.new.items ≡ text.old.items ++ case_line number line.now) }
{
    push_settings(text, number, &line.settings)?;
    push_outcome(text, line)?;
    end_line(text)?;
    Ok(())
}

/// Appends a line for each case.
fn push_cases(text: &mut Vec<u8>, lines: &[Line]) -> Result<(), AllocError>
    ensures { OnOk result (text.new.items ≡ text.old.items ++ case_lines lines.now) }
{
    for (number, line) in lines.iter().enumerate() {
        push_case(text, number, line)?;
    }
    Ok(())
}

/// Returns whether a line has less downtime than another, or equal downtime and fewer pages sent.
fn is_lesser(line: &Line, other: &Line) -> bool
    ensures { result ≡ is_better line.now other.now }
{
    line.down < other.down || line.down == other.down && line.total < other.total
}

/// Returns the index of the best of some lines: the first with the least pair of downtime and pages sent.
pub fn best_case(lines: &[Line]) -> usize
    requires { 1 ≤ length lines.now }
    ensures value { result ≡ best_of lines.now }
    ensures inside { result < length lines.now }
{
    let mut best = 0;
    for number in 1..lines.len() {
        if is_lesser(&lines[number], &lines[best]) {
            best = number;
        }
    }
    best
}

/// Appends the line on the best case.
fn push_best(text: &mut Vec<u8>, number: usize) -> Result<(), AllocError>
    ensures { OnOk result (text.new.items ≡ text.old.items ++ best_line number) }
{
    push_field(text, "best ", number as u64)?;
    end_line(text)?;
    Ok(())
}

/// Returns the text of a sweep: ASCII, a line for each case, and one on the best of them. Of no lines it is empty.
pub fn sweep_text(alloc: Global, lines: &[Line]) -> Result<Vec<u8>, SweepError>
    ensures written { IfOk result (λ text. text.items ≡ sweep_of lines.now) }
    ensures refused { IfErr result (λ e. e ≡ SweepError.Memory) }
{
    let mut text = Vec::new(alloc);
    if lines.is_empty() {
        return Ok(text);
    }
    push_cases(&mut text, lines)?;
    push_best(&mut text, best_case(lines))?;
    Ok(text)
}
