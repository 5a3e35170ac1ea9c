//! A prediction as lines.

ghost use Rattle.std.specs.Prelude.{◌≡◌, ◌++◌, ◌∷◌, ◌<◌, ◌^◌, [], OnOk, Some, codes, not};
ghost use Rattle.predictions.specs.Courses.Ends.{converges};
ghost use Rattle.predictions.specs.Predictions.{verdict_word};
ghost use Rattle.predictions.specs.Quantities.{bytes_text, time_text};
ghost use Rattle.predictions.specs.Texts.{cost_lines, doubt_line, downtime_line, end_warning, ending, ending_words};
ghost use Rattle.predictions.specs.Texts.{errors_line, facts_text, known_text, line_if, prediction_text, steps_word};
ghost use Rattle.predictions.specs.Texts.{time_line, unknown_text, verdict_line, warnings};
ghost use Rattle.sweep_report.specs.Lines.{line};

use crate::agreement::{Agreement, push_converging, push_kept, withstands};
use crate::cost::Cost;
use crate::course::{CourseEnd, Manner};
use crate::prediction::Prediction;
use crate::quantities::{push_bytes, push_error, push_time};
use crate::redrawn::Errors;
use crate::verdict::Verdict;
use std::alloc::AllocError;
use sweep_report::{end_line, push_field};

/// How many pages must be left for chance to move the downtime by less than a tenth.
const MANY_PAGES: u64 = 100;

/// What is printed if the trace ends before the migration does.
const UNKNOWN: &str =
    "converges: unknown, the trace ends before the migration does; record longer\n";

/// Returns what is said of an end, if more than few pages are left.
fn ending_of(end: CourseEnd) -> &'static str
    ensures { result.now ≡ ending end }
{
    match end {
        CourseEnd::Few => "",
        CourseEnd::Fits => "",
        CourseEnd::Fast => "; the guest writes faster than the link sends",
        CourseEnd::Rounds => "; all rounds that are allowed are done",
        CourseEnd::Looks => "; 2,000 looks are done",
        CourseEnd::Cut => "; the trace ends first",
        CourseEnd::Level => "; the trace ends first, and the lists did not get shorter",
    }
}

/// Returns what a plan is a number of.
fn steps_word(manner: Manner) -> &'static str
    ensures { result.now ≡ steps_word manner }
{
    match manner {
        Manner::Looks => "; looks: ",
        Manner::Rounds => "; rounds: ",
    }
}

/// Appends why a plan ends, and after how many rounds or looks.
fn push_ending(
    text: &mut Vec<u8>,
    manner: Manner,
    end: CourseEnd,
    steps: u64,
) -> Result<(), AllocError>
    ensures { OnOk result (text.new.items ≡ text.old.items ++ ending_words manner end steps) }
{
    text.extend_from_slice(ending_of(end).as_bytes())?;
    push_field(text, steps_word(manner), steps)?;
    Ok(())
}

/// Appends whether a migration converges.
fn push_answer(text: &mut Vec<u8>, verdict: Verdict) -> Result<(), AllocError>
    ensures { OnOk result (text.new.items ≡ text.old.items ++ (codes "converges: " ++ verdict_word verdict)) }
{
    text.extend_from_slice("converges: ".as_bytes())?;
    text.extend_from_slice(verdict.word().as_bytes())?;
    Ok(())
}

/// Appends the line on convergence.
fn push_verdict(
    text: &mut Vec<u8>,
    agreement: &Agreement,
    verdict: Verdict,
    prediction: &Prediction,
) -> Result<(), AllocError>
    ensures { OnOk result (text.new.items ≡ text.old.items ++ verdict_line agreement.now verdict prediction.now) }
{
    let Prediction {
        manner,
        ending,
        cost,
        ..
    } = prediction;
    push_answer(text, verdict)?;
    push_converging(text, agreement)?;
    push_ending(text, *manner, *ending, cost.steps)?;
    end_line(text)?;
    Ok(())
}

/// Appends the line on the total time.
fn push_time_line(text: &mut Vec<u8>, time: u128) -> Result<(), AllocError>
    ensures { OnOk result (text.new.items ≡ text.old.items ++ time_line time) }
{
    text.extend_from_slice("total time: ".as_bytes())?;
    push_time(text, time)?;
    end_line(text)?;
    Ok(())
}

/// Appends the line on what is sent.
fn push_sent(text: &mut Vec<u8>, bytes: u128) -> Result<(), AllocError>
    requires { bytes < 2 ^ 120 }
    ensures { OnOk result (text.new.items ≡ text.old.items ++ line (codes "sent: " ∷ bytes_text bytes ∷ [])) }
{
    text.extend_from_slice("sent: ".as_bytes())?;
    push_bytes(text, bytes)?;
    end_line(text)
}

/// Appends a downtime and its limit.
fn push_times(text: &mut Vec<u8>, downtime: u128, limit: u64) -> Result<(), AllocError>
    ensures { OnOk result (text.new.items ≡ text.old.items
        ++ (codes "downtime: " ++ (time_text downtime ++ (codes ", limit: " ++ time_text limit)))) }
{
    text.extend_from_slice("downtime: ".as_bytes())?;
    push_time(text, downtime)?;
    text.extend_from_slice(", limit: ".as_bytes())?;
    push_time(text, limit as u128)
}

/// Appends the line on the downtime.
fn push_downtime(
    text: &mut Vec<u8>,
    downtime: u128,
    limit: u64,
    kept: Verdict,
    agreement: &Agreement,
) -> Result<(), AllocError>
    ensures { OnOk result (text.new.items ≡ text.old.items ++ downtime_line limit agreement.now kept downtime) }
{
    push_times(text, downtime, limit)?;
    text.extend_from_slice(", kept: ".as_bytes())?;
    text.extend_from_slice(kept.word().as_bytes())?;
    push_kept(text, agreement)?;
    end_line(text)?;
    Ok(())
}

/// Appends what a migration costs, and whether it keeps its limit.
fn push_cost(
    text: &mut Vec<u8>,
    limit: u64,
    agreement: &Agreement,
    kept: Verdict,
    cost: &Cost,
) -> Result<(), AllocError>
    ensures { OnOk result (text.new.items ≡ text.old.items ++ cost_lines limit agreement.now kept cost.now) }
{
    push_time_line(text, cost.time)?;
    push_sent(text, cost.bytes)?;
    push_downtime(text, cost.downtime, limit, kept, agreement)?;
    Ok(())
}

/// Appends what a migration will be.
fn push_facts(
    text: &mut Vec<u8>,
    limit: u64,
    prediction: &Prediction,
    errors: &Option<Errors>,
    agreement: &Agreement,
) -> Result<(), AllocError>
    ensures { OnOk result (text.new.items ≡ text.old.items
        ++ facts_text limit agreement.now prediction.now errors.now) }
{
    let converges = agreement.verdict(prediction);
    push_verdict(text, agreement, converges, prediction)?;
    let cost = &prediction.cost;
    let kept = agreement.kept(limit, cost, errors);
    push_cost(text, limit, agreement, kept, cost)?;
    Ok(())
}

/// Appends a line, if something holds.
fn push_if(text: &mut Vec<u8>, holds: bool, words: &str) -> Result<(), AllocError>
    ensures { OnOk result (text.new.items ≡ text.old.items ++ line_if holds words.now) }
{
    if !holds {
        return Ok(());
    }
    text.extend_from_slice(words.as_bytes())?;
    end_line(text)
}

/// Returns whether a plan has another end than `few`.
fn is_early(ending: CourseEnd) -> bool
    ensures { result ≡ not (converges ending) }
{
    !ending.converges()
}

/// Returns what an end other than `few` says of the downtime.
fn warning_of(ending: CourseEnd) -> &'static str
    ensures { result.now ≡ end_warning ending }
{
    match ending {
        CourseEnd::Few => "",
        CourseEnd::Fits => "",
        CourseEnd::Fast => {
            "warning: the plan ends with `fast`, so nothing bounds the downtime; give more of the link"
        }
        CourseEnd::Rounds => {
            "warning: the plan ends with `rounds`, so nothing bounds the downtime; allow more rounds"
        }
        CourseEnd::Looks => {
            "warning: the plan ends with `looks`; a hypervisor goes on, and takes longer; give more of the link"
        }
        CourseEnd::Cut => {
            "warning: the plan ends with `cut`; a hypervisor goes on, and takes longer; give more of the link"
        }
        CourseEnd::Level => {
            "warning: the plan ends with `level`; a hypervisor goes on, and takes longer; give more of the link"
        }
    }
}

/// Appends what speaks against a prediction, a line each.
fn push_warnings(text: &mut Vec<u8>, prediction: &Prediction) -> Result<(), AllocError>
    ensures { OnOk result (text.new.items ≡ text.old.items ++ warnings prediction.now) }
{
    push_if(
        text,
        prediction.left < MANY_PAGES,
        "warning: fewer than 100 pages decided the stop; chance moves it",
    )?;
    let ending = prediction.ending;
    push_if(text, is_early(ending), warning_of(ending))?;
    Ok(())
}

/// Appends the line on standard errors.
fn push_all(text: &mut Vec<u8>, errors: &Errors) -> Result<(), AllocError>
    ensures { OnOk result (text.new.items ≡ text.old.items ++ errors_line (Some errors.now)) }
{
    text.extend_from_slice("standard errors: sent ".as_bytes())?;
    push_bytes(text, errors.bytes)?;
    text.extend_from_slice(", time ".as_bytes())?;
    push_error(text, errors.time)?;
    text.extend_from_slice(", downtime ".as_bytes())?;
    push_error(text, errors.downtime)?;
    end_line(text)?;
    Ok(())
}

/// Appends the line on standard errors, if they are given.
fn push_errors(text: &mut Vec<u8>, errors: &Option<Errors>) -> Result<(), AllocError>
    ensures { OnOk result (text.new.items ≡ text.old.items ++ errors_line errors.now) }
{
    match errors {
        Some(errors) => push_all(text, errors),
        None => Ok(()),
    }
}

/// Appends a warning if the plan keeps the limit, but not with two standard errors of the downtime.
fn push_doubt(
    text: &mut Vec<u8>,
    limit: u64,
    prediction: &Prediction,
    errors: &Option<Errors>,
) -> Result<(), AllocError>
    ensures { OnOk result (text.new.items ≡ text.old.items ++ doubt_line limit prediction.now.cost errors.now) }
{
    let is_doubtful = !withstands(limit, &prediction.cost, errors);
    push_if(
        text,
        is_doubtful,
        "warning: the limit is kept by less than two standard errors",
    )
}

/// Appends what is known of a migration that ends within the trace.
fn push_known(
    text: &mut Vec<u8>,
    limit: u64,
    prediction: &Prediction,
    errors: &Option<Errors>,
    agreement: &Agreement,
) -> Result<(), AllocError>
    ensures { OnOk result (text.new.items ≡ text.old.items
        ++ known_text limit agreement.now prediction.now errors.now) }
{
    push_facts(text, limit, prediction, errors, agreement)?;
    push_errors(text, errors)?;
    push_doubt(text, limit, prediction, errors)?;
    push_warnings(text, prediction)
}

/// Appends what is known of a migration if the trace ends before it.
fn push_unknown(text: &mut Vec<u8>, recorded: u128) -> Result<(), AllocError>
    ensures { OnOk result (text.new.items ≡ text.old.items ++ unknown_text recorded) }
{
    text.extend_from_slice(UNKNOWN.as_bytes())?;
    text.extend_from_slice("total time: more than ".as_bytes())?;
    push_time(text, recorded)?;
    end_line(text)?;
    Ok(())
}

/// Appends a prediction as lines, in ASCII: how the migration ends, its time, what it sends, its downtime beside the
/// limit, in microseconds, how far chance moves these, and what speaks against the prediction. If the trace ends before
/// the migration does, the lines say so, and nothing else but the least time.
pub fn push_prediction(
    text: &mut Vec<u8>,
    limit: u64,
    prediction: &Prediction,
    errors: &Option<Errors>,
    agreement: &Agreement,
) -> Result<(), AllocError>
    ensures { OnOk result (text.new.items ≡ text.old.items
        ++ prediction_text limit agreement.now prediction.now errors.now) }
{
    if prediction.cost.is_late {
        push_unknown(text, prediction.recorded)
    } else {
        push_known(text, limit, prediction, errors, agreement)
    }
}
