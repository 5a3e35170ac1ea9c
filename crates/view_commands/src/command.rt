//! The command line: words in, a view or a refusal out.

ghost use Rattle.std.specs.Prelude.{◌≡◌, ◌⊎◌, ◌++◌, ◌∷◌, [], IfErr, IfNone, IfOk, IfSome, None};
ghost use Rattle.std.specs.Prelude.{Bool, Ok, Some};
ghost use Rattle.std.specs.Prelude.{codes, map, string_bytes, true};
ghost use Rattle.clap.specs.Words.{app_of, found_of, rows_of};
ghost use Rattle.job_commands.specs.Commands.{AddsRules, IsLeaf, case_rule, flag_rule, report_rules, sweep_rules};
ghost use Rattle.view_commands.specs.Units.{scale_rules, unit_rules};
ghost use Rattle.view_commands.specs.Views.{IsOutOfMemory};
ghost use Rattle.job_commands.specs.declared.command.WordsError.TheVariants.{Memory};
ghost use Rattle.view_commands.specs.Commands.{IsCommand, IsDocument, json_line, json_words, prediction_rules};
ghost use Rattle.view_commands.specs.Commands.{start_rules, view_line};
ghost use Rattle.view_commands.specs.Starts.{RefusesStarts};
ghost use Rattle.view_commands.specs.Usage.{IsUsage};
ghost use Rattle.view_commands.specs.Views.{AsksForDocument, AsksForPrediction, AsksForView, FailsOn, Names};
ghost use Rattle.view_commands.specs.Views.{RefusesDocument, RefusesPrediction, RefusesSettings, RefusesSweepWords};
ghost use Rattle.view_commands.specs.Views.{RefusesLook, RefusesView, WordsAsk, WordsFail};
ghost use Rattle.view_commands.specs.declared.command.ViewWordsError.TheVariants.{Limits, Words};

use crate::advice::advice_of;
use crate::limits::{LimitsRefusal, with_scale, with_units};
use crate::manners::{migration_of, with_clark};
use crate::measures::{Measure, measure_of, scale_said};
use crate::options::{StyleRefusal, style_of, with_budget, with_style};
use crate::starts::{form_of, starts_of, with_chart, with_starts};
use clap::{ArgMatches, Command};
use job_commands::{
    WordsError, cases_and_workers, leaf_command, number_given, refusal_of, with_cases, with_report,
};
use predictions::units::{Limits, Scale};
use std::alloc::{AllocError, Global};
use view_kinds::{AskedPrediction, AskedStarts, PredictionForm, StartsForm, View};

/// Why words make no view.
#[derive(Debug, Drop)]
pub enum ViewWordsError {
    /// The words are refused as by `precopy`.
    Words(WordsError),
    /// Limits in time and bytes are refused.
    Limits(LimitsRefusal),
}

impl From<WordsError> for ViewWordsError {
    ghost from_gives = { λ error e. e ≡ Words error };

    fn from(error: WordsError) -> ViewWordsError {
        ViewWordsError::Words(error)
    }
}

impl From<LimitsRefusal> for ViewWordsError {
    ghost from_gives = { λ refusal e. e ≡ Limits refusal };

    fn from(refusal: LimitsRefusal) -> ViewWordsError {
        ViewWordsError::Limits(refusal)
    }
}

impl From<AllocError> for ViewWordsError {
    ghost from_gives = { λ _ e. e ≡ Words Memory };

    fn from(_error: AllocError) -> ViewWordsError {
        ViewWordsError::Words(WordsError::Memory)
    }
}

/// A view, and what ticks and pages stand for if an option of limits is given.
#[derive(Debug, Drop)]
pub struct AskedView {
    /// What is shown.
    pub view: View,
    /// What ticks and pages stand for.
    pub scale: Option<Scale>,
}

/// The message for words without a command. `clap` refuses them itself.
const NO_COMMAND: &str = "error: a command is required\n";

/// What `--version` prints after the program's name: the version of all of precopy, as in tools/version.py.
const VERSION: &str = "(precopy) 0.6.0";

/// What follows the help of the program: the word that tells where the page is.
const PAGE: &str =
    "In a browser: `precopy-page` prints the path of a page that plans without a network.";

/// What follows the help of `json`, on the commands below it.
const JSON_COMMANDS: &str =
    "Commands: report, sweep, predict, when. `precopy-view json --help` tells more.";

/// Returns the command with the options of a report, in either kind of words.
fn with_either<'a>(alloc: Global, command: Command<'a>) -> Result<Command<'a>, AllocError>
    ensures { IfOk result (λ new. AddsRules command.entry (report_rules ++ unit_rules) new) }
{
    let command = with_report(alloc, command)?;
    with_units(alloc, command)
}

/// Returns the command with the options of a prediction.
fn with_prediction<'a>(alloc: Global, command: Command<'a>) -> Result<Command<'a>, AllocError>
    ensures { IfOk result (λ new. AddsRules command.entry prediction_rules new) }
{
    let command = with_report(alloc, command)?;
    let command = with_clark(alloc, command)?;
    with_units(alloc, command)
}

/// Returns the command with the cases of a sweep, and with the options of what ticks and pages stand for.
fn with_scaled_cases<'a>(alloc: Global, command: Command<'a>) -> Result<Command<'a>, AllocError>
    ensures { IfOk result (λ new. AddsRules command.entry ((sweep_rules ++ case_rule ∷ []) ++ scale_rules) new) }
{
    let command = with_cases(alloc, command)?;
    with_scale(alloc, command)
}

/// Returns the commands below `json`.
fn json_commands<'a>(alloc: Global) -> Result<Command<'a>, AllocError>
    ensures { IfOk result (λ line. app_of line ≡ json_line) }
{
    let report = "Writes what `precopy report` writes";
    let sweep = "Writes what `precopy sweep` writes";
    let predict = "Writes what `precopy-view predict` writes";
    let when = "Writes what `precopy-view when` writes";
    leaf_command(
        alloc,
        "json",
        "Writes a JSON document about the trace on standard input",
    )
    .bin_name("precopy-view json")?
    .subcommand_required(true)
    .subcommand(with_either(alloc, leaf_command(alloc, "report", report))?)?
    .subcommand(with_scaled_cases(alloc, leaf_command(alloc, "sweep", sweep))?)?
    .subcommand(with_prediction(alloc, leaf_command(alloc, "predict", predict))?)?
    .subcommand(with_starts(alloc, leaf_command(alloc, "when", when))?)
}

/// Returns the command of starts, for people.
fn when_command<'a>(alloc: Global) -> Result<Command<'a>, AllocError>
    ensures { IfOk result (λ new. IsLeaf new (codes "when") (start_rules ++ flag_rule (codes "chart") ∷ [])) }
{
    let when = leaf_command(
        alloc,
        "when",
        "Writes what it costs to migrate at many times, and which is the best; statuses as predict",
    );
    with_chart(alloc, with_starts(alloc, when)?)
}

/// Returns the command of documents, as help lists it.
fn json_command<'a>(alloc: Global) -> Command<'a>
    ensures { IsLeaf result (codes "json") [] }
{
    let json = leaf_command(
        alloc,
        "json",
        "Writes a JSON document about the trace on standard input",
    );
    json.after_help(JSON_COMMANDS)
}

/// Returns the program's commands. Those below `json` have a command line of their own.
fn commands<'a>(alloc: Global) -> Result<Command<'a>, AllocError>
    ensures { IfOk result (λ line. app_of line ≡ view_line) }
{
    let predict =
        "Predicts a migration, in time and bytes; status 3 if it misses its limit, 4 if unknown, 5 if uncertain";
    let advise = "Writes which settings keep a downtime, over the trace on standard input";
    let show = "Writes what `precopy report` writes as tables with bars, for a terminal";
    let chart = "Writes what `precopy report` writes as a picture, in SVG";
    leaf_command(
        alloc,
        "precopy-view",
        "Shows what precopy says about a trace, for people and for programs",
    )
    .version(VERSION)
    .after_help(PAGE)
    .subcommand_required(true)
    .subcommand(with_prediction(alloc, leaf_command(alloc, "predict", predict))?)?
    .subcommand(when_command(alloc)?)?
    .subcommand(json_command(alloc))?
    .subcommand(with_budget(alloc, leaf_command(alloc, "advise", advise))?)?
    .subcommand(with_style(alloc, leaf_command(alloc, "show", show))?)?
    .subcommand(with_either(alloc, leaf_command(alloc, "chart", chart))?)
}

/// Returns the error for words that the command line does not have, with its text.
pub(crate) fn usage(alloc: Global, text: &str) -> ViewWordsError
    ensures { IsUsage text.now result }
{
    match String::from_str(alloc, text) {
        Ok(text) => ViewWordsError::Words(WordsError::Usage(text)),
        Err(_) => ViewWordsError::Words(WordsError::Memory),
    }
}

/// Returns the JSON document of a sweep that its options and cases ask for.
fn json_sweep_of(alloc: Global, options: &ArgMatches) -> Result<AskedView, ViewWordsError>
    ensures made { IfOk result (λ asked. AsksForDocument (codes "sweep") (rows_of (found_of options.now)) asked.view
        asked.scale) }
    ensures refused { IfErr result (RefusesSweepWords (rows_of (found_of options.now))) }
{
    let scale = &scale_said(options)?;
    let (cases, workers) = cases_and_workers(alloc, options)?;
    Ok(AskedView {
        view: View::JsonSweep {
            cases,
            workers,
            scale: *scale,
        },
        scale: *scale,
    })
}

/// Returns the JSON document of a report that its options ask for.
fn json_report_of(options: &ArgMatches) -> Result<AskedView, ViewWordsError>
    ensures made { IfOk result (λ asked. AsksForDocument (codes "report") (rows_of (found_of options.now)) asked.view
        asked.scale) }
    ensures refused { IfErr result (RefusesSettings (rows_of (found_of options.now))) }
{
    let measure = measure_of(options)?;
    Ok(AskedView {
        view: View::JsonReport {
            settings: measure.settings,
            scale: measure.scale,
        },
        scale: measure.scale,
    })
}

/// Returns the JSON document of starts that their options ask for.
fn json_when_of(alloc: Global, options: &ArgMatches) -> Result<AskedView, ViewWordsError>
    ensures made { IfOk result (λ asked. AsksForDocument (codes "when") (rows_of (found_of options.now)) asked.view
        asked.scale) }
    ensures refused { IfErr result (RefusesStarts (rows_of (found_of options.now))) }
{
    let asked = starts_of(alloc, options, StartsForm::Json)?;
    Ok(started(asked))
}

/// Returns the view of starts.
fn started(asked: AskedStarts) -> AskedView
    ensures { (result.view ≡ View.When asked) × (result.scale ≡ Some asked.scale) }
{
    let scale = Some(asked.scale);
    AskedView {
        view: View::When(asked),
        scale,
    }
}

/// Returns the report for a terminal that its options ask for.
fn show_of(
    alloc: Global,
    options: &ArgMatches,
    is_terminal: bool,
) -> Result<AskedView, ViewWordsError>
    ensures made { IfOk result (λ asked. AsksForView is_terminal (codes "show") (rows_of (found_of options.now))
        asked.view asked.scale) }
    ensures refused { IfErr result (λ e. RefusesSettings (rows_of (found_of options.now)) e
        ⊎ RefusesLook (rows_of (found_of options.now)) e) }
{
    let measure = measure_of(options)?;
    match style_of(options, is_terminal) {
        Ok(style) => Ok(AskedView {
            view: View::Show {
                settings: measure.settings,
                scale: measure.scale,
                style,
            },
            scale: measure.scale,
        }),
        Err(StyleRefusal::Width) => Err(usage(alloc, "error: the width is not 72 to 512\n")),
        Err(StyleRefusal::Color) => Err(usage(alloc, "error: --color: auto, always or never\n")),
    }
}

/// Returns the picture that its options ask for.
fn chart_of(options: &ArgMatches) -> Result<AskedView, ViewWordsError>
    ensures made { (terminal : Bool) → IfOk result (λ asked. AsksForView terminal (codes "chart")
        (rows_of (found_of options.now)) asked.view asked.scale) }
    ensures refused { IfErr result (RefusesSettings (rows_of (found_of options.now))) }
{
    let measure = measure_of(options)?;
    Ok(AskedView {
        view: View::Chart {
            settings: measure.settings,
            scale: measure.scale,
        },
        scale: measure.scale,
    })
}

/// Returns the scale and the limits that options ask for, if there are both.
pub(crate) fn limited(measure: &Measure) -> Option<(Scale, Limits)>
    ensures some { IfSome result (λ both. (measure.now.scale ≡ Some both.0) × (measure.now.limits ≡ Some both.1)) }
    ensures none { IfNone result ((measure.now.scale ≡ None) ⊎ (measure.now.limits ≡ None)) }
{
    let scale = measure.scale?;
    let limits = measure.limits?;
    Some((scale, limits))
}

/// Returns the prediction that options ask for, in this form.
fn prediction_of(
    options: &ArgMatches,
    form: PredictionForm,
) -> Result<AskedPrediction, ViewWordsError>
    ensures made { IfOk result (AsksForPrediction (rows_of (found_of options.now)) form) }
    ensures refused { IfErr result (RefusesPrediction (rows_of (found_of options.now))) }
{
    let migration = migration_of(options)?;
    Ok(AskedPrediction {
        settings: migration.settings,
        increment: number_given(options, "inc"),
        scale: migration.scale,
        limits: migration.limits,
        manner: migration.manner,
        form,
    })
}

/// Returns the view of a prediction.
fn predicted(asked: AskedPrediction) -> AskedView
    ensures { (result.view ≡ View.Predict asked) × (result.scale ≡ Some asked.scale) }
{
    let scale = Some(asked.scale);
    AskedView {
        view: View::Predict(asked),
        scale,
    }
}

/// Returns the prediction that its options ask for, for people.
fn predict_of(options: &ArgMatches) -> Result<AskedView, ViewWordsError>
    ensures made { (terminal : Bool) → IfOk result (λ asked. AsksForView terminal (codes "predict")
        (rows_of (found_of options.now)) asked.view asked.scale) }
    ensures refused { IfErr result (RefusesPrediction (rows_of (found_of options.now))) }
{
    let asked = prediction_of(options, PredictionForm::Lines)?;
    Ok(predicted(asked))
}

/// Returns the JSON document of a prediction that its options ask for.
fn json_predict_of(options: &ArgMatches) -> Result<AskedView, ViewWordsError>
    ensures made { IfOk result (λ asked. AsksForDocument (codes "predict") (rows_of (found_of options.now)) asked.view
        asked.scale) }
    ensures refused { IfErr result (RefusesPrediction (rows_of (found_of options.now))) }
{
    let asked = prediction_of(options, PredictionForm::Json)?;
    Ok(predicted(asked))
}

/// Returns the starts that their options ask for, for people.
fn when_of(alloc: Global, options: &ArgMatches) -> Result<AskedView, ViewWordsError>
    ensures made { (terminal : Bool) → IfOk result (λ asked. AsksForView terminal (codes "when")
        (rows_of (found_of options.now)) asked.view asked.scale) }
    ensures refused { IfErr result (RefusesStarts (rows_of (found_of options.now))) }
{
    let asked = starts_of(alloc, options, form_of(options))?;
    Ok(started(asked))
}

/// Returns the view that the command of this name asks for.
fn command_view(
    alloc: Global,
    name: &str,
    options: &ArgMatches,
    is_terminal: bool,
) -> Result<AskedView, ViewWordsError>
    requires { IsCommand name.now }
    ensures made { IfOk result (λ asked. AsksForView is_terminal name.now (rows_of (found_of options.now))
        asked.view asked.scale) }
    ensures refused { IfErr result (RefusesView name.now (rows_of (found_of options.now))) }
{
    match name {
        "predict" => predict_of(options),
        "when" => when_of(alloc, options),
        "advise" => advice_of(options),
        "show" => show_of(alloc, options, is_terminal),
        "chart" => chart_of(options),
        _ => Err(usage(alloc, NO_COMMAND)),
    }
}

/// Returns the document that the command of this name below `json` asks for.
fn command_document(
    alloc: Global,
    name: &str,
    options: &ArgMatches,
) -> Result<AskedView, ViewWordsError>
    requires { IsDocument name.now }
    ensures made { IfOk result (λ asked. AsksForDocument name.now (rows_of (found_of options.now)) asked.view
        asked.scale) }
    ensures refused { IfErr result (RefusesDocument name.now (rows_of (found_of options.now))) }
{
    match name {
        "report" => json_report_of(options),
        "sweep" => json_sweep_of(alloc, options),
        "predict" => json_predict_of(options),
        _ => json_when_of(alloc, options),
    }
}

/// Returns the document that the words ask for, the first being `json`.
fn document_of(alloc: Global, words: &[String]) -> Result<AskedView, ViewWordsError>
    ensures made { IfOk result (λ asked. Names json_line (map string_bytes words.now)
        (λ name rows. AsksForDocument name rows asked.view asked.scale)) }
    ensures failed { IfErr result (λ e. IsOutOfMemory e ⊎ (FailsOn json_line (map string_bytes words.now) e
        ⊎ Names json_line (map string_bytes words.now) (λ name rows. RefusesDocument name rows e))) }
{
    let matches = match json_commands(alloc)?.try_get_matches_from(words) {
        Ok(matches) => matches,
        Err(error) => return Err(ViewWordsError::Words(refusal_of(alloc, &error))),
    };
    match matches.subcommand() {
        Some((name, options)) => command_document(alloc, name, options),
        None => Err(usage(alloc, NO_COMMAND)),
    }
}

/// Returns the view that the words ask for, if the second is not `json`. The first is the program's name.
fn shown_of(alloc: Global, words: &[String], is_terminal: bool) -> Result<AskedView, ViewWordsError>
    ensures made { IfOk result (λ asked. Names view_line (map string_bytes words.now)
        (λ name rows. AsksForView is_terminal name rows asked.view asked.scale)) }
    ensures failed { IfErr result (λ e. IsOutOfMemory e ⊎ (FailsOn view_line (map string_bytes words.now) e
        ⊎ Names view_line (map string_bytes words.now) (λ name rows. RefusesView name rows e))) }
{
    let matches = match commands(alloc)?.try_get_matches_from(words) {
        Ok(matches) => matches,
        Err(error) => return Err(ViewWordsError::Words(refusal_of(alloc, &error))),
    };
    match matches.subcommand() {
        Some((name, options)) => command_view(alloc, name, options, is_terminal),
        None => Err(usage(alloc, NO_COMMAND)),
    }
}

/// Returns the words from `json` on, if it follows the program's name.
fn json_words(words: &[String]) -> Option<&[String]>
    ensures some { IfSome result (λ below. json_words (map string_bytes words.now)
        ≡ Some (map string_bytes below.now)) }
    ensures none { IfNone result (json_words (map string_bytes words.now) ≡ None) }
{
    match words {
        [_, word, ..] if word.as_str() == "json" => Some(&words[1..]),
        _ => None,
    }
}

/// Returns the view that the words ask for, the first being the program's name. Standard output is a terminal or not,
/// which decides on colors that the words leave to it.
pub fn view_of(
    alloc: Global,
    words: &[String],
    is_terminal: bool,
) -> Result<AskedView, ViewWordsError>
    ensures made { IfOk result (λ asked. WordsAsk is_terminal (map string_bytes words.now) asked) }
    ensures failed { IfErr result (λ e. WordsFail (map string_bytes words.now) e) }
{
    match json_words(words) {
        Some(below) => document_of(alloc, below),
        None => shown_of(alloc, words, is_terminal),
    }
}
