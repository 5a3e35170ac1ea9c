//! What can be shown about a trace.

use crate::budget::Budget;
use crate::style::Style;
use predictions::Manner;
use predictions::starts::Starts;
use predictions::units::{Limits, Scale};
use rate_limit::Settings;

/// How starts are shown.
#[derive(Clone, Copy, Debug, PartialEq, Eq)]
pub enum StartsForm {
    /// As a table.
    Table,
    /// As a JSON document.
    Json,
    /// As a picture.
    Chart,
}

/// Which migration begins at which ticks, and how that is shown.
#[derive(Clone, Copy, Debug)]
pub struct AskedStarts {
    /// The settings of the plans. Each start replaces theirs.
    pub settings: Settings,
    /// What ticks and pages stand for.
    pub scale: Scale,
    /// What the migration may take.
    pub limits: Limits,
    /// By whose plan it goes.
    pub manner: Manner,
    /// The ticks at which it begins.
    pub starts: Starts,
    /// How the starts are shown.
    pub form: StartsForm,
}

/// How a prediction is written.
#[derive(Clone, Copy, Debug, PartialEq, Eq)]
pub enum PredictionForm {
    /// As lines.
    Lines,
    /// As a JSON document.
    Json,
}

/// Which migration is predicted, and how that is written.
#[derive(Clone, Copy, Debug)]
pub struct AskedPrediction {
    /// The settings of the plan.
    pub settings: Settings,
    /// What is added to a dirtying rate, in pages per 1,000 ticks, if that is given. Limits make it if not.
    pub increment: Option<u64>,
    /// What ticks and pages stand for.
    pub scale: Scale,
    /// What the migration may take.
    pub limits: Limits,
    /// By whose plan it goes.
    pub manner: Manner,
    /// How the prediction is written.
    pub form: PredictionForm,
}

/// What ticks and pages of a trace stand for, and what the migration may take.
#[derive(Clone, Copy, Debug, PartialEq, Eq)]
pub struct Measured {
    /// What ticks and pages stand for.
    pub scale: Scale,
    /// What the migration may take.
    pub limits: Limits,
}

/// One answer about a trace.
#[derive(Debug, Drop)]
pub enum View {
    /// The facts of a report, as a JSON document.
    JsonReport {
        settings: Settings,
        scale: Option<Scale>,
    },
    /// The facts of a sweep, as a JSON document. Up to `workers` workers, 1 to 16, plan side by side.
    JsonSweep {
        cases: Vec<Settings>,
        workers: usize,
        scale: Option<Scale>,
    },
    /// The case to take for a budget, of a grid around some settings. If limits are known, it also says what that case
    /// costs in time and bytes.
    Advise {
        budget: Budget,
        settings: Settings,
        measured: Option<Measured>,
    },
    /// The report as tables with bars, for a terminal.
    Show {
        settings: Settings,
        scale: Option<Scale>,
        style: Style,
    },
    /// The report as a picture.
    Chart {
        settings: Settings,
        scale: Option<Scale>,
    },
    /// What a migration will be, in time and bytes, and whether it keeps its limit.
    Predict(AskedPrediction),
    /// What the same migration costs from each of some starts, and which is the best.
    When(AskedStarts),
}
