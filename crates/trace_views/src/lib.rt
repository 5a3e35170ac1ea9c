//! Answers about a trace for people and for programs: reports and sweeps as JSON, advice for a budget, predictions.
//! A view is one of these, or a report as tables or as a picture; `view_kinds` has what may be asked.
#![tactic(auto)]

mod advice;
mod advice_writing;
mod agreement_document;
mod case_planning;
mod choosing;
mod document;
mod enough;
mod enough_document;
mod error;
mod grid;
mod laws;
mod likely;
mod looks_document;
mod numbers;
mod outlook;
mod plan_document;
mod predicting;
mod prediction_document;
mod ranges_document;
mod report_document;
mod share_document;
mod shown_text;
mod starting;
mod starts_document;
mod sweep_document;
mod sweeping;
mod viewing;

pub use advice::Advice;
pub use choosing::advise;
pub use error::ViewError;
pub use grid::Grid;
pub use laws::one_advice;
pub use outlook::Outlook;
pub use prediction_document::json_prediction;
pub use report_document::json_report;
pub use shown_text::ViewText;
pub use starts_document::json_starts;
pub use sweep_document::json_sweep;
pub use viewing::view_text;
