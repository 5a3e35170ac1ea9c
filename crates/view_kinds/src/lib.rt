//! The views of precopy-view as values: what can be asked for about one trace.
#![tactic(auto)]

mod budget;
mod style;
mod view;

pub use budget::Budget;
pub use style::Style;
pub use view::{AskedPrediction, AskedStarts, Measured, PredictionForm, StartsForm, View};
