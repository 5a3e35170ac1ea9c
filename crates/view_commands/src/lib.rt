//! The words of precopy-view's command line: words in, a view or a refusal out.
//!
//! Limits of a migration are words too: times, rates and samples, and the options that take them.
#![tactic(auto)]

mod advice;
mod command;
mod decimals;
mod limits;
mod manners;
mod measures;
mod nearest;
mod options;
mod quantities;
mod ranges;
mod starts;

pub use command::{AskedView, ViewWordsError, view_of};
pub use job_commands::{WordsError, WordsRefusal, words};
pub use limits::LimitsRefusal;
pub use ranges::RangeRefusal;
