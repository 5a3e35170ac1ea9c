//! How sure an answer is: in how many draws of a sample, and from how many starts, it is the same.

mod asking;
mod counts;
mod drawing;
mod numbers;
mod starting;
mod verdicts;
mod words;

pub use asking::asked_of_draws;
pub use counts::AnswerCounts;
pub use drawing::draw_counts;
pub use numbers::AgreementNumbers;
pub use starting::start_counts;
pub use verdicts::Agreement;
pub(crate) use verdicts::withstands;
pub(crate) use words::{push_converging, push_kept};
