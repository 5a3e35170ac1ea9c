//! What a migration will be, in time and bytes: predictions of one plan and of many starts, how far chance moves those
//! of a sample, and what is enough for a limit.
#![tactic(auto)]

pub mod agreement;
mod answer;
mod cost;
mod course;
mod hosts;
mod laws;
pub mod looks;
mod measure;
mod prediction;
mod prediction_text;
mod quantities;
mod question;
pub mod redrawn;
pub mod remedies;
pub mod shares;
pub mod starts;
pub mod units;
mod verdict;

pub use answer::{Answer, ErrorNumbers, number_of_reason};
pub use cost::Cost;
pub use course::{Course, CourseEnd, Manner, course_in, one_course};
pub use hosts::{link_in_mib, millis_for_pages, push_hosts};
pub use laws::{
    accepted_starts_are_not_refused, one_agreement, one_answer, one_best, one_errors,
    one_link_share, one_list_of_cases, one_ranges, one_refused_limit, one_refused_question,
    one_refused_start, one_set_of_remedies, one_worst,
};
pub use measure::Measure;
pub use prediction::{Prediction, one_prediction};
pub use prediction_text::push_prediction;
pub use quantities::{push_bytes, push_error, push_moment, push_time, push_wide};
pub use question::{Misfit, Question, Terms, check_fit, one_misfit};
pub use verdict::Verdict;
